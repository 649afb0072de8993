//! The arguments of a call that are expressions by themselves, which are read before a frame is opened.
ghost use Rattle.std.specs.Prelude.{◌≡◌, ◌∷◌, [], ◌^◌, ◌<◌, ◌≤◌, suc, length, IfOk, OnOk};
ghost use Rattle.asl_parser.specs.Calls.{SignIs, HoldsArgument, Reads, stage_of as stage_by};
ghost use Rattle.asl_syntax.specs.Grow.{no_subtrees, limit};
ghost use Rattle.asl_syntax.specs.Frames.{depth};
ghost use Rattle.asl_syntax.specs.Marks.{mark, marks, lexeme};
ghost use Rattle.asl_parser.specs.Reading.{Passes};
ghost use Rattle.asl_parser.specs.Stages.{state_of, Holds};
ghost use Rattle.asl_syntax.specs.declared.frame.Frame.TheVariants as frames;
ghost use Rattle.asl_parser.specs.declared.state.ParserState.TheVariants as states;

use crate::plain::{hold_plain, is_plain};
use crate::stage::{Stage, set_called};
use asl_lexer::token::Token;
use asl_syntax::{FrameKind, Look, Sign, Spot, Stack, look_of};
use std::alloc::AllocError;

/// How far the arguments of a call were read.
#[derive(Clone, Copy)]
pub enum Arguments {
    /// Not at all.
    Unread,
    /// Up to a comma.
    Open,
    /// Up to their end.
    Closed,
}

// How far arguments are read where this token stands behind one.
fn behind_argument(token: &Token) -> Arguments
    ensures { SignIs result (lexeme token.now) }
{
    match look_of(token) {
        Look::Sign(Sign::Comma) => Arguments::Open,
        Look::Sign(Sign::RightParen) => Arguments::Closed,
        _ => Arguments::Unread,
    }
}

// Holds an argument that is an expression by itself, behind which a comma or the end of the arguments stands.
#[inline(always)]
fn hold_argument(
    stack: &mut Stack<'_>,
    number: u32,
    first: &Token,
    second: &Token,
) -> Result<Arguments, AllocError>
    ensures { IfOk result (λ read. HoldsArgument read (mark number first.now ∷ mark (suc number) second.now ∷ []) stack.old stack.new) }
{
    if !is_plain(first.kind) {
        return Ok(Arguments::Unread);
    }
    let read = behind_argument(second);
    if let Arguments::Unread = read {
        return Ok(Arguments::Unread);
    }
    if hold_plain(stack, number, first)? {
        return Ok(read);
    }
    Ok(Arguments::Unread)
}

// Holds the arguments from a place on, as far as they are expressions by themselves. Answers the place behind them.
#[inline(always)]
fn hold_arguments(
    stack: &mut Stack<'_>,
    tokens: &[Token],
    from: usize,
) -> Result<(usize, Arguments), AllocError>
    requires few { length tokens.now < 2 ^ 32 }
    requires within { from ≤ length tokens.now }
    requires low { depth stack.old.1 < limit }
    ensures { IfOk result (λ read. Reads (marks 0 tokens.now) from read.0 read.1 stack.old stack.new) }
{
    let mut at = from;
    let mut read = Arguments::Unread;
    while 1 < tokens.len() - at {
        match hold_argument(stack, at as u32, &tokens[at], &tokens[at + 1])? {
            Arguments::Unread => return Ok((at, read)),
            Arguments::Open => {}
            Arguments::Closed => return Ok((at + 2, Arguments::Closed)),
        }
        read = Arguments::Open;
        at += 2;
    }
    Ok((at, read))
}

// What was read last, where arguments may come.
fn stage_of<'a>(read: Arguments) -> Stage<'a>
    ensures { result ≡ stage_by read }
{
    match read {
        Arguments::Unread => Stage::FirstArgument,
        _ => Stage::Argument,
    }
}

/// Reads a call from its first argument on: arguments that are expressions by themselves are held, and a frame is opened only where
/// others come behind them. Answers the place behind what was read.
#[inline(never)]
pub fn call<'a>(
    stack: &mut Stack<'a>,
    stage: &mut Stage<'a>,
    number: u32,
    first: &Token,
    tokens: &[Token],
    from: usize,
) -> Result<usize, AllocError>
    requires few { length tokens.now < 2 ^ 32 }
    requires within { from ≤ length tokens.now }
    requires none { stack.old.0 ≡ no_subtrees }
    requires low { depth stack.old.1 < limit }
    ensures passes { IfOk result (λ next. Passes (marks 0 tokens.now) from next
        (states.FirstArgument, frames.Args (mark number first.now).spot first.now.text no_subtrees ∷ stack.old.1)
        (state_of stage.new stack.new.0, stack.new.1)) }
    ensures holds { OnOk result (Holds stage.new stack.new.0) }
{
    let spot = Spot {
        token: number,
        place: first.place,
    };
    let word = stack.copy(&first.text)?;
    let (next, read) = hold_arguments(stack, tokens, from)?;
    if let Arguments::Closed = read {
        set_called(stage, spot, word);
        return Ok(next);
    }
    *stage = stage_of(read);
    stack.open(FrameKind::Args { spot, word })?;
    Ok(next)
}
