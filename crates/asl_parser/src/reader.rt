//! From tokens to the tree.
ghost use Rattle.std.specs.Prelude.{◌≡◌, ◌+◌, ◌<◌, ◌≤◌, ◌^◌, ℕ, true, length, get_or, List, All, IfSome, IfOk, OnOk, IfErr};
ghost use Rattle.asl_syntax.specs.Looks.{lexeme_of};
ghost use Rattle.asl_parser.specs.Machine.{reading};
ghost use Rattle.asl_syntax.specs.Frames as spec;
ghost use Rattle.asl_syntax.specs.Marks.{mark, marks, lexeme};
ghost use Rattle.asl_parser.specs.Parse.{HasOutcome, EndsIn, Gives, Fails, outcome};
ghost use Rattle.asl_parser.specs.Reading.{Advances, FailsAt, ComesTo};
ghost use Rattle.asl_parser.specs.Stages.{state_of, Holds, begins as stage_begins, ends as stage_ends};
ghost use Rattle.asl_parser.specs.Grammar.{Spells};
ghost use Rattle.asl_parser.specs.Depth.{IsShallow, IsLow};
ghost use Rattle.asl_syntax.specs.Grow.{limit, no_subtrees};
ghost use Rattle.asl_syntax.specs.Within.{AreWithin};
ghost use Rattle.asl_syntax.specs.Written.{writtens};
ghost use Rattle.asl_parser.specs.declared.state.ParserState.TheVariants as states;
ghost use Rattle.asl_syntax.specs.declared.mark.Look.TheVariants as looks;
ghost use Rattle.asl_syntax.specs.declared.raw.Raw.{Raw};
ghost use Rattle.asl_syntax.specs.declared.sign.Sign.TheVariants as signs;
ghost use Rattle.asl_parser.specs.declared.stage.Stage.TheVariants as stages;
ghost use Rattle.asl_parser.specs.Operating.{IsOperator};

use crate::calls::call;
use crate::finish::finish;
use crate::machine::{end_expression, hold_word, step, word_on};
use crate::operators::{bracket, operate};
use crate::pairs::skip_pair;
use crate::stage::{Stage, begins, ends, set_whole};
use crate::state::Refusal;
use asl_lexer::token::{Token, TokenKind, Tokens};
use asl_syntax::{Infix, Look, RawUnit, Sign, Stack, Subtrees, TALLEST, is_word, look_of};
use bumpalo::Bump;
use std::alloc::{AllocError, Global};

/// The most brackets, prefix operators and assignments that may be open.
const DEEPEST: usize = 128;

/// Why tokens have no tree.
#[derive(Debug, Drop)]
pub enum Syntax {
    /// They are no source, and the tokens before this one are the longest front of one. It is the number of
    /// tokens where the end is missed.
    Stop { token: u32 },
    /// They nest too deep at this token: more than 128 brackets, prefix operators and assignments are open
    /// there, or it is the first token of the first node that stands under more than 128 others.
    TooDeep { token: u32 },
    /// There was no memory.
    Memory,
}

impl From<AllocError> for Syntax {
    ghost use Rattle.asl_parser.specs.declared.reader.Syntax.TheVariants.{Memory};

    ghost from_gives = { λ _ e. e ≡ Memory };

    fn from(_error: AllocError) -> Syntax {
        Syntax::Memory
    }
}

// Whether a token is to be read with the one behind it, where that can be.
fn looks_ahead(stage: &Stage<'_>, token: &Token) -> bool {
    match token.kind {
        TokenKind::Word | TokenKind::Path => true,
        TokenKind::Number | TokenKind::Text => match stage {
            Stage::Operand => false,
            _ => true,
        },
        TokenKind::Symbol => false,
    }
}

// What the token at a place came to: the place behind it, or why the reading ends there.
#[inline(always)]
fn moved(stack: &Stack<'_>, made: Result<(), Refusal>, at: usize) -> Result<usize, Syntax>
    requires few { at < 2 ^ 32 }
    ensures { ComesTo made (spec.depth stack.now.1) at result }
{
    match made {
        Ok(()) => {}
        Err(Refusal::Refused) => return Err(Syntax::Stop { token: at as u32 }),
        Err(Refusal::Memory) => return Err(Syntax::Memory),
    }
    if stack.depth() > DEEPEST {
        return Err(Syntax::TooDeep { token: at as u32 });
    }
    Ok(at + 1)
}

// Reads the token at a place, which looks so.
#[inline(always)]
fn single<'a>(
    stack: &mut Stack<'a>,
    stage: &mut Stage<'a>,
    tokens: &[Token],
    at: usize,
    token: &Token,
    look: Look,
) -> Result<usize, Syntax>
    requires few { length tokens.now < 2 ^ 32 }
    requires within { at < length tokens.now }
    requires token { token.now ≡ get_or tokens.now at token.now }
    requires look { lexeme_of look token.now ≡ lexeme token.now }
    requires holds { Holds stage.old stack.old.0 }
    requires low { spec.depth stack.old.1 ≤ limit }
    ensures advances { IfOk result (λ next. Advances (marks 0 tokens.now) at next (state_of stage.old stack.old.0, stack.old.1)
        (state_of stage.new stack.new.0, stack.new.1)) }
    ensures holds { OnOk result (Holds stage.new stack.new.0) }
    ensures fails { IfErr result (λ fault. FailsAt fault (marks 0 tokens.now) at (state_of stage.old stack.old.0, stack.old.1)) }
{
    let made = step(stack, stage, at as u32, look, token);
    moved(stack, made, at)
}

// Whether an operator between two operands looks so.
fn is_operator(look: Look) -> bool
    ensures { result ≡ true → IsOperator look }
{
    matches!(look, Look::Sign(Sign::Binary(_)))
}

// The operator between two operands that looks so, where so many tokens are left that it can be read with its last operand, and
// more may be open than is.
#[inline(always)]
fn operator_ahead(look: Look, left: usize, depth: usize) -> Option<Infix>
    ensures operator { IfSome result (λ op. look ≡ looks.Sign (signs.Binary op)) }
    ensures left { IfSome result (λ op. 2 < left) }
    ensures low { IfSome result (λ op. depth < limit) }
{
    match look {
        Look::Sign(Sign::Binary(op)) => {
            if left <= 2 || DEEPEST <= depth {
                None
            } else {
                Some(op)
            }
        }
        _ => None,
    }
}

fn is_left_paren(look: Look) -> bool
    ensures { result ≡ true → look ≡ looks.Sign signs.LeftParen }
{
    matches!(look, Look::Sign(Sign::LeftParen))
}

// Reads the token behind an expression, which is held, and where it is an operator its last operand, if that can be.
#[inline(always)]
fn operated<'a>(
    stack: &mut Stack<'a>,
    stage: &mut Stage<'a>,
    tokens: &[Token],
    at: usize,
    token: &Token,
    look: Look,
) -> Result<usize, Syntax>
    requires few { length tokens.now < 2 ^ 32 }
    requires within { at < length tokens.now }
    requires token { token.now ≡ get_or tokens.now at token.now }
    requires look { lexeme_of look token.now ≡ lexeme token.now }
    requires whole { stage.old ≡ stages.Whole }
    requires holds { Holds stage.old stack.old.0 }
    requires low { spec.depth stack.old.1 ≤ limit }
    ensures advances { IfOk result (λ next. Advances (marks 0 tokens.now) at next (state_of stage.old stack.old.0, stack.old.1)
        (state_of stage.new stack.new.0, stack.new.1)) }
    ensures holds { OnOk result (Holds stage.new stack.new.0) }
    ensures fails { IfErr result (λ fault. FailsAt fault (marks 0 tokens.now) at (state_of stage.old stack.old.0, stack.old.1)) }
{
    let Some(op) = operator_ahead(look, tokens.len() - at, stack.depth()) else {
        return single(stack, stage, tokens, at, token, look);
    };
    match operate(
        stack,
        at as u32,
        op,
        token,
        &tokens[at + 1],
        &tokens[at + 2],
    ) {
        Ok(true) => Ok(at + 2),
        Ok(false) => single(stack, stage, tokens, at, token, look),
        Err(Refusal::Refused) => Err(Syntax::Stop { token: at as u32 }),
        Err(Refusal::Memory) => Err(Syntax::Memory),
    }
}

// Whether a token that looks so opens a bracket, where so many tokens are left that it can be read whole, and so much more may be
// open than is.
#[inline(always)]
fn opens_bracket(look: Look, left: usize, depth: usize) -> bool
    ensures paren { result ≡ true → look ≡ looks.Sign signs.LeftParen }
    ensures left { result ≡ true → 4 < left }
    ensures low { result ≡ true → depth + 1 < limit }
{
    is_left_paren(look) && 4 < left && depth < DEEPEST - 1
}

// Reads the token at a place where an expression may begin, or where it begins an operator between two tokens in parentheses
// all five.
#[inline(always)]
fn begun<'a>(
    stack: &mut Stack<'a>,
    stage: &mut Stage<'a>,
    tokens: &[Token],
    at: usize,
    token: &Token,
    look: Look,
) -> Result<usize, Syntax>
    requires few { length tokens.now < 2 ^ 32 }
    requires within { at < length tokens.now }
    requires token { token.now ≡ get_or tokens.now at token.now }
    requires look { lexeme_of look token.now ≡ lexeme token.now }
    requires begins { stage_begins stage.old ≡ true }
    requires holds { Holds stage.old stack.old.0 }
    requires low { spec.depth stack.old.1 ≤ limit }
    ensures advances { IfOk result (λ next. Advances (marks 0 tokens.now) at next (state_of stage.old stack.old.0, stack.old.1)
        (state_of stage.new stack.new.0, stack.new.1)) }
    ensures holds { OnOk result (Holds stage.new stack.new.0) }
    ensures fails { IfErr result (λ fault. FailsAt fault (marks 0 tokens.now) at (state_of stage.old stack.old.0, stack.old.1)) }
{
    if !opens_bracket(look, tokens.len() - at, stack.depth()) {
        return single(stack, stage, tokens, at, token, look);
    }
    match bracket(stack, tokens, at, token) {
        Ok(true) => {
            set_whole(stage);
            Ok(at + 5)
        }
        Ok(false) => single(stack, stage, tokens, at, token, look),
        Err(_) => Err(Syntax::Memory),
    }
}

// Whether arguments begin at a token that looks so, and may be open where so much is.
fn opens_call(look: Look, depth: usize) -> bool
    ensures paren { result ≡ true → look ≡ looks.Sign signs.LeftParen }
    ensures low { result ≡ true → depth < limit }
{
    is_left_paren(look) && depth < DEEPEST
}

// Reads the token behind a word or path that begins an expression, and what is read with it.
#[inline(always)]
fn behind_word<'a>(
    stack: &mut Stack<'a>,
    stage: &mut Stage<'a>,
    tokens: &[Token],
    at: usize,
    first: &Token,
    look: Look,
    second: &Token,
) -> Result<usize, Syntax>
    requires few { length tokens.now < 2 ^ 32 }
    requires within { at + 1 < length tokens.now }
    requires second { second.now ≡ get_or tokens.now (at + 1) second.now }
    requires look { lexeme_of look second.now ≡ lexeme second.now }
    requires none { stack.old.0 ≡ no_subtrees }
    requires low { spec.depth stack.old.1 ≤ limit }
    ensures advances { IfOk result (λ next. Advances (marks 0 tokens.now) (at + 1) next
        (states.Word (mark at first.now).spot first.now.text, stack.old.1) (state_of stage.new stack.new.0, stack.new.1)) }
    ensures holds { OnOk result (Holds stage.new stack.new.0) }
    ensures fails { IfErr result (λ fault. FailsAt fault (marks 0 tokens.now) (at + 1)
        (states.Word (mark at first.now).spot first.now.text, stack.old.1)) }
{
    if opens_call(look, stack.depth()) {
        return match call(stack, stage, at as u32, first, tokens, at + 2) {
            Ok(next) => Ok(next),
            Err(_) => Err(Syntax::Memory),
        };
    }
    if is_operator(look) {
        return match hold_word(stack, stage, at as u32, first) {
            Ok(()) => operated(stack, stage, tokens, at + 1, second, look),
            Err(_) => Err(Syntax::Memory),
        };
    }
    let made = word_on(stack, stage, at as u32, first, look, second);
    moved(stack, made, at + 1)
}

// Reads the token at a place with the one behind it, or alone where they are no pair.
#[inline(always)]
fn ahead<'a>(
    stack: &mut Stack<'a>,
    stage: &mut Stage<'a>,
    tokens: &[Token],
    at: usize,
) -> Result<usize, Syntax>
    requires few { length tokens.now < 2 ^ 32 }
    requires within { at + 1 < length tokens.now }
    requires holds { Holds stage.old stack.old.0 }
    requires low { spec.depth stack.old.1 ≤ limit }
    ensures advances { IfOk result (λ next. Advances (marks 0 tokens.now) at next (state_of stage.old stack.old.0, stack.old.1)
        (state_of stage.new stack.new.0, stack.new.1)) }
    ensures holds { OnOk result (Holds stage.new stack.new.0) }
    ensures fails { IfErr result (λ fault. FailsAt fault (marks 0 tokens.now) at (state_of stage.old stack.old.0, stack.old.1)) }
{
    let first = &tokens[at];
    let second = &tokens[at + 1];
    let look = look_of(second);
    match skip_pair(stack, stage, at as u32, first, look, second) {
        Ok(true) => return Ok(at + 2),
        Ok(false) => {}
        Err(_) => return Err(Syntax::Memory),
    }
    if is_word(first.kind) && begins(stage) {
        return behind_word(stack, stage, tokens, at, first, look, second);
    }
    single(stack, stage, tokens, at, first, look_of(first))
}

// Reads the token behind an expression, and where it is a word or path the token behind that.
#[inline(always)]
fn next_word<'a>(
    stack: &mut Stack<'a>,
    stage: &mut Stage<'a>,
    tokens: &[Token],
    at: usize,
) -> Result<usize, Syntax>
    requires few { length tokens.now < 2 ^ 32 }
    requires within { at + 1 < length tokens.now }
    requires holds { Holds stage.old stack.old.0 }
    requires ends { stage_ends stage.old ≡ true }
    requires low { spec.depth stack.old.1 ≤ limit }
    ensures advances { IfOk result (λ next. Advances (marks 0 tokens.now) at next (state_of stage.old stack.old.0, stack.old.1)
        (state_of stage.new stack.new.0, stack.new.1)) }
    ensures holds { OnOk result (Holds stage.new stack.new.0) }
    ensures fails { IfErr result (λ fault. FailsAt fault (marks 0 tokens.now) at (state_of stage.old stack.old.0, stack.old.1)) }
{
    let first = &tokens[at];
    if !is_word(first.kind) {
        return single(stack, stage, tokens, at, first, look_of(first));
    }
    match end_expression(stack, stage) {
        Ok(()) => {}
        Err(Refusal::Refused) => return Err(Syntax::Stop { token: at as u32 }),
        Err(Refusal::Memory) => return Err(Syntax::Memory),
    }
    let second = &tokens[at + 1];
    behind_word(stack, stage, tokens, at, first, look_of(second), second)
}

// Reads the token at a place, or two of them at once. Answers the place behind them.
#[inline(always)]
fn advance<'a>(
    stack: &mut Stack<'a>,
    stage: &mut Stage<'a>,
    tokens: &[Token],
    at: usize,
) -> Result<usize, Syntax>
    requires few { length tokens.now < 2 ^ 32 }
    requires within { at < length tokens.now }
    requires holds { Holds stage.old stack.old.0 }
    requires low { spec.depth stack.old.1 ≤ limit }
    ensures advances { IfOk result (λ next. Advances (marks 0 tokens.now) at next (state_of stage.old stack.old.0, stack.old.1)
        (state_of stage.new stack.new.0, stack.new.1)) }
    ensures holds { OnOk result (Holds stage.new stack.new.0) }
    ensures fails { IfErr result (λ fault. FailsAt fault (marks 0 tokens.now) at (state_of stage.old stack.old.0, stack.old.1)) }
{
    let token = &tokens[at];
    if looks_ahead(stage, token) && 1 < tokens.len() - at {
        if ends(stage) {
            return next_word(stack, stage, tokens, at);
        }
        return ahead(stack, stage, tokens, at);
    }
    let look = look_of(token);
    if let Stage::Whole = stage {
        return operated(stack, stage, tokens, at, token, look);
    }
    if begins(stage) {
        return begun(stack, stage, tokens, at, token, look);
    }
    single(stack, stage, tokens, at, token, look)
}

fn read<'a>(alloc: Global, arena: &'a Bump, tokens: &[Token]) -> Result<Subtrees<'a>, Syntax>
    requires { length tokens.now < 2 ^ 32 }
    ensures { EndsIn result (marks 0 tokens.now) (reading (marks 0 tokens.now)) }
{
    let mut stack = Stack::new(alloc, arena);
    let mut stage = Stage::Sequence;
    let mut at = 0;
    while at < tokens.len() {
        match advance(&mut stack, &mut stage, tokens, at) {
            Ok(next) => at = next,
            Err(fault) => return Err(fault),
        }
    }
    match finish(&mut stack, stage) {
        Ok(items) => Ok(items),
        Err(Refusal::Refused) => Err(Syntax::Stop {
            token: tokens.len() as u32,
        }),
        Err(Refusal::Memory) => Err(Syntax::Memory),
    }
}

fn unit_of<'a>(trees: Subtrees<'a>) -> Result<RawUnit<'a>, Syntax>
    ensures { Gives result trees.entry }
{
    let Subtrees { raws, levels } = trees;
    match raws {
        Some(items) => Ok(RawUnit { items }),
        None => Err(Syntax::TooDeep {
            token: levels.at_depth(TALLEST + 1).unwrap_or(0),
        }),
    }
}

fn whole<'a>(alloc: Global, arena: &'a Bump, tokens: &[Token]) -> Result<RawUnit<'a>, Syntax>
    requires { length tokens.now < 2 ^ 32 }
    ensures { HasOutcome result tokens.now (outcome tokens.now) }
{
    unit_of(read(alloc, arena, tokens)?)
}

/// The one tree that spells the tokens. Its lists and its long texts lie in the arena.
pub fn parse<'a>(alloc: Global, arena: &'a Bump, tokens: &Tokens) -> Result<RawUnit<'a>, Syntax>
    // Tokens are numbered.
    requires { length tokens.now < 2 ^ 32 }
    ensures spelled { IfOk result (λ unit. Spells unit.items tokens.now) }
    // No other tree spells them.
    ensures one { IfOk result (λ unit. (others : List Raw) → Spells others tokens.now → others ≡ unit.items) }
    // Each node stands in a file in which tokens stand.
    ensures within { (files : ℕ) → All (λ token. token.place.file < files) tokens.now →
        IfOk result (λ unit. AreWithin files (writtens unit.items)) }
    // Nowhere is more open than may be, and no node stands under more others than may be.
    ensures not_deep { OnOk result (IsShallow limit (marks 0 tokens.now) × IsLow limit (marks 0 tokens.now)) }
    // The stop with no tree and nothing too deep before it, or the first token that is too deep.
    ensures fails { IfErr result (λ fault. Fails fault tokens.now) }
    // Each answer but want of memory is that of the machine on lists.
    ensures exact { HasOutcome result tokens.now (outcome tokens.now) }
{
    whole(alloc, arena, tokens.as_slice())
}
