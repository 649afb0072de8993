//! Tokens that are expressions by themselves, each read with the token behind it.
ghost use Rattle.std.specs.Prelude.{◌≡◌, ◌∷◌, [], ◌+◌, ◌^◌, ◌<◌, suc, None, true, IfOk, OnOk};
ghost use Rattle.asl_syntax.specs.Grow.{no_subtrees, item};
ghost use Rattle.asl_syntax.specs.Looks.{lexeme_of};
ghost use Rattle.asl_syntax.specs.Marks.{mark, lexeme};
ghost use Rattle.asl_syntax.specs.Opens.{kind_of, added, lists};
ghost use Rattle.asl_parser.specs.Pairs.{plain, IsArgument, AddsNode, MayPass};
ghost use Rattle.asl_parser.specs.Stages.{state_of, Holds};
ghost use Rattle.asl_parser.specs.Steps.{is_args, is_body};
ghost use Rattle.asl_parser.specs.declared.state.ParserState.TheVariants as states;
ghost use Rattle.asl_syntax.specs.declared.mark.Lexeme.TheVariants as lexemes;
ghost use Rattle.asl_syntax.specs.declared.sign.Sign.TheVariants as signs;

use crate::stage::{Stage, set_argument, set_called};
use asl_lexer::token::{Token, TokenKind};
use asl_syntax::{
    FrameKind, Look, NodeForm, Sign, Spot, Stack, SyntaxNode, number_node, text_node,
};
use std::alloc::AllocError;

fn add_word(stack: &mut Stack<'_>, number: u32, token: &Token) -> Result<(), AllocError>
    requires none { stack.old.0 ≡ no_subtrees }
    requires lists { lists (kind_of stack.old.1) ≡ true }
    ensures { OnOk result (stack.new ≡ (no_subtrees, added (item (mark number token.now).spot token.now.text None None) stack.old.1)) }
{
    let spot = Spot {
        token: number,
        place: token.place,
    };
    let word = stack.copy(&token.text)?;
    stack.append_name(spot, word)?;
    Ok(())
}

// Adds the tree of a token that is an expression by itself to the innermost frame. Answers whether it is one.
fn add_plain(stack: &mut Stack<'_>, number: u32, token: &Token) -> Result<bool, AllocError>
    requires none { stack.old.0 ≡ no_subtrees }
    requires lists { lists (kind_of stack.old.1) ≡ true }
    ensures { IfOk result (λ is_plain. AddsNode is_plain (plain (mark number token.now)) stack.old stack.new) }
{
    let place = token.place;
    match token.kind {
        TokenKind::Word => {
            add_word(stack, number, token)?;
            Ok(true)
        }
        TokenKind::Path => {
            add_word(stack, number, token)?;
            Ok(true)
        }
        TokenKind::Number => {
            let value = token.number;
            stack.append(number, number_node(place, value))?;
            Ok(true)
        }
        TokenKind::Text => {
            let text = stack.copy(&token.text)?;
            stack.append(number, text_node(place, text))?;
            Ok(true)
        }
        TokenKind::Symbol => Ok(false),
    }
}

// An argument and the comma behind it.
#[inline(never)]
fn argument_goes<'a>(
    stack: &mut Stack<'a>,
    stage: &mut Stage<'a>,
    number: u32,
    first: &Token,
    second: &Token,
) -> Result<bool, AllocError>
    requires holds { Holds stage.old stack.old.0 }
    requires none { stack.old.0 ≡ no_subtrees }
    requires args { is_args (kind_of stack.old.1) ≡ true }
    requires begins { IsArgument (state_of stage.old stack.old.0) }
    requires comma { lexeme second.now ≡ lexemes.Sign signs.Comma }
    ensures passes { IfOk result (λ is_read. MayPass is_read (mark number first.now ∷ mark (suc number) second.now ∷ [])
        (state_of stage.old stack.old.0, stack.old.1) (state_of stage.new stack.new.0, stack.new.1)) }
    ensures holds { OnOk result (Holds stage.new stack.new.0) }
{
    if add_plain(stack, number, first)? {
        set_argument(stage);
        return Ok(true);
    }
    Ok(false)
}

// The last argument and the end of the arguments.
#[inline(never)]
fn argument_ends<'a>(
    stack: &mut Stack<'a>,
    stage: &mut Stage<'a>,
    number: u32,
    first: &Token,
    second: &Token,
) -> Result<bool, AllocError>
    requires holds { Holds stage.old stack.old.0 }
    requires none { stack.old.0 ≡ no_subtrees }
    requires args { is_args (kind_of stack.old.1) ≡ true }
    requires begins { IsArgument (state_of stage.old stack.old.0) }
    requires end { lexeme second.now ≡ lexemes.Sign signs.RightParen }
    ensures passes { IfOk result (λ is_read. MayPass is_read (mark number first.now ∷ mark (suc number) second.now ∷ [])
        (state_of stage.old stack.old.0, stack.old.1) (state_of stage.new stack.new.0, stack.new.1)) }
    ensures holds { OnOk result (Holds stage.new stack.new.0) }
{
    if add_plain(stack, number, first)? {
        let FrameKind::Args { spot, word } = stack.end() else {
            unreachable!();
        };
        set_called(stage, spot, word);
        return Ok(true);
    }
    Ok(false)
}

// An expression of a body and the comma behind it.
#[inline(never)]
fn member_goes(
    stack: &mut Stack<'_>,
    number: u32,
    first: &Token,
    second: &Token,
) -> Result<bool, AllocError>
    requires number { number + 1 < 2 ^ 32 }
    requires none { stack.old.0 ≡ no_subtrees }
    requires body { is_body (kind_of stack.old.1) ≡ true }
    requires comma { lexeme second.now ≡ lexemes.Sign signs.Comma }
    ensures passes { IfOk result (λ is_read. MayPass is_read (mark number first.now ∷ mark (suc number) second.now ∷ [])
        (states.Sequence, stack.old.1) (states.Sequence, stack.new.1)) }
    ensures holds { OnOk result (stack.new.0 ≡ no_subtrees) }
{
    if add_plain(stack, number, first)? {
        stack.append(
            number + 1,
            SyntaxNode {
                form: NodeForm::Comma,
            },
        )?;
        return Ok(true);
    }
    Ok(false)
}

fn arguments<'a>(
    stack: &mut Stack<'a>,
    stage: &mut Stage<'a>,
    number: u32,
    first: &Token,
    look: Look,
    second: &Token,
) -> Result<bool, AllocError>
    requires holds { Holds stage.old stack.old.0 }
    requires none { stack.old.0 ≡ no_subtrees }
    requires begins { IsArgument (state_of stage.old stack.old.0) }
    requires look { lexeme_of look second.now ≡ lexeme second.now }
    ensures passes { IfOk result (λ is_read. MayPass is_read (mark number first.now ∷ mark (suc number) second.now ∷ [])
        (state_of stage.old stack.old.0, stack.old.1) (state_of stage.new stack.new.0, stack.new.1)) }
    ensures holds { OnOk result (Holds stage.new stack.new.0) }
{
    match stack.kind() {
        FrameKind::Args { .. } => {}
        _ => return Ok(false),
    }
    match look {
        Look::Sign(Sign::Comma) => argument_goes(stack, stage, number, first, second),
        Look::Sign(Sign::RightParen) => argument_ends(stack, stage, number, first, second),
        _ => Ok(false),
    }
}

fn body(
    stack: &mut Stack<'_>,
    number: u32,
    first: &Token,
    look: Look,
    second: &Token,
) -> Result<bool, AllocError>
    requires number { number + 1 < 2 ^ 32 }
    requires none { stack.old.0 ≡ no_subtrees }
    requires look { lexeme_of look second.now ≡ lexeme second.now }
    ensures passes { IfOk result (λ is_read. MayPass is_read (mark number first.now ∷ mark (suc number) second.now ∷ [])
        (states.Sequence, stack.old.1) (states.Sequence, stack.new.1)) }
    ensures holds { OnOk result (stack.new.0 ≡ no_subtrees) }
{
    match look {
        Look::Sign(Sign::Comma) => {}
        _ => return Ok(false),
    }
    match stack.kind() {
        FrameKind::Body { .. } => member_goes(stack, number, first, second),
        _ => Ok(false),
    }
}

/// Reads a token, if it is an expression by itself, and the one behind it, where that is a comma or the end of arguments.
/// Answers whether they were read: other tokens are to be read one by one.
pub fn skip_pair<'a>(
    stack: &mut Stack<'a>,
    stage: &mut Stage<'a>,
    number: u32,
    first: &Token,
    look: Look,
    second: &Token,
) -> Result<bool, AllocError>
    requires number { number + 1 < 2 ^ 32 }
    requires holds { Holds stage.old stack.old.0 }
    // How the token behind it looks.
    requires look { lexeme_of look second.now ≡ lexeme second.now }
    ensures passes { IfOk result (λ is_read. MayPass is_read (mark number first.now ∷ mark (suc number) second.now ∷ [])
        (state_of stage.old stack.old.0, stack.old.1) (state_of stage.new stack.new.0, stack.new.1)) }
    ensures holds { OnOk result (Holds stage.new stack.new.0) }
{
    match stage {
        Stage::FirstArgument => arguments(stack, stage, number, first, look, second),
        Stage::Argument => arguments(stack, stage, number, first, look, second),
        Stage::Sequence => body(stack, number, first, look, second),
        _ => Ok(false),
    }
}
