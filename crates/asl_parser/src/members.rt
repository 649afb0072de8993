//! What a token does in arguments and in lists.
ghost use Rattle.std.specs.Prelude.{◌≡◌, true};
ghost use Rattle.asl_syntax.specs.Grow.{no_subtrees, leaf};
ghost use Rattle.asl_syntax.specs.Looks.{lexeme_of};
ghost use Rattle.asl_parser.specs.Machine as spec;
ghost use Rattle.asl_syntax.specs.Opens.{IsOne, tree_of, kind_of};
ghost use Rattle.asl_parser.specs.Stages.{StepsTo};
ghost use Rattle.asl_parser.specs.Steps.{is_args, is_list, args_closed, list_closed, omitted as omitted_by};
ghost use Rattle.asl_syntax.specs.declared.raw.Raw.TheVariants as raws;

use crate::begin::begin;
use crate::stage::{Stage, set_argument, set_called, set_element, set_first_element, set_listed};
use crate::state::Refusal;
use asl_lexer::token::Token;
use asl_syntax::{FrameKind, Look, NodeForm, Sign, Spot, Stack, SyntaxNode};

// The end of arguments, all of which are held or were read.
#[inline(never)]
fn close_args<'a>(stack: &mut Stack<'a>, stage: &mut Stage<'a>) -> Result<(), Refusal>
    requires one { IsOne stack.old.0 }
    requires args { is_args (kind_of stack.old.1) ≡ true }
    ensures { StepsTo result stage.new stack.new (args_closed (tree_of stack.old.0) stack.old.1) }
{
    let FrameKind::Args { spot, word } = stack.end_with()? else {
        return Err(Refusal::Refused);
    };
    set_called(stage, spot, word);
    Ok(())
}

/// After a member of arguments, which is held.
#[tactic(auto, unfolding(crate::specs::Machine::listed))]
pub fn argued<'a>(
    stack: &mut Stack<'a>,
    stage: &mut Stage<'a>,
    look: Look,
    token: &Token,
) -> Result<(), Refusal>
    requires one { IsOne stack.old.0 }
    requires args { is_args (kind_of stack.old.1) ≡ true }
    ensures { StepsTo result stage.new stack.new (spec.listed (tree_of stack.old.0) (lexeme_of look token.now) stack.old.1) }
{
    match look {
        Look::Sign(Sign::Comma) => {
            stack.add()?;
            set_argument(stage);
            Ok(())
        }
        Look::Sign(Sign::RightParen) => close_args(stack, stage),
        _ => Err(Refusal::Refused),
    }
}

// The end of a list, all of which is held.
#[inline(never)]
fn close_list<'a>(stack: &mut Stack<'a>, stage: &mut Stage<'a>) -> Result<(), Refusal>
    requires one { IsOne stack.old.0 }
    requires list { is_list (kind_of stack.old.1) ≡ true }
    ensures { StepsTo result stage.new stack.new (list_closed (tree_of stack.old.0) stack.old.1) }
{
    let FrameKind::List { spot } = stack.end_with()? else {
        return Err(Refusal::Refused);
    };
    stack.list(spot)?;
    set_listed(stage);
    Ok(())
}

// After a member of a list, which is held.
#[tactic(auto, unfolding(crate::specs::Machine::listed))]
fn elemented<'a>(
    stack: &mut Stack<'a>,
    stage: &mut Stage<'a>,
    look: Look,
    token: &Token,
) -> Result<(), Refusal>
    requires one { IsOne stack.old.0 }
    requires list { is_list (kind_of stack.old.1) ≡ true }
    ensures { StepsTo result stage.new stack.new (spec.listed (tree_of stack.old.0) (lexeme_of look token.now) stack.old.1) }
{
    match look {
        Look::Sign(Sign::Comma) => {
            stack.add()?;
            set_element(stage);
            Ok(())
        }
        Look::Sign(Sign::RightBrace) => close_list(stack, stage),
        _ => Err(Refusal::Refused),
    }
}

/// After a member of arguments or of a list, which is held.
#[tactic(auto, unfolding(crate::specs::Machine::listed))]
pub fn listed<'a>(
    stack: &mut Stack<'a>,
    stage: &mut Stage<'a>,
    look: Look,
    token: &Token,
) -> Result<(), Refusal>
    requires one { IsOne stack.old.0 }
    ensures { StepsTo result stage.new stack.new (spec.listed (tree_of stack.old.0) (lexeme_of look token.now) stack.old.1) }
{
    match stack.kind() {
        FrameKind::Args { .. } => argued(stack, stage, look, token),
        FrameKind::List { .. } => elemented(stack, stage, look, token),
        _ => Err(Refusal::Refused),
    }
}

// An argument that is left out.
fn omitted<'a>(
    stack: &mut Stack<'a>,
    stage: &mut Stage<'a>,
    spot: Spot,
    look: Look,
    token: &Token,
) -> Result<(), Refusal>
    requires { stack.old.0 ≡ no_subtrees }
    ensures { StepsTo result stage.new stack.new (omitted_by (leaf spot.token raws.Empty) (lexeme_of look token.now) stack.old.1) }
{
    match stack.kind() {
        FrameKind::Args { .. } => {
            stack.hold(
                spot.token,
                SyntaxNode {
                    form: NodeForm::Empty,
                },
            )?;
            argued(stack, stage, look, token)
        }
        _ => Err(Refusal::Refused),
    }
}

/// Where an argument has to begin, or is left out.
#[tactic(auto, unfolding(crate::specs::Machine::argument, crate::specs::Machine::begin))]
pub fn argument<'a>(
    stack: &mut Stack<'a>,
    stage: &mut Stage<'a>,
    spot: Spot,
    look: Look,
    token: &Token,
) -> Result<(), Refusal>
    requires { stack.old.0 ≡ no_subtrees }
    ensures { StepsTo result stage.new stack.new (spec.argument spot (lexeme_of look token.now) stack.old.1) }
{
    match look {
        Look::Sign(Sign::RightParen) => omitted(stack, stage, spot, look, token),
        Look::Sign(Sign::Comma) => omitted(stack, stage, spot, look, token),
        Look::Sign(Sign::LeftBrace) => {
            stack.open(FrameKind::List { spot })?;
            set_first_element(stage);
            Ok(())
        }
        _ => begin(stack, stage, spot, look, token),
    }
}

/// Where the first argument may begin, or the arguments end.
#[inline(never)]
#[tactic(auto, unfolding(crate::specs::Machine::first_argument, crate::specs::Machine::argument))]
pub fn first_argument<'a>(
    stack: &mut Stack<'a>,
    stage: &mut Stage<'a>,
    spot: Spot,
    look: Look,
    token: &Token,
) -> Result<(), Refusal>
    requires { stack.old.0 ≡ no_subtrees }
    ensures { StepsTo result stage.new stack.new (spec.first_argument spot (lexeme_of look token.now) stack.old.1) }
{
    let Look::Sign(Sign::RightParen) = look else {
        return argument(stack, stage, spot, look, token);
    };
    match stack.kind() {
        FrameKind::Args { .. } => {}
        _ => return Err(Refusal::Refused),
    }
    let FrameKind::Args { spot, word } = stack.end() else {
        return Err(Refusal::Refused);
    };
    set_called(stage, spot, word);
    Ok(())
}

/// Where a member of a list has to begin.
#[tactic(auto, unfolding(crate::specs::Machine::element))]
pub fn element<'a>(
    stack: &mut Stack<'a>,
    stage: &mut Stage<'a>,
    spot: Spot,
    look: Look,
    token: &Token,
) -> Result<(), Refusal>
    requires { stack.old.0 ≡ no_subtrees }
    ensures { StepsTo result stage.new stack.new (spec.element spot (lexeme_of look token.now) stack.old.1) }
{
    match look {
        Look::Word => {
            let word = stack.copy(&token.text)?;
            stack.name(spot, word)?;
            set_listed(stage);
            Ok(())
        }
        Look::Sign(Sign::LeftBrace) => {
            stack.open(FrameKind::List { spot })?;
            set_first_element(stage);
            Ok(())
        }
        _ => Err(Refusal::Refused),
    }
}

/// Where the first member of a list may begin, or the list ends.
#[inline(never)]
#[tactic(auto, unfolding(crate::specs::Machine::first_element, crate::specs::Machine::element))]
pub fn first_element<'a>(
    stack: &mut Stack<'a>,
    stage: &mut Stage<'a>,
    spot: Spot,
    look: Look,
    token: &Token,
) -> Result<(), Refusal>
    requires { stack.old.0 ≡ no_subtrees }
    ensures { StepsTo result stage.new stack.new (spec.first_element spot (lexeme_of look token.now) stack.old.1) }
{
    let Look::Sign(Sign::RightBrace) = look else {
        return element(stack, stage, spot, look, token);
    };
    match stack.kind() {
        FrameKind::List { .. } => {}
        _ => return Err(Refusal::Refused),
    }
    let FrameKind::List { spot } = stack.end() else {
        return Err(Refusal::Refused);
    };
    stack.list(spot)?;
    set_listed(stage);
    Ok(())
}
