//! What one token does.
ghost use Rattle.std.specs.Prelude.{◌≡◌, ◌∷◌, ◌+◌, ◌^◌, ◌<◌, suc, Some, None, true, OnOk};
ghost use Rattle.asl_syntax.specs.Grow.{no_subtrees, item};
ghost use Rattle.asl_syntax.specs.Looks.{lexeme_of};
ghost use Rattle.asl_syntax.specs.Marks.{mark, lexeme};
ghost use Rattle.asl_parser.specs.Machine as spec;
ghost use Rattle.asl_syntax.specs.Opens.{IsOne, tree_of, kind_of, added, lists};
ghost use Rattle.asl_parser.specs.Stages.{state_of, Holds, StepsTo, BeginsNext, ends};
ghost use Rattle.asl_parser.specs.Steps.{is_index, index_closed};
ghost use Rattle.asl_syntax.specs.declared.mark.Lexeme.TheVariants as lexemes;
ghost use Rattle.asl_syntax.specs.declared.sign.Sign.TheVariants as signs;
ghost use Rattle.asl_syntax.specs.declared.frame.Frame.TheVariants as frames;
ghost use Rattle.asl_parser.specs.declared.state.ParserState.TheVariants as states;
ghost use Rattle.asl_parser.specs.declared.stage.Stage.TheVariants as stages;

use crate::begin::{begin, sequence};
use crate::members::{argued, argument, element, first_argument, first_element, listed};
use crate::settle::{post, settle};
use crate::stage::{Stage, set_first_argument, set_operand, set_sequence, set_whole};
use crate::state::Refusal;
use asl_lexer::token::Token;
use asl_syntax::{
    BoxedSubtrees, FrameKind, Infix, LOOSEST, Look, Sign, Spot, Stack, Strength, SyntaxText,
    strength_of,
};
use std::alloc::AllocError;
use std::mem::replace;

// After an expression of a body, or an item of the source, which is held.
fn ended<'a>(
    stack: &mut Stack<'a>,
    stage: &mut Stage<'a>,
    spot: Spot,
    look: Look,
    token: &Token,
) -> Result<(), Refusal>
    requires one { IsOne stack.old.0 }
    requires lists { lists (kind_of stack.old.1) ≡ true }
    ensures { StepsTo result stage.new stack.new (spec.sequence spot (lexeme_of look token.now) (added (tree_of stack.old.0) stack.old.1)) }
{
    stack.add()?;
    sequence(stack, stage, spot, look, token)
}

// The end of an index, which is held.
#[inline(never)]
fn close_index<'a>(stack: &mut Stack<'a>, stage: &mut Stage<'a>) -> Result<(), Refusal>
    requires one { IsOne stack.old.0 }
    requires index { is_index (kind_of stack.old.1) ≡ true }
    ensures { StepsTo result stage.new stack.new (index_closed (tree_of stack.old.0) stack.old.1) }
{
    let FrameKind::Index { spot } = stack.kind() else {
        return Err(Refusal::Refused);
    };
    let spot = *spot;
    let first = stack.leading(spot.token);
    stack.end_with()?;
    stack.apply(first, spot, Infix::Index)?;
    set_whole(stage);
    Ok(())
}

// After an expression, which is held, to which no operator is applied any more.
fn enclosed<'a>(
    stack: &mut Stack<'a>,
    stage: &mut Stage<'a>,
    spot: Spot,
    look: Look,
    token: &Token,
) -> Result<(), Refusal>
    requires one { IsOne stack.old.0 }
    ensures { StepsTo result stage.new stack.new (spec.enclosed_by spot (lexeme_of look token.now) (tree_of stack.old.0) stack.old.1) }
{
    match stack.kind() {
        FrameKind::Unit => ended(stack, stage, spot, look, token),
        FrameKind::Body { .. } => ended(stack, stage, spot, look, token),
        FrameKind::Args { .. } => argued(stack, stage, look, token),
        FrameKind::Bracket => match look {
            Look::Sign(Sign::RightParen) => {
                stack.close_bracket();
                set_whole(stage);
                Ok(())
            }
            _ => Err(Refusal::Refused),
        },
        FrameKind::Index { .. } => match look {
            Look::Sign(Sign::RightBracket) => close_index(stack, stage),
            _ => Err(Refusal::Refused),
        },
        _ => Err(Refusal::Refused),
    }
}

// An index of the expression that is held.
#[inline(never)]
fn open_index<'a>(stack: &mut Stack<'a>, stage: &mut Stage<'a>, spot: Spot) -> Result<(), Refusal>
    requires one { IsOne stack.old.0 }
    ensures { StepsTo result stage.new stack.new
        (spec.after_lexeme spot (lexemes.Sign signs.LeftBracket) (tree_of stack.old.0) stack.old.1) }
{
    if stack.room() < 1 {
        return Err(Refusal::Refused);
    }
    stack.open(FrameKind::Index { spot })?;
    set_operand(stage);
    Ok(())
}

// An operator behind the expression that is held.
#[inline(never)]
fn postfix<'a>(
    stack: &mut Stack<'a>,
    stage: &mut Stage<'a>,
    spot: Spot,
    op: Infix,
) -> Result<(), Refusal>
    requires one { IsOne stack.old.0 }
    ensures { StepsTo result stage.new stack.new
        (spec.after_lexeme spot (lexemes.Sign (signs.Postfix op)) (tree_of stack.old.0) stack.old.1) }
{
    if stack.room() < 1 {
        return Err(Refusal::Refused);
    }
    post(stack, spot, op)?;
    set_whole(stage);
    Ok(())
}

// After an expression, which is held.
#[tactic(auto, unfolding(crate::specs::Machine::after))]
fn after<'a>(
    stack: &mut Stack<'a>,
    stage: &mut Stage<'a>,
    spot: Spot,
    look: Look,
    token: &Token,
) -> Result<(), Refusal>
    requires one { IsOne stack.old.0 }
    ensures { StepsTo result stage.new stack.new (spec.after spot (lexeme_of look token.now) (tree_of stack.old.0) stack.old.1) }
{
    match look {
        Look::Sign(Sign::LeftParen) => return Err(Refusal::Refused),
        Look::Sign(Sign::LeftBracket) => return open_index(stack, stage, spot),
        Look::Sign(Sign::Postfix(op)) => return postfix(stack, stage, spot, op),
        Look::Sign(Sign::Binary(op)) => {
            if let Some(strength) = strength_of(op) {
                return operator(stack, stage, spot, op, strength);
            }
        }
        _ => {}
    }
    settle(stack, LOOSEST)?;
    enclosed(stack, stage, spot, look, token)
}

#[inline(never)]
fn operator<'a>(
    stack: &mut Stack<'a>,
    stage: &mut Stage<'a>,
    spot: Spot,
    op: Infix,
    strength: Strength,
) -> Result<(), Refusal>
    requires one { IsOne stack.old.0 }
    ensures { StepsTo result stage.new stack.new
        (spec.operator spot op strength (spec.settle strength.pull (tree_of stack.old.0) stack.old.1)) }
{
    settle(stack, strength.pull)?;
    if stack.room() < strength.level {
        return Err(Refusal::Refused);
    }
    stack.open(FrameKind::Pending {
        level: strength.level,
        room: strength.room,
        spot,
        op,
    })?;
    set_operand(stage);
    Ok(())
}

// The arguments of a word.
fn open_arguments<'a>(
    stack: &mut Stack<'a>,
    stage: &mut Stage<'a>,
    spot: Spot,
    word: SyntaxText<'a>,
) -> Result<(), Refusal>
    requires { stack.old.0 ≡ no_subtrees }
    ensures { StepsTo result stage.new stack.new (Some (states.FirstArgument, frames.Args spot word.entry no_subtrees ∷ stack.old.1)) }
{
    stack.open(FrameKind::Args { spot, word })?;
    set_first_argument(stage);
    Ok(())
}

// The body of a word.
#[inline(never)]
fn open_body<'a>(
    stack: &mut Stack<'a>,
    stage: &mut Stage<'a>,
    spot: Spot,
    word: SyntaxText<'a>,
    args: Option<BoxedSubtrees<'a>>,
) -> Result<(), Refusal>
    requires { stack.old.0 ≡ no_subtrees }
    ensures { StepsTo result stage.new stack.new
        (Some (states.Sequence, frames.Body spot word.entry args.entry no_subtrees ∷ stack.old.1)) }
{
    stack.open(FrameKind::Body { spot, word, args })?;
    set_sequence(stage);
    Ok(())
}

#[tactic(auto, unfolding(crate::specs::Machine::word))]
fn after_word<'a>(
    stack: &mut Stack<'a>,
    stage: &mut Stage<'a>,
    place: Spot,
    word: SyntaxText<'a>,
    spot: Spot,
    look: Look,
    token: &Token,
) -> Result<(), Refusal>
    requires { stack.old.0 ≡ no_subtrees }
    ensures { StepsTo result stage.new stack.new (spec.word spot (lexeme_of look token.now) place word.entry stack.old.1) }
{
    match look {
        Look::Sign(Sign::LeftParen) => open_arguments(stack, stage, place, word),
        Look::Sign(Sign::LeftBrace) => open_body(stack, stage, place, word, None),
        _ => {
            stack.name(place, word)?;
            after(stack, stage, spot, look, token)
        }
    }
}

#[inline(never)]
#[tactic(auto, unfolding(crate::specs::Machine::called))]
fn after_called<'a>(
    stack: &mut Stack<'a>,
    stage: &mut Stage<'a>,
    place: Spot,
    word: SyntaxText<'a>,
    spot: Spot,
    look: Look,
    token: &Token,
) -> Result<(), Refusal>
    ensures { StepsTo result stage.new stack.new (spec.called spot (lexeme_of look token.now) place word.entry stack.old.0 stack.old.1) }
{
    match look {
        Look::Sign(Sign::LeftBrace) => {
            let args = stack.take_boxed()?;
            open_body(stack, stage, place, word, Some(args))
        }
        _ => {
            stack.call(place, word)?;
            after(stack, stage, spot, look, token)
        }
    }
}

/// What a token does to what was read last and to what is open.
#[inline(never)]
pub fn step<'a>(
    stack: &mut Stack<'a>,
    stage: &mut Stage<'a>,
    number: u32,
    look: Look,
    token: &Token,
) -> Result<(), Refusal>
    requires holds { Holds stage.old stack.old.0 }
    // How the token looks.
    requires look { lexeme_of look token.now ≡ lexeme token.now }
    ensures { StepsTo result stage.new stack.new (spec.step (mark number token.now) (state_of stage.old stack.old.0) stack.old.1) }
{
    let spot = Spot {
        token: number,
        place: token.place,
    };
    match stage {
        Stage::Operand => begin(stack, stage, spot, look, token),
        Stage::FirstArgument => first_argument(stack, stage, spot, look, token),
        Stage::Argument => argument(stack, stage, spot, look, token),
        Stage::FirstElement => first_element(stack, stage, spot, look, token),
        Stage::Element => element(stack, stage, spot, look, token),
        Stage::Sequence => sequence(stack, stage, spot, look, token),
        Stage::Word { .. } => {
            let Stage::Word { spot: place, word } = replace(stage, Stage::Operand) else {
                return Err(Refusal::Refused);
            };
            after_word(stack, stage, place, word, spot, look, token)
        }
        Stage::Called { .. } => {
            let Stage::Called { spot: place, word } = replace(stage, Stage::Operand) else {
                return Err(Refusal::Refused);
            };
            after_called(stack, stage, place, word, spot, look, token)
        }
        Stage::Whole => after(stack, stage, spot, look, token),
        Stage::Listed => listed(stack, stage, look, token),
    }
}

/// What the token behind a word or path does, where an expression may begin at that.
pub fn word_on<'a>(
    stack: &mut Stack<'a>,
    stage: &mut Stage<'a>,
    number: u32,
    first: &Token,
    look: Look,
    second: &Token,
) -> Result<(), Refusal>
    requires number { number + 1 < 2 ^ 32 }
    requires none { stack.old.0 ≡ no_subtrees }
    requires look { lexeme_of look second.now ≡ lexeme second.now }
    ensures { StepsTo result stage.new stack.new
        (spec.step (mark (suc number) second.now) (states.Word (mark number first.now).spot first.now.text) stack.old.1) }
{
    let place = Spot {
        token: number,
        place: first.place,
    };
    let spot = Spot {
        token: number + 1,
        place: second.place,
    };
    let word = stack.copy(&first.text)?;
    after_word(stack, stage, place, word, spot, look, second)
}

/// Holds a word or path that begins an expression, and has neither arguments nor a body.
pub fn hold_word<'a>(
    stack: &mut Stack<'a>,
    stage: &mut Stage<'a>,
    number: u32,
    token: &Token,
) -> Result<(), AllocError>
    requires { stack.old.0 ≡ no_subtrees }
    ensures tree { OnOk result (tree_of stack.new.0 ≡ item (mark number token.now).spot token.now.text None None) }
    ensures one { OnOk result (IsOne stack.new.0) }
    ensures frames { OnOk result (stack.new.1 ≡ stack.old.1) }
    ensures stage { OnOk result (stage.new ≡ stages.Whole) }
{
    let spot = Spot {
        token: number,
        place: token.place,
    };
    let word = stack.copy(&token.text)?;
    stack.name(spot, word)?;
    set_whole(stage);
    Ok(())
}

// Ends the expression that is held, behind which a word or path comes: it is a member of a body, or an item of the source.
fn end_tree(stack: &mut Stack<'_>) -> Result<(), Refusal>
    requires one { IsOne stack.old.0 }
    ensures { BeginsNext result (states.Whole (tree_of stack.old.0), stack.old.1) stack.new }
{
    settle(stack, LOOSEST)?;
    match stack.kind() {
        FrameKind::Unit => {
            stack.add()?;
            Ok(())
        }
        FrameKind::Body { .. } => {
            stack.add()?;
            Ok(())
        }
        _ => Err(Refusal::Refused),
    }
}

/// Ends the expression that was read last, behind which a word or path comes.
#[inline(never)]
pub fn end_expression<'a>(stack: &mut Stack<'a>, stage: &mut Stage<'a>) -> Result<(), Refusal>
    requires holds { Holds stage.old stack.old.0 }
    requires ends { ends stage.old ≡ true }
    ensures next { BeginsNext result (state_of stage.old stack.old.0, stack.old.1) stack.new }
    ensures stage { OnOk result (stage.new ≡ stages.Sequence) }
{
    if let Stage::Called { spot, word } = replace(stage, Stage::Sequence) {
        stack.call(spot, word)?;
    }
    end_tree(stack)
}
