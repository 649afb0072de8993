//! What a token does where an expression or an item of the source begins.
ghost use Rattle.std.specs.Prelude.{◌≡◌, Some};
ghost use Rattle.asl_syntax.specs.Grow.{no_subtrees, leaf};
ghost use Rattle.asl_syntax.specs.Looks.{lexeme_of};
ghost use Rattle.asl_parser.specs.Machine as spec;
ghost use Rattle.asl_parser.specs.Stages.{StepsTo};
ghost use Rattle.asl_syntax.specs.declared.mark.Lexeme.TheVariants as lexemes;
ghost use Rattle.asl_parser.specs.declared.state.ParserState.TheVariants as states;

use crate::stage::{Stage, set_operand, set_sequence, set_whole, set_word};
use crate::state::Refusal;
use asl_lexer::token::Token;
use asl_syntax::{
    FrameKind, Look, Sign, Spot, Stack, SyntaxNode, comma_node, number_node, semicolon_node,
    text_node,
};

// A word or path, of which the machine keeps the text.
fn word<'a>(
    stack: &Stack<'a>,
    stage: &mut Stage<'a>,
    spot: Spot,
    token: &Token,
) -> Result<(), Refusal>
    requires { stack.now.0 ≡ no_subtrees }
    ensures { StepsTo result stage.new stack.now (Some (states.Word spot token.now.text, stack.now.1)) }
{
    let word = stack.copy(&token.text)?;
    set_word(stage, spot, word);
    Ok(())
}

fn number<'a>(
    stack: &mut Stack<'a>,
    stage: &mut Stage<'a>,
    spot: Spot,
    token: &Token,
) -> Result<(), Refusal>
    requires { stack.old.0 ≡ no_subtrees }
    ensures { StepsTo result stage.new stack.new (spec.begin_by spot (lexemes.Number token.now.number) stack.old.1) }
{
    if stack.room() < 1 {
        return Err(Refusal::Refused);
    }
    let place = spot.place;
    let value = token.number;
    stack.hold(spot.token, number_node(place, value))?;
    set_whole(stage);
    Ok(())
}

fn text<'a>(
    stack: &mut Stack<'a>,
    stage: &mut Stage<'a>,
    spot: Spot,
    token: &Token,
) -> Result<(), Refusal>
    requires { stack.old.0 ≡ no_subtrees }
    ensures { StepsTo result stage.new stack.new (spec.begin_by spot (lexemes.Text token.now.text) stack.old.1) }
{
    if stack.room() < 1 {
        return Err(Refusal::Refused);
    }
    let place = spot.place;
    let text = stack.copy(&token.text)?;
    stack.hold(spot.token, text_node(place, text))?;
    set_whole(stage);
    Ok(())
}

/// Where an expression has to begin.
#[tactic(auto, unfolding(crate::specs::Machine::begin))]
pub fn begin<'a>(
    stack: &mut Stack<'a>,
    stage: &mut Stage<'a>,
    spot: Spot,
    look: Look,
    token: &Token,
) -> Result<(), Refusal>
    requires { stack.old.0 ≡ no_subtrees }
    ensures { StepsTo result stage.new stack.new (spec.begin spot (lexeme_of look token.now) stack.old.1) }
{
    match look {
        Look::Word => word(stack, stage, spot, token),
        Look::Path => word(stack, stage, spot, token),
        Look::Number => number(stack, stage, spot, token),
        Look::Text => text(stack, stage, spot, token),
        Look::Sign(sign) => begin_sign(stack, stage, spot, sign),
        Look::Other => Err(Refusal::Refused),
    }
}

#[inline(never)]
fn begin_sign<'a>(
    stack: &mut Stack<'a>,
    stage: &mut Stage<'a>,
    spot: Spot,
    sign: Sign,
) -> Result<(), Refusal>
    requires { stack.old.0 ≡ no_subtrees }
    ensures { StepsTo result stage.new stack.new (spec.begin_sign spot sign stack.old.1) }
{
    match sign {
        Sign::LeftParen => {
            if stack.room() < 1 {
                return Err(Refusal::Refused);
            }
            stack.open_bracket()?;
            set_operand(stage);
            Ok(())
        }
        Sign::Prefix(op) => {
            if stack.room() < 2 {
                return Err(Refusal::Refused);
            }
            stack.open(FrameKind::Pending {
                level: 2,
                room: 2,
                spot,
                op,
            })?;
            set_operand(stage);
            Ok(())
        }
        _ => Err(Refusal::Refused),
    }
}

// A comma or semicolon of a body.
#[inline(never)]
fn separated<'a>(
    stack: &mut Stack<'a>,
    stage: &mut Stage<'a>,
    spot: Spot,
    separator: SyntaxNode<'a>,
) -> Result<(), Refusal>
    requires { stack.old.0 ≡ no_subtrees }
    ensures { StepsTo result stage.new stack.new (spec.separated (leaf spot.token separator.entry) stack.old.1) }
{
    match stack.kind() {
        FrameKind::Body { .. } => {
            stack.hold(spot.token, separator)?;
            stack.add()?;
            set_sequence(stage);
            Ok(())
        }
        _ => Err(Refusal::Refused),
    }
}

// The end of a body.
#[inline(never)]
fn close_body<'a>(stack: &mut Stack<'a>, stage: &mut Stage<'a>) -> Result<(), Refusal>
    requires { stack.old.0 ≡ no_subtrees }
    ensures { StepsTo result stage.new stack.new (spec.close_body stack.old.1) }
{
    match stack.kind() {
        FrameKind::Body { .. } => {}
        _ => return Err(Refusal::Refused),
    }
    let FrameKind::Body { spot, word, args } = stack.end() else {
        return Err(Refusal::Refused);
    };
    stack.block(spot, word, args)?;
    set_whole(stage);
    Ok(())
}

/// Where an expression of a body or an item of the source may begin.
#[tactic(auto, unfolding(crate::specs::Machine::sequence, crate::specs::Machine::begin))]
pub fn sequence<'a>(
    stack: &mut Stack<'a>,
    stage: &mut Stage<'a>,
    spot: Spot,
    look: Look,
    token: &Token,
) -> Result<(), Refusal>
    requires { stack.old.0 ≡ no_subtrees }
    ensures { StepsTo result stage.new stack.new (spec.sequence spot (lexeme_of look token.now) stack.old.1) }
{
    match look {
        Look::Sign(Sign::Comma) => separated(stack, stage, spot, comma_node()),
        Look::Sign(Sign::Semicolon) => separated(stack, stage, spot, semicolon_node()),
        Look::Sign(Sign::RightBrace) => close_body(stack, stage),
        _ => begin(stack, stage, spot, look, token),
    }
}
