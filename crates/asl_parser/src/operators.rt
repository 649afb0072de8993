//! An operator between two operands, which is read with its last operand where that is one token.
ghost use Rattle.std.specs.Prelude.{◌≡◌, ◌+◌, ◌^◌, ◌<◌, length, get_or, IfOk, OnOk, true};
ghost use Rattle.asl_syntax.specs.Grow.{limit, no_subtrees};
ghost use Rattle.asl_syntax.specs.Frames.{depth};
ghost use Rattle.asl_syntax.specs.Marks.{mark, marks, lexeme};
ghost use Rattle.asl_syntax.specs.Marks as token;
ghost use Rattle.asl_syntax.specs.Opens.{IsOne};
ghost use Rattle.asl_parser.specs.Operating as spec;
ghost use Rattle.asl_parser.specs.Operating.{AppliesNode, MayOperate, MayBracket};
ghost use Rattle.asl_parser.specs.Pairs.{plain};
ghost use Rattle.asl_syntax.specs.declared.mark.Lexeme.TheVariants as lexemes;
ghost use Rattle.asl_syntax.specs.declared.sign.Sign.TheVariants as signs;

use crate::plain::{hold_leaf, is_plain};
use crate::settle::settle;
use crate::state::Refusal;
use asl_lexer::token::Token;
use asl_syntax::{Infix, Look, Sign, Spot, Stack, look_of, strength_of};
use std::alloc::AllocError;

// Whether operators of this level are applied to the operand before a token.
#[tactic(auto, unfolding(crate::specs::Operating::applies))]
fn applies(level: u8, next: &Token) -> bool
    ensures { result ≡ spec.applies level (lexeme next.now) }
{
    match look_of(next) {
        Look::Word | Look::Path => true,
        Look::Sign(Sign::RightParen) => true,
        Look::Sign(Sign::RightBrace) => true,
        Look::Sign(Sign::Comma) => true,
        Look::Sign(Sign::Binary(op)) => match strength_of(op) {
            Some(strength) => level <= strength.pull,
            None => false,
        },
        _ => false,
    }
}

// Holds an operator over what is held and a token that is an expression by itself.
fn apply_plain(
    stack: &mut Stack<'_>,
    spot: Spot,
    op: Infix,
    number: u32,
    operand: &Token,
) -> Result<(), AllocError>
    requires leaf { token.is_plain operand.now.kind ≡ true }
    requires one { IsOne stack.old.0 }
    ensures { OnOk result (AppliesNode (plain (mark number operand.now)) spot op stack.old stack.new) }
{
    let first = stack.leading_held(spot.token);
    hold_leaf(stack, number, operand)?;
    stack.apply(first, spot, op)?;
    Ok(())
}

/// Reads an operator behind the expression that is held, with the token behind it where that is its last operand and the operator
/// is applied to it before the one that stands next. Answers whether they were read.
#[inline(never)]
pub fn operate(
    stack: &mut Stack<'_>,
    number: u32,
    op: Infix,
    sign: &Token,
    operand: &Token,
    next: &Token,
) -> Result<bool, Refusal>
    requires number { number + 1 < 2 ^ 32 }
    requires sign { lexeme sign.now ≡ lexemes.Sign (signs.Binary op) }
    requires one { IsOne stack.old.0 }
    requires low { depth stack.old.1 < limit }
    ensures { MayOperate result (mark number sign.now) (mark (number + 1) operand.now) (mark (number + 2) next.now)
        stack.old stack.new }
{
    let Some(strength) = strength_of(op) else {
        return Ok(false);
    };
    if !is_plain(operand.kind) || !applies(strength.level, next) {
        return Ok(false);
    }
    let spot = Spot {
        token: number,
        place: sign.place,
    };
    settle(stack, strength.pull)?;
    if stack.room() < strength.level {
        return Err(Refusal::Refused);
    }
    apply_plain(stack, spot, op, number + 1, operand)?;
    Ok(true)
}

/// Reads an expression in parentheses that is an operator between two tokens, from this place on. Answers whether it was read.
#[inline(never)]
pub fn bracket(
    stack: &mut Stack<'_>,
    tokens: &[Token],
    at: usize,
    first: &Token,
) -> Result<bool, AllocError>
    requires few { length tokens.now < 2 ^ 32 }
    requires within { at + 4 < length tokens.now }
    requires first { first.now ≡ get_or tokens.now at first.now }
    requires paren { lexeme first.now ≡ lexemes.Sign signs.LeftParen }
    requires none { stack.old.0 ≡ no_subtrees }
    requires low { depth stack.old.1 + 1 < limit }
    ensures { IfOk result (λ is_read. MayBracket is_read (marks 0 tokens.now) at stack.old stack.new) }
{
    let left = &tokens[at + 1];
    let right = &tokens[at + 3];
    if stack.room() < 1 || !is_plain(left.kind) || !is_plain(right.kind) {
        return Ok(false);
    }
    let Look::Sign(Sign::RightParen) = look_of(&tokens[at + 4]) else {
        return Ok(false);
    };
    let sign = &tokens[at + 2];
    let Look::Sign(Sign::Binary(op)) = look_of(sign) else {
        return Ok(false);
    };
    let Some(_strength) = strength_of(op) else {
        return Ok(false);
    };
    hold_leaf(stack, at as u32 + 1, left)?;
    let spot = Spot {
        token: at as u32 + 2,
        place: sign.place,
    };
    apply_plain(stack, spot, op, at as u32 + 3, right)?;
    Ok(true)
}
