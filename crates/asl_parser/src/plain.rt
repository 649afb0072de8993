//! Tokens that are expressions by themselves.
ghost use Rattle.std.specs.Prelude.{◌≡◌, None, IfOk, OnOk, is_some, true};
ghost use Rattle.asl_syntax.specs.Grow.{joined, item};
ghost use Rattle.asl_syntax.specs.Marks as spec;
ghost use Rattle.asl_syntax.specs.Marks.{mark};
ghost use Rattle.asl_parser.specs.Pairs.{plain, HoldsNode};

use asl_lexer::token::{Token, TokenKind};
use asl_syntax::{Spot, Stack, number_node, text_node};
use std::alloc::AllocError;

fn hold_word(stack: &mut Stack<'_>, number: u32, token: &Token) -> Result<(), AllocError>
    ensures { OnOk result (stack.new ≡ (joined stack.old.0 (item (mark number token.now).spot token.now.text None None), stack.old.1)) }
{
    let spot = Spot {
        token: number,
        place: token.place,
    };
    let word = stack.copy(&token.text)?;
    stack.hold_name_behind(spot, word)?;
    Ok(())
}

/// Holds the tree of a token that is an expression by itself behind what is held.
pub fn hold_leaf(stack: &mut Stack<'_>, number: u32, token: &Token) -> Result<(), AllocError>
    requires { spec.is_plain token.now.kind ≡ true }
    ensures { OnOk result (HoldsNode true (plain (mark number token.now)) stack.old stack.new) }
{
    let place = token.place;
    match token.kind {
        TokenKind::Word => {
            hold_word(stack, number, token)?;
            Ok(())
        }
        TokenKind::Path => {
            hold_word(stack, number, token)?;
            Ok(())
        }
        TokenKind::Number => {
            let value = token.number;
            stack.hold_behind(number, number_node(place, value))?;
            Ok(())
        }
        TokenKind::Text => {
            let text = stack.copy(&token.text)?;
            stack.hold_behind(number, text_node(place, text))?;
            Ok(())
        }
        TokenKind::Symbol => unreachable!(),
    }
}

/// Holds the tree of a token behind what is held, where it is an expression by itself. Answers whether it is one.
pub fn hold_plain(stack: &mut Stack<'_>, number: u32, token: &Token) -> Result<bool, AllocError>
    ensures { IfOk result (λ is_plain. HoldsNode is_plain (plain (mark number token.now)) stack.old stack.new) }
{
    if !is_plain(token.kind) {
        return Ok(false);
    }
    hold_leaf(stack, number, token)?;
    Ok(true)
}

/// Whether a token of this kind is an expression by itself. Where it is none, the token is read by the way of all expressions.
pub fn is_plain(kind: TokenKind) -> bool
    ensures { result ≡ spec.is_plain kind }
{
    !matches!(kind, TokenKind::Symbol)
}
