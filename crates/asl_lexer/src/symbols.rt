//! Symbols and comments.
ghost use Rattle.std.specs.Prelude.{◌≡◌, ◌==◌, ◌&&◌, List as AList};
ghost use Rattle.asl_lexer.specs.declared.token.Token.{Token};
ghost use Rattle.asl_lexer.specs.Scan as spec;
ghost use Rattle.asl_lexer.specs.Scan.{Moves};
ghost use Rattle.asl_lexer.specs.Class.{class_of as class_by, takes_equals as takes_equals_by, doubles as doubles_by, shifts as shifts_by};

use crate::class::{Class, class_of, doubles, shifts, takes_equals};
use crate::mode::{LexerStop, Mode};
use crate::start::{add_symbol, begin};
use crate::token::Tokens;
use iasl_messages::place::Place;
use std::alloc::Global;

/// A byte behind a slash.
pub fn slash(
    alloc: Global,
    tokens: &mut Tokens,
    from: Place,
    at: Place,
    byte: u8,
) -> Result<Mode, LexerStop>
    ensures { Moves result tokens.new (spec.slash_by (class_by byte) from at byte tokens.old) }
{
    match class_of(byte) {
        Class::Slash => Ok(Mode::Line),
        Class::Star => Ok(Mode::Block { from }),
        Class::Equals => {
            add_symbol(alloc, tokens, from, b"/=")?;
            Ok(Mode::Between)
        }
        _ => {
            add_symbol(alloc, tokens, from, b"/")?;
            begin(alloc, at, byte)
        }
    }
}

/// A byte in a comment to the line's end.
pub fn line(byte: u8) -> Mode
    ensures { (tokens : AList Token) → spec.line_by (class_by byte) tokens ≡ Ok (result, tokens) }
{
    match class_of(byte) {
        Class::Break => Mode::Between,
        _ => Mode::Line,
    }
}

/// A byte in a block comment.
pub fn block(from: Place, byte: u8) -> Mode
    ensures { (tokens : AList Token) → spec.block_by (class_by byte) from tokens ≡ Ok (result, tokens) }
{
    match class_of(byte) {
        Class::Star => Mode::Star { from },
        _ => Mode::Block { from },
    }
}

/// A byte behind a star in a block comment.
pub fn star(from: Place, byte: u8) -> Mode
    ensures { (tokens : AList Token) → spec.star_by (class_by byte) from tokens ≡ Ok (result, tokens) }
{
    match class_of(byte) {
        Class::Slash => Mode::Between,
        Class::Star => Mode::Star { from },
        _ => Mode::Block { from },
    }
}

/// A byte behind a character that begins a symbol.
pub fn sign(
    alloc: Global,
    tokens: &mut Tokens,
    from: Place,
    first: u8,
    at: Place,
    byte: u8,
) -> Result<Mode, LexerStop>
    ensures { Moves result tokens.new
        (spec.sign_by (byte == 61 && takes_equals_by first) (byte == first && doubles_by first) from first at byte tokens.old) }
{
    if byte == b'=' && takes_equals(first) {
        add_symbol(alloc, tokens, from, &[first, b'='])?;
        Ok(Mode::Between)
    } else if byte == first && doubles(first) {
        doubled(alloc, tokens, from, first)
    } else {
        add_symbol(alloc, tokens, from, &[first])?;
        begin(alloc, at, byte)
    }
}

fn doubled(alloc: Global, tokens: &mut Tokens, from: Place, first: u8) -> Result<Mode, LexerStop>
    ensures { Moves result tokens.new (spec.doubled_by (shifts_by first) from first tokens.old) }
{
    if shifts(first) {
        Ok(Mode::Shift { from, first })
    } else {
        add_symbol(alloc, tokens, from, &[first, first])?;
        Ok(Mode::Between)
    }
}

/// A byte behind `<<` or `>>`.
pub fn shift(
    alloc: Global,
    tokens: &mut Tokens,
    from: Place,
    first: u8,
    at: Place,
    byte: u8,
) -> Result<Mode, LexerStop>
    ensures { Moves result tokens.new (spec.shift_by (byte == 61) from first at byte tokens.old) }
{
    if byte == b'=' {
        add_symbol(alloc, tokens, from, &[first, first, b'='])?;
        Ok(Mode::Between)
    } else {
        add_symbol(alloc, tokens, from, &[first, first])?;
        begin(alloc, at, byte)
    }
}
