//! Numbers.
ghost use Rattle.std.specs.Prelude.{◌==◌, List as AList};
ghost use Rattle.std.specs.Char.{is_digit};
ghost use Rattle.asl_lexer.specs.declared.token.Token.{Token};
ghost use Rattle.asl_lexer.specs.Scan as spec;
ghost use Rattle.asl_lexer.specs.Scan.{Moves};
ghost use Rattle.asl_lexer.specs.Class.{class_of as class_by, base_of as base_by};

use crate::class::{Class, Radix, base_of, class_of, value_of};
use crate::mode::{LexerStop, Mode};
use crate::start::{add_number, begin, end_at, refuse};
use crate::token::Tokens;
use iasl_messages::number::{BAD_CHARACTER, NUMBER_IS_TOO_LARGE};
use iasl_messages::place::Place;
use std::alloc::Global;

/// A number so far: its place, its base, its value, and the column behind it.
#[derive(Clone, Copy, Debug)]
pub struct Numeral {
    pub from: Place,
    pub radix: Radix,
    pub value: u64,
    pub end: u32,
}

// A byte behind a number that it does not go on.
fn behind(
    alloc: Global,
    tokens: &mut Tokens,
    from: Place,
    value: u64,
    end: u32,
    at: Place,
    byte: u8,
) -> Result<Mode, LexerStop>
    ensures { Moves result tokens.new (spec.behind_by (class_by byte) from value end at byte tokens.old) }
{
    match class_of(byte) {
        Class::Letter | Class::Zero | Class::Digit => Err(refuse(BAD_CHARACTER, at)),
        _ => {
            add_number(alloc, tokens, from, value, end)?;
            begin(alloc, at, byte)
        }
    }
}

/// A byte behind a number.
pub fn number(
    alloc: Global,
    tokens: &mut Tokens,
    numeral: Numeral,
    at: Place,
    byte: u8,
) -> Result<Mode, LexerStop>
    ensures { Moves result tokens.new
        (spec.number_by (is_digit byte (base_by numeral.radix)) numeral.from numeral.radix numeral.value numeral.end at byte tokens.old) }
{
    let Numeral {
        from,
        radix,
        value,
        end,
    } = numeral;
    let digit = value_of(byte);
    let base = base_of(radix);
    if digit < base {
        let Some(front) = value.checked_mul(base) else {
            return Err(refuse(NUMBER_IS_TOO_LARGE, from));
        };
        let Some(value) = front.checked_add(digit) else {
            return Err(refuse(NUMBER_IS_TOO_LARGE, from));
        };
        Ok(Mode::Number {
            from,
            radix,
            value,
            end: end_at(at),
        })
    } else {
        behind(alloc, tokens, from, value, end, at, byte)
    }
}

/// A byte behind a zero.
pub fn zero(
    alloc: Global,
    tokens: &mut Tokens,
    from: Place,
    at: Place,
    byte: u8,
) -> Result<Mode, LexerStop>
    ensures { Moves result tokens.new (spec.zero_by (is_digit byte 8) (byte == 120) from at byte tokens.old) }
{
    let value = value_of(byte);
    if value < 8 {
        Ok(Mode::Number {
            from,
            radix: Radix::Octal,
            value,
            end: end_at(at),
        })
    } else if byte == b'x' {
        Ok(Mode::Prefix { from, x: at })
    } else {
        behind(alloc, tokens, from, 0, end_at(from), at, byte)
    }
}

/// A byte behind a zero and an `x`.
pub fn prefix(from: Place, x: Place, at: Place, byte: u8) -> Result<Mode, LexerStop>
    ensures { (tokens : AList Token) → Moves result tokens (spec.prefix_by (is_digit byte 16) from x at byte tokens) }
{
    let value = value_of(byte);
    if value < 16 {
        Ok(Mode::Number {
            from,
            radix: Radix::Hexadecimal,
            value,
            end: end_at(at),
        })
    } else {
        Err(refuse(BAD_CHARACTER, x))
    }
}
