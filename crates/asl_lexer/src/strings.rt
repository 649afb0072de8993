//! Strings.
ghost use Rattle.std.specs.Prelude.{◌≡◌, ◌==◌, ◌&&◌, nat_lt, List as AList};
ghost use Rattle.std.specs.Char.{is_digit};
ghost use Rattle.asl_lexer.specs.declared.token.Token.{Token};
ghost use Rattle.asl_lexer.specs.Scan as spec;
ghost use Rattle.asl_lexer.specs.Scan.{Moves};
ghost use Rattle.asl_lexer.specs.Class.{class_of as class_by, base_of as base_by};

use crate::class::{Class, Radix, base_of, class_of, value_of};
use crate::mode::{Fault, LexerStop, Mode};
use crate::start::{add_string, end_at, longer, refuse};
use crate::token::Tokens;
use iasl_messages::number::{BAD_CHARACTER, BAD_ESCAPE, OPEN_STRING};
use iasl_messages::place::Place;
use iasl_ports::list::List;
use std::alloc::Global;

/// A byte in a string that is bad already.
pub fn broken(from: Place, fault: Fault, byte: u8) -> Result<Mode, LexerStop>
    ensures { (tokens : AList Token) → Moves result tokens (spec.broken_by (class_by byte) from fault tokens) }
{
    match class_of(byte) {
        Class::Break => Err(refuse(OPEN_STRING, from)),
        Class::Quote => Err(LexerStop::Fault(fault)),
        Class::Backslash => Ok(Mode::BrokenEscape { from, fault }),
        _ => Ok(Mode::Broken { from, fault }),
    }
}

/// A byte behind a backslash in such a string.
pub fn broken_escape(from: Place, fault: Fault, byte: u8) -> Result<Mode, LexerStop>
    ensures { (tokens : AList Token) → Moves result tokens (spec.broken_escape_by (class_by byte) from fault tokens) }
{
    match class_of(byte) {
        Class::Break => Err(refuse(OPEN_STRING, from)),
        _ => Ok(Mode::Broken { from, fault }),
    }
}

fn is_plain(byte: u8) -> bool
    ensures { result ≡ spec.is_plain byte }
{
    1 <= byte && byte <= 127
}

/// A byte in a string.
pub fn text(
    alloc: Global,
    tokens: &mut Tokens,
    from: Place,
    text: List<u8>,
    at: Place,
    byte: u8,
) -> Result<Mode, LexerStop>
    ensures { Moves result tokens.new (spec.text_by (class_by byte) from text at byte tokens.old) }
{
    match class_of(byte) {
        Class::Break => Err(refuse(OPEN_STRING, from)),
        Class::Quote => {
            add_string(alloc, tokens, from, end_at(at), text)?;
            Ok(Mode::Between)
        }
        Class::Backslash => Ok(Mode::Escape {
            from,
            text,
            slash: at,
        }),
        _ => {
            if is_plain(byte) {
                let text = longer(text, byte)?;
                Ok(Mode::Text { from, text })
            } else {
                Ok(Mode::Broken {
                    from,
                    fault: Fault {
                        number: BAD_CHARACTER,
                        place: at,
                    },
                })
            }
        }
    }
}

fn escaped(byte: u8) -> Option<u8>
    ensures { result ≡ spec.escaped byte }
{
    match byte {
        b'a' => Some(7),
        b'b' => Some(8),
        b'f' => Some(12),
        b'n' => Some(10),
        b'r' => Some(13),
        b't' => Some(9),
        b'v' => Some(11),
        b'"' | b'\'' | b'\\' => Some(byte),
        _ => None,
    }
}

fn bad_escape(slash: Place) -> Fault
    ensures { result ≡ spec.bad_escape slash }
{
    Fault {
        number: BAD_ESCAPE,
        place: slash,
    }
}

// A byte behind a backslash that is no escape of one letter or mark.
fn digits(from: Place, text: List<u8>, slash: Place, byte: u8) -> Mode
    ensures { (tokens : AList Token) → spec.digits_by (is_digit byte 8) (byte == 120) from text slash byte tokens ≡ Ok (result, tokens) }
{
    let value = value_of(byte);
    if value < 8 {
        Mode::Digits {
            from,
            text,
            slash,
            radix: Radix::Octal,
            value: value as u8,
            left: 2,
        }
    } else if byte == b'x' {
        Mode::Coded { from, text, slash }
    } else {
        let fault = bad_escape(slash);
        Mode::Broken { from, fault }
    }
}

/// A byte behind a backslash in a string.
pub fn escape(from: Place, text: List<u8>, slash: Place, byte: u8) -> Result<Mode, LexerStop>
    ensures { (tokens : AList Token) → Moves result tokens (spec.escape_by (class_by byte) from text slash byte tokens) }
{
    match class_of(byte) {
        Class::Break => Err(refuse(OPEN_STRING, from)),
        _ => match escaped(byte) {
            Some(byte) => {
                let text = longer(text, byte)?;
                Ok(Mode::Text { from, text })
            }
            None => Ok(digits(from, text, slash, byte)),
        },
    }
}

/// A byte behind `\x` in a string.
pub fn coded(from: Place, text: List<u8>, slash: Place, byte: u8) -> Result<Mode, LexerStop>
    ensures { (tokens : AList Token) → Moves result tokens (spec.coded_by (is_digit byte 16) from text slash byte tokens) }
{
    let value = value_of(byte);
    if value < 16 {
        Ok(Mode::Digits {
            from,
            text,
            slash,
            radix: Radix::Hexadecimal,
            value: value as u8,
            left: 1,
        })
    } else {
        broken(from, bad_escape(slash), byte)
    }
}

/// A string up to the backslash of an escape: its place, its bytes so far, and the backslash's place.
#[derive(Drop)]
pub struct Front {
    pub from: Place,
    pub text: List<u8>,
    pub slash: Place,
}

/// An escape of digits so far: their base, their value, or 255 where it is more, and how many may follow.
#[derive(Clone, Copy, Debug)]
pub struct Code {
    pub radix: Radix,
    pub value: u8,
    pub left: u8,
}

// A byte behind the digits of an escape.
fn behind_digits(
    alloc: Global,
    tokens: &mut Tokens,
    front: Front,
    value: u8,
    at: Place,
    byte: u8,
) -> Result<Mode, LexerStop>
    ensures { Moves result tokens.new (spec.value_by (spec.is_plain value) front.from front.text front.slash value at byte tokens.old) }
{
    if is_plain(value) {
        let string = longer(front.text, value)?;
        text(alloc, tokens, front.from, string, at, byte)
    } else {
        broken(front.from, bad_escape(front.slash), byte)
    }
}

/// A byte behind some digits of an escape.
pub fn escape_digit(
    alloc: Global,
    tokens: &mut Tokens,
    front: Front,
    code: Code,
    at: Place,
    byte: u8,
) -> Result<Mode, LexerStop>
    ensures { Moves result tokens.new (spec.escape_digit_by (nat_lt 0 code.left && is_digit byte (base_by code.radix)) front.from front.text
        front.slash code.radix code.value code.left at byte tokens.old) }
{
    let digit = value_of(byte);
    let base = base_of(code.radix);
    if code.left > 0 && digit < base {
        let value = (u64::from(code.value) * base + digit).min(255) as u8;
        Ok(Mode::Digits {
            from: front.from,
            text: front.text,
            slash: front.slash,
            radix: code.radix,
            value,
            left: code.left - 1,
        })
    } else {
        behind_digits(alloc, tokens, front, code.value, at, byte)
    }
}
