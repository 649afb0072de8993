//! Where a token begins.
ghost use Rattle.std.specs.Prelude.{◌≡◌, ◌++◌, ◌∷◌, [], List as AList, OnOk, IfOk, map, false};
ghost use Rattle.std.specs.Char.{to_ascii_uppercase};
ghost use Rattle.asl_lexer.specs.declared.token.Token.{Token};
ghost use Rattle.asl_lexer.specs.Scan as spec;
ghost use Rattle.asl_lexer.specs.Scan.{Moves};

use crate::class::{Class, Radix, class_of, value_of};
use crate::mode::{Fault, LexerStop, Mode};
use crate::token::{Token, TokenKind, Tokens};
use iasl_messages::number::BAD_CHARACTER;
use iasl_messages::place::Place;
use iasl_ports::list::{List, Text};
use std::alloc::{AllocError, Global};

/// The refusal of a message at a place.
pub fn refuse(number: u16, place: Place) -> LexerStop
    ensures { result ≡ LexerStop.Fault (record { number = number; place = place }) }
{
    LexerStop::Fault(Fault { number, place })
}

/// The list with one more byte.
pub fn longer(mut text: List<u8>, byte: u8) -> Result<List<u8>, AllocError>
    ensures { IfOk result (λ longer. longer ≡ text ++ byte ∷ []) }
{
    text.push(byte)?;
    Ok(text)
}

/// The column behind so many bytes from this one on, or the largest column.
pub fn column_after(column: u32, count: usize) -> u32
    ensures { result ≡ spec.column_after column count }
{
    (column as usize)
        .saturating_add(count)
        .min(u32::MAX as usize) as u32
}

/// The column behind the byte of a place.
pub fn end_at(place: Place) -> u32
    ensures { result ≡ spec.end_at place }
{
    column_after(place.column, 1)
}

fn add(
    tokens: &mut Tokens,
    kind: TokenKind,
    place: Place,
    end: u32,
    number: u64,
    text: Text,
) -> Result<(), AllocError>
    ensures { OnOk result (tokens.new ≡ spec.with tokens.old kind place end number text) }
{
    tokens.push(Token {
        kind,
        place,
        end,
        number,
        text,
    })
}

/// Adds a word, or a path.
pub fn add_name(
    alloc: Global,
    tokens: &mut Tokens,
    path: bool,
    place: Place,
    text: List<u8>,
) -> Result<(), AllocError>
    ensures { OnOk result (tokens.new ≡ spec.with_name tokens.old path place text) }
{
    let kind = if path {
        TokenKind::Path
    } else {
        TokenKind::Word
    };
    let end = column_after(place.column, text.len());
    let text = Text::from_vec(alloc, text.into_vec())?;
    add(tokens, kind, place, end, 0, text)
}

/// Adds a number.
pub fn add_number(
    alloc: Global,
    tokens: &mut Tokens,
    place: Place,
    value: u64,
    end: u32,
) -> Result<(), AllocError>
    ensures { OnOk result (tokens.new ≡ spec.with_number tokens.old place value end) }
{
    let text = Text::new(alloc);
    add(tokens, TokenKind::Number, place, end, value, text)
}

/// Adds a string.
pub fn add_string(
    alloc: Global,
    tokens: &mut Tokens,
    place: Place,
    end: u32,
    text: List<u8>,
) -> Result<(), AllocError>
    ensures { OnOk result (tokens.new ≡ spec.with_string tokens.old place end text) }
{
    let text = Text::from_vec(alloc, text.into_vec())?;
    add(tokens, TokenKind::Text, place, end, 0, text)
}

/// Adds a word of these bytes.
#[tactic(auto, using(std::proofs::lemmas::Grind::common_steps))]
pub fn add_word(
    alloc: Global,
    tokens: &mut Tokens,
    place: Place,
    bytes: &[u8],
) -> Result<(), AllocError>
    ensures { OnOk result (tokens.new ≡ spec.with_name tokens.old false place (map to_ascii_uppercase bytes.now)) }
{
    let end = column_after(place.column, bytes.len());
    let text = Text::from_uppercase(alloc, bytes)?;
    add(tokens, TokenKind::Word, place, end, 0, text)
}

/// Adds a string of these bytes.
pub fn add_plain_string(
    alloc: Global,
    tokens: &mut Tokens,
    place: Place,
    end: u32,
    bytes: &[u8],
) -> Result<(), AllocError>
    ensures { OnOk result (tokens.new ≡ spec.with_string tokens.old place end bytes.now) }
{
    let text = Text::from_bytes(alloc, bytes)?;
    add(tokens, TokenKind::Text, place, end, 0, text)
}

/// Adds a symbol.
pub fn add_symbol(
    alloc: Global,
    tokens: &mut Tokens,
    place: Place,
    text: &[u8],
) -> Result<(), AllocError>
    ensures { OnOk result (tokens.new ≡ spec.with_symbol tokens.old place text.now) }
{
    let end = column_after(place.column, text.len());
    let text = Text::from_bytes(alloc, text)?;
    add(tokens, TokenKind::Symbol, place, end, 0, text)
}

/// A byte between tokens.
#[tactic(auto, unfolding(crate::specs::Scan::begin))]
pub fn begin(alloc: Global, at: Place, byte: u8) -> Result<Mode, LexerStop>
    ensures { (tokens : AList Token) → Moves result tokens (spec.begin at byte tokens) }
{
    match class_of(byte) {
        Class::Blank | Class::Break => Ok(Mode::Between),
        Class::Letter | Class::Underscore => Ok(Mode::Name {
            from: at,
            path: false,
            text: longer(List::new(alloc), byte.to_ascii_uppercase())?,
        }),
        Class::Zero => Ok(Mode::Zero { from: at }),
        Class::Digit => Ok(Mode::Number {
            from: at,
            radix: Radix::Decimal,
            value: value_of(byte),
            end: end_at(at),
        }),
        Class::Backslash => Ok(Mode::Root { from: at }),
        Class::Caret => Ok(Mode::Carets {
            before: List::new(alloc),
            last: at,
        }),
        Class::Quote => Ok(Mode::Text {
            from: at,
            text: List::new(alloc),
        }),
        Class::Slash => Ok(Mode::Slash { from: at }),
        Class::Star | Class::Equals | Class::Sign => Ok(Mode::Sign {
            from: at,
            first: byte,
        }),
        Class::Dot | Class::Other => Err(refuse(BAD_CHARACTER, at)),
    }
}
