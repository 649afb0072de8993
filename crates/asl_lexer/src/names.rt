//! Words and paths.
ghost use Rattle.std.specs.Prelude.{◌≡◌, List as AList, OnOk, IfOk};
ghost use Rattle.asl_lexer.specs.declared.token.Token.{Token};
ghost use Rattle.asl_lexer.specs.Scan as spec;
ghost use Rattle.asl_lexer.specs.Scan.{Moves};
ghost use Rattle.asl_lexer.specs.Class.{class_of as class_by};

use crate::class::{Class, class_of};
use crate::mode::{LexerStop, Mode};
use crate::start::{add_name, add_symbol, begin, longer, refuse};
use crate::token::Tokens;
use iasl_messages::number::BAD_CHARACTER;
use iasl_messages::place::Place;
use iasl_ports::list::List;
use std::alloc::{AllocError, Global};

/// A byte behind a word or path.
pub fn name(
    alloc: Global,
    tokens: &mut Tokens,
    from: Place,
    path: bool,
    text: List<u8>,
    at: Place,
    byte: u8,
) -> Result<Mode, LexerStop>
    ensures { Moves result tokens.new (spec.name_by (class_by byte) from path text at byte tokens.old) }
{
    match class_of(byte) {
        Class::Letter | Class::Underscore | Class::Zero | Class::Digit => {
            let text = longer(text, byte.to_ascii_uppercase())?;
            Ok(Mode::Name { from, path, text })
        }
        Class::Dot => Ok(Mode::Dot {
            from,
            path,
            text,
            dot: at,
        }),
        _ => {
            add_name(alloc, tokens, path, from, text)?;
            begin(alloc, at, byte)
        }
    }
}

/// A byte behind a word or path and a dot.
pub fn dot(from: Place, text: List<u8>, dot: Place, byte: u8) -> Result<Mode, LexerStop>
    ensures { (tokens : AList Token) → Moves result tokens (spec.dot_by (class_by byte) from text dot byte tokens) }
{
    match class_of(byte) {
        Class::Letter | Class::Underscore => {
            let text = longer(longer(text, b'.')?, byte.to_ascii_uppercase())?;
            Ok(Mode::Name {
                from,
                path: true,
                text,
            })
        }
        _ => Err(refuse(BAD_CHARACTER, dot)),
    }
}

/// A byte behind a backslash.
pub fn root(
    alloc: Global,
    tokens: &mut Tokens,
    from: Place,
    at: Place,
    byte: u8,
) -> Result<Mode, LexerStop>
    ensures { Moves result tokens.new (spec.root_by (class_by byte) from at byte tokens.old) }
{
    let text = longer(List::new(alloc), b'\\')?;
    match class_of(byte) {
        Class::Letter | Class::Underscore => {
            let text = longer(text, byte.to_ascii_uppercase())?;
            Ok(Mode::Name {
                from,
                path: true,
                text,
            })
        }
        _ => {
            add_name(alloc, tokens, true, from, text)?;
            begin(alloc, at, byte)
        }
    }
}

/// Adds a caret for each place.
pub fn add_carets(alloc: Global, tokens: &mut Tokens, places: &[Place]) -> Result<(), AllocError>
    ensures { OnOk result (tokens.new ≡ spec.with_carets tokens.old places.now) }
{
    for place in places {
        add_symbol(alloc, tokens, *place, b"^")?;
    }
    Ok(())
}

fn caret_text(alloc: Global, places: &[Place]) -> Result<List<u8>, AllocError>
    ensures { IfOk result (λ text. text ≡ spec.caret_text places.now) }
{
    let mut text = List::new(alloc);
    for _place in places {
        text.push(b'^')?;
    }
    Ok(text)
}

fn first_of(before: &[Place], last: Place) -> Place
    ensures { result ≡ spec.first_of before.now last }
{
    match before {
        [first, ..] => *first,
        [] => last,
    }
}

/// A byte behind carets.
pub fn carets(
    alloc: Global,
    tokens: &mut Tokens,
    mut before: List<Place>,
    last: Place,
    at: Place,
    byte: u8,
) -> Result<Mode, LexerStop>
    ensures { Moves result tokens.new (spec.carets_by (class_by byte) before last at byte tokens.old) }
{
    match class_of(byte) {
        Class::Caret => {
            before.push(last)?;
            Ok(Mode::Carets { before, last: at })
        }
        Class::Letter | Class::Underscore => {
            let text = longer(caret_text(alloc, before.as_slice())?, b'^')?;
            Ok(Mode::Name {
                from: first_of(before.as_slice(), last),
                path: true,
                text: longer(text, byte.to_ascii_uppercase())?,
            })
        }
        Class::Equals => {
            add_carets(alloc, tokens, before.as_slice())?;
            add_symbol(alloc, tokens, last, b"^=")?;
            Ok(Mode::Between)
        }
        _ => {
            add_carets(alloc, tokens, before.as_slice())?;
            add_symbol(alloc, tokens, last, b"^")?;
            begin(alloc, at, byte)
        }
    }
}
