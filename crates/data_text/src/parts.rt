// The parts of a line.
ghost use Rattle.std.specs.Prelude.{◌≡◌, ◌++◌, ◌∷◌, [], MatchOption, IfOk, OnOk, Some, None, true, false, position, ◌==◌};
ghost use Rattle.std.specs.Option.{option_copied};
ghost use Rattle.data_text.specs.Parts.{before_remark, after_bracket, begun, extended, kept, place_of};
ghost use Rattle.data_text.specs.Parts as spec;

use crate::field_line::{FieldLine, FieldLines};
use crate::labels::{before_backslash, is_one_word, label_key};
use hex_text::blanks::{has_blanks_alone, skip_blanks};
use iasl_messages::place::{Line, Place};
use iasl_ports::list::List;
use std::alloc::{AllocError, Global};

// A text up to the first `[` outside quotes.
fn before_remark(text: &[u8]) -> &[u8]
    ensures { result.now ≡ before_remark false text.now }
{
    let mut quoted = false;
    for (index, byte) in text.iter().enumerate() {
        if *byte == b'[' && !quoted {
            return &text[..index];
        }
        if *byte == b'"' {
            quoted = !quoted;
        }
    }
    text
}

fn closing_bracket(text: &[u8]) -> Option<usize>
    ensures { result ≡ position (λ c. c == 93) text.now }
{
    text.iter().position(|byte| *byte == b']')
}

fn colon(text: &[u8]) -> Option<usize>
    ensures { result ≡ position (λ c. c == 58) text.now }
{
    text.iter().position(|byte| *byte == b':')
}

// What stands behind the part in brackets at the front, and whether there is one.
fn after_bracket(text: &[u8]) -> (&[u8], bool)
    ensures { (result.0.now, result.1) ≡ after_bracket text.now }
{
    if let [b'[', inside @ ..] = text {
        if let Some(end) = closing_bracket(inside) {
            return (&inside[end + 1..], true);
        }
    }
    (text, false)
}

/// Column 1 of a line.
pub fn column_one(line: &Line) -> Place
    ensures { result ≡ place_of line.now }
{
    Place {
        file: line.file,
        line: line.number,
        column: 1,
    }
}

// The label and the value of a text.
fn halves(text: &[u8]) -> Option<(&[u8], &[u8])>
    ensures { MatchOption result (spec.halves text.now ≡ None) (λ found. spec.halves text.now ≡ Some (found.0.now, found.1.now)) }
{
    match colon(text) {
        Some(end) => Some((&text[..end], &text[end + 1..])),
        None => None,
    }
}

/// The field line that a line begins, and whether its value goes on in the next line. `bare` is the line's
/// text with comments as blanks.
pub fn begun(alloc: Global, line: &Line, bare: &[u8]) -> Result<(FieldLine, bool), AllocError>
    ensures { IfOk result (λ out. (out.0, out.1) ≡ begun line.now bare.now) }
{
    let (rest, bracketed) = after_bracket(skip_blanks(bare));
    let place = column_one(line);
    let Some((label, value)) = halves(before_remark(rest)) else {
        let line = FieldLine {
            place,
            bracketed,
            colon: false,
            label: List::new(alloc),
            one_word: true,
            value: List::new(alloc),
        };
        return Ok((line, false));
    };
    let (front, goes_on) = before_backslash(value);
    let line = FieldLine {
        place,
        bracketed,
        colon: true,
        label: List::from_vec(label_key(alloc, label)?),
        one_word: is_one_word(label),
        value: List::from_vec(front.to_vec(alloc)?),
    };
    Ok((line, goes_on))
}

/// A field line whose value goes on in this text, and whether it goes on behind it.
pub fn extended(pending: FieldLine, bare: &[u8]) -> Result<(FieldLine, bool), AllocError>
    ensures { IfOk result (λ out. (out.0, out.1) ≡ extended pending bare.now) }
{
    let (front, goes_on) = before_backslash(before_remark(bare));
    let mut value = pending.value.into_vec();
    value.push(b' ')?;
    value.extend_from_slice(front)?;
    let line = FieldLine {
        place: pending.place,
        bracketed: pending.bracketed,
        colon: pending.colon,
        label: pending.label,
        one_word: pending.one_word,
        value: List::from_vec(value),
    };
    Ok((line, goes_on))
}

/// Adds a line that is no heading.
pub fn keep(lines: &mut FieldLines, line: FieldLine) -> Result<(), AllocError>
    ensures { OnOk result (lines.new ≡ lines.old ++ kept line) }
{
    if line.colon && has_blanks_alone(line.value.as_slice()) {
        return Ok(());
    }
    lines.push(line)
}
