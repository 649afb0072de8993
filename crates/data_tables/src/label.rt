//! Labels.
ghost use Rattle.std.specs.Prelude.{◌≡◌, decimal, [], ◌∷◌, ◌++◌, List, ℕ, MatchOption, None};
ghost use Rattle.std.specs.Option.{option_copied};
ghost use Rattle.std.specs.Str.{bytes_eq};
ghost use Rattle.data_text.specs.Labels.{label_key};
ghost use Rattle.data_tables.specs.Fields.{row_key};
ghost use Rattle.data_tables.specs.Labels.{behind_label, behind_key};

use data_layout::row::{Kind, Row};
use hex_text::blanks::is_blank;
use itoa::Buffer;

// What stands behind a letter, where a text begins with it.
fn behind_letter(text: &[u8], letter: u8) -> Option<&[u8]>
    ensures { MatchOption result ((key : List ℕ) → behind_key text.now (letter ∷ key) ≡ None)
        (λ rest. (key : List ℕ) → behind_key text.now (letter ∷ key) ≡ behind_key rest.now key) }
{
    match text {
        [first, rest @ ..] => { if *first == letter { Some(rest) } else { None } }
        [] => None,
    }
}

// What stands behind the letters of a label, where a key begins with them.
fn behind_label<'a>(key: &'a [u8], label: &[u8]) -> Option<&'a [u8]>
    ensures { option_copied result ≡ behind_label key.now label.now }
{
    let mut rest = key;
    for byte in label {
        if !is_blank(*byte) {
            match behind_letter(rest, byte.to_ascii_lowercase()) {
                Some(after) => rest = after,
                None => return None,
            }
        }
    }
    Some(rest)
}

fn is_number(text: &[u8], number: u64) -> bool
    ensures { result ≡ bytes_eq text.now (decimal number) }
{
    let mut buffer = Buffer::new();
    text == buffer.format(number).as_bytes()
}

fn is_nothing(text: &[u8]) -> bool
    ensures { result ≡ bytes_eq text.now [] }
{
    text == [].as_slice()
}

/// Whether a key is that of this label.
pub fn is_label(key: &[u8], label: &[u8]) -> bool
    ensures { result ≡ bytes_eq key.now (label_key label.now) }
{
    match behind_label(key, label) {
        Some(rest) => is_nothing(rest),
        None => false,
    }
}

fn is_numbered(key: &[u8], label: &[u8], number: u64) -> bool
    ensures { result ≡ bytes_eq key.now (label_key label.now ++ decimal number) }
{
    match behind_label(key, label) {
        Some(rest) => is_number(rest, number),
        None => false,
    }
}

/// Whether a key is that of a field's label.
pub(crate) fn is_row_label(key: &[u8], row: &Row) -> bool
    ensures { result ≡ bytes_eq key.now (row_key row.now) }
{
    match row.kind {
        Kind::Locality(number) => is_numbered(key, &row.label, number),
        Kind::Number
        | Kind::Text
        | Kind::Bytes
        | Kind::Guid
        | Kind::Reserved
        | Kind::TableLength
        | Kind::Checksum
        | Kind::CompilerId
        | Kind::CompilerRevision
        | Kind::Length(_)
        | Kind::Revision
        | Kind::StructureType
        | Kind::Localities => is_label(key, &row.label),
    }
}
