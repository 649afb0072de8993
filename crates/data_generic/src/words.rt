//! What stands in the value of a data line: a word, a name, names behind `$`.
ghost use Rattle.std.specs.Prelude.{◌≡◌, ◌≤◌, MatchOption, IfOk, Some, None, length};
ghost use Rattle.std.specs.Option.{option_copied};
ghost use Rattle.std.specs.List.{prefix_len};
ghost use Rattle.data_generic.specs.Words as spec;
ghost use Rattle.data_generic.specs.Shown.{shown_reference, shown_halves};

use hex_text::blanks::{has_blanks_alone, is_blank, skip_blanks};
use std::alloc::{AllocError, Global};

fn is_inner(byte: u8) -> bool
    ensures { result ≡ spec.is_inner byte }
{
    !is_blank(byte)
}

fn count_inner(text: &[u8]) -> usize
    ensures count { result ≡ prefix_len spec.is_inner text.now }
    ensures within { result ≤ length text.now }
{
    text.iter().take_while(|byte| is_inner(**byte)).count()
}

fn word_from(text: &[u8]) -> Option<&[u8]>
    ensures { option_copied result ≡ spec.word_from text.now }
{
    let (word, rest) = text.split_at(count_inner(text));
    if has_blanks_alone(rest) {
        Some(word)
    } else {
        None
    }
}

/// The one word between blanks that a value is.
pub(crate) fn word_in(value: &[u8]) -> Option<&[u8]>
    ensures { option_copied result ≡ spec.word_in value.now }
{
    word_from(skip_blanks(value))
}

fn is_name_start(byte: u8) -> bool
    ensures { result ≡ spec.is_name_start byte }
{
    (65 <= byte && byte <= 90) || ((97 <= byte && byte <= 122) || byte == 95)
}

fn is_name_byte(byte: u8) -> bool
    ensures { result ≡ spec.is_name_byte byte }
{
    is_name_start(byte) || (48 <= byte && byte <= 57)
}

fn begins_name(text: &[u8]) -> bool
    ensures { result ≡ spec.begins_name text.now }
{
    match text {
        [first, ..] => is_name_start(*first),
        [] => false,
    }
}

fn has_name_bytes(text: &[u8]) -> bool
    ensures { result ≡ spec.has_name_bytes text.now }
{
    text.iter().all(|byte| is_name_byte(*byte))
}

/// The name that a value is: a letter or `_`, then letters, digits and `_`.
pub(crate) fn name_in(value: &[u8]) -> Option<&[u8]>
    ensures { option_copied result ≡ spec.name_in value.now }
{
    match word_in(value) {
        Some(word) if begins_name(word) && has_name_bytes(word) => Some(word),
        _ => None,
    }
}

/// A name as names are compared: in lower case.
pub(crate) fn name_key(alloc: Global, name: &[u8]) -> Result<Vec<u8>, AllocError>
    ensures { IfOk result (λ key. key.items ≡ spec.name_key name.now) }
{
    let mut key = Vec::new(alloc);
    for byte in name {
        key.push(byte.to_ascii_lowercase())?;
    }
    Ok(key)
}

/// A name behind `$`, or two of them with a hyphen between.
#[derive(Clone, Copy)]
pub(crate) enum Reference<'a> {
    /// The offset of a label.
    Offset(&'a [u8]),
    /// That of the first less that of the second.
    Difference(&'a [u8], &'a [u8]),
}

fn begins_reference(text: &[u8]) -> bool
    ensures { result ≡ spec.begins_reference text.now }
{
    match text {
        [first, ..] => *first == b'$',
        [] => false,
    }
}

/// Whether a value begins with `$`.
pub(crate) fn is_reference(value: &[u8]) -> bool
    ensures { result ≡ spec.is_reference value.now }
{
    begins_reference(skip_blanks(value))
}

fn count_name(text: &[u8]) -> usize
    ensures count { result ≡ prefix_len spec.is_name_byte text.now }
    ensures within { result ≤ length text.now }
{
    text.iter().take_while(|byte| is_name_byte(**byte)).count()
}

// A `$` and a name at the front: the name, and what stands behind it.
fn reference_at(text: &[u8]) -> Option<(&[u8], &[u8])>
    ensures { shown_halves result ≡ spec.reference_at text.now }
{
    match text {
        [b'$', rest @ ..] if begins_name(rest) => Some(rest.split_at(count_name(rest))),
        _ => None,
    }
}

fn with_second<'a>(name: &'a [u8], second: Option<(&'a [u8], &'a [u8])>) -> Option<Reference<'a>>
    ensures { shown_reference result ≡ spec.with_second name.now (shown_halves second.entry) }
{
    match second {
        Some((other, rest)) if has_blanks_alone(rest) => Some(Reference::Difference(name, other)),
        _ => None,
    }
}

fn with_first<'a>(name: &'a [u8], text: &'a [u8]) -> Option<Reference<'a>>
    ensures { shown_reference result ≡ spec.with_first name.now text.now }
{
    match text {
        [] => Some(Reference::Offset(name)),
        [b'-', rest @ ..] => with_second(name, reference_at(skip_blanks(rest))),
        _ => None,
    }
}

/// The reference that a value is.
pub(crate) fn reference_in(value: &[u8]) -> Option<Reference<'_>>
    ensures { shown_reference result ≡ spec.reference_in value.now }
{
    let (name, rest) = reference_at(skip_blanks(value))?;
    with_first(name, skip_blanks(rest))
}
