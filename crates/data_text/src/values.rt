//! What the value of a field is.
ghost use Rattle.std.specs.Prelude.{◌≡◌, ◌≤◌, ◌<◌, ◌^◌, ◌-◌, ◌++◌, ◌∷◌, [], min, MatchOption, IfOk, OnOk, Some, None, length, true, false};
ghost use Rattle.std.specs.Prelude.{List, ℕ};
ghost use Rattle.std.specs.Option.{option_copied, option_map};
ghost use Rattle.hex_text.specs.Digits.{number_of};
ghost use Rattle.std.specs.List.{prefix_len};
ghost use Rattle.data_text.specs.Values.{behind_prefix, number_in, text_in, before_quote, from_quote, bytes_in, bytes_at};
ghost use Rattle.data_text.specs.Values as spec;

use hex_text::blanks::{has_blanks_alone, is_blank, skip_blanks};
use hex_text::digits::{byte_of, capped_number, split_digits};
use std::alloc::{AllocError, Global};

fn behind_prefix(text: &[u8]) -> &[u8]
    ensures { result.now ≡ behind_prefix text.now }
{
    match text {
        [b'0', b'x', rest @ ..] => rest,
        _ => text,
    }
}

/// A number, where it is below 2^64.
#[derive(Clone, Copy, PartialEq, Eq, Debug)]
pub enum Number {
    /// The value is no number.
    Malformed,
    /// A number of more than 64 bits.
    Wide,
    /// A number.
    Is(u64),
}

fn number_of_digits(digits: &[u8]) -> Number
    ensures { spec.IsNumber result (Some (number_of digits.now)) }
{
    let number = capped_number(digits);
    if number < 1 << 64 {
        Number::Is(number as u64)
    } else {
        Number::Wide
    }
}

/// The number that a value is: hexadecimal digits, of either case, perhaps behind `0x`, between blanks.
pub fn number_in(value: &[u8]) -> Number
    ensures { spec.IsNumber result (number_in value.now) }
{
    let (digits, rest) = split_digits(behind_prefix(skip_blanks(value)));
    if digits.is_empty() || !has_blanks_alone(rest) {
        return Number::Malformed;
    }
    number_of_digits(digits)
}

fn is_inside(byte: u8) -> bool
    ensures { result ≡ spec.is_inside byte }
{
    byte != b'"'
}

fn count_inside(text: &[u8]) -> usize
    ensures count { result ≡ prefix_len spec.is_inside text.now }
    ensures within { result ≤ length text.now }
{
    text.iter().take_while(|byte| is_inside(**byte)).count()
}

// What stands before the next quote, and from it on.
fn split_quote(text: &[u8]) -> (&[u8], &[u8])
    ensures before { result.0.now ≡ before_quote text.now }
    ensures rest { result.1.now ≡ from_quote text.now }
{
    text.split_at(count_inside(text))
}

/// The text that a value is: bytes between two quotes, and blanks around them.
pub fn text_in(value: &[u8]) -> Option<&[u8]>
    ensures { option_copied result ≡ text_in value.now }
{
    let [b'"', inside @ ..] = skip_blanks(value) else {
        return None;
    };
    let (text, rest) = split_quote(inside);
    let [_, behind @ ..] = rest else {
        return None;
    };
    if has_blanks_alone(behind) {
        Some(text)
    } else {
        None
    }
}

/// How much of a pair of digits has been read.
#[derive(Clone, Copy, PartialEq, Eq, Debug)]
pub(crate) enum Pair {
    /// A pair may begin.
    Ready,
    /// The first digit, or what stands in its place.
    Half(u8),
    /// The pair, behind which a blank or the end must stand.
    Done,
}

// Takes the next byte of pairs: how much of a pair has then been read, or none where the pairs have not their form.
fn take_byte(bytes: &mut Vec<u8>, pair: Pair, byte: u8) -> Result<Option<Pair>, AllocError>
    ensures { IfOk result
        (λ next. MatchOption next ((rest : List ℕ) → bytes_at pair (byte ∷ rest) ≡ None)
        (λ p. (rest : List ℕ) → option_map (λ more. bytes.old.items ++ more) (bytes_at pair (byte ∷ rest)) ≡ option_map
        (λ more. bytes.new.items ++ more) (bytes_at p rest))) }
{
    match pair {
        Pair::Ready => {
            if is_blank(byte) {
                Ok(Some(Pair::Ready))
            } else {
                Ok(Some(Pair::Half(byte)))
            }
        }
        Pair::Half(high) => {
            let Some(whole) = byte_of(high, byte) else {
                return Ok(None);
            };
            bytes.push(whole)?;
            Ok(Some(Pair::Done))
        }
        Pair::Done => {
            if is_blank(byte) {
                Ok(Some(Pair::Ready))
            } else {
                Ok(None)
            }
        }
    }
}

/// The bytes that a value is: pairs of hexadecimal digits with blanks between.
pub fn bytes_in(alloc: Global, value: &[u8]) -> Result<Option<Vec<u8>>, AllocError>
    ensures { IfOk result (λ found. option_map (λ bytes. bytes.items) found ≡ bytes_in value.now) }
{
    let mut bytes = Vec::new(alloc);
    let mut pair = Pair::Ready;
    for byte in value {
        match take_byte(&mut bytes, pair, *byte)? {
            Some(next) => pair = next,
            None => return Ok(None),
        }
    }
    match pair {
        Pair::Half(_) => Ok(None),
        Pair::Ready | Pair::Done => Ok(Some(bytes)),
    }
}
