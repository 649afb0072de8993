//! EISA identifiers, UUIDs, and texts of 16-bit characters.
ghost use Rattle.std.specs.Prelude.{◌≡◌, ◌<◌, ◌+◌, IfOk, IsTrue, length, ◌-◌, ◌*◌, ◌^◌};
ghost use Rattle.resource_macros.specs.Identifiers as spec;

use iasl_ports::list::Text;
use std::alloc::{AllocError, Global};

fn is_between(byte: u8, first: u8, last: u8) -> bool
    ensures { result ≡ spec.is_between first last byte }
{
    first <= byte && byte <= last
}

fn is_letter(byte: u8) -> bool
    ensures { result ≡ spec.is_letter byte }
{
    is_between(byte, b'A', b'Z')
}

fn is_digit(byte: u8) -> bool
    ensures { result ≡ spec.is_digit byte }
{
    is_between(byte, b'0', b'9') || is_between(byte, b'A', b'F') || is_between(byte, b'a', b'f')
}

// The value of a hexadecimal digit.
fn digit(byte: u8) -> u8
    ensures value { result ≡ spec.digit byte }
    ensures small { result < 16 }
{
    if is_between(byte, b'0', b'9') {
        byte - b'0'
    } else if is_between(byte, b'A', b'F') {
        byte - b'A' + 10
    } else if is_between(byte, b'a', b'f') {
        byte - b'a' + 10
    } else {
        0
    }
}

// The five bits of a letter.
fn letter(byte: u8) -> u32
    requires { IsTrue (spec.is_letter byte) }
    ensures value { result ≡ byte - 64 }
    ensures small { result < 32 }
{
    (byte - 64) as u32
}

fn letters(a: u8, b: u8, c: u8) -> u32
    requires first { IsTrue (spec.is_letter a) }
    requires second { IsTrue (spec.is_letter b) }
    requires third { IsTrue (spec.is_letter c) }
    ensures value { result ≡ spec.letters a b c }
    ensures small { result < 2 ^ 15 }
{
    letter(a) * 1024 + letter(b) * 32 + letter(c)
}

fn digits(d: u8, e: u8, f: u8, g: u8) -> u32
    ensures value { result ≡ spec.digits d e f g }
    ensures small { result < 2 ^ 16 }
{
    digit(d) as u32 * 4096 + digit(e) as u32 * 256 + digit(f) as u32 * 16 + digit(g) as u32
}

/// The number of an EISA identifier, three letters in upper case and four hexadecimal digits; none where the text is of
/// another form (ACPI Specification 6.4, 19.6.35).
#[tactic(auto, unfolding(crate::specs::Identifiers::eisaid_of))]
pub fn eisaid(text: &[u8]) -> Option<u32>
    ensures { result ≡ spec.eisaid_of text.now }
{
    match text {
        [a, b, c, d, e, f, g] => {
            if is_letter(*a)
                && is_letter(*b)
                && is_letter(*c)
                && is_digit(*d)
                && is_digit(*e)
                && is_digit(*f)
                && is_digit(*g)
            {
                let number = letters(*a, *b, *c) * 65536 + digits(*d, *e, *f, *g);
                Some(u32::from_le_bytes(number.to_be_bytes()))
            } else {
                None
            }
        }
        _ => None,
    }
}

fn is_in_form(place: usize, byte: u8) -> bool
    ensures { result ≡ spec.is_in_form place byte }
{
    if place == 8 || place == 13 || place == 18 || place == 23 {
        byte == b'-'
    } else {
        is_digit(byte)
    }
}

fn are_in_form(text: &[u8]) -> bool
    ensures { result ≡ spec.are_in_form 0 text.now }
{
    for (place, byte) in text.iter().enumerate() {
        if !is_in_form(place, *byte) {
            return false;
        }
    }
    true
}

// The two digits from a place on, as a byte.
fn pair(text: &[u8], place: usize) -> u8
    requires { place + 1 < length text.now }
    ensures { result ≡ spec.pair text.now place }
{
    16 * digit(text[place]) + digit(text[place + 1])
}

/// The bytes of a UUID, which is written as `aabbccdd-eeff-gghh-iijj-kkllmmnnoopp` in hexadecimal digits of either case;
/// none where the text is of another form (ACPI Specification 6.4, 19.6.142).
#[tactic(auto, unfolding(crate::specs::Identifiers::uuid_of))]
pub fn uuid(text: &[u8]) -> Option<[u8; 16]>
    ensures { result ≡ spec.uuid_of text.now }
{
    if text.len() == 36 && are_in_form(text) {
        Some([
            pair(text, 6),
            pair(text, 4),
            pair(text, 2),
            pair(text, 0),
            pair(text, 11),
            pair(text, 9),
            pair(text, 16),
            pair(text, 14),
            pair(text, 19),
            pair(text, 21),
            pair(text, 24),
            pair(text, 26),
            pair(text, 28),
            pair(text, 30),
            pair(text, 32),
            pair(text, 34),
        ])
    } else {
        None
    }
}

/// A text of ASCII characters as UTF-16, the low byte of each first, with a final 0 (ACPI Specification 6.4, 19.6.149).
pub fn utf16(alloc: Global, text: &[u8]) -> Result<Text, AllocError>
    ensures { IfOk result (λ characters. characters ≡ spec.utf16_of text.now) }
{
    let mut bytes = Vec::new(alloc);
    for byte in text {
        bytes.push(*byte)?;
        bytes.push(0)?;
    }
    bytes.push(0)?;
    bytes.push(0)?;
    Text::from_vec(alloc, bytes)
}
