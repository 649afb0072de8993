//! What kinds of bytes the tokens are made of.
ghost use Rattle.std.specs.Prelude.{◌≡◌};
ghost use Rattle.std.specs.Char.{digit_value};
ghost use Rattle.asl_lexer.specs.Class as spec;

use crate::class::Class::{
    Backslash, Blank, Break, Caret, Digit, Dot, Equals, Letter, Other, Quote, Sign, Slash, Star,
    Underscore, Zero,
};

/// The kind of a byte.
#[derive(Clone, Copy, Debug)]
pub enum Class {
    /// Space or tab.
    Blank,
    /// The end of a line.
    Break,
    Letter,
    Underscore,
    Zero,
    /// A digit from 1 to 9.
    Digit,
    Dot,
    Backslash,
    Caret,
    Quote,
    Slash,
    Star,
    Equals,
    /// Any other character that begins a symbol.
    Sign,
    /// A byte that begins no token.
    Other,
}

/// The base of a number.
#[derive(Clone, Copy, Debug)]
pub enum Radix {
    Octal,
    Decimal,
    Hexadecimal,
}

// The kind of each byte, eight in a row.
#[rattlefmt::skip]
static CLASSES: [Class; 256] = [
    Other, Other, Other, Other, Other, Other, Other, Other,
    Other, Blank, Break, Other, Other, Other, Other, Other,
    Other, Other, Other, Other, Other, Other, Other, Other,
    Other, Other, Other, Other, Other, Other, Other, Other,
    Blank, Sign, Quote, Other, Other, Sign, Sign, Other,
    Sign, Sign, Star, Sign, Sign, Sign, Dot, Slash,
    Zero, Digit, Digit, Digit, Digit, Digit, Digit, Digit,
    Digit, Digit, Other, Sign, Sign, Equals, Sign, Other,
    Other, Letter, Letter, Letter, Letter, Letter, Letter, Letter,
    Letter, Letter, Letter, Letter, Letter, Letter, Letter, Letter,
    Letter, Letter, Letter, Letter, Letter, Letter, Letter, Letter,
    Letter, Letter, Letter, Sign, Backslash, Sign, Caret, Underscore,
    Other, Letter, Letter, Letter, Letter, Letter, Letter, Letter,
    Letter, Letter, Letter, Letter, Letter, Letter, Letter, Letter,
    Letter, Letter, Letter, Letter, Letter, Letter, Letter, Letter,
    Letter, Letter, Letter, Sign, Sign, Sign, Sign, Other,
    Other, Other, Other, Other, Other, Other, Other, Other,
    Other, Other, Other, Other, Other, Other, Other, Other,
    Other, Other, Other, Other, Other, Other, Other, Other,
    Other, Other, Other, Other, Other, Other, Other, Other,
    Other, Other, Other, Other, Other, Other, Other, Other,
    Other, Other, Other, Other, Other, Other, Other, Other,
    Other, Other, Other, Other, Other, Other, Other, Other,
    Other, Other, Other, Other, Other, Other, Other, Other,
    Other, Other, Other, Other, Other, Other, Other, Other,
    Other, Other, Other, Other, Other, Other, Other, Other,
    Other, Other, Other, Other, Other, Other, Other, Other,
    Other, Other, Other, Other, Other, Other, Other, Other,
    Other, Other, Other, Other, Other, Other, Other, Other,
    Other, Other, Other, Other, Other, Other, Other, Other,
    Other, Other, Other, Other, Other, Other, Other, Other,
    Other, Other, Other, Other, Other, Other, Other, Other,
];

/// The kind of a byte.
pub fn class_of(byte: u8) -> Class
    ensures { result ≡ spec.class_of byte }
{
    CLASSES[byte as usize]
}

/// The number that a base stands for.
pub fn base_of(radix: Radix) -> u64
    ensures { result ≡ spec.base_of radix }
{
    match radix {
        Radix::Octal => 8,
        Radix::Decimal => 10,
        Radix::Hexadecimal => 16,
    }
}

// The value of each byte as a digit, sixteen in a row.
#[rattlefmt::skip]
static VALUES: [u8; 256] = [
    36, 36, 36, 36, 36, 36, 36, 36, 36, 36, 36, 36, 36, 36, 36, 36,
    36, 36, 36, 36, 36, 36, 36, 36, 36, 36, 36, 36, 36, 36, 36, 36,
    36, 36, 36, 36, 36, 36, 36, 36, 36, 36, 36, 36, 36, 36, 36, 36,
    0, 1, 2, 3, 4, 5, 6, 7, 8, 9, 36, 36, 36, 36, 36, 36,
    36, 10, 11, 12, 13, 14, 15, 16, 17, 18, 19, 20, 21, 22, 23, 24,
    25, 26, 27, 28, 29, 30, 31, 32, 33, 34, 35, 36, 36, 36, 36, 36,
    36, 10, 11, 12, 13, 14, 15, 16, 17, 18, 19, 20, 21, 22, 23, 24,
    25, 26, 27, 28, 29, 30, 31, 32, 33, 34, 35, 36, 36, 36, 36, 36,
    36, 36, 36, 36, 36, 36, 36, 36, 36, 36, 36, 36, 36, 36, 36, 36,
    36, 36, 36, 36, 36, 36, 36, 36, 36, 36, 36, 36, 36, 36, 36, 36,
    36, 36, 36, 36, 36, 36, 36, 36, 36, 36, 36, 36, 36, 36, 36, 36,
    36, 36, 36, 36, 36, 36, 36, 36, 36, 36, 36, 36, 36, 36, 36, 36,
    36, 36, 36, 36, 36, 36, 36, 36, 36, 36, 36, 36, 36, 36, 36, 36,
    36, 36, 36, 36, 36, 36, 36, 36, 36, 36, 36, 36, 36, 36, 36, 36,
    36, 36, 36, 36, 36, 36, 36, 36, 36, 36, 36, 36, 36, 36, 36, 36,
    36, 36, 36, 36, 36, 36, 36, 36, 36, 36, 36, 36, 36, 36, 36, 36,
];

/// The value of a digit or letter as a digit, from 0 to 35, and 36 for any other byte.
pub fn value_of(byte: u8) -> u64
    ensures { result ≡ digit_value byte }
{
    u64::from(VALUES[byte as usize])
}

/// Whether an operator may have `=` behind this character.
pub fn takes_equals(byte: u8) -> bool
    ensures { result ≡ spec.takes_equals byte }
{
    matches!(
        byte,
        b'!' | b'%' | b'&' | b'*' | b'+' | b'-' | b'<' | b'=' | b'>' | b'|'
    )
}

/// Whether this character doubled is an operator, `=` aside.
pub fn doubles(byte: u8) -> bool
    ensures { result ≡ spec.doubles byte }
{
    matches!(byte, b'&' | b'+' | b'-' | b'<' | b'>' | b'|')
}

/// Whether this character doubled is a shift.
pub fn shifts(byte: u8) -> bool
    ensures { result ≡ spec.shifts byte }
{
    matches!(byte, b'<' | b'>')
}
