//! The tokens of a condition.
ghost use Rattle.std.specs.Prelude.{◌≡◌, ◌<◌, ◌≤◌, ◌+◌, is_some, length};
ghost use Rattle.asl_macros.specs.Table.{text_at};
ghost use Rattle.asl_conditions.specs.Numbers.{number_of as number_by_text};
ghost use Rattle.asl_conditions.specs.Tokens as spec;

use crate::numbers::number_of;
use crate::operators::{ConditionInfix, ConditionPrefix};
use asl_fragments::first_fragment;
use asl_fragments::fragment::FragmentKind;
use asl_macros::Macros;

/// A token of a condition.
#[derive(Clone, Copy, Debug)]
pub enum ConditionToken {
    Number(u64),
    /// An identifier.
    Name { is_defined: bool },
    /// The word `defined`, which may be a defined name itself.
    Defined { is_defined: bool },
    Open,
    Close,
    Prefix(ConditionPrefix),
    Infix(ConditionInfix),
}

/// What stands at a place.
#[derive(Clone, Copy, Debug)]
pub enum ConditionLexeme {
    /// A blank or a comment.
    Blank,
    Whole(ConditionToken),
    /// No token.
    Bad,
}

/// What stands at a place, and how many bytes it has.
#[derive(Clone, Copy, Debug)]
pub struct ConditionCut {
    pub lexeme: ConditionLexeme,
    pub length: usize,
}

fn infix_of(operator: ConditionInfix) -> ConditionLexeme
    ensures { result ≡ spec.infix_of operator }
{
    ConditionLexeme::Whole(ConditionToken::Infix(operator))
}

#[tactic(auto, unfolding(crate::specs::Tokens::one_byte))]
fn one_byte(byte: u8) -> ConditionLexeme
    ensures { result ≡ spec.one_byte byte }
{
    match byte {
        b' ' | b'\t' => ConditionLexeme::Blank,
        b'(' => ConditionLexeme::Whole(ConditionToken::Open),
        b')' => ConditionLexeme::Whole(ConditionToken::Close),
        b'!' => ConditionLexeme::Whole(ConditionToken::Prefix(ConditionPrefix::Not)),
        b'~' => ConditionLexeme::Whole(ConditionToken::Prefix(ConditionPrefix::Complement)),
        b'*' => infix_of(ConditionInfix::Multiply),
        b'/' => infix_of(ConditionInfix::Divide),
        b'%' => infix_of(ConditionInfix::Remainder),
        b'+' => infix_of(ConditionInfix::Add),
        b'-' => infix_of(ConditionInfix::Subtract),
        b'<' => infix_of(ConditionInfix::Less),
        b'>' => infix_of(ConditionInfix::Greater),
        b'&' => infix_of(ConditionInfix::BitAnd),
        b'^' => infix_of(ConditionInfix::BitXor),
        b'|' => infix_of(ConditionInfix::BitOr),
        _ => ConditionLexeme::Bad,
    }
}

#[tactic(auto, unfolding(crate::specs::Tokens::two_bytes))]
fn two_bytes(first: u8, second: u8) -> Option<ConditionInfix>
    ensures { result ≡ spec.two_bytes first second }
{
    match first {
        b'<' => match second {
            b'<' => Some(ConditionInfix::ShiftLeft),
            b'=' => Some(ConditionInfix::AtMost),
            _ => None,
        },
        b'>' => match second {
            b'>' => Some(ConditionInfix::ShiftRight),
            b'=' => Some(ConditionInfix::AtLeast),
            _ => None,
        },
        b'=' if second == b'=' => Some(ConditionInfix::Equal),
        b'!' if second == b'=' => Some(ConditionInfix::Unequal),
        b'&' if second == b'&' => Some(ConditionInfix::Both),
        b'|' if second == b'|' => Some(ConditionInfix::Either),
        _ => None,
    }
}

fn single(byte: u8) -> ConditionCut
    ensures { result ≡ spec.made (spec.one_byte byte) 1 }
{
    ConditionCut {
        lexeme: one_byte(byte),
        length: 1,
    }
}

// The sign that a byte begins: the longest.
fn sign(byte: u8, behind: &[u8]) -> ConditionCut
    ensures exact { result ≡ spec.sign_of byte behind.now }
    ensures forward { 0 < result.length }
    ensures within { result.length ≤ length behind.now + 1 }
{
    match behind {
        [second, ..] => match two_bytes(byte, *second) {
            Some(operator) => ConditionCut {
                lexeme: infix_of(operator),
                length: 2,
            },
            None => single(byte),
        },
        [] => single(byte),
    }
}

fn number(text: &[u8]) -> ConditionLexeme
    ensures { result ≡ spec.number_by (number_by_text text.now) }
{
    match number_of(text) {
        Some(value) => ConditionLexeme::Whole(ConditionToken::Number(value)),
        None => ConditionLexeme::Bad,
    }
}

fn is_defined(macros: &Macros, name: &[u8]) -> bool
    ensures { result ≡ is_some (text_at macros.now name.now) }
{
    macros.text_of(name).is_some()
}

fn word(macros: &Macros, text: &[u8]) -> ConditionLexeme
    ensures { result ≡ spec.word_of (λ name. is_some (text_at macros.now name)) text.now }
{
    let is_defined = is_defined(macros, text);
    if text == b"defined".as_slice() {
        ConditionLexeme::Whole(ConditionToken::Defined { is_defined })
    } else {
        ConditionLexeme::Whole(ConditionToken::Name { is_defined })
    }
}

/// What stands at the front of a text.
#[tactic(auto, unfolding(crate::specs::Tokens::cut_of))]
pub fn front_of(macros: &Macros, text: &[u8]) -> ConditionCut
    requires { 0 < length text.now }
    ensures exact { result ≡ spec.cut_at (λ name. is_some (text_at macros.now name)) text.now }
    ensures forward { 0 < result.length }
    ensures within { result.length ≤ length text.now }
{
    let fragment = first_fragment(text, false);
    let length = fragment.length;
    let front = text.split_at(length).0;
    match fragment.kind {
        FragmentKind::Identifier => ConditionCut {
            lexeme: word(macros, front),
            length,
        },
        FragmentKind::Number => ConditionCut {
            lexeme: number(front),
            length,
        },
        FragmentKind::Quoted => ConditionCut {
            lexeme: ConditionLexeme::Bad,
            length,
        },
        FragmentKind::Comment => ConditionCut {
            lexeme: ConditionLexeme::Blank,
            length,
        },
        FragmentKind::Other => sign(text[0], text.split_at(1).1),
    }
}
