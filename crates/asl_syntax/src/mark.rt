//! A token as the machine reads it.
ghost use Rattle.std.specs.Prelude.{◌≡◌};
ghost use Rattle.asl_syntax.specs.Looks.{lexeme_of};
ghost use Rattle.asl_syntax.specs.Marks as spec;

use crate::sign::{Sign, sign_of};
use asl_lexer::token::{Token, TokenKind};
use iasl_messages::place::Place;
use iasl_ports::list::Text;

/// A token's number, from 0, and its place.
#[derive(Clone, Copy)]
pub struct Spot {
    pub token: u32,
    pub place: Place,
}

/// What a token is to the grammar. Only definitions speak of it: in the code it is a `Look`.
#[derive(Drop)]
pub enum Lexeme {
    Word { path: bool, word: Text },
    Number(u64),
    Text(Text),
    Sign(Sign),
    /// No symbol of the language.
    Other,
}

/// A token as the machine reads it. Only definitions speak of it: the code reads the lexer's tokens.
#[derive(Drop)]
pub struct Mark {
    pub spot: Spot,
    pub lexeme: Lexeme,
}

/// What a token is to the grammar, but for its text and its value.
#[derive(Clone, Copy)]
pub enum Look {
    Word,
    Path,
    Number,
    Text,
    Sign(Sign),
    Other,
}

/// Whether a token of this kind is a word or path.
pub fn is_word(kind: TokenKind) -> bool
    ensures { result ≡ spec.is_word kind }
{
    match kind {
        TokenKind::Word | TokenKind::Path => true,
        _ => false,
    }
}

/// What the token is.
#[inline(always)]
pub fn look_of(token: &Token) -> Look
    ensures { lexeme_of result token.now ≡ spec.lexeme token.now }
{
    match token.kind {
        TokenKind::Word => Look::Word,
        TokenKind::Path => Look::Path,
        TokenKind::Number => Look::Number,
        TokenKind::Text => Look::Text,
        TokenKind::Symbol => match sign_of(token.text.as_bytes()) {
            Some(sign) => Look::Sign(sign),
            None => Look::Other,
        },
    }
}
