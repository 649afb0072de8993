//! What a token is.
use iasl_messages::place::Place;
use iasl_ports::list::{List, Text};

/// The class of a token.
#[derive(Clone, Copy, PartialEq, Eq, Debug)]
pub enum TokenKind {
    /// A letter or `_` and then letters, digits and `_`.
    Word,
    /// A name with a prefix, or of several segments.
    Path,
    /// A number.
    Number,
    /// A string.
    Text,
    /// A bracket, a separator or an operator.
    Symbol,
}

/// A token. It stands in one line.
#[derive(Drop)]
pub struct Token {
    /// Its class.
    pub kind: TokenKind,
    /// The place of its first character.
    pub place: Place,
    /// The column behind its last character: of a string behind the closing quote.
    pub end: u32,
    /// The value of a number, else 0.
    pub number: u64,
    /// Of a word or path its characters in upper case, of a string its bytes with the escapes read, of a symbol
    /// its characters, of a number none.
    pub text: Text,
}

/// Tokens in order.
pub type Tokens = List<Token>;
