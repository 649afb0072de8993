//! What is open.
use crate::mark::Spot;
use crate::raw::Infix;
use crate::subtree::{Subtree, Subtrees};
use crate::text::SyntaxText;

/// The level of assignments, the loosest operators.
pub const LOOSEST: u8 = 13;

/// What stands open around the place where the reader is, and what was read of it. Only definitions speak of it: the code
/// keeps what stands open in a `Stack`.
#[derive(Drop)]
pub enum Frame<'a> {
    /// The source, and its items so far.
    Unit {
        done: Subtrees<'a>,
    },
    /// An item's arguments, those before the one that comes.
    Args {
        spot: Spot,
        word: SyntaxText<'a>,
        done: Subtrees<'a>,
    },
    /// An item's body.
    Body {
        spot: Spot,
        word: SyntaxText<'a>,
        args: Option<Subtrees<'a>>,
        done: Subtrees<'a>,
    },
    /// An expression in parentheses.
    Bracket,
    /// An index, and what it is of.
    Index {
        spot: Spot,
        left: Subtree,
    },
    /// An operator whose last operand comes: an expression of at most the level `room`.
    Pending {
        level: u8,
        room: u8,
        spot: Spot,
        op: Infix,
        operands: Subtrees<'a>,
    },
    /// A list as an argument.
    List {
        spot: Spot,
        done: Subtrees<'a>,
    },
}
