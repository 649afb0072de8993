//! What was read last, and why a step was not made.
ghost use Rattle.std.specs.Prelude.{◌≡◌};
ghost use Rattle.asl_parser.specs.declared.state.Refusal.TheVariants.{Memory};

use asl_syntax::{Spot, Subtree, Subtrees, SyntaxText};
use std::alloc::AllocError;

/// What was read last, and so what may come. Only definitions speak of it: in the code it is a `Stage`, and a `Stack` holds
/// the trees.
#[derive(Drop)]
pub enum ParserState<'a> {
    /// An expression has to begin.
    Operand,
    /// Arguments have begun.
    FirstArgument,
    /// A comma of arguments was read.
    Argument,
    /// A list has begun.
    FirstElement,
    /// A comma of a list was read.
    Element,
    /// An expression of a body or an item of the source may begin.
    Sequence,
    /// A word or path, which may have arguments or a body.
    Word {
        spot: Spot,
        word: SyntaxText<'a>,
    },
    /// A word or path with arguments, which may have a body.
    Called {
        spot: Spot,
        word: SyntaxText<'a>,
        args: Subtrees<'a>,
    },
    /// An expression that takes neither arguments nor a body.
    Whole {
        tree: Subtree,
    },
    /// A list, or a member of one.
    Listed {
        tree: Subtree,
    },
}

/// Why a step was not made.
#[derive(Drop)]
pub enum Refusal {
    Memory,
    /// No token such as this may come.
    Refused,
}

impl From<AllocError> for Refusal {
    ghost from_gives = { λ _ e. e ≡ Memory };

    fn from(_error: AllocError) -> Refusal {
        Refusal::Memory
    }
}
