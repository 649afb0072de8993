//! The tree of the syntax of a source, and the stack of open forms on which it grows.
#![tactic(auto)]

mod frame;
mod levels;
mod mark;
mod nodes;
mod open;
mod place;
mod raw;
mod sign;
mod stack;
mod subtree;
mod text;

pub use frame::LOOSEST;
pub use mark::{Look, Spot, is_word, look_of};
pub use nodes::{
    NodeForm, SyntaxNode, SyntaxNodes, comma_node, number_node, semicolon_node, text_node,
};
pub use open::FrameKind;
pub use place::place_at;
pub use raw::{Infix, Raw, RawUnit, Raws};
pub use sign::{Sign, Strength, strength_of};
pub use stack::Stack;
pub use subtree::{BoxedSubtrees, Subtree, Subtrees, TALLEST};
pub use text::SyntaxText;
