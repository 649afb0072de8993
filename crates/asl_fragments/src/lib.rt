//! A line in fragments, so that strings and comments are told apart in one place.
#![tactic(auto)]

pub mod bytes;
mod comments;
pub mod fragment;
mod names;

pub use comments::{ends_in_comment, fragments_are_the_line, without_comments};
pub use fragment::first_fragment;
pub use names::first_identifier;
