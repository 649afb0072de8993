//! Definitions of names, and the replacement of names by their texts.
#![tactic(auto)]

mod context;
mod names;
mod table;

pub use context::Within;
pub use names::{ReplaceStop, replace, replace_names, stays};
pub use table::Macros;
