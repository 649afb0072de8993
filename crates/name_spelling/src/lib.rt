//! The names of a block, spelled as they have to stand in the bytes.
#![tactic(auto)]

mod form;
pub mod spell;
mod written;
