//! The lines of a source, found by the file and the line that they came from.
#![tactic(auto)]

pub mod lines;
mod order;
