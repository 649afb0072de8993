//! What is wrong with the statements of a block.
#![tactic(auto)]

pub mod check;
