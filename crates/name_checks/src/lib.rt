//! What is wrong with the names of a block.
#![tactic(auto)]

pub mod check;
pub mod fault;
pub mod rules;
pub mod so_far;
