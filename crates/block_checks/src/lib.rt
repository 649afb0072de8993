//! What is wrong with a block before it is lowered, and the notes on it: one call over the checks that each know one rule.
#![tactic(auto)]

pub mod check;
pub mod names;
