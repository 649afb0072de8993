//! Laws alone: a block in which nothing is wrong stays so without names that nothing uses.
#![tactic(auto)]

pub mod laws;
