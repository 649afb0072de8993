//! The outputs of a call: their names, and their texts, which a list of boxes makes.
#![tactic(auto)]

pub mod decision;
pub mod names;
pub mod outputs;
