//! Literals that are cut, told.
#![tactic(auto)]

pub mod check;
