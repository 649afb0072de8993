//! Symbolic operators to named ones.
#![tactic(auto)]

mod copy;
pub mod kind;
pub mod laws;
pub mod lower;
