//! Externals in Ifs that nothing enters, as an interpreter loads them that knows no External.
#![tactic(auto)]

pub mod kind;
pub mod laws;
mod run;
pub mod wrap;
