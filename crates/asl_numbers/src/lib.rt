//! The numbers of a program's nodes.
#![tactic(auto)]

pub mod number;
