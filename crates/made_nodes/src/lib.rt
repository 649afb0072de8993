//! How much is made of a program, counted before it is made.
#![tactic(auto)]

pub mod made;
