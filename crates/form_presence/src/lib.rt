//! Which forms stand in a program.
#![tactic(auto)]

pub mod present;
