//! Definitions and laws alone: what holds of every formed program and the same one with loops for its Switches.
#![tactic(auto)]

pub mod laws;
