//! Definitions and laws alone: what holds of every formed program and the same one with what stands for its Printf, Fprintf and For.
#![tactic(auto)]

pub mod laws;
