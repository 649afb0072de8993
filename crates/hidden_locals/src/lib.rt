//! Definitions and laws alone: two runs that do the same but for Locals that the one of them hides.
#![tactic(auto)]

pub mod laws;
