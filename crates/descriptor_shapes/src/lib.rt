//! Definitions and laws alone: what holds of the terms of a block where uses of its descriptors are resolved.
#![tactic(auto)]

pub mod laws;
