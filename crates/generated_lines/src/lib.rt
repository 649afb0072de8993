//! The source of devices that are generated.
#![tactic(auto)]

pub mod lines;
