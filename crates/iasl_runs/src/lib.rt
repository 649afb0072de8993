//! The end of a run of either program: what it has decided is delivered, or its failure is told.
#![tactic(auto)]

pub mod deliver;
pub mod run;
