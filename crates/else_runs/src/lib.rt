//! Definitions and laws alone: runs of If, ElseIf and Else, side by side and one in another, and what it takes to show that two runs
//! of changed programs do the same.
#![tactic(auto)]

pub mod laws;
