//! The errors of the lists of fields.
#![tactic(auto)]

pub mod check;
pub mod units;
