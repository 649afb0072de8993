//! How many nodes a core has.
#![tactic(auto)]

pub mod copied;
pub mod count;
