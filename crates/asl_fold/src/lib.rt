//! Constants folded: an integer operator on constants is its result.
#![tactic(auto)]

pub mod fate;
pub mod fold;
pub mod laws;
pub mod part;
pub mod seen;
