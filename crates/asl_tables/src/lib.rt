//! ASL: the lines of a source to its table in pieces, or its errors.
#![tactic(auto)]

pub mod compile;
