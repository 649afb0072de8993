//! The tokens of a source.
#![tactic(auto)]

mod class;
mod cutter;
mod mode;
mod names;
mod numbers;
mod run;
mod start;
mod strings;
mod symbols;
pub mod token;

pub use cutter::tokens;
