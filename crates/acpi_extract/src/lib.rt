//! Binary tables out of a text dump.
#![tactic(auto)]

mod due;
pub mod dump;
mod line;
mod names;
mod row;
pub mod run;
mod signature;
pub mod table;
mod words;
