//! Data tables: a text of fields to the bytes of its table.
#![tactic(auto)]

pub mod compile;
pub mod compiled;
mod decoding;
pub mod field;
pub mod front;
pub mod label;
mod part;
pub mod seal;
pub mod walk;
mod walker;
