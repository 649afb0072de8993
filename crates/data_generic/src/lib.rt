//! Generic data tables: a header, and data lines in any order. And templates of the tables that have a layout.
#![tactic(auto)]

pub mod compile;
pub mod labels;
pub mod template;
pub mod types;
mod values;
mod walk;
mod words;
