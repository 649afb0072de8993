//! The words of the language and what they ask for, in one table (ACPI Specification 6.4, 19.6).
#![tactic(auto)]

pub mod operator;
pub mod parameters;
pub mod paths;
pub mod resources;
pub mod table;
pub mod texts;
mod words;
