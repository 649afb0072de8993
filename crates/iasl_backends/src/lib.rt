//! The outputs of a call: the table, its bytes as an array of C, its listing, and the lines of a template.
#![tactic(auto)]

pub mod asked;
pub mod backend;
pub mod c_hex;
pub mod lent;
pub mod listing;
pub mod raw_aml;
mod table;
mod taken;
pub mod template;
pub mod text;
