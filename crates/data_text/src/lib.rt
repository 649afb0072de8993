//! The text of a data table: its lines to field lines, and what their values are.
#![tactic(auto)]

mod comments;
pub mod field_line;
pub mod kind;
mod labels;
mod parts;
pub mod source;
pub mod values;
