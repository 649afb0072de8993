//! The layouts of the data tables: which fields each table and structure has, and how their values are kept.
#![tactic(auto)]

pub mod row;
pub mod rows;
pub mod table;
