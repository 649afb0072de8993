//! Texts of dumps and data tables: blanks and hexadecimal digits.
#![tactic(auto)]

pub mod blanks;
pub mod digits;
