//! What is wrong with the kinds of arguments, and with the sizes of Buffers and Packages.
#![tactic(auto)]

pub mod check;
pub mod kind;
pub mod names;
pub mod size;
