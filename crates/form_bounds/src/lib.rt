//! Laws alone: how many copies of the steps of Fors the core of a program has at least.
#![tactic(auto)]

pub mod laws;
