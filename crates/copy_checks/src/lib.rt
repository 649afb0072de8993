//! What is told of a program of which too many copies are made.
#![tactic(auto)]

pub mod copies;
