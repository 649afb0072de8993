//! Laws: the program that a source without errors is has the shape that its bytes' meaning asks for.
#![tactic(auto)]

pub mod laws;
