//! Laws alone: how many nodes the core of a program has at least, told by what of its terms each step of the lowering keeps.
#![tactic(auto)]

pub mod laws;
