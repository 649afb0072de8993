//! Laws alone: a block without the terms that declare its descriptors.
#![tactic(auto)]

pub mod laws;
