//! What is wrong with the Switches of a block.
#![tactic(auto)]

pub mod laws;
pub mod locals;
pub mod repeat;
mod told;
mod value;
