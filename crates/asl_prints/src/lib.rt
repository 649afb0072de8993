//! What stands for Printf and Fprintf, with the definitions of what stands for these and for For, and tests of their parts.
#![tactic(auto)]

pub mod copy;
pub mod filled;
pub mod leave;
pub mod lists;
pub mod print;
pub mod texts;
