//! The names of resource descriptors in the terms of a block: the terms that declare them, their fields as constants, and the
//! terms without those that declare.
#![tactic(auto)]

pub mod declare;
pub mod nodes;
pub mod resolve;
pub mod strip;
pub mod values;
