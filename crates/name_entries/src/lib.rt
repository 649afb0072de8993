//! What stands at the paths of a block, and what its used names denote, by the numbers of paths and of nodes.
#![tactic(auto)]

pub mod description;
mod descriptors;
pub mod entries;
pub mod kind;
mod places;
pub mod uses;
