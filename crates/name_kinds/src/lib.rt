//! What is known of the paths of a block, by their numbers: what each is, and where it leads through aliases.
#![tactic(auto)]

mod ends;
pub mod facts;
pub mod kind;
pub mod known;
pub mod tables;
