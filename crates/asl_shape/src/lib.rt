//! From the tree of the syntax to the program tree, by the one table of operators.
#![tactic(auto)]

mod around;
mod fields;
mod item;
mod lists;
mod resources;
mod tree;
mod unit;

pub use unit::shape;
