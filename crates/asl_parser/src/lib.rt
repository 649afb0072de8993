//! The syntax of a source: its tokens to the one tree that spells them.
#![tactic(auto)]

mod begin;
mod calls;
mod finish;
mod machine;
mod members;
mod operators;
mod pairs;
mod plain;
mod reader;
mod settle;
mod stage;
mod state;

pub use reader::{Syntax, parse};
