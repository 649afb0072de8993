//! Terms of the program tree, each by the part of a source that it stands for: numbers, strings, words, lists of types,
//! and the arguments of forms as they are settled.
#![tactic(auto)]

pub mod brackets;
pub mod elements;
pub mod formats;
pub mod leaf;
pub mod macros;
pub mod nodes;
pub mod settle;
pub mod symbol;
pub mod work;
