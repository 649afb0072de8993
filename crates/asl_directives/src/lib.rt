//! The directives of the preprocessor: reading one off its line, and the branches that conditionals open.
#![tactic(auto)]

pub mod branches;
pub mod forms;
pub mod kind;
pub mod words;
