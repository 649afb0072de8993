//! What a word of the language is, where it may stand, and what it is read as.
#![tactic(auto)]

pub mod meaning;
