//! Laws alone: what the definitions of the front end, from a file's rows to the tree of its syntax, come to in plain words.
#![tactic(auto)]

pub mod laws;
