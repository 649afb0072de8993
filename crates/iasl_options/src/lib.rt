//! The words of a command line: what they ask for, or the word that spoils them.
#![tactic(auto)]

pub mod command_line;
mod draft;
pub mod names;
pub mod request;
pub mod switches;
pub mod task;
mod words;
