//! Stored runs: rows of text, each with what is given to a run of the compiler and what it is to come to (docs/CONTRIBUTING.md).
//!
//! `read` makes rows of the text of a file, `run` runs one over ports in memory, `compare` says what is wrong with it, and `program`
//! does so with each row of the files of a program.
#![tactic(auto)]

pub mod compare;
pub mod draft;
pub mod program;
pub mod read;
pub mod row;
pub mod run;
