//! The compiler: a source to its table, over files, outputs and a console.
#![tactic(auto)]

mod due;
mod generated;
pub mod run;
mod source;
mod template;
mod told;
