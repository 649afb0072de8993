//! The preprocessor: a main file, with the files that it includes, to the lines that are left of them.
#![tactic(auto)]

mod define;
mod directives;
mod files;
mod line_text;
mod lines;
mod main_file;
mod reading;
mod rows;
mod search;
mod stop;
mod work;

pub use define::{Define, Defines};
pub use main_file::{PreStop, Preprocessed, preprocess};
