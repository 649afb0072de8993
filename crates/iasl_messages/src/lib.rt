//! Where things stand in a source, the messages about them, and the text of the console.
#![tactic(auto)]

pub mod console;
pub mod cut;
pub mod message;
pub mod number;
pub mod order;
pub mod place;
pub mod severity;
pub mod texts;
