//! What the macros for resources, identifiers and texts give: resource templates, EISA identifiers, UUIDs and texts of
//! 16-bit characters.
#![tactic(auto)]

mod answer;
mod bits;
pub mod descriptor;
pub mod encoded;
mod faults;
pub mod identifiers;
pub mod node;
pub mod output;
pub mod template;
