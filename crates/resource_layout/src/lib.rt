//! The layouts of resource descriptors (ACPI Specification 6.4, 6.4 and 19.6).
#![tactic(auto)]

pub mod descriptor;
pub mod layout;
mod rows;
