//! Rows: a row is a source or a call and the exact value expected for it, taken from outside: the ACPI Specification,
//! ACPICA's compiler, or worked by hand, never from this compiler's own output.
//!
//! Here, in tests alone: the names of a block, what they denote, how they are spelled and what is told of them.
#![tactic(auto)]

#[cfg(test)]
mod tests;
