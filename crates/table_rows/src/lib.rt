//! Rows: a row is a source or a call and the exact value expected for it, taken from outside: the ACPI Specification,
//! ACPICA's compiler, or worked by hand, never from this compiler's own output.
//!
//! Here, in tests alone: from a program to the bytes of its table, with constants folded and loops for Switches.
#![tactic(auto)]

#[cfg(test)]
mod tests;
