//! Rows: a row is a source or a call and the exact value expected for it, taken from outside: the ACPI Specification,
//! ACPICA's compiler, or worked by hand, never from this compiler's own output.
//!
//! Here, in tests alone: the outside, messages, outputs, the lines of a source and the words of a command line.
#![tactic(auto)]

#[cfg(test)]
mod tests;
