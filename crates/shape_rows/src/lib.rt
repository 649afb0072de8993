//! Rows: a row is a source or a call and the exact value expected for it, taken from outside: the ACPI Specification,
//! ACPICA's compiler, or worked by hand, never from this compiler's own output.
//!
//! Here, in tests alone: from the tree of the syntax to a program, and what the macros for resources give.
#![tactic(auto)]

#[cfg(test)]
mod tests;
