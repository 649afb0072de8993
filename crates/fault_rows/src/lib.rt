//! Rows: a row is a source or a call and the exact value expected for it, taken from outside: the ACPI Specification,
//! ACPICA's compiler, or worked by hand, never from this compiler's own output.
//!
//! Here, in tests alone: runs of which a port or a box fails, and what becomes of the boxes that a caller lends. All other rows of whole
//! runs are text in crates/iasl_rows (docs/CONTRIBUTING.md).
#![tactic(auto)]

#[cfg(test)]
mod tests;
