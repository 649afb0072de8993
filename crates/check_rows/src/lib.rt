//! Rows: a row is a source or a call and the exact value expected for it, taken from outside: the ACPI Specification,
//! ACPICA's compiler, or worked by hand, never from this compiler's own output.
//!
//! Here, in tests alone: the constants that fields of descriptors are, the count of copies, and checks of terms that no source has.
#![tactic(auto)]

#[cfg(test)]
mod tests;
