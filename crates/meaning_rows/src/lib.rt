//! Rows: a row is a source or a call and the exact value expected for it, taken from outside: the ACPI Specification,
//! another implementation of the same rules, or worked by hand, never from this compiler's own output.
//!
//! Here, in proofs alone: programs and tables whose outcomes, objects and events are computed by both meanings.
#![tactic(auto)]
