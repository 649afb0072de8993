//! The lengths of packages.
use iasl_ports::list::List;

/// The lengths of packages (ACPI Specification 6.4, 20.2.4), each with its own bytes, in the order of the terms, a
/// package before those inside it.
pub type Lengths = List<u32>;
