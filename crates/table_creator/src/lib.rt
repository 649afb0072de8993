//! What a table's header tells of the compiler that made it: ACPICA's, so that what reads tables takes ours as it takes its own.
#![tactic(auto)]

/// The Creator ID of each table (ACPI Specification 5.2.6).
pub const COMPILER_ID: [u8; 4] = *b"INTL";

/// The Creator Revision of each table.
pub const COMPILER_REVISION: u32 = 0x2021_0105;
