//! Rows: runs of the compiler that are stored as text in data/. A row is a source and the exact value expected for it, taken from
//! outside: the ACPI Specification, ACPICA's compiler, or worked by hand, never from this compiler's own output
//! (docs/CONTRIBUTING.md).
#![tactic(auto)]

use row_runs::program::run_program;
use std::process::ExitCode;

fn main(rt: HostRuntime) -> ExitCode {
    run_program(rt)
}
