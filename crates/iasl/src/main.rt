//! iasl: an ASL source or the text of a data table to its table.
#![tactic(auto)]

use iasl_program::run_program;
use std::process::ExitCode;

fn main(rt: HostRuntime) -> ExitCode {
    run_program(rt)
}
