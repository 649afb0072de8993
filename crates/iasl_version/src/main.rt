//! The program iasl again, for a stored run that asks for its version.
#![tactic(auto)]

use iasl_program::run_program;
use std::process::ExitCode;

fn main(rt: HostRuntime) -> ExitCode {
    run_program(rt)
}
