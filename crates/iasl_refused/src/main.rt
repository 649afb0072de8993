//! The program iasl again, for a stored run with options that is refused: its words and its status come through.
#![tactic(auto)]

use iasl_program::run_program;
use std::process::ExitCode;

fn main(rt: HostRuntime) -> ExitCode {
    run_program(rt)
}
