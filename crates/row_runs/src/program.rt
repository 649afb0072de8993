//! A program over files of rows.

use crate::read::run_rows;
use host_ports::host::{HostFiles, HostSink};
use host_ports::words::given_words;
use iasl_ports::delivery::tell;
use iasl_ports::files::Files;
use iasl_ports::sink::Sink;
use std::alloc::AllocError;
use std::process::ExitCode;
use std::str::from_utf8;

// Runs the rows of a file of this name, and answers whether all are right.
fn run_file<C: Sink>(rt: HostRuntime, console: &mut C, name: &String) -> Result<bool, AllocError> {
    let alloc = rt.alloc();
    let mut files = HostFiles::new(rt);
    let Ok(bytes) = files.fetch(alloc, name.as_str()) else {
        tell(
            console,
            format!(in alloc; "{name} cannot be read\n")?.as_bytes(),
        );
        return Ok(false);
    };
    match from_utf8(&bytes) {
        Ok(text) => run_rows(alloc, console, name.as_str(), text),
        Err(_) => {
            tell(
                console,
                format!(in alloc; "{name} is no text\n")?.as_bytes(),
            );
            Ok(false)
        }
    }
}

// Runs the rows of the files that the words of the call name, and answers whether all are right.
fn run_files<C: Sink>(rt: HostRuntime, console: &mut C) -> Result<bool, AllocError> {
    let mut all = true;
    let names = given_words(rt)?;
    for name in &names {
        all = run_file(rt, console, name)? && all;
    }
    Ok(all)
}

/// Runs the rows of the files that the words of the call name, tells of them, and ends with status 0 where all are right.
pub fn run_program(rt: HostRuntime) -> ExitCode {
    let mut console = HostSink::new(rt);
    match run_files(rt, &mut console) {
        Ok(true) => ExitCode::from(0),
        Ok(false) => ExitCode::from(1),
        Err(AllocError) => {
            tell(&mut console, b"out of memory\n");
            ExitCode::from(4)
        }
    }
}
