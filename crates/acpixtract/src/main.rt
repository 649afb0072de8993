//! acpixtract: binary tables out of a text dump.
#![tactic(auto)]

use acpi_extract::run::extract;
use host_ports::host::{HostFiles, HostOutputs, HostSink};
use host_ports::program_text::{ProgramText, program_text};
use host_ports::text::{tell_refused, tell_text, tell_version};
use host_ports::words::given_words;
use iasl_ports::delivery::tell;
use iasl_ports::sink::Sink;
use std::alloc::AllocError;
use std::process::ExitCode;

const HELP: &[u8] = b"usage: acpixtract [options] FILE
  -a FILE         write all tables, and not those of code alone
  -s SIG FILE     write the tables of one signature
  -l FILE         list all tables, and write none
  -h, --help      alone: this text
  -v, --version   alone: the version of this program
";

// Extracts. Standard error has which file it is that status 3 tells of.
fn cut_out<C: Sink>(rt: HostRuntime, words: &[String], console: &mut C) -> u8 {
    let alloc = rt.alloc();
    let mut files = HostFiles::new(rt);
    let mut outs = HostOutputs::new(alloc, rt);
    let status = extract(alloc, words, &mut files, &mut outs, console);
    if status == 3 {
        let mut errors = HostSink::new(rt.stderr());
        tell_refused(
            alloc,
            &mut errors,
            b"acpixtract",
            outs.refused().or(files.refused()),
        );
    }
    status
}

// The status of a call with these words.
fn status_of<C: Sink>(rt: HostRuntime, console: &mut C) -> Result<u8, AllocError> {
    let words = given_words(rt)?;
    match program_text(&words) {
        Some(ProgramText::Help) => Ok(tell_text(console, HELP)),
        Some(ProgramText::Version) => {
            tell_version(rt.alloc(), console, "acpixtract", "ACPI table extraction")
        }
        None => Ok(cut_out(rt, &words, console)),
    }
}

fn main(rt: HostRuntime) -> ExitCode {
    let mut console = HostSink::new(rt);
    let status = match status_of(rt, &mut console) {
        Ok(status) => status,
        Err(AllocError) => {
            tell(&mut console, b"acpixtract: out of memory\n");
            4
        }
    };
    ExitCode::from(status)
}
