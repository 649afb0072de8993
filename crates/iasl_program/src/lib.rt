//! The program `iasl`: the words and the ports of the system are handed to the compiler, and its status is told.
#![tactic(auto)]

mod calls;

use crate::calls::calls_of;
use host_ports::host::{HostFiles, HostOutputs, HostSink};
use host_ports::program_text::{ProgramText, program_text};
use host_ports::text::{tell_refused, tell_text, tell_version};
use host_ports::words::given_words;
use iasl_backends::c_hex::CHex;
use iasl_backends::lent::one_of_each;
use iasl_backends::listing::Listing;
use iasl_backends::raw_aml::RawAml;
use iasl_backends::template::TemplateText;
use iasl_options::request::WordsStop;
use iasl_options::task::task_of;
use iasl_ports::delivery::tell;
use iasl_ports::sink::Sink;
use iasl_tool::run::iasl;
use std::alloc::{AllocError, Global};
use std::process::ExitCode;

const HELP: &[u8] = b"usage: iasl [options] FILE ...
  -p P            output names begin with P
  -I DIR          look for included files in DIR too
  -D NAME[=TEXT]  define NAME
  -P              write the preprocessed text alone
  -Pn             no preprocessor
  -vi             print messages in the brief form
  -we             refuse a source with a warning
  -tc             write the bytes of the table as an array of C too
  -l              write a listing of the source with the bytes of the table too
  -of             do not fold constants
  -oi             do not write literals by the opcodes of 0, 1 and Ones
  -on             do not shorten names
  -oa             -of, -oi and -on together
  --wrap-externals  write Externals in If (Zero), as ACPICA's interpreter wants them
  --acpica        --wrap-externals, and P of -p loses its extension
  -vr -ve -va     do not print remarks, remarks and warnings, or any message
  -vw N           neither print nor count warnings and remarks of the number N
  -vs -w1 -w2 -w3 change nothing
  -G              the source is a generic data table
  -T SIGNATURE    alone: write a template of a data table: APIC, BERT, BGRT, EINJ, ERST, FACP, GTDT, HEST, HPET, MCFG,
                  NFIT, PCCT, SLIT, SPCR, SRAT, TCPA, TPM2, VIOT or WAET
  --generate N    alone: compile a source of N devices, from 1 to 4096
  -h, --help      alone: this text
  -v, --version   alone: the version of this program
";

const WHAT: &str = "ACPI Source Language compiler";

// The line of the standard error beside the console's line of usage: the word that spoils the words, or that one is missing behind them.
fn explain_words<C: Sink>(
    alloc: Global,
    words: &[String],
    errors: &mut C,
) -> Result<(), AllocError> {
    if let Err(WordsStop::Bad { word }) = task_of(alloc, words) {
        let line = match words.get(word) {
            Some(bad) => format!(in alloc; "iasl: bad word: {bad}; try --help\n")?,
            None => String::from_str(alloc, "iasl: a word is missing; try --help\n")?,
        };
        tell(errors, line.as_bytes());
    }
    Ok(())
}

// Compiles, with one box of each kind of outputs. Standard error has what the console does not say of status 2 and 3.
fn compile<C: Sink>(rt: HostRuntime, words: &[String], console: &mut C) -> Result<u8, AllocError> {
    let alloc = rt.alloc();
    let mut files = HostFiles::new(rt);
    let mut outs = HostOutputs::new(alloc, rt);
    let mut backends = one_of_each(
        alloc,
        Box::new(alloc, RawAml::new(alloc))?,
        Box::new(alloc, CHex::new(alloc))?,
        Box::new(alloc, Listing::new(alloc))?,
        Box::new(alloc, TemplateText::new(alloc))?,
    )?;
    let status = iasl(alloc, words, &mut files, &mut outs, console, &mut backends);
    let mut errors = HostSink::new(rt.stderr());
    match status {
        2 => explain_words(alloc, words, &mut errors)?,
        3 => tell_refused(
            alloc,
            &mut errors,
            b"iasl",
            outs.refused().or(files.refused()),
        ),
        _ => {}
    }
    Ok(status)
}

// Compiles each FILE by itself, in order. The status is the greatest.
fn compile_each<C: Sink>(
    rt: HostRuntime,
    words: &[String],
    console: &mut C,
) -> Result<u8, AllocError> {
    let Some(calls) = calls_of(rt.alloc(), words)? else {
        return compile(rt, words, console);
    };
    let mut status = 0;
    for call in &calls {
        status = status.max(compile(rt, call, console)?);
    }
    Ok(status)
}

// What is told where there are no words: the usage, and the version, by which builds know the compiler.
fn tell_usage<C: Sink>(rt: HostRuntime, console: &mut C) -> Result<u8, AllocError> {
    tell(console, b"usage: iasl [options] FILE\n");
    tell_version(rt.alloc(), console, "iasl", WHAT)?;
    Ok(2)
}

fn run<C: Sink>(rt: HostRuntime, words: &[String], console: &mut C) -> Result<u8, AllocError> {
    if words.is_empty() {
        return tell_usage(rt, console);
    }
    match program_text(words) {
        Some(ProgramText::Help) => Ok(tell_text(console, HELP)),
        Some(ProgramText::Version) => tell_version(rt.alloc(), console, "iasl", WHAT),
        None => compile_each(rt, words, console),
    }
}

// The status of a call with these words.
fn status_of<C: Sink>(rt: HostRuntime, console: &mut C) -> Result<u8, AllocError> {
    run(rt, &given_words(rt)?, console)
}

/// Runs the program with the words of the call.
pub fn run_program(rt: HostRuntime) -> ExitCode {
    let mut console = HostSink::new(rt);
    let status = match status_of(rt, &mut console) {
        Ok(status) => status,
        Err(AllocError) => {
            tell(&mut console, b"iasl: out of memory\n");
            4
        }
    };
    ExitCode::from(status)
}
