//! A text that a program tells by itself.
ghost use Rattle.std.specs.Prelude.{◌≡◌, ◌⊎◌, ◌≤◌, IfOk};
ghost use Rattle.iasl_ports.specs.Counts.{Rose};
ghost use Rattle.iasl_ports.specs.Gained.{Gains};

use crate::refused::Refused;
use iasl_ports::delivery::tell;
use iasl_ports::sink::{Sink, write_all};
use std::alloc::{AllocError, Global};

/// Tells the console a text, and answers the status of that: 0 where the console took it whole, and 3 where it failed.
pub fn tell_text<C: Sink>(console: &mut C, text: &[u8]) -> u8
    ensures whole { result ≡ 0 → Gains (C.told console.old) (C.told console.new) text.now }
    ensures failed { (result ≡ 0) ⊎ ((result ≡ 3) × Rose (C.faults console.old) (C.faults console.new)) }
{
    match write_all(console, text) {
        Ok(()) => 0,
        Err(_) => 3,
    }
}

/// The version of the programs.
pub const VERSION: &str = "0.3";

/// Tells a program's name, what it is, and its version, and answers the status of that.
pub fn tell_version<C: Sink>(
    alloc: Global,
    console: &mut C,
    program: &str,
    what: &str,
) -> Result<u8, AllocError>
    ensures failed { IfOk result (λ status. (status ≡ 0) ⊎ ((status ≡ 3) × Rose (C.faults console.old) (C.faults console.new))) }
{
    let line = format!(in alloc; "{program} (Ruvdoant) {VERSION}, {what}\n")?;
    Ok(tell_text(console, line.as_bytes()))
}

/// Tells, as on standard error, which file the system did not give or take, where one is known.
pub fn tell_refused<C: Sink>(
    alloc: Global,
    errors: &mut C,
    program: &[u8],
    refused: Option<&Refused>,
)
    ensures later { C.faults errors.old ≤ C.faults errors.new }
{
    if let Some(refused) = refused {
        if let Ok(line) = refused.line(alloc, program) {
            tell(errors, line.as_bytes());
        }
    }
}
