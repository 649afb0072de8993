//! The ports. They tell no contents, since no contract can say what a file or a terminal holds, and count each fault. What they do
//! with what they open is `read_whole`, `write_whole` and `write_some`.
ghost use Rattle.std.specs.Prelude.{◌≡◌, ◌≤◌, ℕ, List, length, None, IfOk};
ghost use Rattle.iasl_ports.specs.Counts.{Rose};
ghost use Rattle.iasl_ports.specs.Fetched.{most_bytes};

use crate::refused::{Refusal, Refused};
use crate::whole::{Reading, read_whole, write_some, write_whole};
use iasl_ports::files::{FetchFault, Files};
use iasl_ports::outputs::{Outputs, PutFault};
use iasl_ports::sink::{Sink, SinkFault};
use std::alloc::{AllocGlobal, Global};
use std::fs::File;
use std::io;
use std::rt::Files as HostFileSystem;

// Counts one more. The count stops at the largest u64.
fn raise(count: &mut u64)
    ensures rose { Rose count.old count.new }
    ensures later { count.old ≤ count.new }
{
    *count = count.saturating_add(1);
}

/// The files of the system.
#[derive(Drop)]
pub struct HostFiles<R: HostFileSystem + Drop> {
    system: R,
    faults: u64,
    absents: u64,
    larges: u64,
    refused: Option<Refused>,
}

impl<R: HostFileSystem + Drop> HostFiles<R> {
    /// The files of this system, of which no fetch has failed yet.
    pub fn new(system: R) -> Self
        ensures faults { result.faults ≡ 0 }
        ensures absents { result.absents ≡ 0 }
        ensures larges { result.larges ≡ 0 }
    {
        HostFiles {
            system,
            faults: 0,
            absents: 0,
            larges: 0,
            refused: None,
        }
    }

    /// The last file that was not fetched, where there is one.
    pub fn refused(&self) -> Option<&Refused> {
        self.refused.as_ref()
    }
}

// Opens a regular file. What is none is not opened, since to open a pipe may wait for its writer.
fn open_regular<R: HostFileSystem>(system: &R, name: &str) -> Result<R::File, Refusal> {
    match std::fs::metadata(system, name) {
        Ok(found) if found.is_file() => match File::open(system, name) {
            Ok(file) => Ok(file),
            Err(e) => Err(Refusal::System(e.kind())),
        },
        Ok(_) => Err(Refusal::NotRegular),
        Err(e) => Err(Refusal::System(e.kind())),
    }
}

// Why a file is not read.
#[derive(Clone, Copy, Drop)]
enum ReadStop {
    Refused(Refusal),
    TooLarge,
    Memory,
}

impl From<Refusal> for ReadStop {
    ghost use Rattle.host_ports.specs.declared.host.ReadStop.TheVariants.{Refused};

    ghost from_gives = { λ e s. s ≡ Refused e };

    fn from(refusal: Refusal) -> Self {
        ReadStop::Refused(refusal)
    }
}

fn read_file<R: HostFileSystem>(system: &R, alloc: Global, name: &str) -> Result<Vec<u8>, ReadStop>
    ensures { IfOk result (λ bytes. length bytes.items ≤ most_bytes) }
{
    match read_whole(alloc, open_regular(system, name)?) {
        Reading::Whole(bytes) => Ok(bytes),
        Reading::Longer => Err(ReadStop::TooLarge),
        Reading::Failed => Err(ReadStop::Refused(Refusal::Unread)),
        Reading::Memory => Err(ReadStop::Memory),
    }
}

impl<R: HostFileSystem + Drop> Files for HostFiles<R> {
    ghost use Rattle.std.specs.declared.option.Option.{Option};
    ghost use Rattle.iasl_ports.specs.Gained.{Named};

    ghost contents = { λ files. None };

    ghost faults = { λ files. files.faults };

    ghost absents = { λ files. files.absents };

    ghost larges = { λ files. files.larges };

    fn fetch(&mut self, alloc: Global, name: &str) -> Result<Vec<u8>, FetchFault> {
        match read_file(&self.system, alloc, name) {
            Ok(bytes) => Ok(bytes),
            Err(ReadStop::Refused(refusal)) => {
                self.refused = Refused::of(alloc, name, refusal);
                if refusal.is_absence() {
                    raise(&mut self.absents);
                    Err(FetchFault::Absent)
                } else {
                    raise(&mut self.faults);
                    Err(FetchFault::Failed)
                }
            }
            Err(ReadStop::TooLarge) => {
                raise(&mut self.larges);
                Err(FetchFault::TooLarge)
            }
            Err(ReadStop::Memory) => Err(FetchFault::Memory),
        }
    }
}

/// The files of the system, made anew.
#[derive(Drop)]
pub struct HostOutputs<R: HostFileSystem + Drop> {
    alloc: Global,
    system: R,
    faults: u64,
    refused: Option<Refused>,
}

impl<R: HostFileSystem + Drop> HostOutputs<R> {
    /// The outputs of this system, of which no put has failed yet.
    pub fn new(alloc: Global, system: R) -> Self
        ensures { result.faults ≡ 0 }
    {
        HostOutputs {
            alloc,
            system,
            faults: 0,
            refused: None,
        }
    }

    /// The last file that was not put whole, where there is one.
    pub fn refused(&self) -> Option<&Refused> {
        self.refused.as_ref()
    }
}

// Makes a file anew. What is there and no regular file is left as it is: to open a pipe may wait for its reader, and a device keeps
// no file.
fn create_regular<R: HostFileSystem>(system: &R, name: &str) -> Result<R::File, Refusal> {
    match std::fs::metadata(system, name) {
        Ok(found) if !found.is_file() => Err(Refusal::NotRegular),
        _ => match File::create(system, name) {
            Ok(file) => Ok(file),
            Err(e) => Err(Refusal::System(e.kind())),
        },
    }
}

// Makes a file anew and writes it whole.
fn make_file<R: HostFileSystem>(system: &R, name: &str, bytes: &[u8]) -> Result<(), Refusal> {
    let mut file = create_regular(system, name)?;
    match write_whole(&mut file, bytes) {
        Ok(()) => Ok(()),
        Err(_) => Err(Refusal::Unwritten),
    }
}

impl<R: HostFileSystem + Drop> Outputs for HostOutputs<R> {
    ghost written = { λ outs. None };

    ghost faults = { λ outs. outs.faults };

    fn put(&mut self, name: &str, bytes: &[u8]) -> Result<(), PutFault> {
        match make_file(&self.system, name, bytes) {
            Ok(()) => Ok(()),
            Err(refusal) => {
                self.refused = Refused::of(self.alloc, name, refusal);
                raise(&mut self.faults);
                Err(PutFault::Failed)
            }
        }
    }
}

/// Standard output.
#[derive(Drop)]
pub struct HostSink<P: Print + Drop> {
    out: P,
    faults: u64,
}

impl<P: Print + Drop> HostSink<P> {
    /// The standard output, of which no write has failed yet.
    pub fn new(out: P) -> Self
        ensures { result.faults ≡ 0 }
    {
        HostSink { out, faults: 0 }
    }
}

impl<P: Print + Drop> Sink for HostSink<P> {
    ghost told = { λ sink. None };

    ghost faults = { λ sink. sink.faults };

    fn write(&mut self, bytes: &[u8]) -> Result<usize, SinkFault> {
        let written = write_some(&mut io::writer(&self.out), bytes);
        if written.is_err() {
            raise(&mut self.faults);
        }
        written
    }
}
