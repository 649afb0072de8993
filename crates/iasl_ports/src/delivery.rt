//! The end of a run: what it is to deliver, why it stops, and a last text for the console.
ghost use Rattle.std.specs.Prelude.{◌≡◌, ◌≤◌, ℕ, take};
ghost use Rattle.iasl_ports.specs.Counts.{Quiet};
ghost use Rattle.iasl_ports.specs.Gained.{Gains};

use crate::list::Text;
use crate::sink::{Sink, write_all};
use std::alloc::AllocError;
use std::borrow::CowSlice;

/// A file to put. Its bytes are its own, or lent by whoever holds them.
#[derive(Drop)]
pub struct OutFile<'a> {
    pub name: String,
    pub bytes: CowSlice<'a, u8>,
}

/// What a run is to end with: its status, the text of the console, and the files in the order of their putting.
#[derive(Drop)]
pub struct Due<'a> {
    pub status: u8,
    pub text: Text,
    pub files: Vec<OutFile<'a>>,
}

/// Why a run stops before it has a status of its own.
#[derive(Clone, Copy, Debug, PartialEq, Eq, Drop)]
pub enum Stop {
    /// A file was absent, or could not be read, put or written.
    Fault,
    /// There was no memory.
    Memory,
}

impl From<AllocError> for Stop {
    ghost use Rattle.iasl_ports.specs.declared.delivery.Stop.TheVariants.{Memory};

    ghost from_gives = { λ _ e. e ≡ Memory };

    fn from(_: AllocError) -> Self {
        Stop::Memory
    }
}

/// Tells the console a last text, whether it takes it or not.
pub fn tell<C: Sink>(console: &mut C, text: &[u8])
    ensures some { (n : ℕ) × Gains (C.told console.old) (C.told console.new) (take n text.now) }
    ensures all { Quiet (C.faults console.old) (C.faults console.new) → Gains (C.told console.old) (C.told console.new) text.now }
    ensures later { C.faults console.old ≤ C.faults console.new }
{
    let _ = write_all(console, text);
}
