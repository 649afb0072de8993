//! Files to read.
ghost use Rattle.std.specs.Prelude.{◌≡◌, ◌≤◌, List, ℕ, length, IfOk, IfErr, OnOk, Some};
ghost use Rattle.std.specs.declared.option.Option.{Option};
ghost use Rattle.std.specs.Option.{ForSome};
ghost use Rattle.iasl_ports.specs.Gained.{Named};

use std::alloc::{AllocError, Global};
use thiserror::Error;

/// The most bytes that a file may have: 16 MiB.
pub const MOST_BYTES: usize = 1 << 24;

/// Why a file was not fetched.
#[derive(Clone, Copy, Debug, PartialEq, Eq, Drop, Error)]
pub enum FetchFault {
    /// There is no file of that name.
    #[error("Absent")]
    Absent,
    /// The file has more than 16 MiB.
    #[error("TooLarge")]
    TooLarge,
    /// The file could not be read, or is no regular file.
    #[error("Failed")]
    Failed,
    /// There was no memory for the bytes.
    #[error("Memory")]
    Memory,
}

impl From<AllocError> for FetchFault {
    ghost use Rattle.iasl_ports.specs.declared.files.FetchFault.TheVariants.{Memory};

    ghost from_gives = { λ _ e. e ≡ Memory };

    fn from(_: AllocError) -> Self {
        FetchFault::Memory
    }
}

/// Where files are read from. Each kind of refusal is counted; a count stops at the largest u64.
pub trait Files {
    ghost use Rattle.iasl_ports.specs.Fetched.{find_file, most_bytes, RefusedAt, RefusedCounts};

    /// The files by name, where they are told.
    ghost contents: { Self → Option (List Named) };

    /// How many calls have failed.
    ghost faults: { Self → ℕ };

    /// How many names were absent.
    ghost absents: { Self → ℕ };

    /// How many files were too large.
    ghost larges: { Self → ℕ };

    /// The whole file, which has at most 16 MiB.
    fn fetch(&mut self, alloc: Global, name: &str) -> Result<Vec<u8>, FetchFault>
        ensures contents { contents self.new ≡ contents self.old }
        ensures whole { IfOk result (λ bytes. ForSome (contents self.old) (λ told. find_file told name.now ≡ Some bytes.items)) }
        ensures size { IfOk result (λ bytes. length bytes.items ≤ most_bytes) }
        ensures refused { IfErr result (λ fault. ForSome (contents self.old) (λ told. RefusedAt fault (find_file told name.now))) }
        ensures faults { OnOk result (faults self.new ≡ faults self.old) }
        ensures counts { IfErr result (λ fault. RefusedCounts fault (faults self.old) (faults self.new) (absents self.old)
            (absents self.new) (larges self.old) (larges self.new)) }
        ensures later_faults { faults self.old ≤ faults self.new }
        ensures later_absents { absents self.old ≤ absents self.new }
        ensures later_larges { larges self.old ≤ larges self.new };
}
