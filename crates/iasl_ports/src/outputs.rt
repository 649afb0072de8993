//! Outputs to put.
ghost use Rattle.std.specs.Prelude.{◌≡◌, ◌≤◌, List, [], ◌∷◌, ℕ, OnOk, IfErr};
ghost use Rattle.std.specs.declared.option.Option.{Option};
ghost use Rattle.iasl_ports.specs.Gained.{Named, Gains};

use std::alloc::AllocError;
use thiserror::Error;

/// Why an output was not put.
#[derive(Clone, Copy, Debug, PartialEq, Eq, Drop, Error)]
pub enum PutFault {
    /// It could not be written, or only in part.
    #[error("Failed")]
    Failed,
    /// There was no memory for it, and nothing was written.
    #[error("Memory")]
    Memory,
}

impl From<AllocError> for PutFault {
    ghost use Rattle.iasl_ports.specs.declared.outputs.PutFault.TheVariants.{Memory};

    ghost from_gives = { λ _ e. e ≡ Memory };

    fn from(_: AllocError) -> Self {
        PutFault::Memory
    }
}

/// Where files are written to. Each failure is counted; the count stops at the largest u64.
pub trait Outputs {
    ghost use Rattle.iasl_ports.specs.Put.{PutRefused, PutCounts};

    /// The files that were put, in order, where they are told.
    ghost written: { Self → Option (List Named) };

    /// How many calls have failed.
    ghost faults: { Self → ℕ };

    /// Writes a file whole. After `Failed` a part of it may stand.
    fn put(&mut self, name: &str, bytes: &[u8]) -> Result<(), PutFault>
        ensures written { OnOk result (Gains (written self.old) (written self.new) ((name.now, bytes.now) ∷ [])) }
        ensures refused { IfErr result (λ fault. PutRefused fault (written self.old) (written self.new) name.now bytes.now) }
        ensures faults { OnOk result (faults self.new ≡ faults self.old) }
        ensures counts { IfErr result (λ fault. PutCounts fault (faults self.old) (faults self.new)) }
        ensures later { faults self.old ≤ faults self.new };
}
