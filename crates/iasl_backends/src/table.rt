//! The bytes of a table, gathered piece by piece.
ghost use Rattle.std.specs.Prelude.{◌≡◌, ◌++◌, ◌∷◌, [], OnOk};
ghost use Rattle.iasl_backends.specs.Table.{table_bytes};

use crate::taken::Taken;
use iasl_messages::place::Piece;
use std::alloc::{AllocError, Global};

/// The bytes of the pieces so far, one after another. The pieces are not kept.
#[derive(Drop)]
pub(crate) struct Table {
    pub taken: Taken,
    pub bytes: Vec<u8>,
    ghost whole: { bytes.items ≡ table_bytes taken },
}

impl Table {
    pub fn new(alloc: Global) -> Table
        ensures { result.taken ≡ [] }
    {
        Table {
            taken: Taken::new(alloc),
            bytes: Vec::new(alloc),
        }
    }

    pub fn clear(&mut self)
        ensures { self.new.taken ≡ [] }
    {
        self.taken.clear();
        self.bytes.clear();
    }

    /// Adds the bytes of the next piece.
    #[tactic(auto, using(crate::proofs::Steps::table_bytes_push))]
    pub fn push(&mut self, piece: &Piece) -> Result<(), AllocError>
        ensures { OnOk result (self.new.taken ≡ self.old.taken ++ piece.now ∷ []) }
    {
        let size = self.bytes.len();
        self.bytes.extend_from_slice(piece.bytes.as_bytes())?;
        if self.taken.push(piece).is_err() {
            self.bytes.truncate(size);
            return Err(AllocError);
        }
        Ok(())
    }
}
