//! Pieces that only clauses read.
ghost use Rattle.std.specs.Prelude.{◌≡◌, ◌++◌, ◌∷◌, [], OnOk, OnErr};

use iasl_messages::place::Piece;
use std::alloc::{AllocError, Global};
use std::marker::Model;
use std::snapshot::Snapshot;

/// The pieces that an output has taken, of which only how many there are is kept: a snapshot has no bytes. Clauses see them as a list.
#[derive(Drop)]
pub(crate) struct Taken {
    seen: Vec<Snapshot<Piece>>,
}

impl Model for Taken {
    ghost use Rattle.std.specs.Prelude.{List, map};
    ghost use Rattle.iasl_messages.specs.declared.place.Piece.{Piece};

    ghost Value = { List Piece };

    ghost view = { λ taken. map (λ piece. piece.value) taken.seen.items };
}

impl Taken {
    pub fn new(alloc: Global) -> Taken
        ensures { result ≡ [] }
    {
        Taken {
            seen: Vec::new(alloc),
        }
    }

    pub fn clear(&mut self)
        ensures { self.new ≡ [] }
    {
        self.seen.clear();
    }

    /// One more piece. Without memory they stay as they were.
    pub fn push(&mut self, piece: &Piece) -> Result<(), AllocError>
        ensures ok { OnOk result (self.new ≡ self.old ++ piece.now ∷ []) }
        ensures err { OnErr result (self.new ≡ self.old) }
    {
        self.seen.push(Snapshot::of(piece))?;
        Ok(())
    }
}
