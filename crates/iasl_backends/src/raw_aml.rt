//! The table itself.
ghost use Rattle.std.specs.Prelude.{◌≡◌, [], false};

use crate::backend::{Backend, Kind};
use crate::table::Table;
use iasl_messages::place::Piece;
use std::alloc::{AllocError, Global};

/// The output that is the table itself.
#[derive(Drop)]
pub struct RawAml {
    table: Table,
    done: bool,
}

impl RawAml {
    /// The output before its first piece.
    pub fn new(alloc: Global) -> RawAml
        ensures pieces { ⟦<RawAml as Backend>⟧.pieces result ≡ [] }
        ensures open { ⟦<RawAml as Backend>⟧.finished result ≡ false }
    {
        RawAml {
            table: Table::new(alloc),
            done: false,
        }
    }
}

impl Backend for RawAml {
    ghost use Rattle.iasl_backends.specs.declared.backend.Kind.TheVariants as kinds;

    ghost kind_of = { λ output. kinds.RawAml };

    ghost pieces = { λ output. output.table.taken };

    ghost finished = { λ output. output.done };

    fn kind(&self) -> Kind {
        Kind::RawAml
    }

    fn clear(&mut self) {
        self.done = false;
        self.table.clear();
    }

    fn piece(&mut self, piece: &Piece) -> Result<(), AllocError> {
        self.table.push(piece)
    }

    fn finish(&mut self) -> Result<(), AllocError> {
        self.done = true;
        Ok(())
    }

    fn text(&self) -> &[u8] {
        &self.table.bytes
    }
}
