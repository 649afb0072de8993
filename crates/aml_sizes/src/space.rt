//! The room that is kept for the bytes of a piece.
ghost use Rattle.std.specs.Prelude.{◌≡◌, IfOk};

use iasl_ports::list::List;
use std::alloc::{AllocError, Global};
use std::marker::Model;

/// The bytes of the header of a table (ACPI Specification 6.4, 5.2.6).
pub const HEADER_BYTES: usize = 36;

/// The most bytes of a text that needs no memory.
pub const FEW: usize = 14;

/// Where the bytes of a piece will stand.
#[derive(Drop)]
pub enum Store {
    /// In the text itself: so many.
    Few(usize),
    /// In a vector that has them already, as zeros, and will be moved into its box.
    Many { shell: Box<Vec<u8>>, bytes: Vec<u8> },
}

/// Room for the bytes of a piece. Contracts see how many there is room for.
#[derive(Drop)]
pub struct Space {
    pub store: Store,
}

impl Model for Space {
    ghost use Rattle.std.specs.Prelude.{ℕ};
    ghost use Rattle.aml_sizes.specs.Spaces.{spare_of, IsStore};

    ghost Value = { ℕ };

    ghost view = { λ space. spare_of space.store };

    ghost invariant = { λ space. IsStore space.store };
}

/// The room of each piece, in order.
pub type Spaces = List<Space>;

impl Space {
    /// Room for so many bytes.
    pub(crate) fn of(alloc: Global, count: usize) -> Result<Space, AllocError>
        ensures { IfOk result (λ space. space ≡ count) }
    {
        if count <= FEW {
            return Ok(Space {
                store: Store::Few(count),
            });
        }
        let shell = Box::new(alloc, Vec::new(alloc))?;
        let bytes = vec![in alloc; 0u8; count]?;
        Ok(Space {
            store: Store::Many { shell, bytes },
        })
    }
}
