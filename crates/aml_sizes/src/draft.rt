//! The pieces of a table before they have their bytes, from the last piece to the first, so that the length of a
//! package's content is known before its head.
ghost use Rattle.std.specs.Prelude.{◌≡◌, ◌≤◌, ◌<◌, ◌++◌, ◌+◌, ◌∷◌, [], Some, OnOk, IsErrOf, IfOk};
ghost use Rattle.aml_sizes.specs.Sizes.{most_content_bytes};
ghost use Rattle.aml_sizes.specs.Pieces.{piece_at};

use crate::notes::LengthNotes;
use crate::space::Space;
use iasl_messages::place::{Piece, Place};
use iasl_ports::list::Text;
use source_lines::lines::SourceLines;
use std::alloc::{AllocError, Global};

/// The most bytes of a table behind its header: 16 MiB less 36 bytes.
const MOST_CONTENT_BYTES: usize = (1 << 24) - 36;

/// Why terms are not written.
#[derive(Clone, Copy, Drop)]
pub(crate) enum DraftStop {
    /// The table has more than 16 MiB.
    TooLong,
    /// There was no memory.
    Memory,
}

/// The pieces so far, the last of the table first, the room of each, how many bytes they will have, and the lengths of their packages.
#[derive(Drop)]
pub(crate) struct Draft {
    pub pieces: Vec<Piece>,
    pub spaces: Vec<Space>,
    pub notes: LengthNotes,
    pub size: usize,
    ghost within: { size ≤ most_content_bytes },
}

/// A piece without bytes.
#[inline(always)]
pub(crate) fn blank(
    alloc: Global,
    lines: &SourceLines<'_>,
    place: Place,
) -> Result<Piece, AllocError>
    ensures { IfOk result (λ piece. piece ≡ piece_at lines.now place []) }
{
    Ok(Piece {
        place,
        source: lines.text_at(alloc, place)?,
        bytes: Text::new(alloc),
    })
}

impl Draft {
    /// No pieces yet, and memory for so many.
    pub fn with_room(alloc: Global, count: usize) -> Result<Draft, AllocError>
        ensures pieces { IfOk result (λ draft. draft.pieces.items ≡ []) }
        ensures spaces { IfOk result (λ draft. draft.spaces.items ≡ []) }
        ensures size { IfOk result (λ draft. draft.size ≡ 0) }
        ensures notes { IfOk result (λ draft. draft.notes ≡ Some []) }
    {
        Ok(Draft {
            pieces: Vec::with_capacity(alloc, count)?,
            spaces: Vec::with_capacity(alloc, count)?,
            notes: LengthNotes::new(alloc),
            size: 0,
        })
    }

    // One more piece and its room.
    fn add(
        &mut self,
        alloc: Global,
        lines: &SourceLines<'_>,
        place: Place,
        count: usize,
    ) -> Result<(), AllocError>
        ensures pieces { OnOk result (self.new.pieces.items ≡ self.old.pieces.items ++ piece_at lines.now place [] ∷ []) }
        ensures spaces { OnOk result (self.new.spaces.items ≡ self.old.spaces.items ++ count ∷ []) }
        ensures size { self.new.size ≡ self.old.size }
        ensures notes { self.new.notes ≡ self.old.notes }
    {
        self.pieces.push(blank(alloc, lines, place)?)?;
        self.spaces.push(Space::of(alloc, count)?)?;
        Ok(())
    }

    /// One more piece of so many bytes before those that are there. They are counted exactly unless they are too many.
    #[inline(always)]
    pub fn push(
        &mut self,
        alloc: Global,
        lines: &SourceLines<'_>,
        place: Place,
        count: usize,
    ) -> Result<(), DraftStop>
        ensures pieces { OnOk result (self.new.pieces.items ≡ self.old.pieces.items ++ piece_at lines.now place [] ∷ []) }
        ensures spaces { OnOk result (self.new.spaces.items ≡ self.old.spaces.items ++ count ∷ []) }
        ensures size { OnOk result (self.new.size ≡ self.old.size + count) }
        ensures notes { self.new.notes ≡ self.old.notes }
        ensures few { OnOk result (count ≤ most_content_bytes) }
        ensures too_long { IsErrOf result DraftStop.TooLong → most_content_bytes < self.old.size + count }
    {
        if count > MOST_CONTENT_BYTES - self.size {
            return Err(DraftStop::TooLong);
        }
        if self.add(alloc, lines, place, count).is_err() {
            return Err(DraftStop::Memory);
        }
        self.size += count;
        Ok(())
    }
}
