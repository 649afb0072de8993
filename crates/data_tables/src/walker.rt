// All lines of a text.
ghost use Rattle.std.specs.Prelude.{◌≡◌, ◌++◌, ◌∷◌, [], IfOk, OnOk, IsTrue, false, List as AList, None};
ghost use Rattle.data_text.specs.declared.field_line.FieldLine.{FieldLine};
ghost use Rattle.iasl_messages.specs.declared.place.Place.{Place};
ghost use Rattle.data_tables.specs.Parts.{first_part};
ghost use Rattle.data_tables.specs.Walk.{walk};
ghost use Rattle.data_tables.specs.Outcomes.{outcome_of, so_far};

use crate::decoding::{Decoded, Told};
use crate::label::is_row_label;
use crate::part::{Part, first_part, missing};
use crate::walk::{Step, message_at, step_of};
use data_layout::row::Row;
use data_layout::table::Table;
use data_text::field_line::FieldLine;
use iasl_messages::message::Messages;
use iasl_messages::number::{DECODED_LINE_DISAGREES, LABEL_DIFFERS, UNKNOWN_LABEL};
use iasl_messages::place::{Piece, Pieces, Place};
use iasl_ports::list::{List, Text};
use std::alloc::{AllocError, Global};

// What has been made of a text: the fields' pieces, the notes and the faults; and what comes next.
#[derive(Drop)]
pub(crate) struct Walker {
    alloc: Global,
    part: Part,
    decoded: Option<Decoded>,
    pub pieces: Pieces,
    pub notes: Messages,
    pub faults: Messages,
}

impl Walker {
    ghost use Rattle.data_tables.specs.Outcomes.{told_with};
    ghost use Rattle.data_tables.specs.Walk.{told_at, label_note, message_at, fault_if};
    ghost use Rattle.data_tables.specs.Parts.{missing};
    ghost use Rattle.data_tables.specs.Views.{part_of};
    ghost use Rattle.data_tables.specs.Compiling.{piece_at};

    fn new(alloc: Global, table: Table) -> Self
        ensures { (end : Place) (lines : AList FieldLine)
            → told_with result end lines ≡ outcome_of (walk end (first_part table) None lines) }
    {
        Walker {
            alloc,
            part: first_part(table),
            decoded: None,
            pieces: List::new(alloc),
            notes: List::new(alloc),
            faults: List::new(alloc),
        }
    }

    // Takes what a decoded line tells.
    fn pass(&mut self, told: Told, place: Place) -> Result<(), AllocError>
        ensures notes { OnOk result (self.new.notes ≡ self.old.notes ++ (told_at place told).notes) }
        ensures faults { OnOk result (self.new.faults ≡ self.old.faults ++ (told_at place told).faults) }
        ensures pieces { self.new.pieces ≡ self.old.pieces }
        ensures part { self.new.part ≡ self.old.part }
        ensures decoded { self.new.decoded ≡ self.old.decoded }
    {
        match told {
            Told::Nothing => Ok(()),
            Told::Unknown => self
                .notes
                .push(message_at(self.alloc, UNKNOWN_LABEL, place)),
            Told::Disagrees => self
                .faults
                .push(message_at(self.alloc, DECODED_LINE_DISAGREES, place)),
        }
    }

    // Takes the note of a label that differs.
    fn note_label(&mut self, row: &Row, line: &FieldLine) -> Result<(), AllocError>
        ensures notes { OnOk result (self.new.notes ≡ self.old.notes ++ label_note row.now line.now) }
        ensures faults { self.new.faults ≡ self.old.faults }
        ensures pieces { self.new.pieces ≡ self.old.pieces }
    {
        if is_row_label(line.label.as_slice(), row) {
            return Ok(());
        }
        self.notes
            .push(message_at(self.alloc, LABEL_DIFFERS, line.place))
    }

    fn add_piece(&mut self, line: &FieldLine, bytes: Vec<u8>) -> Result<(), AllocError>
        ensures pieces { OnOk result (self.new.pieces ≡ self.old.pieces ++ piece_at line.now bytes.items ∷ []) }
        ensures notes { self.new.notes ≡ self.old.notes }
        ensures faults { self.new.faults ≡ self.old.faults }
    {
        let bytes = Text::from_vec(self.alloc, bytes)?;
        self.pieces.push(Piece {
            place: line.place,
            source: Text::new(self.alloc),
            bytes,
        })
    }

    // Takes a fault.
    fn halt(&mut self, number: u16, place: Place) -> Result<(), AllocError>
        ensures faults { OnOk result (self.new.faults ≡ self.old.faults ++ message_at number place ∷ []) }
        ensures pieces { self.new.pieces ≡ self.old.pieces }
        ensures notes { self.new.notes ≡ self.old.notes }
    {
        self.faults.push(message_at(self.alloc, number, place))
    }

    // Takes a field.
    fn add_field(
        &mut self,
        line: &FieldLine,
        row: Row,
        bytes: Vec<u8>,
        part: Part,
        decoded: Option<Decoded>,
    ) -> Result<(), AllocError>
        ensures pieces { OnOk result (self.new.pieces ≡ self.old.pieces ++ piece_at line.now bytes.items ∷ []) }
        ensures notes { OnOk result (self.new.notes ≡ self.old.notes ++ label_note row line.now) }
        ensures faults { OnOk result (self.new.faults ≡ self.old.faults) }
        ensures part { OnOk result (self.new.part ≡ part) }
        ensures decoded { OnOk result (self.new.decoded ≡ decoded) }
    {
        self.note_label(&row, line)?;
        self.add_piece(line, bytes)?;
        self.part = part;
        self.decoded = decoded;
        Ok(())
    }

    // Takes the next line, and says whether further lines are looked at.
    fn take(&mut self, line: &FieldLine) -> Result<bool, AllocError>
        ensures taken { IfOk result (λ more. IsTrue more → (end : Place) (lines : AList FieldLine) →
            told_with self.old end (line.now ∷ lines) ≡ told_with self.new end lines) }
        ensures halted { IfOk result (λ more. more ≡ false → (end : Place) (lines : AList FieldLine) →
            told_with self.old end (line.now ∷ lines) ≡ so_far self.new) }
    {
        match step_of(self.alloc, self.part, self.decoded, line)? {
            Step::Passed(told) => {
                self.pass(told, line.place)?;
                Ok(true)
            }
            Step::Took {
                row,
                bytes,
                rest,
                decoded,
            } => {
                self.add_field(line, row, bytes, rest, decoded)?;
                Ok(true)
            }
            Step::Halted(fault) => {
                self.halt(fault, line.place)?;
                Ok(false)
            }
        }
    }

    // Takes the end of the text.
    fn end(&mut self, end: Place) -> Result<(), AllocError>
        ensures { OnOk result (told_with self.old end [] ≡ so_far self.new) }
    {
        match missing(self.part) {
            Some(fault) => self.halt(fault, end),
            None => Ok(()),
        }
    }

    // Takes lines as far as none halts, and where none does the end of the text.
    fn take_all(&mut self, lines: &[FieldLine], end: Place) -> Result<(), AllocError>
        ensures { OnOk result (told_with self.old end lines.now ≡ so_far self.new) }
    {
        for line in lines {
            if !self.take(line)? {
                return Ok(());
            }
        }
        self.end(end)
    }
}

/// What the lines of a table's text come to.
pub(crate) fn walk_lines(
    alloc: Global,
    table: Table,
    lines: &[FieldLine],
    end: Place,
) -> Result<Walker, AllocError>
    ensures { IfOk result (λ walker. so_far walker ≡ outcome_of (walk end (first_part table) None lines.now)) }
{
    let mut walker = Walker::new(alloc, table);
    walker.take_all(lines, end)?;
    Ok(walker)
}
