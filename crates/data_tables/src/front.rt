//! The field lines of a text, and the header that the first of them write: that of a table whose other fields are of no
//! layout.
ghost use Rattle.std.specs.Prelude.{◌≡◌, ◌++◌, ◌∷◌, [], IfOk, OnOk, Some, Ok, Err, map, List as AList};
ghost use Rattle.std.specs.List.{list_all};
ghost use Rattle.data_text.specs.Source.{text_of};
ghost use Rattle.data_text.specs.Values.{text_in};
ghost use Rattle.data_tables.specs.Compiling.{joined};
ghost use Rattle.data_tables.specs.Headers.{without_colon, field_lines, lines_by, AnswersLines, header_walk, AnswersPieces, AnswersHeader};
ghost use Rattle.data_tables.specs.Headers.{header_so_far};
ghost use Rattle.data_tables.specs.Headers as spec;
ghost use Rattle.data_tables.specs.Outcomes.{outcome_of};
ghost use Rattle.data_tables.specs.Walk as walk_spec;

use crate::compiled::{Header, HeaderPieces};
use crate::label::is_row_label;
use crate::walk::{FieldBytes, given_bytes, message_at};
use data_layout::row::Row;
use data_layout::table::{Table, header_rows};
use data_text::field_line::{FieldLine, FieldLines};
use data_text::source::data_text;
use data_text::values::text_in;
use iasl_messages::message::{Messages, Stage};
use iasl_messages::number::{BAD_VALUE, FIELD_IS_MISSING, LABEL_DIFFERS, UNKNOWN_TABLE};
use iasl_messages::place::{Lines, Piece, Pieces, Place};
use iasl_ports::list::{List, Text};
use std::alloc::{AllocError, Global};

// What has been made of a header: its pieces, its notes and its faults.
#[derive(Drop)]
struct HeaderWalker {
    alloc: Global,
    pieces: Pieces,
    notes: Messages,
    faults: Messages,
}

impl HeaderWalker {
    ghost use Rattle.data_layout.specs.declared.row.Row.{Row as SpecRow};
    ghost use Rattle.data_tables.specs.Compiling.{piece_at};
    ghost use Rattle.data_tables.specs.Fields.{value_of};
    ghost use Rattle.data_tables.specs.Headers.{any_table, row_taken, rows_walk, header_told, header_so_far};
    ghost use Rattle.data_tables.specs.Outcomes.{outcome_of};
    ghost use Rattle.data_tables.specs.Walk.{Walked, label_note, message_at};
    ghost use Rattle.std.specs.Prelude.{IsTrue, false};

    fn new(alloc: Global) -> Self
        ensures { (w : Walked) → header_told result w ≡ outcome_of w }
    {
        HeaderWalker {
            alloc,
            pieces: List::new(alloc),
            notes: List::new(alloc),
            faults: List::new(alloc),
        }
    }

    // Takes a fault.
    fn halt(&mut self, number: u16, place: Place) -> Result<(), AllocError>
        ensures faults { OnOk result (self.new.faults ≡ self.old.faults ++ message_at number place ∷ []) }
        ensures pieces { self.new.pieces ≡ self.old.pieces }
        ensures notes { self.new.notes ≡ self.old.notes }
    {
        self.faults.push(message_at(self.alloc, number, place))
    }

    // Takes the note of a label that differs.
    fn note_label(&mut self, row: &Row, line: &FieldLine) -> Result<(), AllocError>
        ensures notes { OnOk result (self.new.notes ≡ self.old.notes ++ label_note row.now line.now) }
        ensures faults { self.new.faults ≡ self.old.faults }
        ensures pieces { self.new.pieces ≡ self.old.pieces }
    {
        if is_row_label(line.label.as_slice(), row) {
            return Ok(());
        }
        self.notes
            .push(message_at(self.alloc, LABEL_DIFFERS, line.place))
    }

    fn add_piece(&mut self, line: &FieldLine, bytes: Vec<u8>) -> Result<(), AllocError>
        ensures pieces { OnOk result (self.new.pieces ≡ self.old.pieces ++ piece_at line.now bytes.items ∷ []) }
        ensures notes { self.new.notes ≡ self.old.notes }
        ensures faults { self.new.faults ≡ self.old.faults }
    {
        let bytes = Text::from_vec(self.alloc, bytes)?;
        self.pieces.push(Piece {
            place: line.place,
            source: Text::new(self.alloc),
            bytes,
        })
    }

    // Takes the line of a row, and says whether further ones are looked at.
    fn take(&mut self, row: &Row, line: &FieldLine) -> Result<bool, AllocError>
        ensures taken { IfOk result
            (λ more. IsTrue more → (w : Walked) →
            header_told self.old (row_taken row.now line.now (value_of any_table row.now line.now.value) w) ≡ header_told self.new w) }
        ensures halted { IfOk result
            (λ more. more ≡ false → (w : Walked) →
            header_told self.old (row_taken row.now line.now (value_of any_table row.now line.now.value) w) ≡ header_so_far self.new) }
    {
        match given_bytes(self.alloc, Table::Mcfg, row, line)? {
            FieldBytes::Fault(fault) => {
                self.halt(fault, line.place)?;
                Ok(false)
            }
            FieldBytes::Bytes(bytes) => {
                self.note_label(row, line)?;
                self.add_piece(line, bytes)?;
                Ok(true)
            }
        }
    }

    // Takes the lines of rows as far as none is at fault.
    fn take_rows(&mut self, rows: &[Row], lines: &[FieldLine], end: Place) -> Result<(), AllocError>
        ensures { OnOk result (header_told self.old (rows_walk end rows.now lines.now) ≡ header_so_far self.new) }
    {
        let mut rest = lines;
        for row in rows {
            let [line, more @ ..] = rest else {
                return self.halt(FIELD_IS_MISSING, end);
            };
            if !self.take(row, line)? {
                return Ok(());
            }
            rest = more;
        }
        Ok(())
    }
}

fn is_shown(byte: u8) -> bool
    ensures { result ≡ spec.is_shown byte }
{
    33 <= byte && byte <= 126
}

fn has_shown_bytes(text: &[u8]) -> bool
    ensures { result ≡ list_all spec.is_shown text.now }
{
    text.iter().all(|byte| is_shown(*byte))
}

// Whether the value of a line is a text of four printable characters that are no blanks.
fn has_signature(line: &FieldLine) -> bool
    ensures { result ≡ spec.is_signature (text_in line.now.value) }
{
    match text_in(line.value.as_slice()) {
        Some(text) => text.len() == 4 && has_shown_bytes(text),
        None => false,
    }
}

// What the first of these lines make of a header.
fn walk_header(alloc: Global, end: Place, lines: &[FieldLine]) -> Result<HeaderWalker, AllocError>
    ensures { IfOk result (λ walker. header_so_far walker ≡ outcome_of (header_walk end lines.now)) }
{
    let mut walker = HeaderWalker::new(alloc);
    let [first, ..] = lines else {
        walker.halt(FIELD_IS_MISSING, end)?;
        return Ok(walker);
    };
    if has_signature(first) {
        walker.take_rows(header_rows(), lines, end)?;
    } else {
        walker.halt(UNKNOWN_TABLE, first.place)?;
    }
    Ok(walker)
}

/// The header that the first of these lines write, where the last line of their text stands at `end`: its length and
/// its checksum are 0 yet. Or the first of its faults: 6090, 6091, 6093 or 6094. The notes are 3005.
pub fn header_pieces(alloc: Global, end: Place, lines: &[FieldLine]) -> Result<HeaderPieces, Stage>
    ensures { AnswersPieces result (header_walk end lines.now) }
{
    let walker = match walk_header(alloc, end, lines) {
        Ok(walker) => walker,
        Err(AllocError) => return Err(Stage::Memory),
    };
    if !walker.faults.is_empty() {
        return Err(Stage::Refused(walker.faults));
    }
    Ok(HeaderPieces {
        pieces: walker.pieces,
        notes: walker.notes,
    })
}

#[tactic(auto, using(crate::proofs::Sums::joined_more))]
fn joined_bytes(alloc: Global, pieces: &[Piece]) -> Result<Text, AllocError>
    ensures { IfOk result (λ bytes. bytes ≡ joined pieces.now) }
{
    let mut bytes = Vec::new(alloc);
    for piece in pieces {
        bytes.extend_from_slice(piece.bytes.as_bytes())?;
    }
    Text::from_vec(alloc, bytes)
}

/// The header that the field lines of a text write, which are those that `fields` answers: 36 bytes, of which those of
/// the length and of the checksum are 0. Or the first of its faults: 6090, 6091, 6093 or 6094. The notes are 3005.
pub fn header(alloc: Global, lines: &Lines, fields: &FieldLines) -> Result<Header, Stage>
    requires { field_lines lines.now.list ≡ Ok fields.now }
    ensures { AnswersHeader result (header_walk (text_of lines.now.list).end fields.now) }
{
    let end = match data_text(alloc, lines.list.as_slice()) {
        Ok(text) => text.end,
        Err(AllocError) => return Err(Stage::Memory),
    };
    let header = header_pieces(alloc, end, fields.as_slice())?;
    match joined_bytes(alloc, header.pieces.as_slice()) {
        Ok(bytes) => Ok(Header {
            bytes,
            notes: header.notes,
        }),
        Err(AllocError) => Err(Stage::Memory),
    }
}

// The place of the first line that has no colon.
fn place_without_colon(lines: &[FieldLine]) -> Option<Place>
    ensures { spec.IsPlaceOf result (without_colon lines.now) }
{
    for line in lines {
        if !line.colon {
            return Some(line.place);
        }
    }
    None
}

// One message.
fn refuse(alloc: Global, number: u16, place: Place) -> Stage
    ensures { spec.IsRefusal result number place }
{
    let mut messages = List::new(alloc);
    match messages.push(message_at(alloc, number, place)) {
        Ok(()) => Stage::Refused(messages),
        Err(AllocError) => Stage::Memory,
    }
}

/// These field lines, where each has a colon, or the message of the first that has none: 6093.
pub fn with_colons(alloc: Global, lines: FieldLines) -> Result<FieldLines, Stage>
    ensures { AnswersLines result (lines_by lines (without_colon lines)) }
{
    match place_without_colon(lines.as_slice()) {
        Some(place) => Err(refuse(alloc, BAD_VALUE, place)),
        None => Ok(lines),
    }
}

/// The lines of a text that are neither blank nor headings, or the message of the first that has no colon: 6093.
pub fn fields(alloc: Global, lines: &Lines) -> Result<FieldLines, Stage>
    ensures { AnswersLines result (field_lines lines.now.list) }
{
    match data_text(alloc, lines.list.as_slice()) {
        Ok(text) => with_colons(alloc, text.lines),
        Err(AllocError) => Err(Stage::Memory),
    }
}
