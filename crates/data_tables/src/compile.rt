//! A text of fields to its table.
ghost use Rattle.std.specs.Prelude.{◌≡◌, ◌<◌, ◌^◌, ℕ, All, IfOk, OnOk, None, length, map, List as AList};
ghost use Rattle.std.specs.Option.{option_copied};
ghost use Rattle.data_tables.specs.Compiling.{signature_in, compiled, compiled_text, answer_of, refused, sealed, joined, piece_of};
ghost use Rattle.data_tables.specs.Compiling.{with_text, with_texts};
ghost use Rattle.data_tables.specs.Entries.{Entry, fields_of_text, written_values, unsealed_bytes};
ghost use Rattle.data_tables.specs.Reading.{ReadsAs};
ghost use Rattle.data_tables.specs.Walk.{walk};
ghost use Rattle.data_tables.specs.Parts.{first_part};
ghost use Rattle.data_tables.specs.Promise.{Answers, TellsWithin, TellsOf};

use crate::compiled::Compiled;
use crate::seal::seal;
use crate::walk::message_at;
use crate::walker::{Walker, walk_lines};
use data_layout::table::{Table, table_of};
use data_text::field_line::{DataText, FieldLine};
use data_text::source::data_text;
use data_text::values::text_in;
use iasl_messages::message::Stage;
use iasl_messages::number::{BAD_VALUE, FIELD_IS_MISSING, UNKNOWN_TABLE};
use iasl_messages::place::{Line, Lines, Piece, Pieces, Place};
use iasl_ports::list::{List, Text};
use source_lines::lines::SourceLines;
use std::alloc::{AllocError, Global};
use std::mem::replace;

// One message.
fn refuse(alloc: Global, number: u16, place: Place) -> Stage
    ensures { Answers (Err result) (refused number place) }
{
    let mut messages = List::new(alloc);
    match messages.push(message_at(alloc, number, place)) {
        Ok(()) => Stage::Refused(messages),
        Err(AllocError) => Stage::Memory,
    }
}

// The text of a line with a colon.
fn signature_in(line: &FieldLine) -> Option<&[u8]>
    ensures { option_copied result ≡ signature_in line.now }
{
    if line.colon {
        text_in(line.value.as_slice())
    } else {
        None
    }
}

// The table of what was made of a text without faults.
fn sealed_table(alloc: Global, signature: &[u8], walker: Walker) -> Result<Compiled, AllocError>
    ensures table { IfOk result
        (λ table. table ≡ record { pieces = sealed walker.pieces; signature = signature.now; notes = walker.notes }) }
    ensures within { OnOk result (length (joined walker.pieces) < 2 ^ 32) }
{
    let signature = Text::from_bytes(alloc, signature)?;
    let pieces = seal(alloc, walker.pieces)?;
    Ok(Compiled {
        pieces,
        signature,
        notes: walker.notes,
    })
}

// The table of a text with this signature, or its faults.
fn compile_table(
    alloc: Global,
    text: &DataText,
    signature: &[u8],
    table: Table,
) -> Result<Compiled, Stage>
    ensures exact { Answers result (answer_of signature.now (walk text.now.end (first_part table) None text.now.lines)) }
    ensures within { OnOk result
        (length (joined (map piece_of (walk text.now.end (first_part table) None text.now.lines).fields)) < 2 ^ 32) }
{
    let walker = match walk_lines(alloc, table, text.lines.as_slice(), text.end) {
        Ok(walker) => walker,
        Err(AllocError) => return Err(Stage::Memory),
    };
    if !walker.faults.is_empty() {
        return Err(Stage::Refused(walker.faults));
    }
    match sealed_table(alloc, signature, walker) {
        Ok(table) => Ok(table),
        Err(AllocError) => Err(Stage::Memory),
    }
}

fn compile_text(alloc: Global, text: &DataText) -> Result<Compiled, Stage>
    ensures exact { Answers result (compiled_text text.now) }
    ensures within { OnOk result (length (joined (map piece_of (fields_of_text text.now))) < 2 ^ 32) }
{
    let [first, ..] = text.lines.as_slice() else {
        return Err(refuse(alloc, FIELD_IS_MISSING, text.end));
    };
    if !first.colon {
        return Err(refuse(alloc, BAD_VALUE, first.place));
    }
    let Some(signature) = signature_in(first) else {
        return Err(refuse(alloc, UNKNOWN_TABLE, first.place));
    };
    match table_of(signature) {
        Some(table) => compile_table(alloc, text, signature, table),
        None => Err(refuse(alloc, UNKNOWN_TABLE, first.place)),
    }
}

// The piece with the text of its line.
fn with_text(alloc: Global, lines: &SourceLines<'_>, piece: Piece) -> Result<Piece, AllocError>
    ensures { IfOk result (λ out. out ≡ with_text lines.now piece) }
{
    Ok(Piece {
        place: piece.place,
        source: lines.text_at(alloc, piece.place)?,
        bytes: piece.bytes,
    })
}

// Pieces with the texts of their lines.
fn pieces_with_texts(alloc: Global, lines: &[Line], pieces: Pieces) -> Result<Pieces, AllocError>
    ensures { IfOk result (λ out. out ≡ with_texts lines.now pieces) }
{
    let index = SourceLines::new(alloc, lines)?;
    let mut out = Pieces::new(alloc);
    for piece in pieces.into_vec() {
        out.push(with_text(alloc, &index, piece)?)?;
    }
    Ok(out)
}

/// The table whose pieces have the texts of their lines.
pub fn with_texts(alloc: Global, lines: &[Line], table: Compiled) -> Result<Compiled, AllocError>
    ensures { IfOk result (λ out. out ≡ record table { pieces = with_texts lines.now table.pieces }) }
{
    let mut made = table;
    let pieces = replace(&mut made.pieces, Pieces::new(alloc));
    made.pieces = pieces_with_texts(alloc, lines, pieces)?;
    Ok(made)
}

/// The table of a text of fields, with a piece for each field line; or its faults, in order of the text: 6090 to 6097.
/// The notes are 3005, where a label is not the field's, and 2002, where a decoded line has an unknown label. No memory
/// has a table of 2^32 bytes or more.
#[tactic(auto, using(crate::proofs::Law::reads_as_written))]
pub fn compile_data(alloc: Global, lines: &Lines) -> Result<Compiled, Stage>
    // The answer is that of a function on lists.
    ensures exact { Answers result (compiled lines.now.list) }

    // The bytes, read by offset, are the values that the text writes, and no others.
    ensures reads { IfOk result (λ table. ReadsAs (joined table.pieces) (written_values lines.now.list)) }

    ensures only { IfOk result
        (λ table. (values : AList Entry) → ReadsAs (joined table.pieces) values → values ≡ written_values lines.now.list) }

    ensures within { OnOk result (length (unsealed_bytes lines.now.list) < 2 ^ 32) }

    // A refusal tells decoded lines that disagree, and then at most one other fault; notes tell labels. Each message
    // stands in column 1 of a line.
    ensures told { TellsOf lines.now.list result }

    // Each message stands in one of the lines' files.
    ensures files { (files : ℕ) → 0 < files → All (λ line. line.file < files) lines.now.list → TellsWithin files result }
{
    let lines = lines.list.as_slice();
    let text = match data_text(alloc, lines) {
        Ok(text) => text,
        Err(AllocError) => return Err(Stage::Memory),
    };
    let table = compile_text(alloc, &text)?;
    match with_texts(alloc, lines, table) {
        Ok(table) => Ok(table),
        Err(AllocError) => Err(Stage::Memory),
    }
}
