//! The text of a generic table to its table.
ghost use Rattle.std.specs.Prelude.{◌≡◌, ◌<◌, ◌++◌, ℕ, All, IfOk, map, List as AList};
ghost use Rattle.data_tables.specs.Compiling.{joined};
ghost use Rattle.data_tables.specs.Entry.{Entry};
ghost use Rattle.data_tables.specs.Promise.{Answers, TellsWithin};
ghost use Rattle.data_generic.specs.Compiling.{compiled_generic, DataEntry, written_header, written_data, data_lines, first_bytes};
ghost use Rattle.data_generic.specs.Compiling.{data_table, generic_text};
ghost use Rattle.data_generic.specs.Reading.{ReadsGeneric, forms_of};
ghost use Rattle.data_generic.specs.Telling.{TellsOne};
ghost use Rattle.data_generic.specs.Steps.{outcome, so_far};
ghost use Rattle.data_generic.specs.Walk.{data_piece, walk_all};

use crate::labels::labels_of;
use crate::walk::{DataWalker, walk_data};
use data_tables::compile::with_texts;
use data_tables::compiled::{Compiled, HeaderPieces};
use data_tables::front::{header_pieces, with_colons};
use data_tables::seal::seal;
use data_text::field_line::{DataText, FieldLine};
use data_text::source::data_text;
use iasl_messages::message::Stage;
use iasl_messages::place::{Lines, Piece, Pieces};
use iasl_ports::list::Text;
use std::alloc::{AllocError, Global};

// The lines behind those of the nine fields of the header.
fn data_lines(lines: &[FieldLine]) -> &[FieldLine]
    ensures { result.now ≡ data_lines lines.now }
{
    if lines.len() < 9 { &[] } else { &lines[9..] }
}

// The signature, which is the first field of a header.
fn signature_of(alloc: Global, pieces: &[Piece]) -> Result<Text, AllocError>
    ensures { IfOk result (λ signature. signature ≡ first_bytes pieces.now) }
{
    match pieces {
        [first, ..] => Text::from_bytes(alloc, first.bytes.as_bytes()),
        [] => Ok(Text::new(alloc)),
    }
}

// The pieces and the faults of what stands behind a header, and the signature.
#[tactic(auto, using(crate::proofs::Tables::walk_same))]
fn walk_behind(
    alloc: Global,
    header: Pieces,
    lines: &[FieldLine],
) -> Result<(Text, DataWalker), AllocError>
    ensures signature { IfOk result (λ out. out.0 ≡ first_bytes header) }
    ensures walked { IfOk result (λ out. so_far out.1 ≡ outcome (header ++ map data_piece (walk_all lines.now).fields)
        (walk_all lines.now).faults) }
{
    let signature = signature_of(alloc, header.as_slice())?;
    let labels = labels_of(alloc, lines)?;
    let walker = walk_data(alloc, header, &labels, lines)?;
    Ok((signature, walker))
}

// The table of a header and of what stands behind it, or the fault of a data line.
fn compile_behind(
    alloc: Global,
    header: HeaderPieces,
    lines: &[FieldLine],
) -> Result<Compiled, Stage>
    ensures { Answers result (data_table header.pieces header.notes (walk_all lines.now)) }
{
    let (signature, walker) = match walk_behind(alloc, header.pieces, lines) {
        Ok(out) => out,
        Err(AllocError) => return Err(Stage::Memory),
    };
    if !walker.faults.is_empty() {
        return Err(Stage::Refused(walker.faults));
    }
    match seal(alloc, walker.pieces) {
        Ok(pieces) => Ok(Compiled {
            pieces,
            signature,
            notes: header.notes,
        }),
        Err(AllocError) => Err(Stage::Memory),
    }
}

fn compile_text(alloc: Global, text: DataText) -> Result<Compiled, Stage>
    ensures { Answers result (generic_text text) }
{
    let fields = with_colons(alloc, text.lines)?;
    let header = header_pieces(alloc, text.end, fields.as_slice())?;
    compile_behind(alloc, header, data_lines(fields.as_slice()))
}

/// The table of a generic text, with a piece for each field line; or its first fault: 6093 where a line has no colon, 6090, 6091,
/// 6093 or 6094 in the header, 6110 to 6112, 6093, 6094 or 6080 behind it. The notes are 3005, of the header's lines alone.
pub fn compile_generic(alloc: Global, lines: &Lines) -> Result<Compiled, Stage>
    // The answer is that of a function on lists.
    ensures exact { Answers result (compiled_generic lines.now.list) }

    // The bytes, read by the types and sizes of what the text writes, are the values that it writes.
    ensures reads { IfOk result
        (λ table. ReadsGeneric (joined table.pieces) (written_header lines.now.list) (written_data lines.now.list)) }

    // And by these they read as no others.
    ensures only { IfOk result (λ table. (header : AList Entry) → (entries : AList DataEntry) →
        ReadsGeneric (joined table.pieces) header entries → forms_of entries ≡ forms_of (written_data lines.now.list) →
        (header ≡ written_header lines.now.list) × (entries ≡ written_data lines.now.list)) }

    // A refusal is one message; a note tells a label of the header. Each message stands in column 1 of a line.
    ensures told { TellsOne lines.now.list result }

    // Each message stands in one of the lines' files.
    ensures files { (files : ℕ) → 0 < files → All (λ line. line.file < files) lines.now.list → TellsWithin files result }
{
    let lines = lines.list.as_slice();
    let text = match data_text(alloc, lines) {
        Ok(text) => text,
        Err(AllocError) => return Err(Stage::Memory),
    };
    let table = compile_text(alloc, text)?;
    match with_texts(alloc, lines, table) {
        Ok(table) => Ok(table),
        Err(AllocError) => Err(Stage::Memory),
    }
}
