// Which field comes next.
ghost use Rattle.std.specs.Prelude.{◌≡◌, [], Some, None, Ok, Err, true, false};
ghost use Rattle.data_tables.specs.Parts.{next_field, first_part, first_of, open_after, next_locality, behind, missing, missing_after};
ghost use Rattle.data_tables.specs.Parts.{after_fixed};
ghost use Rattle.data_tables.specs.Views.{part_of, IsNext};
ghost use Rattle.std.specs.Option.{unwrap_or};
ghost use Rattle.data_layout.specs.Layout.{structure_rows};

use data_layout::row::{Behind, Kind, Row};
use data_layout::table::{
    Table, behind_of, entry_rows, fixed_rows, header_rows, locality_row, structure_rows, type_rows,
};
use iasl_messages::number::{BAD_LOCALITY_MATRIX, FIELD_IS_MISSING, TOO_MANY_LINES};

/// What comes after the fields of a part.
#[derive(Clone, Copy, PartialEq, Eq)]
pub(crate) enum After {
    /// The fixed part behind the header.
    Fixed,
    Nothing,
    /// Entries of one form.
    Entries,
    /// Structures, each with its type.
    Structures,
    /// The rows of so many localities, of which the next has this number.
    Matrix(u64, u64),
}

/// The fields that are still to come in the header, the fixed part or a structure, and what comes after them.
#[derive(Clone, Copy)]
pub(crate) struct Part {
    pub table: Table,
    /// 0 until it has been read.
    pub revision: u64,
    pub rows: &'static [Row],
    pub after: After,
}

/// The next field and what comes after it, or the number of the message that there is none.
pub(crate) enum Next {
    Field(Row, Part),
    Fault(u16),
}

/// The header of a table, and then its fixed part.
pub(crate) fn first_part(table: Table) -> Part
    ensures { part_of result ≡ first_part table }
{
    Part {
        table,
        revision: 0,
        rows: header_rows(),
        after: After::Fixed,
    }
}

fn after_fixed(table: Table) -> After
    ensures { result ≡ after_fixed table }
{
    match behind_of(table) {
        Behind::Nothing => After::Nothing,
        Behind::Entries => After::Entries,
        Behind::Structures => After::Structures,
        Behind::Localities => After::Matrix(0, 0),
    }
}

fn with_rows(part: Part, rows: &'static [Row]) -> Part
    ensures { part_of result ≡ record (part_of part) { rows = rows.now } }
{
    Part {
        table: part.table,
        revision: part.revision,
        rows,
        after: part.after,
    }
}

fn with_after(part: Part, after: After) -> Part
    ensures { part_of result ≡ record (part_of part) { after = after } }
{
    Part {
        table: part.table,
        revision: part.revision,
        rows: part.rows,
        after,
    }
}

fn first_of(part: Part, rows: &'static [Row]) -> Next
    ensures { IsNext result (first_of (part_of part) rows.now) }
{
    match rows {
        [row, rest @ ..] => Next::Field(*row, with_rows(part, rest)),
        [] => Next::Fault(TOO_MANY_LINES),
    }
}

fn next_locality(part: Part, count: u64, number: u64) -> Next
    ensures { IsNext result (next_locality (part_of part) count number) }
{
    if number >= count {
        return Next::Fault(BAD_LOCALITY_MATRIX);
    }
    let rest = Part {
        table: part.table,
        revision: part.revision,
        rows: &[],
        after: After::Matrix(count, number + 1),
    };
    Next::Field(locality_row(count, number), rest)
}

fn next_after(part: Part) -> Next
    ensures { IsNext result (open_after (part_of part) part.after) }
{
    match part.after {
        After::Fixed => first_of(
            with_after(part, after_fixed(part.table)),
            fixed_rows(part.table, part.revision),
        ),
        After::Nothing => Next::Fault(TOO_MANY_LINES),
        After::Entries => first_of(part, entry_rows(part.table)),
        After::Structures => first_of(part, type_rows(part.table)),
        After::Matrix(count, number) => next_locality(part, count, number),
    }
}

/// The next field and what comes after it.
pub(crate) fn next_field(part: Part) -> Next
    ensures { IsNext result (next_field (part_of part)) }
{
    match part.rows {
        [row, rest @ ..] => Next::Field(*row, with_rows(part, rest)),
        [] => next_after(part),
    }
}

fn chosen_rows(table: Table, number: u64) -> &'static [Row]
    ensures { result.now ≡ unwrap_or (structure_rows table number) [] }
{
    match structure_rows(table, number) {
        Some(rows) => rows,
        None => &[],
    }
}

/// What comes after a field that has this number.
pub(crate) fn behind(part: Part, kind: Kind, number: u64) -> Part
    ensures { part_of result ≡ behind (part_of part) kind number }
{
    match kind {
        Kind::Revision => Part {
            table: part.table,
            revision: number,
            rows: part.rows,
            after: part.after,
        },
        Kind::StructureType => with_rows(part, chosen_rows(part.table, number)),
        Kind::Localities => with_after(part, After::Matrix(number, 0)),
        Kind::Number
        | Kind::Text
        | Kind::Bytes
        | Kind::Guid
        | Kind::Reserved
        | Kind::TableLength
        | Kind::Checksum
        | Kind::CompilerId
        | Kind::CompilerRevision
        | Kind::Length(_)
        | Kind::Locality(_) => part,
    }
}

fn missing_after(after: After) -> Option<u16>
    ensures { result ≡ missing_after after }
{
    match after {
        After::Fixed => Some(FIELD_IS_MISSING),
        After::Matrix(count, number) if number < count => Some(BAD_LOCALITY_MATRIX),
        After::Nothing | After::Entries | After::Structures | After::Matrix(_, _) => None,
    }
}

/// The number of the message where the text ends here.
pub(crate) fn missing(part: Part) -> Option<u16>
    ensures { result ≡ missing (part_of part) }
{
    if part.rows.is_empty() {
        missing_after(part.after)
    } else {
        Some(FIELD_IS_MISSING)
    }
}
