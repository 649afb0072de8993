// The fields of a text, one line after another.
ghost use Rattle.std.specs.Prelude.{◌≡◌, IfOk, MatchOption};
ghost use Rattle.data_text.specs.declared.field_line.FieldLine.{FieldLine};
ghost use Rattle.data_tables.specs.Entry.{Value as Given, Number, Bytes};
ghost use Rattle.data_tables.specs.Fields.{field_bytes, value_bytes, value_of};
ghost use Rattle.data_tables.specs.Parts.{next_field};
ghost use Rattle.data_tables.specs.Walk.{step_of, message_at};
ghost use Rattle.data_tables.specs.Views.{IsStep, IsTaken, part_of};
ghost use Rattle.data_tables.specs.Headers.{IsGiven};
ghost use Rattle.data_tables.specs.Walk as spec;

use crate::decoding::{Decoded, Told, decoded_of, is_decoded_below, told_by_field};
use crate::field::{Value, little_bytes, value_of};
use crate::part::{Next, Part, behind, next_field};
use data_layout::row::{Kind, Row};
use data_layout::table::Table;
use data_text::field_line::FieldLine;
use iasl_messages::message::Message;
use iasl_messages::number::BAD_VALUE;
use iasl_messages::place::Place;
use iasl_ports::list::Text;
use std::alloc::{AllocError, Global};
use table_creator::{COMPILER_ID, COMPILER_REVISION};

/// What a line is.
#[derive(Drop)]
pub(crate) enum Step {
    /// A decoded line.
    Passed(Told),
    /// A field and its bytes, with what comes after it and whether decoded lines may follow.
    Took {
        row: Row,
        bytes: Vec<u8>,
        rest: Part,
        decoded: Option<Decoded>,
    },
    /// A fault: the number of its message.
    Halted(u16),
}

/// A message with no name.
pub(crate) fn message_at(alloc: Global, number: u16, place: Place) -> Message
    ensures { result ≡ message_at number place }
{
    Message {
        number,
        place,
        name: Text::new(alloc),
    }
}

// The bytes of a computed field; none of any other.
fn computed_bytes(alloc: Global, row: &Row) -> Result<Option<Vec<u8>>, AllocError>
    ensures { IfOk result (λ found. MatchOption found ((value : Given) → field_bytes row.now value ≡ value_bytes row.now.width value)
        (λ bytes. (value : Given) → field_bytes row.now value ≡ bytes.items)) }
{
    let bytes = match row.kind {
        Kind::TableLength | Kind::Checksum => little_bytes(alloc, row.width, 0),
        Kind::CompilerId => COMPILER_ID.to_vec(alloc),
        Kind::CompilerRevision => COMPILER_REVISION.to_le_bytes().to_vec(alloc),
        Kind::Length(size) => little_bytes(alloc, row.width, u64::from(size)),
        Kind::Number
        | Kind::Text
        | Kind::Bytes
        | Kind::Guid
        | Kind::Reserved
        | Kind::Revision
        | Kind::StructureType
        | Kind::Localities
        | Kind::Locality(_) => return Ok(None),
    };
    Ok(Some(bytes?))
}

/// The bytes of a field that is a number.
pub fn number_bytes(alloc: Global, row: &Row, number: u64) -> Result<Vec<u8>, AllocError>
    ensures { IfOk result (λ bytes. bytes.items ≡ field_bytes row.now (Number number)) }
{
    match computed_bytes(alloc, row)? {
        Some(bytes) => Ok(bytes),
        None => little_bytes(alloc, row.width, number),
    }
}

/// The bytes of a field that is a text or bytes.
pub fn other_bytes(alloc: Global, row: &Row, bytes: Vec<u8>) -> Result<Vec<u8>, AllocError>
    ensures { IfOk result (λ out. out.items ≡ field_bytes row.now (Bytes bytes.items)) }
{
    match computed_bytes(alloc, row)? {
        Some(computed) => Ok(computed),
        None => Ok(bytes),
    }
}

/// The bytes of a field, or the number of a message.
#[derive(Drop)]
pub(crate) enum FieldBytes {
    Bytes(Vec<u8>),
    Fault(u16),
}

/// The bytes of the field that a line gives.
pub(crate) fn given_bytes(
    alloc: Global,
    table: Table,
    row: &Row,
    line: &FieldLine,
) -> Result<FieldBytes, AllocError>
    ensures { IfOk result (λ given. IsGiven given row.now (value_of table row.now line.now.value)) }
{
    match value_of(alloc, table, row, line.value.as_slice())? {
        Value::Fault(fault) => Ok(FieldBytes::Fault(fault)),
        Value::Number(number) => Ok(FieldBytes::Bytes(number_bytes(alloc, row, number)?)),
        Value::Bytes(found) => Ok(FieldBytes::Bytes(other_bytes(alloc, row, found)?)),
    }
}

fn field_step(row: Row, number: u64, bytes: Vec<u8>, rest: Part, line: &FieldLine) -> Step
    ensures { IsTaken result row number bytes.items (part_of rest) line.now }
{
    Step::Took {
        row,
        bytes,
        rest: behind(rest, row.kind, number),
        decoded: decoded_of(&row, number, line),
    }
}

fn step_with(alloc: Global, row: Row, rest: Part, line: &FieldLine) -> Result<Step, AllocError>
    ensures { IfOk result (λ step. IsStep step (spec.step_with row (part_of rest) line.now (value_of rest.table row line.now.value))) }
{
    match value_of(alloc, rest.table, &row, line.value.as_slice())? {
        Value::Fault(fault) => Ok(Step::Halted(fault)),
        Value::Number(number) => {
            let bytes = number_bytes(alloc, &row, number)?;
            Ok(field_step(row, number, bytes, rest, line))
        }
        Value::Bytes(found) => {
            let bytes = other_bytes(alloc, &row, found)?;
            Ok(field_step(row, 0, bytes, rest, line))
        }
    }
}

fn step_at(alloc: Global, part: Part, line: &FieldLine) -> Result<Step, AllocError>
    ensures { IfOk result (λ step. IsStep step (spec.step_at line.now (next_field (part_of part)))) }
{
    if !line.colon {
        return Ok(Step::Halted(BAD_VALUE));
    }
    match next_field(part) {
        Next::Fault(fault) => Ok(Step::Halted(fault)),
        Next::Field(row, rest) => step_with(alloc, row, rest, line),
    }
}

/// What a line is.
pub(crate) fn step_of(
    alloc: Global,
    part: Part,
    decoded: Option<Decoded>,
    line: &FieldLine,
) -> Result<Step, AllocError>
    ensures { IfOk result (λ step. IsStep step (step_of (part_of part) decoded line.now)) }
{
    if let Some(field) = decoded {
        if is_decoded_below(&field, line) {
            return Ok(Step::Passed(told_by_field(&field, line)));
        }
    }
    step_at(alloc, part, line)
}
