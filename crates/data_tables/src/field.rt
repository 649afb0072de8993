// The value of a field, and its bytes.
ghost use Rattle.std.specs.Prelude.{◌≡◌, ◌≤◌, ◌<◌, ◌^◌, ◌*◌, ◌++◌, ◌∷◌, [], MatchOption, IfOk, OnOk, Some, None, Ok, Err, ℕ, length};
ghost use Rattle.std.specs.Prelude.{nat_lt, replicate};
ghost use Rattle.data_text.specs.Values.{number_in, text_in, bytes_in};
ghost use Rattle.byteorder.specs.Endian.{little_bytes};
ghost use Rattle.aml_code.specs.Header.{filled};
ghost use Rattle.data_tables.specs.Fields as spec;
ghost use Rattle.data_tables.specs.Fields.{value_of, value_by, form_of, number_fault};
ghost use Rattle.data_tables.specs.Views.{IsValue};

use byteorder::{ByteOrder, LittleEndian};
use data_layout::row::{Kind, Row};
use data_layout::table::{Table, is_sized, knows_revision, structure_rows};
use data_text::values::{Number, bytes_in, number_in, text_in};
use hex_text::blanks::{has_blanks_alone, skip_blanks};
use iasl_messages::number::{
    BAD_LOCALITY_MATRIX, BAD_VALUE, UNKNOWN_STRUCTURE_TYPE, VALUE_IS_TOO_WIDE,
};
use resource_macros::identifiers::uuid;
use std::alloc::{AllocError, Global};

/// The most localities that a table may have.
const MOST_LOCALITIES: u64 = 4000;

/// How many characters a UUID has.
const GUID_LENGTH: usize = 36;

/// How a value is written.
#[derive(Clone, Copy, PartialEq, Eq)]
pub(crate) enum Form {
    Number,
    Text,
    Bytes,
    Guid,
}

/// What a field is given.
#[derive(Drop)]
pub(crate) enum Value {
    Number(u64),
    Bytes(Vec<u8>),
    /// Nothing, and the number of the message.
    Fault(u16),
}

fn form_of(kind: Kind) -> Form
    ensures { result ≡ spec.form_of kind }
{
    match kind {
        Kind::Text | Kind::CompilerId => Form::Text,
        Kind::Bytes | Kind::Locality(_) => Form::Bytes,
        Kind::Guid => Form::Guid,
        Kind::Number
        | Kind::Reserved
        | Kind::TableLength
        | Kind::Checksum
        | Kind::CompilerRevision
        | Kind::Length(_)
        | Kind::Revision
        | Kind::StructureType
        | Kind::Localities => Form::Number,
    }
}

/// Whether a number has room in so many bytes.
#[tactic(auto, using(crate::proofs::Rooms::all_room, crate::proofs::Rooms::one_bit))]
pub fn has_room(width: u64, number: u64) -> bool
    ensures { result ≡ spec.has_room width number }
{
    width >= 8 || number < 1 << (8 * width as u32)
}

fn width_fault(width: u64, number: u64) -> Option<u16>
    ensures { result ≡ spec.width_fault width number }
{
    if has_room(width, number) {
        None
    } else {
        Some(VALUE_IS_TOO_WIDE)
    }
}

fn revision_fault(table: Table, width: u64, number: u64) -> Option<u16>
    ensures { result ≡ spec.revision_fault table width number }
{
    if knows_revision(table, number) {
        width_fault(width, number)
    } else {
        Some(BAD_VALUE)
    }
}

fn has_structure(table: Table, number: u64) -> bool
    ensures { result ≡ spec.has_structure table number }
{
    structure_rows(table, number).is_some()
}

fn type_fault(table: Table, width: u64, number: u64) -> Option<u16>
    ensures { result ≡ spec.type_fault table width number }
{
    if !has_room(width, number) {
        Some(VALUE_IS_TOO_WIDE)
    } else if has_structure(table, number) {
        None
    } else {
        Some(UNKNOWN_STRUCTURE_TYPE)
    }
}

fn count_fault(width: u64, number: u64) -> Option<u16>
    ensures { result ≡ spec.count_fault width number }
{
    if !has_room(width, number) {
        Some(VALUE_IS_TOO_WIDE)
    } else if number <= MOST_LOCALITIES {
        None
    } else {
        Some(BAD_LOCALITY_MATRIX)
    }
}

fn reserved_fault(number: u64) -> Option<u16>
    ensures { result ≡ spec.reserved_fault number }
{
    if number == 0 { None } else { Some(BAD_VALUE) }
}

// The message of a number, where it has one.
fn number_fault(table: Table, kind: Kind, width: u64, number: u64) -> Option<u16>
    ensures { result ≡ spec.number_fault table kind width number }
{
    match kind {
        Kind::Reserved => reserved_fault(number),
        Kind::Revision => revision_fault(table, width, number),
        Kind::StructureType => type_fault(table, width, number),
        Kind::Localities => count_fault(width, number),
        Kind::Number
        | Kind::Text
        | Kind::Bytes
        | Kind::Guid
        | Kind::TableLength
        | Kind::Checksum
        | Kind::CompilerId
        | Kind::CompilerRevision
        | Kind::Length(_)
        | Kind::Locality(_) => width_fault(width, number),
    }
}

// The message of a number of more than 64 bits.
#[tactic(auto, using(crate::proofs::Rooms::no_room, crate::proofs::Rooms::no_revision, crate::proofs::Rooms::any_revision, crate::proofs::Rooms::not_zero))]
fn wide_fault(table: Table, kind: Kind, width: u64) -> u16
    ensures { (number : ℕ) → 2 ^ 64 ≤ number → spec.number_fault table kind width number ≡ Some result }
{
    match kind {
        Kind::Reserved => BAD_VALUE,
        Kind::Revision if is_sized(table) => BAD_VALUE,
        Kind::Number
        | Kind::Text
        | Kind::Bytes
        | Kind::Guid
        | Kind::TableLength
        | Kind::Checksum
        | Kind::CompilerId
        | Kind::CompilerRevision
        | Kind::Length(_)
        | Kind::Revision
        | Kind::StructureType
        | Kind::Localities
        | Kind::Locality(_) => VALUE_IS_TOO_WIDE,
    }
}

fn bytes_fault(kind: Kind) -> u16
    ensures { result ≡ spec.bytes_fault kind }
{
    match kind {
        Kind::Locality(_) => BAD_LOCALITY_MATRIX,
        _ => BAD_VALUE,
    }
}

fn number_value(table: Table, row: &Row, text: &[u8]) -> Value
    ensures { IsValue result (spec.value_of_number table row.now (number_in text.now)) }
{
    match number_in(text) {
        Number::Malformed => Value::Fault(BAD_VALUE),
        Number::Wide => Value::Fault(wide_fault(table, row.kind, row.width)),
        Number::Is(number) => match number_fault(table, row.kind, row.width, number) {
            Some(fault) => Value::Fault(fault),
            None => Value::Number(number),
        },
    }
}

// The first bytes of a text, filled with zeros.
fn filled(alloc: Global, width: usize, text: &[u8]) -> Result<Vec<u8>, AllocError>
    ensures { IfOk result (λ bytes. bytes.items ≡ filled width text.now) }
{
    let mut bytes = text.to_vec(alloc)?;
    bytes.resize(width, 0)?;
    Ok(bytes)
}

fn text_value(alloc: Global, row: &Row, text: &[u8]) -> Result<Value, AllocError>
    ensures { IfOk result (λ value. IsValue value (spec.value_of_text row.now (text_in text.now))) }
{
    match text_in(text) {
        None => Ok(Value::Fault(BAD_VALUE)),
        Some(found) => {
            let width = row.width as usize;
            if found.len() > width {
                return Ok(Value::Fault(VALUE_IS_TOO_WIDE));
            }
            Ok(Value::Bytes(filled(alloc, width, found)?))
        }
    }
}

fn bytes_value(alloc: Global, row: &Row, text: &[u8]) -> Result<Value, AllocError>
    ensures { IfOk result (λ value. IsValue value (spec.value_of_bytes row.now (bytes_in text.now))) }
{
    match bytes_in(alloc, text)? {
        None => Ok(Value::Fault(BAD_VALUE)),
        Some(found) => {
            if found.len() as u64 != row.width {
                return Ok(Value::Fault(bytes_fault(row.kind)));
            }
            Ok(Value::Bytes(found))
        }
    }
}

// The UUID that a value is.
#[tactic(auto, using(crate::proofs::Guids::short))]
fn guid_in(value: &[u8]) -> Option<[u8; 16]>
    ensures { result ≡ spec.guid_in value.now }
{
    let text = skip_blanks(value);
    if text.len() <= GUID_LENGTH {
        return uuid(text);
    }
    let (word, rest) = text.split_at(GUID_LENGTH);
    if has_blanks_alone(rest) {
        uuid(word)
    } else {
        None
    }
}

fn guid_value(alloc: Global, row: &Row, text: &[u8]) -> Result<Value, AllocError>
    ensures { IfOk result (λ value. IsValue value (spec.value_of_bytes row.now (spec.guid_in text.now))) }
{
    match guid_in(text) {
        None => Ok(Value::Fault(BAD_VALUE)),
        Some(found) => {
            if found.len() as u64 != row.width {
                return Ok(Value::Fault(bytes_fault(row.kind)));
            }
            Ok(Value::Bytes(found.to_vec(alloc)?))
        }
    }
}

/// The value that a field of a table is given.
pub(crate) fn value_of(
    alloc: Global,
    table: Table,
    row: &Row,
    text: &[u8],
) -> Result<Value, AllocError>
    ensures { IfOk result (λ value. IsValue value (value_of table row.now text.now)) }
{
    match form_of(row.kind) {
        Form::Number => Ok(number_value(table, row, text)),
        Form::Text => text_value(alloc, row, text),
        Form::Bytes => bytes_value(alloc, row, text),
        Form::Guid => guid_value(alloc, row, text),
    }
}

/// The lowest bytes of a number, the lowest first.
#[tactic(auto, using(crate::proofs::Numbers::filled_bytes))]
pub fn little_bytes(alloc: Global, width: u64, number: u64) -> Result<Vec<u8>, AllocError>
    ensures { IfOk result (λ bytes. bytes.items ≡ little_bytes width number) }
{
    let mut bytes = [0u8; 8];
    LittleEndian::write_u64(&mut bytes, number);
    filled(alloc, width as usize, &bytes)
}
