//! The template of a table: a text of fields with default values.
ghost use Rattle.std.specs.Prelude.{◌≡◌, ◌++◌, ◌∷◌, [], MatchOption, IfOk, IfSome, OnOk, ◌<◌, ℕ, All, List, Some, None, is_some, true};
ghost use Rattle.std.specs.Option.{option_copied};
ghost use Rattle.std.specs.List.{flat_map};
ghost use Rattle.aml_code.specs.Header.{filled};
ghost use Rattle.iasl_backends.specs.Table.{pair};
ghost use Rattle.data_layout.specs.Layout.{table_of};
ghost use Rattle.data_layout.specs.Layouts.{facp_headings};
ghost use Rattle.data_tables.specs.Compiling.{compiled, joined};
ghost use Rattle.data_tables.specs.Entry.{Number, Bytes};
ghost use Rattle.data_tables.specs.Entries.{written_values};
ghost use Rattle.data_tables.specs.Reading.{ReadsAs};
ghost use Rattle.data_tables.specs.Fields.{field_bytes};
ghost use Rattle.data_generic.specs.Templates.{ComesTo, default_of, default_pieces, lines_of};
ghost use Rattle.data_generic.specs.Templates as spec;

use data_layout::row::{Behind, Kind, Row};
use data_layout::table::{
    Table, behind_of, entry_rows, fixed_rows, header_rows, locality_row, signature_of,
    structure_rows, table_of, type_rows,
};
use data_tables::field::little_bytes;
use data_tables::label::is_label;
use data_tables::seal::seal;
use data_tables::walk::{number_bytes, other_bytes};
use hex_text::blanks::has_blanks_alone;
use iasl_backends::text::{put, put_pair};
use iasl_messages::place::{Piece, Pieces, Place};
use iasl_ports::list::{List, Text};
use std::alloc::{AllocError, Global};

// ---- values

#[tactic(auto, unfolding(data_layout::specs::Layout::layout_of))]
fn revision_of(table: Table) -> u64
    ensures { result ≡ spec.revision_of table }
{
    match table {
        Table::Facp => 6,
        Table::Apic => 5,
        Table::Tpm2 => 4,
        Table::Srat | Table::Gtdt => 3,
        Table::Spcr | Table::Pcct | Table::Tcpa => 2,
        Table::Viot => 0,
        _ => 1,
    }
}

#[tactic(auto, unfolding(data_layout::specs::Layout::layout_of))]
fn type_of_table(table: Table) -> u64
    ensures { result ≡ spec.type_of_table table }
{
    match table {
        Table::Srat | Table::Gtdt => 1,
        Table::Viot => 3,
        Table::Hest => 9,
        _ => 0,
    }
}

// Whether a field is a revision other than the table's.
fn is_revision(row: &Row) -> bool
    ensures { result ≡ spec.is_revision row.now }
{
    is_label(b"oemrevision", &row.label) || is_label(b"tablerevision", &row.label)
}

fn plain_number(row: &Row) -> u64
    ensures { result ≡ spec.plain_number row.now }
{
    if is_revision(row) { 1 } else { 0 }
}

fn number_of(table: Table, row: &Row) -> u64
    ensures { result ≡ spec.number_of table row.now }
{
    match row.kind {
        Kind::Revision => revision_of(table),
        Kind::StructureType => type_of_table(table),
        Kind::Localities => 2,
        Kind::Number => plain_number(row),
        Kind::Text
        | Kind::Bytes
        | Kind::Guid
        | Kind::Reserved
        | Kind::TableLength
        | Kind::Checksum
        | Kind::CompilerId
        | Kind::CompilerRevision
        | Kind::Length(_)
        | Kind::Locality(_) => 0,
    }
}

// The text of a field of the header, by how many bytes it has.
fn text_of_width(table: Table, width: u64) -> &'static [u8]
    ensures { result.now ≡ spec.text_of_width table width }
{
    if width == 4 {
        signature_of(table)
    } else if width == 6 {
        b"OEMID"
    } else {
        b"TEMPLATE"
    }
}

fn distances(number: u64) -> &'static [u8]
    ensures { result.now ≡ spec.distances number }
{
    if number == 0 { &[10, 20] } else { &[20, 10] }
}

// The first bytes of a text, filled with zeros.
fn filled(alloc: Global, width: u64, text: &[u8]) -> Result<Vec<u8>, AllocError>
    ensures { IfOk result (λ bytes. bytes.items ≡ filled width text.now) }
{
    let mut bytes = text.to_vec(alloc)?;
    bytes.resize(width as usize, 0)?;
    Ok(bytes)
}

// The bytes of a field's value that is no number.
fn plain_bytes(alloc: Global, table: Table, row: &Row) -> Result<Option<Vec<u8>>, AllocError>
    ensures { IfOk result (λ found. MatchOption found (spec.value_of table row.now ≡ Number (spec.number_of table row.now))
        (λ bytes. spec.value_of table row.now ≡ Bytes bytes.items)) }
{
    let bytes = match row.kind {
        Kind::Text => filled(alloc, row.width, text_of_width(table, row.width)),
        Kind::CompilerId => b"INTL".to_vec(alloc),
        Kind::Bytes | Kind::Guid => filled(alloc, row.width, &[]),
        Kind::Locality(number) => distances(number).to_vec(alloc),
        Kind::Number
        | Kind::Reserved
        | Kind::TableLength
        | Kind::Checksum
        | Kind::CompilerRevision
        | Kind::Length(_)
        | Kind::Revision
        | Kind::StructureType
        | Kind::Localities => return Ok(None),
    };
    Ok(Some(bytes?))
}

fn row_bytes(alloc: Global, table: Table, row: &Row) -> Result<Text, AllocError>
    ensures { IfOk result (λ bytes. bytes ≡ field_bytes row.now (spec.value_of table row.now)) }
{
    let bytes = match plain_bytes(alloc, table, row)? {
        Some(bytes) => other_bytes(alloc, row, bytes)?,
        None => number_bytes(alloc, row, number_of(table, row))?,
    };
    Text::from_vec(alloc, bytes)
}

// ---- how they are written

fn put_all_pairs(out: &mut Vec<u8>, bytes: &[u8]) -> Result<(), AllocError>
    ensures { OnOk result (out.new.items ≡ out.old.items ++ flat_map pair bytes.now) }
{
    for byte in bytes {
        put_pair(out, *byte)?;
    }
    Ok(())
}

// Two digits for each byte, the highest first.
fn put_digits(alloc: Global, out: &mut Vec<u8>, width: u64, number: u64) -> Result<(), AllocError>
    ensures { OnOk result (out.new.items ≡ out.old.items ++ spec.digits width number) }
{
    let mut bytes = little_bytes(alloc, width, number)?;
    bytes.reverse();
    put_all_pairs(out, bytes.as_slice())
}

fn put_quoted(out: &mut Vec<u8>, text: &[u8]) -> Result<(), AllocError>
    ensures { OnOk result (out.new.items ≡ out.old.items ++ spec.quoted text.now) }
{
    put(out, b"\"")?;
    put(out, text)?;
    put(out, b"\"")
}

// Pairs with one blank between.
fn put_pairs(out: &mut Vec<u8>, bytes: &[u8]) -> Result<(), AllocError>
    ensures { OnOk result (out.new.items ≡ out.old.items ++ spec.pairs bytes.now) }
{
    let mut rest = bytes;
    while let [byte, more @ ..] = rest {
        put_pair(out, *byte)?;
        if !more.is_empty() {
            put(out, b" ")?;
        }
        rest = more;
    }
    Ok(())
}

fn put_zeros(alloc: Global, out: &mut Vec<u8>, width: u64) -> Result<(), AllocError>
    ensures { OnOk result (out.new.items ≡ out.old.items ++ spec.pairs (filled width [])) }
{
    let bytes = filled(alloc, width, &[])?;
    put_pairs(out, bytes.as_slice())
}

fn put_value(alloc: Global, out: &mut Vec<u8>, table: Table, row: &Row) -> Result<(), AllocError>
    ensures { OnOk result (out.new.items ≡ out.old.items ++ spec.written table row.now) }
{
    match row.kind {
        Kind::Text => put_quoted(out, text_of_width(table, row.width)),
        Kind::CompilerId => put_quoted(out, b"INTL"),
        Kind::Bytes => put_zeros(alloc, out, row.width),
        Kind::Guid => put(out, b"00000000-0000-0000-0000-000000000000"),
        Kind::Locality(number) => put_pairs(out, distances(number)),
        Kind::Number
        | Kind::Reserved
        | Kind::TableLength
        | Kind::Checksum
        | Kind::CompilerRevision
        | Kind::Length(_)
        | Kind::Revision
        | Kind::StructureType
        | Kind::Localities => put_digits(alloc, out, row.width, number_of(table, row)),
    }
}

// One digit of a number.
fn put_digit(out: &mut Vec<u8>, number: u64) -> Result<(), AllocError>
    ensures { OnOk result (out.new.items ≡ out.old.items ++ spec.digit number ∷ []) }
{
    put(out, &[(number % 10) as u8 + b'0'])
}

fn put_four_digits(out: &mut Vec<u8>, number: u64) -> Result<(), AllocError>
    ensures { OnOk result (out.new.items ≡ out.old.items ++ spec.four_digits number) }
{
    put_digit(out, number / 1000)?;
    put_digit(out, number / 100)?;
    put_digit(out, number / 10)?;
    put_digit(out, number)
}

// What stands in front of a label.
fn put_size(out: &mut Vec<u8>, size: u64) -> Result<(), AllocError>
    ensures { OnOk result (out.new.items ≡ out.old.items ++ spec.size_text size) }
{
    put(out, b"[")?;
    put_four_digits(out, size)?;
    put(out, b"] ")
}

// A label without the blanks that fill it.
fn put_trimmed(out: &mut Vec<u8>, label: &[u8]) -> Result<(), AllocError>
    ensures { OnOk result (out.new.items ≡ out.old.items ++ spec.trimmed label.now) }
{
    let mut rest = label;
    while let [first, more @ ..] = rest {
        if has_blanks_alone(rest) {
            return Ok(());
        }
        out.push(*first)?;
        rest = more;
    }
    Ok(())
}

// The number behind the label of a locality, which has one digit.
fn put_number_behind(out: &mut Vec<u8>, kind: Kind) -> Result<(), AllocError>
    ensures { OnOk result (out.new.items ≡ out.old.items ++ spec.number_behind kind) }
{
    match kind {
        Kind::Locality(number) => {
            put(out, b" ")?;
            put_digit(out, number)
        }
        _ => Ok(()),
    }
}

fn row_line(alloc: Global, table: Table, row: &Row) -> Result<Text, AllocError>
    ensures { IfOk result (λ line. line ≡ spec.row_line table row.now) }
{
    let mut out = Vec::new(alloc);
    put_size(&mut out, row.width)?;
    put_trimmed(&mut out, &row.label)?;
    put_number_behind(&mut out, row.kind)?;
    put(&mut out, b" : ")?;
    put_value(alloc, &mut out, table, row)?;
    Text::from_vec(alloc, out)
}

fn heading_line(alloc: Global, name: &[u8]) -> Result<Text, AllocError>
    ensures { IfOk result (λ line. line ≡ spec.heading_line name.now) }
{
    let mut out = Vec::new(alloc);
    put_size(&mut out, 12)?;
    put(&mut out, name)?;
    put(&mut out, b" : ")?;
    put(&mut out, b"[Generic Address Structure]")?;
    Text::from_vec(alloc, out)
}

// ---- the lines

fn facp_heading(index: usize) -> Option<&'static [u8]>
    ensures heading { option_copied result ≡ spec.name_from 0 index facp_headings }
    ensures within { IfSome result (λ name. index < 11) }
{
    match index {
        0 => Some(b"Reset Register"),
        1 => Some(b"PM1A Event Block"),
        2 => Some(b"PM1B Event Block"),
        3 => Some(b"PM1A Control Block"),
        4 => Some(b"PM1B Control Block"),
        5 => Some(b"PM2 Control Block"),
        6 => Some(b"PM Timer Block"),
        7 => Some(b"GPE0 Block"),
        8 => Some(b"GPE1 Block"),
        9 => Some(b"Sleep Control Register"),
        10 => Some(b"Sleep Status Register"),
        _ => None,
    }
}

// The heading of the only generic address.
fn only_heading(index: usize, name: &'static [u8]) -> Option<&'static [u8]>
    ensures heading { option_copied result ≡ spec.name_from 0 index (name.now ∷ []) }
    ensures within { IfSome result (λ name. index < 11) }
{
    if index == 0 { Some(name) } else { None }
}

// The heading of this number, where the table has one.
#[tactic(auto, unfolding(data_layout::specs::Layout::layout_of))]
fn heading_of(table: Table, index: usize) -> Option<&'static [u8]>
    ensures heading { option_copied result ≡ spec.heading_of table index }
    ensures within { IfSome result (λ name. index < 11) }
{
    match table {
        Table::Facp => facp_heading(index),
        Table::Hpet => only_heading(index, b"Timer Block Register"),
        Table::Spcr => only_heading(index, b"Serial Port Register"),
        Table::Erst | Table::Einj => only_heading(index, b"Register Region"),
        Table::Pcct => only_heading(index, b"Doorbell Register"),
        Table::Hest => only_heading(index, b"Error Status Address"),
        _ => None,
    }
}

// The heading of this number, where a field begins a generic address that has one.
fn heading_before(table: Table, index: usize, row: &Row) -> Option<&'static [u8]>
    ensures heading { option_copied result ≡ spec.heading_before table index row.now }
    ensures within { IfSome result (λ name. index < 11) }
{
    if is_label(b"spaceid", &row.label) {
        heading_of(table, index)
    } else {
        None
    }
}

// What has been made of a template: its lines, and how many headings are among them.
#[derive(Drop)]
struct Writer {
    alloc: Global,
    table: Table,
    headings: usize,
    pieces: Pieces,
}

impl Writer {
    ghost use Rattle.std.specs.Prelude.{◌≡◌, ◌++◌, ◌∷◌, [], OnOk, List, length, ◌+◌};
    ghost use Rattle.data_layout.specs.declared.row.Row.{Row as SpecRow};
    ghost use Rattle.data_generic.specs.Templates.{piece_at};
    ghost use Rattle.data_generic.specs.Templates.{rows_behind, structure_behind};
    ghost use Rattle.data_generic.specs.Writing.{told, told_behind_heading};

    // The next line. No memory has so many that 32 bits do not hold their number.
    fn add(&mut self, source: Text, bytes: Text) -> Result<(), AllocError>
        ensures pieces { OnOk result (self.new.pieces ≡ self.old.pieces ++ piece_at (length self.old.pieces + 1) source bytes ∷ []) }
        ensures table { self.new.table ≡ self.old.table }
        ensures headings { self.new.headings ≡ self.old.headings }
    {
        let Ok(line) = u32::try_from(self.pieces.as_slice().len() + 1) else {
            return Err(AllocError);
        };
        self.pieces.push(Piece {
            place: Place {
                file: 0,
                line,
                column: 1,
            },
            source,
            bytes,
        })
    }

    // The heading before a field, where there is one.
    fn add_heading(&mut self, row: &Row) -> Result<(), AllocError>
        ensures pieces { OnOk result ((rows : List SpecRow) → told self.old (row.now ∷ rows) ≡ told_behind_heading self.new row.now rows) }
        ensures table { self.new.table ≡ self.old.table }
    {
        match heading_before(self.table, self.headings, row) {
            Some(name) => {
                let line = heading_line(self.alloc, name)?;
                self.add(line, Text::new(self.alloc))?;
                self.headings += 1;
                Ok(())
            }
            None => Ok(()),
        }
    }

    fn add_row(&mut self, row: &Row) -> Result<(), AllocError>
        ensures pieces { OnOk result ((rows : List SpecRow) → told self.old (row.now ∷ rows) ≡ told self.new rows) }
        ensures table { self.new.table ≡ self.old.table }
    {
        self.add_heading(row)?;
        let line = row_line(self.alloc, self.table, row)?;
        let bytes = row_bytes(self.alloc, self.table, row)?;
        self.add(line, bytes)
    }

    fn add_rows(&mut self, rows: &[Row]) -> Result<(), AllocError>
        ensures pieces { OnOk result ((more : List SpecRow) → told self.old (rows.now ++ more) ≡ told self.new more) }
        ensures table { self.new.table ≡ self.old.table }
    {
        for row in rows {
            self.add_row(row)?;
        }
        Ok(())
    }

    fn add_structure(&mut self) -> Result<(), AllocError>
        ensures { OnOk result ((more : List SpecRow) → told self.old (structure_behind self.old.table ++ more) ≡ told self.new more) }
    {
        let table = self.table;
        self.add_rows(type_rows(table))?;
        match structure_rows(table, type_of_table(table)) {
            Some(rows) => self.add_rows(rows),
            None => Ok(()),
        }
    }

    // One entry, one structure, or two localities.
    fn add_behind(&mut self) -> Result<(), AllocError>
        ensures { OnOk result ((more : List SpecRow) → told self.old (rows_behind self.old.table ++ more) ≡ told self.new more) }
    {
        match behind_of(self.table) {
            Behind::Nothing => Ok(()),
            Behind::Entries => self.add_rows(entry_rows(self.table)),
            Behind::Structures => self.add_structure(),
            Behind::Localities => self.add_rows(&[locality_row(2, 0), locality_row(2, 1)]),
        }
    }
}

fn unsealed(alloc: Global, table: Table) -> Result<Pieces, AllocError>
    ensures { IfOk result (λ pieces. pieces ≡ spec.unsealed_pieces table) }
{
    let mut writer = Writer {
        alloc,
        table,
        headings: 0,
        pieces: List::new(alloc),
    };
    writer.add_rows(header_rows())?;
    writer.add_rows(fixed_rows(table, revision_of(table)))?;
    writer.add_behind()?;
    Ok(writer.pieces)
}

/// The template of the table of a signature in upper case: a piece for each line, with the bytes of the table.
pub fn default_lines(alloc: Global, signature: &[u8]) -> Result<Pieces, AllocError>
    requires { is_some (table_of signature.now) ≡ true }
    // The answer is that of a function on tables.
    ensures exact { IfOk result (λ pieces. Some pieces ≡ default_of (table_of signature.now)) }

    // Its lines compile to its own bytes, and nothing is told of them.
    ensures compiles { IfOk result (λ pieces. ComesTo (compiled (lines_of pieces)) (joined pieces)) }

    // Its bytes read as the values that its lines write, and no other bytes do.
    ensures reads { IfOk result (λ pieces. ReadsAs (joined pieces) (written_values (lines_of pieces))) }
    ensures one { IfOk result (λ pieces. (bytes : List ℕ) → All (λ b. b < 256) bytes → ReadsAs bytes (written_values (lines_of pieces)) →
        bytes ≡ joined pieces) }
{
    match table_of(signature) {
        Some(table) => seal(alloc, unsealed(alloc, table)?),
        None => Ok(List::new(alloc)),
    }
}
