// The values of data lines, one line after another.
ghost use Rattle.std.specs.Prelude.{◌≡◌, ◌≤◌, ◌<◌, ◌+◌, ◌++◌, IfOk, OnOk, Some, length, map};
ghost use Rattle.data_text.specs.Values.{number_in};
ghost use Rattle.data_tables.specs.Walk.{message_at};
ghost use Rattle.data_generic.specs.Walk as spec;
ghost use Rattle.data_generic.specs.declared.types.DataType.TheVariants as d;
ghost use Rattle.data_generic.specs.Values.{plain_value as spec_plain_value};
ghost use Rattle.data_generic.specs.Walk.{most_bytes, data_piece, data_walk};
ghost use Rattle.data_generic.specs.Words.{name_in};
ghost use Rattle.data_generic.specs.Shown.{shown};
ghost use Rattle.data_generic.specs.LabelTable.{label_for};
ghost use Rattle.data_generic.specs.Steps.{IsNumberFound, IsLineFound, outcome, so_far};

use crate::labels::{Label, Labels};
use crate::types::{DataType, type_of_line};
use crate::values::plain_bytes;
use crate::words::{Reference, is_reference, name_in, reference_in};
use data_tables::field::{has_room, little_bytes};
use data_text::field_line::FieldLine;
use data_text::values::{Number, number_in};
use iasl_messages::message::{Message, Messages};
use iasl_messages::number::{
    BAD_VALUE, LABEL_DECLARED_TWICE, LABEL_NOT_FOUND, TABLE_IS_TOO_LONG, UNKNOWN_DATA_TYPE,
    VALUE_IS_TOO_WIDE,
};
use iasl_messages::place::{Piece, Pieces};
use iasl_ports::list::{List, Text};
use std::alloc::{AllocError, Global};

/// The most bytes of a table: 16 MiB.
const MOST_BYTES: usize = 1 << 24;

/// A number, or a message.
#[derive(Drop)]
pub(crate) enum NumberFound {
    Is(u64),
    Fault(Message),
}

/// The bytes of a line, or a message.
#[derive(Drop)]
pub(crate) enum LineFound {
    Bytes(Text),
    Fault(Message),
}

// A message without a name at a line.
fn message_of(alloc: Global, line: &FieldLine, number: u16) -> Message
    ensures { result ≡ message_at number line.now.place }
{
    Message {
        number,
        place: line.place,
        name: Text::new(alloc),
    }
}

// ---- numbers

fn in_room(alloc: Global, width: u64, line: &FieldLine, number: u64) -> NumberFound
    ensures { IsNumberFound result (spec.in_room width line.now number) }
{
    if has_room(width, number) {
        NumberFound::Is(number)
    } else {
        NumberFound::Fault(message_of(alloc, line, VALUE_IS_TOO_WIDE))
    }
}

#[tactic(auto, using(data_tables::proofs::Rooms::no_room))]
fn written_number(alloc: Global, width: u64, line: &FieldLine) -> NumberFound
    ensures { IsNumberFound result (spec.number_by width line.now (number_in line.now.value)) }
{
    match number_in(line.value.as_slice()) {
        Number::Malformed => NumberFound::Fault(message_of(alloc, line, BAD_VALUE)),
        Number::Wide => NumberFound::Fault(message_of(alloc, line, VALUE_IS_TOO_WIDE)),
        Number::Is(number) => in_room(alloc, width, line, number),
    }
}

fn offset_number(alloc: Global, width: u64, line: &FieldLine, offset: Option<u64>) -> NumberFound
    ensures { IsNumberFound result (spec.offset_by width line.now offset) }
{
    match offset {
        Some(offset) => in_room(alloc, width, line, offset),
        None => NumberFound::Is(0),
    }
}

// A label of this name is not there. The name is told as it is written.
fn not_found(alloc: Global, line: &FieldLine, name: &[u8]) -> Result<NumberFound, AllocError>
    ensures { IfOk result (λ found. IsNumberFound found (spec.not_found line.now name.now)) }
{
    Ok(NumberFound::Fault(Message {
        number: LABEL_NOT_FOUND,
        place: line.place,
        name: Text::from_bytes(alloc, name)?,
    }))
}

fn one_number(
    alloc: Global,
    width: u64,
    line: &FieldLine,
    name: &[u8],
    label: Option<Label>,
) -> Result<NumberFound, AllocError>
    ensures { IfOk result (λ found. IsNumberFound found (spec.one_by width line.now name.now label)) }
{
    match label {
        Some(label) => Ok(offset_number(alloc, width, line, label.offset)),
        None => not_found(alloc, line, name),
    }
}

// One offset less another, which wraps at the size of the line.
#[tactic(auto, using(crate::proofs::Wraps::whole, data_tables::proofs::Rooms::one_bit))]
fn wrapped(width: u64, one: u64, other: u64) -> u64
    ensures { result ≡ spec.wrapped width one other }
{
    let difference = one.wrapping_sub(other);
    if width >= 8 {
        difference
    } else {
        difference % (1 << (8 * width as u32))
    }
}

fn difference(width: u64, one: Option<u64>, other: Option<u64>) -> NumberFound
    ensures { IsNumberFound result (spec.difference_by width one other) }
{
    match (one, other) {
        (Some(one), Some(other)) => NumberFound::Is(wrapped(width, one, other)),
        _ => NumberFound::Is(0),
    }
}

fn two_numbers(
    alloc: Global,
    width: u64,
    line: &FieldLine,
    first: (&[u8], Option<Label>),
    second: (&[u8], Option<Label>),
) -> Result<NumberFound, AllocError>
    ensures { IfOk result
        (λ found. IsNumberFound found (spec.first_by width line.now first.entry.0.now first.entry.1 second.entry.0.now second.entry.1)) }
{
    let Some(one) = first.1 else {
        return not_found(alloc, line, first.0);
    };
    let Some(other) = second.1 else {
        return not_found(alloc, line, second.0);
    };
    Ok(difference(width, one.offset, other.offset))
}

fn reference_number(
    alloc: Global,
    labels: &Labels,
    width: u64,
    line: &FieldLine,
    reference: Reference<'_>,
) -> Result<NumberFound, AllocError>
    ensures { IfOk result
        (λ found. IsNumberFound found (spec.reference_by (label_for labels.now) width line.now (Some (shown reference.entry)))) }
{
    match reference {
        Reference::Offset(name) => {
            one_number(alloc, width, line, name, labels.find(alloc, name)?)
        }
        Reference::Difference(name, other) => {
            let first = labels.find(alloc, name)?;
            let second = labels.find(alloc, other)?;
            two_numbers(alloc, width, line, (name, first), (other, second))
        }
    }
}

// The number of a line of so many bytes.
fn number_of(
    alloc: Global,
    labels: &Labels,
    width: u64,
    line: &FieldLine,
) -> Result<NumberFound, AllocError>
    ensures { IfOk result (λ found. IsNumberFound found (spec.number_at (label_for labels.now) width line.now)) }
{
    if !is_reference(line.value.as_slice()) {
        return Ok(written_number(alloc, width, line));
    }
    match reference_in(line.value.as_slice()) {
        Some(reference) => reference_number(alloc, labels, width, line, reference),
        None => Ok(NumberFound::Fault(message_of(alloc, line, BAD_VALUE))),
    }
}

// ---- lines

fn number_line(
    alloc: Global,
    labels: &Labels,
    width: u64,
    line: &FieldLine,
) -> Result<LineFound, AllocError>
    ensures { IfOk result (λ found. IsLineFound found (d.Number width) (spec.number_at (label_for labels.now) width line.now)) }
{
    match number_of(alloc, labels, width, line)? {
        NumberFound::Is(number) => {
            let bytes = little_bytes(alloc, width, number)?;
            Ok(LineFound::Bytes(Text::from_vec(alloc, bytes)?))
        }
        NumberFound::Fault(message) => Ok(LineFound::Fault(message)),
    }
}

// A label is the first of its name, where that is the one of this number.
#[tactic(auto, using(crate::proofs::Found::empty_found))]
fn named_label(alloc: Global, line: &FieldLine, index: usize, label: Label) -> LineFound
    ensures { IsLineFound result d.Label (spec.if_first line.now index (Some label)) }
{
    if label.index == index {
        LineFound::Bytes(Text::new(alloc))
    } else {
        LineFound::Fault(message_of(alloc, line, LABEL_DECLARED_TWICE))
    }
}

#[tactic(auto, using(crate::proofs::Found::empty_found))]
fn label_line(
    alloc: Global,
    labels: &Labels,
    index: usize,
    line: &FieldLine,
) -> Result<LineFound, AllocError>
    ensures { IfOk result
        (λ found. IsLineFound found d.Label (spec.label_by (label_for labels.now) index line.now (name_in line.now.value))) }
{
    let Some(name) = name_in(line.value.as_slice()) else {
        return Ok(LineFound::Fault(message_of(alloc, line, BAD_VALUE)));
    };
    match labels.find(alloc, name)? {
        Some(label) => Ok(named_label(alloc, line, index, label)),
        None => Ok(LineFound::Bytes(Text::new(alloc))),
    }
}

fn plain_line(alloc: Global, form: DataType, line: &FieldLine) -> Result<LineFound, AllocError>
    ensures { IfOk result (λ found. IsLineFound found form (spec.plain_by line.now (spec_plain_value form line.now.value))) }
{
    match plain_bytes(alloc, form, line.value.as_slice())? {
        Some(bytes) => Ok(LineFound::Bytes(bytes)),
        None => Ok(LineFound::Fault(message_of(alloc, line, BAD_VALUE))),
    }
}

fn line_of(
    alloc: Global,
    labels: &Labels,
    index: usize,
    line: &FieldLine,
    form: DataType,
) -> Result<LineFound, AllocError>
    ensures { IfOk result (λ found. IsLineFound found form (spec.value_by (label_for labels.now) index line.now form)) }
{
    match form {
        DataType::Number(width) => number_line(alloc, labels, width, line),
        DataType::Label => label_line(alloc, labels, index, line),
        DataType::Text | DataType::WideText | DataType::Buffer | DataType::Guid => {
            plain_line(alloc, form, line)
        }
    }
}

/// What has been made of data lines: pieces, those of the header before them, the bytes so far, and at most one fault.
#[derive(Drop)]
pub(crate) struct DataWalker {
    alloc: Global,
    pub pieces: Pieces,
    offset: usize,
    pub faults: Messages,
}

impl DataWalker {
    ghost use Rattle.std.specs.Prelude.{◌∷◌, [], IsTrue, false, List};
    ghost use Rattle.data_text.specs.declared.field_line.FieldLine.{FieldLine as SpecLine};
    ghost use Rattle.data_tables.specs.Compiling.{piece_at};
    ghost use Rattle.data_generic.specs.Walk.{most_bytes};
    ghost use Rattle.data_generic.specs.Steps.{so_far, told_with};

    fn new(alloc: Global, header: Pieces) -> DataWalker
        ensures pieces { result.pieces ≡ header }
        ensures offset { result.offset ≡ 36 }
        ensures faults { result.faults ≡ [] }
    {
        DataWalker {
            alloc,
            pieces: header,
            offset: 36,
            faults: List::new(alloc),
        }
    }

    fn halt(&mut self, message: Message) -> Result<(), AllocError>
        ensures faults { OnOk result (self.new.faults ≡ self.old.faults ++ message ∷ []) }
        ensures pieces { self.new.pieces ≡ self.old.pieces }
    {
        self.faults.push(message)
    }

    // Takes the bytes of a line, and says whether they have room.
    fn add(&mut self, line: &FieldLine, bytes: Text) -> Result<bool, AllocError>
        ensures taken { IfOk result (λ more. IsTrue more → (self.new.pieces ≡ self.old.pieces ++ piece_at line.now bytes ∷ [])
            × (self.new.faults ≡ self.old.faults) × (self.new.offset ≡ self.old.offset + length bytes)
            × (self.old.offset + length bytes ≤ most_bytes)) }
        ensures halted { IfOk result (λ more. more ≡ false → (self.new.pieces ≡ self.old.pieces)
            × (self.new.faults ≡ self.old.faults ++ message_at 6080 line.now.place ∷ []) × (most_bytes < self.old.offset + length bytes)) }
    {
        let count = bytes.as_bytes().len();
        let end = self.offset.saturating_add(count);
        if end > MOST_BYTES {
            self.halt(message_of(self.alloc, line, TABLE_IS_TOO_LONG))?;
            return Ok(false);
        }
        self.pieces.push(Piece {
            place: line.place,
            source: Text::new(self.alloc),
            bytes,
        })?;
        self.offset = end;
        Ok(true)
    }

    // Takes the next line, and says whether further lines are looked at.
    fn take(&mut self, labels: &Labels, index: usize, line: &FieldLine) -> Result<bool, AllocError>
        ensures taken { IfOk result (λ more. IsTrue more → (lines : List SpecLine) → told_with self.old (label_for labels.now) index
            (line.now ∷ lines) ≡ told_with self.new (label_for labels.now) (index + 1) lines) }
        ensures halted { IfOk result (λ more. more ≡ false → (lines : List SpecLine) → told_with self.old (label_for labels.now) index
            (line.now ∷ lines) ≡ so_far self.new) }
    {
        let Some(form) = type_of_line(line) else {
            self.halt(message_of(self.alloc, line, UNKNOWN_DATA_TYPE))?;
            return Ok(false);
        };
        match line_of(self.alloc, labels, index, line, form)? {
            LineFound::Fault(message) => {
                self.halt(message)?;
                Ok(false)
            }
            LineFound::Bytes(bytes) => self.add(line, bytes),
        }
    }

    fn take_all(&mut self, labels: &Labels, lines: &[FieldLine]) -> Result<(), AllocError>
        ensures { OnOk result (told_with self.old (label_for labels.now) 0 lines.now ≡ so_far self.new) }
    {
        for (index, line) in lines.iter().enumerate() {
            if !self.take(labels, index, line)? {
                return Ok(());
            }
        }
        Ok(())
    }
}

/// The pieces of a header, and what data lines come to behind it.
pub(crate) fn walk_data(
    alloc: Global,
    header: Pieces,
    labels: &Labels,
    lines: &[FieldLine],
) -> Result<DataWalker, AllocError>
    ensures { IfOk result
        (λ walker. so_far walker ≡ outcome (header ++ map data_piece (data_walk (label_for labels.now) 0 36 lines.now).fields)
        (data_walk (label_for labels.now) 0 36 lines.now).faults) }
{
    let mut walker = DataWalker::new(alloc, header);
    walker.take_all(labels, lines)?;
    Ok(walker)
}
