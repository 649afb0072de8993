//! A text dump, as `acpidump` writes it, and its tables.
ghost use Rattle.std.specs.Prelude.{◌≡◌, ◌+◌, ◌^◌, ◌<◌, List, [], ◌∷◌, ◌≤◌, ℕ, length, map, Ok, Err, Some, None, IfOk, IfErr, OnOk, IsTrue};
ghost use Rattle.std.specs.declared.result.Result.{Result};
ghost use Rattle.iasl_messages.specs.Cut.{lines_of};
ghost use Rattle.acpi_extract.specs.Lines.{is_signature};
ghost use Rattle.acpi_extract.specs.Dump.{Dumped, Fault, dump_of, bytes_of, tells_length, told_length, Numbered, Block, Cut, table_of};
ghost use Rattle.acpi_extract.specs.Dump.{then_all, all_of, blocks_of, numbered_from};
ghost use Rattle.acpi_extract.specs.Table.{dumped, message_of, Refuses, Answers};
ghost use Rattle.acpi_extract.specs.Grammar.{IsDump, HasFault, Explains};
ghost use Rattle.acpi_extract.specs.Reading.{Halts};

use crate::line::signature_in;
use crate::row::{add_pairs, row_start};
use crate::signature::is_pointer;
use crate::table::{Table, Tables, Unfinished, begin_table};
use byteorder::{ByteOrder, LittleEndian};
use hex_text::blanks::has_blanks_alone;
use iasl_messages::cut::cut_line;
use iasl_messages::message::{Message, Messages, Stage};
use iasl_messages::number::{BAD_HEADER_LINE, BAD_PAIR, LENGTH_DISAGREES, OFFSET_OUT_OF_ORDER};
use iasl_messages::place::Place;
use iasl_ports::list::{List, Text};
use std::alloc::{AllocError, Global};

// Why the reading ends early: a message of this number at this line, or want of memory.
#[derive(Clone, Copy, Debug, PartialEq, Eq, Drop)]
enum Halt {
    At(u16, u32),
    Memory,
}

impl From<AllocError> for Halt {
    ghost use Rattle.acpi_extract.specs.declared.dump.Halt.TheVariants.{Memory};

    ghost from_gives = { λ _ e. e ≡ Memory };

    fn from(_: AllocError) -> Self {
        Halt::Memory
    }
}

// Adds the bytes of a line to those before it.
fn add_row(bytes: &mut Vec<u8>, number: u32, line: &[u8]) -> Result<(), Halt>
    ensures added { OnOk result ((rest : List Numbered)
        → bytes_of bytes.old.items ((number, line.now) ∷ rest) ≡ bytes_of bytes.new.items rest) }
    ensures refused { IfErr result (λ halt. (rest : List Numbered) → Halts halt (bytes_of bytes.old.items ((number, line.now) ∷ rest))) }
{
    let before = bytes.len();
    let Some((offset, pairs)) = row_start(line) else {
        return Err(Halt::At(BAD_PAIR, number));
    };
    if !add_pairs(bytes, pairs)? {
        return Err(Halt::At(BAD_PAIR, number));
    }
    if offset != before as u128 {
        return Err(Halt::At(OFFSET_OUT_OF_ORDER, number));
    }
    Ok(())
}

// Whether the length that a table tells is the number of its bytes. An RSDP tells none.
fn has_told_length(signature: &[u8], bytes: &[u8]) -> bool
    ensures { result ≡ tells_length signature.now bytes.now }
{
    is_pointer(signature) || (bytes.len() >= 8 && told_length(bytes) as usize == bytes.len())
}

fn told_length(bytes: &[u8]) -> u32
    requires { 8 ≤ length bytes.now }
    ensures { result ≡ told_length bytes.now }
{
    LittleEndian::read_u32(&bytes[4..])
}

// What has been read of a dump: the tables so far, the table whose lines are being read, if there is one,
// and the number of lines.
#[derive(Drop)]
struct Reader {
    alloc: Global,
    done: Tables,
    unfinished: Option<Unfinished>,
    number: u32,
}

impl Reader {
    ghost use Rattle.acpi_extract.specs.Reading.{after, answer_from, answer_with, closed_then};

    fn new(alloc: Global) -> Self
        ensures answer { (lines : List (List ℕ)) → answer_with result lines ≡ all_of (blocks_of (numbered_from 1 lines)) }
        ensures number { result.number ≡ 0 }
    {
        Reader {
            alloc,
            done: Tables::new(alloc),
            unfinished: None,
            number: 0,
        }
    }

    // Ends the table whose lines are being read, if there is one.
    fn close(&mut self) -> Result<(), Halt>
        ensures closed { OnOk result
            ((rest : Result (List Dumped) Fault) → after (map dumped self.old.done) (closed_then self.old.unfinished rest) ≡ after
            (map dumped self.new.done) rest) }
        ensures none { OnOk result (self.new.unfinished ≡ None) }
        ensures number { self.new.number ≡ self.old.number }
        ensures refused { IfErr result (λ halt. (rest : Result (List Dumped) Fault) → Halts halt (closed_then self.old.unfinished rest)) }
    {
        let Some(table) = self.unfinished.take() else {
            return Ok(());
        };
        if !has_told_length(table.signature.as_bytes(), &table.bytes) {
            return Err(Halt::At(LENGTH_DISAGREES, table.number));
        }
        self.done.push(Table {
            signature: table.signature,
            bytes: List::from_vec(table.bytes),
        })?;
        Ok(())
    }

    // Takes a header line with this signature.
    fn take_header(&mut self, signature: &[u8]) -> Result<(), Halt>
        requires { IsTrue (is_signature signature.now) }
        ensures taken { OnOk result
            ((cut : Cut) → after (map dumped self.old.done)
            (closed_then self.old.unfinished (then_all (table_of self.old.number signature.now (bytes_of [] cut.0)) (all_of cut.1))) ≡ after
            (map dumped self.new.done) (answer_from self.new.unfinished cut)) }
        ensures number { self.new.number ≡ self.old.number }
        ensures refused { IfErr result (λ halt. (rest : Result (List Dumped) Fault) → Halts halt (closed_then self.old.unfinished rest)) }
    {
        self.close()?;
        self.unfinished = Some(begin_table(self.alloc, self.number, signature)?);
        Ok(())
    }

    // Takes a line under a header.
    fn take_row(&mut self, line: &[u8]) -> Result<(), Halt>
        ensures taken { OnOk result
            ((rows : List Numbered) (blocks : List Block) → answer_from self.old.unfinished ((self.old.number, line.now) ∷ rows, blocks) ≡
            answer_from self.new.unfinished (rows, blocks)) }
        ensures done { self.new.done ≡ self.old.done }
        ensures number { self.new.number ≡ self.old.number }
        ensures refused { IfErr result (λ halt. (rows : List Numbered) (blocks : List Block) →
            Halts halt (answer_from self.old.unfinished ((self.old.number, line.now) ∷ rows, blocks))) }
    {
        let Some(mut table) = self.unfinished.take() else {
            return Err(Halt::At(BAD_HEADER_LINE, self.number));
        };
        add_row(&mut table.bytes, self.number, line)?;
        self.unfinished = Some(table);
        Ok(())
    }

    // Takes the next line.
    fn take_line(&mut self, line: &[u8]) -> Result<(), Halt>
        requires { self.old.number + 1 < 2 ^ 32 }
        ensures taken { OnOk result ((lines : List (List ℕ)) → answer_with self.old (line.now ∷ lines) ≡ answer_with self.new lines) }
        ensures number { OnOk result (self.new.number ≡ self.old.number + 1) }
        ensures refused { IfErr result (λ halt. (lines : List (List ℕ)) → Halts halt (answer_with self.old (line.now ∷ lines))) }
    {
        self.number += 1;
        if has_blanks_alone(line) {
            return self.close();
        }
        match signature_in(line) {
            Some(signature) => self.take_header(signature),
            None => self.take_row(line),
        }
    }

    // Ends the dump where no line comes.
    fn end(mut self) -> Result<Tables, Halt>
        ensures tables { IfOk result (λ tables. answer_with self [] ≡ Ok (map dumped tables)) }
        ensures refused { IfErr result (λ halt. Halts halt (answer_with self [])) }
    {
        match self.close() {
            Ok(()) => Ok(self.done),
            Err(halt) => Err(halt),
        }
    }

    // Takes the last line.
    fn end_with(mut self, line: &[u8]) -> Result<Tables, Halt>
        requires { self.number + 1 < 2 ^ 32 }
        ensures tables { IfOk result (λ tables. answer_with self (line.now ∷ []) ≡ Ok (map dumped tables)) }
        ensures refused { IfErr result (λ halt. Halts halt (answer_with self (line.now ∷ []))) }
    {
        match self.take_line(line) {
            Ok(()) => self.end(),
            Err(halt) => Err(halt),
        }
    }
}

// Reads all lines.
fn read(alloc: Global, text: &[u8]) -> Result<Tables, Halt>
    requires { length (lines_of text.now) < 2 ^ 32 }
    ensures tables { IfOk result (λ tables. dump_of text.now ≡ Ok (map dumped tables)) }
    ensures refused { IfErr result (λ halt. Halts halt (dump_of text.now)) }
{
    let mut reader = Reader::new(alloc);
    let mut rest = text;
    while let Some((line, after)) = cut_line(rest) {
        reader.take_line(line)?;
        rest = after;
    }
    reader.end_with(rest)
}

// The one message of this number, in column 1 of this line.
pub(crate) fn one_message(alloc: Global, number: u16, line: u32) -> Result<Messages, AllocError>
    ensures { IfOk result (λ messages. messages ≡ message_of (number, line) ∷ []) }
{
    let mut messages = Messages::new(alloc);
    messages.push(Message {
        number,
        place: Place {
            file: 0,
            line,
            column: 1,
        },
        name: Text::new(alloc),
    })?;
    Ok(messages)
}

// The tables, or the one message of the first fault.
fn answer(alloc: Global, text: &[u8]) -> Result<Tables, Stage>
    requires { length (lines_of text.now) < 2 ^ 32 }
    ensures { Answers result (dump_of text.now) }
{
    match read(alloc, text) {
        Ok(tables) => Ok(tables),
        Err(Halt::At(number, line)) => match one_message(alloc, number, line) {
            Ok(messages) => Err(Stage::Refused(messages)),
            Err(AllocError) => Err(Stage::Memory),
        },
        Err(Halt::Memory) => Err(Stage::Memory),
    }
}

/// The tables of a text dump, in order. A dump with a fault is refused with the one message of its first
/// fault, which stands in column 1 of its line: 6100, 6101, 6102 or 6103.
pub fn tables(alloc: Global, text: &[u8]) -> Result<Tables, Stage>
    requires { length (lines_of text.now) < 2 ^ 32 }
    ensures tables { IfOk result (λ tables. dump_of text.now ≡ Ok (map dumped tables)) }
    ensures refused { IfErr result (λ stage. Refuses stage (dump_of text.now)) }

    // The lines are a dump of these tables by the grammar, and of no others: where they are one of some, these are
    // found, unless memory runs out.
    ensures found { IfOk result (λ tables. IsDump (lines_of text.now) (map dumped tables)) }
    ensures only { (others : List Dumped) → IsDump (lines_of text.now) others → Answers result (Ok others) }

    // The one message tells the grammar's first fault, and no other is it.
    ensures fault { IfErr result (λ stage. Explains stage (lines_of text.now)) }
    ensures first { (fault : Fault) → HasFault 1 (lines_of text.now) fault → Answers result (Err fault) }
{
    answer(alloc, text)
}
