//! The listing: the lines of the source, each with the bytes of the table that come from it.
ghost use Rattle.std.specs.Prelude.{◌≡◌, ◌+◌, ◌^◌, ◌<◌, ◌≤◌, ◌++◌, [], true, false, length, OnOk, IfOk, IfErr};
ghost use Rattle.std.specs.List.{flat_map};
ghost use Rattle.iasl_backends.specs.Table.{rows, table_bytes};
ghost use Rattle.iasl_backends.specs.Listing as spec;

use crate::backend::{Backend, Kind};
use crate::taken::Taken;
use crate::text::{put, put_pair};
use iasl_messages::place::Piece;
use iasl_ports::list::{behind, front};
use itoa::Buffer;
use std::alloc::{AllocError, Global};

/// The output that is the listing.
#[derive(Drop)]
pub struct Listing {
    taken: Taken,
    text: Vec<u8>,
    offset: usize,
    done: bool,
    ghost listed: { text.items ≡ spec.listed_pieces 0 taken },
    ghost end: { offset ≡ length (table_bytes taken) },
}

impl Listing {
    /// The output before its first piece.
    pub fn new(alloc: Global) -> Listing
        ensures pieces { ⟦<Listing as Backend>⟧.pieces result ≡ [] }
        ensures open { ⟦<Listing as Backend>⟧.finished result ≡ false }
    {
        Listing {
            taken: Taken::new(alloc),
            text: Vec::new(alloc),
            offset: 0,
            done: false,
        }
    }
}

fn put_byte(out: &mut Vec<u8>, byte: u8) -> Result<(), AllocError>
    ensures { OnOk result (out.new.items ≡ out.old.items ++ spec.listed_byte byte) }
{
    put(out, b" ")?;
    put_pair(out, byte)
}

fn put_bytes(out: &mut Vec<u8>, row: &[u8]) -> Result<(), AllocError>
    ensures { OnOk result (out.new.items ≡ out.old.items ++ flat_map spec.listed_byte row.now) }
{
    for byte in row {
        put_byte(out, *byte)?;
    }
    Ok(())
}

// The eight digits of an offset.
fn put_offset(out: &mut Vec<u8>, offset: usize) -> Result<(), AllocError>
    ensures { OnOk result (out.new.items ≡ out.old.items ++ spec.eight_digits offset) }
{
    put_pair(out, (offset / 16_777_216 % 256) as u8)?;
    put_pair(out, (offset / 65_536 % 256) as u8)?;
    put_pair(out, (offset / 256 % 256) as u8)?;
    put_pair(out, (offset % 256) as u8)
}

fn put_row(out: &mut Vec<u8>, offset: usize, row: &[u8]) -> Result<(), AllocError>
    ensures { OnOk result (out.new.items ≡ out.old.items ++ spec.listed_row offset row.now) }
{
    put_offset(out, offset)?;
    put(out, b" ")?;
    put_bytes(out, row)?;
    put(out, b"\n")
}

// The rows of bytes that stand at an offset.
fn put_rows(out: &mut Vec<u8>, offset: usize, bytes: &[u8]) -> Result<(), AllocError>
    requires { offset + length bytes.now < 2 ^ 64 }
    ensures { OnOk result (out.new.items ≡ out.old.items ++ spec.listed_rows offset (rows 16 bytes.now)) }
{
    let mut rest = bytes;
    let mut at = offset;
    while !rest.is_empty() {
        let row = front(rest, 16);
        put_row(out, at, row)?;
        at += row.len();
        rest = behind(rest, 16);
    }
    Ok(())
}

// A number right in six places.
fn put_number(out: &mut Vec<u8>, number: u32) -> Result<(), AllocError>
    ensures { OnOk result (out.new.items ≡ out.old.items ++ spec.right_in_six number) }
{
    let mut buffer = Buffer::new();
    let digits = buffer.format(number).as_bytes();
    put(out, behind(b"      ", digits.len()))?;
    put(out, digits)
}

/// The most bytes of a listing's lines of source: 1 GiB. Each piece stands under the text of its line, so the listing of a source with
/// lines of megabytes would be a thousand times as long as the source. Such a one is answered as want of memory.
const MOST_TEXT: usize = 1_073_741_824;

// Whether a listing of so many bytes has room for a line of so many.
fn has_room(text: usize, line: usize) -> bool {
    line <= MOST_TEXT && text <= MOST_TEXT - line
}

fn put_line(out: &mut Vec<u8>, piece: &Piece) -> Result<(), AllocError>
    ensures { OnOk result (out.new.items ≡ out.old.items ++ spec.source_line piece.now) }
{
    if !has_room(out.len(), piece.source.as_bytes().len()) {
        return Err(AllocError);
    }
    put_number(out, piece.place.line)?;
    put(out, b"  ")?;
    put(out, piece.source.as_bytes())?;
    put(out, b"\n")
}

fn put_piece(out: &mut Vec<u8>, offset: usize, piece: &Piece) -> Result<(), AllocError>
    requires { offset + length piece.now.bytes < 2 ^ 64 }
    ensures { OnOk result (out.new.items ≡ out.old.items ++ spec.listed_piece offset piece.now) }
{
    put_line(out, piece)?;
    put_rows(out, offset, piece.bytes.as_bytes())
}

// The offset behind so many bytes at an offset. There is no memory for a table whose size is no `usize`.
fn offset_behind(offset: usize, size: usize) -> Result<usize, AllocError>
    ensures end { IfOk result (λ end. end ≡ offset + size) }
    ensures full { IfErr result (λ _. 2 ^ 64 ≤ offset + size) }
{
    match offset.checked_add(size) {
        Some(end) => Ok(end),
        None => Err(AllocError),
    }
}

impl Backend for Listing {
    ghost use Rattle.iasl_backends.specs.declared.backend.Kind.TheVariants as kinds;

    ghost kind_of = { λ output. kinds.Listing };

    ghost pieces = { λ output. output.taken };

    ghost finished = { λ output. output.done };

    fn kind(&self) -> Kind {
        Kind::Listing
    }

    fn clear(&mut self) {
        self.done = false;
        self.taken.clear();
        self.text.clear();
        self.offset = 0;
    }

    // Without memory for its lines all pieces go.
    #[tactic(auto, using(crate::proofs::Steps::listing_push, crate::proofs::Steps::table_size_push))]
    fn piece(&mut self, piece: &Piece) -> Result<(), AllocError> {
        let end = offset_behind(self.offset, piece.bytes.as_bytes().len())?;
        if put_piece(&mut self.text, self.offset, piece).is_err()
            || self.taken.push(piece).is_err()
        {
            self.taken.clear();
            self.text.clear();
            self.offset = 0;
            return Err(AllocError);
        }
        self.offset = end;
        Ok(())
    }

    fn finish(&mut self) -> Result<(), AllocError> {
        self.done = true;
        Ok(())
    }

    fn text(&self) -> &[u8] {
        &self.text
    }
}
