// The length and the checksum of a table, which stand in its second and its fourth field.
ghost use Rattle.std.specs.Prelude.{◌≡◌, ◌+◌, ◌%◌, ◌^◌, ◌<◌, ◌≤◌, length, sum, IfOk, IfSome, IfNone, OnOk};
ghost use Rattle.aml_code.specs.Header.{checksum_of};
ghost use Rattle.data_tables.specs.Compiling.{joined, put_at, with_length, with_checksum, sealed};

use crate::field::little_bytes;
use aml_code::checksum::byte_sum;
use iasl_messages::place::{Piece, Pieces};
use iasl_ports::list::{List, Text};
use std::alloc::{AllocError, Global};

/// The most bytes of a table: its length has 32 bits.
const MOST_BYTES: u64 = (1 << 32) - 1;

fn pieces_sum(pieces: &[Piece]) -> u8
    ensures { result ≡ sum (joined pieces.now) % 256 }
{
    let mut total: u8 = 0;
    for piece in pieces {
        total = total.wrapping_add(byte_sum(piece.bytes.as_bytes()));
    }
    total
}

// The byte that makes the sum of a table's bytes 0 modulo 256.
fn checksum(pieces: &[Piece]) -> u8
    ensures { result ≡ checksum_of (joined pieces.now) }
{
    0u8.wrapping_sub(pieces_sum(pieces))
}

// How many bytes pieces have, where 32 bits hold the number.
#[tactic(auto, using(crate::proofs::Sums::length_more, crate::proofs::Sums::first_bytes))]
fn total_bytes(pieces: &[Piece]) -> Option<u64>
    ensures total { IfSome result (λ total. total ≡ length (joined pieces.now)) }
    ensures within { IfSome result (λ total. total < 2 ^ 32) }
    ensures none { IfNone result (2 ^ 32 ≤ length (joined pieces.now)) }
{
    let mut total: u64 = 0;
    for piece in pieces {
        let more = piece.bytes.as_bytes().len() as u64;
        if more > MOST_BYTES - total {
            return None;
        }
        total += more;
    }
    Some(total)
}

fn put_at(place: usize, bytes: Text, pieces: &mut Vec<Piece>)
    ensures { pieces.new.items ≡ put_at place bytes pieces.old.items }
{
    if place < pieces.len() {
        let piece = &mut pieces[place];
        piece.bytes = bytes;
    }
}

// Writes the length. No memory has a table whose length has more than 32 bits.
fn put_length(alloc: Global, pieces: &mut Vec<Piece>) -> Result<(), AllocError>
    ensures ok { OnOk result (pieces.new.items ≡ with_length pieces.old.items) }
    ensures within { OnOk result (length (joined pieces.old.items) < 2 ^ 32) }
{
    let Some(total) = total_bytes(pieces) else {
        return Err(AllocError);
    };
    let bytes = Text::from_vec(alloc, little_bytes(alloc, 4, total)?)?;
    put_at(1, bytes, pieces);
    Ok(())
}

fn put_checksum(alloc: Global, pieces: &mut Vec<Piece>) -> Result<(), AllocError>
    ensures { OnOk result (pieces.new.items ≡ with_checksum pieces.old.items) }
{
    let sum = u64::from(checksum(pieces));
    let bytes = Text::from_vec(alloc, little_bytes(alloc, 1, sum)?)?;
    put_at(3, bytes, pieces);
    Ok(())
}

/// The pieces of a table with its length and its checksum.
pub fn seal(alloc: Global, pieces: Pieces) -> Result<Pieces, AllocError>
    ensures sealed { IfOk result (λ out. out ≡ sealed pieces) }
    ensures within { OnOk result (length (joined pieces) < 2 ^ 32) }
{
    let mut pieces = pieces.into_vec();
    put_length(alloc, &mut pieces)?;
    put_checksum(alloc, &mut pieces)?;
    Ok(List::from_vec(pieces))
}
