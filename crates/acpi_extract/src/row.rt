// A line of bytes: blanks, an offset, a colon, and pairs of hexadecimal digits.
ghost use Rattle.std.specs.Prelude.{◌≡◌, ◌++◌, ◌^◌, ◌-◌, IfOk, IfSome, IsTrue, Some, None, MatchOption, cond, min, OnOk, ◌&&◌, nat_lt, ◌≤◌};
ghost use Rattle.std.specs.Prelude.{length};
ghost use Rattle.std.specs.Option.{option_map};
ghost use Rattle.hex_text.specs.Blanks.{is_blank};
ghost use Rattle.acpi_extract.specs.Rows.{pairs_of, row_of};
ghost use Rattle.acpi_extract.specs.Next.{IsNext, IsRowStart};

use hex_text::blanks::{is_blank, skip_blanks};
use hex_text::digits::{byte_of, capped_number, split_digits};
use std::alloc::AllocError;

// What stands at a place behind a colon: the end of the pairs, or a pair and what follows it, or neither.
enum Next<'a> {
    End,
    Pair(u8, &'a [u8]),
    Wrong,
}

fn is_end(first: u8, second: u8) -> bool
    ensures { result ≡ (is_blank first && is_blank second) }
{
    is_blank(first) && is_blank(second)
}

fn may_pair(room: usize, first: u8) -> bool
    ensures { result ≡ (is_blank first && nat_lt 0 room) }
{
    is_blank(first) && room > 0
}

#[tactic(auto, using(crate::proofs::Pairs::pairs_three, crate::proofs::Pairs::pairs_two, crate::proofs::Pairs::pairs_one))]
fn next_pair(room: usize, text: &[u8]) -> Next<'_>
    ensures { IsNext room text.now result }
{
    match text {
        [] => Next::End,
        [first, second, ..] if is_end(*first, *second) => Next::End,
        [first, high, low, rest @ ..] if may_pair(room, *first) => match byte_of(*high, *low) {
            Some(byte) => Next::Pair(byte, rest),
            None => Next::Wrong,
        },
        _ => Next::Wrong,
    }
}

// Adds the bytes of the pairs that stand behind a colon, and says whether they have their form.
pub(crate) fn add_pairs(bytes: &mut Vec<u8>, text: &[u8]) -> Result<bool, AllocError>
    ensures { IfOk result (λ formed. option_map (λ more. bytes.old.items ++ more) (pairs_of 16 text.now) ≡ cond formed
        (Some bytes.new.items) None) }
{
    let mut rest = text;
    let mut room: usize = 16;
    loop {
        match next_pair(room, rest) {
            Next::End => return Ok(true),
            Next::Wrong => return Ok(false),
            Next::Pair(byte, after) => {
                bytes.push(byte)?;
                room -= 1;
                rest = after;
            }
        }
    }
}

// The offset of a line, or the largest u128 where it is larger, and what stands behind its colon.
pub(crate) fn row_start(line: &[u8]) -> Option<(u128, &[u8])>
    ensures { MatchOption result (row_of line.now ≡ None) (λ start. IsRowStart line.now start.0 start.1.now) }
{
    let (digits, rest) = split_digits(skip_blanks(line));
    if digits.is_empty() {
        return None;
    }
    match rest {
        [b':', pairs @ ..] => Some((capped_number(digits), pairs)),
        _ => None,
    }
}
