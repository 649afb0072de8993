//! The comments of a line.
ghost use Rattle.std.specs.Prelude.{◌≡◌, ◌++◌, ◌<◌, ◌≤◌, ℕ, Bool, false, List as AList, length, drop, IfOk, OnOk};
ghost use Rattle.std.specs.List.{flat_map, prefix_len};
ghost use Rattle.asl_fragments.specs.Fragments as spec;
ghost use Rattle.asl_fragments.specs.Fragments.{Piece};

use crate::fragment::{FragmentKind, first_fragment};
use std::alloc::{AllocError, Global};

// Whether neither a string nor a comment begins with a byte.
fn is_plain(byte: u8) -> bool
    ensures { result ≡ spec.is_plain byte }
{
    byte != b'"' && byte != b'/'
}

fn plain_length(text: &[u8]) -> usize
    ensures count { result ≡ prefix_len spec.is_plain text.now }
    ensures within { result ≤ length text.now }
{
    text.iter().take_while(|byte| is_plain(**byte)).count()
}

// How many bytes at the front of a text are looked at together, and whether they are a block comment that is left open:
// all before the next string or comment, or a fragment.
fn first_part(text: &[u8], in_comment: bool) -> (usize, bool)
    requires { 0 < length text.now }
    ensures open_ { (before : Bool) → spec.open_behind before (spec.fragments in_comment text.now) ≡ spec.open_behind result.1
        (spec.fragments false (drop result.0 text.now)) }
    ensures forward { 0 < result.0 }
    ensures within { result.0 ≤ length text.now }
{
    if !in_comment {
        let plain = plain_length(text);
        if plain > 0 {
            return (plain, false);
        }
    }
    let fragment = first_fragment(text, in_comment);
    (fragment.length, fragment.left_open)
}

/// Whether a block comment is open at the end of a line, which begins inside one or does not. `/*/` is not
/// closed.
#[tactic(auto, unfolding(crate::specs::Fragments::ends_in_comment))]
pub fn ends_in_comment(text: &[u8], in_comment: bool) -> bool
    ensures { result ≡ spec.ends_in_comment in_comment text.now }
{
    let mut rest = text;
    let mut inside = in_comment;
    let mut left_open = in_comment;
    while !rest.is_empty() {
        let (length, open_behind) = first_part(rest, inside);
        rest = rest.split_at(length).1;
        inside = false;
        left_open = open_behind;
    }
    left_open
}

fn add_blanks(out: &mut Vec<u8>, text: &[u8]) -> Result<(), AllocError>
    ensures { OnOk result (out.new.items ≡ out.old.items ++ spec.blanked_by FragmentKind.Comment text.now) }
{
    for _ in text {
        out.push(b' ')?;
    }
    Ok(())
}

fn add(out: &mut Vec<u8>, kind: FragmentKind, text: &[u8]) -> Result<(), AllocError>
    ensures { OnOk result (out.new.items ≡ out.old.items ++ spec.blanked_by kind text.now) }
{
    match kind {
        FragmentKind::Comment => add_blanks(out, text),
        _ => out.extend_from_slice(text),
    }
}

/// A line with a blank in place of each byte of its comments. Everything else stays as it is.
#[tactic(auto, unfolding(crate::specs::Fragments::without_comments))]
pub fn without_comments(alloc: Global, text: &[u8], in_comment: bool) -> Result<Vec<u8>, AllocError>
    ensures { IfOk result (λ out. out.items ≡ spec.without_comments in_comment text.now) }
{
    let mut out = Vec::new(alloc);
    let mut rest = text;
    let mut inside = in_comment;
    while !rest.is_empty() {
        let fragment = first_fragment(rest, inside);
        let (piece, behind) = rest.split_at(fragment.length);
        add(&mut out, fragment.kind, piece)?;
        rest = behind;
        inside = false;
    }
    Ok(out)
}

/// The fragments of a line, joined, are the line: none of its bytes is lost or comes twice. So a line without
/// its comments is as long as it was, and each byte stays in its column.
pub fn fragments_are_the_line()
    ensures joined { (in_comment : Bool) (text : AList ℕ)
        → flat_map (λ (piece : Piece). piece.text) (spec.fragments in_comment text) ≡ text }
    ensures long { (in_comment : Bool) (text : AList ℕ) → length (spec.without_comments in_comment text) ≡ length text }
{}
