//! Paths as they are written (ACPI Specification 6.4, 19.2.2).
ghost use Rattle.std.specs.Prelude.{◌≡◌, ◌+◌, ◌<◌, ◌≤◌, ◌∷◌, [], length, position, IfOk, MatchOption};
ghost use Rattle.std.specs.List.{position_or_len, list_any};
ghost use Rattle.asl_words.specs.Paths;

use asl_tree::path::{NameSeg, Path, Segs};
use std::alloc::{AllocError, Global};

/// The first of some items, and the others.
pub fn parts<T>(items: &[T]) -> Option<(&T, &[T])>
    ensures { MatchOption result (items.now ≡ []) (λ p. items.now ≡ p.0.now ∷ p.1.now) }
{
    items.split_first()
}

fn is_path_byte(byte: u8) -> bool
    ensures { result ≡ Paths.is_path_byte byte }
{
    byte == b'\\' || (byte == b'^' || byte == b'.')
}

/// Whether a text is written as a path: with a prefix or several segments.
pub fn is_path(text: &[u8]) -> bool
    ensures { result ≡ Paths.is_path text.now }
{
    text.iter().any(|byte| is_path_byte(*byte))
}

fn is_lead(byte: u8) -> bool
    ensures { result ≡ Paths.is_lead byte }
{
    (65 <= byte && byte <= 90) || byte == b'_'
}

fn is_name_byte(byte: u8) -> bool
    ensures { result ≡ Paths.is_name_byte byte }
{
    is_lead(byte) || (48 <= byte && byte <= 57)
}

fn segment_with(a: u8, b: u8, c: u8, d: u8) -> Option<NameSeg>
    ensures { result ≡ Paths.segment_with a b c d }
{
    if is_lead(a) && (is_name_byte(b) && (is_name_byte(c) && is_name_byte(d))) {
        Some([a, b, c, d])
    } else {
        None
    }
}

// A segment of at most four characters, filled with `_`.
fn segment_of(text: &[u8]) -> Option<NameSeg>
    ensures { result ≡ Paths.segment_of text.now }
{
    match text {
        [a] => segment_with(*a, b'_', b'_', b'_'),
        [a, b] => segment_with(*a, *b, b'_', b'_'),
        [a, b, c] => segment_with(*a, *b, *c, b'_'),
        [a, b, c, d] => segment_with(*a, *b, *c, *d),
        _ => None,
    }
}

fn is_dot(byte: u8) -> bool
    ensures { result ≡ Paths.is_dot byte }
{
    byte == b'.'
}

fn first_dot(text: &[u8]) -> Option<usize>
    ensures { result ≡ position Paths.is_dot text.now }
{
    text.iter().position(|byte| is_dot(*byte))
}

fn one_segment(alloc: Global, text: &[u8]) -> Result<Option<Segs>, AllocError>
    ensures { IfOk result (λ segments. segments ≡ Paths.one_segment text.now) }
{
    let Some(segment) = segment_of(text) else {
        return Ok(None);
    };
    Ok(Some(Segs::one(segment)))
}

fn behind_segment(
    alloc: Global,
    segment: NameSeg,
    others: Option<Segs>,
) -> Result<Option<Segs>, AllocError>
    ensures { IfOk result (λ segments. segments ≡ Paths.behind_segment segment others) }
{
    match others {
        Some(others) => Ok(Some(Segs::with_first(alloc, segment, &others)?)),
        None => Ok(None),
    }
}

// The segments of a text, where there are at most so many.
#[tactic(auto, using(crate::proofs::PathLaws::segment_rules))]
fn segments_in(alloc: Global, most: u8, text: &[u8]) -> Result<Option<Segs>, AllocError>
    ensures { IfOk result (λ segments. segments ≡ Paths.segments_in most text.now) }
{
    if most == 0 {
        return Ok(None);
    }
    let Some(dot) = first_dot(text) else {
        return one_segment(alloc, text);
    };
    let Some(segment) = segment_of(text.split_at(dot).0) else {
        return Ok(None);
    };
    let others = segments_in(alloc, most - 1, &text[dot + 1..])?;
    behind_segment(alloc, segment, others)
}

// What stands behind a prefix: nothing, or at most 255 segments.
#[tactic(auto, using(crate::proofs::PathLaws::rest_rules))]
fn rest_segments(alloc: Global, text: &[u8]) -> Result<Option<Segs>, AllocError>
    ensures { IfOk result (λ segments. segments ≡ Paths.rest_segments text.now) }
{
    match parts(text) {
        Some(_) => segments_in(alloc, 255, text),
        None => Ok(Some(Segs::none())),
    }
}

fn path_with(root: bool, up: u32, segments: Option<Segs>) -> Option<Path>
    ensures { result ≡ Paths.path_with root up segments }
{
    match segments {
        Some(segs) => Some(Path { root, up, segs }),
        None => None,
    }
}

fn is_no_caret(byte: u8) -> bool
    ensures { result ≡ Paths.is_no_caret byte }
{
    byte != b'^'
}

fn first_other(text: &[u8]) -> Option<usize>
    ensures { result ≡ position Paths.is_no_caret text.now }
{
    text.iter().position(|byte| is_no_caret(*byte))
}

// How many `^` stand at the front.
#[tactic(auto, using(crate::proofs::PathLaws::caret_rules))]
fn carets(text: &[u8]) -> usize
    ensures count { result ≡ Paths.carets text.now }
    ensures within { result ≤ length text.now }
{
    match first_other(text) {
        Some(place) => place,
        None => text.len(),
    }
}

fn relative_path(alloc: Global, text: &[u8]) -> Result<Option<Path>, AllocError>
    ensures { IfOk result (λ path. path ≡ Paths.relative_path text.now) }
{
    let up = carets(text);
    if up < 4_294_967_296 {
        let segments = rest_segments(alloc, &text[up..])?;
        Ok(path_with(false, up as u32, segments))
    } else {
        Ok(None)
    }
}

/// The path of a text: from the root, from so many scopes up, or from where it stands. There is none where a segment
/// has more than four characters or is no name, where there are more than 255, or where nothing stands.
pub fn path_of(alloc: Global, text: &[u8]) -> Result<Option<Path>, AllocError>
    ensures { IfOk result (λ path. path ≡ Paths.path_of text.now) }
{
    let Some((first, rest)) = parts(text) else {
        return Ok(None);
    };
    if *first == b'\\' {
        let segments = rest_segments(alloc, rest)?;
        Ok(path_with(true, 0, segments))
    } else {
        Ok(relative_path(alloc, text)?)
    }
}
