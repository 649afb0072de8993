//! The forms of the directives, and of a line that includes a file. Each is read off a text whose comments are
//! blanks.
ghost use Rattle.std.specs.Prelude.{◌≡◌, codes};
ghost use Rattle.std.specs.Option.{option_map, option_copied};
ghost use Rattle.std.specs.Str.{bytes_eq, is_utf8};
ghost use Rattle.asl_directives.specs.Forms as spec;

use crate::words::{behind_mark, is_identifier, past_blanks, split_at_mark, split_word, trimmed};
use asl_fragments::bytes::{is_blank, is_blank_text};
use std::str::from_utf8;

// What stands between this mark and the next of that one, where nothing but blanks stands around.
fn between_marks(text: &[u8], opening: u8, closing: u8) -> Option<&[u8]>
    ensures { option_copied result ≡ spec.between_marks opening closing text.now }
{
    let inner = behind_mark(text, opening)?;
    let (front, behind) = split_at_mark(inner, closing)?;
    if is_blank_text(behind) {
        Some(front)
    } else {
        None
    }
}

// `("TEXT")`, where nothing but blanks stands around each part.
fn in_brackets(text: &[u8]) -> Option<&[u8]>
    ensures { option_copied result ≡ spec.in_brackets text.now }
{
    let inner = behind_mark(text, b'(')?;
    let string = behind_mark(inner, b'"')?;
    let (front, behind) = split_at_mark(string, b'"')?;
    let rest = behind_mark(behind, b')')?;
    if is_blank_text(rest) {
        Some(front)
    } else {
        None
    }
}

/// The one identifier that a text is, blanks aside: `#undef NAME`, `#ifdef NAME`, `#ifndef NAME`.
pub fn name_alone(text: &[u8]) -> Option<&[u8]>
    ensures { option_copied result ≡ spec.name_alone text.now }
{
    let (word, behind) = split_word(past_blanks(text));
    if is_identifier(word) && is_blank_text(behind) {
        Some(word)
    } else {
        None
    }
}

fn is_ended(behind: &[u8]) -> bool
    ensures { result ≡ spec.is_ended behind.now }
{
    match behind {
        [] => true,
        [first, ..] => is_blank(*first),
    }
}

/// The name and the text of `#define NAME TEXT`.
pub fn definition_of(text: &[u8]) -> Option<(&[u8], &[u8])>
    ensures { option_map (λ d. (d.0.now, d.1.now)) result ≡ spec.definition_of text.now }
{
    let (word, behind) = split_word(past_blanks(text));
    if is_identifier(word) && is_ended(behind) {
        Some((word, trimmed(behind)))
    } else {
        None
    }
}

fn is_message(word: &[u8]) -> bool
    ensures { result ≡ bytes_eq word.now (codes "message") }
{
    word == b"message".as_slice()
}

/// The text of `#pragma message ("TEXT")`.
pub fn message_of(text: &[u8]) -> Option<&[u8]>
    ensures { option_copied result ≡ spec.message_of text.now }
{
    let (word, behind) = split_word(past_blanks(text));
    if is_message(word) {
        in_brackets(behind)
    } else {
        None
    }
}

/// A file that is asked for: its name as written, and whether that stands in quotes, or else in `<` and `>`.
#[derive(Clone, Copy)]
pub struct IncludedFile<'a> {
    pub quoted: bool,
    pub name: &'a str,
}

/// A name of a file, which is not empty and is UTF-8.
pub fn file_name(bytes: &[u8]) -> Option<&str>
    ensures { option_copied result ≡ spec.file_name_of bytes.now }
{
    if bytes.is_empty() {
        return None;
    }
    match from_utf8(bytes) {
        Ok(name) => Some(name),
        Err(_) => None,
    }
}

fn included_as(quoted: bool, bytes: &[u8]) -> Option<IncludedFile<'_>>
    ensures { option_map spec.included_by result ≡ spec.included_as quoted bytes.now }
{
    let name = file_name(bytes)?;
    Some(IncludedFile { quoted, name })
}

/// The file of `#include "f"` or `#include <f>`.
pub fn include_of(text: &[u8]) -> Option<IncludedFile<'_>>
    ensures { option_map spec.included_by result ≡ spec.include_of text.now }
{
    match between_marks(text, b'"', b'"') {
        Some(name) => included_as(true, name),
        None => included_as(false, between_marks(text, b'<', b'>')?),
    }
}

fn is_include(word: &[u8]) -> bool
    ensures { result ≡ bytes_eq (spec.lower word.now) (codes "include") }
{
    word.eq_ignore_ascii_case(b"include")
}

/// The name of `Include ("f")` as a line of its own, the word in letters of either case.
pub fn include_line(text: &[u8]) -> Option<&[u8]>
    ensures { option_copied result ≡ spec.include_line text.now }
{
    let (word, behind) = split_word(past_blanks(text));
    if is_include(word) {
        in_brackets(behind)
    } else {
        None
    }
}
