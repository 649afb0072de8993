//! Runs of bytes of a line, read at once.
ghost use Rattle.std.specs.Prelude.{◌≡◌, ◌+◌, ◌^◌, ◌<◌, ◌≤◌, ◌==◌, ◌&&◌, length, take, codes, IfOk, IfSome, slice_index, true, false};
ghost use Rattle.std.specs.List.{take_while, prefix_len};
ghost use Rattle.std.specs.Char.{is_digit as is_digit_by};
ghost use Rattle.asl_lexer.specs.Class.{class_of as class_by, shifts as shifts_by};
ghost use Rattle.asl_lexer.specs.Cut.{begins_sign_class, are_two as are_two_by};
ghost use Rattle.asl_lexer.specs.declared.class.Class.TheVariants as classes;
ghost use Rattle.asl_lexer.specs.declared.mode.Mode.TheVariants as modes;
ghost use Rattle.asl_lexer.specs.Runs as spec;
ghost use Rattle.asl_lexer.specs.Runs.{Passes};

use crate::class::{Class, class_of, doubles, shifts, takes_equals, value_of};
use crate::mode::Mode;
use crate::start::{add_number, add_plain_string, add_symbol, add_word, column_after};
use crate::token::Tokens;
use iasl_messages::place::Place;
use iasl_ports::list::{behind, front};
use std::alloc::{AllocError, Global};

fn is_whitespace(byte: u8) -> bool
    ensures { result ≡ spec.is_whitespace byte }
{
    matches!(class_of(byte), Class::Blank | Class::Break)
}

// Four spaces as a number.
const SPACES: u32 = 0x2020_2020;

// Whether the first four bytes are spaces.
fn are_spaces(bytes: &[u8]) -> bool
    ensures { result ≡ true → take 4 bytes.now ≡ codes "    " }
{
    match bytes.first_chunk::<4>() {
        Some(four) => u32::from_le_bytes(*four) == SPACES,
        None => false,
    }
}

fn few_whitespaces(bytes: &[u8]) -> usize
    ensures { result ≡ length (take_while spec.is_whitespace bytes.now) }
{
    bytes
        .iter()
        .take_while(|byte| is_whitespace(**byte))
        .count()
}

// How many blanks stand at the front of some bytes.
fn whitespace_width(bytes: &[u8]) -> usize
    ensures { result ≡ length (take_while spec.is_whitespace bytes.now) }
{
    let mut width = 0;
    while are_spaces(&bytes[width..]) {
        width += 4;
    }
    width + few_whitespaces(&bytes[width..])
}

// The same where the first byte is a blank, which mostly stands alone.
fn blank_width(bytes: &[u8]) -> usize
    requires some { 0 < length bytes.now }
    requires blank { spec.is_whitespace (slice_index bytes.now 0) ≡ true }
    ensures { result ≡ length (take_while spec.is_whitespace bytes.now) }
{
    if bytes.len() > 1 && !is_whitespace(bytes[1]) {
        return 1;
    }
    whitespace_width(bytes)
}

fn in_word(byte: u8) -> bool
    ensures { result ≡ spec.in_word byte }
{
    matches!(
        class_of(byte),
        Class::Letter | Class::Underscore | Class::Zero | Class::Digit
    )
}

fn word_width(bytes: &[u8]) -> usize
    ensures { result ≡ length (take_while spec.in_word bytes.now) }
{
    bytes.iter().take_while(|byte| in_word(**byte)).count()
}

fn in_string(byte: u8) -> bool
    ensures { result ≡ spec.in_string byte }
{
    let ends = matches!(
        class_of(byte),
        Class::Break | Class::Quote | Class::Backslash
    );
    !ends && 1 <= byte && byte <= 127
}

fn string_width(bytes: &[u8]) -> usize
    ensures { result ≡ length (take_while spec.in_string bytes.now) }
{
    bytes.iter().take_while(|byte| in_string(**byte)).count()
}

fn in_comment(byte: u8) -> bool
    ensures { result ≡ spec.in_comment byte }
{
    !matches!(class_of(byte), Class::Break)
}

fn comment_width(bytes: &[u8]) -> usize
    ensures { result ≡ length (take_while spec.in_comment bytes.now) }
{
    bytes.iter().take_while(|byte| in_comment(**byte)).count()
}

fn in_block(byte: u8) -> bool
    ensures { result ≡ spec.in_block byte }
{
    !matches!(class_of(byte), Class::Star)
}

fn block_width(bytes: &[u8]) -> usize
    ensures { result ≡ length (take_while spec.in_block bytes.now) }
{
    bytes.iter().take_while(|byte| in_block(**byte)).count()
}

fn adjoins_number(byte: u8) -> bool
    ensures { result ≡ spec.adjoins_number byte }
{
    matches!(class_of(byte), Class::Letter | Class::Zero | Class::Digit)
}

// Each character that may be the front of a longer symbol stands at its own place, and a dot at any other.
static FRONTS: [u8; 256] = *b"\
    ................................\
    .!...%&...*+.-..............<=>.\
    ................................\
    ............................|...\
    ................................\
    ................................\
    ................................\
    ................................";

fn is_alone(byte: u8) -> bool
    ensures { result ≡ spec.is_alone byte }
{
    FRONTS[byte as usize] == b'.'
}

fn is_dot(byte: u8) -> bool
    ensures { result ≡ spec.is_dot byte }
{
    matches!(class_of(byte), Class::Dot)
}

// The number that the digits at the front of some bytes write, where it is below 2^64, and how many they are.
#[inline(always)]
fn front_number(bytes: &[u8], base: u64) -> Option<(u64, usize)>
    ensures value { IfSome result (λ read. read.0 ≡ spec.number_of base 0 (take read.1 bytes.now)) }
    ensures width { IfSome result (λ read. read.1 ≡ prefix_len (λ b. is_digit_by b base) bytes.now) }
    ensures within { IfSome result (λ read. read.1 ≤ length bytes.now) }
    ensures fits { IfSome result (λ read. read.0 < 2 ^ 64) }
{
    let mut value = 0u64;
    for (width, byte) in bytes.iter().enumerate() {
        let digit = value_of(*byte);
        if digit >= base {
            return Some((value, width));
        }
        value = value.checked_mul(base)?.checked_add(digit)?;
    }
    Some((value, bytes.len()))
}

// Whether a word of this width goes on with no dot.
fn ends_word(bytes: &[u8], width: usize) -> bool
    ensures { result ≡ true → width < length bytes.now → spec.is_dot (slice_index bytes.now width) ≡ false }
{
    width >= bytes.len() || !is_dot(bytes[width])
}

// Whether behind a number of this width neither a letter nor a digit stands.
fn ends_number(bytes: &[u8], width: usize) -> bool
    ensures { result ≡ true → width < length bytes.now → spec.adjoins_number (slice_index bytes.now width) ≡ false }
{
    width >= bytes.len() || !adjoins_number(bytes[width])
}

// A word that is no path. Answers how many bytes were read.
fn word(alloc: Global, tokens: &mut Tokens, at: Place, bytes: &[u8]) -> Result<usize, AllocError>
    requires some { 0 < length bytes.now }
    requires begins { spec.begins_word (slice_index bytes.now 0) ≡ true }
    ensures within { IfOk result (λ width. width ≤ length bytes.now) }
    ensures passes { IfOk result (λ width. Passes at bytes.now width modes.Between tokens.old modes.Between tokens.new) }
{
    let width = word_width(bytes);
    if !ends_word(bytes, width) {
        return Ok(0);
    }
    add_word(alloc, tokens, at, front(bytes, width))?;
    Ok(width)
}

// A string without an escape.
fn string(alloc: Global, tokens: &mut Tokens, at: Place, bytes: &[u8]) -> Result<usize, AllocError>
    requires some { 0 < length bytes.now }
    requires opens { class_by (slice_index bytes.now 0) ≡ classes.Quote }
    ensures within { IfOk result (λ width. width ≤ length bytes.now) }
    ensures passes { IfOk result (λ width. Passes at bytes.now width modes.Between tokens.old modes.Between tokens.new) }
{
    let inner = behind(bytes, 1);
    let width = string_width(inner);
    if width >= inner.len() || inner[width] != b'"' {
        return Ok(0);
    }
    let end = column_after(at.column, width + 2);
    add_plain_string(alloc, tokens, at, end, front(inner, width))?;
    Ok(width + 2)
}

// A decimal number.
fn decimal(alloc: Global, tokens: &mut Tokens, at: Place, bytes: &[u8]) -> Result<usize, AllocError>
    requires some { 0 < length bytes.now }
    requires begins { class_by (slice_index bytes.now 0) ≡ classes.Digit }
    ensures within { IfOk result (λ width. width ≤ length bytes.now) }
    ensures passes { IfOk result (λ width. Passes at bytes.now width modes.Between tokens.old modes.Between tokens.new) }
{
    let Some((value, width)) = front_number(bytes, 10) else {
        return Ok(0);
    };
    if width == 0 || !ends_number(bytes, width) {
        return Ok(0);
    }
    add_number(alloc, tokens, at, value, column_after(at.column, width))?;
    Ok(width)
}

// A hexadecimal number.
fn hexadecimal(
    alloc: Global,
    tokens: &mut Tokens,
    at: Place,
    bytes: &[u8],
) -> Result<usize, AllocError>
    requires begins { class_by (slice_index bytes.now 0) ≡ classes.Zero }
    ensures within { IfOk result (λ width. width ≤ length bytes.now) }
    ensures passes { IfOk result (λ width. Passes at bytes.now width modes.Between tokens.old modes.Between tokens.new) }
{
    if bytes.len() < 2 || bytes[1] != b'x' {
        return Ok(0);
    }
    let digits = behind(bytes, 2);
    let Some((value, width)) = front_number(digits, 16) else {
        return Ok(0);
    };
    if width == 0 || !ends_number(digits, width) {
        return Ok(0);
    }
    let end = column_after(at.column, width + 2);
    add_number(alloc, tokens, at, value, end)?;
    Ok(width + 2)
}

// Whether two characters are a symbol, or the front of one.
fn are_two(first: u8, second: u8) -> bool
    ensures { result ≡ are_two_by first second }
{
    second == b'=' && takes_equals(first) || second == first && doubles(first)
}

// Whether two characters are a shift, which may go on.
fn are_shift(first: u8, second: u8) -> bool
    ensures { result ≡ (second == first && shifts_by first) }
{
    second == first && shifts(first)
}

// A shift that does not go on with `=`.
fn shift(alloc: Global, tokens: &mut Tokens, at: Place, bytes: &[u8]) -> Result<usize, AllocError>
    requires some { 1 < length bytes.now }
    requires begins { begins_sign_class (class_by (slice_index bytes.now 0)) ≡ true }
    requires two { are_two_by (slice_index bytes.now 0) (slice_index bytes.now 1) ≡ true }
    ensures within { IfOk result (λ width. width ≤ length bytes.now) }
    ensures passes { IfOk result (λ width. Passes at bytes.now width modes.Between tokens.old modes.Between tokens.new) }
{
    if bytes.len() < 3 || bytes[2] == b'=' {
        return Ok(0);
    }
    add_symbol(alloc, tokens, at, front(bytes, 2))?;
    Ok(2)
}

// A symbol of one character or of two that goes on with no other one, where the first may be the front of a longer one.
#[inline(never)]
fn joined(alloc: Global, tokens: &mut Tokens, at: Place, bytes: &[u8]) -> Result<usize, AllocError>
    requires some { 0 < length bytes.now }
    requires begins { begins_sign_class (class_by (slice_index bytes.now 0)) ≡ true }
    ensures within { IfOk result (λ width. width ≤ length bytes.now) }
    ensures passes { IfOk result (λ width. Passes at bytes.now width modes.Between tokens.old modes.Between tokens.new) }
{
    let first = bytes[0];
    if bytes.len() < 2 {
        return Ok(0);
    }
    let second = bytes[1];
    if !are_two(first, second) {
        add_symbol(alloc, tokens, at, &[first])?;
        return Ok(1);
    }
    if are_shift(first, second) {
        return shift(alloc, tokens, at, bytes);
    }
    add_symbol(alloc, tokens, at, &[first, second])?;
    Ok(2)
}

// A symbol of one character or of two that goes on with no other one.
fn symbol(alloc: Global, tokens: &mut Tokens, at: Place, bytes: &[u8]) -> Result<usize, AllocError>
    requires some { 0 < length bytes.now }
    requires begins { begins_sign_class (class_by (slice_index bytes.now 0)) ≡ true }
    ensures within { IfOk result (λ width. width ≤ length bytes.now) }
    ensures passes { IfOk result (λ width. Passes at bytes.now width modes.Between tokens.old modes.Between tokens.new) }
{
    let first = bytes[0];
    if !is_alone(first) {
        return joined(alloc, tokens, at, bytes);
    }
    add_symbol(alloc, tokens, at, &[first])?;
    Ok(1)
}

// Where no token is open: blanks, or a plain token.
fn between(alloc: Global, tokens: &mut Tokens, at: Place, bytes: &[u8]) -> Result<usize, AllocError>
    requires { 0 < length bytes.now }
    ensures within { IfOk result (λ width. width ≤ length bytes.now) }
    ensures passes { IfOk result (λ width. Passes at bytes.now width modes.Between tokens.old modes.Between tokens.new) }
{
    match class_of(bytes[0]) {
        Class::Blank => Ok(blank_width(bytes)),
        Class::Letter | Class::Underscore => word(alloc, tokens, at, bytes),
        Class::Zero => hexadecimal(alloc, tokens, at, bytes),
        Class::Digit => decimal(alloc, tokens, at, bytes),
        Class::Quote => string(alloc, tokens, at, bytes),
        Class::Star => symbol(alloc, tokens, at, bytes),
        Class::Equals => symbol(alloc, tokens, at, bytes),
        Class::Sign => symbol(alloc, tokens, at, bytes),
        _ => Ok(0),
    }
}

// Where no token is open: blanks and plain tokens, as far as they come one behind another.
#[inline(never)]
fn all_between(
    alloc: Global,
    tokens: &mut Tokens,
    at: Place,
    bytes: &[u8],
) -> Result<usize, AllocError>
    requires { at.column + length bytes.now ≤ 2 ^ 32 }
    ensures within { IfOk result (λ width. width ≤ length bytes.now) }
    ensures passes { IfOk result (λ width. Passes at bytes.now width modes.Between tokens.old modes.Between tokens.new) }
{
    let mut index = 0;
    while index < bytes.len() {
        let here = Place {
            file: at.file,
            line: at.line,
            column: at.column + index as u32,
        };
        let width = between(alloc, tokens, here, behind(bytes, index))?;
        if width == 0 {
            return Ok(index);
        }
        index += width;
    }
    Ok(index)
}

/// Reads over runs of these bytes of a line, the first of which has this place, as far as runs come one behind another.
/// Answers how many bytes they are: 0 where the first is to be read by itself.
pub fn runs(
    alloc: Global,
    tokens: &mut Tokens,
    mode: &Mode,
    at: Place,
    bytes: &[u8],
) -> Result<usize, AllocError>
    requires { at.column + length bytes.now ≤ 2 ^ 32 }
    ensures within { IfOk result (λ width. width ≤ length bytes.now) }
    ensures passes { IfOk result (λ width. Passes at bytes.now width mode.now tokens.old mode.now tokens.new) }
{
    match mode {
        Mode::Between => all_between(alloc, tokens, at, bytes),
        Mode::Line => Ok(comment_width(bytes)),
        Mode::Block { .. } => Ok(block_width(bytes)),
        _ => Ok(0),
    }
}
