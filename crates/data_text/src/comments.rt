// Comments, which count as blanks.
ghost use Rattle.std.specs.Prelude.{◌≡◌, ◌++◌, IfOk, get_or, ℕ};
ghost use Rattle.data_text.specs.Comments as spec;
ghost use Rattle.data_text.specs.Comments.{uncommented_from, mode_after};

use std::alloc::{AllocError, Global};

/// What a byte of a line is a part of.
#[derive(Clone, Copy, PartialEq, Eq, Debug)]
pub enum Mode {
    /// Neither a quoted text nor a comment.
    Plain,
    /// A text in quotes.
    Quoted,
    /// A comment to the line's end.
    Line,
    /// The star that opens a block comment.
    Opening,
    /// A block comment.
    Block,
    /// The slash that closes a block comment.
    Closing,
}

/// What the next byte is a part of, behind `byte` that is a part of `mode` and has `after` behind it.
pub fn next_mode(mode: Mode, byte: u8, after: u8) -> Mode
    ensures { result ≡ spec.next_mode mode byte after }
{
    match mode {
        Mode::Plain => plain_next(byte, after),
        Mode::Quoted => {
            if byte == b'"' {
                Mode::Plain
            } else {
                Mode::Quoted
            }
        }
        Mode::Line => Mode::Line,
        Mode::Opening => Mode::Block,
        Mode::Block => {
            if byte == b'*' && after == b'/' {
                Mode::Closing
            } else {
                Mode::Block
            }
        }
        Mode::Closing => Mode::Plain,
    }
}

fn plain_next(byte: u8, after: u8) -> Mode
    ensures { result ≡ spec.plain_next byte after }
{
    if byte == b'"' {
        Mode::Quoted
    } else if byte == b'/' && after == b'/' {
        Mode::Line
    } else if byte == b'/' && after == b'*' {
        Mode::Opening
    } else {
        Mode::Plain
    }
}

fn is_comment(mode: Mode) -> bool
    ensures { result ≡ spec.is_comment mode }
{
    match mode {
        Mode::Plain | Mode::Quoted => false,
        Mode::Line | Mode::Opening | Mode::Block | Mode::Closing => true,
    }
}

// The byte, or a blank where it is a part of a comment.
fn shown(mode: Mode, next: Mode, byte: u8) -> u8
    ensures { result ≡ spec.shown mode next byte }
{
    if is_comment(mode) || is_comment(next) {
        b' '
    } else {
        byte
    }
}

/// The mode of the next line's first byte.
pub fn at_line_end(mode: Mode) -> Mode
    ensures { result ≡ spec.at_line_end mode }
{
    match mode {
        Mode::Block => Mode::Block,
        Mode::Plain | Mode::Quoted | Mode::Line | Mode::Opening | Mode::Closing => Mode::Plain,
    }
}

fn byte_at(line: &[u8], place: usize) -> u8
    ensures { result ≡ get_or line.now place 0 }
{
    match line.get(place) {
        Some(byte) => *byte,
        None => 0,
    }
}

/// The line with its comments as blanks, and the mode behind its last byte.
pub fn uncommented(alloc: Global, mode: Mode, line: &[u8]) -> Result<(Vec<u8>, Mode), AllocError>
    ensures text { IfOk result (λ out. out.0.items ≡ uncommented_from mode line.now) }
    ensures mode { IfOk result (λ out. out.1 ≡ mode_after mode line.now) }
{
    let mut out = Vec::new(alloc);
    let mut now = mode;
    for (index, byte) in line.iter().enumerate() {
        let next = next_mode(now, *byte, byte_at(line, index + 1));
        out.push(shown(now, next, *byte))?;
        now = next;
    }
    Ok((out, now))
}
