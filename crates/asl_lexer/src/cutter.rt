//! Lines to tokens.
ghost use Rattle.std.specs.Prelude.{◌≡◌, ℕ, ◌++◌, ◌∷◌, ◌<◌, ◌≤◌, ◌^◌, [], List as AList, length, All, IfOk, OnOk, IfErr, Ok, Err};
ghost use Rattle.asl_lexer.specs.declared.token.Token.{Token};
ghost use Rattle.asl_lexer.specs.Scan as spec;
ghost use Rattle.asl_lexer.specs.Scan.{MarkedByte, Moves, Gives, Fails};
ghost use Rattle.asl_lexer.specs.Cut.{IsCut, HasFault, Explains};
ghost use Rattle.asl_lexer.specs.Fine.{IsFine};
ghost use Rattle.asl_lexer.specs.Within.{IsWithin};
ghost use Rattle.asl_lexer.specs.Runs.{AtBreak, marks_behind};
ghost use Rattle.asl_lexer.specs.Marks.{line_marks, break_mark, following, tokens_of, Leads, Answers};

use crate::mode::{Fault, LexerStop, Mode};
use crate::numbers::Numeral;
use crate::run::runs;
use crate::start::{add_name, add_number, add_symbol, begin, end_at, refuse};
use crate::strings::{Code, Front};
use crate::token::Tokens;
use crate::{names, numbers, strings, symbols};
use iasl_messages::message::{Message, Stage};
use iasl_messages::number::{BAD_CHARACTER, OPEN_COMMENT, OPEN_STRING};
use iasl_messages::place::{Line, Lines, Place};
use iasl_ports::list::{List, Text, behind};
use std::alloc::{AllocError, Global};
use std::mem::replace;

fn step(
    alloc: Global,
    tokens: &mut Tokens,
    mode: Mode,
    at: Place,
    byte: u8,
) -> Result<Mode, LexerStop>
    ensures { Moves result tokens.new (spec.step mode at byte tokens.old) }
{
    match mode {
        Mode::Between => begin(alloc, at, byte),
        Mode::Name { from, path, text } => names::name(alloc, tokens, from, path, text, at, byte),
        Mode::Dot {
            from,
            text,
            dot,
            ..
        } => names::dot(from, text, dot, byte),
        Mode::Root { from } => names::root(alloc, tokens, from, at, byte),
        Mode::Carets { before, last } => names::carets(alloc, tokens, before, last, at, byte),
        Mode::Zero { from } => numbers::zero(alloc, tokens, from, at, byte),
        Mode::Prefix { from, x } => numbers::prefix(from, x, at, byte),
        Mode::Number {
            from,
            radix,
            value,
            end,
        } => {
            let numeral = Numeral {
                from,
                radix,
                value,
                end,
            };
            numbers::number(alloc, tokens, numeral, at, byte)
        }
        Mode::Text { from, text } => strings::text(alloc, tokens, from, text, at, byte),
        Mode::Escape { from, text, slash } => strings::escape(from, text, slash, byte),
        Mode::Coded { from, text, slash } => strings::coded(from, text, slash, byte),
        Mode::Digits {
            from,
            text,
            slash,
            radix,
            value,
            left,
        } => {
            let front = Front { from, text, slash };
            let code = Code { radix, value, left };
            strings::escape_digit(alloc, tokens, front, code, at, byte)
        }
        Mode::Broken { from, fault } => strings::broken(from, fault, byte),
        Mode::BrokenEscape { from, fault } => strings::broken_escape(from, fault, byte),
        Mode::Slash { from } => symbols::slash(alloc, tokens, from, at, byte),
        Mode::Line => Ok(symbols::line(byte)),
        Mode::Block { from } => Ok(symbols::block(from, byte)),
        Mode::Star { from } => Ok(symbols::star(from, byte)),
        Mode::Sign { from, first } => symbols::sign(alloc, tokens, from, first, at, byte),
        Mode::Shift { from, first } => symbols::shift(alloc, tokens, from, first, at, byte),
    }
}

fn finish(alloc: Global, mut tokens: Tokens, mode: Mode) -> Result<Tokens, LexerStop>
    ensures { Gives result (spec.finish mode tokens) }
{
    match mode {
        Mode::Between | Mode::Line => {}
        Mode::Name { from, path, text } => add_name(alloc, &mut tokens, path, from, text)?,
        Mode::Dot { dot, .. } => return Err(refuse(BAD_CHARACTER, dot)),
        Mode::Root { from } => {
            let mut text = List::new(alloc);
            text.push(b'\\')?;
            add_name(alloc, &mut tokens, true, from, text)?;
        }
        Mode::Carets { before, last } => {
            names::add_carets(alloc, &mut tokens, before.as_slice())?;
            add_symbol(alloc, &mut tokens, last, b"^")?;
        }
        Mode::Zero { from } => add_number(alloc, &mut tokens, from, 0, end_at(from))?,
        Mode::Prefix { x, .. } => return Err(refuse(BAD_CHARACTER, x)),
        Mode::Number {
            from,
            value,
            end,
            ..
        } => add_number(alloc, &mut tokens, from, value, end)?,
        Mode::Text { from, .. }
        | Mode::Escape { from, .. }
        | Mode::Coded { from, .. }
        | Mode::Digits { from, .. }
        | Mode::Broken { from, .. }
        | Mode::BrokenEscape { from, .. } => return Err(refuse(OPEN_STRING, from)),
        Mode::Slash { from } => add_symbol(alloc, &mut tokens, from, b"/")?,
        Mode::Block { from } | Mode::Star { from } => return Err(refuse(OPEN_COMMENT, from)),
        Mode::Sign { from, first } => add_symbol(alloc, &mut tokens, from, &[first])?,
        Mode::Shift { from, first } => add_symbol(alloc, &mut tokens, from, &[first, first])?,
    }
    Ok(tokens)
}

// Reads over the runs of a line from this byte of it on. Answers the byte behind them, which is to be read by itself.
#[inline(always)]
fn over_runs(
    alloc: Global,
    tokens: &mut Tokens,
    mode: &Mode,
    line: &Line,
    from: usize,
) -> Result<usize, AllocError>
    requires { length line.now.text < 2 ^ 32 }
    ensures within { IfOk result (λ index. from ≤ index) }
    ensures passes { IfOk result (λ index. (rest : AList MarkedByte) → AtBreak rest → spec.scan
        (marks_behind line.now from ++ rest) mode.now tokens.old ≡ spec.scan (marks_behind line.now index ++ rest) mode.now tokens.new) }
{
    let bytes = line.text.as_bytes();
    if from >= bytes.len() {
        return Ok(from);
    }
    let at = Place {
        file: line.file,
        line: line.number,
        column: from as u32 + 1,
    };
    let width = runs(alloc, tokens, mode, at, behind(bytes, from))?;
    Ok(from + width)
}

// A line from this byte of it on.
#[inline(never)]
fn scan_behind(
    alloc: Global,
    tokens: &mut Tokens,
    mut mode: Mode,
    line: &Line,
    from: usize,
) -> Result<Mode, LexerStop>
    requires { length line.now.text < 2 ^ 32 }
    ensures { (rest : AList MarkedByte) → AtBreak rest →
        Leads result tokens.new rest (spec.scan (marks_behind line.now from ++ rest) mode tokens.old) }
{
    let bytes = line.text.as_bytes();
    let mut index = from;
    while index < bytes.len() {
        let at = Place {
            file: line.file,
            line: line.number,
            column: index as u32 + 1,
        };
        mode = step(alloc, tokens, mode, at, bytes[index])?;
        index = over_runs(alloc, tokens, &mode, line, index + 1)?;
    }
    Ok(mode)
}

// A line. The mode stays where it is, since mostly no token is open, before and behind.
#[inline(always)]
fn scan_line(
    alloc: Global,
    tokens: &mut Tokens,
    mode: &mut Mode,
    line: &Line,
) -> Result<(), LexerStop>
    requires { length line.now.text < 2 ^ 32 }
    ensures goes { OnOk result ((rest : AList MarkedByte) → AtBreak rest →
        spec.scan (line_marks line.now ++ rest) mode.old tokens.old ≡ spec.scan rest mode.new tokens.new) }
    ensures fails { IfErr result (λ stop. (rest : AList MarkedByte) → AtBreak rest →
        Fails stop (spec.scan (line_marks line.now ++ rest) mode.old tokens.old)) }
{
    let index = over_runs(alloc, tokens, mode, line, 0)?;
    if index >= line.text.as_bytes().len() {
        return Ok(());
    }
    *mode = scan_behind(alloc, tokens, replace(mode, Mode::Between), line, index)?;
    Ok(())
}

// The end of the line before, and a line.
#[inline(always)]
fn next_line(
    alloc: Global,
    tokens: &mut Tokens,
    mode: &mut Mode,
    line: &Line,
) -> Result<(), LexerStop>
    requires { length line.now.text < 2 ^ 32 }
    ensures goes { OnOk result ((rest : AList MarkedByte) → AtBreak rest →
        spec.scan (break_mark line.now ∷ line_marks line.now ++ rest) mode.old tokens.old ≡ spec.scan rest mode.new tokens.new) }
    ensures fails { IfErr result (λ stop. (rest : AList MarkedByte) → AtBreak rest →
        Fails stop (spec.scan (break_mark line.now ∷ line_marks line.now ++ rest) mode.old tokens.old)) }
{
    if let Mode::Between = mode {
        return scan_line(alloc, tokens, mode, line);
    }
    let at = Place {
        file: line.file,
        line: line.number,
        column: 0,
    };
    *mode = step(alloc, tokens, replace(mode, Mode::Between), at, b'\n')?;
    scan_line(alloc, tokens, mode, line)
}

fn next_lines(
    alloc: Global,
    tokens: &mut Tokens,
    mut mode: Mode,
    lines: &[Line],
) -> Result<Mode, LexerStop>
    requires { All (λ line. length line.text < 2 ^ 32) lines.now }
    ensures { Leads result tokens.new [] (spec.scan (following lines.now) mode tokens.old) }
{
    for line in lines {
        next_line(alloc, tokens, &mut mode, line)?;
    }
    Ok(mode)
}

// The most tokens that there is room for at once.
const ROOM: usize = 65536;

// No tokens yet, and room for as many as lines mostly have.
fn no_tokens(alloc: Global, lines: &[Line]) -> Result<Tokens, AllocError>
    ensures { IfOk result (λ tokens. tokens ≡ []) }
{
    let room = lines.len().saturating_mul(4).min(ROOM);
    Ok(List::from_vec(Vec::with_capacity(alloc, room)?))
}

fn all(alloc: Global, lines: &[Line]) -> Result<Tokens, LexerStop>
    requires { All (λ line. length line.text < 2 ^ 32) lines.now }
    ensures { Gives result (tokens_of lines.now) }
{
    let mut tokens = no_tokens(alloc, lines)?;
    let [first, others @ ..] = lines else {
        return Ok(tokens);
    };
    let mut mode = Mode::Between;
    scan_line(alloc, &mut tokens, &mut mode, first)?;
    let mode = next_lines(alloc, &mut tokens, mode, others)?;
    finish(alloc, tokens, mode)
}

fn refused(alloc: Global, fault: Fault) -> Stage
    ensures { Answers (Err result) (Err fault) }
{
    let mut messages = List::new(alloc);
    let message = Message {
        number: fault.number,
        place: fault.place,
        name: Text::new(alloc),
    };
    match messages.push(message) {
        Ok(()) => Stage::Refused(messages),
        Err(_) => Stage::Memory,
    }
}

// The tokens, or the refusal.
fn answer(alloc: Global, lines: &[Line]) -> Result<Tokens, Stage>
    requires { All (λ line. length line.text < 2 ^ 32) lines.now }
    ensures { Answers result (tokens_of lines.now) }
{
    match all(alloc, lines) {
        Ok(tokens) => Ok(tokens),
        Err(LexerStop::Memory) => Err(Stage::Memory),
        Err(LexerStop::Fault(fault)) => Err(refused(alloc, fault)),
    }
}

/// The tokens of the lines, or the one message of their first fault: 6010 for a character that begins no
/// token or stands where none may, 6011 for a string and 6012 for a comment that is not closed, 6013 for a
/// bad escape, 6014 for a number over 2^64 - 1.
pub fn tokens(alloc: Global, lines: &Lines) -> Result<Tokens, Stage>
    requires { All (λ line. length line.text < 2 ^ 32) lines.now.list }

    // The answer is that of a function on lists.
    ensures exact { Answers result (tokens_of lines.now.list) }

    // The lines are these tokens, and no others: where they are some, these are found, unless memory runs out.
    ensures found { IfOk result (λ tokens. IsCut lines.now.list tokens) }
    ensures only { (others : AList Token) → IsCut lines.now.list others → Answers result (Ok others) }

    // A number fits 64 bits, and a string holds bytes from 1 to 127.
    ensures fine { IfOk result (λ tokens. All IsFine tokens) }

    // The one message tells the first fault, and no other is it.
    ensures fault { IfErr result (λ stage. Explains stage lines.now.list) }
    ensures first { (fault : Fault) → HasFault lines.now.list fault → Answers result (Err fault) }

    // What is told stands in the files of the lines.
    ensures within { (files : ℕ) → All (λ line. line.file < files) lines.now.list → IsWithin files result }
{
    answer(alloc, lines.list.as_slice())
}
