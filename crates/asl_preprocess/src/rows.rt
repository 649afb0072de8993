//! The rows of a file: its lines, where a directive that goes on in further lines is one row with them.
ghost use Rattle.std.specs.Prelude.{◌≡◌, ◌∷◌, ◌++◌, ◌+◌, ◌≤◌, ◌<◌, ◌^◌, ◌==◌, [], ℕ, length, take, position, Some, false, All, IfOk};
ghost use Rattle.std.specs.Prelude.{IfSome, IfNone, OnSome, MatchOption};
ghost use Rattle.std.specs.Option.{option_copied};
ghost use Rattle.iasl_ports.specs.Fetched.{most_bytes};
ghost use Rattle.iasl_messages.specs.Cut.{without_cr as without_cr_of};
ghost use Rattle.asl_fragments.specs.Fragments.{ends_in_comment as ends_in_comment_of};
ghost use Rattle.asl_preprocess.specs.Rows as spec;
ghost use Rattle.asl_preprocess.specs.OwnName.{LacksOwnName};
ghost use Rattle.asl_preprocess.specs.Cuts.{IsClosed, IsPlainBelow, AsksNothing, IsFront, IsEnd};

use crate::line_text::{LineText, behind_blanks};
use crate::work::OWN_NAME;
use asl_fragments::ends_in_comment;
use iasl_ports::shared::SharedBytes;
use memchr::{memchr, memchr3, memmem};
use std::alloc::{AllocError, Global};

/// A row, with the number of its first line: a directive; or any other line, which may begin inside a block comment.
#[derive(Drop)]
pub(crate) enum Row<'a> {
    Directive {
        line: u32,
        text: Vec<u8>,
    },
    Ordinary {
        line: u32,
        in_comment: bool,
        text: LineText<'a>,
    },
}

// A line without the CR at its end, if it has one.
fn without_cr(line: &[u8]) -> &[u8]
    ensures { result.now ≡ without_cr_of line.now }
{
    match line.strip_suffix(b"\r") {
        Some(front) => front,
        None => line,
    }
}

// A text that is not empty, cut at this place, where its first LF stands.
fn cut_at(text: &[u8], place: usize) -> (&[u8], &[u8])
    requires lf { position (λ c. c == 10) text.now ≡ Some place }
    requires within { place < length text.now }
    ensures cut { spec.file_lines text.now ≡ result.0.now ∷ spec.file_lines result.1.now }
    ensures line { result.0.now ≡ without_cr_of (take place text.now) }
    ensures front { IsFront result.0.now text.now }
    ensures end { IsEnd result.1.now text.now }
{
    let line = text.split_at(place).0;
    let rest = text.split_at(place + 1).1;
    (without_cr(line), rest)
}

// The first line of a text that is not empty, and what stands behind it.
#[tactic(auto, using(crate::proofs::FileLines::lines_last))]
fn any_line(text: &[u8]) -> (&[u8], &[u8])
    requires { 0 < length text.now }
    ensures cut { spec.file_lines text.now ≡ result.0.now ∷ spec.file_lines result.1.now }
    ensures front { IsFront result.0.now text.now }
    ensures end { IsEnd result.1.now text.now }
{
    match memchr(b'\n', text) {
        Some(place) => cut_at(text, place),
        None => text.split_at(text.len()),
    }
}

// The place of the first LF of a text, where neither a `"` nor a `/` stands before it.
fn plain_end(text: &[u8]) -> Option<usize>
    ensures lf { IfSome result (λ place. position (λ c. c == 10) text.now ≡ Some place) }
    ensures within { IfSome result (λ place. place < length text.now) }
    ensures plain { IfSome result (λ place. IsPlainBelow place text.now) }
{
    let place = memchr3(b'\n', b'"', b'/', text)?;
    if text[place] == b'\n' {
        Some(place)
    } else {
        None
    }
}

// The first line of a file, what stands behind it, and whether the line is plain: it has neither a `"` nor a `/`. None
// where there is no line.
fn first_line(text: &[u8]) -> Option<(&[u8], &[u8], bool)>
    ensures line { MatchOption result (spec.file_lines text.now ≡ [])
        (λ cut. spec.file_lines text.now ≡ cut.0.now ∷ spec.file_lines cut.1.now) }
    ensures front { IfSome result (λ cut. IsFront cut.0.now text.now) }
    ensures end { IfSome result (λ cut. IsEnd cut.1.now text.now) }
    ensures closed { IfSome result (λ cut. IsClosed cut.2 cut.0.now) }
    ensures asks_nothing { IfSome result (λ cut. AsksNothing cut.2 cut.0.now) }
{
    if text.is_empty() {
        return None;
    }
    match plain_end(text) {
        Some(place) => {
            let (line, rest) = cut_at(text, place);
            Some((line, rest, true))
        }
        None => {
            let (line, rest) = any_line(text);
            Some((line, rest, false))
        }
    }
}

// Whether a line that does not begin inside a block comment is a directive.
fn begins_directive(in_comment: bool, line: &[u8]) -> bool
    ensures { result ≡ spec.begins_directive in_comment line.now }
{
    !in_comment && matches!(behind_blanks(line), [b'#', ..])
}

// Whether a block comment is open behind a line.
fn is_open_behind(in_comment: bool, line: &[u8], plain: bool) -> bool
    requires { IsClosed plain line.now }
    ensures { result ≡ ends_in_comment_of in_comment line.now }
{
    if plain && !in_comment {
        false
    } else {
        ends_in_comment(line, in_comment)
    }
}

// A text without the `\` at its end; none where it does not end so.
fn without_backslash(text: &[u8]) -> Option<&[u8]>
    ensures { option_copied result ≡ spec.continued text.now }
{
    text.strip_suffix(b"\\")
}

// Whether a file may have directives: it has a `#`, and they are enabled.
fn may_direct(bytes: &[u8], enabled: bool) -> bool
    ensures { spec.rows_of result bytes.now ≡ spec.rows_of enabled bytes.now }
{
    enabled && memchr(b'#', bytes).is_some()
}

// Whether `__IASL__` may stand in a line of a file.
fn names_own(bytes: &[u8]) -> bool
    ensures { result ≡ false → All LacksOwnName (spec.file_lines bytes.now) }
{
    memmem::find(bytes, &OWN_NAME).is_some()
}

/// A file's bytes and what is left of them to be read, whether directives are looked for, and whether `__IASL__` may stand in it.
#[derive(Drop)]
pub(crate) struct Rows<'a> {
    file: &'a SharedBytes,
    rest: &'a [u8],
    number: u32,
    in_comment: bool,
    enabled: bool,
    names_own: bool,
    ghost end: { IsEnd rest.now file.now },
    ghost lack: { names_own ≡ false → All LacksOwnName (spec.file_lines rest.now) },
}

impl<'a> Rows<'a> {
    ghost use Rattle.asl_preprocess.specs.RowsByCode.{rows_left, rows_behind, lines_left, row_by, joined_rows};
    ghost use Rattle.asl_preprocess.specs.Rows.{Directive};

    /// All rows of a file.
    #[tactic(auto, using(crate::proofs::FileLines::count_file_lines))]
    pub(crate) fn new(file: &'a SharedBytes, enabled: bool) -> Self
        requires { length file.now ≤ most_bytes }
        ensures rows { rows_left result ≡ spec.rows_of enabled file.now }
        ensures room { result.number + lines_left result < 2 ^ 32 }
    {
        let bytes = file.as_bytes();
        Rows {
            file,
            rest: bytes,
            number: 0,
            in_comment: false,
            enabled: may_direct(bytes, enabled),
            names_own: names_own(bytes),
        }
    }

    // The next line, and whether it is plain.
    fn next_line(&mut self) -> Option<(&'a [u8], bool)>
        requires { self.old.number + lines_left self.old < 2 ^ 32 }
        ensures line { MatchOption result (spec.file_lines self.old.rest.now ≡ [])
            (λ line. spec.file_lines self.old.rest.now ≡ line.0.now ∷ spec.file_lines self.new.rest.now) }
        ensures front { IfSome result (λ line. IsFront line.0.now self.old.rest.now) }
        ensures closed { IfSome result (λ line. IsClosed line.1 line.0.now) }
        ensures asks_nothing { IfSome result (λ line. AsksNothing line.1 line.0.now) }
        ensures lacks { IfSome result (λ line. self.new.names_own ≡ false → LacksOwnName line.0.now) }
        ensures none { IfNone result (self.new ≡ self.old) }
        ensures number { OnSome result (self.new.number ≡ self.old.number + 1) }
        ensures in_comment { self.new.in_comment ≡ self.old.in_comment }
        ensures enabled { self.new.enabled ≡ self.old.enabled }
        ensures room { self.new.number + lines_left self.new ≡ self.old.number + lines_left self.old }
    {
        let (line, rest, plain) = first_line(self.rest)?;
        self.rest = rest;
        self.number += 1;
        Some((line, plain))
    }

    // The text of a directive that begins with this line, joined with the lines in which it goes on.
    fn join(&mut self, alloc: Global, line: &[u8]) -> Result<Vec<u8>, AllocError>
        requires { self.old.number + lines_left self.old < 2 ^ 32 }
        ensures joined { IfOk result (λ text. (start : ℕ) → joined_rows self.old start line.now ≡ Directive start text.items ∷ rows_behind
            self.new) }
        ensures room { self.new.number + lines_left self.new ≡ self.old.number + lines_left self.old }
        ensures in_comment { self.new.in_comment ≡ self.old.in_comment }
        ensures enabled { self.new.enabled ≡ self.old.enabled }
    {
        let mut text = line.to_vec(alloc)?;
        while let Some(front) = without_backslash(&text) {
            let len = front.len();
            text.truncate(len);
            match self.next_line() {
                Some((next, _)) => text.extend_from_slice(next)?,
                None => break,
            }
        }
        Ok(text)
    }

    /// The next row.
    pub(crate) fn next(&mut self, alloc: Global) -> Result<Option<Row<'a>>, AllocError>
        requires { self.old.number + lines_left self.old < 2 ^ 32 }
        ensures row { IfOk result
            (λ row. MatchOption row (rows_left self.old ≡ []) (λ row. rows_left self.old ≡ row_by row ∷ rows_left self.new)) }
        ensures room { self.new.number + lines_left self.new ≡ self.old.number + lines_left self.old }
    {
        let file = self.file;
        let start = file.as_bytes().len() - self.rest.len();
        let Some((whole, plain)) = self.next_line() else {
            return Ok(None);
        };
        let line = self.number;
        let in_comment = self.in_comment;
        if self.enabled && begins_directive(in_comment, whole) {
            self.in_comment = false;
            let text = self.join(alloc, whole)?;
            return Ok(Some(Row::Directive { line, text }));
        }
        self.in_comment = is_open_behind(in_comment, whole, plain);
        Ok(Some(Row::Ordinary {
            line,
            in_comment,
            text: LineText {
                whole,
                file,
                start,
                plain,
                names_own: self.names_own,
            },
        }))
    }
}
