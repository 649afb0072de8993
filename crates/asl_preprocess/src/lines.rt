//! What becomes of a line that is no directive.
ghost use Rattle.std.specs.Prelude.{◌≡◌, ◌+◌, None, false, true};
ghost use Rattle.asl_preprocess.specs.State.{State, at};
ghost use Rattle.asl_preprocess.specs.Lines as spec;
ghost use Rattle.asl_fragments.specs.Fragments.{without_comments as without_comments_of};
ghost use Rattle.asl_directives.specs.Forms.{file_name_of, include_line as include_line_of};
ghost use Rattle.asl_directives.specs.Words.{blanks_before as blanks_before_of};
ghost use Rattle.asl_preprocess.specs.Told.{Shows, Does, IncludesName, AsksByLine};

use crate::directives::{Wanted, column_behind};
use crate::line_text::LineText;
use crate::stop::{ReadingStop, refusal};
use crate::work::Work;
use asl_directives::branches::Branches;
use asl_directives::forms::{file_name, include_line};
use asl_directives::words::{blanks_before, past_blanks};
use asl_fragments::{ends_in_comment, without_comments};
use iasl_messages::number::BAD_DIRECTIVE;
use iasl_messages::place::Place;
use iasl_ports::list::Text;
use std::alloc::{AllocError, Global};

/// A line that is no directive: its file, its number there, whether it begins inside a block comment, and its text.
#[derive(Clone, Copy)]
pub(crate) struct OrdinaryLine<'a> {
    pub(crate) file: u32,
    pub(crate) number: u32,
    pub(crate) in_comment: bool,
    pub(crate) text: LineText<'a>,
}

// The file that a line of its own `Include ("f")` asks for.
fn wanted(alloc: Global, place: Place, name: &[u8]) -> Result<Wanted, ReadingStop>
    ensures { IncludesName result place (file_name_of name.now) }
{
    match file_name(name) {
        Some(name) => Ok(Wanted {
            quoted: true,
            name: Text::from_bytes(alloc, name.as_bytes())?,
            place,
        }),
        None => Err(refusal(alloc, BAD_DIRECTIVE, place, b"")),
    }
}

// Whether the first byte behind blanks may begin `Include`, or a comment before it.
fn may_include(text: &[u8]) -> bool
    ensures { result ≡ spec.may_include text.now }
{
    match past_blanks(text) {
        [first, ..] => *first == b'/' || first.to_ascii_lowercase() == b'i',
        [] => false,
    }
}

// Whether a line may be an `Include ("f")` of its own.
fn may_ask(in_comment: bool, text: &LineText<'_>) -> bool
    ensures no { result ≡ false → spec.asked_by_line in_comment text.now.whole.now ≡ None }
    ensures yes { result ≡ true → spec.asked_by_line in_comment text.now.whole.now ≡ include_line_of
        (without_comments_of false text.now.whole.now) }
{
    if text.plain || !may_include(text.whole) {
        return false;
    }
    !in_comment && !ends_in_comment(text.whole, in_comment)
}

// What a line asks for whose comments are blanks.
fn asked_in(
    alloc: Global,
    line: &OrdinaryLine<'_>,
    blanked: &[u8],
) -> Result<Option<Wanted>, ReadingStop>
    ensures { AsksByLine result (at line.now.file line.now.number (blanks_before_of blanked.now + 1)) (include_line_of blanked.now) }
{
    let Some(name) = include_line(blanked) else {
        return Ok(None);
    };
    let Ok(column) = column_behind(blanks_before(blanked)) else {
        return Err(ReadingStop::Memory);
    };
    let place = Place {
        file: line.file,
        line: line.number,
        column,
    };
    match wanted(alloc, place, name) {
        Ok(wanted) => Ok(Some(wanted)),
        Err(stop) => Err(stop),
    }
}

// What a line asks for, comments aside.
fn asked(alloc: Global, line: &OrdinaryLine<'_>) -> Result<Option<Wanted>, ReadingStop>
    ensures { AsksByLine result (spec.word_place line.now.file line.now.number line.now.text.whole.now)
        (spec.asked_by_line line.now.in_comment line.now.text.whole.now) }
{
    if !may_ask(line.in_comment, &line.text) {
        return Ok(None);
    }
    let blanked = without_comments(alloc, line.text.whole, false)?;
    asked_in(alloc, line, &blanked)
}

/// What becomes of such a line.
pub(crate) fn line(
    alloc: Global,
    enabled: bool,
    work: &mut Work,
    branches: &Branches,
    line: &OrdinaryLine<'_>,
) -> Result<Option<Wanted>, ReadingStop>
    ensures { (state : State) → Shows work.old state →
        Does result work.new branches.now (spec.of_line enabled line.now.file line.now.number line.now.in_comment line.now.text.whole.now
        (record { state = state; branches = branches.now })) }
{
    if !branches.is_read() {
        return Ok(None);
    }
    match asked(alloc, line) {
        Ok(None) => match work.keep(alloc, enabled, line) {
            Ok(()) => Ok(None),
            Err(stop) => Err(stop),
        },
        Ok(Some(wanted)) => Ok(Some(wanted)),
        Err(stop) => Err(stop),
    }
}
