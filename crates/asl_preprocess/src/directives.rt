//! What the directives do.
ghost use Rattle.std.specs.Prelude.{◌≡◌, ◌≢◌, ◌+◌, ◌^◌, ◌≤◌, [], ℕ, List, IfOk, IfErr, true, false};
ghost use Rattle.asl_directives.specs.Forms.{name_alone as name_in, definition_of as definition_in, message_of as message_in};
ghost use Rattle.asl_directives.specs.Forms.{include_of as include_in};
ghost use Rattle.asl_directives.specs.Branches.{at_else, at_end_if};
ghost use Rattle.asl_directives.specs.declared.branches.Branch.{Branch};
ghost use Rattle.asl_preprocess.specs.State.{State, message_at};
ghost use Rattle.asl_preprocess.specs.Directives as spec;
ghost use Rattle.asl_preprocess.specs.Told.{Shows, Refuses, Tests, Steps, Does, Includes};

use crate::stop::{ReadingStop, refusal};
use crate::work::Work;
use asl_conditions::{ConditionStop, condition};
use asl_directives::branches::{BranchFault, Branches};
use asl_directives::forms::{definition_of, include_of, message_of, name_alone};
use asl_directives::kind::{DirectiveKind, is_conditional, kind_of};
use asl_directives::words::{behind_mark, blanks_before, past_blanks, split_word, trimmed};
use asl_fragments::{ends_in_comment, without_comments};
use iasl_messages::number::{
    BAD_CONDITION, BAD_DIRECTIVE, ERROR_DIRECTIVE, MESSAGE_PRAGMA, UNBALANCED_CONDITIONALS,
    WARNING_DIRECTIVE,
};
use iasl_messages::place::Place;
use iasl_ports::list::Text;
use std::alloc::{AllocError, Global};

/// A file that is asked for: its name as written, whether that stands in quotes, and the place of what asks.
#[derive(Drop)]
pub(crate) struct Wanted {
    pub(crate) quoted: bool,
    pub(crate) name: Text,
    pub(crate) place: Place,
}

fn wrong(alloc: Global, place: Place) -> ReadingStop
    ensures { Refuses result (message_at 6003 place []) }
{
    refusal(alloc, BAD_DIRECTIVE, place, b"")
}

fn unbalanced(alloc: Global, place: Place) -> ReadingStop
    ensures { Refuses result (message_at 6004 place []) }
{
    refusal(alloc, UNBALANCED_CONDITIONALS, place, b"")
}

fn define(alloc: Global, work: &mut Work, place: Place, rest: &[u8]) -> Result<(), ReadingStop>
    ensures { (state : State) (branches : List Branch) → Shows work.old state →
        Steps result work.new branches (spec.defines place (record { state = state; branches = branches }) (definition_in rest.now)) }
{
    match definition_of(rest) {
        Some((name, text)) => {
            work.define(alloc, name, text)?;
            Ok(())
        }
        None => Err(wrong(alloc, place)),
    }
}

fn undefine(alloc: Global, work: &mut Work, place: Place, rest: &[u8]) -> Result<(), ReadingStop>
    ensures { (state : State) (branches : List Branch) → Shows work.old state →
        Steps result work.new branches (spec.undefines place (record { state = state; branches = branches }) (name_in rest.now)) }
{
    match name_alone(rest) {
        Some(name) => {
            work.undefine(name);
            Ok(())
        }
        None => Err(wrong(alloc, place)),
    }
}

// The value of a condition.
fn test(alloc: Global, work: &Work, place: Place, rest: &[u8]) -> Result<bool, ReadingStop>
    ensures { (state : State) → Shows work.now state → Tests result (message_at 6006 place []) (spec.truth_of state.history rest.now) }
{
    match condition(alloc, &work.macros, rest) {
        Ok(value) => Ok(value != 0),
        Err(ConditionStop::Bad) => Err(refusal(alloc, BAD_CONDITION, place, b"")),
        Err(ConditionStop::Memory) => Err(ReadingStop::Memory),
    }
}

fn open_branch(
    work: &Work,
    branches: &mut Branches,
    place: Place,
    value: bool,
) -> Result<(), ReadingStop>
    ensures { (state : State) → Shows work.now state → Steps result work.now branches.new
        (spec.opens place (record { state = state; branches = branches.old }) value) }
{
    branches.open(place.line, place.column, value)?;
    Ok(())
}

fn open_if(
    alloc: Global,
    work: &Work,
    branches: &mut Branches,
    place: Place,
    rest: &[u8],
) -> Result<(), ReadingStop>
    ensures { (state : State) → Shows work.now state → Steps result work.now branches.new
        (spec.opens_if place (record { state = state; branches = branches.old }) (spec.truth_of state.history rest.now)) }
{
    match test(alloc, work, place, rest) {
        Ok(value) => open_branch(work, branches, place, value),
        Err(stop) => Err(stop),
    }
}

fn is_defined(work: &Work, name: &[u8], sign: bool) -> bool
    ensures { (state : State) → Shows work.now state → result ≡ spec.is_defined_as sign state.history name.now }
{
    match work.macros.text_of(name) {
        Some(_) => sign,
        None => !sign,
    }
}

fn open_defined(
    alloc: Global,
    work: &Work,
    branches: &mut Branches,
    sign: bool,
    place: Place,
    rest: &[u8],
) -> Result<(), ReadingStop>
    ensures { (state : State) → Shows work.now state → Steps result work.now branches.new
        (spec.opens_defined sign place (record { state = state; branches = branches.old }) (name_in rest.now)) }
{
    match name_alone(rest) {
        Some(name) => {
            let value = is_defined(work, name, sign);
            open_branch(work, branches, place, value)
        }
        None => Err(wrong(alloc, place)),
    }
}

fn turn(work: &Work, branches: &mut Branches, value: bool) -> Result<(), ReadingStop>
    ensures { (state : State) → Shows work.now state → Steps result work.now branches.new
        (spec.turns_to (record { state = state; branches = branches.old }) value) }
{
    branches.else_if(value)?;
    Ok(())
}

fn turn_if(
    alloc: Global,
    work: &Work,
    branches: &mut Branches,
    place: Place,
    rest: &[u8],
) -> Result<(), ReadingStop>
    ensures { (state : State) → Shows work.now state → Steps result work.now branches.new
        (spec.turns_if place (record { state = state; branches = branches.old }) (spec.truth_of state.history rest.now)) }
{
    match test(alloc, work, place, rest) {
        Ok(value) => turn(work, branches, value),
        Err(stop) => Err(stop),
    }
}

fn else_if(
    alloc: Global,
    work: &Work,
    branches: &mut Branches,
    place: Place,
    rest: &[u8],
) -> Result<(), ReadingStop>
    ensures { (state : State) → Shows work.now state → Steps result work.now branches.new
        (spec.obeyed DirectiveKind.ElseIf place rest.now (record { state = state; branches = branches.old })) }
{
    match branches.asks() {
        Some(true) => turn_if(alloc, work, branches, place, rest),
        Some(false) => turn(work, branches, false),
        None => Err(unbalanced(alloc, place)),
    }
}

fn else_(
    alloc: Global,
    work: &Work,
    branches: &mut Branches,
    place: Place,
) -> Result<(), ReadingStop>
    ensures { (state : State) → Shows work.now state → Steps result work.now branches.new
        (spec.balanced place (record { state = state; branches = branches.old }) (at_else branches.old)) }
{
    match branches.else_() {
        Ok(()) => Ok(()),
        Err(BranchFault::Unbalanced) => Err(unbalanced(alloc, place)),
        Err(BranchFault::Memory) => Err(ReadingStop::Memory),
    }
}

fn end_if(
    alloc: Global,
    work: &Work,
    branches: &mut Branches,
    place: Place,
) -> Result<(), ReadingStop>
    ensures { (state : State) → Shows work.now state → Steps result work.now branches.new
        (spec.balanced place (record { state = state; branches = branches.old }) (at_end_if branches.old)) }
{
    if branches.end_if() {
        Ok(())
    } else {
        Err(unbalanced(alloc, place))
    }
}

fn warn(alloc: Global, work: &mut Work, place: Place, rest: &[u8]) -> Result<(), ReadingStop>
    ensures { (state : State) (branches : List Branch) → Shows work.old state →
        Steps result work.new branches (spec.obeyed DirectiveKind.Warning place rest.now (record { state = state; branches = branches })) }
{
    work.note(alloc, WARNING_DIRECTIVE, place, trimmed(rest))?;
    Ok(())
}

fn pragma(alloc: Global, work: &mut Work, place: Place, rest: &[u8]) -> Result<(), ReadingStop>
    ensures { (state : State) (branches : List Branch) → Shows work.old state →
        Steps result work.new branches (spec.notes_message place (record { state = state; branches = branches }) (message_in rest.now)) }
{
    match message_of(rest) {
        Some(text) => {
            work.note(alloc, MESSAGE_PRAGMA, place, text)?;
            Ok(())
        }
        None => Err(wrong(alloc, place)),
    }
}

fn include(alloc: Global, place: Place, rest: &[u8]) -> Result<Wanted, ReadingStop>
    ensures { Includes result place (include_in rest.now) }
{
    match include_of(rest) {
        Some(asked) => Ok(Wanted {
            quoted: asked.quoted,
            name: Text::from_bytes(alloc, asked.name.as_bytes())?,
            place,
        }),
        None => Err(wrong(alloc, place)),
    }
}

// The directives that ask for no file, where they are read.
fn step(
    alloc: Global,
    work: &mut Work,
    branches: &mut Branches,
    kind: DirectiveKind,
    place: Place,
    rest: &[u8],
) -> Result<(), ReadingStop>
    requires { kind ≢ DirectiveKind.Include }
    ensures { (state : State) → Shows work.old state → Steps result work.new branches.new
        (spec.obeyed kind place rest.now (record { state = state; branches = branches.old })) }
{
    match kind {
        DirectiveKind::Define => define(alloc, work, place, rest),
        DirectiveKind::Undefine => undefine(alloc, work, place, rest),
        DirectiveKind::If => open_if(alloc, work, branches, place, rest),
        DirectiveKind::IfDefined => open_defined(alloc, work, branches, true, place, rest),
        DirectiveKind::IfNotDefined => open_defined(alloc, work, branches, false, place, rest),
        DirectiveKind::ElseIf => else_if(alloc, work, branches, place, rest),
        DirectiveKind::Else => else_(alloc, work, branches, place),
        DirectiveKind::EndIf => end_if(alloc, work, branches, place),
        DirectiveKind::Error => Err(refusal(alloc, ERROR_DIRECTIVE, place, trimmed(rest))),
        DirectiveKind::Warning => warn(alloc, work, place, rest),
        DirectiveKind::Pragma => pragma(alloc, work, place, rest),
        DirectiveKind::Include => unreachable!(),
    }
}

// A directive that is read.
fn obey(
    alloc: Global,
    work: &mut Work,
    branches: &mut Branches,
    kind: DirectiveKind,
    place: Place,
    rest: &[u8],
) -> Result<Option<Wanted>, ReadingStop>
    ensures { (state : State) → Shows work.old state →
        Does result work.new branches.new (spec.obeyed kind place rest.now (record { state = state; branches = branches.old })) }
{
    if kind == DirectiveKind::Include {
        return Ok(Some(include(alloc, place, rest)?));
    }
    step(alloc, work, branches, kind, place, rest)?;
    Ok(None)
}

// A directive that is not read.
fn skip(
    alloc: Global,
    work: &Work,
    branches: &mut Branches,
    kind: DirectiveKind,
    place: Place,
    rest: &[u8],
) -> Result<(), ReadingStop>
    ensures { (state : State) → Shows work.now state → Steps result work.now branches.new
        (spec.skipped kind place rest.now (record { state = state; branches = branches.old })) }
{
    match kind {
        DirectiveKind::If | DirectiveKind::IfDefined | DirectiveKind::IfNotDefined => open_branch(
            work, branches, place, false,
        ),
        DirectiveKind::ElseIf => else_if(alloc, work, branches, place, rest),
        DirectiveKind::Else => else_(alloc, work, branches, place),
        DirectiveKind::EndIf => end_if(alloc, work, branches, place),
        DirectiveKind::Define
        | DirectiveKind::Undefine
        | DirectiveKind::Include
        | DirectiveKind::Error
        | DirectiveKind::Warning
        | DirectiveKind::Pragma => Ok(()),
    }
}

fn obey_or_refuse(
    alloc: Global,
    work: &mut Work,
    branches: &mut Branches,
    left_open: bool,
    kind: Option<DirectiveKind>,
    place: Place,
    rest: &[u8],
) -> Result<Option<Wanted>, ReadingStop>
    ensures { (state : State) → Shows work.old state →
        Does result work.new branches.new
        (spec.obeyed_or_open left_open kind place rest.now (record { state = state; branches = branches.old })) }
{
    match kind {
        Some(kind) if !left_open => obey(alloc, work, branches, kind, place, rest),
        _ => Err(wrong(alloc, place)),
    }
}

fn skip_or_refuse(
    alloc: Global,
    work: &Work,
    branches: &mut Branches,
    left_open: bool,
    kind: Option<DirectiveKind>,
    place: Place,
    rest: &[u8],
) -> Result<(), ReadingStop>
    ensures { (state : State) → Shows work.now state → Steps result work.now branches.new
        (spec.skipped_or_open left_open kind place rest.now (record { state = state; branches = branches.old })) }
{
    match kind {
        Some(kind) if left_open && is_conditional(kind) => Err(wrong(alloc, place)),
        Some(kind) => skip(alloc, work, branches, kind, place, rest),
        None => Ok(()),
    }
}

/// The column of the byte behind so many others. (No longer line is read.)
pub(crate) fn column_behind(count: usize) -> Result<u32, AllocError>
    ensures column { IfOk result (λ column. column ≡ count + 1) }
    ensures full { IfErr result (λ _. 2 ^ 32 ≤ count + 1) }
{
    if count >= 4_294_967_295 {
        return Err(AllocError);
    }
    Ok(count as u32 + 1)
}

// What stands behind the `#`, blanks aside.
fn directive_text(text: &[u8]) -> &[u8]
    ensures { result.now ≡ spec.directive_text text.now }
{
    match behind_mark(text, b'#') {
        Some(behind) => past_blanks(behind),
        None => past_blanks(b""),
    }
}

// A directive whose comments are blanks.
fn blanked(
    alloc: Global,
    work: &mut Work,
    branches: &mut Branches,
    left_open: bool,
    file: u32,
    line: u32,
    text: &[u8],
) -> Result<Option<Wanted>, ReadingStop>
    ensures { (state : State) → Shows work.old state →
        Does result work.new branches.new
        (spec.of_blanked left_open file line text.now (record { state = state; branches = branches.old })) }
{
    let place = Place {
        file,
        line,
        column: column_behind(blanks_before(text))?,
    };
    let (word, rest) = split_word(directive_text(text));
    let kind = kind_of(word);
    if branches.is_read() {
        return obey_or_refuse(alloc, work, branches, left_open, kind, place, rest);
    }
    skip_or_refuse(alloc, work, branches, left_open, kind, place, rest)?;
    Ok(None)
}

/// A directive.
pub(crate) fn directive(
    alloc: Global,
    work: &mut Work,
    branches: &mut Branches,
    file: u32,
    line: u32,
    text: &[u8],
) -> Result<Option<Wanted>, ReadingStop>
    ensures { (state : State) → Shows work.old state →
        Does result work.new branches.new (spec.of_directive file line text.now (record { state = state; branches = branches.old })) }
{
    let left_open = ends_in_comment(text, false);
    let text = without_comments(alloc, text, false)?;
    blanked(alloc, work, branches, left_open, file, line, &text)
}
