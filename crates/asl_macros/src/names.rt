//! The replacement of names.
ghost use Rattle.std.specs.Prelude.{◌≡◌, ◌++◌, ◌∷◌, [], ◌&&◌, ◌<◌, ◌≤◌, false, true, map, length, slice_index, drop, ℕ, OnOk, Ok, Err};
ghost use Rattle.std.specs.Option.{option_copied};
ghost use Rattle.asl_macros.specs.History.{History};
ghost use Rattle.asl_fragments.specs.Bytes.{in_identifier as in_identifier_by};
ghost use Rattle.asl_fragments.specs.Fragments.{fragments, identifiers};
ghost use Rattle.asl_macros.specs.Clear.{FirstIsFree, IsClear};
ghost use Rattle.asl_macros.specs.Table.{Tells, AreFree, text_at};
ghost use Rattle.asl_macros.specs.Replacement as spec;
ghost use Rattle.asl_macros.specs.Replacement.{Adds, Gives};

use crate::context::{FragmentContext, Within, context_behind, is_name};
use crate::table::Macros;
use asl_fragments::bytes::in_identifier;
use asl_fragments::first_identifier;
use asl_fragments::fragment::{FragmentKind, first_fragment};
use std::alloc::{AllocError, AllocFailed, Global};

/// Why names are not replaced.
#[derive(Clone, Copy, Debug)]
pub enum ReplaceStop {
    /// The text with its names replaced would be longer than the limit.
    TooLong,
    /// There is no memory.
    Memory,
}

impl From<AllocError> for ReplaceStop {
    ghost use Rattle.std.specs.Prelude.{◌≡◌};
    ghost use Rattle.asl_macros.specs.declared.names.ReplaceStop.TheVariants.{Memory};

    ghost from_gives = { λ _ e. e ≡ Memory };

    fn from(_: AllocError) -> ReplaceStop {
        ReplaceStop::Memory
    }
}

impl<T: Drop> From<AllocFailed<T>> for ReplaceStop {
    ghost use Rattle.std.specs.Prelude.{◌≡◌};
    ghost use Rattle.asl_macros.specs.declared.names.ReplaceStop.TheVariants.{Memory};

    ghost from_gives = { λ _ e. e ≡ Memory };

    fn from(_: AllocFailed<T>) -> ReplaceStop {
        ReplaceStop::Memory
    }
}

// How deep names are replaced in texts of names.
const NESTING: u8 = 32;

/// By what names are replaced, where they stand, and how many bytes the answer may have.
#[derive(Clone, Copy)]
struct Rule<'a> {
    macros: &'a Macros,
    within: Within,
    limit: usize,
}

fn add(out: &mut Vec<u8>, limit: usize, text: &[u8]) -> Result<(), ReplaceStop>
    requires { length out.old.items ≤ limit }
    ensures { Adds result limit out.old.items out.new.items text.now }
{
    if text.len() > limit - out.len() {
        return Err(ReplaceStop::TooLong);
    }
    out.extend_from_slice(text)?;
    Ok(())
}

fn is_active(active: &[&[u8]], name: &[u8]) -> bool
    ensures { result ≡ spec.is_active (map (λ other. other.now) active.now) name.now }
{
    for other in active {
        if *other == name {
            return true;
        }
    }
    false
}

// Adds the value of a name.
#[cycle(replacing)]
fn add_value<'a>(
    rule: &Rule<'a>,
    out: &mut Vec<u8>,
    active: &mut Vec<&'a [u8]>,
    levels: u8,
    name: &'a [u8],
) -> Result<(), ReplaceStop>
    requires { length out.old.items ≤ rule.now.limit }
    ensures added { Adds result rule.now.limit out.old.items out.new.items
        (spec.value_of levels rule.now.within (text_at rule.now.macros.now) (map (λ other. other.now) active.old.items) name.now) }
    ensures active { OnOk result (active.new.items ≡ active.old.items) }
{
    if levels == 0 {
        return add(out, rule.limit, name);
    }
    if is_active(active, name) {
        return add(out, rule.limit, name);
    }
    match rule.macros.text_of(name) {
        None => add(out, rule.limit, name),
        Some(text) => {
            let count = active.len();
            active.push(name)?;
            add_text(rule, out, active, levels - 1, text, false)?;
            active.truncate(count);
            Ok(())
        }
    }
}

// Adds a fragment, or its value.
#[cycle(replacing)]
fn add_piece<'a>(
    rule: &Rule<'a>,
    out: &mut Vec<u8>,
    active: &mut Vec<&'a [u8]>,
    levels: u8,
    named: bool,
    piece: &'a [u8],
) -> Result<(), ReplaceStop>
    requires { length out.old.items ≤ rule.now.limit }
    ensures added { Adds result rule.now.limit out.old.items out.new.items
        (spec.value_or_itself
        (spec.value_of levels rule.now.within (text_at rule.now.macros.now) (map (λ other. other.now) active.old.items)) named piece.now) }
    ensures active { OnOk result (active.new.items ≡ active.old.items) }
{
    if named {
        add_value(rule, out, active, levels, piece)
    } else {
        add(out, rule.limit, piece)
    }
}

// Adds a text with values in place of its names.
#[cycle(replacing)]
fn add_text<'a>(
    rule: &Rule<'a>,
    out: &mut Vec<u8>,
    active: &mut Vec<&'a [u8]>,
    levels: u8,
    text: &'a [u8],
    in_comment: bool,
) -> Result<(), ReplaceStop>
    requires { length out.old.items ≤ rule.now.limit }
    ensures added { Adds result rule.now.limit out.old.items out.new.items
        (spec.text_with_values rule.now.within
        (spec.value_of levels rule.now.within (text_at rule.now.macros.now) (map (λ other. other.now) active.old.items)) in_comment
        text.now) }
    ensures active { OnOk result (active.new.items ≡ active.old.items) }
{
    let mut rest = text;
    let mut inside = in_comment;
    let mut context = FragmentContext::Anywhere;
    while !rest.is_empty() {
        let fragment = first_fragment(rest, inside);
        let (piece, behind) = rest.split_at(fragment.length);
        let named = is_name(rule.within, context, fragment.kind, piece);
        add_piece(rule, out, active, levels, named, piece)?;
        context = context_behind(context, fragment.kind, piece);
        rest = behind;
        inside = false;
    }
    Ok(())
}

// Whether no identifier of a text is defined, so that the text stays as it is.
fn is_free(macros: &Macros, text: &[u8], in_comment: bool) -> bool
    ensures { result ≡ true → AreFree (text_at macros.now) (identifiers (fragments in_comment text.now)) }
{
    let mut rest = text;
    let mut inside = in_comment;
    while let Some((name, behind)) = first_identifier(rest, inside) {
        if macros.text_of(name).is_some() {
            return false;
        }
        rest = behind;
        inside = false;
    }
    true
}

// Whether the first fragment of a text is an identifier that is defined.
fn names_first(macros: &Macros, text: &[u8]) -> bool
    requires { 0 < length text.now }
    ensures { result ≡ false → FirstIsFree (text_at macros.now) text.now }
{
    let fragment = first_fragment(text, false);
    match fragment.kind {
        FragmentKind::Identifier => macros.text_of(text.split_at(fragment.length).0).is_some(),
        _ => false,
    }
}

// The same where the text stands behind a byte in whose word its first byte may go on.
fn names_behind(macros: &Macros, before: u8, text: &[u8]) -> bool
    requires { 0 < length text.now }
    ensures { result ≡ false → (in_identifier_by before && in_identifier_by (slice_index text.now 0)) ≡ false →
        FirstIsFree (text_at macros.now) text.now }
{
    !(in_identifier(before) && in_identifier(text[0])) && names_first(macros, text)
}

// Whether a text has four bytes with none of which a defined name begins.
fn passes_four(macros: &Macros, text: &[u8]) -> bool
    ensures within { result ≡ true → 4 ≤ length text.now }
    ensures clear { result ≡ true → (before : ℕ) → IsClear (text_at macros.now) (slice_index text.now 3) (drop 4 text.now) →
        IsClear (text_at macros.now) before text.now }
{
    match text {
        [a, b, c, d, ..] => !macros.may_begin_any(*a, *b, *c, *d),
        _ => false,
    }
}

// Whether no word of a text is defined, be it in a string or in a comment.
fn is_clear(macros: &Macros, text: &[u8]) -> bool
    ensures { result ≡ true → IsClear (text_at macros.now) 32 text.now }
{
    let mut rest = text;
    let mut before = b' ';
    while !rest.is_empty() {
        if passes_four(macros, rest) {
            before = rest[3];
            rest = rest.split_at(4).1;
        } else {
            let byte = rest[0];
            if macros.may_begin(byte) && names_behind(macros, before, rest) {
                return false;
            }
            before = byte;
            rest = rest.split_at(1).1;
        }
    }
    true
}

/// Whether none of the names of a text is defined, so that it stays as it is.
pub fn stays(macros: &Macros, text: &[u8], in_comment: bool) -> bool
    ensures { result ≡ true → (within : Within) (history : History) → Tells macros.now history →
        spec.replaced within history in_comment text.now ≡ text.now }
{
    is_clear(macros, text) || is_free(macros, text, in_comment)
}

// The text as it is, where it has room.
fn whole(alloc: Global, text: &[u8], limit: usize) -> Result<Vec<u8>, ReplaceStop>
    ensures { Gives result limit text.now }
{
    if text.len() > limit {
        return Err(ReplaceStop::TooLong);
    }
    Ok(text.to_vec(alloc)?)
}

/// The same as `replace`, with no first look whether the text stays as it is.
pub fn replace_names(
    alloc: Global,
    macros: &Macros,
    within: Within,
    text: &[u8],
    in_comment: bool,
    limit: usize,
) -> Result<Vec<u8>, ReplaceStop>
    ensures { (history : History) → Tells macros.now history → Gives result limit (spec.replaced within history in_comment text.now) }
{
    let mut out = Vec::new(alloc);
    let mut active = Vec::new(alloc);
    let rule = Rule {
        macros,
        within,
        limit,
    };
    add_text(&rule, &mut out, &mut active, NESTING, text, in_comment)?;
    Ok(out)
}

/// A text with its defined names replaced, where it begins inside a block comment or does not. Outside strings
/// and comments each defined identifier is replaced by its text, in which identifiers are replaced by the same
/// rule, except names that are being replaced, to a nesting of 32; a name met deeper stays. The answer has at
/// most `limit` bytes, and never many more are made. The time is that of the input and the answer, times 32 at
/// most; but a text of long names that are replaced by short ones is read each time that it is met.
pub fn replace(
    alloc: Global,
    macros: &Macros,
    within: Within,
    text: &[u8],
    in_comment: bool,
    limit: usize,
) -> Result<Vec<u8>, ReplaceStop>
    ensures { (history : History) → Tells macros.now history → Gives result limit (spec.replaced within history in_comment text.now) }
{
    if stays(macros, text, in_comment) {
        return whole(alloc, text, limit);
    }
    replace_names(alloc, macros, within, text, in_comment, limit)
}
