//! Numbers, strings, names, words and lists of types.
ghost use Rattle.std.specs.Prelude.{◌≡◌, ◌++◌, ◌∷◌, [], OnOk, IfOk};
ghost use Rattle.asl_terms.specs.Terms as spec;
ghost use Rattle.asl_words.specs.Paths;
ghost use Rattle.asl_terms.specs.AtRaw as at;
ghost use Rattle.term_plans.specs.Plans.{plan_of, plans_of, join, one_plan};

use crate::brackets::is_given;
use crate::macros::macro_text;
use crate::nodes::{add_refused, push};
use crate::work::{Work, refuse};
use acpi_values::integer::wrap;
use acpi_values::width::Width;
use asl_syntax::{NodeForm, SyntaxNode, SyntaxText};
use asl_tree::term::{Node, Term};
use asl_words::operator::{Known, Slot, StringForm, TextMacro, WordKind};
use asl_words::paths::path_of;
use asl_words::texts::{has_form, is_text};
use iasl_messages::number::{
    BAD_FORMAT, NOT_ALLOWED_HERE, VALUE_OUT_OF_RANGE, WRONG_ARGUMENT_FORM,
};
use iasl_messages::place::Place;
use iasl_ports::list::Text;
use std::alloc::{AllocError, Global};
use word_meanings::meaning::{Meaning, meaning_of, takes_expression, takes_known, unfit};

/// The place of a node, or this one where it has none.
#[tactic(auto, using(crate::proofs::Leaves::place_rules))]
pub fn place_in(place: Place, raw: &SyntaxNode<'_>) -> Place
    ensures { result ≡ at.place_at place raw.now }
{
    match &raw.form {
        NodeForm::Number { place, .. } => *place,
        NodeForm::Text { place, .. } => *place,
        NodeForm::Item { place, .. } => *place,
        NodeForm::Apply { place, .. } => *place,
        NodeForm::List { place, .. } => *place,
        NodeForm::Comma => place,
        NodeForm::Semicolon => place,
        NodeForm::Empty => place,
    }
}

/// A number, where it is read so.
#[tactic(auto, using(crate::proofs::Terms::nothing_more), unfolding(term_plans::specs::Plans::plan_of))]
pub fn add_number(
    alloc: Global,
    work: &mut Work,
    nodes: &mut Vec<Node>,
    slot: &Slot,
    place: &Place,
    value: u64,
) -> Result<(), AllocError>
    ensures faults { OnOk result (work.new.faults.items ≡ work.old.faults.items ++ (spec.number_shape slot.now place.now value).faults) }
    ensures made { OnOk result
        (plans_of nodes.new.items ≡ join (plans_of nodes.old.items)
        (one_plan place.now (spec.number_shape slot.now place.now value).made)) }
{
    match *slot {
        Slot::Term { .. } => add_refused(alloc, work, nodes, NOT_ALLOWED_HERE, *place),
        Slot::Effect => add_refused(alloc, work, nodes, WRONG_ARGUMENT_FORM, *place),
        _ => {
            if takes_expression(*slot) {
                push(nodes, *place, Term::Integer(wrap(Width::W64, value)))
            } else {
                add_refused(alloc, work, nodes, unfit(*slot), *place)
            }
        }
    }
}

#[tactic(auto, unfolding(term_plans::specs::Plans::plan_of))]
fn add_copy(
    alloc: Global,
    nodes: &mut Vec<Node>,
    place: &Place,
    bytes: &SyntaxText<'_>,
) -> Result<(), AllocError>
    ensures { OnOk result (plans_of nodes.new.items ≡ join (plans_of nodes.old.items)
        (one_plan place.now (spec.text_plan bytes.now))) }
{
    let copy = Text::from_bytes(alloc, bytes.as_bytes())?;
    push(nodes, *place, Term::Text(copy))
}

// The number of the error that is told of a string that is not what it has to be.
fn unformed(form: StringForm) -> u16
    ensures { result ≡ spec.unformed form }
{
    match form {
        StringForm::Format => BAD_FORMAT,
        StringForm::Any | StringForm::Signature | StringForm::AtMost(_) => VALUE_OUT_OF_RANGE,
    }
}

#[tactic(auto, using(crate::proofs::Terms::nothing_more))]
fn add_string(
    alloc: Global,
    work: &mut Work,
    nodes: &mut Vec<Node>,
    form: StringForm,
    place: &Place,
    bytes: &SyntaxText<'_>,
) -> Result<(), AllocError>
    ensures faults { OnOk result (work.new.faults.items ≡ work.old.faults.items ++ (spec.string_shape form place.now bytes.now).faults) }
    ensures made { OnOk result
        (plans_of nodes.new.items ≡ join (plans_of nodes.old.items)
        (one_plan place.now (spec.string_shape form place.now bytes.now).made)) }
{
    if has_form(form, bytes.as_bytes()) && is_text(bytes.as_bytes()) {
        add_copy(alloc, nodes, place, bytes)
    } else {
        add_refused(alloc, work, nodes, unformed(form), *place)
    }
}

// The string of a macro.
#[inline(never)]
fn add_macro_text(
    alloc: Global,
    work: &mut Work,
    nodes: &mut Vec<Node>,
    text_macro: TextMacro,
    place: &Place,
    bytes: &SyntaxText<'_>,
) -> Result<(), AllocError>
    ensures faults { OnOk result
        (work.new.faults.items ≡ work.old.faults.items ++ (spec.macro_text text_macro place.now bytes.now).faults) }
    ensures made { OnOk result
        (plans_of nodes.new.items ≡ join (plans_of nodes.old.items)
        (one_plan place.now (spec.macro_text text_macro place.now bytes.now).made)) }
{
    let term = macro_text(alloc, work, text_macro, *place, bytes)?;
    push(nodes, *place, term)
}

/// A string, where it is read so.
pub fn add_text(
    alloc: Global,
    work: &mut Work,
    nodes: &mut Vec<Node>,
    slot: &Slot,
    place: &Place,
    bytes: &SyntaxText<'_>,
) -> Result<(), AllocError>
    ensures faults { OnOk result (work.new.faults.items ≡ work.old.faults.items ++ (spec.text_shape slot.now place.now bytes.now).faults) }
    ensures made { OnOk result
        (plans_of nodes.new.items ≡ join (plans_of nodes.old.items)
        (one_plan place.now (spec.text_shape slot.now place.now bytes.now).made)) }
{
    match *slot {
        Slot::Expression => add_string(alloc, work, nodes, StringForm::Any, place, bytes),
        Slot::Element => add_string(alloc, work, nodes, StringForm::Any, place, bytes),
        Slot::CaseValue => add_string(alloc, work, nodes, StringForm::Any, place, bytes),
        Slot::CaseMember => add_string(alloc, work, nodes, StringForm::Any, place, bytes),
        Slot::String(form) => add_string(alloc, work, nodes, form, place, bytes),
        Slot::MacroText(text_macro) => add_macro_text(alloc, work, nodes, text_macro, place, bytes),
        Slot::Term { .. } => add_refused(alloc, work, nodes, NOT_ALLOWED_HERE, *place),
        _ => add_refused(alloc, work, nodes, unfit(*slot), *place),
    }
}

/// A name without arguments.
#[tactic(auto, using(crate::proofs::Terms::nothing_more), unfolding(term_plans::specs::Plans::plan_of))]
pub fn add_path(
    alloc: Global,
    work: &mut Work,
    nodes: &mut Vec<Node>,
    place: &Place,
    text: &[u8],
) -> Result<(), AllocError>
    ensures faults { OnOk result
        (work.new.faults.items ≡ work.old.faults.items ++ (spec.path_shape place.now (Paths.path_of text.now)).faults) }
    ensures made { OnOk result
        (plans_of nodes.new.items ≡ join (plans_of nodes.old.items)
        (one_plan place.now (spec.path_shape place.now (Paths.path_of text.now)).made)) }
{
    match path_of(alloc, text)? {
        Some(path) => push(nodes, *place, Term::Name(path)),
        None => add_refused(alloc, work, nodes, VALUE_OUT_OF_RANGE, *place),
    }
}

fn word_number(slot: Slot, number: u64) -> u64
    ensures { result ≡ spec.word_number slot number }
{
    match slot {
        Slot::Types { .. } => 1,
        _ => number,
    }
}

/// What a word of a known meaning stands as: a number, a Local, an Arg or the debug object.
#[tactic(auto, unfolding(term_plans::specs::Plans::plan_of))]
pub fn known_term(slot: Slot, known: Known) -> Term
    ensures { plan_of result ≡ spec.known_plan slot known }
{
    match known {
        Known::Word { number, .. } => Term::Integer(word_number(slot, number)),
        Known::Local(index) => Term::Local(index),
        Known::Arg(index) => Term::Arg(index),
        Known::Debug => Term::Debug,
        Known::Element(_)
        | Known::Macro(_)
        | Known::Template
        | Known::Descriptor(_)
        | Known::LeftOut => Term::Omitted,
    }
}

fn is_type_word(meaning: Meaning) -> bool
    ensures { result ≡ spec.is_type_word meaning }
{
    match meaning {
        Meaning::Known(known) => takes_known(Slot::Word(WordKind::ObjectType), known),
        _ => false,
    }
}

fn is_bare_type(word: &SyntaxText<'_>, has_args: bool, has_body: bool) -> bool
    ensures { result ≡ spec.is_bare_type word.now has_args has_body }
{
    !has_args && (!has_body && is_type_word(meaning_of(word.as_bytes(), false)))
}

// Whether this is a word for an object type alone.
#[tactic(auto, using(crate::proofs::Types::type_rules))]
fn is_type(raw: &SyntaxNode<'_>) -> bool
    ensures { result ≡ at.is_type_at raw.now }
{
    match &raw.form {
        NodeForm::Item {
            word,
            args,
            body,
            ..
        } => is_bare_type(word, is_given(args), is_given(body)),
        NodeForm::Number { .. } => false,
        NodeForm::Text { .. } => false,
        NodeForm::Apply { .. } => false,
        NodeForm::List { .. } => false,
        NodeForm::Comma => false,
        NodeForm::Semicolon => false,
        NodeForm::Empty => false,
    }
}

#[tactic(auto, using(crate::proofs::Types::types_steps))]
fn are_types(raws: &[SyntaxNode<'_>]) -> bool
    ensures { result ≡ at.are_types_at raws.now }
{
    for raw in raws {
        if !is_type(raw) {
            return false;
        }
    }
    true
}

#[tactic(auto, using(crate::proofs::Types::list_rules))]
fn is_type_or_list(raw: &SyntaxNode<'_>) -> bool
    ensures { result ≡ at.is_type_or_list_at raw.now }
{
    match &raw.form {
        NodeForm::List { items, .. } => are_types(items.as_slice()),
        NodeForm::Item { .. } => is_type(raw),
        NodeForm::Number { .. } => false,
        NodeForm::Text { .. } => false,
        NodeForm::Apply { .. } => false,
        NodeForm::Comma => false,
        NodeForm::Semicolon => false,
        NodeForm::Empty => false,
    }
}

#[tactic(auto, using(crate::proofs::Types::all_steps))]
fn are_all_types(raws: &[SyntaxNode<'_>]) -> bool
    ensures { result ≡ at.are_all_types_at raws.now }
{
    for raw in raws {
        if !is_type_or_list(raw) {
            return false;
        }
    }
    true
}

#[tactic(auto, using(crate::proofs::Types::counted_rules), unfolding(term_plans::specs::Plans::plan_of))]
fn types(
    alloc: Global,
    work: &mut Work,
    most: u64,
    place: Place,
    raws: &[SyntaxNode<'_>],
) -> Result<Term, AllocError>
    ensures faults { OnOk result (work.new.faults.items ≡ work.old.faults.items ++ (at.types_at most place raws.now).faults) }
    ensures made { IfOk result (λ term. plan_of term ≡ (at.types_at most place raws.now).made) }
{
    if !are_all_types(raws) {
        return Ok(refuse(alloc, work, WRONG_ARGUMENT_FORM, place)?);
    }
    if raws.len() as u64 <= most {
        Ok(Term::Integer(raws.len() as u64))
    } else {
        refuse(alloc, work, VALUE_OUT_OF_RANGE, place)
    }
}

// How many types may be listed, where they may.
fn most_types(slot: Slot) -> Option<u64>
    ensures { result ≡ spec.most_types slot }
{
    match slot {
        Slot::Types { most } => Some(most),
        _ => None,
    }
}

// A list as an argument.
#[tactic(auto, using(crate::proofs::Types::listed_rules))]
fn listed(
    alloc: Global,
    work: &mut Work,
    slot: Slot,
    place: Place,
    raws: &[SyntaxNode<'_>],
) -> Result<Term, AllocError>
    ensures faults { OnOk result (work.new.faults.items ≡ work.old.faults.items ++ (at.listed_at slot place raws.now).faults) }
    ensures made { IfOk result (λ term. plan_of term ≡ (at.listed_at slot place raws.now).made) }
{
    match most_types(slot) {
        Some(most) => types(alloc, work, most, place, raws),
        None => refuse(alloc, work, unfit(slot), place),
    }
}

/// A list, where it is read so.
#[inline(never)]
pub fn add_list(
    alloc: Global,
    work: &mut Work,
    nodes: &mut Vec<Node>,
    slot: &Slot,
    place: &Place,
    raws: &[SyntaxNode<'_>],
) -> Result<(), AllocError>
    ensures faults { OnOk result (work.new.faults.items ≡ work.old.faults.items ++ (at.listed_at slot.now place.now raws.now).faults) }
    ensures made { OnOk result
        (plans_of nodes.new.items ≡ join (plans_of nodes.old.items)
        (one_plan place.now (at.listed_at slot.now place.now raws.now).made)) }
{
    let term = listed(alloc, work, *slot, *place, raws)?;
    push(nodes, *place, term)
}
