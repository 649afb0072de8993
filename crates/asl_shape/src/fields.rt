//! The list of a field (ACPI Specification 6.4, 19.6.48).
ghost use Rattle.std.specs.Prelude.{◌≡◌, ◌++◌, OnOk, IfOk, drop};
ghost use Rattle.asl_shape.specs.Shapes as spec;
ghost use Rattle.asl_shape.specs.AtRaw as at;
ghost use Rattle.term_plans.specs.Plans.{plan_of, plans_of, join};
ghost use Rattle.word_meanings.specs.Meanings.{slot_as};

use crate::lists::{is_comma, is_separator};
use asl_syntax::{NodeForm, SyntaxNode};
use asl_terms::brackets::{inside_of, is_given};
use asl_terms::leaf::place_in;
use asl_terms::nodes::push;
use asl_terms::work::{NOWHERE, Work, tell};
use asl_tree::path::{NameSeg, Path};
use asl_tree::term::{Node, Term};
use asl_words::operator::Slot;
use iasl_messages::number::WRONG_ARGUMENT_FORM;
use iasl_messages::place::Place;
use std::alloc::{AllocError, Global};
use word_meanings::meaning::{Meaning, is_connection, is_whole, meaning_of, slot_as};

/// The name of a unit, where it stands.
#[derive(Clone, Copy)]
pub struct UnitName {
    pub place: Place,
    pub segment: NameSeg,
}

/// What may come next in a field's list.
#[derive(Clone, Copy)]
pub enum Due {
    /// An element, or the end.
    Element,
    /// The comma behind the name of a unit.
    NameComma,
    /// The number of bits of a unit or of a gap.
    Bits,
    /// The comma behind an element, or the end.
    Comma,
}

/// What the word of a part is, if it has one.
#[tactic(auto, using(crate::proofs::FieldLaws::meaning_rules))]
pub fn meaning_in(raw: &SyntaxNode<'_>) -> Meaning
    ensures { result ≡ at.meaning_at raw.now }
{
    match &raw.form {
        NodeForm::Item { word, body, .. } => meaning_of(word.as_bytes(), is_given(body)),
        NodeForm::Number { .. } => Meaning::Unknown,
        NodeForm::Text { .. } => Meaning::Unknown,
        NodeForm::Apply { .. } => Meaning::Unknown,
        NodeForm::List { .. } => Meaning::Unknown,
        NodeForm::Comma => Meaning::Unknown,
        NodeForm::Semicolon => Meaning::Unknown,
        NodeForm::Empty => Meaning::Unknown,
    }
}

/// How an argument is read for this slot. Its word is asked only for where the slot is one that words decide.
pub fn slot_of(slot: Slot, raw: &SyntaxNode<'_>) -> Slot
    ensures { result ≡ slot_as slot (at.meaning_at raw.now) }
{
    match slot {
        Slot::Space
        | Slot::RegisterSpace
        | Slot::WordOrByte(_)
        | Slot::AccessType
        | Slot::Attribute
        | Slot::FieldElement => slot_as(slot, meaning_in(raw)),
        _ => slot,
    }
}

fn behind_begin(whole: bool) -> Due
    ensures { result ≡ spec.behind_begin whole }
{
    if whole { Due::Comma } else { Due::NameComma }
}

// What may come behind a member: none where it may not stand.
fn next_due(due: Due, comma: bool, separator: bool, whole: bool) -> Option<Due>
    ensures { result ≡ spec.next_due due comma separator whole }
{
    match due {
        Due::Element => {
            if !separator {
                Some(behind_begin(whole))
            } else if comma {
                Some(Due::Bits)
            } else {
                None
            }
        }
        Due::NameComma => {
            if !separator {
                Some(Due::Comma)
            } else if comma {
                Some(Due::Bits)
            } else {
                None
            }
        }
        Due::Bits => { if separator { None } else { Some(Due::Comma) } }
        Due::Comma => { if comma { Some(Due::Element) } else { None } }
    }
}

#[tactic(auto, using(crate::proofs::FieldLaws::next_rules))]
fn goes_on(due: Due, raw: &SyntaxNode<'_>) -> Option<Due>
    ensures { result ≡ at.goes_on_at due raw.now }
{
    next_due(
        due,
        is_comma(raw),
        is_separator(raw),
        is_whole(meaning_in(raw)),
    )
}

/// What is due behind a member.
#[tactic(auto, using(crate::proofs::FieldLaws::next_rules))]
pub fn due_behind(due: Due, raw: &SyntaxNode<'_>) -> Due
    ensures { result ≡ at.due_behind_at due raw.now }
{
    match goes_on(due, raw) {
        Some(next) => next,
        None => Due::Comma,
    }
}

fn may_stop(due: Due) -> bool
    ensures { result ≡ spec.may_stop due }
{
    match due {
        Due::Element | Due::Comma => true,
        Due::NameComma | Due::Bits => false,
    }
}

/// Whether units, gaps and whole elements stand with commas between them.
#[tactic(auto, using(crate::proofs::FieldLaws::list_steps))]
pub fn is_field_list(raws: &[SyntaxNode<'_>]) -> bool
    ensures { result ≡ at.is_field_list_at spec.begin raws.now }
{
    let mut due = Due::Element;
    for raw in raws {
        match goes_on(due, raw) {
            Some(next) => due = next,
            None => return false,
        }
    }
    may_stop(due)
}

/// How a number of bits is read.
pub const BITS: Slot = Slot::Measure;

fn named_by(place: Place, path: &Path) -> Option<UnitName>
    ensures { result ≡ spec.named_by place path.now }
{
    if path.root || path.up != 0 {
        return None;
    }
    match path.segs.as_slice() {
        [segment] => Some(UnitName {
            place,
            segment: *segment,
        }),
        _ => None,
    }
}

/// The unit that a name begins.
#[tactic(auto, unfolding(term_plans::specs::Plans::plan_of))]
pub fn named_unit(place: Place, term: &Term) -> Option<UnitName>
    ensures { result ≡ spec.named_unit place (plan_of term.now) }
{
    match term {
        Term::Name(path) => named_by(place, path),
        _ => None,
    }
}

// The place of the first argument.
#[tactic(auto, using(crate::proofs::FieldLaws::place_rules))]
fn first_place(place: Place, args: &[SyntaxNode<'_>]) -> Place
    ensures { result ≡ at.first_place_at place args.now }
{
    match args.first() {
        Some(raw) => place_in(place, raw),
        None => place,
    }
}

#[tactic(auto, using(crate::proofs::FieldLaws::place_rules))]
fn inner_place(place: Place, raw: &SyntaxNode<'_>) -> Place
    ensures { result ≡ at.inner_place_at place raw.now }
{
    match &raw.form {
        NodeForm::Item { args, .. } => first_place(place, inside_of(args)),
        NodeForm::Number { .. } => place,
        NodeForm::Text { .. } => place,
        NodeForm::Apply { .. } => place,
        NodeForm::List { .. } => place,
        NodeForm::Comma => place,
        NodeForm::Semicolon => place,
        NodeForm::Empty => place,
    }
}

/// Where an element stands: at its word, or where it is a connection at what it is connected to.
#[tactic(auto, using(crate::proofs::FieldLaws::place_rules))]
pub fn element_place(raw: &SyntaxNode<'_>) -> Place
    ensures { result ≡ at.element_place_at raw.now }
{
    if is_connection(meaning_in(raw)) {
        inner_place(place_in(NOWHERE, raw), raw)
    } else {
        place_in(NOWHERE, raw)
    }
}

/// Tells of a unit's name that has no comma behind it.
#[tactic(auto, using(crate::proofs::FieldSteps::comma_rules))]
pub fn miss_comma(
    alloc: Global,
    work: &mut Work,
    unit: Option<UnitName>,
    raw: &SyntaxNode<'_>,
) -> Result<(), AllocError>
    ensures { OnOk result (work.new.faults.items ≡ work.old.faults.items ++ (at.comma_at unit raw.now).faults) }
{
    if is_separator(raw) {
        return Ok(());
    }
    match unit {
        Some(unit) => Ok(tell(alloc, work, WRONG_ARGUMENT_FORM, unit.place)?),
        None => Ok(()),
    }
}

/// Adds a whole element, or begins a unit by its name.
#[tactic(auto, using(crate::proofs::FieldLaws::whole_rules))]
pub fn begin(
    nodes: &mut Vec<Node>,
    whole: bool,
    place: Place,
    term: Term,
) -> Result<Option<UnitName>, AllocError>
    ensures made { OnOk result (plans_of nodes.new.items ≡ join (plans_of nodes.old.items) (spec.whole_alone whole place (plan_of term))) }
    ensures unit { IfOk result (λ unit. unit ≡ spec.begun whole place (plan_of term)) }
{
    if whole {
        push(nodes, place, term)?;
        Ok(None)
    } else {
        Ok(named_unit(place, &term))
    }
}

/// Adds a unit at its name, or a gap at this place.
#[tactic(auto, unfolding(term_plans::specs::Plans::plan_of))]
pub fn add_unit(
    nodes: &mut Vec<Node>,
    unit: Option<UnitName>,
    place: Place,
    bits: u64,
) -> Result<(), AllocError>
    ensures { OnOk result (plans_of nodes.new.items ≡ join (plans_of nodes.old.items) (spec.of_bits unit place bits)) }
{
    match unit {
        Some(unit) => Ok(push(
            nodes,
            unit.place,
            Term::Unit {
                segment: unit.segment,
                bits,
            },
        )?),
        None => Ok(push(nodes, place, Term::Skip(bits))?),
    }
}
