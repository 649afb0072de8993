//! The errors that are found on the way.
ghost use Rattle.std.specs.Prelude.{◌≡◌, ◌<◌, ◌++◌, false, vec_len, OnOk, IfOk};
ghost use Rattle.asl_terms.specs.Terms as spec;
ghost use Rattle.term_plans.specs.Plans.{Plan, plan_of, plans_of, constant_of, last_plan, with_last};
ghost use Rattle.term_plans.specs.Plans.{is_omitted as is_left_out};
ghost use Rattle.acpi_values.specs.declared.width.Width.{Width};
ghost use Rattle.iasl_messages.specs.declared.place.Place.{Place};
ghost use Rattle.asl_tree.specs.Names.{is_searched};

use crate::nodes::{last_term, put_last};
use acpi_values::integer::wrap;
use acpi_values::width::Width;
use asl_tree::constant::{NoConstant, constant};
use asl_tree::path::Path;
use asl_tree::term::{Node, Op, Special, Term};
use asl_words::operator::Slot;
use iasl_messages::message::Message;
use iasl_messages::number::{VALUE_OUT_OF_RANGE, WRONG_ARGUMENT_FORM};
use iasl_messages::place::Place;
use iasl_ports::list::Text;
use std::alloc::{AllocError, Global};

/// The errors so far.
#[derive(Drop)]
pub struct Work {
    pub faults: Vec<Message>,
}

/// The place of what has none.
pub const NOWHERE: Place = Place {
    file: 0,
    line: 0,
    column: 0,
};

/// An error without a name.
pub fn tell(alloc: Global, work: &mut Work, number: u16, place: Place) -> Result<(), AllocError>
    ensures { OnOk result (work.new.faults.items ≡ work.old.faults.items ++ (spec.refused number place).faults) }
{
    work.faults.push(Message {
        number,
        place,
        name: Text::new(alloc),
    })?;
    Ok(())
}

/// An error without a name, in place of a term.
#[tactic(auto, unfolding(term_plans::specs::Plans::plan_of))]
pub fn refuse(alloc: Global, work: &mut Work, number: u16, place: Place) -> Result<Term, AllocError>
    ensures faults { OnOk result (work.new.faults.items ≡ work.old.faults.items ++ (spec.refused number place).faults) }
    ensures made { IfOk result (λ term. plan_of term ≡ (spec.refused number place).made) }
{
    tell(alloc, work, number, place)?;
    Ok(Term::Omitted)
}

/// What comes of an expression where a value is asked for.
#[derive(Clone, Copy)]
pub enum Outcome {
    /// It stays as it is.
    Stays,
    /// It is this number.
    Number(u64),
    /// It is refused with an error of this number.
    Fault(u16),
}

// What comes of a constant of this range.
fn valued(least: u64, most: u64, constant: Result<u64, NoConstant>) -> Outcome
    ensures { (place : Place) (term : Plan) → spec.come_to result place term ≡ spec.valued least most place constant }
{
    match constant {
        Ok(value) => {
            if least <= value && value <= most {
                Outcome::Number(value)
            } else {
                Outcome::Fault(VALUE_OUT_OF_RANGE)
            }
        }
        Err(NoConstant::Fault) => Outcome::Fault(VALUE_OUT_OF_RANGE),
        Err(NoConstant::Form) => Outcome::Fault(WRONG_ARGUMENT_FORM),
    }
}

#[tactic(auto, unfolding(term_plans::specs::Plans::plan_of))]
fn is_member(term: &Term) -> bool
    ensures { result ≡ spec.is_member (plan_of term.now) }
{
    match term {
        Term::Text(_) => true,
        Term::Name(_) => true,
        Term::Form { op, .. } => match op {
            Op::Literal(_) => true,
            Op::Special(Special::Buffer) => true,
            Op::Special(Special::Package) => true,
            _ => false,
        },
        Term::Word(_) => true,
        _ => false,
    }
}

fn is_buffer(op: Op) -> bool
    ensures { result ≡ spec.is_buffer op }
{
    matches!(op, Op::Special(Special::Buffer))
}

fn is_package(op: Op) -> bool
    ensures { result ≡ spec.is_package op }
{
    matches!(op, Op::Special(Special::Package))
}

// Whether a form is one of the words Zero, One and Ones.
fn is_word(op: Op) -> bool
    ensures { result ≡ spec.is_word op }
{
    matches!(op, Op::Literal(_))
}

#[tactic(auto, using(crate::proofs::Terms::none_are))]
fn are_none(nodes: &[Node]) -> bool
    ensures { result ≡ spec.are_none (plans_of nodes.now) }
{
    nodes.is_empty()
}

fn is_case_form(op: Op, args: &[Node], body: &[Node]) -> bool
    ensures { result ≡ spec.is_case_form op (plans_of args.now) (plans_of body.now) }
{
    is_buffer(op) || (is_word(op) && are_none(args) && are_none(body))
}

#[tactic(auto, using(crate::proofs::Terms::case_form), unfolding(term_plans::specs::Plans::plan_of))]
fn is_case_member(term: &Term) -> bool
    ensures { result ≡ spec.is_case_member (plan_of term.now) }
{
    match term {
        Term::Text(_) => true,
        Term::Form { op, args, body } => is_case_form(*op, args, body),
        _ => false,
    }
}

// How many members a Package has.
#[tactic(auto, using(crate::proofs::Terms::count_rules))]
fn member_count(term: &Term) -> Option<usize>
    ensures { result ≡ spec.member_count (plan_of term.now) }
{
    match term {
        Term::Form { op, body, .. } => {
            if is_package(*op) {
                Some(body.len())
            } else {
                None
            }
        }
        Term::Text(_) => None,
        Term::Name(_) => None,
        Term::Integer(_) => None,
        Term::Fill { .. } => None,
        Term::Word(_) => None,
        Term::Local(_) => None,
        Term::Arg(_) => None,
        Term::Debug => None,
        Term::Omitted => None,
        Term::Unit { .. } => None,
        Term::Skip(_) => None,
        Term::Offset(_) => None,
        Term::Access { .. } => None,
        Term::Call { .. } => None,
    }
}

// A member of a Package that is the value of a Case.
fn case_member(width: Width, term: &Term) -> Outcome
    ensures { (place : Place) → spec.come_to result place (plan_of term.now) ≡ spec.case_member width place (plan_of term.now) }
{
    if is_case_member(term) {
        Outcome::Stays
    } else {
        valued(0, u64::MAX, value_of(width, term))
    }
}

// How many members a Package that is the value of a Case may have. Each is a test, and the tests of one Case stand
// inside one another.
const MOST_CASE_MEMBERS: usize = 120;

fn is_case_package(members: usize) -> bool
    ensures { result ≡ spec.is_case_package members }
{
    1 <= members && members <= MOST_CASE_MEMBERS
}

// The value of a Case.
fn case_value(width: Width, term: &Term) -> Outcome
    ensures { (place : Place) → spec.come_to result place (plan_of term.now) ≡ spec.case_value width place (plan_of term.now) }
{
    match member_count(term) {
        None => case_member(width, term),
        Some(members) => {
            if is_case_package(members) {
                Outcome::Stays
            } else {
                Outcome::Fault(VALUE_OUT_OF_RANGE)
            }
        }
    }
}

fn is_single(path: &Path) -> bool
    ensures { result ≡ is_searched path.now }
{
    !path.root && path.up == 0 && path.segs.len() == 1
}

#[tactic(auto, unfolding(term_plans::specs::Plans::plan_of))]
fn is_element(term: &Term) -> bool
    ensures { result ≡ spec.is_element (plan_of term.now) }
{
    match term {
        Term::Name(path) => is_single(path),
        _ => false,
    }
}

/// Whether an argument is left out.
#[tactic(auto, unfolding(term_plans::specs::Plans::plan_of))]
pub fn is_omitted(term: &Term) -> bool
    ensures { result ≡ is_left_out (plan_of term.now) }
{
    match term {
        Term::Omitted => true,
        _ => false,
    }
}

/// The value of a constant argument at a width. Most are numbers, which want no further look.
#[tactic(auto, using(term_plans::proofs::Constants::constant_is), unfolding(term_plans::specs::Plans::plan_of))]
pub fn value_of(width: Width, term: &Term) -> Result<u64, NoConstant>
    ensures { result ≡ constant_of width (plan_of term.now) }
{
    match term {
        Term::Integer(number) => Ok(wrap(width, *number)),
        _ => constant(term, width),
    }
}

// What comes of an expression where a constant may be asked for. This is the table's width.
fn outcome_of(width: Width, slot: Slot, term: &Term) -> Outcome
    ensures { (place : Place) → spec.come_to result place (plan_of term.now) ≡ spec.evaluated width slot place (plan_of term.now) }
{
    match slot {
        Slot::Constant { least, most } => {
            if is_omitted(term) {
                Outcome::Stays
            } else {
                valued(least, most, value_of(Width::W64, term))
            }
        }
        Slot::Measure => {
            if is_omitted(term) {
                Outcome::Stays
            } else {
                valued(0, u64::MAX, value_of(width, term))
            }
        }
        Slot::Element => {
            if is_member(term) {
                Outcome::Stays
            } else {
                valued(0, u64::MAX, value_of(width, term))
            }
        }
        Slot::CaseValue => case_value(width, term),
        Slot::CaseMember => case_member(width, term),
        Slot::FieldElement => {
            if is_element(term) {
                Outcome::Stays
            } else {
                Outcome::Fault(WRONG_ARGUMENT_FORM)
            }
        }
        _ => Outcome::Stays,
    }
}

/// The last node, where a constant may be asked for: its value, if it is one. This is the table's width.
pub fn evaluate(
    alloc: Global,
    work: &mut Work,
    width: Width,
    slot: Slot,
    place: Place,
    nodes: &mut Vec<Node>,
) -> Result<(), AllocError>
    requires { 0 < vec_len nodes.old }
    ensures faults { OnOk result
        (work.new.faults.items ≡ work.old.faults.items ++ (spec.evaluated width slot place (last_plan (plans_of nodes.old.items))).faults) }
    ensures made { OnOk result (plans_of nodes.new.items ≡ with_last
        (spec.evaluated width slot place (last_plan (plans_of nodes.old.items))).made (plans_of nodes.old.items)) }
{
    match outcome_of(width, slot, last_term(nodes)) {
        Outcome::Stays => Ok(()),
        Outcome::Number(number) => {
            put_last(nodes, Term::Integer(number));
            Ok(())
        }
        Outcome::Fault(number) => {
            put_last(nodes, Term::Omitted);
            tell(alloc, work, number, place)
        }
    }
}

/// Whether a slot may ask for more than an expression: where it does not, the expression stays as it is.
pub fn is_evaluated(slot: Slot) -> bool
    ensures { (width : Width) (place : Place) (term : Plan) → result ≡ false → spec.evaluated width slot place term ≡ spec.fine term }
{
    match slot {
        Slot::Constant { .. } => true,
        Slot::Measure => true,
        Slot::Element => true,
        Slot::CaseValue => true,
        Slot::CaseMember => true,
        Slot::FieldElement => true,
        _ => false,
    }
}
