//! Macros for identifiers and texts, which stand for what their strings come to.
ghost use Rattle.std.specs.Prelude.{◌≡◌, ◌++◌, OnOk, IfOk};
ghost use Rattle.asl_terms.specs.Terms as spec;
ghost use Rattle.term_plans.specs.Plans.{plan_of, plans_of, plan_at};
ghost use Rattle.resource_macros.specs.Identifiers.{eisaid_of, uuid_of};

use crate::nodes::push;
use crate::work::{Work, refuse};
use asl_syntax::SyntaxText;
use asl_tree::term::{NamedDescriptor, Node, Op, Special, Term, Word};
use asl_words::operator::TextMacro;
use asl_words::texts::is_text;
use iasl_messages::number::{BAD_EISA_IDENTIFIER, BAD_UUID, VALUE_OUT_OF_RANGE};
use iasl_messages::place::Place;
use iasl_ports::list::{List, Text};
use resource_macros::identifiers::{eisaid, utf16, uuid};
use std::alloc::{AllocError, Global};

/// A Buffer of these bytes, among which these descriptors have names.
#[tactic(auto, using(crate::proofs::TextMacros::buffer_rules))]
pub fn buffer(
    alloc: Global,
    place: Place,
    bytes: Text,
    named: List<NamedDescriptor>,
) -> Result<Term, AllocError>
    ensures { IfOk result (λ term. plan_of term ≡ spec.buffer_plan place bytes named) }
{
    let mut args = Vec::new(alloc);
    push(&mut args, place, Term::Omitted)?;
    let mut body = Vec::new(alloc);
    push(&mut body, place, Term::Fill { bytes, named })?;
    Ok(Term::Form {
        op: Op::Special(Special::Buffer),
        args,
        body,
    })
}

// The number of an EISA identifier.
#[tactic(auto, using(crate::proofs::Terms::nothing_more), unfolding(term_plans::specs::Plans::plan_of))]
fn eisa(
    alloc: Global,
    work: &mut Work,
    place: Place,
    text: &SyntaxText<'_>,
) -> Result<Term, AllocError>
    ensures faults { OnOk result (work.new.faults.items ≡ work.old.faults.items ++ (spec.eisa_shape place (eisaid_of text.now)).faults) }
    ensures made { IfOk result (λ term. plan_of term ≡ (spec.eisa_shape place (eisaid_of text.now)).made) }
{
    match eisaid(text.as_bytes()) {
        Some(number) => Ok(Term::Word(Word::Identifier(number))),
        None => Ok(refuse(alloc, work, BAD_EISA_IDENTIFIER, place)?),
    }
}

// The bytes of a UUID.
#[tactic(auto, using(crate::proofs::Terms::nothing_more))]
fn unique(
    alloc: Global,
    work: &mut Work,
    place: Place,
    text: &SyntaxText<'_>,
) -> Result<Term, AllocError>
    ensures faults { OnOk result (work.new.faults.items ≡ work.old.faults.items ++ (spec.uuid_shape place (uuid_of text.now)).faults) }
    ensures made { IfOk result (λ term. plan_of term ≡ (spec.uuid_shape place (uuid_of text.now)).made) }
{
    match uuid(text.as_bytes()) {
        Some(bytes) => Ok(buffer(
            alloc,
            place,
            Text::from_bytes(alloc, &bytes)?,
            List::new(alloc),
        )?),
        None => Ok(refuse(alloc, work, BAD_UUID, place)?),
    }
}

// A text of 16-bit characters.
#[tactic(auto, using(crate::proofs::Terms::nothing_more))]
fn characters(
    alloc: Global,
    work: &mut Work,
    place: Place,
    text: &SyntaxText<'_>,
) -> Result<Term, AllocError>
    ensures faults { OnOk result (work.new.faults.items ≡ work.old.faults.items ++ (spec.unicode_shape place text.now).faults) }
    ensures made { IfOk result (λ term. plan_of term ≡ (spec.unicode_shape place text.now).made) }
{
    if is_text(text.as_bytes()) {
        Ok(buffer(
            alloc,
            place,
            utf16(alloc, text.as_bytes())?,
            List::new(alloc),
        )?)
    } else {
        Ok(refuse(alloc, work, VALUE_OUT_OF_RANGE, place)?)
    }
}

/// What the string of a macro comes to (ACPI Specification 6.4, 19.6.35, 19.6.142 and 19.6.149).
///
/// # Errors
/// 6026 and 6027 are told at a string of another form.
pub fn macro_text(
    alloc: Global,
    work: &mut Work,
    text_macro: TextMacro,
    place: Place,
    text: &SyntaxText<'_>,
) -> Result<Term, AllocError>
    ensures faults { OnOk result (work.new.faults.items ≡ work.old.faults.items ++ (spec.macro_text text_macro place text.now).faults) }
    ensures made { IfOk result (λ term. plan_of term ≡ (spec.macro_text text_macro place text.now).made) }
{
    match text_macro {
        TextMacro::EisaId => eisa(alloc, work, place, text),
        TextMacro::ToUuid => unique(alloc, work, place, text),
        TextMacro::Unicode => characters(alloc, work, place, text),
    }
}

/// The first of some terms, which it takes out of them.
#[tactic(auto, using(crate::proofs::TextMacros::first_rules))]
pub fn first_term(nodes: &mut Vec<Node>) -> Term
    ensures { plan_of result ≡ plan_at (plans_of nodes.old.items) 0 }
{
    if nodes.is_empty() {
        Term::Omitted
    } else {
        nodes.remove(0).term
    }
}
