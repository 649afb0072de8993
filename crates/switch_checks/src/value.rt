//! What the values of Cases are compared by.
ghost use Rattle.std.specs.Prelude.{◌≡◌, ◌%◌, ◌≤◌, ◌∷◌, ◌++◌, [], take, length, max, unwrap_or, slice_get, IfOk};
ghost use Rattle.std.specs.Option.{option_copied, option_map};
ghost use Rattle.term_plans.specs.Plans.{number_of, plan_at, plan_of, plans_of};
ghost use Rattle.switch_checks.specs.Values as spec;

use acpi_values::integer::wrap;
use acpi_values::width::Width;
use asl_tree::constant::literal_value;
use asl_tree::term::{Node, Op, Special, Term};
use std::alloc::{AllocError, Global};

/// What a value of a Case is compared by.
#[derive(PartialEq, Eq, Hash, Drop)]
pub enum CaseValue {
    Integer(u64),
    String(Vec<u8>),
    /// How many bytes a Buffer has, and those up to the last that is not zero.
    Buffer(u64, Vec<u8>),
}

fn first_of(nodes: &[Node]) -> Option<&Node>
    ensures { option_copied result ≡ slice_get nodes.now 0 }
{
    nodes.get(0)
}

pub(crate) fn is_package(op: Op) -> bool
    ensures { result ≡ spec.is_package op }
{
    matches!(op, Op::Special(Special::Package))
}

#[tactic(auto, using(term_plans::proofs::Terms::integer_term, statement_checks::proofs::Terms::no_number))]
fn number_in(term: &Term) -> u64
    ensures { result ≡ number_of (plan_of term.now) }
{
    match term {
        Term::Integer(number) => *number,
        _ => 0,
    }
}

// The byte that a number in braces is.
fn byte_of(term: &Term) -> u8
    ensures { result ≡ spec.byte_of (plan_of term.now) }
{
    (number_in(term) % 256) as u8
}

fn one_byte(alloc: Global, byte: u8) -> Result<Vec<u8>, AllocError>
    ensures { IfOk result (λ bytes. bytes.items ≡ byte ∷ []) }
{
    let mut bytes = Vec::new(alloc);
    bytes.push(byte)?;
    Ok(bytes)
}

// The bytes of a string, and a 00 behind them.
fn string_bytes(alloc: Global, text: &[u8]) -> Result<Vec<u8>, AllocError>
    ensures { IfOk result (λ bytes. bytes.items ≡ text.now ++ 0 ∷ []) }
{
    let mut bytes = text.to_vec(alloc)?;
    bytes.push(0)?;
    Ok(bytes)
}

// The bytes of what stands alone in the braces of a Buffer.
#[tactic(auto, using(term_plans::proofs::Terms::text_term, term_plans::proofs::Terms::fill_term, crate::proofs::Terms::byte_alone))]
fn alone_bytes(alloc: Global, term: &Term) -> Result<Vec<u8>, AllocError>
    ensures { IfOk result (λ bytes. bytes.items ≡ spec.alone_bytes (plan_of term.now)) }
{
    match term {
        Term::Text(text) => Ok(string_bytes(alloc, text.as_bytes())?),
        Term::Fill { bytes, .. } => Ok(bytes.as_bytes().to_vec(alloc)?),
        _ => Ok(one_byte(alloc, byte_of(term))?),
    }
}

fn each_byte(alloc: Global, nodes: &[Node]) -> Result<Vec<u8>, AllocError>
    ensures { IfOk result (λ bytes. bytes.items ≡ spec.each_byte (plans_of nodes.now)) }
{
    let mut bytes = Vec::new(alloc);
    for node in nodes {
        bytes.push(byte_of(&node.term))?;
    }
    Ok(bytes)
}

// The bytes that a Buffer lists.
#[tactic(auto, using(crate::proofs::Bytes::one_listed, crate::proofs::Bytes::others_listed))]
fn buffer_bytes(alloc: Global, body: &[Node]) -> Result<Vec<u8>, AllocError>
    ensures { IfOk result (λ bytes. bytes.items ≡ spec.buffer_bytes (plans_of body.now)) }
{
    match body {
        [node] => Ok(alone_bytes(alloc, &node.term)?),
        _ => Ok(each_byte(alloc, body)?),
    }
}

// How many bytes stand before the zeros at the end.
fn trimmed_count(bytes: &[u8]) -> usize
    ensures within { result ≤ length bytes.now }
    ensures trimmed { take result bytes.now ≡ spec.trimmed bytes.now }
{
    let mut count = bytes.len();
    while count > 0 && bytes[count - 1] == 0 {
        count -= 1;
    }
    count
}

// A size that is written.
#[tactic(auto, using(term_plans::proofs::Terms::integer_term, crate::proofs::Terms::no_size))]
fn size_in(term: &Term) -> Option<u64>
    ensures { result ≡ spec.size_in (plan_of term.now) }
{
    match term {
        Term::Integer(number) => Some(*number),
        _ => None,
    }
}

#[tactic(auto, using(crate::proofs::Bytes::size_there, crate::proofs::Bytes::size_none))]
fn size_of(args: &[Node]) -> Option<u64>
    ensures { result ≡ spec.size_in (plan_at (plans_of args.now) 0) }
{
    match first_of(args) {
        Some(node) => size_in(&node.term),
        None => None,
    }
}

// A Buffer of this size that lists these bytes.
fn buffer_of(alloc: Global, size: Option<u64>, bytes: &[u8]) -> Result<CaseValue, AllocError>
    ensures { IfOk result (λ value. spec.shown value ≡ spec.buffer_of size bytes.now) }
{
    let count = bytes.len() as u64;
    let size = size.unwrap_or(0).max(count);
    let listed = &bytes[..trimmed_count(bytes)];
    Ok(CaseValue::Buffer(size, listed.to_vec(alloc)?))
}

fn buffer_value(alloc: Global, args: &[Node], body: &[Node]) -> Result<CaseValue, AllocError>
    ensures { IfOk result (λ value. spec.shown value ≡ spec.buffer_of (spec.size_in (plan_at (plans_of args.now) 0))
        (spec.buffer_bytes (plans_of body.now))) }
{
    let bytes = buffer_bytes(alloc, body)?;
    Ok(buffer_of(alloc, size_of(args), &bytes)?)
}

fn form_value(
    alloc: Global,
    width: Width,
    op: Op,
    args: &[Node],
    body: &[Node],
) -> Result<Option<CaseValue>, AllocError>
    ensures { IfOk result (λ value. option_map spec.shown value ≡ spec.form_value width op (plans_of args.now) (plans_of body.now)) }
{
    match op {
        Op::Literal(literal) => Ok(Some(CaseValue::Integer(literal_value(literal, width)))),
        Op::Special(Special::Buffer) => Ok(Some(buffer_value(alloc, args, body)?)),
        _ => Ok(None),
    }
}

fn string_value(alloc: Global, text: &[u8]) -> Result<CaseValue, AllocError>
    ensures { IfOk result (λ value. spec.shown value ≡ spec.CaseValue.AString text.now) }
{
    Ok(CaseValue::String(text.to_vec(alloc)?))
}

/// The value of a constant; Integers are compared at this width.
#[tactic(auto, using(crate::proofs::Terms::value_rules))]
pub(crate) fn value_of(
    alloc: Global,
    width: Width,
    term: &Term,
) -> Result<Option<CaseValue>, AllocError>
    ensures { IfOk result (λ value. option_map spec.shown value ≡ spec.value_of width (plan_of term.now)) }
{
    match term {
        Term::Integer(number) => Ok(Some(CaseValue::Integer(wrap(width, *number)))),
        Term::Text(text) => Ok(Some(string_value(alloc, text.as_bytes())?)),
        Term::Form { op, args, body } => Ok(form_value(alloc, width, *op, args, body)?),
        _ => Ok(None),
    }
}
