//! Lists that are longer than their sizes.
ghost use Rattle.std.specs.Prelude.{◌≡◌, ◌++◌, Some, IfOk, OnOk, slice_get, unwrap_or};
ghost use Rattle.std.specs.Option.{option_copied};
ghost use Rattle.term_plans.specs.Plans.{how_many, plan_at, plan_of, plans_of, constant_of};
ghost use Rattle.type_checks.specs.Sizes as spec;

use acpi_values::width::Width;
use asl_tree::constant::{NoConstant, constant};
use asl_tree::term::{Node, Op, Special, Term};
use iasl_messages::message::{Message, Messages};
use iasl_messages::number::LIST_LONGER_THAN_SIZE;
use iasl_messages::place::Place;
use iasl_ports::list::Text;
use std::alloc::{AllocError, Global};

fn first_of(nodes: &[Node]) -> Option<&Node>
    ensures { option_copied result ≡ slice_get nodes.now 0 }
{
    nodes.get(0)
}

// The value of a constant at a width.
#[tactic(auto, using(term_plans::proofs::Constants::constant_is))]
fn constant_in(width: Width, term: &Term) -> Result<u64, NoConstant>
    ensures { result ≡ constant_of width (plan_of term.now) }
{
    constant(term, width)
}

// The constant size of a Buffer or a Package, its first argument.
#[tactic(auto, using(crate::proofs::Listing::size_there, crate::proofs::Listing::size_none))]
fn size_of(width: Width, args: &[Node]) -> Result<u64, NoConstant>
    ensures { result ≡ constant_of width (plan_at (plans_of args.now) 0) }
{
    match first_of(args) {
        Some(node) => constant_in(width, &node.term),
        None => Err(NoConstant::Form),
    }
}

// How many bytes a string or the contents of a macro are, which stand alone in the braces of a Buffer.
fn bytes_alone(term: &Term) -> Option<usize>
    ensures { result ≡ spec.bytes_alone (plan_of term.now) }
{
    match term {
        Term::Text(text) => Some(text.as_bytes().len() + 1),
        Term::Fill { bytes, .. } => Some(bytes.as_bytes().len()),
        _ => None,
    }
}

// How many bytes what stands alone in the braces of a Buffer is.
fn alone_count(term: &Term) -> usize
    ensures { result ≡ unwrap_or (spec.bytes_alone (plan_of term.now)) 1 }
{
    bytes_alone(term).unwrap_or(1)
}

// The bytes that a Buffer lists.
#[tactic(auto, using(crate::proofs::Listing::one_counted, crate::proofs::Listing::others_counted))]
fn byte_count(body: &[Node]) -> usize
    ensures { result ≡ spec.byte_count (plans_of body.now) }
{
    match body {
        [node] => alone_count(&node.term),
        _ => body.len(),
    }
}

// How many elements a Package lists.
#[tactic(auto, using(crate::proofs::Listing::how_many_are))]
fn element_count(body: &[Node]) -> usize
    ensures { result ≡ how_many (plans_of body.now) }
{
    body.len()
}

// How long the list of a Buffer or a Package is.
fn list_length(op: Op, body: &[Node]) -> Option<usize>
    ensures { result ≡ spec.list_length op (plans_of body.now) }
{
    match op {
        Op::Special(Special::Buffer) => Some(byte_count(body)),
        Op::Special(Special::Package) => Some(element_count(body)),
        _ => None,
    }
}

// Whether a constant size is below a length.
fn is_below(size: Result<u64, NoConstant>, count: Option<usize>) -> bool
    ensures { result ≡ spec.is_below size count }
{
    match (size, count) {
        (Ok(size), Some(count)) => size < count as u64,
        _ => false,
    }
}

fn tell_if(alloc: Global, out: &mut Messages, wrong: bool, place: Place) -> Result<(), AllocError>
    ensures { OnOk result (out.new ≡ out.old ++ spec.told wrong place) }
{
    if !wrong {
        return Ok(());
    }
    out.push(Message {
        number: LIST_LONGER_THAN_SIZE,
        place,
        name: Text::new(alloc),
    })?;
    Ok(())
}

// The error of a list of so many bytes or elements.
#[inline(never)]
fn list_errors(
    alloc: Global,
    width: Width,
    out: &mut Messages,
    place: Place,
    args: &[Node],
    count: usize,
) -> Result<(), AllocError>
    ensures { OnOk result
        (out.new ≡ out.old ++ spec.told (spec.is_below (constant_of width (plan_at (plans_of args.now) 0)) (Some count)) place) }
{
    let wrong = is_below(size_of(width, args), Some(count));
    tell_if(alloc, out, wrong, place)?;
    Ok(())
}

// The error of a form itself, which is one only of what lists something.
#[inline(always)]
fn size_errors(
    alloc: Global,
    width: Width,
    out: &mut Messages,
    place: Place,
    op: Op,
    args: &[Node],
    body: &[Node],
) -> Result<(), AllocError>
    ensures { OnOk result (out.new ≡ out.old ++ spec.size_errors width place op (plans_of args.now) (plans_of body.now)) }
{
    match list_length(op, body) {
        Some(count) => {
            list_errors(alloc, width, out, place, args, count)?;
            Ok(())
        }
        None => Ok(()),
    }
}

// The errors of a term: its own, then those of its arguments, then those of its body.
#[cycle(lists)]
#[inline(always)]
fn term_errors(
    alloc: Global,
    width: Width,
    out: &mut Messages,
    node: &Node,
) -> Result<(), AllocError>
    ensures { OnOk result (out.new ≡ out.old ++ spec.term_errors width node.now.place (plan_of node.now.term)) }
{
    match &node.term {
        Term::Call { args, .. } => {
            all_errors(alloc, width, out, args)?;
            Ok(())
        }
        Term::Form { op, args, body } => {
            size_errors(alloc, width, out, node.place, *op, args, body)?;
            all_errors(alloc, width, out, args)?;
            if body.is_empty() {
                return Ok(());
            }
            all_errors(alloc, width, out, body)?;
            Ok(())
        }
        _ => Ok(()),
    }
}

// The errors of terms one after another.
#[cycle(lists)]
fn all_errors(
    alloc: Global,
    width: Width,
    out: &mut Messages,
    nodes: &[Node],
) -> Result<(), AllocError>
    ensures { OnOk result (out.new ≡ out.old ++ spec.long_lists width (plans_of nodes.now)) }
{
    for node in nodes {
        term_errors(alloc, width, out, node)?;
    }
    Ok(())
}

/// The Buffers and Packages of a block whose lists are longer than their sizes (ACPI Specification 6.4, 19.6.10 and
/// 19.6.102), in the order of the source: 6057 at each whose size is a constant, at the width of the table, below the
/// number of its bytes or elements. A string in a Buffer has a 00 behind it.
pub fn long_lists(alloc: Global, width: Width, terms: &[Node]) -> Result<Messages, AllocError>
    ensures { IfOk result (λ ms. ms ≡ spec.long_lists width (plans_of terms.now)) }
{
    let mut out = Messages::new(alloc);
    all_errors(alloc, width, &mut out, terms)?;
    Ok(out)
}
