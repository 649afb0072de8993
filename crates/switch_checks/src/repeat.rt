//! Values of Cases that occur twice.
ghost use Rattle.std.specs.Prelude.{◌≡◌, ◌++◌, Some, slice_get, IfOk, OnOk};
ghost use Rattle.std.specs.Option.{option_copied};
ghost use Rattle.term_plans.specs.Plans.{plan_of, plans_of};
ghost use Rattle.switch_checks.specs.Repeats as spec;
ghost use Rattle.switch_checks.specs.Values.{shown, values_in};

use crate::told::tell_if;
use crate::value::{CaseValue, is_package, value_of};
use acpi_values::width::Width;
use asl_tree::term::{Control, Node, Op, Term};
use iasl_messages::message::Messages;
use iasl_messages::number::CASE_OCCURS_TWICE;
use iasl_messages::place::Place;
use indexmap::IndexSet;
use std::alloc::{AllocError, Global};
use switch_loops::switched::is_switch;

fn first_of(nodes: &[Node]) -> Option<&Node>
    ensures { option_copied result ≡ slice_get nodes.now 0 }
{
    nodes.get(0)
}

fn is_case(op: Op) -> bool
    ensures { result ≡ spec.is_case op }
{
    matches!(op, Op::Control(Control::Case))
}

// Notes a value, and tells one that is noted already.
fn note(
    alloc: Global,
    seen: &mut IndexSet<CaseValue>,
    out: &mut Messages,
    value: CaseValue,
    place: Place,
) -> Result<(), AllocError>
    ensures { OnOk result
        (spec.Notes (spec.found_at place (Some (shown value))) (values_in seen.old) (values_in seen.new) out.old out.new) }
{
    let (_, is_new) = seen.insert_full(value)?;
    tell_if(alloc, out, !is_new, CASE_OCCURS_TWICE, place)?;
    Ok(())
}

// Notes the value that a node is.
fn note_value(
    alloc: Global,
    width: Width,
    seen: &mut IndexSet<CaseValue>,
    out: &mut Messages,
    node: &Node,
) -> Result<(), AllocError>
    ensures { OnOk result (spec.Notes (spec.value_at width node.now.place (plan_of node.now.term)) (values_in seen.old) (values_in seen.new)
        out.old out.new) }
{
    if let Some(value) = value_of(alloc, width, &node.term)? {
        note(alloc, seen, out, value, node.place)?;
    }
    Ok(())
}

fn note_values(
    alloc: Global,
    width: Width,
    seen: &mut IndexSet<CaseValue>,
    out: &mut Messages,
    nodes: &[Node],
) -> Result<(), AllocError>
    ensures { OnOk result (spec.Notes (spec.found_in (spec.value_at width) (plans_of nodes.now)) (values_in seen.old) (values_in seen.new)
        out.old out.new) }
{
    for node in nodes {
        note_value(alloc, width, seen, out, node)?;
    }
    Ok(())
}

// Notes the value of a Case, or the members of its Package.
fn note_members(
    alloc: Global,
    width: Width,
    seen: &mut IndexSet<CaseValue>,
    out: &mut Messages,
    node: &Node,
) -> Result<(), AllocError>
    ensures { OnOk result (spec.Notes (spec.members_at width node.now.place (plan_of node.now.term)) (values_in seen.old)
        (values_in seen.new) out.old out.new) }
{
    match &node.term {
        Term::Form { op, args: _, body } => if is_package(*op) {
            note_values(alloc, width, seen, out, body)?;
            Ok(())
        } else {
            note_value(alloc, width, seen, out, node)?;
            Ok(())
        },
        _ => {
            note_value(alloc, width, seen, out, node)?;
            Ok(())
        }
    }
}

// Notes what the first argument of a Case is.
fn note_first(
    alloc: Global,
    width: Width,
    seen: &mut IndexSet<CaseValue>,
    out: &mut Messages,
    args: &[Node],
) -> Result<(), AllocError>
    ensures { OnOk result (spec.Notes (spec.first_members width (plans_of args.now)) (values_in seen.old) (values_in seen.new) out.old
        out.new) }
{
    match first_of(args) {
        Some(node) => {
            note_members(alloc, width, seen, out, node)?;
            Ok(())
        }
        None => Ok(()),
    }
}

// Notes what a member of a Switch has, if it is a Case.
fn note_case(
    alloc: Global,
    width: Width,
    seen: &mut IndexSet<CaseValue>,
    out: &mut Messages,
    node: &Node,
) -> Result<(), AllocError>
    ensures { OnOk result (spec.Notes (spec.case_values width node.now.place (plan_of node.now.term)) (values_in seen.old)
        (values_in seen.new) out.old out.new) }
{
    match &node.term {
        Term::Form { op, args, body: _ } => if is_case(*op) {
            note_first(alloc, width, seen, out, args)?;
            Ok(())
        } else {
            Ok(())
        },
        _ => Ok(()),
    }
}

fn note_cases(
    alloc: Global,
    width: Width,
    seen: &mut IndexSet<CaseValue>,
    out: &mut Messages,
    nodes: &[Node],
) -> Result<(), AllocError>
    ensures { OnOk result (spec.Notes (spec.found_in (spec.case_values width) (plans_of nodes.now)) (values_in seen.old)
        (values_in seen.new) out.old out.new) }
{
    for node in nodes {
        note_case(alloc, width, seen, out, node)?;
    }
    Ok(())
}

// The messages of a form itself, which is a Switch or has none.
fn switch_repeats(
    alloc: Global,
    width: Width,
    out: &mut Messages,
    op: Op,
    cases: &[Node],
) -> Result<(), AllocError>
    ensures { OnOk result (out.new ≡ out.old ++ spec.switch_repeats width op (plans_of cases.now)) }
{
    if !is_switch(op) {
        return Ok(());
    }
    let mut seen = IndexSet::new(alloc);
    note_cases(alloc, width, &mut seen, out, cases)?;
    Ok(())
}

// The messages of a term: its own, then those in its braces.
#[cycle(walk)]
fn term_repeats(
    alloc: Global,
    width: Width,
    out: &mut Messages,
    term: &Term,
) -> Result<(), AllocError>
    ensures { OnOk result (out.new ≡ out.old ++ spec.term_repeats width (plan_of term.now)) }
{
    match term {
        Term::Form { op, args: _, body } => {
            switch_repeats(alloc, width, out, *op, body)?;
            all_repeats(alloc, width, out, body)?;
            Ok(())
        }
        _ => Ok(()),
    }
}

// The messages of terms one after another.
#[cycle(walk)]
fn all_repeats(
    alloc: Global,
    width: Width,
    out: &mut Messages,
    nodes: &[Node],
) -> Result<(), AllocError>
    ensures { OnOk result (out.new ≡ out.old ++ spec.repeated_values width (plans_of nodes.now)) }
{
    for node in nodes {
        term_repeats(alloc, width, out, &node.term)?;
    }
    Ok(())
}

/// The values that occur twice in a Switch of a block (ACPI Specification 6.4, 19.6.11): 6053 at each value of a
/// Case, or member of its Package, that is the same as one before it in the Switch, a Switch's messages before those of the
/// Switches in it. Integers are compared at the width of the table, Strings by their bytes, and Buffers by their bytes, which are
/// filled with zeros to their sizes; values of different kinds differ. Each value is hashed once.
pub fn repeated_values(alloc: Global, width: Width, terms: &[Node]) -> Result<Messages, AllocError>
    ensures { IfOk result (λ ms. ms ≡ spec.repeated_values width (plans_of terms.now)) }
{
    let mut out = Messages::new(alloc);
    all_repeats(alloc, width, &mut out, terms)?;
    Ok(out)
}
