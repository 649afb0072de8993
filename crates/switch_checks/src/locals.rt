//! Methods that leave too few Locals for their Switches.
ghost use Rattle.std.specs.Prelude.{◌≡◌, ◌++◌, length, unwrap_or, IfOk, OnOk};
ghost use Rattle.term_plans.specs.Plans.{plan_of, plans_of};
ghost use Rattle.term_plans.specs.Places.{nowhere as no_place};
ghost use Rattle.asl_tree.specs.View.{trees_of};
ghost use Rattle.acpi_names.specs.Parts.{part_of};
ghost use Rattle.switch_checks.specs.Locals as spec;

use crate::told::tell_if;
use acpi_names::part::{NameRole, What, part_for};
use asl_tree::term::{Declaration, Node, Op, Term};
use iasl_messages::message::Messages;
use iasl_messages::number::TOO_FEW_LOCALS;
use iasl_messages::place::Place;
use std::alloc::{AllocError, Global};
use switch_loops::enough::is_enough;
use switch_loops::switched::{has_switch, is_switch};

fn is_method(op: Op) -> bool
    ensures { result ≡ spec.is_method op }
{
    matches!(op, Op::Declaration(Declaration::Method))
}

fn nowhere() -> Place
    ensures { result ≡ no_place }
{
    Place {
        file: 0,
        line: 0,
        column: 0,
    }
}

// Where the first Switch of a term stands.
#[cycle(search)]
fn switch_in(node: &Node) -> Option<Place>
    ensures { result ≡ spec.switch_in node.now.place (plan_of node.now.term) }
{
    match &node.term {
        Term::Form { op, args: _, body } => if is_switch(*op) {
            Some(node.place)
        } else if is_method(*op) {
            None
        } else {
            first_switch(body)
        },
        _ => None,
    }
}

// Where the first Switch of some terms stands.
#[cycle(search)]
fn first_switch(nodes: &[Node]) -> Option<Place>
    ensures { result ≡ spec.first_switch (plans_of nodes.now) }
{
    for node in nodes {
        if let Some(place) = switch_in(node) {
            return Some(place);
        }
    }
    None
}

fn switch_place(terms: &[Node]) -> Place
    ensures { result ≡ unwrap_or (spec.first_switch (plans_of terms.now)) no_place }
{
    match first_switch(terms) {
        Some(place) => place,
        None => nowhere(),
    }
}

// What is told of a method's body, or of what of a block lies outside methods.
fn own_error(alloc: Global, out: &mut Messages, terms: &[Node]) -> Result<(), AllocError>
    ensures { OnOk result (out.new ≡ out.old ++ spec.own_error (trees_of terms.now) (plans_of terms.now)) }
{
    let wrong = !is_enough(terms);
    tell_if(alloc, out, wrong, TOO_FEW_LOCALS, switch_place(terms))?;
    Ok(())
}

// What is told of a method's body, or of a block: nothing where no Switch stands in it.
#[cycle(walk)]
fn body_errors(alloc: Global, out: &mut Messages, terms: &[Node]) -> Result<(), AllocError>
    ensures { OnOk result (out.new ≡ out.old ++ spec.few_locals (trees_of terms.now) (plans_of terms.now)) }
{
    if !has_switch(terms) {
        return Ok(());
    }
    own_error(alloc, out, terms)?;
    method_errors(alloc, out, terms)?;
    Ok(())
}

// What is told of a form.
#[cycle(walk)]
fn form_errors(
    alloc: Global,
    out: &mut Messages,
    op: Op,
    args: &[Node],
    body: &[Node],
) -> Result<(), AllocError>
    ensures { OnOk result (out.new ≡ out.old ++ spec.part_errors (part_of op (trees_of args.now) (trees_of body.now)) (trees_of body.now)
        (plans_of body.now)) }
{
    match part_for(op, args, body) {
        NameRole::Declares {
            what: What::Method(_),
            opens: true,
            ..
        } => {
            body_errors(alloc, out, body)?;
            Ok(())
        }
        NameRole::Declares { opens: true, .. } | NameRole::Scope | NameRole::Within => {
            method_errors(alloc, out, body)?;
            Ok(())
        }
        _ => Ok(()),
    }
}

// What is told of one term.
#[cycle(walk)]
fn term_errors(alloc: Global, out: &mut Messages, alone: &[Node]) -> Result<(), AllocError>
    requires { length alone.now ≡ 1 }
    ensures { OnOk result (out.new ≡ out.old ++ spec.all_method_errors (trees_of alone.now) (plans_of alone.now)) }
{
    match &alone[0].term {
        Term::Form { op, args, body } => {
            form_errors(alloc, out, *op, args, body)?;
            Ok(())
        }
        _ => Ok(()),
    }
}

// What is told of the methods in some terms.
#[cycle(walk)]
fn method_errors(alloc: Global, out: &mut Messages, nodes: &[Node]) -> Result<(), AllocError>
    ensures { OnOk result (out.new ≡ out.old ++ spec.all_method_errors (trees_of nodes.now) (plans_of nodes.now)) }
{
    for index in 0..nodes.len() {
        term_errors(alloc, out, &nodes[index..index + 1])?;
    }
    Ok(())
}

/// The methods of a block that leave too few Locals for their Switches: 6061 at the first
/// Switch of each method, and of what of the block lies outside methods, in which fewer of Local0 to Local7 are named nowhere
/// than Switches nest, and one more where a Continue leaves a Switch. A method names what methods in it name too, and so does
/// the block. What lies outside methods is told first, then each method, before the methods in it.
pub fn few_locals(alloc: Global, terms: &[Node]) -> Result<Messages, AllocError>
    ensures { IfOk result (λ ms. ms ≡ spec.few_locals (trees_of terms.now) (plans_of terms.now)) }
{
    let mut out = Messages::new(alloc);
    body_errors(alloc, &mut out, terms)?;
    Ok(out)
}
