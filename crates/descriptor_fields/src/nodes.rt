//! The descriptors that terms declare, by the numbers of the nodes that are their names.
ghost use Rattle.std.specs.Prelude.{◌≡◌, ◌&&◌, ◌++◌, ◌∷◌, [], get_or, None, IfOk, OnOk};
ghost use Rattle.term_plans.specs.Plans.{plan_of, plans_of};
ghost use Rattle.descriptor_fields.specs.Declaring as declaring;
ghost use Rattle.descriptor_fields.specs.Nodes as spec;
ghost use Rattle.descriptor_fields.specs.Nodes.{IsPut, SaysAt, SaysMore};

use crate::declare::has_terms;
use crate::strip::declared_by;
use asl_tree::term::{NamedDescriptor, Node, Op, Term};
use std::alloc::{AllocError, Global};

/// What a table says at a number.
pub fn at_node<T: Copy>(table: &[Option<T>], number: usize) -> Option<T>
    ensures { result ≡ get_or table.now number None }
{
    match table.get(number) {
        Some(said) => *said,
        None => None,
    }
}

/// Says something at a number, of which the first that is said counts.
pub fn put<T: Copy>(table: &mut Vec<Option<T>>, number: usize, value: T) -> Result<(), AllocError>
    ensures put { OnOk result (IsPut table.old.items table.new.items number value) }
    ensures said { OnOk result (SaysMore table.old.items table.new.items ((number, value) ∷ [])) }
{
    while table.len() <= number {
        table.push(None)?;
    }
    match table[number] {
        Some(_) => {}
        None => table[number] = Some(value),
    }
    Ok(())
}

// The entry of the first node inside a term, which is one of a list of terms or not.
fn own_entry(terms: bool, term: &Term) -> Option<NamedDescriptor>
    ensures { result ≡ spec.own_entry terms (plan_of term.now) }
{
    if !terms {
        return None;
    }
    match declared_by(term).first() {
        Some(descriptor) => Some(*descriptor),
        None => None,
    }
}

// Whether the body of a form that stands among terms, or does not, is a list of terms.
fn are_terms(terms: bool, op: Op) -> bool
    ensures { result ≡ (terms && declaring.has_terms op) }
{
    terms && has_terms(op)
}

// Adds the entries of the nodes inside a term.
#[cycle(named)]
#[tactic(auto, using(crate::proofs::Terms::entry_rules))]
fn add_inside(
    named: &mut Vec<Option<NamedDescriptor>>,
    terms: bool,
    term: &Term,
) -> Result<(), AllocError>
    ensures { OnOk result (named.new.items ≡ named.old.items ++ spec.entries_inside terms (plan_of term.now)) }
{
    match term {
        Term::Call { args, .. } => Ok(add_among(named, false, None, args)?),
        Term::Form { op, args, body } => {
            add_among(named, false, own_entry(terms, term), args)?;
            add_among(named, are_terms(terms, *op), None, body)?;
            Ok(())
        }
        _ => Ok(()),
    }
}

// Adds the entries of nodes, of which the first has this one, and of those inside them.
#[cycle(named)]
fn add_among(
    named: &mut Vec<Option<NamedDescriptor>>,
    terms: bool,
    first: Option<NamedDescriptor>,
    nodes: &[Node],
) -> Result<(), AllocError>
    ensures { OnOk result (named.new.items ≡ named.old.items ++ spec.entries_among terms first (plans_of nodes.now)) }
{
    let mut own = first;
    for node in nodes {
        named.push(own)?;
        own = None;
        add_inside(named, terms, &node.term)?;
    }
    Ok(())
}

/// The descriptors that terms declare, by the numbers in preorder of the nodes that are their names. The only error is want
/// of memory.
pub fn named_nodes(
    alloc: Global,
    terms: &[Node],
) -> Result<Vec<Option<NamedDescriptor>>, AllocError>
    ensures { IfOk result (λ named. SaysAt named.items (spec.named_from 0 (plans_of terms.now))) }
{
    let mut named = Vec::new(alloc);
    add_among(&mut named, true, None, terms)?;
    Ok(named)
}
