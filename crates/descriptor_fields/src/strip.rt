//! Terms without those that declare descriptors.
ghost use Rattle.std.specs.Prelude.{◌≡◌, OnOk, IfOk};
ghost use Rattle.term_plans.specs.Plans.{plan_of, plans_of, plan_at, join};
ghost use Rattle.term_plans.specs.Plans as fills;
ghost use Rattle.descriptor_fields.specs.Declaring as spec;

use crate::declare::{has_terms, push};
use asl_tree::term::{Declaration, NamedDescriptor, Node, Op, Term};
use std::alloc::{AllocError, Global};

// The descriptors that have names in some bytes.
#[tactic(auto, using(crate::proofs::Terms::named_rules))]
fn named_of(term: &Term) -> &[NamedDescriptor]
    ensures { result.now ≡ fills.named_of (plan_of term.now) }
{
    match term {
        Term::Fill { named, .. } => named.as_slice(),
        _ => &[],
    }
}

fn is_naming(op: Op) -> bool
    ensures { result ≡ spec.is_naming op }
{
    matches!(op, Op::Declaration(Declaration::Name))
}

// The descriptor that the value of a name is.
#[tactic(auto, using(crate::proofs::Terms::value_some, crate::proofs::Terms::value_none))]
fn value_of(args: &[Node]) -> &[NamedDescriptor]
    ensures { result.now ≡ fills.named_of (plan_at (plans_of args.now) 1) }
{
    match args.get(1) {
        Some(value) => named_of(&value.term),
        None => &[],
    }
}

/// The descriptor that a term declares.
#[tactic(auto, using(crate::proofs::Terms::declared_rules))]
pub(crate) fn declared_by(term: &Term) -> &[NamedDescriptor]
    ensures { result.now ≡ spec.declared_by (plan_of term.now) }
{
    match term {
        Term::Form { op, args, .. } => { if is_naming(*op) { value_of(args) } else { &[] } }
        _ => &[],
    }
}

// A term without such terms in it.
#[cycle(strip)]
#[tactic(auto, using(crate::proofs::Terms::closed_rules))]
fn close(alloc: Global, term: Term) -> Result<Term, AllocError>
    ensures { IfOk result (λ made. plan_of made ≡ spec.closed (plan_of term)) }
{
    match term {
        Term::Form { op, args, body } => {
            if has_terms(op) {
                let body = stripped(alloc, body)?;
                return Ok(Term::Form { op, args, body });
            }
            Ok(Term::Form { op, args, body })
        }
        other => Ok(other),
    }
}

// Adds a term, unless it declares a descriptor.
#[cycle(strip)]
#[tactic(auto, using(crate::proofs::Terms::unless_none, crate::proofs::Terms::unless_some, term_plans::proofs::Lists::join_nothing))]
fn add_term(alloc: Global, out: &mut Vec<Node>, node: Node) -> Result<(), AllocError>
    ensures { OnOk result (plans_of out.new.items ≡ join (plans_of out.old.items) (spec.kept node.place (plan_of node.term))) }
{
    if !declared_by(&node.term).is_empty() {
        return Ok(());
    }
    let Node { place, term, .. } = node;
    push(out, place, close(alloc, term)?)?;
    Ok(())
}

/// Terms without those that declare descriptors. The nodes have no numbers then.
#[cycle(strip)]
pub fn stripped(alloc: Global, nodes: Vec<Node>) -> Result<Vec<Node>, AllocError>
    ensures { IfOk result (λ made. plans_of made.items ≡ spec.stripped (plans_of nodes.items)) }
{
    let mut left = nodes;
    left.reverse();
    let mut out = Vec::new(alloc);
    while let Some(node) = left.pop() {
        add_term(alloc, &mut out, node)?;
    }
    Ok(out)
}
