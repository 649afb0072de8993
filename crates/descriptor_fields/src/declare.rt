//! The names of resource descriptors as terms of their own.
ghost use Rattle.std.specs.Prelude.{◌≡◌, ◌++◌, OnOk, IfOk};
ghost use Rattle.term_plans.specs.Plans.{plan_of, plans_of, join};
ghost use Rattle.descriptor_fields.specs.Declaring as spec;

use asl_tree::path::{NameSeg, Path, Segs};
use asl_tree::term::{Declaration, NamedDescriptor, Node, Op, Term};
use iasl_messages::place::Place;
use iasl_ports::list::{List, Text};
use std::alloc::{AllocError, Global};

/// Whether the body of a form is a list of terms.
pub(crate) fn has_terms(op: Op) -> bool
    ensures { result ≡ spec.has_terms op }
{
    match op {
        Op::Declaration(
            Declaration::Method
            | Declaration::Device
            | Declaration::ThermalZone
            | Declaration::PowerResource
            | Declaration::Processor
            | Declaration::Scope,
        ) => true,
        Op::Control(_) => true,
        _ => false,
    }
}

// Whether a term declares its own name before its expressions.
fn names_first(op: Op) -> bool
    ensures { result ≡ spec.names_first op }
{
    matches!(
        op,
        Op::Declaration(Declaration::Name | Declaration::OperationRegion)
    )
}

#[tactic(auto, using(crate::proofs::Terms::first_rules))]
fn is_first(term: &Term) -> bool
    ensures { result ≡ spec.is_first (plan_of term.now) }
{
    match term {
        Term::Form { op, .. } => names_first(*op),
        _ => false,
    }
}

// Whether any descriptor in a term has a name, in terms of its body too.
#[cycle(some)]
#[tactic(auto, using(crate::proofs::Terms::one_rules))]
fn names_descriptor(term: &Term) -> bool
    ensures { result ≡ spec.names_descriptor (plan_of term.now) }
{
    match term {
        Term::Fill { named, .. } => !named.as_slice().is_empty(),
        Term::Call { args, .. } => names_descriptors(args),
        Term::Form { args, body, .. } => names_descriptors(args) || names_within(body),
        _ => false,
    }
}

// Whether any has one in what stands in braces, which mostly is nothing.
#[cycle(some)]
#[inline(always)]
fn names_within(body: &[Node]) -> bool
    ensures { result ≡ spec.names_descriptors (plans_of body.now) }
{
    if body.is_empty() {
        false
    } else {
        names_descriptors(body)
    }
}

/// Whether any descriptor has a name in the templates of terms, also in terms of their bodies. Where none has, there are no
/// names of descriptors to resolve.
#[cycle(some)]
pub fn names_descriptors(nodes: &[Node]) -> bool
    ensures { result ≡ spec.names_descriptors (plans_of nodes.now) }
{
    for node in nodes {
        if names_descriptor(&node.term) {
            return true;
        }
    }
    false
}

// Adds the descriptors that have names in a term, those in terms of its body aside.
#[cycle(names)]
#[tactic(auto, using(crate::proofs::Terms::inside_rules))]
fn add_inside(names: &mut Vec<NamedDescriptor>, term: &Term) -> Result<(), AllocError>
    ensures { OnOk result (names.new.items ≡ names.old.items ++ spec.names_inside (plan_of term.now)) }
{
    match term {
        Term::Fill { named, .. } => Ok(names.extend_from_slice(named.as_slice())?),
        Term::Call { args, .. } => Ok(add_among(names, args)?),
        Term::Form { op, args, body } => {
            add_among(names, args)?;
            if !has_terms(*op) {
                add_among(names, body)?;
            }
            Ok(())
        }
        _ => Ok(()),
    }
}

#[cycle(names)]
fn add_among(names: &mut Vec<NamedDescriptor>, nodes: &[Node]) -> Result<(), AllocError>
    ensures { OnOk result (names.new.items ≡ names.old.items ++ spec.names_among (plans_of nodes.now)) }
{
    for node in nodes {
        add_inside(names, &node.term)?;
    }
    Ok(())
}

// Adds a node, which has no number yet.
#[tactic(auto, using(crate::proofs::Terms::push_rules))]
pub(crate) fn push(nodes: &mut Vec<Node>, place: Place, term: Term) -> Result<(), AllocError>
    ensures { OnOk result (plans_of nodes.new.items ≡ join (plans_of nodes.old.items) (spec.alone place (plan_of term))) }
{
    nodes.push(Node { id: 0, place, term })?;
    Ok(())
}

fn segment_path(segment: NameSeg) -> Path
    ensures { result ≡ spec.segment_path segment }
{
    Path {
        root: false,
        up: 0,
        segs: Segs::one(segment),
    }
}

// The term that declares a descriptor.
#[tactic(auto, using(crate::proofs::Terms::made_rules))]
fn declaration(alloc: Global, named: NamedDescriptor) -> Result<Term, AllocError>
    ensures { IfOk result (λ term. plan_of term ≡ spec.declaration named) }
{
    let mut own = List::new(alloc);
    own.push(named)?;
    let mut args = Vec::new(alloc);
    push(&mut args, named.place, Term::Name(segment_path(named.name)))?;
    push(
        &mut args,
        named.place,
        Term::Fill {
            bytes: Text::new(alloc),
            named: own,
        },
    )?;
    Ok(Term::Form {
        op: Op::Declaration(Declaration::Name),
        args,
        body: Vec::new(alloc),
    })
}

// Adds the terms that declare some descriptors.
fn add_declarations(
    alloc: Global,
    nodes: &mut Vec<Node>,
    names: Vec<NamedDescriptor>,
) -> Result<(), AllocError>
    ensures { OnOk result (plans_of nodes.new.items ≡ join (plans_of nodes.old.items) (spec.declarations names.items)) }
{
    let mut left = names;
    left.reverse();
    while let Some(named) = left.pop() {
        push(nodes, named.place, declaration(alloc, named)?)?;
    }
    Ok(())
}

// A term whose terms have with them those that declare their descriptors.
#[cycle(declare)]
#[tactic(auto, using(crate::proofs::Terms::opened_rules))]
fn open(alloc: Global, term: Term) -> Result<Term, AllocError>
    ensures { IfOk result (λ made. plan_of made ≡ spec.opened (plan_of term)) }
{
    match term {
        Term::Form { op, args, body } => {
            if has_terms(op) {
                let body = declaring(alloc, body)?;
                return Ok(Term::Form { op, args, body });
            }
            Ok(Term::Form { op, args, body })
        }
        other => Ok(other),
    }
}

// Adds a term and those that declare its descriptors, which stand behind it where it declares its own name first.
#[tactic(auto, using(term_plans::proofs::Lists::join_assoc))]
fn add_beside(
    alloc: Global,
    out: &mut Vec<Node>,
    first: bool,
    names: Vec<NamedDescriptor>,
    place: Place,
    term: Term,
) -> Result<(), AllocError>
    ensures { OnOk result
        (plans_of out.new.items ≡ join (plans_of out.old.items)
        (spec.beside first (spec.declarations names.items) (spec.alone place (plan_of term)))) }
{
    if first {
        push(out, place, term)?;
        add_declarations(alloc, out, names)?;
        Ok(())
    } else {
        add_declarations(alloc, out, names)?;
        push(out, place, term)?;
        Ok(())
    }
}

// Adds a term with those that declare its descriptors.
#[cycle(declare)]
fn add_term(alloc: Global, out: &mut Vec<Node>, node: Node) -> Result<(), AllocError>
    ensures { OnOk result (plans_of out.new.items ≡ join (plans_of out.old.items) (spec.with_names node.place (plan_of node.term))) }
{
    let mut names = Vec::new(alloc);
    add_inside(&mut names, &node.term)?;
    let first = is_first(&node.term);
    let Node { place, term, .. } = node;
    let term = open(alloc, term)?;
    add_beside(alloc, out, first, names, place, term)?;
    Ok(())
}

/// Terms with those that declare their descriptors, in the order in which the names are written. The nodes have no numbers
/// then.
#[cycle(declare)]
pub fn declaring(alloc: Global, nodes: Vec<Node>) -> Result<Vec<Node>, AllocError>
    ensures { IfOk result (λ made. plans_of made.items ≡ spec.declaring (plans_of nodes.items)) }
{
    let mut left = nodes;
    left.reverse();
    let mut out = Vec::new(alloc);
    while let Some(node) = left.pop() {
        add_term(alloc, &mut out, node)?;
    }
    Ok(out)
}
