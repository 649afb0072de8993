//! The arguments of a form, from those that are written.
ghost use Rattle.std.specs.Prelude.{◌≡◌, ◌≤◌, ◌∷◌, [], slice_get, take, OnOk, IfOk};
ghost use Rattle.asl_terms.specs.Terms as spec;
ghost use Rattle.term_plans.specs.Plans.{plan_of, plans_of, plan_at, number_of, first_plans, join, constant_of, one_plan};

use crate::nodes::push;
use crate::work::{is_omitted, value_of};
use acpi_values::width::Width;
use asl_tree::term::{Control, Declaration, Literal, Node, Op, Special, Term};
use asl_words::operator::Parameter;
use iasl_messages::place::Place;
use std::alloc::{AllocError, Global};

/// The number that a term is; 0 where it is none.
#[tactic(auto, unfolding(term_plans::specs::Plans::plan_of))]
pub fn number_in(term: &Term) -> u64
    ensures { result ≡ number_of (plan_of term.now) }
{
    match term {
        Term::Integer(number) => *number,
        _ => 0,
    }
}

/// The number that an argument is, counted from 0; 0 where it is none.
#[tactic(auto, using(term_plans::proofs::Lists::at_rules))]
pub fn number_at(nodes: &[Node], i: usize) -> u64
    ensures { result ≡ number_of (plan_at (plans_of nodes.now) i) }
{
    match nodes.get(i) {
        Some(node) => number_in(&node.term),
        None => 0,
    }
}

#[tactic(auto, using(crate::proofs::Settled::given_rules))]
fn is_given(nodes: &[Node], i: usize) -> bool
    ensures { result ≡ spec.is_stated (plan_at (plans_of nodes.now) i) }
{
    match nodes.get(i) {
        Some(node) => !is_omitted(&node.term),
        None => false,
    }
}

/// Adds what stands for an argument that is not there: a further one has nothing.
#[tactic(auto, using(crate::proofs::Joins::missing_rules))]
pub fn add_missing(
    nodes: &mut Vec<Node>,
    place: Place,
    parameter: Parameter,
) -> Result<(), AllocError>
    ensures { OnOk result (plans_of nodes.new.items ≡ join (plans_of nodes.old.items) (spec.missing place parameter)) }
{
    if parameter.further {
        Ok(())
    } else {
        Ok(push(nodes, place, Term::Omitted)?)
    }
}

// So many of the first.
#[tactic(auto, using(crate::proofs::Settled::first_are))]
fn keep_first(nodes: &mut Vec<Node>, count: usize)
    ensures { plans_of nodes.new.items ≡ first_plans count (plans_of nodes.old.items) }
{
    nodes.truncate(count);
}

fn flags_of(nodes: &[Node]) -> u64
    ensures { result ≡ spec.method_flags (plans_of nodes.now) }
{
    number_at(nodes, 1) % 8 + 8 * (number_at(nodes, 2) % 2) + 16 * (number_at(nodes, 3) % 16)
}

#[tactic(auto, unfolding(term_plans::specs::Plans::plan_of))]
fn method(nodes: &mut Vec<Node>, place: Place) -> Result<(), AllocError>
    ensures { OnOk result (plans_of nodes.new.items ≡ spec.method_settled place (plans_of nodes.old.items)) }
{
    let flags = flags_of(nodes);
    keep_first(nodes, 1);
    Ok(push(nodes, place, Term::Integer(flags))?)
}

#[tactic(auto, unfolding(term_plans::specs::Plans::plan_of))]
fn mutex(nodes: &mut Vec<Node>, place: Place) -> Result<(), AllocError>
    ensures { OnOk result (plans_of nodes.new.items ≡ spec.mutex_settled place (plans_of nodes.old.items)) }
{
    let level = number_at(nodes, 1) % 16;
    keep_first(nodes, 1);
    Ok(push(nodes, place, Term::Integer(level))?)
}

fn field_flags(nodes: &[Node], names: usize) -> u64
    requires { names ≤ 3 }
    ensures { result ≡ spec.field_flags names (plans_of nodes.now) }
{
    let access = number_at(nodes, names) % 16;
    let lock = number_at(nodes, names + 1) % 2;
    let update = number_at(nodes, names + 2) % 4;
    access + 16 * lock + 32 * update
}

// The arguments of a field whose words stand behind so many others.
#[tactic(auto, unfolding(term_plans::specs::Plans::plan_of))]
fn field(nodes: &mut Vec<Node>, place: Place, names: usize) -> Result<(), AllocError>
    requires { names ≤ 3 }
    ensures { OnOk result (plans_of nodes.new.items ≡ spec.field_settled names place (plans_of nodes.old.items)) }
{
    let flags = field_flags(nodes, names);
    keep_first(nodes, names);
    Ok(push(nodes, place, Term::Integer(flags))?)
}

#[tactic(auto, using(term_plans::proofs::Lists::join_nothing), unfolding(term_plans::specs::Plans::plan_of))]
fn external(nodes: &mut Vec<Node>, place: Place) -> Result<(), AllocError>
    ensures { OnOk result (plans_of nodes.new.items ≡ spec.external_settled place (plans_of nodes.old.items)) }
{
    let kind = number_at(nodes, 1);
    let states = is_given(nodes, 3);
    let count = number_at(nodes, 3);
    keep_first(nodes, 1);
    push(nodes, place, Term::Integer(kind))?;
    if states {
        Ok(push(nodes, place, Term::Integer(count))?)
    } else {
        Ok(())
    }
}

#[tactic(auto, using(crate::proofs::Settled::zero_rules))]
fn zero(alloc: Global) -> Term
    ensures { plan_of result ≡ spec.zero_plan }
{
    Term::Form {
        op: Op::Literal(Literal::Zero),
        args: Vec::new(alloc),
        body: Vec::new(alloc),
    }
}

#[tactic(auto, using(crate::proofs::Settled::single_rules))]
fn only(alloc: Global, nodes: &mut Vec<Node>, place: Place, term: Term) -> Result<(), AllocError>
    ensures { OnOk result (plans_of nodes.new.items ≡ one_plan place (plan_of term)) }
{
    nodes.truncate(0);
    Ok(push(nodes, place, term)?)
}

#[tactic(auto, using(crate::proofs::Settled::one_rules))]
fn one(alloc: Global) -> Term
    ensures { plan_of result ≡ spec.one_word }
{
    Term::Form {
        op: Op::Literal(Literal::One),
        args: Vec::new(alloc),
        body: Vec::new(alloc),
    }
}

// A For without a test tests One.
#[tactic(auto, using(crate::proofs::Settled::test_rules))]
fn tested(alloc: Global, nodes: &mut Vec<Node>)
    ensures { plans_of nodes.new.items ≡ spec.for_settled (plans_of nodes.old.items) }
{
    if nodes.len() > 1 && !is_given(nodes, 1) {
        nodes[1].term = one(alloc);
    }
}

#[tactic(auto)]
fn returned(alloc: Global, nodes: &mut Vec<Node>, place: Place) -> Result<(), AllocError>
    ensures { OnOk result (plans_of nodes.new.items ≡ spec.return_settled place (plans_of nodes.old.items)) }
{
    if is_given(nodes, 0) {
        Ok(())
    } else {
        Ok(only(alloc, nodes, place, zero(alloc))?)
    }
}

// The first argument, where it is a constant of at most 255.
#[tactic(auto, using(crate::proofs::Settled::few_rules))]
fn few_elements(width: Width, nodes: &[Node]) -> Option<u64>
    ensures { result ≡ spec.few_elements (constant_of width (plan_at (plans_of nodes.now) 0)) }
{
    let Some(node) = nodes.get(0) else {
        return None;
    };
    match value_of(width, &node.term) {
        Ok(count) => if count <= 255 { Some(count) } else { None },
        Err(_) => None,
    }
}

#[tactic(auto, unfolding(term_plans::specs::Plans::plan_of))]
fn package(
    alloc: Global,
    width: Width,
    nodes: &mut Vec<Node>,
    place: Place,
) -> Result<(), AllocError>
    ensures { OnOk result (plans_of nodes.new.items ≡ spec.package_settled width place (plans_of nodes.old.items)) }
{
    match few_elements(width, nodes) {
        Some(count) => Ok(only(alloc, nodes, place, Term::Integer(count))?),
        None => Ok(()),
    }
}

fn is_default_op(op: Op) -> bool
    ensures { result ≡ spec.is_default_op op }
{
    matches!(op, Op::Control(Control::Default))
}

#[tactic(auto, unfolding(term_plans::specs::Plans::plan_of))]
fn is_default(term: &Term) -> bool
    ensures { result ≡ spec.is_default_plan (plan_of term.now) }
{
    match term {
        Term::Form { op, .. } => is_default_op(*op),
        _ => false,
    }
}

fn is_default_node(node: &Node) -> bool
    ensures { result ≡ spec.is_default_plan (plan_of node.now.term) }
{
    is_default(&node.term)
}

// The Default behind all others.
#[tactic(auto, using(crate::proofs::Settled::last_rules))]
fn put_default_last(nodes: &mut Vec<Node>) -> Result<(), AllocError>
    ensures { OnOk result (plans_of nodes.new.items ≡ spec.default_last (plans_of nodes.old.items)) }
{
    for at in 0..nodes.len() {
        if is_default_node(&nodes[at]) {
            let default = nodes.remove(at);
            return Ok(nodes.push(default)?);
        }
    }
    Ok(())
}

/// The braces of a form, from what is written in them: a Default stands behind the Cases of its Switch.
pub fn arrange(op: Op, nodes: &mut Vec<Node>) -> Result<(), AllocError>
    ensures { OnOk result (plans_of nodes.new.items ≡ spec.arranged op (plans_of nodes.old.items)) }
{
    match op {
        Op::Control(Control::Switch) => Ok(put_default_last(nodes)?),
        _ => Ok(()),
    }
}

/// The arguments of a form in a table of this width, from those that are written.
pub fn settle(
    alloc: Global,
    width: Width,
    op: Op,
    place: Place,
    nodes: &mut Vec<Node>,
) -> Result<(), AllocError>
    ensures { OnOk result (plans_of nodes.new.items ≡ spec.settled width op place (plans_of nodes.old.items)) }
{
    match op {
        Op::Declaration(Declaration::Method) => method(nodes, place),
        Op::Declaration(Declaration::Mutex) => mutex(nodes, place),
        Op::Declaration(Declaration::External) => external(nodes, place),
        Op::Declaration(Declaration::Field) => field(nodes, place, 1),
        Op::Declaration(Declaration::IndexField) => field(nodes, place, 2),
        Op::Declaration(Declaration::BankField) => field(nodes, place, 3),
        Op::Control(Control::Return) => returned(alloc, nodes, place),
        Op::Special(Special::Package) => package(alloc, width, nodes, place),
        Op::Control(Control::For) => {
            tested(alloc, nodes);
            Ok(())
        }
        _ => Ok(()),
    }
}
