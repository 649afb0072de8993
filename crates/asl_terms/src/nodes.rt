//! Nodes behind the others of their list.
ghost use Rattle.std.specs.Prelude.{◌≡◌, ◌<◌, ◌++◌, vec_len, OnOk};
ghost use Rattle.asl_terms.specs.Terms as spec;
ghost use Rattle.term_plans.specs.Plans.{plan_of, plans_of, join, last_plan, before_last, with_last, one_plan};

use crate::work::{Work, tell};
use asl_tree::term::{Node, Term};
use iasl_messages::place::Place;
use std::alloc::{AllocError, Global};

/// Adds a node, which has no number yet. There is room for it first, so that it is made where it stays.
#[inline(always)]
#[tactic(auto, using(crate::proofs::Settled::push_rules))]
pub fn push(nodes: &mut Vec<Node>, place: Place, term: Term) -> Result<(), AllocError>
    ensures { OnOk result (plans_of nodes.new.items ≡ join (plans_of nodes.old.items) (one_plan place (plan_of term))) }
{
    nodes.reserve(1)?;
    nodes.push_reserved(Node { id: 0, place, term });
    Ok(())
}

/// An error without a name, and what is left out in place of a term.
#[inline(never)]
#[tactic(auto, unfolding(term_plans::specs::Plans::plan_of))]
pub fn add_refused(
    alloc: Global,
    work: &mut Work,
    nodes: &mut Vec<Node>,
    number: u16,
    place: Place,
) -> Result<(), AllocError>
    ensures faults { OnOk result (work.new.faults.items ≡ work.old.faults.items ++ (spec.refused number place).faults) }
    ensures made { OnOk result
        (plans_of nodes.new.items ≡ join (plans_of nodes.old.items) (one_plan place (spec.refused number place).made)) }
{
    tell(alloc, work, number, place)?;
    push(nodes, place, Term::Omitted)
}

/// The term of the last node, which it takes out of the list.
#[tactic(auto, using(crate::proofs::Last::taken_rules))]
pub fn take_last(nodes: &mut Vec<Node>) -> Term
    ensures term { plan_of result ≡ last_plan (plans_of nodes.old.items) }
    ensures rest { plans_of nodes.new.items ≡ before_last (plans_of nodes.old.items) }
{
    match nodes.pop() {
        Some(node) => node.term,
        None => Term::Omitted,
    }
}

/// The term of the last node.
#[tactic(auto, using(crate::proofs::Last::last_node))]
pub fn last_term(nodes: &Vec<Node>) -> &Term
    requires { 0 < vec_len nodes.now }
    ensures { last_plan (plans_of nodes.now.items) ≡ plan_of result.now }
{
    let last = nodes.len() - 1;
    &nodes[last].term
}

/// This term in place of that of the last node.
#[tactic(auto, using(crate::proofs::Last::last_put))]
pub fn put_last(nodes: &mut Vec<Node>, term: Term)
    requires { 0 < vec_len nodes.old }
    ensures { plans_of nodes.new.items ≡ with_last (plan_of term) (plans_of nodes.old.items) }
{
    let last = nodes.len() - 1;
    nodes[last].term = term;
}
