//! How many arguments a format asks for.
ghost use Rattle.std.specs.Prelude.{◌≡◌, ◌++◌, ◌+◌, ◌==◌, suc, length, OnOk};
ghost use Rattle.asl_tree.specs.Formats.{cut};
ghost use Rattle.asl_terms.specs.Terms as spec;
ghost use Rattle.term_plans.specs.Plans.{plan_of, plan_at, plans_of};

use crate::work::{Work, tell};
use asl_tree::term::{Control, Node, Op, Term};
use iasl_messages::number::WRONG_FORMAT_ARGUMENT_COUNT;
use iasl_messages::place::Place;
use std::alloc::{AllocError, Global};

// How often `%o` stands in a format.
#[tactic(auto, using(crate::proofs::Holes::hole_rules))]
fn holes(format: &[u8]) -> usize
    ensures { result ≡ length (cut format.now).1 }
{
    let mut count = 0;
    let mut rest = format;
    while let [first, behind @ ..] = rest {
        rest = behind;
        if *first == b'%' {
            if let [second, after @ ..] = behind {
                if *second == b'o' {
                    count += 1;
                    rest = after;
                } else if *second == b'%' {
                    rest = after;
                }
            }
        }
    }
    count
}

// How many arguments a term asks for, where it is a format.
#[tactic(auto, unfolding(term_plans::specs::Plans::plan_of))]
fn holes_in(term: &Term) -> Option<usize>
    ensures { result ≡ spec.holes_in (plan_of term.now) }
{
    match term {
        Term::Text(bytes) => Some(holes(bytes.as_bytes())),
        _ => None,
    }
}

#[tactic(auto, using(crate::proofs::Holes::at_rules))]
fn holes_at(nodes: &[Node], i: usize) -> Option<usize>
    ensures { result ≡ spec.holes_in (plan_at (plans_of nodes.now) i) }
{
    match nodes.get(i) {
        Some(node) => holes_in(&node.term),
        None => None,
    }
}

// Whether so many arguments stand behind a place among this many nodes.
#[tactic(auto, using(std::proofs::lemmas::Bool::Decides::nat_tests))]
fn are_behind(count: usize, place: usize, holes: usize) -> bool
    ensures { result ≡ (count == suc place + holes) }
{
    count > place && count - place - 1 == holes
}

#[tactic(auto, using(crate::proofs::Holes::count_rules))]
fn count_behind(
    alloc: Global,
    work: &mut Work,
    place: Place,
    i: usize,
    nodes: &[Node],
) -> Result<(), AllocError>
    ensures { OnOk result (work.new.faults.items ≡ work.old.faults.items ++ spec.count_faults place i (plans_of nodes.now)) }
{
    match holes_at(nodes, i) {
        Some(holes) => {
            if are_behind(nodes.len(), i, holes) {
                Ok(())
            } else {
                Ok(tell(alloc, work, WRONG_FORMAT_ARGUMENT_COUNT, place)?)
            }
        }
        None => Ok(()),
    }
}

/// Tells of a good format that has more or fewer arguments behind it than it asks for.
#[tactic(auto, using(crate::proofs::Terms::nothing_more))]
pub fn count_arguments(
    alloc: Global,
    work: &mut Work,
    op: Op,
    place: Place,
    nodes: &[Node],
) -> Result<(), AllocError>
    ensures { OnOk result (work.new.faults.items ≡ work.old.faults.items ++ spec.format_faults op place (plans_of nodes.now)) }
{
    match op {
        Op::Control(Control::Printf) => Ok(count_behind(alloc, work, place, 0, nodes)?),
        Op::Control(Control::Fprintf) => Ok(count_behind(alloc, work, place, 1, nodes)?),
        _ => Ok(()),
    }
}
