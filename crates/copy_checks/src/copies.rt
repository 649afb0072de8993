//! What is told where too many copies are made.
ghost use Rattle.std.specs.Prelude.{◌≡◌, ◌-◌, ◌^◌, ℕ, min, IfOk};
ghost use Rattle.term_plans.specs.Plans.{plan_of, plans_of};
ghost use Rattle.asl_numbers.specs.Numbers.{nodes as node_count};
ghost use Rattle.form_presence.specs.Present.{have_op, is_form};
ghost use Rattle.copy_checks.specs.Copies.{IsSizeOf};
ghost use Rattle.copy_checks.specs.Copies as spec;

use asl_tree::term::{Control, Node, Op, Term};
use form_presence::present::Presence;
use iasl_messages::message::{Message, Messages};
use iasl_messages::number::TOO_MANY_COPIES;
use iasl_messages::place::Place;
use iasl_ports::list::Text;
use std::alloc::{AllocError, Global};

/// The numbers that nodes can have.
const NUMBERS: u64 = 4_294_967_296;

/// How large a program is, and where it is told that too many copies are made of it.
#[derive(Clone, Copy)]
pub struct ProgramSize {
    /// Its first For, or its block where there is none.
    pub place: Place,
    /// How many nodes it has; the largest u64 stands for more.
    pub nodes: u64,
}

fn is_for(op: Op) -> bool
    ensures { result ≡ spec.is_for op }
{
    matches!(op, Op::Control(Control::For))
}

// The place of the first For among some nodes.
#[cycle(first)]
fn first_for(nodes: &[Node]) -> Option<Place>
    ensures { result ≡ spec.first_for (plans_of nodes.now) }
{
    for node in nodes {
        if let Some(place) = for_at(node) {
            return Some(place);
        }
    }
    None
}

// That of a node itself, or in it.
#[cycle(first)]
fn for_at(node: &Node) -> Option<Place>
    ensures { result ≡ spec.for_at node.now.place (plan_of node.now.term) }
{
    match &node.term {
        Term::Call { args, .. } => first_for(args),
        Term::Form { op, args, body } => {
            if is_for(*op) {
                return Some(node.place);
            }
            match first_for(args) {
                Some(place) => Some(place),
                None => first_for(body),
            }
        }
        _ => None,
    }
}

// The place of the first For among terms; where no For, no Printf and no Fprintf was seen in them, none is looked for.
#[tactic(auto, using(crate::proofs::Absent::none_first))]
fn first_seen(terms: &[Node], seen: Presence) -> Option<Place>
    requires { seen.forms ≡ have_op is_form (plans_of terms.now) }
    ensures { result ≡ spec.first_for (plans_of terms.now) }
{
    if seen.forms { first_for(terms) } else { None }
}

fn place_of(found: Option<Place>, block: Place) -> Place
    ensures { result ≡ spec.at_for found block }
{
    match found {
        Some(place) => place,
        None => block,
    }
}

/// How large a program is, of a block at this place with these terms. What stands in them, and how many nodes they have, was seen
/// before.
pub fn program_size(block: Place, terms: &[Node], seen: Presence) -> ProgramSize
    requires forms { seen.forms ≡ have_op is_form (plans_of terms.now) }
    requires nodes { seen.nodes ≡ min (node_count (plans_of terms.now)) (2 ^ 64 - 1) }
    ensures { IsSizeOf block (plans_of terms.now) result }
{
    ProgramSize {
        place: place_of(first_seen(terms, seen), block),
        nodes: seen.nodes,
    }
}

/// What is told of a program of such a size whose core has so many nodes (the largest u64 stands for more): nothing, or 6062.
#[tactic(auto, using(crate::proofs::Telling::none_told, crate::proofs::Telling::one_told))]
pub fn copies_told(alloc: Global, size: ProgramSize, core: u64) -> Result<Messages, AllocError>
    ensures { (program nodes : ℕ) → size.nodes ≡ min program (2 ^ 64 - 1) → core ≡ min nodes (2 ^ 64 - 1) →
        IfOk result (λ told. told ≡ spec.copies_told size.place program nodes) }
{
    let mut told = Messages::new(alloc);
    if size.nodes.saturating_add(core) < NUMBERS {
        return Ok(told);
    }
    told.push(Message {
        number: TOO_MANY_COPIES,
        place: size.place,
        name: Text::new(alloc),
    })?;
    Ok(told)
}
