//! Terms that a Continue leaves, and those that it leaves from the braces of a container.
ghost use Rattle.std.specs.Prelude.{◌≡◌};
ghost use Rattle.asl_tree.specs.Tree.{At};
ghost use Rattle.asl_tree.specs.View.{tree_of, trees_of};
ghost use Rattle.asl_meaning.specs.Continues.{has_continue as tree_has_continue, have_continue as trees_have_continue};
ghost use Rattle.asl_prints.specs.Forms.{has_far_continue as tree_has_far, have_far_continue as trees_have_far};
ghost use Rattle.asl_prints.specs.Fits.{are_integers, braced as braced_if, braces_in, is_integer, is_named_with, is_use};
ghost use Rattle.asl_prints.specs.Nodes.{is_continue as continues};

use crate::lists::{all, are, is_none, others};
use asl_tree::term::{Control, Declaration, Node, Op, Term};

/// What the braces of a form are to a Continue in them.
#[derive(Clone, Copy, PartialEq, Eq, Debug)]
pub enum Braces {
    /// It leaves them, and names mean the same in them.
    Open,
    /// It leaves them, but they are the scope of a container.
    Scope,
    /// It does not leave them, or they are none.
    Closed,
}

/// Whether a form is a Continue.
pub fn is_continue(op: Op) -> bool
    ensures { result ≡ continues op }
{
    matches!(op, Op::Control(Control::Continue))
}

fn is_name(term: &Term) -> bool
    ensures { (at : At) → is_use (tree_of at term.now) ≡ result }
{
    match term {
        Term::Name(_) => true,
        _ => false,
    }
}

fn is_number(term: &Term) -> bool
    ensures { (at : At) → is_integer (tree_of at term.now) ≡ result }
{
    match term {
        Term::Integer(_) => true,
        Term::Word(_) => true,
        _ => false,
    }
}

#[tactic(auto, using(crate::proofs::Leaving::integers_none, crate::proofs::Leaving::integers_last))]
fn are_numbers(nodes: &[Node]) -> bool
    ensures { result ≡ are_integers (trees_of nodes.now) }
{
    for node in nodes {
        if !is_number(&node.term) {
            return false;
        }
    }
    true
}

// A name, and so many numbers behind it.
#[tactic(auto, using(crate::proofs::Leaving::named_first, crate::proofs::Leaving::named_none))]
fn named_with(args: &[Node], count: usize) -> bool
    ensures { result ≡ is_named_with count (trees_of args.now) }
{
    match args {
        [name, ..] => {
            let rest = others(args);
            all(is_name(&name.term), are(rest, count), are_numbers(rest))
        }
        _ => false,
    }
}

fn braced(holds: bool, braces: Braces) -> Braces
    ensures { result ≡ braced_if holds braces }
{
    if holds { braces } else { Braces::Closed }
}

// What the braces of a form with these arguments are.
fn braces_of(op: Op, args: &[Node]) -> Braces
    ensures { result ≡ braces_in op (trees_of args.now) }
{
    match op {
        Op::Control(Control::If | Control::ElseIf | Control::Switch | Control::Case) => {
            braced(are(args, 1), Braces::Open)
        }
        Op::Control(Control::Else | Control::Default) => braced(are(args, 0), Braces::Open),
        Op::Declaration(Declaration::Device | Declaration::ThermalZone | Declaration::Scope) => {
            braced(named_with(args, 0), Braces::Scope)
        }
        Op::Declaration(Declaration::PowerResource) => braced(named_with(args, 2), Braces::Scope),
        Op::Declaration(Declaration::Processor) => braced(named_with(args, 3), Braces::Scope),
        _ => Braces::Closed,
    }
}

#[cycle(continues)]
#[tactic(auto, using(crate::proofs::Leaving::continue_none, crate::proofs::Leaving::continue_last))]
fn have_continue(nodes: &[Node]) -> bool
    ensures { result ≡ trees_have_continue (trees_of nodes.now) }
{
    for node in nodes {
        if has_continue(&node.term) {
            return true;
        }
    }
    false
}

// Whether a Continue leaves a term.
#[cycle(continues)]
fn has_continue(term: &Term) -> bool
    ensures { (at : At) → tree_has_continue (tree_of at term.now) ≡ result }
{
    match term {
        Term::Form { op, args, body } => match braces_of(*op, args) {
            Braces::Closed => all(is_continue(*op), is_none(args), is_none(body)),
            _ => have_continue(body),
        },
        _ => false,
    }
}

/// Whether a Continue leaves nodes from the braces of a Device, a Scope or another container.
#[cycle(far)]
#[tactic(auto, using(crate::proofs::Leaving::far_none, crate::proofs::Leaving::far_last))]
pub fn have_far_continue(nodes: &[Node]) -> bool
    ensures { result ≡ trees_have_far (trees_of nodes.now) }
{
    for node in nodes {
        if has_far_continue(&node.term) {
            return true;
        }
    }
    false
}

#[cycle(far)]
fn has_far_continue(term: &Term) -> bool
    ensures { (at : At) → tree_has_far (tree_of at term.now) ≡ result }
{
    match term {
        Term::Form { op, args, body } => match braces_of(*op, args) {
            Braces::Open => have_far_continue(body),
            Braces::Scope => have_continue(body),
            Braces::Closed => false,
        },
        _ => false,
    }
}
