//! What stands in the terms of a method, or of a block, that becomes something else where loops stand for Switches.
ghost use Rattle.std.specs.Prelude.{◌≡◌};
ghost use Rattle.switch_loops.specs.Found.{joined, IsSoOf, IsSoIn};

use crate::braces::{Braces, braces_of};
use asl_tree::term::{Node, Term};

/// What stands in terms, at any depth in their braces, but for those of methods: neither a Switch nor a method, methods alone,
/// or a Switch.
#[derive(Clone, Copy)]
pub enum Found {
    Nothing,
    Methods,
    Switch,
}

// What is found in one place or another.
fn either(first: Found, second: Found) -> Found
    ensures { result ≡ joined first second }
{
    match first {
        Found::Nothing => second,
        Found::Methods => match second {
            Found::Switch => Found::Switch,
            _ => Found::Methods,
        },
        Found::Switch => Found::Switch,
    }
}

#[cycle(find)]
fn found_at(node: &Node) -> Found
    ensures { IsSoOf result node.now }
{
    match &node.term {
        Term::Form { op, args: _, body } => match braces_of(*op) {
            Braces::Terms => found_in(body),
            Braces::Method => Found::Methods,
            Braces::Cases => Found::Switch,
            Braces::Other => Found::Nothing,
        },
        _ => Found::Nothing,
    }
}

/// What stands in the terms of a list; where it is a Switch, what stands behind it is not looked at.
#[cycle(find)]
pub(crate) fn found_in(nodes: &[Node]) -> Found
    ensures { IsSoIn result nodes.now }
{
    let mut found = Found::Nothing;
    for node in nodes {
        found = either(found, found_at(node));
        if let Found::Switch = found {
            return Found::Switch;
        }
    }
    found
}
