//! Numbers in preorder: each node, then its arguments, then its body.
ghost use Rattle.std.specs.Prelude.{◌≡◌, ◌+◌, ◌^◌, ◌≤◌, suc, IfSome, IfNone, IfOk, IfErr};
ghost use Rattle.asl_tree.specs.View.{tree_of, trees_of};
ghost use Rattle.asl_tree.specs.Tree.{At};
ghost use Rattle.term_plans.specs.Plans.{plan_of, plans_of};
ghost use Rattle.asl_numbers.specs.Numbers.{inside, nodes as node_count, numbered, numbered_all};

use asl_tree::term::{Node, Term};
use std::alloc::AllocError;

/// Terms with their nodes numbered from 0; the terms, their places and their order stay what they are. More than 2^32
/// nodes, of which the last has no number, are answered as want of memory. Then nothing is left of the terms.
pub fn numbered(terms: Vec<Node>) -> Result<Vec<Node>, AllocError>
    ensures trees { IfOk result (λ made. trees_of made.items ≡ numbered_all 0 (plans_of terms.items)) }
    ensures plans { IfOk result (λ made. plans_of made.items ≡ plans_of terms.items) }
    ensures full { IfErr result (λ _. 2 ^ 32 ≤ node_count (plans_of terms.items)) }
{
    let mut made = terms;
    match number_nodes(&mut made, 0) {
        Some(_) => Ok(made),
        None => Err(AllocError),
    }
}

// Gives each node its number, the first that of `first`, and answers the number behind the last. It answers None exactly
// where that number is more than 32 bits hold.
#[cycle(number)]
fn number_nodes(nodes: &mut Vec<Node>, first: u32) -> Option<u32>
    ensures next { IfSome result (λ next. next ≡ first + node_count (plans_of nodes.old.items)) }
    ensures trees { IfSome result (λ next. trees_of nodes.new.items ≡ numbered_all first (plans_of nodes.old.items)) }
    ensures plans { IfSome result (λ next. plans_of nodes.new.items ≡ plans_of nodes.old.items) }
    ensures none { IfNone result (2 ^ 32 ≤ first + node_count (plans_of nodes.old.items)) }
{
    let mut next = first;
    for node in nodes.iter_mut() {
        next = number_node(node, next)?;
    }
    Some(next)
}

// The same for what stands in braces, which mostly is nothing.
#[cycle(number)]
#[inline(always)]
fn number_within(body: &mut Vec<Node>, first: u32) -> Option<u32>
    ensures next { IfSome result (λ next. next ≡ first + node_count (plans_of body.old.items)) }
    ensures trees { IfSome result (λ next. trees_of body.new.items ≡ numbered_all first (plans_of body.old.items)) }
    ensures plans { IfSome result (λ next. plans_of body.new.items ≡ plans_of body.old.items) }
    ensures none { IfNone result (2 ^ 32 ≤ first + node_count (plans_of body.old.items)) }
{
    if body.is_empty() {
        Some(first)
    } else {
        number_nodes(body, first)
    }
}

// A node with this number, and those inside it with the numbers behind it, where they stand. It answers the number behind
// the last, and None exactly where that number is more than 32 bits hold.
#[cycle(number)]
fn number_node(node: &mut Node, number: u32) -> Option<u32>
    ensures next { IfSome result (λ next. next ≡ suc number + inside (plan_of node.old.term)) }
    ensures id { IfSome result (λ next. node.new.id ≡ number) }
    ensures place { IfSome result (λ next. node.new.place ≡ node.old.place) }
    ensures tree { IfSome result (λ next. (at : At) → tree_of at node.new.term ≡ numbered at (suc number) (plan_of node.old.term)) }
    ensures plan { IfSome result (λ next. plan_of node.new.term ≡ plan_of node.old.term) }
    ensures none { IfNone result (2 ^ 32 ≤ suc number + inside (plan_of node.old.term)) }
{
    let first = number.checked_add(1)?;
    node.id = number;
    match &mut node.term {
        Term::Call { path: _, args } => {
            let next = number_nodes(args, first)?;
            Some(next)
        }
        Term::Form { op: _, args, body } => {
            let next = number_nodes(args, first)?;
            let next = number_within(body, next)?;
            Some(next)
        }
        _ => Some(first),
    }
}
