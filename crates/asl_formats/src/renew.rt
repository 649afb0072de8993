//! Copies of nodes with numbers of their own.
ghost use Rattle.std.specs.Prelude.{◌≡◌, ◌∷◌, [], ◌++◌, true, IfOk};
ghost use Rattle.asl_tree.specs.View.{trees_of};
ghost use Rattle.term_plans.specs.Plans.{join, plan_of, plans_of};
ghost use Rattle.asl_formats.specs.Bare.{bare_all};
ghost use Rattle.asl_prints.specs.Forms.{followed};
ghost use Rattle.asl_prints.specs.Numbers.{anew, next_behind, number_behind, numbered, numbers_in, numbers_of};
ghost use Rattle.asl_formats.specs.Plain.{are_plain};
ghost use Rattle.asl_prints.specs.PlanParts.{placed};

use asl_prints::copy::{copied_path, copied_term};
use asl_tree::term::{Node, Term};
use std::alloc::{AllocError, Global};

/// The next number.
pub(crate) fn take_id(next: &mut u32) -> u32
    ensures id { result ≡ next.old }
    ensures next { next.new ≡ number_behind next.old }
{
    let id = *next;
    *next = id.wrapping_add(1);
    id
}

/// A node with the place and the term of another, and with the next numbers.
#[cycle(renew)]
fn renewed(alloc: Global, node: &Node, next: &mut u32) -> Result<Node, AllocError>
    ensures plan { IfOk result (λ made. placed made ≡ placed node.now) }
    ensures numbers { IfOk result (λ made. numbers_of (made ∷ []) ≡ numbered next.old (anew (numbers_of (node.now ∷ [])))) }
    ensures next { IfOk result (λ made. next.new ≡ next_behind next.old (anew (numbers_of (node.now ∷ [])))) }
{
    let id = take_id(next);
    let term = renewed_term(alloc, &node.term, next)?;
    Ok(Node {
        id,
        place: node.place,
        term,
    })
}

#[cycle(renew)]
fn renewed_all(alloc: Global, nodes: &[Node], next: &mut u32) -> Result<Vec<Node>, AllocError>
    ensures plans { IfOk result (λ made. plans_of made.items ≡ plans_of nodes.now) }
    ensures numbers { IfOk result (λ made. numbers_of made.items ≡ numbered next.old (anew (numbers_of nodes.now))) }
    ensures next { IfOk result (λ made. next.new ≡ next_behind next.old (anew (numbers_of nodes.now))) }
{
    let mut made = Vec::new(alloc);
    for node in nodes {
        made.push(renewed(alloc, node, next)?)?;
    }
    Ok(made)
}

#[cycle(renew)]
#[tactic(auto, using(term_plans::proofs::Plans::plan_form, term_plans::proofs::Plans::plan_call))]
fn renewed_term(alloc: Global, term: &Term, next: &mut u32) -> Result<Term, AllocError>
    ensures plan { IfOk result (λ made. plan_of made ≡ plan_of term.now) }
    ensures numbers { IfOk result (λ made. numbers_in made ≡ numbered next.old (anew (numbers_in term.now))) }
    ensures next { IfOk result (λ made. next.new ≡ next_behind next.old (anew (numbers_in term.now))) }
{
    match term {
        Term::Call { path, args } => {
            let path = copied_path(alloc, path)?;
            let args = renewed_all(alloc, args, next)?;
            Ok(Term::Call { path, args })
        }
        Term::Form { op, args, body } => {
            let args = renewed_all(alloc, args, next)?;
            let body = renewed_all(alloc, body, next)?;
            Ok(Term::Form {
                op: *op,
                args,
                body,
            })
        }
        _ => {
            let copy = copied_term(alloc, term)?;
            Ok(copy)
        }
    }
}

/// Such nodes behind others.
pub(crate) fn append_renewed(
    alloc: Global,
    front: Vec<Node>,
    nodes: &[Node],
    next: &mut u32,
) -> Result<Vec<Node>, AllocError>
    ensures trees { are_plain (plans_of nodes.now) ≡ true →
        IfOk result (λ all. bare_all (trees_of all.items) ≡ bare_all (followed (trees_of front.items) (trees_of nodes.now))) }
    ensures plans { IfOk result (λ all. plans_of all.items ≡ join (plans_of front.items) (plans_of nodes.now)) }
    ensures numbers { IfOk result
        (λ all. numbers_of all.items ≡ numbers_of front.items ++ numbered next.old (anew (numbers_of nodes.now))) }
    ensures next { IfOk result (λ all. next.new ≡ next_behind next.old (anew (numbers_of nodes.now))) }
{
    let mut all = front;
    for node in nodes {
        all.push(renewed(alloc, node, next)?)?;
    }
    Ok(all)
}
