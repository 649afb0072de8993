//! A program whose Externals stand in Ifs that nothing enters.
ghost use Rattle.std.specs.Prelude.{◌≡◌, ◌++◌, ◌∷◌, [], length, List, not, true, false, OnOk, IfOk};
ghost use Rattle.asl_tree.specs.Tree.{At, Trees, no_trees, tree};
ghost use Rattle.asl_tree.specs.View.{tree_of, trees_of};
ghost use Rattle.acpi_names.specs.Walked.{node_tree};
ghost use Rattle.named_sessions.specs.Shaped.{AreShaped, IsShaped};
ghost use Rattle.asl_lower.specs.Nests.{joined};
ghost use Rattle.iasl_messages.specs.declared.place.Place.{Place as Here};
ghost use Rattle.term_places.specs.Places.{holds_terms, inner_places, places_of, term_places};
ghost use Rattle.wrapped_externals.specs.Wraps.{in_if, wrapped, wrapped_args, wrapped_all, wrapped_where};
ghost use Rattle.wrapped_externals.specs.Starts.{inner_starts, placed_where, starts, with_ifs};
ghost use Rattle.wrapped_externals.specs.Nodes.{resumed, pending, wrapped_body};

use crate::kind::{TermRole, kind_of};
use crate::run::put_run;
use asl_tree::term::{Control, Declaration, Node, Op, Special, Term};
use std::alloc::{AllocError, Global};
use std::mem::replace;

/// A program with its Externals in Ifs, where that is asked for: each run of Externals that stand directly behind each
/// other in a list of terms is `If (Zero) { External .. }`. An If that is made has the id and the place of its first
/// External.
pub fn wrap_where(alloc: Global, asked: bool, terms: Vec<Node>) -> Result<Vec<Node>, AllocError>
    ensures trees { IfOk result (λ made. trees_of made.items ≡ wrapped_where asked (trees_of terms.items)) }
    ensures places { AreShaped (trees_of terms.items) →
        IfOk result (λ made. places_of made.items ≡ placed_where asked (trees_of terms.items) (places_of terms.items)) }
{
    if asked {
        let made = wrap(alloc, terms)?;
        Ok(made)
    } else {
        Ok(terms)
    }
}

/// The terms of a list with their Externals in Ifs.
#[cycle(wrap)]
pub fn wrap(alloc: Global, terms: Vec<Node>) -> Result<Vec<Node>, AllocError>
    ensures trees { IfOk result (λ made. trees_of made.items ≡ wrapped_all (trees_of terms.items)) }
    ensures places { AreShaped (trees_of terms.items) →
        IfOk result (λ made. places_of made.items ≡ with_ifs (starts false (trees_of terms.items)) (places_of terms.items)) }
{
    let mut left = terms;
    left.reverse();
    let mut made = Vec::new(alloc);
    let mut run = Vec::new(alloc);
    while let Some(node) = left.pop() {
        wrap_next(alloc, &mut made, &mut run, node)?;
    }
    put_run(alloc, &mut made, run, false)?;
    Ok(made)
}

// The next term of a list, behind what is made and behind a run of Externals.
#[cycle(wrap)]
fn wrap_next(
    alloc: Global,
    made: &mut Vec<Node>,
    run: &mut Vec<Node>,
    node: Node,
) -> Result<(), AllocError>
    requires alone { length (places_of run.old.items) ≡ length run.old.items }
    ensures alone { OnOk result (length (places_of run.new.items) ≡ length run.new.items) }
    ensures trees { OnOk result ((ts : Trees) → joined (trees_of made.new.items) (resumed (trees_of run.new.items) ts) ≡ joined
        (trees_of made.old.items) (resumed (trees_of run.old.items) (tree (node_tree node) ts))) }
    ensures places { IsShaped (node_tree node) →
        OnOk result ((ts : Trees) (ps : List Here) → places_of made.new.items ++ with_ifs (pending (length run.new.items) ts)
        (places_of run.new.items ++ ps) ≡ places_of made.old.items ++ with_ifs (pending (length run.old.items) (tree (node_tree node) ts))
        (places_of run.old.items ++ (term_places node ++ ps))) }
{
    match kind_of(&node.term) {
        TermRole::External => {
            run.push(node)?;
            Ok(())
        }
        TermRole::Branch => {
            put_behind(alloc, made, run, true, node)?;
            Ok(())
        }
        TermRole::Other => {
            put_behind(alloc, made, run, false, node)?;
            Ok(())
        }
    }
}

// A run of Externals, and then a term that is none.
#[cycle(wrap)]
fn put_behind(
    alloc: Global,
    made: &mut Vec<Node>,
    run: &mut Vec<Node>,
    kept: bool,
    node: Node,
) -> Result<(), AllocError>
    ensures empty { OnOk result (run.new.items ≡ []) }
    ensures trees { OnOk result (trees_of made.new.items ≡ joined (joined (trees_of made.old.items) (in_if (trees_of run.old.items) kept))
        (tree (wrapped (node_tree node)) no_trees)) }
    ensures places { IsShaped (node_tree node) →
        OnOk result (places_of made.new.items ≡ (places_of made.old.items ++ with_ifs (not kept ∷ []) (places_of run.old.items))
        ++ node.place ∷ with_ifs (inner_starts (node_tree node)) (inner_places node.term)) }
{
    let externals = replace(run, Vec::new(alloc));
    put_run(alloc, made, externals, kept)?;
    let wrapped = wrap_node(alloc, node)?;
    made.push(wrapped)?;
    Ok(())
}

// Terms each by itself.
#[cycle(wrap)]
fn wrap_each(alloc: Global, nodes: Vec<Node>) -> Result<Vec<Node>, AllocError>
    ensures { IfOk result (λ made. trees_of made.items ≡ wrapped_args (trees_of nodes.items)) }
{
    let mut left = nodes;
    let mut made = Vec::new(alloc);
    while let Some(node) = left.pop() {
        made.push(wrap_node(alloc, node)?)?;
    }
    made.reverse();
    Ok(made)
}

#[cycle(wrap)]
fn wrap_node(alloc: Global, node: Node) -> Result<Node, AllocError>
    ensures tree { IfOk result (λ made. node_tree made ≡ wrapped (node_tree node)) }
    ensures places { IsShaped (node_tree node) →
        IfOk result (λ made. term_places made ≡ node.place ∷ with_ifs (inner_starts (node_tree node)) (inner_places node.term)) }
{
    let Node { id, place, term } = node;
    let term = wrap_term(alloc, term)?;
    Ok(Node { id, place, term })
}

#[cycle(wrap)]
fn wrap_term(alloc: Global, term: Term) -> Result<Term, AllocError>
    ensures tree { IfOk result (λ made. (at : At) → tree_of at made ≡ wrapped (tree_of at term)) }
    ensures places { (at : At) → IsShaped (tree_of at term) →
        IfOk result (λ made. inner_places made ≡ with_ifs (inner_starts (tree_of at term)) (inner_places term)) }
{
    match term {
        Term::Call { path, args } => {
            let args = wrap_each(alloc, args)?;
            Ok(Term::Call { path, args })
        }
        Term::Form { op, args, body } => {
            let args = wrap_each(alloc, args)?;
            let body = wrap_body(alloc, op, body)?;
            Ok(Term::Form { op, args, body })
        }
        other => Ok(other),
    }
}

// What stands in the braces of a form.
#[cycle(wrap)]
fn wrap_body(alloc: Global, op: Op, body: Vec<Node>) -> Result<Vec<Node>, AllocError>
    ensures trees { IfOk result (λ made. trees_of made.items ≡ wrapped_body op (trees_of body.items)) }
    ensures places { holds_terms op ≡ true → AreShaped (trees_of body.items) →
        IfOk result (λ made. places_of made.items ≡ with_ifs (starts false (trees_of body.items)) (places_of body.items)) }
{
    match op {
        Op::Special(Special::Package) => {
            let elements = wrap_each(alloc, body)?;
            Ok(elements)
        }
        Op::Declaration(
            Declaration::Method
            | Declaration::Device
            | Declaration::ThermalZone
            | Declaration::PowerResource
            | Declaration::Processor
            | Declaration::Scope,
        )
        | Op::Control(
            Control::If
            | Control::ElseIf
            | Control::Else
            | Control::While
            | Control::For
            | Control::Switch
            | Control::Case
            | Control::Default,
        ) => {
            let terms = wrap(alloc, body)?;
            Ok(terms)
        }
        _ => Ok(body),
    }
}
