//! A program with its constants folded: an integer operator on constants is its result (ACPI Specification 6.4, 19.6).
ghost use Rattle.std.specs.Prelude.{◌≡◌, [], OnOk, IfOk};
ghost use Rattle.acpi_values.specs.declared.operator.DataOp.TheVariants as DataOp;
ghost use Rattle.acpi_values.specs.declared.operator.Plain.TheVariants as P;
ghost use Rattle.acpi_names.specs.Walked.{node_tree};
ghost use Rattle.asl_tree.specs.declared.term.Op.TheVariants as O;
ghost use Rattle.asl_tree.specs.Tree.{At, Apply, Integer, no_trees, tree};
ghost use Rattle.asl_tree.specs.View.{form, tree_of, trees_of};
ghost use Rattle.term_places.specs.Places.{inner_places, places_of, term_places};
ghost use Rattle.asl_fold.specs.Folds.{folded, folded_all, folded_where, last_of};
ghost use Rattle.asl_fold.specs.Nodes.{part_in, folded_as, folded_by};

use crate::fate::{Fate, fate_in};
use crate::part::{Listing, MemberRole, listing_of, part_of};
use acpi_values::operator::{DataOp, Plain};
use acpi_values::width::Width;
use asl_tree::term::{Node, Op, Term};
use iasl_messages::place::Place;
use std::alloc::{AllocError, Global};

// Store of some arguments.
fn store(alloc: Global, args: Vec<Node>) -> Term
    ensures tree { (at : At) → tree_of at result ≡ form at (O.Plain (P.Data DataOp.Store)) (trees_of args.items) no_trees }
    ensures places { inner_places result ≡ [] }
{
    Term::Form {
        op: Op::Plain(Plain::Data(DataOp::Store)),
        args,
        body: Vec::new(alloc),
    }
}

// Puts another term in the place of one.
#[inline(never)]
fn put_term(node: &mut Node, term: Term)
    ensures { node.new ≡ record { id = node.old.id; place = node.old.place; term = term } }
{
    node.term = term;
}

// Store of a number into the last of some arguments, which is a target. The number has the id and the place of the operator.
#[inline(never)]
fn stored(
    alloc: Global,
    id: u32,
    place: Place,
    number: u64,
    args: &mut Vec<Node>,
) -> Result<Term, AllocError>
    ensures tree { IfOk result
        (λ made. (at : At)
        → tree_of at made ≡ Apply (P.Data DataOp.Store) (tree (Integer number) (last_of (trees_of args.old.items))) no_trees) }
    ensures places { IfOk result (λ made. inner_places made ≡ []) }
{
    let mut all = Vec::with_capacity(alloc, 2)?;
    all.push(Node {
        id,
        place,
        term: Term::Integer(number),
    })?;
    match args.pop() {
        Some(target) => {
            all.push(target)?;
            Ok(store(alloc, all))
        }
        None => Ok(store(alloc, all)),
    }
}

/// The terms of a list with their constants folded at the width of a table. A node that is made has the id and the place of the one
/// that it stands for, and each statement stays one, at its place.
pub fn fold(alloc: Global, width: Width, terms: Vec<Node>) -> Result<Vec<Node>, AllocError>
    ensures trees { IfOk result (λ made. trees_of made.items ≡ folded_all width (trees_of terms.items)) }
    ensures places { IfOk result (λ made. places_of made.items ≡ places_of terms.items) }
{
    let mut made = terms;
    fold_nodes(alloc, width, Listing::Terms, &mut made)?;
    Ok(made)
}

/// The terms of a list with their constants folded, where that is asked for.
pub fn fold_where(
    alloc: Global,
    asked: bool,
    width: Width,
    terms: Vec<Node>,
) -> Result<Vec<Node>, AllocError>
    ensures trees { IfOk result (λ made. trees_of made.items ≡ folded_where asked width (trees_of terms.items)) }
    ensures places { IfOk result (λ made. places_of made.items ≡ places_of terms.items) }
{
    if asked {
        let made = fold(alloc, width, terms)?;
        Ok(made)
    } else {
        Ok(terms)
    }
}

// The members of a list, each folded as what it is.
#[cycle(fold)]
fn fold_nodes(
    alloc: Global,
    width: Width,
    listing: Listing,
    nodes: &mut Vec<Node>,
) -> Result<(), AllocError>
    ensures trees { OnOk result (trees_of nodes.new.items ≡ folded_by width (part_in listing) (trees_of nodes.old.items)) }
    ensures places { OnOk result (places_of nodes.new.items ≡ places_of nodes.old.items) }
{
    if let Listing::Others = listing {
        return Ok(());
    }
    for (index, node) in nodes.iter_mut().enumerate() {
        fold_member(alloc, width, listing, index, node)?;
    }
    Ok(())
}

// The member of a list at a place. What has no members stays, whatever it is.
#[cycle(fold)]
fn fold_member(
    alloc: Global,
    width: Width,
    listing: Listing,
    index: usize,
    node: &mut Node,
) -> Result<(), AllocError>
    ensures tree { OnOk result (node_tree node.new ≡ folded_as width (part_in listing index) (node_tree node.old)) }
    ensures places { OnOk result (term_places node.new ≡ term_places node.old) }
{
    match &node.term {
        Term::Call { .. } | Term::Form { .. } => {
            fold_part(alloc, width, part_of(listing, index), node)?;
            Ok(())
        }
        _ => Ok(()),
    }
}

#[cycle(fold)]
fn fold_part(
    alloc: Global,
    width: Width,
    part: MemberRole,
    node: &mut Node,
) -> Result<(), AllocError>
    ensures tree { OnOk result (node_tree node.new ≡ folded_as width part (node_tree node.old)) }
    ensures places { OnOk result (term_places node.new ≡ term_places node.old) }
{
    match part {
        MemberRole::Kept => Ok(()),
        MemberRole::Operand => {
            fold_node(alloc, width, false, node)?;
            Ok(())
        }
        MemberRole::Statement => {
            fold_node(alloc, width, true, node)?;
            Ok(())
        }
    }
}

#[cycle(fold)]
fn fold_node(
    alloc: Global,
    width: Width,
    statement: bool,
    node: &mut Node,
) -> Result<(), AllocError>
    ensures tree { OnOk result (node_tree node.new ≡ folded width statement (node_tree node.old)) }
    ensures places { OnOk result (term_places node.new ≡ term_places node.old) }
{
    let id = node.id;
    let place = node.place;
    match &mut node.term {
        Term::Call { path: _, args } => {
            fold_nodes(alloc, width, Listing::Elements, args)?;
            Ok(())
        }
        Term::Form { op, args, body } => {
            fold_nodes(alloc, width, Listing::Arguments(*op), args)?;
            fold_nodes(alloc, width, listing_of(*op), body)?;
            match *op {
                Op::Plain(plain) => match fate_in(width, statement, plain, args, body) {
                    Fate::Stays => Ok(()),
                    Fate::Becomes(value) => {
                        put_term(node, Term::Integer(value));
                        Ok(())
                    }
                    Fate::Stores(value) => {
                        let made = stored(alloc, id, place, value, args)?;
                        put_term(node, made);
                        Ok(())
                    }
                },
                _ => Ok(()),
            }
        }
        _ => Ok(()),
    }
}
