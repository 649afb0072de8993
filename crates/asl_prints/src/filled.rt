//! Whether a format has the arguments that it asks for.
ghost use Rattle.std.specs.Prelude.{◌≡◌, ◌&&◌, length, nat_eq, IfOk};
ghost use Rattle.asl_tree.specs.Tree.{At};
ghost use Rattle.asl_tree.specs.View.{tree_of, trees_of};
ghost use Rattle.asl_prints.specs.Forms.{are_given as trees_given, is_filled, is_given as tree_given};

use crate::texts::{other_texts, texts_of};
use asl_tree::term::{Node, Term};
use iasl_ports::list::Text;
use std::alloc::{AllocError, Global};

#[tactic(auto, using(crate::proofs::Leaving::a_given, crate::proofs::Leaving::not_given))]
fn is_given(term: &Term) -> bool
    ensures { (at : At) → tree_given (tree_of at term.now) ≡ result }
{
    match term {
        Term::Omitted => false,
        _ => true,
    }
}

/// Whether terms are there, and none of them is left out.
#[tactic(auto, using(crate::proofs::Leaving::given_none, crate::proofs::Leaving::given_last))]
pub fn are_given(nodes: &[Node]) -> bool
    ensures { result ≡ trees_given (trees_of nodes.now) }
{
    for node in nodes {
        if !is_given(&node.term) {
            return false;
        }
    }
    true
}

// Whether there are as many texts as nodes.
fn as_many(texts: &[Text], nodes: &[Node]) -> bool
    ensures { result ≡ nat_eq (length texts.now) (length nodes.now) }
{
    texts.len() == nodes.len()
}

fn both(first: bool, second: bool) -> bool
    ensures { result ≡ (first && second) }
{
    first && second
}

/// Whether a format has as many arguments as it asks for, and none of them is left out.
pub fn fills(alloc: Global, format: &Text, args: &[Node]) -> Result<bool, AllocError>
    ensures { IfOk result (λ fills. fills ≡ is_filled format.now (trees_of args.now)) }
{
    let texts = texts_of(alloc, format.as_bytes())?;
    let behind = other_texts(texts.as_slice());
    Ok(both(are_given(args), as_many(behind, args)))
}
