//! Tests and parts of nodes one after another.
ghost use Rattle.std.specs.Prelude.{◌≡◌, ◌&&◌, drop};
ghost use Rattle.asl_tree.specs.View.{trees_of};
ghost use Rattle.asl_prints.specs.Fits.{are as are_trees};
ghost use Rattle.asl_prints.specs.Nodes.{none_in};

use asl_tree::term::Node;

/// Whether three things hold.
pub fn all(first: bool, second: bool, third: bool) -> bool
    ensures { result ≡ (first && (second && third)) }
{
    first && (second && third)
}

/// Whether there are no nodes.
#[tactic(auto, using(crate::proofs::Layers::none_long))]
pub fn is_none(nodes: &[Node]) -> bool
    ensures { result ≡ none_in (trees_of nodes.now) }
{
    nodes.len() == 0
}

/// Whether there are so many nodes.
#[tactic(auto, using(crate::proofs::Leaving::are_long))]
pub fn are(nodes: &[Node], count: usize) -> bool
    ensures { result ≡ are_trees count (trees_of nodes.now) }
{
    nodes.len() == count
}

/// The nodes behind the first one.
pub fn others(nodes: &[Node]) -> &[Node]
    ensures { result.now ≡ drop 1 nodes.now }
{
    match nodes {
        [_, nodes @ ..] => nodes,
        _ => nodes,
    }
}
