//! The Locals that stand in terms, wherever they do: no fewer than those that the terms name.
ghost use Rattle.std.specs.Prelude.{◌≡◌};
ghost use Rattle.acpi_names.specs.Walked.{node_tree};
ghost use Rattle.asl_tree.specs.View.{trees_of};
ghost use Rattle.hidden_locals.specs.Locals.{locals, locals_all};
ghost use Rattle.switch_loops.specs.Reads.{Marks, none_named};

use crate::locals::Locals;
use asl_tree::term::{Node, Term};

// Marks the Locals that stand in a term, whatever its form is.
#[cycle(stand)]
#[inline(always)]
fn stand_in(found: &mut Locals, node: &Node)
    ensures { Marks found.old.named (locals (node_tree node.now)) found.new.named }
{
    match &node.term {
        Term::Local(index) => found.mark(*index),
        Term::Call { path: _, args } => stand_among(found, args),
        Term::Form { op: _, args, body } => {
            stand_among(found, args);
            stand_within(found, body);
        }
        _ => (),
    }
}

// Marks the Locals that stand in braces, in which there may be no terms.
#[cycle(stand)]
#[inline(always)]
fn stand_within(found: &mut Locals, nodes: &[Node])
    ensures { Marks found.old.named (locals_all (trees_of nodes.now)) found.new.named }
{
    if nodes.is_empty() {
        return;
    }
    stand_among(found, nodes);
}

// Marks the Locals that stand in the terms of a list.
#[cycle(stand)]
fn stand_among(found: &mut Locals, nodes: &[Node])
    ensures { Marks found.old.named (locals_all (trees_of nodes.now)) found.new.named }
{
    for node in nodes {
        stand_in(found, node);
    }
}

/// The Locals that stand in the terms of a list, with those that the terms name among them.
pub(crate) fn standing_in(nodes: &[Node]) -> Locals
    ensures { Marks none_named (locals_all (trees_of nodes.now)) result.named }
{
    let mut found = Locals::none();
    stand_among(&mut found, nodes);
    found
}
