//! How deep Switches nest in terms, and whether a Continue leaves one of them.
ghost use Rattle.std.specs.Prelude.{◌≡◌};
ghost use Rattle.acpi_names.specs.Walked.{node_tree};
ghost use Rattle.asl_tree.specs.View.{trees_of};
ghost use Rattle.switch_loops.specs.Measures.{nothing as no_measure, both, around as measure_around, measured, measured_one};

use crate::kind::{TermRole, form_kind};
use acpi_names::part::{Shape, shape_of};
use asl_tree::term::Node;

/// What is measured of terms: how many levels of Switches nest in them, methods aside; whether a Continue leaves a Switch in
/// them, and whether one may leave the terms. There are eight Locals, so nine levels stand for all that are more.
#[derive(Clone, Copy, PartialEq, Eq, Debug)]
pub struct Measure {
    pub levels: usize,
    pub crossed: bool,
    pub continues: bool,
}

fn nothing() -> Measure
    ensures { result ≡ no_measure }
{
    Measure {
        levels: 0,
        crossed: false,
        continues: false,
    }
}

fn beside(first: Measure, second: Measure) -> Measure
    ensures { result ≡ both first second }
{
    Measure {
        levels: first.levels.max(second.levels),
        crossed: first.crossed || second.crossed,
        continues: first.continues || second.continues,
    }
}

// The measure of a term by that of what stands in its braces.
fn around(kind: TermRole, inner: Measure) -> Measure
    ensures { result ≡ measure_around kind inner }
{
    match kind {
        TermRole::Block | TermRole::Case | TermRole::Default => inner,
        TermRole::Loop => Measure {
            levels: inner.levels,
            crossed: inner.crossed,
            continues: false,
        },
        TermRole::Switch => Measure {
            levels: inner.levels.min(8) + 1,
            crossed: inner.continues || inner.crossed,
            continues: inner.continues,
        },
        TermRole::Continue => Measure {
            levels: 0,
            crossed: false,
            continues: true,
        },
        TermRole::Method | TermRole::Other => nothing(),
    }
}

// The measure of a term by what stands in its braces, which only some kinds ask for.
#[cycle(measure)]
#[inline(always)]
fn measure_within(kind: TermRole, body: &[Node]) -> Measure
    ensures { result ≡ measure_around kind (measured (trees_of body.now)) }
{
    match kind {
        TermRole::Method | TermRole::Other => nothing(),
        kind => around(kind, measure_all(body)),
    }
}

#[cycle(measure)]
fn measure_node(node: &Node) -> Measure
    ensures { result ≡ measured_one (node_tree node.now) }
{
    match shape_of(&node.term) {
        Shape::Form(op, args, body) => measure_within(form_kind(op, args, body), body),
        _ => nothing(),
    }
}

/// What is measured of the terms of a list.
#[cycle(measure)]
#[inline(never)]
pub(crate) fn measure_all(nodes: &[Node]) -> Measure
    ensures { result ≡ measured (trees_of nodes.now) }
{
    let mut found = nothing();
    for node in nodes {
        found = beside(found, measure_node(node));
    }
    found
}
