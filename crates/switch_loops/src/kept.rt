//! Terms that keep their places where loops stand for Switches.
ghost use Rattle.std.specs.Prelude.{◌≡◌, true};
ghost use Rattle.acpi_names.specs.Walked.{term_shape};
ghost use Rattle.switch_loops.specs.Kept.{all_kept, is_kept, op_kept};
ghost use Rattle.switch_loops.specs.Kinds.{shape_kind};

use asl_tree::term::{Control, Node, Op, Term};

fn keeps_op(inside: bool, op: Op) -> bool
    ensures { result ≡ op_kept inside op }
{
    match op {
        Op::Control(Control::Switch) => false,
        Op::Control(Control::Continue) => !inside,
        _ => true,
    }
}

fn keeps(inside: bool, term: &Term) -> bool
    ensures { result ≡ true → is_kept inside (shape_kind (term_shape term.now)) ≡ true }
{
    match term {
        Term::Form {
            op,
            args: _,
            body: _,
        } => keeps_op(inside, *op),
        _ => true,
    }
}

/// Whether each of some terms keeps its place: by their operators no Switch is among them, and no Continue where a Switch is
/// around them in the same loop.
pub(crate) fn all_keep(inside: bool, nodes: &[Node]) -> bool
    ensures { result ≡ true → all_kept inside nodes.now ≡ true }
{
    for node in nodes {
        if !keeps(inside, &node.term) {
            return false;
        }
    }
    true
}
