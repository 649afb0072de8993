//! What a term is for the runs of Externals.
ghost use Rattle.std.specs.Prelude.{◌≡◌};
ghost use Rattle.asl_tree.specs.View.{trees_of};
ghost use Rattle.acpi_names.specs.Parts.{are as are_trees};
ghost use Rattle.acpi_names.specs.Walked.{OfForm, term_shape};
ghost use Rattle.wrapped_externals.specs.Kinds.{flagged, part_kind, shape_kind};

use acpi_names::part::{NameRole, Shape, part_for, shape_of};
use asl_tree::term::{Control, Declaration, Node, Op, Term};

/// What a term is for the runs of Externals.
#[derive(Clone, Copy, PartialEq, Eq, Debug)]
pub enum TermRole {
    External,
    /// An Else or an ElseIf.
    Branch,
    Other,
}

#[tactic(auto, using(acpi_names::proofs::Trees::are_long))]
fn are(nodes: &[Node], count: usize) -> bool
    ensures { result ≡ are_trees count (trees_of nodes.now) }
{
    nodes.len() == count
}

fn branch(holds: bool) -> TermRole
    ensures { result ≡ flagged holds }
{
    if holds {
        TermRole::Branch
    } else {
        TermRole::Other
    }
}

fn of_part(part: NameRole) -> TermRole
    ensures { result ≡ part_kind part }
{
    match part {
        NameRole::External {
            object: _,
            parameters: _,
        } => TermRole::External,
        _ => TermRole::Other,
    }
}

fn form_kind(op: Op, args: &[Node], body: &[Node]) -> TermRole
    ensures { result ≡ shape_kind (OfForm op (trees_of args.now) (trees_of body.now)) }
{
    match op {
        Op::Declaration(Declaration::External) => of_part(part_for(op, args, body)),
        Op::Control(Control::ElseIf) => branch(are(args, 1)),
        Op::Control(Control::Else) => branch(are(args, 0)),
        _ => TermRole::Other,
    }
}

/// What a term is.
pub(crate) fn kind_of(term: &Term) -> TermRole
    ensures { result ≡ shape_kind (term_shape term.now) }
{
    match shape_of(term) {
        Shape::Form(op, args, body) => form_kind(op, args, body),
        _ => TermRole::Other,
    }
}
