//! What a term is for Switches.
ghost use Rattle.std.specs.Prelude.{◌≡◌};
ghost use Rattle.acpi_names.specs.Parts.{are as are_trees};
ghost use Rattle.acpi_names.specs.Walked.{term_shape};
ghost use Rattle.asl_tree.specs.View.{trees_of};
ghost use Rattle.asl_tree.specs.declared.term.Op.{Op as O};
ghost use Rattle.switch_loops.specs.Kinds.{flagged, part_kind as kind_of_part, form_kind as kind_of_form, shape_kind};

use acpi_names::part::{NameRole, Shape, What, part_for, shape_of};
use asl_tree::term::{Control, Node, Op, Term};

/// What a term is for the Switches of its method.
#[derive(Clone, Copy, PartialEq, Eq, Debug)]
pub enum TermRole {
    /// Terms of the same method stand in its braces.
    Block,
    Loop,
    Switch,
    Case,
    Default,
    Method,
    Continue,
    Other,
}

fn flag(holds: bool, kind: TermRole) -> TermRole
    ensures { result ≡ flagged holds kind }
{
    if holds { kind } else { TermRole::Other }
}

#[tactic(auto, using(acpi_names::proofs::Trees::are_long))]
fn are(nodes: &[Node], count: usize) -> bool
    ensures { result ≡ are_trees count (trees_of nodes.now) }
{
    nodes.len() == count
}

fn part_kind(part: NameRole) -> TermRole
    ensures { result ≡ kind_of_part part }
{
    match part {
        NameRole::Declares {
            name: _,
            what: What::Method(_),
            opens: true,
        } => TermRole::Method,
        NameRole::Declares {
            name: _,
            what: _,
            opens: true,
        } => TermRole::Block,
        NameRole::Scope | NameRole::Within => TermRole::Block,
        _ => TermRole::Other,
    }
}

// What a statement is.
#[tactic(auto, using(crate::proofs::KindRows::statement_rules))]
fn statement_kind(control: Control, args: &[Node], body: &[Node]) -> TermRole
    ensures { result ≡ kind_of_form (O.Control control) (trees_of args.now) (trees_of body.now) }
{
    match control {
        Control::If => flag(are(args, 1), TermRole::Block),
        Control::ElseIf => flag(are(args, 1), TermRole::Block),
        Control::Else => flag(are(args, 0), TermRole::Block),
        Control::While => flag(are(args, 1), TermRole::Loop),
        Control::For => flag(are(args, 3), TermRole::Loop),
        Control::Switch => flag(are(args, 1), TermRole::Switch),
        Control::Case => flag(are(args, 1), TermRole::Case),
        Control::Default => flag(are(args, 0), TermRole::Default),
        Control::Continue => flag(are(args, 0) && are(body, 0), TermRole::Continue),
        Control::Break => TermRole::Other,
        Control::Return => TermRole::Other,
        Control::Printf => TermRole::Other,
        Control::Fprintf => TermRole::Other,
    }
}

/// What a form is.
pub(crate) fn form_kind(op: Op, args: &[Node], body: &[Node]) -> TermRole
    ensures { result ≡ kind_of_form op (trees_of args.now) (trees_of body.now) }
{
    match op {
        Op::Control(control) => statement_kind(control, args, body),
        Op::Declaration(_) => part_kind(part_for(op, args, body)),
        _ => TermRole::Other,
    }
}

/// What a term is.
pub fn kind_of(term: &Term) -> TermRole
    ensures { result ≡ shape_kind (term_shape term.now) }
{
    match shape_of(term) {
        Shape::Form(op, args, body) => form_kind(op, args, body),
        _ => TermRole::Other,
    }
}
