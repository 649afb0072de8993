//! What a term is for lowering.
ghost use Rattle.std.specs.Prelude.{◌≡◌};
ghost use Rattle.acpi_names.specs.Walked.{term_shape, OfForm};
ghost use Rattle.asl_tree.specs.View.{fits, trees_of};
ghost use Rattle.acpi_names.specs.Parts.{are as are_trees};
ghost use Rattle.asl_tree.specs.Symbols.{takes_target as target_taken};
ghost use Rattle.acpi_values.specs.Operators.{row_of};
ghost use Rattle.acpi_values.specs.declared.operator.Plain.TheVariants as Plain;
ghost use Rattle.asl_lower.specs.Kinds.{flagged, shape_kind};

use acpi_names::part::{Shape, shape_of};
use acpi_values::operator::{DataOp, IntOp, Plain};
use asl_operators::rows::letters;
use asl_tree::term::{Node, Op, Symbolic, Term};

/// What a term is for lowering.
#[derive(Clone, Copy, PartialEq, Eq, Debug)]
pub enum TermRole {
    /// A symbolic operator that an assignment gives its target.
    Operated(Plain),
    Other,
}

fn number_targets(op: IntOp) -> usize
    ensures { result ≡ (row_of (Plain.Number op)).targets }
{
    match op {
        IntOp::Divide => 2,
        IntOp::LAnd | IntOp::LOr | IntOp::LNot => 0,
        IntOp::LEqual | IntOp::LGreater | IntOp::LLess => 0,
        IntOp::LNotEqual | IntOp::LLessEqual | IntOp::LGreaterEqual => 0,
        _ => 1,
    }
}

fn data_targets(op: DataOp) -> usize
    ensures { result ≡ (row_of (Plain.Data op)).targets }
{
    match op {
        DataOp::Concatenate
        | DataOp::ConcatenateResTemplate
        | DataOp::ToBuffer
        | DataOp::ToDecimalString
        | DataOp::ToHexString
        | DataOp::ToInteger
        | DataOp::ToString
        | DataOp::Mid
        | DataOp::Index => 1,
        _ => 0,
    }
}

/// The number of targets of an operator.
pub(crate) fn targets(op: Plain) -> usize
    ensures { result ≡ (row_of op).targets }
{
    match op {
        Plain::Number(op) => number_targets(op),
        Plain::Data(op) => data_targets(op),
        Plain::Event(_) => 0,
    }
}

fn takes_target(op: Plain) -> bool
    ensures { result ≡ target_taken op }
{
    match op {
        Plain::Number(op) => number_targets(op) != 0,
        _ => false,
    }
}

fn flag(holds: bool, kind: TermRole) -> TermRole
    ensures { result ≡ flagged holds kind }
{
    if holds { kind } else { TermRole::Other }
}

#[tactic(auto, using(acpi_names::proofs::Trees::are_long))]
fn are(nodes: &[Node], count: usize) -> bool
    ensures { result ≡ are_trees count (trees_of nodes.now) }
{
    nodes.len() == count
}

/// Whether there are as many arguments as the operator has operands.
#[tactic(auto, using(acpi_names::proofs::Trees::fit_long))]
pub(crate) fn fit(op: Plain, args: &[Node]) -> bool
    ensures { result ≡ fits (row_of op).operands (trees_of args.now) }
{
    args.len() == letters(op).len()
}

fn form_kind(op: Op, args: &[Node], body: &[Node]) -> TermRole
    ensures { result ≡ shape_kind (OfForm op (trees_of args.now) (trees_of body.now)) }
{
    match op {
        Op::Symbolic(Symbolic::Operator(op)) => flag(
            are(body, 0) && fit(op, args),
            flag(takes_target(op), TermRole::Operated(op)),
        ),
        _ => TermRole::Other,
    }
}

/// What a term is.
pub(crate) fn kind_of(term: &Term) -> TermRole
    ensures { result ≡ shape_kind (term_shape term.now) }
{
    match shape_of(term) {
        Shape::Form(op, args, body) => form_kind(op, args, body),
        _ => TermRole::Other,
    }
}
