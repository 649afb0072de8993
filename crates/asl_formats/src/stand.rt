//! What stands for a term.
ghost use Rattle.std.specs.Prelude.{◌≡◌, IfOk};
ghost use Rattle.acpi_values.specs.Operators.{row_of};
ghost use Rattle.asl_tree.specs.Tree.{At, tree};
ghost use Rattle.asl_tree.specs.View.{fits, tree_of, trees_of};
ghost use Rattle.asl_prints.specs.Forms.{is_expression as tree_expresses};
ghost use Rattle.asl_prints.specs.Nodes.{node_tree};
ghost use Rattle.asl_formats.specs.Stands.{bare_stand as bare_stands, form_stand as form_stands, loop_if as loop_when};
ghost use Rattle.asl_prints.specs.Fits.{expresses};
ghost use Rattle.asl_formats.specs.Stands.{loop_stand as loop_stands, stand_of as tree_stand, text_if as text_when};
ghost use Rattle.asl_formats.specs.Stands.{text_stand as text_stands};

use acpi_values::operator::Plain;
use asl_operators::rows::letters;
use asl_prints::filled::fills;
use asl_prints::leave::have_far_continue;
use asl_prints::lists::{all, are, is_none, others};
use asl_tree::term::{Control, Node, Op, Special, Symbolic, Term};
use std::alloc::{AllocError, Global};

/// What stands for a term.
#[derive(Clone, Copy, PartialEq, Eq, Debug)]
pub(crate) enum Stand {
    /// The start of a For, and a While.
    Loop,
    /// A Store of a text.
    Text,
    /// The term itself.
    Itself,
}

// Whether there are as many arguments as the operator has operands.
#[tactic(auto, using(crate::proofs::Standing::fit_long))]
fn fit(op: Plain, args: &[Node]) -> bool
    ensures { result ≡ fits (row_of op).operands (trees_of args.now) }
{
    args.len() == letters(op).len()
}

pub(crate) fn form_expresses(op: Op, args: &[Node], body: &[Node]) -> bool
    ensures { result ≡ expresses op (trees_of args.now) (trees_of body.now) }
{
    match op {
        Op::Plain(_) => is_none(body),
        Op::Literal(_) => is_none(args) && is_none(body),
        Op::Special(Special::CondRefOf) => are(args, 2) && is_none(body),
        Op::Special(Special::Buffer | Special::Package) => are(args, 1),
        Op::Symbolic(Symbolic::Operator(op)) => is_none(body) && fit(op, args),
        Op::Symbolic(Symbolic::Assign | Symbolic::AssignBy(_)) => are(args, 2) && is_none(body),
        _ => false,
    }
}

/// Whether a term is an expression, or left out.
#[tactic(auto, using(crate::proofs::Standing::expression_rules))]
pub fn is_expression(term: &Term) -> bool
    ensures { (at : At) → tree_expresses (tree_of at term.now) ≡ result }
{
    match term {
        Term::Form { op, args, body } => form_expresses(*op, args, body),
        Term::Fill { bytes: _, named: _ } => false,
        Term::Unit {
            segment: _,
            bits: _,
        } => false,
        Term::Skip(_) => false,
        Term::Offset(_) => false,
        Term::Access {
            access: _,
            attribute: _,
            length: _,
        } => false,
        _ => true,
    }
}

fn loop_if(holds: bool) -> Stand
    ensures { result ≡ loop_when holds }
{
    if holds { Stand::Loop } else { Stand::Itself }
}

fn text_if(holds: bool) -> Stand
    ensures { result ≡ text_when holds }
{
    if holds { Stand::Text } else { Stand::Itself }
}

// What stands for a For with these arguments.
#[tactic(auto, using(crate::proofs::Standing::loop_stands, crate::proofs::Standing::few_stand, crate::proofs::Standing::many_stand))]
fn loop_stand(args: &[Node], body: &[Node]) -> Stand
    ensures { result ≡ loop_stands (trees_of args.now) (trees_of body.now) }
{
    match args {
        [start, _, step] => {
            let far = have_far_continue(body);
            loop_if(all(is_expression(&start.term), is_expression(&step.term), !far))
        }
        _ => Stand::Itself,
    }
}

#[tactic(auto, using(crate::proofs::Standing::text_stands, crate::proofs::Standing::no_text_stands))]
fn format_stand(alloc: Global, format: &Node, args: &[Node]) -> Result<Stand, AllocError>
    ensures { IfOk result (λ stand. stand ≡ text_stands (tree (node_tree format.now) (trees_of args.now))) }
{
    match &format.term {
        Term::Text(text) => {
            let filled = fills(alloc, text, args)?;
            Ok(text_if(filled))
        }
        _ => Ok(Stand::Itself),
    }
}

// What stands for a format with its arguments.
#[tactic(auto, using(crate::proofs::Standing::first_stands, crate::proofs::Standing::none_stands))]
fn text_stand(alloc: Global, args: &[Node]) -> Result<Stand, AllocError>
    ensures { IfOk result (λ stand. stand ≡ text_stands (trees_of args.now)) }
{
    match args {
        [format, ..] => {
            let stand = format_stand(alloc, format, others(args))?;
            Ok(stand)
        }
        _ => Ok(Stand::Itself),
    }
}

// The same where there may be braces.
#[tactic(auto, using(crate::proofs::Standing::bare_none, crate::proofs::Standing::bare_some))]
fn bare_stand(alloc: Global, args: &[Node], body: &[Node]) -> Result<Stand, AllocError>
    ensures { IfOk result (λ stand. stand ≡ bare_stands (trees_of args.now) (trees_of body.now)) }
{
    if is_none(body) {
        let stand = text_stand(alloc, args)?;
        return Ok(stand);
    }
    Ok(Stand::Itself)
}

#[tactic(auto, using(crate::proofs::Standing::printf_made, crate::proofs::Standing::fprintf_made))]
fn form_stand(alloc: Global, op: Op, args: &[Node], body: &[Node]) -> Result<Stand, AllocError>
    ensures { IfOk result (λ stand. stand ≡ form_stands op (trees_of args.now) (trees_of body.now)) }
{
    match op {
        Op::Control(Control::For) => Ok(loop_stand(args, body)),
        Op::Control(Control::Printf) => {
            let stand = bare_stand(alloc, args, body)?;
            Ok(stand)
        }
        Op::Control(Control::Fprintf) => {
            let stand = bare_stand(alloc, others(args), body)?;
            Ok(stand)
        }
        _ => Ok(Stand::Itself),
    }
}

/// What stands for a term.
#[tactic(auto, using(crate::proofs::Standing::form_stands, crate::proofs::Standing::other_stand))]
pub(crate) fn stand_of(alloc: Global, term: &Term) -> Result<Stand, AllocError>
    ensures { IfOk result (λ stand. (at : At) → tree_stand (tree_of at term.now) ≡ stand) }
{
    match term {
        Term::Form { op, args, body } => {
            let stand = form_stand(alloc, *op, args, body)?;
            Ok(stand)
        }
        _ => Ok(Stand::Itself),
    }
}
