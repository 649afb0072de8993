//! A program with its symbolic operators named (ACPI Specification 6.4, 19.2.6).
ghost use Rattle.std.specs.Prelude.{◌≡◌, ◌≤◌, ◌∷◌, [], if◌then◌else◌, length, true, false, OnOk, IfOk};
ghost use Rattle.acpi_values.specs.Operators.{row_of};
ghost use Rattle.acpi_names.specs.Parts.{term_size, nodes_size};
ghost use Rattle.acpi_names.specs.Walked.{term_shape, node_tree};
ghost use Rattle.asl_tree.specs.Symbols.{compound_operator};
ghost use Rattle.asl_tree.specs.Tree.{At, Omitted, no_trees};
ghost use Rattle.asl_tree.specs.View.{form, tree_of, trees_of};
ghost use Rattle.asl_tree.specs.declared.term.Op.{Op as O};
ghost use Rattle.asl_tree.specs.declared.term.Symbolic.TheVariants as S;
ghost use Rattle.asl_lower.specs.Kinds.{shape_args};
ghost use Rattle.asl_lower.specs.Nests.{joined};
ghost use Rattle.asl_lower.specs.Nodes.{given as given_tree, last_target, named, named_all, named_body};
ghost use Rattle.term_places.specs.Places.{holds_terms, term_places, places_of};

use crate::copy::copied;
use crate::kind::{TermRole, fit, kind_of, targets};
use acpi_values::operator::{DataOp, IntOp, Plain};
use asl_tree::term::{Compound, Control, Declaration, Node, Op, Special, Symbolic, Term};
use iasl_messages::place::Place;
use std::alloc::{AllocError, Global};
use std::mem::replace;

// The operator of `X op= Y`.
fn compound(op: Compound) -> Plain
    ensures { result ≡ compound_operator op }
{
    match op {
        Compound::Add => Plain::Number(IntOp::Add),
        Compound::Subtract => Plain::Number(IntOp::Subtract),
        Compound::Multiply => Plain::Number(IntOp::Multiply),
        Compound::Divide => Plain::Number(IntOp::Divide),
        Compound::Mod => Plain::Number(IntOp::Mod),
        Compound::ShiftLeft => Plain::Number(IntOp::ShiftLeft),
        Compound::ShiftRight => Plain::Number(IntOp::ShiftRight),
        Compound::And => Plain::Number(IntOp::And),
        Compound::Or => Plain::Number(IntOp::Or),
        Compound::Xor => Plain::Number(IntOp::Xor),
    }
}

// A form with no body.
#[tactic(auto, using(crate::proofs::Lowered::bare_form))]
fn bare(alloc: Global, op: Op, args: Vec<Node>) -> Term
    ensures { (at : At) → tree_of at result ≡ form at op (trees_of args.items) no_trees }
{
    Term::Form {
        op,
        args,
        body: Vec::new(alloc),
    }
}

// An operand that has to be there: what is left out is no term.
fn give(alloc: Global, node: &mut Node)
    ensures { node_tree node.new ≡ given_tree (node_tree node.old) }
{
    match &node.term {
        Term::Omitted => {
            node.term = bare(alloc, Op::Symbolic(Symbolic::Assign), Vec::new(alloc));
        }
        _ => (),
    }
}

// The two nodes of a list of two.
fn two(nodes: Vec<Node>) -> (Node, Node)
    requires { length nodes.items ≡ 2 }
    ensures { nodes.items ≡ result.0 ∷ result.1 ∷ [] }
{
    let mut nodes = nodes;
    let second = nodes.remove(1);
    let first = nodes.remove(0);
    (first, second)
}

// The arguments of a form.
fn operands(alloc: Global, term: Term) -> Vec<Node>
    ensures args { trees_of result.items ≡ shape_args (term_shape term) }
    ensures size { nodes_size result.items ≤ term_size term }
{
    match term {
        Term::Form {
            op: _,
            args,
            body: _,
        } => args,
        _ => Vec::new(alloc),
    }
}

// The targets of an operator behind its operands: all are left out but the last one.
fn put_targets(op: Plain, args: &mut Vec<Node>, target: Node) -> Result<(), AllocError>
    ensures { OnOk result
        (trees_of args.new.items ≡ joined (trees_of args.old.items) (last_target (row_of op).targets (node_tree target))) }
{
    let mut left = targets(op);
    if left == 0 {
        return Ok(());
    }
    while left > 1 {
        args.push(Node {
            id: target.id,
            place: target.place,
            term: Term::Omitted,
        })?;
        left -= 1;
    }
    args.push(target)?;
    Ok(())
}

// The targets of an operator behind its operands, all of them left out.
fn put_omitted(op: Plain, args: &mut Vec<Node>, id: u32, place: Place) -> Result<(), AllocError>
    ensures { OnOk result
        (trees_of args.new.items ≡ joined (trees_of args.old.items) (last_target (row_of op).targets Omitted)) }
{
    let mut left = targets(op);
    while left > 0 {
        args.push(Node {
            id,
            place,
            term: Term::Omitted,
        })?;
        left -= 1;
    }
    Ok(())
}

/// The program in which each symbolic operator and assignment is an operator with a name (ACPI Specification 6.4, 19.2.6). A node that
/// is made has the id and the place of the one that it stands for.
pub fn lower(alloc: Global, terms: Vec<Node>) -> Result<Vec<Node>, AllocError>
    ensures trees { IfOk result (λ lowered. trees_of lowered.items ≡ named_all (trees_of terms.items)) }
    ensures places { IfOk result (λ lowered. places_of lowered.items ≡ places_of terms.items) }
{
    let mut lowered = terms;
    lower_each(alloc, &mut lowered)?;
    Ok(lowered)
}

// Terms each by itself.
#[cycle(lower)]
fn lower_each(alloc: Global, nodes: &mut Vec<Node>) -> Result<(), AllocError>
    ensures trees { OnOk result (trees_of nodes.new.items ≡ named_all (trees_of nodes.old.items)) }
    ensures places { OnOk result (places_of nodes.new.items ≡ places_of nodes.old.items) }
{
    for node in nodes.iter_mut() {
        lower_node(alloc, node)?;
    }
    Ok(())
}

#[cycle(lower)]
#[inline(always)]
fn lower_node(alloc: Global, node: &mut Node) -> Result<(), AllocError>
    ensures tree { OnOk result (node_tree node.new ≡ named (node_tree node.old)) }
    ensures places { OnOk result (term_places node.new ≡ term_places node.old) }
{
    let id = node.id;
    let place = node.place;
    match &mut node.term {
        Term::Call { path: _, args } => {
            lower_each(alloc, args)?;
            Ok(())
        }
        Term::Form { op, args, body } => {
            lower_form(alloc, id, place, op, args, body)?;
            Ok(())
        }
        _ => Ok(()),
    }
}

// A form with an id and a place. A symbol with something in braces stays as it is.
#[cycle(lower)]
#[inline(never)]
fn lower_form(
    alloc: Global,
    id: u32,
    place: Place,
    op: &mut Op,
    args: &mut Vec<Node>,
    body: &mut Vec<Node>,
) -> Result<(), AllocError>
    ensures tree { OnOk result ((at : At) → form at op.new (trees_of args.new.items) (trees_of body.new.items)
        ≡ named (form at op.old (trees_of args.old.items) (trees_of body.old.items))) }
    ensures places { OnOk result ((if holds_terms op.new then places_of body.new.items else [])
        ≡ (if holds_terms op.old then places_of body.old.items else [])) }
{
    match *op {
        Op::Symbolic(symbol) => {
            if !body.is_empty() {
                return Ok(());
            }
            let made = lower_symbol(alloc, id, place, symbol, args)?;
            *op = made;
            Ok(())
        }
        _ => {
            lower_each(alloc, args)?;
            lower_body(alloc, *op, body)?;
            Ok(())
        }
    }
}

// What stands in the braces of a form.
#[cycle(lower)]
fn lower_body(alloc: Global, op: Op, body: &mut Vec<Node>) -> Result<(), AllocError>
    ensures trees { OnOk result (trees_of body.new.items ≡ named_body op (trees_of body.old.items)) }
    ensures places { OnOk result (holds_terms op ≡ true → places_of body.new.items ≡ places_of body.old.items) }
{
    match op {
        Op::Special(Special::Package)
        | Op::Declaration(
            Declaration::Method
            | Declaration::Device
            | Declaration::ThermalZone
            | Declaration::PowerResource
            | Declaration::Processor
            | Declaration::Scope,
        )
        | Op::Control(
            Control::If
            | Control::ElseIf
            | Control::Else
            | Control::While
            | Control::For
            | Control::Switch
            | Control::Case
            | Control::Default,
        ) => {
            lower_each(alloc, body)?;
            Ok(())
        }
        _ => Ok(()),
    }
}

// The operator of what is written with a symbol, on its arguments. What does not fit keeps its symbol.
#[cycle(lower)]
fn lower_symbol(
    alloc: Global,
    id: u32,
    place: Place,
    symbol: Symbolic,
    args: &mut Vec<Node>,
) -> Result<Op, AllocError>
    ensures tree { IfOk result (λ op. (at : At) → form at op (trees_of args.new.items) no_trees
        ≡ named (form at (O.Symbolic symbol) (trees_of args.old.items) no_trees)) }
    ensures alone { IfOk result (λ op. holds_terms op ≡ false) }
{
    match symbol {
        Symbolic::Operator(op) => {
            let made = lower_operator(alloc, id, place, op, args)?;
            Ok(made)
        }
        Symbolic::Assign => {
            let made = lower_assignment(alloc, args)?;
            Ok(made)
        }
        Symbolic::AssignBy(op) => {
            let made = lower_compound(alloc, op, args)?;
            Ok(made)
        }
    }
}

#[cycle(lower)]
fn lower_operator(
    alloc: Global,
    id: u32,
    place: Place,
    op: Plain,
    args: &mut Vec<Node>,
) -> Result<Op, AllocError>
    ensures tree { IfOk result (λ made. (at : At) → form at made (trees_of args.new.items) no_trees
        ≡ named (form at (O.Symbolic (S.Operator op)) (trees_of args.old.items) no_trees)) }
    ensures alone { IfOk result (λ op. holds_terms op ≡ false) }
{
    if !fit(op, args) {
        return Ok(Op::Symbolic(Symbolic::Operator(op)));
    }
    lower_each(alloc, args)?;
    put_omitted(op, args, id, place)?;
    Ok(Op::Plain(op))
}

// `X = E`: the operator of E with the target X, or else Store.
#[cycle(lower)]
fn lower_assignment(alloc: Global, args: &mut Vec<Node>) -> Result<Op, AllocError>
    ensures tree { IfOk result (λ made. (at : At) → form at made (trees_of args.new.items) no_trees
        ≡ named (form at (O.Symbolic S.Assign) (trees_of args.old.items) no_trees)) }
    ensures alone { IfOk result (λ op. holds_terms op ≡ false) }
{
    if args.len() != 2 {
        return Ok(Op::Symbolic(Symbolic::Assign));
    }
    match kind_of(&args[1].term) {
        TermRole::Operated(op) => {
            let both = replace(args, Vec::new(alloc));
            let (target, value) = two(both);
            let mut target = target;
            let mut operands = operands(alloc, value.term);
            lower_node(alloc, &mut target)?;
            lower_each(alloc, &mut operands)?;
            put_targets(op, &mut operands, target)?;
            *args = operands;
            Ok(Op::Plain(op))
        }
        _ => {
            lower_each(alloc, args)?;
            args.swap(0, 1);
            give(alloc, &mut args[0]);
            Ok(Op::Plain(Plain::Data(DataOp::Store)))
        }
    }
}

// `X op= Y`: the operator on X and Y with the target X.
#[cycle(lower)]
fn lower_compound(alloc: Global, op: Compound, args: &mut Vec<Node>) -> Result<Op, AllocError>
    ensures tree { IfOk result (λ made. (at : At) → form at made (trees_of args.new.items) no_trees
        ≡ named (form at (O.Symbolic (S.AssignBy op)) (trees_of args.old.items) no_trees)) }
    ensures alone { IfOk result (λ op. holds_terms op ≡ false) }
{
    if args.len() != 2 {
        return Ok(Op::Symbolic(Symbolic::AssignBy(op)));
    }
    lower_each(alloc, args)?;
    let target = copied(alloc, &args[0])?;
    give(alloc, &mut args[0]);
    give(alloc, &mut args[1]);
    let plain = compound(op);
    put_targets(plain, args, target)?;
    Ok(Op::Plain(plain))
}
