//! How many nodes the lowering makes of terms: the copies of the steps of Fors before their Continues, and those of what is assigned to by
//! an operator, with all that stands in the terms. Nothing is made for the count, and its time is that of a walk or two.

use asl_tree::term::{Control, Node, Op, Symbolic, Term};

// How many are made of the arguments of a form. What is assigned to by an operator is an operand too.
#[cycle(made)]
fn made_of_arguments(op: Op, args: &[Node]) -> u64 {
    match (op, args) {
        (Op::Symbolic(Symbolic::AssignBy(_)), [target, value]) => made_in(target, 0)
            .saturating_mul(2)
            .saturating_add(made_in(value, 0)),
        _ => made_among(args, 0),
    }
}

// How many are made before a Continue in the braces of a form with these arguments, where `step` are made before one beside it: those of
// the step of a For, and in a statement that is no loop as many as beside it.
#[cycle(made)]
fn step_inside(op: Op, args: &[Node], step: u64) -> u64 {
    match (op, args) {
        (Op::Control(Control::For), [_, _, turn]) => made_in(turn, 0),
        (
            Op::Control(
                Control::If
                | Control::ElseIf
                | Control::Else
                | Control::Switch
                | Control::Case
                | Control::Default,
            ),
            _,
        ) => step,
        _ => 0,
    }
}

// How many are made of a form itself.
fn made_of_itself(op: Op, step: u64) -> u64 {
    match op {
        Op::Control(Control::Continue) => step.saturating_add(1),
        _ => 1,
    }
}

// How many are made of a node.
#[cycle(made)]
fn made_in(node: &Node, step: u64) -> u64 {
    match &node.term {
        Term::Call { args, .. } => made_among(args, 0).saturating_add(1),
        Term::Form { op, args, body } => made_of_arguments(*op, args)
            .saturating_add(made_among(body, step_inside(*op, args, step)))
            .saturating_add(made_of_itself(*op, step)),
        _ => 1,
    }
}

// How many are made of nodes.
#[cycle(made)]
fn made_among(nodes: &[Node], step: u64) -> u64 {
    let mut count: u64 = 0;
    for node in nodes {
        count = count.saturating_add(made_in(node, step));
    }
    count
}

/// How many nodes the lowering makes of terms, before constants are folded; the largest u64 stands for more.
pub fn made_nodes(terms: &[Node]) -> u64 {
    made_among(terms, 0)
}
