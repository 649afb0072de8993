//! How many nodes the terms of a core have. A count of more than a u64 holds is the largest u64.
ghost use Rattle.std.specs.Prelude.{◌≡◌, ◌-◌, ◌^◌, length, min};
ghost use Rattle.acpi_names.specs.Walked.{node_tree};
ghost use Rattle.asl_tree.specs.Tree.{no_trees, tree};
ghost use Rattle.asl_tree.specs.View.{body_bytes, trees_of};
ghost use Rattle.core_nodes.specs.Forms as spec;
ghost use Rattle.core_nodes.specs.Nodes.{nodes_in, nodes_of};
ghost use Rattle.core_nodes.specs.Whole.{AreWhole, IsWhole};

use acpi_values::operator::{IntOp, Plain};
use asl_tree::term::{Control, Node, Op, Special, Symbolic, Term};

// How many nodes an operator is with no operands.
fn operator_nodes(op: Plain) -> u64
    ensures { result ≡ spec.operator_nodes op }
{
    match op {
        Plain::Number(IntOp::LNotEqual | IntOp::LLessEqual | IntOp::LGreaterEqual) => 2,
        _ => 1,
    }
}

// How many nodes a form is beside its arguments and its braces.
fn own_nodes(op: Op) -> u64
    ensures { result ≡ spec.own_nodes op }
{
    match op {
        Op::Plain(op) => operator_nodes(op),
        Op::Symbolic(Symbolic::Operator(op)) => operator_nodes(op),
        Op::Control(Control::Printf) => 2,
        _ => 1,
    }
}

// How many bytes what stands alone in the braces of a Buffer is.
fn bytes_alone(node: &Node) -> usize
    ensures { result ≡ length (body_bytes (tree (node_tree node.now) no_trees)) }
{
    match &node.term {
        Term::Text(text) => text.as_bytes().len() + 1,
        Term::Fill { bytes, .. } => bytes.as_bytes().len(),
        _ => 1,
    }
}

// How many bytes stand in the braces of a Buffer.
fn byte_count(body: &[Node]) -> usize
    ensures { result ≡ length (body_bytes (trees_of body.now)) }
{
    match body {
        [node] => bytes_alone(node),
        _ => body.len(),
    }
}

// How many nodes stand in the braces of a form.
#[cycle(count)]
fn braces_nodes(op: Op, body: &[Node]) -> u64
    ensures { spec.AreWholeBraces op (trees_of body.now) → result ≡ min (spec.braces_nodes op (trees_of body.now)) (2 ^ 64 - 1) }
{
    match op {
        Op::Special(Special::Buffer) => byte_count(body) as u64,
        _ => counted(body),
    }
}

// How many nodes a node is with those in it.
#[cycle(count)]
fn counted_in(node: &Node) -> u64
    ensures { IsWhole (node_tree node.now) → result ≡ min (nodes_of (node_tree node.now)) (2 ^ 64 - 1) }
{
    match &node.term {
        Term::Call { args, .. } => counted(args).saturating_add(1),
        Term::Form { op, args, body } => counted(args)
            .saturating_add(braces_nodes(*op, body))
            .saturating_add(own_nodes(*op)),
        _ => 1,
    }
}

/// How many nodes any terms have: the number of `core_nodes` where the arguments of each form fit it, and one without a meaning elsewhere.
/// The largest u64 stands for more.
#[cycle(count)]
pub fn counted(terms: &[Node]) -> u64
    ensures { AreWhole (trees_of terms.now) → result ≡ min (nodes_in (trees_of terms.now)) (2 ^ 64 - 1) }
{
    let mut count: u64 = 0;
    for node in terms {
        count = count.saturating_add(counted_in(node));
    }
    count
}

/// How many nodes the terms of a core have: each term, and in it each operand, target and element, each name and number that it
/// declares or leads to, each byte of a Buffer, and each item of a field's list. The largest u64 stands for more.
pub fn core_nodes(terms: &[Node]) -> u64
    requires { AreWhole (trees_of terms.now) }
    ensures { result ≡ min (nodes_in (trees_of terms.now)) (2 ^ 64 - 1) }
{
    counted(terms)
}
