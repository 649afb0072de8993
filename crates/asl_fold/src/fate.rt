//! What becomes of an operator on constants.
ghost use Rattle.std.specs.Prelude.{◌≡◌, ◌≤◌, ◌∷◌, [], true, false, length, IfSome, MatchOption};
ghost use Rattle.acpi_values.specs.Operators.{row_of};
ghost use Rattle.acpi_values.specs.Widths.{ones_of};
ghost use Rattle.acpi_values.specs.Integers.{applied};
ghost use Rattle.acpi_values.specs.declared.operator.Plain.TheVariants as P;
ghost use Rattle.acpi_state.specs.Outcomes.{choose};
ghost use Rattle.asl_tree.specs.Constants.{is_unary as unary_of};
ghost use Rattle.asl_tree.specs.View.{trees_of};
ghost use Rattle.asl_fold.specs.declared.fate.Fate.TheVariants as F;
ghost use Rattle.asl_fold.specs.Folds.{without_fault, result_on, fate_with};
ghost use Rattle.asl_fold.specs.Nodes.{seen_value, seen_fate, fate_zero, fate_one, fate_two, fate_on, fate_form};

use crate::seen::{Seen, seen_as};
use acpi_values::integer::{apply, wrap};
use acpi_values::operator::{IntOp, Plain};
use acpi_values::width::Width;
use asl_tree::constant::literal_value;
use asl_tree::term::Node;

/// What becomes of an operator: it stays, it is a number, or the number is stored into its target.
#[derive(Clone, Copy, PartialEq, Eq, Debug)]
pub enum Fate {
    Stays,
    Becomes(u64),
    Stores(u64),
}

fn is_unary(op: IntOp) -> bool
    ensures { result ≡ unary_of op }
{
    matches!(
        op,
        IntOp::Not
            | IntOp::FindSetLeftBit
            | IntOp::FindSetRightBit
            | IntOp::FromBcd
            | IntOp::ToBcd
            | IntOp::LNot
    )
}

fn target_count(op: IntOp) -> usize
    ensures { result ≡ (row_of (P.Number op)).targets }
{
    match op {
        IntOp::Divide => 2,
        IntOp::LAnd | IntOp::LOr | IntOp::LNot => 0,
        IntOp::LEqual | IntOp::LGreater | IntOp::LLess => 0,
        IntOp::LNotEqual | IntOp::LLessEqual | IntOp::LGreaterEqual => 0,
        _ => 1,
    }
}

// An operand as a constant; one that is left out has all its bits set.
fn value_of(width: Width, operand: Seen) -> Option<u64>
    ensures value { result ≡ seen_value width operand }
    ensures fits { IfSome result (λ n. n ≤ ones_of width) }
{
    match operand {
        Seen::Number(number) => Some(wrap(width, number)),
        Seen::Literal(literal) => Some(literal_value(literal, width)),
        Seen::Omitted => Some(width.ones()),
        Seen::Local => None,
        Seen::Other => None,
    }
}

// An operator on two values, where it does not fault.
fn result_of(op: IntOp, width: Width, first: u64, second: u64) -> Option<u64>
    requires first { first ≤ ones_of width }
    requires second { second ≤ ones_of width }
    ensures { result ≡ without_fault (applied op width first second) }
{
    match apply(op, width, first, second) {
        Ok(number) => Some(number),
        Err(_) => None,
    }
}

fn on_one(op: IntOp, width: Width, value: Option<u64>) -> Option<u64>
    requires { IfSome value (λ n. n ≤ ones_of width) }
    ensures { result ≡ result_on width op true (value ∷ []) }
{
    match value {
        Some(value) => result_of(op, width, value, 0),
        None => None,
    }
}

fn on_two(op: IntOp, width: Width, first: Option<u64>, second: Option<u64>) -> Option<u64>
    requires first { IfSome first (λ n. n ≤ ones_of width) }
    requires second { IfSome second (λ n. n ≤ ones_of width) }
    ensures { result ≡ result_on width op false (first ∷ second ∷ []) }
{
    match first {
        Some(first) => match second {
            Some(second) => result_of(op, width, first, second),
            None => None,
        },
        None => None,
    }
}

// A result with a target.
fn fate_into(statement: bool, target: Seen, number: u64) -> Fate
    ensures { result ≡ seen_fate statement target number }
{
    match target {
        Seen::Omitted => Fate::Becomes(number),
        Seen::Local => Fate::Stores(number),
        Seen::Number(_) | Seen::Literal(_) | Seen::Other => {
            if statement {
                Fate::Stores(number)
            } else {
                Fate::Stays
            }
        }
    }
}

// A result with no target.
fn fate_none(count: usize, number: u64) -> Fate
    ensures { result ≡ fate_zero count number }
{
    if count == 0 {
        Fate::Becomes(number)
    } else {
        Fate::Stays
    }
}

// A result with one target, where the operator has so many.
fn fate_alone(statement: bool, count: usize, target: Seen, number: u64) -> Fate
    ensures { result ≡ fate_one statement count target number }
{
    if count == 1 {
        fate_into(statement, target, number)
    } else {
        Fate::Stays
    }
}

// A result with two targets or more.
fn fate_last(
    statement: bool,
    count: usize,
    remainder: Seen,
    target: Seen,
    more: &[Node],
    number: u64,
) -> Fate
    ensures { result ≡ fate_two statement count remainder target (length more.now) number }
{
    if count == 2 && more.is_empty() && remainder == Seen::Omitted {
        fate_into(statement, target, number)
    } else {
        Fate::Stays
    }
}

fn parts(nodes: &[Node]) -> Option<(&Node, &[Node])>
    ensures { MatchOption result (nodes.now ≡ []) (λ p. nodes.now ≡ p.0.now ∷ p.1.now) }
{
    nodes.split_first()
}

// A result with the targets that an operator has.
fn fate_among(statement: bool, op: IntOp, targets: &[Node], number: u64) -> Fate
    ensures { result ≡ fate_with statement (row_of (P.Number op)).targets (trees_of targets.now) number }
{
    let count = target_count(op);
    let Some((first, rest)) = parts(targets) else {
        return fate_none(count, number);
    };
    let Some((second, more)) = parts(rest) else {
        return fate_alone(statement, count, seen_as(&first.term), number);
    };
    fate_last(
        statement,
        count,
        seen_as(&first.term),
        seen_as(&second.term),
        more,
        number,
    )
}

fn fate_by(statement: bool, op: IntOp, targets: &[Node], made: Option<u64>) -> Fate
    ensures { result ≡ choose made F.Stays (fate_with statement (row_of (P.Number op)).targets (trees_of targets.now)) }
{
    match made {
        Some(number) => fate_among(statement, op, targets, number),
        None => Fate::Stays,
    }
}

// What becomes of an operator on integers.
#[inline(never)]
fn fate_of(width: Width, statement: bool, op: IntOp, args: &[Node]) -> Fate
    ensures { result ≡ fate_on width statement op (trees_of args.now) }
{
    let Some((first, rest)) = parts(args) else {
        return Fate::Stays;
    };
    let value = value_of(width, seen_as(&first.term));
    if is_unary(op) {
        return fate_by(statement, op, rest, on_one(op, width, value));
    }
    let Some((second, targets)) = parts(rest) else {
        return Fate::Stays;
    };
    let other = value_of(width, seen_as(&second.term));
    fate_by(statement, op, targets, on_two(op, width, value, other))
}

/// What becomes of a plain operator whose arguments are folded.
#[inline(always)]
pub(crate) fn fate_in(
    width: Width,
    statement: bool,
    op: Plain,
    args: &[Node],
    body: &[Node],
) -> Fate
    ensures { result ≡ fate_form width statement op (trees_of args.now) (trees_of body.now) }
{
    match op {
        Plain::Number(number) => if body.is_empty() {
            fate_of(width, statement, number, args)
        } else {
            Fate::Stays
        },
        _ => Fate::Stays,
    }
}
