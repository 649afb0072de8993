//! What each symbol stands for (ACPI Specification 6.4, 19.2.6).
ghost use Rattle.std.specs.Prelude.{◌≡◌, ◌≤◌, ◌+◌, min};
ghost use Rattle.asl_terms.specs.Symbols as spec;

use acpi_values::operator::{DataOp, IntOp, Plain};
use asl_syntax::Infix;
use asl_tree::term::{Compound, Op, Symbolic};

// An operator on numbers.
macro_rules! number {
    ($op:expr) => {
        Op::Symbolic(Symbolic::Operator(Plain::Number($op)))
    };
}

// An operator on data.
macro_rules! data {
    ($op:expr) => {
        Op::Symbolic(Symbolic::Operator(Plain::Data($op)))
    };
}

// An assignment by an operator.
macro_rules! assign_by {
    ($op:expr) => {
        Op::Symbolic(Symbolic::AssignBy($op))
    };
}

/// The operator that a symbol stands for.
pub fn symbol_of(symbol: Infix) -> Op
    ensures { result ≡ spec.symbol_of symbol }
{
    match symbol {
        Infix::Index => data!(DataOp::Index),
        Infix::Increment => data!(DataOp::Increment),
        Infix::Decrement => data!(DataOp::Decrement),
        Infix::LogicalNot => number!(IntOp::LNot),
        Infix::Not => number!(IntOp::Not),
        Infix::Multiply => number!(IntOp::Multiply),
        Infix::Divide => number!(IntOp::Divide),
        Infix::Modulo => number!(IntOp::Mod),
        Infix::Add => number!(IntOp::Add),
        Infix::Subtract => number!(IntOp::Subtract),
        Infix::ShiftLeft => number!(IntOp::ShiftLeft),
        Infix::ShiftRight => number!(IntOp::ShiftRight),
        Infix::Less => number!(IntOp::LLess),
        Infix::Greater => number!(IntOp::LGreater),
        Infix::LessEqual => number!(IntOp::LLessEqual),
        Infix::GreaterEqual => number!(IntOp::LGreaterEqual),
        Infix::Equal => number!(IntOp::LEqual),
        Infix::NotEqual => number!(IntOp::LNotEqual),
        Infix::And => number!(IntOp::And),
        Infix::Xor => number!(IntOp::Xor),
        Infix::Or => number!(IntOp::Or),
        Infix::LogicalAnd => number!(IntOp::LAnd),
        Infix::LogicalOr => number!(IntOp::LOr),
        Infix::Assign => Op::Symbolic(Symbolic::Assign),
        Infix::AddAssign => assign_by!(Compound::Add),
        Infix::SubtractAssign => assign_by!(Compound::Subtract),
        Infix::MultiplyAssign => assign_by!(Compound::Multiply),
        Infix::DivideAssign => assign_by!(Compound::Divide),
        Infix::ModuloAssign => assign_by!(Compound::Mod),
        Infix::ShiftLeftAssign => assign_by!(Compound::ShiftLeft),
        Infix::ShiftRightAssign => assign_by!(Compound::ShiftRight),
        Infix::AndAssign => assign_by!(Compound::And),
        Infix::OrAssign => assign_by!(Compound::Or),
        Infix::XorAssign => assign_by!(Compound::Xor),
    }
}

// How many targets an operator that is written with a symbol has behind its operands once it is named.
fn targets_of(op: Op) -> usize
    ensures { result ≤ 2 }
{
    match op {
        Op::Symbolic(Symbolic::Operator(Plain::Number(op))) => match op {
            IntOp::Add
            | IntOp::Subtract
            | IntOp::Multiply
            | IntOp::Mod
            | IntOp::ShiftLeft
            | IntOp::ShiftRight
            | IntOp::And
            | IntOp::Or
            | IntOp::Xor
            | IntOp::Not => 1,
            IntOp::Divide => 2,
            _ => 0,
        },
        Op::Symbolic(Symbolic::Operator(Plain::Data(DataOp::Index))) => 1,
        Op::Symbolic(Symbolic::AssignBy(Compound::Divide)) => 2,
        Op::Symbolic(Symbolic::AssignBy(_)) => 1,
        _ => 0,
    }
}

/// For how many arguments of a form room is taken, which has so many parameters and is given so many arguments: with those are its
/// targets. Only how much memory is taken at once rests on this.
pub fn room_for(op: Op, parameters: usize, given: usize) -> usize
    ensures given { min parameters given ≤ result }
    ensures targets { result ≤ parameters + 2 }
{
    parameters.min(given.max(8)).saturating_add(targets_of(op))
}
