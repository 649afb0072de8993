//! The value of a row of operands with operators between them.
ghost use Rattle.std.specs.Prelude.{◌≡◌, ◌∷◌, ◌++◌, [], if◌then◌else◌, ◌==◌, Some, None, IfOk};
ghost use Rattle.asl_conditions.specs.Operators as spec;
ghost use Rattle.asl_conditions.specs.Operators.{level_of as level_by};
ghost use Rattle.asl_conditions.specs.Reading.{Gives};

use crate::operators::{Operand, apply, level_of};
use crate::reader::ConditionStop;
use iasl_ports::list::List;
use std::alloc::{AllocError, Global};

// An operand, to which the operator that waits for it is applied.
fn with_left(left: Option<Operand>, value: u64) -> Option<u64>
    ensures { result ≡ spec.with_left left value }
{
    match left {
        None => Some(value),
        Some(left) => apply(left.operator, left.value, value),
    }
}

// Adds an operand whose operator is not of the level; one whose operator is waits for what comes.
fn add(row: &mut List<Operand>, level: u8, operand: Operand) -> Result<Option<Operand>, AllocError>
    ensures waits { IfOk result (λ left. left ≡ (if level_by operand.operator == level then Some operand else None)) }
    ensures added { IfOk result (λ left. row.new ≡ (if level_by operand.operator == level then row.old else row.old ++ operand ∷ [])) }
{
    if level_of(operand.operator) == level {
        return Ok(Some(operand));
    }
    row.push(operand)?;
    Ok(None)
}

// The row in which the operators of one level are applied.
#[tactic(auto, unfolding(crate::specs::Operators::pass))]
fn pass(
    alloc: Global,
    level: u8,
    row: &[Operand],
    last: u64,
) -> Result<(List<Operand>, u64), ConditionStop>
    ensures { Gives result (spec.pass level None row.now last) }
{
    let mut out = List::new(alloc);
    let mut left = None;
    for operand in row {
        let Some(value) = with_left(left, operand.value) else {
            return Err(ConditionStop::Bad);
        };
        left = add(
            &mut out,
            level,
            Operand {
                value,
                operator: operand.operator,
            },
        )?;
    }
    match with_left(left, last) {
        Some(last) => Ok((out, last)),
        None => Err(ConditionStop::Bad),
    }
}

/// What a row is worth: operands, each with the operator behind it, and the last operand.
pub fn row_value(alloc: Global, mut row: List<Operand>, mut last: u64) -> Result<u64, ConditionStop>
    ensures { Gives result (spec.row_value row last) }
{
    for level in 1..11 {
        if row.is_empty() {
            return Ok(last);
        }
        let (next, value) = pass(alloc, level, row.as_slice(), last)?;
        row = next;
        last = value;
    }
    Ok(last)
}
