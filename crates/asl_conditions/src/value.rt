//! The value of a condition.
ghost use Rattle.std.specs.Prelude.{◌≡◌, ℕ, is_some, Some, IfOk};
ghost use Rattle.asl_macros.specs.History.{History};
ghost use Rattle.asl_macros.specs.Table.{Tells, text_at};
ghost use Rattle.asl_conditions.specs.Condition as spec;
ghost use Rattle.asl_conditions.specs.Grammar.{IsCondition};
ghost use Rattle.asl_conditions.specs.Reading.{Gives};

use crate::opened::Stack;
use crate::reader::{ConditionReader, ConditionStop, Phase, finish, read};
use crate::tokens::front_of;
use asl_macros::{Macros, ReplaceStop, Within, replace};
use iasl_ports::files::MOST_BYTES;
use iasl_ports::list::List;
use std::alloc::Global;

fn value_of(alloc: Global, macros: &Macros, text: &[u8]) -> Result<u64, ConditionStop>
    ensures { Gives result (spec.text_value (λ name. is_some (text_at macros.now name)) text.now) }
{
    let mut rest = text;
    let mut reader = ConditionReader {
        phase: Phase::Operand,
        row: List::new(alloc),
        opened: Stack::new(alloc),
    };
    while !rest.is_empty() {
        let cut = front_of(macros, rest);
        reader = read(alloc, reader, cut.lexeme)?;
        rest = rest.split_at(cut.length).1;
    }
    finish(alloc, reader)
}

// The value of a condition.
fn replaced_value(alloc: Global, macros: &Macros, text: &[u8]) -> Result<u64, ConditionStop>
    ensures { (history : History) → Tells macros.now history → Gives result (spec.condition_of history text.now) }
{
    match replace(alloc, macros, Within::InCondition, text, false, MOST_BYTES) {
        Ok(replaced) => value_of(alloc, macros, &replaced),
        Err(ReplaceStop::TooLong) => Err(ConditionStop::Bad),
        Err(ReplaceStop::Memory) => Err(ConditionStop::Memory),
    }
}

/// The value of the condition of an `#if` or `#elif`: an unsigned number of 64 bits, on which operators wrap.
/// Its defined names are replaced first, and it then has at most 16 MiB; a name that is left is 0. Both sides of
/// `&&` and `||` are evaluated.
pub fn condition(alloc: Global, macros: &Macros, text: &[u8]) -> Result<u64, ConditionStop>
    // The answer is that of a function on lists.
    ensures exact { (history : History) → Tells macros.now history → Gives result (spec.condition_of history text.now) }

    // The text is a condition of this value, and of no other: where it is one of some value, that is found,
    // unless memory runs out.
    ensures found { (history : History) → Tells macros.now history → IfOk result (λ value. IsCondition history text.now value) }
    ensures only { (history : History) (value : ℕ) → Tells macros.now history → IsCondition history text.now value →
        Gives result (Some value) }
{
    replaced_value(alloc, macros, text)
}
