//! The reading of a condition's tokens.
ghost use Rattle.std.specs.Prelude.{◌≡◌, Ok, Err, Some, None, [], ◌∷◌};
ghost use Rattle.asl_conditions.specs.Operators.{row_value as row_value_by};
ghost use Rattle.asl_conditions.specs.Reading as spec;
ghost use Rattle.asl_conditions.specs.Reading.{Gives};

use crate::opened::{Opened, Stack};
use crate::operators::{ConditionInfix, Operand, apply_prefix, truth};
use crate::row::row_value;
use crate::tokens::{ConditionLexeme, ConditionToken};
use iasl_ports::list::List;
use std::alloc::{AllocError, Global};

/// Why a condition has no value.
#[derive(Clone, Copy, Debug)]
pub enum ConditionStop {
    /// It is no expression, has more than 128 parentheses and prefix operators open at once, has more than 16
    /// MiB once its names are replaced, or divides by 0.
    Bad,
    /// There is no memory.
    Memory,
}

impl From<AllocError> for ConditionStop {
    ghost use Rattle.std.specs.Prelude.{◌≡◌};
    ghost use Rattle.asl_conditions.specs.declared.reader.ConditionStop.TheVariants.{Memory};

    ghost from_gives = { λ _ e. e ≡ Memory };

    fn from(_: AllocError) -> ConditionStop {
        ConditionStop::Memory
    }
}

/// What comes next.
#[derive(Clone, Copy, Debug)]
pub enum Phase {
    /// An operand, or a prefix operator or parenthesis before it.
    Operand,
    /// An operator, or the end, behind an operand of this value.
    Operator(u64),
    /// The name behind `defined`, or a parenthesis before it.
    Defined,
    /// The name behind that parenthesis.
    DefinedParenthesis,
    /// The parenthesis behind a name of this value.
    DefinedName(u64),
}

/// What was read of a condition.
#[derive(Drop)]
pub struct ConditionReader {
    pub phase: Phase,
    /// The row of the innermost parentheses so far: operands with the operators behind them.
    pub row: List<Operand>,
    /// What is open around it.
    pub opened: Stack,
}

// How many parentheses and prefix operators may be open at once.
const LIMIT: usize = 128;

// An operand is whole, and so are the prefix operators before it.
fn whole(row: List<Operand>, mut opened: Stack, mut value: u64) -> ConditionReader
    ensures { result ≡ spec.whole row opened value }
{
    while opened.has_prefix() {
        match opened.pop() {
            Some(Opened::Prefix(operator)) => value = apply_prefix(operator, value),
            _ => break,
        }
    }
    ConditionReader {
        phase: Phase::Operator(value),
        row,
        opened,
    }
}

fn open_more(
    row: List<Operand>,
    mut opened: Stack,
    new: Opened,
) -> Result<ConditionReader, ConditionStop>
    ensures { Gives result (spec.open_more row opened new) }
{
    if opened.len() >= LIMIT {
        return Err(ConditionStop::Bad);
    }
    opened.push(new)?;
    Ok(ConditionReader {
        phase: Phase::Operand,
        row,
        opened,
    })
}

fn operand_step(
    alloc: Global,
    row: List<Operand>,
    opened: Stack,
    token: ConditionToken,
) -> Result<ConditionReader, ConditionStop>
    ensures { Gives result (spec.operand_step row opened token) }
{
    match token {
        ConditionToken::Number(value) => Ok(whole(row, opened, value)),
        ConditionToken::Name { .. } => Ok(whole(row, opened, 0)),
        ConditionToken::Defined { .. } => Ok(ConditionReader {
            phase: Phase::Defined,
            row,
            opened,
        }),
        ConditionToken::Open => open_more(List::new(alloc), opened, Opened::Parenthesis(row)),
        ConditionToken::Prefix(operator) => open_more(row, opened, Opened::Prefix(operator)),
        ConditionToken::Close | ConditionToken::Infix(_) => Err(ConditionStop::Bad),
    }
}

// The parentheses close.
fn close(
    alloc: Global,
    row: List<Operand>,
    mut opened: Stack,
    value: u64,
) -> Result<ConditionReader, ConditionStop>
    ensures { Gives result (spec.closed opened (row_value_by row value)) }
{
    match opened.pop() {
        Some(Opened::Parenthesis(outer)) => {
            let value = row_value(alloc, row, value)?;
            Ok(whole(outer, opened, value))
        }
        _ => Err(ConditionStop::Bad),
    }
}

fn operator_step(
    alloc: Global,
    mut row: List<Operand>,
    opened: Stack,
    value: u64,
    token: ConditionToken,
) -> Result<ConditionReader, ConditionStop>
    ensures { Gives result (spec.operator_step value row opened token) }
{
    match token {
        ConditionToken::Infix(operator) => {
            row.push(Operand { value, operator })?;
            Ok(ConditionReader {
                phase: Phase::Operand,
                row,
                opened,
            })
        }
        ConditionToken::Close => close(alloc, row, opened, value),
        _ => Err(ConditionStop::Bad),
    }
}

fn defined_step(
    row: List<Operand>,
    opened: Stack,
    token: ConditionToken,
) -> Result<ConditionReader, ConditionStop>
    ensures { Gives result (spec.defined_step row opened token) }
{
    match token {
        ConditionToken::Name { is_defined } | ConditionToken::Defined { is_defined } => {
            Ok(whole(row, opened, truth(is_defined)))
        }
        ConditionToken::Open => {
            if opened.len() >= LIMIT {
                return Err(ConditionStop::Bad);
            }
            Ok(ConditionReader {
                phase: Phase::DefinedParenthesis,
                row,
                opened,
            })
        }
        _ => Err(ConditionStop::Bad),
    }
}

fn parenthesis_step(
    row: List<Operand>,
    opened: Stack,
    token: ConditionToken,
) -> Result<ConditionReader, ConditionStop>
    ensures { Gives result (spec.parenthesis_step row opened token) }
{
    match token {
        ConditionToken::Name { is_defined } | ConditionToken::Defined { is_defined } => Ok(
            ConditionReader {
                phase: Phase::DefinedName(truth(is_defined)),
                row,
                opened,
            },
        ),
        _ => Err(ConditionStop::Bad),
    }
}

fn name_step(
    row: List<Operand>,
    opened: Stack,
    value: u64,
    token: ConditionToken,
) -> Result<ConditionReader, ConditionStop>
    ensures { Gives result (spec.name_step value row opened token) }
{
    match token {
        ConditionToken::Close => Ok(whole(row, opened, value)),
        _ => Err(ConditionStop::Bad),
    }
}

// Reads one more token.
#[tactic(auto, unfolding(crate::specs::Reading::step))]
fn step(
    alloc: Global,
    reader: ConditionReader,
    token: ConditionToken,
) -> Result<ConditionReader, ConditionStop>
    ensures { Gives result (spec.step reader token) }
{
    let ConditionReader { phase, row, opened } = reader;
    match phase {
        Phase::Operand => operand_step(alloc, row, opened, token),
        Phase::Operator(value) => operator_step(alloc, row, opened, value, token),
        Phase::Defined => defined_step(row, opened, token),
        Phase::DefinedParenthesis => parenthesis_step(row, opened, token),
        Phase::DefinedName(value) => name_step(row, opened, value, token),
    }
}

/// Reads what stands at a place.
pub fn read(
    alloc: Global,
    reader: ConditionReader,
    lexeme: ConditionLexeme,
) -> Result<ConditionReader, ConditionStop>
    ensures { Gives result (spec.read reader lexeme) }
{
    match lexeme {
        ConditionLexeme::Blank => Ok(reader),
        ConditionLexeme::Whole(token) => step(alloc, reader, token),
        ConditionLexeme::Bad => Err(ConditionStop::Bad),
    }
}

/// The value at the end of the tokens.
pub fn finish(alloc: Global, reader: ConditionReader) -> Result<u64, ConditionStop>
    ensures { Gives result (spec.finish_by reader.phase reader.row reader.opened) }
{
    let ConditionReader { phase, row, opened } = reader;
    match phase {
        Phase::Operator(value) => {
            if opened.len() == 0 {
                row_value(alloc, row, value)
            } else {
                Err(ConditionStop::Bad)
            }
        }
        _ => Err(ConditionStop::Bad),
    }
}
