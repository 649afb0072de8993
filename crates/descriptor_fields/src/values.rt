//! Where expressions stand.
ghost use Rattle.std.specs.Prelude.{◌≡◌};
ghost use Rattle.asl_operators.specs.Letters.{letter_as, letters_as};
ghost use Rattle.descriptor_fields.specs.Shown.{among_as};
ghost use Rattle.descriptor_fields.specs.Values as spec;

use asl_operators::letter::Letter;
use asl_operators::rows::letters;
use asl_tree::term::{Control, Declaration, Op, Special, Symbolic};

/// Where the nodes of a list stand.
#[derive(Clone, Copy, PartialEq, Eq, Debug)]
pub enum Among {
    /// As the arguments of a form.
    Arguments(Op),
    /// As its body.
    Contents(Op),
    /// As the arguments of a call; the terms of a block stand as these do.
    Call,
}

fn has_value(letter: Letter) -> bool
    ensures { result ≡ spec.has_value (letter_as letter) }
{
    match letter {
        Letter::Valued | Letter::Kept => true,
        Letter::Placed | Letter::Used | Letter::Byte | Letter::Word | Letter::DWord => false,
    }
}

// Operands; behind them stand targets.
#[tactic(auto, using(crate::proofs::Operands::letter_some, crate::proofs::Operands::letter_none))]
fn is_operand(letters: &[Letter], number: usize) -> bool
    ensures { result ≡ spec.is_operand (letters_as letters.now) number }
{
    match letters.get(number) {
        Some(letter) => has_value(*letter),
        None => false,
    }
}

fn is_declared_value(declaration: Declaration, number: usize) -> bool
    ensures { result ≡ spec.is_declared_value declaration number }
{
    match declaration {
        Declaration::Name => number >= 1,
        Declaration::OperationRegion => number >= 2,
        Declaration::BankField => number == 2,
        Declaration::CreateField => number < 3,
        Declaration::CreateBitField
        | Declaration::CreateByteField
        | Declaration::CreateWordField
        | Declaration::CreateDWordField
        | Declaration::CreateQWordField => number < 2,
        _ => false,
    }
}

// An argument of a form by its number.
fn is_value(op: Op, number: usize) -> bool
    ensures { result ≡ spec.is_value op number }
{
    match op {
        Op::Declaration(declaration) => is_declared_value(declaration, number),
        Op::Plain(op) => is_operand(letters(op), number),
        Op::Symbolic(Symbolic::Operator(op)) => is_operand(letters(op), number),
        Op::Symbolic(_) => number >= 1,
        Op::Special(Special::CondRefOf) => false,
        Op::Control(Control::Fprintf) => number >= 1,
        _ => true,
    }
}

// What stands in the body of a form: the bytes of a Buffer are numbers, and a name in the list of a field is what units are connected to.
fn has_values(op: Op) -> bool
    ensures { result ≡ spec.has_values op }
{
    match op {
        Op::Special(Special::Buffer) => false,
        Op::Declaration(Declaration::Field | Declaration::IndexField | Declaration::BankField) => {
            false
        }
        _ => true,
    }
}

/// Whether a node of a list, by its number, is an expression.
pub fn is_value_in(among: Among, number: usize) -> bool
    ensures { result ≡ spec.is_value_in (among_as among) number }
{
    match among {
        Among::Arguments(op) => is_value(op, number),
        Among::Contents(op) => has_values(op),
        Among::Call => true,
    }
}

/// Whether it is the index or the number of bits of a buffer field that is counted in bits.
pub fn is_in_bits(among: Among, number: usize) -> bool
    ensures { result ≡ spec.is_in_bits (among_as among) number }
{
    match among {
        Among::Arguments(Op::Declaration(Declaration::CreateBitField | Declaration::CreateField)) =>
            number > 0,
        _ => false,
    }
}
