//! What the members of a list are for folding.
ghost use Rattle.std.specs.Prelude.{◌≡◌, slice_get};
ghost use Rattle.acpi_values.specs.Operators.{row_of};
ghost use Rattle.asl_operators.specs.Letters.{letters_as};
ghost use Rattle.asl_fold.specs.Nodes.{raw_at, raw_code, is_declared as declared_at, is_first as first_place, is_kept as kept_at};
ghost use Rattle.asl_fold.specs.Nodes.{is_second as second_place, part_in, listing_of as listing_in};

use acpi_values::operator::Plain;
use asl_operators::letter::Letter;
use asl_operators::rows::letters;
use asl_tree::term::{Control, Declaration, Op, Special, Symbolic};

/// What a member of a list is: it is kept as it is written, it is an operand, or a statement.
#[derive(Clone, Copy, PartialEq, Eq, Debug)]
pub enum MemberRole {
    Kept,
    Operand,
    Statement,
}

/// A list: the arguments of a form, expressions, terms, or what is no term.
#[derive(Clone, Copy, PartialEq, Eq, Debug)]
pub enum Listing {
    Arguments(Op),
    Elements,
    Terms,
    Others,
}

fn letter_at(letters: &[Letter], index: usize) -> Option<Letter>
    ensures { result ≡ slice_get letters.now index }
{
    letters.get(index).copied()
}

fn is_raw_letter(found: Option<Letter>) -> bool
    ensures { result ≡ raw_code found }
{
    match found {
        Some(Letter::Byte) => true,
        Some(Letter::Word) => true,
        Some(Letter::DWord) => true,
        _ => false,
    }
}

// Whether an operand is a constant of so many bytes.
fn is_raw(op: Plain, index: usize) -> bool
    ensures { result ≡ raw_at (row_of op).operands index }
{
    is_raw_letter(letter_at(letters(op), index))
}

// Whether an argument of a declaration is no expression.
fn is_declared(declaration: Declaration, index: usize) -> bool
    ensures { result ≡ declared_at declaration index }
{
    match declaration {
        Declaration::Name => index == 0,
        Declaration::OperationRegion => index < 2,
        Declaration::BankField => index != 2,
        Declaration::CreateField => index == 3,
        Declaration::CreateBitField
        | Declaration::CreateByteField
        | Declaration::CreateWordField
        | Declaration::CreateDWordField
        | Declaration::CreateQWordField => index == 2,
        _ => true,
    }
}

// Where the format of a Printf stands.
#[tactic(auto, using(crate::proofs::Sights::first_at))]
fn is_first(index: usize) -> bool
    ensures { result ≡ first_place index }
{
    index == 0
}

// Where that of an Fprintf stands.
#[tactic(auto, using(crate::proofs::Sights::second_at))]
fn is_second(index: usize) -> bool
    ensures { result ≡ second_place index }
{
    index == 1
}

fn is_kept(op: Op, index: usize) -> bool
    ensures { result ≡ kept_at op index }
{
    match op {
        Op::Declaration(declaration) => is_declared(declaration, index),
        Op::Control(Control::Printf) => is_first(index),
        Op::Control(Control::Fprintf) => is_second(index),
        Op::Plain(op) => is_raw(op, index),
        Op::Symbolic(Symbolic::Operator(op)) => is_raw(op, index),
        _ => false,
    }
}

/// What the member of a list at a place is.
pub(crate) fn part_of(listing: Listing, index: usize) -> MemberRole
    ensures { result ≡ part_in listing index }
{
    match listing {
        Listing::Arguments(op) => if is_kept(op, index) {
            MemberRole::Kept
        } else {
            MemberRole::Operand
        },
        Listing::Elements => MemberRole::Operand,
        Listing::Terms => MemberRole::Statement,
        Listing::Others => MemberRole::Kept,
    }
}

/// What stands in the braces of a form.
pub(crate) fn listing_of(op: Op) -> Listing
    ensures { result ≡ listing_in op }
{
    match op {
        Op::Special(Special::Package) => Listing::Elements,
        Op::Declaration(
            Declaration::Method
            | Declaration::Device
            | Declaration::ThermalZone
            | Declaration::PowerResource
            | Declaration::Processor
            | Declaration::Scope,
        )
        | Op::Control(
            Control::If
            | Control::ElseIf
            | Control::Else
            | Control::While
            | Control::For
            | Control::Switch
            | Control::Case
            | Control::Default,
        ) => { Listing::Terms }
        _ => Listing::Others,
    }
}
