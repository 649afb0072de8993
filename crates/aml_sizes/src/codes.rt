//! What each form is written with.
ghost use Rattle.std.specs.Prelude.{◌≡◌, []};
ghost use Rattle.asl_operators.specs.Letters.{letters_as};
ghost use Rattle.aml_sizes.specs.Codes.{declaration_code, control_code, code_of, plain_code, declaration_letters, letters_of};
ghost use Rattle.term_places.specs.Places.{holds_terms as terms_inside};
ghost use Rattle.aml_sizes.specs.TermBytes.{is_package};
ghost use Rattle.aml_sizes.specs.Forms.{has_own_rule as own_rule, is_plain as plain_form};

use acpi_values::operator::{IntOp, Plain};
use asl_operators::letter::Letter;
use asl_operators::rows;
use asl_tree::term::{Control, Declaration, Literal, Op, Special};

fn declaration_opcode(declaration: Declaration) -> &'static [u8]
    ensures { result.now ≡ declaration_code declaration }
{
    match declaration {
        Declaration::Name => &[0x08],
        Declaration::Alias => &[0x06],
        Declaration::External => &[0x15],
        Declaration::Method => &[0x14],
        Declaration::Mutex => &[0x5B, 0x01],
        Declaration::Event => &[0x5B, 0x02],
        Declaration::Device => &[0x5B, 0x82],
        Declaration::ThermalZone => &[0x5B, 0x85],
        Declaration::PowerResource => &[0x5B, 0x84],
        Declaration::Processor => &[0x5B, 0x83],
        Declaration::Scope => &[0x10],
        Declaration::OperationRegion => &[0x5B, 0x80],
        Declaration::Field => &[0x5B, 0x81],
        Declaration::IndexField => &[0x5B, 0x86],
        Declaration::BankField => &[0x5B, 0x87],
        Declaration::CreateField => &[0x5B, 0x13],
        Declaration::CreateBitField => &[0x8D],
        Declaration::CreateByteField => &[0x8C],
        Declaration::CreateWordField => &[0x8B],
        Declaration::CreateDWordField => &[0x8A],
        Declaration::CreateQWordField => &[0x8F],
    }
}

// Three comparisons are LNot of another.
fn operator_opcode(op: Plain) -> &'static [u8]
    ensures { result.now ≡ plain_code op }
{
    match op {
        Plain::Number(IntOp::LNotEqual) => &[0x92, 0x93],
        Plain::Number(IntOp::LLessEqual) => &[0x92, 0x94],
        Plain::Number(IntOp::LGreaterEqual) => &[0x92, 0x95],
        _ => rows::opcode(op),
    }
}

fn special_opcode(special: Special) -> &'static [u8]
    ensures { result.now ≡ code_of (Op.Special special) }
{
    match special {
        Special::CondRefOf => &[0x5B, 0x12],
        Special::Buffer => &[0x11],
        Special::Package => &[0x12],
    }
}

fn literal_opcode(literal: Literal) -> &'static [u8]
    ensures { result.now ≡ code_of (Op.Literal literal) }
{
    match literal {
        Literal::Zero => &[0x00],
        Literal::One => &[0x01],
        Literal::Ones => &[0xFF],
    }
}

fn control_opcode(control: Control) -> &'static [u8]
    ensures { result.now ≡ control_code control }
{
    match control {
        Control::Return => &[0xA4],
        Control::If => &[0xA0],
        Control::ElseIf => &[],
        Control::Else => &[0xA1],
        Control::While => &[0xA2],
        Control::Switch | Control::Case | Control::Default => &[],
        Control::For | Control::Printf | Control::Fprintf => &[],
        Control::Break => &[0xA5],
        Control::Continue => &[0x9F],
    }
}

/// The bytes that a form begins with.
pub fn opcode(op: Op) -> &'static [u8]
    ensures { result.now ≡ code_of op }
{
    match op {
        Op::Declaration(declaration) => declaration_opcode(declaration),
        Op::Control(control) => control_opcode(control),
        Op::Literal(literal) => literal_opcode(literal),
        Op::Plain(op) => operator_opcode(op),
        Op::Special(special) => special_opcode(special),
        Op::Symbolic(_) => &[],
    }
}

fn declared(declaration: Declaration) -> &'static [Letter]
    ensures { letters_as result.now ≡ declaration_letters declaration }
{
    match declaration {
        Declaration::External => &[Letter::Kept, Letter::Byte, Letter::Byte],
        Declaration::Method | Declaration::Mutex => &[Letter::Kept, Letter::Byte],
        Declaration::OperationRegion | Declaration::Field => &[Letter::Kept, Letter::Byte],
        Declaration::PowerResource => &[Letter::Kept, Letter::Byte, Letter::Word],
        Declaration::Processor => &[Letter::Kept, Letter::Byte, Letter::DWord, Letter::Byte],
        Declaration::IndexField => &[Letter::Kept, Letter::Kept, Letter::Byte],
        Declaration::BankField => &[Letter::Kept, Letter::Kept, Letter::Kept, Letter::Byte],
        _ => &[],
    }
}

/// What the arguments of a form are; those behind stand as terms.
pub fn letters(op: Op) -> &'static [Letter]
    ensures { letters_as result.now ≡ letters_of op }
{
    match op {
        Op::Declaration(declaration) => declared(declaration),
        Op::Plain(op) => rows::letters(op),
        _ => &[],
    }
}

/// Those of a list of terms.
pub fn no_letters() -> &'static [Letter]
    ensures { letters_as result.now ≡ [] }
{
    &[]
}

/// Whether a form is a package behind its opcode.
pub fn is_packed(op: Op) -> bool
    ensures { result ≡ is_package op }
{
    holds_terms(op)
        || matches!(
            op,
            Op::Declaration(Declaration::Field | Declaration::IndexField | Declaration::BankField)
        )
}

/// Whether a form's body is a list of terms, each of which begins a piece.
pub fn holds_terms(op: Op) -> bool
    ensures { result ≡ terms_inside op }
{
    matches!(
        op,
        Op::Declaration(
            Declaration::Method
                | Declaration::Device
                | Declaration::ThermalZone
                | Declaration::PowerResource
                | Declaration::Processor
                | Declaration::Scope
        ) | Op::Control(Control::If | Control::ElseIf | Control::Else | Control::While)
    )
}

// Whether the bytes of a form follow a rule of its own.
fn has_own_rule(op: Op) -> bool
    ensures { result ≡ own_rule op }
{
    matches!(
        op,
        Op::Special(Special::Buffer | Special::Package) | Op::Declaration(Declaration::External)
    )
}

/// Whether a form is its opcode, its arguments and its body, one behind another.
pub fn is_plain(op: Op) -> bool
    ensures { result ≡ plain_form op }
{
    if has_own_rule(op) {
        return false;
    }
    !is_packed(op)
}
