//! The arguments and braces of the operators, and where they may stand (ACPI Specification 6.4, 19.6).
ghost use Rattle.std.specs.Prelude.{◌≡◌};
ghost use Rattle.asl_tree.specs.declared.term.Op.TheVariants as Op;
ghost use Rattle.asl_tree.specs.declared.term.Symbolic.TheVariants as Symbolic;
ghost use Rattle.acpi_values.specs.declared.operator.Plain.TheVariants as Plain;
ghost use Rattle.asl_words.specs.Operators as spec;

use crate::operator::{Body, FieldWord, Parameter, Role, Slot, StringForm, TextMacro, WordKind};
use acpi_values::operator::{DataOp, EventOp, IntOp, Plain};
use asl_tree::term::{Control, Declaration, Op, Special, Symbolic};

macro_rules! asked {
    ($slot:expr) => {
        Parameter {
            slot: $slot,
            omittable: false,
            further: false,
        }
    };
}

macro_rules! optional {
    ($slot:expr) => {
        Parameter {
            slot: $slot,
            omittable: true,
            further: false,
        }
    };
}

macro_rules! constant {
    ($least:expr, $most:expr) => {
        Slot::Constant {
            least: $least,
            most: $most,
        }
    };
}

const EXPRESSION: Parameter = asked!(Slot::Expression);

const PLACE: Parameter = asked!(Slot::Place);

const TARGET: Parameter = optional!(Slot::Place);

const DECLARED: Parameter = asked!(Slot::Declared);

const USED: Parameter = asked!(Slot::Used);

const BYTE: Parameter = asked!(constant!(0, 0xFF));

const WORD: Parameter = asked!(constant!(0, 0xFFFF));

const DOUBLE_WORD: Parameter = asked!(constant!(0, 0xFFFF_FFFF));

const TEST: Parameter = asked!(Slot::Word(WordKind::Match));

const SPACE: Parameter = asked!(Slot::Space);

const ACCESS: Parameter = asked!(Slot::Word(WordKind::Access));

const LOCK: Parameter = asked!(Slot::Word(WordKind::Lock));

const SIZE: Parameter = optional!(Slot::Measure);

const UPDATE: Parameter = asked!(Slot::Word(WordKind::Update));

const FORMAT: Parameter = asked!(Slot::String(StringForm::Format));

const FURTHER: Parameter = Parameter {
    slot: Slot::Expression,
    omittable: false,
    further: true,
};

// A format, and then up to 60 arguments.
const PRINTED: &[Parameter] = &[
    FORMAT, FURTHER, FURTHER, FURTHER, FURTHER, FURTHER, FURTHER, FURTHER, FURTHER, FURTHER,
    FURTHER, FURTHER, FURTHER, FURTHER, FURTHER, FURTHER, FURTHER, FURTHER, FURTHER, FURTHER,
    FURTHER, FURTHER, FURTHER, FURTHER, FURTHER, FURTHER, FURTHER, FURTHER, FURTHER, FURTHER,
    FURTHER, FURTHER, FURTHER, FURTHER, FURTHER, FURTHER, FURTHER, FURTHER, FURTHER, FURTHER,
    FURTHER, FURTHER, FURTHER, FURTHER, FURTHER, FURTHER, FURTHER, FURTHER, FURTHER, FURTHER,
    FURTHER, FURTHER, FURTHER, FURTHER, FURTHER, FURTHER, FURTHER, FURTHER, FURTHER, FURTHER,
    FURTHER,
];

// The place, and then the same.
const PRINTED_INTO: &[Parameter] = &[
    PLACE, FORMAT, FURTHER, FURTHER, FURTHER, FURTHER, FURTHER, FURTHER, FURTHER, FURTHER, FURTHER,
    FURTHER, FURTHER, FURTHER, FURTHER, FURTHER, FURTHER, FURTHER, FURTHER, FURTHER, FURTHER,
    FURTHER, FURTHER, FURTHER, FURTHER, FURTHER, FURTHER, FURTHER, FURTHER, FURTHER, FURTHER,
    FURTHER, FURTHER, FURTHER, FURTHER, FURTHER, FURTHER, FURTHER, FURTHER, FURTHER, FURTHER,
    FURTHER, FURTHER, FURTHER, FURTHER, FURTHER, FURTHER, FURTHER, FURTHER, FURTHER, FURTHER,
    FURTHER, FURTHER, FURTHER, FURTHER, FURTHER, FURTHER, FURTHER, FURTHER, FURTHER, FURTHER,
    FURTHER,
];

#[tactic(auto, unfolding(crate::specs::Operators::parameters_of))]
fn of_number(op: IntOp) -> &'static [Parameter]
    ensures { result.now ≡ spec.parameters_of (Op.Plain (Plain.Number op)) }
{
    match op {
        IntOp::Add
        | IntOp::Subtract
        | IntOp::Multiply
        | IntOp::ShiftLeft
        | IntOp::ShiftRight
        | IntOp::And
        | IntOp::Nand
        | IntOp::Or
        | IntOp::Nor
        | IntOp::Xor
        | IntOp::Mod => &[EXPRESSION, EXPRESSION, TARGET],
        IntOp::Divide => &[EXPRESSION, EXPRESSION, TARGET, TARGET],
        IntOp::Not
        | IntOp::FindSetLeftBit
        | IntOp::FindSetRightBit
        | IntOp::FromBcd
        | IntOp::ToBcd => &[EXPRESSION, TARGET],
        IntOp::LNot => &[EXPRESSION],
        IntOp::LAnd
        | IntOp::LOr
        | IntOp::LEqual
        | IntOp::LGreater
        | IntOp::LLess
        | IntOp::LNotEqual
        | IntOp::LLessEqual
        | IntOp::LGreaterEqual => &[EXPRESSION, EXPRESSION],
    }
}

#[tactic(auto, unfolding(crate::specs::Operators::parameters_of))]
fn of_data(op: DataOp) -> &'static [Parameter]
    ensures { result.now ≡ spec.parameters_of (Op.Plain (Plain.Data op)) }
{
    match op {
        DataOp::Increment
        | DataOp::Decrement
        | DataOp::RefOf
        | DataOp::SizeOf
        | DataOp::ObjectType => &[PLACE],
        DataOp::Store => &[EXPRESSION, PLACE],
        DataOp::CopyObject => &[EXPRESSION, asked!(Slot::Named)],
        DataOp::Concatenate | DataOp::ConcatenateResTemplate | DataOp::Index => {
            &[EXPRESSION, EXPRESSION, TARGET]
        }
        DataOp::ToBuffer | DataOp::ToDecimalString | DataOp::ToHexString | DataOp::ToInteger => &[
            EXPRESSION, TARGET,
        ],
        DataOp::ToString => &[EXPRESSION, optional!(Slot::Expression), TARGET],
        DataOp::Mid => &[EXPRESSION, EXPRESSION, EXPRESSION, TARGET],
        DataOp::DerefOf => &[EXPRESSION],
        DataOp::Match => &[EXPRESSION, TEST, EXPRESSION, TEST, EXPRESSION, EXPRESSION],
    }
}

#[tactic(auto, unfolding(crate::specs::Operators::parameters_of))]
fn of_event(op: EventOp) -> &'static [Parameter]
    ensures { result.now ≡ spec.parameters_of (Op.Plain (Plain.Event op)) }
{
    match op {
        EventOp::Acquire => &[USED, WORD],
        EventOp::Wait => &[USED, EXPRESSION],
        EventOp::Timer | EventOp::Revision | EventOp::Noop | EventOp::BreakPoint => &[],
        EventOp::Release | EventOp::Signal | EventOp::Reset => &[USED],
        EventOp::Notify => &[PLACE, EXPRESSION],
        EventOp::Sleep | EventOp::Stall => &[EXPRESSION],
        EventOp::Fatal => &[BYTE, DOUBLE_WORD, EXPRESSION],
    }
}

#[tactic(auto, unfolding(crate::specs::Operators::parameters_of))]
fn of_declaration(op: Declaration) -> &'static [Parameter]
    ensures { result.now ≡ spec.parameters_of (Op.Declaration op) }
{
    match op {
        Declaration::Name => &[DECLARED, EXPRESSION],
        Declaration::Alias => &[USED, DECLARED],
        Declaration::External => &[
            asked!(Slot::External),
            optional!(Slot::Word(WordKind::ObjectType)),
            optional!(Slot::Types { most: 7 }),
            optional!(Slot::Types { most: 7 }),
        ],
        Declaration::Method => &[
            DECLARED,
            optional!(constant!(0, 7)),
            optional!(Slot::Word(WordKind::Serialize)),
            optional!(constant!(0, 15)),
            optional!(Slot::Types { most: 0xFFFF_FFFF }),
            optional!(Slot::Types { most: 0xFFFF_FFFF }),
        ],
        Declaration::Mutex => &[DECLARED, optional!(constant!(0, 15))],
        Declaration::PowerResource => &[DECLARED, BYTE, WORD],
        Declaration::Processor => &[DECLARED, BYTE, DOUBLE_WORD, BYTE],
        Declaration::Scope => &[USED],
        Declaration::CreateField => &[EXPRESSION, EXPRESSION, EXPRESSION, DECLARED],
        Declaration::CreateBitField
        | Declaration::CreateByteField
        | Declaration::CreateWordField
        | Declaration::CreateDWordField
        | Declaration::CreateQWordField => &[EXPRESSION, EXPRESSION, DECLARED],
        Declaration::OperationRegion => &[DECLARED, SPACE, EXPRESSION, EXPRESSION],
        Declaration::Field => &[USED, ACCESS, LOCK, UPDATE],
        Declaration::IndexField => &[USED, USED, ACCESS, LOCK, UPDATE],
        Declaration::BankField => &[USED, USED, EXPRESSION, ACCESS, LOCK, UPDATE],
        Declaration::Event | Declaration::Device | Declaration::ThermalZone => &[DECLARED],
    }
}

#[tactic(auto, unfolding(crate::specs::Operators::parameters_of))]
fn of_special(op: Special) -> &'static [Parameter]
    ensures { result.now ≡ spec.parameters_of (Op.Special op) }
{
    match op {
        Special::CondRefOf => &[PLACE, TARGET],
        Special::Buffer | Special::Package => &[optional!(Slot::Expression)],
    }
}

#[tactic(auto, unfolding(crate::specs::Operators::parameters_of))]
fn of_control(op: Control) -> &'static [Parameter]
    ensures { result.now ≡ spec.parameters_of (Op.Control op) }
{
    match op {
        Control::Return => &[optional!(Slot::Expression)],
        Control::If | Control::ElseIf | Control::While | Control::Switch => &[EXPRESSION],
        Control::For => &[
            optional!(Slot::Effect),
            optional!(Slot::Expression),
            optional!(Slot::Effect),
        ],
        Control::Case => &[asked!(Slot::CaseValue)],
        Control::Printf => PRINTED,
        Control::Fprintf => PRINTED_INTO,
        Control::Else | Control::Default | Control::Break | Control::Continue => &[],
    }
}

// The operands, without a target.
#[tactic(auto, unfolding(crate::specs::Operators::parameters_of))]
fn number_operands(op: IntOp) -> &'static [Parameter]
    ensures { result.now ≡ spec.parameters_of (Op.Symbolic (Symbolic.Operator (Plain.Number op))) }
{
    match op {
        IntOp::Not
        | IntOp::LNot
        | IntOp::FindSetLeftBit
        | IntOp::FindSetRightBit
        | IntOp::FromBcd
        | IntOp::ToBcd => &[EXPRESSION],
        IntOp::Add
        | IntOp::Subtract
        | IntOp::Multiply
        | IntOp::Divide
        | IntOp::Mod
        | IntOp::ShiftLeft
        | IntOp::ShiftRight
        | IntOp::And
        | IntOp::Nand
        | IntOp::Or
        | IntOp::Nor
        | IntOp::Xor
        | IntOp::LAnd
        | IntOp::LOr
        | IntOp::LEqual
        | IntOp::LGreater
        | IntOp::LLess
        | IntOp::LNotEqual
        | IntOp::LLessEqual
        | IntOp::LGreaterEqual => &[EXPRESSION, EXPRESSION],
    }
}

// The operands, without a target.
#[tactic(auto, unfolding(crate::specs::Operators::parameters_of))]
fn data_operands(op: DataOp) -> &'static [Parameter]
    ensures { result.now ≡ spec.parameters_of (Op.Symbolic (Symbolic.Operator (Plain.Data op))) }
{
    match op {
        DataOp::Increment
        | DataOp::Decrement
        | DataOp::RefOf
        | DataOp::SizeOf
        | DataOp::ObjectType => &[PLACE],
        DataOp::Store | DataOp::CopyObject => &[EXPRESSION, PLACE],
        DataOp::ToBuffer
        | DataOp::ToDecimalString
        | DataOp::ToHexString
        | DataOp::ToInteger
        | DataOp::DerefOf => &[EXPRESSION],
        DataOp::Concatenate | DataOp::ConcatenateResTemplate | DataOp::Index | DataOp::ToString =>
            &[EXPRESSION, EXPRESSION],
        DataOp::Mid => &[EXPRESSION, EXPRESSION, EXPRESSION],
        DataOp::Match => &[EXPRESSION, BYTE, EXPRESSION, BYTE, EXPRESSION, EXPRESSION],
    }
}

#[tactic(auto, unfolding(crate::specs::Operators::parameters_of))]
fn of_symbol(symbol: Symbolic) -> &'static [Parameter]
    ensures { result.now ≡ spec.parameters_of (Op.Symbolic symbol) }
{
    match symbol {
        Symbolic::Operator(Plain::Number(op)) => number_operands(op),
        Symbolic::Operator(Plain::Data(op)) => data_operands(op),
        Symbolic::Operator(Plain::Event(op)) => of_event(op),
        Symbolic::Assign | Symbolic::AssignBy(_) => &[PLACE, EXPRESSION],
    }
}

/// The arguments that an operator takes.
#[tactic(auto, unfolding(crate::specs::Operators::parameters_of))]
pub fn parameters_of(op: Op) -> &'static [Parameter]
    ensures { result.now ≡ spec.parameters_of op }
{
    match op {
        Op::Declaration(op) => of_declaration(op),
        Op::Control(op) => of_control(op),
        Op::Literal(_) => &[],
        Op::Plain(Plain::Number(op)) => of_number(op),
        Op::Plain(Plain::Data(op)) => of_data(op),
        Op::Plain(Plain::Event(op)) => of_event(op),
        Op::Special(op) => of_special(op),
        Op::Symbolic(symbol) => of_symbol(symbol),
    }
}

/// The arguments of an operator where it is read so: in the value of a Case, the size of a Buffer and the count of a
/// Package are constants.
pub fn parameters_as(op: Op, slot: Slot) -> &'static [Parameter]
    ensures { result.now ≡ spec.parameters_as op slot }
{
    match (op, slot) {
        (Op::Special(Special::Buffer), Slot::CaseValue | Slot::CaseMember) => &[SIZE],
        (Op::Special(Special::Package), Slot::CaseValue) => &[SIZE],
        _ => parameters_of(op),
    }
}

/// The arguments of a word of a field's list: of an Offset the number of a byte, of an AccessAs the access and perhaps an attribute, of a
/// Connection what units are connected to, and of AttribBytes the length of transfers.
#[tactic(auto, unfolding(crate::specs::Operators::element_parameters))]
pub fn element_parameters(word: FieldWord) -> &'static [Parameter]
    ensures { result.now ≡ spec.element_parameters word }
{
    match word {
        FieldWord::Offset => &[asked!(Slot::Measure)],
        FieldWord::AccessAs => &[asked!(Slot::AccessType), optional!(Slot::Attribute)],
        FieldWord::Connection => &[asked!(Slot::Connected)],
        FieldWord::AttribBytes => &[BYTE],
    }
}

/// The argument of a macro: its string.
#[tactic(auto, unfolding(crate::specs::Operators::macro_parameters))]
pub fn macro_parameters(text_macro: TextMacro) -> &'static [Parameter]
    ensures { result.now ≡ spec.macro_parameters text_macro }
{
    match text_macro {
        TextMacro::EisaId => &[asked!(Slot::MacroText(TextMacro::EisaId))],
        TextMacro::ToUuid => &[asked!(Slot::MacroText(TextMacro::ToUuid))],
        TextMacro::Unicode => &[asked!(Slot::MacroText(TextMacro::Unicode))],
    }
}

/// The arguments of a definition block: its file, its signature, its revision, the OEM's name, that of the table,
/// and the table's revision.
#[tactic(auto, unfolding(crate::specs::Operators::block_parameters))]
pub fn block_parameters() -> &'static [Parameter]
    ensures { result.now ≡ spec.block_parameters }
{
    &[
        asked!(Slot::String(StringForm::Any)),
        asked!(Slot::String(StringForm::Signature)),
        BYTE,
        asked!(Slot::String(StringForm::AtMost(6))),
        asked!(Slot::String(StringForm::AtMost(8))),
        DOUBLE_WORD,
    ]
}

/// What stands in the braces of an operator.
pub fn body_of(op: Op) -> Body
    ensures { result ≡ spec.body_of op }
{
    match op {
        Op::Special(Special::Buffer) => Body::Bytes,
        Op::Special(Special::Package) => Body::Elements,
        Op::Control(
            Control::If
            | Control::ElseIf
            | Control::Else
            | Control::While
            | Control::For
            | Control::Case
            | Control::Default,
        ) => Body::Terms,
        Op::Control(Control::Switch) => Body::Cases,
        Op::Declaration(
            Declaration::Method
            | Declaration::Device
            | Declaration::ThermalZone
            | Declaration::PowerResource
            | Declaration::Processor
            | Declaration::Scope,
        ) => Body::Terms,
        Op::Declaration(Declaration::Field | Declaration::IndexField | Declaration::BankField) => {
            Body::FieldList
        }
        _ => Body::No,
    }
}

/// What stands in the braces of an operator where it is read so: a Package that is the value of a Case holds values of
/// a Case.
pub fn body_as(op: Op, slot: Slot) -> Body
    ensures { result ≡ spec.body_as op slot }
{
    match (op, slot) {
        (Op::Special(Special::Package), Slot::CaseValue) => Body::CaseMembers,
        _ => body_of(op),
    }
}

fn data_role(op: DataOp) -> Role
    ensures { result ≡ spec.data_role op }
{
    match op {
        DataOp::Index | DataOp::DerefOf => Role::Place,
        _ => Role::Expression,
    }
}

fn event_role(op: EventOp) -> Role
    ensures { result ≡ spec.event_role op }
{
    match op {
        EventOp::Acquire | EventOp::Wait | EventOp::Timer | EventOp::Revision => Role::Expression,
        _ => Role::Statement,
    }
}

fn control_role(op: Control) -> Role
    ensures { result ≡ spec.role_of (Op.Control op) }
{
    match op {
        Control::Return => Role::MethodStatement,
        Control::Else => Role::Else,
        Control::ElseIf => Role::ElseIf,
        Control::Case => Role::Case,
        Control::Default => Role::Default,
        Control::If
        | Control::While
        | Control::For
        | Control::Switch
        | Control::Break
        | Control::Continue
        | Control::Printf
        | Control::Fprintf => Role::Statement,
    }
}

fn declaration_role(op: Declaration) -> Role
    ensures { result ≡ spec.role_of (Op.Declaration op) }
{
    match op {
        Declaration::Method
        | Declaration::Device
        | Declaration::ThermalZone
        | Declaration::PowerResource
        | Declaration::Processor
        | Declaration::Scope => Role::OuterTerm,
        _ => Role::Statement,
    }
}

fn plain_role(op: Plain) -> Role
    ensures { result ≡ spec.plain_role op }
{
    match op {
        Plain::Number(_) => Role::Expression,
        Plain::Data(op) => data_role(op),
        Plain::Event(op) => event_role(op),
    }
}

/// Where an operator may stand.
pub fn role_of(op: Op) -> Role
    ensures { result ≡ spec.role_of op }
{
    match op {
        Op::Plain(op) => plain_role(op),
        Op::Literal(_) | Op::Special(_) => Role::Expression,
        Op::Symbolic(Symbolic::Operator(op)) => plain_role(op),
        Op::Symbolic(Symbolic::Assign | Symbolic::AssignBy(_)) => Role::Expression,
        Op::Control(op) => control_role(op),
        Op::Declaration(op) => declaration_role(op),
    }
}
