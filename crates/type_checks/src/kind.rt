//! Kinds: which ones arguments take, and which ones expressions have.
ghost use Rattle.std.specs.Prelude.{◌≡◌, slice_get};
ghost use Rattle.std.specs.List.{list_any};
ghost use Rattle.acpi_values.specs.declared.operator.Plain.TheVariants as P;
ghost use Rattle.asl_tree.specs.Symbols.{compound_operator as operator_of};
ghost use Rattle.type_checks.specs.Kinds as spec;

use acpi_values::operator::{DataOp, EventOp, IntOp, Plain};
use asl_operators::letter::Letter;
use asl_operators::rows::letters;
use asl_tree::term::{Compound, Control, Declaration, Op, Special, Symbolic};
use name_entries::kind::ObjectType as Named;

/// A kind of a value, or of what stands where a name leads.
#[derive(Clone, Copy, PartialEq, Eq, Debug)]
pub enum ValueKind {
    Integer,
    String,
    Buffer,
    Package,
    Reference,
    Debug,
    Container,
    Method,
    Device,
    Event,
    Mutex,
    Region,
    PowerResource,
    Processor,
    ThermalZone,
}

/// What an argument takes.
#[derive(Clone, Copy, PartialEq, Eq, Debug)]
pub enum Wanted {
    Anything,
    /// An Integer, a String or a Buffer.
    Data,
    Buffer,
    /// A String or a Buffer.
    Text,
    /// A String, a Buffer or a Package.
    Elements,
    Package,
    /// The place of a Device, a Processor or a ThermalZone.
    Notified,
}

/// Whether an argument takes a kind.
pub fn takes(wanted: Wanted, kind: ValueKind) -> bool
    ensures { result ≡ spec.takes wanted kind }
{
    match wanted {
        Wanted::Anything => true,
        Wanted::Data => matches!(
            kind,
            ValueKind::Reference | ValueKind::Integer | ValueKind::String | ValueKind::Buffer
        ),
        Wanted::Buffer => matches!(kind, ValueKind::Reference | ValueKind::Buffer),
        Wanted::Text => matches!(
            kind,
            ValueKind::Reference | ValueKind::String | ValueKind::Buffer
        ),
        Wanted::Elements => matches!(
            kind,
            ValueKind::Reference | ValueKind::String | ValueKind::Buffer | ValueKind::Package
        ),
        Wanted::Package => matches!(kind, ValueKind::Reference | ValueKind::Package),
        Wanted::Notified => matches!(
            kind,
            ValueKind::Reference | ValueKind::Device | ValueKind::Processor | ValueKind::ThermalZone
        ),
    }
}

/// Whether an argument takes one of some kinds.
pub fn takes_one(wanted: Wanted, kinds: &[ValueKind]) -> bool
    ensures { result ≡ list_any (spec.takes wanted) kinds.now }
{
    kinds.iter().any(|kind| takes(wanted, *kind))
}

/// Whether an argument is a place, in which a method is not called.
pub fn is_place(wanted: Wanted) -> bool
    ensures { result ≡ spec.is_place wanted }
{
    matches!(wanted, Wanted::Notified)
}

// An operand by its letter.
fn by_letter(letter: Option<Letter>) -> Wanted
    ensures { result ≡ spec.by_code letter }
{
    match letter {
        Some(Letter::Valued) => Wanted::Data,
        _ => Wanted::Anything,
    }
}

// The first operands of an operator, where they take other kinds than their letters say.
fn own_operands(op: Plain) -> &'static [Wanted]
    ensures { result.now ≡ spec.own_operands op }
{
    match op {
        Plain::Data(DataOp::Store | DataOp::CopyObject | DataOp::DerefOf) => &[Wanted::Anything],
        Plain::Data(DataOp::ConcatenateResTemplate) => &[Wanted::Buffer, Wanted::Buffer],
        Plain::Data(DataOp::ToString) => &[Wanted::Buffer],
        Plain::Data(DataOp::Mid) => &[Wanted::Text],
        Plain::Data(DataOp::Index) => &[Wanted::Elements],
        Plain::Data(DataOp::Match) => &[Wanted::Package],
        Plain::Event(EventOp::Notify) => &[Wanted::Notified],
        _ => &[],
    }
}

fn letter_in(letters: &[Letter], place: usize) -> Option<Letter>
    ensures { result ≡ slice_get letters.now place }
{
    letters.get(place).copied()
}

// What an operand takes by its letter.
fn letter_wanted(op: Plain, place: usize) -> Wanted
    ensures { result ≡ spec.letter_wanted op place }
{
    by_letter(letter_in(letters(op), place))
}

// What an operand of an operator takes; behind the operands stand targets.
fn operand(op: Plain, place: usize) -> Wanted
    ensures { result ≡ spec.operand op place }
{
    match own_operands(op).get(place) {
        Some(wanted) => *wanted,
        None => letter_wanted(op, place),
    }
}

// What the first arguments of the other forms take.
fn form_arguments(op: Op) -> &'static [Wanted]
    ensures { result.now ≡ spec.form_arguments op }
{
    match op {
        Op::Control(Control::If | Control::ElseIf | Control::While) => &[Wanted::Data],
        Op::Control(Control::For) => &[Wanted::Anything, Wanted::Data],
        Op::Special(Special::Buffer | Special::Package) => &[Wanted::Data],
        Op::Declaration(Declaration::OperationRegion) => &[
            Wanted::Anything,
            Wanted::Anything,
            Wanted::Data,
            Wanted::Data,
        ],
        Op::Declaration(Declaration::BankField) => {
            &[Wanted::Anything, Wanted::Anything, Wanted::Data]
        }
        Op::Declaration(Declaration::CreateField) => {
            &[Wanted::Anything, Wanted::Data, Wanted::Data]
        }
        Op::Declaration(
            Declaration::CreateBitField
            | Declaration::CreateByteField
            | Declaration::CreateWordField
            | Declaration::CreateDWordField
            | Declaration::CreateQWordField,
        ) => &[Wanted::Anything, Wanted::Data],
        _ => &[],
    }
}

// The arguments of what prints are data, behind its place and its format.
fn data_behind(count: usize, place: usize) -> Wanted
    ensures { result ≡ spec.data_behind count place }
{
    if place < count {
        Wanted::Anything
    } else {
        Wanted::Data
    }
}

fn listed_argument(op: Op, place: usize) -> Wanted
    ensures { result ≡ spec.listed_argument op place }
{
    match form_arguments(op).get(place) {
        Some(wanted) => *wanted,
        None => Wanted::Anything,
    }
}

fn form_argument(op: Op, place: usize) -> Wanted
    ensures { result ≡ spec.form_argument op place }
{
    match op {
        Op::Control(Control::Printf) => data_behind(1, place),
        Op::Control(Control::Fprintf) => data_behind(2, place),
        _ => listed_argument(op, place),
    }
}

// The operator of `X op= Y`.
fn compound_operator(op: Compound) -> Plain
    ensures { result ≡ operator_of op }
{
    Plain::Number(match op {
        Compound::Add => IntOp::Add,
        Compound::Subtract => IntOp::Subtract,
        Compound::Multiply => IntOp::Multiply,
        Compound::Divide => IntOp::Divide,
        Compound::Mod => IntOp::Mod,
        Compound::ShiftLeft => IntOp::ShiftLeft,
        Compound::ShiftRight => IntOp::ShiftRight,
        Compound::And => IntOp::And,
        Compound::Or => IntOp::Or,
        Compound::Xor => IntOp::Xor,
    })
}

/// What an argument of a form takes. What is no argument of a form, as those of calls and the terms of a body, is asked for nothing.
pub fn wanted_of(asker: Option<Op>, place: usize) -> Wanted
    ensures { result ≡ spec.wanted_of asker place }
{
    match asker {
        None => Wanted::Anything,
        Some(Op::Plain(op)) => operand(op, place),
        Some(Op::Symbolic(Symbolic::Operator(op))) => operand(op, place),
        Some(Op::Symbolic(Symbolic::AssignBy(op))) => operand(compound_operator(op), place),
        Some(op) => form_argument(op, place),
    }
}

// Whether an operand of an operator is asked for more than data.
fn asks_more(op: Plain) -> bool
    ensures { result ≡ spec.asks_more op }
{
    matches!(
        op,
        Plain::Data(
            DataOp::ConcatenateResTemplate
                | DataOp::ToString
                | DataOp::Mid
                | DataOp::Index
                | DataOp::Match
        ) | Plain::Event(EventOp::Notify)
    )
}

/// Whether no argument of a form is asked for more than data.
pub(crate) fn asks_data(asker: Option<Op>) -> bool
    ensures { result ≡ spec.asks_data asker }
{
    match asker {
        Some(Op::Plain(op)) => !asks_more(op),
        Some(Op::Symbolic(Symbolic::Operator(op))) => !asks_more(op),
        _ => true,
    }
}

/// Whether a form gives data by its operator alone.
pub(crate) fn gives_data(op: Op) -> bool
    ensures { result ≡ spec.gives_data op }
{
    match op {
        Op::Plain(Plain::Data(DataOp::Store | DataOp::CopyObject | DataOp::Mid)) => false,
        Op::Symbolic(Symbolic::Assign) => false,
        Op::Special(Special::Package) => false,
        _ => true,
    }
}

/// The kinds of data.
pub fn any_data() -> &'static [ValueKind]
    ensures { result.now ≡ spec.any_data }
{
    &[
        ValueKind::Integer,
        ValueKind::String,
        ValueKind::Buffer,
        ValueKind::Package,
        ValueKind::Reference,
    ]
}

// The kinds of what stands where a name leads.
fn object_kinds(object: Named) -> &'static [ValueKind]
    ensures { result.now ≡ spec.object_kinds object }
{
    match object {
        Named::Data | Named::Unknown | Named::Descriptor => any_data(),
        Named::Integer => &[ValueKind::Integer],
        Named::String => &[ValueKind::String],
        Named::Buffer => &[ValueKind::Buffer],
        Named::Package => &[ValueKind::Package],
        Named::FieldUnit | Named::BufferField => &[ValueKind::Integer, ValueKind::Buffer],
        Named::Device => &[ValueKind::Device],
        Named::Event => &[ValueKind::Event],
        Named::Method => &[ValueKind::Method],
        Named::Mutex => &[ValueKind::Mutex],
        Named::Region => &[ValueKind::Region],
        Named::PowerResource => &[ValueKind::PowerResource],
        Named::Processor => &[ValueKind::Processor],
        Named::ThermalZone => &[ValueKind::ThermalZone],
        Named::Container => &[ValueKind::Container],
    }
}

/// The kinds of a name, by what stands where it leads. A method is called, except in a place.
pub fn name_kinds(in_place: bool, object: Named) -> &'static [ValueKind]
    ensures { result.now ≡ spec.name_kinds in_place object }
{
    match object {
        Named::Method if !in_place => any_data(),
        _ => object_kinds(object),
    }
}

fn data_kinds(op: DataOp) -> &'static [ValueKind]
    ensures { result.now ≡ spec.plain_kinds (P.Data op) }
{
    match op {
        DataOp::Increment
        | DataOp::Decrement
        | DataOp::ToInteger
        | DataOp::SizeOf
        | DataOp::ObjectType
        | DataOp::Match => &[ValueKind::Integer],
        DataOp::Concatenate => &[ValueKind::Buffer, ValueKind::String],
        DataOp::ConcatenateResTemplate | DataOp::ToBuffer => &[ValueKind::Buffer],
        DataOp::ToDecimalString | DataOp::ToHexString | DataOp::ToString => &[ValueKind::String],
        DataOp::Index | DataOp::RefOf => &[ValueKind::Reference],
        DataOp::DerefOf | DataOp::Store | DataOp::CopyObject | DataOp::Mid => any_data(),
    }
}

// The kinds of what an operator gives.
fn plain_kinds(op: Plain) -> &'static [ValueKind]
    ensures { result.now ≡ spec.plain_kinds op }
{
    match op {
        Plain::Number(_) => &[ValueKind::Integer],
        Plain::Data(op) => data_kinds(op),
        Plain::Event(EventOp::Acquire | EventOp::Wait | EventOp::Timer | EventOp::Revision) => {
            &[ValueKind::Integer]
        }
        Plain::Event(_) => any_data(),
    }
}

/// The kinds of what a form gives that gives no argument on.
pub fn form_kinds(op: Op) -> &'static [ValueKind]
    ensures { result.now ≡ spec.form_kinds op }
{
    match op {
        Op::Plain(op) => plain_kinds(op),
        Op::Symbolic(Symbolic::Operator(op)) => plain_kinds(op),
        Op::Symbolic(Symbolic::AssignBy(op)) => plain_kinds(compound_operator(op)),
        Op::Literal(_) => &[ValueKind::Integer],
        Op::Special(Special::CondRefOf) => &[ValueKind::Integer],
        Op::Special(Special::Buffer) => &[ValueKind::Buffer],
        Op::Special(Special::Package) => &[ValueKind::Package],
        Op::Symbolic(Symbolic::Assign) => any_data(),
        Op::Control(_) => any_data(),
        Op::Declaration(_) => any_data(),
    }
}

/// Which of its arguments a form gives on: the source of a store, and what Mid takes a part of.
pub fn given_on(op: Op) -> Option<usize>
    ensures { result ≡ spec.given_on op }
{
    match op {
        Op::Plain(Plain::Data(DataOp::Store | DataOp::CopyObject | DataOp::Mid)) => Some(0),
        Op::Symbolic(Symbolic::Assign) => Some(1),
        _ => None,
    }
}
