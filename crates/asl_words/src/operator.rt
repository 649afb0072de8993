//! What an operator asks for.
use asl_tree::term::Op;
use resource_layout::descriptor::{Descriptor, Kind};

/// The kinds of words that an argument may be one of.
#[derive(Clone, Copy)]
pub enum WordKind {
    /// Whether a method is serialized.
    Serialize,
    /// A type of objects.
    ObjectType,
    /// A test of Match.
    Match,
    /// The address space of a region.
    Space,
    /// How wide the accesses to a field are.
    Access,
    /// Whether the global lock is taken for a field.
    Lock,
    /// What a write to a field does to the other bits of an access.
    Update,
    /// What a transfer through a bus carries.
    Attribute,
    /// An argument of a resource descriptor.
    Resource(Kind),
}

/// What a string has to be.
#[derive(Clone, Copy)]
pub enum StringForm {
    /// Any string.
    Any,
    /// The signature of a table that has a definition block.
    Signature,
    /// A string of at most so many bytes.
    AtMost(u8),
    /// What is printed, where `%o` stands for the next argument and `%%` for `%`.
    Format,
}

/// A word with arguments in brackets that stands in a field's list alone: an element of it, or an attribute of an
/// access (ACPI Specification
/// 6.4, 19.6.48, 19.6.3 and 19.6.16).
#[derive(Clone, Copy)]
pub enum FieldWord {
    /// The place of the next byte.
    Offset,
    /// How the units behind it are accessed.
    AccessAs,
    /// What the units behind it are connected to.
    Connection,
    /// An attribute of an access, with the length of its transfers.
    AttribBytes,
}

/// A macro that stands for what is written in its one string.
#[derive(Clone, Copy)]
pub enum TextMacro {
    /// The number of an EISA identifier (ACPI Specification 6.4, 19.6.35).
    EisaId,
    /// The bytes of a UUID (ACPI Specification 6.4, 19.6.142).
    ToUuid,
    /// A text of 16-bit characters (ACPI Specification 6.4, 19.6.149).
    Unicode,
}

/// How a part of a source is read.
#[derive(Clone, Copy)]
pub enum Slot {
    /// An expression.
    Expression,
    /// An expression that may stand as a statement.
    Effect,
    /// What can be stored to, or referred to.
    Place,
    /// A name, a Local or an Arg.
    Named,
    /// A path that is declared; inside a method it is a single segment.
    Declared,
    /// A path that is declared elsewhere.
    External,
    /// A path that is used.
    Used,
    /// A constant of this range, which is evaluated with 64 bits in every table.
    Constant { least: u64, most: u64 },
    /// A number of bits or of bytes in a field's list: a constant, which is evaluated at the table's width.
    Measure,
    /// A word of this kind.
    Word(WordKind),
    /// A word of this kind whose number is less than this.
    WordBelow { kind: Kind, limit: u64 },
    /// A word of this kind, or a number of 8 bits.
    WordOrByte(Kind),
    /// A word for an address space, or the number of a space that a vendor defines.
    Space,
    /// A word for an object type, or a list of at most so many of these, or of lists of these.
    Types { most: u64 },
    /// A string of this form.
    String(StringForm),
    /// The string of this macro.
    MacroText(TextMacro),
    /// A member of a Package.
    Element,
    /// A word for the address space of a register, or its number.
    RegisterSpace,
    /// The name of a resource descriptor.
    DescriptorName,
    /// What stands empty.
    Vacant,
    /// A member of a resource template, and whether it is one of a choice of descriptors.
    Descriptor { chosen: bool },
    /// What an element of a field's list begins with: the name of a unit.
    FieldElement,
    /// An element of a field's list that is a word with its arguments.
    WholeElement,
    /// How units are accessed: a word, or its number.
    AccessType,
    /// The attribute of an access: a word, its number, or one with a length.
    Attribute,
    /// What units are connected to: a name, or a descriptor of pins or of a serial bus.
    Connected,
    /// A term of a list, directly behind an If and so many ElseIfs, or behind none.
    Term { run: Option<u8> },
    /// A Case or a Default in the braces of a Switch, and whether a Default stands before it there.
    Branch { defaulted: bool },
    /// The value of a Case: a constant, which is evaluated at the table's width, a string, a Buffer, or a Package.
    CaseValue,
    /// A member of a Package that is the value of a Case; it is no Package.
    CaseMember,
}

/// An argument of an operator.
#[derive(Clone, Copy)]
pub struct Parameter {
    pub slot: Slot,
    /// Whether it may be left out.
    pub omittable: bool,
    /// Whether it may be missing at the end, with all behind it; nothing stands for it then.
    pub further: bool,
}

/// What stands in the braces of an operator.
#[derive(Clone, Copy)]
pub enum Body {
    /// There are none.
    No,
    Terms,
    /// Bytes, or one string, which a comma may follow.
    Bytes,
    /// Members of a Package.
    Elements,
    /// Units, gaps, and what is written with words.
    FieldList,
    /// Numbers up to this one.
    Numbers { most: u64 },
    /// Resource descriptors, and whether they are those of a choice.
    Descriptors { chosen: bool },
    /// Cases and at most one Default.
    Cases,
    /// Members of a Package that is the value of a Case.
    CaseMembers,
}

/// Where an operator may stand.
#[derive(Clone, Copy)]
pub enum Role {
    /// As an argument or a statement.
    Expression,
    /// As an argument that is a place, and as an expression.
    Place,
    /// As a term.
    Statement,
    /// As a statement of a method.
    MethodStatement,
    /// As a term outside methods.
    OuterTerm,
    /// Directly behind an If or an ElseIf.
    Else,
    /// Directly behind an If and fewer ElseIfs than a run may have.
    ElseIf,
    /// In the braces of a Switch.
    Case,
    /// In the braces of a Switch, behind no other Default.
    Default,
}

/// An operator under its word.
#[derive(Clone, Copy)]
pub struct Operator {
    /// In upper case and filled with blanks.
    pub word: [u8; 28],
    pub op: Op,
}

/// What a word that is no operator stands for.
#[derive(Clone, Copy)]
pub enum Known {
    /// A number, where a word of this kind is asked for.
    Word { kind: WordKind, number: u64 },
    Local(u8),
    Arg(u8),
    Debug,
    /// A word with arguments, in a field's list.
    Element(FieldWord),
    Macro(TextMacro),
    /// A resource template (ACPI Specification 6.4, 6.4).
    Template,
    /// A resource descriptor, in a resource template.
    Descriptor(Descriptor),
    /// A word of the language that no program has.
    LeftOut,
}

/// A word and what it stands for.
#[derive(Clone, Copy)]
pub struct Named {
    /// In upper case and filled with blanks.
    pub text: [u8; 28],
    pub known: Known,
}
