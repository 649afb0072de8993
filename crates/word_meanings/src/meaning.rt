//! What a word is, where it may stand, and what it is read as.
ghost use Rattle.std.specs.Prelude.{◌≡◌, ◌==◌, ◌||◌, ◌&&◌, ◌∷◌, [], true, false, Some, None};
ghost use Rattle.word_meanings.specs.Meanings as spec;
ghost use Rattle.asl_words.specs.declared.operator.Slot.TheVariants as slot;

use asl_tree::term::{Control, Op};
use asl_words::operator::{Body, FieldWord, Known, Parameter, Role, Slot, TextMacro, WordKind};
use asl_words::parameters::{body_of, role_of};
use asl_words::paths::{is_path, parts};
use asl_words::resources::descriptor_body;
use asl_words::table::{operator_of, word_of};
use iasl_messages::number::{NOT_ALLOWED_HERE, WRONG_ARGUMENT_FORM};
use resource_layout::descriptor::{Descriptor, Kind};
use resource_layout::layout;

/// What a word or path is.
#[derive(Clone, Copy)]
pub enum Meaning {
    Operator(Op),
    Known(Known),
    /// A name of one segment.
    Name,
    /// A path with a prefix or several segments.
    Path,
    /// A word with arguments, in a field's list.
    Element(FieldWord),
    Macro(TextMacro),
    Template,
    Descriptor(Descriptor),
    /// Nothing that is known.
    Unknown,
}

/// What an item is read as.
#[derive(Clone, Copy)]
pub enum Reading {
    Form(Op),
    Known(Known),
    /// A name without arguments.
    Path,
    /// A name with arguments.
    Call,
    /// A word with arguments, in a field's list.
    Element(FieldWord),
    Macro(TextMacro),
    Template,
    Descriptor(Descriptor),
    /// It does not fit where it stands.
    Wrong,
}

fn name_or_unknown(text: &[u8], has_body: bool) -> Meaning
    ensures { result ≡ spec.name_or_unknown text.now has_body }
{
    if is_path(text) {
        return Meaning::Path;
    }
    if text.len() <= 4 && !has_body {
        Meaning::Name
    } else {
        Meaning::Unknown
    }
}

fn known_as(known: Known) -> Meaning
    ensures { result ≡ spec.known_as known }
{
    match known {
        Known::LeftOut => Meaning::Unknown,
        Known::Element(word) => Meaning::Element(word),
        Known::Macro(text_macro) => Meaning::Macro(text_macro),
        Known::Template => Meaning::Template,
        Known::Descriptor(descriptor) => Meaning::Descriptor(descriptor),
        _ => Meaning::Known(known),
    }
}

/// What a word or path is.
pub fn meaning_of(text: &[u8], has_body: bool) -> Meaning
    ensures { result ≡ spec.meaning_of text.now has_body }
{
    if let Some(operator) = operator_of(text) {
        return Meaning::Operator(operator);
    }
    if let Some(known) = word_of(text) {
        return known_as(known);
    }
    name_or_unknown(text, has_body)
}

/// How many ElseIfs may stand behind one If. As bytes each is an If inside an Else that holds all that follows it in
/// its run, so a long run lies deep (ACPI Specification 6.4, 19.6.40).
pub const MOST_ELSE_IFS: u8 = 120;

// How many ElseIfs stand directly before, and before them an If.
fn run_of(slot: Slot) -> Option<u8>
    ensures { result ≡ spec.run_of slot }
{
    match slot {
        Slot::Term { run } => run,
        _ => None,
    }
}

fn is_behind(run: Option<u8>) -> bool
    ensures { result ≡ spec.is_behind run }
{
    run.is_some()
}

fn has_room(run: Option<u8>) -> bool
    ensures { result ≡ spec.has_room run }
{
    match run {
        None => false,
        Some(count) => count < MOST_ELSE_IFS,
    }
}

fn one_longer(run: Option<u8>) -> u8
    ensures { result ≡ spec.one_longer run }
{
    match run {
        None => 1,
        Some(count) => {
            if count < MOST_ELSE_IFS {
                count + 1
            } else {
                count
            }
        }
    }
}

/// The run of an If and its ElseIfs that stands directly before what follows a term of this meaning: how many ElseIfs
/// it has. An ElseIf with no room in the run before it leaves the run as long as it is, and one behind no run begins
/// a run of its own.
pub fn run_behind(run: Option<u8>, meaning: Meaning) -> Option<u8>
    ensures { result ≡ spec.run_behind run meaning }
{
    match meaning {
        Meaning::Operator(Op::Control(Control::If)) => Some(0),
        Meaning::Operator(Op::Control(Control::ElseIf)) => Some(one_longer(run)),
        _ => None,
    }
}

// Whether a word may go on with a run, or begin one, by its first letter.
fn may_run(text: &[u8]) -> bool
    ensures { result ≡ spec.may_run text.now }
{
    match text.first() {
        Some(letter) => *letter == b'I' || *letter == b'E',
        None => true,
    }
}

/// The run behind a term by its word. What begins with neither I nor E is no If and no ElseIf, and is not looked up.
#[tactic(auto, using(crate::proofs::Runs::runs_not))]
pub fn run_behind_word(run: Option<u8>, text: &[u8], has_body: bool) -> Option<u8>
    ensures { result ≡ spec.run_behind run (spec.meaning_of text.now has_body) }
{
    if may_run(text) {
        run_behind(run, meaning_of(text, has_body))
    } else {
        None
    }
}

fn is_term(slot: Slot) -> bool
    ensures { result ≡ spec.is_term slot }
{
    matches!(slot, Slot::Term { .. })
}

// Whether a Default stands before, in the braces of a Switch.
fn default_before(slot: Slot) -> Option<bool>
    ensures { result ≡ spec.default_before slot }
{
    match slot {
        Slot::Branch { defaulted } => Some(defaulted),
        _ => None,
    }
}

fn takes_branch(slot: Slot) -> bool
    ensures { result ≡ spec.takes_branch slot }
{
    default_before(slot).is_some()
}

fn takes_default(slot: Slot) -> bool
    ensures { result ≡ spec.takes_default slot }
{
    match default_before(slot) {
        None => false,
        Some(defaulted) => !defaulted,
    }
}

/// Whether an item is a Default.
pub fn is_default(meaning: Meaning) -> bool
    ensures { result ≡ spec.is_default meaning }
{
    matches!(meaning, Meaning::Operator(Op::Control(Control::Default)))
}

fn is_attribute(word: FieldWord) -> bool
    ensures { result ≡ spec.is_attribute word }
{
    matches!(word, FieldWord::AttribBytes)
}

/// Whether an item is an element of a field's list by itself.
pub fn is_whole(meaning: Meaning) -> bool
    ensures { result ≡ spec.is_whole meaning }
{
    match meaning {
        Meaning::Element(word) => !is_attribute(word),
        _ => false,
    }
}

/// Whether an item is a Connection.
pub fn is_connection(meaning: Meaning) -> bool
    ensures { result ≡ spec.is_connection meaning }
{
    matches!(meaning, Meaning::Element(FieldWord::Connection))
}

// Where a word of a field's list may stand.
fn takes_field_word(slot: Slot, word: FieldWord) -> bool
    ensures { result ≡ spec.takes_field_word slot word }
{
    match slot {
        Slot::WholeElement => !is_attribute(word),
        Slot::Attribute => is_attribute(word),
        _ => false,
    }
}

fn is_serial(descriptor: Descriptor) -> bool
    ensures { result ≡ spec.is_serial descriptor }
{
    matches!(
        descriptor,
        Descriptor::GpioInt | Descriptor::GpioIo | Descriptor::I2cSerialBus
    )
}

fn is_chosen(slot: Slot) -> bool
    ensures { result ≡ spec.is_chosen slot }
{
    match slot {
        Slot::Descriptor { chosen } => chosen,
        _ => false,
    }
}

// Whether a descriptor of pins or of a serial bus stands in a choice of descriptors.
fn is_chosen_serial(slot: Slot, descriptor: Descriptor) -> bool
    ensures { result ≡ (spec.is_chosen slot && spec.is_serial descriptor) }
{
    is_chosen(slot) && is_serial(descriptor)
}

fn may_stand(slot: Slot, inside: bool, role: Role) -> bool
    ensures { result ≡ spec.may_stand slot inside role }
{
    match role {
        Role::MethodStatement => inside,
        Role::OuterTerm => !inside,
        Role::Else => is_behind(run_of(slot)),
        Role::ElseIf => has_room(run_of(slot)),
        Role::Case => takes_branch(slot),
        Role::Default => takes_default(slot),
        Role::Expression | Role::Place | Role::Statement => true,
    }
}

fn is_word(known: Known) -> bool
    ensures { result ≡ spec.is_word known }
{
    matches!(known, Known::Word { .. })
}

fn is_declared(slot: Slot) -> bool
    ensures { result ≡ spec.is_declared slot }
{
    matches!(slot, Slot::Declared)
}

fn is_allowed(slot: Slot, inside: bool, meaning: Meaning) -> bool
    ensures { result ≡ spec.is_allowed slot inside meaning }
{
    match meaning {
        Meaning::Operator(operator) => may_stand(slot, inside, role_of(operator)),
        Meaning::Known(known) => !(is_term(slot) && is_word(known)),
        Meaning::Path => !(is_declared(slot) && inside),
        Meaning::Element(word) => takes_field_word(slot, word),
        Meaning::Macro(_) | Meaning::Template => !is_term(slot),
        Meaning::Descriptor(descriptor) => !is_term(slot) && !is_chosen_serial(slot, descriptor),
        Meaning::Name | Meaning::Unknown => true,
    }
}

fn is_descriptor(meaning: Meaning) -> bool
    ensures { result ≡ spec.is_descriptor meaning }
{
    matches!(meaning, Meaning::Descriptor(_))
}

fn takes_descriptor(slot: Slot) -> bool
    ensures { result ≡ spec.takes_descriptor slot }
{
    matches!(slot, Slot::Descriptor { .. })
}

// Where a descriptor is read.
fn takes_resource(slot: Slot, descriptor: Descriptor) -> bool
    ensures { result ≡ spec.takes_resource slot descriptor }
{
    match slot {
        Slot::Descriptor { .. } => true,
        Slot::Connected => is_serial(descriptor),
        _ => false,
    }
}

fn is_branch_role(role: Role) -> bool
    ensures { result ≡ spec.is_branch_role role }
{
    matches!(role, Role::Case | Role::Default)
}

fn is_branch(meaning: Meaning) -> bool
    ensures { result ≡ spec.is_branch meaning }
{
    match meaning {
        Meaning::Operator(operator) => is_branch_role(role_of(operator)),
        _ => false,
    }
}

// Whether an item is of the kind that alone may stand here. A member of a resource template is a descriptor, and one of
// a Switch is a Case or a Default.
fn is_of_kind(slot: Slot, meaning: Meaning) -> bool
    ensures { result ≡ spec.is_of_kind slot meaning }
{
    (is_descriptor(meaning) || !takes_descriptor(slot))
        && (is_branch(meaning) || !takes_branch(slot))
}

/// Whether an item may stand here.
pub fn may_be(slot: Slot, inside: bool, meaning: Meaning) -> bool
    ensures { result ≡ spec.may_be slot inside meaning }
{
    if is_of_kind(slot, meaning) {
        is_allowed(slot, inside, meaning)
    } else {
        false
    }
}

/// The number of the error that is told of what is none of the kind that is asked for: a member of a resource template
/// that is no descriptor may not stand there (6025), nor may one of a Switch that is no Case and no Default.
pub fn unfit(slot: Slot) -> u16
    ensures { result ≡ spec.unfit slot }
{
    if takes_descriptor(slot) || takes_branch(slot) {
        NOT_ALLOWED_HERE
    } else {
        WRONG_ARGUMENT_FORM
    }
}

/// Whether nothing is left out that has to stand.
pub fn may_end(parameters: &[Parameter]) -> bool
    ensures { result ≡ spec.may_end parameters.now }
{
    match parts(parameters) {
        None => true,
        Some((first, rest)) => {
            if first.omittable || first.further {
                may_end(rest)
            } else {
                false
            }
        }
    }
}

fn has_braces(body: Body) -> bool
    ensures { result ≡ spec.has_braces body }
{
    match body {
        Body::No => false,
        Body::Terms
        | Body::Bytes
        | Body::Elements
        | Body::FieldList
        | Body::Numbers { .. }
        | Body::Descriptors { .. }
        | Body::Cases
        | Body::CaseMembers => true,
    }
}

/// Whether an item has braces.
pub fn wants_braces(meaning: Meaning) -> bool
    ensures { result ≡ spec.wants_braces meaning }
{
    match meaning {
        Meaning::Operator(operator) => has_braces(body_of(operator)),
        Meaning::Template => true,
        Meaning::Descriptor(descriptor) => has_braces(descriptor_body(descriptor)),
        Meaning::Known(_)
        | Meaning::Name
        | Meaning::Path
        | Meaning::Element(_)
        | Meaning::Macro(_)
        | Meaning::Unknown => false,
    }
}

/// Whether a word is nothing that is known.
pub fn is_unknown(meaning: Meaning) -> bool
    ensures { result ≡ spec.is_unknown meaning }
{
    match meaning {
        Meaning::Unknown => true,
        Meaning::Operator(_)
        | Meaning::Known(_)
        | Meaning::Name
        | Meaning::Path
        | Meaning::Element(_)
        | Meaning::Macro(_)
        | Meaning::Template
        | Meaning::Descriptor(_) => false,
    }
}

/// Whether both are so, or neither.
pub fn is_same(a: bool, b: bool) -> bool
    ensures { result ≡ spec.is_same a b }
{
    if a { b } else { !b }
}

fn is_value(role: Role) -> bool
    ensures { result ≡ spec.is_value role }
{
    match role {
        Role::Expression | Role::Place => true,
        Role::Statement
        | Role::MethodStatement
        | Role::OuterTerm
        | Role::Else
        | Role::ElseIf
        | Role::Case
        | Role::Default => false,
    }
}

fn is_place(role: Role) -> bool
    ensures { result ≡ spec.is_place role }
{
    matches!(role, Role::Place)
}

/// Where an expression is read.
pub fn takes_expression(slot: Slot) -> bool
    ensures { result ≡ spec.takes_expression slot }
{
    match slot {
        Slot::Expression | Slot::Effect => true,
        Slot::Constant { .. } => true,
        Slot::Measure => true,
        Slot::Element => true,
        Slot::CaseValue | Slot::CaseMember => true,
        Slot::Term { .. } => true,
        _ => false,
    }
}

/// Where an operator of this role is read.
pub fn takes_role(slot: Slot, role: Role) -> bool
    ensures { result ≡ spec.takes_role slot role }
{
    match slot {
        Slot::Term { .. } => true,
        Slot::Branch { .. } => is_branch_role(role),
        Slot::Place => is_place(role),
        _ => takes_expression(slot) && is_value(role),
    }
}

fn takes_place(slot: Slot) -> bool
    ensures { result ≡ spec.takes_place slot }
{
    match slot {
        Slot::Place => true,
        _ => takes_expression(slot),
    }
}

// Where a name, a Local or an Arg may stand.
fn takes_slot(slot: Slot) -> bool
    ensures { result ≡ spec.takes_slot slot }
{
    match slot {
        Slot::Named => true,
        _ => takes_place(slot),
    }
}

fn takes_path(slot: Slot) -> bool
    ensures { result ≡ spec.takes_path slot }
{
    match slot {
        Slot::Declared | Slot::External | Slot::Used | Slot::FieldElement | Slot::Connected => true,
        _ => takes_slot(slot),
    }
}

// Where a single segment without a prefix may stand: what names a descriptor is nothing else.
fn takes_segment(slot: Slot) -> bool
    ensures { result ≡ spec.takes_segment slot }
{
    match slot {
        Slot::DescriptorName => true,
        _ => takes_path(slot),
    }
}

fn is_kind(asked: WordKind, kind: WordKind) -> bool
    ensures { result ≡ spec.is_kind asked kind }
{
    match (asked, kind) {
        (WordKind::Serialize, WordKind::Serialize) => true,
        (WordKind::ObjectType, WordKind::ObjectType) => true,
        (WordKind::Match, WordKind::Match) => true,
        (WordKind::Space, WordKind::Space) => true,
        (WordKind::Access, WordKind::Access) => true,
        (WordKind::Lock, WordKind::Lock) => true,
        (WordKind::Update, WordKind::Update) => true,
        (WordKind::Attribute, WordKind::Attribute) => true,
        (WordKind::Resource(asked), WordKind::Resource(kind)) => layout::is_kind(asked, kind),
        _ => false,
    }
}

// Where a word of this kind and number may stand.
fn takes_word(slot: Slot, kind: WordKind, number: u64) -> bool
    ensures { result ≡ spec.takes_word slot kind number }
{
    match slot {
        Slot::Word(asked) => is_kind(asked, kind),
        Slot::WordBelow { kind: asked, limit } => {
            is_kind(WordKind::Resource(asked), kind) && number < limit
        }
        Slot::Types { .. } => is_kind(WordKind::ObjectType, kind),
        _ => false,
    }
}

/// Where a word may stand.
pub fn takes_known(slot: Slot, known: Known) -> bool
    ensures { result ≡ spec.takes_known slot known }
{
    match known {
        Known::Word { kind, number } => takes_word(slot, kind, number),
        Known::Local(_) | Known::Arg(_) => takes_slot(slot),
        Known::Debug => takes_place(slot),
        Known::Element(_)
        | Known::Macro(_)
        | Known::Template
        | Known::Descriptor(_)
        | Known::LeftOut => false,
    }
}

// Where a macro or a template may stand: it is no constant, no place and no term.
fn takes_macro(slot: Slot) -> bool
    ensures { result ≡ spec.takes_macro slot }
{
    match slot {
        Slot::Expression | Slot::Element => true,
        _ => false,
    }
}

fn unless_wrong(good: bool, reading: Reading) -> Reading
    ensures { result ≡ spec.unless_wrong good reading }
{
    if good { reading } else { Reading::Wrong }
}

// A name, which may stand here or not where it has no brackets.
fn name_reading(slot: Slot, fits: bool, called: bool) -> Reading
    ensures { result ≡ spec.name_reading slot fits called }
{
    if called {
        unless_wrong(takes_expression(slot), Reading::Call)
    } else {
        unless_wrong(fits, Reading::Path)
    }
}

/// What an item without such errors is read as.
pub fn reading_of(slot: Slot, meaning: Meaning, called: bool) -> Reading
    ensures { result ≡ spec.reading_of slot meaning called }
{
    match meaning {
        Meaning::Operator(op) => unless_wrong(takes_role(slot, role_of(op)), Reading::Form(op)),
        Meaning::Known(known) => unless_wrong(takes_known(slot, known), Reading::Known(known)),
        Meaning::Name => name_reading(slot, takes_segment(slot), called),
        Meaning::Path => name_reading(slot, takes_path(slot), called),
        Meaning::Element(word) => {
            unless_wrong(takes_field_word(slot, word), Reading::Element(word))
        }
        Meaning::Macro(text_macro) => {
            unless_wrong(takes_macro(slot), Reading::Macro(text_macro))
        }
        Meaning::Template => unless_wrong(takes_macro(slot), Reading::Template),
        Meaning::Descriptor(descriptor) => {
            unless_wrong(
                takes_resource(slot, descriptor),
                Reading::Descriptor(descriptor),
            )
        }
        Meaning::Unknown => Reading::Wrong,
    }
}

fn is_word_of(kind: WordKind, meaning: Meaning) -> bool
    ensures { result ≡ spec.is_word_of kind meaning }
{
    match meaning {
        Meaning::Known(known) => takes_known(Slot::Word(kind), known),
        _ => false,
    }
}

// The address space of a region: anything but a word is a constant from 0x80 to 0xFF.
fn space_as(meaning: Meaning) -> Slot
    ensures { result ≡ spec.slot_as slot.Space meaning }
{
    if is_word_of(WordKind::Space, meaning) {
        Slot::Word(WordKind::Space)
    } else {
        Slot::Constant {
            least: 0x80,
            most: 0xFF,
        }
    }
}

// The address space of a register: anything but a word is a constant of 8 bits.
fn register_space_as(meaning: Meaning) -> Slot
    ensures { result ≡ spec.slot_as slot.RegisterSpace meaning }
{
    if is_word_of(WordKind::Space, meaning) {
        return Slot::Word(WordKind::Space);
    }
    if is_word_of(WordKind::Resource(Kind::Space), meaning) {
        return Slot::Word(WordKind::Resource(Kind::Space));
    }
    Slot::Constant {
        least: 0,
        most: 0xFF,
    }
}

// A word of a resource, or a number of 8 bits.
fn resource_as(kind: Kind, meaning: Meaning) -> Slot
    ensures { result ≡ spec.slot_as (slot.WordOrByte kind) meaning }
{
    if is_word_of(WordKind::Resource(kind), meaning) {
        Slot::Word(WordKind::Resource(kind))
    } else {
        Slot::Constant {
            least: 0,
            most: 0xFF,
        }
    }
}

// How units are accessed: anything but a word is a constant from 0 to 5.
fn access_as(meaning: Meaning) -> Slot
    ensures { result ≡ spec.slot_as slot.AccessType meaning }
{
    if is_word_of(WordKind::Access, meaning) {
        Slot::Word(WordKind::Access)
    } else {
        Slot::Constant { least: 0, most: 5 }
    }
}

fn is_long_attribute(meaning: Meaning) -> bool
    ensures { result ≡ spec.is_long_attribute meaning }
{
    matches!(meaning, Meaning::Element(FieldWord::AttribBytes))
}

// The attribute of an access: anything but a word and what has a length is a constant of 8 bits.
fn attribute_as(meaning: Meaning) -> Slot
    ensures { result ≡ spec.slot_as slot.Attribute meaning }
{
    if is_long_attribute(meaning) {
        return Slot::Attribute;
    }
    if is_word_of(WordKind::Attribute, meaning) {
        return Slot::Word(WordKind::Attribute);
    }
    Slot::Constant {
        least: 0,
        most: 0xFF,
    }
}

// An element of a field's list: one that is a word with its arguments, or the name of a unit.
fn element_as(meaning: Meaning) -> Slot
    ensures { result ≡ spec.slot_as slot.FieldElement meaning }
{
    if is_whole(meaning) {
        Slot::WholeElement
    } else {
        Slot::FieldElement
    }
}

/// How a part is read: one that a word or a number may be as a word where it is one, and as a number else; and an element of a field's
/// list as a word with its arguments where it is one, and as a name else.
pub fn slot_as(slot: Slot, meaning: Meaning) -> Slot
    ensures { result ≡ spec.slot_as slot meaning }
{
    match slot {
        Slot::Space => space_as(meaning),
        Slot::RegisterSpace => register_space_as(meaning),
        Slot::WordOrByte(kind) => resource_as(kind, meaning),
        Slot::AccessType => access_as(meaning),
        Slot::Attribute => attribute_as(meaning),
        Slot::FieldElement => element_as(meaning),
        _ => slot,
    }
}
