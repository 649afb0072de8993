//! How many bytes terms have, up to the most that a `usize` counts.
ghost use Rattle.std.specs.Prelude.{◌≡◌, ◌≤◌, ◌<◌, ◌^◌, ◌++◌, ◌+◌, ◌-◌, ◌∷◌, [], if◌then◌else◌, length, ℕ};
ghost use Rattle.asl_operators.specs.Letters.{letter_as, letters_as};
ghost use Rattle.aml_sizes.specs.Capped.{capped, framed};
ghost use Rattle.aml_sizes.specs.Leaves.{leaf_of, leaves_of, raw_bytes, operand_bytes, fill_bytes};
ghost use Rattle.aml_sizes.specs.Codes.{code_of, letters_of};
ghost use Rattle.aml_sizes.specs.Items.{written_name, written_items};
ghost use Rattle.aml_sizes.specs.TermBytes.{number_bytes, is_package, head_bytes, missing_bytes, buffer_size, count_bytes, front_part};
ghost use Rattle.aml_sizes.specs.TermBytes.{body_part, term_bytes, nodes_bytes};
ghost use Rattle.aml_sizes.specs.Forms.{form_bytes, form_lengths};
ghost use Rattle.aml_sizes.specs.PackageLengths.{package_length, items_lengths, operand_lengths, count_lengths, argument_lengths};
ghost use Rattle.aml_sizes.specs.PackageLengths.{body_lengths, front_lengths, term_lengths, nodes_lengths, Noted};

use crate::codes::{is_packed, is_plain, letters, no_letters, opcode};
use crate::item_sizes::{items_size, note_items};
use crate::leaf_sizes::{length_size, name_size};
use crate::notes::LengthNotes;
use crate::operands::{is_left_out, letter_at, stated_count};
use crate::style::IntegerStyle;
use acpi_values::integer::wrap;
use aml_code::coded::integer_bytes;
use asl_operators::letter::Letter;
use asl_tree::path::Path;
use asl_tree::term::{Declaration, Node, Op, Special, Term};

fn opcode_size(op: Op) -> usize
    ensures size { result ≡ length (code_of op) }
    ensures few { result ≤ 2 }
{
    opcode(op).len()
}

fn integer_size(number: u64, style: IntegerStyle) -> usize
    ensures size { result ≡ length (number_bytes style number) }
    ensures few { result ≤ 9 }
{
    let coded = integer_bytes(wrap(style.width, number), style.width, style.short);
    usize::from(coded.count)
}

// A constant operand.
#[tactic(auto, using(std::proofs::lemmas::Grind::common_steps, crate::proofs::Counted::low_length))]
fn raw_size(size: u8, term: &Term) -> usize
    requires { size ≤ 8 }
    ensures size { result ≡ length (raw_bytes size (leaf_of term.now)) }
    ensures few { result ≤ 8 }
{
    match term {
        Term::Integer(_) => usize::from(size),
        Term::Word(_) => usize::from(size),
        _ => 0,
    }
}

// An operand as its letter asks.
#[cycle(size)]
fn operand_size(notes: &mut LengthNotes, letter: Letter, term: &Term, style: IntegerStyle) -> usize
    ensures size { result ≡ capped (length (operand_bytes (letter_as letter) (leaf_of term.now) (term_bytes style term.now))) }
    ensures lengths { Noted (operand_lengths (letter_as letter) (term_lengths style term.now)) notes.old notes.new }
{
    match letter {
        Letter::Byte => raw_size(1, term),
        Letter::Word => raw_size(2, term),
        Letter::DWord => raw_size(4, term),
        Letter::Valued => {
            if matches!(term, Term::Omitted) {
                1
            } else {
                term_size(notes, term, style)
            }
        }
        _ => term_size(notes, term, style),
    }
}

/// Some terms, each as its letter asks.
#[cycle(size)]
pub(crate) fn nodes_size(
    notes: &mut LengthNotes,
    letters: &[Letter],
    nodes: &[Node],
    style: IntegerStyle,
) -> usize
    ensures size { result ≡ capped (length (nodes_bytes style (letters_as letters.now) nodes.now)) }
    ensures lengths { Noted (nodes_lengths style (letters_as letters.now) nodes.now) notes.old notes.new }
{
    let mut size: usize = 0;
    let mut left = nodes.len();
    while left > 0 {
        left -= 1;
        let letter = letter_at(letters, left);
        size = size.saturating_add(operand_size(notes, letter, &nodes[left].term, style));
    }
    size
}

// An opcode of so many bytes, and behind it so many and a body of so many, which are a package together or not. The
// length of a package is noted.
fn framed_size(
    notes: &mut LengthNotes,
    opcode: usize,
    packed: bool,
    own: usize,
    body: usize,
) -> usize
    requires { opcode ≤ 2 }
    ensures size { result ≡ framed opcode packed (capped (own + body)) }
    ensures lengths { (content : ℕ) → capped (own + body) ≡ capped content → Noted (if packed then package_length content ∷ [] else [])
        notes.old notes.new }
{
    let content = own.saturating_add(body);
    if packed {
        let whole = content.saturating_add(length_size(content));
        notes.put(whole);
        whole.saturating_add(opcode)
    } else {
        content.saturating_add(opcode)
    }
}

/// A form with its body, which has so many bytes.
#[cycle(size)]
pub(crate) fn headed_size(
    notes: &mut LengthNotes,
    op: Op,
    args: &[Node],
    body: usize,
    style: IntegerStyle,
) -> usize
    ensures size { result ≡ capped (length (head_bytes op (nodes_bytes style (letters_of op) args.now) body) + body) }
    ensures lengths { (whole : ℕ) → body ≡ capped whole →
        Noted ((if is_package op then package_length (length (nodes_bytes style (letters_of op) args.now) + whole) ∷ [] else [])
        ++ nodes_lengths style (letters_of op) args.now) notes.old notes.new }
{
    let own = nodes_size(notes, letters(op), args, style);
    framed_size(notes, opcode_size(op), is_packed(op), own, body)
}

// The size of a Buffer, which is that of its bytes where it is left out.
#[cycle(size)]
fn buffer_size_size(
    notes: &mut LengthNotes,
    args: &[Node],
    size: usize,
    style: IntegerStyle,
) -> usize
    ensures size { result ≡ capped (length (buffer_size style (leaves_of args.now) size (nodes_bytes style [] args.now))) }
    ensures lengths { Noted (argument_lengths (Op.Special Special.Buffer) (leaves_of args.now) 0 (nodes_lengths style [] args.now))
        notes.old notes.new }
{
    if is_left_out(args) {
        integer_size(size as u64, style)
    } else {
        nodes_size(notes, no_letters(), args, style)
    }
}

// A Buffer with its bytes, which are so many.
#[cycle(size)]
fn sized_buffer(notes: &mut LengthNotes, args: &[Node], size: usize, style: IntegerStyle) -> usize
    ensures size { result ≡ capped
        (length (front_part style (Op.Special Special.Buffer) (leaves_of args.now) (nodes_bytes style [] args.now) 0 size) + size) }
    ensures lengths { (whole : ℕ) → size ≡ capped whole →
        Noted (front_lengths style (Op.Special Special.Buffer) (leaves_of args.now) (nodes_bytes style [] args.now)
        (nodes_lengths style [] args.now) 0 whole) notes.old notes.new }
{
    let own = buffer_size_size(notes, args, size, style);
    framed_size(notes, 1, true, own, size)
}

// The number of elements of a Package behind its opcode.
#[cycle(size)]
fn count_size(
    notes: &mut LengthNotes,
    args: &[Node],
    count: Option<u64>,
    style: IntegerStyle,
) -> usize
    ensures size { result ≡ capped (length (count_bytes style count (nodes_bytes style [] args.now))) }
    ensures lengths { Noted (count_lengths count (nodes_lengths style [] args.now)) notes.old notes.new }
{
    match count {
        Some(count) if count <= 255 => 1,
        Some(count) => integer_size(count, style),
        None => nodes_size(notes, no_letters(), args, style),
    }
}

// A Package with its elements, which are so many, and have so many bytes.
#[cycle(size)]
fn sized_package(
    notes: &mut LengthNotes,
    args: &[Node],
    elements: usize,
    size: usize,
    style: IntegerStyle,
) -> usize
    ensures size { result ≡ capped
        (length (front_part style (Op.Special Special.Package) (leaves_of args.now) (nodes_bytes style [] args.now) elements size) + size) }
    ensures lengths { (whole : ℕ) → size ≡ capped whole →
        Noted (front_lengths style (Op.Special Special.Package) (leaves_of args.now) (nodes_bytes style [] args.now)
        (nodes_lengths style [] args.now) elements whole) notes.old notes.new }
{
    let count = stated_count(args, elements);
    let own = count_size(notes, args, count, style);
    framed_size(notes, 1, true, own, size)
}

// The number of parameters that an External does not state.
fn missing_size(args: usize) -> usize
    ensures size { result ≡ length (missing_bytes args) }
    ensures few { result ≤ 1 }
{
    match args {
        0..=2 => 1,
        _ => 0,
    }
}

#[cycle(size)]
fn sized_external(notes: &mut LengthNotes, args: &[Node], size: usize, style: IntegerStyle) -> usize
    ensures size { result ≡ capped
        (length
        (head_bytes (Op.Declaration Declaration.External) (nodes_bytes style (letters_of (Op.Declaration Declaration.External)) args.now) 0
        ++ missing_bytes (length args.now)) + size) }
    ensures lengths { Noted (nodes_lengths style (letters_of (Op.Declaration Declaration.External)) args.now) notes.old notes.new }
{
    let own = nodes_size(
        notes,
        letters(Op::Declaration(Declaration::External)),
        args,
        style,
    );
    own.saturating_add(1 + missing_size(args.len()))
        .saturating_add(size)
}

// A form with its body, which has so many nodes and so many bytes.
#[cycle(size)]
#[tactic(auto, using(crate::proofs::Rows::leaf_number))]
fn sized_form(
    notes: &mut LengthNotes,
    op: Op,
    args: &[Node],
    nodes: usize,
    size: usize,
    style: IntegerStyle,
) -> usize
    ensures size { result ≡ capped
        (length (front_part style op (leaves_of args.now) (nodes_bytes style (letters_of op) args.now) nodes size) + size) }
    ensures lengths { (whole : ℕ) → size ≡ capped whole →
        Noted (front_lengths style op (leaves_of args.now) (nodes_bytes style (letters_of op) args.now)
        (nodes_lengths style (letters_of op) args.now) nodes whole) notes.old notes.new }
{
    match op {
        Op::Special(Special::Buffer) => sized_buffer(notes, args, size, style),
        Op::Special(Special::Package) => sized_package(notes, args, nodes, size, style),
        Op::Declaration(Declaration::External) => sized_external(notes, args, size, style),
        _ => headed_size(notes, op, args, size, style),
    }
}

// A text with the zero behind it.
fn text_size(text: &[u8]) -> usize
    ensures size { result ≡ length (text.now ++ 0x00 ∷ []) }
    ensures few { result < 2 ^ 64 - 1 }
{
    text.len() + 1
}

fn list_size(nodes: &[Node]) -> usize
    ensures size { result ≡ length nodes.now }
    ensures few { result < 2 ^ 64 }
{
    nodes.len()
}

// The bytes that a Buffer's body lists.
#[tactic(auto, using(std::proofs::lemmas::Grind::common_steps, crate::proofs::Rows::many_listed, crate::proofs::Rows::listed_number))]
fn fill_size(body: &[Node]) -> usize
    ensures { result ≡ capped (length (fill_bytes (leaves_of body.now))) }
{
    match body {
        [] => 0,
        [only] => match &only.term {
            Term::Text(text) => text_size(text.as_bytes()),
            Term::Fill { bytes, .. } => bytes.as_bytes().len(),
            _ => 1,
        },
        [_, _, ..] => list_size(body),
    }
}

// The list of a field.
fn list_of_field_size(notes: &mut LengthNotes, body: &[Node]) -> usize
    ensures size { result ≡ capped (length (written_items 0 body.now)) }
    ensures lengths { Noted (items_lengths body.now) notes.old notes.new }
{
    note_items(notes, body);
    items_size(body)
}

// The body of a form.
#[cycle(size)]
fn body_size(notes: &mut LengthNotes, op: Op, body: &[Node], style: IntegerStyle) -> usize
    ensures size { result ≡ capped
        (length (body_part style op (leaves_of body.now) (nodes_bytes style [] body.now) (written_items 0 body.now))) }
    ensures lengths { Noted (body_lengths op (nodes_lengths style [] body.now) (items_lengths body.now)) notes.old notes.new }
{
    match op {
        Op::Special(Special::Buffer) => fill_size(body),
        Op::Declaration(Declaration::External) => 0,
        Op::Declaration(Declaration::Field | Declaration::IndexField | Declaration::BankField) =>
            list_of_field_size(notes, body),
        _ => nodes_size(notes, no_letters(), body, style),
    }
}

fn node_count(nodes: &[Node]) -> usize
    ensures { result ≡ length nodes.now }
{
    nodes.len()
}

// A call with its arguments.
#[cycle(size)]
#[inline(never)]
fn call_size(notes: &mut LengthNotes, path: &Path, args: &[Node], style: IntegerStyle) -> usize
    ensures size { result ≡ capped (length (written_name path.now ++ nodes_bytes style [] args.now)) }
    ensures lengths { Noted (nodes_lengths style [] args.now) notes.old notes.new }
{
    nodes_size(notes, no_letters(), args, style).saturating_add(name_size(path))
}

// A form that is its opcode, its arguments and its body, one behind another.
#[cycle(size)]
fn plain_form_size(
    notes: &mut LengthNotes,
    op: Op,
    args: &[Node],
    body: &[Node],
    style: IntegerStyle,
) -> usize
    ensures size { result ≡ capped (length ((code_of op ++ nodes_bytes style (letters_of op) args.now) ++ nodes_bytes style [] body.now)) }
    ensures lengths { Noted (nodes_lengths style (letters_of op) args.now ++ nodes_lengths style [] body.now) notes.old notes.new }
{
    let size = nodes_size(notes, no_letters(), body, style);
    let own = nodes_size(notes, letters(op), args, style);
    own.saturating_add(opcode_size(op)).saturating_add(size)
}

// Any form, by the rule for it.
#[cycle(size)]
fn ruled_form_size(
    notes: &mut LengthNotes,
    op: Op,
    args: &[Node],
    body: &[Node],
    style: IntegerStyle,
) -> usize
    ensures size { result ≡ capped (length (form_bytes style op args.now body.now)) }
    ensures lengths { Noted (form_lengths style op args.now body.now) notes.old notes.new }
{
    let size = body_size(notes, op, body, style);
    let nodes = node_count(body);
    sized_form(notes, op, args, nodes, size, style)
}

// A form. Most are plain, and need no more than a few steps.
#[cycle(size)]
#[inline(never)]
fn form_size(
    notes: &mut LengthNotes,
    op: Op,
    args: &[Node],
    body: &[Node],
    style: IntegerStyle,
) -> usize
    ensures size { result ≡ capped (length (form_bytes style op args.now body.now)) }
    ensures lengths { Noted (form_lengths style op args.now body.now) notes.old notes.new }
{
    if is_plain(op) {
        plain_form_size(notes, op, args, body, style)
    } else {
        ruled_form_size(notes, op, args, body, style)
    }
}

/// A term.
#[cycle(size)]
#[tactic(auto, using(crate::proofs::Rows::term_rules))]
pub(crate) fn term_size(notes: &mut LengthNotes, term: &Term, style: IntegerStyle) -> usize
    ensures size { result ≡ capped (length (term_bytes style term.now)) }
    ensures lengths { Noted (term_lengths style term.now) notes.old notes.new }
{
    match term {
        Term::Integer(number) => integer_size(*number, style),
        Term::Word(word) => integer_size(word.number(), style),
        Term::Text(text) => text_size(text.as_bytes()) + 1,
        Term::Local(_) | Term::Arg(_) | Term::Omitted => 1,
        Term::Debug => 2,
        Term::Fill { .. }
        | Term::Unit { .. }
        | Term::Skip(_)
        | Term::Offset(_)
        | Term::Access { .. } => 0,
        Term::Name(path) => name_size(path),
        Term::Call { path, args } => call_size(notes, path, args, style),
        Term::Form { op, args, body } => form_size(notes, *op, args, body, style),
    }
}
