//! Terms that are written as words, with blanks between them.
//!
//! A form stands behind its arguments, and behind the braces of its body: `L0 { 1 Return } If`. An operand is a number, `L0` for
//! Local0, `A0` for Arg0, `Debug`, `-` for what is left out, `'AB'` for a string, or a name; `X` is a name of no segment. `Call` is a
//! call of such a name with two arguments. In a field's list `+UNTA.4` is a unit of 4 bits, `*4` a gap of 4 bits, `@2` an Offset of 2,
//! `/6` a buffer access with its attribute, `/11.9` one with a length too, and `[` the bytes of an end tag.
use acpi_values::operator::{DataOp, IntOp, Plain};
use asl_tree::path::{Path, Segs};
use asl_tree::term::{Control, Declaration, Literal, Node, Op, Special, Symbolic, Term};
use iasl_messages::place::Place;
use iasl_ports::list::{List, Text};
use std::alloc::{AllocError, Global};
use std::mem::replace;

/// The word of an operator, and how many arguments stand before it.
static OPERATORS: [(&str, Op, usize); 33] = [
    ("Name", Op::Declaration(Declaration::Name), 2),
    ("Method", Op::Declaration(Declaration::Method), 2),
    ("External", Op::Declaration(Declaration::External), 2),
    (
        "OperationRegion",
        Op::Declaration(Declaration::OperationRegion),
        4,
    ),
    ("Field", Op::Declaration(Declaration::Field), 2),
    ("If", Op::Control(Control::If), 1),
    ("ElseIf", Op::Control(Control::ElseIf), 1),
    ("Else", Op::Control(Control::Else), 0),
    ("While", Op::Control(Control::While), 1),
    ("For", Op::Control(Control::For), 3),
    ("Switch", Op::Control(Control::Switch), 1),
    ("Case", Op::Control(Control::Case), 1),
    ("Default", Op::Control(Control::Default), 0),
    ("Break", Op::Control(Control::Break), 0),
    ("Continue", Op::Control(Control::Continue), 0),
    ("Return", Op::Control(Control::Return), 1),
    ("Printf", Op::Control(Control::Printf), 2),
    ("Buffer", Op::Special(Special::Buffer), 1),
    ("Package", Op::Special(Special::Package), 1),
    ("Store", Op::Plain(Plain::Data(DataOp::Store)), 2),
    ("ToString", Op::Plain(Plain::Data(DataOp::ToString)), 3),
    ("Add", Op::Plain(Plain::Number(IntOp::Add)), 3),
    ("Multiply", Op::Plain(Plain::Number(IntOp::Multiply)), 3),
    ("Divide", Op::Plain(Plain::Number(IntOp::Divide)), 4),
    ("FromBcd", Op::Plain(Plain::Number(IntOp::FromBcd)), 2),
    ("LEqual", Op::Plain(Plain::Number(IntOp::LEqual)), 2),
    ("LOr", Op::Plain(Plain::Number(IntOp::LOr)), 2),
    ("LLess", Op::Plain(Plain::Number(IntOp::LLess)), 2),
    ("LNotEqual", Op::Plain(Plain::Number(IntOp::LNotEqual)), 2),
    (
        "<=",
        Op::Symbolic(Symbolic::Operator(Plain::Number(IntOp::LLessEqual))),
        2,
    ),
    ("Zero", Op::Literal(Literal::Zero), 0),
    ("One", Op::Literal(Literal::One), 0),
    ("Ones", Op::Literal(Literal::Ones), 0),
];

fn operator(word: &str) -> Option<(Op, usize)> {
    for (key, op, count) in &OPERATORS {
        if *key == word {
            return Some((*op, *count));
        }
    }
    None
}

fn word_of(op: Op) -> &'static str {
    for (word, other, _) in &OPERATORS {
        if *other == op {
            return *word;
        }
    }
    "other"
}

/// A name as it is written, with a backslash before its segments and dots between them.
pub(super) fn path(alloc: Global, text: &str) -> Result<Path, AllocError> {
    let mut segs = Vec::new(alloc);
    for segment in text.trim_start_matches(['\\', '^']).split('.') {
        if let Some(bytes) = segment.as_bytes().first_chunk::<4>() {
            segs.push(*bytes)?;
        }
    }
    Ok(Path {
        root: text.starts_with('\\'),
        up: steps(text),
        segs: Segs::from_vec(alloc, segs)?,
    })
}

// How many steps up a name begins with.
fn steps(text: &str) -> u32 {
    let mut up: u32 = 0;
    for byte in text.as_bytes() {
        if *byte == b'^' {
            up = up.wrapping_add(1);
        }
    }
    up
}

fn number(digits: &str) -> u64 {
    digits.parse().unwrap_or(0)
}

fn unit(words: &str) -> Term {
    let (name, bits) = words.split_once('.').unwrap_or((words, ""));
    match name.as_bytes().first_chunk::<4>() {
        Some(segment) => Term::Unit {
            segment: *segment,
            bits: number(bits),
        },
        None => Term::Omitted,
    }
}

fn access(words: &str) -> Term {
    let (attribute, length) = words.split_once('.').unwrap_or((words, ""));
    Term::Access {
        access: 5,
        attribute: attribute.parse().unwrap_or(0),
        length: length.parse().ok(),
    }
}

fn end_tag(alloc: Global) -> Result<Term, AllocError> {
    Ok(Term::Fill {
        bytes: Text::from_bytes(alloc, b"\x79\x00")?,
        named: List::new(alloc),
    })
}

fn string(alloc: Global, words: &str) -> Result<Term, AllocError> {
    let bytes = words.trim_end_matches('\'').as_bytes();
    Ok(Term::Text(Text::from_bytes(alloc, bytes)?))
}

fn variable(word: &str) -> Option<Term> {
    match word.as_bytes() {
        [b'L', digit] => Some(Term::Local(digit.wrapping_sub(b'0'))),
        [b'A', digit] => Some(Term::Arg(digit.wrapping_sub(b'0'))),
        b"Debug" => Some(Term::Debug),
        b"-" => Some(Term::Omitted),
        _ => None,
    }
}

fn operand(alloc: Global, word: &str) -> Result<Term, AllocError> {
    if let Some(term) = variable(word) {
        return Ok(term);
    }
    let rest = word.get(1..).unwrap_or("");
    match word.as_bytes().first() {
        Some(b'0'..=b'9') => Ok(Term::Integer(number(word))),
        Some(b'\'') => string(alloc, rest),
        Some(b'+') => Ok(unit(rest)),
        Some(b'*') => Ok(Term::Skip(number(rest))),
        Some(b'@') => Ok(Term::Offset(number(rest))),
        Some(b'/') => Ok(access(rest)),
        Some(b'[') => end_tag(alloc),
        _ => Ok(Term::Name(path(alloc, word)?)),
    }
}

/// Terms, the terms around an open brace, those between the last two braces, and the column of the last word.
#[derive(Drop)]
struct Reader {
    outer: Vec<Vec<Node>>,
    nodes: Vec<Node>,
    body: Vec<Node>,
    column: u32,
}

fn open(alloc: Global, reader: &mut Reader) -> Result<(), AllocError> {
    let nodes = replace(&mut reader.nodes, Vec::new(alloc));
    reader.outer.push(nodes)?;
    Ok(())
}

fn close(reader: &mut Reader) {
    if let Some(nodes) = reader.outer.pop() {
        reader.body = replace(&mut reader.nodes, nodes);
    }
}

// The last terms, so many of them, in their order.
fn last(alloc: Global, nodes: &mut Vec<Node>, count: usize) -> Result<Vec<Node>, AllocError> {
    let mut taken = Vec::new(alloc);
    for _ in 0..count {
        if let Some(node) = nodes.pop() {
            taken.push(node)?;
        }
    }
    taken.reverse();
    Ok(taken)
}

fn form(alloc: Global, reader: &mut Reader, op: Op, count: usize) -> Result<Term, AllocError> {
    let args = last(alloc, &mut reader.nodes, count)?;
    let body = replace(&mut reader.body, Vec::new(alloc));
    Ok(Term::Form { op, args, body })
}

fn call(alloc: Global, nodes: &mut Vec<Node>) -> Result<Term, AllocError> {
    let args = last(alloc, nodes, 2)?;
    let path = path(alloc, "X")?;
    Ok(Term::Call { path, args })
}

fn term_of(alloc: Global, reader: &mut Reader, word: &str) -> Result<Term, AllocError> {
    match operator(word) {
        Some((op, count)) => form(alloc, reader, op, count),
        None if word == "Call" => call(alloc, &mut reader.nodes),
        None => operand(alloc, word),
    }
}

// A node's number is its column.
fn add(nodes: &mut Vec<Node>, column: u32, term: Term) -> Result<(), AllocError> {
    nodes.push(Node {
        id: column,
        place: Place {
            file: 0,
            line: 1,
            column,
        },
        term,
    })?;
    Ok(())
}

fn read(alloc: Global, reader: &mut Reader, word: &str) -> Result<(), AllocError> {
    match word {
        "{" => open(alloc, reader),
        "}" => {
            close(reader);
            Ok(())
        }
        _ => {
            let term = term_of(alloc, reader, word)?;
            add(&mut reader.nodes, reader.column, term)
        }
    }
}

// The terms of a text; from each word to the next the column grows by so much.
fn terms_by(alloc: Global, text: &str, step: u32) -> Result<Vec<Node>, AllocError> {
    let mut reader = Reader {
        outer: Vec::new(alloc),
        nodes: Vec::new(alloc),
        body: Vec::new(alloc),
        column: 1,
    };
    for word in text.split(' ') {
        read(alloc, &mut reader, word)?;
        reader.column = reader.column.wrapping_add(step);
    }
    let Reader { nodes, .. } = reader;
    Ok(nodes)
}

/// The terms of a text. A node's number and its column are the number of its word.
pub(super) fn terms(alloc: Global, text: &str) -> Result<Vec<Node>, AllocError> {
    terms_by(alloc, text, 1)
}

/// The terms of a text, all at one place.
pub(super) fn terms_at_one_place(alloc: Global, text: &str) -> Result<Vec<Node>, AllocError> {
    terms_by(alloc, text, 0)
}

/// Whether terms are written with their columns: each of them, or statements alone.
#[derive(Clone, Copy, PartialEq, Eq)]
pub(super) enum Columns {
    OfAll,
    OfStatements,
}

fn put_number(alloc: Global, out: &mut String, mark: &str, number: u64) -> Result<(), AllocError> {
    let text = format!(in alloc; "{mark}{number}")?;
    out.push_str(text.as_str())
}

// The word of an operator, or an operand.
fn write_word(alloc: Global, out: &mut String, term: &Term) -> Result<(), AllocError> {
    match term {
        Term::Form { op, .. } => out.push_str(word_of(*op)),
        Term::Integer(number) => put_number(alloc, out, "", *number),
        Term::Local(index) => put_number(alloc, out, "L", u64::from(*index)),
        Term::Arg(index) => put_number(alloc, out, "A", u64::from(*index)),
        Term::Omitted => out.push_str("-"),
        Term::Name(_) => out.push_str("X"),
        _ => out.push_str("other"),
    }
}

fn is_statement(term: &Term) -> bool {
    match term {
        Term::Form { op, .. } => matches!(op, Op::Control(_) | Op::Plain(Plain::Data(_))),
        _ => false,
    }
}

// A word, with a ! behind it where the node's number is not its column, and the column.
fn write_node(
    alloc: Global,
    out: &mut String,
    node: &Node,
    columns: Columns,
) -> Result<(), AllocError> {
    let column = node.place.column;
    write_word(alloc, out, &node.term)?;
    if node.id != column {
        out.push_str("!")?;
    }
    if columns == Columns::OfAll || is_statement(&node.term) {
        put_number(alloc, out, "@", u64::from(column))?;
    }
    out.push_str(" ")
}

/// Adds the text of terms.
pub(super) fn write(
    alloc: Global,
    out: &mut String,
    nodes: &[Node],
    columns: Columns,
) -> Result<(), AllocError> {
    for node in nodes {
        if let Term::Form { args, body, .. } = &node.term {
            write(alloc, out, args, columns)?;
            if !body.is_empty() {
                out.push_str("{ ")?;
                write(alloc, out, body, columns)?;
                out.push_str("} ")?;
            }
        }
        write_node(alloc, out, node, columns)?;
    }
    Ok(())
}
