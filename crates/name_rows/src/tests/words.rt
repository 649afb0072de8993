//! Terms that are written as words.
//!
//! A word is a term, and its line is the number of the word from 1 on. `Name:X___,1` is the form `Name (X, 1)`, in column 1;
//! a `{` behind its arguments opens a body, which the word `}` ends. `X___` is a name and `X___:0,1` a call of it, in column 2.
//!
//! Arguments have commas between them. The first name among them stands in column 2, the next in column 3, and so on; all else
//! stands in column 9: a number, `-` for what is left out, `[` for the bytes of a descriptor, `&` for a Buffer of such, and
//! `#X___.Y___` for a Package of names. In a field's list `+X___` is a unit of 8 bits, `*4` a gap of 4 bits and `@2` an Offset of 2.
use acpi_values::operator::{DataOp, EventOp, Plain};
use asl_tree::path::{NameSeg, Path, Segs};
use asl_tree::term::{Control, Declaration, Node, Op, Special, Term};
use iasl_messages::message::Message;
use iasl_messages::place::Place;
use iasl_ports::list::{List, Text};
use std::alloc::{AllocError, Global};
use std::mem::replace;
use std::str::from_utf8;

static OPERATORS: [(&str, Op); 21] = [
    ("Name", Op::Declaration(Declaration::Name)),
    ("Alias", Op::Declaration(Declaration::Alias)),
    ("External", Op::Declaration(Declaration::External)),
    ("Method", Op::Declaration(Declaration::Method)),
    ("Mutex", Op::Declaration(Declaration::Mutex)),
    ("Event", Op::Declaration(Declaration::Event)),
    ("Device", Op::Declaration(Declaration::Device)),
    ("Scope", Op::Declaration(Declaration::Scope)),
    (
        "OperationRegion",
        Op::Declaration(Declaration::OperationRegion),
    ),
    ("Field", Op::Declaration(Declaration::Field)),
    ("IndexField", Op::Declaration(Declaration::IndexField)),
    ("BankField", Op::Declaration(Declaration::BankField)),
    (
        "CreateByteField",
        Op::Declaration(Declaration::CreateByteField),
    ),
    ("While", Op::Control(Control::While)),
    ("Return", Op::Control(Control::Return)),
    ("CondRefOf", Op::Special(Special::CondRefOf)),
    ("Store", Op::Plain(Plain::Data(DataOp::Store))),
    ("RefOf", Op::Plain(Plain::Data(DataOp::RefOf))),
    ("Acquire", Op::Plain(Plain::Event(EventOp::Acquire))),
    ("Release", Op::Plain(Plain::Event(EventOp::Release))),
    ("Wait", Op::Plain(Plain::Event(EventOp::Wait))),
];

fn operator(word: &str) -> Option<Op> {
    for (key, op) in &OPERATORS {
        if *key == word {
            return Some(*op);
        }
    }
    None
}

// The number of a text of decimal digits.
fn decimal(digits: &str) -> u64 {
    let mut number: u64 = 0;
    for digit in digits.as_bytes() {
        number = number
            .wrapping_mul(10)
            .wrapping_add(u64::from(digit.wrapping_sub(b'0')));
    }
    number
}

/// A name as it is written.
pub(super) fn path(alloc: Global, text: &str) -> Result<Path, AllocError> {
    let segs = segments(alloc, text)?;
    Ok(Path {
        root: text.starts_with('\\'),
        up: steps(text),
        segs: Segs::from_vec(alloc, segs)?,
    })
}

// How many steps up a name begins with.
fn steps(text: &str) -> u32 {
    let mut up: u32 = 0;
    for byte in text.as_bytes() {
        if *byte == b'^' {
            up = up.wrapping_add(1);
        }
    }
    up
}

// The segments of a name, which have four bytes each.
fn segments(alloc: Global, text: &str) -> Result<Vec<NameSeg>, AllocError> {
    let mut segs = Vec::new(alloc);
    for segment in text.trim_start_matches(['\\', '^']).split('.') {
        if let Some(bytes) = segment.as_bytes().first_chunk::<4>() {
            segs.push(*bytes)?;
        }
    }
    Ok(segs)
}

// A node has the number of its line.
fn add(nodes: &mut Vec<Node>, line: u32, column: u32, term: Term) -> Result<(), AllocError> {
    nodes.push(Node {
        id: line,
        place: Place {
            file: 0,
            line,
            column,
        },
        term,
    })?;
    Ok(())
}

fn descriptor(alloc: Global) -> Term {
    Term::Fill {
        bytes: Text::new(alloc),
        named: List::new(alloc),
    }
}

// A Buffer or a Package whose size is left out.
fn sized(alloc: Global, op: Special, body: Vec<Node>) -> Result<Term, AllocError> {
    let mut args = Vec::new(alloc);
    add(&mut args, 0, 9, Term::Omitted)?;
    Ok(Term::Form {
        op: Op::Special(op),
        args,
        body,
    })
}

fn buffer(alloc: Global) -> Result<Term, AllocError> {
    let mut body = Vec::new(alloc);
    add(&mut body, 0, 9, descriptor(alloc))?;
    sized(alloc, Special::Buffer, body)
}

fn add_names(alloc: Global, nodes: &mut Vec<Node>, names: &str) -> Result<(), AllocError> {
    for name in names.split('.') {
        add(nodes, 0, 9, Term::Name(path(alloc, name)?))?;
    }
    Ok(())
}

fn package(alloc: Global, names: &str) -> Result<Term, AllocError> {
    let mut body = Vec::new(alloc);
    add_names(alloc, &mut body, names)?;
    sized(alloc, Special::Package, body)
}

fn unit(name: &str) -> Term {
    match name.as_bytes().first_chunk::<4>() {
        Some(segment) => Term::Unit {
            segment: *segment,
            bits: 8,
        },
        None => Term::Omitted,
    }
}

// An argument or a part of a field's list.
fn argument(alloc: Global, word: &str) -> Result<Term, AllocError> {
    let Some(mark) = word.as_bytes().first() else {
        return Ok(Term::Omitted);
    };
    let rest = word.get(1..).unwrap_or("");
    match *mark {
        b'0'..=b'9' => Ok(Term::Integer(decimal(word))),
        b'-' => Ok(Term::Omitted),
        b'+' => Ok(unit(rest)),
        b'*' => Ok(Term::Skip(decimal(rest))),
        b'@' => Ok(Term::Offset(decimal(rest))),
        b'[' => Ok(descriptor(alloc)),
        b'&' => buffer(alloc),
        b'#' => package(alloc, rest),
        _ => Ok(Term::Name(path(alloc, word)?)),
    }
}

/// The arguments of a term and the list of a field, and the column of the last name among them.
#[derive(Drop)]
struct Arguments {
    args: Vec<Node>,
    list: Vec<Node>,
    column: u32,
}

// The column of one more argument.
fn next_column(arguments: &mut Arguments, term: &Term) -> u32 {
    match term {
        Term::Name(_) | Term::Unit { .. } => {
            arguments.column = arguments.column.wrapping_add(1);
            arguments.column
        }
        _ => 9,
    }
}

// Adds an argument, or a part of a field's list.
fn add_argument(arguments: &mut Arguments, line: u32, term: Term) -> Result<(), AllocError> {
    let column = next_column(arguments, &term);
    if matches!(&term, Term::Unit { .. } | Term::Skip(_) | Term::Offset(_)) {
        add(&mut arguments.list, line, column, term)
    } else {
        add(&mut arguments.args, line, column, term)
    }
}

fn add_arguments(
    alloc: Global,
    arguments: &mut Arguments,
    line: u32,
    words: &str,
) -> Result<(), AllocError> {
    for word in words.split(',') {
        if !word.is_empty() {
            add_argument(arguments, line, argument(alloc, word)?)?;
        }
    }
    Ok(())
}

fn arguments_of(alloc: Global, line: u32, words: &str) -> Result<Arguments, AllocError> {
    let mut arguments = Arguments {
        args: Vec::new(alloc),
        list: Vec::new(alloc),
        column: 1,
    };
    add_arguments(alloc, &mut arguments, line, words)?;
    Ok(arguments)
}

fn form(alloc: Global, line: u32, op: Op, words: &str) -> Result<Term, AllocError> {
    let Arguments { args, list, .. } = arguments_of(alloc, line, words)?;
    let body = list;
    Ok(Term::Form { op, args, body })
}

fn call(alloc: Global, line: u32, name: &str, words: &str) -> Result<Term, AllocError> {
    let Arguments { args, .. } = arguments_of(alloc, line, words)?;
    let path = path(alloc, name)?;
    Ok(Term::Call { path, args })
}

// Adds the term that a word stands for.
fn add_term(alloc: Global, nodes: &mut Vec<Node>, line: u32, word: &str) -> Result<(), AllocError> {
    match word.split_once(':') {
        None => add(nodes, line, 2, Term::Name(path(alloc, word)?)),
        Some((key, words)) => match operator(key) {
            Some(op) => add(nodes, line, 1, form(alloc, line, op, words)?),
            None => add(nodes, line, 2, call(alloc, line, key, words)?),
        },
    }
}

// Puts a body into the last of some terms.
fn close(nodes: &mut Vec<Node>, inner: Vec<Node>) {
    if let Some(node) = nodes.last_mut() {
        if let Term::Form { body, .. } = &mut node.term {
            *body = inner;
        }
    }
}

/// Terms, the terms around them whose last is still open, and the line of the last word.
#[derive(Drop)]
struct Reader {
    outer: Vec<Vec<Node>>,
    nodes: Vec<Node>,
    line: u32,
}

fn read_end(reader: &mut Reader) {
    if let Some(outer) = reader.outer.pop() {
        let inner = replace(&mut reader.nodes, outer);
        close(&mut reader.nodes, inner);
    }
}

fn read_open(alloc: Global, reader: &mut Reader) -> Result<(), AllocError> {
    let outer = replace(&mut reader.nodes, Vec::new(alloc));
    reader.outer.push(outer)?;
    Ok(())
}

fn read(alloc: Global, reader: &mut Reader, word: &str) -> Result<(), AllocError> {
    reader.line = reader.line.wrapping_add(1);
    if word == "}" {
        read_end(reader);
        return Ok(());
    }
    match word.strip_suffix('{') {
        Some(form) => {
            add_term(alloc, &mut reader.nodes, reader.line, form)?;
            read_open(alloc, reader)
        }
        None => add_term(alloc, &mut reader.nodes, reader.line, word),
    }
}

/// The terms of a text of words.
pub(super) fn terms(alloc: Global, text: &str) -> Result<Vec<Node>, AllocError> {
    let mut reader = Reader {
        outer: Vec::new(alloc),
        nodes: Vec::new(alloc),
        line: 0,
    };
    for word in text.split(' ') {
        read(alloc, &mut reader, word)?;
    }
    let Reader { nodes, .. } = reader;
    Ok(nodes)
}

// Adds the number of a message, its line and column, and its name.
fn tell(alloc: Global, out: &mut String, message: &Message) -> Result<(), AllocError> {
    let number = message.number;
    let line = message.place.line;
    let column = message.place.column;
    let name = from_utf8(message.name.as_bytes()).unwrap_or("");
    let text = format!(in alloc; "{number} {line}.{column} {name}; ")?;
    out.push_str(text.as_str())
}

/// Messages, each with its number, its line and column, and its name.
pub(super) fn told(alloc: Global, messages: &[Message]) -> Result<String, AllocError> {
    let mut out = String::new(alloc);
    for message in messages {
        tell(alloc, &mut out, message)?;
    }
    Ok(out)
}
