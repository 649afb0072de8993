mod switches;

use acpi_values::operator::{DataOp, IntOp, Plain};
use asl_lexer::token::{Token, TokenKind, Tokens};
use asl_parser::parse;
use asl_shape::shape;
use asl_tree::program::Program;
use asl_tree::term::{Compound, Op, Special, Symbolic, Term};
use bumpalo::Bump;
use iasl_messages::place::Place;
use iasl_ports::list::Text;
use std::alloc::{AllocError, Global};
use std::test::Fail;

fn decimal(bytes: &[u8]) -> u64 {
    let mut number: u64 = 0;
    for byte in bytes {
        number = number
            .wrapping_mul(10)
            .wrapping_add(byte.wrapping_sub(b'0') as u64);
    }
    number
}

/// The tokens of a text that has a blank between each two; a token's column is its number.
fn tokens(alloc: Global, text: &str) -> Result<Tokens, AllocError> {
    let mut tokens = Tokens::new(alloc);
    for (column, word) in text.split(' ').enumerate() {
        let bytes = word.as_bytes();
        let kind = match bytes.first() {
            None => continue,
            Some(b'0'..=b'9') => TokenKind::Number,
            Some(b'A'..=b'Z' | b'_') => TokenKind::Word,
            Some(b'\\') => TokenKind::Path,
            Some(b'"') => TokenKind::Text,
            Some(_) => TokenKind::Symbol,
        };
        let bytes = match bytes {
            [b'"', rest @ ..] => rest,
            _ => bytes,
        };
        tokens.push(Token {
            kind,
            place: Place {
                file: 0,
                line: 1,
                column: u32::try_from(column).unwrap_or(0),
            },
            end: 0,
            number: decimal(bytes),
            text: Text::from_bytes(alloc, bytes)?,
        })?;
    }
    Ok(tokens)
}

const HEAD: &str = "DEFINITIONBLOCK ( \"a , \"DSDT , 2 , \"O , \"T , 1 ) {";

/// The one term of a block, where there is no error.
fn with_term(alloc: Global, text: &str) -> Result<Option<Program>, AllocError> {
    let source = format!(in alloc; "{HEAD} {text} }}")?;
    let tokens = tokens(alloc, source.as_str())?;
    if tokens.len() > 1000 {
        return Ok(None);
    }
    let arena = Bump::new(alloc);
    let Ok(unit) = parse(alloc, &arena, &tokens) else {
        return Ok(None);
    };
    match shape(alloc, &unit) {
        Ok(program) => Ok(Some(program)),
        Err(_) => Ok(None),
    }
}

/// The last number among the arguments of the one term of a block.
fn last_number(alloc: Global, text: &str) -> Result<Option<u64>, AllocError> {
    let Some(program) = with_term(alloc, text)? else {
        return Ok(None);
    };
    let Some(block) = program.blocks.get(0) else {
        return Ok(None);
    };
    let Some(node) = block.terms.get(0) else {
        return Ok(None);
    };
    let Term::Form { args, .. } = &node.term else {
        return Ok(None);
    };
    match args.last() {
        Some(last) => match &last.term {
            Term::Integer(number) => Ok(Some(*number)),
            Term::Word(word) => Ok(Some(word.number())),
            _ => Ok(None),
        },
        None => Ok(None),
    }
}

// A field, and the number of its words.
static WORDS_OF_FIELDS: [(&str, u64); 3] = [
    ("FIELD ( R , WORDACC , NOLOCK , PRESERVE ) { A , 12 }", 0x02),
    ("FIELD ( R , WORDACC , NOLOCK , WRITEASONES ) { }", 0x22),
    (
        "INDEXFIELD ( I , D , QWORDACC , LOCK , WRITEASZEROS ) { }",
        0x54,
    ),
];

#[test]
fn the_words_of_a_field_are_one_number(rt: HostRuntime) -> Result<(), Fail> {
    let alloc = rt.alloc();
    for (text, want) in &WORDS_OF_FIELDS {
        assert!(rt; last_number(alloc, text)? == Some(*want));
    }
    Ok(())
}

fn operator_of(term: &Term) -> Option<Op> {
    match term {
        Term::Form { op, .. } => Some(*op),
        _ => None,
    }
}

/// The operator of the one term of a block, or of its argument of this number.
fn operator_in(
    alloc: Global,
    text: &str,
    argument: Option<usize>,
) -> Result<Option<Op>, AllocError> {
    let Some(program) = with_term(alloc, text)? else {
        return Ok(None);
    };
    let Some(block) = program.blocks.get(0) else {
        return Ok(None);
    };
    let Some(node) = block.terms.get(0) else {
        return Ok(None);
    };
    let Term::Form { op, args, .. } = &node.term else {
        return Ok(None);
    };
    let Some(i) = argument else {
        return Ok(Some(*op));
    };
    match args.get(i) {
        Some(node) => Ok(operator_of(&node.term)),
        None => Ok(None),
    }
}

// A term, the number of one of its arguments, and the operator of that, or of the term itself.
static SYMBOLS: [(&str, Option<usize>, Symbolic); 9] = [
    ("X = Y + 1 * 2", None, Symbolic::Assign),
    (
        "X = Y + 1 * 2",
        Some(1),
        Symbolic::Operator(Plain::Number(IntOp::Add)),
    ),
    (
        "Y + 1 * 2",
        Some(1),
        Symbolic::Operator(Plain::Number(IntOp::Multiply)),
    ),
    ("X [ 1 ] = 2", None, Symbolic::Assign),
    (
        "X [ 1 ] = 2",
        Some(0),
        Symbolic::Operator(Plain::Data(DataOp::Index)),
    ),
    (
        "X ++",
        None,
        Symbolic::Operator(Plain::Data(DataOp::Increment)),
    ),
    ("! X", None, Symbolic::Operator(Plain::Number(IntOp::LNot))),
    ("~ X", None, Symbolic::Operator(Plain::Number(IntOp::Not))),
    ("X <<= 1", None, Symbolic::AssignBy(Compound::ShiftLeft)),
];

#[test]
fn symbols_are_operators(rt: HostRuntime) -> Result<(), Fail> {
    let alloc = rt.alloc();
    for (text, argument, want) in &SYMBOLS {
        assert!(rt; operator_in(alloc, text, *argument)? == Some(Op::Symbolic(*want)));
    }
    // A constant argument is its value.
    assert!(rt; last_number(alloc, "MUTEX ( M , 1 + 2 )")? == Some(3));
    Ok(())
}

/// Whether the one term of a block has a Buffer of these bytes as its last argument.
fn has_buffer(alloc: Global, text: &str, bytes: &[u8]) -> Result<bool, AllocError> {
    let Some(program) = with_term(alloc, text)? else {
        return Ok(false);
    };
    let Some(block) = program.blocks.get(0) else {
        return Ok(false);
    };
    let Some(node) = block.terms.get(0) else {
        return Ok(false);
    };
    let Term::Form { args, .. } = &node.term else {
        return Ok(false);
    };
    let Some(last) = args.last() else {
        return Ok(false);
    };
    let Term::Form { op, body, .. } = &last.term else {
        return Ok(false);
    };
    if *op != Op::Special(Special::Buffer) {
        return Ok(false);
    }
    match body.get(0) {
        Some(node) => match &node.term {
            Term::Fill { bytes: fill, .. } => Ok(fill.as_bytes() == bytes),
            _ => Ok(false),
        },
        None => Ok(false),
    }
}

#[test]
fn macros_stand_for_their_strings(rt: HostRuntime) -> Result<(), Fail> {
    let alloc = rt.alloc();
    assert!(rt; last_number(alloc, "NAME ( A , EISAID ( \"PNP0C09 ) )")? == Some(0x090CD041));
    assert!(rt; has_buffer(alloc, "NAME ( U , UNICODE ( \"AB ) )", b"A\0B\0\0\0")?);
    assert!(rt;
        has_buffer(
            alloc,
            "NAME ( U , TOUUID ( \"E5c937d0-3553-4d7a-9117-ea4d19c3434d ) )",
            b"\xD0\x37\xC9\xE5\x53\x35\x7A\x4D\x91\x17\xEA\x4D\x19\xC3\x43\x4D",
        )?
    );
    Ok(())
}
