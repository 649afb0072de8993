use super::many::{add, name, segment};
use super::words::{terms, told};
use super::{Outcome, wrong_row};
use asl_tree::path::{Path, Segs};
use asl_tree::term::{Control, Declaration, Node, Op, Term};
use iasl_messages::message::{Messages, Stage};
use iasl_messages::place::Place;
use name_checks::check::{check, index, kind_errors, name_errors_in};
use name_kinds::known::known_of;
use std::alloc::{AllocError, Global};
use std::test::Fail;

// The errors of names, or where there are none those of kinds.
fn examine(alloc: Global, nodes: &[Node]) -> Result<Messages, AllocError> {
    let known = known_of(alloc, nodes)?;
    let names = name_errors_in(alloc, &known)?;
    if names.is_empty() {
        kind_errors(alloc, &known)
    } else {
        Ok(names)
    }
}

pub(super) fn errors(alloc: Global, text: &str) -> Result<String, AllocError> {
    let nodes = terms(alloc, text)?;
    let errors = examine(alloc, &nodes)?;
    told(alloc, errors.as_slice())
}

/// Terms with a Return outside of methods, which no source has, and their errors.
const RETURNS: &str = "
    Return:X___ Name:X___,1 =>
    Method:M___,1{ } M___ Return:M___ => 6051 3.2 M___; 6051 4.2 M___;
";

#[test]
fn tells_each_error_at_its_place(rt: HostRuntime) -> Result<(), Fail> {
    let alloc = rt.alloc();
    assert_eq!(rt; wrong_row(alloc, Outcome::Errors, RETURNS)?.as_str(), "");
    Ok(())
}

// A path of so many segments.
fn long(alloc: Global, count: u32) -> Result<String, AllocError> {
    let mut text = String::from_str(alloc, "Name:\\")?;
    for number in 0..count {
        text.push_str("A___.")?;
    }
    text.push_str(",1")?;
    Ok(text)
}

// How many errors a path of so many segments has, and the number of the last.
fn errors_of_long(alloc: Global, count: u32) -> Result<(usize, u16), AllocError> {
    let nodes = terms(alloc, long(alloc, count)?.as_str())?;
    let errors = examine(alloc, &nodes)?;
    match errors.as_slice().last() {
        Some(last) => Ok((errors.len(), last.number)),
        None => Ok((0, 0)),
    }
}

#[test]
fn paths_have_at_most_255_segments(rt: HostRuntime) -> Result<(), Fail> {
    let alloc = rt.alloc();
    assert_eq!(rt; errors_of_long(alloc, 255)?.0, 1);
    let (count, last) = errors_of_long(alloc, 256)?;
    assert!(rt; count == 2 && last == 6046);
    Ok(())
}

#[test]
#[tactic(auto, unfolding(asl_tree::specs::View::trees_of))]
fn an_empty_block_is_right(rt: HostRuntime) -> Result<(), Fail> {
    let alloc = rt.alloc();
    match check(alloc, &[]) {
        Ok(names) => {
            assert_eq!(rt; names.index.paths.len(), 10);
            Ok(())
        }
        Err(_) => Err(AllocError)?,
    }
}

#[test]
#[tactic(auto, unfolding(asl_tree::specs::View::trees_of))]
fn an_empty_block_has_its_names(rt: HostRuntime) -> Result<(), Fail> {
    let alloc = rt.alloc();
    match index(alloc, known_of(alloc, &[])?) {
        Ok(names) => {
            assert_eq!(rt; names.index.paths.len(), 10);
            assert_eq!(rt; names.calls.len(), 10);
            Ok(())
        }
        Err(_) => Err(AllocError)?,
    }
}

// The number and the column of the one error of a term that is a name, which is not declared.
#[tactic(auto, unfolding(asl_tree::specs::View::trees_of, asl_tree::specs::View::tree_of))]
fn error_of_a_use(alloc: Global) -> Result<(u16, u32), AllocError> {
    let terms = [Node {
        id: 0,
        place: Place {
            file: 0,
            line: 1,
            column: 7,
        },
        term: Term::Name(Path {
            root: false,
            up: 0,
            segs: Segs::one(*b"X___"),
        }),
    }];
    match index(alloc, known_of(alloc, &terms)?) {
        Err(Stage::Refused(messages)) => match messages.as_slice() {
            [message] => Ok((message.number, message.place.column)),
            _ => Ok((0, 0)),
        },
        Err(Stage::Memory) => Err(AllocError),
        Ok(_) => Ok((0, 1)),
    }
}

#[test]
fn a_name_that_is_not_declared_is_refused(rt: HostRuntime) -> Result<(), Fail> {
    assert_eq!(rt; error_of_a_use(rt.alloc())?, (6041, 7));
    Ok(())
}

// The name with a number.
fn numbered(number: u32) -> Term {
    let letter = match number / 46_656 {
        0 => b'A',
        1 => b'B',
        _ => b'C',
    };
    name(segment(letter, number))
}

fn add_form(
    alloc: Global,
    nodes: &mut Vec<Node>,
    op: Op,
    args: Vec<Node>,
) -> Result<(), AllocError> {
    let body = Vec::new(alloc);
    add(nodes, 0, Term::Form { op, args, body })
}

// Alias (next, name), and a use of the name.
fn add_alias(alloc: Global, nodes: &mut Vec<Node>, number: u32) -> Result<(), AllocError> {
    let mut args = Vec::new(alloc);
    add(&mut args, 0, numbered(number.wrapping_add(1)))?;
    add(&mut args, 0, numbered(number))?;
    add_form(alloc, nodes, Op::Declaration(Declaration::Alias), args)?;
    let mut used = Vec::new(alloc);
    add(&mut used, 0, numbered(number))?;
    add_form(alloc, nodes, Op::Control(Control::Return), used)
}

// Aliases, each of the next name and each with a use behind it, and at their end a Name.
fn chain(alloc: Global, count: u32) -> Result<Vec<Node>, AllocError> {
    let mut nodes = Vec::new(alloc);
    for number in 0..count {
        add_alias(alloc, &mut nodes, number)?;
    }
    let mut args = Vec::new(alloc);
    add(&mut args, 0, numbered(count))?;
    add(&mut args, 0, Term::Integer(1))?;
    add_form(alloc, &mut nodes, Op::Declaration(Declaration::Name), args)?;
    Ok(nodes)
}

// Each path is followed once, so that 100,000 uses of a chain of as many aliases are found at once.
#[test]
fn a_long_chain_of_aliases_is_right(rt: HostRuntime) -> Result<(), Fail> {
    let alloc = rt.alloc();
    let nodes = chain(alloc, 100_000)?;
    let errors = examine(alloc, &nodes)?;
    assert_eq!(rt; errors.len(), 0);
    Ok(())
}
