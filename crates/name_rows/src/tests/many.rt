//! Names in great number, each a letter and three characters of 36.
use asl_tree::path::{NameSeg, Path, Segs};
use asl_tree::term::{Declaration, Node, Op, Term};
use iasl_messages::place::Place;
use std::alloc::{AllocError, Global};

/// How many names begin with one letter.
pub(super) const NAMES: u32 = 46_656;

pub(super) fn segment(letter: u8, number: u32) -> NameSeg {
    let digits = b"0123456789ABCDEFGHIJKLMNOPQRSTUVWXYZ";
    let at = |n: u32| digits[(n % 36) as usize];
    [letter, at(number / 1296), at(number / 36), at(number)]
}

/// The number of the node that is the value of a Name in a Device, where any other node has 0.
pub(super) fn value_node(device: u32, number: u32) -> u32 {
    device
        .wrapping_mul(NAMES)
        .wrapping_add(number)
        .wrapping_add(1)
}

/// A node with a number.
pub(super) fn add(nodes: &mut Vec<Node>, id: u32, term: Term) -> Result<(), AllocError> {
    nodes.push(Node {
        id,
        place: Place {
            file: 0,
            line: 1,
            column: 1,
        },
        term,
    })?;
    Ok(())
}

pub(super) fn name(segment: NameSeg) -> Term {
    Term::Name(Path {
        root: false,
        up: 0,
        segs: Segs::one(segment),
    })
}

// Name (segment, segment), whose value has a number.
fn named(alloc: Global, id: u32, segment: NameSeg) -> Result<Term, AllocError> {
    let mut args = Vec::new(alloc);
    add(&mut args, 0, name(segment))?;
    add(&mut args, id, name(segment))?;
    Ok(Term::Form {
        op: Op::Declaration(Declaration::Name),
        args,
        body: Vec::new(alloc),
    })
}

/// A Device with so many Names, each of which has itself as its value.
pub(super) fn device(
    alloc: Global,
    letter: u8,
    number: u32,
    count: u32,
) -> Result<Term, AllocError> {
    let mut args = Vec::new(alloc);
    add(&mut args, 0, name(segment(letter, number)))?;
    let mut body = Vec::new(alloc);
    for inner in 0..count {
        let term = named(alloc, value_node(number, inner), segment(b'N', inner))?;
        add(&mut body, 0, term)?;
    }
    Ok(Term::Form {
        op: Op::Declaration(Declaration::Device),
        args,
        body,
    })
}
