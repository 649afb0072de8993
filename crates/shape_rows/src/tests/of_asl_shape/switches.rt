use super::with_term;
use acpi_values::width::Width;
use asl_tree::constant::constant;
use asl_tree::term::{Control, Node, Op, Term};
use std::alloc::{AllocError, Global};
use std::test::Fail;

fn control_of(node: &Node) -> Option<Control> {
    match &node.term {
        Term::Form {
            op: Op::Control(control),
            ..
        } => Some(*control),
        _ => None,
    }
}

/// The number that the value of a Case comes to.
fn value_of(node: &Node) -> Option<u64> {
    let Term::Form { args, .. } = &node.term else {
        return None;
    };
    match args.get(0) {
        Some(value) => constant(&value.term, Width::W64).ok(),
        None => None,
    }
}

/// Whether this is a Switch of a Case of 3, a Case of 0, and a Default.
fn are_in_order(node: &Node) -> bool {
    let Term::Form { body, .. } = &node.term else {
        return false;
    };
    match (body.get(0), body.get(1), body.get(2)) {
        (Some(first), Some(second), Some(third)) => {
            body.len() == 3
                && value_of(first) == Some(3)
                && value_of(second) == Some(0)
                && control_of(third) == Some(Control::Default)
        }
        _ => false,
    }
}

// A Switch of a Case of 3, a Case of 0, and a Default at any place.
static SWITCHES: [&str; 3] = [
    "SWITCH ( A ) { DEFAULT { } CASE ( 1 + 2 ) { } CASE ( ZERO ) { } }",
    "SWITCH ( A ) { CASE ( 1 + 2 ) { } DEFAULT { } CASE ( ZERO ) { } }",
    "SWITCH ( A ) { CASE ( 1 + 2 ) { } CASE ( ZERO ) { } DEFAULT { } }",
];

/// Whether the one term of a block is such a Switch with its Default at the end.
fn stands_in_order(alloc: Global, text: &str) -> Result<bool, AllocError> {
    let Some(program) = with_term(alloc, text)? else {
        return Ok(false);
    };
    let Some(block) = program.blocks.get(0) else {
        return Ok(false);
    };
    match block.terms.get(0) {
        Some(node) => Ok(are_in_order(node)),
        None => Ok(false),
    }
}

#[test]
fn a_default_stands_behind_the_cases(rt: HostRuntime) -> Result<(), Fail> {
    let alloc = rt.alloc();
    for text in &SWITCHES {
        assert!(rt; stands_in_order(alloc, text)?);
    }
    Ok(())
}
