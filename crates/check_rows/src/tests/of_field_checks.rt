use asl_tree::term::{Declaration, Node, Op, Term};
use field_checks::check::list_faults;
use iasl_messages::place::Place;
use std::alloc::{AllocError, Global};
use std::test::Fail;

// A method with a unit of no bits among its terms.
fn method(alloc: Global) -> Result<Vec<Node>, AllocError> {
    let place = Place {
        file: 0,
        line: 2,
        column: 1,
    };
    let segment = *b"U___";
    let term = Term::Unit { segment, bits: 0 };
    let mut body = Vec::new(alloc);
    body.push(Node { id: 0, place, term })?;
    let term = Term::Form {
        op: Op::Declaration(Declaration::Method),
        args: Vec::new(alloc),
        body,
    };
    let mut terms = Vec::new(alloc);
    terms.push(Node { id: 0, place, term })?;
    Ok(terms)
}

#[test]
fn a_unit_outside_of_a_field_has_no_fault(rt: HostRuntime) -> Result<(), Fail> {
    let alloc = rt.alloc();
    assert_eq!(rt; list_faults(alloc, &method(alloc)?)?.len(), 0);
    Ok(())
}
