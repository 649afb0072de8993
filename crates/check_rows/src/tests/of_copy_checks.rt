use asl_tree::term::{Control, Node, Op, Term};
use copy_checks::copies::{ProgramSize, copies_told, program_size};
use form_presence::present::present_in;
use iasl_messages::place::Place;
use std::alloc::{AllocError, Global};
use std::test::Fail;

fn place_at(column: u32) -> Place {
    Place {
        file: 0,
        line: 1,
        column,
    }
}

// A form at a column, with these terms in its braces.
fn form(alloc: Global, column: u32, control: Control, body: Vec<Node>) -> Node {
    Node {
        id: 0,
        place: place_at(column),
        term: Term::Form {
            op: Op::Control(control),
            args: Vec::new(alloc),
            body,
        },
    }
}

// The messages that are told of so many nodes, and the number and the column of the first.
fn told(alloc: Global, program: u64, core: u64) -> Result<(usize, u16, u32), AllocError> {
    let size = ProgramSize {
        place: place_at(7),
        nodes: program,
    };
    let messages = copies_told(alloc, size, core)?;
    Ok(match messages.get(0) {
        Some(message) => (messages.len(), message.number, message.place.column),
        None => (0, 0, 0),
    })
}

#[test]
fn tells_nodes_without_numbers(rt: HostRuntime) -> Result<(), Fail> {
    let alloc = rt.alloc();
    assert_eq!(rt; told(alloc, 3, 4)?, (0, 0, 0));
    assert_eq!(rt; told(alloc, 4_294_967_295, 0)?, (0, 0, 0));
    assert_eq!(rt; told(alloc, 4_294_967_295, 1)?, (1, 6062, 7));
    assert_eq!(rt; told(alloc, 2_147_483_648, 2_147_483_648)?, (1, 6062, 7));
    assert_eq!(rt; told(alloc, 1, 18_446_744_073_709_551_615)?, (1, 6062, 7));
    Ok(())
}

// `If { For While } For`, and `If { }`: the first For is the one in the braces, at column 3; the block is at column 1.
#[test]
fn stands_at_the_first_for(rt: HostRuntime) -> Result<(), Fail> {
    let alloc = rt.alloc();
    let mut body = Vec::new(alloc);
    body.push(form(alloc, 3, Control::For, Vec::new(alloc)))?;
    body.push(form(alloc, 4, Control::While, Vec::new(alloc)))?;
    let mut terms = Vec::new(alloc);
    terms.push(form(alloc, 2, Control::If, body))?;
    terms.push(form(alloc, 5, Control::For, Vec::new(alloc)))?;
    let size = program_size(place_at(1), &terms, present_in(&terms));
    assert_eq!(rt; (size.place.column, size.nodes), (3, 4));
    let mut other = Vec::new(alloc);
    other.push(form(alloc, 2, Control::If, Vec::new(alloc)))?;
    let size = program_size(place_at(1), &other, present_in(&other));
    assert_eq!(rt; (size.place.column, size.nodes), (1, 1));
    Ok(())
}
