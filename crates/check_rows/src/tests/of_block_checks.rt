ghost use Rattle.std.specs.Prelude.{◌≡◌, [], IfOk};
ghost use Rattle.term_plans.specs.Plans.{plans_of};
ghost use Rattle.asl_numbers.specs.Numbers.{numbered_all};
ghost use Rattle.named_sessions.specs.Shaped.{AreFormed, AreNamed};

use asl_tree::program::Block;
use asl_tree::term::{Node, Term};
use block_checks::check::check;
use block_checks::names::Findings;
use iasl_messages::place::Place;
use iasl_ports::list::Text;
use std::alloc::{AllocError, Global};
use std::test::Fail;

// DefinitionBlock ("", "SSDT", 2, "OEMX00", "TABLE001", 1) { }
fn empty_block(alloc: Global) -> Result<Block, AllocError>
    ensures { IfOk result (λ block. block.terms.items ≡ []) }
{
    Ok(Block {
        place: Place {
            file: 0,
            line: 1,
            column: 1,
        },
        file: Text::new(alloc),
        signature: Text::from_bytes(alloc, b"SSDT")?,
        revision: 2,
        oem_id: Text::from_bytes(alloc, b"OEMX00")?,
        table_id: Text::from_bytes(alloc, b"TABLE001")?,
        oem_revision: 1,
        terms: Vec::new(alloc),
    })
}

#[test]
#[tactic(auto, using(crate::proofs::Empty::none_formed))]
fn nothing_is_told_of_an_empty_block(rt: HostRuntime) -> Result<(), Fail> {
    let alloc = rt.alloc();
    let checked = check(alloc, empty_block(alloc)?)?;
    assert_eq!(rt; checked.errors.len(), 0);
    assert_eq!(rt; checked.notes.len(), 0);
    assert!(rt; checked.block.terms.is_empty());
    match &checked.names {
        Findings::Right(names) => assert_eq!(rt; names.index.paths.len(), 10),
        _ => assert!(rt; false),
    }
    Ok(())
}

// The same block with Arg0, in column 7, as its one term.
#[tactic(auto, using(crate::proofs::Empty::one_formed))]
fn block_of_an_argument(alloc: Global) -> Result<Block, AllocError>
    ensures { IfOk result (λ block. AreFormed (Unit {0}) AreNamed (Unit {0}) (Unit {0}) (numbered_all 0 (plans_of block.terms.items))) }
{
    let mut block = empty_block(alloc)?;
    block.terms.push(Node {
        id: 0,
        place: Place {
            file: 0,
            line: 1,
            column: 7,
        },
        term: Term::Arg(0),
    })?;
    Ok(block)
}

#[test]
fn an_argument_outside_of_methods_is_told(rt: HostRuntime) -> Result<(), Fail> {
    let alloc = rt.alloc();
    let checked = check(alloc, block_of_an_argument(alloc)?)?;
    match checked.errors.as_slice() {
        [error] => assert_eq!(rt; (error.number, error.place.column), (6055, 7)),
        _ => assert!(rt; false),
    }
    Ok(())
}
