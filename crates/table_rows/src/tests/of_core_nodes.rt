use super::words::terms;
use core_nodes::copied::weighed;
use core_nodes::count::counted;
use std::test::Fail;

/// Terms, how many nodes they have, and what the copies of the steps of Fors in them weigh where constants are folded, and where they are
/// not, counted by hand.
static COUNTS: [(&str, u64, u64, u64); 13] = [
    // The method, its name and its flags; the If and its test; the Store with its two operands
    ("X 0 { L0 { 1 L1 Store } If } Method", 8, 0, 0),
    // An ElseIf is one node, as an If and an Else are
    ("L0 { 1 } If L1 { 2 } ElseIf { 3 } Else", 8, 0, 0),
    // A string in a Buffer has a 00 behind it; a size that is left out is a node
    ("X - { 'AB' } Buffer Name", 7, 0, 0),
    ("X - { 1 2 3 } Buffer Name", 7, 0, 0),
    ("X - { 1 'AB' X } Package Name", 7, 0, 0),
    // Two comparisons that are LNot of another, and one that is not
    ("L0 1 LNotEqual L0 1 <= L0 1 LLess", 11, 0, 0),
    // The place of a Printf is the Debug object
    ("'AB' L0 Printf", 4, 0, 0),
    // A step stands before a Continue of its own For, and not before one of the While in it
    (
        "0 L0 Store L0 5 LLess L0 1 L0 Add { L1 { Continue } If One { Continue } While } For",
        17,
        2,
        3,
    ),
    // Each For has its own step; a call weighs one more than its arguments
    (
        "- One L0 A0 Call { - One L1 L2 L1 Add { Continue } For L3 { Continue } If Continue } For",
        18,
        9,
        9,
    ),
    // A Continue outside all Fors
    ("One { Continue } While", 3, 0, 0),
    // The word One weighs nothing either way
    ("- - One 3 L0 Add { Continue } For", 8, 1, 2),
    // Steps stand before the Continues in Cases and in a Default
    (
        "- - L0 1 L0 Add { L1 { 1 { Continue } Case 2 { L2 { Continue } If Continue } Case { Continue } Default } Switch } For",
        20,
        8,
        12,
    ),
    // Of two Defaults the first one counts
    (
        "- - L0 { L1 { { Continue } Default 1 { Continue } Case { Continue } Default } Switch } For",
        13,
        2,
        2,
    ),
];

#[test]
fn counts_nodes(rt: HostRuntime) -> Result<(), Fail> {
    let alloc = rt.alloc();
    for (text, nodes, folded, unfolded) in &COUNTS {
        let terms = terms(alloc, text)?;
        assert_eq!(rt; counted(&terms), *nodes, "at {text}");
        assert_eq!(rt; weighed(&terms, 0, true), *folded, "at {text}");
        assert_eq!(rt; weighed(&terms, 0, false), *unfolded, "at {text}");
    }
    Ok(())
}
