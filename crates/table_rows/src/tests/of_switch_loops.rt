use super::words::{Columns, terms, write};
use std::alloc::{AllocError, Global};
use std::test::Fail;
use switch_loops::enough::is_enough;
use switch_loops::loops::loops;

/// Terms, and what they come to: a Switch alone, one that a Continue leaves, and two around each other that a Continue leaves; the
/// loops are written by hand.
static LOOPS: [(&str, &str); 5] = [
    (
        "A0 { { 20 Return } Default 1 { 10 Return } Case - { 2 3 } Package { Break } Case } Switch",
        "One { A0 L0 Store@25 L0 1 LEqual { 10 Return@11 } If@13 L0 2 LEqual L0 3 LEqual LOr { Break@21 } ElseIf@23 { 20 Return@5 } \
            Else@7 Break@25 } While@25 ",
    ),
    (
        "L0 2 LLess { L0 { 1 { Continue } Case } Switch L0 L1 Store } While L1 Return",
        "L0 2 LLess { Zero L3 Store@13 One { L0 L2 Store@13 L2 1 LEqual { One L3 Store@9 Break@9 } If@11 Break@13 } While@13 L3 { \
            Zero L3 Store@13 Continue@13 } If@13 L0 L1 Store@16 } While@18 L1 Return@20 ",
    ),
    (
        "One { A0 { { L0 { { Continue } Default } Switch Break } Default } Switch } While",
        "One { Zero L3 Store@18 One { A0 L1 Store@18 One { L0 L2 Store@13 One L3 Store@9 Break@9 Break@13 } While@13 L3 { Break@13 } \
            If@13 Break@14 Break@18 } While@18 L3 { Zero L3 Store@18 Continue@18 } If@18 } While@20 ",
    ),
    // Three members; nothing is tested where there is no Case.
    (
        "A0 { - { 1 2 3 } Package { Break } Case } Switch",
        "One { A0 L0 Store@15 L0 1 LEqual L0 2 LEqual LOr L0 3 LEqual LOr { Break@11 } If@13 Break@15 } While@15 ",
    ),
    ("A0 { } Switch", "One { A0 L0 Store@4 Break@4 } While@4 "),
];

// The text of terms with loops in the place of their Switches.
fn made(alloc: Global, text: &str) -> Result<String, AllocError> {
    let made = loops(alloc, terms(alloc, text)?)?;
    let mut seen = String::new(alloc);
    write(alloc, &mut seen, &made, Columns::OfStatements)?;
    Ok(seen)
}

/// Terms, and whether there are Locals enough: each level of Switches takes a Local, and a Continue that leaves one takes another.
static LOCALS: [(&str, bool); 5] = [
    (
        "L0 L1 Store L2 L3 Store L4 L5 Store L6 { { Break } Default } Switch",
        true,
    ),
    (
        "L0 L1 Store L2 L3 Store L4 L5 Store L6 L7 Store A0 { { Break } Default } Switch",
        false,
    ),
    (
        "L0 L1 Store L2 L3 Store L4 L5 Store One { L6 { { Continue } Default } Switch } While",
        false,
    ),
    (
        "L0 L1 Store L2 L3 Store L4 { { L5 { { Break } Default } Switch } Default } Switch",
        true,
    ),
    (
        "L0 L1 Store L2 L3 Store L4 L5 Store L6 { { A0 { { Break } Default } Switch } Default } Switch",
        false,
    ),
];

#[test]
fn makes_loops_where_there_are_locals(rt: HostRuntime) -> Result<(), Fail> {
    let alloc = rt.alloc();
    for (text, want) in &LOOPS {
        assert_eq!(rt; made(alloc, text)?.as_str(), *want, "at {text}");
    }
    for (text, want) in &LOCALS {
        let terms = terms(alloc, text)?;
        assert_eq!(rt; is_enough(&terms), *want, "at {text}");
    }
    Ok(())
}
