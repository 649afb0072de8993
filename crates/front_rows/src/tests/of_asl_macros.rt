use asl_macros::{Macros, ReplaceStop, Within, replace, stays};
use std::alloc::{AllocError, Global};

// A table of definitions that stand between semicolons: `NAME=TEXT`, or `NAME` alone for one that ends.
fn table(alloc: Global, definitions: &str) -> Result<Macros, AllocError> {
    let mut macros = Macros::new(alloc);
    for definition in definitions.split(';') {
        match definition.split_once('=') {
            Some((name, text)) => macros.define(alloc, name.as_bytes(), text.as_bytes())?,
            None => macros.undefine(definition.as_bytes()),
        }
    }
    Ok(macros)
}

fn shown(
    alloc: Global,
    definitions: &str,
    within: Within,
    text: &str,
    in_comment: bool,
    limit: usize,
) -> Result<Vec<u8>, AllocError> {
    let macros = table(alloc, definitions)?;
    match replace(alloc, &macros, within, text.as_bytes(), in_comment, limit) {
        Ok(text) => Ok(text),
        Err(ReplaceStop::TooLong) => b"too long".to_vec(alloc),
        Err(ReplaceStop::Memory) => b"memory".to_vec(alloc),
    }
}

// Definitions, a line, and the line with the names replaced.
static LINES: [(&str, &str, &str); 16] = [
    ("A=7", "Name (X, A)", "Name (X, 7)"),
    (
        "A=7",
        "AA A_ A0 0A 5A \"A\" /*A*/ //A",
        "AA A_ A0 0A 5A \"A\" /*A*/ //A",
    ),
    ("A=B;B=C;C=1", "A", "1"),
    ("A=B;B=A", "A B", "A B"),
    ("A=A A", "A", "A A"),
    ("A=B B;B=C;C=A B", "A", "A B A B"),
    ("A=1;A=2", "A", "2"),
    ("A=1;A", "A", "A"),
    ("A=1;A;A=3", "A", "3"),
    ("A=", "xA A.A", "xA ."),
    ("A=\"A\" /* A */ A1", "A", "\"A\" /* A */ A1"),
    ("defined=1;X=2", "defined X", "1 2"),
    ("A=1;B=2;C=3;B", "C B A", "3 B 1"),
    ("A=1;B=2;C=3;A", "C B A", "3 2 A"),
    ("", "A", "A"),
    ("A=/*;B=2", "A B", "/* 2"),
];

// Whether that comes of a text.
fn comes_of(
    alloc: Global,
    definitions: &str,
    within: Within,
    text: &str,
    in_comment: bool,
    limit: usize,
    expected: &str,
) -> Result<bool, AllocError> {
    let text = shown(alloc, definitions, within, text, in_comment, limit)?;
    Ok(text.as_slice() == expected.as_bytes())
}

#[test]
fn names_of_a_line(rt: HostRuntime) -> Result<(), AllocError> {
    for (definitions, text, expected) in &LINES {
        assert!(rt;
            comes_of(
                rt.alloc(),
                definitions,
                Within::InLine,
                text,
                false,
                100,
                expected
            )?
        );
    }
    Ok(())
}

// Whether a text stays as it is with these definitions.
fn stays_with(alloc: Global, definitions: &str, text: &str) -> Result<bool, AllocError> {
    let macros = table(alloc, definitions)?;
    Ok(stays(&macros, text.as_bytes(), false))
}

// Definitions, a text, and whether it stays as it is.
static TEXTS: [(&str, &str, bool); 6] = [
    ("A=7", "Name (X, B)", true),
    ("A=7", "Name (X, A)", false),
    ("A=7", "AA A_ A0 0A 5A \"A\" /*A*/ //A", true),
    ("AB=7", "xAB _AB AB_ ABC, BAB", true),
    ("AB=7", "xAB _AB AB_ ABC, AB", false),
    ("A=1;A", "A", true),
];

#[test]
fn texts_that_stay(rt: HostRuntime) -> Result<(), AllocError> {
    for (definitions, text, expected) in &TEXTS {
        assert!(rt; stays_with(rt.alloc(), definitions, text)? == *expected);
    }
    Ok(())
}

// Definitions, a condition, and the condition with the names replaced.
static CONDITIONS: [(&str, &str, &str); 11] = [
    ("X=2;A=1", "A == X", "1 == 2"),
    ("X=2", "defined X", "defined X"),
    ("X=2", "defined(X) X", "defined(X) 2"),
    ("X=2", "defined \t( X ) && X", "defined \t( X ) && 2"),
    ("X=2", "defined /* */ X X", "defined /* */ X 2"),
    ("X=2", "defined ((X", "defined ((2"),
    ("X=2", "defined ! X", "defined ! 2"),
    ("X=2;A=defined X || X", "A", "defined X || 2"),
    ("X=2;A=defined", "A X", "defined 2"),
    ("defined=1;X=2", "defined X", "defined X"),
    ("X=2", "defined defined X", "defined defined 2"),
];

#[test]
fn names_of_a_condition(rt: HostRuntime) -> Result<(), AllocError> {
    for (definitions, text, expected) in &CONDITIONS {
        assert!(rt;
            comes_of(
                rt.alloc(),
                definitions,
                Within::InCondition,
                text,
                false,
                100,
                expected
            )?
        );
    }
    Ok(())
}

// Definitions, a line, whether it begins in a comment, how many bytes there may be, and what comes of it.
static LIMITS: [(&str, &str, bool, usize, &str); 6] = [
    ("A=abc", "A", false, 3, "abc"),
    ("A=abc", "A", false, 2, "too long"),
    ("A=", "A", false, 0, ""),
    ("A=1", "A */ A", true, 100, "A */ 1"),
    (
        "A=BB BB;BB=CC CC;CC=DD DD;DD=EE EE;EE=A A",
        "A",
        false,
        1000,
        "A A A A A A A A A A A A A A A A A A A A A A A A A A A A A A A A",
    ),
    (
        "A=BB BB;BB=CC CC;CC=DD DD;DD=EE EE;EE=A A",
        "A A A A A A A A",
        false,
        300,
        "too long",
    ),
];

#[test]
fn limits_of_replacement(rt: HostRuntime) -> Result<(), AllocError> {
    for (definitions, text, in_comment, limit, expected) in &LIMITS {
        assert!(rt;
            comes_of(
                rt.alloc(),
                definitions,
                Within::InLine,
                text,
                *in_comment,
                *limit,
                expected
            )?
        );
    }
    Ok(())
}

// Defines a name, N and its number, with the next one as its text, or the next one twice.
fn define_next(
    alloc: Global,
    macros: &mut Macros,
    number: u32,
    twice: bool,
) -> Result<(), AllocError> {
    let next = number.saturating_add(1);
    let name = format!(in alloc; "N{}", number)?;
    let text = if twice {
        format!(in alloc; "N{} N{}", next, next)?
    } else {
        format!(in alloc; "N{}", next)?
    };
    macros.define(alloc, name.as_str().as_bytes(), text.as_str().as_bytes())
}

// A chain of the names N1 to N40, each with the next one as its text. With the next one twice there are 2 to the 32nd names
// in place of the first.
fn chain(alloc: Global, twice: bool) -> Result<Macros, AllocError> {
    let mut macros = Macros::new(alloc);
    for number in 1..40u32 {
        define_next(alloc, &mut macros, number, twice)?;
    }
    Ok(macros)
}

fn is_too_long(alloc: Global, text: &[u8], limit: usize) -> Result<bool, AllocError> {
    let macros = chain(alloc, true)?;
    match replace(alloc, &macros, Within::InLine, text, false, limit) {
        Err(ReplaceStop::TooLong) => Ok(true),
        _ => Ok(false),
    }
}

// Whether the names of a line come to these in the chain.
fn comes_to(alloc: Global, text: &[u8], wanted: &[u8]) -> Result<bool, AllocError> {
    let macros = chain(alloc, false)?;
    match replace(alloc, &macros, Within::InLine, text, false, 100) {
        Ok(text) => Ok(text.as_slice() == wanted),
        Err(_) => Ok(false),
    }
}

#[test]
fn nesting_of_names(rt: HostRuntime) -> Result<(), AllocError> {
    assert!(rt; is_too_long(rt.alloc(), b"N1", 100_000)?);
    assert!(rt; is_too_long(rt.alloc(), b"N8", 0)?);
    // The name that is met at a nesting of 33 stays.
    assert!(rt; comes_to(rt.alloc(), b"N1 N8 N9", b"N33 N40 N40")?);
    Ok(())
}
