use asl_conditions::{ConditionStop, condition};
use asl_macros::Macros;
use std::alloc::{AllocError, Global};

// `A` is 7, `E` is empty, `C` is `defined A`, `Z` is `A / 0`, `P` is `( 2`.
static MACROS: [(&[u8], &[u8]); 6] = [
    (b"A", b"7"),
    (b"E", b""),
    (b"C", b"defined A"),
    (b"Z", b"A / 0"),
    (b"P", b"( 2"),
    (b"R", b"/* 1 */"),
];

fn macros(alloc: Global) -> Result<Macros, AllocError> {
    let mut macros = Macros::new(alloc);
    for (name, text) in &MACROS {
        macros.define(alloc, name, text)?;
    }
    Ok(macros)
}

fn shown(alloc: Global, text: &[u8]) -> Result<String, AllocError> {
    let macros = macros(alloc)?;
    match condition(alloc, &macros, text) {
        Ok(value) => format!(in alloc; "{}", value),
        Err(ConditionStop::Bad) => String::from_str(alloc, "bad"),
        Err(ConditionStop::Memory) => String::from_str(alloc, "memory"),
    }
}

// Whether that is the value of a text, or how it is refused.
fn has_value(alloc: Global, text: &[u8], expected: &str) -> Result<bool, AllocError> {
    let value = shown(alloc, text)?;
    Ok(value.as_str() == expected)
}

// Whether the text before the arrow has the value behind it.
fn is_right(alloc: Global, case: &str) -> Result<bool, AllocError> {
    match case.split_once(" => ") {
        Some((text, expected)) => has_value(alloc, text.as_bytes(), expected),
        None => Ok(false),
    }
}

// An expression and its value.
static VALUES: [&str; 48] = [
    // expressions of numbers and operators
    "1 => 1",
    "017 => 15",
    "0x1f => 31",
    "0xFFFFFFFFFFFFFFFF => 18446744073709551615",
    "18446744073709551615 + 1 => 0",
    "0 - 1 => 18446744073709551615",
    "1 + 2 * 3 => 7",
    "(1 + 2) * 3 => 9",
    "7 - 2 - 1 => 4",
    "100 / 10 / 2 => 5",
    "7 % 4 * 2 => 6",
    "1 << 4 >> 2 => 4",
    "1 << 63 << 1 => 0",
    "1 << 64 => 0",
    "1 >> 64 => 0",
    "1 << 2 + 1 => 8",
    "3 > 2 > 1 => 0",
    "1 < 2 => 1",
    "2 <= 2 => 1",
    "2 >= 3 => 0",
    "1 == 1 == 1 => 1",
    "1 != 2 & 3 => 1",
    "6 & 3 ^ 1 | 8 => 11",
    "2 && 4 => 1",
    "0 || 0 => 0",
    "1 || 0 && 0 => 1",
    "5 & 6 == 6 => 1",
    "!0 => 1",
    "!5 => 0",
    "~0 => 18446744073709551615",
    "!~~0 + 1 => 2",
    "~ 1 & 3 => 2",
    // expressions with names
    "A => 7",
    "B => 0",
    "defined A => 1",
    "defined B => 0",
    "defined ( A ) => 1",
    "defined(B) || A == 7 => 1",
    "!defined B => 1",
    "C => 1",
    "C + C => 2",
    "defined defined => 0",
    "1 E => 1",
    "A/**/+\t1 => 8",
    "P + 1) => 3",
    "((((A)))) => 7",
    "A R + 1 => 8",
    "4294967296 * 4294967296 => 0",
];

#[test]
fn values_of_operators_and_names(rt: HostRuntime) -> Result<(), AllocError> {
    for case in &VALUES {
        assert!(rt; is_right(rt.alloc(), case)?);
    }
    Ok(())
}

// An expression that is refused.
static FAULTS: [&str; 36] = [
    "",
    " ",
    "E",
    "1 2",
    "1 +",
    "+ 1",
    "- 1",
    "()",
    "(1",
    "1)",
    "1 / 0",
    "1 % 0",
    "0 && 1 / 0",
    "1 || 1 / 0",
    "Z",
    "08",
    "0x",
    "0X1",
    "0b1",
    "1a",
    "5_",
    "18446744073709551616",
    "0x10000000000000000",
    "\"a\"",
    "'a'",
    "1 = 1",
    "1 ? 2 : 3",
    "defined",
    "defined 1",
    "defined (A",
    "defined ((A))",
    "defined ()",
    "1 & & 2",
    "1 ! 2",
    "A B",
    "1.2",
];

#[test]
fn faults(rt: HostRuntime) -> Result<(), AllocError> {
    for text in &FAULTS {
        assert!(rt; has_value(rt.alloc(), text.as_bytes(), "bad")?);
    }
    Ok(())
}

// So many times the front, 1, and so many times the back.
fn nested(alloc: Global, front: &[u8], back: &[u8], count: u32) -> Result<Vec<u8>, AllocError> {
    let mut text = Vec::new(alloc);
    for _ in 0..count {
        text.extend_from_slice(front)?;
    }
    text.push(b'1')?;
    for _ in 0..count {
        text.extend_from_slice(back)?;
    }
    Ok(text)
}

fn is_right_nested(
    alloc: Global,
    front: &str,
    back: &str,
    count: u32,
    expected: &str,
) -> Result<bool, AllocError> {
    let text = nested(alloc, front.as_bytes(), back.as_bytes(), count)?;
    has_value(alloc, &text, expected)
}

// What stands before a 1 and what stands behind it, how many times each does, and the value.
static NESTINGS: [(&str, &str, u32, &str); 8] = [
    ("(", ")", 128, "1"),
    ("(", ")", 129, "bad"),
    ("!", "", 128, "1"),
    ("!", "", 129, "bad"),
    ("~(", ")", 64, "1"),
    ("~(", ")", 65, "bad"),
    ("(1)+", "", 5000, "5001"),
    ("1*2+", "-1", 3000, "3001"),
];

#[test]
fn depth_and_length(rt: HostRuntime) -> Result<(), AllocError> {
    for (front, back, count, expected) in &NESTINGS {
        assert!(rt; is_right_nested(rt.alloc(), front, back, *count, expected)?);
    }
    Ok(())
}
