use super::words::{Columns, terms, write};
use acpi_values::width::Width;
use asl_fold::fold::fold;
use std::alloc::{AllocError, Global};
use std::test::Fail;

/// A width, terms, and what they come to. The values are those of the ACPI Specification's texts on the operators, worked out by
/// hand.
static FOLDS: [(Width, &str, &str); 15] = [
    // Local0 = 2 + 3, and Local0 = 1 / 0
    (Width::W64, "2 3 L0 Add", "5@4 L0@3 Store@4 "),
    (Width::W64, "1 0 - L0 Divide", "1@1 0@2 -@3 L0@4 Divide@5 "),
    // Local0 = 0xFFFFFFFF + 1
    (Width::W32, "4294967295 1 L0 Add", "0@4 L0@3 Store@4 "),
    (
        Width::W64,
        "4294967295 1 L0 Add",
        "4294967296@4 L0@3 Store@4 ",
    ),
    // A literal is cut, and Ones is of the width.
    (Width::W32, "4294967297 1 - Add Return", "2@4 Return@5 "),
    (Width::W32, "Ones 1 - Add Return", "0@4 Return@5 "),
    // A quotient, and one with a remainder; 0x1A has a bad digit.
    (Width::W64, "7 2 - L0 Divide", "3@5 L0@4 Store@5 "),
    (
        Width::W64,
        "7 2 L0 L0 Divide",
        "7@1 2@2 L0@3 L0@4 Divide@5 ",
    ),
    (Width::W64, "26 L0 FromBcd", "26@1 L0@2 FromBcd@3 "),
    // A named target is a statement's alone.
    (Width::W64, "2 3 X Add", "5@4 X@3 Store@4 "),
    (
        Width::W64,
        "2 3 X Add Return",
        "2@1 3@2 X@3 Add@4 Return@5 ",
    ),
    (
        Width::W64,
        "2 3 L0 Add Return",
        "5@4 L0@3 Store@4 Return@5 ",
    ),
    // From the leaves up; a constant may be a statement.
    (
        Width::W64,
        "2 3 - Add 4 - Multiply Return",
        "20@7 Return@8 ",
    ),
    (Width::W32, "1 2 LNotEqual", "4294967295@3 "),
    (Width::W64, "1 2 LNotEqual", "18446744073709551615@3 "),
];

// The text of terms with their constants folded.
fn folded(alloc: Global, width: Width, text: &str) -> Result<String, AllocError> {
    let made = fold(alloc, width, terms(alloc, text)?)?;
    let mut seen = String::new(alloc);
    write(alloc, &mut seen, &made, Columns::OfAll)?;
    Ok(seen)
}

#[test]
fn folds_constants(rt: HostRuntime) -> Result<(), Fail> {
    let alloc = rt.alloc();
    for (width, text, want) in &FOLDS {
        assert_eq!(rt; folded(alloc, *width, text)?.as_str(), *want, "at {text}");
    }
    Ok(())
}
