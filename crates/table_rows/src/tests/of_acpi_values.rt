use acpi_values::fault::Fault;
use acpi_values::integer::apply;
use acpi_values::operator::IntOp;
use acpi_values::width::Width;

/// A table's revision, and the greatest Integer in it.
static REVISIONS: [(u8, u64); 4] = [
    (0, 4_294_967_295),
    (1, 4_294_967_295),
    (2, 18_446_744_073_709_551_615),
    (255, 18_446_744_073_709_551_615),
];

/// An operator, the width of Integers, two operands, and the result. The values are those of the ACPI Specification's texts on the
/// operators, worked out by hand.
static INTEGERS: [(IntOp, Width, u64, u64, Result<u64, Fault>); 9] = [
    (IntOp::Add, Width::W32, 0xFFFF_FFFF, 2, Ok(1)),
    (IntOp::Subtract, Width::W64, 1, 2, Ok(0xFFFF_FFFF_FFFF_FFFF)),
    (IntOp::ShiftRight, Width::W32, 0xFFFF_FFFF, 32, Ok(0)),
    (IntOp::Divide, Width::W64, 7, 0, Err(Fault::DivideByZero)),
    (IntOp::FindSetLeftBit, Width::W64, 0x50, 0, Ok(7)),
    (IntOp::FindSetRightBit, Width::W64, 0x50, 0, Ok(5)),
    (IntOp::FromBcd, Width::W64, 0x1234, 0, Ok(1234)),
    (IntOp::ToBcd, Width::W32, 1234, 0, Ok(0x1234)),
    (IntOp::LNot, Width::W32, 0, 0, Ok(0xFFFF_FFFF)),
];

#[test]
fn widths_and_integers(rt: HostRuntime) {
    for (revision, want) in &REVISIONS {
        let ones = Width::of_revision(*revision).ones();
        assert!(rt; ones == *want);
    }
    for (op, width, first, second, want) in &INTEGERS {
        let result = apply(*op, *width, *first, *second);
        assert!(rt; result == *want, "at {first}");
    }
}
