use super::words::path;
use acpi_values::width::Width;
use aml_code::checksum::checksum;
use aml_code::coded::{Coded, integer_bytes, pkg_length};
use aml_code::name::{name_bytes, name_len};
use std::alloc::{AllocError, Global};

/// How many bytes follow a PkgLength, and its own bytes: the first and the last content that a number of bytes can tell.
static LENGTHS: [(u32, &[u8]); 8] = [
    (0, b"\x01"),
    (62, b"\x3F"),
    (63, b"\x41\x04"),
    (4_093, b"\x4F\xFF"),
    (4_094, b"\x81\x00\x01"),
    (1_048_572, b"\x8F\xFF\xFF"),
    (1_048_573, b"\xC1\x00\x00\x01"),
    (268_435_451, b"\xCF\xFF\xFF\xFF"),
];

/// An Integer, the width of Integers, whether it may be short, and its bytes.
static NUMBERS: [(u64, Width, bool, &[u8]); 14] = [
    (0, Width::W64, true, b"\x00"),
    (1, Width::W64, true, b"\x01"),
    (0x12, Width::W64, true, b"\x0A\x12"),
    (0xFF, Width::W64, true, b"\x0A\xFF"),
    (0x1234, Width::W64, true, b"\x0B\x34\x12"),
    (0x1_0000, Width::W64, true, b"\x0C\x00\x00\x01\x00"),
    (0x1234_5678, Width::W64, true, b"\x0C\x78\x56\x34\x12"),
    (0xFFFF_FFFF, Width::W64, true, b"\x0C\xFF\xFF\xFF\xFF"),
    (
        0x1122_3344_5566_7788,
        Width::W64,
        true,
        b"\x0E\x88\x77\x66\x55\x44\x33\x22\x11",
    ),
    (0xFFFF_FFFF_FFFF_FFFF, Width::W64, true, b"\xFF"),
    (0, Width::W64, false, b"\x0A\x00"),
    (1, Width::W64, false, b"\x0A\x01"),
    (
        0xFFFF_FFFF_FFFF_FFFF,
        Width::W64,
        false,
        b"\x0E\xFF\xFF\xFF\xFF\xFF\xFF\xFF\xFF",
    ),
    (0xFFFF_FFFF, Width::W32, true, b"\xFF"),
];

/// Names of no segment, of one, of two and of more, and their bytes.
static NAMES: [(&str, &[u8]); 7] = [
    ("", b"\x00"),
    ("ABCD", b"ABCD"),
    ("\\ABCD", b"\\ABCD"),
    ("\\", b"\\\x00"),
    ("^^AB__", b"^^AB__"),
    ("ABCD.EFGH", b"\x2EABCDEFGH"),
    ("\\_SB_.PCI0.ISA_", b"\\\x2F\x03_SB_PCI0ISA_"),
];

/// Bytes, and their checksum.
static CHECKSUMS: [(&[u8], u8); 3] = [(b"", 0), (b"\x01\x02", 0xFD), (b"\xFF\xFF\x03", 0xFF)];

fn is(coded: &Coded, wanted: &[u8]) -> bool {
    let count = (coded.count as usize).min(9);
    &coded.bytes[..count] == wanted
}

fn is_length(content: u32, bytes: &[u8]) -> bool {
    match pkg_length(content) {
        Some(coded) => is(&coded, bytes),
        None => false,
    }
}

fn written(alloc: Global, name: &str) -> Result<Vec<u8>, AllocError> {
    let path = path(alloc, name)?;
    if path.segs.len() > 255 {
        return Ok(Vec::new(alloc));
    }
    let mut out = vec![in alloc; 0u8; name_len(&path)]?;
    name_bytes(&path, &mut out);
    Ok(out)
}

#[test]
fn lengths_and_integers(rt: HostRuntime) {
    for (content, bytes) in &LENGTHS {
        assert!(rt; is_length(*content, bytes));
    }
    assert!(rt; pkg_length(268_435_452).is_none());
    for (value, width, short, bytes) in &NUMBERS {
        assert!(rt; is(&integer_bytes(*value, *width, *short), bytes));
    }
}

#[test]
fn names_and_checksums(rt: HostRuntime) -> Result<(), AllocError> {
    for (name, bytes) in &NAMES {
        assert!(rt; written(rt.alloc(), name)?.as_slice() == *bytes);
    }
    for (bytes, want) in &CHECKSUMS {
        assert!(rt; checksum(bytes) == *want);
    }
    Ok(())
}
