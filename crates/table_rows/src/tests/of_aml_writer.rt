use super::words::terms_at_one_place;
use aml_writer::write::write;
use asl_tree::program::{Block, Blocks, Core, Program};
use iasl_messages::place::{LineList, Lines, Pieces, Place};
use iasl_ports::list::{Text, Texts};
use std::alloc::{AllocError, Global};
use std::test::Fail;

/// The head of a block.
#[derive(Drop)]
pub(super) struct Head {
    signature: &'static [u8],
    revision: u8,
    oem_id: &'static [u8],
    table_id: &'static [u8],
    oem_revision: u32,
}

const FIRST: Head = Head {
    signature: b"SSDT",
    revision: 2,
    oem_id: b"RATTLE",
    table_id: b"FIRST   ",
    oem_revision: 1,
};

const SHORT: Head = Head {
    signature: b"DSDT",
    revision: 1,
    oem_id: b"AB",
    table_id: b"C",
    oem_revision: 0x1234_5678,
};

/// The head of a block whose table is asked for its content alone.
pub(super) const FORMS: Head = Head {
    signature: b"SSDT",
    revision: 2,
    oem_id: b"RATTLE",
    table_id: b"FORMS   ",
    oem_revision: 1,
};

/// OperationRegion (REGA, 0, 0x10, 4), Field (REGA, ByteAcc, NoLock, WriteAsOnes) { UNTA, 4, , 4, Offset (2), UNTB, 8 },
/// Name (BUFF, Buffer () { 1, 2, 3 }), Name (PKGE, Package () { 1, "A" }),
/// Method (MTHD, 2) { Store (LNotEqual (Local0, Arg1), Debug) ToString (Local1, , ) }, External (EXTN, MethodObj)
pub(super) const ALL_FORMS: &str =
    "REGA 0 16 4 OperationRegion REGA 33 { +UNTA.4 *4 @2 +UNTB.8 } Field \
    BUFF - { 1 2 3 } Buffer Name PKGE - { 1 'A' } Package Name \
    MTHD 2 { L0 A1 LNotEqual Debug Store L1 - - ToString } Method EXTN 8 External";

/// Field (REGA, BufferAcc) { Connection (CON0), AccessAs (BufferAcc, AttribByte), UNTA, 8, , 4, Offset (4), Connection
/// (a resource of two bytes), AccessAs (BufferAcc, AttribBytes (9)), UNTB, 16 }
pub(super) const CONNECTED: &str = "REGA 5 { CON0 /6 +UNTA.8 *4 @4 [ /11.9 +UNTB.16 } Field";

/// Method (MAIN, 0) { If (Local0) { 1 } ElseIf (Local1) { 1 1 } Else { 1 } }: the ElseIf has one piece, of an Else and of the If that
/// begins it.
pub(super) const ELSE_IFS: &str = "MAIN 0 { L0 { 1 } If L1 { 1 1 } ElseIf { 1 } Else } Method";

/// A core of one block with the terms of a text.
pub(super) fn core(alloc: Global, head: &Head, text: &str) -> Result<Core, AllocError> {
    let mut blocks = Blocks::new(alloc);
    blocks.push(Block {
        place: Place {
            file: 0,
            line: 1,
            column: 1,
        },
        file: Text::new(alloc),
        signature: Text::from_bytes(alloc, head.signature)?,
        revision: head.revision,
        oem_id: Text::from_bytes(alloc, head.oem_id)?,
        table_id: Text::from_bytes(alloc, head.table_id)?,
        oem_revision: head.oem_revision,
        terms: terms_at_one_place(alloc, text)?,
    })?;
    Ok(Core {
        program: Program { blocks },
    })
}

pub(super) fn no_lines(alloc: Global) -> Lines {
    Lines {
        files: Texts::new(alloc),
        list: LineList::new(alloc),
    }
}

// The pieces of the table of a block, or none where it has no table.
fn pieces(alloc: Global, head: &Head, text: &str) -> Result<Pieces, AllocError> {
    let core = core(alloc, head, text)?;
    if core.program.blocks.is_empty() {
        return Ok(Pieces::new(alloc));
    }
    match write(alloc, &core, &no_lines(alloc), 0, true) {
        Ok(pieces) => Ok(pieces),
        Err(_) => Ok(Pieces::new(alloc)),
    }
}

fn joined(alloc: Global, pieces: &Pieces) -> Result<Vec<u8>, AllocError> {
    let mut bytes = Vec::new(alloc);
    for piece in pieces.as_slice() {
        bytes.extend_from_slice(piece.bytes.as_bytes())?;
    }
    Ok(bytes)
}

/// A block's head and its terms, how many pieces its table has, and from which byte on it has these bytes.
static TABLES: [(Head, &str, usize, usize, &[u8]); 6] = [
    (
        FIRST,
        "ABCD 18 Name",
        2,
        0,
        b"SSDT\x2B\x00\x00\x00\x02\x34RATTLEFIRST   \x01\x00\x00\x00INTL\x05\x01\x21\x20\x08ABCD\x0A\x12",
    ),
    (
        SHORT,
        "ABCD 18 Name",
        2,
        0,
        b"DSDT\x2B\x00\x00\x00\x01\x1FAB\x00\x00\x00\x00C\x00\x00\x00\x00\x00\x00\x00\x78\x56\x34\x12INTL\x05\x01\x21\x20\
            \x08ABCD\x0A\x12",
    ),
    (
        FIRST,
        "ABCD 18 Name MAIN 3 { 1 Return } Method",
        4,
        0,
        b"SSDT\x34\x00\x00\x00\x02\x42RATTLEFIRST   \x01\x00\x00\x00INTL\x05\x01\x21\x20\x08ABCD\x0A\x12\x14\x08MAIN\x03\xA4\x01",
    ),
    (
        FORMS,
        ALL_FORMS,
        9,
        36,
        b"\x5B\x80REGA\x00\x0A\x10\x0A\x04\x5B\x81\x14REGA\x21UNTA\x04\x00\x04\x00\x08UNTB\x08\x08BUFF\x11\x06\x0A\x03\x01\
            \x02\x03\x08PKGE\x12\x06\x02\x01\x0DA\x00\x14\x11MTHD\x02\x70\x92\x93\x60\x69\x5B\x31\x9C\x61\xFF\x00\x15EXTN\
            \x08\x00",
    ),
    (
        FORMS,
        CONNECTED,
        2,
        36,
        b"\x5B\x81\x27REGA\x05\x02CON0\x01\x05\x06UNTA\x08\x00\x04\x00\x14\x02\x11\x05\x0A\x02\x79\x00\x03\x05\x0B\x09UNTB\
            \x10",
    ),
    (
        FORMS,
        ELSE_IFS,
        9,
        36,
        b"\x14\x14MAIN\x00\xA0\x03\x60\x01\xA1\x09\xA0\x04\x61\x01\x01\xA1\x02\x01",
    ),
];

// Whether the table of a block has so many pieces, and these bytes from a byte on.
fn has_bytes(
    alloc: Global,
    head: &Head,
    text: &str,
    count: usize,
    start: usize,
    bytes: &[u8],
) -> Result<bool, AllocError> {
    let pieces = pieces(alloc, head, text)?;
    let table = joined(alloc, &pieces)?;
    Ok(pieces.len() == count && table.get(start..) == Some(bytes))
}

/// How many terms of one byte a method has, and how it begins: its name and its flags are 5 bytes more.
static LENGTHS: [(usize, &[u8]); 2] = [
    (4088, b"\x14\x4F\xFFMAIN\x00"),
    (4089, b"\x14\x81\x00\x01MAIN\x00"),
];

// Whether a piece of a block's table has these bytes.
fn has_piece(alloc: Global, text: &str, place: usize, bytes: &[u8]) -> Result<bool, AllocError> {
    let pieces = pieces(alloc, &FORMS, text)?;
    Ok(
        pieces
            .get(place)
            .is_some_and(|piece| piece.bytes.as_bytes() == bytes),
    )
}

// Method (MAIN, 0) { 1 1 1 .. }, so many
fn long_method(alloc: Global, count: usize) -> Result<String, AllocError> {
    let ones = "1 ".repeat(alloc, count)?;
    Ok(format!(in alloc; "MAIN 0 {{ {ones}}} Method")?)
}

#[test]
fn tables_have_these_bytes(rt: HostRuntime) -> Result<(), Fail> {
    let alloc = rt.alloc();
    for (head, text, count, start, bytes) in &TABLES {
        assert!(rt;
            has_bytes(alloc, head, text, *count, *start, bytes)?,
            "at {text}"
        );
    }
    assert!(rt; has_piece(alloc, ELSE_IFS, 4, b"\xA1\x09\xA0\x04\x61")?);
    for (count, bytes) in &LENGTHS {
        let text = long_method(alloc, *count)?;
        assert!(rt; has_piece(alloc, text.as_str(), 1, bytes)?, "at {count}");
    }
    Ok(())
}
