use asl_tree::path::{Path, Segs};
use iasl_messages::message::Stage;
use iasl_messages::place::Place;
use iasl_ports::list::Text;
use resource_layout::descriptor::{Descriptor, Kind, Word};
use resource_macros::identifiers::{eisaid, utf16, uuid};
use resource_macros::node::{Node, Term};
use resource_macros::output::Template;
use resource_macros::template::template;
use std::alloc::{AllocError, Global};
use std::test::Fail;

// A text, and the number of the identifier that it is.
static EISA_IDENTIFIERS: [(&[u8], Option<u32>); 10] = [
    (b"PNP0C09", Some(0x090C_D041)),
    (b"PNP0A08", Some(0x080A_D041)),
    (b"ACPIabc", None),
    (b"AAA0000", Some(0x0000_2104)),
    (b"ZZZffFF", Some(0xFFFF_5A6B)),
    (b"PnP0C09", None),
    (b"PNP0C0G", None),
    (b"PNP0C0", None),
    (b"PNP0C099", None),
    (b"", None),
];

#[test]
fn eisa_identifiers_are_numbers(rt: HostRuntime) {
    for (text, number) in &EISA_IDENTIFIERS {
        assert!(rt; eisaid(text) == *number);
    }
}

// A text of the one UUID.
static UUIDS: [&[u8]; 2] = [
    b"e5c937d0-3553-4d7a-9117-ea4d19c3434d",
    b"E5C937D0-3553-4D7A-9117-EA4D19C3434D",
];

// A text that is no UUID.
static NO_UUIDS: [&[u8]; 6] = [
    b"e5c937d0-3553-4d7a-9117-ea4d19c3434",
    b"e5c937d0-3553-4d7a-9117-ea4d19c3434dd",
    b"e5c937d0 3553-4d7a-9117-ea4d19c3434d",
    b"e5c937d-03553-4d7a-9117-ea4d19c3434d",
    b"g5c937d0-3553-4d7a-9117-ea4d19c3434d",
    b"{5c937d0-3553-4d7a-9117-ea4d19c3434d",
];

// The bytes of the UUID: those of its first three parts backwards, and then the others.
static UUID: [u8; 16] = [
    0xD0, 0x37, 0xC9, 0xE5, 0x53, 0x35, 0x7A, 0x4D, 0x91, 0x17, 0xEA, 0x4D, 0x19, 0xC3, 0x43, 0x4D,
];

#[test]
fn uuids_are_bytes(rt: HostRuntime) {
    for text in &UUIDS {
        assert!(rt; uuid(text) == Some(UUID));
    }
    for text in &NO_UUIDS {
        assert!(rt; uuid(text).is_none());
    }
}

#[test]
fn texts_have_characters_of_16_bits(rt: HostRuntime) -> Result<(), AllocError> {
    assert!(rt; utf16(rt.alloc(), b"AB")?.as_bytes() == b"A\0B\0\0\0".as_slice());
    assert!(rt; utf16(rt.alloc(), b"")?.as_bytes() == b"\0\0".as_slice());
    Ok(())
}

// An argument, or a member of a list.
#[derive(Clone, Copy)]
pub enum Given {
    Number(u64),
    Word(Kind, u64),
    Letter(u8),
    Source(&'static str),
    Name([u8; 4]),
    LeftOut,
}

use Given::{LeftOut, Letter, Name, Number};

fn name(alloc: Global, segment: [u8; 4]) -> Result<Term, AllocError> {
    let segs = Segs::one(segment);
    Ok(Term::Name(Path {
        root: false,
        up: 0,
        segs,
    }))
}

fn term(alloc: Global, given: Given) -> Result<Term, AllocError> {
    match given {
        Given::Number(number) => Ok(Term::Integer(number)),
        Given::Word(kind, number) => Ok(Term::Word(Word { kind, number })),
        Given::Letter(letter) => Ok(Term::Text(Text::from_bytes(alloc, &[letter])?)),
        Given::Source(source) => Ok(Term::Text(Text::from_bytes(alloc, source.as_bytes())?)),
        Given::Name(segment) => name(alloc, segment),
        Given::LeftOut => Ok(Term::Omitted),
    }
}

pub fn place(line: u32, column: u32) -> Place {
    Place {
        file: 0,
        line,
        column,
    }
}

// Nodes of one line, each in a column of its own.
fn nodes(alloc: Global, line: u32, given: &[Given]) -> Result<Vec<Node>, AllocError> {
    let mut nodes = Vec::new(alloc);
    let mut column: u32 = 1;
    for one in given {
        nodes.push(Node {
            place: place(line, column),
            term: term(alloc, *one)?,
        })?;
        column = column.wrapping_add(1);
    }
    Ok(nodes)
}

// A descriptor at line 1, its arguments in line 2, its list in line 3.
pub fn resource(
    alloc: Global,
    descriptor: Descriptor,
    args: &[Given],
    members: &[Given],
) -> Result<Node, AllocError> {
    Ok(Node {
        place: place(1, 1),
        term: Term::Resource {
            descriptor,
            args: nodes(alloc, 2, args)?,
            body: nodes(alloc, 3, members)?,
        },
    })
}

const IO_PORT: [Given; 5] = [
    Given::Word(Kind::IoDecode, 1),
    Number(0x62),
    Number(0x62),
    Number(0),
    Number(1),
];

const MEMORY: [Given; 16] = [
    Given::Word(Kind::Usage, 0),
    Given::Word(Kind::Decode, 0),
    Given::Word(Kind::MinimumFixed, 1),
    Given::Word(Kind::MaximumFixed, 1),
    Given::Word(Kind::Caching, 1),
    Given::Word(Kind::Access, 1),
    Number(0),
    Number(0x1_0000_0000),
    Number(0x1_FFFF_FFFF),
    Number(0),
    Number(0x1_0000_0000),
    LeftOut,
    LeftOut,
    Name(*b"RNG0"),
    Given::Word(Kind::Range, 0),
    Given::Word(Kind::Translation, 0),
];

// A descriptor, its arguments, its list, and its bytes of the ACPI Specification 6.4, 6.4.2 and 6.4.3, without the end tag.
static DESCRIPTORS: [(Descriptor, &[Given], &[Given], &[u8]); 7] = [
    (
        Descriptor::Irq,
        &[
            Given::Word(Kind::Mode, 1),
            Given::Word(Kind::Level, 0),
            Given::Word(Kind::Sharing, 0),
        ],
        &[Number(3)],
        b"\x23\x08\x00\x01",
    ),
    (
        Descriptor::Io,
        &IO_PORT,
        &[],
        b"\x47\x01\x62\x00\x62\x00\x00\x01",
    ),
    (
        Descriptor::QWordMemory,
        &MEMORY,
        &[],
        b"\x8A\x2B\x00\x00\x0C\x03\0\0\0\0\0\0\0\0\0\0\0\0\x01\0\0\0\xFF\xFF\xFF\xFF\x01\0\0\0\0\0\0\0\0\0\0\0\0\0\0\0\x01\0\0\0",
    ),
    (
        Descriptor::Interrupt,
        &[
            LeftOut,
            Given::Word(Kind::Mode, 0),
            Given::Word(Kind::Level, 1),
        ],
        &[Number(9), Number(0x1234_5678)],
        b"\x89\x0A\x00\x05\x02\x09\0\0\0\x78\x56\x34\x12",
    ),
    (
        Descriptor::WordBusNumber,
        &[
            Given::Word(Kind::Usage, 0),
            Given::Word(Kind::MinimumFixed, 1),
            Given::Word(Kind::MaximumFixed, 1),
            LeftOut,
            Number(0),
            Number(0),
            Number(0xFF),
            Number(0),
            Number(0x100),
            Number(5),
            Letter(b'A'),
        ],
        &[],
        b"\x88\x10\x00\x02\x0C\x00\0\0\0\0\xFF\0\0\0\0\x01\x05A\0",
    ),
    (
        Descriptor::VendorShort,
        &[],
        &[Number(1), Number(2)],
        b"\x72\x01\x02",
    ),
    (
        Descriptor::StartDependentFn,
        &[Number(1), Number(2)],
        &[],
        b"\x31\x09",
    ),
];

// Whether the template of a descriptor has these bytes before the end tag.
fn has_bytes(
    alloc: Global,
    descriptor: Descriptor,
    args: &[Given],
    members: &[Given],
    bytes: &[u8],
) -> Result<bool, AllocError> {
    let mut list = Vec::new(alloc);
    list.push(resource(alloc, descriptor, args, members)?)?;
    match template(alloc, &list) {
        Ok(made) => {
            let ended = [bytes, b"\x79\0".as_slice()].concat(alloc)?;
            Ok(made.bytes.as_bytes() == ended.as_slice())
        }
        Err(_) => Ok(false),
    }
}

#[test]
fn descriptors_are_bytes(rt: HostRuntime) -> Result<(), Fail> {
    for (descriptor, args, members, bytes) in &DESCRIPTORS {
        assert!(rt; has_bytes(rt.alloc(), *descriptor, args, members, bytes)?);
    }
    Ok(())
}

// Whether the first of the faults is this one.
pub fn begins_with(made: &Result<Template, Stage>, number: u16, at: Place) -> bool {
    match made {
        Err(Stage::Refused(faults)) => match faults.get(0) {
            Some(fault) => fault.number == number && fault.place == at,
            None => false,
        },
        _ => false,
    }
}

const FLAGS: [Given; 2] = [Given::Word(Kind::Mode, 1), Given::Word(Kind::Level, 0)];

// A descriptor, its arguments, its list, and its first fault: the number, and the line and the column of its place.
static FAULTS: [(Descriptor, &[Given], &[Given], u16, u32, u32); 8] = [
    (Descriptor::Irq, &FLAGS, &[Number(16)], 6024, 3, 1),
    (Descriptor::Irq, &FLAGS, &[Letter(b'A')], 6022, 3, 1),
    (Descriptor::Interrupt, &FLAGS, &[Number(1)], 6022, 2, 1),
    (Descriptor::VendorShort, &[], &[], 6024, 1, 1),
    (Descriptor::VendorShort, &[], &[Number(0); 8], 6024, 1, 1),
    (
        Descriptor::StartDependentFn,
        &[Number(1), Number(3)],
        &[],
        6024,
        2,
        2,
    ),
    (
        Descriptor::FixedIo,
        &[Number(0x1_0000), Number(1)],
        &[],
        6024,
        2,
        1,
    ),
    (
        Descriptor::FixedIo,
        &[Number(0), Number(1), Number(2)],
        &[],
        6022,
        2,
        3,
    ),
];

// Whether the first fault of a descriptor is this one.
fn has_fault(
    alloc: Global,
    descriptor: Descriptor,
    args: &[Given],
    members: &[Given],
    number: u16,
    at: Place,
) -> Result<bool, AllocError> {
    let mut list = Vec::new(alloc);
    list.push(resource(alloc, descriptor, args, members)?)?;
    let made = template(alloc, &list);
    Ok(begins_with(&made, number, at))
}

#[test]
fn arguments_and_lists_have_faults(rt: HostRuntime) -> Result<(), Fail> {
    for (descriptor, args, members, number, line, column) in &FAULTS {
        let at = place(*line, *column);
        assert!(rt; has_fault(rt.alloc(), *descriptor, args, members, *number, at)?);
    }
    Ok(())
}

// The list of a StartDependentFn stands behind it, and fields count from the template's front.
#[test]
fn templates_tell_their_fields(rt: HostRuntime) -> Result<(), Fail> {
    let mut inner = Vec::new(rt.alloc());
    inner.push(resource(rt.alloc(), Descriptor::QWordMemory, &MEMORY, &[])?)?;
    let mut list = Vec::new(rt.alloc());
    list.push(Node {
        place: place(1, 1),
        term: Term::Resource {
            descriptor: Descriptor::StartDependentFnNoPri,
            args: Vec::new(rt.alloc()),
            body: inner,
        },
    })?;
    list.push(resource(rt.alloc(), Descriptor::EndDependentFn, &[], &[])?)?;
    match template(rt.alloc(), &list) {
        Ok(made) => {
            assert!(rt; made.bytes.as_bytes().len() == 50);
            match made.fields.get(6) {
                Some(minimum) => {
                    assert!(rt; minimum.descriptor == 0x3047_4E52 && minimum.field == 0x4E49_4D5F);
                    assert!(rt; minimum.bit == 120 && minimum.bits == 64);
                }
                None => assert!(rt; false),
            }
        }
        Err(_) => assert!(rt; false),
    }
    Ok(())
}
