use super::of_resource_macros::{Given, begins_with, place, resource};
use Given::{LeftOut, Name, Number, Source};
use resource_layout::descriptor::{Descriptor, Kind};
use resource_serial::serial_template;
use std::alloc::{AllocError, Global};
use std::test::Fail;

const EDGE: Given = Given::Word(Kind::Mode, 1);

const LOW: Given = Given::Word(Kind::Level, 1);

const BOTH: Given = Given::Word(Kind::Level, 2);

const UP: Given = Given::Word(Kind::Pull, 1);

const CONTROLLER: Given = Given::Word(Kind::Initiator, 0);

const SEVEN_BITS: Given = Given::Word(Kind::Addressing, 0);

const EXCLUSIVE: Given = Given::Word(Kind::Sharing, 0);

const INPUT_ONLY: Given = Given::Word(Kind::IoRestriction, 1);

// An interrupt at a pin.
const PIN: [Given; 6] = [EDGE, LOW, EXCLUSIVE, UP, Number(0), Source("\\_SB.GPO0")];

// Each argument of pins that are read or written.
const PINS: [Given; 9] = [
    Given::Word(Kind::Sharing, 3),
    Number(0x80),
    Number(0x1234),
    Number(0x5678),
    INPUT_ONLY,
    Source("AB"),
    Number(7),
    Given::Word(Kind::Usage, 0),
    Name(*b"PIN0"),
];

// A device at an address of a bus.
const DEVICE: [Given; 5] = [
    Number(0x50),
    CONTROLLER,
    Number(400_000),
    SEVEN_BITS,
    Source("\\_SB.I2C0"),
];

// A descriptor, its arguments, its list, and its bytes with the end tag.
static DESCRIPTORS: [(Descriptor, &[Given], &[Given], &[u8]); 3] = [
    (
        Descriptor::GpioInt,
        &PIN,
        &[Number(5)],
        b"\x8C\x20\x00\x01\x00\x01\x00\x03\x00\x01\x00\x00\x00\x00\x17\x00\x00\x19\x00\x23\x00\x00\x00\x05\x00\x5C\x5F\x53\x42\x2E\x47\x50\
            \x4F\x30\x00\x79\x00",
    ),
    (
        Descriptor::GpioIo,
        &PINS,
        &[Number(1), Number(0x1FF)],
        b"\x8C\x1B\x00\x01\x01\x00\x00\x19\x00\x80\x78\x56\x34\x12\x17\x00\x07\x1B\x00\x1E\x00\x00\x00\x01\x00\xFF\x01AB\x00\x79\x00",
    ),
    (
        Descriptor::I2cSerialBus,
        &DEVICE,
        &[],
        b"\x8E\x19\x00\x02\x00\x01\x02\x00\x00\x01\x06\x00\x80\x1A\x06\x00\x50\x00\x5C\x5F\x53\x42\x2E\x49\x32\x43\x30\x00\x79\x00",
    ),
];

#[test]
fn descriptors_of_pins_and_buses_are_bytes(rt: HostRuntime) -> Result<(), Fail> {
    for (descriptor, args, members, bytes) in &DESCRIPTORS {
        let mut list = Vec::new(rt.alloc());
        list.push(resource(rt.alloc(), *descriptor, args, members)?)?;
        match serial_template(rt.alloc(), &list) {
            Ok(made) => assert!(rt; made.bytes.as_bytes() == *bytes),
            Err(_) => assert!(rt; false),
        }
    }
    Ok(())
}

// The fields of a descriptor with a name count from the template's front: the name of each as a number, its lowest bit and its bits.
static FIELDS: [(u32, u64, u32); 5] = [
    (0x5248_535F, 59, 2),
    (0x4950_505F, 72, 8),
    (0x5442_445F, 96, 16),
    (0x5352_445F, 80, 16),
    (0x524F_495F, 56, 2),
];

#[test]
fn the_fields_of_pins_have_names(rt: HostRuntime) -> Result<(), Fail> {
    let mut list = Vec::new(rt.alloc());
    list.push(resource(rt.alloc(), Descriptor::GpioIo, &PINS, &[Number(1)])?)?;
    match serial_template(rt.alloc(), &list) {
        Ok(made) => {
            assert!(rt; made.fields.len() == 5);
            for (seen, (field, bit, bits)) in made.fields.as_slice().iter().zip(&FIELDS) {
                assert!(rt; seen.descriptor == 0x304E_4950);
                assert!(rt; seen.field == *field && seen.bit == *bit && seen.bits == *bits);
            }
        }
        Err(_) => assert!(rt; false),
    }
    Ok(())
}

// A descriptor, its arguments, its list, and its first fault: the number, and the line and the column of its place.
static FAULTS: [(Descriptor, &[Given], &[Given], u16, u32, u32); 8] = [
    (Descriptor::GpioInt, &PIN, &[], 6024, 1, 1),
    (Descriptor::GpioInt, &PIN, &[Number(0x1_0000)], 6024, 3, 1),
    (
        Descriptor::GpioInt,
        &[LOW, LOW, EXCLUSIVE, UP, Number(0), Source("S")],
        &[Number(1)],
        6022,
        2,
        1,
    ),
    // The tenth argument stands empty.
    (
        Descriptor::GpioInt,
        &[
            EDGE,
            BOTH,
            LeftOut,
            Number(0xFF),
            LeftOut,
            Source("S"),
            LeftOut,
            LeftOut,
            LeftOut,
            Number(0),
        ],
        &[Number(1)],
        6022,
        2,
        10,
    ),
    (
        Descriptor::GpioIo,
        &[
            LeftOut,
            Number(0x100),
            LeftOut,
            LeftOut,
            LeftOut,
            Source("S"),
        ],
        &[Number(1)],
        6024,
        2,
        2,
    ),
    // The third word of a level is none of an interrupt.
    (Descriptor::Irq, &[EDGE, BOTH], &[], 6022, 2, 2),
    (
        Descriptor::I2cSerialBus,
        &[
            Number(0x50),
            CONTROLLER,
            Number(0x1_0000_0000),
            SEVEN_BITS,
            Source("S"),
        ],
        &[],
        6024,
        2,
        3,
    ),
    (
        Descriptor::I2cSerialBus,
        &[
            Number(0x50),
            CONTROLLER,
            Number(1),
            SEVEN_BITS,
            Source("S"),
            LeftOut,
            LeftOut,
            LeftOut,
            Given::Word(Kind::Sharing, 2),
        ],
        &[],
        6022,
        2,
        9,
    ),
];

#[test]
fn descriptors_of_pins_and_buses_have_faults(rt: HostRuntime) -> Result<(), Fail> {
    for (descriptor, args, members, number, line, column) in &FAULTS {
        let mut list = Vec::new(rt.alloc());
        list.push(resource(rt.alloc(), *descriptor, args, members)?)?;
        let made = serial_template(rt.alloc(), &list);
        assert!(rt; begins_with(&made, *number, place(*line, *column)));
    }
    Ok(())
}

// Whether an interrupt at so many pins has a template of so many bytes; none for 0.
fn has_length(alloc: Global, pins: usize, bytes: usize) -> Result<bool, AllocError> {
    let mut members = Vec::new(alloc);
    for pin in 0..pins {
        members.push(Number(0xFFFF))?;
    }
    let mut list = Vec::new(alloc);
    list.push(resource(alloc, Descriptor::GpioInt, &PIN, &members)?)?;
    let made = serial_template(alloc, &list);
    match &made {
        Ok(template) => Ok(template.bytes.as_bytes().len() == bytes),
        Err(_) => Ok(bytes == 0 && begins_with(&made, 6024, place(1, 1))),
    }
}

#[test]
fn a_descriptor_has_1_to_255_pins(rt: HostRuntime) -> Result<(), Fail> {
    assert!(rt; has_length(rt.alloc(), 0, 0)?);
    assert!(rt; has_length(rt.alloc(), 1, 37)?);
    assert!(rt; has_length(rt.alloc(), 255, 545)?);
    assert!(rt; has_length(rt.alloc(), 256, 0)?);
    Ok(())
}
