use resource_layout::descriptor::Descriptor;
use resource_layout::layout::{descriptor_field, fields_of, row_of};

// A descriptor, the name of a field, and the field's place and its size of the ACPI Specification 6.4, 6.4.2 and 6.4.3, counted
// in bits.
static PLACES: [(Descriptor, &[u8; 4], Option<(u32, u32)>); 10] = [
    (Descriptor::QWordMemory, b"_MIN", Some((112, 64))),
    (Descriptor::ExtendedMemory, b"_ATT", Some((384, 64))),
    (Descriptor::Irq, b"_INT", Some((8, 16))),
    (Descriptor::Irq, b"_LL_", Some((27, 1))),
    (Descriptor::Interrupt, b"_INT", Some((40, 32))),
    (Descriptor::WordIo, b"_TRS", Some((45, 1))),
    (Descriptor::Register, b"_ADR", Some((56, 64))),
    (Descriptor::Irq, b"_MIN", None),
    (Descriptor::WordSpace, b"    ", None),
    (Descriptor::EndDependentFn, b"_INT", None),
];

#[test]
fn fields_have_their_places(rt: HostRuntime) {
    for (descriptor, name, place) in &PLACES {
        assert!(rt; descriptor_field(*descriptor, **name) == *place);
    }
}

// A descriptor, its bytes, and how many fields its macro of the ACPI Specification 6.4, 19.6, gives.
static SIZES: [(Descriptor, u8, usize); 8] = [
    (Descriptor::EndDependentFn, 1, 0),
    (Descriptor::Io, 8, 6),
    (Descriptor::Memory24, 12, 6),
    (Descriptor::Register, 15, 6),
    // Of these fields one is no argument: the type.
    (Descriptor::QWordIo, 46, 16),
    (Descriptor::DWordMemory, 26, 17),
    (Descriptor::WordBusNumber, 16, 13),
    (Descriptor::QWordSpace, 46, 14),
];

#[test]
fn macros_have_their_arguments(rt: HostRuntime) {
    for (descriptor, bytes, fields) in &SIZES {
        assert!(rt; row_of(*descriptor).bytes == *bytes);
        assert!(rt; fields_of(*descriptor).len() == *fields);
    }
}
