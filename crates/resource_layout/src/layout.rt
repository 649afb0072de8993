//! The layout of a descriptor.
ghost use Rattle.std.specs.Prelude.{◌≡◌};
ghost use Rattle.std.specs.Option.{option_copied};
ghost use Rattle.resource_layout.specs.Layout as spec;
ghost use Rattle.resource_layout.specs.declared.descriptor.Head.TheVariants as head;

use crate::descriptor::{Body, Descriptor, Field, Head, Kind, Row};
use crate::rows::{
    DMA, DWORD_IO, DWORD_MEMORY, DWORD_SPACE, END_DEPENDENT_FN, EXTENDED_IO, EXTENDED_MEMORY,
    EXTENDED_SPACE, FIXED_DMA, FIXED_IO, GPIO_INT, GPIO_IO, I2C_SERIAL_BUS, INTERRUPT, IO, IRQ,
    IRQ_NO_FLAGS, MEMORY24, MEMORY32, MEMORY32_FIXED, QWORD_IO, QWORD_MEMORY, QWORD_SPACE,
    REGISTER, START_DEPENDENT_FN, START_DEPENDENT_FN_NO_PRI, VENDOR_LONG, VENDOR_SHORT,
    WORD_BUS_NUMBER, WORD_IO, WORD_SPACE,
};

#[tactic(auto, unfolding(crate::specs::Layout::kind_number))]
fn kind_number(kind: Kind) -> u8
    ensures { result ≡ spec.kind_number kind }
{
    kind as u8
}

/// Whether two kinds are the same.
pub fn is_kind(a: Kind, b: Kind) -> bool
    ensures { result ≡ spec.is_kind a b }
{
    kind_number(a) == kind_number(b)
}

// A small descriptor, of so many bytes.
fn small(descriptor: Descriptor, name: u64, bytes: u8, body: Body) -> Row
    ensures { result ≡ spec.row descriptor (head.Small name) bytes body }
{
    Row {
        descriptor,
        head: Head::Small(name),
        bytes,
        body,
    }
}

// A large descriptor, of so many bytes.
fn large(descriptor: Descriptor, tag: u64, bytes: u8, body: Body) -> Row
    ensures { result ≡ spec.row descriptor (head.Large tag) bytes body }
{
    Row {
        descriptor,
        head: Head::Large(tag),
        bytes,
        body,
    }
}

/// How a descriptor begins, and how long it is (ACPI Specification 6.4, 6.4.2 and 6.4.3).
#[tactic(auto, unfolding(crate::specs::Layout::row_of))]
pub fn row_of(descriptor: Descriptor) -> Row
    ensures { result ≡ spec.row_of descriptor }
{
    match descriptor {
        Descriptor::Irq => small(descriptor, 4, 4, Body::Bits(16)),
        Descriptor::IrqNoFlags => small(descriptor, 4, 3, Body::Bits(16)),
        Descriptor::Dma => small(descriptor, 5, 3, Body::Bits(8)),
        Descriptor::FixedDma => small(descriptor, 10, 6, Body::Nothing),
        Descriptor::StartDependentFn => small(descriptor, 6, 2, Body::Descriptors),
        Descriptor::StartDependentFnNoPri => small(descriptor, 6, 1, Body::Descriptors),
        Descriptor::EndDependentFn => small(descriptor, 7, 1, Body::Nothing),
        Descriptor::Io => small(descriptor, 8, 8, Body::Nothing),
        Descriptor::FixedIo => small(descriptor, 9, 4, Body::Nothing),
        Descriptor::VendorShort => small(
            descriptor,
            14,
            1,
            Body::Numbers {
                bits: 8,
                least: 1,
                most: 7,
            },
        ),
        Descriptor::VendorLong => large(
            descriptor,
            0x84,
            3,
            Body::Numbers {
                bits: 8,
                least: 0,
                most: 0xFFFF,
            },
        ),
        Descriptor::Memory24 => large(descriptor, 0x81, 12, Body::Nothing),
        Descriptor::Memory32 => large(descriptor, 0x85, 20, Body::Nothing),
        Descriptor::Memory32Fixed => large(descriptor, 0x86, 12, Body::Nothing),
        Descriptor::Register => large(descriptor, 0x82, 15, Body::Nothing),
        Descriptor::Interrupt => large(
            descriptor,
            0x89,
            5,
            Body::Numbers {
                bits: 32,
                least: 1,
                most: 0xFF,
            },
        ),
        Descriptor::WordIo => large(descriptor, 0x88, 16, Body::Nothing),
        Descriptor::DWordIo => large(descriptor, 0x87, 26, Body::Nothing),
        Descriptor::QWordIo => large(descriptor, 0x8A, 46, Body::Nothing),
        Descriptor::ExtendedIo => large(descriptor, 0x8B, 56, Body::Nothing),
        Descriptor::DWordMemory => large(descriptor, 0x87, 26, Body::Nothing),
        Descriptor::QWordMemory => large(descriptor, 0x8A, 46, Body::Nothing),
        Descriptor::ExtendedMemory => large(descriptor, 0x8B, 56, Body::Nothing),
        Descriptor::WordBusNumber => large(descriptor, 0x88, 16, Body::Nothing),
        Descriptor::WordSpace => large(descriptor, 0x88, 16, Body::Nothing),
        Descriptor::DWordSpace => large(descriptor, 0x87, 26, Body::Nothing),
        Descriptor::QWordSpace => large(descriptor, 0x8A, 46, Body::Nothing),
        Descriptor::ExtendedSpace => large(descriptor, 0x8B, 56, Body::Nothing),
        Descriptor::GpioInt => large(
            descriptor,
            0x8C,
            23,
            Body::Numbers {
                bits: 16,
                least: 1,
                most: 0xFF,
            },
        ),
        Descriptor::GpioIo => large(
            descriptor,
            0x8C,
            23,
            Body::Numbers {
                bits: 16,
                least: 1,
                most: 0xFF,
            },
        ),
        Descriptor::I2cSerialBus => large(descriptor, 0x8E, 18, Body::Nothing),
    }
}

/// The fields of a descriptor, those that arguments of its macro give first, in their order.
#[tactic(auto, unfolding(crate::specs::Layout::fields_of))]
pub fn fields_of(descriptor: Descriptor) -> &'static [Field]
    ensures { result.now ≡ spec.fields_of descriptor }
{
    match descriptor {
        Descriptor::Irq => IRQ,
        Descriptor::IrqNoFlags => IRQ_NO_FLAGS,
        Descriptor::Dma => DMA,
        Descriptor::FixedDma => FIXED_DMA,
        Descriptor::StartDependentFn => START_DEPENDENT_FN,
        Descriptor::StartDependentFnNoPri => START_DEPENDENT_FN_NO_PRI,
        Descriptor::EndDependentFn => END_DEPENDENT_FN,
        Descriptor::Io => IO,
        Descriptor::FixedIo => FIXED_IO,
        Descriptor::VendorShort => VENDOR_SHORT,
        Descriptor::VendorLong => VENDOR_LONG,
        Descriptor::Memory24 => MEMORY24,
        Descriptor::Memory32 => MEMORY32,
        Descriptor::Memory32Fixed => MEMORY32_FIXED,
        Descriptor::Register => REGISTER,
        Descriptor::Interrupt => INTERRUPT,
        Descriptor::WordIo => WORD_IO,
        Descriptor::DWordIo => DWORD_IO,
        Descriptor::QWordIo => QWORD_IO,
        Descriptor::ExtendedIo => EXTENDED_IO,
        Descriptor::DWordMemory => DWORD_MEMORY,
        Descriptor::QWordMemory => QWORD_MEMORY,
        Descriptor::ExtendedMemory => EXTENDED_MEMORY,
        Descriptor::WordBusNumber => WORD_BUS_NUMBER,
        Descriptor::WordSpace => WORD_SPACE,
        Descriptor::DWordSpace => DWORD_SPACE,
        Descriptor::QWordSpace => QWORD_SPACE,
        Descriptor::ExtendedSpace => EXTENDED_SPACE,
        Descriptor::GpioInt => GPIO_INT,
        Descriptor::GpioIo => GPIO_IO,
        Descriptor::I2cSerialBus => I2C_SERIAL_BUS,
    }
}

// Whether a field has this name.
fn has_name(field: &Field, name: &[u8]) -> bool
    ensures { result ≡ spec.has_name name.now field.now }
{
    name != b"    ".as_slice() && field.name.as_slice() == name
}

fn named_field(descriptor: Descriptor, name: [u8; 4]) -> Option<&'static Field>
    ensures { option_copied result ≡ spec.named_field descriptor name }
{
    fields_of(descriptor)
        .iter()
        .find(|field| has_name(field, &name))
}

/// Where a field of a descriptor has its lowest bit, and how many bits it has.
pub fn descriptor_field(descriptor: Descriptor, name: [u8; 4]) -> Option<(u32, u32)>
    ensures { result ≡ spec.place_of (spec.named_field descriptor name) }
{
    match named_field(descriptor, name) {
        Some(field) => Some((field.at, field.bits)),
        None => None,
    }
}
