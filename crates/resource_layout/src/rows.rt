//! The fields of each descriptor, and the arguments of its macro. A field's place is a byte and a bit in it.
use crate::descriptor::{Field, Giver, Kind};

macro_rules! field {
    ($argument:expr, $name:expr, $byte:expr, $bit:expr, $bits:expr, $giver:expr, $default:expr) => {
        Field {
            argument: $argument,
            name: *$name,
            at: 8 * $byte + $bit,
            bits: $bits,
            giver: $giver,
            default: $default,
        }
    };
}

macro_rules! number {
    ($argument:expr, $name:expr, $byte:expr, $bits:expr) => {
        field!($argument, $name, $byte, 0, $bits, Giver::Number, None)
    };
}

macro_rules! number_or {
    ($argument:expr, $name:expr, $byte:expr, $bits:expr, $default:expr) => {
        field!($argument, $name, $byte, 0, $bits, Giver::Number, Some($default))
    };
}

macro_rules! between {
    ($argument:expr, $byte:expr, $bit:expr, $bits:expr, $first:expr, $last:expr) => {
        field!($argument, b"    ", $byte, $bit, $bits, Giver::Between($first, $last), None)
    };
}

macro_rules! word {
    ($argument:expr, $name:expr, $byte:expr, $bit:expr, $bits:expr, $kind:ident) => {
        field!($argument, $name, $byte, $bit, $bits, Giver::Word(Kind::$kind), None)
    };
}

macro_rules! word_or {
    ($argument:expr, $name:expr, $byte:expr, $bit:expr, $bits:expr, $kind:ident, $default:expr) => {
        field!($argument, $name, $byte, $bit, $bits, Giver::Word(Kind::$kind), Some($default))
    };
}

macro_rules! word_below {
    ($argument:expr, $name:expr, $byte:expr, $bit:expr, $bits:expr, $kind:ident, $limit:expr, $default:expr) => {
        field!(
            $argument,
            $name,
            $byte,
            $bit,
            $bits,
            Giver::WordBelow(Kind::$kind, $limit),
            $default
        )
    };
}

macro_rules! text {
    ($argument:expr) => {
        field!($argument, b"    ", 0, 0, 0, Giver::Text, None)
    };
}

macro_rules! vacant {
    ($argument:expr) => {
        field!($argument, b"    ", 0, 0, 0, Giver::Vacant, Some(0))
    };
}

macro_rules! name {
    ($argument:expr) => {
        field!($argument, b"    ", 0, 0, 0, Giver::Name, Some(0))
    };
}

macro_rules! index {
    ($argument:expr) => {
        field!($argument, b"    ", 0, 0, 0, Giver::Index, Some(0))
    };
}

macro_rules! source {
    ($argument:expr) => {
        field!($argument, b"    ", 0, 0, 0, Giver::Source, Some(0))
    };
}

macro_rules! fixed {
    ($byte:expr, $bits:expr, $number:expr) => {
        field!(0, b"    ", $byte, 0, $bits, Giver::Fixed($number), None)
    };
}

macro_rules! mask {
    ($name:expr, $byte:expr, $bits:expr) => {
        field!(0, $name, $byte, 0, $bits, Giver::Mask, None)
    };
}

macro_rules! count {
    ($byte:expr, $bits:expr) => {
        field!(0, b"    ", $byte, 0, $bits, Giver::Count, None)
    };
}

macro_rules! first_member {
    ($name:expr, $byte:expr, $bits:expr) => {
        field!(0, $name, $byte, 0, $bits, Giver::FirstMember, None)
    };
}

/// The fields of `Irq` (ACPI Specification 6.4, 6.4.2.1).
pub(crate) const IRQ: &[Field] = &[
    word!(0, b"_HE_", 3, 0, 1, Mode),
    word_below!(1, b"_LL_", 3, 3, 1, Level, 2, None),
    word_or!(2, b"_SHR", 3, 4, 2, Sharing, 0),
    name!(3),
    mask!(b"_INT", 1, 16),
];

/// The fields of `IrqNoFlags` (ACPI Specification 6.4, 6.4.2.1).
pub(crate) const IRQ_NO_FLAGS: &[Field] = &[name!(0), mask!(b"_INT", 1, 16)];

/// The fields of `Dma` (ACPI Specification 6.4, 6.4.2.2).
pub(crate) const DMA: &[Field] = &[
    word!(0, b"_TYP", 2, 5, 2, DmaType),
    word!(1, b"_BM_", 2, 2, 1, BusMaster),
    word!(2, b"_SIZ", 2, 0, 2, Transfer),
    name!(3),
    mask!(b"_DMA", 1, 8),
];

/// The fields of `FixedDma` (ACPI Specification 6.4, 6.4.2.7).
pub(crate) const FIXED_DMA: &[Field] = &[
    number!(0, b"_DMA", 1, 16),
    number!(1, b"_TYP", 3, 16),
    word_or!(2, b"_SIZ", 5, 0, 8, DmaWidth, 2),
    name!(3),
];

/// The fields of `StartDependentFn` (ACPI Specification 6.4, 6.4.2.3).
pub(crate) const START_DEPENDENT_FN: &[Field] = &[
    between!(0, 1, 0, 2, 0, 2),
    between!(1, 1, 2, 2, 0, 2),
];

/// The fields of `StartDependentFnNoPri` (ACPI Specification 6.4, 6.4.2.3).
pub(crate) const START_DEPENDENT_FN_NO_PRI: &[Field] = &[];

/// The fields of `EndDependentFn` (ACPI Specification 6.4, 6.4.2.4).
pub(crate) const END_DEPENDENT_FN: &[Field] = &[];

/// The fields of `Io` (ACPI Specification 6.4, 6.4.2.5).
pub(crate) const IO: &[Field] = &[
    word!(0, b"_DEC", 1, 0, 1, IoDecode),
    number!(1, b"_MIN", 2, 16),
    number!(2, b"_MAX", 4, 16),
    number!(3, b"_ALN", 6, 8),
    number!(4, b"_LEN", 7, 8),
    name!(5),
];

/// The fields of `FixedIo` (ACPI Specification 6.4, 6.4.2.6).
pub(crate) const FIXED_IO: &[Field] = &[
    number!(0, b"_BAS", 1, 16),
    number!(1, b"_LEN", 3, 8),
    name!(2),
];

/// The fields of `VendorShort` (ACPI Specification 6.4, 6.4.2.8).
pub(crate) const VENDOR_SHORT: &[Field] = &[name!(0)];

/// The fields of `VendorLong` (ACPI Specification 6.4, 6.4.3.2).
pub(crate) const VENDOR_LONG: &[Field] = &[name!(0)];

/// The fields of `Memory24` (ACPI Specification 6.4, 6.4.3.1).
pub(crate) const MEMORY24: &[Field] = &[
    word_or!(0, b"_RW_", 3, 0, 1, Access, 1),
    number!(1, b"_MIN", 4, 16),
    number!(2, b"_MAX", 6, 16),
    number!(3, b"_ALN", 8, 16),
    number!(4, b"_LEN", 10, 16),
    name!(5),
];

/// The fields of `Memory32` (ACPI Specification 6.4, 6.4.3.3).
pub(crate) const MEMORY32: &[Field] = &[
    word_or!(0, b"_RW_", 3, 0, 1, Access, 1),
    number!(1, b"_MIN", 4, 32),
    number!(2, b"_MAX", 8, 32),
    number!(3, b"_ALN", 12, 32),
    number!(4, b"_LEN", 16, 32),
    name!(5),
];

/// The fields of `Memory32Fixed` (ACPI Specification 6.4, 6.4.3.4).
pub(crate) const MEMORY32_FIXED: &[Field] = &[
    word_or!(0, b"_RW_", 3, 0, 1, Access, 1),
    number!(1, b"_BAS", 4, 32),
    number!(2, b"_LEN", 8, 32),
    name!(3),
];

/// The fields of `Register` (ACPI Specification 6.4, 6.4.3.7).
pub(crate) const REGISTER: &[Field] = &[
    field!(0, b"_ASI", 3, 0, 8, Giver::WordOrNumber(Kind::Space), None),
    number!(1, b"_RBW", 4, 8),
    number!(2, b"_RBO", 5, 8),
    number!(3, b"_ADR", 7, 64),
    number_or!(4, b"_ASZ", 6, 8, 0),
    name!(5),
];

/// The fields of `Interrupt` (ACPI Specification 6.4, 6.4.3.6).
pub(crate) const INTERRUPT: &[Field] = &[
    word_or!(0, b"    ", 3, 0, 1, Usage, 1),
    word!(1, b"_HE_", 3, 1, 1, Mode),
    word_below!(2, b"_LL_", 3, 2, 1, Level, 2, None),
    word_or!(3, b"_SHR", 3, 3, 2, Sharing, 0),
    index!(4),
    source!(5),
    name!(6),
    count!(4, 8),
    first_member!(b"_INT", 5, 32),
];

/// The fields of `WordIo` (ACPI Specification 6.4, 6.4.3.5).
pub(crate) const WORD_IO: &[Field] = &[
    word_or!(0, b"    ", 4, 0, 1, Usage, 1),
    word_or!(1, b"_MIF", 4, 2, 1, MinimumFixed, 0),
    word_or!(2, b"_MAF", 4, 3, 1, MaximumFixed, 0),
    word_or!(3, b"_DEC", 4, 1, 1, Decode, 0),
    word_or!(4, b"_RNG", 5, 0, 2, IsaRange, 3),
    number!(5, b"_GRA", 6, 16),
    number!(6, b"_MIN", 8, 16),
    number!(7, b"_MAX", 10, 16),
    number!(8, b"_TRA", 12, 16),
    number!(9, b"_LEN", 14, 16),
    index!(10),
    source!(11),
    name!(12),
    word_or!(13, b"_TTP", 5, 4, 1, Translation, 0),
    word_or!(14, b"_TRS", 5, 5, 1, Sparse, 0),
    fixed!(3, 8, 1),
];

/// The fields of `DWordIo` (ACPI Specification 6.4, 6.4.3.5).
pub(crate) const DWORD_IO: &[Field] = &[
    word_or!(0, b"    ", 4, 0, 1, Usage, 1),
    word_or!(1, b"_MIF", 4, 2, 1, MinimumFixed, 0),
    word_or!(2, b"_MAF", 4, 3, 1, MaximumFixed, 0),
    word_or!(3, b"_DEC", 4, 1, 1, Decode, 0),
    word_or!(4, b"_RNG", 5, 0, 2, IsaRange, 3),
    number!(5, b"_GRA", 6, 32),
    number!(6, b"_MIN", 10, 32),
    number!(7, b"_MAX", 14, 32),
    number!(8, b"_TRA", 18, 32),
    number!(9, b"_LEN", 22, 32),
    index!(10),
    source!(11),
    name!(12),
    word_or!(13, b"_TTP", 5, 4, 1, Translation, 0),
    word_or!(14, b"_TRS", 5, 5, 1, Sparse, 0),
    fixed!(3, 8, 1),
];

/// The fields of `QWordIo` (ACPI Specification 6.4, 6.4.3.5).
pub(crate) const QWORD_IO: &[Field] = &[
    word_or!(0, b"    ", 4, 0, 1, Usage, 1),
    word_or!(1, b"_MIF", 4, 2, 1, MinimumFixed, 0),
    word_or!(2, b"_MAF", 4, 3, 1, MaximumFixed, 0),
    word_or!(3, b"_DEC", 4, 1, 1, Decode, 0),
    word_or!(4, b"_RNG", 5, 0, 2, IsaRange, 3),
    number!(5, b"_GRA", 6, 64),
    number!(6, b"_MIN", 14, 64),
    number!(7, b"_MAX", 22, 64),
    number!(8, b"_TRA", 30, 64),
    number!(9, b"_LEN", 38, 64),
    index!(10),
    source!(11),
    name!(12),
    word_or!(13, b"_TTP", 5, 4, 1, Translation, 0),
    word_or!(14, b"_TRS", 5, 5, 1, Sparse, 0),
    fixed!(3, 8, 1),
];

/// The fields of `ExtendedIo` (ACPI Specification 6.4, 6.4.3.5).
pub(crate) const EXTENDED_IO: &[Field] = &[
    word_or!(0, b"    ", 4, 0, 1, Usage, 1),
    word_or!(1, b"_MIF", 4, 2, 1, MinimumFixed, 0),
    word_or!(2, b"_MAF", 4, 3, 1, MaximumFixed, 0),
    word_or!(3, b"_DEC", 4, 1, 1, Decode, 0),
    word_or!(4, b"_RNG", 5, 0, 2, IsaRange, 3),
    number!(5, b"_GRA", 8, 64),
    number!(6, b"_MIN", 16, 64),
    number!(7, b"_MAX", 24, 64),
    number!(8, b"_TRA", 32, 64),
    number!(9, b"_LEN", 40, 64),
    number_or!(10, b"_ATT", 48, 64, 0),
    name!(11),
    word_or!(12, b"_TTP", 5, 4, 1, Translation, 0),
    word_or!(13, b"_TRS", 5, 5, 1, Sparse, 0),
    fixed!(3, 8, 1),
    fixed!(6, 8, 1),
];

/// The fields of `DWordMemory` (ACPI Specification 6.4, 6.4.3.5).
pub(crate) const DWORD_MEMORY: &[Field] = &[
    word_or!(0, b"    ", 4, 0, 1, Usage, 1),
    word_or!(1, b"_DEC", 4, 1, 1, Decode, 0),
    word_or!(2, b"_MIF", 4, 2, 1, MinimumFixed, 0),
    word_or!(3, b"_MAF", 4, 3, 1, MaximumFixed, 0),
    word_or!(4, b"_MEM", 5, 1, 2, Caching, 0),
    word_or!(5, b"_RW_", 5, 0, 1, Access, 1),
    number!(6, b"_GRA", 6, 32),
    number!(7, b"_MIN", 10, 32),
    number!(8, b"_MAX", 14, 32),
    number!(9, b"_TRA", 18, 32),
    number!(10, b"_LEN", 22, 32),
    index!(11),
    source!(12),
    name!(13),
    word_or!(14, b"_MTP", 5, 3, 2, Range, 0),
    word_or!(15, b"_TTP", 5, 5, 1, Translation, 0),
    fixed!(3, 8, 0),
];

/// The fields of `QWordMemory` (ACPI Specification 6.4, 6.4.3.5).
pub(crate) const QWORD_MEMORY: &[Field] = &[
    word_or!(0, b"    ", 4, 0, 1, Usage, 1),
    word_or!(1, b"_DEC", 4, 1, 1, Decode, 0),
    word_or!(2, b"_MIF", 4, 2, 1, MinimumFixed, 0),
    word_or!(3, b"_MAF", 4, 3, 1, MaximumFixed, 0),
    word_or!(4, b"_MEM", 5, 1, 2, Caching, 0),
    word_or!(5, b"_RW_", 5, 0, 1, Access, 1),
    number!(6, b"_GRA", 6, 64),
    number!(7, b"_MIN", 14, 64),
    number!(8, b"_MAX", 22, 64),
    number!(9, b"_TRA", 30, 64),
    number!(10, b"_LEN", 38, 64),
    index!(11),
    source!(12),
    name!(13),
    word_or!(14, b"_MTP", 5, 3, 2, Range, 0),
    word_or!(15, b"_TTP", 5, 5, 1, Translation, 0),
    fixed!(3, 8, 0),
];

/// The fields of `ExtendedMemory` (ACPI Specification 6.4, 6.4.3.5).
pub(crate) const EXTENDED_MEMORY: &[Field] = &[
    word_or!(0, b"    ", 4, 0, 1, Usage, 1),
    word_or!(1, b"_DEC", 4, 1, 1, Decode, 0),
    word_or!(2, b"_MIF", 4, 2, 1, MinimumFixed, 0),
    word_or!(3, b"_MAF", 4, 3, 1, MaximumFixed, 0),
    word_or!(4, b"_MEM", 5, 1, 2, Caching, 0),
    word_or!(5, b"_RW_", 5, 0, 1, Access, 1),
    number!(6, b"_GRA", 8, 64),
    number!(7, b"_MIN", 16, 64),
    number!(8, b"_MAX", 24, 64),
    number!(9, b"_TRA", 32, 64),
    number!(10, b"_LEN", 40, 64),
    number_or!(11, b"_ATT", 48, 64, 0),
    name!(12),
    word_or!(13, b"_MTP", 5, 3, 2, Range, 0),
    word_or!(14, b"_TTP", 5, 5, 1, Translation, 0),
    fixed!(3, 8, 0),
    fixed!(6, 8, 1),
];

/// The fields of `WordBusNumber` (ACPI Specification 6.4, 6.4.3.5).
pub(crate) const WORD_BUS_NUMBER: &[Field] = &[
    word_or!(0, b"    ", 4, 0, 1, Usage, 1),
    word_or!(1, b"_MIF", 4, 2, 1, MinimumFixed, 0),
    word_or!(2, b"_MAF", 4, 3, 1, MaximumFixed, 0),
    word_or!(3, b"_DEC", 4, 1, 1, Decode, 0),
    number!(4, b"_GRA", 6, 16),
    number!(5, b"_MIN", 8, 16),
    number!(6, b"_MAX", 10, 16),
    number!(7, b"_TRA", 12, 16),
    number!(8, b"_LEN", 14, 16),
    index!(9),
    source!(10),
    name!(11),
    fixed!(3, 8, 2),
];

/// The fields of `WordSpace` (ACPI Specification 6.4, 6.4.3.5).
pub(crate) const WORD_SPACE: &[Field] = &[
    between!(0, 3, 0, 8, 0xC0, 0xFF),
    word_or!(1, b"    ", 4, 0, 1, Usage, 1),
    word_or!(2, b"_DEC", 4, 1, 1, Decode, 0),
    word_or!(3, b"_MIF", 4, 2, 1, MinimumFixed, 0),
    word_or!(4, b"_MAF", 4, 3, 1, MaximumFixed, 0),
    number!(5, b"    ", 5, 8),
    number!(6, b"_GRA", 6, 16),
    number!(7, b"_MIN", 8, 16),
    number!(8, b"_MAX", 10, 16),
    number!(9, b"_TRA", 12, 16),
    number!(10, b"_LEN", 14, 16),
    index!(11),
    source!(12),
    name!(13),
];

/// The fields of `DWordSpace` (ACPI Specification 6.4, 6.4.3.5).
pub(crate) const DWORD_SPACE: &[Field] = &[
    between!(0, 3, 0, 8, 0xC0, 0xFF),
    word_or!(1, b"    ", 4, 0, 1, Usage, 1),
    word_or!(2, b"_DEC", 4, 1, 1, Decode, 0),
    word_or!(3, b"_MIF", 4, 2, 1, MinimumFixed, 0),
    word_or!(4, b"_MAF", 4, 3, 1, MaximumFixed, 0),
    number!(5, b"    ", 5, 8),
    number!(6, b"_GRA", 6, 32),
    number!(7, b"_MIN", 10, 32),
    number!(8, b"_MAX", 14, 32),
    number!(9, b"_TRA", 18, 32),
    number!(10, b"_LEN", 22, 32),
    index!(11),
    source!(12),
    name!(13),
];

/// The fields of `QWordSpace` (ACPI Specification 6.4, 6.4.3.5).
pub(crate) const QWORD_SPACE: &[Field] = &[
    between!(0, 3, 0, 8, 0xC0, 0xFF),
    word_or!(1, b"    ", 4, 0, 1, Usage, 1),
    word_or!(2, b"_DEC", 4, 1, 1, Decode, 0),
    word_or!(3, b"_MIF", 4, 2, 1, MinimumFixed, 0),
    word_or!(4, b"_MAF", 4, 3, 1, MaximumFixed, 0),
    number!(5, b"    ", 5, 8),
    number!(6, b"_GRA", 6, 64),
    number!(7, b"_MIN", 14, 64),
    number!(8, b"_MAX", 22, 64),
    number!(9, b"_TRA", 30, 64),
    number!(10, b"_LEN", 38, 64),
    index!(11),
    source!(12),
    name!(13),
];

/// The fields of `ExtendedSpace` (ACPI Specification 6.4, 6.4.3.5).
pub(crate) const EXTENDED_SPACE: &[Field] = &[
    between!(0, 3, 0, 8, 0xC0, 0xFF),
    word_or!(1, b"    ", 4, 0, 1, Usage, 1),
    word_or!(2, b"_DEC", 4, 1, 1, Decode, 0),
    word_or!(3, b"_MIF", 4, 2, 1, MinimumFixed, 0),
    word_or!(4, b"_MAF", 4, 3, 1, MaximumFixed, 0),
    number!(5, b"    ", 5, 8),
    number!(6, b"_GRA", 8, 64),
    number!(7, b"_MIN", 16, 64),
    number!(8, b"_MAX", 24, 64),
    number!(9, b"_TRA", 32, 64),
    number!(10, b"_LEN", 40, 64),
    number_or!(11, b"_ATT", 48, 64, 0),
    name!(12),
    fixed!(6, 8, 1),
];

/// The fields of `GpioInt` (ACPI Specification 6.4, 6.4.3.8.1).
pub(crate) const GPIO_INT: &[Field] = &[
    word!(0, b"    ", 7, 0, 1, Mode),
    word!(1, b"_POL", 7, 1, 2, Level),
    word_or!(2, b"_SHR", 7, 3, 2, Sharing, 0),
    field!(3, b"_PPI", 9, 0, 8, Giver::WordOrNumber(Kind::Pull), None),
    number_or!(4, b"_DBT", 12, 16, 0),
    text!(5),
    number_or!(6, b"    ", 16, 8, 0),
    word_or!(7, b"    ", 5, 0, 1, Usage, 1),
    name!(8),
    vacant!(9),
    fixed!(3, 8, 1),
    fixed!(4, 8, 0),
    fixed!(14, 16, 0x17),
    field!(0, b"    ", 17, 0, 16, Giver::TextPlace, None),
    field!(0, b"    ", 19, 0, 16, Giver::TextEnd, None),
];

/// The fields of `GpioIo` (ACPI Specification 6.4, 6.4.3.8.1).
pub(crate) const GPIO_IO: &[Field] = &[
    word_or!(0, b"_SHR", 7, 3, 2, Sharing, 0),
    field!(1, b"_PPI", 9, 0, 8, Giver::WordOrNumber(Kind::Pull), None),
    number_or!(2, b"_DBT", 12, 16, 0),
    number_or!(3, b"_DRS", 10, 16, 0),
    word_or!(4, b"_IOR", 7, 0, 2, IoRestriction, 0),
    text!(5),
    number_or!(6, b"    ", 16, 8, 0),
    word_or!(7, b"    ", 5, 0, 1, Usage, 1),
    name!(8),
    vacant!(9),
    fixed!(3, 8, 1),
    fixed!(4, 8, 1),
    fixed!(14, 16, 0x17),
    field!(0, b"    ", 17, 0, 16, Giver::TextPlace, None),
    field!(0, b"    ", 19, 0, 16, Giver::TextEnd, None),
];

/// The fields of `I2cSerialBus` (ACPI Specification 6.4, 6.4.3.8.2.1).
pub(crate) const I2C_SERIAL_BUS: &[Field] = &[
    number!(0, b"_ADR", 16, 16),
    word!(1, b"    ", 6, 0, 1, Initiator),
    number!(2, b"_SPE", 12, 32),
    word!(3, b"    ", 7, 0, 1, Addressing),
    text!(4),
    number_or!(5, b"    ", 4, 8, 0),
    word_or!(6, b"    ", 6, 1, 1, Usage, 1),
    name!(7),
    word_below!(8, b"_SHR", 6, 2, 1, Sharing, 2, Some(0)),
    vacant!(9),
    fixed!(3, 8, 2),
    fixed!(5, 8, 1),
    fixed!(9, 8, 1),
    fixed!(10, 16, 6),
];
