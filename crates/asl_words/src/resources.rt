//! The arguments and braces of resource descriptors (ACPI Specification 6.4, 6.4 and 19.6).
ghost use Rattle.std.specs.Prelude.{◌≡◌};
ghost use Rattle.asl_words.specs.Resources as spec;

use crate::operator::{Body, Parameter, Slot, StringForm, WordKind};
use resource_layout::descriptor::{Descriptor, Kind};

macro_rules! asked {
    ($slot:expr) => {
        Parameter {
            slot: $slot,
            omittable: false,
            further: false,
        }
    };
}

macro_rules! optional {
    ($slot:expr) => {
        Parameter {
            slot: $slot,
            omittable: true,
            further: false,
        }
    };
}

macro_rules! numbers {
    ($most:expr) => {
        Slot::Constant {
            least: 0,
            most: $most,
        }
    };
}

macro_rules! word {
    ($kind:ident) => {
        asked!(Slot::Word(WordKind::Resource(Kind::$kind)))
    };
}

macro_rules! word_below {
    ($kind:ident, $limit:expr) => {
        Slot::WordBelow {
            kind: Kind::$kind,
            limit: $limit,
        }
    };
}

macro_rules! word_or {
    ($kind:ident) => {
        optional!(Slot::Word(WordKind::Resource(Kind::$kind)))
    };
}

const BYTE: Parameter = asked!(numbers!(0xFF));

const SHORT: Parameter = asked!(numbers!(0xFFFF));

const DOUBLE: Parameter = asked!(numbers!(0xFFFF_FFFF));

const QUAD: Parameter = asked!(numbers!(0xFFFF_FFFF_FFFF_FFFF));

const PRIORITY: Parameter = asked!(numbers!(2));

const NAME: Parameter = optional!(Slot::DescriptorName);

const BYTE_OR: Parameter = optional!(numbers!(0xFF));

const SHORT_OR: Parameter = optional!(numbers!(0xFFFF));

const SOURCE: Parameter = optional!(Slot::String(StringForm::Any));

const TEXT: Parameter = asked!(Slot::String(StringForm::Any));

const VACANT: Parameter = optional!(Slot::Vacant);

// `ActiveBoth` is the third of its words.
const LEVEL: Parameter = asked!(word_below!(Level, 2));

const PULL: Parameter = asked!(Slot::WordOrByte(Kind::Pull));

const USAGE: Parameter = word_or!(Usage);

const SHARING: Parameter = word_or!(Sharing);

const ACCESS: Parameter = word_or!(Access);

const DECODE: Parameter = word_or!(Decode);

const MINIMUM_FIXED: Parameter = word_or!(MinimumFixed);

const MAXIMUM_FIXED: Parameter = word_or!(MaximumFixed);

const TRANSLATION: Parameter = word_or!(Translation);

// The five numbers of an address space have one width; its source or its attributes stand behind them.
macro_rules! io {
    ($number:ident, $($source:ident),+) => {
        &[
            USAGE,
            MINIMUM_FIXED,
            MAXIMUM_FIXED,
            DECODE,
            word_or!(IsaRange),
            $number,
            $number,
            $number,
            $number,
            $number,
            $($source,)+
            NAME,
            TRANSLATION,
            word_or!(Sparse),
        ]
    };
}

macro_rules! memory {
    ($number:ident, $($source:ident),+) => {
        &[
            USAGE,
            DECODE,
            MINIMUM_FIXED,
            MAXIMUM_FIXED,
            word_or!(Caching),
            ACCESS,
            $number,
            $number,
            $number,
            $number,
            $number,
            $($source,)+
            NAME,
            word_or!(Range),
            TRANSLATION,
        ]
    };
}

macro_rules! space {
    ($number:ident, $($source:ident),+) => {
        &[
            SPACE_TYPE,
            USAGE,
            DECODE,
            MINIMUM_FIXED,
            MAXIMUM_FIXED,
            BYTE,
            $number,
            $number,
            $number,
            $number,
            $number,
            $($source,)+
            NAME,
        ]
    };
}

// The type of a space that a vendor defines.
const SPACE_TYPE: Parameter = asked!(Slot::Constant {
    least: 0xC0,
    most: 0xFF,
});

const ATTRIBUTES: Parameter = optional!(numbers!(0xFFFF_FFFF_FFFF_FFFF));

/// The arguments that a descriptor takes.
#[tactic(auto, unfolding(crate::specs::Resources::descriptor_parameters))]
pub fn descriptor_parameters(descriptor: Descriptor) -> &'static [Parameter]
    ensures { result.now ≡ spec.descriptor_parameters descriptor }
{
    match descriptor {
        Descriptor::Irq => &[word!(Mode), LEVEL, SHARING, NAME],
        Descriptor::IrqNoFlags => &[NAME],
        Descriptor::Dma => &[word!(DmaType), word!(BusMaster), word!(Transfer), NAME],
        Descriptor::FixedDma => &[SHORT, SHORT, word_or!(DmaWidth), NAME],
        Descriptor::StartDependentFn => &[PRIORITY, PRIORITY],
        Descriptor::StartDependentFnNoPri => &[],
        Descriptor::EndDependentFn => &[],
        Descriptor::Io => &[word!(IoDecode), SHORT, SHORT, BYTE, BYTE, NAME],
        Descriptor::FixedIo => &[SHORT, BYTE, NAME],
        Descriptor::VendorShort => &[NAME],
        Descriptor::VendorLong => &[NAME],
        Descriptor::Memory24 => &[ACCESS, SHORT, SHORT, SHORT, SHORT, NAME],
        Descriptor::Memory32 => &[ACCESS, DOUBLE, DOUBLE, DOUBLE, DOUBLE, NAME],
        Descriptor::Memory32Fixed => &[ACCESS, DOUBLE, DOUBLE, NAME],
        Descriptor::Register => &[asked!(Slot::RegisterSpace), BYTE, BYTE, QUAD, BYTE_OR, NAME],
        Descriptor::Interrupt => { &[USAGE, word!(Mode), LEVEL, SHARING, BYTE_OR, SOURCE, NAME] }
        Descriptor::WordIo => io!(SHORT, BYTE_OR, SOURCE),
        Descriptor::DWordIo => io!(DOUBLE, BYTE_OR, SOURCE),
        Descriptor::QWordIo => io!(QUAD, BYTE_OR, SOURCE),
        Descriptor::ExtendedIo => io!(QUAD, ATTRIBUTES),
        Descriptor::DWordMemory => memory!(DOUBLE, BYTE_OR, SOURCE),
        Descriptor::QWordMemory => memory!(QUAD, BYTE_OR, SOURCE),
        Descriptor::ExtendedMemory => memory!(QUAD, ATTRIBUTES),
        Descriptor::WordBusNumber => &[
            USAGE,
            MINIMUM_FIXED,
            MAXIMUM_FIXED,
            DECODE,
            SHORT,
            SHORT,
            SHORT,
            SHORT,
            SHORT,
            BYTE_OR,
            SOURCE,
            NAME,
        ],
        Descriptor::WordSpace => space!(SHORT, BYTE_OR, SOURCE),
        Descriptor::DWordSpace => space!(DOUBLE, BYTE_OR, SOURCE),
        Descriptor::QWordSpace => space!(QUAD, BYTE_OR, SOURCE),
        Descriptor::ExtendedSpace => space!(QUAD, ATTRIBUTES),
        Descriptor::GpioInt => &[
            word!(Mode),
            word!(Level),
            SHARING,
            PULL,
            SHORT_OR,
            TEXT,
            BYTE_OR,
            USAGE,
            NAME,
            VACANT,
        ],
        Descriptor::GpioIo => &[
            SHARING,
            PULL,
            SHORT_OR,
            SHORT_OR,
            word_or!(IoRestriction),
            TEXT,
            BYTE_OR,
            USAGE,
            NAME,
            VACANT,
        ],
        Descriptor::I2cSerialBus => &[
            SHORT,
            word!(Initiator),
            DOUBLE,
            word!(Addressing),
            TEXT,
            BYTE_OR,
            USAGE,
            NAME,
            optional!(word_below!(Sharing, 2)),
            VACANT,
        ],
    }
}

/// What stands in the braces of a descriptor.
#[tactic(auto, unfolding(crate::specs::Resources::descriptor_body, resource_layout::specs::Layout::row_of))]
pub fn descriptor_body(descriptor: Descriptor) -> Body
    ensures { result ≡ spec.descriptor_body descriptor }
{
    match descriptor {
        Descriptor::Irq | Descriptor::IrqNoFlags => Body::Numbers { most: 15 },
        Descriptor::Dma => Body::Numbers { most: 7 },
        Descriptor::VendorShort | Descriptor::VendorLong => Body::Numbers { most: 0xFF },
        Descriptor::Interrupt => Body::Numbers { most: 0xFFFF_FFFF },
        Descriptor::GpioInt | Descriptor::GpioIo => Body::Numbers { most: 0xFFFF },
        Descriptor::StartDependentFn | Descriptor::StartDependentFnNoPri => {
            Body::Descriptors { chosen: true }
        }
        _ => Body::No,
    }
}
