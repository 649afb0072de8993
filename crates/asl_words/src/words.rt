//! The words that are no operators (ACPI Specification 6.4, 19.6).
use crate::operator::{FieldWord, Known, Named, TextMacro, WordKind};
use resource_layout::descriptor::{Descriptor, Kind};

macro_rules! word {
    ($text:expr, $known:expr) => {
        Named {
            text: *$text,
            known: $known,
        }
    };
}

macro_rules! number {
    ($text:expr, $kind:ident, $number:expr) => {
        word!(
            $text,
            Known::Word {
                kind: WordKind::$kind,
                number: $number
            }
        )
    };
}

macro_rules! resource {
    ($text:expr, $kind:ident, $number:expr) => {
        word!(
            $text,
            Known::Word {
                kind: WordKind::Resource(Kind::$kind),
                number: $number
            }
        )
    };
}

macro_rules! descriptor {
    ($text:expr, $descriptor:ident) => {
        word!($text, Known::Descriptor(Descriptor::$descriptor))
    };
}

/// The words that stand for a number, a Local, an Arg or Debug, those for macros, for elements of a field's list and for the descriptors
/// of a resource template, and those that no program has: those that begin with A, with B, and so on.
pub const WORDS: &[&[Named]] = &[
    &[
        number!(b"ANYACC                      ", Access, 0),
        word!(b"ARG0                        ", Known::Arg(0)),
        word!(b"ARG1                        ", Known::Arg(1)),
        word!(b"ARG2                        ", Known::Arg(2)),
        word!(b"ARG3                        ", Known::Arg(3)),
        word!(b"ARG4                        ", Known::Arg(4)),
        word!(b"ARG5                        ", Known::Arg(5)),
        word!(b"ARG6                        ", Known::Arg(6)),
        resource!(b"ADDRESSRANGEMEMORY          ", Range, 0),
        resource!(b"ADDRESSRANGERESERVED        ", Range, 1),
        resource!(b"ADDRESSRANGEACPI            ", Range, 2),
        resource!(b"ADDRESSRANGENVS             ", Range, 3),
        resource!(b"ACTIVEHIGH                  ", Level, 0),
        resource!(b"ACTIVELOW                   ", Level, 1),
        resource!(b"ACTIVEBOTH                  ", Level, 2),
        resource!(b"ADDRESSINGMODE7BIT          ", Addressing, 0),
        resource!(b"ADDRESSINGMODE10BIT         ", Addressing, 1),
        number!(b"ATTRIBQUICK                 ", Attribute, 2),
        number!(b"ATTRIBSENDRECEIVE           ", Attribute, 4),
        number!(b"ATTRIBBYTE                  ", Attribute, 6),
        number!(b"ATTRIBWORD                  ", Attribute, 8),
        number!(b"ATTRIBBLOCK                 ", Attribute, 10),
        word!(
            b"ATTRIBBYTES                 ",
            Known::Element(FieldWord::AttribBytes)
        ),
        word!(
            b"ACCESSAS                    ",
            Known::Element(FieldWord::AccessAs)
        ),
    ],
    &[
        number!(b"BUFFOBJ                     ", ObjectType, 3),
        number!(b"BUFFFIELDOBJ                ", ObjectType, 14),
        number!(b"BYTEACC                     ", Access, 1),
        number!(b"BUFFERACC                   ", Access, 5),
        resource!(b"BUSMASTER                   ", BusMaster, 1),
    ],
    &[
        resource!(b"CACHEABLE                   ", Caching, 1),
        resource!(b"COMPATIBILITY               ", DmaType, 0),
        resource!(b"CONTROLLERINITIATED         ", Initiator, 0),
        word!(
            b"CONNECTION                  ",
            Known::Element(FieldWord::Connection)
        ),
    ],
    &[
        number!(b"DEVICEOBJ                   ", ObjectType, 6),
        number!(b"DWORDACC                    ", Access, 3),
        word!(b"DEBUG                       ", Known::Debug),
        resource!(b"DENSETRANSLATION            ", Sparse, 0),
        resource!(b"DECODE10                    ", IoDecode, 0),
        resource!(b"DECODE16                    ", IoDecode, 1),
        descriptor!(b"DMA                         ", Dma),
        descriptor!(b"DWORDIO                     ", DWordIo),
        descriptor!(b"DWORDMEMORY                 ", DWordMemory),
        descriptor!(b"DWORDSPACE                  ", DWordSpace),
        resource!(b"DEVICEINITIATED             ", Initiator, 1),
    ],
    &[
        number!(b"EVENTOBJ                    ", ObjectType, 7),
        number!(b"EMBEDDEDCONTROL             ", Space, 3),
        word!(
            b"EISAID                      ",
            Known::Macro(TextMacro::EisaId)
        ),
        resource!(b"ENTIRERANGE                 ", IsaRange, 3),
        resource!(b"EDGE                        ", Mode, 1),
        resource!(b"EXCLUSIVE                   ", Sharing, 0),
        resource!(b"EXCLUSIVEANDWAKE            ", Sharing, 2),
        descriptor!(b"ENDDEPENDENTFN              ", EndDependentFn),
        descriptor!(b"EXTENDEDIO                  ", ExtendedIo),
        descriptor!(b"EXTENDEDMEMORY              ", ExtendedMemory),
        descriptor!(b"EXTENDEDSPACE               ", ExtendedSpace),
    ],
    &[
        number!(b"FIELDUNITOBJ                ", ObjectType, 5),
        resource!(b"FFIXEDHW                    ", Space, 0x7F),
        descriptor!(b"FIXEDDMA                    ", FixedDma),
        descriptor!(b"FIXEDIO                     ", FixedIo),
    ],
    &[
        number!(b"GENERALPURPOSEIO            ", Space, 8),
        number!(b"GENERICSERIALBUS            ", Space, 9),
        descriptor!(b"GPIOINT                     ", GpioInt),
        descriptor!(b"GPIOIO                      ", GpioIo),
    ],
    &[],
    &[
        number!(b"INTOBJ                      ", ObjectType, 1),
        number!(b"IPMI                        ", Space, 7),
        resource!(b"ISAONLYRANGES               ", IsaRange, 2),
        descriptor!(b"IRQ                         ", Irq),
        descriptor!(b"IRQNOFLAGS                  ", IrqNoFlags),
        descriptor!(b"IO                          ", Io),
        descriptor!(b"INTERRUPT                   ", Interrupt),
        resource!(b"IORESTRICTIONNONE           ", IoRestriction, 0),
        resource!(b"IORESTRICTIONINPUTONLY      ", IoRestriction, 1),
        resource!(b"IORESTRICTIONOUTPUTONLY     ", IoRestriction, 2),
        resource!(b"IORESTRICTIONNONEANDPRESERVE", IoRestriction, 3),
        descriptor!(b"I2CSERIALBUSV2              ", I2cSerialBus),
    ],
    &[],
    &[],
    &[
        number!(b"LOCK                        ", Lock, 1),
        word!(b"LOCAL0                      ", Known::Local(0)),
        word!(b"LOCAL1                      ", Known::Local(1)),
        word!(b"LOCAL2                      ", Known::Local(2)),
        word!(b"LOCAL3                      ", Known::Local(3)),
        word!(b"LOCAL4                      ", Known::Local(4)),
        word!(b"LOCAL5                      ", Known::Local(5)),
        word!(b"LOCAL6                      ", Known::Local(6)),
        word!(b"LOCAL7                      ", Known::Local(7)),
        resource!(b"LEVEL                       ", Mode, 0),
        word!(b"LOAD                        ", Known::LeftOut),
    ],
    &[
        number!(b"METHODOBJ                   ", ObjectType, 8),
        number!(b"MUTEXOBJ                    ", ObjectType, 9),
        number!(b"MTR                         ", Match, 0),
        number!(b"MEQ                         ", Match, 1),
        number!(b"MLE                         ", Match, 2),
        number!(b"MLT                         ", Match, 3),
        number!(b"MGE                         ", Match, 4),
        number!(b"MGT                         ", Match, 5),
        resource!(b"MINNOTFIXED                 ", MinimumFixed, 0),
        resource!(b"MINFIXED                    ", MinimumFixed, 1),
        resource!(b"MAXNOTFIXED                 ", MaximumFixed, 0),
        resource!(b"MAXFIXED                    ", MaximumFixed, 1),
        descriptor!(b"MEMORY24                    ", Memory24),
        descriptor!(b"MEMORY32                    ", Memory32),
        descriptor!(b"MEMORY32FIXED               ", Memory32Fixed),
    ],
    &[
        number!(b"NOTSERIALIZED               ", Serialize, 0),
        number!(b"NOLOCK                      ", Lock, 0),
        resource!(b"NONCACHEABLE                ", Caching, 0),
        resource!(b"NONISAONLYRANGES            ", IsaRange, 1),
        resource!(b"NOTBUSMASTER                ", BusMaster, 0),
    ],
    &[
        number!(b"OPREGIONOBJ                 ", ObjectType, 10),
        word!(
            b"OFFSET                      ",
            Known::Element(FieldWord::Offset)
        ),
    ],
    &[
        number!(b"PKGOBJ                      ", ObjectType, 4),
        number!(b"POWERRESOBJ                 ", ObjectType, 11),
        number!(b"PROCESSOROBJ                ", ObjectType, 12),
        number!(b"PCI_CONFIG                  ", Space, 2),
        number!(b"PCIBARTARGET                ", Space, 6),
        number!(b"PCC                         ", Space, 10),
        number!(b"PRESERVE                    ", Update, 0),
        resource!(b"POSDECODE                   ", Decode, 0),
        resource!(b"PREFETCHABLE                ", Caching, 3),
        resource!(b"PULLDEFAULT                 ", Pull, 0),
        resource!(b"PULLUP                      ", Pull, 1),
        resource!(b"PULLDOWN                    ", Pull, 2),
        resource!(b"PULLNONE                    ", Pull, 3),
    ],
    &[
        number!(b"QWORDACC                    ", Access, 4),
        descriptor!(b"QWORDIO                     ", QWordIo),
        descriptor!(b"QWORDMEMORY                 ", QWordMemory),
        descriptor!(b"QWORDSPACE                  ", QWordSpace),
    ],
    &[
        resource!(b"RESOURCEPRODUCER            ", Usage, 0),
        resource!(b"RESOURCECONSUMER            ", Usage, 1),
        resource!(b"READONLY                    ", Access, 0),
        resource!(b"READWRITE                   ", Access, 1),
        word!(b"RESOURCETEMPLATE            ", Known::Template),
        descriptor!(b"REGISTER                    ", Register),
    ],
    &[
        number!(b"SERIALIZED                  ", Serialize, 1),
        number!(b"STROBJ                      ", ObjectType, 2),
        number!(b"SYSTEMMEMORY                ", Space, 0),
        number!(b"SYSTEMIO                    ", Space, 1),
        number!(b"SMBUS                       ", Space, 4),
        number!(b"SYSTEMCMOS                  ", Space, 5),
        resource!(b"SUBDECODE                   ", Decode, 1),
        resource!(b"SPARSETRANSLATION           ", Sparse, 1),
        resource!(b"SHARED                      ", Sharing, 1),
        resource!(b"SHAREDANDWAKE               ", Sharing, 3),
        descriptor!(b"STARTDEPENDENTFN            ", StartDependentFn),
        descriptor!(b"STARTDEPENDENTFNNOPRI       ", StartDependentFnNoPri),
    ],
    &[
        number!(b"THERMALZONEOBJ              ", ObjectType, 13),
        word!(
            b"TOUUID                      ",
            Known::Macro(TextMacro::ToUuid)
        ),
        resource!(b"TYPESTATIC                  ", Translation, 0),
        resource!(b"TYPETRANSLATION             ", Translation, 1),
        resource!(b"TYPEA                       ", DmaType, 1),
        resource!(b"TYPEB                       ", DmaType, 2),
        resource!(b"TYPEF                       ", DmaType, 3),
        resource!(b"TRANSFER8                   ", Transfer, 0),
        resource!(b"TRANSFER8_16                ", Transfer, 1),
        resource!(b"TRANSFER16                  ", Transfer, 2),
    ],
    &[
        number!(b"UNKNOWNOBJ                  ", ObjectType, 0),
        word!(
            b"UNICODE                     ",
            Known::Macro(TextMacro::Unicode)
        ),
    ],
    &[
        descriptor!(b"VENDORSHORT                 ", VendorShort),
        descriptor!(b"VENDORLONG                  ", VendorLong),
    ],
    &[
        number!(b"WORDACC                     ", Access, 2),
        number!(b"WRITEASONES                 ", Update, 1),
        number!(b"WRITEASZEROS                ", Update, 2),
        resource!(b"WRITECOMBINING              ", Caching, 2),
        resource!(b"WIDTH8BIT                   ", DmaWidth, 0),
        resource!(b"WIDTH16BIT                  ", DmaWidth, 1),
        resource!(b"WIDTH32BIT                  ", DmaWidth, 2),
        resource!(b"WIDTH64BIT                  ", DmaWidth, 3),
        resource!(b"WIDTH128BIT                 ", DmaWidth, 4),
        resource!(b"WIDTH256BIT                 ", DmaWidth, 5),
        descriptor!(b"WORDIO                      ", WordIo),
        descriptor!(b"WORDBUSNUMBER               ", WordBusNumber),
        descriptor!(b"WORDSPACE                   ", WordSpace),
    ],
    &[],
    &[],
    &[],
];
