//! The fields of each table and structure, in the order in which they stand. Labels are filled with blanks, which do
//! not count.
use crate::row::{Flag, FlagSet, Kind, Row, Size};

macro_rules! row {
    ($label:expr, $width:expr, $kind:expr) => {
        Row {
            label: *$label,
            width: $width,
            kind: $kind,
            flags: FlagSet::None,
        }
    };
}

macro_rules! number {
    ($label:expr, $width:expr) => {
        row!($label, $width, Kind::Number)
    };
}

macro_rules! reserved {
    ($label:expr, $width:expr) => {
        row!($label, $width, Kind::Reserved)
    };
}

macro_rules! flags {
    ($label:expr, $width:expr, $flags:expr) => {
        Row {
            label: *$label,
            width: $width,
            kind: Kind::Number,
            flags: $flags,
        }
    };
}

macro_rules! flag {
    ($label:expr, $first:expr, $bits:expr) => {
        Flag {
            label: *$label,
            first: $first,
            bits: $bits,
        }
    };
}

macro_rules! size {
    ($revision:expr, $bytes:expr) => {
        Size {
            revision: $revision,
            bytes: $bytes,
        }
    };
}

/// Flags of the FADT (5.2.9.3).
pub const FADT_FLAGS: &[Flag] = &[
    flag!(b"Hardware Reduced (V5)         ", 20, 1),
    flag!(b"Low Power S0 Idle (V5)        ", 21, 1),
    flag!(b"Reset Register Supported (V2) ", 10, 1),
];

/// ARM flags of the FADT (5.2.9.4).
pub const ARM_FLAGS: &[Flag] = &[flag!(b"PSCI Compliant                ", 0, 1)];

/// Flags of the MADT (5.2.12).
pub const MADT_FLAGS: &[Flag] = &[flag!(b"PC-AT Compatibility           ", 0, 1)];

/// Flags of a processor (5.2.12.2).
pub const PROCESSOR_FLAGS: &[Flag] = &[flag!(b"Processor Enabled             ", 0, 1)];

/// Flags of an interrupt (5.2.12.5).
pub const INTERRUPT_FLAGS: &[Flag] = &[
    flag!(b"Polarity                      ", 0, 2),
    flag!(b"Trigger Mode                  ", 2, 2),
];

/// Flags of the HPET table.
pub const PAGE_PROTECT_FLAGS: &[Flag] = &[
    flag!(b"4K Page Protect               ", 0, 1),
    flag!(b"64K Page Protect              ", 1, 1),
];

/// Flags of an affinity structure (5.2.16).
pub const AFFINITY_FLAGS: &[Flag] = &[flag!(b"Enabled                       ", 0, 1)];

/// Flags of a memory affinity structure (5.2.16.2).
pub const MEMORY_FLAGS: &[Flag] = &[
    flag!(b"Enabled                       ", 0, 1),
    flag!(b"Hot Pluggable                 ", 1, 1),
    flag!(b"Non-Volatile                  ", 2, 1),
];

/// Flags of the WAET.
pub const EMULATED_FLAGS: &[Flag] = &[
    flag!(b"RTC needs no INT ack          ", 0, 1),
    flag!(b"PM timer, one read only       ", 1, 1),
];

/// The status of a boot image (5.2.22.2).
pub const IMAGE_FLAGS: &[Flag] = &[
    flag!(b"Displayed                     ", 0, 1),
    flag!(b"Orientation Offset            ", 1, 2),
];

/// Flags of an instruction entry (18.5.1.2, 18.6.2).
pub const INSTRUCTION_FLAGS: &[Flag] = &[flag!(b"Preserve Register Bits        ", 0, 1)];

/// Flags of the PCCT (14.1.1).
pub const DOORBELL_FLAGS: &[Flag] = &[flag!(b"Platform                      ", 0, 1)];

/// Flags of the interrupt of a communications subspace (14.1.4).
pub const CHANNEL_FLAGS: &[Flag] = &[
    flag!(b"Polarity                      ", 0, 1),
    flag!(b"Mode                          ", 1, 1),
];

/// Flags of a timer of the GTDT (5.2.25).
pub const TIMER_FLAGS: &[Flag] = &[
    flag!(b"Trigger Mode                  ", 0, 1),
    flag!(b"Polarity                      ", 1, 1),
    flag!(b"Always On                     ", 2, 1),
];

/// Flags of a watchdog timer (5.2.25.2).
pub const WATCHDOG_FLAGS: &[Flag] = &[
    flag!(b"Trigger Mode                  ", 0, 1),
    flag!(b"Polarity                      ", 1, 1),
    flag!(b"Security                      ", 2, 1),
];

/// Flags of an error source of PCI Express (18.3.2.4).
pub const ADVANCED_ERROR_FLAGS: &[Flag] = &[
    flag!(b"Firmware First                ", 0, 1),
    flag!(b"Global                        ", 1, 1),
];

/// Flags of an address range of the NFIT (5.2.26.2).
pub const RANGE_FLAGS: &[Flag] = &[
    flag!(b"Add/Online Operation Only     ", 0, 1),
    flag!(b"Proximity Domain Valid        ", 1, 1),
];

/// Flags of a region of a device (5.2.26.3).
pub const DEVICE_FLAGS: &[Flag] = &[
    flag!(b"Save to device failed         ", 0, 1),
    flag!(b"Restore from device failed    ", 1, 1),
    flag!(b"Platform flush failed         ", 2, 1),
    flag!(b"Device not armed              ", 3, 1),
    flag!(b"Health events observed        ", 4, 1),
    flag!(b"Health events enabled         ", 5, 1),
    flag!(b"Mapping failed                ", 6, 1),
];

/// Flags of a control region (5.2.26.6).
pub const WINDOW_FLAGS: &[Flag] = &[flag!(b"Windows buffered              ", 0, 1)];

/// Capabilities of a platform (5.2.26.9).
pub const CAPABILITY_FLAGS: &[Flag] = &[
    flag!(b"Cache Flush to NVDIMM         ", 0, 1),
    flag!(b"Memory Flush to NVDIMM        ", 1, 1),
    flag!(b"Memory Mirroring              ", 2, 1),
];

/// The header that each table begins with (ACPI Specification 6.4, 5.2.6).
pub const HEADER: &[Row] = &[
    row!(b"Signature                     ", 4, Kind::Text),
    row!(b"Table Length                  ", 4, Kind::TableLength),
    row!(b"Revision                      ", 1, Kind::Revision),
    row!(b"Checksum                      ", 1, Kind::Checksum),
    row!(b"Oem ID                        ", 6, Kind::Text),
    row!(b"Oem Table ID                  ", 8, Kind::Text),
    number!(b"Oem Revision                  ", 4),
    row!(b"Asl Compiler ID               ", 4, Kind::CompilerId),
    row!(b"Asl Compiler Revision         ", 4, Kind::CompilerRevision),
];

/// The fixed part of the FADT behind its header (5.2.9), all of revision 6.
pub const FACP: &[Row] = &[
    number!(b"FACS Address                  ", 4),
    number!(b"DSDT Address                  ", 4),
    number!(b"Model                         ", 1),
    number!(b"PM Profile                    ", 1),
    number!(b"SCI Interrupt                 ", 2),
    number!(b"SMI Command Port              ", 4),
    number!(b"ACPI Enable Value             ", 1),
    number!(b"ACPI Disable Value            ", 1),
    number!(b"S4BIOS Command                ", 1),
    number!(b"P-State Control               ", 1),
    number!(b"PM1A Event Block Address      ", 4),
    number!(b"PM1B Event Block Address      ", 4),
    number!(b"PM1A Control Block Address    ", 4),
    number!(b"PM1B Control Block Address    ", 4),
    number!(b"PM2 Control Block Address     ", 4),
    number!(b"PM Timer Block Address        ", 4),
    number!(b"GPE0 Block Address            ", 4),
    number!(b"GPE1 Block Address            ", 4),
    number!(b"PM1 Event Block Length        ", 1),
    number!(b"PM1 Control Block Length      ", 1),
    number!(b"PM2 Control Block Length      ", 1),
    number!(b"PM Timer Block Length         ", 1),
    number!(b"GPE0 Block Length             ", 1),
    number!(b"GPE1 Block Length             ", 1),
    number!(b"GPE1 Base Offset              ", 1),
    number!(b"_CST Support                  ", 1),
    number!(b"C2 Latency                    ", 2),
    number!(b"C3 Latency                    ", 2),
    number!(b"CPU Cache Size                ", 2),
    number!(b"Cache Flush Stride            ", 2),
    number!(b"Duty Cycle Offset             ", 1),
    number!(b"Duty Cycle Width              ", 1),
    number!(b"RTC Day Alarm Index           ", 1),
    number!(b"RTC Month Alarm Index         ", 1),
    number!(b"RTC Century Index             ", 1),
    number!(b"Boot Flags (decoded below)    ", 2),
    reserved!(b"Reserved                      ", 1),
    flags!(b"Flags (decoded below)         ", 4, FlagSet::Fadt),
    number!(b"Space ID                      ", 1),
    number!(b"Bit Width                     ", 1),
    number!(b"Bit Offset                    ", 1),
    number!(b"Encoded Access Width          ", 1),
    number!(b"Address                       ", 8),
    number!(b"Value to cause reset          ", 1),
    flags!(b"ARM Flags (decoded below)     ", 2, FlagSet::Arm),
    number!(b"FADT Minor Revision           ", 1),
    number!(b"FACS Address                  ", 8),
    number!(b"DSDT Address                  ", 8),
    number!(b"Space ID                      ", 1),
    number!(b"Bit Width                     ", 1),
    number!(b"Bit Offset                    ", 1),
    number!(b"Encoded Access Width          ", 1),
    number!(b"Address                       ", 8),
    number!(b"Space ID                      ", 1),
    number!(b"Bit Width                     ", 1),
    number!(b"Bit Offset                    ", 1),
    number!(b"Encoded Access Width          ", 1),
    number!(b"Address                       ", 8),
    number!(b"Space ID                      ", 1),
    number!(b"Bit Width                     ", 1),
    number!(b"Bit Offset                    ", 1),
    number!(b"Encoded Access Width          ", 1),
    number!(b"Address                       ", 8),
    number!(b"Space ID                      ", 1),
    number!(b"Bit Width                     ", 1),
    number!(b"Bit Offset                    ", 1),
    number!(b"Encoded Access Width          ", 1),
    number!(b"Address                       ", 8),
    number!(b"Space ID                      ", 1),
    number!(b"Bit Width                     ", 1),
    number!(b"Bit Offset                    ", 1),
    number!(b"Encoded Access Width          ", 1),
    number!(b"Address                       ", 8),
    number!(b"Space ID                      ", 1),
    number!(b"Bit Width                     ", 1),
    number!(b"Bit Offset                    ", 1),
    number!(b"Encoded Access Width          ", 1),
    number!(b"Address                       ", 8),
    number!(b"Space ID                      ", 1),
    number!(b"Bit Width                     ", 1),
    number!(b"Bit Offset                    ", 1),
    number!(b"Encoded Access Width          ", 1),
    number!(b"Address                       ", 8),
    number!(b"Space ID                      ", 1),
    number!(b"Bit Width                     ", 1),
    number!(b"Bit Offset                    ", 1),
    number!(b"Encoded Access Width          ", 1),
    number!(b"Address                       ", 8),
    number!(b"Space ID                      ", 1),
    number!(b"Bit Width                     ", 1),
    number!(b"Bit Offset                    ", 1),
    number!(b"Encoded Access Width          ", 1),
    number!(b"Address                       ", 8),
    number!(b"Space ID                      ", 1),
    number!(b"Bit Width                     ", 1),
    number!(b"Bit Offset                    ", 1),
    number!(b"Encoded Access Width          ", 1),
    number!(b"Address                       ", 8),
    number!(b"Hypervisor ID                 ", 8),
];

/// How many bytes a FADT of each known revision has (5.2.9).
pub const FADT_SIZES: &[Size] = &[
    size!(1, 116),
    size!(3, 244),
    size!(4, 244),
    size!(5, 268),
    size!(6, 276),
];

/// The fixed part of the MADT behind its header (5.2.12).
pub const APIC: &[Row] = &[
    number!(b"Local Apic Address            ", 4),
    flags!(b"Flags (decoded below)         ", 4, FlagSet::Madt),
];

/// The fixed part of the MCFG table behind its header.
pub const MCFG: &[Row] = &[reserved!(b"Reserved                      ", 8)];

/// An entry of the MCFG table.
pub const MCFG_ENTRY: &[Row] = &[
    number!(b"Base Address                  ", 8),
    number!(b"Segment Group Number          ", 2),
    number!(b"Start Bus Number              ", 1),
    number!(b"End Bus Number                ", 1),
    reserved!(b"Reserved                      ", 4),
];

/// The HPET table behind its header.
pub const HPET: &[Row] = &[
    number!(b"Hardware Block ID             ", 4),
    number!(b"Space ID                      ", 1),
    number!(b"Bit Width                     ", 1),
    number!(b"Bit Offset                    ", 1),
    number!(b"Encoded Access Width          ", 1),
    number!(b"Address                       ", 8),
    number!(b"Sequence Number               ", 1),
    number!(b"Minimum Clock Ticks           ", 2),
    flags!(b"Flags (decoded below)         ", 1, FlagSet::PageProtect),
];

/// The fixed part of the SRAT behind its header (5.2.16).
pub const SRAT: &[Row] = &[
    number!(b"Table Revision                ", 4),
    reserved!(b"Reserved                      ", 8),
];

/// The fixed part of the SLIT behind its header (5.2.17).
pub const SLIT: &[Row] = &[row!(b"Localities                    ", 8, Kind::Localities)];

/// What a structure of the MADT and of the SRAT begins with.
pub const STRUCTURE_TYPE: &[Row] = &[row!(
    b"Subtable Type                 ",
    1,
    Kind::StructureType
)];

/// Structure 0 of the MADT, behind its type.
pub const LOCAL_APIC: &[Row] = &[
    row!(b"Length                        ", 1, Kind::Length(8)),
    number!(b"Processor ID                  ", 1),
    number!(b"Local Apic ID                 ", 1),
    flags!(b"Flags (decoded below)         ", 4, FlagSet::Processor),
];

/// Structure 1 of the MADT, behind its type.
pub const IO_APIC: &[Row] = &[
    row!(b"Length                        ", 1, Kind::Length(12)),
    number!(b"I/O Apic ID                   ", 1),
    reserved!(b"Reserved                      ", 1),
    number!(b"Address                       ", 4),
    number!(b"Interrupt                     ", 4),
];

/// Structure 2 of the MADT, behind its type.
pub const INTERRUPT_SOURCE_OVERRIDE: &[Row] = &[
    row!(b"Length                        ", 1, Kind::Length(10)),
    number!(b"Bus                           ", 1),
    number!(b"Source                        ", 1),
    number!(b"Interrupt                     ", 4),
    flags!(b"Flags (decoded below)         ", 2, FlagSet::Interrupt),
];

/// Structure 3 of the MADT, behind its type.
pub const NMI_SOURCE: &[Row] = &[
    row!(b"Length                        ", 1, Kind::Length(8)),
    flags!(b"Flags (decoded below)         ", 2, FlagSet::Interrupt),
    number!(b"Interrupt                     ", 4),
];

/// Structure 4 of the MADT, behind its type.
pub const LOCAL_APIC_NMI: &[Row] = &[
    row!(b"Length                        ", 1, Kind::Length(6)),
    number!(b"Processor ID                  ", 1),
    flags!(b"Flags (decoded below)         ", 2, FlagSet::Interrupt),
    number!(b"Interrupt Input LINT          ", 1),
];

/// Structure 5 of the MADT, behind its type.
pub const LOCAL_APIC_ADDRESS_OVERRIDE: &[Row] = &[
    row!(b"Length                        ", 1, Kind::Length(12)),
    reserved!(b"Reserved                      ", 2),
    number!(b"APIC Address                  ", 8),
];

/// Structure 9 of the MADT, behind its type.
pub const LOCAL_X2APIC: &[Row] = &[
    row!(b"Length                        ", 1, Kind::Length(16)),
    reserved!(b"Reserved                      ", 2),
    number!(b"Processor x2Apic ID           ", 4),
    flags!(b"Flags (decoded below)         ", 4, FlagSet::Processor),
    number!(b"Processor UID                 ", 4),
];

/// Structure 10 of the MADT, behind its type.
pub const LOCAL_X2APIC_NMI: &[Row] = &[
    row!(b"Length                        ", 1, Kind::Length(12)),
    flags!(b"Flags (decoded below)         ", 2, FlagSet::Interrupt),
    number!(b"Processor UID                 ", 4),
    number!(b"Interrupt Input LINT          ", 1),
    reserved!(b"Reserved                      ", 3),
];

/// Structure 11 of the MADT, behind its type.
pub const GIC_CPU_INTERFACE: &[Row] = &[
    row!(b"Length                        ", 1, Kind::Length(80)),
    reserved!(b"Reserved                      ", 2),
    number!(b"CPU Interface Number          ", 4),
    number!(b"Processor UID                 ", 4),
    flags!(b"Flags (decoded below)         ", 4, FlagSet::Processor),
    number!(b"Parking Protocol Version      ", 4),
    number!(b"Performance Interrupt         ", 4),
    number!(b"Parked Address                ", 8),
    number!(b"Base Address                  ", 8),
    number!(b"Virtual GIC Base Address      ", 8),
    number!(b"Hypervisor GIC Base Address   ", 8),
    number!(b"Virtual GIC Interrupt         ", 4),
    number!(b"Redistributor Base Address    ", 8),
    number!(b"ARM MPIDR                     ", 8),
    number!(b"Efficiency Class              ", 1),
    reserved!(b"Reserved                      ", 1),
    number!(b"SPE Overflow Interrupt        ", 2),
];

/// Structure 12 of the MADT, behind its type.
pub const GIC_DISTRIBUTOR: &[Row] = &[
    row!(b"Length                        ", 1, Kind::Length(24)),
    reserved!(b"Reserved                      ", 2),
    number!(b"Local GIC Hardware ID         ", 4),
    number!(b"Base Address                  ", 8),
    number!(b"Interrupt Base                ", 4),
    number!(b"Version                       ", 1),
    reserved!(b"Reserved                      ", 3),
];

/// Structure 13 of the MADT, behind its type.
pub const GIC_MSI_FRAME: &[Row] = &[
    row!(b"Length                        ", 1, Kind::Length(24)),
    reserved!(b"Reserved                      ", 2),
    number!(b"MSI Frame ID                  ", 4),
    number!(b"Base Address                  ", 8),
    number!(b"Flags (decoded below)         ", 4),
    number!(b"SPI Count                     ", 2),
    number!(b"SPI Base                      ", 2),
];

/// Structure 14 of the MADT, behind its type.
pub const GIC_REDISTRIBUTOR: &[Row] = &[
    row!(b"Length                        ", 1, Kind::Length(16)),
    reserved!(b"Reserved                      ", 2),
    number!(b"Base Address                  ", 8),
    number!(b"Length                        ", 4),
];

/// Structure 15 of the MADT, behind its type.
pub const GIC_TRANSLATION_SERVICE: &[Row] = &[
    row!(b"Length                        ", 1, Kind::Length(20)),
    reserved!(b"Reserved                      ", 2),
    number!(b"Translation ID                ", 4),
    number!(b"Base Address                  ", 8),
    reserved!(b"Reserved                      ", 4),
];

/// Structure 0 of the SRAT, behind its type.
pub const PROCESSOR_AFFINITY: &[Row] = &[
    row!(b"Length                        ", 1, Kind::Length(16)),
    number!(b"Proximity Domain Low(8)       ", 1),
    number!(b"Apic ID                       ", 1),
    flags!(b"Flags (decoded below)         ", 4, FlagSet::Affinity),
    number!(b"Local Sapic EID               ", 1),
    number!(b"Proximity Domain High(24)     ", 3),
    number!(b"Clock Domain                  ", 4),
];

/// Structure 1 of the SRAT, behind its type.
pub const MEMORY_AFFINITY: &[Row] = &[
    row!(b"Length                        ", 1, Kind::Length(40)),
    number!(b"Proximity Domain              ", 4),
    reserved!(b"Reserved1                     ", 2),
    number!(b"Base Address                  ", 8),
    number!(b"Address Length                ", 8),
    reserved!(b"Reserved2                     ", 4),
    flags!(b"Flags (decoded below)         ", 4, FlagSet::Memory),
    reserved!(b"Reserved3                     ", 8),
];

/// Structure 2 of the SRAT, behind its type.
pub const X2APIC_AFFINITY: &[Row] = &[
    row!(b"Length                        ", 1, Kind::Length(24)),
    reserved!(b"Reserved1                     ", 2),
    number!(b"Proximity Domain              ", 4),
    number!(b"Apic ID                       ", 4),
    flags!(b"Flags (decoded below)         ", 4, FlagSet::Affinity),
    number!(b"Clock Domain                  ", 4),
    reserved!(b"Reserved2                     ", 4),
];

/// Structure 3 of the SRAT, behind its type.
pub const GICC_AFFINITY: &[Row] = &[
    row!(b"Length                        ", 1, Kind::Length(18)),
    number!(b"Proximity Domain              ", 4),
    number!(b"Acpi Processor UID            ", 4),
    flags!(b"Flags (decoded below)         ", 4, FlagSet::Affinity),
    number!(b"Clock Domain                  ", 4),
];

/// Structure 4 of the SRAT, behind its type.
pub const TRANSLATION_SERVICE_AFFINITY: &[Row] = &[
    row!(b"Length                        ", 1, Kind::Length(12)),
    number!(b"Proximity Domain              ", 4),
    reserved!(b"Reserved                      ", 2),
    number!(b"ITS ID                        ", 4),
];

/// Structure 5 of the SRAT, behind its type.
pub const INITIATOR_AFFINITY: &[Row] = &[
    row!(b"Length                        ", 1, Kind::Length(32)),
    reserved!(b"Reserved1                     ", 1),
    number!(b"Device Handle Type            ", 1),
    number!(b"Proximity Domain              ", 4),
    row!(b"Device Handle                 ", 16, Kind::Bytes),
    flags!(b"Flags (decoded below)         ", 4, FlagSet::Affinity),
    reserved!(b"Reserved2                     ", 4),
];

/// The WAET behind its header.
pub const WAET: &[Row] = &[flags!(b"Flags (decoded below)         ", 4, FlagSet::Emulated)];

/// The BERT behind its header (18.3.1).
pub const BERT: &[Row] = &[
    number!(b"Boot Error Region Length      ", 4),
    number!(b"Boot Error Region Address     ", 8),
];

/// The BGRT behind its header (5.2.22).
pub const BGRT: &[Row] = &[
    number!(b"Version                       ", 2),
    flags!(b"Status (decoded below)        ", 1, FlagSet::Image),
    number!(b"Image Type                    ", 1),
    number!(b"Image Address                 ", 8),
    number!(b"Image OffsetX                 ", 4),
    number!(b"Image OffsetY                 ", 4),
];

/// The SPCR table behind its header.
pub const SPCR: &[Row] = &[
    number!(b"Interface Type                ", 1),
    reserved!(b"Reserved                      ", 3),
    number!(b"Space ID                      ", 1),
    number!(b"Bit Width                     ", 1),
    number!(b"Bit Offset                    ", 1),
    number!(b"Encoded Access Width          ", 1),
    number!(b"Address                       ", 8),
    number!(b"Interrupt Type                ", 1),
    number!(b"PCAT-compatible IRQ           ", 1),
    number!(b"Interrupt                     ", 4),
    number!(b"Baud Rate                     ", 1),
    number!(b"Parity                        ", 1),
    number!(b"Stop Bits                     ", 1),
    number!(b"Flow Control                  ", 1),
    number!(b"Terminal Type                 ", 1),
    reserved!(b"Reserved                      ", 1),
    number!(b"PCI Device ID                 ", 2),
    number!(b"PCI Vendor ID                 ", 2),
    number!(b"PCI Bus                       ", 1),
    number!(b"PCI Device                    ", 1),
    number!(b"PCI Function                  ", 1),
    number!(b"PCI Flags                     ", 4),
    number!(b"PCI Segment                   ", 1),
    reserved!(b"Reserved                      ", 4),
];

/// The TPM2 table behind its header, as revision 4 has it.
pub const TPM2: &[Row] = &[
    number!(b"Platform Class                ", 2),
    reserved!(b"Reserved                      ", 2),
    number!(b"Control Address               ", 8),
    number!(b"Start Method                  ", 4),
    row!(b"Method Parameters             ", 12, Kind::Bytes),
    number!(b"Minimum Log Length            ", 4),
    number!(b"Log Address                   ", 8),
];

/// How many bytes a TPM2 table of each known revision has.
pub const TPM2_SIZES: &[Size] = &[size!(4, 76)];

/// The fixed part of the ERST behind its header (18.5.1).
pub const ERST: &[Row] = &[
    number!(b"Serialization Header Length   ", 4),
    reserved!(b"Reserved                      ", 4),
    number!(b"Instruction Entry Count       ", 4),
];

/// The fixed part of the EINJ behind its header (18.6.1).
pub const EINJ: &[Row] = &[
    number!(b"Injection Header Length       ", 4),
    number!(b"Flags                         ", 1),
    reserved!(b"Reserved                      ", 3),
    number!(b"Injection Entry Count         ", 4),
];

/// An instruction entry of the ERST and of the EINJ (18.5.1.2, 18.6.2).
pub const INSTRUCTION_ENTRY: &[Row] = &[
    number!(b"Action                        ", 1),
    number!(b"Instruction                   ", 1),
    flags!(b"Flags (decoded below)         ", 1, FlagSet::Instruction),
    reserved!(b"Reserved                      ", 1),
    number!(b"Space ID                      ", 1),
    number!(b"Bit Width                     ", 1),
    number!(b"Bit Offset                    ", 1),
    number!(b"Encoded Access Width          ", 1),
    number!(b"Address                       ", 8),
    number!(b"Value                         ", 8),
    number!(b"Mask                          ", 8),
];

/// The fixed part of the PCCT behind its header (14.1).
pub const PCCT: &[Row] = &[
    flags!(b"Flags (decoded below)         ", 4, FlagSet::Doorbell),
    reserved!(b"Reserved                      ", 8),
];

/// Structure 0 of the PCCT, behind its type (14.1.3).
pub const GENERIC_SUBSPACE: &[Row] = &[
    row!(b"Length                        ", 1, Kind::Length(62)),
    reserved!(b"Reserved                      ", 6),
    number!(b"Base Address                  ", 8),
    number!(b"Address Length                ", 8),
    number!(b"Space ID                      ", 1),
    number!(b"Bit Width                     ", 1),
    number!(b"Bit Offset                    ", 1),
    number!(b"Encoded Access Width          ", 1),
    number!(b"Address                       ", 8),
    number!(b"Preserve Mask                 ", 8),
    number!(b"Write Mask                    ", 8),
    number!(b"Command Latency               ", 4),
    number!(b"Maximum Access Rate           ", 4),
    number!(b"Minimum Turnaround Time       ", 2),
];

/// Structure 1 of the PCCT, behind its type (14.1.4).
pub const REDUCED_SUBSPACE: &[Row] = &[
    row!(b"Length                        ", 1, Kind::Length(62)),
    number!(b"Platform Interrupt            ", 4),
    flags!(b"Flags (decoded below)         ", 1, FlagSet::Channel),
    reserved!(b"Reserved                      ", 1),
    number!(b"Base Address                  ", 8),
    number!(b"Address Length                ", 8),
    number!(b"Space ID                      ", 1),
    number!(b"Bit Width                     ", 1),
    number!(b"Bit Offset                    ", 1),
    number!(b"Encoded Access Width          ", 1),
    number!(b"Address                       ", 8),
    number!(b"Preserve Mask                 ", 8),
    number!(b"Write Mask                    ", 8),
    number!(b"Command Latency               ", 4),
    number!(b"Maximum Access Rate           ", 4),
    number!(b"Minimum Turnaround Time       ", 2),
];

/// Structure 2 of the PCCT, behind its type (14.1.5).
pub const ACKNOWLEDGED_SUBSPACE: &[Row] = &[
    row!(b"Length                        ", 1, Kind::Length(90)),
    number!(b"Platform Interrupt            ", 4),
    flags!(b"Flags (decoded below)         ", 1, FlagSet::Channel),
    reserved!(b"Reserved                      ", 1),
    number!(b"Base Address                  ", 8),
    number!(b"Address Length                ", 8),
    number!(b"Space ID                      ", 1),
    number!(b"Bit Width                     ", 1),
    number!(b"Bit Offset                    ", 1),
    number!(b"Encoded Access Width          ", 1),
    number!(b"Address                       ", 8),
    number!(b"Preserve Mask                 ", 8),
    number!(b"Write Mask                    ", 8),
    number!(b"Command Latency               ", 4),
    number!(b"Maximum Access Rate           ", 4),
    number!(b"Minimum Turnaround Time       ", 2),
    number!(b"Space ID                      ", 1),
    number!(b"Bit Width                     ", 1),
    number!(b"Bit Offset                    ", 1),
    number!(b"Encoded Access Width          ", 1),
    number!(b"Address                       ", 8),
    number!(b"ACK Preserve Mask             ", 8),
    number!(b"ACK Write Mask                ", 8),
];

/// Structures 3 and 4 of the PCCT, behind their type (14.1.6).
pub const EXTENDED_SUBSPACE: &[Row] = &[
    row!(b"Length                        ", 1, Kind::Length(164)),
    number!(b"Platform Interrupt            ", 4),
    flags!(b"Flags (decoded below)         ", 1, FlagSet::Channel),
    reserved!(b"Reserved                      ", 1),
    number!(b"Base Address                  ", 8),
    number!(b"Address Length                ", 4),
    number!(b"Space ID                      ", 1),
    number!(b"Bit Width                     ", 1),
    number!(b"Bit Offset                    ", 1),
    number!(b"Encoded Access Width          ", 1),
    number!(b"Address                       ", 8),
    number!(b"Preserve Mask                 ", 8),
    number!(b"Write Mask                    ", 8),
    number!(b"Command Latency               ", 4),
    number!(b"Maximum Access Rate           ", 4),
    number!(b"Minimum Turnaround Time       ", 4),
    number!(b"Space ID                      ", 1),
    number!(b"Bit Width                     ", 1),
    number!(b"Bit Offset                    ", 1),
    number!(b"Encoded Access Width          ", 1),
    number!(b"Address                       ", 8),
    number!(b"ACK Preserve Mask             ", 8),
    number!(b"ACK Set Mask                  ", 8),
    reserved!(b"Reserved                      ", 8),
    number!(b"Space ID                      ", 1),
    number!(b"Bit Width                     ", 1),
    number!(b"Bit Offset                    ", 1),
    number!(b"Encoded Access Width          ", 1),
    number!(b"Address                       ", 8),
    number!(b"Command Complete Check Mask   ", 8),
    number!(b"Space ID                      ", 1),
    number!(b"Bit Width                     ", 1),
    number!(b"Bit Offset                    ", 1),
    number!(b"Encoded Access Width          ", 1),
    number!(b"Address                       ", 8),
    number!(b"Command Update Preserve Mask  ", 8),
    number!(b"Command Update Set Mask       ", 8),
    number!(b"Space ID                      ", 1),
    number!(b"Bit Width                     ", 1),
    number!(b"Bit Offset                    ", 1),
    number!(b"Encoded Access Width          ", 1),
    number!(b"Address                       ", 8),
    number!(b"Error Status Mask             ", 8),
];

/// The TCPA table of a client behind its header; of other platforms it has another form.
pub const TCPA: &[Row] = &[
    reserved!(b"Platform Class                ", 2),
    number!(b"Min Event Log Length          ", 4),
    number!(b"Event Log Address             ", 8),
];

/// The fixed part of the GTDT behind its header (5.2.25), all of revision 3.
pub const GTDT: &[Row] = &[
    number!(b"Counter Block Address         ", 8),
    reserved!(b"Reserved                      ", 4),
    number!(b"Secure EL1 Interrupt          ", 4),
    flags!(b"EL1 Flags (decoded below)     ", 4, FlagSet::Timer),
    number!(b"Non-Secure EL1 Interrupt      ", 4),
    flags!(b"NEL1 Flags (decoded below)    ", 4, FlagSet::Timer),
    number!(b"Virtual Timer Interrupt       ", 4),
    flags!(b"VT Flags (decoded below)      ", 4, FlagSet::Timer),
    number!(b"Non-Secure EL2 Interrupt      ", 4),
    flags!(b"NEL2 Flags (decoded below)    ", 4, FlagSet::Timer),
    number!(b"Counter Read Block Address    ", 8),
    number!(b"Platform Timer Count          ", 4),
    number!(b"Platform Timer Offset         ", 4),
    number!(b"Virtual EL2 Timer GSIV        ", 4),
    number!(b"Virtual EL2 Timer Flags       ", 4),
];

/// How many bytes a GTDT of each known revision has (5.2.25).
pub const GTDT_SIZES: &[Size] = &[size!(2, 96), size!(3, 104)];

/// Structure 1 of the GTDT, behind its type (5.2.25.2).
pub const WATCHDOG_TIMER: &[Row] = &[
    row!(b"Length                        ", 2, Kind::Length(28)),
    reserved!(b"Reserved                      ", 1),
    number!(b"Refresh Frame Address         ", 8),
    number!(b"Control Frame Address         ", 8),
    number!(b"Timer Interrupt               ", 4),
    flags!(b"Timer Flags (decoded below)   ", 4, FlagSet::Watchdog),
];

/// The fixed part of the HEST behind its header (18.3.2).
pub const HEST: &[Row] = &[number!(b"Error Source Count            ", 4)];

/// What an error source of the HEST and a structure of the NFIT begin with.
pub const SOURCE_TYPE: &[Row] = &[row!(b"Subtable Type                 ", 2, Kind::StructureType)];

/// Error source 6 of the HEST, behind its type (18.3.2.4).
pub const ROOT_PORT_ERRORS: &[Row] = &[
    number!(b"Source Id                     ", 2),
    reserved!(b"Reserved                      ", 2),
    flags!(b"Flags (decoded below)         ", 1, FlagSet::AdvancedError),
    number!(b"Enabled                       ", 1),
    number!(b"Records To Preallocate        ", 4),
    number!(b"Max Sections Per Record       ", 4),
    number!(b"Bus                           ", 4),
    number!(b"Device                        ", 2),
    number!(b"Function                      ", 2),
    number!(b"DeviceControl                 ", 2),
    reserved!(b"Reserved                      ", 2),
    number!(b"Uncorrectable Mask            ", 4),
    number!(b"Uncorrectable Severity        ", 4),
    number!(b"Correctable Mask              ", 4),
    number!(b"Advanced Capabilities         ", 4),
    number!(b"Root Error Command            ", 4),
];

/// Error source 7 of the HEST, behind its type (18.3.2.5).
pub const ENDPOINT_ERRORS: &[Row] = &[
    number!(b"Source Id                     ", 2),
    reserved!(b"Reserved                      ", 2),
    flags!(b"Flags (decoded below)         ", 1, FlagSet::AdvancedError),
    number!(b"Enabled                       ", 1),
    number!(b"Records To Preallocate        ", 4),
    number!(b"Max Sections Per Record       ", 4),
    number!(b"Bus                           ", 4),
    number!(b"Device                        ", 2),
    number!(b"Function                      ", 2),
    number!(b"DeviceControl                 ", 2),
    reserved!(b"Reserved                      ", 2),
    number!(b"Uncorrectable Mask            ", 4),
    number!(b"Uncorrectable Severity        ", 4),
    number!(b"Correctable Mask              ", 4),
    number!(b"Advanced Capabilities         ", 4),
];

/// Error source 8 of the HEST, behind its type (18.3.2.6).
pub const BRIDGE_ERRORS: &[Row] = &[
    number!(b"Source Id                     ", 2),
    reserved!(b"Reserved                      ", 2),
    flags!(b"Flags (decoded below)         ", 1, FlagSet::AdvancedError),
    number!(b"Enabled                       ", 1),
    number!(b"Records To Preallocate        ", 4),
    number!(b"Max Sections Per Record       ", 4),
    number!(b"Bus                           ", 4),
    number!(b"Device                        ", 2),
    number!(b"Function                      ", 2),
    number!(b"DeviceControl                 ", 2),
    reserved!(b"Reserved                      ", 2),
    number!(b"Uncorrectable Mask            ", 4),
    number!(b"Uncorrectable Severity        ", 4),
    number!(b"Correctable Mask              ", 4),
    number!(b"Advanced Capabilities         ", 4),
    number!(b"2nd Uncorrectable Mask        ", 4),
    number!(b"2nd Uncorrectable Severity    ", 4),
    number!(b"2nd Advanced Capabilities     ", 4),
];

/// Error source 9 of the HEST, behind its type (18.3.2.7).
pub const GENERIC_ERRORS: &[Row] = &[
    number!(b"Source Id                     ", 2),
    number!(b"Related Source Id             ", 2),
    reserved!(b"Reserved                      ", 1),
    number!(b"Enabled                       ", 1),
    number!(b"Records To Preallocate        ", 4),
    number!(b"Max Sections Per Record       ", 4),
    number!(b"Max Raw Data Length           ", 4),
    number!(b"Space ID                      ", 1),
    number!(b"Bit Width                     ", 1),
    number!(b"Bit Offset                    ", 1),
    number!(b"Encoded Access Width          ", 1),
    number!(b"Address                       ", 8),
    number!(b"Notify Type                   ", 1),
    number!(b"Notify Length                 ", 1),
    number!(b"Configuration Write Enable    ", 2),
    number!(b"PollInterval                  ", 4),
    number!(b"Vector                        ", 4),
    number!(b"Polling Threshold Value       ", 4),
    number!(b"Polling Threshold Window      ", 4),
    number!(b"Error Threshold Value         ", 4),
    number!(b"Error Threshold Window        ", 4),
    number!(b"Error Status Block Length     ", 4),
];

/// Error source 10 of the HEST, behind its type (18.3.2.8).
pub const ACKNOWLEDGED_ERRORS: &[Row] = &[
    number!(b"Source Id                     ", 2),
    number!(b"Related Source Id             ", 2),
    reserved!(b"Reserved                      ", 1),
    number!(b"Enabled                       ", 1),
    number!(b"Records To Preallocate        ", 4),
    number!(b"Max Sections Per Record       ", 4),
    number!(b"Max Raw Data Length           ", 4),
    number!(b"Space ID                      ", 1),
    number!(b"Bit Width                     ", 1),
    number!(b"Bit Offset                    ", 1),
    number!(b"Encoded Access Width          ", 1),
    number!(b"Address                       ", 8),
    number!(b"Notify Type                   ", 1),
    number!(b"Notify Length                 ", 1),
    number!(b"Configuration Write Enable    ", 2),
    number!(b"PollInterval                  ", 4),
    number!(b"Vector                        ", 4),
    number!(b"Polling Threshold Value       ", 4),
    number!(b"Polling Threshold Window      ", 4),
    number!(b"Error Threshold Value         ", 4),
    number!(b"Error Threshold Window        ", 4),
    number!(b"Error Status Block Length     ", 4),
    number!(b"Space ID                      ", 1),
    number!(b"Bit Width                     ", 1),
    number!(b"Bit Offset                    ", 1),
    number!(b"Encoded Access Width          ", 1),
    number!(b"Address                       ", 8),
    number!(b"Read Ack Preserve             ", 8),
    number!(b"Read Ack Write                ", 8),
];

/// The fixed part of the VIOT behind its header.
pub const VIOT: &[Row] = &[
    number!(b"Node count                    ", 2),
    number!(b"Node offset                   ", 2),
    reserved!(b"Reserved                      ", 8),
];

/// What a node of the VIOT begins with.
pub const NODE_TYPE: &[Row] = &[row!(b"Type                          ", 1, Kind::StructureType)];

/// Node 1 of the VIOT, behind its type.
pub const PCI_RANGE: &[Row] = &[
    reserved!(b"Reserved                      ", 1),
    row!(b"Length                        ", 2, Kind::Length(24)),
    number!(b"Endpoint start                ", 4),
    number!(b"PCI Segment start             ", 2),
    number!(b"PCI Segment end               ", 2),
    number!(b"PCI BDF start                 ", 2),
    number!(b"PCI BDF end                   ", 2),
    number!(b"Output node                   ", 2),
    reserved!(b"Reserved                      ", 6),
];

/// Node 2 of the VIOT, behind its type.
pub const MMIO_ENDPOINT: &[Row] = &[
    reserved!(b"Reserved                      ", 1),
    row!(b"Length                        ", 2, Kind::Length(24)),
    number!(b"Endpoint                      ", 4),
    number!(b"Base address                  ", 8),
    number!(b"Output node                   ", 2),
    reserved!(b"Reserved                      ", 6),
];

/// Node 3 of the VIOT, behind its type.
pub const VIRTIO_PCI: &[Row] = &[
    reserved!(b"Reserved                      ", 1),
    row!(b"Length                        ", 2, Kind::Length(16)),
    number!(b"PCI Segment                   ", 2),
    number!(b"PCI BDF number                ", 2),
    reserved!(b"Reserved                      ", 8),
];

/// Node 4 of the VIOT, behind its type.
pub const VIRTIO_MMIO: &[Row] = &[
    reserved!(b"Reserved                      ", 1),
    row!(b"Length                        ", 2, Kind::Length(16)),
    reserved!(b"Reserved                      ", 4),
    number!(b"Base address                  ", 8),
];

/// The fixed part of the NFIT behind its header (5.2.26).
pub const NFIT: &[Row] = &[reserved!(b"Reserved                      ", 4)];

/// Structure 0 of the NFIT, behind its type (5.2.26.2).
pub const ADDRESS_RANGE: &[Row] = &[
    row!(b"Length                        ", 2, Kind::Length(56)),
    number!(b"Range Index                   ", 2),
    flags!(b"Flags (decoded below)         ", 2, FlagSet::Range),
    reserved!(b"Reserved                      ", 4),
    number!(b"Proximity Domain              ", 4),
    row!(b"Region Type GUID              ", 16, Kind::Guid),
    number!(b"Address Range Base            ", 8),
    number!(b"Address Range Length          ", 8),
    number!(b"Memory Map Attribute          ", 8),
];

/// Structure 1 of the NFIT, behind its type (5.2.26.3).
pub const REGION_MAP: &[Row] = &[
    row!(b"Length                        ", 2, Kind::Length(48)),
    number!(b"Device Handle                 ", 4),
    number!(b"Physical Id                   ", 2),
    number!(b"Region Id                     ", 2),
    number!(b"Range Index                   ", 2),
    number!(b"Control Region Index          ", 2),
    number!(b"Region Size                   ", 8),
    number!(b"Region Offset                 ", 8),
    number!(b"Address Region Base           ", 8),
    number!(b"Interleave Index              ", 2),
    number!(b"Interleave Ways               ", 2),
    flags!(b"Flags                         ", 2, FlagSet::Device),
    reserved!(b"Reserved                      ", 2),
];

/// Structure 4 of the NFIT, behind its type (5.2.26.6).
pub const CONTROL_REGION: &[Row] = &[
    row!(b"Length                        ", 2, Kind::Length(80)),
    number!(b"Region Index                  ", 2),
    number!(b"Vendor Id                     ", 2),
    number!(b"Device Id                     ", 2),
    number!(b"Revision Id                   ", 2),
    number!(b"Subsystem Vendor Id           ", 2),
    number!(b"Subsystem Device Id           ", 2),
    number!(b"Subsystem Revision Id         ", 2),
    number!(b"Valid Fields                  ", 1),
    number!(b"Manufacturing Location        ", 1),
    number!(b"Manufacturing Date            ", 2),
    reserved!(b"Reserved                      ", 2),
    number!(b"Serial Number                 ", 4),
    number!(b"Code                          ", 2),
    number!(b"Window Count                  ", 2),
    number!(b"Window Size                   ", 8),
    number!(b"Command Offset                ", 8),
    number!(b"Command Size                  ", 8),
    number!(b"Status Offset                 ", 8),
    number!(b"Status Size                   ", 8),
    flags!(b"Flags                         ", 2, FlagSet::Window),
    reserved!(b"Reserved1                     ", 6),
];

/// Structure 5 of the NFIT, behind its type (5.2.26.7).
pub const DATA_REGION: &[Row] = &[
    row!(b"Length                        ", 2, Kind::Length(40)),
    number!(b"Region Index                  ", 2),
    number!(b"Window Count                  ", 2),
    number!(b"Offset                        ", 8),
    number!(b"Size                          ", 8),
    number!(b"Capacity                      ", 8),
    number!(b"Start Address                 ", 8),
];

/// Structure 7 of the NFIT, behind its type (5.2.26.9).
pub const PLATFORM_CAPABILITIES: &[Row] = &[
    row!(b"Length                        ", 2, Kind::Length(16)),
    number!(b"Highest Capability            ", 1),
    reserved!(b"Reserved                      ", 3),
    flags!(b"Capabilities (decoded below)  ", 4, FlagSet::Capability),
    reserved!(b"Reserved                      ", 4),
];

/// The label of a locality's row, without the locality's number.
pub const LOCALITY: [u8; 30] = *b"Locality                      ";
