//! The tables and their structures.
ghost use Rattle.std.specs.Prelude.{◌≡◌, Some, None, MatchOption, ◌<◌, ◌≤◌, ◌^◌, ◌/◌, ◌%◌, take, length};
ghost use Rattle.data_layout.specs.Layout as spec;
ghost use Rattle.data_layout.specs.Layouts as layouts;

use crate::row::{Behind, Flag, FlagSet, Kind, Row, Size};
use crate::rows;

/// A data table.
#[derive(Clone, Copy, PartialEq, Eq, Debug)]
pub enum Table {
    Facp,
    Apic,
    Mcfg,
    Hpet,
    Srat,
    Slit,
    Waet,
    Bert,
    Bgrt,
    Spcr,
    Tpm2,
    Erst,
    Einj,
    Pcct,
    Tcpa,
    Gtdt,
    Hest,
    Viot,
    Nfit,
}

/// How many bytes the header has.
const HEADER_BYTES: u64 = 36;

/// The signature of a table.
pub fn signature_of(table: Table) -> &'static [u8]
    ensures { result.now ≡ spec.signature_of table }
{
    match table {
        Table::Facp => b"FACP",
        Table::Apic => b"APIC",
        Table::Mcfg => b"MCFG",
        Table::Hpet => b"HPET",
        Table::Srat => b"SRAT",
        Table::Slit => b"SLIT",
        Table::Waet => b"WAET",
        Table::Bert => b"BERT",
        Table::Bgrt => b"BGRT",
        Table::Spcr => b"SPCR",
        Table::Tpm2 => b"TPM2",
        Table::Erst => b"ERST",
        Table::Einj => b"EINJ",
        Table::Pcct => b"PCCT",
        Table::Tcpa => b"TCPA",
        Table::Gtdt => b"GTDT",
        Table::Hest => b"HEST",
        Table::Viot => b"VIOT",
        Table::Nfit => b"NFIT",
    }
}

/// The table of a signature.
pub fn table_of(signature: &[u8]) -> Option<Table>
    ensures { result ≡ spec.table_of signature.now }
{
    match signature {
        b"SLIT" => Some(Table::Slit),
        b"FACP" => Some(Table::Facp),
        b"APIC" => Some(Table::Apic),
        b"MCFG" => Some(Table::Mcfg),
        b"HPET" => Some(Table::Hpet),
        b"SRAT" => Some(Table::Srat),
        b"WAET" => Some(Table::Waet),
        b"BERT" => Some(Table::Bert),
        b"BGRT" => Some(Table::Bgrt),
        b"SPCR" => Some(Table::Spcr),
        b"TPM2" => Some(Table::Tpm2),
        b"ERST" => Some(Table::Erst),
        b"EINJ" => Some(Table::Einj),
        b"PCCT" => Some(Table::Pcct),
        b"TCPA" => Some(Table::Tcpa),
        b"GTDT" => Some(Table::Gtdt),
        b"HEST" => Some(Table::Hest),
        b"VIOT" => Some(Table::Viot),
        b"NFIT" => Some(Table::Nfit),
        _ => None,
    }
}

/// The fields of the header.
#[tactic(auto, unfolding(crate::specs::Layout::header_rows))]
pub fn header_rows() -> &'static [Row]
    ensures { result.now ≡ spec.header_rows }
{
    rows::HEADER
}

// How many bytes a table of this revision has, where it is one of these.
fn bytes_in(revision: u64, sizes: &[Size]) -> Option<u64>
    ensures { result ≡ spec.bytes_in revision sizes.now }
{
    for size in sizes {
        if revision == size.revision {
            return Some(size.bytes);
        }
    }
    None
}

// How many bytes a table has in each known revision, where the revision chooses it.
#[tactic(auto, unfolding(crate::specs::Layout::layout_of))]
fn sizes_of(table: Table) -> &'static [Size]
    ensures { result.now ≡ (spec.layout_of table).sizes }
{
    match table {
        Table::Facp => rows::FADT_SIZES,
        Table::Tpm2 => rows::TPM2_SIZES,
        Table::Gtdt => rows::GTDT_SIZES,
        _ => &[],
    }
}

/// Whether the revision of a table chooses how many bytes it has.
pub fn is_sized(table: Table) -> bool
    ensures { result ≡ spec.is_sized table }
{
    !sizes_of(table).is_empty()
}

/// Whether a table is known in a revision.
pub fn knows_revision(table: Table, revision: u64) -> bool
    ensures { result ≡ spec.knows_revision table revision }
{
    let sizes = sizes_of(table);
    sizes.is_empty() || bytes_in(revision, sizes).is_some()
}

// How many of these fields have room in so many bytes, from the first one on.
fn count_within(size: u64, rows: &[Row]) -> usize
    ensures within { result ≤ length rows.now }
    ensures taken { take result rows.now ≡ spec.first_bytes size rows.now }
{
    match rows {
        [row, rest @ ..] if row.width <= size => 1 + count_within(size - row.width, rest),
        _ => 0,
    }
}

// The first so many bytes of these fields.
fn first_bytes(size: u64, rows: &'static [Row]) -> &'static [Row]
    ensures { result.now ≡ spec.first_bytes size rows.now }
{
    &rows[..count_within(size, rows)]
}

// All fields of the fixed part.
#[tactic(auto, unfolding(crate::specs::Layout::layout_of))]
fn all_fixed_rows(table: Table) -> &'static [Row]
    ensures { result.now ≡ (spec.layout_of table).fixed }
{
    match table {
        Table::Facp => rows::FACP,
        Table::Apic => rows::APIC,
        Table::Mcfg => rows::MCFG,
        Table::Hpet => rows::HPET,
        Table::Srat => rows::SRAT,
        Table::Slit => rows::SLIT,
        Table::Waet => rows::WAET,
        Table::Bert => rows::BERT,
        Table::Bgrt => rows::BGRT,
        Table::Spcr => rows::SPCR,
        Table::Tpm2 => rows::TPM2,
        Table::Erst => rows::ERST,
        Table::Einj => rows::EINJ,
        Table::Pcct => rows::PCCT,
        Table::Tcpa => rows::TCPA,
        Table::Gtdt => rows::GTDT,
        Table::Hest => rows::HEST,
        Table::Viot => rows::VIOT,
        Table::Nfit => rows::NFIT,
    }
}

/// The fields of the fixed part behind the header, which the revision may choose.
#[tactic(auto, unfolding(crate::specs::Layout::fixed_rows))]
pub fn fixed_rows(table: Table, revision: u64) -> &'static [Row]
    ensures { result.now ≡ spec.fixed_rows table revision }
{
    let sizes = sizes_of(table);
    let rows = all_fixed_rows(table);
    if sizes.is_empty() {
        return rows;
    }
    match bytes_in(revision, sizes) {
        Some(bytes) => first_bytes(bytes.saturating_sub(HEADER_BYTES), rows),
        None => &[],
    }
}

/// What stands behind the fixed part.
#[tactic(auto, unfolding(crate::specs::Layout::layout_of))]
pub fn behind_of(table: Table) -> Behind
    ensures { result ≡ spec.behind_of table }
{
    match table {
        Table::Mcfg | Table::Erst | Table::Einj => Behind::Entries,
        Table::Apic
        | Table::Srat
        | Table::Pcct
        | Table::Gtdt
        | Table::Hest
        | Table::Viot
        | Table::Nfit => Behind::Structures,
        Table::Slit => Behind::Localities,
        Table::Facp
        | Table::Hpet
        | Table::Waet
        | Table::Bert
        | Table::Bgrt
        | Table::Spcr
        | Table::Tpm2
        | Table::Tcpa => Behind::Nothing,
    }
}

/// The fields of an entry behind the fixed part; none where the table has no entries.
#[tactic(auto, unfolding(crate::specs::Layout::layout_of))]
pub fn entry_rows(table: Table) -> &'static [Row]
    ensures { result.now ≡ spec.entry_rows table }
{
    match table {
        Table::Mcfg => rows::MCFG_ENTRY,
        Table::Erst | Table::Einj => rows::INSTRUCTION_ENTRY,
        _ => &[],
    }
}

/// The field that a structure begins with, its type; none where the table has no structures.
#[tactic(auto, unfolding(crate::specs::Layout::layout_of))]
pub fn type_rows(table: Table) -> &'static [Row]
    ensures { result.now ≡ spec.type_rows table }
{
    match table {
        Table::Apic | Table::Srat | Table::Pcct | Table::Gtdt => rows::STRUCTURE_TYPE,
        Table::Hest | Table::Nfit => rows::SOURCE_TYPE,
        Table::Viot => rows::NODE_TYPE,
        _ => &[],
    }
}

fn madt_rows(number: u64) -> Option<&'static [Row]>
    ensures { MatchOption result (spec.find_structure number layouts.madt_structures ≡ None)
        (λ rows. spec.find_structure number layouts.madt_structures ≡ Some rows.now) }
{
    match number {
        0 => Some(rows::LOCAL_APIC),
        1 => Some(rows::IO_APIC),
        2 => Some(rows::INTERRUPT_SOURCE_OVERRIDE),
        3 => Some(rows::NMI_SOURCE),
        4 => Some(rows::LOCAL_APIC_NMI),
        5 => Some(rows::LOCAL_APIC_ADDRESS_OVERRIDE),
        9 => Some(rows::LOCAL_X2APIC),
        10 => Some(rows::LOCAL_X2APIC_NMI),
        11 => Some(rows::GIC_CPU_INTERFACE),
        12 => Some(rows::GIC_DISTRIBUTOR),
        13 => Some(rows::GIC_MSI_FRAME),
        14 => Some(rows::GIC_REDISTRIBUTOR),
        15 => Some(rows::GIC_TRANSLATION_SERVICE),
        _ => None,
    }
}

fn srat_rows(number: u64) -> Option<&'static [Row]>
    ensures { MatchOption result (spec.find_structure number layouts.srat_structures ≡ None)
        (λ rows. spec.find_structure number layouts.srat_structures ≡ Some rows.now) }
{
    match number {
        0 => Some(rows::PROCESSOR_AFFINITY),
        1 => Some(rows::MEMORY_AFFINITY),
        2 => Some(rows::X2APIC_AFFINITY),
        3 => Some(rows::GICC_AFFINITY),
        4 => Some(rows::TRANSLATION_SERVICE_AFFINITY),
        5 => Some(rows::INITIATOR_AFFINITY),
        _ => None,
    }
}

fn pcct_rows(number: u64) -> Option<&'static [Row]>
    ensures { MatchOption result (spec.find_structure number layouts.pcct_structures ≡ None)
        (λ rows. spec.find_structure number layouts.pcct_structures ≡ Some rows.now) }
{
    match number {
        0 => Some(rows::GENERIC_SUBSPACE),
        1 => Some(rows::REDUCED_SUBSPACE),
        2 => Some(rows::ACKNOWLEDGED_SUBSPACE),
        3 | 4 => Some(rows::EXTENDED_SUBSPACE),
        _ => None,
    }
}

fn gtdt_rows(number: u64) -> Option<&'static [Row]>
    ensures { MatchOption result (spec.find_structure number layouts.gtdt_structures ≡ None)
        (λ rows. spec.find_structure number layouts.gtdt_structures ≡ Some rows.now) }
{
    match number {
        1 => Some(rows::WATCHDOG_TIMER),
        _ => None,
    }
}

fn hest_rows(number: u64) -> Option<&'static [Row]>
    ensures { MatchOption result (spec.find_structure number layouts.hest_structures ≡ None)
        (λ rows. spec.find_structure number layouts.hest_structures ≡ Some rows.now) }
{
    match number {
        6 => Some(rows::ROOT_PORT_ERRORS),
        7 => Some(rows::ENDPOINT_ERRORS),
        8 => Some(rows::BRIDGE_ERRORS),
        9 => Some(rows::GENERIC_ERRORS),
        10 => Some(rows::ACKNOWLEDGED_ERRORS),
        _ => None,
    }
}

fn viot_rows(number: u64) -> Option<&'static [Row]>
    ensures { MatchOption result (spec.find_structure number layouts.viot_structures ≡ None)
        (λ rows. spec.find_structure number layouts.viot_structures ≡ Some rows.now) }
{
    match number {
        1 => Some(rows::PCI_RANGE),
        2 => Some(rows::MMIO_ENDPOINT),
        3 => Some(rows::VIRTIO_PCI),
        4 => Some(rows::VIRTIO_MMIO),
        _ => None,
    }
}

fn nfit_rows(number: u64) -> Option<&'static [Row]>
    ensures { MatchOption result (spec.find_structure number layouts.nfit_structures ≡ None)
        (λ rows. spec.find_structure number layouts.nfit_structures ≡ Some rows.now) }
{
    match number {
        0 => Some(rows::ADDRESS_RANGE),
        1 => Some(rows::REGION_MAP),
        4 => Some(rows::CONTROL_REGION),
        5 => Some(rows::DATA_REGION),
        7 => Some(rows::PLATFORM_CAPABILITIES),
        _ => None,
    }
}

/// The fields of a structure behind its type; none where the table has no structures of this type.
#[tactic(auto, unfolding(crate::specs::Layout::layout_of))]
pub fn structure_rows(table: Table, number: u64) -> Option<&'static [Row]>
    ensures { MatchOption result (spec.structure_rows table number ≡ None)
        (λ rows. spec.structure_rows table number ≡ Some rows.now) }
{
    match table {
        Table::Apic => madt_rows(number),
        Table::Srat => srat_rows(number),
        Table::Pcct => pcct_rows(number),
        Table::Gtdt => gtdt_rows(number),
        Table::Hest => hest_rows(number),
        Table::Viot => viot_rows(number),
        Table::Nfit => nfit_rows(number),
        _ => None,
    }
}

/// The field of a locality of the SLIT: a byte for each of so many localities.
pub fn locality_row(count: u64, number: u64) -> Row
    ensures { result ≡ spec.locality_row count number }
{
    Row {
        label: rows::LOCALITY,
        width: count,
        kind: Kind::Locality(number),
        flags: FlagSet::None,
    }
}

/// The flags of a set.
#[tactic(auto, unfolding(crate::specs::Layout::flags_of))]
pub fn flags_of(set: FlagSet) -> &'static [Flag]
    ensures { result.now ≡ spec.flags_of set }
{
    match set {
        FlagSet::None => &[],
        FlagSet::Fadt => rows::FADT_FLAGS,
        FlagSet::Arm => rows::ARM_FLAGS,
        FlagSet::Madt => rows::MADT_FLAGS,
        FlagSet::Processor => rows::PROCESSOR_FLAGS,
        FlagSet::Interrupt => rows::INTERRUPT_FLAGS,
        FlagSet::PageProtect => rows::PAGE_PROTECT_FLAGS,
        FlagSet::Affinity => rows::AFFINITY_FLAGS,
        FlagSet::Memory => rows::MEMORY_FLAGS,
        FlagSet::Emulated => rows::EMULATED_FLAGS,
        FlagSet::Image => rows::IMAGE_FLAGS,
        FlagSet::Instruction => rows::INSTRUCTION_FLAGS,
        FlagSet::Doorbell => rows::DOORBELL_FLAGS,
        FlagSet::Channel => rows::CHANNEL_FLAGS,
        FlagSet::Timer => rows::TIMER_FLAGS,
        FlagSet::Watchdog => rows::WATCHDOG_FLAGS,
        FlagSet::AdvancedError => rows::ADVANCED_ERROR_FLAGS,
        FlagSet::Range => rows::RANGE_FLAGS,
        FlagSet::Device => rows::DEVICE_FLAGS,
        FlagSet::Window => rows::WINDOW_FLAGS,
        FlagSet::Capability => rows::CAPABILITY_FLAGS,
    }
}

#[tactic(auto, using(crate::proofs::Bits::none_left))]
fn without_low_bits(number: u64, count: u32) -> u64
    ensures { result ≡ number / 2 ^ count }
{
    if count < 64 { number >> count } else { 0 }
}

#[tactic(auto, using(crate::proofs::Bits::all_below, crate::proofs::Bits::one_bit))]
fn low_bits(number: u64, count: u32) -> u64
    ensures { result ≡ number % 2 ^ count }
{
    if count < 64 {
        number % (1 << count)
    } else {
        number
    }
}

/// The bits of a field that a flag tells, as a number.
pub fn flag_value(number: u64, flag: Flag) -> u64
    ensures { result ≡ spec.flag_value number flag }
{
    low_bits(without_low_bits(number, flag.first), flag.bits)
}
