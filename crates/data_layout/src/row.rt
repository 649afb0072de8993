//! What a field of a table is.

/// What a decoded line below a field of flags tells: some bits of the field.
#[derive(Clone, Copy, Debug)]
pub struct Flag {
    /// Its label, filled with blanks.
    pub label: [u8; 30],
    /// The lowest of the bits.
    pub first: u32,
    /// How many bits it has.
    pub bits: u32,
}

/// Which flags decoded lines below a field may tell.
#[derive(Clone, Copy, PartialEq, Eq, Debug)]
pub enum FlagSet {
    None,
    Fadt,
    Arm,
    Madt,
    Processor,
    Interrupt,
    PageProtect,
    Affinity,
    Memory,
    Emulated,
    Image,
    Instruction,
    Doorbell,
    Channel,
    Timer,
    Watchdog,
    AdvancedError,
    Range,
    Device,
    Window,
    Capability,
}

/// How the value of a field is written and kept.
#[derive(Clone, Copy, PartialEq, Eq, Debug)]
pub enum Kind {
    /// A number, its lowest byte first.
    Number,
    /// A text, filled with zeros.
    Text,
    /// So many bytes.
    Bytes,
    /// A UUID, which has 16 bytes.
    Guid,
    /// The number 0.
    Reserved,
    /// A number in whose place the number of the table's bytes stands.
    TableLength,
    /// A number in whose place the byte stands that makes the sum of the table's bytes 0.
    Checksum,
    /// A text in whose place `INTL` stands.
    CompilerId,
    /// A number in whose place 20210105, in hexadecimal, stands.
    CompilerRevision,
    /// A number in whose place this length of the structure stands.
    Length(u8),
    /// The table's revision.
    Revision,
    /// The type of a structure.
    StructureType,
    /// How many localities the table has, at most 4000.
    Localities,
    /// The row of the locality with this number: a byte for each locality.
    Locality(u64),
}

/// A field.
#[derive(Clone, Copy, Debug)]
pub struct Row {
    /// Its label, filled with blanks. That of a locality's row has the locality's number behind it.
    pub label: [u8; 30],
    /// How many bytes it has.
    pub width: u64,
    pub kind: Kind,
    /// The flags that decoded lines below it may tell.
    pub flags: FlagSet,
}

/// What stands behind the fixed part of a table.
#[derive(Clone, Copy, PartialEq, Eq, Debug)]
pub enum Behind {
    Nothing,
    /// Entries of one form.
    Entries,
    /// Structures, each with its type.
    Structures,
    /// A row for each of so many localities as the fixed part says.
    Localities,
}

/// How many bytes a table has in a revision, where the revision chooses it.
#[derive(Clone, Copy, Debug)]
pub struct Size {
    pub revision: u64,
    /// Those of the header and of the fixed part.
    pub bytes: u64,
}
