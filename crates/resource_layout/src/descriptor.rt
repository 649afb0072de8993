//! What a resource descriptor is made of.

/// What words of one kind tell (ACPI Specification 6.4, 19.6).
#[derive(Clone, Copy, PartialEq, Eq, Debug)]
pub enum Kind {
    /// `ResourceProducer` 0, `ResourceConsumer` 1.
    Usage,
    /// `PosDecode` 0, `SubDecode` 1.
    Decode,
    /// `MinNotFixed` 0, `MinFixed` 1.
    MinimumFixed,
    /// `MaxNotFixed` 0, `MaxFixed` 1.
    MaximumFixed,
    /// `ReadOnly` 0, `ReadWrite` 1.
    Access,
    /// `NonCacheable` 0, `Cacheable` 1, `WriteCombining` 2, `Prefetchable` 3.
    Caching,
    /// `AddressRangeMemory` 0, `AddressRangeReserved` 1, `AddressRangeACPI` 2, `AddressRangeNVS` 3.
    Range,
    /// `TypeStatic` 0, `TypeTranslation` 1.
    Translation,
    /// `DenseTranslation` 0, `SparseTranslation` 1.
    Sparse,
    /// `NonISAOnlyRanges` 1, `ISAOnlyRanges` 2, `EntireRange` 3.
    IsaRange,
    /// `Decode10` 0, `Decode16` 1.
    IoDecode,
    /// `Level` 0, `Edge` 1.
    Mode,
    /// `ActiveHigh` 0, `ActiveLow` 1, `ActiveBoth` 2.
    Level,
    /// `Exclusive` 0, `Shared` 1, `ExclusiveAndWake` 2, `SharedAndWake` 3.
    Sharing,
    /// `Compatibility` 0, `TypeA` 1, `TypeB` 2, `TypeF` 3.
    DmaType,
    /// `NotBusMaster` 0, `BusMaster` 1.
    BusMaster,
    /// `Transfer8` 0, `Transfer8_16` 1, `Transfer16` 2.
    Transfer,
    /// `Width8bit` 0, `Width16bit` 1, `Width32bit` 2, `Width64bit` 3, `Width128bit` 4, `Width256bit` 5.
    DmaWidth,
    /// The spaces of a region, as `SystemIO` 1, and `FFixedHW` 0x7F.
    Space,
    /// `PullDefault` 0, `PullUp` 1, `PullDown` 2, `PullNone` 3.
    Pull,
    /// `IoRestrictionNone` 0, `IoRestrictionInputOnly` 1, `IoRestrictionOutputOnly` 2, `IoRestrictionNoneAndPreserve` 3.
    IoRestriction,
    /// `ControllerInitiated` 0, `DeviceInitiated` 1.
    Initiator,
    /// `AddressingMode7Bit` 0, `AddressingMode10Bit` 1.
    Addressing,
}

/// A word that an argument may be: its kind and its number.
#[derive(Clone, Copy, PartialEq, Eq, Debug)]
pub struct Word {
    pub kind: Kind,
    pub number: u64,
}

/// A descriptor's macro.
#[derive(Clone, Copy, PartialEq, Eq, Debug)]
pub enum Descriptor {
    Irq,
    IrqNoFlags,
    Dma,
    FixedDma,
    StartDependentFn,
    StartDependentFnNoPri,
    EndDependentFn,
    Io,
    FixedIo,
    VendorShort,
    VendorLong,
    Memory24,
    Memory32,
    Memory32Fixed,
    Register,
    Interrupt,
    WordIo,
    DWordIo,
    QWordIo,
    ExtendedIo,
    DWordMemory,
    QWordMemory,
    ExtendedMemory,
    WordBusNumber,
    WordSpace,
    DWordSpace,
    QWordSpace,
    ExtendedSpace,
    GpioInt,
    GpioIo,
    I2cSerialBus,
}

/// How a descriptor begins.
#[derive(Clone, Copy, PartialEq, Eq, Debug)]
pub enum Head {
    /// A byte: in bits 0 to 2 how many bytes follow, from bit 3 on the item's name.
    Small(u64),
    /// The tag, and two bytes that tell how many bytes follow.
    Large(u64),
}

/// What the members of a descriptor's list are.
#[derive(Clone, Copy, PartialEq, Eq, Debug)]
pub enum Body {
    /// There is no list.
    Nothing,
    /// Numbers of bits, of so many.
    Bits(u64),
    /// Numbers that stand behind the fields, each of so many bits; at least so many, and at most so many.
    Numbers { bits: u32, least: u64, most: u64 },
    /// Descriptors.
    Descriptors,
}

/// How a descriptor begins, and how long it is.
#[derive(Clone, Copy, Debug)]
pub struct Row {
    pub descriptor: Descriptor,
    pub head: Head,
    /// How many bytes its head and its fields have.
    pub bytes: u8,
    pub body: Body,
}

/// What gives a field its value.
#[derive(Clone, Copy, PartialEq, Eq, Debug)]
pub enum Giver {
    /// An argument: a number that fits the field.
    Number,
    /// An argument: a number from the first to the last.
    Between(u64, u64),
    /// An argument: a word.
    Word(Kind),
    /// An argument: a word whose number is less than this.
    WordBelow(Kind, u64),
    /// An argument: a word or a number.
    WordOrNumber(Kind),
    /// The argument that names the descriptor; it has no bits.
    Name,
    /// The argument with the index of a source: a byte behind the fields.
    Index,
    /// The argument with a source's text, which stands behind the fields.
    Source,
    /// The argument with the text of a source without index, which stands behind the fields.
    Text,
    /// An argument that stands empty; it has no bits.
    Vacant,
    /// Always this number.
    Fixed(u64),
    /// How many bytes stand before the text of the source.
    TextPlace,
    /// How many bytes the whole has, of which the text of the source is the last part.
    TextEnd,
    /// The list: the bits of its members.
    Mask,
    /// The list: how many members it has.
    Count,
    /// Nothing: the list's first member, which stands behind the fields.
    FirstMember,
}

/// A field of a descriptor, or an argument of its macro.
#[derive(Clone, Copy, Debug)]
pub struct Field {
    /// The place of the argument that gives it, where one does.
    pub argument: usize,
    /// Its name; blanks where it has none.
    pub name: [u8; 4],
    /// The place of its lowest bit in the descriptor.
    pub at: u32,
    /// How many bits it has.
    pub bits: u32,
    pub giver: Giver,
    /// Its value where the argument is left out; none where it may not be.
    pub default: Option<u64>,
}
