//! How the units of a field are accessed, and what they are connected to.
ghost use Rattle.std.specs.Prelude.{◌≡◌, ◌<◌, ◌^◌, ◌++◌, length, None, IfOk, IfErr, OnOk};
ghost use Rattle.field_layout.specs.Segments as spec;

use iasl_messages::number::{
    BUFFER_ACCESS_NOT_ALLOWED, CONNECTION_IS_MISSING, SPACE_NEEDS_BUFFER_ACCESS,
};
use iasl_ports::list::List;
use std::alloc::{AllocError, Global};

/// An item of a field's list (ACPI Specification 6.4, 19.6.48, 19.6.3 and 19.6.16): a unit, bits without a name, or the byte at
/// which the next item stands; how the units behind it are accessed; or what they are connected to, by a number of the caller's.
#[derive(Clone, Copy, PartialEq, Eq, Debug, Drop)]
pub enum SerialItem {
    Unit {
        name: u32,
        bits: u64,
    },
    Skip {
        bits: u64,
    },
    Offset {
        bytes: u64,
    },
    AccessAs {
        access: u8,
        attribute: u8,
        length: u8,
    },
    Connection {
        element: u32,
    },
}

/// Items in order.
pub type SerialItems = List<SerialItem>;

/// A unit by its place among the items, with its access, the attribute and the length of its transfers, and its connection.
#[derive(Clone, Copy, PartialEq, Eq, Debug, Drop)]
pub struct Segment {
    pub unit: u32,
    pub access: u8,
    pub attribute: u8,
    pub length: u8,
    pub connection: Option<u32>,
}

/// Segments in order.
pub type Segments = List<Segment>;

/// Why there are no segments: the number of a message at an item, counted from 0, or want of memory.
#[derive(Clone, Copy, PartialEq, Eq, Debug, Drop)]
pub enum SegmentStop {
    Fault { item: u32, number: u16 },
    Memory,
}

impl From<AllocError> for SegmentStop {
    ghost use Rattle.field_layout.specs.declared.segments.SegmentStop.TheVariants.{Memory};

    ghost from_gives = { λ _ e. e ≡ Memory };

    fn from(_: AllocError) -> Self {
        SegmentStop::Memory
    }
}

/// What the items so far say of the next unit.
#[derive(Clone, Copy, Debug, Drop)]
pub struct Said {
    pub access: u8,
    pub attribute: u8,
    pub length: u8,
    pub connection: Option<u32>,
}

/// What is said at the begin of a list, whose field has this access.
pub fn first_said(access: u8) -> Said
    ensures { result ≡ spec.first_said access }
{
    Said {
        access,
        attribute: 0,
        length: 0,
        connection: None,
    }
}

/// What is said behind an item.
pub fn said_behind(said: Said, item: &SerialItem) -> Said
    ensures { result ≡ spec.said_behind said item.now }
{
    match *item {
        SerialItem::AccessAs {
            access,
            attribute,
            length,
        } => Said {
            access,
            attribute,
            length,
            connection: said.connection,
        },
        SerialItem::Connection { element } => Said {
            access: said.access,
            attribute: said.attribute,
            length: said.length,
            connection: Some(element),
        },
        _ => said,
    }
}

fn is_buffer_space(space: u8) -> bool
    ensures { result ≡ spec.is_buffer_space space }
{
    space == 4 || space == 7 || space == 9
}

fn needs_connection(space: u8) -> bool
    ensures { result ≡ spec.needs_connection space }
{
    space == 8 || space == 9
}

// What is wrong with a unit.
fn unit_fault(space: u8, said: Said) -> Option<u16>
    ensures { result ≡ spec.unit_fault space said }
{
    let buffer = said.access == 5;
    if is_buffer_space(space) {
        if !buffer {
            return Some(SPACE_NEEDS_BUFFER_ACCESS);
        }
    } else if buffer {
        return Some(BUFFER_ACCESS_NOT_ALLOWED);
    }
    if needs_connection(space) && said.connection.is_none() {
        Some(CONNECTION_IS_MISSING)
    } else {
        None
    }
}

/// What is wrong with an item where this is said, in a region of this space: 6073, 6074 or 6075 of a unit, and nothing of any other.
pub fn item_fault(space: u8, said: Said, item: &SerialItem) -> Option<u16>
    ensures { result ≡ spec.item_fault space said item.now }
{
    match *item {
        SerialItem::Unit { .. } => unit_fault(space, said),
        _ => None,
    }
}

// Adds the segment of an item, if it is a unit.
fn add_segment(
    segments: &mut Segments,
    item: &SerialItem,
    place: u32,
    said: Said,
) -> Result<(), AllocError>
    ensures { OnOk result (segments.new ≡ segments.old ++ spec.segments_of said place item.now) }
{
    if let SerialItem::Unit { .. } = *item {
        segments.push(Segment {
            unit: place,
            access: said.access,
            attribute: said.attribute,
            length: said.length,
            connection: said.connection,
        })?;
    }
    Ok(())
}

/// Of each unit the last access and the last connection before it, or else the field's access and no connection; or the first
/// unit that has a fault in a region of the space: one that is not accessed as a Buffer where the space asks for it (6073), one
/// that is where it does not (6074), or one without a connection where the space asks for one (6075).
pub fn segments(
    alloc: Global,
    items: &SerialItems,
    space: u8,
    access: u8,
) -> Result<Segments, SegmentStop>
    requires { length items.now < 2 ^ 32 }
    ensures segments { IfOk result (λ segments. segments ≡ spec.segments_from (spec.first_said access) 0 items.now) }
    ensures fine { IfOk result (λ segments. spec.first_fault space (spec.first_said access) 0 items.now ≡ None) }
    ensures fault { IfErr result (λ stop. spec.TellsFault stop (spec.first_fault space (spec.first_said access) 0 items.now)) }
{
    let mut segments = Segments::new(alloc);
    let mut said = first_said(access);
    let mut place: u32 = 0;
    for item in items.as_slice() {
        match item_fault(space, said, item) {
            Some(number) => {
                return Err(SegmentStop::Fault {
                    item: place,
                    number,
                });
            }
            None => {}
        }
        add_segment(&mut segments, item, place, said)?;
        said = said_behind(said, item);
        place += 1;
    }
    Ok(segments)
}
