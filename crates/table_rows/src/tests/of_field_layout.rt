use field_layout::layout::{FieldItem, FieldItems, LayoutStop, Unit, layout};
use field_layout::segments::{Segment, SegmentStop, SerialItem, SerialItems, segments};
use std::alloc::{AllocError, Global};

/// The items of a list, the access and the length of its region in bytes, and the second of its three units, or the item and the number
/// of its fault.
static LAYOUTS: [(&[FieldItem], u8, Option<u64>, Result<Unit, (u32, u16)>); 3] = [
    (
        &TWELVE,
        2,
        Some(4),
        Ok(Unit {
            name: 2,
            at: 12,
            bits: 8,
        }),
    ),
    (&TWELVE, 8, Some(4), Err((3, 6072))),
    (
        &[
            FieldItem::Unit { name: 1, bits: 8 },
            FieldItem::Offset { bytes: 0 },
            FieldItem::Unit { name: 2, bits: 8 },
        ],
        1,
        None,
        Err((1, 6070)),
    ),
];

const TWELVE: [FieldItem; 3] = [
    FieldItem::Unit { name: 1, bits: 12 },
    FieldItem::Unit { name: 2, bits: 8 },
    FieldItem::Unit { name: 3, bits: 12 },
];

// The second of three units of a list, or its fault.
fn second_unit(
    alloc: Global,
    list: &[FieldItem],
    access: u8,
    region: Option<u64>,
) -> Result<Result<Unit, (u32, u16)>, AllocError> {
    let mut items = FieldItems::new(alloc);
    for item in list {
        items.push(*item)?;
    }
    if items.len() > 99 {
        return Ok(Err((0, 1)));
    }
    match layout(alloc, &items, access, region) {
        Ok(units) if units.len() == 3 => Ok(units.get(1).copied().ok_or((0, 2))),
        Err(LayoutStop::Fault { item, number }) => Ok(Err((item, number))),
        _ => Ok(Err((0, 3))),
    }
}

#[test]
fn units_have_their_places(rt: HostRuntime) -> Result<(), AllocError> {
    for (list, access, region, want) in &LAYOUTS {
        assert!(rt; second_unit(rt.alloc(), list, *access, *region)? == *want);
    }
    Ok(())
}

const UNIT: SerialItem = SerialItem::Unit { name: 1, bits: 8 };

const SKIP: SerialItem = SerialItem::Skip { bits: 8 };

const OFFSET: SerialItem = SerialItem::Offset { bytes: 4 };

const CONNECTED: SerialItem = SerialItem::Connection { element: 7 };

const ELSEWHERE: SerialItem = SerialItem::Connection { element: 0 };

const BYTES: SerialItem = SerialItem::AccessAs {
    access: 5,
    attribute: 11,
    length: 16,
};

const BYTE: SerialItem = SerialItem::AccessAs {
    access: 1,
    attribute: 6,
    length: 0,
};

fn listed(alloc: Global, list: &[SerialItem]) -> Result<SerialItems, AllocError> {
    let mut items = SerialItems::new(alloc);
    for item in list {
        items.push(*item)?;
    }
    Ok(items)
}

/// The items of a list, the space of its region, and the number and the place of its fault, or zeros. Of two faults at one unit the lesser
/// number is told.
static LISTS: [(&[SerialItem], u8, (u16, u32)); 11] = [
    (&[UNIT, BYTES, UNIT], 9, (6073, 0)),
    (&[CONNECTED, UNIT], 4, (6073, 1)),
    (&[BYTES, UNIT, BYTE, UNIT], 7, (6073, 3)),
    (&[BYTES, UNIT, CONNECTED, UNIT], 9, (6075, 1)),
    (&[BYTES, CONNECTED, UNIT], 9, (0, 0)),
    (&[UNIT], 8, (6075, 0)),
    (&[CONNECTED, UNIT, BYTES, UNIT], 8, (6074, 3)),
    (&[BYTES, UNIT], 8, (6074, 1)),
    (&[BYTES, UNIT, CONNECTED], 0, (6074, 1)),
    (&[UNIT, CONNECTED, UNIT], 0, (0, 0)),
    (&[BYTES, SKIP, CONNECTED, OFFSET, BYTE], 9, (0, 0)),
];

// The number and the place of the fault of a list, or zeros.
fn fault_of(alloc: Global, list: &[SerialItem], space: u8) -> Result<(u16, u32), AllocError> {
    let items = listed(alloc, list)?;
    if items.len() > 99 {
        return Ok((1, 0));
    }
    match segments(alloc, &items, space, 1) {
        Err(SegmentStop::Fault { item, number }) => Ok((number, item)),
        _ => Ok((0, 0)),
    }
}

/// A list whose field has access 5, and its units.
static UNITS: [(&[SerialItem], &[Segment]); 3] = [
    (
        &[UNIT, BYTES, CONNECTED, UNIT],
        &[
            Segment {
                unit: 0,
                access: 5,
                attribute: 0,
                length: 0,
                connection: None,
            },
            Segment {
                unit: 3,
                access: 5,
                attribute: 11,
                length: 16,
                connection: Some(7),
            },
        ],
    ),
    // The last of two accesses and of two connections counts, and neither takes the other away.
    (
        &[
            BYTE, CONNECTED, BYTES, ELSEWHERE, SKIP, OFFSET, UNIT, CONNECTED, BYTES, UNIT,
        ],
        &[
            Segment {
                unit: 6,
                access: 5,
                attribute: 11,
                length: 16,
                connection: Some(0),
            },
            Segment {
                unit: 9,
                access: 5,
                attribute: 11,
                length: 16,
                connection: Some(7),
            },
        ],
    ),
    (&[BYTES, CONNECTED], &[]),
];

// Whether a list of a field with access 5 comes to these units.
fn comes_to(alloc: Global, list: &[SerialItem], want: &[Segment]) -> Result<bool, AllocError> {
    let items = listed(alloc, list)?;
    if items.len() > 99 {
        return Ok(false);
    }
    match segments(alloc, &items, 7, 5) {
        Ok(units) => Ok(units.as_slice() == want),
        Err(_) => Ok(false),
    }
}

#[test]
fn units_have_their_accesses_and_faults(rt: HostRuntime) -> Result<(), AllocError> {
    for (list, space, want) in &LISTS {
        assert!(rt; fault_of(rt.alloc(), list, *space)? == *want);
    }
    for (list, want) in &UNITS {
        assert!(rt; comes_to(rt.alloc(), list, want)?);
    }
    Ok(())
}
