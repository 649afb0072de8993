use super::of_aml_writer::{ALL_FORMS, CONNECTED, ELSE_IFS, FORMS, core, no_lines};
use aml_sizes::measure::measure;
use aml_sizes::reserve::reserve;
use std::alloc::{AllocError, Global};
use std::test::Fail;

/// The terms of a block, how many bytes its table has, and of how many pieces and of packages of which lengths its room is. The
/// length of a package counts its own bytes.
static ROOMS: [(&str, u32, usize, &[u32]); 4] = [
    ("MAIN 0 { 1 Return } Method", 45, 3, &[8]),
    (ALL_FORMS, 118, 9, &[20, 6, 6, 17]),
    (CONNECTED, 77, 2, &[39, 5]),
    (ELSE_IFS, 57, 9, &[20, 3, 9, 4, 2]),
];

// Whether a block's table has so many bytes, and its room is of so many pieces and of packages of these lengths.
fn has_room(
    alloc: Global,
    text: &str,
    size: u32,
    pieces: usize,
    lengths: &[u32],
) -> Result<bool, AllocError> {
    let core = core(alloc, &FORMS, text)?;
    if core.program.blocks.is_empty() {
        return Ok(false);
    }
    let is_size = match measure(&core, 0, true) {
        Ok(measured) => measured == size,
        Err(_) => false,
    };
    match reserve(alloc, &core, &no_lines(alloc), 0, true) {
        Ok(room) => Ok(
            is_size && room.pieces.len() == pieces && room.lengths.as_slice() == lengths,
        ),
        Err(_) => Ok(false),
    }
}

#[test]
fn tables_have_this_room(rt: HostRuntime) -> Result<(), Fail> {
    let alloc = rt.alloc();
    for (text, size, pieces, lengths) in &ROOMS {
        assert!(rt;
            has_room(alloc, text, *size, *pieces, lengths)?,
            "at {text}"
        );
    }
    Ok(())
}
