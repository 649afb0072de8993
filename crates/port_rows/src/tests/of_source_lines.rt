use iasl_messages::place::{Line, LineList, Place};
use iasl_ports::list::Text;
use source_lines::lines::{SourceLines, text_at};
use std::alloc::{AllocError, Global};

/// Lines, each with its file, its number and its text; two have the same file and number.
static LINES: [(u32, u32, &[u8]); 4] = [
    (0, 1, b"first"),
    (1, 1, b"of the other file"),
    (0, 1, b"first again"),
    (0, 2, b"second"),
];

/// Files, numbers and columns, and the text of the line there.
static PLACES: [(u32, u32, u32, &[u8]); 7] = [
    (0, 1, 1, b"first"),
    (0, 1, 7, b"first"),
    (1, 1, 1, b"of the other file"),
    (0, 2, 1, b"second"),
    (0, 3, 1, b""),
    (1, 2, 1, b""),
    (2, 1, 1, b""),
];

/// Lines in the order of their files and numbers, of which some are left out.
static ASCENDING_LINES: [(u32, u32, &[u8]); 7] = [
    (0, 2, b"second"),
    (0, 3, b"third"),
    (0, 7, b"seventh"),
    (0, 8, b""),
    (1, 1, b"of the second file"),
    (3, 4, b"of the fourth file"),
    (3, 5, b"last"),
];

/// Files, numbers and columns, and the text of the line there.
static ASCENDING: [(u32, u32, u32, &[u8]); 12] = [
    (0, 0, 1, b""),
    (0, 1, 1, b""),
    (0, 2, 1, b"second"),
    (0, 3, 1, b"third"),
    (0, 4, 1, b""),
    (0, 7, 1, b"seventh"),
    (1, 1, 1, b"of the second file"),
    (2, 1, 1, b""),
    (3, 4, 1, b"of the fourth file"),
    (3, 5, 1, b"last"),
    (3, 6, 1, b""),
    (4, 1, 1, b""),
];

fn lines(alloc: Global, rows: &[(u32, u32, &[u8])]) -> Result<LineList, AllocError> {
    let mut lines = LineList::new(alloc);
    for (file, number, text) in rows {
        lines.push(Line {
            file: *file,
            number: *number,
            text: Text::from_bytes(alloc, text)?,
        })?;
    }
    Ok(lines)
}

// Whether the line of a place has this text, also where it is sought without an index.
fn has_text(
    alloc: Global,
    lines: &[Line],
    index: &SourceLines<'_>,
    place: Place,
    text: &[u8],
) -> Result<bool, AllocError> {
    let found = index.text_at(alloc, place)?;
    Ok(found.as_bytes() == text && text_at(lines, place) == text)
}

// The first of some places whose line has another text.
fn wrong_place(
    alloc: Global,
    rows: &[(u32, u32, &[u8])],
    places: &[(u32, u32, u32, &[u8])],
) -> Result<Option<Place>, AllocError> {
    let lines = lines(alloc, rows)?;
    let index = SourceLines::new(alloc, lines.as_slice())?;
    for (file, line, column, text) in places {
        let place = Place {
            file: *file,
            line: *line,
            column: *column,
        };
        if !has_text(alloc, lines.as_slice(), &index, place, text)? {
            return Ok(Some(place));
        }
    }
    Ok(None)
}

#[test]
fn lines_of_places(rt: HostRuntime) -> Result<(), AllocError> {
    assert_eq!(rt; wrong_place(rt.alloc(), &LINES, &PLACES)?, None);
    assert_eq!(rt;
        wrong_place(rt.alloc(), &ASCENDING_LINES, &ASCENDING)?,
        None
    );
    Ok(())
}
