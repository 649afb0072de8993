use iasl_messages::console::{
    devices_line, listed_line, preprocessed_line, render, summary, table_line,
};
use iasl_messages::message::{Message, Messages};
use iasl_messages::order::sort;
use iasl_messages::place::Place;
use iasl_messages::severity::{Severity, count_of};
use iasl_messages::texts::text_of;
use iasl_ports::list::{List, Text, Texts};
use std::alloc::{AllocError, Global};

/// A message: its number, its file, line and column, and its name.
type Row = (u16, u32, u32, u32, &'static str);

fn messages(alloc: Global, rows: &[Row]) -> Result<Messages, AllocError> {
    let mut list = List::new(alloc);
    for (number, file, line, column, name) in rows {
        list.push(Message {
            number: *number,
            place: Place {
                file: *file,
                line: *line,
                column: *column,
            },
            name: Text::from_bytes(alloc, name.as_bytes())?,
        })?;
    }
    Ok(list)
}

fn names(alloc: Global) -> Result<Texts, AllocError> {
    let mut files = List::new(alloc);
    files.push(Text::from_bytes(alloc, b"t.asl")?)?;
    files.push(Text::from_bytes(alloc, b"dir/b.asl")?)?;
    Ok(files)
}

// The sorted messages' text, and nothing where a file has no name.
fn shown(alloc: Global, list: Messages, brief: bool) -> Result<Text, AllocError> {
    let files = names(alloc)?;
    let list = sort(alloc, list)?;
    let count = files.len();
    if list
        .as_slice()
        .iter()
        .all(|m| (m.place.file as usize) < count)
    {
        render(alloc, &list, &files, brief)
    } else {
        Ok(Text::new(alloc))
    }
}

const TWO: [Row; 2] = [(6041, 0, 5, 26, "Y___"), (6040, 0, 4, 23, "\\D___.X___")];

/// Messages, whether they are shown briefly, and their text.
static SHOWN: [(&[Row], bool, &str); 3] = [
    (
        &TWO,
        false,
        "t.asl:4:23: error 6040: name is declared twice: \\D___.X___\nt.asl:5:26: error 6041: name is not found: Y___\n",
    ),
    (
        &TWO,
        true,
        "t.asl(4) : error 6040 : name is declared twice\nt.asl(5) : error 6041 : name is not found\n",
    ),
    (
        &[
            (6002, 0, 1, 1, "t.asl"),
            (2001, 1, 1, 1, ""),
            (3003, 0, 1, 1, "b"),
            (3003, 0, 1, 1, "a"),
            (6015, 0, 10, 2, ""),
            (6015, 0, 3, 16, ""),
        ],
        false,
        "t.asl:1:1: warning 3003: name is never used: a\nt.asl:1:1: warning 3003: name is never used: b\n\
            t.asl:1:1: error 6002: includes are nested too deep: t.asl\nt.asl:3:16: error 6015: syntax\n\
            t.asl:10:2: error 6015: syntax\ndir/b.asl:1:1: remark 2001: message\n",
    ),
];

/// Messages, and the line that sums them up.
static SUMMARIES: [(&[Row], &str); 3] = [
    (&[], "0 errors, 0 warnings, 0 remarks\n"),
    (&[(6015, 0, 3, 16, "")], "1 errors, 0 warnings, 0 remarks\n"),
    (&FOUR, "1 errors, 2 warnings, 1 remarks\n"),
];

const FOUR: [Row; 4] = [
    (6015, 0, 3, 16, ""),
    (3004, 0, 3, 16, "x"),
    (2002, 0, 3, 16, ""),
    (3005, 0, 3, 16, ""),
];

#[test]
fn messages_stand_on_the_console(rt: HostRuntime) -> Result<(), AllocError> {
    let alloc = rt.alloc();
    for (rows, brief, want) in &SHOWN {
        let text = shown(alloc, messages(alloc, rows)?, *brief)?;
        assert!(rt; text.as_bytes() == want.as_bytes(), "at {want}");
    }
    for (rows, want) in &SUMMARIES {
        let line = summary(alloc, &messages(alloc, rows)?)?;
        assert!(rt; line.as_bytes() == want.as_bytes(), "at {want}");
    }
    assert!(rt; count_of(&messages(alloc, &FOUR)?, Severity::Warning) == 2);
    Ok(())
}

#[test]
fn other_lines_of_the_console(rt: HostRuntime) -> Result<(), AllocError> {
    let alloc = rt.alloc();
    let table = table_line(alloc, b"t.aml", b"SSDT", 43)?;
    assert!(rt; table.as_bytes() == "t.aml: SSDT, 43 bytes\n".as_bytes());
    let listed = listed_line(alloc, b"SSDT", 36)?;
    assert!(rt; listed.as_bytes() == "SSDT 36 bytes\n".as_bytes());
    let preprocessed = preprocessed_line(alloc, b"t.i")?;
    assert!(rt; preprocessed.as_bytes() == "t.i: preprocessed\n".as_bytes());
    let devices = devices_line(alloc, 2)?;
    assert!(rt; devices.as_bytes() == "generated: 2 devices\n".as_bytes());
    Ok(())
}

/// The number of a message, and its text.
static TEXTS: [(u16, &str); 7] = [
    (6028, "no definition block"),
    (6097, "bad locality matrix"),
    (6103, "length disagrees with the header"),
    (3002, "constant is cut to 32 bits"),
    (6030, "wrong number of format arguments"),
    (6031, ""),
    (0, ""),
];

#[test]
fn texts_of_messages(rt: HostRuntime) {
    for (number, text) in &TEXTS {
        assert!(rt; text_of(*number) == *text);
    }
}
