use data_tables::compile::compile_data;
use data_tables::compiled::Compiled;
use iasl_messages::message::{Message, Messages, Stage};
use iasl_messages::place::{Line, Lines, Pieces};
use iasl_ports::list::{List, Text};
use std::alloc::{AllocError, Global};

fn put(out: &mut Vec<u8>, text: &[u8]) -> Result<(), AllocError> {
    out.extend_from_slice(text)
}

// The text of a SLIT.
const SLIT: &[u8] = b"[0004]                Signature : \"SLIT\"    [Description]
[0004]             Table Length : 00000000
[0001]                 Revision : 01
[0001]                 Checksum : 00
[0006]                   Oem ID : \"OEMX00\"
[0008]             Oem Table ID : \"TABLE001\"
[0004]             Oem Revision : 00000001
[0004]          Asl Compiler ID : \"INTL\"
[0004]    Asl Compiler Revision : 20100528
[0008] Localities : 0000000000000002
[0002] Locality 0 : 0A 14
[0002] Locality 1 : 14 0A
";

fn add_line(alloc: Global, lines: &mut Lines, number: u32, text: &[u8]) -> Result<(), AllocError> {
    lines.list.push(Line {
        file: 0,
        number,
        text: Text::from_bytes(alloc, text)?,
    })
}

// The lines that are ended.
pub(super) fn lines_of(alloc: Global, text: &[u8]) -> Result<Lines, AllocError> {
    let mut lines = Lines {
        files: List::new(alloc),
        list: List::new(alloc),
    };
    let mut number = 0u32;
    for line in text.split_inclusive(|byte| *byte == b'\n') {
        number = number.saturating_add(1);
        if let [line @ .., b'\n'] = line {
            add_line(alloc, &mut lines, number, line)?;
        }
    }
    Ok(lines)
}

fn put_message(alloc: Global, out: &mut Vec<u8>, message: &Message) -> Result<(), AllocError> {
    let text = format!(in alloc; "{}@{} ", message.number, message.place.line)?;
    put(out, text.as_bytes())?;
    if message.place.column != 1 || !message.name.as_bytes().is_empty() {
        put(out, b"? ")?;
    }
    Ok(())
}

pub(super) fn put_messages(
    alloc: Global,
    out: &mut Vec<u8>,
    messages: &Messages,
) -> Result<(), AllocError> {
    for message in messages.as_slice() {
        put_message(alloc, out, message)?;
    }
    Ok(())
}

pub(super) fn put_pieces(out: &mut Vec<u8>, pieces: &Pieces) -> Result<(), AllocError> {
    for piece in pieces.as_slice() {
        put(out, piece.bytes.as_bytes())?;
    }
    Ok(())
}

// What is told where there is no table.
fn told_of(alloc: Global, stage: Stage) -> Result<Vec<u8>, AllocError> {
    match stage {
        Stage::Refused(messages) => {
            let mut told = Vec::new(alloc);
            put_messages(alloc, &mut told, &messages)?;
            Ok(told)
        }
        Stage::Memory => Err(AllocError),
    }
}

// What is told of a text that has no table, or no text where it has one.
fn refusal(alloc: Global, text: &[u8]) -> Result<Vec<u8>, AllocError> {
    let lines = lines_of(alloc, text)?;
    match compile_data(alloc, &lines) {
        Ok(_compiled) => Ok(Vec::new(alloc)),
        Err(stage) => told_of(alloc, stage),
    }
}

// A text without a field, and what is told in its last line, or at 1:1.
static NO_FIELDS: [(&[u8], &[u8]); 3] = [
    (b"", b"6091@1 "),
    (b"\n// a\n\n", b"6091@3 "),
    (b"[a] Heading :\nRaw Table Data\n", b"6091@1 "),
];

fn tells(alloc: Global, text: &[u8], told: &[u8]) -> Result<bool, AllocError> {
    Ok(refusal(alloc, text)?.as_slice() == told)
}

#[test]
fn no_field_at_all(rt: HostRuntime) -> Result<(), AllocError> {
    for (text, told) in &NO_FIELDS {
        assert!(rt; tells(rt.alloc(), text, told)?);
    }
    Ok(())
}

fn have_lines(pieces: &Pieces, lines: &Lines) -> bool {
    for (piece, line) in pieces.as_slice().iter().zip(lines.list.as_slice()) {
        if piece.place.line != line.number || piece.source.as_bytes() != line.text.as_bytes() {
            return false;
        }
    }
    pieces.len() == lines.list.len()
}

fn is_of_lines(compiled: &Compiled, lines: &Lines) -> bool {
    have_lines(&compiled.pieces, lines)
        && compiled.signature.as_bytes() == b"SLIT".as_slice()
        && compiled.notes.is_empty()
}

fn slit_has_its_lines(alloc: Global) -> Result<bool, AllocError> {
    let lines = lines_of(alloc, SLIT)?;
    match compile_data(alloc, &lines) {
        Ok(compiled) => Ok(is_of_lines(&compiled, &lines)),
        Err(_) => Ok(false),
    }
}

// Each field line is a piece, with its place and its text.
#[test]
fn pieces_have_their_lines(rt: HostRuntime) -> Result<(), AllocError> {
    assert!(rt; slit_has_its_lines(rt.alloc())?);
    Ok(())
}

// Lines of which the last has the place of the first.
fn with_last_first(lines: Lines) -> Lines {
    let mut list = lines.list.into_vec();
    if let Some(line) = list.last_mut() {
        line.number = 1;
    }
    Lines {
        files: lines.files,
        list: List::from_vec(list),
    }
}

fn has_last_source(compiled: &Compiled, source: &[u8]) -> bool {
    match compiled.pieces.as_slice().last() {
        Some(piece) => piece.source.as_bytes() == source,
        None => false,
    }
}

// Whether that is the source of the last piece where its line has the place of the first.
fn is_last_source(alloc: Global, source: &[u8]) -> Result<bool, AllocError> {
    let lines = with_last_first(lines_of(alloc, SLIT)?);
    match compile_data(alloc, &lines) {
        Ok(compiled) => Ok(has_last_source(&compiled, source)),
        Err(_) => Ok(false),
    }
}

// Of lines with one place the first gives the text.
#[test]
fn first_line_of_a_place_is_the_source(rt: HostRuntime) -> Result<(), AllocError> {
    let first = b"[0004]                Signature : \"SLIT\"    [Description]";
    assert!(rt; is_last_source(rt.alloc(), first)?);
    Ok(())
}
