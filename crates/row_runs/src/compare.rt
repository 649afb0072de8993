//! What is wrong with a run: in lines, what its row wants and what came.

use crate::row::{KnownOutput, Part, Row};
use crate::run::Ran;
use iasl_ports::list::Texts;
use iasl_ports::memory::MemoryOutputs;
use std::alloc::{AllocError, Global};

/// The bytes of a table's header.
const HEADER: usize = 36;

/// The most bytes of an output that are told.
const MOST_TOLD: usize = 512;

// Adds what is wanted of something and what came of it, each a text of lines.
fn tell_both(
    lines: &mut Vec<u8>,
    what: &[u8],
    wanted: &[u8],
    came: &[u8],
) -> Result<(), AllocError> {
    lines.extend_from_slice(b"  wanted ")?;
    lines.extend_from_slice(what)?;
    lines.extend_from_slice(b":\n")?;
    lines.extend_from_slice(wanted)?;
    lines.extend_from_slice(b"  and there came:\n")?;
    lines.extend_from_slice(came)
}

// A line of the first bytes of an output in hexadecimal digits, behind their number.
fn hex_line(alloc: Global, bytes: &[u8]) -> Result<Vec<u8>, AllocError> {
    let count = bytes.len();
    let mut line = format!(in alloc; "{count} bytes:")?;
    for byte in bytes.iter().take(MOST_TOLD) {
        line.push_str(format!(in alloc; " {byte:02X}")?.as_str())?;
    }
    line.push_str("\n")?;
    Ok(line.into_bytes())
}

// The names of outputs with a blank between each two.
fn name_line(alloc: Global, names: &Texts) -> Result<Vec<u8>, AllocError> {
    let mut line = Vec::new(alloc);
    for (place, name) in names.as_slice().iter().enumerate() {
        if place > 0 {
            line.push(b' ')?;
        }
        line.extend_from_slice(name.as_bytes())?;
    }
    Ok(line)
}

// Whether a line of the console is a message whose number begins so.
fn is_message_of(alloc: Global, line: &str, numbers: &str) -> Result<bool, AllocError> {
    for number in numbers.split(' ') {
        let kind = match number.as_bytes().first() {
            Some(b'2') => "remark",
            Some(b'3') => "warning",
            _ => "error",
        };
        let mark = format!(in alloc; ": {kind} {number}")?;
        if line.contains(mark.as_str()) {
            return Ok(true);
        }
    }
    Ok(false)
}

// The lines of the console that are messages whose numbers begin so, or all where there is no number.
fn lines_of(alloc: Global, console: &[u8], numbers: &str) -> Result<Vec<u8>, AllocError> {
    if numbers.is_empty() {
        return console.to_vec(alloc);
    }
    let text = String::from_utf8_lossy(alloc, console)?;
    let mut lines = Vec::new(alloc);
    for line in text.as_str().lines() {
        if is_message_of(alloc, line, numbers)? {
            lines.extend_from_slice(line.as_bytes())?;
            lines.push(b'\n')?;
        }
    }
    Ok(lines)
}

fn compare_told(
    alloc: Global,
    lines: &mut Vec<u8>,
    row: &Row,
    console: &[u8],
) -> Result<(), AllocError> {
    let came = lines_of(alloc, console, row.only.as_str())?;
    let none: &[u8] = b"";
    let wanted = match &row.told {
        Some(told) => told.as_slice(),
        None if row.only.is_empty() => return Ok(()),
        None => none,
    };
    if came.as_slice() == wanted {
        return Ok(());
    }
    tell_both(lines, b"on the console", wanted, &came)
}

fn compare_names(
    alloc: Global,
    lines: &mut Vec<u8>,
    row: &Row,
    names: &Texts,
) -> Result<(), AllocError> {
    let wanted = match &row.names {
        Some(names) => names.as_str(),
        None if matches!(row.status, None | Some(0)) => return Ok(()),
        None => "",
    };
    let mut came = name_line(alloc, names)?;
    if came.as_slice() == wanted.as_bytes() {
        return Ok(());
    }
    came.push(b'\n')?;
    tell_both(
        lines,
        b"outputs",
        format!(in alloc; "{wanted}\n")?.as_bytes(),
        &came,
    )
}

// The bytes of the output of a name.
fn body_of<'a>(outs: &'a MemoryOutputs, name: &String) -> Option<&'a [u8]> {
    for (other, body) in outs.names().as_slice().iter().zip(outs.bodies().as_slice()) {
        if other.as_bytes() == name.as_bytes() {
            return Some(body.as_bytes());
        }
    }
    None
}

fn is_known(output: &KnownOutput, body: &[u8]) -> bool {
    match output.part {
        Part::Whole => body == output.bytes.as_slice(),
        Part::BehindHeader => body.get(HEADER..) == Some(output.bytes.as_slice()),
        Part::End => body.ends_with(&output.bytes),
    }
}

fn compare_output(
    alloc: Global,
    lines: &mut Vec<u8>,
    output: &KnownOutput,
    outs: &MemoryOutputs,
) -> Result<(), AllocError> {
    let Some(body) = body_of(outs, &output.name) else {
        let name = format!(in alloc; "{}\n", output.name)?;
        return tell_both(lines, b"an output", name.as_bytes(), b"none of this name\n");
    };
    if is_known(output, body) {
        return Ok(());
    }
    let came = match output.part {
        Part::BehindHeader => body.get(HEADER..).unwrap_or(body),
        _ => body,
    };
    tell_both(
        lines,
        output.name.as_bytes(),
        &hex_line(alloc, &output.bytes)?,
        &hex_line(alloc, came)?,
    )
}

fn compare_status(
    alloc: Global,
    lines: &mut Vec<u8>,
    wanted: u8,
    came: u8,
) -> Result<(), AllocError> {
    if came == wanted {
        return Ok(());
    }
    let line = format!(in alloc; "  wanted status {wanted}, and there came {came}\n")?;
    lines.extend_from_slice(line.as_bytes())
}

/// What is wrong with a run, in lines; no text where it came to what its row wants.
pub fn compare(alloc: Global, row: &Row, ran: &Ran) -> Result<Vec<u8>, AllocError> {
    let mut lines = Vec::new(alloc);
    if let Some(wanted) = row.status {
        compare_status(alloc, &mut lines, wanted, ran.status)?;
    }
    compare_told(alloc, &mut lines, row, ran.console.as_bytes())?;
    compare_names(alloc, &mut lines, row, ran.outs.names())?;
    for output in &row.outputs {
        compare_output(alloc, &mut lines, output, &ran.outs)?;
    }
    Ok(lines)
}
