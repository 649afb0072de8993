use data_text::field_line::{FieldLine, FieldLines};
use data_text::kind::is_data_table;
use data_text::source::data_text;
use data_text::values::{Number, bytes_in, number_in, text_in};
use iasl_messages::place::{Line, LineList};
use iasl_ports::list::Text;
use std::alloc::{AllocError, Global};

fn line_of(alloc: Global, number: u32, text: &[u8]) -> Result<Line, AllocError> {
    Ok(Line {
        file: 0,
        number,
        text: Text::from_bytes(alloc, text)?,
    })
}

fn lines_of(alloc: Global, text: &[u8]) -> Result<LineList, AllocError> {
    let mut lines = LineList::new(alloc);
    let mut number = 0u32;
    for line in text.split(|byte| *byte == b'\n') {
        number = number.saturating_add(1);
        lines.push(line_of(alloc, number, line)?)?;
    }
    Ok(lines)
}

// A field line, as its label, `=`, its value and `;`, a `[` before one with a part in brackets.
fn put_field_line(out: &mut Vec<u8>, line: &FieldLine) -> Result<(), AllocError> {
    out.extend_from_slice(if line.bracketed { b"[" } else { b"" })?;
    out.extend_from_slice(line.label.as_slice())?;
    out.extend_from_slice(if line.colon { b"=" } else { b"" })?;
    out.extend_from_slice(line.value.as_slice())?;
    out.extend_from_slice(b";")
}

fn put_field_lines(out: &mut Vec<u8>, lines: &FieldLines) -> Result<(), AllocError> {
    for line in lines.as_slice() {
        put_field_line(out, line)?;
    }
    Ok(())
}

// Whether these are the field lines of a text.
fn has_field_lines(alloc: Global, text: &[u8], expected: &[u8]) -> Result<bool, AllocError> {
    let mut out = Vec::new(alloc);
    let lines = lines_of(alloc, text)?;
    let found = data_text(alloc, lines.as_slice())?;
    put_field_lines(&mut out, &found.lines)?;
    Ok(out.as_slice() == expected)
}

// A text, and its field lines.
static FIELD_LINES: [(&[u8], &[u8]); 9] = [
    (b"", b""),
    (b"[0004] Oem  ID : 12", b"[oemid= 12;"),
    (b"Flags : 1 [remark : 2]", b"flags= 1 ;"),
    (b"A : \"x [y] // z\" [remark]", b"a= \"x [y] // z\" ;"),
    (b"A : 1 // 2\nB :\n\n  \t\nC : 3", b"a= 1     ;c= 3;"),
    (b"A : 1 /* 2\nB : 3\n*/ C : 4", b"a= 1     ;c= 4;"),
    (b"A : 1 \\\n2 : 3\nB : 4", b"a= 1  2 : 3;b= 4;"),
    (b"no colon\nA : 1", b";a= 1;"),
    (b"A : 1\n Raw Table Data: Length 4\nB : 2", b"a= 1;"),
];

#[test]
fn texts_have_their_field_lines(rt: HostRuntime) -> Result<(), AllocError> {
    for (text, expected) in &FIELD_LINES {
        assert!(rt; has_field_lines(rt.alloc(), text, expected)?);
    }
    Ok(())
}

// Whether a text ends in this line of file 0, column 1.
fn ends_in(alloc: Global, text: &[u8], line: u32) -> Result<bool, AllocError> {
    let lines = lines_of(alloc, text)?;
    let end = data_text(alloc, lines.as_slice())?.end;
    Ok(end.file == 0 && end.line == line && end.column == 1)
}

#[test]
fn the_end_is_the_last_line(rt: HostRuntime) -> Result<(), AllocError> {
    let text = b"A : 1\n\n// last\nRaw Table Data\nB : 2";
    assert!(rt; ends_in(rt.alloc(), text, 3)?);
    Ok(())
}

// A value, and the number that it is.
static NUMBERS: [(&[u8], Number); 9] = [
    (b" 0x1F ", Number::Is(31)),
    (b"fF\t", Number::Is(255)),
    (b"FFFFFFFFFFFFFFFF", Number::Is(0xffff_ffff_ffff_ffff)),
    (b"00000000000000000001", Number::Is(1)),
    (b"10000000000000000", Number::Wide),
    (b"0X1", Number::Malformed),
    (b"1 2", Number::Malformed),
    (b"0x", Number::Malformed),
    (b"", Number::Malformed),
];

#[test]
fn values_are_numbers(rt: HostRuntime) {
    for (value, expected) in &NUMBERS {
        assert!(rt; number_in(value) == *expected);
    }
}

// A value, and the text that it is.
static TEXTS: [(&[u8], Option<&[u8]>); 6] = [
    (b" \"AB C\" ", Some(b"AB C")),
    (b"\"\"", Some(b"")),
    (b"\"A\\\"", Some(b"A\\")),
    (b"\"A", None),
    (b"AB", None),
    (b"\"A\" B", None),
];

#[test]
fn values_are_texts(rt: HostRuntime) {
    for (value, expected) in &TEXTS {
        assert!(rt; text_in(value) == *expected);
    }
}

// A value, and the bytes that it is.
static BYTES: [(&[u8], Option<&[u8]>); 5] = [
    (b" 0a FF\t00 ", Some(b"\x0a\xff\x00")),
    (b"7f", Some(b"\x7f")),
    (b"1 02", None),
    (b"0x10", None),
    (b"10 2", None),
];

// Whether a value is these bytes, or none.
fn are_bytes(alloc: Global, value: &[u8], expected: Option<&[u8]>) -> Result<bool, AllocError> {
    let found = bytes_in(alloc, value)?;
    Ok(found.as_ref().map(|bytes| bytes.as_slice()) == expected)
}

#[test]
fn values_are_bytes(rt: HostRuntime) -> Result<(), AllocError> {
    for (value, expected) in &BYTES {
        assert!(rt; are_bytes(rt.alloc(), value, *expected)?);
    }
    Ok(())
}

// A text, and whether it is that of a data table.
static KINDS: [(&[u8], bool); 11] = [
    (b"[0004] Signature : \"HPET\"", true),
    (b"\n  \t\n  sIgNaTuRe \t: \"HPET\"", true),
    (b"/* a\n b */ // c\n [", true),
    (b"Signature:", true),
    (b"", false),
    (b"// Signature :", false),
    (b"/* [\n", false),
    (b"Signature \"HPET\"", false),
    (b"Signatures : 1", false),
    (b"Table Length : 1\n[0004]", false),
    (b"DefinitionBlock (\"\", \"SSDT\", 2, \"\", \"\", 1)", false),
];

fn is_of_data_table(alloc: Global, text: &[u8]) -> Result<bool, AllocError> {
    let lines = lines_of(alloc, text)?;
    is_data_table(alloc, lines.as_slice())
}

#[test]
fn the_first_line_tells_the_kind(rt: HostRuntime) -> Result<(), AllocError> {
    for (text, expected) in &KINDS {
        assert!(rt; is_of_data_table(rt.alloc(), text)? == *expected);
    }
    Ok(())
}
