mod tables;

use super::of_data_tables::{lines_of, put_messages, put_pieces};
use data_tables::compile::compile_data;
use iasl_messages::message::Stage;
use std::alloc::{AllocError, Global};
use tables::TABLES;

// Lines behind the header, the bytes that they come to behind it, and what is told: the numbers of the messages, each with its
// line.
struct Row {
    signature: &'static [u8],
    revision: &'static [u8],
    lines: &'static [u8],
    bytes: &'static [u8],
    told: &'static [u8],
}

static TOLD: [Row; 14] = [
    // a label that is not the field's
    Row {
        signature: b"\"BERT\"",
        revision: b"01",
        lines: b"\
[0004] Error Region Length : 00000010\n\
[0008] Boot Error Region Address : 0000000012345678\n\
",
        bytes: b"\x10\0\0\0\x78\x56\x34\x12\0\0\0\0",
        told: b"3005@10 ",
    },
    // a decoded line that disagrees
    Row {
        signature: b"\"WAET\"",
        revision: b"01",
        lines: b"\
[0004] Flags (decoded below) : 00000002\n\
\x20RTC needs no INT ack : 1\n\
",
        bytes: b"",
        told: b"6096@11 ",
    },
    // a line behind all fields
    Row {
        signature: b"\"WAET\"",
        revision: b"01",
        lines: b"\
[0004] Flags (decoded below) : 00000002\n\
[0001] Flags : 00\n\
",
        bytes: b"",
        told: b"6092@11 ",
    },
    // a value that is too wide
    Row {
        signature: b"\"BGRT\"",
        revision: b"01",
        lines: b"\
[0002] Version : 10000\n\
",
        bytes: b"",
        told: b"6094@10 ",
    },
    // a revision that is not known
    Row {
        signature: b"\"TPM2\"",
        revision: b"03",
        lines: b"\
[0002] Platform Class : 0000\n\
",
        bytes: b"",
        told: b"6093@3 ",
    },
    // bytes of another count
    Row {
        signature: b"\"TPM2\"",
        revision: b"04",
        lines: b"\
[0002] Platform Class : 0000\n\
[0002] Reserved : 0000\n\
[0008] Control Address : 0000000000000000\n\
[0004] Start Method : 06\n\
[0012] Method Parameters : 00 00 00 00 00 00 00 00 00 00 00\n\
",
        bytes: b"",
        told: b"6093@14 ",
    },
    // an entry that is not whole
    Row {
        signature: b"\"ERST\"",
        revision: b"01",
        lines: b"\
[0004] Serialization Header Length : 00000030\n\
[0004] Reserved : 00000000\n\
[0004] Instruction Entry Count : 00000001\n\
[0001] Action : 00\n\
",
        bytes: b"",
        told: b"6091@13 ",
    },
    // a reserved field that is not 0
    Row {
        signature: b"\"EINJ\"",
        revision: b"01",
        lines: b"\
[0004] Injection Header Length : 00000030\n\
[0001] Flags : 00\n\
[0003] Reserved : 000001\n\
",
        bytes: b"",
        told: b"6093@12 ",
    },
    // a type that is not known
    Row {
        signature: b"\"PCCT\"",
        revision: b"01",
        lines: b"\
[0004] Flags (decoded below) : 00000001\n\
[0008] Reserved : 0000000000000000\n\
[0001] Subtable Type : 05\n\
",
        bytes: b"",
        told: b"6095@12 ",
    },
    // an error source without a layout
    Row {
        signature: b"\"HEST\"",
        revision: b"01",
        lines: b"\
[0004] Error Source Count : 00000001\n\
[0002] Subtable Type : 0002\n\
",
        bytes: b"",
        told: b"6095@11 ",
    },
    // a TCPA table of a server
    Row {
        signature: b"\"TCPA\"",
        revision: b"02",
        lines: b"\
[0002] Platform Class : 0001\n\
",
        bytes: b"",
        told: b"6093@10 ",
    },
    // the stated length of a node is computed
    Row {
        signature: b"\"VIOT\"",
        revision: b"00",
        lines: b"\
[0002] Node count : 0001\n\
[0002] Node offset : 0030\n\
[0008] Reserved : 0000000000000000\n\
[0001] Type : 04\n\
[0001] Reserved : 00\n\
[0002] Length : FFFF\n\
[0004] Reserved : 00000000\n\
[0008] Base address : 000000000A003E00\n\
",
        bytes: b"\x01\0\x30\0\0\0\0\0\0\0\0\0\x04\0\x10\0\0\0\0\0\0\x3E\0\x0A\0\0\0\0",
        told: b"",
    },
    // a decoded line that disagrees, below flags whose label has no mark
    Row {
        signature: b"\"NFIT\"",
        revision: b"01",
        lines: b"\
[0004] Reserved : 00000000\n\
[0002] Subtable Type : 0001\n\
[0002] Length : 0030\n\
[0004] Device Handle : 00000002\n\
[0002] Physical Id : 0000\n\
[0002] Region Id : 0000\n\
[0002] Range Index : 0004\n\
[0002] Control Region Index : 0005\n\
[0008] Region Size : 0000000008000000\n\
[0008] Region Offset : 0000000000000000\n\
[0008] Address Region Base : 0000000000000000\n\
[0002] Interleave Index : 0000\n\
[0002] Interleave Ways : 0001\n\
[0002] Flags : 0002\n\
\x20Save to device failed : 0\n\
\x20Restore from device failed : 0\n\
[0002] Reserved : 0000\n\
",
        bytes: b"",
        told: b"6096@25 ",
    },
    // a UUID that lacks a digit
    Row {
        signature: b"\"NFIT\"",
        revision: b"01",
        lines: b"\
[0004] Reserved : 00000000\n\
[0002] Subtable Type : 0000\n\
[0002] Length : 0038\n\
[0002] Range Index : 0004\n\
[0002] Flags (decoded below) : 0003\n\
[0004] Reserved : 00000000\n\
[0004] Proximity Domain : 00000002\n\
[0016] Region Type GUID : 66F0D379-B4F3-4074-AC43-0D3318B78CD\n\
",
        bytes: b"",
        told: b"6093@17 ",
    },
];

const HEADER: &[u8] = b"
Checksum : 00
Oem ID : \"OEMX00\"
Oem Table ID : \"TABLE001\"
Oem Revision : 00000001
Asl Compiler ID : \"INTL\"
Asl Compiler Revision : 20200925
";

fn text_of(alloc: Global, row: &Row) -> Result<Vec<u8>, AllocError> {
    let mut text = b"Signature : ".to_vec(alloc)?;
    text.extend_from_slice(row.signature)?;
    text.extend_from_slice(b"\nTable Length : 00000000\nRevision : ")?;
    text.extend_from_slice(row.revision)?;
    text.extend_from_slice(HEADER)?;
    text.extend_from_slice(row.lines)?;
    Ok(text)
}

// Whether a text comes to these bytes behind its header, and tells this.
fn is_right(alloc: Global, row: &Row) -> Result<bool, AllocError> {
    let text = text_of(alloc, row)?;
    let lines = lines_of(alloc, &text)?;
    let mut table = Vec::new(alloc);
    let mut told = Vec::new(alloc);
    match compile_data(alloc, &lines) {
        Ok(compiled) => {
            put_messages(alloc, &mut told, &compiled.notes)?;
            put_pieces(&mut table, &compiled.pieces)?;
        }
        Err(Stage::Refused(messages)) => put_messages(alloc, &mut told, &messages)?,
        Err(Stage::Memory) => return Err(AllocError),
    }
    Ok(table.get(36..).unwrap_or(&[]) == row.bytes && told.as_slice() == row.told)
}

#[test]
fn further_tables(rt: HostRuntime) -> Result<(), AllocError> {
    for row in &TABLES {
        assert!(rt; is_right(rt.alloc(), row)?);
    }
    Ok(())
}

#[test]
fn what_further_tables_tell(rt: HostRuntime) -> Result<(), AllocError> {
    for row in &TOLD {
        assert!(rt; is_right(rt.alloc(), row)?);
    }
    Ok(())
}
