use super::of_data_tables::{lines_of, put_pieces};
use data_generic::template::default_lines;
use data_tables::front::{fields, header};
use iasl_messages::message::Stage;
use std::alloc::{AllocError, Global};

const HEADER: &[u8] = b"Signature : \"OEM1\"
Table Length : 00000000
Revision : 01
Checksum : 00
Oem ID : \"OEMX00\"
Oem Table : \"TABLE001\"
Oem Revision : 00000001
Asl Compiler ID : \"INTL\"
Asl Compiler Revision : 00000000
";

const HEADER_BYTES: &[u8] = b"OEM1\0\0\0\0\x01\0OEMX00TABLE001\x01\0\0\0INTL\x05\x01\x21\x20";

// The lines of a header, and the bytes that they come to.
fn has_header(alloc: Global) -> Result<bool, AllocError> {
    let lines = lines_of(alloc, HEADER)?;
    match fields(alloc, &lines) {
        Ok(found) => match header(alloc, &lines, &found) {
            Ok(made) => Ok(
                found.len() == 9 && made.bytes.as_bytes() == HEADER_BYTES && made.notes.len() == 1,
            ),
            Err(Stage::Refused(_)) => Ok(false),
            Err(Stage::Memory) => Err(AllocError),
        },
        Err(Stage::Refused(_)) => Ok(false),
        Err(Stage::Memory) => Err(AllocError),
    }
}

#[test]
fn header_of_a_generic_table(rt: HostRuntime) -> Result<(), AllocError> {
    assert!(rt; has_header(rt.alloc())?);
    Ok(())
}

// How many lines the template of the HPET table has, and how many bytes.
fn has_template(alloc: Global) -> Result<bool, AllocError> {
    let pieces = default_lines(alloc, b"HPET")?;
    let mut table = Vec::new(alloc);
    put_pieces(&mut table, &pieces)?;
    Ok(pieces.len() == 19 && table.len() == 56)
}

#[test]
fn template_of_a_table(rt: HostRuntime) -> Result<(), AllocError> {
    assert!(rt; has_template(rt.alloc())?);
    Ok(())
}
