use iasl_backends::asked::Asked;
use iasl_backends::backend::{Backend, Kind};
use iasl_backends::c_hex::CHex;
use iasl_backends::lent::{keep_asked, one_of_each, render_all, text_of_kind};
use iasl_backends::listing::Listing;
use iasl_backends::raw_aml::RawAml;
use iasl_backends::template::TemplateText;
use iasl_messages::place::{Piece, Place};
use iasl_ports::list::Text;
use std::alloc::{AllocError, Global};

const HEADER: [u8; 36] = [
    0x53, 0x53, 0x44, 0x54, 0x2B, 0x00, 0x00, 0x00, 0x02, 0xF8, 0x4F, 0x45, 0x4D, 0x58, 0x30, 0x30,
    0x54, 0x41, 0x42, 0x4C, 0x45, 0x30, 0x30, 0x31, 0x01, 0x00, 0x00, 0x00, 0x49, 0x4E, 0x54, 0x4C,
    0x05, 0x01, 0x21, 0x20,
];

const NAME: [u8; 7] = [0x08, 0x58, 0x5F, 0x5F, 0x5F, 0x0A, 0x05];

fn piece(alloc: Global, line: u32, source: &str, bytes: &[u8]) -> Result<Piece, AllocError> {
    Ok(Piece {
        place: Place {
            file: 0,
            line,
            column: 1,
        },
        source: Text::from_bytes(alloc, source.as_bytes())?,
        bytes: Text::from_bytes(alloc, bytes)?,
    })
}

// The table of a block with `Name (X, 5)` in its third line.
fn table(alloc: Global) -> Result<Vec<Piece>, AllocError> {
    let block = "DefinitionBlock (\"\", \"SSDT\", 2, \"OEMX00\", \"TABLE001\", 1)";
    let mut pieces = Vec::new(alloc);
    pieces.push(piece(alloc, 1, block, &HEADER)?)?;
    pieces.push(piece(alloc, 3, "    Name (X, 5)", &NAME)?)?;
    Ok(pieces)
}

// One output of each kind.
fn outputs(alloc: Global) -> Result<Vec<Box<dyn Backend>>, AllocError> {
    one_of_each(
        alloc,
        Box::new(alloc, RawAml::new(alloc))?,
        Box::new(alloc, CHex::new(alloc))?,
        Box::new(alloc, Listing::new(alloc))?,
        Box::new(alloc, TemplateText::new(alloc))?,
    )
}

const C_TEXT: &str = "unsigned char AmlCode[] =
{
    0x53, 0x53, 0x44, 0x54, 0x2B, 0x00, 0x00, 0x00,
    0x02, 0xF8, 0x4F, 0x45, 0x4D, 0x58, 0x30, 0x30,
    0x54, 0x41, 0x42, 0x4C, 0x45, 0x30, 0x30, 0x31,
    0x01, 0x00, 0x00, 0x00, 0x49, 0x4E, 0x54, 0x4C,
    0x05, 0x01, 0x21, 0x20, 0x08, 0x58, 0x5F, 0x5F,
    0x5F, 0x0A, 0x05,
};
";

const LISTING: &str = "     1  DefinitionBlock (\"\", \"SSDT\", 2, \"OEMX00\", \"TABLE001\", 1)
00000000  53 53 44 54 2B 00 00 00 02 F8 4F 45 4D 58 30 30
00000010  54 41 42 4C 45 30 30 31 01 00 00 00 49 4E 54 4C
00000020  05 01 21 20
     3      Name (X, 5)
00000024  08 58 5F 5F 5F 0A 05
";

// Whether C text and a listing are asked for, and how many outputs stay.
static ASKED: [(bool, bool, usize); 3] = [(true, true, 3), (true, false, 2), (false, false, 1)];

// Whether the outputs that are asked for are those of the table.
fn are_right(
    backends: &mut Vec<Box<dyn Backend>>,
    pieces: &[Piece],
    c_text: bool,
    listing: bool,
    count: usize,
) -> Result<bool, AllocError> {
    keep_asked(
        backends,
        Asked {
            template: false,
            c_text,
            listing,
        },
    );
    render_all(backends, pieces)?;
    let raw = text_of_kind(backends, Kind::RawAml);
    let is_raw = raw.is_some_and(|text| text.len() == 43
        && text.starts_with(&HEADER)
        && text.ends_with(&NAME));
    let array = if c_text {
        Some(C_TEXT.as_bytes())
    } else {
        None
    };
    let lines = if listing {
        Some(LISTING.as_bytes())
    } else {
        None
    };
    Ok(
        backends.len() == count
            && is_raw
            && text_of_kind(backends, Kind::CHex) == array
            && text_of_kind(backends, Kind::Listing) == lines,
    )
}

#[test]
fn outputs_of_a_table(rt: HostRuntime) -> Result<(), AllocError> {
    let alloc = rt.alloc();
    let pieces = table(alloc)?;
    let mut backends = outputs(alloc)?;
    for (c_text, listing, count) in &ASKED {
        assert!(rt; are_right(&mut backends, &pieces, *c_text, *listing, *count)?);
    }
    Ok(())
}

const LINES: &str = "DefinitionBlock (\"\", \"SSDT\", 2, \"OEMX00\", \"TABLE001\", 1)
    Name (X, 5)
";

const TEMPLATE: Asked = Asked {
    template: true,
    c_text: false,
    listing: false,
};

#[test]
fn lines_of_a_template(rt: HostRuntime) -> Result<(), AllocError> {
    let alloc = rt.alloc();
    let pieces = table(alloc)?;
    let mut backends = outputs(alloc)?;
    keep_asked(&mut backends, TEMPLATE);
    render_all(&mut backends, &pieces)?;
    assert!(rt; backends.len() == 1);
    assert!(rt; text_of_kind(&backends, Kind::Template) == Some(LINES.as_bytes()));
    assert!(rt; text_of_kind(&backends, Kind::RawAml).is_none());
    Ok(())
}
