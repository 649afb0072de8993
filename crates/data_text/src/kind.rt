//! Whether a source is the text of a data table.
ghost use Rattle.std.specs.Prelude.{◌≡◌, IfOk};
ghost use Rattle.data_text.specs.Kinds as spec;

use crate::comments::{Mode, at_line_end, uncommented};
use hex_text::blanks::{has_blanks_alone, skip_blanks};
use iasl_messages::place::Line;
use std::alloc::{AllocError, Global};

/// The word of the first field's label.
const SIGNATURE: &[u8] = b"signature";

fn is_signature(text: &[u8]) -> bool
    ensures { result ≡ spec.is_signature text.now }
{
    if text.len() < SIGNATURE.len() {
        return false;
    }
    text[..9].eq_ignore_ascii_case(SIGNATURE) && skip_blanks(&text[9..]).starts_with(b":")
}

fn begins_fields(bare: &[u8]) -> bool
    ensures { result ≡ spec.begins_fields bare.now }
{
    let text = skip_blanks(bare);
    text.starts_with(b"[") || is_signature(text)
}

/// Whether lines are the text of a data table, and no ASL: the first line that is not blank begins with `[`, or with
/// `Signature` and a colon. Comments count as blanks, and blanks may stand around both (docs/DATA_TABLES.md).
pub fn is_data_table(alloc: Global, lines: &[Line]) -> Result<bool, AllocError>
    ensures { IfOk result (λ is. is ≡ spec.is_data_table lines.now) }
{
    let mut mode = Mode::Plain;
    for line in lines {
        let (bare, after) = uncommented(alloc, mode, line.text.as_bytes())?;
        if !has_blanks_alone(&bare) {
            return Ok(begins_fields(&bare));
        }
        mode = at_line_end(after);
    }
    Ok(false)
}
