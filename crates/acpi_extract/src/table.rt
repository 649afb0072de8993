//! A table of a dump.
ghost use Rattle.std.specs.Prelude.{◌≡◌, [], IfOk, IsTrue};
ghost use Rattle.acpi_extract.specs.Lines.{is_signature};

use iasl_ports::list::{List, Text};
use std::alloc::{AllocError, Global};

/// A table of a dump: its signature as the header line has it, four printable characters or `RSD PTR`, and
/// its bytes.
#[derive(Drop)]
pub struct Table {
    pub signature: Text,
    pub bytes: List<u8>,
    pub ghost named: { IsTrue (is_signature signature) },
}

/// Tables in order.
pub type Tables = List<Table>;

// A table whose lines are being read: the number of its header line, its signature, and the bytes so far.
#[derive(Drop)]
pub(crate) struct Unfinished {
    pub(crate) number: u32,
    pub(crate) signature: Text,
    pub(crate) bytes: Vec<u8>,
    pub(crate) ghost named: { IsTrue (is_signature signature) },
}

pub(crate) fn begin_table(
    alloc: Global,
    number: u32,
    signature: &[u8],
) -> Result<Unfinished, AllocError>
    requires { IsTrue (is_signature signature.now) }
    ensures number { IfOk result (λ table. table.number ≡ number) }
    ensures signature { IfOk result (λ table. table.signature ≡ signature.now) }
    ensures bytes { IfOk result (λ table. table.bytes.items ≡ []) }
{
    Ok(Unfinished {
        number,
        signature: Text::from_bytes(alloc, signature)?,
        bytes: Vec::new(alloc),
    })
}
