// The names of the files that tables go to.
ghost use Rattle.std.specs.Prelude.{◌≡◌, ◌+◌, ◌^◌, ◌<◌, ◌++◌, ◌&&◌, ℕ, List, IfOk, OnOk, IsTrue, string_bytes, if◌then◌else◌};
ghost use Rattle.std.specs.Option.{unwrap_or};
ghost use Rattle.std.specs.Str.{bytes_eq};
ghost use Rattle.std.specs.BTreeMap.{get_by_text};
ghost use Rattle.acpi_extract.specs.Lines.{is_signature};
ghost use Rattle.acpi_extract.specs.Dump.{stem_of};
ghost use Rattle.acpi_extract.specs.Due.{file_name, number_part};

use crate::signature::stem_text;
use itoa::Buffer;
use std::alloc::{AllocError, Global};
use std::collections::BTreeMap;

// How many tables of each stem there are.
pub(crate) type Counts = BTreeMap<String, u64>;

// The stem of a signature: its letters in lower case, `RSD PTR` as `rsdp`.
pub(crate) fn stem(alloc: Global, signature: &[u8]) -> Result<String, AllocError>
    requires { IsTrue (is_signature signature.now) }
    ensures { IfOk result (λ stem. string_bytes stem ≡ stem_of signature.now) }
{
    let mut stem = String::new(alloc);
    for byte in stem_text(signature) {
        stem.push(char::from(byte.to_ascii_lowercase()))?;
    }
    Ok(stem)
}

// Counts one more table of this stem, and says its number.
pub(crate) fn next_number(alloc: Global, counts: &mut Counts, stem: &str) -> Result<u64, AllocError>
    requires { unwrap_or (get_by_text counts.old stem.now) 0 + 1 < 2 ^ 64 }
    ensures number { IfOk result (λ number. number ≡ unwrap_or (get_by_text counts.old stem.now) 0 + 1) }
    ensures counts { OnOk result ((other : List ℕ) → unwrap_or (get_by_text counts.new other) 0
        ≡ unwrap_or (get_by_text counts.old other) 0 + (if bytes_eq other stem.now then 1 else 0)) }
{
    let number = counts.get(stem).copied().unwrap_or(0) + 1;
    counts.insert(String::from_str(alloc, stem)?, number)?;
    Ok(number)
}

// The number that stands behind the stem, if one does.
fn push_number(name: &mut String, stem: &str, number: u64) -> Result<(), AllocError>
    ensures { OnOk result (string_bytes name.new ≡ string_bytes name.old ++ number_part stem.now number) }
{
    if stem == "ssdt" || number >= 2 {
        let mut buffer = Buffer::new();
        name.push_str(buffer.format(number))?;
    }
    Ok(())
}

// The name of a table's file.
pub(crate) fn file_name(alloc: Global, stem: &str, number: u64) -> Result<String, AllocError>
    ensures { IfOk result (λ name. string_bytes name ≡ file_name stem.now number) }
{
    let mut name = String::from_str(alloc, stem)?;
    push_number(&mut name, stem, number)?;
    name.push_str(".dat")?;
    Ok(name)
}
