//! An index of names without those of descriptors, and which these are.
ghost use Rattle.std.specs.Prelude.{◌≡◌, ◌<◌, ℕ, false, None, length, get_or, is_some, if◌then◌else◌, IfOk};

use crate::sense::entry;
use acpi_names::index::Index;
use asl_tree::term::NamedDescriptor;
use std::alloc::{AllocError, Global};

/// Of so many paths, by their numbers, at which a table has descriptors.
pub fn described_paths(
    alloc: Global,
    table: &[Option<NamedDescriptor>],
    count: usize,
) -> Result<Vec<bool>, AllocError>
    ensures size { IfOk result (λ flags. length flags.items ≡ count) }
    ensures flags { IfOk result (λ flags. (n : ℕ) → n < count → get_or flags.items n false ≡ is_some (get_or table.now n None)) }
{
    let mut flags = Vec::new(alloc);
    for number in 0..count {
        let named = entry(table, Some(number));
        flags.push(named.is_some())?;
    }
    Ok(flags)
}

/// The paths at which a table, by their numbers, has descriptors are named no longer; all others are as before.
pub fn forget_descriptors(index: &mut Index, table: &[Option<NamedDescriptor>])
    ensures paths { index.new.paths ≡ index.old.paths }
    ensures size { length index.new.named.items ≡ length index.old.named.items }
    ensures flags { (n : ℕ) → get_or index.new.named.items n false ≡
        (if is_some (get_or table.now n None) then false else get_or index.old.named.items n false) }
{
    for number in 0..index.named.len() {
        if entry(table, Some(number)).is_some() {
            index.named[number] = false;
        }
    }
}
