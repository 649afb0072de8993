//! What a written name denotes where descriptors have names.
ghost use Rattle.std.specs.Prelude.{◌≡◌, ◌<◌, [], length, get_or, Option};
ghost use Rattle.acpi_values.specs.Paths.{AbsolutePath};
ghost use Rattle.asl_meaning.specs.Declarations.{Declarations, is_named};
ghost use Rattle.acpi_names.specs.Parts.{Agrees};
ghost use Rattle.acpi_names.specs.Shown.{shown};
ghost use Rattle.acpi_names.specs.Tables.{Tabled, entry_at};
ghost use Rattle.asl_tree.specs.declared.term.NamedDescriptor.{NamedDescriptor as ANamed};
ghost use Rattle.descriptor_checks.specs.Senses as spec;
ghost use Rattle.descriptor_checks.specs.Shown.{IsSense};
ghost use Rattle.descriptor_checks.specs.Told as told;

use acpi_names::index::{Index, denoted_by};
use acpi_names::lookup::{find, prefixed, scope_in, single};
use acpi_names::mention::Mention;
use asl_tree::path::{NameSeg, Path};
use asl_tree::term::NamedDescriptor;
use descriptor_fields::nodes::at_node;
use resource_layout::layout::descriptor_field;
use std::alloc::AllocError;

/// What a name denotes.
#[derive(Clone, Copy, PartialEq, Eq, Debug)]
pub enum Sense {
    /// No descriptor.
    Nothing,
    /// A descriptor itself.
    Descriptor,
    /// A field of one, by its lowest bit in the template.
    Field(u64),
}

// The descriptor with the number of its path; past the end there is none.
pub(crate) fn entry(
    table: &[Option<NamedDescriptor>],
    number: Option<usize>,
) -> Option<NamedDescriptor>
    ensures { result ≡ entry_at table.now number }
{
    match number {
        Some(number) => at_node(table, number),
        None => None,
    }
}

// A field of a descriptor. There is no memory for a template in which its lowest bit has no number of 64 bits.
fn field_in(named: NamedDescriptor, segment: NameSeg) -> Result<Sense, AllocError>
    ensures { IsSense result (spec.field_in named segment) }
{
    let Some((at, _)) = descriptor_field(named.descriptor, segment) else {
        return Ok(Sense::Nothing);
    };
    let bytes = named.at as u64;
    let Some(bits) = bytes.checked_mul(8) else {
        return Err(AllocError);
    };
    let Some(bit) = bits.checked_add(at.into()) else {
        return Err(AllocError);
    };
    Ok(Sense::Field(bit))
}

fn last_segment(name: &Path) -> Option<NameSeg>
    ensures { result ≡ spec.last_segment name.now.segs }
{
    let segments = name.segs.as_slice();
    match segments.last() {
        Some(segment) => Some(*segment),
        None => None,
    }
}

/// The segments of a path without the last.
pub(crate) fn outer_segments(name: &Path) -> &[NameSeg]
    ensures { result.now ≡ spec.outer_segments name.now.segs }
{
    let segments = name.segs.as_slice();
    if segments.is_empty() {
        return segments;
    }
    segments.split_at(segments.len() - 1).0
}

// A name of which the last segment is a field of what the others name.
fn field_sense(
    index: &Index,
    table: &[Option<NamedDescriptor>],
    name: &Path,
    scope: usize,
) -> Result<Sense, AllocError>
    requires { scope < length index.now.paths }
    ensures { (look : AbsolutePath → Option ANamed) → Tabled index.now.paths table.now look →
        IsSense result (spec.field_sense look name.now (get_or index.now.paths scope [])) }
{
    let Some(segment) = last_segment(name) else {
        return Ok(Sense::Nothing);
    };
    let outer = prefixed(&index.paths, name, scope);
    match entry(table, find(&index.paths, outer, outer_segments(name))) {
        Some(named) => Ok(field_in(named, segment)?),
        None => Ok(Sense::Nothing),
    }
}

// What a name denotes in the scope with a number, where a table has the descriptors by the numbers of their paths.
fn sense_of(
    index: &Index,
    table: &[Option<NamedDescriptor>],
    name: &Path,
    scope: usize,
) -> Result<Sense, AllocError>
    requires { length index.now.named.items ≡ length index.now.paths }
    ensures { (d : Declarations) (look : AbsolutePath → Option ANamed) →
        Agrees index.now.paths index.now.named.items d → Tabled index.now.paths table.now look →
        IsSense result (spec.sense_of (is_named d) look name.now (get_or index.now.paths scope [])) }
{
    let count = index.paths.len();
    let scope = scope_in(&index.paths, scope);
    match denoted_by(index, name, scope) {
        Some(number) => match entry(table, Some(number)) {
            Some(_) => Ok(Sense::Descriptor),
            None => Ok(Sense::Nothing),
        },
        None => match single(name) {
            Some(_) => Ok(Sense::Nothing),
            None => Ok(field_sense(index, table, name, scope)?),
        },
    }
}

/// What the name of a mention denotes; one that declares a name denotes no descriptor. The only error is want of memory, as
/// which a template of 2^61 bytes is answered, and nothing else.
pub fn sense_in(
    index: &Index,
    table: &[Option<NamedDescriptor>],
    mention: &Mention,
) -> Result<Sense, AllocError>
    requires all { length index.now.named.items ≡ length index.now.paths }
    ensures { (d : Declarations) (look : AbsolutePath → Option ANamed) →
        Agrees index.now.paths index.now.named.items d → Tabled index.now.paths table.now look →
        IsSense result (told.sense_in (is_named d) look (shown index.now.paths mention.now)) }
{
    match mention {
        Mention::Used { name, scope, .. } => Ok(sense_of(index, table, name, *scope)?),
        Mention::Sought { name, scope, .. } => Ok(sense_of(index, table, name, *scope)?),
        Mention::Called { name, scope, .. } => Ok(sense_of(index, table, name, *scope)?),
        Mention::Opens { name, scope, .. } => Ok(sense_of(index, table, name, *scope)?),
        Mention::Declares { .. } | Mention::Outside { .. } => Ok(Sense::Nothing),
    }
}
