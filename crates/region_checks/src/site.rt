//! The regions and fields of a block, with the scopes in which they stand.
ghost use Rattle.std.specs.Prelude.{◌≡◌, ◌<◌, ◌++◌, ℕ, List, [], ◌∷◌, length, get_or, map, slice_get, is_some, IfOk, IfSome};
ghost use Rattle.acpi_values.specs.Paths.{AbsolutePath};
ghost use Rattle.std.specs.List.{All};
ghost use Rattle.acpi_state.specs.Objects.{lookup};
ghost use Rattle.asl_meaning.specs.Declarations.{nothing_declared};
ghost use Rattle.acpi_names.specs.Errors.{Whole};
ghost use Rattle.acpi_names.specs.Mentions.{after_all};
ghost use Rattle.acpi_names.specs.Parts.{Agrees};
ghost use Rattle.acpi_names.specs.Shown.{shown, all_shown};
ghost use Rattle.acpi_names.specs.Tables.{Tabled};
ghost use Rattle.name_kinds.specs.Tables.{IsThere};
ghost use Rattle.region_checks.specs.Measures as spec;
ghost use Rattle.region_checks.specs.Regions.{sizes as sizes_of};
ghost use Rattle.region_checks.specs.Sites.{RegionAt};
ghost use Rattle.region_checks.specs.Shown.{site_as, optional_site, IsWithin};

use crate::measure::{Extent, UnitFaults};
use acpi_names::index::Index;
use acpi_names::mention::{Asked, Declared, Mention, Occurrence};
use acpi_names::part::What;
use asl_tree::path::Path;
use name_kinds::tables::declared_at;
use std::alloc::{AllocError, Global};

/// A region that is declared, by the number of its path, with its constant length in bytes; or a field in the region that
/// a name denotes in the scope with a number, with the bytes of its accesses where its list has no error, and the faults of its units.
#[derive(Clone, Copy)]
pub enum Site<'a> {
    Region {
        path: usize,
        size: Option<u64>,
    },
    Field {
        here: Occurrence,
        region: &'a Path,
        scope: usize,
        access: Option<u64>,
        units: UnitFaults,
    },
}

fn size_in(measure: Option<Extent>) -> Option<u64>
    ensures { result ≡ spec.size_in measure }
{
    match measure {
        Some(Extent::Size(size)) => size,
        _ => None,
    }
}

fn access_in(measure: Option<Extent>) -> Option<u64>
    ensures { result ≡ spec.access_in measure }
{
    match measure {
        Some(Extent::Access(access, _)) => access,
        _ => None,
    }
}

const NO_FAULTS: UnitFaults = UnitFaults {
    serial: None,
    bus: None,
    pins: None,
    other: None,
};

fn units_in(measure: Option<Extent>) -> UnitFaults
    ensures { result ≡ spec.units_in measure }
{
    match measure {
        Some(Extent::Access(_, units)) => units,
        _ => NO_FAULTS,
    }
}

// The site that a mention is.
fn site_with<'a>(index: &Index, mention: Mention<'a>, measure: Option<Extent>) -> Option<Site<'a>>
    ghost whole: { Whole }
    requires agrees { Agrees index.now.paths index.now.named.items whole.all }
    requires there { IsThere whole (shown index.now.paths mention) }
    ensures within { IfSome result (IsWithin (length index.now.paths)) }
    ensures site { optional_site index.now.paths result ≡ spec.site_with (shown index.now.paths mention.entry) measure }
    ensures site_is { spec.is_site (shown index.now.paths mention.entry) ≡ is_some result }
{
    match mention {
        Mention::Declares {
            name,
            what: Declared::As(What::Region(_)),
            scope,
            ..
        } => Some(Site::Region {
            path: declared_at(index, name, scope),
            size: size_in(measure),
        }),
        Mention::Used {
            asked: Asked::Region(here),
            name,
            scope,
            ..
        } => Some(Site::Field {
            here,
            region: name,
            scope,
            access: access_in(measure),
            units: units_in(measure),
        }),
        _ => None,
    }
}

fn measure_at(measures: &[Extent], place: usize) -> Option<Extent>
    ensures { result ≡ slice_get measures.now place }
{
    measures.get(place).copied()
}

/// The sites of a block: its mentions with what its regions and fields say.
pub fn sites<'a>(
    alloc: Global,
    index: &Index,
    mentions: &[Mention<'a>],
    measures: &[Extent],
) -> Result<Vec<Site<'a>>, AllocError>
    ghost whole: { Whole }
    requires agrees { Agrees index.now.paths index.now.named.items whole.all }
    requires all { after_all (all_shown index.now.paths mentions.now) nothing_declared ≡ whole.all }
    ensures within { IfOk result (λ v. All (IsWithin (length index.now.paths)) v.items) }
    ensures told { IfOk result
        (λ v. map (site_as index.now.paths) v.items ≡ spec.joined (all_shown index.now.paths mentions.now) measures.now) }
{
    let mut out = Vec::new(alloc);
    let mut next: usize = 0;
    for mention in mentions {
        if let Some(site) = site_with(index, *mention, measure_at(measures, next)) {
            out.push(site)?;
            next += 1;
        }
    }
    Ok(out)
}

// The size of a region, where no region stands at the path before.
fn note_region(index: &Index, table: &mut Vec<Option<u64>>, path: usize, size: u64)
    requires within { path < length index.now.paths }
    requires size { length table.old.items ≡ length index.now.paths }
    ensures size { length table.new.items ≡ length index.now.paths }
    ensures noted { (before : List (AbsolutePath × ℕ)) → Tabled index.now.paths table.old.items (lookup before) →
        Tabled index.now.paths table.new.items (lookup (before ++ (get_or index.now.paths path [], size) ∷ [])) }
{
    let count = index.paths.len();
    match table[path] {
        Some(_) => {}
        None => table[path] = Some(size),
    }
}

// The size of a region, where it is constant.
fn note_size(index: &Index, table: &mut Vec<Option<u64>>, path: usize, size: Option<u64>)
    requires within { path < length index.now.paths }
    requires size { length table.old.items ≡ length index.now.paths }
    ensures size { length table.new.items ≡ length index.now.paths }
    ensures noted { (before : List (AbsolutePath × ℕ)) → Tabled index.now.paths table.old.items (lookup before) →
        Tabled index.now.paths table.new.items (lookup (before ++ sizes_of (RegionAt (get_or index.now.paths path []) size ∷ []))) }
{
    match size {
        Some(size) => note_region(index, table, path, size),
        None => {}
    }
}

// The size of a site.
fn note_site(index: &Index, table: &mut Vec<Option<u64>>, site: Site<'_>)
    requires within { IsWithin (length index.now.paths) site }
    requires size { length table.old.items ≡ length index.now.paths }
    ensures size { length table.new.items ≡ length index.now.paths }
    ensures noted { (before : List (AbsolutePath × ℕ)) → Tabled index.now.paths table.old.items (lookup before) →
        Tabled index.now.paths table.new.items (lookup (before ++ sizes_of (site_as index.now.paths site.entry ∷ []))) }
{
    match site {
        Site::Region { path, size } => note_size(index, table, path, size),
        Site::Field { .. } => {}
    }
}

// A table that says nothing yet.
fn blank(alloc: Global, index: &Index) -> Result<Vec<Option<u64>>, AllocError>
    ensures size { IfOk result (λ t. length t.items ≡ length index.now.paths) }
    ensures none { IfOk result (λ t. Tabled index.now.paths t.items (lookup (sizes_of []))) }
{
    let mut table = Vec::new(alloc);
    for number in 0..index.paths.len() {
        table.push(None)?;
    }
    Ok(table)
}

/// The constant lengths of regions, by the numbers of their paths.
pub fn sizes(
    alloc: Global,
    index: &Index,
    sites: &[Site<'_>],
) -> Result<Vec<Option<u64>>, AllocError>
    requires within { All (IsWithin (length index.now.paths)) sites.now }
    ensures size { IfOk result (λ t. length t.items ≡ length index.now.paths) }
    ensures told { IfOk result (λ t. Tabled index.now.paths t.items (lookup (sizes_of (map (site_as index.now.paths) sites.now)))) }
{
    let mut table = blank(alloc, index)?;
    for site in sites {
        note_site(index, &mut table, *site);
    }
    Ok(table)
}
