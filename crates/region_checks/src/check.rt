//! Fields whose accesses are wider than their regions, and units that do not fit the spaces of theirs.
ghost use Rattle.std.specs.Prelude.{◌≡◌, ◌++◌, ℕ, List, [], length, get_or, IfOk, OnOk, Some, None, true, if◌then◌else◌};
ghost use Rattle.acpi_values.specs.Paths.{AbsolutePath};
ghost use Rattle.acpi_state.specs.Objects.{lookup};
ghost use Rattle.asl_tree.specs.View.{trees_of};
ghost use Rattle.term_plans.specs.Places.{AreTold};
ghost use Rattle.term_plans.specs.Plans.{plans_of};
ghost use Rattle.asl_meaning.specs.Declarations.{nothing_declared};
ghost use Rattle.acpi_names.specs.Errors.{Whole, name_end};
ghost use Rattle.acpi_names.specs.Mentions.{after_all, block_mentions};
ghost use Rattle.acpi_names.specs.Shown.{all_shown};
ghost use Rattle.acpi_names.specs.Tables.{Tabled};
ghost use Rattle.acpi_names.specs.Terms.{are_terms};
ghost use Rattle.name_kinds.specs.Facts.{Knows};
ghost use Rattle.name_kinds.specs.Known.{KnowsItsTerms};
ghost use Rattle.name_kinds.specs.Seen.{seen};
ghost use Rattle.region_checks.specs.Places.{AreFieldsWithin, ArePartsWithin};
ghost use Rattle.region_checks.specs.Regions.{size_at, access_errors, fault_told, unit_errors, site_errors as errors_of, sited_errors};
ghost use Rattle.region_checks.specs.Regions.{region_errors};
ghost use Rattle.region_checks.specs.Measures.{joined, fault_in as fault_of};
ghost use Rattle.acpi_state.specs.Access.{is_buffer_space as needs_buffers};
ghost use Rattle.field_checks.specs.Units.{unit_told};
ghost use Rattle.name_kinds.specs.Ends.{ended};
ghost use Rattle.name_kinds.specs.Kinds.{space_of};
ghost use Rattle.region_checks.specs.Shown.{site_as};
ghost use Rattle.region_checks.specs.Sites.{sites_all};

use crate::measure::{Extent, UnitFaults, all_measures};
use crate::site::{Site, sites, sizes};
use acpi_names::lookup::scope_in;
use acpi_names::mention::Mention;
use acpi_values::width::Width;
use asl_tree::path::Path;
use field_checks::units::{UnitFault, tell};
use iasl_messages::message::{Message, Messages};
use iasl_messages::number::ACCESS_WIDER_THAN_REGION;
use iasl_messages::place::Place;
use iasl_ports::list::Text;
use name_kinds::facts::{Facts, end};
use name_kinds::kind::{End, space_in};
use name_kinds::known::Known;
use name_kinds::tables::denoted;
use std::alloc::{AllocError, Global};

// Where the name of a region ends.
fn region_end(facts: &Facts, region: &Path, scope: usize) -> Option<End>
    ghost whole: { Whole }
    requires told { Knows facts.now whole }
    ensures { ended facts.now.index.paths result ≡ name_end whole region.now (get_or facts.now.index.paths scope []) }
{
    match denoted(&facts.index, region, scope) {
        None => None,
        Some(target) => end(facts, target),
    }
}

// The constant length of the region at an end.
fn size_of(facts: &Facts, table: &[Option<u64>], end: Option<End>) -> Option<u64>
    ghost whole: { Whole }
    requires told { Knows facts.now whole }
    requires sized { length table.now ≡ length facts.now.index.paths }
    ensures { (regions : List (AbsolutePath × ℕ)) → Tabled facts.now.index.paths table.now (lookup regions) →
        result ≡ size_at regions (ended facts.now.index.paths end) }
{
    let count = facts.index.paths.len();
    match end {
        None => None,
        Some(end) => table[scope_in(&facts.index.paths, end.path)],
    }
}

// The space of the region at an end, where it is declared in this source.
fn space_at(end: Option<End>) -> Option<u64>
    ensures { (paths : List AbsolutePath) → result ≡ space_of (ended paths end) }
{
    match end {
        None => None,
        Some(end) => space_in(end.object),
    }
}

fn is_buffer_space(space: u64) -> bool
    ensures { result ≡ needs_buffers space }
{
    space == 4 || space == 7 || space == 9
}

fn fault_in(space: u64, faults: UnitFaults) -> Option<UnitFault>
    ensures { result ≡ fault_of space faults }
{
    if space == 9 {
        faults.serial
    } else if space == 8 {
        faults.pins
    } else if is_buffer_space(space) {
        faults.bus
    } else {
        faults.other
    }
}

// The first fault of the units of a field in the region at an end.
fn fault_at_end(end: Option<End>, faults: UnitFaults) -> Option<UnitFault>
    ensures { (paths : List AbsolutePath) → unit_told result ≡ unit_errors (λ space. fault_of space faults) (ended paths end) }
{
    match space_at(end) {
        None => None,
        Some(space) => fault_in(space, faults),
    }
}

// Whether an access has more bytes than a region.
fn is_wider(access: Option<u64>, size: Option<u64>) -> bool
    ensures { (place : Place) → access_errors place access size ≡ fault_told place (if result then Some (0, 6072) else None) }
{
    match access {
        Some(access) => match size {
            Some(size) => size < access,
            None => false,
        },
        None => false,
    }
}

// What is told of one field.
fn field_errors(
    alloc: Global,
    out: &mut Messages,
    place: Place,
    access: Option<u64>,
    size: Option<u64>,
) -> Result<(), AllocError>
    ensures { OnOk result (out.new ≡ out.old ++ access_errors place access size) }
{
    if is_wider(access, size) {
        out.push(Message {
            number: ACCESS_WIDER_THAN_REGION,
            place,
            name: Text::new(alloc),
        })?;
    }
    Ok(())
}

// What is told of one site.
fn site_errors(
    alloc: Global,
    out: &mut Messages,
    facts: &Facts,
    table: &[Option<u64>],
    site: Site<'_>,
) -> Result<(), AllocError>
    ghost whole: { Whole }
    requires told { Knows facts.now whole }
    requires sized { length table.now ≡ length facts.now.index.paths }
    ensures { OnOk result ((regions : List (AbsolutePath × ℕ)) → Tabled facts.now.index.paths table.now (lookup regions) → out.new ≡ out.old
        ++ errors_of whole regions (site_as facts.now.index.paths site.entry)) }
{
    match site {
        Site::Field {
            here,
            region,
            scope,
            access,
            units,
        } => {
            let end = region_end(facts, region, scope);
            let size = size_of(facts, table, end);
            field_errors(alloc, out, here.place, access, size)?;
            tell(alloc, out, fault_at_end(end, units))?;
            Ok(())
        }
        Site::Region { .. } => Ok(()),
    }
}

// What is told of all sites, in order.
fn all_site_errors(
    alloc: Global,
    facts: &Facts,
    mentions: &[Mention<'_>],
    measures: &[Extent],
) -> Result<Messages, AllocError>
    ghost whole: { Whole }
    requires told { Knows facts.now whole }
    requires all { after_all (all_shown facts.now.index.paths mentions.now) nothing_declared ≡ whole.all }
    ensures { IfOk result (λ ms. ms ≡ sited_errors whole (joined (all_shown facts.now.index.paths mentions.now) measures.now)) }
{
    let sites = sites(alloc, &facts.index, mentions, measures)?;
    let table = sizes(alloc, &facts.index, &sites)?;
    let mut out = Messages::new(alloc);
    for site in &sites {
        site_errors(alloc, &mut out, facts, &table, *site)?;
    }
    Ok(out)
}

/// What `region_faults` tells of a block, by what its mentions say, whatever its terms are. The only error is want of
/// memory, as with `region_faults`.
pub fn seen_faults(alloc: Global, width: Width, known: &Known<'_>) -> Result<Messages, AllocError>
    requires { KnowsItsTerms known.now }
    ensures { IfOk result (λ ms. ms ≡ sited_errors (seen (block_mentions (trees_of known.now.terms.now) [] nothing_declared))
        (sites_all width (trees_of known.now.terms.now) (plans_of known.now.terms.now) [] nothing_declared)) }
{
    let mut measures = Vec::new(alloc);
    all_measures(alloc, width, &mut measures, known.terms)?;
    if measures.is_empty() {
        return Ok(Messages::new(alloc));
    }
    let out = all_site_errors(alloc, &known.facts, &known.mentions, &measures)?;
    Ok(out)
}

/// The fields of a block, of whose names this is known, that do not fit their regions (ACPI Specification 6.4, 5.5.2.4,
/// 19.6.7, 19.6.48 and 19.6.100), in the order of the source: 6072 at each Field and BankField whose list has no error
/// of its own, and whose access has more bytes than the constant length of the region at which its name ends, through
/// aliases too; and of each the first unit that is not accessed as the space of this region asks (6073, 6074) or lacks
/// the connection that it asks for (6075). A region of another table has no length and no space, and one whose length
/// is no constant has no length. A length is taken at the width of the table. The only error is want of memory, as
/// which a list is answered that reaches behind 2^62 bits.
pub fn region_faults(alloc: Global, width: Width, known: &Known<'_>) -> Result<Messages, AllocError>
    requires terms { are_terms (trees_of known.now.terms.now) ≡ true }
    requires known { KnowsItsTerms known.now }
    ensures told { IfOk result (λ ms. ms ≡ region_errors width (trees_of known.now.terms.now) (plans_of known.now.terms.now)) }
    ensures places { (files : ℕ) → AreFieldsWithin files (trees_of known.now.terms.now)
        → ArePartsWithin files (plans_of known.now.terms.now) → IfOk result (AreTold files) }
{
    let out = seen_faults(alloc, width, known)?;
    Ok(out)
}
