//! What is said of a path.
ghost use Rattle.std.specs.Prelude.{◌≡◌, ◌<◌, ℕ, List, [], None, length, get_or, IfOk};
ghost use Rattle.asl_meaning.specs.Declarations.{nothing_declared};
ghost use Rattle.acpi_names.specs.Errors.{Whole};
ghost use Rattle.acpi_names.specs.Mentions.{after_all};
ghost use Rattle.acpi_names.specs.Shown.{all_shown};
ghost use Rattle.name_kinds.specs.Ends.{ended};
ghost use Rattle.name_kinds.specs.Facts.{Knows};
ghost use Rattle.name_entries.specs.Descriptors.{AreFlagged};
ghost use Rattle.name_entries.specs.Entries.{as_byte, end_arity, end_kind, described_by};
ghost use Rattle.name_entries.specs.Entries.{is_descriptor as descriptor_is, kind_in as kind_is};
ghost use Rattle.name_entries.specs.Placed.{Places, AreAll, ArePlaced, no_places, placed_all};
ghost use Rattle.acpi_values.specs.Paths.{AbsolutePath};
ghost use Rattle.acpi_state.specs.Objects.{lookup};

use crate::descriptors::is_flagged;
use crate::kind::{ObjectType, kind_of};
use crate::places::{PlaceTables, node_of, place_of, places_of};
use acpi_names::lookup::scope_in;
use acpi_names::mention::Mention;
use acpi_names::paths::Paths;
use iasl_messages::place::Place;
use name_kinds::facts::{Facts, end, is_named_at};
use name_kinds::kind::{End, operand_count};
use std::alloc::{AllocError, Global};

/// What stands at a path: its kind, how many arguments it takes, and the place of the node that declares its name.
#[derive(Clone, Copy, PartialEq, Eq, Debug)]
pub struct Description {
    pub kind: ObjectType,
    pub arity: u8,
    pub place: Place,
}

// A number of arguments; more than 255 count as 255.
fn byte(count: u64) -> u8
    ensures { result ≡ as_byte count }
{
    if count <= 255 { count as u8 } else { 255 }
}

/// The kind of what stands at an end: data of any kind where a path leads nowhere, and where it leads to a descriptor.
pub fn kind_at(end: Option<End>) -> ObjectType
    ensures { (paths : List AbsolutePath) → result ≡ end_kind (ended paths end) }
{
    match end {
        None => ObjectType::Data,
        Some(end) => kind_of(end.object),
    }
}

// Whether the path with a number is declared last by a node that is flagged as the name of a descriptor.
fn is_descriptor(paths: &Paths, places: &PlaceTables, flags: &[bool], number: usize) -> bool
    requires sized { AreAll paths.now places.now }
    ensures { (p : Places) → ArePlaced paths.now places.now p → (nodes : List ℕ) → AreFlagged flags.now nodes →
        result ≡ descriptor_is nodes (lookup p.nodes (get_or paths.now number [])) }
{
    match node_of(paths, places, scope_in(paths, number)) {
        None => false,
        Some(node) => is_flagged(flags, node),
    }
}

// The same kind, but that of a descriptor where a path ends at one.
fn kind_in(paths: &Paths, places: &PlaceTables, flags: &[bool], end: Option<End>) -> ObjectType
    requires sized { AreAll paths.now places.now }
    ensures { (p : Places) → ArePlaced paths.now places.now p → (nodes : List ℕ) → AreFlagged flags.now nodes →
        result ≡ kind_is nodes p (ended paths.now end) }
{
    match end {
        None => kind_at(None),
        Some(end) => {
            if is_descriptor(paths, places, flags, end.path) {
                ObjectType::Descriptor
            } else {
                kind_of(end.object)
            }
        }
    }
}

// How many arguments what stands at an end takes.
fn arity_at(end: Option<End>) -> u8
    ensures { (paths : List AbsolutePath) → result ≡ end_arity (ended paths end) }
{
    match end {
        None => 0,
        Some(end) => byte(operand_count(end.object)),
    }
}

// What stands at the path with a number.
fn describe(
    facts: &Facts,
    places: &PlaceTables,
    flags: &[bool],
    number: usize,
) -> Option<Description>
    ghost whole: { Whole }
    requires told { Knows facts.now whole }
    requires sized { AreAll facts.now.index.paths places.now }
    requires within { number < length facts.now.index.paths }
    ensures { (p : Places) → ArePlaced facts.now.index.paths places.now p → (nodes : List ℕ) → AreFlagged flags.now nodes →
        result ≡ described_by nodes whole p (get_or facts.now.index.paths number []) }
{
    if !is_named_at(facts, number) {
        return None;
    }
    let end = end(facts, number);
    Some(Description {
        kind: kind_in(&facts.index.paths, places, flags, end),
        arity: arity_at(end),
        place: place_of(&facts.index.paths, places, number),
    })
}

// What stands at each path, by its number.
fn descriptions(
    alloc: Global,
    facts: &Facts,
    places: &PlaceTables,
    flags: &[bool],
) -> Result<Vec<Option<Description>>, AllocError>
    ghost whole: { Whole }
    requires told { Knows facts.now whole }
    requires sized { AreAll facts.now.index.paths places.now }
    ensures size { IfOk result (λ said. length said.items ≡ length facts.now.index.paths) }
    ensures each { IfOk result
        (λ said. (p : Places) → ArePlaced facts.now.index.paths places.now p → (nodes : List ℕ) → AreFlagged flags.now nodes →
        (n : ℕ) → n < length facts.now.index.paths →
        get_or said.items n None ≡ described_by nodes whole p (get_or facts.now.index.paths n [])) }
{
    let mut said = Vec::new(alloc);
    for number in 0..facts.index.paths.len() {
        said.push(describe(facts, places, flags, number))?;
    }
    Ok(said)
}

/// What stands at each path of a block, by its number, where the nodes are flagged that are the names of its descriptors.
pub fn described_all(
    alloc: Global,
    facts: &Facts,
    mentions: &[Mention],
    flags: &[bool],
) -> Result<Vec<Option<Description>>, AllocError>
    ghost whole: { Whole }
    requires told { Knows facts.now whole }
    requires all { after_all (all_shown facts.now.index.paths mentions.now) nothing_declared ≡ whole.all }
    ensures size { IfOk result (λ said. length said.items ≡ length facts.now.index.paths) }
    ensures each { IfOk result
        (λ said. (nodes : List ℕ) → AreFlagged flags.now nodes → (n : ℕ) → n < length facts.now.index.paths →
        get_or said.items n None ≡ described_by nodes whole (placed_all (all_shown facts.now.index.paths mentions.now) no_places)
        (get_or facts.now.index.paths n [])) }
{
    let places = places_of(alloc, &facts.index, mentions)?;
    let said = descriptions(alloc, facts, &places, flags)?;
    Ok(said)
}
