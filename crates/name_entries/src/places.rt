//! Where the names of paths are declared, in tables by the numbers of paths.
ghost use Rattle.std.specs.Prelude.{◌≡◌, ◌<◌, [], length, get_or, IfOk};
ghost use Rattle.acpi_state.specs.Objects.{lookup};
ghost use Rattle.asl_meaning.specs.Declarations.{nothing_declared};
ghost use Rattle.acpi_names.specs.Errors.{Whole};
ghost use Rattle.acpi_names.specs.Mentions.{after_all};
ghost use Rattle.acpi_names.specs.Parts.{Agrees};
ghost use Rattle.acpi_names.specs.Shown.{shown, all_shown, spot_as};
ghost use Rattle.name_kinds.specs.Tables.{IsThere};
ghost use Rattle.name_entries.specs.Placed.{Places, AreAll, ArePlaced, IsDeclaredAt, IsOutsideAt, no_places, placed, placed_all, place_at};
ghost use Rattle.name_entries.specs.Placed.{first_place};

use acpi_names::index::Index;
use acpi_names::mention::{Mention, Occurrence, WrittenName};
use acpi_names::paths::Paths;
use iasl_messages::place::Place;
use name_kinds::tables::{declared_at, is_in_root};
use std::alloc::{AllocError, Global};

/// Where the paths with these numbers are declared last, and where their last External names them: the place of the
/// node that is the name, and of a declaration also the number of that node.
#[derive(Drop)]
pub struct PlaceTables {
    pub declared: Vec<Option<Place>>,
    pub nodes: Vec<Option<u32>>,
    pub external: Vec<Option<Place>>,
}

// Tables that say nothing yet.
fn blank(alloc: Global, paths: &Paths) -> Result<PlaceTables, AllocError>
    ensures sized { IfOk result (AreAll paths.now) }
    ensures placed { IfOk result (λ t. ArePlaced paths.now t no_places) }
{
    let mut declared = Vec::new(alloc);
    let mut nodes = Vec::new(alloc);
    let mut external = Vec::new(alloc);
    for number in 0..paths.len() {
        declared.push(None)?;
        nodes.push(None)?;
        external.push(None)?;
    }
    Ok(PlaceTables {
        declared,
        nodes,
        external,
    })
}

// A declaration of a path.
fn note_declared(paths: &Paths, tables: &mut PlaceTables, number: usize, at: Occurrence)
    requires within { number < length paths.now }
    requires sized { AreAll paths.now tables.old }
    ensures sized { AreAll paths.now tables.new }
    ensures placed { IsDeclaredAt paths.now tables.old tables.new (get_or paths.now number []) (spot_as at) }
{
    let count = paths.len();
    tables.declared[number] = Some(at.place);
    tables.nodes[number] = Some(at.id);
}

// An External of a path.
fn note_outside(paths: &Paths, tables: &mut PlaceTables, number: usize, at: Place)
    requires within { number < length paths.now }
    requires sized { AreAll paths.now tables.old }
    ensures sized { AreAll paths.now tables.new }
    ensures placed { IsOutsideAt paths.now tables.old tables.new (get_or paths.now number []) at }
{
    let count = paths.len();
    if !is_in_root(paths, number) {
        tables.external[number] = Some(at);
    }
}

// The place of the name of one mention, where it declares one.
fn note(index: &Index, tables: &mut PlaceTables, mention: &Mention)
    ghost whole: { Whole }
    requires agrees { Agrees index.now.paths index.now.named.items whole.all }
    requires there { IsThere whole (shown index.now.paths mention.now) }
    requires sized { AreAll index.now.paths tables.old }
    ensures sized { AreAll index.now.paths tables.new }
    ensures placed { (p : Places) → ArePlaced index.now.paths tables.old p → ArePlaced index.now.paths tables.new
        (placed (shown index.now.paths mention.now) p) }
{
    match mention {
        Mention::Declares {
            at,
            name,
            scope,
            ..
        } => {
            let number = declared_at(index, *name, *scope);
            note_declared(&index.paths, tables, number, *at);
        }
        Mention::Outside {
            at,
            name,
            scope,
            ..
        } => {
            let number = declared_at(index, WrittenName::Path(name), *scope);
            note_outside(&index.paths, tables, number, at.place);
        }
        Mention::Used { .. } => {}
        Mention::Sought { .. } => {}
        Mention::Called { .. } => {}
        Mention::Opens { .. } => {}
    }
}

/// The places of all names that are declared.
pub fn places_of(
    alloc: Global,
    index: &Index,
    mentions: &[Mention],
) -> Result<PlaceTables, AllocError>
    ghost whole: { Whole }
    requires agrees { Agrees index.now.paths index.now.named.items whole.all }
    requires all { after_all (all_shown index.now.paths mentions.now) nothing_declared ≡ whole.all }
    ensures sized { IfOk result (AreAll index.now.paths) }
    ensures placed { IfOk result (λ t. ArePlaced index.now.paths t (placed_all (all_shown index.now.paths mentions.now) no_places)) }
{
    let mut tables = blank(alloc, &index.paths)?;
    for mention in mentions {
        note(index, &mut tables, mention);
    }
    Ok(tables)
}

// The beginning of the main file.
const BEGINNING: Place = Place {
    file: 0,
    line: 1,
    column: 1,
};

// The first of two places that is there, or else the beginning of the main file.
fn first_of(declared: Option<Place>, external: Option<Place>) -> Place
    ensures { result ≡ first_place declared external }
{
    match declared {
        Some(place) => place,
        None => match external {
            Some(place) => place,
            None => BEGINNING,
        },
    }
}

/// The number of the node that declares the path with a number last.
pub fn node_of(paths: &Paths, tables: &PlaceTables, number: usize) -> Option<u32>
    requires within { number < length paths.now }
    requires sized { AreAll paths.now tables.now }
    ensures { (p : Places) → ArePlaced paths.now tables.now p → result ≡ lookup p.nodes (get_or paths.now number []) }
{
    let count = paths.len();
    tables.nodes[number]
}

/// The place of the path with a number: where it is declared last, or else where its last External names it. A path
/// of the root that is not declared has the beginning of the main file.
pub fn place_of(paths: &Paths, tables: &PlaceTables, number: usize) -> Place
    requires within { number < length paths.now }
    requires sized { AreAll paths.now tables.now }
    ensures { (p : Places) → ArePlaced paths.now tables.now p → result ≡ place_at p (get_or paths.now number []) }
{
    let count = paths.len();
    first_of(tables.declared[number], tables.external[number])
}
