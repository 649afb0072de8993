//! What a whole block says of its names.
ghost use Rattle.std.specs.Prelude.{◌≡◌, ◌<◌, ◌≤◌, ℕ, Bool, [], length, get_or, IfOk};
ghost use Rattle.acpi_values.specs.Paths.{AbsolutePath};
ghost use Rattle.asl_meaning.specs.Declarations.{is_named, called, nothing_declared};
ghost use Rattle.acpi_names.specs.Errors.{Whole, final};
ghost use Rattle.acpi_names.specs.Mentions.{after_all, calls_in};
ghost use Rattle.acpi_names.specs.Parts.{Agrees};
ghost use Rattle.acpi_names.specs.Shown.{all_shown};
ghost use Rattle.name_kinds.specs.Depths.{AreDepths};
ghost use Rattle.name_kinds.specs.Ends.{ended};
ghost use Rattle.name_kinds.specs.Tables.{AreSized, TablesSay, IsKnown};
ghost use Rattle.name_kinds.specs.Facts.{Knows};

use crate::ends::ends_of;
use crate::kind::End;
use crate::tables::{Tables, note};
use acpi_names::index::Index;
use acpi_names::mention::Mention;
use acpi_names::paths::Paths;
use std::alloc::{AllocError, Global};

/// The names of a block, what it says of each, how many segments the path with each number has, and where it ends.
pub struct Facts {
    pub index: Index,
    pub tables: Tables,
    pub depths: Vec<usize>,
    pub ends: Vec<Option<End>>,
}

// By hand, so that an owner lets go of it by one call (docs/DECISIONS.md).
impl Drop for Facts {
    fn drop(self) {
        let Facts {
            index: _,
            tables: _,
            depths: _,
            ends: _,
        } = self;
    }
}

impl Facts {
    /// The names, and of each path how many arguments calls have by what stands there.
    pub fn into_names(self) -> (Index, Vec<Option<usize>>)
        ensures index { result.0 ≡ self.index }
        ensures calls { result.1 ≡ self.tables.calls }
    {
        let Facts {
            index,
            tables,
            depths: _,
            ends: _,
        } = self;
        (index, tables.calls)
    }
}

// Tables that say nothing yet.
fn blank(alloc: Global, index: &Index) -> Result<Tables, AllocError>
    ensures sized { IfOk result (AreSized index.now.paths) }
    ensures notes { IfOk result (λ t. (has : AbsolutePath → Bool) → TablesSay index.now.paths has t [] nothing_declared) }
{
    let count = index.paths.len();
    let mut kinds = Vec::with_capacity(alloc, count)?;
    let mut externals = Vec::with_capacity(alloc, count)?;
    let mut calls = Vec::with_capacity(alloc, count)?;
    for number in 0..count {
        kinds.push(None)?;
        externals.push(None)?;
        calls.push(None)?;
    }
    Ok(Tables {
        kinds,
        externals,
        calls,
    })
}

// What all mentions say.
fn noted(alloc: Global, index: &Index, mentions: &[Mention]) -> Result<Tables, AllocError>
    ghost whole: { Whole }
    requires flags { length index.now.named.items ≡ length index.now.paths }
    requires agrees { Agrees index.now.paths index.now.named.items whole.all }
    requires all { after_all (all_shown index.now.paths mentions.now) nothing_declared ≡ whole.all }
    ensures sized { IfOk result (AreSized index.now.paths) }
    ensures notes { IfOk result
        (λ t. TablesSay index.now.paths (is_named whole.all) t
        (called (calls_in (is_named whole.all) (all_shown index.now.paths mentions.now)))
        whole.all) }
{
    let mut tables = blank(alloc, index)?;
    for mention in mentions {
        note(index, &mut tables, mention);
    }
    Ok(tables)
}

// How many segments a path has, by those of the paths before it.
fn depth(paths: &Paths, depths: &[usize], number: usize) -> usize
    requires within { number < length paths.now }
    requires size { length depths.now ≡ number }
    requires before { (n : ℕ) → n < number → get_or depths.now n 0 ≡ length (get_or paths.now n []) }
    requires low { (n : ℕ) → n < number → get_or depths.now n 0 ≤ n }
    ensures depth { result ≡ length (get_or paths.now number []) }
    ensures low { result ≤ number }
{
    match paths.step(number) {
        None => 0,
        Some(below) => depths[below.0] + 1,
    }
}

// How many segments each path has.
fn depths(alloc: Global, paths: &Paths) -> Result<Vec<usize>, AllocError>
    ensures { IfOk result (λ v. AreDepths paths.now v.items) }
{
    let count = paths.len();
    let mut depths = Vec::with_capacity(alloc, count)?;
    for number in 0..count {
        let next = depth(paths, &depths, number);
        depths.push(next)?;
    }
    Ok(depths)
}

/// What all mentions of a block say of its names.
pub fn facts_of(alloc: Global, index: Index, mentions: &[Mention]) -> Result<Facts, AllocError>
    ghost whole: { Whole }
    requires flags { length index.named.items ≡ length index.paths }
    requires agrees { Agrees index.paths index.named.items whole.all }
    requires all { after_all (all_shown index.paths mentions.now) nothing_declared ≡ whole.all }
    requires calls { called (calls_in (is_named whole.all) (all_shown index.paths mentions.now)) ≡ whole.calls }
    requires known { IsKnown whole }
    ensures told { IfOk result (λ f. Knows f whole) }
    ensures same { IfOk result (λ f. f.index ≡ index) }
{
    let tables = noted(alloc, &index, mentions)?;
    let depths = depths(alloc, &index.paths)?;
    let ends = ends_of(alloc, &index.paths, &tables)?;
    Ok(Facts {
        index,
        tables,
        depths,
        ends,
    })
}

/// Where the path with a number ends, and what is there.
pub fn end(facts: &Facts, number: usize) -> Option<End>
    ghost whole: { Whole }
    requires told { Knows facts.now whole }
    requires within { number < length facts.now.index.paths }
    ensures { ended facts.now.index.paths result ≡ final whole.known (get_or facts.now.index.paths number []) }
{
    facts.ends[number]
}

/// Whether the path with a number is named by the block.
pub fn is_named_at(facts: &Facts, number: usize) -> bool
    ghost whole: { Whole }
    requires told { Knows facts.now whole }
    requires within { number < length facts.now.index.paths }
    ensures { result ≡ is_named whole.all (get_or facts.now.index.paths number []) }
{
    let count = facts.index.paths.len();
    facts.index.named[number]
}
