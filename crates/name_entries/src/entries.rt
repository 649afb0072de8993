//! The entries of a block's names, and what each used name denotes.
ghost use Rattle.std.specs.Prelude.{◌≡◌, ℕ, [], length, get_or, true, None, option_copied, IfOk};
ghost use Rattle.asl_tree.specs.View.{trees_of};
ghost use Rattle.asl_meaning.specs.Declarations.{declarations};
ghost use Rattle.acpi_names.specs.Parts.{Agrees};
ghost use Rattle.acpi_names.specs.Paths.{path_with};
ghost use Rattle.acpi_names.specs.Terms.{are_terms};
ghost use Rattle.name_entries.specs.Entries.{entry_as, entry_said, entry_in};
ghost use Rattle.name_entries.specs.Uses.{denoted_in};

use crate::description::{Description, described_all};
use crate::descriptors::descriptor_flags;
use crate::kind::ObjectType;
use crate::uses::{has_room, uses_in};
use acpi_names::index::Index;
use acpi_names::lookup::{from_root, scope_in};
use acpi_names::paths::Paths;
use asl_tree::path::Path;
use asl_tree::term::Node;
use iasl_messages::place::Place;
use name_kinds::known::known_of;
use std::alloc::{AllocError, Global};

/// What a path is: its number, the path from the root, its kind, how many arguments it takes, and the place of the node
/// that is its declared name. An alias has the kind and the number of arguments of what it refers to. A resource descriptor
/// is what a term `Name` of its own declares, whose value is bytes alone.
#[derive(Drop)]
pub struct Entry {
    pub number: u32,
    pub path: Path,
    pub kind: ObjectType,
    pub arity: u8,
    pub place: Place,
}

/// The names of a block. Each path that the block speaks of has its number, from 0 on without a gap. `uses` says of the
/// number of a node which path the name denotes that is used there, and `entries` of the number of a path what it is.
#[derive(Drop)]
pub struct Entries {
    pub index: Index,
    pub uses: Vec<Option<u32>>,
    pub entries: Vec<Option<Entry>>,
}

impl Entries {
    /// What stands at the path with a number, lent. None exactly where there are not that many paths, or where the path is
    /// neither declared nor of another table nor of the root: one on the way to such a path, or that of a Scope which
    /// leads nowhere.
    pub fn entry(&self, number: u32) -> Option<&Entry>
        ensures { option_copied result ≡ get_or self.now.entries.items number None }
    {
        match self.entries.get(number as usize) {
            Some(entry) => entry.as_ref(),
            None => None,
        }
    }

    /// The number of the path that the name at a node denotes. None exactly where the node is no use, or where its
    /// name has no candidate.
    pub fn denotes(&self, node: u32) -> Option<u32>
        ensures { result ≡ get_or self.now.uses.items node None }
    {
        match self.uses.get(node as usize) {
            Some(target) => *target,
            None => None,
        }
    }
}

// The entry of the path with a number, of which this is said.
fn entry_of(
    alloc: Global,
    paths: &Paths,
    number: u32,
    said: Description,
) -> Result<Entry, AllocError>
    ensures { IfOk result (λ e. e ≡ entry_as number (get_or paths.now number []) said) }
{
    let path = from_root(alloc, paths, scope_in(paths, number as usize))?;
    Ok(Entry {
        number,
        path,
        kind: said.kind,
        arity: said.arity,
        place: said.place,
    })
}

// The entry of the path with a number, where something is said of it.
fn entry_where(
    alloc: Global,
    paths: &Paths,
    number: u32,
    said: Option<Description>,
) -> Result<Option<Entry>, AllocError>
    ensures { IfOk result (λ e. e ≡ entry_said paths.now number said) }
{
    match said {
        Some(description) => Ok(Some(entry_of(alloc, paths, number, description)?)),
        None => Ok(None),
    }
}

// The entries of the paths of which something is said, by their numbers.
fn entry_table(
    alloc: Global,
    paths: &Paths,
    said: &[Option<Description>],
) -> Result<Vec<Option<Entry>>, AllocError>
    ensures { IfOk result
        (λ entries. (number : ℕ) →
        get_or entries.items number None ≡ entry_said paths.now number (get_or said.now number None)) }
{
    if !has_room(said.len()) {
        return Err(AllocError);
    }
    let mut entries = Vec::new(alloc);
    for number in 0..said.len() {
        let entry = entry_where(alloc, paths, number as u32, said[number])?;
        entries.push(entry)?;
    }
    Ok(entries)
}

/// The names of a block (ACPI Specification 6.4, 5.3). A node of the block has a number of its own, so that the name at
/// a number is one; should several have the same, the last counts. What is said of a path holds where the terms of the
/// block are terms, as they are in every program that has its shape. A want of memory is also the answer where there
/// are more than 2^32 paths.
pub fn entries_of(alloc: Global, terms: &[Node]) -> Result<Entries, AllocError>
    ensures size { IfOk result (λ n. length n.index.named.items ≡ length n.index.paths) }
    ensures names { IfOk result (λ n. Agrees n.index.paths n.index.named.items (declarations (trees_of terms.now))) }
    ensures uses { IfOk result
        (λ n. (node : ℕ) → path_with n.index.paths (get_or n.uses.items node None) ≡ denoted_in (trees_of terms.now) node) }
    ensures entries { IfOk result
        (λ n. are_terms (trees_of terms.now) ≡ true →
        (number : ℕ) → get_or n.entries.items number None ≡ entry_in (trees_of terms.now) n.index.paths number) }
{
    let known = known_of(alloc, terms)?;
    let uses = uses_in(alloc, &known)?;
    let flags = descriptor_flags(alloc, known.terms)?;
    let said = described_all(alloc, &known.facts, &known.mentions, &flags)?;
    let entries = entry_table(alloc, &known.facts.index.paths, &said)?;
    let (index, _) = known.into_names();
    Ok(Entries {
        index,
        uses,
        entries,
    })
}
