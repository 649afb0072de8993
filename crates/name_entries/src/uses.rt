//! What each used name denotes.
ghost use Rattle.std.specs.Prelude.{◌≡◌, ◌↔◌, ◌<◌, ◌≤◌, ◌^◌, ◌++◌, ℕ, [], length, get_or, nat_eq, None, List, if◌then◌else◌, IsTrue};
ghost use Rattle.std.specs.Prelude.{IfOk, OnOk};
ghost use Rattle.asl_tree.specs.Names.{denoted};
ghost use Rattle.asl_tree.specs.View.{trees_of};
ghost use Rattle.asl_meaning.specs.Declarations.{Declarations, is_named};
ghost use Rattle.acpi_names.specs.Parts.{Agrees};
ghost use Rattle.acpi_names.specs.Paths.{path_with};
ghost use Rattle.acpi_names.specs.Shown.{shown, all_shown};
ghost use Rattle.name_entries.specs.Uses.{Use, Denotes, used_by, uses_after, denoted_in};
ghost use Rattle.name_kinds.specs.Known.{KnowsItsTerms};

use acpi_names::index::{Index, denoted_by};
use acpi_names::lookup::scope_in;
use acpi_names::mention::Mention;
use asl_tree::path::Path;
use name_kinds::known::Known;
use std::alloc::{AllocError, Global};

// No more paths than this, so that a number has 32 bits.
const MOST: usize = 0x1_0000_0000;

/// Whether so many paths have numbers of 32 bits.
pub(crate) fn has_room(count: usize) -> bool
    ensures { IsTrue result ↔ count ≤ 2 ^ 32 }
{
    count <= MOST
}

// What a used name denotes in a scope.
fn target(index: &Index, name: &Path, scope: usize) -> Option<u32>
    requires flags { length index.now.named.items ≡ length index.now.paths }
    requires room { length index.now.paths ≤ 2 ^ 32 }
    ensures { (d : Declarations) → Agrees index.now.paths index.now.named.items d → path_with index.now.paths result ≡ denoted
        (is_named d) name.now (get_or index.now.paths scope []) }
{
    match denoted_by(index, name, scope_in(&index.paths, scope)) {
        Some(number) => Some(number as u32),
        None => None,
    }
}

// From now on this is what the name at a node denotes.
fn put(uses: &mut Vec<Option<u32>>, node: u32, target: Option<u32>) -> Result<(), AllocError>
    ensures { OnOk result ((n : ℕ) → get_or uses.new.items n None ≡ (if nat_eq node n then target else get_or uses.old.items n None)) }
{
    let number = node as usize;
    while uses.len() <= number {
        uses.push(None)?;
    }
    uses[number] = target;
    Ok(())
}

// What the name of a mention denotes, where it is used.
fn note(index: &Index, uses: &mut Vec<Option<u32>>, mention: &Mention) -> Result<(), AllocError>
    requires flags { length index.now.named.items ≡ length index.now.paths }
    requires room { length index.now.paths ≤ 2 ^ 32 }
    ensures { OnOk result ((d : Declarations) (before : List Use) → Agrees index.now.paths index.now.named.items d →
        Denotes index.now.paths (is_named d) uses.old.items before → Denotes index.now.paths (is_named d) uses.new.items
        (used_by (shown index.now.paths mention.now) ++ before)) }
{
    match mention {
        Mention::Used {
            at,
            name,
            scope,
            ..
        } => {
            put(uses, at.id, target(index, name, *scope))?;
            Ok(())
        }
        Mention::Sought { at, name, scope } => {
            put(uses, at.id, target(index, name, *scope))?;
            Ok(())
        }
        Mention::Called {
            at,
            name,
            scope,
            ..
        } => {
            put(uses, at.id, target(index, name, *scope))?;
            Ok(())
        }
        Mention::Opens {
            at,
            name,
            scope,
            ..
        } => {
            put(uses, at.id, target(index, name, *scope))?;
            Ok(())
        }
        Mention::Declares { .. } => Ok(()),
        Mention::Outside { .. } => Ok(()),
    }
}

// What the names at nodes denote, by the numbers of the nodes. Should two nodes have the same number, the last counts.
fn uses_of(
    alloc: Global,
    index: &Index,
    mentions: &[Mention],
) -> Result<Vec<Option<u32>>, AllocError>
    requires flags { length index.now.named.items ≡ length index.now.paths }
    requires room { length index.now.paths ≤ 2 ^ 32 }
    ensures { IfOk result (λ uses. (d : Declarations) → Agrees index.now.paths index.now.named.items d →
        Denotes index.now.paths (is_named d) uses.items (uses_after (all_shown index.now.paths mentions.now) [])) }
{
    let mut uses = Vec::new(alloc);
    for mention in mentions {
        note(index, &mut uses, mention)?;
    }
    Ok(uses)
}

/// The number of the path that the used name at each node of a block denotes, by the numbers of the nodes (ACPI
/// Specification 6.4, 5.3). Should several nodes have the same number, the last counts. A want of memory is also the
/// answer where there are more than 2^32 paths.
pub fn uses_in(alloc: Global, known: &Known<'_>) -> Result<Vec<Option<u32>>, AllocError>
    requires { KnowsItsTerms known.now }
    ensures { IfOk result (λ uses. (node : ℕ) → path_with known.now.facts.index.paths (get_or uses.items node None) ≡ denoted_in
        (trees_of known.now.terms.now) node) }
{
    if !has_room(known.facts.index.paths.len()) {
        return Err(AllocError);
    }
    let uses = uses_of(alloc, &known.facts.index, &known.mentions)?;
    Ok(uses)
}
