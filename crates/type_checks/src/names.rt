//! What stands where the used names of a block lead.
ghost use Rattle.std.specs.Prelude.{◌≡◌, ◌<◌, ℕ, [], length, get_or, IfOk, None, true};
ghost use Rattle.acpi_state.specs.Outcomes.{choose};
ghost use Rattle.acpi_names.specs.Errors.{Whole};
ghost use Rattle.acpi_names.specs.Paths.{path_with};
ghost use Rattle.acpi_names.specs.Terms.{are_terms};
ghost use Rattle.asl_tree.specs.View.{trees_of};
ghost use Rattle.name_entries.specs.declared.kind.ObjectType.TheVariants as N;
ghost use Rattle.name_kinds.specs.Facts.{Knows};
ghost use Rattle.name_kinds.specs.Known.{KnowsItsTerms};
ghost use Rattle.type_checks.specs.Names.{named, kind_known};

use acpi_names::lookup::scope_in;
use name_entries::description::kind_at;
use name_entries::kind::ObjectType as Named;
use name_entries::uses::uses_in;
use name_kinds::facts::{Facts, end, is_named_at};
use name_kinds::known::Known;
use std::alloc::{AllocError, Global};

// What stands at the path with a number.
fn kind_there(facts: &Facts, number: usize) -> Named
    ghost whole: { Whole }
    requires told { Knows facts.now whole }
    requires within { number < length facts.now.index.paths }
    ensures { result ≡ kind_known whole (get_or facts.now.index.paths number []) }
{
    if is_named_at(facts, number) {
        kind_at(end(facts, number))
    } else {
        Named::Data
    }
}

// What stands where a name leads that denotes the path with this number.
fn named_by(facts: &Facts, target: Option<u32>) -> Named
    ghost whole: { Whole }
    requires { Knows facts.now whole }
    ensures { result ≡ choose (path_with facts.now.index.paths target) N.Data (kind_known whole) }
{
    match target {
        Some(number) => kind_there(facts, scope_in(&facts.index.paths, number as usize)),
        None => Named::Data,
    }
}

// What stands where names lead that denote the paths with these numbers.
fn named_each(
    alloc: Global,
    known: &Known<'_>,
    uses: &[Option<u32>],
) -> Result<Vec<Named>, AllocError>
    ghost whole: { Whole }
    requires { Knows known.now.facts whole }
    ensures { IfOk result (λ all. (node : ℕ) → get_or all.items node N.Data ≡ choose
        (path_with known.now.facts.index.paths (get_or uses.now node None)) N.Data (kind_known whole)) }
{
    let mut all = Vec::with_capacity(alloc, uses.len())?;
    for target in uses {
        all.push(named_by(&known.facts, *target))?;
    }
    Ok(all)
}

/// What stands where the name at each node leads, by the numbers of the nodes. A want of memory is also the answer where
/// there are more than 2^32 paths.
pub fn all_named(alloc: Global, known: &Known<'_>) -> Result<Vec<Named>, AllocError>
    requires terms { are_terms (trees_of known.now.terms.now) ≡ true }
    requires known { KnowsItsTerms known.now }
    ensures { IfOk result (λ all. (node : ℕ) → get_or all.items node N.Data ≡ named (trees_of known.now.terms.now) node) }
{
    let uses = uses_in(alloc, known)?;
    let all = named_each(alloc, known, &uses)?;
    Ok(all)
}
