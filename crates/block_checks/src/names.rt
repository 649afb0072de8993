//! The names of a block: what is told of them and by the checks that ask for them, and what is left for the spelling.
ghost use Rattle.std.specs.Prelude.{◌≡◌, [], true, false, IfOk};
ghost use Rattle.acpi_values.specs.Revisions.{width_of};
ghost use Rattle.asl_tree.specs.View.{trees_of};
ghost use Rattle.term_plans.specs.Plans.{Plans, plans_of};
ghost use Rattle.asl_numbers.specs.Numbers.{numbered_all};
ghost use Rattle.aml_code.specs.Header.{fields_of};
ghost use Rattle.acpi_names.specs.Terms.{are_terms};
ghost use Rattle.acpi_names.specs.Tables.{Tabled};
ghost use Rattle.name_kinds.specs.Known.{KnowsItsTerms};
ghost use Rattle.name_checks.specs.Messages.{told_errors};
ghost use Rattle.name_notes.specs.Notes.{name_notes};
ghost use Rattle.named_sessions.specs.Shaped.{AreFormed, AreNamed};
ghost use Rattle.region_checks.specs.Regions.{region_errors};
ghost use Rattle.type_checks.specs.Types.{wrong_types as types_wrong};
ghost use Rattle.descriptor_checks.specs.Resolved.{checked_terms, described_paths as paths_described, resolved_terms, table_of};
ghost use Rattle.descriptor_checks.specs.Resolves.{AreUses};
ghost use Rattle.descriptor_checks.specs.Told.{checked_trees};
ghost use Rattle.block_checks.specs.Findings.{AreNamesOf, IsNamed};
ghost use Rattle.block_checks.specs.Present.{IsPresenceOf};
ghost use Rattle.block_checks.specs.Told.{noted_of, told_of_names};

use acpi_names::index::Index;
use acpi_values::width::Width;
use asl_numbers::number::numbered;
use asl_tree::program::Block;
use asl_tree::term::{NamedDescriptor, Node};
use block_outcomes::messages::{first_told, refusal};
use descriptor_checks::check::{Resolved, Told, Uses, resolved_names, told_of};
use descriptor_checks::forget::{described_paths, forget_descriptors};
use descriptor_fields::strip::stripped;
use form_presence::present::{Presence, present_in};
use iasl_messages::message::Messages;
use name_checks::check::{Names, check_known};
use name_kinds::known::{Known, known_of};
use name_notes::check::{notes, notes_of};
use region_checks::check::region_faults;
use std::alloc::{AllocError, Global};
use std::mem::replace;
use type_checks::check::wrong_types;

/// The names of a block whose names are right, as their spelling asks for them.
#[derive(Drop)]
pub struct FoundNames {
    pub index: Index,
    /// By the number of a path, how many arguments its first call has.
    pub calls: Vec<Option<usize>>,
    /// By the number of a path, whether a descriptor has it, which is not named; nothing where no descriptor has a name.
    pub described: Vec<bool>,
}

/// What is found of a block's terms: their names, where nothing is wrong, or what is wrong.
#[derive(Drop)]
pub enum Findings {
    /// Nothing is wrong: the names.
    Right(FoundNames),
    /// What is wrong: at least one error.
    Wrong(Messages),
}

/// What the checks that ask for the names of a block tell: of the names, and where nothing is wrong with these, they
/// themselves; of the accesses of fields to their regions; of the kinds of arguments; and the notes.
#[derive(Drop)]
pub(crate) struct ToldByNames {
    pub(crate) names: Findings,
    pub(crate) regions: Messages,
    pub(crate) types: Messages,
    pub(crate) notes: Messages,
}

/// The terms of a block as they are compiled, whose nodes have their numbers, and what is told by their names.
#[derive(Drop)]
struct NumberedTerms {
    terms: Vec<Node>,
    told: ToldByNames,
    present: Presence,
}

/// A block of these terms.
#[derive(Drop)]
pub(crate) struct NamedBlock {
    pub(crate) block: Block,
    pub(crate) told: ToldByNames,
    /// Which forms stand in it.
    pub(crate) present: Presence,
}

// The names that are known, or what is wrong with them.
fn right_or_wrong(alloc: Global, known: Known<'_>) -> Result<Findings, AllocError>
    requires terms { are_terms (trees_of known.terms.now) ≡ true }
    requires known { KnowsItsTerms known }
    ensures { IfOk result (λ names. IsNamed names (told_errors (trees_of known.entry.terms.now)) (λ path. false)
        (trees_of known.entry.terms.now)) }
{
    match check_known(alloc, known) {
        Ok(names) => {
            let Names { index, calls } = names;
            Ok(Findings::Right(FoundNames {
                index,
                calls,
                described: Vec::new(alloc),
            }))
        }
        Err(stage) => Ok(Findings::Wrong(refusal(stage)?)),
    }
}

// What is wrong with the accesses of fields, which is asked where fields stand.
fn access_errors(
    alloc: Global,
    width: Width,
    known: &Known<'_>,
    present: Presence,
) -> Result<Messages, AllocError>
    requires terms { are_terms (trees_of known.now.terms.now) ≡ true }
    requires known { KnowsItsTerms known.now }
    requires present { IsPresenceOf (plans_of known.now.terms.now) present }
    requires numbered { trees_of known.now.terms.now ≡ numbered_all 0 (plans_of known.now.terms.now) }
    ensures { IfOk result (λ ms. ms ≡ region_errors width (trees_of known.now.terms.now) (plans_of known.now.terms.now)) }
{
    if present.fields {
        region_faults(alloc, width, known)
    } else {
        Ok(Messages::new(alloc))
    }
}

// What is told by the names of terms in which no descriptor has a name. What is known of the names is found once, lent to each
// check, and let go with the terms that it borrows.
fn ask(
    alloc: Global,
    width: Width,
    terms: &[Node],
    present: Presence,
) -> Result<ToldByNames, AllocError>
    requires terms { are_terms (trees_of terms.now) ≡ true }
    requires present { IsPresenceOf (plans_of terms.now) present }
    requires numbered { trees_of terms.now ≡ numbered_all 0 (plans_of terms.now) }
    ensures names { IfOk result (λ it. IsNamed it.names (told_errors (trees_of terms.now)) (λ path. false) (trees_of terms.now)) }
    ensures regions { IfOk result (λ it. it.regions ≡ region_errors width (trees_of terms.now) (plans_of terms.now)) }
    ensures types { IfOk result (λ it. it.types ≡ types_wrong (trees_of terms.now) (plans_of terms.now)) }
    ensures notes { IfOk result (λ it. it.notes ≡ name_notes (trees_of terms.now)) }
{
    let known = known_of(alloc, terms)?;
    let regions = access_errors(alloc, width, &known, present)?;
    let types = wrong_types(alloc, &known)?;
    let noted = notes(alloc, &known)?;
    let names = right_or_wrong(alloc, known)?;
    Ok(ToldByNames {
        names,
        regions,
        types,
        notes: noted,
    })
}

// The names that are known, without those of descriptors.
fn names_without(
    alloc: Global,
    known: Known<'_>,
    table: &[Option<NamedDescriptor>],
) -> Result<FoundNames, AllocError>
    ghost ps: { Plans }
    requires trees { trees_of known.terms.now ≡ checked_trees ps }
    requires known { KnowsItsTerms known }
    requires table { Tabled known.facts.index.paths table.now (table_of (checked_terms ps)) }
    requires formed { AreFormed (Unit {0}) AreNamed (Unit {0}) (Unit {0}) (numbered_all 0 ps) }
    requires right { told_of_names ps ≡ [] }
    ensures { IfOk result (λ names. AreNamesOf (paths_described ps) (numbered_all 0 (resolved_terms ps)) names) }
{
    let (mut index, calls) = known.into_names();
    let described = described_paths(alloc, table, index.named.len())?;
    forget_descriptors(&mut index, table);
    Ok(FoundNames {
        index,
        calls,
        described,
    })
}

// The same, or what is told of the names.
fn without_or_told(
    alloc: Global,
    known: Known<'_>,
    table: &[Option<NamedDescriptor>],
    told: Messages,
) -> Result<Findings, AllocError>
    ghost ps: { Plans }
    requires trees { trees_of known.terms.now ≡ checked_trees ps }
    requires known { KnowsItsTerms known }
    requires table { Tabled known.facts.index.paths table.now (table_of (checked_terms ps)) }
    requires formed { AreFormed (Unit {0}) AreNamed (Unit {0}) (Unit {0}) (numbered_all 0 ps) }
    requires told { told ≡ told_of_names ps }
    ensures { IfOk result (λ found. IsNamed found (told_of_names ps) (paths_described ps) (numbered_all 0 (resolved_terms ps))) }
{
    if told.is_empty() {
        let names = names_without(alloc, known, table)?;
        Ok(Findings::Right(names))
    } else {
        Ok(Findings::Wrong(told))
    }
}

// The same of terms among which some declare descriptors, whose fields are constants; the names are those of the terms without
// these.
fn ask_described(
    alloc: Global,
    width: Width,
    terms: &[Node],
    uses: Uses,
) -> Result<ToldByNames, AllocError>
    ghost ps: { Plans }
    requires plans { plans_of terms.now ≡ checked_terms ps }
    requires trees { trees_of terms.now ≡ checked_trees ps }
    requires formed { AreFormed (Unit {0}) AreNamed (Unit {0}) (Unit {0}) (numbered_all 0 ps) }
    requires uses { AreUses ps uses }
    ensures names { IfOk result (λ it. IsNamed it.names (told_of_names ps) (paths_described ps)
        (numbered_all 0 (resolved_terms ps))) }
    ensures regions { IfOk result (λ it. it.regions ≡ region_errors width (checked_trees ps) (checked_terms ps)) }
    ensures types { IfOk result (λ it. it.types ≡ types_wrong (checked_trees ps) (checked_terms ps)) }
    ensures notes { IfOk result (λ it. it.notes ≡ noted_of ps) }
{
    let known = known_of(alloc, terms)?;
    let Told {
        names,
        kinds,
        owners,
        table,
    } = told_of(alloc, &known, uses)?;
    let regions = region_faults(alloc, width, &known)?;
    let types = wrong_types(alloc, &known)?;
    let noted = notes_of(alloc, &known.facts.index, &known.mentions, &owners)?;
    let told = first_told(Messages::from_vec(names), Messages::from_vec(kinds));
    let found = without_or_told(alloc, known, &table, told)?;
    Ok(ToldByNames {
        names: found,
        regions,
        types,
        notes: noted,
    })
}

// The terms of a block as they are compiled, and what is told by their names.
fn named_terms(alloc: Global, width: Width, terms: Vec<Node>) -> Result<NumberedTerms, AllocError>
    ghost ps: { Plans }
    requires plans { plans_of terms.items ≡ ps }
    requires formed { AreFormed (Unit {0}) AreNamed (Unit {0}) (Unit {0}) (numbered_all 0 ps) }
    ensures plans { IfOk result (λ made. plans_of made.terms.items ≡ resolved_terms ps) }
    ensures trees { IfOk result (λ made. trees_of made.terms.items ≡ numbered_all 0 (resolved_terms ps)) }
    ensures names { IfOk result (λ made. IsNamed made.told.names (told_of_names ps) (paths_described ps)
        (numbered_all 0 (resolved_terms ps))) }
    ensures regions { IfOk result (λ made. made.told.regions ≡ region_errors width (checked_trees ps) (checked_terms ps)) }
    ensures types { IfOk result (λ made. made.told.types ≡ types_wrong (checked_trees ps) (checked_terms ps)) }
    ensures notes { IfOk result (λ made. made.told.notes ≡ noted_of ps) }
    ensures present { IfOk result (λ made. IsPresenceOf (plans_of made.terms.items) made.present) }
{
    let present = present_in(&terms);
    if !present.descriptors {
        let own = numbered(terms)?;
        let told = ask(alloc, width, &own, present)?;
        return Ok(NumberedTerms {
            terms: own,
            told,
            present,
        });
    }
    let Resolved { terms, uses } = resolved_names(alloc, terms)?;
    let told = ask_described(alloc, width, &terms, uses)?;
    let terms = numbered(stripped(alloc, terms)?)?;
    let present = present_in(&terms);
    Ok(NumberedTerms {
        terms,
        told,
        present,
    })
}

/// A block as it is compiled: the fields of its descriptors are constants, and its nodes have their numbers. With it stands what
/// the checks tell that ask for its names, those of its descriptors among these.
pub(crate) fn name_block(alloc: Global, block: Block) -> Result<NamedBlock, AllocError>
    requires { AreFormed (Unit {0}) AreNamed (Unit {0}) (Unit {0}) (numbered_all 0 (plans_of block.terms.items)) }
    ensures plans { IfOk result (λ made. plans_of made.block.terms.items ≡ resolved_terms (plans_of block.terms.items)) }
    ensures trees { IfOk result (λ made. trees_of made.block.terms.items ≡ numbered_all 0 (resolved_terms (plans_of block.terms.items))) }
    ensures names { IfOk result (λ made. IsNamed made.told.names (told_of_names (plans_of block.terms.items))
        (paths_described (plans_of block.terms.items)) (numbered_all 0 (resolved_terms (plans_of block.terms.items)))) }
    ensures regions { IfOk result (λ made. made.told.regions ≡ region_errors (width_of block.revision)
        (checked_trees (plans_of block.terms.items)) (checked_terms (plans_of block.terms.items))) }
    ensures types { IfOk result (λ made. made.told.types ≡ types_wrong (checked_trees (plans_of block.terms.items))
        (checked_terms (plans_of block.terms.items))) }
    ensures notes { IfOk result (λ made. made.told.notes ≡ noted_of (plans_of block.terms.items)) }
    ensures present { IfOk result (λ made. IsPresenceOf (plans_of made.block.terms.items) made.present) }
    ensures place { IfOk result (λ made. made.block.place ≡ block.place) }
    ensures file { IfOk result (λ made. made.block.file ≡ block.file) }
    ensures fields { IfOk result (λ made. fields_of made.block ≡ fields_of block) }
{
    let mut made = block;
    let terms = replace(&mut made.terms, Vec::new(alloc));
    let NumberedTerms {
        terms,
        told,
        present,
    } = named_terms(alloc, Width::of_revision(made.revision), terms)?;
    made.terms = terms;
    Ok(NamedBlock {
        block: made,
        told,
        present,
    })
}
