//! The names of a block's descriptors, resolved, and what is told of the names of the block.
ghost use Rattle.std.specs.Prelude.{◌≡◌, true, IfOk};
ghost use Rattle.asl_tree.specs.View.{trees_of};
ghost use Rattle.asl_numbers.specs.Numbers.{numbered_all};
ghost use Rattle.term_plans.specs.Plans.{Plans, plans_of};
ghost use Rattle.acpi_names.specs.Tables.{Tabled};
ghost use Rattle.acpi_names.specs.Terms.{are_terms};
ghost use Rattle.name_kinds.specs.Known.{KnowsItsTerms};
ghost use Rattle.descriptor_fields.specs.Declaring.{declaring as declares};
ghost use Rattle.descriptor_checks.specs.Fields.{AreFields, numbers_in};
ghost use Rattle.descriptor_checks.specs.Resolved as spec;
ghost use Rattle.descriptor_checks.specs.Resolves.{AreUses, Resolves};
ghost use Rattle.descriptor_checks.specs.Told as errors;

use crate::described::described;
use crate::fields::{Fields, fields_of};
use crate::told::{Sorted, below_errors, numbers_of, sorted_mentions};
use acpi_names::index::{BlockNames, Index, names_of};
use asl_numbers::number::numbered;
use asl_tree::term::{NamedDescriptor, Node};
use descriptor_fields::declare::declaring;
use descriptor_fields::resolve::resolve;
use iasl_messages::message::Message;
use name_checks::check::{kind_faults, name_faults};
use name_kinds::known::Known;
use std::alloc::{AllocError, Global};

/// What is told of the fields of descriptors that a block uses: in the class of names, and of those in bytes that begin in
/// the midst of one; and the numbers, in an index of their own, of the paths of their descriptors, one for each use.
#[derive(Drop)]
pub struct Uses {
    pub index: Index,
    pub owners: Vec<usize>,
    pub wrong: Vec<Message>,
    pub broken: Vec<Message>,
}

/// The terms of a block, with those that declare its descriptors among them and expressions that are fields as constants;
/// and what is known of the fields.
pub struct Resolved {
    pub terms: Vec<Node>,
    pub uses: Uses,
}

/// What is told of the names of a block: in the class of names, and in that of kinds and counts; the numbers of the paths of
/// descriptors whose fields are used; and its descriptors by the numbers of their paths.
#[derive(Drop)]
pub struct Told {
    pub names: Vec<Message>,
    pub kinds: Vec<Message>,
    pub owners: Vec<usize>,
    pub table: Vec<Option<NamedDescriptor>>,
}

// The fields that terms use, and the index of their names.
fn fields_in(alloc: Global, terms: &[Node]) -> Result<(Index, Fields), AllocError>
    requires numbers { trees_of terms.now ≡ numbered_all 0 (plans_of terms.now) }
    ensures { IfOk result (λ r. let ps = plans_of terms.now in
        AreFields r.0.paths (spec.names_of ps) (spec.table_of ps) r.1 (spec.mentions_of ps)) }
{
    let BlockNames { index, mentions } = names_of(alloc, terms)?;
    let table = described(alloc, &index, &mentions, terms)?;
    let fields = fields_of(alloc, &index, &table, &mentions)?;
    Ok((index, fields))
}

/// Resolves the names of descriptors in the terms of a block (ACPI Specification 6.4, 19.2.8). The only error is want of
/// memory, as which 2^32 nodes and a template of 2^61 bytes are answered. What `stripped` makes of the terms is to be
/// compiled.
pub fn resolved_names(alloc: Global, terms: Vec<Node>) -> Result<Resolved, AllocError>
    ensures { IfOk result (Resolves (plans_of terms.items)) }
{
    let declared = declaring(alloc, terms)?;
    let all = numbered(declared)?;
    let (index, fields) = fields_in(alloc, &all)?;
    let Fields {
        places,
        wrong,
        owners,
    } = fields;
    let mut broken = Vec::new(alloc);
    let resolved = resolve(alloc, &places, &mut broken, all)?;
    let terms = numbered(resolved)?;
    Ok(Resolved {
        terms,
        uses: Uses {
            index,
            owners,
            wrong,
            broken,
        },
    })
}

/// What is told of the names of a block whose terms are resolved, where what is known of these is lent: in the class of
/// names 6040 to 6046, in that of kinds and counts 6050, 6051, 6054 and 6056. The only error is want of memory.
pub fn told_of(alloc: Global, known: &Known<'_>, uses: Uses) -> Result<Told, AllocError>
    ghost ps: { Plans }
    requires plans { plans_of known.now.terms.now ≡ spec.checked_terms ps }
    requires trees { trees_of known.now.terms.now ≡ errors.checked_trees ps }
    requires formed { are_terms (errors.checked_trees ps) ≡ true }
    requires known { KnowsItsTerms known.now }
    requires uses { AreUses ps uses }
    ensures names { IfOk result (λ told. told.names.items ≡ errors.names_told ps) }
    ensures kinds { IfOk result (λ told. told.kinds.items ≡ errors.kinds_told ps) }
    ensures owners { IfOk result (λ told. told.owners.items ≡ numbers_in known.now.facts.index.paths (errors.owners_of (declares ps))) }
    ensures table { IfOk result (λ told. Tabled known.now.facts.index.paths told.table.items (spec.table_of (spec.checked_terms ps))) }
{
    let Uses {
        index,
        owners,
        mut wrong,
        mut broken,
    } = uses;
    let found = &known.facts.index;
    let table = described(alloc, found, &known.mentions, known.terms)?;
    let Sorted {
        names,
        kinds,
        mut faults,
    } = sorted_mentions(alloc, found, &table, &known.mentions)?;
    let mut below = below_errors(alloc, found, &table, &known.mentions)?;
    let misnamed = name_faults(alloc, &known.facts, &names)?;
    let mut of_names = misnamed.into_vec();
    of_names.append(&mut below)?;
    of_names.append(&mut wrong)?;
    let mistyped = kind_faults(alloc, &known.facts, &kinds)?;
    let mut of_kinds = mistyped.into_vec();
    of_kinds.append(&mut faults)?;
    of_kinds.append(&mut broken)?;
    let owners = numbers_of(alloc, &index.paths, &found.paths, &owners)?;
    Ok(Told {
        names: of_names,
        kinds: of_kinds,
        owners,
        table,
    })
}
