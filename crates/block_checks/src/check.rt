//! The checks of a block that come before it is lowered, each with its one rule, together.
ghost use Rattle.std.specs.Prelude.{◌≡◌, Bool, List, IfOk};
ghost use Rattle.acpi_values.specs.Paths.{AbsolutePath};
ghost use Rattle.acpi_values.specs.Revisions.{width_of};
ghost use Rattle.asl_tree.specs.Tree.{Trees};
ghost use Rattle.asl_tree.specs.View.{trees_of};
ghost use Rattle.term_plans.specs.Plans.{plans_of};
ghost use Rattle.asl_numbers.specs.Numbers.{numbered_all};
ghost use Rattle.aml_code.specs.Header.{fields_of};
ghost use Rattle.iasl_messages.specs.declared.message.Message.{Message};
ghost use Rattle.named_sessions.specs.Shaped.{AreFormed, AreNamed};
ghost use Rattle.descriptor_checks.specs.Resolved.{described_paths, resolved_terms};
ghost use Rattle.field_checks.specs.Lists.{all_errors};
ghost use Rattle.type_checks.specs.Sizes as sizes;
ghost use Rattle.switch_checks.specs.Repeats as repeats;
ghost use Rattle.block_checks.specs.Findings.{IsNamed};
ghost use Rattle.block_checks.specs.Present.{IsPresenceOf};
ghost use Rattle.block_checks.specs.Told.{errors_beside_names, noted_of, others_of, told_of_names};
ghost use Rattle.block_checks.specs.Told.{is_of_kinds as of_kinds, with_others as behind};

use crate::names::{Findings, NamedBlock, ToldByNames, name_block};
use acpi_values::width::Width;
use asl_tree::program::Block;
use asl_tree::term::Node;
use block_outcomes::messages::both;
use field_checks::check::list_faults;
use form_presence::present::Presence;
use iasl_messages::message::Messages;
use iasl_messages::number::{
    FIELD_NOT_WHOLE_BYTES, WRONG_CALL_ARGUMENT_COUNT, WRONG_OBJECT_KIND, WRONG_TYPE,
};
use statement_checks::check::statement_errors;
use std::alloc::{AllocError, Global};
use switch_checks::repeat::repeated_values;
use type_checks::size::long_lists;

/// A block as it is compiled, and what is told of it before it is lowered.
#[derive(Drop)]
pub struct CheckedBlock {
    /// The block: the fields of its descriptors are constants, and its nodes have their numbers, in preorder.
    pub block: Block,
    /// Its names where nothing is wrong with them; or else the errors of the class of names, or where this has none those of
    /// what names stand for.
    pub names: Findings,
    /// All other errors, which are of the class of kinds.
    pub errors: Messages,
    /// The notes on its names.
    pub notes: Messages,
    /// Which forms stand in it, and how many nodes it has.
    pub present: Presence,
}

// The errors of the lists of fields, which are looked for where fields stand.
#[tactic(auto, using(field_checks::proofs::Absent::none_told))]
fn field_errors(alloc: Global, terms: &[Node], present: Presence) -> Result<Messages, AllocError>
    requires { IsPresenceOf (plans_of terms.now) present }
    ensures { IfOk result (λ ms. ms ≡ all_errors (plans_of terms.now)) }
{
    if present.fields {
        list_faults(alloc, terms)
    } else {
        Ok(Messages::new(alloc))
    }
}

// The lists that are longer than their sizes, which are looked for where Buffers and Packages stand.
#[tactic(auto, using(type_checks::proofs::Absent::none_long))]
fn length_errors(
    alloc: Global,
    width: Width,
    terms: &[Node],
    present: Presence,
) -> Result<Messages, AllocError>
    requires { IsPresenceOf (plans_of terms.now) present }
    ensures { IfOk result (λ ms. ms ≡ sizes.long_lists width (plans_of terms.now)) }
{
    if present.lists {
        long_lists(alloc, width, terms)
    } else {
        Ok(Messages::new(alloc))
    }
}

// The values that occur twice in a Switch, which are looked for where Switches stand.
#[tactic(auto, using(switch_checks::proofs::Absent::none_repeated))]
fn value_errors(
    alloc: Global,
    width: Width,
    terms: &[Node],
    present: Presence,
) -> Result<Messages, AllocError>
    requires { IsPresenceOf (plans_of terms.now) present }
    ensures { IfOk result (λ ms. ms ≡ repeats.repeated_values width (plans_of terms.now)) }
{
    if present.switches {
        repeated_values(alloc, width, terms)
    } else {
        Ok(Messages::new(alloc))
    }
}

// What is wrong with statements, then with the lists of fields and their accesses, and then with the kinds of
// arguments, the lengths of lists and the values of Cases.
fn other_errors(
    alloc: Global,
    width: Width,
    terms: &[Node],
    present: Presence,
    regions: Messages,
    types: Messages,
) -> Result<Messages, AllocError>
    requires { IsPresenceOf (plans_of terms.now) present }
    ensures { IfOk result (λ ms. ms ≡ others_of width (plans_of terms.now) regions types) }
{
    let errors = both(
        statement_errors(alloc, terms)?,
        field_errors(alloc, terms, present)?,
    )?;
    let errors = both(errors, regions)?;
    let errors = both(errors, types)?;
    let errors = both(errors, length_errors(alloc, width, terms, present)?)?;
    both(errors, value_errors(alloc, width, terms, present)?)
}

/// A block as it is compiled, with all that is wrong with it before it is lowered, and the notes on its names (ACPI Specification
/// 6.4, 5.3, 5.6.8, 19.2 and 19.6). Of its names 6040 to 6046 are told, or where these are none 6050, 6051, 6054 and 6056 at
/// their uses; beside these 6052 and 6055 of statements, 6070, 6071 and 6074 of lists of fields, 6072 to 6075 of their accesses,
/// 6050 of arguments, 6057 of lists that are longer than their sizes, and 6053 of values of Cases, in this order, and each in the
/// order of the source; the notes are 3001 and 3003. The only error is want of memory, as which 2^32 nodes are answered, more than
/// 2^32 paths, a template of 2^61 bytes, and a list that reaches behind 2^62 bits.
pub fn check(alloc: Global, block: Block) -> Result<CheckedBlock, AllocError>
    requires { AreFormed (Unit {0}) AreNamed (Unit {0}) (Unit {0}) (numbered_all 0 (plans_of block.terms.items)) }
    ensures plans { IfOk result (λ made. plans_of made.block.terms.items ≡ resolved_terms (plans_of block.terms.items)) }
    ensures trees { IfOk result (λ made. trees_of made.block.terms.items ≡ numbered_all 0 (resolved_terms (plans_of block.terms.items))) }
    ensures names { IfOk result (λ made. IsNamed made.names (told_of_names (plans_of block.terms.items))
        (described_paths (plans_of block.terms.items)) (numbered_all 0 (resolved_terms (plans_of block.terms.items)))) }
    ensures errors { IfOk result (λ made. made.errors ≡ errors_beside_names (width_of block.revision) (plans_of block.terms.items)) }
    ensures notes { IfOk result (λ made. made.notes ≡ noted_of (plans_of block.terms.items)) }
    ensures present { IfOk result (λ made. IsPresenceOf (plans_of made.block.terms.items) made.present) }
    ensures place { IfOk result (λ made. made.block.place ≡ block.place) }
    ensures file { IfOk result (λ made. made.block.file ≡ block.file) }
    ensures fields { IfOk result (λ made. fields_of made.block ≡ fields_of block) }
{
    let NamedBlock {
        block,
        told,
        present,
    } = name_block(alloc, block)?;
    let ToldByNames {
        names,
        regions,
        types,
        notes,
    } = told;
    let width = Width::of_revision(block.revision);
    let terms = block.terms.as_slice();
    let errors = other_errors(alloc, width, terms, present, regions, types)?;
    Ok(CheckedBlock {
        block,
        names,
        errors,
        notes,
        present,
    })
}

// Whether an error of names is of the class of kinds.
fn is_of_kinds(number: u16) -> bool
    ensures { result ≡ of_kinds number }
{
    number == WRONG_CALL_ARGUMENT_COUNT
        || number == WRONG_OBJECT_KIND
        || number == WRONG_TYPE
        || number == FIELD_NOT_WHOLE_BYTES
}

// The errors of statements, of the lists of fields and of their accesses behind those of kinds.
fn with_others(errors: Messages, others: Messages) -> Result<Messages, AllocError>
    ensures { IfOk result (λ all. all ≡ behind errors others) }
{
    let number = match errors.get(0) {
        Some(first) => first.number,
        None => return Ok(others),
    };
    if is_of_kinds(number) {
        both(errors, others)
    } else {
        Ok(errors)
    }
}

/// What a block is refused with, of which `check` gave these: the first class that has errors, whole. That is the class of names,
/// alone, or that of kinds, in which the other errors stand behind those of names. Where there are none, the names.
pub fn first_class(names: Findings, errors: Messages) -> Result<Findings, AllocError>
    ensures { (told : List Message) (also : AbsolutePath → Bool) (terms : Trees) → IsNamed names told also terms →
        IfOk result (λ found. IsNamed found (behind told errors) also terms) }
{
    match names {
        Findings::Right(names) if errors.is_empty() => Ok(Findings::Right(names)),
        Findings::Right(_) => Ok(Findings::Wrong(errors)),
        Findings::Wrong(told) => Ok(Findings::Wrong(with_others(told, errors)?)),
    }
}
