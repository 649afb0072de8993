//! The names of a block, checked.
ghost use Rattle.std.specs.Prelude.{◌≡◌, ◌<◌, ◌++◌, [], ◌∷◌, length, get_or, map, IfOk, OnOk, IfErr, true};
ghost use Rattle.acpi_state.specs.Objects.{lookup};
ghost use Rattle.asl_tree.specs.View.{trees_of};
ghost use Rattle.asl_meaning.specs.Declarations.{Declarations, is_named, declarations, nothing_declared};
ghost use Rattle.acpi_names.specs.Errors.{Whole, whole_of, name_errors, type_errors};
ghost use Rattle.acpi_names.specs.Mentions.{mention_errors as errors_of, all_errors as all_errors_of, mention_types as types_of};
ghost use Rattle.acpi_names.specs.Mentions.{all_types as all_types_of, after, after_all, block_mentions};
ghost use Rattle.acpi_names.specs.Parts.{Agrees};
ghost use Rattle.acpi_names.specs.Shown.{shown, all_shown};
ghost use Rattle.acpi_names.specs.Tables.{Tabled};
ghost use Rattle.acpi_names.specs.Terms.{are_terms};
ghost use Rattle.name_checks.specs.Before.{AreSized, Before};
ghost use Rattle.name_checks.specs.Faults.{Finds, fault_as};
ghost use Rattle.name_kinds.specs.Facts.{Knows};
ghost use Rattle.name_checks.specs.Messages.{message_of, told_errors};
ghost use Rattle.name_kinds.specs.Tables.{IsThere};
ghost use Rattle.name_checks.specs.Refusals.{Refuses};
ghost use Rattle.name_kinds.specs.Known.{KnowsItsTerms};
ghost use Rattle.name_kinds.specs.Seen.{seen};

use crate::fault::{Fault, messages};
use crate::rules::{
    asked_types, call_errors, call_types, declared_errors, external_errors, scope_errors,
    step_errors, use_errors,
};
use crate::so_far::{SoFar, blank, note_declared, note_outside};
use acpi_names::index::Index;
use acpi_names::mention::{Mention, WrittenName};
use asl_tree::term::Node;
use iasl_messages::message::{Messages, Stage};
use name_kinds::facts::Facts;
use name_kinds::kind::External;
use name_kinds::known::{Known, known_of};
use name_kinds::tables::{declared_at, declared_with, denoted};
use std::alloc::{AllocError, Global};

/// The names of a block whose names are right.
#[derive(Drop)]
pub struct Names {
    pub index: Index,
    /// By the number of a path, how many arguments its first call has.
    pub calls: Vec<Option<usize>>,
}

// The errors of one mention, and what it says of names.
fn mention_errors<'a>(
    out: &mut Vec<Fault<'a>>,
    facts: &Facts,
    so_far: &mut SoFar,
    mention: Mention<'a>,
) -> Result<(), AllocError>
    ghost whole: { Whole }
    requires told { Knows facts.now whole }
    requires there { IsThere whole (shown facts.now.index.paths mention) }
    requires sized { AreSized facts.now.index.paths so_far.old }
    ensures sized { OnOk result (AreSized facts.now.index.paths so_far.new) }
    ensures found { OnOk result ((d : Declarations) → Before facts.now.index.paths so_far.old d →
        Finds facts.now.index.paths out.old.items out.new.items (errors_of whole (shown facts.now.index.paths mention.entry) d)) }
    ensures noted { OnOk result ((d : Declarations) → Before facts.now.index.paths so_far.old d →
        Before facts.now.index.paths so_far.new (after (shown facts.now.index.paths mention.entry) d)) }
{
    match mention {
        Mention::Used {
            at,
            name,
            scope,
            ..
        } => {
            let target = denoted(&facts.index, name, scope);
            use_errors(out, facts, at, name, scope, target)?;
            Ok(())
        }
        Mention::Sought { at, name, scope } => {
            step_errors(out, facts, at, WrittenName::Path(name), scope)?;
            Ok(())
        }
        Mention::Called {
            at,
            name,
            args,
            scope,
            ..
        } => {
            let target = denoted(&facts.index, name, scope);
            use_errors(out, facts, at, name, scope, target)?;
            call_errors(out, facts, at, name, args, scope, target)?;
            Ok(())
        }
        Mention::Declares {
            at,
            name,
            scope,
            path,
            ..
        } => {
            let path = declared_with(&facts.index, name, scope, path);
            declared_errors(out, facts, so_far, at, name, scope, path)?;
            note_declared(&facts.index.paths, so_far, path);
            Ok(())
        }
        Mention::Outside {
            here,
            at,
            name,
            object,
            parameters,
            scope,
        } => {
            let external = External { object, parameters };
            let path = declared_at(&facts.index, WrittenName::Path(name), scope);
            external_errors(out, facts, so_far, here, at, name, external, scope, path)?;
            note_outside(&facts.index.paths, so_far, path, external);
            Ok(())
        }
        Mention::Opens {
            here,
            at,
            name,
            scope,
            inner,
        } => {
            let target = denoted(&facts.index, name, scope);
            use_errors(out, facts, at, name, scope, target)?;
            scope_errors(out, facts, here, at, name, scope, inner, target)?;
            Ok(())
        }
    }
}

// The errors of all mentions, in order.
fn all_errors<'a>(
    alloc: Global,
    out: &mut Vec<Fault<'a>>,
    facts: &Facts,
    mentions: &[Mention<'a>],
) -> Result<(), AllocError>
    ghost whole: { Whole }
    requires told { Knows facts.now whole }
    requires all { after_all (all_shown facts.now.index.paths mentions.now) nothing_declared ≡ whole.all }
    ensures { OnOk result
        (Finds facts.now.index.paths out.old.items out.new.items
        (all_errors_of whole (all_shown facts.now.index.paths mentions.now) nothing_declared)) }
{
    let mut so_far = blank(alloc, &facts.index.paths)?;
    for mention in mentions {
        mention_errors(out, facts, &mut so_far, *mention)?;
    }
    Ok(())
}

// The errors of the kind of one mention.
fn mention_types<'a>(
    out: &mut Vec<Fault<'a>>,
    facts: &Facts,
    mention: Mention<'a>,
) -> Result<(), AllocError>
    ghost whole: { Whole }
    requires { Knows facts.now whole }
    ensures { OnOk result
        (Finds facts.now.index.paths out.old.items out.new.items (types_of whole (shown facts.now.index.paths mention.entry))) }
{
    match mention {
        Mention::Used {
            asked,
            at,
            name,
            scope,
        } => {
            let target = denoted(&facts.index, name, scope);
            asked_types(out, facts, asked, at, name, scope, target)?;
            Ok(())
        }
        Mention::Called {
            asked: true,
            at,
            name,
            args,
            scope,
        } => {
            let target = denoted(&facts.index, name, scope);
            call_types(out, facts, at, name, args, scope, target)?;
            Ok(())
        }
        _ => Ok(()),
    }
}

// The errors of the kinds of all mentions, in order.
fn all_types<'a>(
    out: &mut Vec<Fault<'a>>,
    facts: &Facts,
    mentions: &[Mention<'a>],
) -> Result<(), AllocError>
    ghost whole: { Whole }
    requires { Knows facts.now whole }
    ensures { OnOk result
        (Finds facts.now.index.paths out.old.items out.new.items (all_types_of whole (all_shown facts.now.index.paths mentions.now))) }
{
    for mention in mentions {
        mention_types(out, facts, *mention)?;
    }
    Ok(())
}

/// What is wrong with the names that a block mentions: the errors 6040 to 6046, in their order. All that the block
/// declares is among these mentions; of its other mentions some may be left out. The only error is want of memory.
pub fn name_faults(
    alloc: Global,
    facts: &Facts,
    mentions: &[Mention<'_>],
) -> Result<Messages, AllocError>
    ghost whole: { Whole }
    requires told { Knows facts.now whole }
    requires all { after_all (all_shown facts.now.index.paths mentions.now) nothing_declared ≡ whole.all }
    ensures { IfOk result
        (λ ms. ms ≡ map message_of (all_errors_of whole (all_shown facts.now.index.paths mentions.now) nothing_declared)) }
{
    let mut out = Vec::new(alloc);
    all_errors(alloc, &mut out, facts, mentions)?;
    let errors = messages(alloc, &facts.index.paths, &out)?;
    Ok(Messages::from_vec(errors))
}

/// What is wrong with the kinds of what a block mentions, and with how many arguments its calls have: the errors 6051 and
/// 6054, in their order. Some of its mentions may be left out. The only error is want of memory.
pub fn kind_faults(
    alloc: Global,
    facts: &Facts,
    mentions: &[Mention<'_>],
) -> Result<Messages, AllocError>
    ghost whole: { Whole }
    requires { Knows facts.now whole }
    ensures { IfOk result (λ ms. ms ≡ map message_of (all_types_of whole (all_shown facts.now.index.paths mentions.now))) }
{
    let mut out = Vec::new(alloc);
    all_types(&mut out, facts, mentions)?;
    let errors = messages(alloc, &facts.index.paths, &out)?;
    Ok(Messages::from_vec(errors))
}

/// What is wrong with the names of a block of which this is known: the errors 6040 to 6046, in the order of the terms. The
/// only error is want of memory.
pub fn name_errors_in(alloc: Global, known: &Known<'_>) -> Result<Messages, AllocError>
    requires { KnowsItsTerms known.now }
    ensures { IfOk result
        (λ ms. are_terms (trees_of known.now.terms.now) ≡ true → ms ≡ map message_of (name_errors (trees_of known.now.terms.now))) }
{
    let errors = name_faults(alloc, &known.facts, &known.mentions)?;
    Ok(errors)
}

/// What is wrong with the kinds of what a block of which this is known uses, and with how many arguments its calls have,
/// where nothing is wrong with its names: the errors 6051 and 6054, in the order of the terms. The only error is want
/// of memory.
pub fn kind_errors(alloc: Global, known: &Known<'_>) -> Result<Messages, AllocError>
    requires { KnowsItsTerms known.now }
    ensures { IfOk result
        (λ ms. are_terms (trees_of known.now.terms.now) ≡ true → name_errors (trees_of known.now.terms.now) ≡ [] →
        ms ≡ map message_of (type_errors (trees_of known.now.terms.now))) }
{
    let errors = kind_faults(alloc, &known.facts, &known.mentions)?;
    Ok(errors)
}

// The names that are known.
fn names_in(known: Known<'_>) -> Names
    requires { KnowsItsTerms known }
    ensures size { length result.index.named.items ≡ length result.index.paths }
    ensures some { 0 < length result.index.paths }
    ensures root { get_or result.index.paths 0 [] ≡ [] }
    ensures names { Agrees result.index.paths result.index.named.items (declarations (trees_of known.entry.terms.now)) }
    ensures sized { length result.calls.items ≡ length result.index.paths }
    ensures calls { Tabled result.index.paths result.calls.items
        (lookup (seen (block_mentions (trees_of known.entry.terms.now) [] nothing_declared)).calls) }
{
    let count = known.facts.index.paths.len();
    let (index, calls) = known.into_names();
    Names { index, calls }
}

/// The names of a block of which this is known, where nothing is wrong with them (ACPI Specification 6.4, 5.3 and 19.6).
/// Otherwise it is refused with exactly the errors of names, 6040 to 6046, in the order of the terms. Kinds are not looked
/// at. A want of memory is `Stage::Memory`. The terms are borrowed no more.
pub fn index(alloc: Global, known: Known<'_>) -> Result<Names, Stage>
    requires terms { are_terms (trees_of known.terms.now) ≡ true }
    requires known { KnowsItsTerms known }
    ensures size { IfOk result (λ n. length n.index.named.items ≡ length n.index.paths) }
    ensures some { IfOk result (λ n. 0 < length n.index.paths) }
    ensures root { IfOk result (λ n. get_or n.index.paths 0 [] ≡ []) }
    ensures names { IfOk result (λ n. Agrees n.index.paths n.index.named.items (declarations (trees_of known.entry.terms.now))) }
    ensures sized { IfOk result (λ n. length n.calls.items ≡ length n.index.paths) }
    ensures calls { IfOk result (λ n. Tabled n.index.paths n.calls.items (lookup (whole_of (trees_of known.entry.terms.now)).calls)) }
    ensures right { OnOk result (name_errors (trees_of known.entry.terms.now) ≡ []) }
    ensures refused { IfErr result (λ stage. Refuses stage (map message_of (name_errors (trees_of known.entry.terms.now)))) }
{
    match name_errors_in(alloc, &known) {
        Ok(errors) => {
            if errors.is_empty() {
                Ok(names_in(known))
            } else {
                Err(Stage::Refused(errors))
            }
        }
        Err(_) => Err(Stage::Memory),
    }
}

/// The names of a block of which this is known, where all are right (ACPI Specification 6.4, 5.3 and 19.6). Otherwise it
/// is refused with the errors of names, 6040 to 6046, in the order of the terms, or where there are none with those of
/// kinds, 6051 and 6054. A want of memory is `Stage::Memory`. The terms are borrowed no more.
pub fn check_known(alloc: Global, known: Known<'_>) -> Result<Names, Stage>
    requires terms { are_terms (trees_of known.terms.now) ≡ true }
    requires known { KnowsItsTerms known }
    ensures size { IfOk result (λ n. length n.index.named.items ≡ length n.index.paths) }
    ensures some { IfOk result (λ n. 0 < length n.index.paths) }
    ensures root { IfOk result (λ n. get_or n.index.paths 0 [] ≡ []) }
    ensures names { IfOk result (λ n. Agrees n.index.paths n.index.named.items (declarations (trees_of known.entry.terms.now))) }
    ensures sized { IfOk result (λ n. length n.calls.items ≡ length n.index.paths) }
    ensures calls { IfOk result (λ n. Tabled n.index.paths n.calls.items (lookup (whole_of (trees_of known.entry.terms.now)).calls)) }
    ensures right { OnOk result
        ((name_errors (trees_of known.entry.terms.now) ≡ []) × (type_errors (trees_of known.entry.terms.now) ≡ [])) }
    ensures refused { IfErr result (λ stage. Refuses stage (told_errors (trees_of known.entry.terms.now))) }
{
    match kind_errors(alloc, &known) {
        Ok(kinds) => match index(alloc, known) {
            Ok(names) => {
                if kinds.is_empty() {
                    Ok(names)
                } else {
                    Err(Stage::Refused(kinds))
                }
            }
            Err(stage) => Err(stage),
        },
        Err(_) => Err(Stage::Memory),
    }
}

/// The same of terms, whose names are found first.
pub fn check(alloc: Global, terms: &[Node]) -> Result<Names, Stage>
    requires terms { are_terms (trees_of terms.now) ≡ true }
    ensures size { IfOk result (λ n. length n.index.named.items ≡ length n.index.paths) }
    ensures some { IfOk result (λ n. 0 < length n.index.paths) }
    ensures root { IfOk result (λ n. get_or n.index.paths 0 [] ≡ []) }
    ensures names { IfOk result (λ n. Agrees n.index.paths n.index.named.items (declarations (trees_of terms.now))) }
    ensures sized { IfOk result (λ n. length n.calls.items ≡ length n.index.paths) }
    ensures calls { IfOk result (λ n. Tabled n.index.paths n.calls.items (lookup (whole_of (trees_of terms.now)).calls)) }
    ensures right { OnOk result ((name_errors (trees_of terms.now) ≡ []) × (type_errors (trees_of terms.now) ≡ [])) }
    ensures refused { IfErr result (λ stage. Refuses stage (told_errors (trees_of terms.now))) }
{
    match known_of(alloc, terms) {
        Ok(known) => check_known(alloc, known),
        Err(_) => Err(Stage::Memory),
    }
}
