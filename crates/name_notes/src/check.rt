//! The notes on the names of a block.
ghost use Rattle.std.specs.Prelude.{◌≡◌, ◌<◌, ◌++◌, ◌&&◌, not, Bool, true, [], length, get_or, map, IfOk, OnOk};
ghost use Rattle.acpi_values.specs.Paths.{AbsolutePath};
ghost use Rattle.asl_tree.specs.Tree.{At};
ghost use Rattle.asl_tree.specs.View.{trees_of};
ghost use Rattle.asl_tree.specs.declared.path.Path.{Path};
ghost use Rattle.asl_meaning.specs.Declarations.{is_named, nothing_declared};
ghost use Rattle.acpi_names.specs.Errors.{Whole};
ghost use Rattle.acpi_names.specs.Mentions.{Declares, after_all};
ghost use Rattle.acpi_names.specs.Parts.{Agrees};
ghost use Rattle.acpi_names.specs.Shown.{declared_as, shown, all_shown};
ghost use Rattle.name_kinds.specs.Known.{KnowsItsTerms};
ghost use Rattle.name_kinds.specs.Tables.{IsThere};
ghost use Rattle.name_notes.specs.Marks.{AreSized, Marked};
ghost use Rattle.name_notes.specs.Notes.{told_if, reserved_arguments, is_other, mention_notes, mentioned_notes, name_notes};

use crate::marks::{Marks, is_marked, mark_each, marks_of, method_arguments};
use crate::reserved::arguments_of;
use acpi_names::index::Index;
use acpi_names::lookup::scope_in;
use acpi_names::mention::{Declared, Mention};
use acpi_names::paths::Paths;
use iasl_messages::message::{Message, Messages};
use iasl_messages::number::{NAME_IS_UNUSED, RESERVED_NAME_ARGUMENTS};
use iasl_messages::place::Place;
use name_checks::fault::text_of_path;
use name_kinds::known::Known;
use name_kinds::tables::declared_with;
use std::alloc::{AllocError, Global};

// How many arguments a method at the path with a number has to take, by the last segment of the path.
fn arguments_due(paths: &Paths, number: usize) -> Option<u64>
    requires { number < length paths.now }
    ensures { result ≡ reserved_arguments (get_or paths.now number []) }
{
    match paths.step(number) {
        Some(below) => {
            let segment = below.1;
            arguments_of(segment)
        }
        None => None,
    }
}

// Whether a method takes another number of arguments than it has to.
fn takes_others(due: Option<u64>, taken: Option<u64>) -> bool
    ensures { result ≡ is_other due taken }
{
    match (due, taken) {
        (Some(due), Some(taken)) => due != taken,
        _ => false,
    }
}

// A note on the path with a number, if it is to be told.
fn tell(
    alloc: Global,
    out: &mut Messages,
    paths: &Paths,
    told: bool,
    message: u16,
    place: Place,
    number: usize,
) -> Result<(), AllocError>
    ensures { OnOk result (out.new ≡ out.old ++ told_if told message place (get_or paths.now number [])) }
{
    if told {
        out.push(Message {
            number: message,
            place,
            name: text_of_path(alloc, paths, number)?,
        })?;
    }
    Ok(())
}

// Whether a scope is a method's.
fn is_of_method(index: &Index, marks: &Marks, scope: usize) -> bool
    requires { AreSized index.now.paths marks.now }
    ensures { (is_method : AbsolutePath → Bool) → Marked index.now.paths marks.now.methods.items is_method →
        result ≡ is_method (get_or index.now.paths scope []) }
{
    let paths = &index.paths;
    is_marked(paths, &marks.methods, scope_in(paths, scope))
}

// Whether nothing is told of what is declared in a scope: it is no method, and the scope is no method's.
#[tactic(auto, using(crate::proofs::Telling::nothing_told))]
fn is_passed(index: &Index, marks: &Marks, what: Declared, scope: usize) -> bool
    requires { AreSized index.now.paths marks.now }
    ensures { result ≡ true → (is_method is_used : AbsolutePath → Bool) → Marked index.now.paths marks.now.methods.items is_method →
        (at : At) (name : Path) → mention_notes is_method is_used
        (Declares at name (declared_as index.now.paths what.entry) (get_or index.now.paths scope [])) ≡ [] }
{
    match method_arguments(what) {
        Some(_) => false,
        None => !is_of_method(index, marks, scope),
    }
}

// Whether a name that is declared in a scope is a method's own, and not used.
fn is_unused(index: &Index, marks: &Marks, number: usize, scope: usize) -> bool
    requires within { number < length index.now.paths }
    requires sized { AreSized index.now.paths marks.now }
    ensures { (is_method is_used : AbsolutePath → Bool) → Marked index.now.paths marks.now.methods.items is_method →
        Marked index.now.paths marks.now.used.items is_used →
        result ≡ (is_method (get_or index.now.paths scope []) && not (is_used (get_or index.now.paths number []))) }
{
    let paths = &index.paths;
    is_of_method(index, marks, scope) && !is_marked(paths, &marks.used, number)
}

// The notes on one mention.
fn note(
    alloc: Global,
    out: &mut Messages,
    index: &Index,
    marks: &Marks,
    mention: &Mention,
) -> Result<(), AllocError>
    ghost whole: { Whole }
    requires agrees { Agrees index.now.paths index.now.named.items whole.all }
    requires there { IsThere whole (shown index.now.paths mention.now) }
    requires sized { AreSized index.now.paths marks.now }
    ensures { OnOk result ((is_method is_used : AbsolutePath → Bool) → Marked index.now.paths marks.now.methods.items is_method →
        Marked index.now.paths marks.now.used.items is_used → out.new ≡ out.old ++ mention_notes is_method is_used
        (shown index.now.paths mention.now)) }
{
    match mention {
        Mention::Declares {
            at,
            name,
            what,
            scope,
            path,
        } => {
            if is_passed(index, marks, *what, *scope) {
                return Ok(());
            }
            let paths = &index.paths;
            let number = declared_with(index, *name, *scope, *path);
            let others = takes_others(arguments_due(paths, number), method_arguments(*what));
            tell(
                alloc,
                out,
                paths,
                others,
                RESERVED_NAME_ARGUMENTS,
                at.place,
                number,
            )?;
            let unused = is_unused(index, marks, number, *scope);
            tell(alloc, out, paths, unused, NAME_IS_UNUSED, at.place, number)?;
            Ok(())
        }
        Mention::Used { .. } => Ok(()),
        Mention::Sought { .. } => Ok(()),
        Mention::Called { .. } => Ok(()),
        Mention::Outside { .. } => Ok(()),
        Mention::Opens { .. } => Ok(()),
    }
}

/// The notes on the names that a block mentions, by its index and its mentions, as `acpi_names::index::names_of` gives
/// them. The paths with the numbers `also` count as used.
pub fn notes_of(
    alloc: Global,
    index: &Index,
    mentions: &[Mention],
    also: &[usize],
) -> Result<Messages, AllocError>
    ghost whole: { Whole }
    requires flags { length index.now.named.items ≡ length index.now.paths }
    requires agrees { Agrees index.now.paths index.now.named.items whole.all }
    requires all { after_all (all_shown index.now.paths mentions.now) nothing_declared ≡ whole.all }
    ensures { IfOk result (λ ms. ms ≡ mentioned_notes (is_named whole.all) (map (λ n. get_or index.now.paths n []) also.now)
        (all_shown index.now.paths mentions.now)) }
{
    let mut marks = marks_of(alloc, index, mentions)?;
    mark_each(&index.paths, &mut marks.used, also);
    let mut out = Messages::new(alloc);
    for mention in mentions {
        note(alloc, &mut out, index, &marks, mention)?;
    }
    Ok(out)
}

/// The notes on the names of a block of which this is known (ACPI Specification 6.4, 5.6.8), in the order of its terms:
/// 3001 at the name of a method whose last segment is reserved, and that takes another number of arguments than that
/// name asks for; 3003 at a name that is declared in a method, and that no use denotes. Each has the path from the root
/// as its name. The only error is want of memory.
pub fn notes(alloc: Global, known: &Known<'_>) -> Result<Messages, AllocError>
    requires { KnowsItsTerms known.now }
    ensures { IfOk result (λ ms. ms ≡ name_notes (trees_of known.now.terms.now)) }
{
    let out = notes_of(alloc, &known.facts.index, &known.mentions, &[])?;
    Ok(out)
}
