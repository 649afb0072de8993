//! What is told of the names of a block where descriptors have names, mention by mention.
ghost use Rattle.std.specs.Prelude.{◌≡◌, ◌<◌, ◌++◌, ◌∷◌, Bool, List, [], Option, length, get_or, map, IfOk, IfSome, OnOk};
ghost use Rattle.acpi_values.specs.Paths.{AbsolutePath};
ghost use Rattle.asl_meaning.specs.Declarations.{Declarations, is_named, nothing_declared};
ghost use Rattle.acpi_names.specs.Errors.{Whole};
ghost use Rattle.acpi_names.specs.Mentions.{Mention as Mentioned, after_all};
ghost use Rattle.acpi_names.specs.Parts.{Agrees};
ghost use Rattle.acpi_names.specs.Paths.{number_in};
ghost use Rattle.acpi_names.specs.Shown.{all_shown, asked_as, shown, spot_as};
ghost use Rattle.acpi_names.specs.Tables.{Tabled};
ghost use Rattle.name_checks.specs.Messages.{message_of};
ghost use Rattle.name_kinds.specs.Tables.{IsThere};
ghost use Rattle.asl_tree.specs.declared.term.NamedDescriptor.{NamedDescriptor as ANamed};
ghost use Rattle.descriptor_checks.specs.Fields.{AreSorted, numbers_in, paths_at};
ghost use Rattle.descriptor_checks.specs.Shown.{sense_as};
ghost use Rattle.descriptor_checks.specs.Told as spec;

use crate::fields::push_there;
use crate::sense::{Sense, entry, sense_in};
use acpi_names::index::Index;
use acpi_names::lookup::scope_in;
use acpi_names::mention::{Asked, Mention, Occurrence};
use acpi_names::paths::Paths;
use asl_tree::path::Path;
use asl_tree::term::NamedDescriptor;
use iasl_messages::message::Message;
use iasl_messages::number::{WRONG_CALL_ARGUMENT_COUNT, WRONG_OBJECT_KIND, WRONG_TYPE};
use iasl_messages::place::Place;
use iasl_ports::list::Text;
use name_checks::fault::{Fault, message, text_of_name};
use name_kinds::tables::declared_at;
use std::alloc::{AllocError, Global};

// ---- names that are declared below descriptors

// Whether the path with a number is directly below a descriptor's.
fn is_below(index: &Index, table: &[Option<NamedDescriptor>], number: usize) -> bool
    requires within { number < length index.now.paths }
    ensures { (look : AbsolutePath → Option ANamed) → Tabled index.now.paths table.now look →
        result ≡ spec.is_below look (get_or index.now.paths number []) }
{
    let count = index.paths.len();
    match index.paths.step(number) {
        Some(step) => entry(table, Some(step.0)).is_some(),
        None => false,
    }
}

// Tells of a name that is declared directly below a descriptor.
fn tell_below(
    alloc: Global,
    index: &Index,
    table: &[Option<NamedDescriptor>],
    out: &mut Vec<Message>,
    mention: &Mention,
) -> Result<(), AllocError>
    ghost whole: { Whole }
    requires agrees { Agrees index.now.paths index.now.named.items whole.all }
    requires there { IsThere whole (shown index.now.paths mention.now) }
    ensures { OnOk result ((look : AbsolutePath → Option ANamed) → Tabled index.now.paths table.now look
        → out.new.items ≡ out.old.items ++ map message_of (spec.below_errors look (shown index.now.paths mention.now))) }
{
    match mention {
        Mention::Declares {
            at,
            name,
            scope,
            ..
        } => {
            let (at, name) = (*at, *name);
            if !is_below(index, table, declared_at(index, name, *scope)) {
                return Ok(());
            }
            out.push(message(alloc, &index.paths, Fault::Missing { at, name })?)?;
            Ok(())
        }
        Mention::Used { .. } | Mention::Sought { .. } | Mention::Called { .. } => Ok(()),
        Mention::Outside { .. } | Mention::Opens { .. } => Ok(()),
    }
}

/// What is told of names that a block declares directly below a descriptor, which has nothing below it but its fields: 6041
/// at each. The only error is want of memory.
pub fn below_errors(
    alloc: Global,
    index: &Index,
    table: &[Option<NamedDescriptor>],
    mentions: &[Mention],
) -> Result<Vec<Message>, AllocError>
    ghost whole: { Whole }
    requires agrees { Agrees index.now.paths index.now.named.items whole.all }
    requires all { after_all (all_shown index.now.paths mentions.now) nothing_declared ≡ whole.all }
    ensures { IfOk result (λ told. (look : AbsolutePath → Option ANamed) → Tabled index.now.paths table.now look
        → told.items ≡ map message_of (spec.all_below look (all_shown index.now.paths mentions.now))) }
{
    let mut out = Vec::new(alloc);
    for mention in mentions {
        tell_below(alloc, index, table, &mut out, mention)?;
    }
    Ok(out)
}

// ---- uses of descriptors and fields

fn tell(out: &mut Vec<Message>, number: u16, place: Place, name: Text) -> Result<(), AllocError>
    ensures { OnOk result (out.new.items ≡ out.old.items ++ spec.fault number place name) }
{
    out.push(Message {
        number,
        place,
        name,
    })?;
    Ok(())
}

// What is told where a value or a place is asked for, or an object.
fn tell_asked(
    alloc: Global,
    out: &mut Vec<Message>,
    asked: Asked,
    at: Occurrence,
    name: &Path,
) -> Result<(), AllocError>
    ensures { OnOk result (out.new.items ≡ out.old.items ++ spec.fault_asked (asked_as asked) (spot_as at) name.now) }
{
    match asked {
        Asked::Anything | Asked::Value => tell(out, WRONG_TYPE, at.place, Text::new(alloc)),
        Asked::Object | Asked::Mutex | Asked::Event | Asked::Unit | Asked::Region(_) => {
            tell(out, WRONG_OBJECT_KIND, at.place, text_of_name(alloc, name)?)
        }
    }
}

// What is told of a mention of a descriptor or a field.
fn tell_fault(alloc: Global, out: &mut Vec<Message>, mention: &Mention) -> Result<(), AllocError>
    ensures { OnOk result ((paths : List AbsolutePath) → out.new.items ≡ out.old.items ++ spec.fault_of (shown paths mention.now)) }
{
    match mention {
        Mention::Used {
            asked,
            at,
            name,
            ..
        } => Ok(tell_asked(alloc, out, *asked, *at, name)?),
        Mention::Sought { at, .. } => Ok(tell(out, WRONG_TYPE, at.place, Text::new(alloc))?),
        Mention::Called { at, name, .. } => {
            let text = text_of_name(alloc, name)?;
            Ok(tell(out, WRONG_CALL_ARGUMENT_COUNT, at.place, text)?)
        }
        Mention::Opens { at, name, .. } => { Ok(tell_asked(alloc, out, Asked::Object, *at, name)?) }
        Mention::Declares { .. } | Mention::Outside { .. } => Ok(()),
    }
}

/// The mentions of a block by what they denote: those that are no fields of descriptors, those that are no descriptors either,
/// and what is told of the others in the class of kinds: 6050 where a value or a place is asked for, 6054 where an object is,
/// 6051 at a call.
#[derive(Drop)]
pub struct Sorted<'a> {
    pub names: Vec<Mention<'a>>,
    pub kinds: Vec<Mention<'a>>,
    pub faults: Vec<Message>,
}

// Sorts a mention.
fn sort<'a>(
    alloc: Global,
    sorted: &mut Sorted<'a>,
    mention: Mention<'a>,
    sense: Sense,
) -> Result<(), AllocError>
    ensures { OnOk result ((paths : List AbsolutePath) (has : AbsolutePath → Bool) (look : AbsolutePath → Option ANamed)
        (ms : List Mentioned) → sense_as sense ≡ spec.sense_in has look (shown paths mention.entry) → AreSorted paths has look sorted.old ms
        → AreSorted paths has look sorted.new (ms ++ shown paths mention.entry ∷ [])) }
{
    match sense {
        Sense::Nothing => {
            sorted.names.push(mention)?;
            sorted.kinds.push(mention)?;
            Ok(())
        }
        Sense::Descriptor => {
            sorted.names.push(mention)?;
            tell_fault(alloc, &mut sorted.faults, &mention)?;
            Ok(())
        }
        Sense::Field(_) => Ok(tell_fault(alloc, &mut sorted.faults, &mention)?),
    }
}

/// The mentions of a block by what they denote, where a table has the descriptors by the numbers of their paths. The only
/// error is want of memory, as which a template of 2^61 bytes is answered.
pub fn sorted_mentions<'a>(
    alloc: Global,
    index: &Index,
    table: &[Option<NamedDescriptor>],
    mentions: &[Mention<'a>],
) -> Result<Sorted<'a>, AllocError>
    requires all { length index.now.named.items ≡ length index.now.paths }
    ensures { IfOk result (λ sorted. (d : Declarations) (look : AbsolutePath → Option ANamed) →
        Agrees index.now.paths index.now.named.items d → Tabled index.now.paths table.now look →
        AreSorted index.now.paths (is_named d) look sorted (all_shown index.now.paths mentions.now)) }
{
    let mut sorted = Sorted {
        names: Vec::new(alloc),
        kinds: Vec::new(alloc),
        faults: Vec::new(alloc),
    };
    for mention in mentions {
        let sense = sense_in(index, table, mention)?;
        sort(alloc, &mut sorted, *mention, sense)?;
    }
    Ok(sorted)
}

// ---- descriptors whose fields are used

// The number that a path of other paths has here.
#[cycle(same_path)]
fn same_path(from: &Paths, to: &Paths, number: usize) -> Option<usize>
    requires { number < length from.now }
    ensures number { result ≡ number_in to.now (get_or from.now number []) }
    ensures within { IfSome result (λ n. n < length to.now) }
{
    let count = to.len();
    match from.step(number) {
        Some(step) => {
            let segment = step.1;
            let scope = same_path(from, to, step.0)?;
            to.child(scope, segment)
        }
        None => Some(0),
    }
}

/// The numbers that paths have in another index, of those that it has.
pub fn numbers_of(
    alloc: Global,
    from: &Paths,
    to: &Paths,
    numbers: &[usize],
) -> Result<Vec<usize>, AllocError>
    ensures { IfOk result (λ found. found.items ≡ numbers_in to.now (paths_at from.now numbers.now)) }
{
    let mut found = Vec::new(alloc);
    for number in numbers {
        push_there(&mut found, same_path(from, to, scope_in(from, *number)))?;
    }
    Ok(found)
}
