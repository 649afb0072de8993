//! The fields of descriptors that a block uses.
ghost use Rattle.std.specs.Prelude.{◌≡◌, ◌<◌, ◌++◌, ◌∷◌, List, [], Option, length, get_or, map, nat_le, IfOk, OnOk};
ghost use Rattle.acpi_values.specs.Paths.{AbsolutePath};
ghost use Rattle.acpi_state.specs.Outcomes.{choose};
ghost use Rattle.asl_meaning.specs.Declarations.{Declarations, is_named};
ghost use Rattle.asl_tree.specs.Names.{declared_path};
ghost use Rattle.acpi_names.specs.Errors.{NoContainer, step_errors};
ghost use Rattle.acpi_names.specs.Mentions.{Mention as Mentioned};
ghost use Rattle.acpi_names.specs.Parts.{Agrees};
ghost use Rattle.acpi_names.specs.Shown.{all_shown, shown, spot_as};
ghost use Rattle.acpi_names.specs.Tables.{Tabled};
ghost use Rattle.asl_tree.specs.declared.term.NamedDescriptor.{NamedDescriptor as ANamed};
ghost use Rattle.name_checks.specs.Messages.{message_of};
ghost use Rattle.descriptor_fields.specs.Nodes.{SaysMore};
ghost use Rattle.descriptor_checks.specs.Fields.{AreFields, field_place, numbers_in};
ghost use Rattle.descriptor_checks.specs.Senses.{outer_path};
ghost use Rattle.descriptor_checks.specs.Shown.{sense_as};
ghost use Rattle.descriptor_checks.specs.Told as spec;

use crate::sense::{Sense, outer_segments, sense_in};
use acpi_names::index::Index;
use acpi_names::lookup::{find, prefixed, scope_in};
use acpi_names::mention::{Mention, Occurrence, WrittenName};
use acpi_names::paths::Paths;
use asl_tree::path::Path;
use asl_tree::term::NamedDescriptor;
use descriptor_fields::nodes::put;
use iasl_messages::message::Message;
use name_checks::fault::{Fault, message};
use std::alloc::{AllocError, Global};

/// The fields of descriptors that a block uses: the lowest bit in the template of each that may be a value, by the number of
/// the node that is its name; what is told of them in the class of names; and the numbers of the paths of their descriptors,
/// one for each use.
#[derive(Drop)]
pub struct Fields {
    pub places: Vec<Option<u64>>,
    pub wrong: Vec<Message>,
    pub owners: Vec<usize>,
}

// Whether so many scopes stand around a path.
fn has_scopes(paths: &Paths, up: u32, scope: usize) -> bool
    requires { scope < length paths.now }
    ensures { result ≡ nat_le up (length (get_or paths.now scope [])) }
{
    let mut around = scope;
    let mut left = up;
    while left > 0 {
        match paths.step(around) {
            Some((outer, _)) => around = outer,
            None => return false,
        }
        left -= 1;
    }
    true
}

// Tells of a field by a path that leaves the root.
fn tell_steps(
    alloc: Global,
    index: &Index,
    out: &mut Vec<Message>,
    at: Occurrence,
    name: &Path,
    scope: usize,
) -> Result<(), AllocError>
    ensures { OnOk result (out.new.items ≡ out.old.items
        ++ map message_of (step_errors (spot_as at) name.now (get_or index.now.paths scope []))) }
{
    if has_scopes(&index.paths, name.up, scope_in(&index.paths, scope)) {
        return Ok(());
    }
    let name = WrittenName::Path(name);
    out.push(message(alloc, &index.paths, Fault::LeavesRoot { at, name })?)?;
    Ok(())
}

// Tells of a Scope of a field, which is no container.
fn tell_opened(
    alloc: Global,
    index: &Index,
    out: &mut Vec<Message>,
    here: Occurrence,
    name: &Path,
) -> Result<(), AllocError>
    ensures { OnOk result (out.new.items ≡ out.old.items ++ map message_of (NoContainer (spot_as here) name.now ∷ [])) }
{
    let fault = Fault::NoContainer {
        at: here,
        name: WrittenName::Path(name),
    };
    out.push(message(alloc, &index.paths, fault)?)?;
    Ok(())
}

// What is told of a mention that is a field.
fn tell_field(
    alloc: Global,
    index: &Index,
    out: &mut Vec<Message>,
    mention: &Mention,
) -> Result<(), AllocError>
    ensures { OnOk result (out.new.items ≡ out.old.items ++ map message_of (spec.field_errors (shown index.now.paths mention.now))) }
{
    match mention {
        Mention::Used {
            at,
            name,
            scope,
            ..
        } => Ok(tell_steps(alloc, index, out, *at, name, *scope)?),
        Mention::Sought { at, name, scope } => {
            Ok(tell_steps(alloc, index, out, *at, name, *scope)?)
        }
        Mention::Called {
            at,
            name,
            scope,
            ..
        } => Ok(tell_steps(alloc, index, out, *at, name, *scope)?),
        Mention::Opens {
            here,
            at,
            name,
            scope,
            ..
        } => {
            tell_steps(alloc, index, out, *at, name, *scope)?;
            tell_opened(alloc, index, out, *here, name)?;
            Ok(())
        }
        Mention::Declares { .. } | Mention::Outside { .. } => Ok(()),
    }
}

// Notes the place of a field at its node, where it may be a value.
fn put_field(places: &mut Vec<Option<u64>>, mention: &Mention, bit: u64) -> Result<(), AllocError>
    ensures { OnOk result ((paths : List AbsolutePath) → SaysMore places.old.items places.new.items
        (field_place (shown paths mention.now) bit)) }
{
    match mention {
        Mention::Used { at, .. } => Ok(put(places, at.id as usize, bit)?),
        Mention::Sought { at, .. } => Ok(put(places, at.id as usize, bit)?),
        Mention::Called { .. } | Mention::Opens { .. } => Ok(()),
        Mention::Declares { .. } | Mention::Outside { .. } => Ok(()),
    }
}

/// Adds a number, where there is one.
pub(crate) fn push_there(found: &mut Vec<usize>, number: Option<usize>) -> Result<(), AllocError>
    ensures { OnOk result (found.new.items ≡ found.old.items ++ choose number [] (λ n. n ∷ [])) }
{
    match number {
        Some(number) => {
            found.push(number)?;
            Ok(())
        }
        None => Ok(()),
    }
}

// Notes the number of the path of a field's descriptor, where it is there.
fn put_owner(
    index: &Index,
    owners: &mut Vec<usize>,
    name: &Path,
    scope: usize,
) -> Result<(), AllocError>
    ensures { OnOk result (owners.new.items ≡ owners.old.items ++ numbers_in index.now.paths
        (declared_path (outer_path name.now) (get_or index.now.paths scope []) ∷ [])) }
{
    let outer = prefixed(&index.paths, name, scope_in(&index.paths, scope));
    Ok(push_there(owners, find(&index.paths, outer, outer_segments(name)))?)
}

// The same of a mention.
fn own_field(index: &Index, owners: &mut Vec<usize>, mention: &Mention) -> Result<(), AllocError>
    ensures { OnOk result (owners.new.items ≡ owners.old.items
        ++ numbers_in index.now.paths (spec.owner_of (shown index.now.paths mention.now))) }
{
    match mention {
        Mention::Used { name, scope, .. } => Ok(put_owner(index, owners, name, *scope)?),
        Mention::Sought { name, scope, .. } => Ok(put_owner(index, owners, name, *scope)?),
        Mention::Called { name, scope, .. } => Ok(put_owner(index, owners, name, *scope)?),
        Mention::Opens { name, scope, .. } => Ok(put_owner(index, owners, name, *scope)?),
        Mention::Declares { .. } | Mention::Outside { .. } => Ok(()),
    }
}

// Notes a mention, which is a field where its place says so.
fn note(
    alloc: Global,
    index: &Index,
    fields: &mut Fields,
    mention: &Mention,
    sense: Sense,
) -> Result<(), AllocError>
    ensures { OnOk result ((d : Declarations) (look : AbsolutePath → Option ANamed) (table : List (Option ANamed)) (ms : List Mentioned) →
        Tabled index.now.paths table look → sense_as sense ≡ spec.sense_in (is_named d) look (shown index.now.paths mention.now)
        → AreFields index.now.paths (is_named d) look fields.old ms
        → AreFields index.now.paths (is_named d) look fields.new (ms ++ shown index.now.paths mention.now ∷ [])) }
{
    match sense {
        Sense::Field(bit) => {
            put_field(&mut fields.places, mention, bit)?;
            tell_field(alloc, index, &mut fields.wrong, mention)?;
            own_field(index, &mut fields.owners, mention)?;
            Ok(())
        }
        Sense::Nothing => Ok(()),
        Sense::Descriptor => Ok(()),
    }
}

/// The fields of descriptors that mentions use, where a table has the descriptors by the numbers of their paths. The only
/// error is want of memory, as which a template of 2^61 bytes is answered.
pub fn fields_of(
    alloc: Global,
    index: &Index,
    table: &[Option<NamedDescriptor>],
    mentions: &[Mention],
) -> Result<Fields, AllocError>
    requires all { length index.now.named.items ≡ length index.now.paths }
    ensures { IfOk result (λ fields. (d : Declarations) (look : AbsolutePath → Option ANamed) →
        Agrees index.now.paths index.now.named.items d → Tabled index.now.paths table.now look →
        AreFields index.now.paths (is_named d) look fields (all_shown index.now.paths mentions.now)) }
{
    let mut fields = Fields {
        places: Vec::new(alloc),
        wrong: Vec::new(alloc),
        owners: Vec::new(alloc),
    };
    for mention in mentions {
        let sense = sense_in(index, table, mention)?;
        note(alloc, index, &mut fields, mention, sense)?;
    }
    Ok(fields)
}
