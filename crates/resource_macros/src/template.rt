//! Resource templates.
ghost use Rattle.std.specs.Prelude.{◌≡◌, ◌+◌, ◌*◌, ◌^◌, ◌<◌, ◌++◌, ◌∷◌, [], OnOk, IfOk, IfErr, length, cond, codes};
ghost use Rattle.std.specs.Str.{bytes_eq};
ghost use Rattle.resource_layout.specs.Layout.{fields_of as fields_in};
ghost use Rattle.resource_macros.specs.Resources as resource;
ghost use Rattle.resource_macros.specs.Templates as spec;

use crate::encoded::{encode, name_of};
use crate::faults::tell_all;
use crate::node::{Node, Term};
use crate::output::{FieldOffset, FieldOffsets, Template, Work};
use iasl_messages::message::Stage;
use iasl_messages::place::Place;
use iasl_ports::list::{List, Text};
use resource_layout::descriptor::{Descriptor, Field};
use resource_layout::layout::{fields_of, row_of};
use std::alloc::{AllocError, Global};

// The most bytes in front of a descriptor.
const MOST_BYTES: usize = 0xFFFF_FFFF;

fn offset_of(name: u32, start: u64, field: &Field) -> FieldOffset
    requires { start < 2 ^ 32 }
    ensures { result ≡ spec.offset_of name start field.now }
{
    FieldOffset {
        descriptor: name,
        field: u32::from_le_bytes(field.name),
        bit: 8 * start + field.at as u64,
        bits: field.bits,
    }
}

fn add_offset(
    out: &mut FieldOffsets,
    name: u32,
    start: u64,
    field: &Field,
) -> Result<(), AllocError>
    requires { start < 2 ^ 32 }
    ensures { OnOk result
        (out.new ≡ out.old ++ cond (bytes_eq field.now.name (codes "    ")) [] (spec.offset_of name start field.now ∷ [])) }
{
    if &field.name == b"    " {
        Ok(())
    } else {
        Ok(out.push(offset_of(name, start, field))?)
    }
}

fn add_offsets(
    out: &mut FieldOffsets,
    name: u32,
    start: u64,
    fields: &[Field],
) -> Result<(), AllocError>
    requires { start < 2 ^ 32 }
    ensures { OnOk result (out.new ≡ out.old ++ spec.offsets_in name start fields.now) }
{
    for field in fields {
        add_offset(out, name, start, field)?;
    }
    Ok(())
}

fn add_named(
    out: &mut FieldOffsets,
    name: Option<u32>,
    start: u64,
    fields: &[Field],
) -> Result<(), AllocError>
    requires { start < 2 ^ 32 }
    ensures { OnOk result (out.new ≡ out.old ++ spec.offsets_by_name name start fields.now) }
{
    match name {
        Some(name) => Ok(add_offsets(out, name, start, fields)?),
        None => Ok(()),
    }
}

// Adds a descriptor, without those of its list.
fn add_resource(
    alloc: Global,
    work: &mut Work,
    place: Place,
    descriptor: Descriptor,
    args: &[Node],
    body: &[Node],
) -> Result<(), AllocError>
    ensures bytes { OnOk result
        (work.new.bytes.items ≡ work.old.bytes.items ++ spec.bytes_of (spec.resource place descriptor args.now body.now)) }
    ensures fields { OnOk result (work.new.fields ≡ work.old.fields ++ spec.offsets_of (length work.old.bytes.items)
        (spec.resource place descriptor args.now body.now)) }
    ensures faults { OnOk result (work.new.faults ≡ work.old.faults ++ spec.faults_of (spec.resource place descriptor args.now body.now)) }
{
    let start = work.bytes.len();
    if start > MOST_BYTES {
        return Err(AllocError);
    }
    let row = row_of(descriptor);
    let fields = fields_of(row.descriptor);
    let encoded = encode(alloc, &row, fields, args, body)?;
    tell_all(
        alloc,
        &mut work.faults,
        place,
        fields,
        args,
        row.body,
        body,
        encoded.has_room,
    )?;
    add_named(
        &mut work.fields,
        name_of(fields, args),
        start as u64,
        fields,
    )?;
    work.bytes.extend_from_slice(&encoded.bytes)?;
    Ok(())
}

#[cycle(template)]
fn add_term(alloc: Global, work: &mut Work, place: Place, term: &Term) -> Result<(), AllocError>
    ensures bytes { OnOk result (work.new.bytes.items ≡ work.old.bytes.items ++ spec.all_bytes (spec.resources_in place term.now)) }
    ensures fields { OnOk result (work.new.fields ≡ work.old.fields ++ spec.all_offsets (length work.old.bytes.items)
        (spec.resources_in place term.now)) }
    ensures faults { OnOk result (work.new.faults ≡ work.old.faults ++ spec.all_faults (spec.resources_in place term.now)) }
{
    match term {
        Term::Resource {
            descriptor,
            args,
            body,
        } => {
            add_resource(alloc, work, place, *descriptor, args, body)?;
            add_list(alloc, work, body)?;
            Ok(())
        }
        Term::Integer(_) => Ok(()),
        Term::Text(_) => Ok(()),
        Term::Word(_) => Ok(()),
        Term::Omitted => Ok(()),
        Term::Name(_) => Ok(()),
    }
}

#[cycle(template)]
fn add_list(alloc: Global, work: &mut Work, nodes: &[Node]) -> Result<(), AllocError>
    ensures bytes { OnOk result (work.new.bytes.items ≡ work.old.bytes.items ++ spec.all_bytes (spec.resources_of nodes.now)) }
    ensures fields { OnOk result (work.new.fields ≡ work.old.fields ++ spec.all_offsets (length work.old.bytes.items)
        (spec.resources_of nodes.now)) }
    ensures faults { OnOk result (work.new.faults ≡ work.old.faults ++ spec.all_faults (spec.resources_of nodes.now)) }
{
    for node in nodes {
        add_term(alloc, work, node.place, &node.term)?;
    }
    Ok(())
}

fn all_of(alloc: Global, list: &[Node]) -> Result<Work, AllocError>
    ensures bytes { IfOk result (λ work. work.bytes.items ≡ spec.all_bytes (spec.resources_of list.now)) }
    ensures fields { IfOk result (λ work. work.fields ≡ spec.all_offsets 0 (spec.resources_of list.now)) }
    ensures faults { IfOk result (λ work. work.faults ≡ spec.all_faults (spec.resources_of list.now)) }
{
    let mut work = Work {
        bytes: Vec::new(alloc),
        fields: List::new(alloc),
        faults: List::new(alloc),
    };
    add_list(alloc, &mut work, list)?;
    Ok(work)
}

// The bytes with the end tag.
fn ended(alloc: Global, bytes: Vec<u8>) -> Result<Text, AllocError>
    ensures { IfOk result (λ text. text ≡ bytes.items ++ 0x79 ∷ 0 ∷ []) }
{
    let mut bytes = bytes;
    bytes.push(0x79)?;
    bytes.push(0)?;
    Text::from_vec(alloc, bytes)
}

fn finished(alloc: Global, work: Work) -> Result<Template, Stage>
    ensures done { IfOk result (λ t. (work.faults ≡ []) × (t.bytes ≡ work.bytes.items ++ 0x79 ∷ 0 ∷ []) × (t.fields ≡ work.fields)) }
    ensures refused { IfErr result (λ stage. spec.IsRefusal stage work.faults) }
{
    if !work.faults.is_empty() {
        return Err(Stage::Refused(work.faults));
    }
    match ended(alloc, work.bytes) {
        Ok(bytes) => Ok(Template {
            bytes,
            fields: work.fields,
        }),
        Err(AllocError) => Err(Stage::Memory),
    }
}

/// The template of a list of descriptors, or the faults of their arguments and lists (ACPI Specification 6.4, 6.4.2 and
/// 6.4.3). A template of 2^32 bytes or more is answered as want of memory.
pub fn template(alloc: Global, list: &[Node]) -> Result<Template, Stage>
    ensures faultless { OnOk result (spec.all_faults (spec.resources_of list.now) ≡ []) }
    ensures bytes { IfOk result (λ t. t.bytes ≡ spec.all_bytes (spec.resources_of list.now) ++ 0x79 ∷ 0 ∷ []) }
    ensures reads { IfOk result (λ t. spec.Describes (spec.resources_of list.now) t.bytes) }
    ensures fields { IfOk result (λ t. t.fields ≡ spec.all_offsets 0 (spec.resources_of list.now)) }
    ensures refused { IfErr result (λ stage. spec.IsRefusal stage (spec.all_faults (spec.resources_of list.now))) }
{
    match all_of(alloc, list) {
        Ok(work) => finished(alloc, work),
        Err(AllocError) => Err(Stage::Memory),
    }
}
