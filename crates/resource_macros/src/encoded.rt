//! The bytes of one descriptor.
ghost use Rattle.std.specs.Prelude.{◌≡◌, ◌+◌, ◌*◌, ◌/◌, ◌^◌, ◌<◌, ◌++◌, ◌==◌, ◌∷◌, [], OnOk, IfOk, length, cond, find, nat_le, ◌&&◌};
ghost use Rattle.std.specs.List.{list_any, list_all};
ghost use Rattle.std.specs.Option.{option_copied};
ghost use Rattle.resource_layout.specs.Layout.{fields_of as fields_in};
ghost use Rattle.resource_layout.specs.Sound.{bits_by, window};
ghost use Rattle.resource_macros.specs.Numbers.{little_bytes};
ghost use Rattle.resource_macros.specs.Arguments as spec;
ghost use Rattle.resource_macros.specs.Resources as resource;

use crate::answer::{answer_to, fits, member_of};
use crate::bits::{Due, packed_bytes, put_number};
use crate::node::{Node, Term};
use resource_layout::descriptor::{Body, Field, Giver, Head, Row};
use std::alloc::{AllocError, Global};

/// The members of a list.
pub(crate) fn members_of(alloc: Global, body: Body, nodes: &[Node]) -> Result<Vec<u64>, AllocError>
    ensures { IfOk result (λ members. members.items ≡ spec.members_of body nodes.now) }
{
    let mut members = Vec::new(alloc);
    for node in nodes {
        members.push(member_of(body, &node.term).unwrap_or(0))?;
    }
    Ok(members)
}

fn is_member(bit: u32, members: &[u64]) -> bool
    ensures { result ≡ list_any (λ m. m == bit) members.now }
{
    members.iter().any(|member| *member == bit as u64)
}

// The bit of a member, where it is one.
#[tactic(auto, using(crate::proofs::Rooms::one_bit, crate::proofs::Rooms::small_bit))]
fn bit_of(bit: u32, members: &[u64]) -> u64
    requires { bit < 16 }
    ensures value { result ≡ cond (list_any (λ m. m == bit) members.now) (2 ^ bit) 0 }
    ensures small { result < 2 ^ 16 }
{
    if is_member(bit, members) { 1 << bit } else { 0 }
}

// The number in which the bits of the members are 1.
fn mask_of(members: &[u64]) -> u64
    ensures { result ≡ spec.mask_of 16 members.now }
{
    let mut mask = 0;
    for bit in 0..16 {
        mask += bit_of(bit, members);
    }
    mask
}

fn number_of(field: &Field, args: &[Node], members: &[u64], before: u64, whole: u64) -> u64
    ensures { result ≡ resource.number_of field.now args.now (resource.listed members.now before whole) }
{
    match field.giver {
        Giver::Fixed(number) => number,
        Giver::Mask => mask_of(members),
        Giver::Count => members.len() as u64,
        Giver::FirstMember | Giver::Index => 0,
        Giver::TextPlace => before,
        Giver::TextEnd => whole,
        _ => answer_to(field, args.get(field.argument)).unwrap_or(0),
    }
}

fn bits_of(field: &Field) -> u32
    ensures { result ≡ bits_by field.now.giver field.now.bits }
{
    match field.giver {
        Giver::FirstMember => 0,
        _ => field.bits,
    }
}

fn push_due(dues: &mut Vec<Due>, at: u32, bits: u32, number: u64) -> Result<(), AllocError>
    ensures { OnOk result (dues.new.items ≡ dues.old.items ++ resource.due (window at bits) number ∷ []) }
{
    dues.push(Due { at, bits, number })?;
    Ok(())
}

// The head of a descriptor of so many bytes.
fn head_dues(alloc: Global, head: Head, bytes: u64) -> Result<Vec<Due>, AllocError>
    ensures { IfOk result (λ dues. dues.items ≡ resource.head_dues head bytes) }
{
    let mut dues = Vec::new(alloc);
    match head {
        Head::Small(name) => {
            push_due(&mut dues, 0, 3, bytes.saturating_sub(1))?;
            push_due(&mut dues, 3, 5, name)?;
            Ok(dues)
        }
        Head::Large(tag) => {
            push_due(&mut dues, 0, 8, tag)?;
            push_due(&mut dues, 8, 16, bytes.saturating_sub(3))?;
            Ok(dues)
        }
    }
}

// The head and the fields.
fn all_dues(
    alloc: Global,
    row: &Row,
    before: u64,
    bytes: u64,
    fields: &[Field],
    args: &[Node],
    members: &[u64],
) -> Result<Vec<Due>, AllocError>
    ensures { IfOk result (λ dues. dues.items ≡ resource.head_dues row.now.head bytes ++ resource.field_dues args.now
        (resource.listed members.now before bytes) fields.now) }
{
    let mut dues = head_dues(alloc, row.head, bytes)?;
    for field in fields {
        push_due(
            &mut dues,
            field.at,
            bits_of(field),
            number_of(field, args, members, before, bytes),
        )?;
    }
    Ok(dues)
}

fn is_fitting(due: &Due) -> bool
    ensures { result ≡ resource.is_fitting due.now }
{
    fits(due.bits, due.number)
}

fn are_fitting(dues: &[Due]) -> bool
    ensures { result ≡ list_all resource.is_fitting dues.now }
{
    dues.iter().all(|due| is_fitting(due))
}

fn is_name(giver: Giver) -> bool
    ensures { result ≡ resource.is_name giver }
{
    matches!(giver, Giver::Name)
}

fn is_index(giver: Giver) -> bool
    ensures { result ≡ resource.is_index giver }
{
    matches!(giver, Giver::Index)
}

fn is_source(giver: Giver) -> bool
    ensures { result ≡ resource.is_source giver }
{
    matches!(giver, Giver::Source)
}

fn is_text(giver: Giver) -> bool
    ensures { result ≡ resource.is_text giver }
{
    matches!(giver, Giver::Text)
}

fn text_field(fields: &[Field]) -> Option<&Field>
    ensures { option_copied result ≡ find (λ field. resource.is_text field.giver) fields.now }
{
    fields.iter().find(|field| is_text(field.giver))
}

fn index_field(fields: &[Field]) -> Option<&Field>
    ensures { option_copied result ≡ find (λ field. resource.is_index field.giver) fields.now }
{
    fields.iter().find(|field| is_index(field.giver))
}

fn source_field(fields: &[Field]) -> Option<&Field>
    ensures { option_copied result ≡ find (λ field. resource.is_source field.giver) fields.now }
{
    fields.iter().find(|field| is_source(field.giver))
}

fn name_field(fields: &[Field]) -> Option<&Field>
    ensures { option_copied result ≡ find (λ field. resource.is_name field.giver) fields.now }
{
    fields.iter().find(|field| is_name(field.giver))
}

fn argument_in<'a>(args: &'a [Node], field: Option<&Field>) -> Option<&'a Node>
    ensures { option_copied result ≡ resource.argument_in args.now (option_copied field.entry) }
{
    match field {
        Some(field) => args.get(field.argument),
        None => None,
    }
}

fn index_of(fields: &[Field], args: &[Node]) -> Option<u8>
    ensures { result ≡ resource.in_node resource.byte_in (resource.argument_by resource.is_index fields.now args.now) }
{
    byte_in(argument_in(args, index_field(fields)))
}

fn byte_in(node: Option<&Node>) -> Option<u8>
    ensures { result ≡ resource.in_node resource.byte_in (option_copied node.entry) }
{
    match node {
        Some(node) => match &node.term {
            Term::Integer(number) => Some((*number % 256) as u8),
            _ => None,
        },
        None => None,
    }
}

fn text_in(node: Option<&Node>) -> Option<&[u8]>
    ensures { option_copied result ≡ resource.in_node resource.text_in (option_copied node.entry) }
{
    match node {
        Some(node) => match &node.term {
            Term::Text(text) => Some(text.as_bytes()),
            _ => None,
        },
        None => None,
    }
}

fn text_of<'a>(fields: &[Field], args: &'a [Node]) -> Option<&'a [u8]>
    ensures { option_copied result ≡ resource.in_node resource.text_in (resource.argument_by resource.is_source fields.now args.now) }
{
    text_in(argument_in(args, source_field(fields)))
}

fn plain_text_of<'a>(fields: &[Field], args: &'a [Node]) -> Option<&'a [u8]>
    ensures { option_copied result ≡ resource.in_node resource.text_in (resource.argument_by resource.is_text fields.now args.now) }
{
    text_in(argument_in(args, text_field(fields)))
}

// Writes the text of a source without index.
fn put_text(out: &mut Vec<u8>, text: Option<&[u8]>) -> Result<(), AllocError>
    ensures { OnOk result (out.new.items ≡ out.old.items ++ resource.text_bytes (option_copied text.entry)) }
{
    match text {
        Some(text) => {
            out.extend_from_slice(text)?;
            out.push(0)?;
            Ok(())
        }
        None => Ok(()),
    }
}

// Writes a source.
fn put_source(out: &mut Vec<u8>, index: Option<u8>, text: Option<&[u8]>) -> Result<(), AllocError>
    ensures { OnOk result (out.new.items ≡ out.old.items ++ resource.source_bytes index (option_copied text.entry)) }
{
    match text {
        Some(text) => {
            out.push(index.unwrap_or(0))?;
            out.extend_from_slice(text)?;
            out.push(0)?;
            Ok(())
        }
        None => match index {
            Some(index) => Ok(out.push(index)?),
            None => Ok(()),
        },
    }
}

fn put_numbers(out: &mut Vec<u8>, width: u32, numbers: &[u64]) -> Result<(), AllocError>
    ensures { OnOk result (out.new.items ≡ out.old.items ++ resource.numbers_bytes width numbers.now) }
{
    for number in numbers {
        put_number(out, width, *number)?;
    }
    Ok(())
}

// Writes the numbers of a list that stand behind the fields.
fn put_behind(out: &mut Vec<u8>, body: Body, members: &[u64]) -> Result<(), AllocError>
    ensures { OnOk result (out.new.items ≡ out.old.items ++ resource.numbers_bytes (resource.width_behind body)
        (resource.numbers_behind body members.now)) }
{
    match body {
        Body::Numbers { bits, .. } => put_numbers(out, bits / 8, members),
        _ => Ok(()),
    }
}

fn name_in(node: Option<&Node>) -> Option<u32>
    ensures { result ≡ resource.in_node resource.name_in (option_copied node.entry) }
{
    match node {
        Some(node) => match &node.term {
            Term::Name(path) => match path.segs.as_slice() {
                [segment] => Some(u32::from_le_bytes(*segment)),
                _ => None,
            },
            _ => None,
        },
        None => None,
    }
}

/// The name of a descriptor.
pub(crate) fn name_of(fields: &[Field], args: &[Node]) -> Option<u32>
    ensures { result ≡ resource.in_node resource.name_in (resource.argument_by resource.is_name fields.now args.now) }
{
    name_in(argument_in(args, name_field(fields)))
}

fn least_of(body: Body) -> u64
    ensures { result ≡ resource.least_of body }
{
    match body {
        Body::Numbers { least, .. } => least,
        _ => 0,
    }
}

fn are_few(body: Body, count: u64) -> bool
    ensures { result ≡ resource.are_few body count }
{
    match body {
        Body::Numbers { most, .. } => count <= most,
        _ => true,
    }
}

fn has_count(body: Body, count: u64) -> bool
    ensures { result ≡ (nat_le (resource.least_of body) count && resource.are_few body count) }
{
    least_of(body) <= count && are_few(body, count)
}

fn has_room(body: Body, nodes: &[Node], dues: &[Due]) -> bool
    ensures { result ≡ ((nat_le (resource.least_of body) (length nodes.now) && resource.are_few body (length nodes.now))
        && list_all resource.is_fitting dues.now) }
{
    has_count(body, nodes.len() as u64) && are_fitting(dues)
}

/// The bytes of a descriptor, and whether they hold what it has.
#[derive(Drop)]
pub struct Encoded {
    pub bytes: Vec<u8>,
    pub has_room: bool,
}

/// The bytes of a descriptor with these arguments and this list.
#[tactic(auto, using(crate::proofs::Lengths::behind_length, crate::proofs::Lengths::numbers_length))]
pub(crate) fn encode(
    alloc: Global,
    row: &Row,
    fields: &[Field],
    args: &[Node],
    body: &[Node],
) -> Result<Encoded, AllocError>
    requires { fields.now ≡ fields_in row.now.descriptor }
    ensures bytes { IfOk result (λ made. made.bytes.items ≡ resource.bytes_in row.now args.now body.now) }
    ensures room { IfOk result (λ made. made.has_room ≡ resource.has_room row.now args.now body.now) }
{
    let members = members_of(alloc, row.body, body)?;
    let mut behind = Vec::new(alloc);
    put_behind(&mut behind, row.body, &members)?;
    let before = row.bytes as u64 + behind.len() as u64;
    put_sources(&mut behind, fields, args)?;
    let length = row.bytes as u64 + behind.len() as u64;
    let dues = all_dues(alloc, row, before, length, fields, args, &members)?;
    let mut bytes = packed_bytes(alloc, row.bytes, &dues)?;
    bytes.extend_from_slice(&behind)?;
    Ok(Encoded {
        bytes,
        has_room: has_room(row.body, body, &dues),
    })
}

// Writes the source of a descriptor.
fn put_sources(out: &mut Vec<u8>, fields: &[Field], args: &[Node]) -> Result<(), AllocError>
    ensures { OnOk result (out.new.items ≡ out.old.items ++ resource.source_of fields.now args.now) }
{
    put_source(out, index_of(fields, args), text_of(fields, args))?;
    put_text(out, plain_text_of(fields, args))
}
