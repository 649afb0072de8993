//! Resource templates, which stand for the bytes of their descriptors.
ghost use Rattle.std.specs.Prelude.{◌≡◌, ◌+◌, ◌^◌, ◌≤◌, ◌++◌, ◌∷◌, [], true, OnOk, IfOk, IfErr, length, map, not, ◌||◌};
ghost use Rattle.asl_shape.specs.Descriptors as table;
ghost use Rattle.asl_shape.specs.Shapes as spec;
ghost use Rattle.term_plans.specs.Plans.{plan_of, plans_of, fill_of, named_of};
ghost use Rattle.resource_layout.specs.Layout.{row_of};
ghost use Rattle.resource_macros.specs.Reading.{IsResource};

use crate::fields::named_unit;
use asl_terms::macros::buffer;
use asl_terms::settle::number_in;
use asl_terms::work::{Work, tell};
use asl_tree::path::NameSeg;
use asl_tree::term::{NamedDescriptor, Node, Term};
use asl_words::paths::parts;
use iasl_messages::number::VALUE_OUT_OF_RANGE;
use iasl_messages::place::Place;
use iasl_ports::list::{List, Text};
use resource_layout::descriptor::{Descriptor, Field, Giver, Word};
use resource_layout::layout::fields_of;
use resource_macros::node;
use std::alloc::{AllocError, Global};

fn number_term(giver: Giver, number: u64) -> node::Term
    ensures { result ≡ table.number_term giver number }
{
    match giver {
        Giver::Word(kind) | Giver::WordBelow(kind, _) => node::Term::Word(Word { kind, number }),
        _ => node::Term::Integer(number),
    }
}

// Adds a node. There is room for it first, so that it is made where it stays.
#[inline(always)]
fn push(nodes: &mut Vec<node::Node>, place: Place, term: node::Term) -> Result<(), AllocError>
    ensures { OnOk result (nodes.new.items ≡ nodes.old.items ++ table.node place term ∷ []) }
{
    nodes.reserve(1)?;
    nodes.push_reserved(node::Node { place, term });
    Ok(())
}

// Adds what an argument gives.
#[tactic(auto, unfolding(term_plans::specs::Plans::plan_of))]
fn add_argument(
    alloc: Global,
    nodes: &mut Vec<node::Node>,
    giver: Giver,
    arg: &Node,
) -> Result<(), AllocError>
    ensures { OnOk result
        (nodes.new.items ≡ nodes.old.items ++ table.node arg.now.place (table.argument_term giver (plan_of arg.now.term)) ∷ []) }
{
    match &arg.term {
        Term::Integer(number) => push(nodes, arg.place, number_term(giver, *number)),
        Term::Text(bytes) => {
            let copy = Text::from_bytes(alloc, bytes.as_bytes())?;
            push(nodes, arg.place, node::Term::Text(copy))
        }
        _ => push(nodes, arg.place, node::Term::Omitted),
    }
}

// The arguments, each by the field that it gives.
#[tactic(auto, using(crate::proofs::Descriptors::arguments_rules))]
fn add_arguments(
    alloc: Global,
    nodes: &mut Vec<node::Node>,
    fields: &[Field],
    args: &[Node],
) -> Result<(), AllocError>
    ensures { OnOk result (nodes.new.items ≡ nodes.old.items ++ table.argument_nodes fields.now (plans_of args.now)) }
{
    let Some((field, other_fields)) = parts(fields) else {
        return Ok(());
    };
    let Some((arg, other_args)) = parts(args) else {
        return Ok(());
    };
    add_argument(alloc, nodes, field.giver, arg)?;
    Ok(add_arguments(alloc, nodes, other_fields, other_args)?)
}

// The numbers of a list.
fn member_nodes(alloc: Global, body: &[Node]) -> Result<Vec<node::Node>, AllocError>
    ensures { IfOk result (λ nodes. nodes.items ≡ table.member_nodes (plans_of body.now)) }
{
    let mut nodes = Vec::new(alloc);
    for member in body {
        nodes.push(node::Node {
            place: member.place,
            term: node::Term::Integer(number_in(&member.term)),
        })?;
    }
    Ok(nodes)
}

// What a descriptor comes to: its bytes, and which descriptors in them have names.
#[derive(Drop)]
struct Fill {
    bytes: Vec<u8>,
    named: Vec<NamedDescriptor>,
}

// A descriptor that has a name, so many bytes further behind. There is no memory where it would stand behind more than a `usize` counts.
fn moved(named: NamedDescriptor, bytes: usize) -> Result<NamedDescriptor, AllocError>
    ensures further { IfOk result (λ further. further ≡ table.moved bytes named) }
    ensures full { IfErr result (λ _. 2 ^ 64 ≤ named.at + bytes) }
{
    let Some(at) = named.at.checked_add(bytes) else {
        return Err(AllocError);
    };
    Ok(NamedDescriptor { at, ..named })
}

// Adds the descriptors that have names, so many bytes further behind.
fn add_names(
    names: &mut Vec<NamedDescriptor>,
    added: &[NamedDescriptor],
    bytes: usize,
) -> Result<(), AllocError>
    ensures { OnOk result (names.new.items ≡ names.old.items ++ map (table.moved bytes) added.now) }
{
    for named in added {
        names.push(moved(*named, bytes)?)?;
    }
    Ok(())
}

// Adds the bytes and the names of a descriptor.
#[tactic(auto, using(crate::proofs::Descriptors::fill_rules), unfolding(term_plans::specs::Plans::plan_of))]
fn add_fill(fill: &mut Fill, term: &Term) -> Result<(), AllocError>
    ensures bytes { OnOk result (fill.new.bytes.items ≡ fill.old.bytes.items ++ fill_of (plan_of term.now)) }
    ensures names { OnOk result (fill.new.named.items ≡ fill.old.named.items ++ map (table.moved (length fill.old.bytes.items))
        (named_of (plan_of term.now))) }
{
    match term {
        Term::Fill { bytes, named } => {
            add_names(&mut fill.named, named.as_slice(), fill.bytes.len())?;
            Ok(fill.bytes.extend_from_slice(bytes.as_bytes())?)
        }
        _ => Ok(()),
    }
}

// Adds the bytes and the names of descriptors, one behind the other.
fn add_fills(fill: &mut Fill, nodes: &[Node]) -> Result<(), AllocError>
    ensures bytes { OnOk result (fill.new.bytes.items ≡ fill.old.bytes.items ++ table.fills_of (plans_of nodes.now)) }
    ensures names { OnOk result (fill.new.named.items ≡ fill.old.named.items ++ table.names_from (length fill.old.bytes.items)
        (plans_of nodes.now)) }
{
    for node in nodes {
        add_fill(fill, &node.term)?;
    }
    Ok(())
}

fn is_name(giver: Giver) -> bool
    ensures { result ≡ table.is_name giver }
{
    matches!(giver, Giver::Name)
}

// The segment that a name is.
#[tactic(auto, using(crate::proofs::Descriptors::segment_rules))]
fn segment_of(place: Place, term: &Term) -> Option<NameSeg>
    ensures { result ≡ table.segment_of (plan_of term.now) }
{
    match named_unit(place, term) {
        Some(unit) => Some(unit.segment),
        None => None,
    }
}

// Adds a descriptor that has a name.
#[tactic(auto, using(crate::proofs::Descriptors::own_name_rules))]
fn add_named(
    names: &mut Vec<NamedDescriptor>,
    descriptor: Descriptor,
    place: Place,
    segment: Option<NameSeg>,
) -> Result<(), AllocError>
    ensures { OnOk result (names.new.items ≡ names.old.items ++ table.named_as descriptor place segment) }
{
    match segment {
        Some(name) => Ok(names.push(NamedDescriptor {
            name,
            place,
            descriptor,
            at: 0,
        })?),
        None => Ok(()),
    }
}

// Adds the name that its arguments give a descriptor, if they do.
#[tactic(auto, using(crate::proofs::Descriptors::own_name_rules))]
fn add_own_name(
    names: &mut Vec<NamedDescriptor>,
    descriptor: Descriptor,
    fields: &[Field],
    args: &[Node],
) -> Result<(), AllocError>
    ensures { OnOk result (names.new.items ≡ names.old.items ++ table.own_name descriptor fields.now (plans_of args.now)) }
{
    let Some((field, other_fields)) = parts(fields) else {
        return Ok(());
    };
    let Some((arg, other_args)) = parts(args) else {
        return Ok(());
    };
    if is_name(field.giver) {
        let segment = segment_of(arg.place, &arg.term);
        Ok(add_named(names, descriptor, arg.place, segment)?)
    } else {
        Ok(add_own_name(names, descriptor, other_fields, other_args)?)
    }
}

// Tells of a descriptor that has no room for what it has.
#[tactic(auto, using(asl_terms::proofs::Terms::nothing_more))]
fn ask_room(alloc: Global, work: &mut Work, has_room: bool, place: Place) -> Result<(), AllocError>
    ensures { OnOk result (work.new.faults.items ≡ work.old.faults.items ++ spec.room_faults has_room place) }
{
    if has_room {
        Ok(())
    } else {
        Ok(tell(alloc, work, VALUE_OUT_OF_RANGE, place)?)
    }
}

/// What a descriptor comes to by its arguments and what stands in its braces: its bytes, and behind them those of the
/// descriptors in its braces (ACPI Specification 6.4, 6.4.2 and 6.4.3). Where its own bytes have room for all that is
/// written, they read as it.
///
/// # Errors
/// 6024 is told at a descriptor whose list is too short, or whose length or count does not fit, where what stands in its
/// braces is a list at all.
#[tactic(auto, unfolding(term_plans::specs::Plans::plan_of))]
pub fn describe(
    alloc: Global,
    work: &mut Work,
    descriptor: Descriptor,
    place: Place,
    numbered: bool,
    args: &[Node],
    body: &[Node],
) -> Result<Term, AllocError>
    ensures faults { OnOk result
        (work.new.faults.items ≡ work.old.faults.items
        ++ spec.room_faults (not numbered || table.is_roomy descriptor (plans_of args.now) (plans_of body.now)) place) }
    ensures made { IfOk result (λ term. plan_of term ≡ table.described descriptor (plans_of args.now) (plans_of body.now)) }
    ensures reads { OnOk result (table.is_roomy descriptor (plans_of args.now) (plans_of body.now) ≡ true
        → IsResource (row_of descriptor) (table.descriptor_arguments descriptor (plans_of args.now))
        (table.member_nodes (plans_of body.now)) (table.own_bytes descriptor (plans_of args.now) (plans_of body.now))) }
{
    let mut arguments = Vec::with_capacity(alloc, args.len())?;
    add_arguments(alloc, &mut arguments, fields_of(descriptor), args)?;
    let members = member_nodes(alloc, body)?;
    let described = resource_macros::descriptor::describe(alloc, descriptor, &arguments, &members)?;
    ask_room(alloc, work, !numbered || described.has_room, place)?;
    let mut named = Vec::new(alloc);
    add_own_name(&mut named, descriptor, fields_of(descriptor), args)?;
    let mut fill = Fill {
        bytes: described.bytes,
        named,
    };
    add_fills(&mut fill, body)?;
    Ok(Term::Fill {
        bytes: Text::from_vec(alloc, fill.bytes)?,
        named: List::from_vec(fill.named),
    })
}

/// What a template comes to by its descriptors: a Buffer of their bytes and the end tag, with those that have names
/// (ACPI Specification 6.4,
/// 6.4.2.9).
pub fn template(alloc: Global, place: Place, body: &[Node]) -> Result<Term, AllocError>
    ensures { IfOk result (λ term. plan_of term ≡ spec.template_plan place (plans_of body.now)) }
{
    let mut fill = Fill {
        bytes: Vec::new(alloc),
        named: Vec::new(alloc),
    };
    add_fills(&mut fill, body)?;
    fill.bytes.push(0x79)?;
    fill.bytes.push(0)?;
    Ok(buffer(
        alloc,
        place,
        Text::from_vec(alloc, fill.bytes)?,
        List::from_vec(fill.named),
    )?)
}
