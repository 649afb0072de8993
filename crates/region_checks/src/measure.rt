//! The lengths of regions, and the accesses of fields.
ghost use Rattle.std.specs.Prelude.{◌≡◌, ◌++◌, IfOk, OnOk, length, slice_get};
ghost use Rattle.std.specs.Option.{option_copied};
ghost use Rattle.std.specs.Result.{result_ok};
ghost use Rattle.acpi_state.specs.Access.{access_bytes as bytes_of};
ghost use Rattle.asl_tree.specs.View.{trees_of};
ghost use Rattle.acpi_names.specs.Parts.{is_item_list, is_item_term, part_of};
ghost use Rattle.term_plans.specs.Plans.{plan_of, plans_of, plan_at, constant_of};
ghost use Rattle.field_checks.specs.Lists.{all_errors};
ghost use Rattle.region_checks.specs.Measures as spec;
ghost use Rattle.region_checks.specs.Sites.{if_none};

use acpi_names::part::{NameRole, Over, What, number, part_for};
use acpi_values::width::Width;
use asl_tree::constant::constant;
use asl_tree::term::{Node, Op, Term};
use field_checks::check::list_faults;
use field_checks::units::{UnitFault, unit_fault};
use std::alloc::{AllocError, Global};

/// The first fault of the units of a list, if any, by the space of the region in which they lie.
#[derive(Clone, Copy, PartialEq, Eq, Debug)]
pub struct UnitFaults {
    /// In GenericSerialBus.
    pub serial: Option<UnitFault>,
    /// In SMBus and in IPMI.
    pub bus: Option<UnitFault>,
    /// In GeneralPurposeIO.
    pub pins: Option<UnitFault>,
    /// In any other space.
    pub other: Option<UnitFault>,
}

/// What a region or a field says beside its names: the constant length of a region in bytes, or the bytes of a field's
/// accesses, where its list has no error, and the faults of its units.
#[derive(Clone, Copy, PartialEq, Eq, Debug)]
pub enum Extent {
    Size(Option<u64>),
    Access(Option<u64>, UnitFaults),
}

// The faults of the units of a field with these flags, where one space is asked of each kind.
fn unit_faults(flags: u64, body: &[Node]) -> UnitFaults
    ensures { result ≡ spec.unit_faults flags (plans_of body.now) }
{
    let access = (flags % 16) as u8;
    UnitFaults {
        serial: unit_fault(9, access, body),
        bus: unit_fault(4, access, body),
        pins: unit_fault(8, access, body),
        other: unit_fault(0, access, body),
    }
}

// The bytes of an access by a field's flags.
fn access_bytes(flags: u64) -> u64
    ensures { result ≡ bytes_of flags }
{
    match flags % 16 {
        2 => 2,
        3 => 4,
        4 => 8,
        _ => 1,
    }
}

fn node_at(nodes: &[Node], place: usize) -> Option<&Node>
    ensures { option_copied result ≡ slice_get nodes.now place }
{
    nodes.get(place)
}

// The value of a constant at a width.
#[tactic(auto, using(term_plans::proofs::Constants::constant_is))]
fn constant_in(width: Width, term: &Term) -> Option<u64>
    ensures { result ≡ result_ok (constant_of width (plan_of term.now)) }
{
    constant(term, width).ok()
}

// The constant length of a region by its arguments.
#[tactic(auto, using(crate::proofs::Nodes::constant_there, crate::proofs::Nodes::constant_none))]
fn region_size(width: Width, args: &[Node]) -> Option<u64>
    ensures { result ≡ result_ok (constant_of width (plan_at (plans_of args.now) 3)) }
{
    match node_at(args, 3) {
        Some(node) => constant_in(width, &node.term),
        None => None,
    }
}

fn is_item(term: &Term) -> bool
    ensures { result ≡ is_item_term term.now }
{
    matches!(
        term,
        Term::Unit { .. }
            | Term::Skip(_)
            | Term::Offset(_)
            | Term::Access { .. }
            | Term::Name(_)
            | Term::Fill { .. }
    )
}

// Whether a body lists items of a field, and nothing else.
fn are_items(nodes: &[Node]) -> bool
    ensures { result ≡ is_item_list (trees_of nodes.now) }
{
    for node in nodes {
        if !is_item(&node.term) {
            return false;
        }
    }
    true
}

// The bytes of the accesses of one field with these flags.
fn field_access(alloc: Global, field: &[Node], flags: u64) -> Result<Option<u64>, AllocError>
    ensures { IfOk result (λ access. access ≡ if_none (all_errors (plans_of field.now)) (bytes_of flags)) }
{
    let faults = list_faults(alloc, field)?;
    if faults.is_empty() {
        Ok(Some(access_bytes(flags)))
    } else {
        Ok(None)
    }
}

// What one field says that stands alone, and whose flags are these.
fn list_measures(
    alloc: Global,
    out: &mut Vec<Extent>,
    alone: &[Node],
    flags: Option<u64>,
    body: &[Node],
) -> Result<(), AllocError>
    ensures { OnOk result (out.new.items ≡ out.old.items ++ spec.list_measures flags (trees_of body.now) (plans_of body.now)
        (all_errors (plans_of alone.now))) }
{
    let Some(flags) = flags else {
        return Ok(());
    };
    if !are_items(body) {
        return Ok(());
    }
    let access = field_access(alloc, alone, flags)?;
    out.push(Extent::Access(access, unit_faults(flags, body)))?;
    Ok(())
}

// What a form says that stands alone.
#[cycle(walk)]
fn form_measures(
    alloc: Global,
    width: Width,
    out: &mut Vec<Extent>,
    alone: &[Node],
    op: Op,
    args: &[Node],
    body: &[Node],
) -> Result<(), AllocError>
    ensures { OnOk result (out.new.items ≡ out.old.items ++ spec.part_measures width (part_of op (trees_of args.now) (trees_of body.now))
        (trees_of args.now) (trees_of body.now) (plans_of args.now) (plans_of body.now) (all_errors (plans_of alone.now))) }
{
    match part_for(op, args, body) {
        NameRole::Declares {
            what: What::Region(_),
            ..
        } => {
            out.push(Extent::Size(region_size(width, args)))?;
            Ok(())
        }
        NameRole::Declares { opens: true, .. } | NameRole::Scope | NameRole::Within => {
            all_measures(alloc, width, out, body)?;
            Ok(())
        }
        NameRole::Units(Over::Region) => {
            list_measures(alloc, out, alone, number(args, 1), body)?;
            Ok(())
        }
        NameRole::Units(Over::Bank) => {
            list_measures(alloc, out, alone, number(args, 3), body)?;
            Ok(())
        }
        _ => Ok(()),
    }
}

// What one term says.
#[cycle(walk)]
fn term_measures(
    alloc: Global,
    width: Width,
    out: &mut Vec<Extent>,
    alone: &[Node],
) -> Result<(), AllocError>
    requires { length alone.now ≡ 1 }
    ensures { OnOk result (out.new.items ≡ out.old.items ++ spec.measures_all width (trees_of alone.now) (plans_of alone.now)) }
{
    match &alone[0].term {
        Term::Form { op, args, body } => {
            form_measures(alloc, width, out, alone, *op, args, body)?;
            Ok(())
        }
        _ => Ok(()),
    }
}

/// What the regions and fields of terms say, in order; constants are taken at this width.
#[cycle(walk)]
pub fn all_measures(
    alloc: Global,
    width: Width,
    out: &mut Vec<Extent>,
    nodes: &[Node],
) -> Result<(), AllocError>
    ensures { OnOk result (out.new.items ≡ out.old.items ++ spec.measures_all width (trees_of nodes.now) (plans_of nodes.now)) }
{
    for index in 0..nodes.len() {
        term_measures(alloc, width, out, &nodes[index..index + 1])?;
    }
    Ok(())
}
