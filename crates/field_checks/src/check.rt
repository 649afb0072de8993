//! The lists of fields, checked.
ghost use Rattle.std.specs.Prelude.{◌≡◌, ◌++◌, ◌<◌, ◌^◌, ◌↔◌, IsTrue, IfOk, OnOk};
ghost use Rattle.std.specs.Option.{option_map};
ghost use Rattle.term_plans.specs.Plans.{plan_of, plans_of};
ghost use Rattle.field_checks.specs.Lists as spec;
ghost use Rattle.field_checks.specs.Units.{unit_told, index_fault};
ghost use Rattle.field_layout.specs.Layout.{item_of};

use crate::units::{access_at, tell, unit_fault};
use asl_tree::term::{Declaration, Node, Op, Term};
use field_layout::layout::{FieldItem, next_bit};
use iasl_messages::message::{Message, Messages};
use iasl_ports::list::Text;
use std::alloc::{AllocError, Global};

// No list has its next bit behind this one.
const MOST_BITS: u64 = 0x3FFF_FFFF_FFFF_FFFF;

// The item of a list that a term is; one without bits counts as a gap of none.
#[tactic(auto, using(term_plans::proofs::Terms::term_rules, crate::proofs::Terms::no_item))]
fn item_in(term: &Term) -> Option<FieldItem>
    ensures { option_map item_of result ≡ spec.item_in (plan_of term.now) }
{
    match term {
        Term::Unit { bits, .. } => Some(FieldItem::Unit {
            name: 0,
            bits: *bits,
        }),
        Term::Skip(bits) => Some(FieldItem::Skip { bits: *bits }),
        Term::Offset(bytes) => Some(FieldItem::Offset { bytes: *bytes }),
        Term::Access { .. } => Some(FieldItem::Skip { bits: 0 }),
        Term::Name(_) => Some(FieldItem::Skip { bits: 0 }),
        Term::Fill { .. } => Some(FieldItem::Skip { bits: 0 }),
        _ => None,
    }
}

// Whether there is room for an item behind so many bits.
fn has_room(at: u64) -> bool
    ensures { IsTrue result ↔ at < 2 ^ 62 }
{
    at <= MOST_BITS
}

// The first fault of a list.
fn list_errors(alloc: Global, out: &mut Messages, body: &[Node]) -> Result<(), AllocError>
    ensures { OnOk result (out.new ≡ out.old ++ spec.list_errors 0 (plans_of body.now)) }
{
    let mut at: u64 = 0;
    for node in body {
        let Some(item) = item_in(&node.term) else {
            return Ok(());
        };
        if !has_room(at) {
            return Err(AllocError);
        }
        match next_bit(&item, at) {
            Ok(next) => at = next,
            Err(number) => {
                out.push(Message {
                    number,
                    place: node.place,
                    name: Text::new(alloc),
                })?;
                return Ok(());
            }
        }
    }
    Ok(())
}

// The units of an IndexField lie in no region, and none is moved as a Buffer.
const NO_SPACE: u8 = 0;

// The first fault of the units of an IndexField with these arguments.
fn index_errors(
    alloc: Global,
    out: &mut Messages,
    args: &[Node],
    body: &[Node],
) -> Result<(), AllocError>
    ensures { OnOk result (out.new ≡ out.old ++ unit_told (index_fault (plans_of args.now) (plans_of body.now))) }
{
    Ok(tell(alloc, out, unit_fault(NO_SPACE, access_at(args, 2), body))?)
}

// The first fault of a form's list, where the form is a field, and of the units of an IndexField.
fn field_errors(
    alloc: Global,
    out: &mut Messages,
    op: Op,
    args: &[Node],
    body: &[Node],
) -> Result<(), AllocError>
    ensures { OnOk result (out.new ≡ out.old ++ spec.field_errors op (plans_of args.now) (plans_of body.now)) }
{
    match op {
        Op::Declaration(Declaration::Field | Declaration::BankField) => {
            list_errors(alloc, out, body)?;
            Ok(())
        }
        Op::Declaration(Declaration::IndexField) => {
            list_errors(alloc, out, body)?;
            index_errors(alloc, out, args, body)?;
            Ok(())
        }
        _ => Ok(()),
    }
}

// The errors of a term, and then those of its body.
#[cycle(walk)]
fn term_errors(alloc: Global, out: &mut Messages, term: &Term) -> Result<(), AllocError>
    ensures { OnOk result (out.new ≡ out.old ++ spec.term_errors (plan_of term.now)) }
{
    match term {
        Term::Form { op, args, body } => {
            field_errors(alloc, out, *op, args, body)?;
            all_errors(alloc, out, body)?;
            Ok(())
        }
        _ => Ok(()),
    }
}

// The errors of terms one after another.
#[cycle(walk)]
fn all_errors(alloc: Global, out: &mut Messages, nodes: &[Node]) -> Result<(), AllocError>
    ensures { OnOk result (out.new ≡ out.old ++ spec.all_errors (plans_of nodes.now)) }
{
    for node in nodes {
        term_errors(alloc, out, &node.term)?;
    }
    Ok(())
}

/// The errors of the lists of fields in a block, in the order of the source: of each Field, IndexField and BankField (ACPI
/// Specification 6.4, 19.6.48, 19.6.64 and 19.6.7) the first of 6070 at an Offset that goes back, and 6071 at a unit of no
/// bits, or at an item that makes 2^28 bits or more; and 6074 at the first unit of an IndexField that is accessed as a Buffer. A list that
/// reaches behind 2^62 bits is answered as want of memory.
pub fn list_faults(alloc: Global, terms: &[Node]) -> Result<Messages, AllocError>
    ensures { IfOk result (λ ms. ms ≡ spec.all_errors (plans_of terms.now)) }
{
    let mut out = Messages::new(alloc);
    all_errors(alloc, &mut out, terms)?;
    Ok(out)
}
