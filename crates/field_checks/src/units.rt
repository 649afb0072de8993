//! How the units of a field are accessed, and what they are connected to, by the space of its region.
ghost use Rattle.std.specs.Prelude.{◌≡◌, ◌++◌, ◌%◌, OnOk};
ghost use Rattle.term_plans.specs.Plans.{plan_of, plans_of, plan_at, number_of};
ghost use Rattle.field_checks.specs.Units as spec;
ghost use Rattle.field_layout.specs.Segments.{first_said as said_first};

use asl_tree::term::{Node, Term};
use field_layout::segments::{SerialItem, first_said, item_fault, said_behind};
use iasl_messages::message::{Message, Messages};
use iasl_messages::place::Place;
use iasl_ports::list::Text;
use std::alloc::{AllocError, Global};

/// What is wrong with a unit, at its place: the number of a message.
#[derive(Clone, Copy, PartialEq, Eq, Debug)]
pub struct UnitFault {
    pub place: Place,
    pub number: u16,
}

// The number of an argument; 0 where it is none.
#[tactic(auto, unfolding(term_plans::specs::Plans::plan_of))]
fn number_in(term: &Term) -> u64
    ensures { result ≡ number_of (plan_of term.now) }
{
    match term {
        Term::Integer(number) => *number,
        _ => 0,
    }
}

#[tactic(auto, using(term_plans::proofs::Lists::at_rules))]
fn number_at(args: &[Node], place: usize) -> u64
    ensures { result ≡ number_of (plan_at (plans_of args.now) place) }
{
    match args.get(place) {
        Some(node) => number_in(&node.term),
        None => 0,
    }
}

/// The access that the flags of a field say, which are its argument with this number.
pub fn access_at(args: &[Node], place: usize) -> u8
    ensures { result ≡ number_of (plan_at (plans_of args.now) place) % 16 }
{
    (number_at(args, place) % 16) as u8
}

// The item of a list that a term is; what is none counts as a gap of no bits.
#[tactic(auto, unfolding(term_plans::specs::Plans::plan_of), using(crate::proofs::UnitFaults::item_rules))]
fn serial_item(term: &Term) -> SerialItem
    ensures { result ≡ spec.serial_item (plan_of term.now) }
{
    match term {
        Term::Unit { bits, .. } => SerialItem::Unit {
            name: 0,
            bits: *bits,
        },
        Term::Skip(bits) => SerialItem::Skip { bits: *bits },
        Term::Offset(bytes) => SerialItem::Offset { bytes: *bytes },
        Term::Access {
            access,
            attribute,
            length,
        } => SerialItem::AccessAs {
            access: *access,
            attribute: *attribute,
            length: length.unwrap_or(0),
        },
        Term::Name(_) => SerialItem::Connection { element: 0 },
        Term::Fill { .. } => SerialItem::Connection { element: 0 },
        _ => SerialItem::Skip { bits: 0 },
    }
}

/// The first unit of a list that has a fault in a region of this space (ACPI Specification 6.4, 5.5.2.4.6), where the
/// field has this access: one that is not accessed as a Buffer where the space asks for it (6073), one that is where it
/// does not (6074), or one without a connection where the space asks for one (6075).
pub fn unit_fault(space: u8, access: u8, body: &[Node]) -> Option<UnitFault>
    ensures { result ≡ spec.unit_fault space (said_first access) (plans_of body.now) }
{
    let mut said = first_said(access);
    for node in body {
        let item = serial_item(&node.term);
        match item_fault(space, said, &item) {
            Some(number) => {
                return Some(UnitFault {
                    place: node.place,
                    number,
                });
            }
            None => {}
        }
        said = said_behind(said, &item);
    }
    None
}

/// Tells of a unit's fault, if there is one.
pub fn tell(alloc: Global, out: &mut Messages, fault: Option<UnitFault>) -> Result<(), AllocError>
    ensures { OnOk result (out.new ≡ out.old ++ spec.unit_told fault) }
{
    match fault {
        Some(fault) => {
            out.push(Message {
                number: fault.number,
                place: fault.place,
                name: Text::new(alloc),
            })?;
            Ok(())
        }
        None => Ok(()),
    }
}
