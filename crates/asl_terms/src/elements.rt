//! The words of a field's list, by what their arguments come to (ACPI Specification 6.4, 19.6.48, 19.6.3 and 19.6.16).
ghost use Rattle.std.specs.Prelude.{◌≡◌, ◌%◌, IfOk};
ghost use Rattle.asl_terms.specs.Terms as spec;
ghost use Rattle.term_plans.specs.Plans.{plan_of, plans_of, plan_at, number_of};

use crate::macros::first_term;
use crate::settle::{number_at, number_in};
use asl_tree::term::{Node, Term};
use asl_words::operator::FieldWord;
use iasl_ports::list::Text;
use std::alloc::{AllocError, Global};

// The attribute of transfers that have a length.
const ATTRIB_BYTES: u8 = 0x0B;

// An access with its attribute.
#[tactic(auto, using(crate::proofs::FieldWords::accessed_rules), unfolding(term_plans::specs::Plans::plan_of))]
fn accessed_as(access: u8, attribute: &Term) -> Term
    ensures { plan_of result ≡ spec.accessed_as access (plan_of attribute.now) }
{
    match attribute {
        Term::Access {
            attribute,
            length,
            ..
        } => Term::Access {
            access,
            attribute: *attribute,
            length: *length,
        },
        _ => Term::Access {
            access,
            attribute: (number_in(attribute) % 256) as u8,
            length: None,
        },
    }
}

// An access by its arguments.
#[tactic(auto, using(crate::proofs::FieldWords::access_rules))]
fn access_term(args: &[Node]) -> Term
    ensures { plan_of result ≡ spec.accessed_as (number_of (plan_at (plans_of args.now) 0) % 256) (plan_at (plans_of args.now) 1) }
{
    let access = (number_at(args, 0) % 256) as u8;
    match args.get(1) {
        Some(node) => accessed_as(access, &node.term),
        None => accessed_as(access, &Term::Omitted),
    }
}

// A descriptor as a template of its own.
#[tactic(auto, using(crate::proofs::FieldWords::connected_rules), unfolding(term_plans::specs::Plans::plan_of))]
fn connected_to(alloc: Global, term: Term) -> Result<Term, AllocError>
    ensures { IfOk result (λ made. plan_of made ≡ spec.connected_to (plan_of term)) }
{
    match term {
        Term::Fill { bytes, named } => {
            let mut whole = Vec::new(alloc);
            whole.extend_from_slice(bytes.as_bytes())?;
            whole.push(0x79)?;
            whole.push(0)?;
            Ok(Term::Fill {
                bytes: Text::from_vec(alloc, whole)?,
                named,
            })
        }
        other => Ok(other),
    }
}

/// What a word of a field's list comes to: the place of the next byte, an access, or what units are connected to; and
/// for an attribute that has a length an access with it.
#[tactic(auto, using(term_plans::proofs::Terms::access_term), unfolding(term_plans::specs::Plans::plan_of))]
pub fn element_term(
    alloc: Global,
    word: FieldWord,
    args: &mut Vec<Node>,
) -> Result<Term, AllocError>
    ensures { IfOk result (λ term. plan_of term ≡ spec.element_plan word (plans_of args.old.items)) }
{
    match word {
        FieldWord::Offset => Ok(Term::Offset(number_at(args, 0))),
        FieldWord::AccessAs => Ok(access_term(args)),
        FieldWord::Connection => Ok(connected_to(alloc, first_term(args))?),
        FieldWord::AttribBytes => Ok(Term::Access {
            access: 0,
            attribute: ATTRIB_BYTES,
            length: Some((number_at(args, 0) % 256) as u8),
        }),
    }
}
