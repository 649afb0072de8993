//! Terms in which the fields of descriptors are constants.
ghost use Rattle.std.specs.Prelude.{◌≡◌, ◌+◌, ◌++◌, ◌||◌, ℕ, List, false, suc, IfOk, OnOk};
ghost use Rattle.acpi_state.specs.Outcomes.{choose};
ghost use Rattle.asl_numbers.specs.Numbers.{inside, nodes as node_count};
ghost use Rattle.term_plans.specs.Plans.{a_name, a_word, plan_of, plans_of};
ghost use Rattle.asl_tree.specs.declared.path.Path.{Path};
ghost use Rattle.descriptor_fields.specs.Constants as spec;
ghost use Rattle.descriptor_fields.specs.Nodes.{SaysAt};
ghost use Rattle.descriptor_fields.specs.Shown.{among_as};
ghost use Rattle.descriptor_fields.specs.Values as values;

use crate::nodes::at_node;
use crate::values::{Among, is_in_bits, is_value_in};
use asl_tree::term::{Node, Term, Word};
use iasl_messages::message::Message;
use iasl_messages::number::FIELD_NOT_WHOLE_BYTES;
use iasl_messages::place::Place;
use iasl_ports::list::Text;
use std::alloc::{AllocError, Global};

// Where a node stands: whether it is counted in bits, and whether it is an expression.
#[derive(Clone, Copy)]
struct Standing {
    bits: bool,
    value: bool,
}

// How the node of a list with a number in it stands.
fn standing_in(bits: bool, among: Among, number: usize) -> Standing
    ensures bits { result.bits ≡ (bits || values.is_in_bits (among_as among) number) }
    ensures value { result.value ≡ values.is_value_in (among_as among) number }
{
    Standing {
        bits: bits || is_in_bits(among, number),
        value: is_value_in(among, number),
    }
}

// A field as a number of bits or of bytes.
fn counted(bits: bool, bit: u64) -> u64
    ensures { result ≡ spec.counted bits bit }
{
    if bits { bit } else { bit / 8 }
}

// The constant that a use is, where it is one; and what is told of a field in bytes that does not begin with one.
fn constant(
    alloc: Global,
    faults: &mut Vec<Message>,
    standing: Standing,
    place: Place,
    field: Option<u64>,
) -> Result<Option<Word>, AllocError>
    ensures made { IfOk result (λ made. (name : Path) →
        choose made (a_name name) a_word ≡ spec.resolved_use standing.bits standing.value name field) }
    ensures told { OnOk result (faults.new.items ≡ faults.old.items ++ spec.broken_use standing.bits standing.value place field) }
{
    match (standing.value, field) {
        (true, Some(bit)) => {
            let made = Some(Word::FieldPlace(counted(standing.bits, bit)));
            if standing.bits || bit % 8 == 0 {
                return Ok(made);
            }
            faults.push(Message {
                number: FIELD_NOT_WHOLE_BYTES,
                place,
                name: Text::new(alloc),
            })?;
            Ok(made)
        }
        _ => Ok(None),
    }
}

// The number behind another one. There is no memory for more nodes than 32 bits count.
fn after(number: u32) -> Result<u32, AllocError>
    ensures { IfOk result (λ n. n ≡ suc number) }
{
    match number.checked_add(1) {
        Some(next) => Ok(next),
        None => Err(AllocError),
    }
}

// A term at the node with a number, where it stands; and the number behind the last node inside.
#[cycle(resolve)]
fn resolve_term(
    alloc: Global,
    fields: &[Option<u64>],
    faults: &mut Vec<Message>,
    standing: Standing,
    node: u32,
    place: Place,
    term: &mut Term,
) -> Result<u32, AllocError>
    ensures next { IfOk result (λ next. next ≡ suc node + inside (plan_of term.old)) }
    ensures made { OnOk result ((said : List (ℕ × ℕ)) → SaysAt fields.now said →
        plan_of term.new ≡ spec.resolved said standing.bits standing.value node (plan_of term.old)) }
    ensures told { OnOk result ((said : List (ℕ × ℕ)) → SaysAt fields.now said →
        faults.new.items ≡ faults.old.items ++ spec.broken said standing.bits standing.value place node (plan_of term.old)) }
{
    let first = after(node)?;
    match term {
        Term::Name(_) => {
            let field = at_node(fields, node as usize);
            let made = constant(alloc, faults, standing, place, field)?;
            match made {
                Some(word) => *term = Term::Word(word),
                None => {}
            }
            Ok(first)
        }
        Term::Call { path: _, args } => {
            let bits = standing.bits;
            let next = resolve_nodes(alloc, fields, faults, Among::Call, bits, first, args)?;
            Ok(next)
        }
        Term::Form { op, args, body } => {
            let bits = standing.bits;
            let before = Among::Arguments(*op);
            let within = Among::Contents(*op);
            let next = resolve_nodes(alloc, fields, faults, before, bits, first, args)?;
            let next = resolve_nodes(alloc, fields, faults, within, bits, next, body)?;
            Ok(next)
        }
        _ => Ok(first),
    }
}

// The nodes of a list, each as it stands in it, the first of which has a number; and the number behind the last.
#[cycle(resolve)]
fn resolve_nodes(
    alloc: Global,
    fields: &[Option<u64>],
    faults: &mut Vec<Message>,
    among: Among,
    bits: bool,
    first: u32,
    nodes: &mut Vec<Node>,
) -> Result<u32, AllocError>
    ensures next { IfOk result (λ n. n ≡ first + node_count (plans_of nodes.old.items)) }
    ensures made { OnOk result ((said : List (ℕ × ℕ)) → SaysAt fields.now said →
        plans_of nodes.new.items ≡ spec.resolved_from said (among_as among) 0 bits first (plans_of nodes.old.items)) }
    ensures told { OnOk result ((said : List (ℕ × ℕ)) → SaysAt fields.now said →
        faults.new.items ≡ faults.old.items ++ spec.broken_from said (among_as among) 0 bits first (plans_of nodes.old.items)) }
{
    let mut next = first;
    for at in 0..nodes.len() {
        let standing = standing_in(bits, among, at);
        let node = &mut nodes[at];
        let place = node.place;
        next = resolve_term(alloc, fields, faults, standing, next, place, &mut node.term)?;
    }
    Ok(next)
}

/// The terms of a block, with those that declare its descriptors among them, where each expression that is a descriptor's
/// field is its place in the template, in bits where buffer fields are counted in bits and in bytes elsewhere (ACPI
/// Specification 6.4, 19.2.8); and what is told of those in bytes that begin in the midst of one. The fields are known by
/// the numbers of their nodes in preorder. The only error is want of memory, as which 2^32 nodes are answered.
pub fn resolve(
    alloc: Global,
    fields: &[Option<u64>],
    faults: &mut Vec<Message>,
    terms: Vec<Node>,
) -> Result<Vec<Node>, AllocError>
    ensures made { IfOk result (λ made. (said : List (ℕ × ℕ)) → SaysAt fields.now said →
        plans_of made.items ≡ spec.resolved_from said values.OfCall 0 false 0 (plans_of terms.items)) }
    ensures told { OnOk result ((said : List (ℕ × ℕ)) → SaysAt fields.now said →
        faults.new.items ≡ faults.old.items ++ spec.broken_from said values.OfCall 0 false 0 (plans_of terms.items)) }
{
    let mut made = terms;
    resolve_nodes(alloc, fields, faults, Among::Call, false, 0, &mut made)?;
    Ok(made)
}
