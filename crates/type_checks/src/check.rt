//! Arguments of a wrong kind.
ghost use Rattle.std.specs.Prelude.{◌≡◌, ◌+◌, ◌^◌, ◌<◌, ◌≤◌, ◌++◌, ℕ, suc, length, get_or, IfOk, IfErr, OnOk, false, true};
ghost use Rattle.asl_tree.specs.View.{trees_of};
ghost use Rattle.acpi_names.specs.Terms.{are_terms};
ghost use Rattle.term_plans.specs.Plans.{plan_of, plans_of};
ghost use Rattle.asl_numbers.specs.Numbers.{inside, nodes as node_count};
ghost use Rattle.name_kinds.specs.Known.{KnowsItsTerms};
ghost use Rattle.type_checks.specs.Kinds.{any_data as any_kinds, given, kinds_all, kinds_of, leaf_kinds as kinds_of_leaf};
ghost use Rattle.type_checks.specs.Kinds.{asks_data as no_more_asked, is_data as data_alone, wanted_of as wants_at};
ghost use Rattle.type_checks.specs.Names.{listed};
ghost use Rattle.type_checks.specs.Types as spec;

use crate::kind::{
    ValueKind, Wanted, any_data, asks_data, form_kinds, given_on, gives_data, is_place, name_kinds,
    takes_one, wanted_of,
};
use crate::names::all_named;
use asl_tree::term::{Node, Op, Term};
use iasl_messages::message::{Message, Messages};
use iasl_messages::number::WRONG_TYPE;
use iasl_messages::place::Place;
use iasl_ports::list::Text;
use name_entries::kind::ObjectType as Named;
use name_kinds::known::Known;
use std::alloc::{AllocError, Global};

// The sum of two numbers of nodes; there is no memory for more nodes than 32 bits count.
fn sum(first: u32, second: u32) -> Result<u32, AllocError>
    ensures sum { IfOk result (λ n. n ≡ first + second) }
    ensures full { IfErr result (λ _. 2 ^ 32 ≤ first + second) }
{
    match first.checked_add(second) {
        Some(sum) => Ok(sum),
        None => Err(AllocError),
    }
}

// The number behind another one.
fn after(number: u32) -> Result<u32, AllocError>
    ensures next { IfOk result (λ n. n ≡ suc number) }
    ensures full { IfErr result (λ _. 2 ^ 32 ≤ suc number) }
{
    match number.checked_add(1) {
        Some(next) => Ok(next),
        None => Err(AllocError),
    }
}

// How many nodes stand inside a term.
#[cycle(count)]
#[tactic(auto, using(crate::proofs::Terms::none_inside))]
fn count_inside(term: &Term) -> Result<u32, AllocError>
    ensures count { IfOk result (λ n. n ≡ inside (plan_of term.now)) }
    ensures full { IfErr result (λ _. 2 ^ 32 ≤ inside (plan_of term.now)) }
{
    match term {
        Term::Call { args, .. } => Ok(count(args)?),
        Term::Form { args, body, .. } => Ok(sum(count(args)?, count(body)?)?),
        _ => Ok(0),
    }
}

// How many nodes some nodes are, with those inside them.
#[cycle(count)]
fn count(nodes: &[Node]) -> Result<u32, AllocError>
    ensures count { IfOk result (λ n. n ≡ node_count (plans_of nodes.now)) }
    ensures full { IfErr result (λ _. 2 ^ 32 ≤ node_count (plans_of nodes.now)) }
{
    let mut next = 0;
    for node in nodes {
        next = sum(after(next)?, count_inside(&node.term)?)?;
    }
    Ok(next)
}

// What stands where the name at a node leads.
fn named(names: &[Named], node: u32) -> Named
    ensures { result ≡ listed names.now node }
{
    match names.get(node as usize) {
        Some(object) => *object,
        None => Named::Data,
    }
}

// The kinds of what has no arguments; a name leads to this.
#[tactic(auto, using(crate::proofs::Fitting::leaf_rules))]
fn leaf_kinds(in_place: bool, object: Named, term: &Term) -> &'static [ValueKind]
    ensures { result.now ≡ kinds_of_leaf in_place object (plan_of term.now) }
{
    match term {
        Term::Integer(_) => &[ValueKind::Integer],
        Term::Word(_) => &[ValueKind::Integer],
        Term::Text(_) => &[ValueKind::String],
        Term::Debug => &[ValueKind::Debug],
        Term::Name(_) => name_kinds(in_place, object),
        _ => any_data(),
    }
}

// Whether the expression at a node has a kind that is wanted.
#[cycle(fitting)]
#[inline(always)]
fn fits(
    names: &[Named],
    wants: Wanted,
    in_place: bool,
    node: u32,
    term: &Term,
) -> Result<bool, AllocError>
    ensures fits { IfOk result (λ b. b ≡ spec.fits wants (kinds_of (listed names.now) in_place node (plan_of term.now))) }
    ensures full { IfErr result (λ _. 2 ^ 32 ≤ suc node + inside (plan_of term.now)) }
{
    match term {
        Term::Form { op, args, .. } => Ok(form_fits(names, wants, after(node)?, *op, args)?),
        _ => {
            let kinds = leaf_kinds(in_place, named(names, node), term);
            Ok(takes_one(wants, kinds))
        }
    }
}

// Whether a form gives a kind that is wanted; its first argument stands at a node.
#[cycle(fitting)]
#[inline(never)]
fn form_fits(
    names: &[Named],
    wants: Wanted,
    first: u32,
    op: Op,
    args: &[Node],
) -> Result<bool, AllocError>
    ensures fits { IfOk result (λ b. b ≡ spec.fits wants (given op (kinds_all (listed names.now) first (plans_of args.now)))) }
    ensures full { IfErr result (λ _. 2 ^ 32 ≤ first + node_count (plans_of args.now)) }
{
    match given_on(op) {
        None => Ok(takes_one(wants, form_kinds(op))),
        Some(place) => Ok(argument_fits(names, wants, first, args, place)?),
    }
}

// Whether one of some values has a kind that is wanted; the first of them stands at a node.
#[cycle(fitting)]
#[tactic(auto, using(crate::proofs::Fitting::kinds_past))]
fn argument_fits(
    names: &[Named],
    wants: Wanted,
    first: u32,
    args: &[Node],
    place: usize,
) -> Result<bool, AllocError>
    ensures fits { IfOk result
        (λ b. b ≡ spec.fits wants (get_or (kinds_all (listed names.now) first (plans_of args.now)) place any_kinds)) }
    ensures full { IfErr result (λ _. 2 ^ 32 ≤ first + node_count (plans_of args.now)) }
{
    if place >= args.len() {
        return Ok(takes_one(wants, any_data()));
    }
    let node = sum(first, count(&args[..place])?)?;
    Ok(fits(names, wants, false, node, &args[place].term)?)
}

// A message at an argument.
#[inline(never)]
fn tell(alloc: Global, out: &mut Messages, place: Place) -> Result<(), AllocError>
    ensures { OnOk result (out.new ≡ out.old ++ spec.unless false place) }
{
    out.push(Message {
        number: WRONG_TYPE,
        place,
        name: Text::new(alloc),
    })?;
    Ok(())
}

// A message at an argument, unless it fits.
fn tell_unless(
    alloc: Global,
    out: &mut Messages,
    fits: bool,
    place: Place,
) -> Result<(), AllocError>
    ensures { OnOk result (out.new ≡ out.old ++ spec.unless fits place) }
{
    if fits {
        return Ok(());
    }
    tell(alloc, out, place)?;
    Ok(())
}

// The error of one argument, whose node has this number.
fn argument_errors(
    alloc: Global,
    out: &mut Messages,
    names: &[Named],
    wants: Wanted,
    number: u32,
    node: &Node,
) -> Result<(), AllocError>
    ensures { OnOk result
        (out.new ≡ out.old ++ spec.argument_errors (listed names.now) wants number node.now.place (plan_of node.now.term)) }
{
    match wants {
        // (each expression has some kind)
        Wanted::Anything => Ok(()),
        _ => {
            let fit = fits(names, wants, is_place(wants), number, &node.term)?;
            tell_unless(alloc, out, fit, node.place)?;
            Ok(())
        }
    }
}

// Whether an expression is data by what it is alone.
#[tactic(auto, using(crate::proofs::Enough::data_rules))]
fn is_data(term: &Term) -> bool
    ensures { result ≡ data_alone (plan_of term.now) }
{
    match term {
        Term::Form { op, .. } => gives_data(*op),
        Term::Name(_) => false,
        Term::Debug => false,
        _ => true,
    }
}

// The error of the argument at a place, whose node has this number. What is data by what it is alone is right wherever no more than
// that is asked for.
#[inline(always)]
fn place_errors(
    alloc: Global,
    out: &mut Messages,
    names: &[Named],
    asker: Option<Op>,
    enough: bool,
    at: usize,
    number: u32,
    node: &Node,
) -> Result<(), AllocError>
    requires { enough ≡ no_more_asked asker }
    ensures { OnOk result
        (out.new ≡ out.old
        ++ spec.argument_errors (listed names.now) (wants_at asker at) number node.now.place (plan_of node.now.term)) }
{
    match asker {
        None => Ok(()),
        _ => {
            if enough && is_data(&node.term) {
                return Ok(());
            }
            argument_errors(alloc, out, names, wanted_of(asker, at), number, node)?;
            Ok(())
        }
    }
}

// The errors inside a term, whose first node inside has this number; and the number behind the last.
#[cycle(walk)]
#[inline(always)]
fn errors_inside(
    alloc: Global,
    out: &mut Messages,
    names: &[Named],
    first: u32,
    term: &Term,
) -> Result<u32, AllocError>
    ensures next { IfOk result (λ n. n ≡ first + inside (plan_of term.now)) }
    ensures told { OnOk result (out.new ≡ out.old ++ spec.errors_inside (listed names.now) first (plan_of term.now)) }
{
    match term {
        Term::Call { args, .. } => {
            let next = errors_of(alloc, out, names, None, first, args)?;
            Ok(next)
        }
        Term::Form { op, args, body } => {
            let next = errors_of(alloc, out, names, Some(*op), first, args)?;
            if body.is_empty() {
                return Ok(next);
            }
            let next = errors_of(alloc, out, names, None, next, body)?;
            Ok(next)
        }
        _ => Ok(first),
    }
}

// The errors of the arguments of a form, the first of which has this number; and the number behind the last node.
#[cycle(walk)]
fn errors_of(
    alloc: Global,
    out: &mut Messages,
    names: &[Named],
    asker: Option<Op>,
    first: u32,
    nodes: &[Node],
) -> Result<u32, AllocError>
    ensures next { IfOk result (λ n. n ≡ first + node_count (plans_of nodes.now)) }
    ensures told { OnOk result (out.new ≡ out.old ++ spec.errors_of (listed names.now) asker 0 first (plans_of nodes.now)) }
{
    let enough = asks_data(asker);
    let mut next = first;
    for at in 0..nodes.len() {
        let node = &nodes[at];
        place_errors(alloc, out, names, asker, enough, at, next, node)?;
        next = errors_inside(alloc, out, names, after(next)?, &node.term)?;
    }
    Ok(next)
}

/// The arguments of a block, of whose names this is known, that are of a wrong kind (ACPI Specification 6.4, 19.2 and
/// 19.6), in the order of the source: 6050 at each argument that can have none of the kinds that its form takes. A name
/// has the kinds of what it leads to, by the number of its node in preorder. The only error is want of memory, as which
/// a block of 2^32 nodes or more, or of more than 2^32 paths, is answered.
pub fn wrong_types(alloc: Global, known: &Known<'_>) -> Result<Messages, AllocError>
    requires terms { are_terms (trees_of known.now.terms.now) ≡ true }
    requires known { KnowsItsTerms known.now }
    ensures { IfOk result (λ ms. ms ≡ spec.wrong_types (trees_of known.now.terms.now) (plans_of known.now.terms.now)) }
{
    let all = all_named(alloc, known)?;
    let mut out = Messages::new(alloc);
    errors_of(alloc, &mut out, &all, None, 0, known.terms)?;
    Ok(out)
}
