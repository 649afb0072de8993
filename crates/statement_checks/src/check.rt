//! Loops and Switches that are left, and arguments of methods, checked.
ghost use Rattle.std.specs.Prelude.{◌≡◌, ◌%◌, ◌++◌, true, false, IfOk, OnOk};
ghost use Rattle.iasl_messages.specs.declared.place.Place.{Place as PlaceOfNode};
ghost use Rattle.term_plans.specs.Plans.{Plans, a_form, plan_at, plan_of, plans_of, number_of};
ghost use Rattle.statement_checks.specs.declared.check.Around.{Around as AroundTerm};
ghost use Rattle.statement_checks.specs.Statements as spec;

use asl_tree::term::{Control, Declaration, Node, Op, Term};
use iasl_messages::message::{Message, Messages};
use iasl_messages::number;
use iasl_messages::place::Place;
use iasl_ports::list::Text;
use std::alloc::{AllocError, Global};

/// What a term stands in: how many arguments its method has, none outside of methods, whether a loop and whether a
/// Switch of the same method or block is around it, whether the innermost of these loops is a For, and whether a Device, a Scope or
/// another container stands between.
#[derive(Clone, Copy)]
pub struct Around {
    pub arguments: u64,
    pub in_loop: bool,
    pub in_switch: bool,
    pub in_for: bool,
    pub far: bool,
}

#[tactic(auto, using(term_plans::proofs::Terms::integer_term, crate::proofs::Terms::no_number))]
fn number_in(term: &Term) -> u64
    ensures { result ≡ number_of (plan_of term.now) }
{
    match term {
        Term::Integer(number) => *number,
        _ => 0,
    }
}

// How many arguments a method takes: the low three bits of its flags, which stand behind its name.
#[tactic(auto, using(term_plans::proofs::Lists::at_rules))]
fn argument_count(args: &[Node]) -> u64
    ensures { result ≡ number_of (plan_at (plans_of args.now) 1) % 8 }
{
    match args.get(1) {
        Some(node) => number_in(&node.term) % 8,
        None => 0,
    }
}

// What the body of a form stands in.
fn around_body(op: Op, args: &[Node], around: Around) -> Around
    ensures { result ≡ spec.around_body op (plans_of args.now) around }
{
    match op {
        Op::Declaration(Declaration::Method) => Around {
            arguments: argument_count(args),
            in_loop: false,
            in_switch: false,
            in_for: false,
            far: false,
        },
        Op::Declaration(
            Declaration::Scope
            | Declaration::Device
            | Declaration::ThermalZone
            | Declaration::PowerResource
            | Declaration::Processor,
        ) => Around {
            far: around.in_for,
            ..around
        },
        Op::Control(Control::While) => Around {
            in_loop: true,
            in_for: false,
            far: false,
            ..around
        },
        Op::Control(Control::For) => Around {
            in_loop: true,
            in_for: true,
            far: false,
            ..around
        },
        Op::Control(Control::Switch) => Around {
            in_switch: true,
            ..around
        },
        _ => around,
    }
}

// Whether a form leaves a loop or a Switch where none is around, or begins the next turn of a loop where no loop is.
fn misses_loop(op: Op, around: Around) -> bool
    ensures { result ≡ spec.misses_loop op around }
{
    match op {
        Op::Control(Control::Break) => !(around.in_loop || around.in_switch),
        Op::Control(Control::Continue) => !around.in_loop || around.far,
        _ => false,
    }
}

// A message without a name.
#[inline(never)]
fn tell(alloc: Global, out: &mut Messages, number: u16, place: Place) -> Result<(), AllocError>
    ensures { OnOk result (out.new ≡ out.old ++ spec.told true number place) }
{
    out.push(Message {
        number,
        place,
        name: Text::new(alloc),
    })?;
    Ok(())
}

// A message without a name, where something is wrong.
fn tell_if(
    alloc: Global,
    out: &mut Messages,
    wrong: bool,
    number: u16,
    place: Place,
) -> Result<(), AllocError>
    ensures { OnOk result (out.new ≡ out.old ++ spec.told wrong number place) }
{
    if !wrong {
        return Ok(());
    }
    tell(alloc, out, number, place)?;
    Ok(())
}

// Whether a form is a declaration or a statement: the terms of any other form stand in what the form itself stands in.
fn is_statement(op: Op) -> bool
    ensures { result ≡ false → (place : PlaceOfNode) (args body : Plans) (around : AroundTerm) →
        spec.term_errors around place (a_form op args body) ≡ spec.statement_errors around args ++ spec.statement_errors around body }
{
    matches!(op, Op::Declaration(_) | Op::Control(_))
}

// The errors of a declaration or a statement: its own, then those of its arguments, then those of its body.
#[cycle(walk)]
#[inline(never)]
fn form_errors(
    alloc: Global,
    out: &mut Messages,
    place: Place,
    op: Op,
    args: &[Node],
    body: &[Node],
    around: &Around,
) -> Result<(), AllocError>
    ensures { OnOk result (out.new ≡ out.old ++ spec.term_errors around.now place (a_form op (plans_of args.now) (plans_of body.now))) }
{
    tell_if(alloc, out, misses_loop(op, *around), number::NO_LOOP, place)?;
    all_errors(alloc, out, args, around)?;
    if body.is_empty() {
        return Ok(());
    }
    let inner = around_body(op, args, *around);
    all_errors(alloc, out, body, &inner)?;
    Ok(())
}

// The errors of a form.
#[cycle(walk)]
#[inline(always)]
fn errors_in_form(
    alloc: Global,
    out: &mut Messages,
    node: &Node,
    op: Op,
    args: &[Node],
    body: &[Node],
    around: &Around,
) -> Result<(), AllocError>
    ensures { OnOk result (out.new ≡ out.old
        ++ spec.term_errors around.now node.now.place (a_form op (plans_of args.now) (plans_of body.now))) }
{
    if is_statement(op) {
        form_errors(alloc, out, node.place, op, args, body, around)?;
        return Ok(());
    }
    all_errors(alloc, out, args, around)?;
    if body.is_empty() {
        return Ok(());
    }
    all_errors(alloc, out, body, around)?;
    Ok(())
}

// The errors of a term: its own, then those of its arguments, then those of its body.
#[cycle(walk)]
#[inline(always)]
fn term_errors(
    alloc: Global,
    out: &mut Messages,
    node: &Node,
    around: &Around,
) -> Result<(), AllocError>
    ensures { OnOk result (out.new ≡ out.old ++ spec.term_errors around.now node.now.place (plan_of node.now.term)) }
{
    match &node.term {
        Term::Arg(index) => {
            let wrong = u64::from(*index) >= around.arguments;
            tell_if(alloc, out, wrong, number::ARGUMENT_ABOVE_COUNT, node.place)?;
            Ok(())
        }
        Term::Call { args, .. } => {
            all_errors(alloc, out, args, around)?;
            Ok(())
        }
        Term::Form { op, args, body } => {
            errors_in_form(alloc, out, node, *op, args, body, around)?;
            Ok(())
        }
        _ => Ok(()),
    }
}

// The errors of terms one after another.
#[cycle(walk)]
fn all_errors(
    alloc: Global,
    out: &mut Messages,
    nodes: &[Node],
    around: &Around,
) -> Result<(), AllocError>
    ensures { OnOk result (out.new ≡ out.old ++ spec.statement_errors around.now (plans_of nodes.now)) }
{
    for node in nodes {
        term_errors(alloc, out, node, around)?;
    }
    Ok(())
}

/// The errors of the statements of a block, in the order of the source: 6052 at each Break that stands in no While and no
/// Switch of its own method or block, and at each Continue that stands in no loop of it, or in a For where a Device, a Scope or another
/// container stands between (ACPI Specification 6.4, 19.6.8 and 19.6.16), and 6055 at each ArgN whose number is that of
/// the method's arguments or more, or that stands in no method (19.2.5).
pub fn statement_errors(alloc: Global, terms: &[Node]) -> Result<Messages, AllocError>
    ensures { IfOk result (λ ms. ms ≡ spec.errors_of_statements (plans_of terms.now)) }
{
    let mut out = Messages::new(alloc);
    let outside = Around {
        arguments: 0,
        in_loop: false,
        in_switch: false,
        in_for: false,
        far: false,
    };
    all_errors(alloc, &mut out, terms, &outside)?;
    Ok(out)
}
