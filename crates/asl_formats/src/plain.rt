//! Whether a term is an expression with nothing but expressions in it.
ghost use Rattle.std.specs.Prelude.{◌≡◌, ◌&&◌, ◌||◌, not};
ghost use Rattle.term_plans.specs.Plans.{plan_of, plans_of};
ghost use Rattle.asl_formats.specs.Plain.{are_plain as plans_are_plain, is_package as op_is_package, is_plain as plan_is_plain};
ghost use Rattle.asl_prints.specs.Plans.{expresses};

use crate::stand::{form_expresses, is_expression};
use asl_tree::term::{Node, Op, Special, Term};

fn is_package(op: Op) -> bool
    ensures { result ≡ op_is_package op }
{
    matches!(op, Op::Special(Special::Package))
}

// Whether a form with these arguments and braces is one.
#[cycle(plain)]
#[tactic(auto, using(crate::proofs::PlainTerms::form_expressed))]
fn is_plain_form(op: Op, args: &[Node], body: &[Node]) -> bool
    ensures { result ≡ (expresses op (plans_of args.now) (plans_of body.now)
        && (plans_are_plain (plans_of args.now) && (not (op_is_package op) || plans_are_plain (plans_of body.now)))) }
{
    form_expresses(op, args, body) && are_plain(args) && (!is_package(op) || are_plain(body))
}

#[cycle(plain)]
fn are_plain(nodes: &[Node]) -> bool
    ensures { result ≡ plans_are_plain (plans_of nodes.now) }
{
    for node in nodes {
        if !is_plain(&node.term) {
            return false;
        }
    }
    true
}

/// Whether a term is an expression, or left out, and its arguments and the elements of Packages are such, too.
#[cycle(plain)]
#[tactic(auto, using(crate::proofs::PlainTerms::call_plain))]
pub(crate) fn is_plain(term: &Term) -> bool
    ensures { result ≡ plan_is_plain (plan_of term.now) }
{
    match term {
        Term::Call { path: _, args } => are_plain(args),
        Term::Form { op, args, body } => is_plain_form(*op, args, body),
        _ => is_expression(term),
    }
}
