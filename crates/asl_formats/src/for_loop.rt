//! What stands for a For: its start, and a While whose body ends with the step.
ghost use Rattle.std.specs.Prelude.{◌≡◌, ◌∷◌, [], ◌++◌, ◌||◌, not, true, false, IfOk};
ghost use Rattle.asl_tree.specs.Tree.{While, no_trees, tree};
ghost use Rattle.asl_tree.specs.View.{trees_of};
ghost use Rattle.term_plans.specs.Plans.{a_form, join, no_plans, plan, plan_of, plans_of};
ghost use Rattle.asl_formats.specs.Bare.{bare_all, shown};
ghost use Rattle.asl_prints.specs.Forms.{followed, optional as optional_trees, spread, stepped_all};
ghost use Rattle.asl_formats.specs.Steps.{for_parts, IsLoop};
ghost use Rattle.asl_prints.specs.Nodes.{node_tree, DoTheSame};
ghost use Rattle.asl_prints.specs.Plans.{optional as optional_plans, spread as spread_plans, stepped_all as stepped_plans};
ghost use Rattle.asl_formats.specs.Plain.{has_plain_step, is_plain as plan_is_plain, is_third_plain, MayRenew};
ghost use Rattle.asl_formats.specs.PlanPass.{for_plans};
ghost use Rattle.asl_prints.specs.PlanParts.{placed};
ghost use Rattle.asl_prints.specs.Numbers.{for_numbers, form_numbers, numbered, numbers_of, optional_numbers, stepped_nodes, Step};
ghost use Rattle.asl_formats.specs.StepNumbers.{Advances};
ghost use Rattle.asl_tree.specs.declared.term.Op.{Op as O};
ghost use Rattle.asl_tree.specs.declared.term.Control.TheVariants as C;

use crate::plain::is_plain;
use crate::steps::{Copies, put_steps, with_steps};
use asl_prints::copy::copied;
use asl_tree::term::{Control, Node, Op, Term};
use iasl_messages::place::Place;
use std::alloc::{AllocError, Global};

// A copy of a term, or nothing where it is left out.
#[tactic(auto, using(crate::proofs::StepNumbers::optional_rules))]
fn optional(alloc: Global, node: &Node) -> Result<Vec<Node>, AllocError>
    ensures trees { IfOk result (λ nodes. trees_of nodes.items ≡ optional_trees (node_tree node.now)) }
    ensures plans { IfOk result (λ nodes. plans_of nodes.items ≡ optional_plans node.now.place (plan_of node.now.term)) }
    ensures numbers { IfOk result (λ nodes. numbers_of nodes.items ≡ optional_numbers node.now.id node.now.term) }
{
    let mut nodes = Vec::new(alloc);
    match &node.term {
        Term::Omitted => Ok(nodes),
        _ => {
            nodes.push(copied(alloc, node)?)?;
            Ok(nodes)
        }
    }
}

// A While with a copy of a test.
#[tactic(auto, using(crate::proofs::Fors::while_made))]
fn turns(
    alloc: Global,
    id: u32,
    place: Place,
    test: &Node,
    body: Vec<Node>,
) -> Result<Node, AllocError>
    ensures tree { IfOk result (λ made. node_tree made ≡ While (node_tree test.now) (trees_of body.items)) }
    ensures plan { IfOk result
        (λ made. placed made ≡ (
          place,
          a_form (O.Control C.While) (plan test.now.place (plan_of test.now.term) no_plans)
              (plans_of body.items),
        )) }
    ensures numbers { IfOk result (λ made. numbers_of (made ∷ []) ≡ id ∷ (numbers_of (test.now ∷ []) ++ numbers_of body.items)) }
{
    let mut args = Vec::with_capacity(alloc, 1)?;
    args.push(copied(alloc, test)?)?;
    Ok(Node {
        id,
        place,
        term: Term::Form {
            op: Op::Control(Control::While),
            args,
            body,
        },
    })
}

// The body of the While.
fn turn(
    alloc: Global,
    body: &[Node],
    steps: &[Node],
    copies: &mut Copies,
) -> Result<Vec<Node>, AllocError>
    ensures trees { MayRenew copies.old.keep (plans_of steps.now) → IfOk result
        (λ made. shown copies.old.keep (trees_of made.items) ≡
        shown copies.old.keep (followed (stepped_all (trees_of steps.now) (trees_of body.now)) (trees_of steps.now))) }
    ensures plans { IfOk result (λ made. plans_of made.items ≡ join (stepped_plans (plans_of steps.now) (plans_of body.now))
        (plans_of steps.now)) }
    ensures numbers { copies.old.keep ≡ false → IfOk result
        (λ made. Advances (numbers_of steps.now) copies.old copies.new (stepped_nodes body.now ++ Step ∷ []) [] (numbers_of made.items)) }
{
    let front = with_steps(alloc, body, steps, copies)?;
    let made = put_steps(alloc, front, steps, copies)?;
    Ok(made)
}

// Whether all copies of a step keep the numbers of its nodes: those do of a step that is no expression with nothing but expressions in it.
fn keeps(keep: bool, step: &Node) -> bool
    ensures { result ≡ (keep || not (plan_is_plain (plan_of step.now.term))) }
{
    keep || !is_plain(&step.term)
}

// What stands for the parts of a For: the While has this number, and what is made behind it the next ones.
#[tactic(auto, using(crate::proofs::StepNumbers::parts_rules))]
fn parts(
    alloc: Global,
    keep: bool,
    id: u32,
    place: Place,
    args: &[Node],
    body: &[Node],
) -> Result<Vec<Node>, AllocError>
    ensures trees { IfOk result
        (λ made. shown keep (trees_of made.items) ≡ shown keep (for_parts (trees_of args.now) (trees_of body.now))) }
    ensures plans { IfOk result (λ made. plans_of made.items ≡ for_plans place (plans_of args.now) (plans_of body.now)) }
    ensures numbers { keep ≡ false → is_third_plain (plans_of args.now) ≡ true → IfOk result
        (λ made. numbers_of made.items ≡ numbered id (for_numbers args.now body.now)) }
{
    match args {
        [start, test, step] => {
            let steps = optional(alloc, step)?;
            let all = keeps(keep, step);
            let mut copies = Copies {
                keep: all,
                again: false,
                next: id.wrapping_add(1),
            };
            let body = turn(alloc, body, steps.as_slice(), &mut copies)?;
            let mut made = optional(alloc, start)?;
            made.push(turns(alloc, id, place, test, body)?)?;
            Ok(made)
        }
        _ => Ok(Vec::new(alloc)),
    }
}

#[tactic(auto, using(crate::proofs::PlanFors::no_loop, crate::proofs::Shown::no_loop_shown, crate::proofs::StepNumbers::no_loop_numbers))]
fn stands(alloc: Global, node: &Node, keep: bool, id: u32) -> Result<Vec<Node>, AllocError>
    requires { IsLoop node.now.term }
    ensures trees { IfOk result (λ made. shown keep (trees_of made.items) ≡ shown keep (spread (node_tree node.now) no_trees)) }
    ensures plans { IfOk result (λ made. plans_of made.items ≡ spread_plans node.now.place (plan_of node.now.term) no_plans) }
    ensures numbers { keep ≡ false → has_plain_step (plan_of node.now.term) ≡ true → IfOk result
        (λ made. numbers_of made.items ≡ numbered id (form_numbers node.now.term)) }
{
    match &node.term {
        Term::Form { op: _, args, body } => {
            let made = parts(alloc, keep, id, node.place, args, body)?;
            Ok(made)
        }
        _ => Ok(Vec::new(alloc)),
    }
}

/// What stands for a For (ACPI Specification 6.4, 19.6.51): its start, where it has one, and then a While with its
/// test, whose body ends with its step. The step stands before each Continue of the For, too. The While has the next
/// number, and so have the nodes of each copy of the step behind the first, in the order in which they are written; all
/// other nodes keep theirs. A step in which anything stands that is no expression is copied with its numbers; the shape
/// refuses such a step in a source, but no law says so.
pub fn for_form(alloc: Global, node: &Node, next_id: u32) -> Result<Vec<Node>, AllocError>
    requires { IsLoop node.now.term }
    ensures trees { IfOk result (λ made. bare_all (trees_of made.items) ≡ bare_all (spread (node_tree node.now) no_trees)) }
    ensures plans { IfOk result (λ made. plans_of made.items ≡ spread_plans node.now.place (plan_of node.now.term) no_plans) }
    ensures numbers { has_plain_step (plan_of node.now.term) ≡ true → IfOk result
        (λ made. numbers_of made.items ≡ numbered next_id (form_numbers node.now.term)) }
    ensures same { IfOk result (λ made. DoTheSame (tree (node_tree node.now) no_trees) (trees_of made.items)) }
{
    let made = stands(alloc, node, false, next_id)?;
    Ok(made)
}

/// The same, where each copy of the step keeps the numbers of its nodes.
pub(crate) fn loop_form(alloc: Global, node: &Node, id: u32) -> Result<Vec<Node>, AllocError>
    requires { IsLoop node.now.term }
    ensures trees { IfOk result (λ made. trees_of made.items ≡ spread (node_tree node.now) no_trees) }
    ensures plans { IfOk result (λ made. plans_of made.items ≡ spread_plans node.now.place (plan_of node.now.term) no_plans) }
{
    let made = stands(alloc, node, true, id)?;
    Ok(made)
}
