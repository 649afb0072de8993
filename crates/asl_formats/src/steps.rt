//! The terms of a For's body, with the step before each Continue that belongs to the For.
ghost use Rattle.std.specs.Prelude.{◌≡◌, ◌∷◌, [], ◌++◌, ◌||◌, not, true, false, if◌then◌else◌, IfOk};
ghost use Rattle.asl_tree.specs.View.{tree_of, trees_of};
ghost use Rattle.asl_tree.specs.Tree.{At};
ghost use Rattle.term_plans.specs.Plans.{join, plan_of, plans_of};
ghost use Rattle.asl_formats.specs.Bare.{shown, shown_term};
ghost use Rattle.asl_prints.specs.Forms.{followed, stepped, stepped_all};
ghost use Rattle.asl_prints.specs.Nodes.{goes_in as braces_go_in, node_tree};
ghost use Rattle.asl_formats.specs.Steps.{is_next as is_next_tree, steps_before};
ghost use Rattle.asl_prints.specs.Numbers.{numbers_in, numbers_of, own, step_before, stepped_in, stepped_nodes, Own, Step};
ghost use Rattle.asl_prints.specs.Plans.{stepped as stepped_plan, stepped_all as stepped_plans, steps_before as plans_before};
ghost use Rattle.asl_formats.specs.Plain.{MayRenew};
ghost use Rattle.asl_prints.specs.PlanParts.{placed};
ghost use Rattle.asl_formats.specs.StepNumbers.{Advances};

use crate::renew::append_renewed;
use asl_prints::copy::{copied, copied_all, copied_term};
use asl_prints::leave::is_continue;
use asl_prints::lists::{all, is_none};
use asl_tree::term::{Control, Node, Op, Term};
use std::alloc::{AllocError, Global};

/// How copies of a For's step are numbered.
#[derive(Clone, Copy)]
pub(crate) struct Copies {
    /// Whether all copies keep the numbers of the step's nodes.
    pub(crate) keep: bool,
    /// Whether the step stands already.
    pub(crate) again: bool,
    /// The next number.
    pub(crate) next: u32,
}

fn goes_in(op: Op) -> bool
    ensures { result ≡ braces_go_in op }
{
    matches!(
        op,
        Op::Control(
            Control::If
                | Control::ElseIf
                | Control::Else
                | Control::Switch
                | Control::Case
                | Control::Default
        )
    )
}

// Whether a term is a Continue.
#[tactic(auto, using(crate::proofs::SteppedTerms::next_is, crate::proofs::SteppedTerms::other_next))]
fn is_next(term: &Term) -> bool
    ensures { (at : At) → is_next_tree (tree_of at term.now) ≡ result }
{
    match term {
        Term::Form { op, args, body } => all(is_continue(*op), is_none(args), is_none(body)),
        _ => false,
    }
}

/// Copies of nodes behind others.
#[tactic(auto, using(crate::proofs::Stepping::appended_all, crate::proofs::PlanSteps::plans_appended))]
pub(crate) fn append(
    alloc: Global,
    front: Vec<Node>,
    nodes: &[Node],
) -> Result<Vec<Node>, AllocError>
    ensures trees { IfOk result (λ all. trees_of all.items ≡ followed (trees_of front.items) (trees_of nodes.now)) }
    ensures plans { IfOk result (λ all. plans_of all.items ≡ join (plans_of front.items) (plans_of nodes.now)) }
    ensures numbers { IfOk result (λ all. numbers_of all.items ≡ numbers_of front.items ++ numbers_of nodes.now) }
{
    let mut all = front;
    for node in nodes {
        all.push(copied(alloc, node)?)?;
    }
    Ok(all)
}

// Whether the next copy keeps the numbers of the step's nodes.
fn keeps(keep: bool, again: bool) -> bool
    ensures { result ≡ (keep || not again) }
{
    keep || !again
}

/// The steps behind other nodes.
pub(crate) fn put_steps(
    alloc: Global,
    front: Vec<Node>,
    steps: &[Node],
    copies: &mut Copies,
) -> Result<Vec<Node>, AllocError>
    ensures trees { MayRenew copies.old.keep (plans_of steps.now) → IfOk result
        (λ all. shown copies.old.keep (trees_of all.items) ≡
        shown copies.old.keep (followed (trees_of front.items) (trees_of steps.now))) }
    ensures plans { IfOk result (λ all. plans_of all.items ≡ join (plans_of front.items) (plans_of steps.now)) }
    ensures numbers { copies.old.keep ≡ false → IfOk result
        (λ all. Advances (numbers_of steps.now) copies.old copies.new (Step ∷ []) (numbers_of front.items) (numbers_of all.items)) }
    ensures keep { IfOk result (λ all. copies.new.keep ≡ copies.old.keep) }
{
    if keeps(copies.keep, copies.again) {
        copies.again = true;
        let all = append(alloc, front, steps)?;
        return Ok(all);
    }
    let mut next = copies.next;
    let all = append_renewed(alloc, front, steps, &mut next)?;
    copies.next = next;
    Ok(all)
}

// The steps behind other nodes, where a Continue follows.
#[tactic(auto, using(crate::proofs::Shown::before_rules))]
fn before(
    alloc: Global,
    front: Vec<Node>,
    node: &Node,
    steps: &[Node],
    copies: &mut Copies,
) -> Result<Vec<Node>, AllocError>
    ensures trees { MayRenew copies.old.keep (plans_of steps.now) → IfOk result
        (λ all. shown copies.old.keep (trees_of all.items) ≡
        shown copies.old.keep (followed (trees_of front.items) (steps_before (trees_of steps.now) (node_tree node.now)))) }
    ensures plans { IfOk result
        (λ all. plans_of all.items ≡ join (plans_of front.items) (plans_before (plans_of steps.now) (plan_of node.now.term))) }
    ensures numbers { copies.old.keep ≡ false → IfOk result
        (λ all. Advances (numbers_of steps.now) copies.old copies.new (step_before node.now.term) (numbers_of front.items)
        (numbers_of all.items)) }
    ensures keep { IfOk result (λ all. copies.new.keep ≡ copies.old.keep) }
{
    if is_next(&node.term) {
        let all = put_steps(alloc, front, steps, copies)?;
        return Ok(all);
    }
    Ok(front)
}

/// Copies of terms, in which each Continue has the steps before it.
#[cycle(steps)]
pub(crate) fn with_steps(
    alloc: Global,
    nodes: &[Node],
    steps: &[Node],
    copies: &mut Copies,
) -> Result<Vec<Node>, AllocError>
    ensures trees { MayRenew copies.old.keep (plans_of steps.now) → IfOk result
        (λ made. shown copies.old.keep (trees_of made.items) ≡
        shown copies.old.keep (stepped_all (trees_of steps.now) (trees_of nodes.now))) }
    ensures plans { IfOk result (λ made. plans_of made.items ≡ stepped_plans (plans_of steps.now) (plans_of nodes.now)) }
    ensures numbers { copies.old.keep ≡ false → IfOk result
        (λ made. Advances (numbers_of steps.now) copies.old copies.new (stepped_nodes nodes.now) [] (numbers_of made.items)) }
    ensures keep { IfOk result (λ made. copies.new.keep ≡ copies.old.keep) }
{
    let mut made = Vec::new(alloc);
    for node in nodes {
        made = before(alloc, made, node, steps, copies)?;
        made.push(with_step(alloc, node, steps, copies)?)?;
    }
    Ok(made)
}

#[cycle(steps)]
fn with_step(
    alloc: Global,
    node: &Node,
    steps: &[Node],
    copies: &mut Copies,
) -> Result<Node, AllocError>
    ensures tree { MayRenew copies.old.keep (plans_of steps.now) → IfOk result
        (λ made. shown_term copies.old.keep (node_tree made) ≡
        shown_term copies.old.keep (stepped (trees_of steps.now) (node_tree node.now))) }
    ensures plan { IfOk result (λ made. placed made ≡ (node.now.place, stepped_plan (plans_of steps.now) (plan_of node.now.term))) }
    ensures numbers { copies.old.keep ≡ false → IfOk result
        (λ made. Advances (numbers_of steps.now) copies.old copies.new (Own node.now.id ∷ stepped_in node.now.term) []
        (numbers_of (made ∷ []))) }
    ensures keep { IfOk result (λ made. copies.new.keep ≡ copies.old.keep) }
{
    let term = stepped_term(alloc, &node.term, steps, copies)?;
    Ok(Node {
        id: node.id,
        place: node.place,
        term,
    })
}

#[cycle(steps)]
fn stepped_term(
    alloc: Global,
    term: &Term,
    steps: &[Node],
    copies: &mut Copies,
) -> Result<Term, AllocError>
    ensures tree { MayRenew copies.old.keep (plans_of steps.now) → IfOk result
        (λ made. (at : At) → shown_term copies.old.keep (tree_of at made) ≡
        shown_term copies.old.keep (stepped (trees_of steps.now) (tree_of at term.now))) }
    ensures plan { IfOk result (λ made. plan_of made ≡ stepped_plan (plans_of steps.now) (plan_of term.now)) }
    ensures numbers { copies.old.keep ≡ false → IfOk result
        (λ made. Advances (numbers_of steps.now) copies.old copies.new (stepped_in term.now) [] (numbers_in made)) }
    ensures keep { IfOk result (λ made. copies.new.keep ≡ copies.old.keep) }
{
    match term {
        Term::Form { op, args, body } => {
            let args = copied_all(alloc, args)?;
            let body = stepped_braces(alloc, *op, body, steps, copies)?;
            Ok(Term::Form {
                op: *op,
                args,
                body,
            })
        }
        _ => {
            let copy = copied_term(alloc, term)?;
            Ok(copy)
        }
    }
}

// What stands in the braces of a form.
#[cycle(steps)]
fn stepped_braces(
    alloc: Global,
    op: Op,
    body: &[Node],
    steps: &[Node],
    copies: &mut Copies,
) -> Result<Vec<Node>, AllocError>
    ensures inside { MayRenew copies.old.keep (plans_of steps.now) → braces_go_in op ≡ true → IfOk result
        (λ made. shown copies.old.keep (trees_of made.items) ≡
        shown copies.old.keep (stepped_all (trees_of steps.now) (trees_of body.now))) }
    ensures outside { braces_go_in op ≡ false → IfOk result (λ made. trees_of made.items ≡ trees_of body.now) }
    ensures plans { IfOk result
        (λ made. plans_of made.items ≡ (if braces_go_in op then stepped_plans (plans_of steps.now) (plans_of body.now)
        else plans_of body.now)) }
    ensures numbers { copies.old.keep ≡ false → IfOk result
        (λ made. Advances (numbers_of steps.now) copies.old copies.new
        (if braces_go_in op then stepped_nodes body.now else own (numbers_of body.now)) [] (numbers_of made.items)) }
    ensures keep { IfOk result (λ made. copies.new.keep ≡ copies.old.keep) }
{
    if goes_in(op) {
        let made = with_steps(alloc, body, steps, copies)?;
        return Ok(made);
    }
    let made = copied_all(alloc, body)?;
    Ok(made)
}
