//! A program with what stands for each Printf, Fprintf and For.
ghost use Rattle.std.specs.Prelude.{◌≡◌, IfOk, OnOk};
ghost use Rattle.asl_tree.specs.Tree.{At};
ghost use Rattle.asl_tree.specs.View.{tree_of, trees_of};
ghost use Rattle.term_plans.specs.Plans.{join, plan_of, plans_of};
ghost use Rattle.asl_prints.specs.Forms.{followed, formed, formed_all, formed_args, spread};
ghost use Rattle.asl_prints.specs.Nodes.{node_tree};
ghost use Rattle.asl_formats.specs.Pass.{backwards, formed_body as body_formed, spread_all};
ghost use Rattle.asl_prints.specs.Plans.{formed_plan, formed_plans, spread as spread_plans};
ghost use Rattle.asl_prints.specs.Plans.{formed_args as args_plans, formed_body as body_plans};
ghost use Rattle.asl_formats.specs.PlanPass.{backward_plans, spread_all as all_plans};
ghost use Rattle.asl_prints.specs.PlanParts.{placed};
ghost use Rattle.asl_formats.specs.Stands.{stand_of as tree_stand};
ghost use Rattle.asl_formats.specs.declared.stand.Stand.TheVariants as S;

use crate::for_loop::loop_form;
use crate::renew::take_id;
use crate::stand::{Stand, stand_of};
use asl_prints::print::{Numbered, stands as print_stands};
use asl_tree::term::{Control, Declaration, Node, Op, Special, Term};
use std::alloc::{AllocError, Global};

// Moves terms behind others that stand backwards.
fn put_all(made: &mut Vec<Node>, terms: Vec<Node>) -> Result<(), AllocError>
    ensures trees { OnOk result (backwards made.new.items ≡ followed (trees_of terms.items) (backwards made.old.items)) }
    ensures plans { OnOk result (backward_plans made.new.items ≡ join (plans_of terms.items) (backward_plans made.old.items)) }
{
    let mut left = terms;
    while let Some(term) = left.pop() {
        made.push(term)?;
    }
    Ok(())
}

fn put_loop(
    alloc: Global,
    made: &mut Vec<Node>,
    node: &Node,
    next: &mut u32,
) -> Result<(), AllocError>
    requires { tree_stand (node_tree node.now) ≡ S.Loop }
    ensures trees { OnOk result (backwards made.new.items ≡ spread (node_tree node.now) (backwards made.old.items)) }
    ensures plans { OnOk result
        (backward_plans made.new.items ≡ spread_plans node.now.place (plan_of node.now.term) (backward_plans made.old.items)) }
{
    let terms = loop_form(alloc, node, take_id(next))?;
    put_all(made, terms)?;
    Ok(())
}

fn put_text(
    alloc: Global,
    made: &mut Vec<Node>,
    node: &Node,
    next: &mut u32,
) -> Result<(), AllocError>
    requires { tree_stand (node_tree node.now) ≡ S.Text }
    ensures trees { OnOk result (backwards made.new.items ≡ spread (node_tree node.now) (backwards made.old.items)) }
    ensures plans { OnOk result
        (backward_plans made.new.items ≡ spread_plans node.now.place (plan_of node.now.term) (backward_plans made.old.items)) }
{
    let printed = print_stands(alloc, node, *next)?;
    let Numbered {
        node: term,
        next: behind,
    } = printed;
    *next = behind;
    made.push(term)?;
    Ok(())
}

// What stands for a term, before others that stand backwards.
#[tactic(auto, using(crate::proofs::Programs::stands_so, crate::proofs::Programs::itself_put, crate::proofs::PlanPrograms::itself_put))]
fn put(alloc: Global, made: &mut Vec<Node>, node: Node, next: &mut u32) -> Result<(), AllocError>
    ensures trees { OnOk result (backwards made.new.items ≡ spread (node_tree node) (backwards made.old.items)) }
    ensures plans { OnOk result
        (backward_plans made.new.items ≡ spread_plans node.place (plan_of node.term) (backward_plans made.old.items)) }
{
    match stand_of(alloc, &node.term)? {
        Stand::Loop => {
            put_loop(alloc, made, &node, next)?;
            Ok(())
        }
        Stand::Text => {
            put_text(alloc, made, &node, next)?;
            Ok(())
        }
        Stand::Itself => {
            made.push(node)?;
            Ok(())
        }
    }
}

// Terms one after another, each with what stands for it.
fn spread_out(alloc: Global, terms: Vec<Node>, next: &mut u32) -> Result<Vec<Node>, AllocError>
    ensures trees { IfOk result (λ made. trees_of made.items ≡ spread_all (trees_of terms.items)) }
    ensures plans { IfOk result (λ made. plans_of made.items ≡ all_plans (plans_of terms.items)) }
{
    let mut left = terms;
    let mut made = Vec::new(alloc);
    while let Some(node) = left.pop() {
        put(alloc, &mut made, node, next)?;
    }
    made.reverse();
    Ok(made)
}

#[cycle(forms)]
fn form_all(alloc: Global, terms: Vec<Node>, next: &mut u32) -> Result<Vec<Node>, AllocError>
    ensures trees { IfOk result (λ made. trees_of made.items ≡ formed_all (trees_of terms.items)) }
    ensures plans { IfOk result (λ made. plans_of made.items ≡ formed_plans (plans_of terms.items)) }
{
    let each = form_each(alloc, terms, next)?;
    let made = spread_out(alloc, each, next)?;
    Ok(made)
}

// Terms each by itself.
#[cycle(forms)]
fn form_each(alloc: Global, nodes: Vec<Node>, next: &mut u32) -> Result<Vec<Node>, AllocError>
    ensures trees { IfOk result (λ made. trees_of made.items ≡ formed_args (trees_of nodes.items)) }
    ensures plans { IfOk result (λ made. plans_of made.items ≡ args_plans (plans_of nodes.items)) }
{
    let mut left = nodes;
    let mut made = Vec::new(alloc);
    while let Some(node) = left.pop() {
        made.push(form_node(alloc, node, next)?)?;
    }
    made.reverse();
    Ok(made)
}

#[cycle(forms)]
fn form_node(alloc: Global, node: Node, next: &mut u32) -> Result<Node, AllocError>
    ensures tree { IfOk result (λ made. node_tree made ≡ formed (node_tree node)) }
    ensures plan { IfOk result (λ made. placed made ≡ (node.place, formed_plan (plan_of node.term))) }
{
    let Node { id, place, term } = node;
    let term = form_term(alloc, term, next)?;
    Ok(Node { id, place, term })
}

#[cycle(forms)]
fn form_term(alloc: Global, term: Term, next: &mut u32) -> Result<Term, AllocError>
    ensures tree { IfOk result (λ made. (at : At) → tree_of at made ≡ formed (tree_of at term)) }
    ensures plan { IfOk result (λ made. plan_of made ≡ formed_plan (plan_of term)) }
{
    match term {
        Term::Call { path, args } => {
            let args = form_each(alloc, args, next)?;
            Ok(Term::Call { path, args })
        }
        Term::Form { op, args, body } => {
            let args = form_each(alloc, args, next)?;
            let body = form_body(alloc, op, body, next)?;
            Ok(Term::Form { op, args, body })
        }
        other => Ok(other),
    }
}

// What stands in the braces of a form.
#[cycle(forms)]
fn form_body(
    alloc: Global,
    op: Op,
    body: Vec<Node>,
    next: &mut u32,
) -> Result<Vec<Node>, AllocError>
    ensures trees { IfOk result (λ made. trees_of made.items ≡ body_formed op (trees_of body.items)) }
    ensures plans { IfOk result (λ made. plans_of made.items ≡ body_plans op (args_plans (plans_of body.items))
        (formed_plans (plans_of body.items)) (plans_of body.items)) }
{
    match op {
        Op::Special(Special::Package) => {
            let elements = form_each(alloc, body, next)?;
            Ok(elements)
        }
        Op::Declaration(
            Declaration::Method
            | Declaration::Device
            | Declaration::ThermalZone
            | Declaration::PowerResource
            | Declaration::Processor
            | Declaration::Scope,
        )
        | Op::Control(
            Control::If
            | Control::ElseIf
            | Control::Else
            | Control::While
            | Control::For
            | Control::Switch
            | Control::Case
            | Control::Default,
        ) => {
            let terms = form_all(alloc, body, next)?;
            Ok(terms)
        }
        _ => Ok(body),
    }
}

/// The program with what stands for each Printf, Fprintf and For, from the inside out. The nodes that are made have the numbers from
/// `next_id` on (0 follows the greatest); copies of a For's step have those of the nodes that they copy, so that these stand there
/// more than once.
pub fn forms(alloc: Global, terms: Vec<Node>, next_id: u32) -> Result<Vec<Node>, AllocError>
    ensures trees { IfOk result (λ made. trees_of made.items ≡ formed_all (trees_of terms.items)) }
    ensures plans { IfOk result (λ made. plans_of made.items ≡ formed_plans (plans_of terms.items)) }
{
    let mut next = next_id;
    let made = form_all(alloc, terms, &mut next)?;
    Ok(made)
}
