//! The nodes of loops that stand for Switches.
ghost use Rattle.std.specs.Prelude.{◌≡◌, ◌∷◌, ◌++◌, [], reverse, IfOk, OnOk};
ghost use Rattle.acpi_names.specs.Walked.{node_tree};
ghost use Rattle.acpi_values.specs.declared.operator.IntOp.TheVariants as IntOp;
ghost use Rattle.acpi_values.specs.declared.operator.Plain.TheVariants as P;
ghost use Rattle.asl_tree.specs.declared.term.Op.TheVariants as O;
ghost use Rattle.asl_tree.specs.Tree.{Apply, If, ElseIf, Constant, Trees, no_trees, tree};
ghost use Rattle.asl_tree.specs.View.{apply_of, form, trees_of};
ghost use Rattle.asl_lower.specs.Nests.{backwards};
ghost use Rattle.term_places.specs.Places.{places_of, term_places};
ghost use Rattle.hidden_locals.specs.Switches.{case_test as tree_test};
ghost use Rattle.hidden_locals.specs.Turns.{equal as equal_tree, local as local_tree, stored, test_of, loop_of, loop_terms};
ghost use Rattle.hidden_locals.specs.Turns.{continue_terms};
ghost use Rattle.switch_loops.specs.Given.{HasValue, HaveValues, HasCaseValue};
ghost use Rattle.switch_loops.specs.Links.{behind, otherwise_trees, otherwise_places, plan_as};
ghost use Rattle.switch_loops.specs.Places.{chain_places, continue_places, loop_places, own_places, turn_places};

use acpi_names::part::{ValueForm, value_form_for};
use acpi_values::operator::{DataOp, IntOp, Plain};
use asl_tree::term::{Control, Literal, Node, Op, Term};
use iasl_messages::place::Place;
use std::alloc::{AllocError, Global};

/// The number and the place of a node for which others are made.
#[derive(Clone, Copy)]
pub(crate) struct Origin {
    pub id: u32,
    pub place: Place,
}

/// What a Default does.
#[derive(Drop)]
pub(crate) struct Otherwise {
    pub origin: Origin,
    pub terms: Vec<Node>,
}

#[tactic(auto, using(crate::proofs::MadeRows::local_made))]
fn local(origin: Origin, index: u8) -> Node
    ensures tree { node_tree result ≡ local_tree index }
{
    Node {
        id: origin.id,
        place: origin.place,
        term: Term::Local(index),
    }
}

fn one(alloc: Global, node: Node) -> Result<Vec<Node>, AllocError>
    ensures { IfOk result (λ nodes. nodes.items ≡ node ∷ []) }
{
    let mut nodes = Vec::with_capacity(alloc, 1)?;
    nodes.push(node)?;
    Ok(nodes)
}

// A statement with terms in its braces.
#[tactic(auto, using(acpi_names::proofs::Trees::form_tree))]
fn control(origin: Origin, op: Control, args: Vec<Node>, body: Vec<Node>) -> Node
    ensures tree { node_tree result ≡ form (record { id = origin.id; place = origin.place }) (O.Control op) (trees_of args.items)
        (trees_of body.items) }
    ensures places { term_places result ≡ own_places (O.Control op) origin.place (places_of body.items) }
{
    Node {
        id: origin.id,
        place: origin.place,
        term: Term::Form {
            op: Op::Control(op),
            args,
            body,
        },
    }
}

// Break, or Continue.
fn leaving(alloc: Global, origin: Origin, op: Control) -> Node
    ensures tree { node_tree result ≡ form (record { id = origin.id; place = origin.place }) (O.Control op) no_trees no_trees }
    ensures places { term_places result ≡ origin.place ∷ [] }
{
    control(origin, op, Vec::new(alloc), Vec::new(alloc))
}

// One of the words Zero and One.
#[tactic(auto, using(crate::proofs::MadeRows::word_made))]
fn word(alloc: Global, origin: Origin, literal: Literal) -> Node
    ensures tree { node_tree result ≡ Constant literal }
{
    Node {
        id: origin.id,
        place: origin.place,
        term: Term::Form {
            op: Op::Literal(literal),
            args: Vec::new(alloc),
            body: Vec::new(alloc),
        },
    }
}

// An operator on two operands.
#[tactic(auto, using(crate::proofs::MadeRows::operator_made))]
fn operator(
    alloc: Global,
    origin: Origin,
    op: Plain,
    first: Node,
    second: Node,
) -> Result<Node, AllocError>
    ensures tree { IfOk result (λ made. node_tree made ≡ apply_of op (tree (node_tree first) (tree (node_tree second) no_trees))) }
    ensures places { IfOk result (λ made. term_places made ≡ origin.place ∷ []) }
{
    let mut args = Vec::with_capacity(alloc, 2)?;
    args.push(first)?;
    args.push(second)?;
    Ok(Node {
        id: origin.id,
        place: origin.place,
        term: Term::Form {
            op: Op::Plain(op),
            args,
            body: Vec::new(alloc),
        },
    })
}

// Store of a value into a Local.
#[tactic(auto, using(crate::proofs::MadeRows::store_made))]
fn store(alloc: Global, origin: Origin, value: Node, index: u8) -> Result<Node, AllocError>
    ensures tree { IfOk result (λ made. HasValue (node_tree value) → node_tree made ≡ stored (node_tree value) (local_tree index)) }
    ensures places { IfOk result (λ made. term_places made ≡ origin.place ∷ []) }
{
    let made = operator(
        alloc,
        origin,
        Plain::Data(DataOp::Store),
        value,
        local(origin, index),
    )?;
    Ok(made)
}

// Store of a word into the flag.
fn set(alloc: Global, origin: Origin, flag: u8, literal: Literal) -> Result<Node, AllocError>
    ensures tree { IfOk result (λ made. node_tree made ≡ stored (Constant literal) (local_tree flag)) }
    ensures places { IfOk result (λ made. term_places made ≡ origin.place ∷ []) }
{
    let made = store(alloc, origin, word(alloc, origin, literal), flag)?;
    Ok(made)
}

// The test whether a Local has a value.
#[tactic(auto, using(crate::proofs::MadeRows::equal_made))]
fn equal(alloc: Global, origin: Origin, index: u8, value: Node) -> Result<Node, AllocError>
    ensures { IfOk result (λ made. HasValue (node_tree value) → node_tree made ≡ equal_tree (local_tree index) (node_tree value)) }
{
    let made = operator(
        alloc,
        origin,
        Plain::Number(IntOp::LEqual),
        local(origin, index),
        value,
    )?;
    Ok(made)
}

// The test whether one of two tests holds.
#[tactic(auto, using(crate::proofs::MadeRows::either_made))]
fn either(alloc: Global, origin: Origin, first: Node, second: Node) -> Result<Node, AllocError>
    ensures { IfOk result (λ made. HasValue (node_tree first) → HasValue (node_tree second) → node_tree made ≡ Apply (P.Number IntOp.LOr)
        (tree (node_tree first) (tree (node_tree second) no_trees)) no_trees) }
{
    let made = operator(alloc, origin, Plain::Number(IntOp::LOr), first, second)?;
    Ok(made)
}

// The test whether a Local has the value of one of some members, joined from the left.
fn members_test(
    alloc: Global,
    origin: Origin,
    index: u8,
    members: Vec<Node>,
) -> Result<Node, AllocError>
    ensures { IfOk result (λ made. HaveValues (trees_of members.items) → node_tree made ≡ test_of (local_tree index)
        (trees_of members.items)) }
{
    let mut left = members;
    left.reverse();
    let mut test = match left.pop() {
        Some(member) => equal(alloc, origin, index, member)?,
        None => return Ok(word(alloc, origin, Literal::Zero)),
    };
    while let Some(member) = left.pop() {
        let next = equal(alloc, origin, index, member)?;
        test = either(alloc, origin, test, next)?;
    }
    Ok(test)
}

/// The test of a Case; of a Package all members are tested.
pub(crate) fn case_test(
    alloc: Global,
    origin: Origin,
    index: u8,
    value: Node,
) -> Result<Node, AllocError>
    ensures { IfOk result (λ made. HasCaseValue (node_tree value) → node_tree made ≡ tree_test (local_tree index) (node_tree value)) }
{
    let Node { id, place, term } = value;
    match term {
        Term::Form { op, args, body } => match value_form_for(op, &args, &body) {
            ValueForm::Package => {
                let made = members_test(alloc, origin, index, body)?;
                Ok(made)
            }
            _ => {
                let term = Term::Form { op, args, body };
                let made = equal(alloc, origin, index, Node { id, place, term })?;
                Ok(made)
            }
        },
        term => {
            let made = equal(alloc, origin, index, Node { id, place, term })?;
            Ok(made)
        }
    }
}

/// An If.
pub(crate) fn when(
    alloc: Global,
    origin: Origin,
    test: Node,
    body: Vec<Node>,
) -> Result<Node, AllocError>
    ensures tree { IfOk result (λ made. node_tree made ≡ If (node_tree test) (trees_of body.items)) }
    ensures places { IfOk result (λ made. term_places made ≡ origin.place ∷ places_of body.items) }
{
    let args = one(alloc, test)?;
    Ok(control(origin, Control::If, args, body))
}

/// Puts the test of a Case behind those before it: the first one is an If, each other an ElseIf.
pub(crate) fn put_test(
    alloc: Global,
    origin: Origin,
    tests: &mut Vec<Node>,
    test: Node,
    body: Vec<Node>,
) -> Result<(), AllocError>
    ensures trees { OnOk result ((branches : Trees) → behind (trees_of tests.new.items) branches
        ≡ behind (trees_of tests.old.items) (tree (ElseIf (node_tree test) (trees_of body.items)) branches)) }
    ensures places { OnOk result (places_of tests.new.items ≡ places_of tests.old.items ++ origin.place ∷ places_of body.items) }
{
    let args = one(alloc, test)?;
    if tests.is_empty() {
        tests.push(control(origin, Control::If, args, body))?;
        return Ok(());
    }
    tests.push(control(origin, Control::ElseIf, args, body))?;
    Ok(())
}

/// The tests of Cases, and behind them the Else of a Default; with no test before it, what the Default does.
pub(crate) fn with_default(
    alloc: Global,
    tests: Vec<Node>,
    default: Option<Otherwise>,
) -> Result<Vec<Node>, AllocError>
    ensures trees { IfOk result (λ made. trees_of made.items ≡ behind (trees_of tests.items) (otherwise_trees default)) }
    ensures places { IfOk result (λ made. places_of made.items ≡ chain_places (places_of tests.items) (otherwise_places default)) }
{
    match default {
        Some(Otherwise { origin, terms }) => {
            if tests.is_empty() {
                return Ok(terms);
            }
            let mut made = tests;
            made.push(control(origin, Control::Else, Vec::new(alloc), terms))?;
            Ok(made)
        }
        None => Ok(tests),
    }
}

/// The loop of one turn: the Store of a value into a Local, the chain of tests, and Break.
pub(crate) fn turn(
    alloc: Global,
    origin: Origin,
    index: u8,
    value: Node,
    chain: Vec<Node>,
) -> Result<Node, AllocError>
    ensures tree { IfOk result (λ made. HasValue (node_tree value) → node_tree made ≡ loop_of (node_tree value) (local_tree index)
        (trees_of chain.items)) }
    ensures places { IfOk result (λ made. term_places made ≡ turn_places origin.place (places_of chain.items)) }
{
    let mut terms = chain;
    let first = store(alloc, origin, value, index)?;
    terms.insert(0, first)?;
    terms.push(leaving(alloc, origin, Control::Break))?;
    let test = one(alloc, word(alloc, origin, Literal::One))?;
    Ok(control(origin, Control::While, test, terms))
}

/// Puts a loop before terms that stand backwards, with the flag where a Continue crosses it.
pub(crate) fn put_turn(
    alloc: Global,
    origin: Origin,
    flag: u8,
    crossed: bool,
    inside: bool,
    made: &mut Vec<Node>,
    turn: Node,
) -> Result<(), AllocError>
    ensures trees { OnOk result (backwards made.new.items ≡ loop_terms (plan_as flag []) crossed inside (node_tree turn)
        (backwards made.old.items)) }
    ensures places { OnOk result (places_of (reverse made.new.items) ≡ loop_places crossed inside origin.place
        (term_places turn) ++ places_of (reverse made.old.items)) }
{
    if !crossed {
        made.push(turn)?;
        return Ok(());
    }
    let mut body = Vec::new(alloc);
    if !inside {
        body.push(set(alloc, origin, flag, Literal::Zero)?)?;
        body.push(leaving(alloc, origin, Control::Continue))?;
        made.push(when(alloc, origin, local(origin, flag), body)?)?;
        made.push(turn)?;
        made.push(set(alloc, origin, flag, Literal::Zero)?)?;
        return Ok(());
    }
    body.push(leaving(alloc, origin, Control::Break))?;
    made.push(when(alloc, origin, local(origin, flag), body)?)?;
    made.push(turn)?;
    Ok(())
}

/// Puts what stands for a Continue before terms that stand backwards.
#[inline(never)]
pub(crate) fn put_continue(
    alloc: Global,
    origin: Origin,
    flag: u8,
    inside: bool,
    made: &mut Vec<Node>,
) -> Result<(), AllocError>
    ensures trees { OnOk result (backwards made.new.items ≡ continue_terms (plan_as flag []) inside (backwards made.old.items)) }
    ensures places { OnOk result (places_of (reverse made.new.items) ≡ continue_places inside origin.place
        ++ places_of (reverse made.old.items)) }
{
    if inside {
        made.push(leaving(alloc, origin, Control::Break))?;
        made.push(set(alloc, origin, flag, Literal::One)?)?;
        return Ok(());
    }
    made.push(leaving(alloc, origin, Control::Continue))?;
    Ok(())
}
