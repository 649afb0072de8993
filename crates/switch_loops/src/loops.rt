//! A program whose Switches are loops: its Locals keep the values of Switches.
ghost use Rattle.std.specs.Prelude.{◌≡◌, ◌++◌, ◌∷◌, ◌<◌, [], Bool, false, true, nat_eq, if◌then◌else◌, length, reverse, drop, IfOk, OnOk};
ghost use Rattle.acpi_names.specs.Parts.{nodes_size, term_size};
ghost use Rattle.acpi_names.specs.Walked.{node_tree, term_shape};
ghost use Rattle.asl_lower.specs.Nests.{backwards};
ghost use Rattle.term_places.specs.Places.{holds_terms, places_of, term_places};
ghost use Rattle.asl_tree.specs.Tree.{Switch, Trees, tree};
ghost use Rattle.asl_tree.specs.View.{form, trees_of};
ghost use Rattle.hidden_locals.specs.Locals.{locals_all};
ghost use Rattle.hidden_locals.specs.Switches.{default_link, links, opened, without_switches};
ghost use Rattle.switch_loops.specs.Given.{AreGiven, IsGiven, HasValue};
ghost use Rattle.switch_loops.specs.Kept.{all_kept, is_kept};
ghost use Rattle.switch_loops.specs.Kinds.{form_kind as form_kind_of, shape_kind};
ghost use Rattle.switch_loops.specs.Links.{behind, given_default, in_braces as trees_in_braces, linked, looped_all};
ghost use Rattle.switch_loops.specs.Links.{otherwise_places, otherwise_trees, plan_as, put as put_tree, default_looped, shape_body};
ghost use Rattle.switch_loops.specs.Reads.{marked_all, none_named, others_of};
ghost use Rattle.switch_loops.specs.Places.{body_inside, cases_places, case_places, chain_places, braces as braces_places};
ghost use Rattle.switch_loops.specs.Places.{default_node_places, first_default_places, looped_at, looped_places, switch_looped};
ghost use Rattle.switch_loops.specs.declared.kind.TermRole.TheVariants as K;

use crate::braces::{Braces, braces_of, stays_inside};
use crate::found::{Found, found_in};
use crate::kept::all_keep;
use crate::kind::{TermRole, form_kind, kind_of};
use crate::locals::named_in;
use crate::made::{
    Origin, Otherwise, case_test, put_continue, put_test, put_turn, turn, with_default,
};
use crate::measure::measure_all;
use crate::spare::{later, local_at};
use crate::split::split_cases;
use asl_tree::term::{Node, Op, Term};
use std::alloc::{AllocError, Global};
use std::mem::replace;

// The node of a list of one.
fn only(nodes: Vec<Node>) -> Node
    requires { length nodes.items ≡ 1 }
    ensures { nodes.items ≡ result ∷ [] }
{
    let mut nodes = nodes;
    nodes.remove(0)
}

// The Locals that terms leave to so many levels of Switches; none are looked for where there is no level.
fn left_to(alloc: Global, levels: usize, terms: &[Node]) -> Result<Vec<u8>, AllocError>
    ensures { IfOk result
        (λ free. free.items ≡ (if nat_eq levels 0 then [] else others_of (marked_all none_named (locals_all (trees_of terms.now))))) }
{
    if levels == 0 {
        return Ok(Vec::new(alloc));
    }
    let free = named_in(terms).others(alloc)?;
    Ok(free)
}

// The value of a Switch, and what stands in its braces.
fn parts(alloc: Global, node: Node) -> (Node, Vec<Node>)
    requires { shape_kind (term_shape node.term) ≡ K.Switch }
    ensures tree { node_tree node ≡ Switch (node_tree result.0) (trees_of result.1.items) }
    ensures places { (inside : Bool) → looped_at inside node.place node.term ≡ switch_looped inside node.place result.1.items }
    ensures size { nodes_size result.1.items < term_size node.term }
{
    let Node { id, place, term } = node;
    match term {
        Term::Form { op: _, args, body } => (only(args), body),
        term => (Node { id, place, term }, Vec::new(alloc)),
    }
}

/// The terms of a method, or of a block, in which a loop of one turn stands for each Switch. The Locals for it are those that the
/// terms do not name; each method has its own.
pub fn loops(alloc: Global, terms: Vec<Node>) -> Result<Vec<Node>, AllocError>
    ensures trees { IfOk result (λ made. AreGiven (trees_of terms.items) → trees_of made.items ≡ without_switches (trees_of terms.items)) }
    ensures places { IfOk result (λ made. places_of made.items ≡ looped_places false terms.items) }
{
    let mut made = terms;
    loops_of(alloc, &mut made)?;
    Ok(made)
}

// The terms of a method, or of a block. The Locals are looked for only where a Switch stands in them outside methods.
#[cycle(loops)]
fn loops_of(alloc: Global, terms: &mut Vec<Node>) -> Result<(), AllocError>
    ensures trees { OnOk result (AreGiven (trees_of terms.old.items) →
        trees_of terms.new.items ≡ without_switches (trees_of terms.old.items)) }
    ensures places { OnOk result (places_of terms.new.items ≡ looped_places false terms.old.items) }
{
    match found_in(terms) {
        Found::Nothing => Ok(()),
        Found::Methods => {
            loops_in(alloc, 0, &[], false, terms)?;
            Ok(())
        }
        Found::Switch => {
            let levels = measure_all(terms).levels;
            let free = left_to(alloc, levels, terms)?;
            let flag = local_at(&free, levels);
            loops_in(alloc, flag, &free, false, terms)?;
            Ok(())
        }
    }
}

// The terms of a list; `inside` says whether a Switch is around them in the same loop. A list each of whose terms keeps its place
// stays where it is.
#[cycle(loops)]
fn loops_in(
    alloc: Global,
    flag: u8,
    values: &[u8],
    inside: bool,
    terms: &mut Vec<Node>,
) -> Result<(), AllocError>
    ensures trees { OnOk result (AreGiven (trees_of terms.old.items) →
        trees_of terms.new.items ≡ looped_all flag values.now inside (trees_of terms.old.items)) }
    ensures places { OnOk result (places_of terms.new.items ≡ looped_places inside terms.old.items) }
{
    if all_keep(inside, terms) {
        loops_within(alloc, flag, values, inside, terms)?;
        return Ok(());
    }
    let left = replace(terms, Vec::new(alloc));
    let made = loops_for(alloc, flag, values, inside, left)?;
    *terms = made;
    Ok(())
}

// Terms that keep their places.
#[cycle(loops)]
fn loops_within(
    alloc: Global,
    flag: u8,
    values: &[u8],
    inside: bool,
    terms: &mut Vec<Node>,
) -> Result<(), AllocError>
    requires { all_kept inside terms.old.items ≡ true }
    ensures trees { OnOk result (AreGiven (trees_of terms.old.items) →
        trees_of terms.new.items ≡ looped_all flag values.now inside (trees_of terms.old.items)) }
    ensures places { OnOk result (places_of terms.new.items ≡ looped_places inside terms.old.items) }
{
    for node in terms.iter_mut() {
        loops_at(alloc, flag, values, inside, node)?;
    }
    Ok(())
}

// A term that keeps its place.
#[cycle(loops)]
fn loops_at(
    alloc: Global,
    flag: u8,
    values: &[u8],
    inside: bool,
    node: &mut Node,
) -> Result<(), AllocError>
    requires { is_kept inside (shape_kind (term_shape node.old.term)) ≡ true }
    ensures tree { OnOk result (IsGiven (node_tree node.old) → (rest : Trees) →
        tree (node_tree node.new) rest ≡ put_tree flag values.now inside (node_tree node.old) rest) }
    ensures places { OnOk result (term_places node.new ≡ looped_at inside node.old.place node.old.term) }
{
    match &mut node.term {
        Term::Form {
            op,
            args: _args,
            body,
        } => {
            in_braces(alloc, flag, values, inside, *op, body)?;
            Ok(())
        }
        _ => Ok(()),
    }
}

// What stands in the braces of a form that keeps its place.
#[cycle(loops)]
fn in_braces(
    alloc: Global,
    flag: u8,
    values: &[u8],
    inside: bool,
    op: Op,
    body: &mut Vec<Node>,
) -> Result<(), AllocError>
    ensures trees { OnOk result ((holds_terms op ≡ true → AreGiven (trees_of body.old.items)) →
        trees_of body.new.items ≡ trees_in_braces flag values.now inside op (trees_of body.old.items)) }
    ensures places { OnOk result (holds_terms op ≡ true →
        places_of body.new.items ≡ looped_places (body_inside op inside) body.old.items) }
{
    match braces_of(op) {
        Braces::Terms => {
            loops_in(alloc, flag, values, stays_inside(op, inside), body)?;
            Ok(())
        }
        Braces::Method => {
            loops_of(alloc, body)?;
            Ok(())
        }
        _ => Ok(()),
    }
}

// What stands for the terms of a list.
#[cycle(loops)]
fn loops_for(
    alloc: Global,
    flag: u8,
    values: &[u8],
    inside: bool,
    terms: Vec<Node>,
) -> Result<Vec<Node>, AllocError>
    ensures trees { IfOk result (λ made. AreGiven (trees_of terms.items) → trees_of made.items ≡ looped_all flag values.now inside
        (trees_of terms.items)) }
    ensures places { IfOk result (λ made. places_of made.items ≡ looped_places inside terms.items) }
{
    let mut left = terms;
    let mut made = Vec::with_capacity(alloc, left.len())?;
    while let Some(node) = left.pop() {
        put(alloc, flag, values, inside, &mut made, node)?;
    }
    made.reverse();
    Ok(made)
}

// Puts what stands for a term before terms that stand backwards.
#[cycle(loops)]
fn put(
    alloc: Global,
    flag: u8,
    values: &[u8],
    inside: bool,
    made: &mut Vec<Node>,
    node: Node,
) -> Result<(), AllocError>
    ensures trees { OnOk result (IsGiven (node_tree node) → backwards made.new.items ≡ put_tree flag values.now inside (node_tree node)
        (backwards made.old.items)) }
    ensures places { OnOk result (places_of (reverse made.new.items) ≡ looped_at inside node.place node.term
        ++ places_of (reverse made.old.items)) }
{
    let origin = Origin {
        id: node.id,
        place: node.place,
    };
    match kind_of(&node.term) {
        TermRole::Switch => {
            let (value, cases) = parts(alloc, node);
            put_switch(alloc, flag, values, inside, made, origin, value, cases)?;
            Ok(())
        }
        TermRole::Continue => {
            put_continue(alloc, origin, flag, inside, made)?;
            Ok(())
        }
        _ => {
            let mut node = node;
            loops_at(alloc, flag, values, inside, &mut node)?;
            made.push(node)?;
            Ok(())
        }
    }
}

// Puts the loop of a Switch before terms that stand backwards.
#[cycle(loops)]
#[inline(never)]
fn put_switch(
    alloc: Global,
    flag: u8,
    values: &[u8],
    inside: bool,
    made: &mut Vec<Node>,
    origin: Origin,
    value: Node,
    cases: Vec<Node>,
) -> Result<(), AllocError>
    ensures trees { OnOk result (HasValue (node_tree value) → AreGiven (trees_of cases.items) →
        backwards made.new.items ≡ put_tree flag values.now inside (Switch (node_tree value) (trees_of cases.items))
        (backwards made.old.items)) }
    ensures places { OnOk result (places_of (reverse made.new.items) ≡ switch_looped inside origin.place cases.items
        ++ places_of (reverse made.old.items)) }
{
    let crossed = measure_all(&cases).continues;
    let chain = chain(alloc, flag, values, cases)?;
    let turn = turn(alloc, origin, local_at(values, 0), value, chain)?;
    put_turn(alloc, origin, flag, crossed, inside, made, turn)?;
    Ok(())
}

// The tests of the Cases of a Switch, one behind another, and last the Default.
#[cycle(loops)]
fn chain(alloc: Global, flag: u8, values: &[u8], nodes: Vec<Node>) -> Result<Vec<Node>, AllocError>
    ensures trees { IfOk result (λ chain. AreGiven (trees_of nodes.items) → trees_of chain.items ≡ opened (links
        (plan_as flag values.now) 1 (trees_of nodes.items) (default_link (plan_as flag values.now) 1 (trees_of nodes.items)))) }
    ensures places { IfOk result (λ chain. places_of chain.items
        ≡ chain_places (cases_places nodes.items) (first_default_places nodes.items)) }
{
    let split = split_cases(alloc, nodes)?;
    let default = default_of(alloc, flag, values, split.default)?;
    let mut left = split.cases;
    let mut tests = Vec::with_capacity(alloc, left.len())?;
    while let Some(node) = left.pop() {
        put_case(alloc, flag, values, &mut tests, node)?;
    }
    let chain = with_default(alloc, tests, default)?;
    Ok(chain)
}

// What a Default does.
#[cycle(loops)]
fn default_of(
    alloc: Global,
    flag: u8,
    values: &[u8],
    default: Option<Node>,
) -> Result<Option<Otherwise>, AllocError>
    ensures trees { IfOk result (λ otherwise. given_default default → otherwise_trees otherwise ≡ default_looped flag values.now default) }
    ensures places { IfOk result (λ otherwise. otherwise_places otherwise ≡ default_node_places default) }
{
    match default {
        Some(Node { id, place, term }) => {
            let terms = terms_of(alloc, flag, values, term)?;
            Ok(Some(Otherwise {
                origin: Origin { id, place },
                terms,
            }))
        }
        None => Ok(None),
    }
}

// The terms in the braces of a Default.
#[cycle(loops)]
fn terms_of(alloc: Global, flag: u8, values: &[u8], term: Term) -> Result<Vec<Node>, AllocError>
    ensures trees { IfOk result (λ made. AreGiven (shape_body (term_shape term)) → trees_of made.items ≡ looped_all flag (drop 1 values.now)
        true (shape_body (term_shape term))) }
    ensures places { IfOk result (λ made. places_of made.items ≡ braces_places term) }
{
    match term {
        Term::Form {
            op: _op,
            args: _args,
            body,
        } => {
            let mut made = body;
            loops_in(alloc, flag, later(values), true, &mut made)?;
            Ok(made)
        }
        _ => Ok(Vec::new(alloc)),
    }
}

// Puts the test of a Case behind those before it. What is no Case is nothing.
#[cycle(loops)]
fn put_case(
    alloc: Global,
    flag: u8,
    values: &[u8],
    tests: &mut Vec<Node>,
    node: Node,
) -> Result<(), AllocError>
    ensures trees { OnOk result (IsGiven (node_tree node) → (branches : Trees) → behind (trees_of tests.new.items) branches
        ≡ behind (trees_of tests.old.items) (linked flag values.now (node_tree node) branches)) }
    ensures places { OnOk result (places_of tests.new.items ≡ places_of tests.old.items
        ++ case_places (shape_kind (term_shape node.term)) node.place (braces_places node.term)) }
{
    let Node { id, place, term } = node;
    match term {
        Term::Form { op, args, body } => {
            let origin = Origin { id, place };
            put_form(alloc, flag, values, tests, origin, op, args, body)?;
            Ok(())
        }
        _ => Ok(()),
    }
}

#[cycle(loops)]
fn put_form(
    alloc: Global,
    flag: u8,
    values: &[u8],
    tests: &mut Vec<Node>,
    origin: Origin,
    op: Op,
    args: Vec<Node>,
    body: Vec<Node>,
) -> Result<(), AllocError>
    ensures trees { OnOk result
        (IsGiven (form (record { id = origin.id; place = origin.place }) op (trees_of args.items) (trees_of body.items)) →
        (branches : Trees) → behind (trees_of tests.new.items) branches ≡ behind (trees_of tests.old.items) (linked flag values.now
        (form (record { id = origin.id; place = origin.place }) op (trees_of args.items) (trees_of body.items)) branches)) }
    ensures places { OnOk result (places_of tests.new.items ≡ places_of tests.old.items
        ++ case_places (form_kind_of op (trees_of args.items) (trees_of body.items)) origin.place (looped_places true body.items)) }
{
    match form_kind(op, &args, &body) {
        TermRole::Case => {
            let test = case_test(alloc, origin, local_at(values, 0), only(args))?;
            let mut made = body;
            loops_in(alloc, flag, later(values), true, &mut made)?;
            put_test(alloc, origin, tests, test, made)?;
            Ok(())
        }
        _ => Ok(()),
    }
}
