//! The names of a block, spelled as they have to stand in the bytes (ACPI Specification 6.4, 5.3 and 20.2.2).
ghost use Rattle.std.specs.Prelude.{◌≡◌, ◌<◌, ◌≤◌, ℕ, List, [], length, get_or, OnOk, IfOk};
ghost use Rattle.acpi_values.specs.Paths.{AbsolutePath};
ghost use Rattle.acpi_state.specs.Objects.{lookup};
ghost use Rattle.asl_tree.specs.View.{trees_of};
ghost use Rattle.asl_meaning.specs.Declarations.{Declarations, is_named, written_external as written_for};
ghost use Rattle.acpi_names.specs.Parts.{Agrees, part_of, path_of};
ghost use Rattle.acpi_names.specs.Paths.{is_named_in};
ghost use Rattle.acpi_names.specs.Spelled.{spelled, spelled_all, element_spelled};
ghost use Rattle.acpi_names.specs.Tables.{Tabled};
ghost use Rattle.name_spelling.specs.Spelling.{Grows, Knowing, SpellsAll, SpellsBut, SpellsElements, SpellsOpened, SpellsArgs, SpellsBody};
ghost use Rattle.name_spelling.specs.Spelling.{SpellsExternal, place_at, opened_at, other_spelled, with_number_at};
ghost use Rattle.acpi_names.specs.Walked.{node_tree, value_form_of};
ghost use Rattle.term_places.specs.Places.{places_of, term_places};
ghost use Rattle.acpi_names.specs.declared.part.NameRole.TheVariants as P;

use crate::written::{other_element, spell_name, written_external};
use acpi_names::index::{Index, reach};
use acpi_names::lookup::{denotes, prefixed};
use acpi_names::mention::{Occurrence, spot_of};
use acpi_names::part::{NameRole, ValueForm, name, part_for, value_form_for};
use asl_tree::term::{Node, Op, Term};
use std::alloc::{AllocError, Global};

// Spells terms in the scope with a number.
#[cycle(spell)]
fn spell_all(
    alloc: Global,
    index: &mut Index,
    calls: &[Option<usize>],
    also: &[bool],
    shorten: bool,
    nodes: &mut Vec<Node>,
    scope: usize,
) -> Result<(), AllocError>
    requires scope_in { scope < length index.old.paths }
    requires all { length index.old.named.items ≡ length index.old.paths }
    requires short { length calls.now ≤ length index.old.paths }
    requires few { length also.now ≤ length index.old.paths }
    ensures grows { OnOk result (Grows index.old.paths index.old.named.items index.new.paths index.new.named.items calls.now also.now) }
    ensures spells { OnOk result (SpellsAll shorten index.old.paths index.old.named.items calls.now also.now (trees_of nodes.old.items)
        (trees_of nodes.new.items) (get_or index.old.paths scope [])) }
    ensures places { OnOk result (places_of nodes.new.items ≡ places_of nodes.old.items) }
{
    for node in nodes.iter_mut() {
        spell_one(alloc, index, calls, also, shorten, node, scope)?;
    }
    Ok(())
}

// All arguments but the one with a number, which is a declared name.
#[cycle(spell)]
fn spell_but(
    alloc: Global,
    index: &mut Index,
    calls: &[Option<usize>],
    also: &[bool],
    shorten: bool,
    nodes: &mut Vec<Node>,
    place: usize,
    scope: usize,
) -> Result<(), AllocError>
    requires scope_in { scope < length index.old.paths }
    requires all { length index.old.named.items ≡ length index.old.paths }
    requires short { length calls.now ≤ length index.old.paths }
    requires few { length also.now ≤ length index.old.paths }
    ensures grows { OnOk result (Grows index.old.paths index.old.named.items index.new.paths index.new.named.items calls.now also.now) }
    ensures spells { OnOk result (SpellsBut shorten index.old.paths index.old.named.items calls.now also.now place
        (trees_of nodes.old.items) (trees_of nodes.new.items) (get_or index.old.paths scope [])) }
{
    for (number, node) in nodes.iter_mut().enumerate() {
        spell_other(
            alloc,
            index,
            calls,
            also,
            shorten,
            node,
            number == place,
            scope,
        )?;
    }
    Ok(())
}

// A term, unless it is kept as it is.
#[cycle(spell)]
fn spell_other(
    alloc: Global,
    index: &mut Index,
    calls: &[Option<usize>],
    also: &[bool],
    shorten: bool,
    node: &mut Node,
    kept: bool,
    scope: usize,
) -> Result<(), AllocError>
    requires scope_in { scope < length index.old.paths }
    requires all { length index.old.named.items ≡ length index.old.paths }
    requires short { length calls.now ≤ length index.old.paths }
    requires few { length also.now ≤ length index.old.paths }
    ensures grows { OnOk result (Grows index.old.paths index.old.named.items index.new.paths index.new.named.items calls.now also.now) }
    ensures spells { OnOk result
        (Knowing index.old.paths index.old.named.items calls.now also.now
        (λ d counts beside. node_tree node.new ≡ other_spelled shorten beside (is_named d) (written_for counts) kept (node_tree node.old)
        (get_or index.old.paths scope []))) }
{
    if kept {
        return Ok(());
    }
    spell_one(alloc, index, calls, also, shorten, node, scope)?;
    Ok(())
}

// The elements of a Package.
#[cycle(spell)]
fn spell_elements(
    alloc: Global,
    index: &mut Index,
    calls: &[Option<usize>],
    also: &[bool],
    shorten: bool,
    nodes: &mut Vec<Node>,
    scope: usize,
) -> Result<(), AllocError>
    requires scope_in { scope < length index.old.paths }
    requires all { length index.old.named.items ≡ length index.old.paths }
    requires short { length calls.now ≤ length index.old.paths }
    requires few { length also.now ≤ length index.old.paths }
    ensures grows { OnOk result (Grows index.old.paths index.old.named.items index.new.paths index.new.named.items calls.now also.now) }
    ensures spells { OnOk result (SpellsElements shorten index.old.paths index.old.named.items calls.now also.now (trees_of nodes.old.items)
        (trees_of nodes.new.items) (get_or index.old.paths scope [])) }
    ensures places { OnOk result (places_of nodes.new.items ≡ places_of nodes.old.items) }
{
    for node in nodes.iter_mut() {
        spell_item(alloc, index, calls, also, shorten, node, scope)?;
    }
    Ok(())
}

#[cycle(spell)]
fn spell_item(
    alloc: Global,
    index: &mut Index,
    calls: &[Option<usize>],
    also: &[bool],
    shorten: bool,
    node: &mut Node,
    scope: usize,
) -> Result<(), AllocError>
    requires scope_in { scope < length index.old.paths }
    requires all { length index.old.named.items ≡ length index.old.paths }
    requires short { length calls.now ≤ length index.old.paths }
    requires few { length also.now ≤ length index.old.paths }
    ensures grows { OnOk result (Grows index.old.paths index.old.named.items index.new.paths index.new.named.items calls.now also.now) }
    ensures spells { OnOk result
        (Knowing index.old.paths index.old.named.items calls.now also.now
        (λ d counts beside. node_tree node.new ≡ element_spelled shorten (is_named d) (node_tree node.old)
        (spelled shorten beside (is_named d) (written_for counts) (node_tree node.old) (get_or index.old.paths scope []))
        (get_or index.old.paths scope []))) }
    ensures places { OnOk result (term_places node.new ≡ term_places node.old) }
{
    match &node.term {
        Term::Name(path) => match other_element(alloc, index, shorten, path, scope)? {
            Some(other) => {
                node.term = Term::Name(other);
                Ok(())
            }
            None => Ok(()),
        },
        _ => {
            spell_one(alloc, index, calls, also, shorten, node, scope)?;
            Ok(())
        }
    }
}

// A term, which is a name or has names in it, or stays as it is.
#[cycle(spell)]
#[inline(always)]
fn spell_one(
    alloc: Global,
    index: &mut Index,
    calls: &[Option<usize>],
    also: &[bool],
    shorten: bool,
    node: &mut Node,
    scope: usize,
) -> Result<(), AllocError>
    requires scope_in { scope < length index.old.paths }
    requires all { length index.old.named.items ≡ length index.old.paths }
    requires short { length calls.now ≤ length index.old.paths }
    requires few { length also.now ≤ length index.old.paths }
    ensures grows { OnOk result (Grows index.old.paths index.old.named.items index.new.paths index.new.named.items calls.now also.now) }
    ensures spells { OnOk result
        (Knowing index.old.paths index.old.named.items calls.now also.now
        (λ d counts beside. node_tree node.new ≡ spelled shorten beside (is_named d) (written_for counts) (node_tree node.old)
        (get_or index.old.paths scope []))) }
    ensures places { OnOk result (term_places node.new ≡ term_places node.old) }
{
    match &mut node.term {
        Term::Name(path) => {
            spell_name(alloc, index, also, shorten, path, scope)?;
            Ok(())
        }
        Term::Call { .. } | Term::Form { .. } => {
            spell_inner(alloc, index, calls, also, shorten, node, scope)?;
            Ok(())
        }
        _ => Ok(()),
    }
}

// A term that is no name.
#[cycle(spell)]
#[inline(never)]
fn spell_inner(
    alloc: Global,
    index: &mut Index,
    calls: &[Option<usize>],
    also: &[bool],
    shorten: bool,
    node: &mut Node,
    scope: usize,
) -> Result<(), AllocError>
    requires scope_in { scope < length index.old.paths }
    requires all { length index.old.named.items ≡ length index.old.paths }
    requires short { length calls.now ≤ length index.old.paths }
    requires few { length also.now ≤ length index.old.paths }
    requires unnamed { path_of node.old.term ≡ None }
    ensures grows { OnOk result (Grows index.old.paths index.old.named.items index.new.paths index.new.named.items calls.now also.now) }
    ensures spells { OnOk result
        (Knowing index.old.paths index.old.named.items calls.now also.now
        (λ d counts beside. node_tree node.new ≡ spelled shorten beside (is_named d) (written_for counts) (node_tree node.old)
        (get_or index.old.paths scope []))) }
    ensures places { OnOk result (term_places node.new ≡ term_places node.old) }
{
    let here = spot_of(node);
    match &mut node.term {
        Term::Call { path, args } => {
            spell_name(alloc, index, also, shorten, path, scope)?;
            spell_all(alloc, index, calls, also, shorten, args, scope)?;
            Ok(())
        }
        Term::Form { op, args, body } => {
            spell_form(
                alloc, index, calls, also, shorten, here, *op, args, body, scope,
            )?;
            Ok(())
        }
        _ => Ok(()),
    }
}

#[cycle(spell)]
fn spell_form(
    alloc: Global,
    index: &mut Index,
    calls: &[Option<usize>],
    also: &[bool],
    shorten: bool,
    here: Occurrence,
    op: Op,
    args: &mut Vec<Node>,
    body: &mut Vec<Node>,
    scope: usize,
) -> Result<(), AllocError>
    requires scope_in { scope < length index.old.paths }
    requires all { length index.old.named.items ≡ length index.old.paths }
    requires short { length calls.now ≤ length index.old.paths }
    requires few { length also.now ≤ length index.old.paths }
    ensures grows { OnOk result (Grows index.old.paths index.old.named.items index.new.paths index.new.named.items calls.now also.now) }
    ensures args { OnOk result
        (SpellsArgs shorten index.old.paths index.old.named.items calls.now also.now
        (part_of op (trees_of args.old.items) (trees_of body.old.items))
        (value_form_of op (trees_of args.old.items) (trees_of body.old.items)) (trees_of args.old.items) (trees_of args.new.items)
        (get_or index.old.paths scope [])) }
    ensures body { OnOk result
        (SpellsBody shorten index.old.paths index.old.named.items calls.now also.now
        (part_of op (trees_of args.old.items) (trees_of body.old.items))
        (value_form_of op (trees_of args.old.items) (trees_of body.old.items)) (trees_of args.old.items) (trees_of body.old.items)
        (trees_of body.new.items) (get_or index.old.paths scope [])) }
    ensures places { OnOk result (places_of body.new.items ≡ places_of body.old.items) }
{
    match part_for(op, args, body) {
        NameRole::Nothing => {
            spell_value(
                alloc,
                index,
                calls,
                also,
                shorten,
                value_form_for(op, args, body),
                args,
                body,
                scope,
            )?;
            Ok(())
        }
        NameRole::Declares { name, what, opens } => {
            spell_declared(
                alloc, index, calls, also, shorten, name, opens, args, body, scope,
            )?;
            Ok(())
        }
        NameRole::Alias => {
            spell_but(alloc, index, calls, also, shorten, args, 1, scope)?;
            Ok(())
        }
        NameRole::External { object, parameters } => {
            spell_external(index, calls, here, object, parameters, args, scope)?;
            Ok(())
        }
        NameRole::Scope => {
            let inner = opened_place(index, args, scope);
            spell_all(alloc, index, calls, also, false, args, scope)?;
            spell_all(alloc, index, calls, also, shorten, body, inner)?;
            Ok(())
        }
        NameRole::Within => {
            spell_all(alloc, index, calls, also, shorten, args, scope)?;
            spell_all(alloc, index, calls, also, shorten, body, scope)?;
            Ok(())
        }
        NameRole::Returns => {
            spell_all(alloc, index, calls, also, shorten, args, scope)?;
            Ok(())
        }
        NameRole::Prints => {
            spell_all(alloc, index, calls, also, shorten, args, scope)?;
            Ok(())
        }
        NameRole::Units(_) => {
            spell_all(alloc, index, calls, also, shorten, args, scope)?;
            spell_all(alloc, index, calls, also, shorten, body, scope)?;
            Ok(())
        }
    }
}

// An expression that is a form. What is no form of an expression stays as it is.
#[cycle(spell)]
fn spell_value(
    alloc: Global,
    index: &mut Index,
    calls: &[Option<usize>],
    also: &[bool],
    shorten: bool,
    form: ValueForm,
    args: &mut Vec<Node>,
    body: &mut Vec<Node>,
    scope: usize,
) -> Result<(), AllocError>
    requires scope_in { scope < length index.old.paths }
    requires all { length index.old.named.items ≡ length index.old.paths }
    requires short { length calls.now ≤ length index.old.paths }
    requires few { length also.now ≤ length index.old.paths }
    ensures grows { OnOk result (Grows index.old.paths index.old.named.items index.new.paths index.new.named.items calls.now also.now) }
    ensures args { OnOk result (SpellsArgs shorten index.old.paths index.old.named.items calls.now also.now P.Nothing form
        (trees_of args.old.items) (trees_of args.new.items) (get_or index.old.paths scope [])) }
    ensures body { OnOk result (SpellsBody shorten index.old.paths index.old.named.items calls.now also.now P.Nothing form
        (trees_of args.old.items) (trees_of body.old.items) (trees_of body.new.items) (get_or index.old.paths scope [])) }
    ensures places { OnOk result (places_of body.new.items ≡ places_of body.old.items) }
{
    match form {
        ValueForm::Nothing => Ok(()),
        ValueForm::Operator(_) => {
            spell_all(alloc, index, calls, also, shorten, args, scope)?;
            Ok(())
        }
        ValueForm::CondRefOf => {
            spell_all(alloc, index, calls, also, shorten, args, scope)?;
            Ok(())
        }
        ValueForm::Assign => {
            spell_all(alloc, index, calls, also, shorten, args, scope)?;
            Ok(())
        }
        ValueForm::AssignBy => {
            spell_all(alloc, index, calls, also, shorten, args, scope)?;
            Ok(())
        }
        ValueForm::Buffer => {
            spell_all(alloc, index, calls, also, shorten, args, scope)?;
            Ok(())
        }
        ValueForm::Package => {
            spell_all(alloc, index, calls, also, shorten, args, scope)?;
            spell_elements(alloc, index, calls, also, shorten, body, scope)?;
            Ok(())
        }
    }
}

// A term that declares a name, perhaps with terms in its scope.
#[cycle(spell)]
fn spell_declared(
    alloc: Global,
    index: &mut Index,
    calls: &[Option<usize>],
    also: &[bool],
    shorten: bool,
    place: usize,
    opens: bool,
    args: &mut Vec<Node>,
    body: &mut Vec<Node>,
    scope: usize,
) -> Result<(), AllocError>
    requires scope_in { scope < length index.old.paths }
    requires all { length index.old.named.items ≡ length index.old.paths }
    requires short { length calls.now ≤ length index.old.paths }
    requires few { length also.now ≤ length index.old.paths }
    ensures grows { OnOk result (Grows index.old.paths index.old.named.items index.new.paths index.new.named.items calls.now also.now) }
    ensures args { OnOk result (SpellsBut shorten index.old.paths index.old.named.items calls.now also.now place (trees_of args.old.items)
        (trees_of args.new.items) (get_or index.old.paths scope [])) }
    ensures body { OnOk result (SpellsOpened shorten index.old.paths index.old.named.items calls.now also.now opens
        (trees_of body.old.items) (trees_of body.new.items) (place_at place (trees_of args.old.items) (get_or index.old.paths scope []))) }
    ensures places { OnOk result (places_of body.new.items ≡ places_of body.old.items) }
{
    spell_inside(
        alloc, index, calls, also, shorten, place, opens, args, body, scope,
    )?;
    spell_but(alloc, index, calls, also, shorten, args, place, scope)?;
    Ok(())
}

// The terms in the scope of a declared name, where there are such.
#[cycle(spell)]
fn spell_inside(
    alloc: Global,
    index: &mut Index,
    calls: &[Option<usize>],
    also: &[bool],
    shorten: bool,
    place: usize,
    opens: bool,
    args: &[Node],
    body: &mut Vec<Node>,
    scope: usize,
) -> Result<(), AllocError>
    requires scope_in { scope < length index.old.paths }
    requires all { length index.old.named.items ≡ length index.old.paths }
    requires short { length calls.now ≤ length index.old.paths }
    requires few { length also.now ≤ length index.old.paths }
    ensures grows { OnOk result (Grows index.old.paths index.old.named.items index.new.paths index.new.named.items calls.now also.now) }
    ensures body { OnOk result (SpellsOpened shorten index.old.paths index.old.named.items calls.now also.now opens
        (trees_of body.old.items) (trees_of body.new.items) (place_at place (trees_of args.now) (get_or index.old.paths scope []))) }
    ensures places { OnOk result (places_of body.new.items ≡ places_of body.old.items) }
{
    if !opens {
        return Ok(());
    }
    let inner = declared_place(index, calls, also, args, place, scope)?;
    spell_all(alloc, index, calls, also, shorten, body, inner)?;
    Ok(())
}

// The scope of the terms of a declared name.
#[inline(never)]
fn declared_place(
    index: &mut Index,
    calls: &[Option<usize>],
    also: &[bool],
    args: &[Node],
    place: usize,
    scope: usize,
) -> Result<usize, AllocError>
    requires scope_in { scope < length index.old.paths }
    requires all { length index.old.named.items ≡ length index.old.paths }
    requires short { length calls.now ≤ length index.old.paths }
    requires few { length also.now ≤ length index.old.paths }
    ensures grows { OnOk result (Grows index.old.paths index.old.named.items index.new.paths index.new.named.items calls.now also.now) }
    ensures within { IfOk result (λ n. n < length index.new.paths) }
    ensures path { IfOk result (λ n. get_or index.new.paths n [] ≡ place_at place (trees_of args.now) (get_or index.old.paths scope [])) }
{
    match name(args, place) {
        Some(name) => {
            let before = index.paths.len();
            let outer = prefixed(&index.paths, name, scope);
            let number = reach(index, outer, name.segs.as_slice())?;
            let count = index.paths.len();
            Ok(number)
        }
        None => Ok(scope),
    }
}

// The scope of the terms of a Scope; one whose name denotes nothing has the root's.
#[inline(never)]
fn opened_place(index: &Index, args: &[Node], scope: usize) -> usize
    requires scope_in { scope < length index.now.paths }
    requires all { length index.now.named.items ≡ length index.now.paths }
    ensures within { result < length index.now.paths }
    ensures path { get_or index.now.paths result [] ≡ opened_at (is_named_in index.now.paths index.now.named.items) (trees_of args.now)
        (get_or index.now.paths scope []) }
{
    match name(args, 0) {
        Some(name) => match denotes(&index.paths, &index.named, name, scope) {
            Some(number) => number,
            None => {
                let count = index.paths.len();
                0
            }
        },
        None => scope,
    }
}

// The type and the arity of an External, as they are written.
#[inline(never)]
fn spell_external(
    index: &Index,
    calls: &[Option<usize>],
    here: Occurrence,
    object: u64,
    parameters: Option<u64>,
    args: &mut Vec<Node>,
    scope: usize,
) -> Result<(), AllocError>
    requires scope_in { scope < length index.now.paths }
    ensures { OnOk result (SpellsExternal index.now.paths calls.now object parameters (trees_of args.old.items) (trees_of args.new.items)
        (get_or index.now.paths scope [])) }
{
    let written = match name(args, 0) {
        Some(name) => written_external(index, calls, name, object, parameters, scope),
        None => return Ok(()),
    };
    put_number(args, 1, written.object, here)?;
    put_number(args, 2, written.arity, here)?;
    Ok(())
}

// A number as the argument at a place, or behind all arguments where none stands there.
fn put_number(
    nodes: &mut Vec<Node>,
    place: usize,
    number: u64,
    here: Occurrence,
) -> Result<(), AllocError>
    ensures { OnOk result (trees_of nodes.new.items ≡ with_number_at place number (trees_of nodes.old.items)) }
{
    if place < nodes.len() {
        nodes[place].term = Term::Integer(number);
    } else {
        nodes.push(Node {
            id: here.id,
            place: here.place,
            term: Term::Integer(number),
        })?;
    }
    Ok(())
}

/// Spells the terms of a block as they have to stand in the bytes: a used name whose search meets several paths is
/// written from the root (ACPI Specification 6.4, 5.3), or in the shortest way that leads to the same path where
/// `shorten` asks for it; a name in a Package that would be searched is written from the root; an
/// External says its object type and its arity. `calls` says of the numbers of paths with how many arguments they
/// are called first, and `also` which of them a search meets though they are not named. The names are looked up in the
/// index for the last time. After a want of memory nothing is left of the terms.
pub fn spell(
    alloc: Global,
    index: Index,
    calls: &[Option<usize>],
    also: &[bool],
    shorten: bool,
    terms: Vec<Node>,
) -> Result<Vec<Node>, AllocError>
    requires all { length index.named.items ≡ length index.paths }
    requires short { length calls.now ≤ length index.paths }
    requires few { length also.now ≤ length index.paths }
    ensures trees { IfOk result (λ made. Knowing index.paths index.named.items calls.now also.now
        (λ d counts beside. trees_of made.items ≡ spelled_all shorten beside (is_named d) (written_for counts) (trees_of terms.items) [])) }
    ensures places { IfOk result (λ made. places_of made.items ≡ places_of terms.items) }
{
    let mut index = index;
    let mut made = terms;
    let count = index.paths.len();
    spell_all(alloc, &mut index, calls, also, shorten, &mut made, 0)?;
    Ok(made)
}
