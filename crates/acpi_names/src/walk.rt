//! The names that expressions mention.
ghost use Rattle.std.specs.Prelude.{◌≡◌, false, [], ◌∷◌, get_or, not, ◌&&◌, OnOk, slice_get};
ghost use Rattle.asl_tree.specs.View.{trees_of};
ghost use Rattle.asl_operators.specs.Letters.{letters_as};
ghost use Rattle.acpi_names.specs.Errors.{asked_by as asks_by};
ghost use Rattle.acpi_names.specs.Mentions.{is_spot as spot_is, is_use as use_is, asked_value as value_asked, asked_use as use_asked};
ghost use Rattle.acpi_names.specs.Mentions.{letter_mention, mentions, mentions_all, element_mentions};
ghost use Rattle.acpi_values.specs.Operators as L;
ghost use Rattle.acpi_names.specs.Walked.{value_form_of, value_mentions, optional_mentions, argument_mentions, cond_mention, node_tree};
ghost use Rattle.acpi_names.specs.Walked.{assign_mentions};
ghost use Rattle.acpi_names.specs.Shown.{Tells, asked_as};

use crate::mention::{Asked, Mention, spot_of};
use crate::part::{Shape, ValueForm, is_spot, is_use, shape_of, value_form_for};
use acpi_values::operator::{EventOp, Plain};
use asl_operators::letter::Letter;
use asl_operators::rows::letters;
use asl_tree::term::{Node, Op};
use std::alloc::AllocError;

fn letter_at(letters: &[Letter], index: usize) -> Option<Letter>
    ensures { result ≡ slice_get letters.now index }
{
    letters.get(index).copied()
}

// Whether a term that stands for a place is asked for kinds inside it.
#[tactic(auto, using(crate::proofs::Walked::shape_spot))]
fn asks_spot(asked: bool, node: &Node) -> bool
    ensures { result ≡ (asked && spot_is (node_tree node.now)) }
{
    asked && is_spot(&node.term)
}

// Whether an element of a Package is asked for its kind.
#[tactic(auto, using(crate::proofs::Walked::shape_use))]
fn asks_element(asked: bool, node: &Node) -> bool
    ensures { result ≡ (asked && not (use_is (node_tree node.now))) }
{
    asked && !is_use(&node.term)
}

// What is asked of a name that is an expression.
fn asked_value(asked: bool) -> Asked
    ensures { asked_as result ≡ value_asked asked }
{
    if asked { Asked::Value } else { Asked::Anything }
}

// What an operator asks of the path that it uses.
fn asked_by(op: Plain) -> Asked
    ensures { asked_as result ≡ asks_by op }
{
    match op {
        Plain::Event(EventOp::Acquire) | Plain::Event(EventOp::Release) => Asked::Mutex,
        Plain::Event(EventOp::Wait)
        | Plain::Event(EventOp::Signal)
        | Plain::Event(EventOp::Reset) => Asked::Event,
        _ => Asked::Anything,
    }
}

// The same, where kinds are asked for or not.
fn asked_use(asked: bool, op: Plain) -> Asked
    ensures { asked_as result ≡ use_asked asked op }
{
    if asked { asked_by(op) } else { Asked::Anything }
}

/// The mentions of an expression.
#[cycle(walk)]
#[inline(always)]
pub(crate) fn value<'a>(
    out: &mut Vec<Mention<'a>>,
    node: &'a Node,
    scope: usize,
    asked: bool,
) -> Result<(), AllocError>
    ensures { OnOk result (Tells out.old.items out.new.items (λ paths. mentions asked (node_tree node.now) (get_or paths scope []))) }
{
    let at = spot_of(node);
    match shape_of(&node.term) {
        Shape::Name(name) => {
            out.push(Mention::Used {
                asked: asked_value(asked),
                at,
                name,
                scope,
            })?;
            Ok(())
        }
        Shape::Call(name, args) => {
            out.push(Mention::Called {
                asked,
                at,
                name,
                args: args.len(),
                scope,
            })?;
            values(out, args, scope, asked)?;
            Ok(())
        }
        Shape::Form(op, args, body) => {
            form(out, op, args, body, scope, asked)?;
            Ok(())
        }
        Shape::Other => Ok(()),
    }
}

/// The mentions of expressions one after another.
#[cycle(walk)]
pub(crate) fn values<'a>(
    out: &mut Vec<Mention<'a>>,
    nodes: &'a [Node],
    scope: usize,
    asked: bool,
) -> Result<(), AllocError>
    ensures { OnOk result (Tells out.old.items out.new.items (λ paths. mentions_all asked (trees_of nodes.now) (get_or paths scope []))) }
{
    for node in nodes {
        value(out, node, scope, asked)?;
    }
    Ok(())
}

/// The mentions of an expression that is a form.
#[cycle(walk)]
pub(crate) fn form<'a>(
    out: &mut Vec<Mention<'a>>,
    op: Op,
    args: &'a [Node],
    body: &'a [Node],
    scope: usize,
    asked: bool,
) -> Result<(), AllocError>
    ensures { OnOk result
        (Tells out.old.items out.new.items (λ paths. value_mentions (value_form_of op (trees_of args.now) (trees_of body.now)) asked
        (trees_of args.now) (trees_of body.now) (get_or paths scope []))) }
{
    match value_form_for(op, args, body) {
        ValueForm::Nothing => Ok(()),
        ValueForm::Operator(op) => {
            operands(out, letters(op), asked_use(asked, op), args, scope, asked)?;
            Ok(())
        }
        ValueForm::CondRefOf => match args {
            [place, target] => {
                sought(out, place, scope, asked)?;
                spot(out, target, scope, asked)?;
                Ok(())
            }
            _ => Ok(()),
        },
        ValueForm::Assign => {
            assignment(out, args, scope, asked)?;
            Ok(())
        }
        ValueForm::AssignBy => {
            values(out, args, scope, asked)?;
            Ok(())
        }
        ValueForm::Buffer => {
            values(out, args, scope, asked)?;
            Ok(())
        }
        ValueForm::Package => {
            values(out, args, scope, asked)?;
            elements(out, body, scope, asked)?;
            Ok(())
        }
    }
}

// The value and then the target of `X = E`.
#[cycle(walk)]
fn assignment<'a>(
    out: &mut Vec<Mention<'a>>,
    args: &'a [Node],
    scope: usize,
    asked: bool,
) -> Result<(), AllocError>
    ensures { OnOk result (Tells out.old.items out.new.items (λ paths. assign_mentions asked (trees_of args.now) (get_or paths scope []))) }
{
    match args {
        [target, given] => {
            value(out, given, scope, asked)?;
            spot(out, target, scope, asked)?;
            Ok(())
        }
        _ => Ok(()),
    }
}

#[cycle(walk)]
fn operands<'a>(
    out: &mut Vec<Mention<'a>>,
    letters: &[Letter],
    uses: Asked,
    nodes: &'a [Node],
    scope: usize,
    asked: bool,
) -> Result<(), AllocError>
    ensures { OnOk result
        (Tells out.old.items out.new.items (λ paths. argument_mentions asked (asked_as uses) (letters_as letters.now) (trees_of nodes.now)
        (get_or paths scope []))) }
{
    for (index, node) in nodes.iter().enumerate() {
        argument(out, letter_at(letters, index), uses, node, scope, asked)?;
    }
    Ok(())
}

// An argument of an operator: an operand, or a target behind the operands.
#[cycle(walk)]
fn argument<'a>(
    out: &mut Vec<Mention<'a>>,
    letter: Option<Letter>,
    uses: Asked,
    node: &'a Node,
    scope: usize,
    asked: bool,
) -> Result<(), AllocError>
    ensures { OnOk result
        (Tells out.old.items out.new.items
        (λ paths. optional_mentions asked (asked_as uses) letter (node_tree node.now) (get_or paths scope []))) }
{
    match letter {
        Some(Letter::Valued) | Some(Letter::Kept) => {
            value(out, node, scope, asked)?;
            Ok(())
        }
        Some(Letter::Placed) | None => {
            spot(out, node, scope, asked)?;
            Ok(())
        }
        Some(Letter::Used) => {
            used(out, node, scope, uses)?;
            Ok(())
        }
        Some(Letter::Byte) | Some(Letter::Word) | Some(Letter::DWord) => Ok(()),
    }
}

// A path that is used.
#[cycle(walk)]
fn used<'a>(
    out: &mut Vec<Mention<'a>>,
    node: &'a Node,
    scope: usize,
    uses: Asked,
) -> Result<(), AllocError>
    ensures { OnOk result
        (Tells out.old.items out.new.items
        (λ paths. letter_mention L.Used (asked_as uses) (node_tree node.now) (mentions false (node_tree node.now) (get_or paths scope []))
        (get_or paths scope []))) }
{
    match shape_of(&node.term) {
        Shape::Name(name) => {
            let at = spot_of(node);
            out.push(Mention::Used {
                asked: uses,
                at,
                name,
                scope,
            })?;
            Ok(())
        }
        _ => {
            value(out, node, scope, false)?;
            Ok(())
        }
    }
}

// A term that stands for a place.
#[cycle(walk)]
pub(crate) fn spot<'a>(
    out: &mut Vec<Mention<'a>>,
    node: &'a Node,
    scope: usize,
    asked: bool,
) -> Result<(), AllocError>
    ensures { OnOk result
        (Tells out.old.items out.new.items
        (λ paths. mentions (asked && spot_is (node_tree node.now)) (node_tree node.now) (get_or paths scope []))) }
{
    value(out, node, scope, asks_spot(asked, node))?;
    Ok(())
}

// The place of CondRefOf, where a name may lead nowhere.
#[cycle(walk)]
fn sought<'a>(
    out: &mut Vec<Mention<'a>>,
    node: &'a Node,
    scope: usize,
    asked: bool,
) -> Result<(), AllocError>
    ensures { OnOk result (Tells out.old.items out.new.items (λ paths. cond_mention asked (node_tree node.now) (get_or paths scope []))) }
{
    match shape_of(&node.term) {
        Shape::Name(name) => {
            let at = spot_of(node);
            out.push(Mention::Sought { at, name, scope })?;
            Ok(())
        }
        _ => {
            spot(out, node, scope, asked)?;
            Ok(())
        }
    }
}

// Elements of a Package: a name is a reference, whatever it leads to.
#[cycle(walk)]
fn elements<'a>(
    out: &mut Vec<Mention<'a>>,
    nodes: &'a [Node],
    scope: usize,
    asked: bool,
) -> Result<(), AllocError>
    ensures { OnOk result
        (Tells out.old.items out.new.items (λ paths. element_mentions asked (trees_of nodes.now) (get_or paths scope []))) }
{
    for node in nodes {
        value(out, node, scope, asks_element(asked, node))?;
    }
    Ok(())
}
