//! A source as a program: its blocks, one by one.
ghost use Rattle.std.specs.Prelude.{◌≡◌, ◌++◌, ◌∷◌, [], length, true, IfOk, IfErr, OnOk};
ghost use Rattle.asl_shape.specs.Forms as spec;
ghost use Rattle.asl_shape.specs.AtRaw as at;
ghost use Rattle.asl_terms.specs.AtRaw.{inside_at};
ghost use Rattle.asl_words.specs.Operators as table;
ghost use Rattle.term_plans.specs.Plans.{plan_of, plans_of, plan_at, text_of, join};

use crate::around::outside;
use crate::item::takes;
use crate::tree::{arguments, terms};
use acpi_values::width::Width;
use asl_syntax::{NodeForm, RawUnit, SyntaxNode, SyntaxNodes, SyntaxText};
use asl_terms::brackets::{inside_of, is_given};
use asl_terms::leaf::place_in;
use asl_terms::settle::number_at;
use asl_terms::work::Work;
use asl_tree::program::{Block, Blocks, Program};
use asl_tree::term::{Node, Term};
use asl_words::parameters::block_parameters;
use iasl_messages::message::{Message, Messages, Stage};
use iasl_messages::number::{NO_DEFINITION_BLOCK, WRONG_ARGUMENT_COUNT, WRONG_BODY};
use iasl_messages::place::Place;
use iasl_ports::list::Text;
use std::alloc::{AllocError, Global};

/// The begin of the source.
const START: Place = Place {
    file: 0,
    line: 1,
    column: 1,
};

// One error alone.
fn refusal(alloc: Global, number: u16, place: Place) -> Stage
    ensures { at.Refuses result (spec.one_error number place) }
{
    let mut messages = Messages::new(alloc);
    let message = Message {
        number,
        place,
        name: Text::new(alloc),
    };
    match messages.push(message) {
        Ok(()) => Stage::Refused(messages),
        Err(_) => Stage::Memory,
    }
}

#[tactic(auto, unfolding(term_plans::specs::Plans::plan_of))]
fn text_in(alloc: Global, term: &Term) -> Result<Text, AllocError>
    ensures { IfOk result (λ text. text ≡ text_of (plan_of term.now)) }
{
    match term {
        Term::Text(text) => Text::from_bytes(alloc, text.as_bytes()),
        _ => Ok(Text::new(alloc)),
    }
}

// The text that an argument is, counted from 0.
#[tactic(auto, using(crate::proofs::Units::text_rules))]
fn text_at(alloc: Global, nodes: &[Node], i: usize) -> Result<Text, AllocError>
    ensures { IfOk result (λ text. text ≡ text_of (plan_at (plans_of nodes.now) i)) }
{
    match nodes.get(i) {
        Some(node) => Ok(text_in(alloc, &node.term)?),
        None => Ok(Text::new(alloc)),
    }
}

// The block of these arguments and terms.
fn block_of(
    alloc: Global,
    place: Place,
    args: &[Node],
    terms: Vec<Node>,
) -> Result<Block, AllocError>
    ensures { IfOk result (spec.IsBlock place (plans_of args.now) (plans_of terms.items)) }
{
    Ok(Block {
        place,
        file: text_at(alloc, args, 0)?,
        signature: text_at(alloc, args, 1)?,
        revision: revision_in(args),
        oem_id: text_at(alloc, args, 3)?,
        table_id: text_at(alloc, args, 4)?,
        oem_revision: (number_at(args, 5) % 4_294_967_296) as u32,
        terms,
    })
}

fn block_fault(has_arguments: bool, has_body: bool) -> Option<u16>
    ensures { result ≡ spec.block_fault has_arguments has_body }
{
    if !has_arguments {
        return Some(WRONG_ARGUMENT_COUNT);
    }
    if !has_body {
        return Some(WRONG_BODY);
    }
    None
}

// The revision that the arguments of a block state.
fn revision_in(args: &[Node]) -> u8
    ensures { result ≡ spec.revision_in (plans_of args.now) }
{
    (number_at(args, 2) % 256) as u8
}

// The terms of a block with these arguments.
fn block_terms(
    alloc: Global,
    work: &mut Work,
    list: &mut Vec<Node>,
    args: &[Node],
    body: &[SyntaxNode<'_>],
) -> Result<(), AllocError>
    ensures faults { OnOk result (work.new.faults.items ≡ work.old.faults.items ++ (spec.terms_in (plans_of args.now) body.now).faults) }
    ensures made { OnOk result
        (plans_of list.new.items ≡ join (plans_of list.old.items) (spec.terms_in (plans_of args.now) body.now).made) }
{
    let around = outside(Width::of_revision(revision_in(args)));
    Ok(terms(alloc, work, list, &around, body)?)
}

// The arguments of a block, and its terms.
#[tactic(auto, using(crate::proofs::Units::inside_rules))]
fn inside(
    alloc: Global,
    work: &mut Work,
    nodes: &mut Vec<Node>,
    list: &mut Vec<Node>,
    place: Place,
    args: &[SyntaxNode<'_>],
    body: &[SyntaxNode<'_>],
) -> Result<(), AllocError>
    requires { nodes.now.items ≡ [] }
    ensures faults { OnOk result (work.new.faults.items ≡ work.old.faults.items ++ spec.errors_in place args.now body.now) }
    ensures args { OnOk result (plans_of nodes.new.items ≡ (spec.args_in place args.now).made) }
    ensures terms { OnOk result
        (plans_of list.new.items ≡ join (plans_of list.old.items) (spec.terms_in (spec.args_in place args.now).made body.now).made) }
{
    let around = outside(Width::W64);
    arguments(
        alloc,
        work,
        nodes,
        block_parameters(),
        &around,
        &place,
        args,
    )?;
    Ok(block_terms(alloc, work, list, nodes, body)?)
}

// A block whose arguments and braces are there.
#[tactic(auto, using(crate::proofs::Units::block_rules))]
fn shaped(
    alloc: Global,
    place: Place,
    args: &[SyntaxNode<'_>],
    body: &[SyntaxNode<'_>],
) -> Result<Block, Stage>
    ensures formed { IfOk result (λ block. (spec.errors_in place args.now body.now ≡ [])
        × spec.IsBlock place (spec.args_in place args.now).made (spec.terms_in (spec.args_in place args.now).made body.now).made block) }
    ensures refused { IfErr result (λ stage. at.Refuses stage (spec.errors_in place args.now body.now)) }
{
    let mut work = Work {
        faults: Vec::new(alloc),
    };
    let mut nodes = Vec::new(alloc);
    let mut list = Vec::new(alloc);
    match inside(alloc, &mut work, &mut nodes, &mut list, place, args, body) {
        Ok(()) => {
            if !work.faults.is_empty() {
                return Err(Stage::Refused(Messages::from_vec(work.faults)));
            }
            match block_of(alloc, place, &nodes, list) {
                Ok(block) => Ok(block),
                Err(_) => Err(Stage::Memory),
            }
        }
        Err(_) => Err(Stage::Memory),
    }
}

// A block with its arguments and its braces.
#[tactic(auto, using(crate::proofs::Units::stated_rules))]
fn block(
    alloc: Global,
    place: Place,
    args: &Option<SyntaxNodes<'_>>,
    body: &Option<SyntaxNodes<'_>>,
) -> Result<Block, Stage>
    ensures formed { IfOk result (λ block. (spec.block_errors_at place args.now body.now ≡ [])
        × spec.IsBlock place (spec.args_in place (inside_at args.now)).made
        (spec.terms_in (spec.args_in place (inside_at args.now)).made (inside_at body.now)).made block) }
    ensures refused { IfErr result (λ stage. at.Refuses stage (spec.block_errors_at place args.now body.now)) }
{
    let has_arguments = takes(block_parameters(), inside_of(args));
    if let Some(number) = block_fault(has_arguments, is_given(body)) {
        return Err(refusal(alloc, number, place));
    }
    shaped(alloc, place, inside_of(args), inside_of(body))
}

fn is_block_word(word: &SyntaxText<'_>) -> bool
    ensures { result ≡ spec.is_block_word word.now }
{
    word.as_bytes() == b"DEFINITIONBLOCK".as_slice()
}

// Whether an item is a block.
#[tactic(auto, using(crate::proofs::Units::block_items))]
fn is_block(raw: &SyntaxNode<'_>) -> bool
    ensures { result ≡ spec.is_block_at raw.now }
{
    match &raw.form {
        NodeForm::Item { word, .. } => is_block_word(word),
        NodeForm::Number { .. } => false,
        NodeForm::Text { .. } => false,
        NodeForm::Apply { .. } => false,
        NodeForm::List { .. } => false,
        NodeForm::Comma => false,
        NodeForm::Semicolon => false,
        NodeForm::Empty => false,
    }
}

// The block that an item is.
#[tactic(auto, using(crate::proofs::Units::block_items))]
fn block_in(alloc: Global, raw: &SyntaxNode<'_>) -> Result<Block, Stage>
    requires { spec.is_block_at raw.now ≡ true }
    ensures formed { IfOk result (λ block. (spec.errors_at (spec.alone raw.now) ≡ []) × spec.IsBlockOf (spec.alone raw.now) block) }
    ensures refused { IfErr result (λ stage. at.Refuses stage (spec.errors_at (spec.alone raw.now))) }
{
    match &raw.form {
        NodeForm::Item {
            place,
            args,
            body,
            ..
        } => block(alloc, *place, args, body),
        NodeForm::Number { .. } => unreachable!(),
        NodeForm::Text { .. } => unreachable!(),
        NodeForm::Apply { .. } => unreachable!(),
        NodeForm::List { .. } => unreachable!(),
        NodeForm::Comma => unreachable!(),
        NodeForm::Semicolon => unreachable!(),
        NodeForm::Empty => unreachable!(),
    }
}

// Adds an item that is a block to the others, or its errors to theirs.
#[tactic(auto, using(crate::proofs::Units::added_rules))]
fn add_item(
    alloc: Global,
    faults: &mut Vec<Message>,
    blocks: &mut Blocks,
    raw: &SyntaxNode<'_>,
) -> Result<(), AllocError>
    ensures faults { OnOk result (faults.new.items ≡ faults.old.items ++ spec.errors_in_block raw.now) }
    ensures blocks { OnOk result (spec.is_block_at raw.now ≡ true → spec.errors_in_block raw.now ≡ [] →
        spec.AddsBlock raw.now blocks.old blocks.new) }
{
    if !is_block(raw) {
        return Ok(());
    }
    match block_in(alloc, raw) {
        Ok(block) => Ok(blocks.push(block)?),
        Err(Stage::Refused(messages)) => Ok(faults.append(&mut messages.into_vec())?),
        Err(Stage::Memory) => Err(AllocError),
    }
}

// The blocks among some items, or the errors of these.
fn blocks_of(
    alloc: Global,
    faults: &mut Vec<Message>,
    raws: &[SyntaxNode<'_>],
) -> Result<Blocks, AllocError>
    ensures faults { OnOk result (faults.new.items ≡ faults.old.items ++ spec.errors_in_blocks raws.now) }
    ensures blocks { IfOk result (λ blocks. spec.errors_in_blocks raws.now ≡ [] → spec.stray_errors raws.now ≡ [] →
        spec.AreBlocksOf raws.now blocks) }
{
    let mut blocks = Blocks::new(alloc);
    for raw in raws {
        add_item(alloc, faults, &mut blocks, raw)?;
    }
    Ok(blocks)
}

// Tells where an item is no block.
fn tell_stray(alloc: Global, faults: &mut Vec<Message>, place: Place) -> Result<(), AllocError>
    ensures { OnOk result (faults.new.items ≡ faults.old.items ++ spec.no_block place) }
{
    Ok(faults.push(Message {
        number: NO_DEFINITION_BLOCK,
        place,
        name: Text::new(alloc),
    })?)
}

// Tells of the first item that is no block.
fn add_stray(
    alloc: Global,
    faults: &mut Vec<Message>,
    raws: &[SyntaxNode<'_>],
) -> Result<(), AllocError>
    ensures { OnOk result (faults.new.items ≡ faults.old.items ++ spec.stray_errors raws.now) }
{
    for raw in raws {
        if !is_block(raw) {
            return tell_stray(alloc, faults, place_in(START, raw));
        }
    }
    Ok(())
}

// The blocks of a source of some items, or its errors.
#[tactic(auto, using(crate::proofs::Units::source_rules))]
fn source_blocks(
    alloc: Global,
    faults: &mut Vec<Message>,
    raws: &[SyntaxNode<'_>],
) -> Result<Blocks, AllocError>
    requires { faults.old.items ≡ [] }
    ensures faults { OnOk result (faults.new.items ≡ spec.source_errors raws.now) }
    ensures blocks { IfOk result (λ blocks. spec.source_errors raws.now ≡ [] → spec.AreBlocksOf raws.now blocks) }
{
    if raws.is_empty() {
        tell_stray(alloc, faults, START)?;
        return Ok(Blocks::new(alloc));
    }
    let blocks = blocks_of(alloc, faults, raws)?;
    add_stray(alloc, faults, raws)?;
    Ok(blocks)
}

/// The program that a source is: one or more definition blocks (ACPI Specification 6.4, 19.6.29), in their order. The tree has no errors
/// then, and each block is the tree of its terms, each at its place; the numbers of its nodes are not told apart yet. Otherwise it is
/// refused with exactly its errors, 6020 to 6030: those of each block, in the order of the source, for each item the first of 6020, 6025,
/// 6021 and 6023, for any other argument the first of 6022 and 6024, and nothing inside of either; and behind them 6028 at the first item
/// that is no block, or at 1:1 where there is no item. What is written with a symbol stands at the symbol. A want of memory is
/// `Stage::Memory`.
pub fn shape(alloc: Global, raw: &RawUnit<'_>) -> Result<Program, Stage>
    ensures formed { IfOk result (spec.Forms raw.now.items) }
    ensures refused { IfErr result (λ stage. at.Refuses stage (spec.source_errors raw.now.items)) }
{
    let mut faults = Vec::new(alloc);
    match source_blocks(alloc, &mut faults, raw.items.as_slice()) {
        Ok(blocks) if faults.is_empty() => Ok(Program { blocks }),
        Ok(_) => Err(Stage::Refused(Messages::from_vec(faults))),
        Err(AllocError) => Err(Stage::Memory),
    }
}
