//! The literals that 32 bits cannot hold.
ghost use Rattle.std.specs.Prelude.{◌≡◌, ◌++◌, IfOk, OnOk, [], drop};
ghost use Rattle.asl_terms.specs.AtRaw.{inside_at, is_some};
ghost use Rattle.asl_shape.specs.Forms.{alone};
ghost use Rattle.literal_checks.specs.Literals as spec;

use acpi_values::width::Width;
use asl_syntax::{NodeForm, SyntaxNode, SyntaxNodes};
use asl_words::operator::{Body, Parameter, Slot};
use asl_words::parameters::{body_of, parameters_of};
use iasl_messages::message::{Message, Messages};
use iasl_messages::number::CONSTANT_IS_CUT;
use iasl_messages::place::Place;
use iasl_ports::list::Text;
use std::alloc::{AllocError, Global};
use word_meanings::meaning::{Meaning, meaning_of};

const MOST: u64 = 0xFFFF_FFFF;

// Whether what is asked for is a constant that is evaluated with 64 bits.
fn is_wide(slot: Slot) -> bool
    ensures { result ≡ spec.is_wide slot }
{
    matches!(slot, Slot::Constant { .. } | Slot::Space)
}

// Whether the argument of this number is asked for so.
#[tactic(auto, using(crate::proofs::Told::wide_rules))]
fn is_wide_at(parameters: &[Parameter], i: usize) -> bool
    ensures { result ≡ spec.is_first_wide (drop i parameters.now) }
{
    if i < parameters.len() {
        is_wide(parameters[i].slot)
    } else {
        false
    }
}

// How the arguments of an item are asked for.
fn parameters_in(meaning: Meaning) -> &'static [Parameter]
    ensures { result.now ≡ spec.parameters_in meaning }
{
    match meaning {
        Meaning::Operator(op) => parameters_of(op),
        _ => &[],
    }
}

fn is_bytes(body: Body) -> bool
    ensures { result ≡ spec.is_bytes body }
{
    matches!(body, Body::Bytes)
}

// Whether the braces of an item hold constants of 64 bits alone.
fn holds_wide(meaning: Meaning) -> bool
    ensures { result ≡ spec.holds_wide meaning }
{
    match meaning {
        Meaning::Operator(op) => is_bytes(body_of(op)),
        Meaning::Template => true,
        _ => false,
    }
}

// What stands in brackets.
fn inside_of<'r, 'a>(raws: &'r Option<SyntaxNodes<'a>>) -> &'r [SyntaxNode<'a>]
    ensures { result.now ≡ inside_at raws.now }
{
    match raws {
        Some(raws) => raws.as_slice(),
        None => &[],
    }
}

fn is_given(raws: &Option<SyntaxNodes<'_>>) -> bool
    ensures { result ≡ is_some raws.now }
{
    match raws {
        Some(_) => true,
        None => false,
    }
}

// A literal that 32 bits cannot hold.
#[tactic(auto, using(crate::proofs::Told::nothing_more))]
fn tell(alloc: Global, out: &mut Vec<Message>, place: Place, value: u64) -> Result<(), AllocError>
    ensures { OnOk result (out.new.items ≡ out.old.items ++ spec.told_number place value) }
{
    if value > MOST {
        out.push(Message {
            number: CONSTANT_IS_CUT,
            place,
            name: Text::new(alloc),
        })?;
    }
    Ok(())
}

// A part of a source.
#[cycle(parts)]
#[tactic(auto, using(crate::proofs::Told::part_rules, asl_shape::proofs::Shapes::size_rules))]
fn part(alloc: Global, out: &mut Vec<Message>, raw: &SyntaxNode<'_>) -> Result<(), AllocError>
    ensures { OnOk result (out.new.items ≡ out.old.items ++ spec.told_at raw.now) }
{
    match &raw.form {
        NodeForm::Number { place, value } => Ok(tell(alloc, out, *place, *value)?),
        NodeForm::Item {
            word,
            args,
            body,
            ..
        } => Ok(item(
            alloc,
            out,
            meaning_of(word.as_bytes(), is_given(body)),
            args,
            body,
        )?),
        NodeForm::Apply { args, .. } => Ok(parts(alloc, out, &[], args.as_slice())?),
        NodeForm::Text { .. } => Ok(()),
        NodeForm::List { .. } => Ok(()),
        NodeForm::Comma => Ok(()),
        NodeForm::Semicolon => Ok(()),
        NodeForm::Empty => Ok(()),
    }
}

// The arguments and the braces of an item that is this.
#[cycle(parts)]
#[tactic(auto, using(crate::proofs::Told::item_rules, asl_shape::proofs::Shapes::size_rules))]
fn item(
    alloc: Global,
    out: &mut Vec<Message>,
    meaning: Meaning,
    args: &Option<SyntaxNodes<'_>>,
    body: &Option<SyntaxNodes<'_>>,
) -> Result<(), AllocError>
    ensures { OnOk result (out.new.items ≡ out.old.items ++ spec.told_item_at meaning args.now body.now) }
{
    parts(alloc, out, parameters_in(meaning), inside_of(args))?;
    if holds_wide(meaning) {
        Ok(())
    } else {
        Ok(parts(alloc, out, &[], inside_of(body))?)
    }
}

// A part, unless it is a constant of 64 bits.
#[cycle(parts)]
#[tactic(auto, using(crate::proofs::Told::nothing_more))]
fn unless_wide(
    alloc: Global,
    out: &mut Vec<Message>,
    wide: bool,
    raw: &SyntaxNode<'_>,
) -> Result<(), AllocError>
    ensures { OnOk result (out.new.items ≡ out.old.items ++ spec.unless wide (spec.told_at raw.now)) }
{
    if wide {
        Ok(())
    } else {
        Ok(part(alloc, out, raw)?)
    }
}

// Parts, which these parameters ask for.
#[cycle(parts)]
#[tactic(auto, using(crate::proofs::Told::list_rules, asl_shape::proofs::Shapes::size_within))]
fn parts(
    alloc: Global,
    out: &mut Vec<Message>,
    parameters: &[Parameter],
    raws: &[SyntaxNode<'_>],
) -> Result<(), AllocError>
    ensures { OnOk result (out.new.items ≡ out.old.items ++ spec.told_in_at parameters.now raws.now) }
{
    for i in 0..raws.len() {
        unless_wide(alloc, out, is_wide_at(parameters, i), &raws[i])?;
    }
    Ok(())
}

// The braces of a block.
#[tactic(auto, using(crate::proofs::Told::braces_rules))]
fn braces(alloc: Global, out: &mut Vec<Message>, raw: &SyntaxNode<'_>) -> Result<(), AllocError>
    ensures { OnOk result (out.new.items ≡ out.old.items ++ spec.told_braces_at raw.now) }
{
    match &raw.form {
        NodeForm::Item { body, .. } => Ok(parts(alloc, out, &[], inside_of(body))?),
        NodeForm::Number { .. } => Ok(()),
        NodeForm::Text { .. } => Ok(()),
        NodeForm::Apply { .. } => Ok(()),
        NodeForm::List { .. } => Ok(()),
        NodeForm::Comma => Ok(()),
        NodeForm::Semicolon => Ok(()),
        NodeForm::Empty => Ok(()),
    }
}

/// The warnings 3002 of a block that has integers of this width: at each literal over 2^32 - 1, in the order of the source,
/// where they have 32 bits. A literal inside of an argument that is a constant of a stated range, of a Buffer's list of
/// bytes, or of a resource template, is none: such constants are evaluated with 64 bits in every table, and so are the
/// block's own arguments.
#[tactic(auto, using(crate::proofs::Told::block_rules))]
pub fn cut_literals(
    alloc: Global,
    width: Width,
    block: &SyntaxNode<'_>,
) -> Result<Messages, AllocError>
    ensures { IfOk result (λ messages. messages ≡ spec.cut_literals_at width (alone block.now)) }
{
    let mut out = Vec::new(alloc);
    match width {
        Width::W32 => braces(alloc, &mut out, block)?,
        Width::W64 => (),
    }
    Ok(Messages::from_vec(out))
}
