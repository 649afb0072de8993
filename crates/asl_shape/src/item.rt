//! What is wrong with an item of a source.
ghost use Rattle.std.specs.Prelude.{◌≡◌, ◌∷◌, [], true, false, Some, None};
ghost use Rattle.asl_shape.specs.Shapes as spec;
ghost use Rattle.word_meanings.specs.Meanings as words;
ghost use Rattle.asl_shape.specs.AtRaw as at;
ghost use Rattle.asl_syntax.specs.Written.{written, writtens, written_in};

use crate::around::Around;
use asl_syntax::{NodeForm, SyntaxNode, SyntaxNodes};
use asl_words::operator::{Parameter, Slot};
use asl_words::parameters::{element_parameters, macro_parameters, parameters_of};
use asl_words::paths::parts;
use asl_words::resources::descriptor_parameters;
use iasl_messages::number::{NOT_ALLOWED_HERE, UNKNOWN_OPERATOR, WRONG_ARGUMENT_COUNT, WRONG_BODY};
use word_meanings::meaning::{Meaning, is_same, is_unknown, may_be, may_end, wants_braces};

fn is_empty(raw: &SyntaxNode<'_>) -> bool
    ensures { result ≡ spec.is_empty (written raw.now) }
{
    match &raw.form {
        NodeForm::Empty => true,
        NodeForm::Number { .. } => false,
        NodeForm::Text { .. } => false,
        NodeForm::Item { .. } => false,
        NodeForm::Apply { .. } => false,
        NodeForm::List { .. } => false,
        NodeForm::Comma => false,
        NodeForm::Semicolon => false,
    }
}

#[tactic(auto, using(crate::proofs::ItemLaws::takes_rules))]
pub fn takes(parameters: &[Parameter], args: &[SyntaxNode<'_>]) -> bool
    ensures { result ≡ at.takes_at parameters.now args.now }
{
    let Some((parameter, others)) = parts(parameters) else {
        return args.is_empty();
    };
    let Some((first, rest)) = parts(args) else {
        return may_end(parameters);
    };
    if parameter.omittable || !is_empty(first) {
        takes(others, rest)
    } else {
        false
    }
}

#[tactic(auto, using(crate::proofs::ItemLaws::empty_rules))]
fn none_empty(args: &[SyntaxNode<'_>]) -> bool
    ensures { result ≡ at.none_empty_at args.now }
{
    let Some((first, rest)) = parts(args) else {
        return true;
    };
    if is_empty(first) {
        false
    } else {
        none_empty(rest)
    }
}

#[tactic(auto, using(crate::proofs::ItemLaws::call_rules))]
fn is_call(args: &[SyntaxNode<'_>]) -> bool
    ensures { result ≡ at.is_call_at args.now }
{
    if args.len() <= 7 {
        none_empty(args)
    } else {
        false
    }
}

#[tactic(auto, using(crate::proofs::ItemLaws::has_rules))]
fn has_arguments(meaning: Meaning, args: &[SyntaxNode<'_>]) -> bool
    ensures { result ≡ at.has_arguments_at meaning args.now }
{
    match meaning {
        Meaning::Operator(operator) => takes(parameters_of(operator), args),
        Meaning::Known(_) | Meaning::Template => args.is_empty(),
        Meaning::Name | Meaning::Path => is_call(args),
        Meaning::Element(word) => takes(element_parameters(word), args),
        Meaning::Macro(text_macro) => takes(macro_parameters(text_macro), args),
        Meaning::Descriptor(descriptor) => takes(descriptor_parameters(descriptor), args),
        Meaning::Unknown => true,
    }
}

/// The first of an item's errors.
pub fn item_fault(
    slot: Slot,
    inside: Around,
    meaning: Meaning,
    args: &[SyntaxNode<'_>],
    has_body: bool,
) -> Option<u16>
    ensures { result ≡ words.item_fault slot inside.method meaning (at.has_arguments_at meaning args.now) has_body }
{
    if is_unknown(meaning) {
        return Some(UNKNOWN_OPERATOR);
    }
    if !may_be(slot, inside.method, meaning) {
        return Some(NOT_ALLOWED_HERE);
    }
    if !has_arguments(meaning, args) {
        return Some(WRONG_ARGUMENT_COUNT);
    }
    if !is_same(wants_braces(meaning), has_body) {
        return Some(WRONG_BODY);
    }
    None
}
