//! What stands in braces.
ghost use Rattle.std.specs.Prelude.{◌≡◌, ◌≤◌, ◌<◌, drop, length, not, true, false};
ghost use Rattle.std.specs.List.{filter};
ghost use Rattle.asl_shape.specs.Shapes as spec;
ghost use Rattle.asl_shape.specs.AtRaw as at;

use crate::around::Around;
use asl_syntax::{NodeForm, SyntaxNode, SyntaxNodes};
use asl_terms::brackets::is_given;
use asl_tree::term::{Declaration, Op};
use asl_words::operator::{Body, Slot, StringForm};
use asl_words::paths::parts;
use word_meanings::meaning::{is_default, meaning_of, run_behind_word};

/// What the terms of a form stand in: those of a method inside one.
pub fn within(op: Op, inside: Around) -> Around
    ensures { result ≡ spec.within op inside }
{
    match op {
        Op::Declaration(Declaration::Method) => Around {
            method: true,
            width: inside.width,
        },
        _ => inside,
    }
}

/// Whether a member of a list only separates others.
pub fn is_separator(raw: &SyntaxNode<'_>) -> bool
    ensures { result ≡ at.is_separator_at raw.now }
{
    match &raw.form {
        NodeForm::Comma => true,
        NodeForm::Semicolon => true,
        NodeForm::Number { .. } => false,
        NodeForm::Text { .. } => false,
        NodeForm::Item { .. } => false,
        NodeForm::Apply { .. } => false,
        NodeForm::List { .. } => false,
        NodeForm::Empty => false,
    }
}

/// How many members are no separators.
pub fn count_members(raws: &[SyntaxNode<'_>]) -> usize
    ensures { result ≡ length (filter (λ raw. not (at.is_separator_at raw)) raws.now) }
{
    raws.iter().filter(|raw| !is_separator(raw)).count()
}

/// Whether a member is a comma.
pub fn is_comma(raw: &SyntaxNode<'_>) -> bool
    ensures { result ≡ at.is_comma_at raw.now }
{
    match &raw.form {
        NodeForm::Comma => true,
        NodeForm::Semicolon => false,
        NodeForm::Number { .. } => false,
        NodeForm::Text { .. } => false,
        NodeForm::Item { .. } => false,
        NodeForm::Apply { .. } => false,
        NodeForm::List { .. } => false,
        NodeForm::Empty => false,
    }
}

// Whether an element is to come behind this member: none where it may not stand.
#[tactic(auto, using(crate::proofs::Braces::due_rules))]
fn due_after(due: bool, raw: &SyntaxNode<'_>) -> Option<bool>
    ensures { result ≡ at.due_at due raw.now }
{
    if is_separator(raw) {
        if is_comma(raw) {
            if due { None } else { Some(true) }
        } else {
            None
        }
    } else {
        if due { Some(false) } else { None }
    }
}

/// Whether elements stand with commas between them.
#[tactic(auto, using(crate::proofs::Braces::listed_steps))]
pub fn is_listed(raws: &[SyntaxNode<'_>]) -> bool
    ensures { result ≡ at.is_listed_at true raws.now }
{
    let mut due = true;
    for raw in raws {
        match due_after(due, raw) {
            Some(next) => due = next,
            None => return false,
        }
    }
    true
}

/// Whether numbers that stand in braces have commas between them.
#[tactic(auto, unfolding(crate::specs::AtRaw::is_number_list_at, crate::specs::AtRaw::is_listed_at))]
pub fn is_number_list(body: Body, raws: &Option<SyntaxNodes<'_>>) -> bool
    ensures { result ≡ at.is_number_list_at body raws.now }
{
    match (body, raws) {
        (Body::Numbers { .. }, Some(raws)) => is_listed(raws.as_slice()),
        _ => true,
    }
}

fn is_text(raw: &SyntaxNode<'_>) -> bool
    ensures { result ≡ at.is_text_at raw.now }
{
    match &raw.form {
        NodeForm::Text { .. } => true,
        NodeForm::Comma => false,
        NodeForm::Semicolon => false,
        NodeForm::Number { .. } => false,
        NodeForm::Item { .. } => false,
        NodeForm::Apply { .. } => false,
        NodeForm::List { .. } => false,
        NodeForm::Empty => false,
    }
}

// Whether a list ends here: with nothing, or with one comma.
#[tactic(auto, using(crate::proofs::Braces::end_rules))]
fn is_list_end(raws: &[SyntaxNode<'_>]) -> bool
    ensures { result ≡ at.is_list_end_at raws.now }
{
    match parts(raws) {
        Some((first, rest)) => rest.is_empty() && is_comma(first),
        None => true,
    }
}

/// How the bytes of a Buffer are read: as one string, which a comma may follow, or as bytes.
#[tactic(auto, using(crate::proofs::Braces::byte_rules))]
pub fn byte_slot(raws: &[SyntaxNode<'_>]) -> Slot
    ensures { result ≡ at.byte_slot_at raws.now }
{
    let Some((first, rest)) = parts(raws) else {
        return Slot::Constant {
            least: 0,
            most: 255,
        };
    };
    if is_list_end(rest) && is_text(first) {
        Slot::String(StringForm::Any)
    } else {
        Slot::Constant {
            least: 0,
            most: 255,
        }
    }
}

/// The If that stands directly before what follows a member: how many ElseIfs stand behind it.
#[tactic(auto, using(crate::proofs::Braces::run_rules))]
pub fn run_after(run: Option<u8>, raw: &SyntaxNode<'_>) -> Option<u8>
    ensures { result ≡ at.run_after_at run raw.now }
{
    match &raw.form {
        NodeForm::Comma => run,
        NodeForm::Semicolon => run,
        NodeForm::Item { word, body, .. } => {
            run_behind_word(run, word.as_bytes(), is_given(body))
        }
        NodeForm::Number { .. } => None,
        NodeForm::Text { .. } => None,
        NodeForm::Apply { .. } => None,
        NodeForm::List { .. } => None,
        NodeForm::Empty => None,
    }
}

/// Whether a Default stands before what follows a member of a Switch.
#[tactic(auto, using(crate::proofs::Braces::default_rules))]
pub fn default_after(before: bool, raw: &SyntaxNode<'_>) -> bool
    ensures { result ≡ at.default_after_at before raw.now }
{
    match &raw.form {
        NodeForm::Item { word, body, .. } => {
            before || is_default(meaning_of(word.as_bytes(), is_given(body)))
        }
        NodeForm::Number { .. } => before,
        NodeForm::Text { .. } => before,
        NodeForm::Apply { .. } => before,
        NodeForm::List { .. } => before,
        NodeForm::Comma => before,
        NodeForm::Semicolon => before,
        NodeForm::Empty => before,
    }
}
