//! Which fragments of a text are names to be replaced.
ghost use Rattle.std.specs.Prelude.{◌≡◌, ◌&&◌};
ghost use Rattle.asl_macros.specs.Replacement as spec;

use asl_fragments::bytes::is_blank_text;
use asl_fragments::fragment::FragmentKind;

/// Where names are replaced.
#[derive(Clone, Copy, Debug)]
pub enum Within {
    /// In a line of a source.
    InLine,
    /// In a condition: the identifier behind `defined` is not replaced.
    InCondition,
}

/// Where a fragment stands.
#[derive(Clone, Copy, Debug)]
pub enum FragmentContext {
    Anywhere,
    /// Behind the word `defined`, and blanks.
    BehindDefined,
    /// Behind a parenthesis that stands there, and blanks.
    BehindParenthesis,
}

fn is_identifier(kind: FragmentKind) -> bool
    ensures { result ≡ spec.is_identifier kind }
{
    matches!(kind, FragmentKind::Identifier)
}

fn is_defined(text: &[u8]) -> bool
    ensures { result ≡ spec.is_defined text.now }
{
    text == b"defined".as_slice()
}

// Whether a fragment stands for blanks: it is blank, or a comment.
fn stands_for_blanks(kind: FragmentKind, text: &[u8]) -> bool
    ensures { result ≡ spec.stands_for_blanks kind text.now }
{
    match kind {
        FragmentKind::Comment => true,
        _ => is_blank_text(text),
    }
}

fn is_parenthesis(text: &[u8]) -> bool
    ensures { result ≡ spec.is_parenthesis text.now }
{
    text == b"(".as_slice()
}

fn is_name_at(within: Within, context: FragmentContext, text: &[u8]) -> bool
    ensures { result ≡ spec.is_name_at within context text.now }
{
    match within {
        Within::InLine => true,
        Within::InCondition => match context {
            FragmentContext::Anywhere => !is_defined(text),
            FragmentContext::BehindDefined | FragmentContext::BehindParenthesis => false,
        },
    }
}

/// Whether a fragment is a name to be replaced.
pub fn is_name(within: Within, context: FragmentContext, kind: FragmentKind, text: &[u8]) -> bool
    ensures { result ≡ spec.is_name within context kind text.now }
{
    is_identifier(kind) && is_name_at(within, context, text)
}

fn is_defined_word(kind: FragmentKind, text: &[u8]) -> bool
    ensures { result ≡ (spec.is_identifier kind && spec.is_defined text.now) }
{
    is_identifier(kind) && is_defined(text)
}

/// Where the next fragment stands.
pub fn context_behind(context: FragmentContext, kind: FragmentKind, text: &[u8]) -> FragmentContext
    ensures { result ≡ spec.context_behind context kind text.now }
{
    match context {
        FragmentContext::Anywhere => {
            if is_defined_word(kind, text) {
                FragmentContext::BehindDefined
            } else {
                FragmentContext::Anywhere
            }
        }
        FragmentContext::BehindDefined => {
            if stands_for_blanks(kind, text) {
                FragmentContext::BehindDefined
            } else if is_parenthesis(text) {
                FragmentContext::BehindParenthesis
            } else {
                FragmentContext::Anywhere
            }
        }
        FragmentContext::BehindParenthesis => {
            if stands_for_blanks(kind, text) {
                FragmentContext::BehindParenthesis
            } else {
                FragmentContext::Anywhere
            }
        }
    }
}
