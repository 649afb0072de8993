//! Blanks, words and marks in a line.
ghost use Rattle.std.specs.Prelude.{◌≡◌, ◌∷◌, ◌==◌, ◌≤◌, [], List, ℕ, length, position, MatchOption, None};
ghost use Rattle.std.specs.Option.{option_map, option_copied};
ghost use Rattle.std.specs.List.{position_or_len};
ghost use Rattle.asl_directives.specs.Words as spec;

use asl_fragments::bytes::{begins_identifier, in_identifier, is_blank};

fn is_no_blank(byte: u8) -> bool
    ensures { result ≡ spec.is_no_blank byte }
{
    !is_blank(byte)
}

fn ends_word(byte: u8) -> bool
    ensures { result ≡ spec.ends_word byte }
{
    !in_identifier(byte)
}

fn first_no_blank(text: &[u8]) -> Option<usize>
    ensures { result ≡ position spec.is_no_blank text.now }
{
    text.iter().position(|byte| is_no_blank(*byte))
}

/// How many blanks stand at the front of a text.
#[tactic(auto, using(crate::proofs::Places::place_found, crate::proofs::Places::place_missing, crate::proofs::Places::place_within))]
pub fn blanks_before(text: &[u8]) -> usize
    ensures count { result ≡ spec.blanks_before text.now }
    ensures within { result ≤ length text.now }
{
    match first_no_blank(text) {
        Some(place) => place,
        None => text.len(),
    }
}

/// What stands behind the blanks at the front of a text.
pub fn past_blanks(text: &[u8]) -> &[u8]
    ensures { result.now ≡ spec.past_blanks text.now }
{
    &text[blanks_before(text)..]
}

#[tactic(auto, using(crate::proofs::Ends::blank_at_end, crate::proofs::Ends::other_at_end))]
fn without_blanks_behind(text: &[u8]) -> &[u8]
    ensures { result.now ≡ spec.without_blanks_behind text.now }
{
    let mut rest = text;
    while let [front @ .., last] = rest {
        if !is_blank(*last) {
            break;
        }
        rest = front;
    }
    rest
}

/// A text without the blanks at its two ends.
pub fn trimmed(text: &[u8]) -> &[u8]
    ensures { result.now ≡ spec.trimmed text.now }
{
    without_blanks_behind(past_blanks(text))
}

fn first_word_end(text: &[u8]) -> Option<usize>
    ensures { result ≡ position spec.ends_word text.now }
{
    text.iter().position(|byte| ends_word(*byte))
}

#[tactic(auto, using(crate::proofs::Places::place_found, crate::proofs::Places::place_missing, crate::proofs::Places::place_within))]
fn word_end(text: &[u8]) -> usize
    ensures place { result ≡ position_or_len spec.ends_word text.now }
    ensures within { result ≤ length text.now }
{
    match first_word_end(text) {
        Some(place) => place,
        None => text.len(),
    }
}

/// The letters, digits and `_` at the front of a text, and what stands behind them.
pub fn split_word(text: &[u8]) -> (&[u8], &[u8])
    ensures word { result.0.now ≡ spec.word_of text.now }
    ensures behind { result.1.now ≡ spec.behind_word text.now }
{
    text.split_at(word_end(text))
}

pub(crate) fn is_identifier(word: &[u8]) -> bool
    ensures { result ≡ spec.is_identifier word.now }
{
    match word {
        [] => false,
        [first, ..] => begins_identifier(*first),
    }
}

/// What stands behind this mark, where the text begins with it, blanks aside.
pub fn behind_mark(text: &[u8], mark: u8) -> Option<&[u8]>
    ensures { option_copied result ≡ spec.behind_mark mark text.now }
{
    match past_blanks(text) {
        [first, rest @ ..] if *first == mark => Some(rest),
        _ => None,
    }
}

fn mark_place(text: &[u8], mark: u8) -> Option<usize>
    ensures { result ≡ position (λ c. c == mark) text.now }
{
    text.iter().position(|byte| *byte == mark)
}

// A text up to the first of these marks, and what stands behind that.
pub(crate) fn split_at_mark(text: &[u8], mark: u8) -> Option<(&[u8], &[u8])>
    ensures { option_map (λ cut. (cut.0.now, cut.1.now)) result ≡ spec.split_at_mark mark text.now }
{
    match mark_place(text, mark) {
        Some(place) => Some((&text[..place], &text[place + 1..])),
        None => None,
    }
}
