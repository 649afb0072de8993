//! The fragments that a line is made of.
ghost use Rattle.std.specs.Prelude.{◌≡◌, ◌+◌, ◌<◌, ◌≤◌, ◌==◌, ◌&&◌, false, not, length};
ghost use Rattle.std.specs.List.{prefix_len};
ghost use Rattle.asl_fragments.specs.Bytes.{in_identifier as in_identifier_by};
ghost use Rattle.asl_fragments.specs.Fragments as spec;

use crate::bytes::{begins_identifier, in_identifier};

/// What a fragment is.
#[derive(Clone, Copy, Debug)]
pub enum FragmentKind {
    /// A letter or `_`, and the letters, digits and `_` behind it.
    Identifier,
    /// A digit, and the letters, digits and `_` behind it. No identifier begins inside it.
    Number,
    /// `"`, and what stands behind it up to and with the closing `"`, or up to the line's end. A byte behind
    /// `\` does not close it.
    Quoted,
    /// `//` up to the line's end, or `/*` up to and with `*/`, or up to the line's end; also the front of a
    /// line that begins inside a block comment.
    Comment,
    /// Any other byte, alone.
    Other,
}

/// The fragment at the front of a text.
#[derive(Clone, Copy, Debug)]
pub struct Fragment {
    pub kind: FragmentKind,
    /// How many bytes it has.
    pub length: usize,
    /// Whether it is a block comment that no `*/` closes.
    pub left_open: bool,
}

fn identifier_length(text: &[u8]) -> usize
    ensures count { result ≡ prefix_len in_identifier_by text.now }
    ensures within { result ≤ length text.now }
{
    text.iter().take_while(|byte| in_identifier(**byte)).count()
}

fn closes(protected: bool, byte: u8) -> bool
    ensures { result ≡ (not protected && byte == 34) }
{
    !protected && byte == b'"'
}

fn protects(protected: bool, byte: u8) -> bool
    ensures { result ≡ (not protected && byte == 92) }
{
    !protected && byte == b'\\'
}

fn quoted_length(text: &[u8]) -> usize
    ensures count { result ≡ spec.quoted_length false text.now }
    ensures within { result ≤ length text.now }
{
    let mut protected = false;
    for (index, byte) in text.iter().enumerate() {
        if closes(protected, *byte) {
            return index + 1;
        }
        protected = protects(protected, *byte);
    }
    text.len()
}

// How much of a text inside a block comment is the comment's, and whether it is left open.
fn block_length(text: &[u8]) -> (usize, bool)
    ensures count { result.0 ≡ spec.block_length false text.now }
    ensures open_ { result.1 ≡ spec.block_is_open false text.now }
    ensures forward { 0 < length text.now → 0 < result.0 }
    ensures within { result.0 ≤ length text.now }
{
    let mut star = false;
    for (index, byte) in text.iter().enumerate() {
        if star && *byte == b'/' {
            return (index + 1, false);
        }
        star = *byte == b'*';
    }
    (text.len(), true)
}

fn plain(kind: FragmentKind, length: usize) -> Fragment
    ensures { result ≡ spec.made kind length false }
{
    Fragment {
        kind,
        length,
        left_open: false,
    }
}

// A block comment before whose inside so many bytes stand.
fn block(before: usize, text: &[u8]) -> Fragment
    requires { before ≤ 2 }
    ensures exact { result
        ≡ spec.made FragmentKind.Comment (before + spec.block_length false text.now) (spec.block_is_open false text.now) }
    ensures forward { 0 < before + length text.now → 0 < result.length }
    ensures within { result.length ≤ before + length text.now }
{
    let (inside, left_open) = block_length(text);
    Fragment {
        kind: FragmentKind::Comment,
        length: before + inside,
        left_open,
    }
}

#[tactic(auto, unfolding(crate::specs::Fragments::fragment_of_slash))]
fn fragment_of_slash(behind: &[u8]) -> Fragment
    ensures exact { result ≡ spec.fragment_of_slash behind.now }
    ensures forward { 0 < result.length }
    ensures within { result.length ≤ length behind.now + 1 }
{
    match behind {
        [b'/', inside @ ..] => plain(FragmentKind::Comment, inside.len() + 2),
        [b'*', inside @ ..] => block(2, inside),
        _ => plain(FragmentKind::Other, 1),
    }
}

#[tactic(auto, unfolding(crate::specs::Fragments::fragment_of))]
fn fragment_of(byte: u8, behind: &[u8]) -> Fragment
    ensures exact { result ≡ spec.fragment_of byte behind.now }
    ensures forward { 0 < result.length }
    ensures within { result.length ≤ length behind.now + 1 }
{
    if begins_identifier(byte) {
        plain(FragmentKind::Identifier, identifier_length(behind) + 1)
    } else if byte.is_ascii_digit() {
        plain(FragmentKind::Number, identifier_length(behind) + 1)
    } else if byte == b'"' {
        plain(FragmentKind::Quoted, quoted_length(behind) + 1)
    } else if byte == b'/' {
        fragment_of_slash(behind)
    } else {
        plain(FragmentKind::Other, 1)
    }
}

/// The first fragment of a text, which begins inside a block comment or does not.
pub fn first_fragment(text: &[u8], in_comment: bool) -> Fragment
    requires { 0 < length text.now }
    ensures exact { result ≡ spec.first_fragment in_comment text.now }
    ensures forward { 0 < result.length }
    ensures within { result.length ≤ length text.now }
{
    if in_comment {
        return block(0, text);
    }
    match text {
        [first, behind @ ..] => fragment_of(*first, behind),
        [] => plain(FragmentKind::Other, 0),
    }
}
