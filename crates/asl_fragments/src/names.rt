//! The identifiers of a text, with a look at few of its other bytes.
ghost use Rattle.std.specs.Prelude.{◌≡◌, ◌∷◌, ◌≤◌, ◌<◌, [], false, IfSome, MatchOption, length, drop};
ghost use Rattle.std.specs.List.{prefix_len};
ghost use Rattle.asl_fragments.specs.Fragments as spec;

use crate::bytes::in_identifier;
use crate::fragment::{FragmentKind, first_fragment};

// Whether a byte outside words stands alone: no word, string or comment begins with it.
fn stands_alone(byte: u8) -> bool
    ensures { result ≡ spec.stands_alone byte }
{
    !in_identifier(byte) && byte != b'"' && byte != b'/'
}

fn alone_length(text: &[u8]) -> usize
    ensures count { result ≡ prefix_len spec.stands_alone text.now }
    ensures within { result ≤ length text.now }
{
    text.iter().take_while(|byte| stands_alone(**byte)).count()
}

// What stands behind the bytes at the front of a text that stand alone.
fn past_alone(text: &[u8]) -> &[u8]
    ensures within { length result.now ≤ length text.now }
    ensures is { result.now ≡ drop (prefix_len spec.stands_alone text.now) text.now }
{
    text.split_at(alone_length(text)).1
}

/// The first identifier of a text, and what stands behind it; none where it has none. The text begins inside a block
/// comment or does not; what stands behind the identifier does not.
pub fn first_identifier(text: &[u8], in_comment: bool) -> Option<(&[u8], &[u8])>
    ensures shorter { IfSome result (λ cut. length cut.1.now < length text.now) }
    ensures first { MatchOption result (spec.identifiers (spec.fragments in_comment text.now) ≡ [])
        (λ cut. spec.identifiers (spec.fragments in_comment text.now) ≡ cut.0.now ∷ spec.identifiers (spec.fragments false cut.1.now)) }
{
    let mut rest = text;
    let mut inside = in_comment;
    while !rest.is_empty() {
        let fragment = first_fragment(rest, inside);
        let (piece, behind) = rest.split_at(fragment.length);
        match fragment.kind {
            FragmentKind::Identifier => return Some((piece, behind)),
            _ => rest = past_alone(behind),
        }
        inside = false;
    }
    None
}
