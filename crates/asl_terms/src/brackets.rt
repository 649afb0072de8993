//! The brackets of an item: whether they are there, and what stands in them.
ghost use Rattle.std.specs.Prelude.{◌≡◌};
ghost use Rattle.asl_terms.specs.AtRaw as at;

use asl_syntax::{SyntaxNode, SyntaxNodes};

/// What stands in brackets.
#[tactic(auto, using(crate::proofs::Bracketed::inside_rules))]
pub fn inside_of<'r, 'a>(raws: &'r Option<SyntaxNodes<'a>>) -> &'r [SyntaxNode<'a>]
    ensures { result.now ≡ at.inside_at raws.now }
{
    match raws {
        Some(raws) => raws.as_slice(),
        None => &[],
    }
}

/// Whether brackets are there.
pub fn is_given(raws: &Option<SyntaxNodes<'_>>) -> bool
    ensures { result ≡ at.is_some raws.now }
{
    match raws {
        Some(_) => true,
        None => false,
    }
}
