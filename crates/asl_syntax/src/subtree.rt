//! Trees while they grow.
ghost use Rattle.std.specs.Prelude.{◌≡◌, IfOk};
ghost use Rattle.asl_syntax.specs.Grow as spec;

use crate::levels::Levels;
use crate::mark::Spot;
use crate::nodes::{NodeForm, SyntaxNode, SyntaxNodes};
use crate::raw::{Infix, Raw};
use crate::text::SyntaxText;
use std::alloc::{AllocError, Global};
use std::marker::Model;
use std::mem::replace;

/// The most nodes that a node may stand under.
pub const TALLEST: usize = 128;

/// A tree. One that is too tall is not kept, but for its levels. Only definitions speak of a single one: the code keeps
/// `Subtrees`.
#[derive(Drop)]
pub struct Subtree {
    pub raw: Option<Raw>,
    pub levels: Levels,
}

/// Trees in order. Where one of them is too tall, none is kept.
#[derive(Drop)]
pub struct Subtrees<'a> {
    pub raws: Option<SyntaxNodes<'a>>,
    pub levels: Levels,
}

/// Trees in a box, so that what keeps them is small.
pub struct BoxedSubtrees<'a> {
    trees: Box<Subtrees<'a>>,
}

// By hand, so that an owner lets go of it by one call (docs/DECISIONS.md).
impl Drop for BoxedSubtrees<'_> {
    fn drop(self) {
        let BoxedSubtrees { trees: _ } = self;
    }
}

impl<'a> Model for BoxedSubtrees<'a> {
    ghost use Rattle.asl_syntax.specs.declared.subtree.Subtrees.{Subtrees};
    ghost use Rattle.std.specs.Coded.{codes};
    ghost use Rattle.asl_syntax.specs.contracts.raw.Raw as raw_row;

    ghost Value = { Subtrees };

    ghost coded = { Prim.hlevel (codes, raw_row.the_row.coded) };

    ghost view = { λ boxed. boxed.trees.value };
}

impl<'a> BoxedSubtrees<'a> {
    /// Trees in a box of their own.
    pub fn new(alloc: Global, trees: Subtrees<'a>) -> Result<BoxedSubtrees<'a>, AllocError>
        ensures { IfOk result (λ boxed. boxed ≡ trees.entry) }
    {
        Ok(BoxedSubtrees {
            trees: Box::new(alloc, trees)?,
        })
    }

    /// Trees in a box that is there for them.
    pub fn in_box(shell: Box<Subtrees<'a>>, trees: Subtrees<'a>) -> BoxedSubtrees<'a>
        ensures { result ≡ trees.entry }
    {
        let mut shell = shell;
        *shell = trees;
        BoxedSubtrees { trees: shell }
    }

    /// The trees, and the box without them.
    pub fn taken(self, alloc: Global) -> (Subtrees<'a>, Box<Subtrees<'a>>)
        ensures { result.0 ≡ self.entry }
    {
        let BoxedSubtrees { trees: mut shell } = self;
        let nothing = Subtrees {
            raws: None,
            levels: Levels::new(alloc),
        };
        let trees = replace(&mut *shell, nothing);
        (trees, shell)
    }
}

/// An operator over its operands.
#[inline(always)]
pub fn apply_raw<'a>(spot: Spot, op: Infix, raws: Option<SyntaxNodes<'a>>) -> Option<SyntaxNode<'a>>
    ensures { result ≡ spec.apply_raw spot op raws.entry }
{
    Some(SyntaxNode {
        form: NodeForm::Apply {
            place: spot.place,
            op,
            args: raws?,
        },
    })
}

/// A list.
#[inline(always)]
pub fn list_raw<'a>(spot: Spot, raws: Option<SyntaxNodes<'a>>) -> Option<SyntaxNode<'a>>
    ensures { result ≡ spec.list_raw spot raws.entry }
{
    Some(SyntaxNode {
        form: NodeForm::List {
            place: spot.place,
            items: raws?,
        },
    })
}

/// A part of an item that is there.
pub fn given<'a>(raws: Option<SyntaxNodes<'a>>) -> Option<Option<SyntaxNodes<'a>>>
    ensures { result ≡ spec.some_raws raws.entry }
{
    raws.map(Some)
}

/// A word or path with its arguments and its body.
#[inline(always)]
pub fn item_raw<'a>(
    spot: Spot,
    word: SyntaxText<'a>,
    args: Option<Option<SyntaxNodes<'a>>>,
    body: Option<Option<SyntaxNodes<'a>>>,
) -> Option<SyntaxNode<'a>>
    ensures { result ≡ spec.item_raw spot word.entry args.entry body.entry }
{
    let args = args?;
    let body = body?;
    Some(SyntaxNode {
        form: NodeForm::Item {
            place: spot.place,
            word,
            args,
            body,
        },
    })
}
