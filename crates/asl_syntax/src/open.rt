//! What stands open, as it is kept: without the nodes, which lie on one vector.
ghost use Rattle.std.specs.Prelude.{◌≡◌, [], true};
ghost use Rattle.asl_syntax.specs.Opens as spec;

use crate::frame::LOOSEST;
use crate::levels::Levels;
use crate::mark::Spot;
use crate::raw::Infix;
use crate::subtree::BoxedSubtrees;
use crate::text::SyntaxText;
use std::alloc::Global;

/// Trees in order. Their nodes are those of the vector from a place on. Where one of them is too tall, none is kept.
#[derive(Drop)]
pub struct FrameGroup {
    pub start: usize,
    pub kept: bool,
    pub levels: Levels,
}

impl FrameGroup {
    /// No trees.
    pub fn new(alloc: Global, start: usize) -> FrameGroup
        ensures start { result.start ≡ start }
        ensures kept { result.kept ≡ true }
        ensures levels { result.levels ≡ [] }
    {
        FrameGroup {
            start,
            kept: true,
            levels: Levels::new(alloc),
        }
    }
}

/// What stands open, but for the trees that were read of it.
#[derive(Drop)]
pub enum FrameKind<'a> {
    /// Nothing: the whole source was read.
    Nothing,
    Unit,
    Args {
        spot: Spot,
        word: SyntaxText<'a>,
    },
    Body {
        spot: Spot,
        word: SyntaxText<'a>,
        args: Option<BoxedSubtrees<'a>>,
    },
    Bracket,
    Index {
        spot: Spot,
    },
    Pending {
        level: u8,
        room: u8,
        spot: Spot,
        op: Infix,
    },
    List {
        spot: Spot,
    },
}

/// What stands open, and the trees that were read of it.
#[derive(Drop)]
pub struct OpenFrame<'a> {
    pub kind: FrameKind<'a>,
    pub group: FrameGroup,
}

/// How much it adds to what is open.
pub fn weight(kind: &FrameKind<'_>) -> usize
    ensures { result ≡ spec.weight kind.now }
{
    match kind {
        FrameKind::Unit | FrameKind::Nothing => 0,
        FrameKind::Pending { level, room, .. } => { if *level == *room { 1 } else { 0 } }
        _ => 1,
    }
}

/// The level of the expressions that may stand next in it.
pub fn room(kind: &FrameKind<'_>) -> u8
    ensures { result ≡ spec.room kind.now }
{
    match kind {
        FrameKind::Pending { room, .. } => *room,
        FrameKind::Unit | FrameKind::Nothing | FrameKind::List { .. } => 0,
        _ => LOOSEST,
    }
}
