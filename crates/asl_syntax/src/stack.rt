//! What stands open, and the trees that were read last.
ghost use Rattle.std.specs.Prelude.{◌≡◌, ◌&&◌, ◌+◌, ◌∷◌, [], ◌<◌, ◌++◌, Some, None, true, IfOk, OnOk, OnErr, length, is_some, reverse};
ghost use Rattle.std.specs.Option.{option_to_list};
ghost use Rattle.std.specs.Vec.{vec_len, vec_capacity};
ghost use Rattle.asl_syntax.specs.declared.frame.Frame.TheVariants as frames;
ghost use Rattle.asl_syntax.specs.declared.open.FrameKind.TheVariants as kinds;
ghost use Rattle.asl_syntax.specs.declared.raw.Raw.TheVariants as raws;
ghost use Rattle.asl_syntax.specs.Grow as grow;
ghost use Rattle.asl_syntax.specs.Grow.{no_subtrees, joined, merged};
ghost use Rattle.asl_syntax.specs.Frames as spec;
ghost use Rattle.asl_syntax.specs.Opens.{IsOne, Begins, tree_of, cleared, frame_on, kind_of, done_of, around, added, lists, has_trees};
ghost use Rattle.asl_syntax.specs.Opens.{remaining};

use crate::levels::Levels;
use crate::mark::Spot;
use crate::nodes::{NodeForm, SyntaxNode, SyntaxNodes};
use crate::open::{FrameGroup, FrameKind, OpenFrame, room, weight};
use crate::raw::Infix;
use crate::subtree::{BoxedSubtrees, Subtrees, TALLEST, apply_raw, given, item_raw, list_raw};
use crate::text::SyntaxText;
use bumpalo::Bump;
use iasl_ports::list::Text;
use std::alloc::{AllocError, Global};
use std::marker::Model;
use std::mem::replace;

/// The trees that were read last, which are held, and the frames that stand open around them, the innermost first. The nodes
/// of all of them lie on one vector.
pub struct Stack<'a> {
    alloc: Global,
    // Where lists and long texts go.
    arena: &'a Bump,
    nodes: Vec<SyntaxNode<'a>>,
    outer: Vec<OpenFrame<'a>>,
    innermost: OpenFrame<'a>,
    hand: FrameGroup,
    depth: usize,
    // The boxes that were emptied.
    spare: Vec<Box<Subtrees<'a>>>,
}

// By hand, so that an owner lets go of it by one call (docs/DECISIONS.md).
impl Drop for Stack<'_> {
    fn drop(self) {
        let Stack {
            alloc: _,
            arena: _,
            nodes: _,
            outer: _,
            innermost: _,
            hand: _,
            depth: _,
            spare: _,
        } = self;
    }
}

impl<'a> Model for Stack<'a> {
    ghost use Rattle.std.specs.Prelude.{List, ◌∷◌, reverse, take};
    ghost use Rattle.std.specs.Coded.{codes};
    ghost use Rattle.asl_syntax.specs.contracts.raw.Raw as raw_row;
    ghost use Rattle.asl_syntax.specs.declared.subtree.Subtrees.{Subtrees};
    ghost use Rattle.asl_syntax.specs.declared.frame.Frame.{Frame};
    ghost use Rattle.asl_syntax.specs.Opens.{trees_of, frames_of, IsStack};

    ghost Value = { Subtrees × List Frame };

    ghost coded = { Prim.hlevel (codes, raw_row.the_row.coded) };

    ghost view = { λ stack. (
      trees_of stack.hand stack.nodes.items,
      frames_of (stack.innermost ∷ reverse stack.outer.items)
          (take stack.hand.start stack.nodes.items),
    ) };

    ghost invariant = { λ stack. IsStack stack.nodes.items stack.hand (stack.innermost ∷ reverse stack.outer.items) stack.depth };
}

fn both(earlier: bool, later: bool) -> bool
    ensures { result ≡ (earlier && later) }
{
    earlier && later
}

fn count(nodes: &Vec<SyntaxNode<'_>>) -> usize
    ensures { result ≡ length nodes.now.items }
{
    nodes.as_slice().len()
}

// A word with neither arguments nor a body.
fn named<'a>(spot: Spot, word: SyntaxText<'a>) -> SyntaxNode<'a>
    ensures { result ≡ raws.Item spot.place word.entry None None }
{
    SyntaxNode {
        form: NodeForm::Item {
            place: spot.place,
            word,
            args: None,
            body: None,
        },
    }
}

// Adds a node. Here alone its type stands in that of the answer of a `push` (docs/DECISIONS.md).
#[inline(always)]
fn push<'a>(nodes: &mut Vec<SyntaxNode<'a>>, raw: SyntaxNode<'a>) -> Result<(), AllocError>
    ensures items { OnOk result (nodes.new.items ≡ nodes.old.items ++ raw.entry ∷ []) }
    ensures err { OnErr result (nodes.new.items ≡ nodes.old.items) }
{
    nodes.push(raw)?;
    Ok(())
}

// Adds a node, unless it would be too tall. Answers whether it is kept.
#[inline(always)]
fn keep<'a>(
    nodes: &mut Vec<SyntaxNode<'a>>,
    low: bool,
    raw: Option<SyntaxNode<'a>>,
) -> Result<bool, AllocError>
    ensures nodes { OnOk result (nodes.new.items ≡ nodes.old.items ++ option_to_list (grow.cut low raw.entry)) }
    ensures kept { IfOk result (λ is_kept. is_kept ≡ is_some (grow.cut low raw.entry)) }
    ensures err { OnErr result (nodes.new.items ≡ nodes.old.items) }
{
    if !low {
        return Ok(false);
    }
    match raw {
        Some(raw) => {
            push(nodes, raw)?;
            Ok(true)
        }
        None => Ok(false),
    }
}

// So much more is open. No memory holds as many frames as have no number.
fn deeper(depth: usize, weight: usize) -> Result<usize, AllocError>
    ensures { IfOk result (λ all. all ≡ depth + weight) }
{
    match depth.checked_add(weight) {
        Some(all) => Ok(all),
        None => Err(AllocError),
    }
}

// Puts a frame of this kind on the others.
#[inline(always)]
fn put_on<'a>(
    outer: &mut Vec<OpenFrame<'a>>,
    innermost: &mut OpenFrame<'a>,
    kind: FrameKind<'a>,
    group: FrameGroup,
)
    requires { vec_len outer.old < vec_capacity outer.old }
    ensures kind { innermost.new.kind ≡ kind.entry }
    ensures group { innermost.new.group ≡ group }
    ensures outer { reverse outer.new.items ≡ innermost.old ∷ reverse outer.old.items }
{
    outer.push_reserved(replace(innermost, OpenFrame { kind, group }));
}

// Takes the innermost frame off.
fn take_off<'a>(
    alloc: Global,
    outer: &mut Vec<OpenFrame<'a>>,
    innermost: &mut OpenFrame<'a>,
) -> OpenFrame<'a>
    ensures taken { result ≡ innermost.old }
    ensures rest { innermost.new ∷ reverse outer.new.items ≡ remaining (reverse outer.old.items) }
{
    match outer.pop() {
        Some(open) => replace(innermost, open),
        None => {
            let nothing = OpenFrame {
                kind: FrameKind::Nothing,
                group: FrameGroup::new(alloc, 0),
            };
            replace(innermost, nothing)
        }
    }
}

impl<'a> Stack<'a> {
    /// A source of which nothing was read.
    pub fn new(alloc: Global, arena: &'a Bump) -> Stack<'a>
        ensures { result ≡ (no_subtrees, spec.start) }
    {
        Stack {
            alloc,
            arena,
            nodes: Vec::new(alloc),
            outer: Vec::new(alloc),
            innermost: OpenFrame {
                kind: FrameKind::Unit,
                group: FrameGroup::new(alloc, 0),
            },
            hand: FrameGroup::new(alloc, 0),
            depth: 0,
            spare: Vec::new(alloc),
        }
    }

    /// A text of its own.
    #[inline(always)]
    pub fn copy(&self, text: &Text) -> Result<SyntaxText<'a>, AllocError>
        ensures { IfOk result (λ copied. copied ≡ text.now) }
    {
        SyntaxText::new(self.alloc, self.arena, text)
    }

    /// How many brackets, prefix operators and assignments stand open.
    #[tactic(auto, using(crate::proofs::Stacks::depth_frames))]
    pub fn depth(&self) -> usize
        ensures { result ≡ spec.depth self.now.1 }
    {
        self.depth
    }

    /// The level of the expressions that may stand next.
    pub fn room(&self) -> u8
        ensures { result ≡ spec.room self.now.1 }
    {
        room(&self.innermost.kind)
    }

    /// What the innermost frame is.
    pub fn kind(&self) -> &FrameKind<'a>
        ensures { result.now ≡ kind_of self.now.1 }
    {
        &self.innermost.kind
    }

    /// The first token of what was read of the innermost frame, or another one where that is nothing.
    pub fn leading(&self, other: u32) -> u32
        requires { has_trees (kind_of self.now.1) ≡ true }
        ensures { result ≡ grow.leading other (done_of self.now.1).levels }
    {
        self.innermost.group.levels.leading(other)
    }

    /// The first token of what is held, or another one where that is nothing.
    pub fn leading_held(&self, other: u32) -> u32
        ensures { result ≡ grow.leading other self.now.0.levels }
    {
        self.hand.levels.leading(other)
    }

    /// Holds a tree of one node.
    #[inline(always)]
    pub fn hold(&mut self, first: u32, raw: SyntaxNode<'a>) -> Result<(), AllocError>
        requires { self.old.0 ≡ no_subtrees }
        ensures tree { OnOk result (tree_of self.new.0 ≡ grow.leaf first raw.entry) }
        ensures one { OnOk result (IsOne self.new.0) }
        ensures frames { OnOk result (self.new.1 ≡ self.old.1) }
    {
        push(&mut self.nodes, raw)?;
        self.hand.levels = Levels::of_one(self.alloc, first);
        Ok(())
    }

    /// Holds a tree of one node behind what is held.
    #[inline(always)]
    pub fn hold_behind(&mut self, first: u32, raw: SyntaxNode<'a>) -> Result<(), AllocError>
        ensures { OnOk result (self.new ≡ (joined self.old.0 (grow.leaf first raw.entry), self.old.1)) }
    {
        push(&mut self.nodes, raw)?;
        self.hand.levels.join_one(self.alloc, first);
        Ok(())
    }

    /// Holds a word with neither arguments nor a body behind what is held.
    #[inline(always)]
    #[tactic(auto, unfolding(crate::specs::Grow::item, crate::specs::Grow::node_over, crate::specs::Grow::merged))]
    pub fn hold_name_behind(&mut self, spot: Spot, word: SyntaxText<'a>) -> Result<(), AllocError>
        ensures { OnOk result (self.new ≡ (joined self.old.0 (grow.item spot word.entry None None), self.old.1)) }
    {
        self.hold_behind(spot.token, named(spot, word))?;
        Ok(())
    }

    /// Opens a frame of this kind behind what is held, which becomes the first of its trees.
    #[inline(always)]
    pub fn open(&mut self, kind: FrameKind<'a>) -> Result<(), AllocError>
        requires { Begins kind self.old.0 }
        ensures { OnOk result (self.new ≡ (no_subtrees, frame_on kind.entry self.old.0 self.old.1)) }
    {
        let depth = deeper(self.depth, weight(&kind))?;
        self.outer.reserve(1)?;
        let hand = FrameGroup::new(self.alloc, count(&self.nodes));
        let group = replace(&mut self.hand, hand);
        put_on(&mut self.outer, &mut self.innermost, kind, group);
        self.depth = depth;
        Ok(())
    }

    /// Opens a bracket.
    pub fn open_bracket(&mut self) -> Result<(), AllocError>
        ensures { OnOk result (self.new ≡ (self.old.0, frames.Bracket ∷ self.old.1)) }
    {
        let depth = deeper(self.depth, 1)?;
        self.outer.reserve(1)?;
        let group = FrameGroup::new(self.alloc, self.hand.start);
        put_on(
            &mut self.outer,
            &mut self.innermost,
            FrameKind::Bracket,
            group,
        );
        self.depth = depth;
        Ok(())
    }

    /// Ends a bracket.
    pub fn close_bracket(&mut self)
        requires { kind_of self.old.1 ≡ kinds.Bracket }
        ensures { self.new ≡ (self.old.0, around self.old.1) }
    {
        take_off(self.alloc, &mut self.outer, &mut self.innermost);
        self.depth -= 1;
    }

    /// Adds the tree that is held to the innermost frame.
    pub fn add(&mut self) -> Result<(), AllocError>
        requires one { IsOne self.old.0 }
        requires lists { lists (kind_of self.old.1) ≡ true }
        ensures { OnOk result (self.new ≡ (no_subtrees, added (tree_of self.old.0) self.old.1)) }
    {
        let start = count(&self.nodes);
        let FrameGroup { kept, levels, .. } = replace(
            &mut self.hand,
            FrameGroup::new(self.alloc, start),
        );
        let group = &mut self.innermost.group;
        group.kept = both(group.kept, kept);
        group.levels.join(levels)?;
        Ok(())
    }

    /// Adds a tree of one node to the innermost frame.
    #[inline(always)]
    pub fn append(&mut self, first: u32, raw: SyntaxNode<'a>) -> Result<(), AllocError>
        requires none { self.old.0 ≡ no_subtrees }
        requires lists { lists (kind_of self.old.1) ≡ true }
        ensures { OnOk result (self.new ≡ (no_subtrees, added (grow.leaf first raw.entry) self.old.1)) }
    {
        push(&mut self.nodes, raw)?;
        self.innermost.group.levels.join_one(self.alloc, first);
        self.hand.start = count(&self.nodes);
        Ok(())
    }

    /// Adds a word with neither arguments nor a body to the innermost frame.
    #[inline(always)]
    #[tactic(auto, unfolding(crate::specs::Grow::item, crate::specs::Grow::node_over, crate::specs::Grow::merged))]
    pub fn append_name(&mut self, spot: Spot, word: SyntaxText<'a>) -> Result<(), AllocError>
        requires none { self.old.0 ≡ no_subtrees }
        requires lists { lists (kind_of self.old.1) ≡ true }
        ensures { OnOk result (self.new ≡ (no_subtrees, added (grow.item spot word.entry None None) self.old.1)) }
    {
        self.append(spot.token, named(spot, word))?;
        Ok(())
    }

    /// Ends the innermost frame, whose trees are held.
    #[inline(always)]
    pub fn end(&mut self) -> FrameKind<'a>
        requires none { self.old.0 ≡ no_subtrees }
        requires trees { has_trees (kind_of self.old.1) ≡ true }
        ensures kind { result ≡ kind_of self.old.1 }
        ensures stack { self.new ≡ (done_of self.old.1, around self.old.1) }
    {
        let OpenFrame { kind, group } = take_off(self.alloc, &mut self.outer, &mut self.innermost);
        self.depth -= weight(&kind);
        self.hand = group;
        kind
    }

    /// Ends the innermost frame, whose trees are held with the one that was held behind them.
    #[inline(always)]
    pub fn end_with(&mut self) -> Result<FrameKind<'a>, AllocError>
        requires one { IsOne self.old.0 }
        requires trees { has_trees (kind_of self.old.1) ≡ true }
        ensures kind { IfOk result (λ kind. kind ≡ kind_of self.old.1) }
        ensures stack { OnOk result (self.new ≡ (joined (done_of self.old.1) (tree_of self.old.0), around self.old.1)) }
    {
        let OpenFrame { kind, mut group } = take_off(
            self.alloc,
            &mut self.outer,
            &mut self.innermost,
        );
        self.depth -= weight(&kind);
        group.kept = both(group.kept, self.hand.kept);
        let last = replace(&mut self.hand, group);
        self.hand.levels.join(last.levels)?;
        Ok(kind)
    }

    // The nodes that are held, taken off.
    fn take_raws(&mut self) -> Result<Option<SyntaxNodes<'a>>, AllocError>
        ensures raws { IfOk result (λ raws. raws ≡ self.old.0.raws) }
        ensures rest { OnOk result (self.new ≡ (cleared self.old.0, self.old.1)) }
    {
        if !self.hand.kept {
            return Ok(None);
        }
        let raws = SyntaxNodes::taken(self.arena, &mut self.nodes, self.hand.start)?;
        Ok(Some(raws))
    }

    // Holds a node over what is held.
    #[inline(always)]
    fn put(&mut self, first: u32, raw: Option<SyntaxNode<'a>>) -> Result<(), AllocError>
        ensures tree { OnOk result (tree_of self.new.0 ≡ grow.node_over first raw.entry self.old.0.levels) }
        ensures one { OnOk result (IsOne self.new.0) }
        ensures frames { OnOk result (self.new.1 ≡ self.old.1) }
    {
        let low = self.hand.levels.len() <= TALLEST;
        self.nodes.truncate(self.hand.start);
        self.hand.kept = keep(&mut self.nodes, low, raw)?;
        self.hand.levels.cover(self.alloc, first)?;
        Ok(())
    }

    // Puts these levels before those of what is held.
    #[inline(always)]
    fn go_before(&mut self, levels: Levels) -> Result<(), AllocError>
        ensures raws { OnOk result (self.new.0.raws ≡ self.old.0.raws) }
        ensures levels { OnOk result (self.new.0.levels ≡ merged levels self.old.0.levels) }
        ensures frames { OnOk result (self.new.1 ≡ self.old.1) }
    {
        let later = replace(&mut self.hand.levels, levels);
        self.hand.levels.join(later)?;
        Ok(())
    }

    // Trees out of their box, which is kept for others.
    fn unboxed(&mut self, boxed: BoxedSubtrees<'a>) -> Result<Subtrees<'a>, AllocError>
        ensures trees { IfOk result (λ trees. trees ≡ boxed.entry) }
        ensures stack { OnOk result (self.new ≡ self.old) }
    {
        let (trees, shell) = boxed.taken(self.alloc);
        self.spare.push(shell)?;
        Ok(trees)
    }

    // The nodes of a part of an item, whose levels go before those of what is held.
    #[inline(always)]
    #[tactic(auto, using(crate::proofs::Merged::merged_none))]
    fn go_behind(
        &mut self,
        part: Option<BoxedSubtrees<'a>>,
    ) -> Result<Option<Option<SyntaxNodes<'a>>>, AllocError>
        ensures raws { IfOk result (λ raws. raws ≡ grow.raws_given part.entry) }
        ensures levels { OnOk result (self.new.0.levels ≡ merged (grow.levels_given part.entry) self.old.0.levels) }
        ensures frames { OnOk result (self.new.1 ≡ self.old.1) }
    {
        match part {
            Some(boxed) => {
                let Subtrees { raws, levels } = self.unboxed(boxed)?;
                self.go_before(levels)?;
                Ok(given(raws))
            }
            None => Ok(Some(None)),
        }
    }

    /// Takes what is held away.
    #[inline(always)]
    pub fn take(&mut self) -> Result<Subtrees<'a>, AllocError>
        ensures trees { IfOk result (λ trees. trees ≡ self.old.0) }
        ensures rest { OnOk result (self.new ≡ (no_subtrees, self.old.1)) }
    {
        let raws = self.take_raws()?;
        self.nodes.truncate(self.hand.start);
        let start = self.hand.start;
        let FrameGroup { levels, .. } = replace(&mut self.hand, FrameGroup::new(self.alloc, start));
        Ok(Subtrees { raws, levels })
    }

    /// Takes what is held away, in a box.
    pub fn take_boxed(&mut self) -> Result<BoxedSubtrees<'a>, AllocError>
        ensures trees { IfOk result (λ trees. trees ≡ self.old.0) }
        ensures rest { OnOk result (self.new ≡ (no_subtrees, self.old.1)) }
    {
        let trees = self.take()?;
        match self.spare.pop() {
            Some(shell) => Ok(BoxedSubtrees::in_box(shell, trees)),
            None => BoxedSubtrees::new(self.alloc, trees),
        }
    }

    /// Holds an operator over what was held, its operands.
    #[inline(always)]
    pub fn apply(&mut self, first: u32, spot: Spot, op: Infix) -> Result<(), AllocError>
        ensures tree { OnOk result (tree_of self.new.0 ≡ grow.node_over first (grow.apply_raw spot op self.old.0.raws) self.old.0.levels) }
        ensures one { OnOk result (IsOne self.new.0) }
        ensures frames { OnOk result (self.new.1 ≡ self.old.1) }
    {
        let raws = self.take_raws()?;
        self.put(first, apply_raw(spot, op, raws))?;
        Ok(())
    }

    /// Holds a list of what was held.
    #[tactic(auto, unfolding(crate::specs::Grow::listing))]
    pub fn list(&mut self, spot: Spot) -> Result<(), AllocError>
        ensures tree { OnOk result (tree_of self.new.0 ≡ grow.listing spot self.old.0) }
        ensures one { OnOk result (IsOne self.new.0) }
        ensures frames { OnOk result (self.new.1 ≡ self.old.1) }
    {
        let raws = self.take_raws()?;
        self.put(spot.token, list_raw(spot, raws))?;
        Ok(())
    }

    /// Holds a word with neither arguments nor a body.
    #[tactic(auto, unfolding(crate::specs::Grow::item, crate::specs::Grow::node_over, crate::specs::Grow::merged))]
    pub fn name(&mut self, spot: Spot, word: SyntaxText<'a>) -> Result<(), AllocError>
        requires { self.old.0 ≡ no_subtrees }
        ensures tree { OnOk result (tree_of self.new.0 ≡ grow.item spot word.entry None None) }
        ensures one { OnOk result (IsOne self.new.0) }
        ensures frames { OnOk result (self.new.1 ≡ self.old.1) }
    {
        self.hold(spot.token, named(spot, word))?;
        Ok(())
    }

    /// Holds a word with what was held as its arguments.
    #[inline(always)]
    pub fn call(&mut self, spot: Spot, word: SyntaxText<'a>) -> Result<(), AllocError>
        ensures tree { OnOk result (tree_of self.new.0 ≡ grow.item spot word.entry (Some self.old.0) None) }
        ensures one { OnOk result (IsOne self.new.0) }
        ensures frames { OnOk result (self.new.1 ≡ self.old.1) }
    {
        let args = self.take_raws()?;
        self.put(spot.token, item_raw(spot, word, given(args), Some(None)))?;
        Ok(())
    }

    /// Holds a word with arguments, where there are any, and with what was held as its body.
    pub fn block(
        &mut self,
        spot: Spot,
        word: SyntaxText<'a>,
        args: Option<BoxedSubtrees<'a>>,
    ) -> Result<(), AllocError>
        ensures tree { OnOk result (tree_of self.new.0 ≡ grow.item spot word.entry args.entry (Some self.old.0)) }
        ensures one { OnOk result (IsOne self.new.0) }
        ensures frames { OnOk result (self.new.1 ≡ self.old.1) }
    {
        let body = self.take_raws()?;
        let args = self.go_behind(args)?;
        self.put(spot.token, item_raw(spot, word, args, given(body)))?;
        Ok(())
    }
}
