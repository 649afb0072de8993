//! The tree of a source as the code keeps it: its lists and its long texts lie in an arena, and are let go with that.
ghost use Rattle.std.specs.Prelude.{◌≡◌, ◌≤◌, ◌+◌, [], take, drop, length, IfOk, OnOk, OnErr};
ghost use Rattle.std.specs.Vec.{vec_capacity};
ghost use Rattle.asl_syntax.specs.declared.raw.Raw.TheVariants as raw;

use crate::raw::Infix;
use crate::text::SyntaxText;
use bumpalo::Bump;
use bumpalo::collections::into_bump_slice;
use iasl_messages::place::Place;
use std::alloc::AllocError;
use std::marker::Model;
use std::mem::replace;

/// A node of the tree. Contracts see it as a `Raw`.
#[cycle(syntax)]
pub struct SyntaxNode<'a> {
    pub form: NodeForm<'a>,
}

/// What a node is.
#[cycle(syntax)]
#[derive(Drop)]
pub enum NodeForm<'a> {
    Number {
        place: Place,
        value: u64,
    },
    Text {
        place: Place,
        text: SyntaxText<'a>,
    },
    /// A word or path with its arguments in parentheses and its body in braces, where there are any.
    Item {
        place: Place,
        word: SyntaxText<'a>,
        args: Option<SyntaxNodes<'a>>,
        body: Option<SyntaxNodes<'a>>,
    },
    /// An operator with its operands. The place is that of the operator.
    Apply {
        place: Place,
        op: Infix,
        args: SyntaxNodes<'a>,
    },
    /// A list as an argument, or inside one.
    List {
        place: Place,
        items: SyntaxNodes<'a>,
    },
    /// A comma in a body.
    Comma,
    /// A semicolon in a body.
    Semicolon,
    /// An argument that is left out.
    Empty,
}

/// Nodes in order, in an arena. Contracts see them as a list.
#[cycle(syntax)]
pub struct SyntaxNodes<'a> {
    items: &'a [SyntaxNode<'a>],
}

// By hand, so that an owner lets go of it by one call (docs/DECISIONS.md).
impl Drop for SyntaxNode<'_> {
    fn drop(self) {
        let SyntaxNode { form: _ } = self;
    }
}

impl Drop for SyntaxNodes<'_> {
    fn drop(self) {
        let SyntaxNodes { items: _ } = self;
    }
}

impl<'a> Model for SyntaxNode<'a> {
    ghost use Rattle.asl_syntax.specs.declared.raw.Raw.{Raw};
    ghost use Rattle.asl_syntax.specs.contracts.raw.Raw as raw_row;

    ghost Value = { Raw };

    ghost coded = { raw_row.the_row.coded };

    ghost use Rattle.asl_syntax.specs.Nodes.{raw_in};
    ghost use Rattle.asl_syntax.specs.Sizes.{extent};

    ghost view = { λ node. raw_in node.form };

    ghost size = { extent };

    ghost use Rattle.asl_syntax.specs.Falls.{node_falls};

    ghost size_decreases = { λ node h. node_falls node.form };
}

impl<'a> Model for SyntaxNodes<'a> {
    ghost use Rattle.std.specs.Prelude.{List};
    ghost use Rattle.asl_syntax.specs.declared.raw.Raw.{Raw};
    ghost use Rattle.std.specs.Coded.{coded_list};
    ghost use Rattle.asl_syntax.specs.contracts.raw.Raw as raw_row;

    ghost Value = { List Raw };

    ghost coded = { coded_list raw_row.the_row.coded };

    ghost use Rattle.asl_syntax.specs.Sizes.{extent_in};

    ghost view = { λ nodes. nodes.items.now };

    ghost size = { extent_in };

    ghost use Rattle.asl_syntax.specs.Falls.{nodes_fall};

    ghost size_decreases = { λ nodes h. nodes_fall nodes.items.now };
}

/// The node of a number.
#[inline(always)]
pub fn number_node<'a>(place: Place, value: u64) -> SyntaxNode<'a>
    ensures { result ≡ raw.Number place value }
{
    SyntaxNode {
        form: NodeForm::Number { place, value },
    }
}

/// The node of a string.
#[inline(always)]
pub fn text_node<'a>(place: Place, text: SyntaxText<'a>) -> SyntaxNode<'a>
    ensures { result ≡ raw.Text place text.entry }
{
    SyntaxNode {
        form: NodeForm::Text { place, text },
    }
}

/// The node of a comma in a body.
#[inline(always)]
pub fn comma_node<'a>() -> SyntaxNode<'a>
    ensures { result ≡ raw.Comma }
{
    SyntaxNode {
        form: NodeForm::Comma,
    }
}

/// The node of a semicolon in a body.
#[inline(always)]
pub fn semicolon_node<'a>() -> SyntaxNode<'a>
    ensures { result ≡ raw.Semicolon }
{
    SyntaxNode {
        form: NodeForm::Semicolon,
    }
}

// Moves the nodes from a place on into a list that has room for them.
fn move_tail<'a>(
    nodes: &mut Vec<SyntaxNode<'a>>,
    start: usize,
    list: &mut Vec<SyntaxNode<'a>, &'a Bump>,
)
    requires within { start ≤ length nodes.old.items }
    requires none { list.old.items ≡ [] }
    requires room { length nodes.old.items ≤ start + vec_capacity list.old }
    ensures list { list.new.items ≡ drop start nodes.old.items }
    ensures rest { take start nodes.new.items ≡ take start nodes.old.items }
{
    for i in start..nodes.len() {
        list.push_reserved(replace(&mut nodes[i], comma_node()));
    }
}

impl<'a> SyntaxNodes<'a> {
    /// The nodes from a place on, moved to the arena.
    pub fn taken(
        arena: &'a Bump,
        nodes: &mut Vec<SyntaxNode<'a>>,
        start: usize,
    ) -> Result<SyntaxNodes<'a>, AllocError>
        requires { start ≤ length nodes.old.items }
        ensures taken { IfOk result (λ list. list ≡ drop start nodes.old.items) }
        ensures rest { OnOk result (nodes.new.items ≡ take start nodes.old.items) }
        ensures err { OnErr result (nodes.new.items ≡ nodes.old.items) }
    {
        let mut list = Vec::with_capacity(arena, nodes.len() - start)?;
        move_tail(nodes, start, &mut list);
        nodes.truncate(start);
        Ok(SyntaxNodes {
            items: into_bump_slice(list),
        })
    }

    /// All nodes, in order.
    pub fn as_slice(&self) -> &[SyntaxNode<'a>]
        ensures { result.now ≡ self.now }
    {
        self.items
    }
}
