//! The room of a table, before its bytes are put in.
ghost use Rattle.std.specs.Prelude.{false, ◌≡◌, ◌<◌, ◌++◌, ◌+◌, [], length, Some, OnOk, IsErrOf, IfOk, IfErr, ℕ};
ghost use Rattle.aml_sizes.specs.Sizes.{most_content_bytes};
ghost use Rattle.aml_sizes.specs.Styles.{style_of as style_for};
ghost use Rattle.aml_sizes.specs.TermLists.{own_bytes, terms_bytes, container_bytes};
ghost use Rattle.aml_sizes.specs.PackageLengths.{own_lengths, terms_lengths, container_lengths, Noted};
ghost use Rattle.aml_sizes.specs.Pieces.{is_container, container_pieces, term_pieces, nodes_pieces};
ghost use Rattle.aml_sizes.specs.Rooms.{blanks, sizes, IsRoomOf};
ghost use Rattle.aml_sizes.specs.TableSizes.{AtBlock, RefusedFor};

use crate::codes::holds_terms;
use crate::draft::{Draft, DraftStop, blank};
use crate::else_if::{own_size, run_from};
use crate::length::Lengths;
use crate::sizes::term_size;
use crate::space::{HEADER_BYTES, Space, Spaces};
use crate::stop::{WriteStop, too_long};
use crate::style::{IntegerStyle, style_of};
use asl_tree::program::{Block, Core};
use asl_tree::term::{Node, Op, Term};
use iasl_messages::place::{Lines, Pieces, Place};
use source_lines::lines::SourceLines;
use std::alloc::{AllocError, Global};

/// The room of a table.
#[derive(Drop)]
pub struct Room {
    /// Its pieces with their places and sources, and without bytes.
    pub pieces: Pieces,
    /// The lengths of its packages, a package before those inside it.
    pub lengths: Lengths,
    /// The room for the bytes of each piece.
    pub spaces: Spaces,
}

// A term that holds no list of terms, whatever stands behind it.
fn reserve_whole(
    alloc: Global,
    draft: &mut Draft,
    lines: &SourceLines<'_>,
    place: Place,
    term: &Term,
    style: IntegerStyle,
) -> Result<(), DraftStop>
    requires { is_container term.now ≡ false }
    ensures pieces { (later : ℕ) → OnOk result
        (draft.new.pieces.items ≡ draft.old.pieces.items ++ blanks (term_pieces style lines.now later place term.now)) }
    ensures spaces { (later : ℕ) → OnOk result
        (draft.new.spaces.items ≡ draft.old.spaces.items ++ sizes (term_pieces style lines.now later place term.now)) }
    ensures size { (later : ℕ) → OnOk result (draft.new.size ≡ draft.old.size + length (own_bytes style later term.now)) }
    ensures lengths { (later : ℕ) → OnOk result (Noted (own_lengths style later term.now) draft.old.notes draft.new.notes) }
    ensures too_long { (later : ℕ) → IsErrOf result DraftStop.TooLong →
        most_content_bytes < draft.old.size + length (own_bytes style later term.now) }
{
    let size = term_size(&mut draft.notes, term, style);
    draft.push(alloc, lines, place, size)
}

// A form whose body is a list of terms, before so many bytes of its run: those of its body, and then its own bytes
// before the body.
#[cycle(reserve)]
fn reserve_container(
    alloc: Global,
    draft: &mut Draft,
    lines: &SourceLines<'_>,
    place: Place,
    op: Op,
    body: &[Node],
    args: &[Node],
    later: usize,
    style: IntegerStyle,
) -> Result<(), DraftStop>
    ensures pieces { OnOk result
        (draft.new.pieces.items ≡ draft.old.pieces.items ++ blanks (container_pieces style lines.now place op args.now body.now later)) }
    ensures spaces { OnOk result
        (draft.new.spaces.items ≡ draft.old.spaces.items ++ sizes (container_pieces style lines.now place op args.now body.now later)) }
    ensures size { OnOk result (draft.new.size ≡ draft.old.size + length (container_bytes style op args.now body.now later)) }
    ensures lengths { OnOk result (Noted (container_lengths style op args.now body.now later) draft.old.notes draft.new.notes) }
    ensures too_long { IsErrOf result DraftStop.TooLong → most_content_bytes < draft.old.size + length
        (container_bytes style op args.now body.now later) }
{
    let before = draft.size;
    reserve_terms(alloc, draft, lines, body, style)?;
    let size = draft.size - before;
    let whole = own_size(&mut draft.notes, op, args, size, later, style);
    draft.push(alloc, lines, place, whole - size)
}

// The room of a term's pieces, of which that of its own bytes comes last, before so many bytes of its run.
#[cycle(reserve)]
fn reserve_term(
    alloc: Global,
    draft: &mut Draft,
    lines: &SourceLines<'_>,
    node: &Node,
    later: usize,
    style: IntegerStyle,
) -> Result<(), DraftStop>
    ensures pieces { OnOk result
        (draft.new.pieces.items ≡ draft.old.pieces.items ++ blanks (term_pieces style lines.now later node.now.place node.now.term)) }
    ensures spaces { OnOk result
        (draft.new.spaces.items ≡ draft.old.spaces.items ++ sizes (term_pieces style lines.now later node.now.place node.now.term)) }
    ensures size { OnOk result (draft.new.size ≡ draft.old.size + length (own_bytes style later node.now.term)) }
    ensures lengths { OnOk result (Noted (own_lengths style later node.now.term) draft.old.notes draft.new.notes) }
    ensures too_long { IsErrOf result DraftStop.TooLong →
        most_content_bytes < draft.old.size + length (own_bytes style later node.now.term) }
{
    match &node.term {
        Term::Form { op, args, body } => {
            if holds_terms(*op) {
                reserve_container(
                    alloc, draft, lines, node.place, *op, body, args, later, style,
                )
            } else {
                reserve_whole(alloc, draft, lines, node.place, &node.term, style)
            }
        }
        term => reserve_whole(alloc, draft, lines, node.place, term, style),
    }
}

// The room of some terms, the last first.
#[cycle(reserve)]
fn reserve_terms(
    alloc: Global,
    draft: &mut Draft,
    lines: &SourceLines<'_>,
    nodes: &[Node],
    style: IntegerStyle,
) -> Result<(), DraftStop>
    ensures pieces { OnOk result (draft.new.pieces.items ≡ draft.old.pieces.items ++ blanks (nodes_pieces style lines.now nodes.now)) }
    ensures spaces { OnOk result (draft.new.spaces.items ≡ draft.old.spaces.items ++ sizes (nodes_pieces style lines.now nodes.now)) }
    ensures size { OnOk result (draft.new.size ≡ draft.old.size + length (terms_bytes style nodes.now)) }
    ensures lengths { OnOk result (Noted (terms_lengths style nodes.now) draft.old.notes draft.new.notes) }
    ensures too_long { IsErrOf result DraftStop.TooLong → most_content_bytes < draft.old.size + length (terms_bytes style nodes.now) }
{
    let mut left = nodes.len();
    let mut later: usize = 0;
    while left > 0 {
        left -= 1;
        let node = &nodes[left];
        let before = draft.size;
        reserve_term(alloc, draft, lines, node, later, style)?;
        later = run_from(&node.term, draft.size - before, later);
    }
    Ok(())
}

// How many pieces a term has. Only how much memory is taken at once rests on this.
#[cycle(count)]
fn pieces_of_term(node: &Node) -> usize {
    match &node.term {
        Term::Form { op, body, .. } => {
            if holds_terms(*op) {
                pieces_of_terms(body).saturating_add(1)
            } else {
                1
            }
        }
        _ => 1,
    }
}

#[cycle(count)]
fn pieces_of_terms(nodes: &[Node]) -> usize {
    let mut count: usize = 0;
    let mut left = nodes.len();
    while left > 0 {
        left -= 1;
        count = count.saturating_add(pieces_of_term(&nodes[left]));
    }
    count
}

// The room of the header before that of the terms, which come with the last first.
fn finish(
    alloc: Global,
    block: &Block,
    lines: &SourceLines<'_>,
    draft: Draft,
    short: bool,
) -> Result<Room, AllocError>
    requires pieces { draft.pieces.items ≡ blanks (nodes_pieces (style_for block.now short) lines.now block.now.terms.items) }
    requires spaces { draft.spaces.items ≡ sizes (nodes_pieces (style_for block.now short) lines.now block.now.terms.items) }
    requires size { draft.size ≡ length (terms_bytes (style_for block.now short) block.now.terms.items) }
    requires lengths { Noted (terms_lengths (style_for block.now short) block.now.terms.items) (Some []) draft.notes }
    ensures { IfOk result (IsRoomOf lines.now block.now short) }
{
    let Draft {
        pieces,
        spaces,
        notes,
        ..
    } = draft;
    let mut pieces = pieces;
    let mut spaces = spaces;
    pieces.push(blank(alloc, lines, block.place)?)?;
    spaces.push(Space::of(alloc, HEADER_BYTES)?)?;
    pieces.reverse();
    spaces.reverse();
    match notes.into_lengths() {
        Some(lengths) => Ok(Room {
            pieces: Pieces::from_vec(pieces),
            lengths,
            spaces: Spaces::from_vec(spaces),
        }),
        None => Err(AllocError),
    }
}

/// The room of the table of a block, as `reserve` gives it.
pub fn reserve_block(
    alloc: Global,
    block: &Block,
    lines: &SourceLines<'_>,
    short: bool,
) -> Result<Room, WriteStop>
    ensures room { IfOk result (IsRoomOf lines.now block.now short) }
    ensures refused { IfErr result (RefusedFor block.now short) }
{
    let mut draft = Draft::with_room(alloc, pieces_of_terms(&block.terms).saturating_add(1))?;
    match reserve_terms(
        alloc,
        &mut draft,
        lines,
        &block.terms,
        style_of(block, short),
    ) {
        Ok(()) => Ok(finish(alloc, block, lines, draft, short)?),
        Err(DraftStop::TooLong) => Err(WriteStop::TooLong(too_long(alloc, block))),
        Err(DraftStop::Memory) => Err(WriteStop::Memory),
    }
}

/// The room of the table of one of a core's blocks: its pieces with their places and sources and without bytes, room
/// for the bytes of each, and the lengths of its packages. It is refused, with message 6080 at the block, exactly
/// where `measure` answers a place: where the table has more than 16 MiB.
pub fn reserve(
    alloc: Global,
    core: &Core,
    lines: &Lines,
    block: u32,
    short: bool,
) -> Result<Room, WriteStop>
    requires { block < length core.now.program.blocks }
    ensures room { IfOk result (λ room. AtBlock core.now block (λ b. IsRoomOf lines.now.list b short room)) }
    ensures refused { IfErr result (λ stop. AtBlock core.now block (λ b. RefusedFor b short stop)) }
{
    let lines = SourceLines::new(alloc, lines.list.as_slice())?;
    match core.program.blocks.get(block as usize) {
        Some(block) => reserve_block(alloc, block, &lines, short),
        None => unreachable!(),
    }
}
