//! The bytes of a table, put into the room that was kept for them. No call here can be refused.
ghost use Rattle.std.specs.Prelude.{◌≡◌, ◌≤◌, ◌<◌, ◌^◌, ◌++◌, ◌+◌, ◌∷◌, [], false, length, drop, set, get_or, map, sum};
ghost use Rattle.iasl_messages.specs.declared.place.Piece.{Piece};
ghost use Rattle.aml_sizes.specs.Codes.{letters_of};
ghost use Rattle.aml_sizes.specs.TermBytes.{term_bytes, nodes_bytes};
ghost use Rattle.aml_sizes.specs.TermLists.{else_if_head, own_head, own_bytes, terms_bytes, container_bytes};
ghost use Rattle.aml_sizes.specs.Pieces.{is_container, term_pieces};
ghost use Rattle.aml_writer.specs.Fills.{bytes_of, with_bytes, nodes_parts, own_parts, filled, table_parts_of};
ghost use Rattle.aml_writer.specs.Fills.{EndsIn, Fills, HasRoom, header_for};
ghost use Rattle.aml_sizes.specs.TableSizes.{AtBlock};

use crate::header::{completing_byte, header};
use crate::put::put;
use crate::term_bytes::{put_head, put_term};
use aml_sizes::codes::holds_terms;
use aml_sizes::else_if::{is_else_if, run_from};
use aml_sizes::reserve::Room;
use aml_sizes::space::{FEW, HEADER_BYTES, Space, Store};
use aml_sizes::style::{IntegerStyle, style_of};
use asl_tree::program::{Block, Core};
use asl_tree::term::{Control, Node, Op, Term};
use iasl_messages::place::{Piece, Pieces};
use iasl_ports::list::Text;

fn few_of_term(term: &Term, style: IntegerStyle) -> Text
    requires { length (term_bytes style term.now) ≤ 14 }
    ensures { result ≡ term_bytes style term.now }
{
    let mut bytes = [0u8; FEW];
    let at = put_term(&mut bytes, FEW, term, style);
    Text::of_few(&bytes[at..])
}

fn many_of_term(shell: Box<Vec<u8>>, bytes: Vec<u8>, term: &Term, style: IntegerStyle) -> Text
    requires { length (term_bytes style term.now) ≡ length bytes.items }
    ensures { result ≡ term_bytes style term.now }
{
    let mut bytes = bytes;
    let end = bytes.len();
    put_term(&mut bytes, end, term, style);
    Text::in_box(shell, bytes)
}

// All of a term, in the room for it.
fn text_of_term(space: Space, term: &Term, style: IntegerStyle) -> Text
    requires { space ≡ length (term_bytes style term.now) }
    ensures { result ≡ term_bytes style term.now }
{
    match space.store {
        Store::Few(_) => few_of_term(term, style),
        Store::Many { shell, bytes } => many_of_term(shell, bytes, term, style),
    }
}

// An ElseIf up to its terms, which have so many bytes, before so many of its run.
#[tactic(auto, using(crate::proofs::Puts::no_bytes))]
fn put_else_if(
    out: &mut [u8],
    at: usize,
    args: &[Node],
    body: usize,
    later: usize,
    style: IntegerStyle,
) -> usize
    requires size { length (else_if_head (nodes_bytes style [] args.now) body later) + body + later < 2 ^ 63 }
    requires room { length (else_if_head (nodes_bytes style [] args.now) body later) ≤ at }
    requires within { at ≤ length out.old }
    ensures at { result + length (else_if_head (nodes_bytes style [] args.now) body later) ≡ at }
    ensures bytes { drop result out.new ≡ else_if_head (nodes_bytes style [] args.now) body later ++ drop at out.old }
{
    let none: &[Node] = &[];
    let to = put_head(out, at, Op::Control(Control::If), args, body, style);
    put_head(
        out,
        to,
        Op::Control(Control::Else),
        none,
        at - to + body + later,
        style,
    )
}

// A form that holds terms up to these, which have so many bytes, before so many of its run.
fn put_own_head(
    out: &mut [u8],
    at: usize,
    op: Op,
    args: &[Node],
    body: usize,
    later: usize,
    style: IntegerStyle,
) -> usize
    requires size { length (own_head op (nodes_bytes style (letters_of op) args.now) body later) + body + later < 2 ^ 63 }
    requires room { length (own_head op (nodes_bytes style (letters_of op) args.now) body later) ≤ at }
    requires within { at ≤ length out.old }
    ensures at { result + length (own_head op (nodes_bytes style (letters_of op) args.now) body later) ≡ at }
    ensures bytes { drop result out.new ≡ own_head op (nodes_bytes style (letters_of op) args.now) body later ++ drop at out.old }
{
    if is_else_if(op) {
        put_else_if(out, at, args, body, later, style)
    } else {
        put_head(out, at, op, args, body, style)
    }
}

fn few_of_head(op: Op, args: &[Node], body: usize, later: usize, style: IntegerStyle) -> Text
    requires room { length (own_head op (nodes_bytes style (letters_of op) args.now) body later) ≤ 14 }
    requires size { body + later < 2 ^ 62 }
    ensures { result ≡ own_head op (nodes_bytes style (letters_of op) args.now) body later }
{
    let mut bytes = [0u8; FEW];
    let at = put_own_head(&mut bytes, FEW, op, args, body, later, style);
    Text::of_few(&bytes[at..])
}

fn many_of_head(
    shell: Box<Vec<u8>>,
    bytes: Vec<u8>,
    op: Op,
    args: &[Node],
    body: usize,
    later: usize,
    style: IntegerStyle,
) -> Text
    requires room { length (own_head op (nodes_bytes style (letters_of op) args.now) body later) ≡ length bytes.items }
    requires size { length (own_head op (nodes_bytes style (letters_of op) args.now) body later) + body + later < 2 ^ 63 }
    ensures { result ≡ own_head op (nodes_bytes style (letters_of op) args.now) body later }
{
    let mut bytes = bytes;
    let end = bytes.len();
    put_own_head(&mut bytes, end, op, args, body, later, style);
    Text::in_box(shell, bytes)
}

// A form that holds terms up to these, which have so many bytes, before so many of its run, in the room for it.
fn text_of_head(
    space: Space,
    op: Op,
    args: &[Node],
    body: usize,
    later: usize,
    style: IntegerStyle,
) -> Text
    requires room { space ≡ length (own_head op (nodes_bytes style (letters_of op) args.now) body later) }
    requires size { space + body + later < 2 ^ 62 }
    ensures { result ≡ own_head op (nodes_bytes style (letters_of op) args.now) body later }
{
    match space.store {
        Store::Few(_) => few_of_head(op, args, body, later, style),
        Store::Many { shell, bytes } => many_of_head(shell, bytes, op, args, body, later, style),
    }
}

fn many_of_bytes(shell: Box<Vec<u8>>, bytes: Vec<u8>, given: &[u8]) -> Text
    requires { length given.now ≡ length bytes.items }
    ensures { result ≡ given.now }
{
    let mut bytes = bytes;
    let end = bytes.len();
    put(&mut bytes, end, given);
    Text::in_box(shell, bytes)
}

// These bytes in the room for them.
fn text_of_bytes(space: Space, given: &[u8]) -> Text
    requires { space ≡ length given.now }
    ensures { result ≡ given.now }
{
    match space.store {
        Store::Few(_) => Text::of_few(given),
        Store::Many { shell, bytes } => many_of_bytes(shell, bytes, given),
    }
}

/// The pieces of a table, of which the last have their bytes; the room of the others; and how many bytes the last ones have.
#[derive(Drop)]
struct Filling {
    pieces: Vec<Piece>,
    spaces: Vec<Space>,
    size: usize,
    ghost count: { length spaces.items ≤ length pieces.items },
    ghost within: { size + sum spaces.items ≤ 16777216 },
}

// The last of some rooms.
fn last(spaces: &mut Vec<Space>) -> Space
    requires { 0 < length spaces.old.items }
    ensures { spaces.old.items ≡ spaces.new.items ++ result ∷ [] }
{
    match spaces.pop() {
        Some(space) => space,
        None => unreachable!(),
    }
}

// A piece gets its bytes.
fn set_bytes(pieces: &mut Vec<Piece>, index: usize, bytes: Text)
    requires { index < length pieces.old.items }
    ensures pieces { (d : Piece) → pieces.new.items ≡ set pieces.old.items index (with_bytes (get_or pieces.old.items index d) bytes) }
    ensures count { length pieces.new.items ≡ length pieces.old.items }
{
    pieces[index].bytes = bytes;
}

impl Filling {
    // The room of the last piece that has no bytes.
    fn next(&mut self) -> Space
        requires { 0 < length self.old.spaces.items }
        ensures spaces { self.old.spaces.items ≡ self.new.spaces.items ++ result ∷ [] }
        ensures pieces { self.new.pieces.items ≡ self.old.pieces.items }
        ensures size { self.new.size ≡ self.old.size }
        ensures count { length self.new.spaces.items < length self.new.pieces.items }
        ensures within { self.new.size + sum self.new.spaces.items + result ≤ 16777216 }
    {
        last(&mut self.spaces)
    }

    // The bytes of the last piece that has none, whose room was taken.
    fn put(&mut self, bytes: Text)
        requires count { length self.old.spaces.items < length self.old.pieces.items }
        requires within { self.old.size + sum self.old.spaces.items + length bytes ≤ 16777216 }
        ensures spaces { self.new.spaces.items ≡ self.old.spaces.items }
        ensures pieces { (d : Piece) → self.new.pieces.items ≡ set self.old.pieces.items (length self.old.spaces.items)
            (with_bytes (get_or self.old.pieces.items (length self.old.spaces.items) d) bytes) }
        ensures size { self.new.size ≡ self.old.size + length bytes }
    {
        self.size += bytes.as_bytes().len();
        set_bytes(&mut self.pieces, self.spaces.len(), bytes);
    }
}

// All of a term.
fn fill_whole(filling: &mut Filling, term: &Term, style: IntegerStyle)
    requires { EndsIn filling.old.spaces.items (term_bytes style term.now ∷ []) }
    ensures fills { Fills (term_bytes style term.now ∷ []) filling.old.spaces.items filling.new.spaces.items filling.old.pieces.items
        filling.new.pieces.items }
    ensures size { filling.new.size ≡ filling.old.size + length (term_bytes style term.now) }
{
    let space = filling.next();
    let bytes = text_of_term(space, term, style);
    filling.put(bytes);
}

// The one piece of a term that holds no list of terms, whatever stands behind it.
fn fill_alone(filling: &mut Filling, node: &Node, later: usize, style: IntegerStyle)
    requires alone { is_container node.now.term ≡ false }
    requires ends { EndsIn filling.old.spaces.items (map bytes_of (term_pieces style [] later node.now.place node.now.term)) }
    ensures fills { Fills (map bytes_of (term_pieces style [] later node.now.place node.now.term)) filling.old.spaces.items
        filling.new.spaces.items filling.old.pieces.items filling.new.pieces.items }
    ensures size { filling.new.size ≡ filling.old.size + length (own_bytes style later node.now.term) }
{
    fill_whole(filling, &node.term, style);
}

// A form that holds terms up to these, which have so many bytes, before so many of its run.
fn fill_head(
    filling: &mut Filling,
    op: Op,
    args: &[Node],
    body: usize,
    later: usize,
    style: IntegerStyle,
)
    requires ends { EndsIn filling.old.spaces.items (own_head op (nodes_bytes style (letters_of op) args.now) body later ∷ []) }
    requires size { body + later < 2 ^ 60 }
    ensures fills { Fills (own_head op (nodes_bytes style (letters_of op) args.now) body later ∷ []) filling.old.spaces.items
        filling.new.spaces.items filling.old.pieces.items filling.new.pieces.items }
    ensures size { filling.new.size ≡ filling.old.size + length (own_head op (nodes_bytes style (letters_of op) args.now) body later) }
{
    let space = filling.next();
    let bytes = text_of_head(space, op, args, body, later, style);
    filling.put(bytes);
}

fn fill_bytes(filling: &mut Filling, given: &[u8])
    requires { EndsIn filling.old.spaces.items (given.now ∷ []) }
    ensures { Fills (given.now ∷ []) filling.old.spaces.items filling.new.spaces.items filling.old.pieces.items filling.new.pieces.items }
{
    let space = filling.next();
    let bytes = text_of_bytes(space, given);
    filling.put(bytes);
}

// A form that holds terms, before so many bytes of its run: those of its terms, and then what stands before them.
#[cycle(fill)]
fn fill_own(
    filling: &mut Filling,
    op: Op,
    body: &[Node],
    args: &[Node],
    later: usize,
    style: IntegerStyle,
)
    requires ends { EndsIn filling.old.spaces.items (own_parts style op args.now body.now later) }
    requires later { later ≤ filling.old.size }
    ensures fills { Fills (own_parts style op args.now body.now later) filling.old.spaces.items filling.new.spaces.items
        filling.old.pieces.items filling.new.pieces.items }
    ensures size { filling.new.size ≡ filling.old.size + length (container_bytes style op args.now body.now later) }
{
    let before = filling.size;
    fill_terms(filling, body, style);
    let size = filling.size - before;
    fill_head(filling, op, args, size, later, style);
}

// The bytes of a term's pieces, of which its own come last, before so many bytes of its run.
#[cycle(fill)]
fn fill_term(filling: &mut Filling, node: &Node, later: usize, style: IntegerStyle)
    requires ends { EndsIn filling.old.spaces.items (map bytes_of (term_pieces style [] later node.now.place node.now.term)) }
    requires later { later ≤ filling.old.size }
    ensures fills { Fills (map bytes_of (term_pieces style [] later node.now.place node.now.term)) filling.old.spaces.items
        filling.new.spaces.items filling.old.pieces.items filling.new.pieces.items }
    ensures size { filling.new.size ≡ filling.old.size + length (own_bytes style later node.now.term) }
{
    match &node.term {
        Term::Form { op, args, body } => {
            if holds_terms(*op) {
                fill_own(filling, *op, body, args, later, style);
            } else {
                fill_alone(filling, node, later, style);
            }
        }
        _ => fill_alone(filling, node, later, style),
    }
}

// The bytes of some terms, the last first.
#[cycle(fill)]
fn fill_terms(filling: &mut Filling, nodes: &[Node], style: IntegerStyle)
    requires { EndsIn filling.old.spaces.items (nodes_parts style nodes.now) }
    ensures fills { Fills (nodes_parts style nodes.now) filling.old.spaces.items filling.new.spaces.items filling.old.pieces.items
        filling.new.pieces.items }
    ensures size { filling.new.size ≡ filling.old.size + length (terms_bytes style nodes.now) }
{
    let mut left = nodes.len();
    let mut later: usize = 0;
    while left > 0 {
        left -= 1;
        let node = &nodes[left];
        let before = filling.size;
        fill_term(filling, node, later, style);
        later = run_from(&node.term, filling.size - before, later);
    }
}

// The header before the terms, which have their bytes.
fn fill_header(filling: &mut Filling, block: &Block)
    requires ends { EndsIn filling.old.spaces.items
        (header_for block.now filling.old.size (map bytes_of (drop (length filling.old.spaces.items) filling.old.pieces.items)) ∷ []) }
    ensures { Fills (header_for block.now filling.old.size (map bytes_of (drop (length filling.old.spaces.items) filling.old.pieces.items))
        ∷ []) filling.old.spaces.items filling.new.spaces.items filling.old.pieces.items filling.new.pieces.items }
{
    let size = (HEADER_BYTES + filling.size) as u32;
    let unchecked = header(block, size, 0);
    let checksum = completing_byte(&unchecked, &filling.pieces[filling.spaces.len()..]);
    let whole = header(block, size, checksum);
    fill_bytes(filling, &whole);
}

pub(crate) fn fill_block(room: Room, block: &Block, short: bool) -> Pieces
    requires { HasRoom block.now short room }
    ensures { result ≡ filled room.pieces (table_parts_of block.now short) }
{
    let mut filling = Filling {
        pieces: room.pieces.into_vec(),
        spaces: room.spaces.into_vec(),
        size: 0,
    };
    fill_terms(&mut filling, &block.terms, style_of(block, short));
    fill_header(&mut filling, block);
    Pieces::from_vec(filling.pieces)
}

/// The table of one of a core's blocks, put into the room that was kept for it: each piece keeps its place and its
/// source and gets its bytes. It takes no memory, and nothing that is put is refused.
pub fn fill(room: Room, core: &Core, block: u32, short: bool) -> Pieces
    requires block { block < length core.now.program.blocks }
    requires room { AtBlock core.now block (λ b. HasRoom b short room) }
    ensures { AtBlock core.now block (λ b. result ≡ filled room.pieces (table_parts_of b short)) }
{
    match core.program.blocks.get(block as usize) {
        Some(block) => fill_block(room, block, short),
        None => unreachable!(),
    }
}
