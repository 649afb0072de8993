//! How long a table is.
ghost use Rattle.std.specs.Prelude.{false, ◌≡◌, ◌<◌, length, IfOk, IfErr, ℕ};
ghost use Rattle.aml_sizes.specs.Capped.{capped};
ghost use Rattle.aml_sizes.specs.Styles.{style_of as style_for};
ghost use Rattle.aml_sizes.specs.TermLists.{own_bytes, terms_bytes, container_bytes};
ghost use Rattle.aml_sizes.specs.Pieces.{is_container};
ghost use Rattle.aml_sizes.specs.TableSizes.{AtBlock, IsTableSize, IsOver};

use crate::codes::holds_terms;
use crate::else_if::{own_size, run_from};
use crate::notes::LengthNotes;
use crate::sizes::term_size;
use crate::style::{IntegerStyle, style_of};
use asl_tree::program::{Block, Core};
use asl_tree::term::{Node, Op, Term};
use iasl_messages::place::Place;

/// The most bytes of a table behind its header: 16 MiB less 36 bytes.
const MOST_CONTENT_BYTES: usize = (1 << 24) - 36;

// A term that holds no list of terms, whatever stands behind it.
fn alone_size(notes: &mut LengthNotes, term: &Term, style: IntegerStyle) -> usize
    requires { is_container term.now ≡ false }
    ensures { (rest : ℕ) → result ≡ capped (length (own_bytes style rest term.now)) }
{
    term_size(notes, term, style)
}

// A form that holds terms, before so many bytes of its run.
#[cycle(measure)]
fn container_size(
    notes: &mut LengthNotes,
    op: Op,
    args: &[Node],
    body: &[Node],
    later: usize,
    style: IntegerStyle,
) -> usize
    ensures { (rest : ℕ) → later ≡ capped rest → result ≡ capped (length (container_bytes style op args.now body.now rest)) }
{
    let size = terms_size(notes, body, style);
    own_size(notes, op, args, size, later, style)
}

// A term of a list, before so many bytes of its run.
#[cycle(measure)]
fn listed_size(notes: &mut LengthNotes, term: &Term, later: usize, style: IntegerStyle) -> usize
    ensures { (rest : ℕ) → later ≡ capped rest → result ≡ capped (length (own_bytes style rest term.now)) }
{
    match term {
        Term::Form { op, args, body } => {
            if holds_terms(*op) {
                container_size(notes, *op, args, body, later, style)
            } else {
                alone_size(notes, term, style)
            }
        }
        _ => alone_size(notes, term, style),
    }
}

// A list of terms, from the last to the first.
#[cycle(measure)]
fn terms_size(notes: &mut LengthNotes, nodes: &[Node], style: IntegerStyle) -> usize
    ensures { result ≡ capped (length (terms_bytes style nodes.now)) }
{
    let mut size: usize = 0;
    let mut later: usize = 0;
    let mut left = nodes.len();
    while left > 0 {
        left -= 1;
        let node = &nodes[left];
        let own = listed_size(notes, &node.term, later, style);
        later = run_from(&node.term, own, later);
        size = size.saturating_add(own);
    }
    size
}

// How many bytes the terms of a block have.
fn content_size(block: &Block, short: bool) -> usize
    ensures { result ≡ capped (length (terms_bytes (style_for block.now short) block.now.terms.items)) }
{
    let mut notes = LengthNotes::none();
    terms_size(&mut notes, &block.terms, style_of(block, short))
}

fn measure_block(block: &Block, short: bool) -> Result<u32, Place>
    ensures size { IfOk result (IsTableSize block.now short) }
    ensures over { IfErr result (IsOver block.now short) }
{
    let size = content_size(block, short);
    if size <= MOST_CONTENT_BYTES {
        Ok(36 + size as u32)
    } else {
        Err(block.place)
    }
}

/// How many bytes the table of one of a core's blocks has, or the block's place where it has more than 16 MiB. It takes no memory.
pub fn measure(core: &Core, block: u32, short: bool) -> Result<u32, Place>
    requires { block < length core.now.program.blocks }
    ensures size { IfOk result (λ size. AtBlock core.now block (λ b. IsTableSize b short size)) }
    ensures over { IfErr result (λ place. AtBlock core.now block (λ b. IsOver b short place)) }
{
    match core.program.blocks.get(block as usize) {
        Some(block) => measure_block(block, short),
        None => unreachable!(),
    }
}
