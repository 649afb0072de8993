//! How many bytes the list of a field has.
ghost use Rattle.std.specs.Prelude.{◌≡◌, ◌≤◌, ◌<◌, ◌^◌, ◌+◌, ◌∷◌, [], length, take, get_or, ℕ, IfSome};
ghost use Rattle.asl_tree.specs.declared.term.Node.{Node};
ghost use Rattle.asl_tree.specs.declared.term.Term as Term;
ghost use Rattle.aml_sizes.specs.Items.{offset_bits, own_bits, written_count, counted as counted_bits, written_access, resource_bytes};
ghost use Rattle.aml_sizes.specs.Items.{written_term, behind_term, behind_items, written_items, item_at};
ghost use Rattle.aml_sizes.specs.Capped.{capped};
ghost use Rattle.aml_code.specs.Encoding.{prefixed_bytes};
ghost use Rattle.aml_sizes.specs.PackageLengths.{package_length, entry_lengths, items_lengths, Noted};

use crate::leaf_sizes::{length_size, name_size};
use crate::notes::LengthNotes;
use acpi_values::width::Width;
use aml_code::coded::{bit_count, integer_bytes, package_length};
use asl_tree::path::NameSeg;
use asl_tree::term::{Node, Term};

/// Counts of bits are less than this.
const COUNT_END: u128 = 1 << 28;

// How many bytes a count of bits has.
fn count_size(bits: u128) -> usize
    ensures size { result ≡ length (written_count bits) }
    ensures few { result ≤ 9 }
{
    if bits >= COUNT_END {
        return 0;
    }
    match bit_count(bits as u32) {
        Some(coded) => usize::from(coded.count),
        None => 0,
    }
}

// How many bytes a resource has as a Buffer.
fn resource_size(bytes: &[u8]) -> usize
    ensures { result ≡ length (resource_bytes bytes.now) }
{
    let size = integer_bytes(bytes.len() as u64, Width::W64, false);
    let content = usize::from(size.count) + bytes.len();
    1 + length_size(content) + content
}

fn counted(bits: u64) -> u128
    ensures value { result ≡ counted_bits bits }
    ensures few { result < 2 ^ 28 }
{
    let bits = u128::from(bits);
    if bits < COUNT_END { bits } else { 0 }
}

fn segment_size(segment: &NameSeg) -> usize
    ensures size { result ≡ length segment.now }
    ensures few { result ≤ 4 }
{
    segment.len()
}

fn offset_size(bit: u128, bytes: u64) -> usize
    ensures { result ≡ length (written_term bit (Term.Offset bytes)) }
{
    let end = 8 * u128::from(bytes);
    if end == bit {
        return 0;
    }
    1 + count_size(end.saturating_sub(bit))
}

fn access_size(count: Option<u8>) -> usize
    ensures { (access attribute : ℕ) → result ≡ length (written_access access attribute count) }
{
    match count {
        None => 3,
        Some(_) => 4,
    }
}

// How many bytes a node of the list of a field has, at a bit.
fn entry_size(bit: u128, term: &Term) -> usize
    ensures { result ≡ capped (length (written_term bit term.now)) }
{
    match term {
        Term::Unit { segment, bits } => segment_size(segment) + count_size((*bits).into()),
        Term::Skip(bits) => 1 + count_size((*bits).into()),
        Term::Offset(bytes) => offset_size(bit, *bytes),
        Term::Access { length, .. } => access_size(*length),
        Term::Name(path) => name_size(path).saturating_add(1),
        Term::Fill { bytes, .. } => resource_size(bytes.as_bytes()).saturating_add(1),
        _ => 0,
    }
}

// The bit behind a node of the list of a field.
fn behind_entry(at: u128, term: &Term) -> u128
    requires { at < 2 ^ 127 }
    ensures value { result ≡ behind_term at term.now }
    ensures bound { (most : ℕ) → 2 ^ 67 ≤ most → at ≤ most → result ≤ most + 2 ^ 28 }
{
    match term {
        Term::Unit { bits, .. } | Term::Skip(bits) => at + counted(*bits),
        Term::Offset(bytes) => 8 * u128::from(*bytes),
        _ => at,
    }
}

// Where an Offset leads, in bits.
fn offset_of(term: &Term) -> Option<u128>
    ensures value { result ≡ offset_bits term.now }
    ensures few { IfSome result (λ start. start < 2 ^ 67) }
{
    match term {
        Term::Offset(bytes) => Some(8 * u128::from(*bytes)),
        _ => None,
    }
}

// The bits of a node that is no Offset.
fn bits_of(term: &Term) -> u128
    ensures value { result ≡ own_bits term.now }
    ensures few { result < 2 ^ 28 }
{
    match term {
        Term::Unit { bits, .. } | Term::Skip(bits) => counted(*bits),
        _ => 0,
    }
}

// The bit at which a node stands: those behind the last Offset before it are counted.
fn bit_before(nodes: &[Node], index: usize) -> u128
    requires { index ≤ length nodes.now }
    ensures { result ≡ behind_items 0 (take index nodes.now) }
{
    let mut bits: u128 = 0;
    let mut left = index;
    while left > 0 {
        left -= 1;
        if let Some(start) = offset_of(&nodes[left].term) {
            return start + bits;
        }
        bits += bits_of(&nodes[left].term);
    }
    bits
}

/// The bit that a node's bytes rest on.
pub fn bit_of(nodes: &[Node], index: usize) -> u128
    requires { index < length nodes.now }
    ensures { (d : Node) → written_term result (get_or nodes.now index d).term ≡ item_at 0 nodes.now index }
{
    match offset_of(&nodes[index].term) {
        Some(_) => bit_before(nodes, index),
        None => 0,
    }
}

/// How many bytes the list of a field has.
pub(crate) fn items_size(nodes: &[Node]) -> usize
    ensures { result ≡ capped (length (written_items 0 nodes.now)) }
{
    let mut size: usize = 0;
    let mut bit: u128 = 0;
    for node in nodes {
        size = size.saturating_add(entry_size(bit, &node.term));
        bit = behind_entry(bit, &node.term);
    }
    size
}

// The length of a resource as a Buffer.
fn note_resource(notes: &mut LengthNotes, bytes: &[u8])
    ensures { Noted (package_length (length (prefixed_bytes (length bytes.now)) + length bytes.now) ∷ []) notes.old notes.new }
{
    let size = integer_bytes(bytes.len() as u64, Width::W64, false);
    let content = usize::from(size.count) + bytes.len();
    notes.put(content + length_size(content));
}

fn note_entry(notes: &mut LengthNotes, term: &Term)
    ensures { Noted (entry_lengths term.now) notes.old notes.new }
{
    match term {
        Term::Fill { bytes, .. } => note_resource(notes, bytes.as_bytes()),
        _ => {}
    }
}

/// The lengths of the packages in the list of a field.
pub(crate) fn note_items(notes: &mut LengthNotes, nodes: &[Node])
    ensures { Noted (items_lengths nodes.now) notes.old notes.new }
{
    let mut left = nodes.len();
    while left > 0 {
        left -= 1;
        note_entry(notes, &nodes[left].term);
    }
}
