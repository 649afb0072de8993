//! What the operands of a form say of how it is written.
ghost use Rattle.std.specs.Prelude.{◌≡◌, ◌∷◌, []};
ghost use Rattle.asl_operators.specs.Letters.{letter_as, letters_as};
ghost use Rattle.aml_sizes.specs.Leaves.{leaf_of, leaves_of, letter_number, listed_byte_of, is_first_left_out, stated_count as stated};
ghost use Rattle.aml_sizes.specs.TermBytes.{package_code};

use asl_operators::letter::Letter;
use asl_tree::term::{Node, Term};

/// The letter of an operand; behind the letters stand terms as they are.
#[tactic(auto, using(crate::proofs::Letters::letter_is, crate::proofs::Letters::no_letter))]
pub fn letter_at(letters: &[Letter], index: usize) -> Letter
    ensures { letter_as result ≡ letter_number (letters_as letters.now) index }
{
    if index < letters.len() {
        letters[index]
    } else {
        Letter::Kept
    }
}

/// Whether the first of some operands is left out.
pub fn is_left_out(nodes: &[Node]) -> bool
    ensures { result ≡ is_first_left_out (leaves_of nodes.now) }
{
    match nodes {
        [first, ..] => matches!(first.term, Term::Omitted),
        _ => false,
    }
}

/// A byte in the list of a Buffer.
pub fn listed_byte(term: &Term) -> u8
    ensures { result ≡ listed_byte_of (leaf_of term.now) }
{
    match term {
        Term::Integer(number) => (*number % 256) as u8,
        Term::Word(word) => (word.number() % 256) as u8,
        _ => 0,
    }
}

/// The number of elements that a Package states, which is that of its elements where it is left out.
pub fn stated_count(args: &[Node], elements: usize) -> Option<u64>
    ensures { result ≡ stated (leaves_of args.now) elements }
{
    match args {
        [first, ..] => match &first.term {
            Term::Omitted => Some(elements as u64),
            Term::Integer(number) => Some(*number),
            Term::Word(word) => Some(word.number()),
            _ => None,
        },
        _ => None,
    }
}

/// A number of elements that is a byte has an opcode of its own.
pub fn package_opcode(count: Option<u64>) -> u8
    ensures { package_code count ≡ result ∷ [] }
{
    match count {
        Some(count) if count <= 255 => 0x12,
        _ => 0x13,
    }
}
