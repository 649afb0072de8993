//! The texts of a format.
ghost use Rattle.std.specs.Prelude.{◌≡◌, drop, IfOk};
ghost use Rattle.asl_prints.specs.Texts.{all_texts, mark_of};

use iasl_ports::list::{Text, behind};
use std::alloc::{AllocError, Global};

/// What a format begins with.
#[derive(Clone, Copy, PartialEq, Eq, Debug)]
pub enum Mark {
    /// Nothing is left.
    End,
    /// `%o`.
    Hole,
    /// `%%`.
    Percent,
    /// Any other byte.
    Byte(u8),
}

/// What a format begins with: `%o` and `%%` are of two bytes.
#[tactic(auto, using(crate::proofs::Cuts::mark_none, crate::proofs::Cuts::mark_one, crate::proofs::Cuts::mark_two))]
pub fn first_mark(format: &[u8]) -> Mark
    ensures { result ≡ mark_of format.now }
{
    match format {
        [] => Mark::End,
        [byte] => Mark::Byte(*byte),
        [first, second, ..] => {
            if *first == b'%' && *second == b'o' {
                Mark::Hole
            } else if *first == b'%' && *second == b'%' {
                Mark::Percent
            } else {
                Mark::Byte(*first)
            }
        }
    }
}

/// The text of a format before its first argument, and then those behind each argument.
pub(crate) fn texts_of(alloc: Global, format: &[u8]) -> Result<Vec<Text>, AllocError>
    ensures { IfOk result (λ texts. texts.items ≡ all_texts format.now) }
{
    let mut texts = Vec::new(alloc);
    let mut text = Vec::new(alloc);
    let mut rest = format;
    loop {
        match first_mark(rest) {
            Mark::End => {
                texts.push(Text::from_vec(alloc, text)?)?;
                return Ok(texts);
            }
            Mark::Hole => {
                texts.push(Text::from_vec(alloc, text)?)?;
                text = Vec::new(alloc);
                rest = behind(rest, 2);
            }
            Mark::Percent => {
                text.push(b'%')?;
                rest = behind(rest, 2);
            }
            Mark::Byte(byte) => {
                text.push(byte)?;
                rest = behind(rest, 1);
            }
        }
    }
}

/// The texts behind the first one.
pub(crate) fn other_texts(texts: &[Text]) -> &[Text]
    ensures { result.now ≡ drop 1 texts.now }
{
    match texts {
        [_, texts @ ..] => texts,
        _ => texts,
    }
}
