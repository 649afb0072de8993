//! The lengths of packages, as they are noted from the last to the first.
ghost use Rattle.std.specs.Prelude.{true, ◌≡◌, ◌≤◌, ◌∷◌, ◌++◌, [], Some, None, IfSome};
ghost use Rattle.aml_sizes.specs.Sizes.{most_content_bytes};
ghost use Rattle.aml_sizes.specs.PackageLengths.{Noted};

use crate::length::Lengths;
use std::alloc::Global;
use std::marker::Model;

/// The most bytes of a package in a table that is not too long.
const MOST_CONTENT_BYTES: usize = (1 << 24) - 36;

/// The lengths so far, unless they are not asked for or there was no memory. Contracts see them in their order.
#[derive(Drop)]
pub(crate) struct LengthNotes {
    reversed: Option<Vec<u32>>,
}

impl Model for LengthNotes {
    ghost use Rattle.std.specs.Prelude.{ℕ, List, Option};
    ghost use Rattle.aml_sizes.specs.PackageLengths.{in_order};

    ghost Value = { Option (List ℕ) };

    ghost view = { λ notes. in_order notes.reversed };
}

// One more length, where it is not too large and there is memory for it.
fn push_length(lengths: &mut Vec<u32>, length: usize) -> bool
    ensures { result ≡ true → (length ≤ most_content_bytes) × (lengths.new.items ≡ lengths.old.items ++ length ∷ []) }
{
    length <= MOST_CONTENT_BYTES && lengths.push(length as u32).is_ok()
}

impl LengthNotes {
    /// Where no lengths are asked for.
    pub fn none() -> LengthNotes
        ensures { result ≡ None }
    {
        LengthNotes { reversed: None }
    }

    pub fn new(alloc: Global) -> LengthNotes
        ensures { result ≡ Some [] }
    {
        LengthNotes {
            reversed: Some(Vec::new(alloc)),
        }
    }

    /// One more length before those that are there.
    pub fn put(&mut self, length: usize)
        ensures noted { Noted (length ∷ []) self.old self.new }
        ensures few { IfSome self.new (λ lengths. length ≤ most_content_bytes) }
    {
        let kept = match &mut self.reversed {
            Some(lengths) => push_length(lengths, length),
            None => false,
        };
        if !kept {
            self.reversed = None;
        }
    }

    /// The lengths in their order.
    pub fn into_lengths(self) -> Option<Lengths>
        ensures { result ≡ self }
    {
        match self.reversed {
            Some(lengths) => {
                let mut lengths = lengths;
                lengths.reverse();
                Some(Lengths::from_vec(lengths))
            }
            None => None,
        }
    }
}
