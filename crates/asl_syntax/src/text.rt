//! The texts of the tree.
ghost use Rattle.std.specs.Prelude.{◌≡◌, IfOk};

use bumpalo::Bump;
use iasl_ports::list::Text;
use std::alloc::{AllocError, Global};
use std::marker::Model;

/// The most bytes of a text that lies in its node.
const SHORT: usize = 14;

/// Where the bytes of a text are.
#[derive(Drop)]
enum TextPlace<'a> {
    /// In the text itself.
    Short(Text),
    /// In the arena.
    Long(&'a [u8]),
}

/// The text of a node: a list of bytes. One of at most 14 bytes takes no memory beside itself.
pub struct SyntaxText<'a> {
    bytes: TextPlace<'a>,
}

// By hand, so that an owner lets go of it by one call (docs/DECISIONS.md).
impl Drop for SyntaxText<'_> {
    fn drop(self) {
        let SyntaxText { bytes: _ } = self;
    }
}

impl<'a> Model for SyntaxText<'a> {
    ghost use Rattle.std.specs.Prelude.{List, ℕ};
    ghost use Rattle.asl_syntax.specs.TextBytes.{bytes_in};

    ghost Value = { List ℕ };

    ghost view = { λ text. bytes_in text.bytes };
}

impl<'a> SyntaxText<'a> {
    /// A text of the same bytes.
    #[inline(always)]
    pub fn new(alloc: Global, arena: &'a Bump, text: &Text) -> Result<SyntaxText<'a>, AllocError>
        ensures { IfOk result (λ copied. copied ≡ text.now) }
    {
        let bytes = text.as_bytes();
        if bytes.len() <= SHORT {
            return Ok(SyntaxText {
                bytes: TextPlace::Short(text.copy(alloc)?),
            });
        }
        Ok(SyntaxText {
            bytes: TextPlace::Long(arena.try_alloc_slice_copy(bytes)?),
        })
    }

    /// Its bytes.
    pub fn as_bytes(&self) -> &[u8]
        ensures { result.now ≡ self.now }
    {
        match &self.bytes {
            TextPlace::Short(text) => text.as_bytes(),
            TextPlace::Long(bytes) => bytes,
        }
    }
}
