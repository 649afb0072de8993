//! Bytes that several owners share.
ghost use Rattle.std.specs.Prelude.{◌≡◌, IfOk};

use std::alloc::{AllocError, Global};
use std::marker::Model;
use std::rc::Rc;

/// Bytes that several owners share. One more owner takes no memory, and the bytes are let go with the last.
pub struct SharedBytes {
    bytes: Rc<Vec<u8>>,
}

// By hand, so that an owner lets go of it by one call (docs/DECISIONS.md).
impl Drop for SharedBytes {
    fn drop(self) {
        let SharedBytes { bytes: _ } = self;
    }
}

impl Model for SharedBytes {
    ghost use Rattle.std.specs.Prelude.{List, ℕ};

    ghost Value = { List ℕ };

    ghost view = { λ shared. shared.bytes.value.items };
}

impl SharedBytes {
    /// A vector's bytes, with one owner.
    pub fn from_vec(alloc: Global, bytes: Vec<u8>) -> Result<SharedBytes, AllocError>
        ensures { IfOk result (λ shared. shared ≡ bytes.items) }
    {
        Ok(SharedBytes {
            bytes: Rc::new(alloc, bytes)?,
        })
    }

    /// The same bytes for one more owner.
    pub fn share(&self) -> Result<SharedBytes, AllocError>
        ensures { IfOk result (λ shared. shared ≡ self.now) }
    {
        Ok(SharedBytes {
            bytes: self.bytes.clone()?,
        })
    }

    /// The bytes.
    pub fn as_bytes(&self) -> &[u8]
        ensures { result.now ≡ self.now }
    {
        self.bytes.as_slice()
    }
}
