//! The table of definitions.
ghost use Rattle.asl_macros.specs.Firsts.{AreMarked, Marks};

use indexmap::IndexMap;
use std::alloc::{AllocError, Global};

/// The defined names, each with its text, and the bytes that such a name may begin with.
pub struct Macros {
    table: IndexMap<Vec<u8>, Vec<u8>>,
    firsts: [bool; 256],
    ghost marked: { AreMarked firsts table },
}

// By hand, so that an owner lets go of it by one call (docs/DECISIONS.md).
impl Drop for Macros {
    fn drop(self) {
        let Macros {
            table: _,
            firsts: _,
        } = self;
    }
}

// Marks the first byte of a name.
fn mark(firsts: &mut [bool; 256], name: &[u8])
    ensures { Marks firsts.old firsts.new name.now }
{
    if let [first, ..] = name {
        firsts[*first as usize] = true;
    }
}

impl Macros {
    ghost use Rattle.std.specs.Prelude.{◌≡◌, ◌∷◌, [], ℕ, List, false, None, OnOk, OnErr};
    ghost use Rattle.std.specs.Option.{option_copied};
    ghost use Rattle.asl_macros.specs.History.{History, Defines, Undefines};
    ghost use Rattle.asl_macros.specs.Table.{Tells, text_at};

    /// No name is defined.
    pub fn new(alloc: Global) -> Macros
        ensures { Tells result [] }
    {
        Macros {
            table: IndexMap::new(alloc),
            firsts: [false; 256],
        }
    }

    /// Gives a name this text from now on. Without memory the table stays as it was.
    pub fn define(&mut self, alloc: Global, name: &[u8], text: &[u8]) -> Result<(), AllocError>
        ensures ok { (history : History) → Tells self.old history → OnOk result (Tells self.new (Defines name.now text.now ∷ history)) }
        ensures err { (history : History) → Tells self.old history → OnErr result (Tells self.new history) }
    {
        let name = name.to_vec(alloc)?;
        let text = text.to_vec(alloc)?;
        mark(&mut self.firsts, &name);
        self.table.insert(name, text)?;
        Ok(())
    }

    /// Makes a name undefined from now on.
    pub fn undefine(&mut self, name: &[u8])
        ensures { (history : History) → Tells self.old history → Tells self.new (Undefines name.now ∷ history) }
    {
        let _ = self.table.swap_remove(name);
    }

    /// The text of a name, where it is defined.
    pub fn text_of(&self, name: &[u8]) -> Option<&[u8]>
        ensures { option_copied result ≡ text_at self.now name.now }
    {
        match self.table.get(name) {
            Some(text) => Some(text.as_slice()),
            None => None,
        }
    }

    /// Whether a defined name may begin with a byte.
    pub(crate) fn may_begin(&self, byte: u8) -> bool
        ensures { result ≡ false → (behind : List ℕ) → text_at self.now (byte ∷ behind) ≡ None }
    {
        self.firsts[byte as usize]
    }

    /// The same of any of four bytes.
    pub(crate) fn may_begin_any(&self, a: u8, b: u8, c: u8, d: u8) -> bool
        ensures a { result ≡ false → (behind : List ℕ) → text_at self.now (a ∷ behind) ≡ None }
        ensures b { result ≡ false → (behind : List ℕ) → text_at self.now (b ∷ behind) ≡ None }
        ensures c { result ≡ false → (behind : List ℕ) → text_at self.now (c ∷ behind) ≡ None }
        ensures d { result ≡ false → (behind : List ℕ) → text_at self.now (d ∷ behind) ≡ None }
    {
        self.firsts[a as usize]
            | self.firsts[b as usize]
            | self.firsts[c as usize]
            | self.firsts[d as usize]
    }
}
