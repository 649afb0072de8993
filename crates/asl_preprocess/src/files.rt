//! The names of the files that were fetched.
ghost use Rattle.std.specs.Prelude.{◌≡◌, ◌∷◌, ◌++◌, ◌+◌, ◌^◌, ◌<◌, ◌≤◌, [], length, IfOk, IfErr, OnOk};
ghost use Rattle.asl_preprocess.specs.State.{number_of, with_file};

use iasl_ports::list::{Text, Texts};
use indexmap::IndexSet;
use std::alloc::{AllocError, Global};
use std::marker::Model;

/// The most files that are numbered.
const MOST_FILES: usize = 4_294_967_295;

fn copy_of(alloc: Global, bytes: &[u8]) -> Result<Vec<u8>, AllocError>
    ensures { IfOk result (λ copy. copy.items ≡ bytes.now) }
{
    bytes.to_vec(alloc)
}

// The number of a file that so many files stand before. There is no room for 2^32 files.
fn number_behind(count: usize) -> Result<u32, AllocError>
    ensures number { IfOk result (λ number. number ≡ count) }
    ensures full { IfErr result (λ _. 2 ^ 32 ≤ count + 1) }
{
    if count >= MOST_FILES {
        return Err(AllocError);
    }
    Ok(count as u32)
}

/// Puts a text of these bytes behind others.
pub(crate) fn put_text(alloc: Global, texts: &mut Texts, bytes: &[u8]) -> Result<(), AllocError>
    ensures { OnOk result (texts.new ≡ texts.old ++ bytes.now ∷ []) }
{
    texts.push(Text::from_bytes(alloc, bytes)?)
}

/// The names, each once, in the order of first fetch.
pub(crate) struct FileNames {
    names: IndexSet<Vec<u8>>,
}

// By hand, so that an owner lets go of it by one call (docs/DECISIONS.md).
impl Drop for FileNames {
    fn drop(self) {
        let FileNames { names: _ } = self;
    }
}

impl Model for FileNames {
    ghost use Rattle.std.specs.Prelude.{List, ℕ, map};

    ghost Value = { List (List ℕ) };

    ghost view = { λ files. map (λ name. name.items) files.names.keys };
}

impl FileNames {
    /// No name.
    pub(crate) fn new(alloc: Global) -> Self
        ensures { result ≡ [] }
    {
        FileNames {
            names: IndexSet::new(alloc),
        }
    }

    /// The number of the file of this name, which stands among the names from now on. There is no room for 2^32.
    pub(crate) fn add(&mut self, alloc: Global, name: &[u8]) -> Result<u32, AllocError>
        ensures number { IfOk result (λ number. number ≡ number_of name.now (with_file name.now self.old)) }
        ensures within { IfOk result (λ number. number < length self.new) }
        ensures files { OnOk result (self.new ≡ with_file name.now self.old) }
    {
        let name = copy_of(alloc, name)?;
        let (place, _) = self.names.insert_full(name)?;
        let number = number_behind(place)?;
        Ok(number)
    }

    /// The names as texts.
    pub(crate) fn texts(&self, alloc: Global) -> Result<Texts, AllocError>
        ensures { IfOk result (λ texts. texts ≡ self.now) }
    {
        let mut texts = Texts::new(alloc);
        for name in self.names.as_slice() {
            put_text(alloc, &mut texts, name.as_slice())?;
        }
        Ok(texts)
    }
}
