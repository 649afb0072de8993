//! A list over a vector, and a text as a list of bytes. Contracts see both as lists.
ghost use Rattle.std.specs.Prelude.{◌≡◌, ◌≤◌, ◌∷◌, ◌++◌, [], length, map, take, drop, slice_get, IfOk, OnOk, OnErr, IsTrue, ◌↔◌};
ghost use Rattle.std.specs.Option.{option_copied};
ghost use Rattle.std.specs.Char.{to_ascii_uppercase};
ghost use Rattle.iasl_ports.specs.Texts.{bytes_of};

use crate::shared::SharedBytes;
use std::alloc::{AllocError, Global};
use std::marker::Model;

/// Items in the order in which they were pushed.
#[derive(Drop)]
pub struct List<T> {
    items: Vec<T>,
}

impl<T> Model for List<T> {
    ghost use Rattle.std.specs.Prelude.{List as AList};

    ghost Value = { AList T };

    ghost view = { λ list. list.items.items };
}

impl<T> List<T> {
    /// An empty list, which takes no memory yet.
    pub fn new(alloc: Global) -> Self
        ensures { result ≡ [] }
    {
        List {
            items: Vec::new(alloc),
        }
    }

    /// The list of a vector's items.
    pub fn from_vec(items: Vec<T>) -> Self
        ensures { result ≡ items.items }
    {
        List { items }
    }

    /// Its items as a vector.
    pub fn into_vec(self) -> Vec<T>
        ensures { result.items ≡ self }
    {
        self.items
    }

    /// Adds an item at the end. Without memory the list stays as it was.
    pub fn push(&mut self, item: T) -> Result<(), AllocError>
    where
        T: Drop,
        ensures ok { OnOk result (self.new ≡ self.old ++ item ∷ []) }
        ensures err { OnErr result (self.new ≡ self.old) }
    {
        self.items.push(item)?;
        Ok(())
    }

    pub(crate) fn truncate(&mut self, len: usize)
    where
        T: Drop,
        ensures { self.new ≡ take len self.old }
    {
        self.items.truncate(len);
    }

    /// How many items it has.
    pub fn len(&self) -> usize
        ensures { result ≡ length self.now }
    {
        self.items.len()
    }

    /// Whether it has no item.
    pub fn is_empty(&self) -> bool
        ensures { IsTrue result ↔ (length self.now ≡ 0) }
    {
        self.items.is_empty()
    }

    /// The item at a place, counted from 0.
    pub fn get(&self, place: usize) -> Option<&T>
        ensures { option_copied result ≡ slice_get self.now place }
    {
        self.items.get(place)
    }

    /// All items, in order.
    pub fn as_slice(&self) -> &[T]
        ensures { result.now ≡ self.now }
    {
        self.items.as_slice()
    }
}

/// The most bytes of a text that takes no memory.
const INLINE: usize = 14;

/// The most bytes of a text that takes one piece of memory; with what the allocator keeps for itself that piece has 64 bytes.
const BOXED: usize = 56;

/// The most bytes of a text that is a part of others.
const PART: usize = 65_535;

/// The most bytes that stand before a text in the bytes that it is a part of.
const BEFORE: usize = 4_294_967_295;

/// Where the bytes of a text are.
#[derive(Drop)]
enum Bytes {
    /// In the text itself: the first of these, so many.
    Inline {
        bytes: [u8; INLINE],
        count: u8,
    },
    /// In a box: the first of these, so many.
    Boxed {
        count: u8,
        bytes: Box<[u8; BOXED]>,
    },
    /// In a vector of their own.
    Vector(Box<Vec<u8>>),
    /// All of bytes that others share.
    Whole(SharedBytes),
    /// Among bytes that others share: those behind the first `start`, so many.
    Part {
        count: u16,
        start: u32,
        bytes: SharedBytes,
    },
}

/// A list of bytes, of 16 bytes itself. One of at most 14 bytes takes no memory beside these, nor does a copy of a part of shared
/// bytes; a copy of at most 56 bytes takes one piece, a longer one two.
pub struct Text {
    bytes: Bytes,
}

// By hand, so that an owner lets go of it by one call (docs/DECISIONS.md).
impl Drop for Text {
    fn drop(self) {
        let Text { bytes: _ } = self;
    }
}

impl Model for Text {
    ghost use Rattle.std.specs.Prelude.{List as AList, ℕ};
    ghost use Rattle.iasl_ports.specs.Texts.{bytes_of};

    ghost Value = { AList ℕ };

    ghost view = { λ text. bytes_of text.bytes };
}

/// The first so many bytes, or all where there are no more.
pub fn front(bytes: &[u8], count: usize) -> &[u8]
    ensures { result.now ≡ take count bytes.now }
{
    if count < bytes.len() {
        bytes.split_at(count).0
    } else {
        bytes
    }
}

/// The bytes behind the first so many.
pub fn behind(bytes: &[u8], count: usize) -> &[u8]
    ensures { result.now ≡ drop count bytes.now }
{
    if count < bytes.len() {
        bytes.split_at(count).1
    } else {
        b""
    }
}

// Those of the shared bytes that stand behind the first so many, of at most so many.
fn part(bytes: &SharedBytes, start: usize, count: usize) -> &[u8]
    ensures { result.now ≡ take count (drop start bytes.now) }
{
    front(behind(bytes.as_bytes(), start), count)
}

// These bytes, of which there are few, in the text itself.
fn inline(bytes: &[u8]) -> Bytes
    requires { length bytes.now ≤ 14 }
    ensures { bytes_of result ≡ bytes.now }
{
    let mut own = [0; INLINE];
    own.split_at_mut(bytes.len()).0.copy_from_slice(bytes);
    Bytes::Inline {
        bytes: own,
        count: bytes.len() as u8,
    }
}

// These bytes, of which there are not many, in a box.
fn boxed(alloc: Global, bytes: &[u8]) -> Result<Bytes, AllocError>
    requires { length bytes.now ≤ 56 }
    ensures { IfOk result (λ own. bytes_of own ≡ bytes.now) }
{
    let mut own = [0; BOXED];
    own.split_at_mut(bytes.len()).0.copy_from_slice(bytes);
    Ok(Bytes::Boxed {
        count: bytes.len() as u8,
        bytes: Box::new(alloc, own)?,
    })
}

// The same with their letters in upper case.
fn inline_uppercase(bytes: &[u8]) -> Bytes
    requires { length bytes.now ≤ 14 }
    ensures { bytes_of result ≡ map to_ascii_uppercase bytes.now }
{
    let mut own = [0; INLINE];
    for (index, byte) in bytes.iter().enumerate() {
        own[index] = byte.to_ascii_uppercase();
    }
    Bytes::Inline {
        bytes: own,
        count: bytes.len() as u8,
    }
}

impl Text {
    /// An empty text.
    pub fn new(alloc: Global) -> Text
        ensures { result ≡ [] }
    {
        Text {
            bytes: Bytes::Inline {
                bytes: [0; INLINE],
                count: 0,
            },
        }
    }

    /// A text of the same bytes.
    pub fn from_bytes(alloc: Global, bytes: &[u8]) -> Result<Text, AllocError>
        ensures { IfOk result (λ text. text ≡ bytes.now) }
    {
        if bytes.len() <= INLINE {
            return Ok(Text {
                bytes: inline(bytes),
            });
        }
        if bytes.len() <= BOXED {
            return Ok(Text {
                bytes: boxed(alloc, bytes)?,
            });
        }
        Text::from_vec(alloc, bytes.to_vec(alloc)?)
    }

    /// A text of its own of the same bytes.
    pub fn copy(&self, alloc: Global) -> Result<Text, AllocError>
        ensures { IfOk result (λ copied. copied ≡ self.now) }
    {
        match &self.bytes {
            Bytes::Inline { bytes, count } => Ok(Text {
                bytes: Bytes::Inline {
                    bytes: *bytes,
                    count: *count,
                },
            }),
            Bytes::Part {
                count,
                start,
                bytes,
            } => Ok(Text {
                bytes: Bytes::Part {
                    count: *count,
                    start: *start,
                    bytes: bytes.share()?,
                },
            }),
            Bytes::Whole(bytes) => Ok(Text {
                bytes: Bytes::Whole(bytes.share()?),
            }),
            _ => Text::from_bytes(alloc, self.as_bytes()),
        }
    }

    /// The text of those of the shared bytes that stand behind the first `start`, of at most so many. It takes no memory where it
    /// has at most 65,535 bytes and stands in the first 4 GiB.
    pub fn part_of(
        alloc: Global,
        bytes: &SharedBytes,
        start: usize,
        count: usize,
    ) -> Result<Text, AllocError>
        ensures { IfOk result (λ text. text ≡ take count (drop start bytes.now)) }
    {
        if count <= INLINE {
            return Text::from_bytes(alloc, part(bytes, start, count));
        }
        if count > PART || start > BEFORE {
            return Text::shared(alloc, part(bytes, start, count).to_vec(alloc)?);
        }
        Ok(Text {
            bytes: Bytes::Part {
                count: count as u16,
                start: start as u32,
                bytes: bytes.share()?,
            },
        })
    }

    /// A text of the same bytes with their letters in upper case.
    pub fn from_uppercase(alloc: Global, bytes: &[u8]) -> Result<Text, AllocError>
        ensures { IfOk result (λ text. text ≡ map to_ascii_uppercase bytes.now) }
    {
        if bytes.len() <= INLINE {
            return Ok(Text {
                bytes: inline_uppercase(bytes),
            });
        }
        let bytes = bytes.iter().map(|byte| byte.to_ascii_uppercase());
        Text::from_vec(alloc, bytes.collect(alloc)?)
    }

    /// The text of a vector's bytes.
    pub fn from_vec(alloc: Global, bytes: Vec<u8>) -> Result<Text, AllocError>
        ensures { IfOk result (λ text. text ≡ bytes.items) }
    {
        let bytes = if bytes.len() <= INLINE {
            inline(&bytes)
        } else {
            Bytes::Vector(Box::new(alloc, bytes)?)
        };
        Ok(Text { bytes })
    }

    /// The text of a vector's bytes, which its copies share.
    pub fn shared(alloc: Global, bytes: Vec<u8>) -> Result<Text, AllocError>
        ensures { IfOk result (λ text. text ≡ bytes.items) }
    {
        let bytes = if bytes.len() <= INLINE {
            inline(&bytes)
        } else {
            Bytes::Whole(SharedBytes::from_vec(alloc, bytes)?)
        };
        Ok(Text { bytes })
    }

    /// A text of a few bytes, which takes no memory.
    pub fn of_few(bytes: &[u8]) -> Text
        requires { length bytes.now ≤ 14 }
        ensures { result ≡ bytes.now }
    {
        Text {
            bytes: inline(bytes),
        }
    }

    /// The text of a vector's bytes, in a box that is there for it.
    pub fn in_box(shell: Box<Vec<u8>>, bytes: Vec<u8>) -> Text
        ensures { result ≡ bytes.items }
    {
        let mut shell = shell;
        *shell = bytes;
        Text {
            bytes: Bytes::Vector(shell),
        }
    }

    /// Its bytes.
    pub fn as_bytes(&self) -> &[u8]
        ensures { result.now ≡ self.now }
    {
        match &self.bytes {
            Bytes::Inline { bytes, count } => front(bytes, *count as usize),
            Bytes::Boxed { count, bytes } => front(&**bytes, *count as usize),
            Bytes::Vector(bytes) => bytes,
            Bytes::Whole(bytes) => bytes.as_bytes(),
            Bytes::Part {
                count,
                start,
                bytes,
            } => part(bytes, *start as usize, *count as usize),
        }
    }
}

/// Texts in order.
pub type Texts = List<Text>;
