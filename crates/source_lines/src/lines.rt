//! Lines by file and number.
ghost use Rattle.std.specs.Prelude.{◌≡◌, [], IfOk, MatchOption};
ghost use Rattle.std.specs.Option.{option_map_or};
ghost use Rattle.std.proofs.Props.{props};
ghost use Rattle.source_lines.specs.Order.{IsAscending};
ghost use Rattle.source_lines.specs.Tells.{text_for, Tells};
ghost use Rattle.source_lines.specs.Text.{line_text};

use crate::order::{ascends, text_in_order};
use iasl_messages::place::{Line, Place};
use iasl_ports::list::Text;
use std::alloc::{AllocError, Global};
use std::collections::HashMap;
use std::marker::Model;

/// The text of the first of the lines that has the place's file and line; empty where there is none. It looks
/// through the lines, and takes no memory.
pub fn text_at(lines: &[Line], place: Place) -> &[u8]
    ensures { result.now ≡ line_text lines.now place }
{
    for line in lines {
        if line.file == place.file && line.number == place.line {
            return line.text.as_bytes();
        }
    }
    b""
}

/// A file and the number of a line in it.
#[derive(Clone, Copy, PartialEq, Eq, Hash)]
struct LineNumber {
    file: u32,
    number: u32,
}

// The text of the first line of each file and number.
fn texts_of<'a>(
    alloc: Global,
    lines: &'a [Line],
) -> Result<HashMap<LineNumber, &'a Text>, AllocError>
    ensures { IfOk result (λ texts. Tells texts lines.now) }
{
    let mut texts = HashMap::new(alloc);
    let mut left = lines.len();
    while left > 0 {
        left -= 1;
        let line = &lines[left];
        let number = LineNumber {
            file: line.file,
            number: line.number,
        };
        texts.insert(number, &line.text)?;
    }
    Ok(texts)
}

fn text_in<'a>(texts: &HashMap<LineNumber, &'a Text>, place: Place) -> Option<&'a Text>
    ensures { option_map_or (λ text. text.now) result [] ≡ text_for texts.now place }
{
    let number = LineNumber {
        file: place.file,
        number: place.line,
    };
    match texts.get(&number) {
        Some(text) => Some(text),
        None => None,
    }
}

/// The lines of a source, each found by its file and number without a look at most of the others. Contracts see the
/// list of the lines.
pub struct SourceLines<'a> {
    lines: &'a [Line],
    // None where the lines stand in the order of their files and numbers.
    texts: Option<HashMap<LineNumber, &'a Text>>,
    ghost tells: { MatchOption texts (IsAscending lines.now) (λ table. Tells table lines.now) } by { Prim.hlevel props },
}

// By hand, so that an owner lets go of it by one call (docs/DECISIONS.md).
impl<'a> Drop for SourceLines<'a> {
    fn drop(self) {
        let SourceLines { lines: _, texts: _ } = self;
    }
}

impl<'a> Model for SourceLines<'a> {
    ghost use Rattle.std.specs.Prelude.{List};
    ghost use Rattle.iasl_messages.specs.declared.place.Line.{Line};

    ghost Value = { List Line };

    ghost view = { λ index. index.lines.now };
}

impl<'a> SourceLines<'a> {
    /// All these lines.
    pub fn new(alloc: Global, lines: &'a [Line]) -> Result<SourceLines<'a>, AllocError>
        ensures { IfOk result (λ made. made ≡ lines.now) }
    {
        if ascends(lines) {
            return Ok(SourceLines { lines, texts: None });
        }
        let texts = texts_of(alloc, lines)?;
        Ok(SourceLines {
            lines,
            texts: Some(texts),
        })
    }

    // The text of the first of the lines that has the place's file and line.
    fn find(&self, place: Place) -> Option<&'a Text>
        ensures { option_map_or (λ text. text.now) result [] ≡ line_text self.now place }
    {
        match &self.texts {
            Some(texts) => text_in(texts, place),
            None => text_in_order(self.lines, place),
        }
    }

    /// A copy of the text of the first of the lines that has the place's file and line; empty where there is none.
    pub fn text_at(&self, alloc: Global, place: Place) -> Result<Text, AllocError>
        ensures { IfOk result (λ text. text ≡ line_text self.now place) }
    {
        match self.find(place) {
            Some(text) => text.copy(alloc),
            None => Ok(Text::new(alloc)),
        }
    }
}
