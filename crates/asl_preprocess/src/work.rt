//! What is known between two rows.
ghost use Rattle.std.specs.Prelude.{◌≡◌, ◌+◌, ◌∷◌, ◌++◌, ◌≤◌, ◌<◌, [], ℕ, Bool, List, length, OnOk, IfErr, IfOk, true, false};
ghost use Rattle.iasl_ports.specs.Fetched.{most_bytes};
ghost use Rattle.std.specs.Str.{bytes_eq};
ghost use Rattle.asl_preprocess.specs.OwnName.{own_name};
ghost use Rattle.asl_preprocess.specs.State.{message_at, total_size};
ghost use Rattle.asl_preprocess.specs.Left.{Leaves};

use crate::files::FileNames;
use crate::line_text::LineText;
use crate::lines::OrdinaryLine;
use crate::stop::{ReadingStop, refusal};
use asl_macros::{Macros, ReplaceStop, Within, replace_names, stays};
use iasl_messages::message::{Message, Messages};
use iasl_messages::number::TEXT_IS_TOO_LARGE;
use iasl_messages::place::{Line, LineList, Place};
use iasl_ports::files::MOST_BYTES;
use iasl_ports::list::Text;
use std::alloc::{AllocError, Global};

/// The name that is defined before the first line.
pub(crate) const OWN_NAME: [u8; 8] = *b"__IASL__";

/// The definitions, and whether there were any but that of `__IASL__`; the lines so far, with their size joined and an
/// LF behind each; the notes so far; and the names of the files that were fetched.
pub(crate) struct Work {
    pub(crate) macros: Macros,
    pub(crate) others: bool,
    pub(crate) lines: LineList,
    pub(crate) size: usize,
    pub(crate) notes: Messages,
    pub(crate) files: FileNames,
}

// By hand, so that an owner lets go of it by one call (docs/DECISIONS.md).
impl Drop for Work {
    fn drop(self) {
        let Work {
            macros: _,
            others: _,
            lines: _,
            size: _,
            notes: _,
            files: _,
        } = self;
    }
}

// A line's text as it is, if it has room.
fn whole(alloc: Global, text: &LineText<'_>, room: usize) -> Result<Text, ReplaceStop>
    ensures { Leaves result room text.now.whole.now }
{
    let count = text.whole.len();
    if count > room {
        return Err(ReplaceStop::TooLong);
    }
    Ok(Text::part_of(alloc, text.file, text.start, count)?)
}

fn is_own(name: &[u8]) -> bool
    ensures { result ≡ bytes_eq name.now own_name }
{
    name == OWN_NAME.as_slice()
}

impl Work {
    ghost use Rattle.asl_macros.specs.History.{Defines, Undefines};
    ghost use Rattle.asl_macros.specs.Replacement.{replaced};
    ghost use Rattle.asl_macros.specs.declared.context.Within.TheVariants.{InLine};
    ghost use Rattle.asl_directives.specs.declared.branches.Branch.{Branch};
    ghost use Rattle.asl_preprocess.specs.State.{State, blank, with_history, with_lines, with_notes, with_file, with_files, number_of};
    ghost use Rattle.asl_preprocess.specs.Lines.{with_line, text_left};
    ghost use Rattle.asl_preprocess.specs.Told.{Shows, Steps};

    /// Nothing is known.
    pub(crate) fn new(alloc: Global) -> Self
        ensures { Shows result blank }
    {
        Work {
            macros: Macros::new(alloc),
            others: false,
            lines: LineList::new(alloc),
            size: 0,
            notes: Messages::new(alloc),
            files: FileNames::new(alloc),
        }
    }

    /// One more definition.
    pub(crate) fn define(
        &mut self,
        alloc: Global,
        name: &[u8],
        text: &[u8],
    ) -> Result<(), AllocError>
        ensures { OnOk result
            ((state : State) → Shows self.old state → Shows self.new (with_history state (Defines name.now text.now ∷ state.history))) }
    {
        self.others |= !is_own(name);
        self.macros.define(alloc, name, text)
    }

    /// The end of a definition.
    pub(crate) fn undefine(&mut self, name: &[u8])
        ensures { (state : State) → Shows self.old state → Shows self.new (with_history state (Undefines name.now ∷ state.history)) }
    {
        self.macros.undefine(name);
    }

    /// One more note.
    pub(crate) fn note(
        &mut self,
        alloc: Global,
        number: u16,
        place: Place,
        name: &[u8],
    ) -> Result<(), AllocError>
        ensures { OnOk result
            ((state : State) → Shows self.old state →
            Shows self.new (with_notes state (state.notes ++ message_at number place name.now ∷ []))) }
    {
        self.notes.push(Message {
            number,
            place,
            name: Text::from_bytes(alloc, name)?,
        })
    }

    /// One more file that was fetched: its number.
    pub(crate) fn add_file(&mut self, alloc: Global, name: &[u8]) -> Result<u32, AllocError>
        ensures shows { OnOk result
            ((state : State) → Shows self.old state → Shows self.new (with_files state (with_file name.now state.files))) }
        ensures number { IfOk result (λ number. number ≡ number_of name.now self.new.files) }
        ensures within { IfOk result (λ number. number < length self.new.files) }
    {
        self.files.add(alloc, name)
    }

    // Whether a line can have no name that is defined: there is `__IASL__` alone, which does not stand in it.
    fn lacks_names(&self, text: &LineText<'_>) -> bool
        ensures { result ≡ true → (state : State) (in_comment : Bool) → Shows self.now state →
            replaced InLine state.history in_comment text.now.whole.now ≡ text.now.whole.now }
    {
        !self.others && !text.names_own
    }

    // Whether a line stays as it is.
    fn stays(&self, enabled: bool, line: &OrdinaryLine<'_>) -> bool
        ensures yes { result ≡ true → (state : State) → Shows self.now state → text_left enabled state.history line.now.in_comment
            line.now.text.whole.now ≡ line.now.text.whole.now }
        ensures no { result ≡ false → enabled ≡ true }
    {
        !enabled
            || self.lacks_names(&line.text)
            || stays(&self.macros, line.text.whole, line.in_comment)
    }

    // The text that is left of a line, if it has room.
    fn text_left(
        &self,
        alloc: Global,
        enabled: bool,
        line: &OrdinaryLine<'_>,
        room: usize,
    ) -> Result<Text, ReplaceStop>
        ensures { (state : State) → Shows self.now state →
            Leaves result room (text_left enabled state.history line.now.in_comment line.now.text.whole.now) }
    {
        if self.stays(enabled, line) {
            return whole(alloc, &line.text, room);
        }
        let left = replace_names(
            alloc,
            &self.macros,
            Within::InLine,
            line.text.whole,
            line.in_comment,
            room,
        )?;
        Ok(Text::shared(alloc, left)?)
    }

    // One more line, for which there is room.
    fn push(&mut self, line: Line) -> Result<(), AllocError>
        requires { self.old.size ≤ most_bytes }
        ensures { OnOk result ((state : State) → Shows self.old state → self.old.size + length line.text ≤ most_bytes →
            Shows self.new (with_lines state (state.lines ++ line ∷ []))) }
    {
        let size = line.text.as_bytes().len();
        self.lines.push(line)?;
        self.size += size + 1;
        Ok(())
    }

    /// Keeps a line, with its defined names replaced where the preprocessor is enabled.
    pub(crate) fn keep(
        &mut self,
        alloc: Global,
        enabled: bool,
        line: &OrdinaryLine<'_>,
    ) -> Result<(), ReadingStop>
        ensures { (state : State) (branches : List Branch) → Shows self.old state → Steps result self.new branches
            (with_line (record { state = state; branches = branches }) (record {
              file = line.now.file;
              number = line.now.number;
              text = text_left enabled state.history line.now.in_comment line.now.text.whole.now;
            })) }
    {
        let place = Place {
            file: line.file,
            line: line.number,
            column: 1,
        };
        let Some(room) = MOST_BYTES.checked_sub(self.size) else {
            return Err(refusal(alloc, TEXT_IS_TOO_LARGE, place, b""));
        };
        match self.text_left(alloc, enabled, line, room) {
            Ok(text) => {
                self.push(Line {
                    file: line.file,
                    number: line.number,
                    text,
                })?;
                Ok(())
            }
            Err(ReplaceStop::TooLong) => Err(refusal(alloc, TEXT_IS_TOO_LARGE, place, b"")),
            Err(ReplaceStop::Memory) => Err(ReadingStop::Memory),
        }
    }
}
