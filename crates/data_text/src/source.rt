//! The field lines of a text.
ghost use Rattle.std.specs.Prelude.{◌≡◌, ◌++◌, ◌∷◌, [], IfOk, OnOk, IsTrue, true, false, List as AList};
ghost use Rattle.iasl_messages.specs.declared.place.Line.{Line};
ghost use Rattle.data_text.specs.Source.{text_of, ends_source, finished};

use crate::comments::{Mode, at_line_end, uncommented};
use crate::field_line::{DataText, FieldLine, FieldLines};
use crate::parts::{begun, column_one, extended, keep};
use hex_text::blanks::{has_blanks_alone, skip_blanks};
use iasl_messages::place::{Line, Place};
use iasl_ports::list::List;
use std::alloc::{AllocError, Global};

fn ends_source(bare: &[u8]) -> bool
    ensures { result ≡ ends_source bare.now }
{
    skip_blanks(bare).starts_with(b"Raw Table Data")
}

// What has been read of a text: the field lines so far, that whose value goes on, if there is one, and the place
// of the last line.
#[derive(Drop)]
struct Reader {
    alloc: Global,
    lines: FieldLines,
    mode: Mode,
    pending: Option<FieldLine>,
    end: Place,
}

impl Reader {
    ghost use Rattle.data_text.specs.Reading.{told_with};
    ghost use Rattle.data_text.specs.Source.{done_of, open_of, done_by, open_by, with_lines};

    fn new(alloc: Global) -> Self
        ensures { (lines : AList Line) → told_with result lines ≡ text_of lines }
    {
        Reader {
            alloc,
            lines: List::new(alloc),
            mode: Mode::Plain,
            pending: None,
            end: Place {
                file: 0,
                line: 1,
                column: 1,
            },
        }
    }

    // Takes a field line, or one whose value goes on.
    fn put(&mut self, line: FieldLine, goes_on: bool) -> Result<(), AllocError>
        ensures lines { OnOk result (self.new.lines ≡ self.old.lines ++ done_of (line, goes_on)) }
        ensures pending { OnOk result (self.new.pending ≡ open_of (line, goes_on)) }
        ensures mode { self.new.mode ≡ self.old.mode }
        ensures end { self.new.end ≡ self.old.end }
    {
        if goes_on {
            self.pending = Some(line);
            return Ok(());
        }
        self.pending = None;
        keep(&mut self.lines, line)
    }

    // Takes the text of a line.
    fn put_line(&mut self, line: &Line, bare: &[u8]) -> Result<(), AllocError>
        ensures lines { OnOk result (self.new.lines ≡ self.old.lines ++ done_by self.old.pending line.now bare.now) }
        ensures pending { OnOk result (self.new.pending ≡ open_by self.old.pending line.now bare.now) }
        ensures mode { self.new.mode ≡ self.old.mode }
        ensures end { self.new.end ≡ self.old.end }
    {
        match self.pending.take() {
            Some(pending) => {
                let (line, goes_on) = extended(pending, bare)?;
                self.put(line, goes_on)
            }
            None => {
                if has_blanks_alone(bare) {
                    return Ok(());
                }
                let (line, goes_on) = begun(self.alloc, line, bare)?;
                self.put(line, goes_on)
            }
        }
    }

    // Takes the next line, and says whether the source goes on.
    fn take(&mut self, line: &Line) -> Result<bool, AllocError>
        ensures taken { IfOk result
            (λ more. IsTrue more → (rest : AList Line) → told_with self.old (line.now ∷ rest) ≡ told_with self.new rest) }
        ensures ended { IfOk result
            (λ more. more ≡ false → (rest : AList Line) → told_with self.old (line.now ∷ rest) ≡ told_with self.new []) }
    {
        let (bare, mode) = uncommented(self.alloc, self.mode, line.text.as_bytes())?;
        if ends_source(&bare) {
            return Ok(false);
        }
        self.put_line(line, &bare)?;
        self.mode = at_line_end(mode);
        self.end = column_one(line);
        Ok(true)
    }

    // The field lines, where no further line comes.
    fn end(mut self) -> Result<DataText, AllocError>
        ensures { IfOk result (λ text. text ≡ told_with self []) }
    {
        if let Some(pending) = self.pending.take() {
            keep(&mut self.lines, pending)?;
        }
        Ok(DataText {
            lines: self.lines,
            end: self.end,
        })
    }
}

/// The field lines of a text, and the place of its last line. Comments count as blanks, blank lines and headings are
/// left out, and the text ends before a line that begins with `Raw Table Data`.
pub fn data_text(alloc: Global, lines: &[Line]) -> Result<DataText, AllocError>
    ensures { IfOk result (λ text. text ≡ text_of lines.now) }
{
    let mut reader = Reader::new(alloc);
    for line in lines {
        if !reader.take(line)? {
            return reader.end();
        }
    }
    reader.end()
}
