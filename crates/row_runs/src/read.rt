//! The rows of a text, each run as soon as it is read.

use crate::compare::compare;
use crate::draft::{Draft, add_line};
use crate::run::run;
use iasl_ports::delivery::tell;
use iasl_ports::sink::Sink;
use std::alloc::{AllocError, Global};

/// A file of rows that is read: the lines that stand before the terms of its next rows, the row of which lines are read, and how many
/// rows are right and how many rows and lines wrong so far.
#[derive(Drop)]
struct Reader {
    alloc: Global,
    file: String,
    lead: Vec<u8>,
    draft: Option<Draft>,
    right: u64,
    wrong: u64,
}

impl Reader {
    // Tells that something is wrong: what, and how.
    fn blame<C: Sink>(
        &mut self,
        console: &mut C,
        what: &str,
        lines: &[u8],
    ) -> Result<(), AllocError> {
        self.wrong = self.wrong.saturating_add(1);
        let file = self.file.as_str();
        let line = format!(in self.alloc; "{file}: wrong: {what}\n")?;
        tell(console, line.as_bytes());
        tell(console, lines);
        Ok(())
    }

    // Runs the row whose last line is read, where there is one.
    fn settle<C: Sink>(&mut self, console: &mut C) -> Result<(), AllocError> {
        let Some(draft) = self.draft.take() else {
            return Ok(());
        };
        let row = draft.finish()?;
        let ran = run(self.alloc, &row)?;
        let lines = compare(self.alloc, &row, &ran)?;
        if lines.is_empty() {
            self.right = self.right.saturating_add(1);
            return Ok(());
        }
        self.blame(console, row.name.as_str(), &lines)
    }

    // Takes a line of a row, or one that is none.
    fn take<C: Sink>(&mut self, console: &mut C, line: &str) -> Result<(), AllocError> {
        let (word, text) = line.split_once(' ').unwrap_or((line, ""));
        let is_good = match &mut self.draft {
            Some(draft) => draft.take(word, text)?,
            None => false,
        };
        if is_good {
            return Ok(());
        }
        self.blame(console, line, b"  this line has no such form\n")
    }

    // Reads a line.
    fn read<C: Sink>(&mut self, console: &mut C, line: &str) -> Result<(), AllocError> {
        if line.is_empty() || line.starts_with("//") {
            return Ok(());
        }
        if let Some(name) = line.strip_prefix("row ") {
            self.settle(console)?;
            self.draft = Some(Draft::new(self.alloc, name, &self.lead)?);
            return Ok(());
        }
        if let Some(text) = line.strip_prefix("lead ") {
            self.settle(console)?;
            return add_line(&mut self.lead, b"    ", text);
        }
        if line == "lead" {
            self.settle(console)?;
            self.lead.clear();
            return Ok(());
        }
        self.take(console, line)
    }

    // Tells how many rows are right, and answers whether all are.
    fn sum_up<C: Sink>(&self, console: &mut C) -> Result<bool, AllocError> {
        let file = self.file.as_str();
        let right = self.right;
        let line = match self.wrong {
            0 => format!(in self.alloc; "{file}: {right} rows are right\n")?,
            wrong => format!(in self.alloc; "{file}: {right} rows are right, and {wrong} wrong\n")?,
        };
        tell(console, line.as_bytes());
        Ok(self.wrong == 0)
    }
}

/// Runs each row of a file, tells of each that is wrong, and how many are right, and answers whether all are.
pub fn run_rows<C: Sink>(
    alloc: Global,
    console: &mut C,
    file: &str,
    text: &str,
) -> Result<bool, AllocError> {
    let mut reader = Reader {
        alloc,
        file: String::from_str(alloc, file)?,
        lead: Vec::new(alloc),
        draft: None,
        right: 0,
        wrong: 0,
    };
    for line in text.lines() {
        reader.read(console, line)?;
    }
    reader.settle(console)?;
    reader.sum_up(console)
}
