//! A row of which some lines are read.

use crate::row::{GivenFile, KnownOutput, Part, Row};
use std::alloc::{AllocError, Global};

/// Where the lines of a text go.
#[derive(Clone, Copy, Debug, PartialEq, Eq, Drop)]
enum Place {
    Nowhere,
    File,
    Output,
}

/// A row of which some lines are read.
#[derive(Drop)]
pub struct Draft {
    alloc: Global,
    row: Row,
    /// The words of the call, where they are stated.
    words: Option<Vec<String>>,
    revision: String,
    /// The lines that stand before the terms of a block.
    lead: Vec<u8>,
    /// The lines of those terms, where they are stated.
    terms: Option<Vec<u8>>,
    /// The bytes of its table behind the header, where they are stated.
    table: Option<Vec<u8>>,
    place: Place,
}

/// The file of a row that states terms alone, and its table.
const SOURCE: &str = "t.asl";

const TABLE: &str = "t.aml";

// Adds the words of a text that has a blank between each two.
fn add_words(alloc: Global, words: &mut Vec<String>, text: &str) -> Result<(), AllocError> {
    for word in text.split(' ') {
        if !word.is_empty() {
            words.push(String::from_str(alloc, word)?)?;
        }
    }
    Ok(())
}

// Adds a byte of two hexadecimal digits, or the text between two quotes. It answers whether the word is one of these.
fn add_bytes(bytes: &mut Vec<u8>, word: &str) -> Result<bool, AllocError> {
    match word.as_bytes() {
        [] => {}
        [b'"', text @ .., b'"'] => bytes.extend_from_slice(text)?,
        [_, _] => match u8::from_str_radix(word, 16) {
            Ok(byte) => bytes.push(byte)?,
            Err(_) => return Ok(false),
        },
        _ => return Ok(false),
    }
    Ok(true)
}

// Adds bytes with a blank between each two. It answers whether all words are bytes.
fn add_hex(bytes: &mut Vec<u8>, text: &str) -> Result<bool, AllocError> {
    for word in text.split(' ') {
        if !add_bytes(bytes, word)? {
            return Ok(false);
        }
    }
    Ok(true)
}

/// Adds a line with an indent.
pub fn add_line(bytes: &mut Vec<u8>, indent: &[u8], text: &str) -> Result<(), AllocError> {
    bytes.extend_from_slice(indent)?;
    bytes.extend_from_slice(text.as_bytes())?;
    bytes.push(b'\n')?;
    Ok(())
}

// A text with a number in the place of each #.
fn numbered(alloc: Global, text: &str, number: u32) -> Result<String, AllocError> {
    let mut out = String::new(alloc);
    let digits = format!(in alloc; "{number}")?;
    for (place, part) in text.split('#').enumerate() {
        if place > 0 {
            out.push_str(digits.as_str())?;
        }
        out.push_str(part)?;
    }
    Ok(out)
}

impl Draft {
    /// A row with a name of which no further line is read. The lines of a lead stand before its terms.
    pub fn new(alloc: Global, name: &str, lead: &[u8]) -> Result<Draft, AllocError> {
        Ok(Draft {
            alloc,
            row: Row {
                name: String::from_str(alloc, name)?,
                first: Vec::new(alloc),
                words: Vec::new(alloc),
                files: Vec::new(alloc),
                status: None,
                told: None,
                only: String::new(alloc),
                names: None,
                outputs: Vec::new(alloc),
            },
            words: None,
            revision: String::from_str(alloc, "2")?,
            lead: lead.to_vec(alloc)?,
            terms: None,
            table: None,
            place: Place::Nowhere,
        })
    }

    /// Takes a line: its first word, and the text behind the blank that follows. It answers whether the line is one of the form.
    pub fn take(&mut self, word: &str, text: &str) -> Result<bool, AllocError> {
        match word {
            "repeat" => self.repeat(text),
            "file" => self.open_file(text),
            "out" => self.open_output(Part::Whole, text),
            "ends" => self.open_output(Part::End, text),
            "status" => match text.parse::<u8>() {
                Ok(status) => {
                    self.row.status = Some(status);
                    Ok(true)
                }
                Err(_) => Ok(false),
            },
            "revision" => {
                self.revision = String::from_str(self.alloc, text)?;
                Ok(true)
            }
            "only" => {
                self.row.only = String::from_str(self.alloc, text)?;
                Ok(true)
            }
            "outs" => {
                self.row.names = Some(String::from_str(self.alloc, text)?);
                Ok(true)
            }
            _ => self.add(word, text),
        }
    }

    fn open_file(&mut self, name: &str) -> Result<bool, AllocError> {
        self.row.files.push(GivenFile {
            name: String::from_str(self.alloc, name)?,
            bytes: Vec::new(self.alloc),
        })?;
        self.place = Place::File;
        Ok(true)
    }

    fn open_output(&mut self, part: Part, name: &str) -> Result<bool, AllocError> {
        self.row.outputs.push(KnownOutput {
            name: String::from_str(self.alloc, name)?,
            part,
            bytes: Vec::new(self.alloc),
        })?;
        self.place = Place::Output;
        Ok(true)
    }

    // Takes a line so many times, with the number of the turn, from 0, in the place of each #.
    fn repeat(&mut self, text: &str) -> Result<bool, AllocError> {
        let (count, line) = text.split_once(' ').unwrap_or((text, ""));
        let (word, text) = line.split_once(' ').unwrap_or((line, ""));
        let Ok(count) = count.parse::<u32>() else {
            return Ok(false);
        };
        let is_numbered = text.contains('#');
        for turn in 0..count {
            if !self.add_turn(word, text, is_numbered, turn)? {
                return Ok(false);
            }
        }
        Ok(true)
    }

    fn add_turn(
        &mut self,
        word: &str,
        text: &str,
        is_numbered: bool,
        turn: u32,
    ) -> Result<bool, AllocError> {
        if is_numbered {
            let text = numbered(self.alloc, text, turn)?;
            self.add(word, text.as_str())
        } else {
            self.add(word, text)
        }
    }

    // Adds a line to what its word names.
    fn add(&mut self, word: &str, text: &str) -> Result<bool, AllocError> {
        let alloc = self.alloc;
        match word {
            "asl" => add_line(self.terms.get_or_insert(Vec::new(alloc)), b"    ", text)?,
            "told" => add_line(self.row.told.get_or_insert(Vec::new(alloc)), b"", text)?,
            "aml" => return add_hex(self.table.get_or_insert(Vec::new(alloc)), text),
            "words" => add_words(alloc, self.words.get_or_insert(Vec::new(alloc)), text)?,
            "word" => self
                .words
                .get_or_insert(Vec::new(alloc))
                .push(String::from_str(alloc, text)?)?,
            "first" => add_words(alloc, &mut self.row.first, text)?,
            _ => return self.add_text(word, text),
        }
        Ok(true)
    }

    // Adds to the text of the last file or output.
    fn add_text(&mut self, word: &str, text: &str) -> Result<bool, AllocError> {
        let Some(bytes) = self.open_text() else {
            return Ok(false);
        };
        match word {
            "|" => add_line(bytes, b"", text)?,
            "+" => bytes.extend_from_slice(text.as_bytes())?,
            "hex" => return add_hex(bytes, text),
            _ => return Ok(false),
        }
        Ok(true)
    }

    fn open_text(&mut self) -> Option<&mut Vec<u8>> {
        match self.place {
            Place::Nowhere => None,
            Place::File => match self.row.files.last_mut() {
                Some(file) => Some(&mut file.bytes),
                None => None,
            },
            Place::Output => match self.row.outputs.last_mut() {
                Some(output) => Some(&mut output.bytes),
                None => None,
            },
        }
    }

    /// The row.
    pub fn finish(self) -> Result<Row, AllocError> {
        let Draft {
            alloc,
            mut row,
            words,
            revision,
            lead,
            terms,
            table,
            place: _,
        } = self;
        match words {
            Some(words) => row.words = words,
            None => row.words.push(String::from_str(alloc, SOURCE)?)?,
        }
        if row.only.is_empty() && row.status.is_none() {
            row.status = Some(0);
        }
        if let Some(terms) = terms {
            row.files.push(GivenFile {
                name: String::from_str(alloc, SOURCE)?,
                bytes: block(alloc, revision.as_str(), &lead, &terms)?,
            })?;
        }
        if let Some(bytes) = table {
            row.outputs.push(KnownOutput {
                name: String::from_str(alloc, TABLE)?,
                part: Part::BehindHeader,
                bytes,
            })?;
        }
        Ok(row)
    }
}

// The source of a block of a revision with these lines of terms behind those of a lead.
fn block(alloc: Global, revision: &str, lead: &[u8], terms: &[u8]) -> Result<Vec<u8>, AllocError> {
    let head = format!(in alloc;
        "DefinitionBlock (\"\", \"SSDT\", {revision}, \"OEMX00\", \"TABLE001\", 1)\n{{\n"
    )?;
    let mut text = head.as_bytes().to_vec(alloc)?;
    text.extend_from_slice(lead)?;
    text.extend_from_slice(terms)?;
    text.extend_from_slice(b"}\n")?;
    Ok(text)
}
