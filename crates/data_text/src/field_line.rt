//! Field lines.
use iasl_messages::place::Place;
use iasl_ports::list::List;

/// A line of a data table that is neither blank nor a heading: a field line or a decoded line.
#[derive(Drop)]
pub struct FieldLine {
    /// The line, column 1. Where the value goes on in further lines, the first of them.
    pub place: Place,
    /// Whether the line begins with a part in brackets.
    pub bracketed: bool,
    /// Whether it has a colon. Without one it has no label and no value.
    pub colon: bool,
    /// The label in lower case, without blanks.
    pub label: List<u8>,
    /// Whether no blanks stand inside the label.
    pub one_word: bool,
    /// The value, blanks at its ends among it.
    pub value: List<u8>,
}

/// Field lines in order.
pub type FieldLines = List<FieldLine>;

/// The field lines of a text, and the place of its last line; 1:1 of file 0 where it has no line.
#[derive(Drop)]
pub struct DataText {
    pub lines: FieldLines,
    pub end: Place,
}
