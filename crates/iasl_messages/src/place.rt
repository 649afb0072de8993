//! Places in a source, its lines, and the pieces of a table.
use iasl_ports::list::{List, Text, Texts};

/// Where something stands: the number of the file in the order of first fetch, from 0, and the line and
/// the column, from 1. A column counts bytes of the line as preprocessed.
#[derive(Clone, Copy, PartialEq, Eq, PartialOrd, Ord, Debug)]
pub struct Place {
    pub file: u32,
    pub line: u32,
    pub column: u32,
}

/// A line of the preprocessed source, with the file and the number of the line it came from.
#[derive(Drop)]
pub struct Line {
    pub file: u32,
    pub number: u32,
    pub text: Text,
}

/// Lines in order.
pub type LineList = List<Line>;

/// The preprocessed source: the main file's name and that of each further file that was fetched, each
/// once, in the order of first fetch; and the lines.
#[derive(Drop)]
pub struct Lines {
    pub files: Texts,
    pub list: LineList,
}

/// Some bytes of a table, with the place and the text of the line that they come from.
#[derive(Drop)]
pub struct Piece {
    pub place: Place,
    pub source: Text,
    pub bytes: Text,
}

/// The pieces of a table in order.
pub type Pieces = List<Piece>;
