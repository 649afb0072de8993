//! A compiled table.
use iasl_messages::message::Messages;
use iasl_messages::place::Pieces;
use iasl_ports::list::Text;

/// A data table: its pieces, one for each field line, its signature, and the notes about its text.
#[derive(Drop)]
pub struct Compiled {
    pub pieces: Pieces,
    pub signature: Text,
    pub notes: Messages,
}

/// The header of a table: a piece for each of its fields, with no text yet, and the notes about its lines.
#[derive(Drop)]
pub struct HeaderPieces {
    pub pieces: Pieces,
    pub notes: Messages,
}

/// The header of a table, and the notes about its lines.
#[derive(Drop)]
pub struct Header {
    pub bytes: Text,
    pub notes: Messages,
}
