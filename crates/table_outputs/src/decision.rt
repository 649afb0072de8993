//! What a call has decided before it makes its outputs.

use iasl_messages::place::Pieces;
use iasl_ports::delivery::Due;
use iasl_ports::list::{List, Text};

/// The names of what is put of a table: of the table's file, and, where these are asked for, of its bytes as an array of C and
/// of its listing.
#[derive(Drop)]
pub struct TableNames {
    pub table: String,
    pub c_text: Option<String>,
    pub listing: Option<String>,
}

/// The names of what is put.
#[derive(Drop)]
pub enum OutputNames {
    /// Those of a table's outputs.
    OfTable(TableNames),
    /// That of the text of a template.
    OfTemplate(String),
}

/// A table in pieces, and the names of what is put of it.
#[derive(Drop)]
pub struct TableOutputs {
    pub names: TableNames,
    pub pieces: Pieces,
}

/// Tables in their order.
pub type TableList = List<TableOutputs>;

/// Tables in pieces whose outputs are to be made and put, in their order: those before the last, and the last; or a template in pieces.
/// With them stands the text of the console then.
#[derive(Drop)]
pub struct Making {
    pub text: Text,
    pub earlier: TableList,
    pub names: OutputNames,
    pub pieces: Pieces,
}

/// What a call is to end with.
#[derive(Drop)]
pub enum Decision {
    /// An end of which no output has to be made. Its file, if there is one, has bytes of its own.
    Ends(Due<'static>),
    /// The outputs of tables or of a template, and status 0.
    Makes(Making),
}
