//! Messages, and the refusal of a stage.
use crate::place::Place;
use iasl_ports::list::{List, Text};

/// A message: its number, its place, and a name, which is empty where it has none.
#[derive(Drop)]
pub struct Message {
    pub number: u16,
    pub place: Place,
    pub name: Text,
}

/// Messages in order.
pub type Messages = List<Message>;

/// Why a stage gives no value.
#[derive(Drop)]
pub enum Stage {
    /// The source has these errors, at least one.
    Refused(Messages),
    /// There was no memory.
    Memory,
}
