//! Definitions of the words of a call.
use iasl_ports::list::{List, Text};

/// A definition that counts from the first line on.
#[derive(Drop)]
pub struct Define {
    pub name: Text,
    pub text: Text,
}

/// Definitions in order; of several of one name the last counts.
pub type Defines = List<Define>;
