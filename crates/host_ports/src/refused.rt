//! Which file the system did not give or take, and why: what a program tells beside its console, on standard error.

use iasl_ports::list::Text;
use std::alloc::{AllocError, Global};
use std::io::ErrorKind;

/// Why the system did not give or take a file.
#[derive(Clone, Copy, Drop)]
pub enum Refusal {
    /// It could not be opened or made.
    System(ErrorKind),
    /// It is there, but is no regular file.
    NotRegular,
    /// It could not be read to its end.
    Unread,
    /// It could not be written whole.
    Unwritten,
}

// Whether an error says that there is no file of a name: it is absent, its path leads through what is no
// directory, or no file of the system can have it, since it has a NUL byte or is longer than the system takes.
fn is_absence(kind: ErrorKind) -> bool {
    matches!(
        kind,
        ErrorKind::NotFound
            | ErrorKind::NotADirectory
            | ErrorKind::InvalidInput
            | ErrorKind::InvalidFilename
    )
}

impl Refusal {
    /// Whether there is no such file.
    pub fn is_absence(self) -> bool {
        match self {
            Refusal::System(kind) => is_absence(kind),
            _ => false,
        }
    }

    // Adds the reason in words.
    fn say(self, alloc: Global, line: &mut Vec<u8>) -> Result<(), AllocError> {
        match self {
            Refusal::System(kind) => {
                line.extend_from_slice(format!(in alloc; "{kind}")?.as_bytes())
            }
            Refusal::NotRegular => line.extend_from_slice(b"not a regular file"),
            Refusal::Unread => line.extend_from_slice(b"cannot be read"),
            Refusal::Unwritten => line.extend_from_slice(b"cannot be written whole"),
        }
    }
}

/// A file that the system did not give or take.
#[derive(Drop)]
pub struct Refused {
    name: Text,
    refusal: Refusal,
}

impl Refused {
    /// The file of this name, which is copied. Where there is no memory for that, nothing is known of it.
    pub fn of(alloc: Global, name: &str, refusal: Refusal) -> Option<Refused> {
        match Text::from_bytes(alloc, name.as_bytes()) {
            Ok(name) => Some(Refused { name, refusal }),
            Err(AllocError) => None,
        }
    }

    /// The line by which a program tells of it, as `iasl: t.asl: entity not found`.
    pub fn line(&self, alloc: Global, program: &[u8]) -> Result<Text, AllocError> {
        let mut line = Vec::new(alloc);
        line.extend_from_slice(program)?;
        line.extend_from_slice(b": ")?;
        line.extend_from_slice(self.name.as_bytes())?;
        line.extend_from_slice(b": ")?;
        self.refusal.say(alloc, &mut line)?;
        line.push(b'\n')?;
        Text::from_vec(alloc, line)
    }
}
