//! The reserved names of methods (ACPI Specification 6.4, 5.6.8).
ghost use Rattle.std.specs.Prelude.{◌≡◌};
ghost use Rattle.name_notes.specs.Notes.{reserved_rows, arguments_in};

use asl_tree::path::NameSeg;

/// How many arguments the method of a reserved name takes.
#[derive(Clone, Copy, Debug)]
pub struct Reserved {
    pub name: NameSeg,
    pub arguments: u64,
}

macro_rules! reserved {
    ($name:expr, $arguments:expr) => {
        Reserved {
            name: *$name,
            arguments: $arguments,
        }
    };
}

/// All reserved names of methods, by how many arguments these take.
pub const RESERVED: &[Reserved] = &[
    reserved!(b"_STA", 0),
    reserved!(b"_INI", 0),
    reserved!(b"_CRS", 0),
    reserved!(b"_PRS", 0),
    reserved!(b"_DIS", 0),
    reserved!(b"_ON_", 0),
    reserved!(b"_OFF", 0),
    reserved!(b"_PS0", 0),
    reserved!(b"_PS1", 0),
    reserved!(b"_PS2", 0),
    reserved!(b"_PS3", 0),
    reserved!(b"_BQC", 0),
    reserved!(b"_SRS", 1),
    reserved!(b"_PTS", 1),
    reserved!(b"_WAK", 1),
    reserved!(b"_TTS", 1),
    reserved!(b"_BCM", 1),
    reserved!(b"_PSW", 1),
    reserved!(b"_EJ0", 1),
    reserved!(b"_LCK", 1),
    reserved!(b"_REG", 2),
    reserved!(b"_DSW", 3),
    reserved!(b"_OST", 3),
    reserved!(b"_DSM", 4),
    reserved!(b"_OSC", 4),
];

// The rows of the table.
#[tactic(auto, unfolding(crate::specs::Notes::reserved_rows))]
fn rows() -> &'static [Reserved]
    ensures { result.now ≡ reserved_rows }
{
    RESERVED
}

/// How many arguments the method of this name takes, where the name is reserved.
pub fn arguments_of(name: NameSeg) -> Option<u64>
    ensures { result ≡ arguments_in reserved_rows name }
{
    for row in rows() {
        if row.name == name {
            return Some(row.arguments);
        }
    }
    None
}
