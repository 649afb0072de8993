//! What one word alone asks of the program itself.
ghost use Rattle.std.specs.Prelude.{◌≡◌, ◌||◌, map, string_bytes, codes};
ghost use Rattle.std.specs.Str.{bytes_eq};
ghost use Rattle.host_ports.specs.ProgramText as spec;

/// A text of the program's own.
#[derive(Clone, Copy, Debug, PartialEq, Eq)]
pub enum ProgramText {
    /// The options, in short: `-h` or `--help`.
    Help,
    /// The version: `-v` or `--version`.
    Version,
}

// Whether a word asks for help.
fn asks_for_help(word: &String) -> bool
    ensures { result ≡ spec.asks_for_help (string_bytes word.now) }
{
    word.as_bytes() == b"-h".as_slice() || word.as_bytes() == b"--help".as_slice()
}

// Whether a word asks for the version.
fn asks_for_version(word: &String) -> bool
    ensures { result ≡ spec.asks_for_version (string_bytes word.now) }
{
    word.as_bytes() == b"-v".as_slice() || word.as_bytes() == b"--version".as_slice()
}

/// The text that the words ask of the program itself, where one word alone does (docs/OPTIONS.md).
pub fn program_text(words: &[String]) -> Option<ProgramText>
    ensures { result ≡ spec.program_text (map string_bytes words.now) }
{
    match words {
        [word] if asks_for_help(word) => Some(ProgramText::Help),
        [word] if asks_for_version(word) => Some(ProgramText::Version),
        _ => None,
    }
}
