//! What a word of a command line is.
ghost use Rattle.std.specs.Prelude.{◌≡◌, ◌==◌, take, drop, position};
ghost use Rattle.std.specs.Option.{option_map};
ghost use Rattle.iasl_options.specs.declared.words.Key.TheVariants as key;
ghost use Rattle.iasl_options.specs.Words as spec;
ghost use Rattle.iasl_options.specs.Shown.{shown_setting, shown_word};

use crate::switches::{Switch, switch_of};

/// An option that has a value.
#[derive(Clone, Copy, Debug, PartialEq, Eq)]
pub(crate) enum Key {
    /// `-p`: the front of the output names.
    Prefix,
    /// `-I`: a further directory for includes.
    Directory,
    /// `-D`: a definition.
    Definition,
    /// `-vw`: a message that is neither told nor counted.
    Message,
}

/// One thing that is asked for.
#[derive(Clone, Copy)]
pub(crate) enum Setting<'a> {
    PreprocessOnly,
    NoPreprocessor,
    /// An option without value that may stand together with every other.
    Turned(Switch),
    Prefix(&'a [u8]),
    Directory(&'a [u8]),
    Definition { name: &'a [u8], text: &'a [u8] },
    Ignored(&'a [u8]),
    File(&'a [u8]),
}

/// A word by itself.
#[derive(Clone, Copy)]
pub(crate) enum Word<'a> {
    Asks(Setting<'a>),
    /// An option whose value is the next word.
    Opens(Key),
    /// An option that is not known.
    Unknown,
}

// The first so many bytes.
pub(crate) fn before(bytes: &[u8], count: usize) -> &[u8]
    ensures { result.now ≡ take count bytes.now }
{
    if count < bytes.len() {
        bytes.split_at(count).0
    } else {
        bytes
    }
}

// The bytes behind the first so many.
fn after(bytes: &[u8], count: usize) -> &[u8]
    ensures { result.now ≡ drop count bytes.now }
{
    if count < bytes.len() {
        bytes.split_at(count).1
    } else {
        b""
    }
}

// Where the first `=` is.
fn equals_in(value: &[u8]) -> Option<usize>
    ensures { result ≡ position (λ c. c == 61) value.now }
{
    value.iter().position(|byte| *byte == b'=')
}

// Where the name of a definition ends.
fn equals_at(value: &[u8]) -> usize
    ensures { result ≡ spec.equals_at value.now }
{
    equals_in(value).unwrap_or(value.len())
}

// The definition with this value.
fn definition(value: &[u8]) -> Setting<'_>
    ensures { shown_setting result ≡ spec.with_value key.Definition value.now }
{
    let at = equals_at(value);
    Setting::Definition {
        name: before(value, at),
        text: after(value, at.saturating_add(1)),
    }
}

/// What an option with this value asks for.
pub(crate) fn with_value(key: Key, value: &[u8]) -> Setting<'_>
    ensures { shown_setting result ≡ spec.with_value key value.now }
{
    match key {
        Key::Prefix => Setting::Prefix(value),
        Key::Directory => Setting::Directory(value),
        Key::Definition => definition(value),
        Key::Message => Setting::Ignored(value),
    }
}

// An option, by what is left of its word.
fn valued(key: Key, value: &[u8]) -> Word<'_>
    ensures { shown_word result ≡ spec.valued key value.now }
{
    if value.is_empty() {
        Word::Opens(key)
    } else {
        Word::Asks(with_value(key, value))
    }
}

// What stands behind a mark, where the word begins with it.
fn behind<'a>(mark: &[u8], word: &'a [u8]) -> Option<&'a [u8]>
    ensures { option_map (λ rest. rest.now) result ≡ spec.behind mark.now word.now }
{
    word.strip_prefix(mark)
}

// A word that is none of the options.
fn other(word: &[u8]) -> Word<'_>
    ensures { shown_word result ≡ spec.other word.now }
{
    match word {
        [b'-', ..] => Word::Unknown,
        _ => Word::Asks(Setting::File(word)),
    }
}

/// A word by itself.
pub(crate) fn word_of(word: &[u8]) -> Word<'_>
    ensures { shown_word result ≡ spec.word_of word.now }
{
    if word == b"-P".as_slice() {
        return Word::Asks(Setting::PreprocessOnly);
    }
    if word == b"-Pn".as_slice() {
        return Word::Asks(Setting::NoPreprocessor);
    }
    if let Some(switch) = switch_of(word) {
        return Word::Asks(Setting::Turned(switch));
    }
    if let Some(value) = behind(b"-p", word) {
        return valued(Key::Prefix, value);
    }
    if let Some(value) = behind(b"-I", word) {
        return valued(Key::Directory, value);
    }
    if let Some(value) = behind(b"-D", word) {
        return valued(Key::Definition, value);
    }
    if let Some(value) = behind(b"-vw", word) {
        return valued(Key::Message, value);
    }
    other(word)
}
