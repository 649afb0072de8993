// What the words of a call ask for.
ghost use Rattle.std.specs.Prelude.{◌≡◌, map, string_bytes, Some, None, MatchOption};
ghost use Rattle.std.specs.Option.{option_map};
ghost use Rattle.acpi_extract.specs.Words.{request_of, for_file, with_option, with_signature, is_asked};
ghost use Rattle.acpi_extract.specs.Asking.{asked_by, request_by};

use crate::signature::{has_letters, have_same_stem, stem_text};

// Which tables are asked for: those of code, all, a list of all, or those of one signature.
#[derive(Clone, Copy)]
pub(crate) enum Choice<'a> {
    Code,
    Every,
    Listing,
    One(&'a str),
}

// The tables that are asked for, and the file of the dump.
#[derive(Clone, Copy)]
pub(crate) struct Wish<'a> {
    pub(crate) choice: Choice<'a>,
    pub(crate) file: &'a str,
}

fn for_file<'a>(choice: Choice<'a>, file: &'a str) -> Option<Wish<'a>>
    ensures { option_map request_by result ≡ for_file (asked_by choice.entry) file.now }
{
    match file.as_bytes() {
        [] | [b'-', ..] => None,
        _ => Some(Wish { choice, file }),
    }
}

fn with_option<'a>(option: &'a str, file: &'a str) -> Option<Wish<'a>>
    ensures { option_map request_by result ≡ with_option option.now file.now }
{
    if option == "-a" {
        return for_file(Choice::Every, file);
    }
    if option == "-l" {
        return for_file(Choice::Listing, file);
    }
    None
}

fn with_signature<'a>(option: &'a str, signature: &'a str, file: &'a str) -> Option<Wish<'a>>
    ensures { option_map request_by result ≡ with_signature option.now signature.now file.now }
{
    if signature.is_empty() || option != "-s" {
        return None;
    }
    for_file(Choice::One(signature), file)
}

// What good words ask for.
pub(crate) fn wish_of(words: &[String]) -> Option<Wish<'_>>
    ensures { option_map request_by result ≡ request_of (map string_bytes words.now) }
{
    match words {
        [file] => for_file(Choice::Code, file),
        [option, file] => with_option(option, file),
        [option, signature, file] => with_signature(option, signature, file),
        _ => None,
    }
}

// Whether a table of this signature is asked for.
pub(crate) fn is_asked(choice: Choice<'_>, signature: &[u8]) -> bool
    ensures { result ≡ is_asked (asked_by choice.entry) signature.now }
{
    match choice {
        Choice::Code => {
            has_letters(stem_text(signature), b"dsdt") || has_letters(stem_text(signature), b"ssdt")
        }
        Choice::Every | Choice::Listing => true,
        Choice::One(asked) => have_same_stem(asked.as_bytes(), signature),
    }
}
