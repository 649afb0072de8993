//! The names of outputs.
ghost use Rattle.std.specs.Prelude.{◌≡◌, ◌<◌, ◌++◌, take, IfOk, string_bytes};
ghost use Rattle.std.specs.Option.{option_map};
ghost use Rattle.std.specs.Str.{IsUtf8, IsAscii};
ghost use Rattle.iasl_options.specs.Names as spec;
ghost use Rattle.iasl_options.specs.Found.{found_with, length_with};
ghost use Rattle.iasl_options.specs.Shown.{AreTexts};

use crate::request::Options;
use crate::words::before;
use iasl_ports::list::Text;
use std::alloc::{AllocError, Global};

// Where the last dot behind the last slash is.
#[tactic(auto, using(crate::proofs::Extensions::at_start, crate::proofs::Extensions::step, crate::proofs::Extensions::at_end))]
fn extension_at(file: &[u8]) -> Option<usize>
    ensures { option_map (λ at. take at file.now) result ≡ spec.before_extension file.now }
{
    let mut found = None;
    for (at, byte) in file.iter().enumerate() {
        found = found_behind(found, at, *byte);
    }
    found
}

// Where the last dot behind the last slash is, with one more byte, at this place.
fn found_behind(found: Option<usize>, at: usize, byte: u8) -> Option<usize>
    ensures { result ≡ found_with found at byte }
{
    match byte {
        b'.' => Some(at),
        b'/' => None,
        _ => found,
    }
}

// The file's name without its extension.
pub(crate) fn stem_of(file: &[u8]) -> &[u8]
    ensures { result.now ≡ spec.stem_of file.now }
{
    match extension_at(file) {
        Some(at) => before(file, at),
        None => file,
    }
}

// Bytes that are UTF-8, as a text.
fn text_of(bytes: &[u8]) -> &str
    requires { IsUtf8 bytes.now }
    ensures { result.now ≡ bytes.now }
{
    match std::str::from_utf8(bytes) {
        Ok(text) => text,
        Err(_) => unreachable!(),
    }
}

/// The name of the source's file.
pub fn file_name(options: &Options) -> &str
    requires { AreTexts options.now }
    ensures { result.now ≡ options.now.file }
{
    text_of(options.file.as_bytes())
}

// What the names of outputs begin with.
fn output_stem(options: &Options) -> &[u8]
    ensures { result.now ≡ spec.output_stem options.now.prefix options.now.file }
{
    match &options.prefix {
        Some(prefix) => prefix.as_bytes(),
        None => stem_of(options.file.as_bytes()),
    }
}

/// The name of an output with this extension, which begins with its dot: the prefix that was asked for and the extension, or
/// the file's name with it in place of its own.
#[tactic(auto, using(crate::proofs::Extensions::named))]
pub fn output_name(alloc: Global, options: &Options, extension: &str) -> Result<String, AllocError>
    requires { AreTexts options.now }
    // What stands before the extension.
    ensures named { IfOk result (λ name. spec.IsOutputName options.now.prefix options.now.file extension.now (string_bytes name)) }
    // The same as a function.
    ensures exact { IfOk result (λ name. string_bytes name ≡ spec.output_name options.now.prefix options.now.file extension.now) }
{
    let mut name = String::from_str(alloc, text_of(output_stem(options)))?;
    name.push_str(extension)?;
    Ok(name)
}

// How many bytes stand up to the last slash, with one more byte at this place.
fn length_behind(length: usize, at: usize, byte: u8) -> usize
    requires { at < usize.MAX }
    ensures { result ≡ length_with length at byte }
{
    if byte == b'/' { at + 1 } else { length }
}

// How long the directory of a file's name is.
#[tactic(auto, using(crate::proofs::Directories::at_start, crate::proofs::Directories::step, crate::proofs::Directories::at_end))]
fn directory_length(file: &[u8]) -> usize
    ensures { take result file.now ≡ spec.directory_of file.now }
{
    let mut length = 0;
    for (at, byte) in file.iter().enumerate() {
        length = length_behind(length, at, *byte);
    }
    length
}

// The directory of a file's name.
fn directory_of(file: &[u8]) -> &[u8]
    ensures { result.now ≡ spec.directory_of file.now }
{
    before(file, directory_length(file))
}

/// The name of a table's file: with a prefix that was asked for that and `.aml`; else the name that the definition block states, in
/// the directory of the source's file; else, where the block states none, the source's name with `.aml` in place of its extension
/// (ACPI Specification 6.4, 19.6.29, and docs/OPTIONS.md).
#[tactic(auto, using(crate::proofs::Directories::is_named))]
pub fn table_name(alloc: Global, options: &Options, own: &Text) -> Result<String, AllocError>
    requires texts { AreTexts options.now }
    requires own { IsAscii own.now }
    // What it is made of.
    ensures named { IfOk result (λ name. spec.IsTableName options.now.prefix options.now.file own.now (string_bytes name)) }
    // The same as a function.
    ensures exact { IfOk result (λ name. string_bytes name ≡ spec.table_name options.now.prefix options.now.file own.now) }
{
    match (&options.prefix, own.as_bytes()) {
        (Some(_), _) | (None, []) => output_name(alloc, options, ".aml"),
        (None, own) => name_beside(alloc, options.file.as_bytes(), own),
    }
}

/// The name of a further output of a table, with this extension, which begins with its dot: that of the table's file with it in place of
/// its own extension (docs/OPTIONS.md).
#[tactic(auto, using(crate::proofs::Directories::is_further))]
pub fn further_name(
    alloc: Global,
    options: &Options,
    own: &Text,
    extension: &str,
) -> Result<String, AllocError>
    requires texts { AreTexts options.now }
    requires own { IsAscii own.now }
    // What it is made of.
    ensures named { IfOk result (λ name. spec.IsFurtherName options.now.prefix options.now.file own.now extension.now (string_bytes name)) }
    // The same as a function.
    ensures exact { IfOk result (λ name. string_bytes name ≡ spec.further_name options.now.prefix options.now.file own.now extension.now) }
{
    match (&options.prefix, own.as_bytes()) {
        (Some(_), _) | (None, []) => output_name(alloc, options, extension),
        (None, own) => {
            let mut name = name_beside(alloc, options.file.as_bytes(), stem_of(own))?;
            name.push_str(extension)?;
            Ok(name)
        }
    }
}

// A name in the directory of a file.
fn name_beside(alloc: Global, file: &[u8], own: &[u8]) -> Result<String, AllocError>
    requires file { IsUtf8 file.now }
    requires own { IsUtf8 own.now }
    ensures { IfOk result (λ name. string_bytes name ≡ spec.directory_of file.now ++ own.now) }
{
    let mut name = String::from_str(alloc, text_of(directory_of(file)))?;
    name.push_str(text_of(own))?;
    Ok(name)
}
