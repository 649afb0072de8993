//! The values of data lines that mention no label, as bytes.
ghost use Rattle.std.specs.Prelude.{◌≡◌, ◌++◌, ◌∷◌, [], IfOk, Some, None, length};
ghost use Rattle.std.specs.List.{list_all};
ghost use Rattle.std.specs.Option.{option_copied, option_map};
ghost use Rattle.resource_macros.specs.Identifiers.{uuid_of};
ghost use Rattle.data_generic.specs.declared.types.DataType.TheVariants as d;
ghost use Rattle.data_generic.specs.Values as spec;
ghost use Rattle.data_generic.specs.Values.{bytes_by, plain_value, size_by};

use crate::types::DataType;
use crate::words::word_in;
use data_text::values::{bytes_in, text_in};
use iasl_ports::list::Text;
use resource_macros::identifiers::{utf16, uuid};
use std::alloc::{AllocError, Global};

fn is_ascii(byte: u8) -> bool
    ensures { result ≡ spec.is_ascii byte }
{
    1 <= byte && byte <= 127
}

fn is_all_ascii(text: &[u8]) -> bool
    ensures { result ≡ list_all spec.is_ascii text.now }
{
    text.iter().all(|byte| is_ascii(*byte))
}

fn if_ascii(text: &[u8]) -> Option<&[u8]>
    ensures { option_copied result ≡ spec.if_ascii text.now }
{
    if is_all_ascii(text) { Some(text) } else { None }
}

// A quoted text of ASCII.
fn ascii_in(value: &[u8]) -> Option<&[u8]>
    ensures { option_copied result ≡ spec.ascii_in value.now }
{
    match text_in(value) {
        Some(text) => if_ascii(text),
        None => None,
    }
}

fn text_bytes(alloc: Global, value: &[u8]) -> Result<Option<Text>, AllocError>
    ensures { IfOk result (λ found. found ≡ option_map (bytes_by d.Text) (plain_value d.Text value.now)) }
{
    let Some(text) = text_in(value) else {
        return Ok(None);
    };
    let mut bytes = text.to_vec(alloc)?;
    bytes.push(0)?;
    Ok(Some(Text::from_vec(alloc, bytes)?))
}

fn wide_bytes(alloc: Global, value: &[u8]) -> Result<Option<Text>, AllocError>
    ensures { IfOk result (λ found. found ≡ option_map (bytes_by d.WideText) (plain_value d.WideText value.now)) }
{
    match ascii_in(value) {
        Some(text) => Ok(Some(utf16(alloc, text)?)),
        None => Ok(None),
    }
}

fn buffer_bytes(alloc: Global, value: &[u8]) -> Result<Option<Text>, AllocError>
    ensures { IfOk result (λ found. found ≡ option_map (bytes_by d.Buffer) (plain_value d.Buffer value.now)) }
{
    match bytes_in(alloc, value)? {
        Some(bytes) if !bytes.is_empty() => Ok(Some(Text::from_vec(alloc, bytes)?)),
        _ => Ok(None),
    }
}

// The UUID that a value is, as it is written: in quotes, or a word.
fn uuid_text(value: &[u8]) -> &[u8]
    ensures { result.now ≡ spec.uuid_text value.now }
{
    match text_in(value) {
        Some(text) => text,
        None => match word_in(value) {
            Some(word) => word,
            None => b"",
        },
    }
}

fn guid_bytes(alloc: Global, value: &[u8]) -> Result<Option<Text>, AllocError>
    ensures { IfOk result (λ found. found ≡ option_map (bytes_by d.Guid) (plain_value d.Guid value.now)) }
{
    match uuid(uuid_text(value)) {
        Some(bytes) => Ok(Some(Text::from_bytes(alloc, &bytes)?)),
        None => Ok(None),
    }
}

/// The bytes of a value that is no number and no label.
pub(crate) fn plain_bytes(
    alloc: Global,
    form: DataType,
    value: &[u8],
) -> Result<Option<Text>, AllocError>
    ensures { IfOk result (λ found. found ≡ option_map (bytes_by form) (plain_value form value.now)) }
{
    match form {
        DataType::Text => text_bytes(alloc, value),
        DataType::WideText => wide_bytes(alloc, value),
        DataType::Buffer => buffer_bytes(alloc, value),
        DataType::Guid => guid_bytes(alloc, value),
        DataType::Number(_) | DataType::Label => Ok(None),
    }
}

fn length_of(found: Option<Text>) -> Option<u64>
    ensures { result ≡ option_map length found }
{
    match found {
        Some(bytes) => Some(bytes.as_bytes().len() as u64),
        None => None,
    }
}

#[tactic(auto, using(crate::proofs::Wraps::length_is))]
fn size_of_form(alloc: Global, form: DataType, value: &[u8]) -> Result<Option<u64>, AllocError>
    ensures { IfOk result (λ size. size ≡ size_by (Some form) value.now) }
{
    match form {
        DataType::Number(width) => Ok(Some(width)),
        DataType::Label => Ok(Some(0)),
        DataType::Text => Ok(length_of(text_bytes(alloc, value)?)),
        DataType::WideText => Ok(length_of(wide_bytes(alloc, value)?)),
        DataType::Buffer => Ok(length_of(buffer_bytes(alloc, value)?)),
        DataType::Guid => Ok(Some(16)),
    }
}

/// How many bytes a line has, where that is known without a look at labels.
pub(crate) fn size_of(
    alloc: Global,
    form: Option<DataType>,
    value: &[u8],
) -> Result<Option<u64>, AllocError>
    ensures { IfOk result (λ size. size ≡ size_by form value.now) }
{
    match form {
        Some(form) => size_of_form(alloc, form, value),
        None => Ok(None),
    }
}
