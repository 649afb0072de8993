//! The types of data lines.
ghost use Rattle.std.specs.Prelude.{◌≡◌};
ghost use Rattle.std.specs.Str.{bytes_eq};
ghost use Rattle.data_generic.specs.Types.{type_of, type_of_line};

use data_text::field_line::FieldLine;

/// What a data line gives.
#[derive(Clone, Copy, PartialEq, Eq, Debug)]
pub enum DataType {
    /// A number of so many bytes, or an offset.
    Number(u64),
    /// A text, with a final 0.
    Text,
    /// A text of 16-bit characters, with a final 0.
    WideText,
    /// Bytes.
    Buffer,
    /// The bytes of a UUID.
    Guid,
    /// Nothing: the name of the offset at which it stands.
    Label,
}

fn is_word(label: &[u8], word: &[u8]) -> bool
    ensures { result ≡ bytes_eq label.now word.now }
{
    label == word
}

// The type that this label in lower case names.
#[tactic(auto, unfolding(crate::specs::Types::type_of))]
fn type_of(label: &[u8]) -> Option<DataType>
    ensures { result ≡ type_of label.now }
{
    if is_word(label, b"uint8") {
        Some(DataType::Number(1))
    } else if is_word(label, b"uint16") {
        Some(DataType::Number(2))
    } else if is_word(label, b"uint24") {
        Some(DataType::Number(3))
    } else if is_word(label, b"uint32") {
        Some(DataType::Number(4))
    } else if is_word(label, b"uint40") {
        Some(DataType::Number(5))
    } else if is_word(label, b"uint48") {
        Some(DataType::Number(6))
    } else if is_word(label, b"uint56") {
        Some(DataType::Number(7))
    } else if is_word(label, b"uint64") {
        Some(DataType::Number(8))
    } else if is_word(label, b"string") {
        Some(DataType::Text)
    } else if is_word(label, b"unicode") {
        Some(DataType::WideText)
    } else if is_word(label, b"buffer") {
        Some(DataType::Buffer)
    } else if is_word(label, b"guid") {
        Some(DataType::Guid)
    } else if is_word(label, b"label") {
        Some(DataType::Label)
    } else {
        None
    }
}

/// The type of a line, by its label. There is none where blanks stand inside the label.
pub fn type_of_line(line: &FieldLine) -> Option<DataType>
    ensures { result ≡ type_of_line line.now }
{
    if line.one_word {
        type_of(line.label.as_slice())
    } else {
        None
    }
}
