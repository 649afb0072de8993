//! The kinds of bytes that a line is read by.
ghost use Rattle.std.specs.Prelude.{◌≡◌};
ghost use Rattle.asl_fragments.specs.Bytes as spec;

/// Whether a byte is a blank: a space or a tab.
pub fn is_blank(byte: u8) -> bool
    ensures { result ≡ spec.is_blank byte }
{
    byte == b' ' || byte == b'\t'
}

/// Whether a text has nothing but blanks.
pub fn is_blank_text(text: &[u8]) -> bool
    ensures { result ≡ spec.is_blank_text text.now }
{
    text.iter().all(|byte| is_blank(*byte))
}

/// Whether an identifier may begin with a byte: a letter or `_`.
pub fn begins_identifier(byte: u8) -> bool
    ensures { result ≡ spec.begins_identifier byte }
{
    byte.is_ascii_alphabetic() || byte == b'_'
}

/// Whether a byte may stand in an identifier: a letter, a digit or `_`.
pub fn in_identifier(byte: u8) -> bool
    ensures { result ≡ spec.in_identifier byte }
{
    begins_identifier(byte) || byte.is_ascii_digit()
}
