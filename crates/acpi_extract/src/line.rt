// The lines of a dump, and which of them are blank or begin a table.
ghost use Rattle.std.specs.Prelude.{◌≡◌, ◌∷◌, [], MatchOption, position, ◌==◌, IfSome, IsTrue};
ghost use Rattle.std.specs.Option.{option_copied};
ghost use Rattle.std.specs.List.{list_all};
ghost use Rattle.hex.specs.Hex.{is_hex_digit};
ghost use Rattle.acpi_extract.specs.Lines.{is_signature_byte, is_signature, is_digits, is_address, is_header_with, signature_of};

use hex_text::digits::is_digit;

fn is_signature_byte(byte: u8) -> bool
    ensures { result ≡ is_signature_byte byte }
{
    byte.is_ascii_graphic() && byte != b'/'
}

fn has_signature_bytes(text: &[u8]) -> bool
    ensures { result ≡ list_all is_signature_byte text.now }
{
    text.iter().all(|byte| is_signature_byte(*byte))
}

fn is_signature(text: &[u8]) -> bool
    ensures { result ≡ is_signature text.now }
{
    (text.len() == 4 && has_signature_bytes(text)) || text == b"RSD PTR".as_slice()
}

fn has_digits_alone(text: &[u8]) -> bool
    ensures { result ≡ list_all is_hex_digit text.now }
{
    text.iter().all(|byte| is_digit(*byte))
}

fn is_digits(text: &[u8]) -> bool
    ensures { result ≡ is_digits text.now }
{
    !text.is_empty() && has_digits_alone(text)
}

fn is_address(text: &[u8]) -> bool
    ensures { result ≡ is_address text.now }
{
    text.starts_with(b" @ 0x") && is_digits(&text[5..])
}

fn is_header_with(len: usize, line: &[u8]) -> bool
    ensures { result ≡ is_header_with len line.now }
{
    len < line.len() && is_signature(&line[..len]) && is_address(&line[len..])
}

// The signature of a header line.
pub(crate) fn signature_in(line: &[u8]) -> Option<&[u8]>
    ensures signature { option_copied result ≡ signature_of line.now }
    ensures named { IfSome result (λ signature. IsTrue (is_signature signature.now)) }
{
    if is_header_with(4, line) {
        return Some(&line[..4]);
    }
    if is_header_with(7, line) {
        return Some(&line[..7]);
    }
    None
}
