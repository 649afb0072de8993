//! What a string has to be (ACPI Specification 6.4, 19.6.29).
ghost use Rattle.std.specs.Prelude.{◌≡◌};
ghost use Rattle.asl_tree.specs.Formats as formats;
ghost use Rattle.asl_words.specs.Texts as spec;

use crate::operator::StringForm;

fn is_text_byte(byte: u8) -> bool
    ensures { result ≡ spec.is_text_byte byte }
{
    1 <= byte && byte <= 127
}

/// Whether each byte may stand in a string: 01 to 7F.
pub fn is_text(bytes: &[u8]) -> bool
    ensures { result ≡ spec.is_all_text bytes.now }
{
    bytes.iter().all(|byte| is_text_byte(*byte))
}

// OEM and one letter or digit.
fn is_oem_signature(text: &[u8]) -> bool
    ensures { result ≡ spec.is_oem_signature text.now }
{
    let [first, second, third, last] = text else {
        return false;
    };
    *first == b'O' && (*second == b'E' && (*third == b'M' && last.is_ascii_alphanumeric()))
}

fn is_signature(text: &[u8]) -> bool
    ensures { result ≡ spec.is_signature text.now }
{
    matches!(text, b"DSDT" | b"SSDT" | b"PSDT") || is_oem_signature(text)
}

// Whether each `%` begins `%o` or `%%`.
#[tactic(auto, using(crate::proofs::FormatLaws::plain_byte, crate::proofs::FormatLaws::bad_mark, crate::proofs::FormatLaws::good_mark))]
fn is_format(text: &[u8]) -> bool
    ensures { result ≡ formats.is_format text.now }
{
    let mut rest = text;
    while let [first, behind @ ..] = rest {
        if *first != b'%' {
            rest = behind;
        } else {
            match behind {
                [b'o' | b'%', after @ ..] => rest = after,
                _ => return false,
            }
        }
    }
    true
}

/// Whether a string is what it has to be.
pub fn has_form(form: StringForm, text: &[u8]) -> bool
    ensures { result ≡ spec.has_form form text.now }
{
    match form {
        StringForm::Any => true,
        StringForm::Signature => is_signature(text),
        StringForm::AtMost(most) => text.len() <= most as usize,
        StringForm::Format => is_format(text),
    }
}
