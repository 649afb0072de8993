//! The numbers of the language.
ghost use Rattle.std.specs.Prelude.{◌≡◌, ◌^◌, ◌<◌, ◌≤◌, min, IfSome, nat_eq};
ghost use Rattle.std.specs.List.{list_all};
ghost use Rattle.std.specs.Char.{digit_value, is_digit};
ghost use Rattle.asl_conditions.specs.Numbers as spec;

// The value of a digit or letter as a digit, from 0 to 35, and 36 for any other byte.
fn value_of_digit(byte: u8) -> u8
    ensures { result ≡ digit_value byte }
{
    char::from(byte).to_digit(36).unwrap_or(36) as u8
}

fn is_digit_in(base: u8, byte: u8) -> bool
    ensures { result ≡ is_digit byte base }
{
    value_of_digit(byte) < base
}

fn are_all_digits(base: u8, text: &[u8]) -> bool
    ensures { result ≡ list_all (λ digit. is_digit digit base) text.now }
{
    text.iter().all(|byte| is_digit_in(base, *byte))
}

fn are_digits(base: u8, text: &[u8]) -> bool
    ensures { result ≡ spec.are_digits base text.now }
{
    !text.is_empty() && are_all_digits(base, text)
}

// The number that digits write, or 2^64 where it is larger.
fn capped_value(base: u8, digits: &[u8]) -> u128
    requires { base ≤ 16 }
    ensures { result ≡ min (spec.value_in base digits.now) (2 ^ 64) }
{
    let mut value: u128 = 0;
    for digit in digits {
        let next = value * u128::from(base) + u128::from(value_of_digit(*digit));
        value = next.min(1 << 64);
    }
    value
}

fn numeral(base: u8, text: &[u8]) -> Option<u64>
    requires { base ≤ 16 }
    ensures { result ≡ spec.numeral base text.now }
{
    if !are_digits(base, text) {
        return None;
    }
    let value = capped_value(base, text);
    if value < 1 << 64 {
        Some(value as u64)
    } else {
        None
    }
}

/// The value of a number, where the text is one that fits 64 bits: hexadecimal behind `0x`, octal with a
/// leading 0, else decimal.
pub fn number_of(text: &[u8]) -> Option<u64>
    ensures { result ≡ spec.number_of text.now }
{
    if text.starts_with(b"0x") {
        numeral(16, &text[2..])
    } else if text.starts_with(b"0") {
        numeral(8, text)
    } else {
        numeral(10, text)
    }
}
