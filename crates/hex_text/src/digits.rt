//! Hexadecimal digits, of either case.
ghost use Rattle.std.specs.Prelude.{◌≡◌, ◌≤◌, ◌-◌, ◌^◌, min, length, Some, None};
ghost use Rattle.std.specs.Option.{unwrap_or};
ghost use Rattle.std.specs.List.{prefix_len};
ghost use Rattle.hex.specs.Hex.{is_hex_digit, hex_digit_value};
ghost use Rattle.hex_text.specs.Digits.{behind_digits, byte_of, digits_of, number_of};

/// The byte that two digits write, where both are digits.
pub fn byte_of(high: u8, low: u8) -> Option<u8>
    ensures { result ≡ byte_of high low }
{
    let mut byte = [0];
    match hex::decode_to_slice([high, low], &mut byte) {
        Ok(()) => Some(byte[0]),
        Err(_) => None,
    }
}

/// Whether a byte is a digit.
pub fn is_digit(byte: u8) -> bool
    ensures { result ≡ is_hex_digit byte }
{
    byte_of(b'0', byte).is_some()
}

fn digit_value(digit: u8) -> u8
    ensures { result ≡ unwrap_or (hex_digit_value digit) 0 }
{
    byte_of(b'0', digit).unwrap_or(0)
}

fn count_digits(text: &[u8]) -> usize
    ensures count { result ≡ prefix_len is_hex_digit text.now }
    ensures within { result ≤ length text.now }
{
    text.iter().take_while(|byte| is_digit(**byte)).count()
}

/// The digits at the front, and what stands behind them.
pub fn split_digits(text: &[u8]) -> (&[u8], &[u8])
    ensures digits { result.0.now ≡ digits_of text.now }
    ensures rest { result.1.now ≡ behind_digits text.now }
{
    text.split_at(count_digits(text))
}

/// The number that digits write, or the largest u128 where it is larger. A byte that is no digit counts as 0.
pub fn capped_number(digits: &[u8]) -> u128
    ensures { result ≡ min (number_of digits.now) (2 ^ 128 - 1) }
{
    let mut number: u128 = 0;
    for digit in digits {
        number = number
            .saturating_mul(16)
            .saturating_add(u128::from(digit_value(*digit)));
    }
    number
}
