// Digits and blanks at the edges of their classes.
use hex_text::blanks::{has_blanks_alone, skip_blanks};
use hex_text::digits::{byte_of, capped_number, is_digit, split_digits};

#[test]
fn digits_have_either_case(rt: HostRuntime) {
    for byte in *b"09afAF" {
        assert!(rt; is_digit(byte));
    }
    for byte in *b"/:@G`g " {
        assert!(rt; !is_digit(byte));
    }
    assert!(rt; byte_of(b'a', b'F') == Some(0xAF));
    assert!(rt; byte_of(b'a', b'G').is_none());
}

#[test]
fn numbers_end_at_the_largest(rt: HostRuntime) {
    assert!(rt; capped_number(b"00fF") == 255);
    assert!(rt; capped_number(b"ffffffffffffffffffffffffffffffff") == u128::MAX);
    assert!(rt; capped_number(b"100000000000000000000000000000000") == u128::MAX);
}

#[test]
fn fronts_are_split_off(rt: HostRuntime) {
    let (digits, rest) = split_digits(b"12x3");
    assert!(rt; digits == b"12".as_slice() && rest == b"x3".as_slice());
    assert!(rt; skip_blanks(b" \t a ") == b"a ".as_slice());
    assert!(rt; has_blanks_alone(b"\t ") && has_blanks_alone(b"") && !has_blanks_alone(b" a"));
}
