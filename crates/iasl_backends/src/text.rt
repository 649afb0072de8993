//! What the texts of outputs are made of.
ghost use Rattle.std.specs.Prelude.{◌≡◌, ◌++◌, ◌<◌, slice_index, OnOk};
ghost use Rattle.iasl_backends.specs.Table.{pair, upper_digits};

use std::alloc::AllocError;

/// Adds bytes.
pub fn put(out: &mut Vec<u8>, bytes: &[u8]) -> Result<(), AllocError>
    ensures { OnOk result (out.new.items ≡ out.old.items ++ bytes.now) }
{
    out.extend_from_slice(bytes)
}

// The hexadecimal digit of a number, with upper-case letters.
fn digit(number: u8) -> u8
    requires { number < 16 }
    ensures { result ≡ slice_index upper_digits number }
{
    b"0123456789ABCDEF"[number as usize]
}

/// A byte as two hexadecimal digits.
pub fn put_pair(out: &mut Vec<u8>, byte: u8) -> Result<(), AllocError>
    ensures { OnOk result (out.new.items ≡ out.old.items ++ pair byte) }
{
    put(out, &[digit(byte / 16), digit(byte % 16)])
}
