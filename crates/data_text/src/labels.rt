// Labels without their blanks, and values that go on.
ghost use Rattle.std.specs.Prelude.{◌≡◌, ◌++◌, ◌∷◌, [], MatchOption, true, false, IfOk, length, ◌≤◌};
ghost use Rattle.hex_text.specs.Blanks.{has_blanks_alone};
ghost use Rattle.data_text.specs.Labels.{label_key, has_no_inner, is_one_word, ending};

use hex_text::blanks::{has_blanks_alone, is_blank, skip_blanks};
use std::alloc::{AllocError, Global};

/// The letters of a label in lower case, without its blanks. Labels are the same where these are.
pub fn label_key(alloc: Global, label: &[u8]) -> Result<Vec<u8>, AllocError>
    ensures { IfOk result (λ key. key.items ≡ label_key label.now) }
{
    let mut key = Vec::new(alloc);
    for byte in label {
        if !is_blank(*byte) {
            key.push(byte.to_ascii_lowercase())?;
        }
    }
    Ok(key)
}

fn has_no_inner(text: &[u8]) -> bool
    ensures { result ≡ has_no_inner text.now }
{
    let mut rest = text;
    while let [first, more @ ..] = rest {
        if is_blank(*first) {
            return has_blanks_alone(more);
        }
        rest = more;
    }
    true
}

/// Whether blanks stand at the ends of a label alone.
pub fn is_one_word(label: &[u8]) -> bool
    ensures { result ≡ is_one_word label.now }
{
    has_no_inner(skip_blanks(label))
}

/// What stands before a backslash that has nothing but blanks behind it, and true; the whole text and false
/// where there is none.
pub fn before_backslash(text: &[u8]) -> (&[u8], bool)
    ensures { (result.0.now, result.1) ≡ ending text.now }
{
    let mut rest = text;
    while let [front @ .., last] = rest {
        if *last == b'\\' {
            return (front, true);
        }
        if !is_blank(*last) {
            break;
        }
        rest = front;
    }
    (text, false)
}
