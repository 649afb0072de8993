//! Blanks, which are the space and the tab.
ghost use Rattle.std.specs.Prelude.{◌≡◌, ◌∷◌, []};
ghost use Rattle.hex_text.specs.Blanks as spec;
ghost use Rattle.hex_text.specs.Blanks.{drop_blanks};

/// Whether a byte is a space or a tab.
pub fn is_blank(byte: u8) -> bool
    ensures { result ≡ spec.is_blank byte }
{
    byte == b' ' || byte == b'\t'
}

/// Whether a text has nothing but blanks.
pub fn has_blanks_alone(text: &[u8]) -> bool
    ensures { result ≡ spec.has_blanks_alone text.now }
{
    text.iter().all(|byte| is_blank(*byte))
}

/// A text without the blanks at its front.
pub fn skip_blanks(text: &[u8]) -> &[u8]
    ensures { result.now ≡ drop_blanks text.now }
{
    let mut rest = text;
    while let [first, after @ ..] = rest {
        if !is_blank(*first) {
            break;
        }
        rest = after;
    }
    rest
}
