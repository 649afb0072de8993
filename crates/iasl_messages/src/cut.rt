//! The lines of a text: it is cut at LF, and a CR before LF is dropped.
ghost use Rattle.std.specs.Prelude.{◌≡◌, ◌∷◌, [], MatchOption, position, ◌==◌};
ghost use Rattle.iasl_messages.specs.Cut.{lines_of, without_cr};

fn without_cr(line: &[u8]) -> &[u8]
    ensures { result.now ≡ without_cr line.now }
{
    match line.strip_suffix(b"\r") {
        Some(front) => front,
        None => line,
    }
}

fn line_end(text: &[u8]) -> Option<usize>
    ensures { result ≡ position (λ c. c == 10) text.now }
{
    text.iter().position(|byte| *byte == b'\n')
}

/// The first line and what stands after it; none where the text has no LF, and so is a line.
pub fn cut_line(text: &[u8]) -> Option<(&[u8], &[u8])>
    ensures { MatchOption result (lines_of text.now ≡ text.now ∷ []) (λ cut. lines_of text.now ≡ cut.0.now ∷ lines_of cut.1.now) }
{
    match line_end(text) {
        Some(end) => Some((without_cr(&text[..end]), &text[end + 1..])),
        None => None,
    }
}
