//! The text of a line.
ghost use Rattle.std.specs.Prelude.{◌≡◌, true, false};
ghost use Rattle.asl_directives.specs.Words.{past_blanks as past_blanks_of};
ghost use Rattle.asl_preprocess.specs.Cuts.{AsksNothing, StandsAt};
ghost use Rattle.asl_preprocess.specs.OwnName.{LacksOwnName};

use asl_directives::words::past_blanks;
use iasl_ports::shared::SharedBytes;

/// The text of a line; its file's bytes, and how many of them stand before it; whether it is plain: it has neither a `"` nor a
/// `/`; and whether `__IASL__` may stand in it.
#[derive(Clone, Copy)]
pub(crate) struct LineText<'a> {
    pub(crate) whole: &'a [u8],
    pub(crate) file: &'a SharedBytes,
    pub(crate) start: usize,
    pub(crate) plain: bool,
    pub(crate) names_own: bool,
    ghost stands: { StandsAt whole.now start file.now },
    ghost asks_nothing: { AsksNothing plain whole.now },
    ghost lacks: { names_own ≡ false → LacksOwnName whole.now },
}

/// What stands behind the blanks at the front of a text, where four spaces are passed together.
pub(crate) fn behind_blanks(text: &[u8]) -> &[u8]
    ensures { result.now ≡ past_blanks_of text.now }
{
    let mut rest = text;
    while let [b' ', b' ', b' ', b' ', behind @ ..] = rest {
        rest = behind;
    }
    past_blanks(rest)
}
