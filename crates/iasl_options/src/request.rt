//! What the words of a call ask for, or why they give nothing.
ghost use Rattle.std.specs.Prelude.{◌≡◌};

use crate::switches::Switches;
use asl_preprocess::Defines;
use iasl_ports::list::{Text, Texts};
use std::alloc::AllocError;

/// What the words of a call ask for (docs/OPTIONS.md).
pub struct Options {
    /// The source's file.
    pub file: Text,
    /// The front of the output names, where it is given (`-p`).
    pub prefix: Option<Text>,
    /// Further directories for includes, in order (`-I`).
    pub dirs: Texts,
    /// Definitions, in order; of several of one name the last counts (`-D`).
    pub defines: Defines,
    /// Whether the source is only preprocessed (`-P`).
    pub only: bool,
    /// Whether the preprocessor is on (it is off with `-Pn`).
    pub enabled: bool,
    /// What the options without value ask for that may stand together with every other.
    pub switches: Switches,
    /// The numbers of warnings and remarks that are neither told nor counted, as they are written (`-vw`).
    pub ignored: Texts,
}

// By hand, so that an owner lets go of it by one call (docs/DECISIONS.md).
impl Drop for Options {
    fn drop(self) {
        let Options {
            file: _,
            prefix: _,
            dirs: _,
            defines: _,
            only: _,
            enabled: _,
            switches: _,
            ignored: _,
        } = self;
    }
}

/// Why words give no options.
#[derive(Clone, Copy, Debug, PartialEq, Eq, Drop)]
pub enum WordsStop {
    /// The words are not good: the number, from 0, of the first word after which no words make them good; or how many there
    /// are, where more words would.
    Bad { word: usize },
    /// There was no memory.
    Memory,
}

impl From<AllocError> for WordsStop {
    ghost use Rattle.iasl_options.specs.declared.request.WordsStop.TheVariants.{Memory};

    ghost from_gives = { λ _ e. e ≡ Memory };

    fn from(_: AllocError) -> Self {
        WordsStop::Memory
    }
}
