//! The words of a call.
ghost use Rattle.std.specs.Prelude.{◌≡◌, ℕ, map, string_bytes, Ok, Err, IfOk};
ghost use Rattle.iasl_options.specs.Asking.{Asked, asked_by};
ghost use Rattle.iasl_options.specs.CommandLine.{IsCommandLine, IsOffending};
ghost use Rattle.iasl_options.specs.Shown.{asked_in, asked_of, Answers, AreTexts, IfBad};

use crate::draft::{Draft, Step};
use crate::request::{Options, WordsStop};
use std::alloc::Global;

// Goes through the words once.
fn read(alloc: Global, words: &[String]) -> Result<Options, WordsStop>
    ensures { Answers result (asked_by (map string_bytes words.now)) }
{
    let mut draft = Draft::new(alloc);
    let mut waiting = None;
    for (number, word) in words.iter().enumerate() {
        match draft.one_more(alloc, waiting, word.as_bytes())? {
            Step::Next(next) => waiting = next,
            Step::Spoilt => return Err(WordsStop::Bad { word: number }),
        }
    }
    draft.finish(alloc, waiting, words.len())
}

/// What the words of a call ask for, or the word that spoils them. The options are: `-p P`, `-I DIR`, `-D NAME` or
/// `-D NAME=TEXT`, those without a value (`Switch`), and one file, in any order (docs/OPTIONS.md).
#[tactic(auto, using(crate::proofs::OneOffending::answer_rules))]
pub fn options(alloc: Global, words: &[String]) -> Result<Options, WordsStop>
    // What is answered is asked for by the words, which are a command line.
    ensures good { IfOk result (λ options. IsCommandLine (map string_bytes words.now) (asked_of options)) }
    // A command line is answered, unless memory runs out.
    ensures every { (asked : Asked) → IsCommandLine (map string_bytes words.now) asked → Answers result (Ok asked) }
    // The word that is told is the one that spoils the words.
    ensures bad { IfBad result (IsOffending IsCommandLine (map string_bytes words.now)) }
    // The word that spoils words is told, unless memory runs out.
    ensures told { (word : ℕ) → IsOffending IsCommandLine (map string_bytes words.now) word → Answers result (Err word) }
    // The same as a function of the words.
    ensures answer { Answers result (asked_by (map string_bytes words.now)) }
    // The file and the prefix are text.
    ensures texts { IfOk result AreTexts }
{
    read(alloc, words)
}
