//! What a call is asked for: to compile a file, or devices that are generated, or to write the template of a table.
ghost use Rattle.std.specs.Prelude.{◌≡◌, ℕ, map, string_bytes, Ok, Err, IfOk};
ghost use Rattle.std.specs.Str.{bytes_eq};
ghost use Rattle.iasl_options.specs.Asking.{asked_by};
ghost use Rattle.iasl_options.specs.CommandLine.{IsOffending};
ghost use Rattle.iasl_options.specs.Shown.{asked_of, AreTexts, IfBad};
ghost use Rattle.iasl_options.specs.Task.{Task as SpecTask, IsTask, generate_word, begins_number, count_in, generated_by, template_word};
ghost use Rattle.iasl_options.specs.Task.{table_in as spec_table_in, template_by, compiled_by, task_by, generated_settings};
ghost use Rattle.iasl_options.specs.TaskShown.{shown_task, TaskAnswers, HasTexts};

use crate::command_line::options;
use crate::request::{Options, WordsStop};
use crate::switches::Switches;
use asl_preprocess::Defines;
use data_layout::table::{Table, table_of};
use iasl_ports::list::{Text, Texts};
use std::alloc::{AllocError, Global};

/// What a call is asked for.
#[derive(Drop)]
pub enum Task {
    /// To compile a file.
    Compile(Options),
    /// To compile the source of so many devices that are generated (`--generate`).
    Generate(u32),
    /// To write the template of a table (`-T`).
    Template(Table),
}

/// The most devices that are generated.
const MOST_DEVICES: u32 = 4096;

/// What is asked of the compilation of generated devices: nothing but the name of its output.
pub fn generated_options(alloc: Global) -> Result<Options, AllocError>
    ensures asked { IfOk result (λ options. asked_of options ≡ generated_settings) }
    ensures texts { IfOk result AreTexts }
{
    Ok(Options {
        file: Text::from_bytes(alloc, b"generated")?,
        prefix: None,
        dirs: Texts::new(alloc),
        defines: Defines::new(alloc),
        only: false,
        enabled: true,
        switches: Switches::new(),
        ignored: Texts::new(alloc),
    })
}

// Whether a word begins with a digit that is not 0.
fn begins_number(word: &[u8]) -> bool
    ensures { result ≡ begins_number word.now }
{
    matches!(word, [b'1'..=b'9', ..])
}

// The number of devices that a word writes in decimal.
#[tactic(auto, using(crate::proofs::Counts::few_read, crate::proofs::Counts::many_read, crate::proofs::Counts::none_read))]
fn device_count(word: &str) -> Option<u32>
    ensures { result ≡ count_in word.now }
{
    if !begins_number(word.as_bytes()) {
        return None;
    }
    match word.parse::<u32>() {
        Ok(count) => {
            if count <= MOST_DEVICES {
                Some(count)
            } else {
                None
            }
        }
        Err(_) => None,
    }
}

// What stands behind `--generate`.
fn generated(words: &[String]) -> Result<Task, WordsStop>
    ensures answer { TaskAnswers result (generated_by (map string_bytes words.now)) }
    ensures texts { IfOk result HasTexts }
{
    match words {
        [] => Err(WordsStop::Bad { word: 1 }),
        [word, rest @ ..] => match device_count(word) {
            None => Err(WordsStop::Bad { word: 1 }),
            Some(count) if rest.is_empty() => Ok(Task::Generate(count)),
            Some(_) => Err(WordsStop::Bad { word: 2 }),
        },
    }
}

// The table whose signature a word is, in letters of either case.
fn table_in(alloc: Global, word: &[u8]) -> Result<Option<Table>, AllocError>
    ensures { IfOk result (λ table. table ≡ spec_table_in word.now) }
{
    let mut upper = Vec::new(alloc);
    for byte in word {
        upper.push(byte.to_ascii_uppercase())?;
    }
    Ok(table_of(&upper))
}

// What stands behind `-T`.
fn templated(alloc: Global, words: &[String]) -> Result<Task, WordsStop>
    ensures answer { TaskAnswers result (template_by (map string_bytes words.now)) }
    ensures texts { IfOk result HasTexts }
{
    match words {
        [] => Err(WordsStop::Bad { word: 1 }),
        [word, rest @ ..] => match table_in(alloc, word.as_bytes())? {
            None => Err(WordsStop::Bad { word: 1 }),
            Some(table) if rest.is_empty() => Ok(Task::Template(table)),
            Some(_) => Err(WordsStop::Bad { word: 2 }),
        },
    }
}

// Whether the word is the option of templates.
fn writes_template(word: &String) -> bool
    ensures { result ≡ bytes_eq (string_bytes word.now) template_word }
{
    word.as_bytes() == b"-T".as_slice()
}

// Whether the word is the option of generated devices.
fn generates(word: &String) -> bool
    ensures { result ≡ bytes_eq (string_bytes word.now) generate_word }
{
    word.as_bytes() == b"--generate".as_slice()
}

// The task of words that are no generation.
fn compiled(alloc: Global, words: &[String]) -> Result<Task, WordsStop>
    ensures answer { TaskAnswers result (compiled_by (asked_by (map string_bytes words.now))) }
    ensures texts { IfOk result HasTexts }
{
    match options(alloc, words) {
        Ok(options) => Ok(Task::Compile(options)),
        Err(stop) => Err(stop),
    }
}

fn read(alloc: Global, words: &[String]) -> Result<Task, WordsStop>
    ensures answer { TaskAnswers result (task_by (map string_bytes words.now)) }
    ensures texts { IfOk result HasTexts }
{
    match words {
        [first, rest @ ..] if generates(first) => generated(rest),
        [first, rest @ ..] if writes_template(first) => templated(alloc, rest),
        _ => compiled(alloc, words),
    }
}

/// What the words of a call ask for, or the word that spoils them: a command line (`options`), or `--generate N` alone, where N is a number
/// from 1 to 4096 in decimal, or `-T SIGNATURE` alone, where the signature is that of a table with a layout (docs/OPTIONS.md).
#[tactic(auto, using(crate::proofs::Tasks::answer_rules))]
pub fn task_of(alloc: Global, words: &[String]) -> Result<Task, WordsStop>
    // What is answered is what the words ask for.
    ensures good { IfOk result (λ task. IsTask (map string_bytes words.now) (shown_task task)) }
    // What words ask for is answered, unless memory runs out.
    ensures every { (task : SpecTask) → IsTask (map string_bytes words.now) task → TaskAnswers result (Ok task) }
    // The word that is told is the one that spoils the words.
    ensures bad { IfBad result (IsOffending IsTask (map string_bytes words.now)) }
    // The word that spoils words is told, unless memory runs out.
    ensures told { (word : ℕ) → IsOffending IsTask (map string_bytes words.now) word → TaskAnswers result (Err word) }
    // The same as a function of the words.
    ensures answer { TaskAnswers result (task_by (map string_bytes words.now)) }
    // The file and the prefix are text.
    ensures texts { IfOk result HasTexts }
{
    read(alloc, words)
}
