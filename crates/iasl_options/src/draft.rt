//! What some first words ask for.
ghost use Rattle.std.specs.Prelude.{◌≡◌, if◌then◌else◌, Some, None, IfOk};
ghost use Rattle.iasl_options.specs.Asking.{with_setting, settled, may_open, one_more, behind_word, at_end, nothing, front_of};
ghost use Rattle.iasl_options.specs.Shown.{shown_setting, shown_word, asked_in, stepped, Answers};

use crate::names::stem_of;
use crate::request::{Options, WordsStop};
use crate::switches::Switches;
use crate::words::{Key, Setting, Word, with_value, word_of};
use asl_preprocess::{Define, Defines};
use iasl_ports::list::{Text, Texts};
use std::alloc::{AllocError, Global};

// What the words so far ask for.
pub(crate) struct Draft {
    file: Option<Text>,
    prefix: Option<Text>,
    dirs: Texts,
    defines: Defines,
    only: bool,
    enabled: bool,
    switches: Switches,
    ignored: Texts,
}

// By hand, so that an owner lets go of it by one call (docs/DECISIONS.md).
impl Drop for Draft {
    fn drop(self) {
        let Draft {
            file: _,
            prefix: _,
            dirs: _,
            defines: _,
            only: _,
            enabled: _,
            switches: _,
            ignored: _,
        } = self;
    }
}

// What one more word does: the option that then waits for its value, or that no words make them good any more.
#[derive(Clone, Copy)]
pub(crate) enum Step {
    Next(Option<Key>),
    Spoilt,
}

// The front of the output names, where a prefix is given: with `--acpica` without its extension.
fn front_of(alloc: Global, acpica: bool, prefix: Option<Text>) -> Result<Option<Text>, AllocError>
    ensures { IfOk result (λ front. front ≡ front_of acpica prefix) }
{
    match prefix {
        Some(prefix) if acpica => Ok(Some(Text::from_bytes(alloc, stem_of(prefix.as_bytes()))?)),
        other => Ok(other),
    }
}

impl Draft {
    // Nothing is asked for yet.
    pub(crate) fn new(alloc: Global) -> Draft
        ensures { asked_in result ≡ nothing }
    {
        Draft {
            file: None,
            prefix: None,
            dirs: Texts::new(alloc),
            defines: Defines::new(alloc),
            only: false,
            enabled: true,
            switches: Switches::new(),
            ignored: Texts::new(alloc),
        }
    }

    // A further setting that may come any time, or only where it has not come, or not together with another: whether it may.
    fn set(&mut self, alloc: Global, setting: Setting<'_>) -> Result<bool, AllocError>
        ensures { IfOk result
            (λ fits. with_setting (asked_in self.old) (shown_setting setting.entry) ≡ (if fits then Some (asked_in self.new) else None)) }
    {
        match setting {
            Setting::Prefix(prefix) => {
                if self.prefix.is_some() {
                    return Ok(false);
                }
                self.prefix = Some(Text::from_bytes(alloc, prefix)?);
            }
            Setting::Directory(directory) => self.dirs.push(Text::from_bytes(alloc, directory)?)?,
            Setting::Definition { name, text } => {
                let name = Text::from_bytes(alloc, name)?;
                let text = Text::from_bytes(alloc, text)?;
                self.defines.push(Define { name, text })?;
            }
            Setting::PreprocessOnly => {
                if !self.enabled {
                    return Ok(false);
                }
                self.only = true;
            }
            Setting::NoPreprocessor => {
                if self.only {
                    return Ok(false);
                }
                self.enabled = false;
            }
            Setting::Turned(switch) => self.switches = self.switches.with(switch),
            Setting::Ignored(number) => self.ignored.push(Text::from_bytes(alloc, number)?)?,
            Setting::File(file) => {
                if file.is_empty() || self.file.is_some() {
                    return Ok(false);
                }
                self.file = Some(Text::from_bytes(alloc, file)?);
            }
        }
        Ok(true)
    }

    // Whether an option that waits for its value may stand here.
    fn may_open(&self, key: Key) -> bool
        ensures { result ≡ may_open (asked_in self.now) key }
    {
        !matches!(key, Key::Prefix) || self.prefix.is_none()
    }

    // The step by a further setting.
    fn set_step(&mut self, alloc: Global, setting: Setting<'_>) -> Result<Step, AllocError>
        ensures { IfOk result (λ step. settled (with_setting (asked_in self.old) (shown_setting setting.entry)) ≡ stepped step
            (asked_in self.new)) }
    {
        Ok(if self.set(alloc, setting)? {
            Step::Next(None)
        } else {
            Step::Spoilt
        })
    }

    // The step by a word that is no value.
    fn take_word(&mut self, alloc: Global, word: Word<'_>) -> Result<Step, AllocError>
        ensures { IfOk result (λ step. behind_word (asked_in self.old) (shown_word word.entry) ≡ stepped step (asked_in self.new)) }
    {
        match word {
            Word::Asks(setting) => self.set_step(alloc, setting),
            Word::Opens(key) if self.may_open(key) => Ok(Step::Next(Some(key))),
            Word::Opens(_) | Word::Unknown => Ok(Step::Spoilt),
        }
    }

    pub(crate) fn one_more(
        &mut self,
        alloc: Global,
        waiting: Option<Key>,
        word: &[u8],
    ) -> Result<Step, AllocError>
        ensures { IfOk result (λ step. one_more (record { asked = asked_in self.old; waiting = waiting }) waiting word.now ≡ stepped step
            (asked_in self.new)) }
    {
        match waiting {
            Some(key) => self.set_step(alloc, with_value(key, word)),
            None => self.take_word(alloc, word_of(word)),
        }
    }

    // The words are used up, so many of them: what they ask for, or that more would be needed.
    pub(crate) fn finish(
        self,
        alloc: Global,
        waiting: Option<Key>,
        count: usize,
    ) -> Result<Options, WordsStop>
        ensures { Answers result (at_end (asked_in self) waiting (asked_in self).file count) }
    {
        let Draft {
            file,
            prefix,
            dirs,
            defines,
            only,
            enabled,
            switches,
            ignored,
        } = self;
        match (waiting, file) {
            (None, Some(file)) => Ok(Options {
                file,
                prefix: front_of(alloc, switches.acpica, prefix)?,
                dirs,
                defines,
                only,
                enabled,
                switches,
                ignored,
            }),
            _ => Err(WordsStop::Bad { word: count }),
        }
    }
}
