//! The preprocessor: a main file to the lines that are left.
ghost use Rattle.std.specs.Prelude.{◌≡◌, ◌∷◌, ◌≤◌, [], List, length, All, IfOk, IfErr, OnOk};
ghost use Rattle.std.specs.Option.{ForSome};
ghost use Rattle.iasl_ports.specs.Fetched.{most_bytes};
ghost use Rattle.asl_preprocess.specs.Preprocess as spec;
ghost use Rattle.asl_preprocess.specs.State.{blank};
ghost use Rattle.asl_preprocess.specs.Sound.{IsGoodLine, IsGoodNote};
ghost use Rattle.asl_preprocess.specs.Told.{Shows};
ghost use Rattle.asl_preprocess.specs.declared.main_file.PreStop.TheVariants.{Memory};
ghost use Rattle.asl_preprocess.specs.Stops.{IsStop, HasPlace, Causes, MainCauses, Keeps, EndsWith, LacksMain};

use crate::define::Defines;
use crate::files::put_text;
use crate::reading::{OpenFile, Setting, read_file};
use crate::stop::ReadingStop;
use crate::work::{OWN_NAME, Work};
use iasl_messages::message::{Message, Messages};
use iasl_messages::number::TEXT_IS_TOO_LARGE;
use iasl_messages::place::{LineList, Lines, Place};
use iasl_ports::files::{FetchFault, Files};
use iasl_ports::list::{Text, Texts};
use iasl_ports::shared::SharedBytes;
use std::alloc::{AllocError, Global};
use std::mem::replace;

/// How many levels of included files there may be below the main file.
const MOST_LEVELS: u32 = 32;

/// What is left of a source: its lines, with the names of the files that were fetched, and the notes that its
/// directives gave.
#[derive(Drop)]
pub struct Preprocessed {
    pub lines: Lines,
    pub notes: Messages,
}

/// Why nothing is left.
#[derive(Drop)]
pub enum PreStop {
    /// A first stop, with the names of the files that were fetched before it.
    Refused { message: Message, files: Texts },
    /// The main file is absent.
    Absent,
    /// A file could not be read.
    ReadFault,
    /// There was no memory.
    Memory,
}

impl From<AllocError> for PreStop {
    ghost use Rattle.asl_preprocess.specs.declared.main_file.PreStop.TheVariants.{Memory};

    ghost from_gives = { λ _ e. e ≡ Memory };

    fn from(_: AllocError) -> Self {
        PreStop::Memory
    }
}

// Puts what is known before the first line, where nothing is known.
fn begin(alloc: Global, work: &mut Work, name: &str, defines: &Defines) -> Result<(), AllocError>
    ensures { OnOk result (Shows work.old blank → Shows work.new (spec.first_state name.now defines.now)) }
{
    work.add_file(alloc, name.as_bytes())?;
    work.define(alloc, &OWN_NAME, b"1")?;
    for define in defines.as_slice() {
        work.define(alloc, define.name.as_bytes(), define.text.as_bytes())?;
    }
    Ok(())
}

// What is known before the first line.
fn first_work(alloc: Global, name: &str, defines: &Defines) -> Result<Work, AllocError>
    ensures { IfOk result (λ work. Shows work (spec.first_state name.now defines.now)) }
{
    let mut work = Work::new(alloc);
    begin(alloc, &mut work, name, defines)?;
    Ok(work)
}

// What is left behind the last line.
fn last_work(alloc: Global, work: &mut Work) -> Result<Preprocessed, PreStop>
    ensures files { IfOk result (λ it. it.lines.files ≡ work.old.files) }
    ensures lines { IfOk result (λ it. it.lines.list ≡ work.old.lines) }
    ensures notes { IfOk result (λ it. it.notes ≡ work.old.notes) }
    ensures memory { IfErr result (λ stop. stop ≡ Memory) }
{
    let files = work.files.texts(alloc)?;
    let list = replace(&mut work.lines, LineList::new(alloc));
    let notes = replace(&mut work.notes, Messages::new(alloc));
    Ok(Preprocessed {
        lines: Lines { files, list },
        notes,
    })
}

// Why nothing is left, where the reading ended early.
fn stopped(alloc: Global, stop: ReadingStop, work: &Work) -> PreStop
    ensures { EndsWith result stop work.now.files }
{
    match stop {
        ReadingStop::At(message) => match work.files.texts(alloc) {
            Ok(files) => PreStop::Refused { message, files },
            Err(AllocError) => PreStop::Memory,
        },
        ReadingStop::ReadFault => PreStop::ReadFault,
        ReadingStop::Memory => PreStop::Memory,
    }
}

// The main file, whose bytes are these.
fn read_main<F: Files>(
    alloc: Global,
    files: &mut F,
    name: &str,
    bytes: &SharedBytes,
    dirs: &Texts,
    defines: &Defines,
    enabled: bool,
) -> Result<Preprocessed, PreStop>
    requires { length bytes.now ≤ most_bytes }
    ensures given { IfOk result
        (λ it. ForSome (F.contents files.old)
        (λ told. spec.of_main (spec.setting_of told dirs.now enabled) name.now defines.now bytes.now ≡ spec.Given it.lines.files
        it.lines.list it.notes)) }
    ensures stopped { IfErr result
        (λ stop. ForSome (F.contents files.old)
        (λ told. IsStop stop (spec.of_main (spec.setting_of told dirs.now enabled) name.now defines.now bytes.now))) }
    ensures main { IfOk result (λ it. 1 ≤ length it.lines.files) }
    ensures lines { IfOk result (λ it. All (IsGoodLine (length it.lines.files)) it.lines.list) }
    ensures notes { IfOk result (λ it. All (IsGoodNote (length it.lines.files)) it.notes) }
    ensures place { IfErr result HasPlace }
    ensures fault { IfErr result (λ stop. MainCauses stop (F.faults files.old) (F.faults files.new)) }
    ensures faults { OnOk result (F.faults files.new ≡ F.faults files.old) }
    ensures contents { F.contents files.new ≡ F.contents files.old }
    ensures later { F.faults files.old ≤ F.faults files.new }
{
    let mut work = first_work(alloc, name, defines)?;
    let setting = Setting {
        directories: dirs,
        enabled,
    };
    let main = OpenFile {
        number: 0,
        name: name.as_bytes(),
        levels: MOST_LEVELS,
    };
    match read_file(alloc, files, &setting, &main, bytes, &mut work) {
        Ok(()) => last_work(alloc, &mut work),
        Err(stop) => Err(stopped(alloc, stop, &work)),
    }
}

// A main file of more than 16 MiB.
fn too_large(alloc: Global, name: &str) -> PreStop
    ensures { Keeps result spec.too_large_main (name.now ∷ []) }
{
    let mut files = Texts::new(alloc);
    match put_text(alloc, &mut files, name.as_bytes()) {
        Ok(()) => PreStop::Refused {
            message: Message {
                number: TEXT_IS_TOO_LARGE,
                place: Place {
                    file: 0,
                    line: 1,
                    column: 1,
                },
                name: Text::new(alloc),
            },
            files,
        },
        Err(AllocError) => PreStop::Memory,
    }
}

// Why nothing is left, where the main file was not fetched.
fn unread(alloc: Global, name: &str, fault: FetchFault) -> PreStop
    ensures { LacksMain result fault name.now }
{
    match fault {
        FetchFault::TooLarge => too_large(alloc, name),
        FetchFault::Absent => PreStop::Absent,
        FetchFault::Failed => PreStop::ReadFault,
        FetchFault::Memory => PreStop::Memory,
    }
}

/// Preprocesses the main file of this name. An included file is looked for beside the file that asks for it, where its
/// name stands in quotes, and then in the directories `dirs`. The definitions count from the first line on; where the
/// preprocessor is not enabled, there are no directives and no name is replaced, but lines of the form `Include ("f")`
/// are obeyed.
pub fn preprocess<F: Files>(
    alloc: Global,
    files: &mut F,
    name: &str,
    dirs: &Texts,
    defines: &Defines,
    enabled: bool,
) -> Result<Preprocessed, PreStop>
    // Where the files are told, what is given is exactly the definition's, and so is what is refused or absent.
    ensures given { IfOk result
        (λ it. ForSome (F.contents files.old)
        (λ told. spec.preprocessed told name.now dirs.now defines.now enabled ≡ spec.Given it.lines.files it.lines.list it.notes)) }
    ensures stopped { IfErr result
        (λ stop. ForSome (F.contents files.old) (λ told. IsStop stop (spec.preprocessed told name.now dirs.now defines.now enabled))) }

    // The main file is among those that were fetched. Each line has at most 16 MiB, and what is given or refused stands
    // in a file that was fetched.
    ensures main { IfOk result (λ it. 1 ≤ length it.lines.files) }
    ensures lines { IfOk result (λ it. All (IsGoodLine (length it.lines.files)) it.lines.list) }
    ensures notes { IfOk result (λ it. All (IsGoodNote (length it.lines.files)) it.notes) }
    ensures place { IfErr result HasPlace }

    // A file that could not be read raised the count of faults, an absent main file that of absents, and no other
    // answer, want of memory among them, left the count of faults otherwise than it was.
    ensures cause { IfErr result
        (λ stop. Causes stop (F.faults files.old) (F.faults files.new) (F.absents files.old) (F.absents files.new)) }
    ensures faults { OnOk result (F.faults files.new ≡ F.faults files.old) }
    ensures contents { F.contents files.new ≡ F.contents files.old }
    ensures later { F.faults files.old ≤ F.faults files.new }
{
    match files.fetch(alloc, name) {
        Ok(bytes) => match SharedBytes::from_vec(alloc, bytes) {
            Ok(bytes) => read_main(alloc, files, name, &bytes, dirs, defines, enabled),
            Err(AllocError) => Err(PreStop::Memory),
        },
        Err(fault) => Err(unread(alloc, name, fault)),
    }
}
