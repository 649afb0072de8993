//! The reading of a file, with the files that it includes.
ghost use Rattle.std.specs.Prelude.{◌≡◌, ◌≤◌, ◌<◌, ◌+◌, ◌*◌, ◌^◌, [], ℕ, List, length, IfOk, IfErr, OnOk};
ghost use Rattle.std.specs.Option.{ForSome};
ghost use Rattle.iasl_ports.specs.Fetched.{most_bytes};
ghost use Rattle.asl_directives.specs.declared.branches.Branch.{Branch};
ghost use Rattle.asl_preprocess.specs.RowsByCode.{row_by};
ghost use Rattle.asl_preprocess.specs.Search.{Whole, names_for as names_of, search as searched};
ghost use Rattle.asl_preprocess.specs.State.{State, Pass, number_of, with_file, with_files, then as and_then};
ghost use Rattle.asl_preprocess.specs.Preprocess as spec;
ghost use Rattle.asl_preprocess.specs.Told.{Shows, Does, asked_for, setting_by};
ghost use Rattle.asl_preprocess.specs.Sound.{IsSound};
ghost use Rattle.asl_preprocess.specs.Reached.{Stands, StandsIn, Reaches, Counts, EndsFile};
ghost use Rattle.asl_preprocess.specs.Searching.{SeekStops};

use crate::directives::{Wanted, directive};
use crate::lines::{OrdinaryLine, line as ordinary};
use crate::rows::{Row, Rows};
use crate::search::{SearchResult, search_for};
use crate::stop::{ReadingStop, refusal};
use crate::work::Work;
use asl_directives::branches::Branches;
use iasl_messages::number::{
    INCLUDE_IS_ABSENT, INCLUDES_TOO_DEEP, TEXT_IS_TOO_LARGE, UNBALANCED_CONDITIONALS,
};
use iasl_messages::place::Place;
use iasl_ports::files::Files;
use iasl_ports::list::{Text, Texts};
use iasl_ports::shared::SharedBytes;
use std::alloc::{AllocError, Global};

/// What holds for all files: the further directories, and whether the preprocessor is enabled.
#[derive(Clone, Copy)]
pub(crate) struct Setting<'a> {
    pub(crate) directories: &'a Texts,
    pub(crate) enabled: bool,
}

/// A file that is read: its number, its name, and how many levels of files there may be below it.
#[derive(Clone, Copy)]
pub(crate) struct OpenFile<'a> {
    pub(crate) number: u32,
    pub(crate) name: &'a [u8],
    pub(crate) levels: u32,
}

fn take_row(
    alloc: Global,
    enabled: bool,
    work: &mut Work,
    branches: &mut Branches,
    file: u32,
    row: Row<'_>,
) -> Result<Option<Wanted>, ReadingStop>
    ensures { (state : State) → Shows work.old state →
        Does result work.new branches.new
        (spec.of_row enabled file (row_by row.entry) (record { state = state; branches = branches.old })) }
{
    match row {
        Row::Directive { line, text } => directive(alloc, work, branches, file, line, &text),
        Row::Ordinary {
            line,
            in_comment,
            text,
        } => {
            let line = OrdinaryLine {
                file,
                number: line,
                in_comment,
                text,
            };
            ordinary(alloc, enabled, work, branches, &line)
        }
    }
}

/// A file that was fetched: its number, its name and its bytes.
#[derive(Drop)]
struct Fetched {
    number: u32,
    name: Text,
    bytes: SharedBytes,
}

// The file that is asked for in the file of the name `own`.
fn seek<F: Files>(
    alloc: Global,
    files: &mut F,
    directories: &Texts,
    own: &[u8],
    work: &mut Work,
    wanted: &Wanted,
) -> Result<Fetched, ReadingStop>
    ensures shows { IfOk result (λ found. (state : State) → Shows work.old state →
        Shows work.new (with_files state (with_file found.name state.files))) }
    ensures number { IfOk result (λ found. found.number ≡ number_of found.name work.new.files) }
    ensures within { IfOk result (λ found. found.number < length work.new.files) }
    ensures size { IfOk result (λ found. length found.bytes ≤ most_bytes) }
    ensures found { IfOk result
        (λ found. ForSome (F.contents files.old)
        (λ told. searched told (names_of directories.now own.now (asked_for wanted.now)) ≡ Whole found.name found.bytes)) }
    ensures refused { IfErr result (λ stop. SeekStops stop wanted.now work.old.files work.new.files (F.contents files.old)
        (λ told. searched told (names_of directories.now own.now (asked_for wanted.now)))) }
    ensures fault { IfErr result (λ stop. Counts stop (F.faults files.old) (F.faults files.new)) }
    ensures faults { OnOk result (F.faults files.new ≡ F.faults files.old) }
    ensures contents { F.contents files.new ≡ F.contents files.old }
    ensures later { F.faults files.old ≤ F.faults files.new }
{
    match search_for(alloc, files, directories, own, wanted) {
        Ok(SearchResult::Whole { name, bytes }) => match work.add_file(alloc, name.as_bytes()) {
            Ok(number) => match SharedBytes::from_vec(alloc, bytes) {
                Ok(bytes) => Ok(Fetched {
                    number,
                    name,
                    bytes,
                }),
                Err(AllocError) => Err(ReadingStop::Memory),
            },
            Err(AllocError) => Err(ReadingStop::Memory),
        },
        Ok(SearchResult::Missing) => Err(refusal(
            alloc,
            INCLUDE_IS_ABSENT,
            wanted.place,
            wanted.name.as_bytes(),
        )),
        Ok(SearchResult::Large) => {
            let place = Place {
                file: wanted.place.file,
                line: wanted.place.line,
                column: 1,
            };
            Err(refusal(alloc, TEXT_IS_TOO_LARGE, place, b""))
        }
        Err(stop) => Err(stop),
    }
}

// The file that is asked for in the file `own`, in place of what asks.
#[cycle(reading)]
fn include<F: Files>(
    alloc: Global,
    files: &mut F,
    setting: &Setting<'_>,
    own: &OpenFile<'_>,
    work: &mut Work,
    wanted: &Wanted,
) -> Result<(), ReadingStop>
    ensures reached { (state : State) → Shows work.old state → IsSound state → wanted.now.place.file < length state.files
        → Reaches result (F.contents files.old) work.new.files (λ later. Stands work.new later (length state.files))
        (λ told. spec.included (spec.reading_at (setting_by told setting.now) own.now.levels) (setting_by told setting.now) own.now.name.now
        (asked_for wanted.now) wanted.now.place state) }
    ensures fault { (state : State) → Shows work.old state → IsSound state → wanted.now.place.file < length state.files →
        IfErr result (λ stop. Counts stop (F.faults files.old) (F.faults files.new)) }
    ensures faults { OnOk result (F.faults files.new ≡ F.faults files.old) }
    ensures contents { F.contents files.new ≡ F.contents files.old }
    ensures later { F.faults files.old ≤ F.faults files.new }
{
    if own.levels == 0 {
        return Err(refusal(
            alloc,
            INCLUDES_TOO_DEEP,
            wanted.place,
            wanted.name.as_bytes(),
        ));
    }
    match seek(alloc, files, setting.directories, own.name, work, wanted) {
        Ok(found) => {
            let file = OpenFile {
                number: found.number,
                name: found.name.as_bytes(),
                levels: own.levels - 1,
            };
            read_file(alloc, files, setting, &file, &found.bytes, work)
        }
        Err(stop) => Err(stop),
    }
}

// A row of a file.
#[cycle(reading)]
fn pass_row<F: Files>(
    alloc: Global,
    files: &mut F,
    setting: &Setting<'_>,
    file: &OpenFile<'_>,
    row: Row<'_>,
    work: &mut Work,
    branches: &mut Branches,
) -> Result<(), ReadingStop>
    ensures reached { (state : State) → Shows work.old state → IsSound state → file.now.number < length state.files
        → Reaches result (F.contents files.old) work.new.files (λ later. StandsIn work.new branches.new later (length state.files))
        (λ told. and_then
        (spec.of_row setting.now.enabled file.now.number (row_by row.entry) (record { state = state; branches = branches.old }))
        (spec.done (spec.reading_at (setting_by told setting.now) file.now.levels) (setting_by told setting.now) file.now.name.now)) }
    ensures fault { (state : State) → Shows work.old state → IsSound state → file.now.number < length state.files →
        IfErr result (λ stop. Counts stop (F.faults files.old) (F.faults files.new)) }
    ensures faults { OnOk result (F.faults files.new ≡ F.faults files.old) }
    ensures contents { F.contents files.new ≡ F.contents files.old }
    ensures later { F.faults files.old ≤ F.faults files.new }
{
    match take_row(alloc, setting.enabled, work, branches, file.number, row) {
        Ok(Some(wanted)) => include(alloc, files, setting, file, work, &wanted),
        Ok(None) => Ok(()),
        Err(stop) => Err(stop),
    }
}

// Where the rows of a file end, no `#if` may be open.
fn end(alloc: Global, file: u32, branches: &Branches) -> Result<(), ReadingStop>
    ensures { (state : State) → EndsFile result file (spec.at_end file (record { state = state; branches = branches.now })) state }
{
    match branches.outermost() {
        None => Ok(()),
        Some(branch) => {
            let place = Place {
                file,
                line: branch.line,
                column: branch.column,
            };
            Err(refusal(alloc, UNBALANCED_CONDITIONALS, place, b""))
        }
    }
}

/// Reads a file whose bytes are these.
#[cycle(reading)]
pub(crate) fn read_file<F: Files>(
    alloc: Global,
    files: &mut F,
    setting: &Setting<'_>,
    file: &OpenFile<'_>,
    bytes: &SharedBytes,
    work: &mut Work,
) -> Result<(), ReadingStop>
    requires { length bytes.now ≤ most_bytes }
    ensures reached { (state : State) → Shows work.old state → IsSound state → file.now.number < length state.files →
        file.now.number ≡ number_of file.now.name.now state.files
        → Reaches result (F.contents files.old) work.new.files (λ later. Stands work.new later (length state.files))
        (λ told. spec.of_file (setting_by told setting.now) file.now.levels state file.now.name.now bytes.now) }
    ensures fault { (state : State) → Shows work.old state → IsSound state → file.now.number < length state.files →
        IfErr result (λ stop. Counts stop (F.faults files.old) (F.faults files.new)) }
    ensures faults { OnOk result (F.faults files.new ≡ F.faults files.old) }
    ensures contents { F.contents files.new ≡ F.contents files.old }
    ensures later { F.faults files.old ≤ F.faults files.new }
{
    let mut branches = Branches::new(alloc);
    let mut rows = Rows::new(bytes, setting.enabled);
    while let Some(row) = rows.next(alloc)? {
        match pass_row(alloc, files, setting, file, row, work, &mut branches) {
            Ok(()) => {}
            Err(stop) => return Err(stop),
        }
    }
    end(alloc, file.number, &branches)
}
