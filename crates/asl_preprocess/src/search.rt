//! Where an included file is looked for.
ghost use Rattle.std.specs.Prelude.{◌≡◌, ◌≤◌, ◌++◌, ◌∷◌, [], List, ℕ, length, IfOk, OnOk, IfErr, map};
ghost use Rattle.std.specs.Option.{ForSome};
ghost use Rattle.iasl_ports.specs.Counts.{Rose};
ghost use Rattle.asl_preprocess.specs.Search as spec;
ghost use Rattle.asl_preprocess.specs.Told.{asked_for};
ghost use Rattle.asl_preprocess.specs.Searching.{found_by, found_or_rest, FoundHasRoom, HasRoom, SearchStops};

use crate::directives::Wanted;
use crate::files::put_text;
use crate::stop::ReadingStop;
use iasl_ports::files::{FetchFault, Files};
use iasl_ports::list::{Text, Texts};
use std::alloc::{AllocError, Global};
use std::str::from_utf8;

/// What a search comes to: no file; one of more than 16 MiB; or one with its name and its bytes.
#[derive(Drop)]
pub(crate) enum SearchResult {
    Missing,
    Large,
    Whole { name: Text, bytes: Vec<u8> },
}

// The directory of a file: its name through the last `/`.
#[tactic(auto, using(crate::proofs::Slashes::slash_at_end, crate::proofs::Slashes::other_at_end))]
fn directory_of(name: &[u8]) -> &[u8]
    ensures { result.now ≡ spec.directory_of name.now }
{
    let mut rest = name;
    while let [front @ .., last] = rest {
        if *last == b'/' {
            break;
        }
        rest = front;
    }
    rest
}

fn begins_with_slash(name: &[u8]) -> bool
    ensures { result ≡ spec.begins_with_slash name.now }
{
    match name {
        [] => false,
        [first, ..] => *first == b'/',
    }
}

// Whether a directory needs no further `/` behind it.
#[tactic(auto, using(crate::proofs::Slashes::joined_by_last))]
fn is_joined(directory: &[u8]) -> bool
    ensures { result ≡ spec.is_joined directory.now }
{
    match directory {
        [] => true,
        [.., last] => *last == b'/',
    }
}

fn put(out: &mut Vec<u8>, bytes: &[u8]) -> Result<(), AllocError>
    ensures { OnOk result (out.new.items ≡ out.old.items ++ bytes.now) }
{
    out.extend_from_slice(bytes)
}

// A file's name in a further directory.
fn in_directory(alloc: Global, name: &[u8], directory: &[u8]) -> Result<Text, AllocError>
    ensures { IfOk result (λ joined. joined ≡ spec.in_directory name.now directory.now) }
{
    let mut out = Vec::new(alloc);
    put(&mut out, directory)?;
    if !is_joined(directory) {
        put(&mut out, b"/")?;
    }
    put(&mut out, name)?;
    Text::from_vec(alloc, out)
}

// A file's name in the directory of the file of the name `own`.
fn beside(alloc: Global, name: &[u8], own: &[u8]) -> Result<Text, AllocError>
    ensures { IfOk result (λ joined. joined ≡ spec.directory_of own.now ++ name.now) }
{
    let mut out = Vec::new(alloc);
    put(&mut out, directory_of(own))?;
    put(&mut out, name)?;
    Text::from_vec(alloc, out)
}

fn add_names(
    alloc: Global,
    names: &mut Texts,
    directories: &Texts,
    name: &[u8],
) -> Result<(), AllocError>
    ensures { OnOk result (names.new ≡ names.old ++ map (spec.in_directory name.now) directories.now) }
{
    for directory in directories.as_slice() {
        names.push(in_directory(alloc, name, directory.as_bytes())?)?;
    }
    Ok(())
}

// Puts behind names those to be tried for a file that is asked for in the file of the name `own`.
fn put_names(
    alloc: Global,
    names: &mut Texts,
    directories: &Texts,
    own: &[u8],
    wanted: &Wanted,
) -> Result<(), AllocError>
    ensures { OnOk result (names.new ≡ names.old ++ spec.names_for directories.now own.now (asked_for wanted.now)) }
{
    let name = wanted.name.as_bytes();
    if begins_with_slash(name) {
        return put_text(alloc, names, name);
    }
    if wanted.quoted {
        names.push(beside(alloc, name, own)?)?;
    }
    add_names(alloc, names, directories, name)
}

// The file of a name; none where there is none, or where the name is not UTF-8.
fn fetch<F: Files>(
    alloc: Global,
    files: &mut F,
    name: &Text,
) -> Result<Option<SearchResult>, ReadingStop>
    ensures found { IfOk result
        (λ found. ForSome (F.contents files.old)
        (λ told. (rest : spec.SearchResult) → found_or_rest found rest ≡ spec.search_first told name.now rest)) }
    ensures size { IfOk result HasRoom }
    ensures fault { IfErr result (λ stop. SearchStops stop (F.faults files.old) (F.faults files.new)) }
    ensures faults { OnOk result (F.faults files.new ≡ F.faults files.old) }
    ensures contents { F.contents files.new ≡ F.contents files.old }
    ensures later { F.faults files.old ≤ F.faults files.new }
{
    let Ok(text) = from_utf8(name.as_bytes()) else {
        return Ok(None);
    };
    match files.fetch(alloc, text) {
        Ok(bytes) => match Text::from_bytes(alloc, name.as_bytes()) {
            Ok(name) => Ok(Some(SearchResult::Whole { name, bytes })),
            Err(AllocError) => Err(ReadingStop::Memory),
        },
        Err(FetchFault::TooLarge) => Ok(Some(SearchResult::Large)),
        Err(FetchFault::Absent) => Ok(None),
        Err(FetchFault::Failed) => Err(ReadingStop::ReadFault),
        Err(FetchFault::Memory) => Err(ReadingStop::Memory),
    }
}

// The first of the names that there is a file of.
fn search<F: Files>(
    alloc: Global,
    files: &mut F,
    names: &[Text],
) -> Result<SearchResult, ReadingStop>
    ensures found { IfOk result (λ found. ForSome (F.contents files.old) (λ told. spec.search told names.now ≡ found_by found)) }
    ensures size { IfOk result FoundHasRoom }
    ensures fault { IfErr result (λ stop. SearchStops stop (F.faults files.old) (F.faults files.new)) }
    ensures faults { OnOk result (F.faults files.new ≡ F.faults files.old) }
    ensures contents { F.contents files.new ≡ F.contents files.old }
    ensures later { F.faults files.old ≤ F.faults files.new }
{
    for name in names {
        match fetch(alloc, files, name) {
            Ok(Some(found)) => return Ok(found),
            Ok(None) => {}
            Err(stop) => return Err(stop),
        }
    }
    Ok(SearchResult::Missing)
}

/// The file that is asked for in the file of the name `own`.
pub(crate) fn search_for<F: Files>(
    alloc: Global,
    files: &mut F,
    directories: &Texts,
    own: &[u8],
    wanted: &Wanted,
) -> Result<SearchResult, ReadingStop>
    ensures found { IfOk result
        (λ found. ForSome (F.contents files.old)
        (λ told. spec.search told (spec.names_for directories.now own.now (asked_for wanted.now)) ≡ found_by found)) }
    ensures size { IfOk result FoundHasRoom }
    ensures fault { IfErr result (λ stop. SearchStops stop (F.faults files.old) (F.faults files.new)) }
    ensures faults { OnOk result (F.faults files.new ≡ F.faults files.old) }
    ensures contents { F.contents files.new ≡ F.contents files.old }
    ensures later { F.faults files.old ≤ F.faults files.new }
{
    let mut names = Texts::new(alloc);
    put_names(alloc, &mut names, directories, own, wanted)?;
    search(alloc, files, names.as_slice())
}
