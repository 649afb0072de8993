//! The names of what is put of tables, and whether one is in use.
ghost use Rattle.std.specs.Prelude.{◌≡◌, ◌||◌, ◌∷◌, ◌++◌, [], ℕ, List, IfOk, OnOk, cond, is_some, map, string_bytes};
ghost use Rattle.std.specs.Option.{option_map};
ghost use Rattle.std.specs.Str.{IsAscii};
ghost use Rattle.iasl_ports.specs.Fetched.{same_name};
ghost use Rattle.iasl_messages.specs.declared.place.Piece.{Piece};
ghost use Rattle.iasl_options.specs.Names.{further_name as name_beside};
ghost use Rattle.iasl_options.specs.Shown.{AreTexts, asked_of};
ghost use Rattle.table_outputs.specs.Files.{is_fetched, first_in_use, name_in_use, table_files};
ghost use Rattle.table_outputs.specs.Noted.{is_noted, NotesName};
ghost use Rattle.table_outputs.specs.Decision.{file_under, table_files_under, all_files, table_kinds, kinds_in};

use crate::decision::{TableNames, TableOutputs};
use iasl_options::names::{further_name, table_name};
use iasl_options::request::Options;
use iasl_options::switches::Switches;
use iasl_ports::list::Text;
use indexmap::IndexSet;
use std::alloc::{AllocError, Global};

// The name of a further output, where that is asked for.
fn name_where(
    alloc: Global,
    asked: bool,
    options: &Options,
    own: &Text,
    extension: &str,
) -> Result<Option<String>, AllocError>
    requires texts { AreTexts options.now }
    requires own { IsAscii own.now }
    ensures file { (text : List ℕ) →
        IfOk result
        (λ name. file_under (λ name. string_bytes name) name text ≡ cond asked
        ((name_beside options.now.prefix options.now.file own.now extension.now, text) ∷ []) []) }
    ensures kind { IfOk result (λ name. is_some name ≡ asked) }
{
    if asked {
        Ok(Some(further_name(alloc, options, own, extension)?))
    } else {
        Ok(None)
    }
}

/// The names of what is put of a table (docs/OPTIONS.md).
pub fn names_of_table(
    alloc: Global,
    options: &Options,
    own: &Text,
) -> Result<TableNames, AllocError>
    requires texts { AreTexts options.now }
    requires own { IsAscii own.now }
    ensures files { (pieces : List Piece) →
        IfOk result (λ names. table_files_under names pieces ≡ table_files (asked_of options.now) options.now.file own.now pieces) }
    ensures kinds { IfOk result (λ names. table_kinds names ≡ kinds_in (asked_of options.now)) }
{
    let Switches {
        c_text,
        listing,
        ..
    } = options.switches;
    Ok(TableNames {
        table: table_name(alloc, options, own)?,
        c_text: name_where(alloc, c_text, options, own, ".hex")?,
        listing: name_where(alloc, listing, options, own, ".lst")?,
    })
}

fn copy_of(alloc: Global, name: &[u8]) -> Result<Vec<u8>, AllocError>
    ensures { IfOk result (λ copy. copy.items ≡ name.now) }
{
    name.to_vec(alloc)
}

// Notes a name, and says whether it was noted before.
fn note(alloc: Global, noted: &mut IndexSet<Vec<u8>>, name: &[u8]) -> Result<bool, AllocError>
    ensures before { IfOk result (λ before. before ≡ is_noted noted.old (λ key. key.items) name.now) }
    ensures noted { OnOk result (NotesName noted.old noted.new (λ key. key.items) name.now) }
{
    let copy = copy_of(alloc, name)?;
    let (_, is_new) = noted.insert_full(copy)?;
    Ok(!is_new)
}

// The names of files, noted.
fn noted_files(alloc: Global, files: &[Text]) -> Result<IndexSet<Vec<u8>>, AllocError>
    ensures { IfOk result (λ noted. (name : List ℕ) → is_noted noted (λ key. key.items) name ≡ is_fetched files.now name) }
{
    let mut noted = IndexSet::new(alloc);
    for file in files {
        note(alloc, &mut noted, file.as_bytes())?;
    }
    Ok(noted)
}

// The first of some names that is in use. They are noted from the last on, so that each meets those behind it.
fn first_in_use<'a>(
    alloc: Global,
    files: &[Text],
    names: &[&'a String],
) -> Result<Option<&'a String>, AllocError>
    ensures { IfOk result
        (λ found. option_map (λ name. string_bytes name.now) found
        ≡ first_in_use files.now (map (λ name. string_bytes name.now) names.now)) }
{
    let mut noted = noted_files(alloc, files)?;
    let mut found = None;
    for i in (0..names.len()).rev() {
        let name = names[i];
        if note(alloc, &mut noted, name.as_bytes())? {
            found = Some(name);
        }
    }
    Ok(found)
}

// Adds a name, where there is one.
fn push_name<'a>(names: &mut Vec<&'a String>, name: &'a Option<String>) -> Result<(), AllocError>
    ensures { (text : List ℕ) →
        OnOk result (map (λ name. string_bytes name.now) names.new.items ≡ map (λ name. string_bytes name.now) names.old.items
        ++ map (λ file. file.0) (file_under (λ name. string_bytes name) name.now text)) }
{
    match name {
        Some(name) => Ok(names.push(name)?),
        None => Ok(()),
    }
}

// Adds the names of what is put of a table.
fn push_names<'a>(names: &mut Vec<&'a String>, table: &'a TableNames) -> Result<(), AllocError>
    ensures { (pieces : List Piece) →
        OnOk result (map (λ name. string_bytes name.now) names.new.items ≡ map (λ name. string_bytes name.now) names.old.items
        ++ map (λ file. file.0) (table_files_under table.now pieces)) }
{
    names.push(&table.table)?;
    push_name(names, &table.c_text)?;
    push_name(names, &table.listing)?;
    Ok(())
}

/// The first name in the order of the files of tables that a fetched file has, or another of them. It takes time that grows
/// with the number of the names, and not faster.
pub fn name_in_use<'a>(
    alloc: Global,
    files: &[Text],
    tables: &'a [TableOutputs],
) -> Result<Option<&'a String>, AllocError>
    ensures { IfOk result (λ name. option_map (λ name. string_bytes name.now) name ≡ name_in_use files.now (all_files tables.now)) }
{
    let mut names = Vec::new(alloc);
    for table in tables {
        push_names(&mut names, &table.names)?;
    }
    first_in_use(alloc, files, &names)
}

/// Whether a file of this name was fetched.
pub fn is_fetched(files: &[Text], name: &[u8]) -> bool
    ensures { result ≡ is_fetched files.now name.now }
{
    files.iter().any(|file| file.as_bytes() == name)
}
