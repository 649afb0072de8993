//! The outputs of a call, which a list of boxes makes, and lends for the last table.
ghost use Rattle.std.specs.Prelude.{◌≡◌, ◌++◌, ◌∷◌, [], List, map, string_bytes, is_some, true, IfOk, OnOk};
ghost use Rattle.std.specs.List.{All};
ghost use Rattle.iasl_ports.specs.Delivery.{answer_of, name_and_bytes, IsSettled};
ghost use Rattle.iasl_messages.specs.declared.place.Piece.{Piece as SpecPiece};
ghost use Rattle.iasl_backends.specs.declared.backend.Kind.TheVariants as kinds;
ghost use Rattle.iasl_backends.specs.declared.backend.Kind.{Kind as SpecKind};
ghost use Rattle.iasl_backends.specs.Asked.{has_kind, is_asked, IsOneOfEach};
ghost use Rattle.iasl_backends.specs.Rendering.{rendering};
ghost use Rattle.iasl_backends.specs.Each.{Each};
ghost use Rattle.table_outputs.specs.Decision.{file_under, table_files_under, all_files, files_under, table_kinds, kinds_of, HaveKinds};
ghost use Rattle.table_outputs.specs.Decision.{SameKinds, IsRendered, IsDueOfRendered};
ghost use Rattle.table_outputs.specs.Boxes.{HoldsAsked, ChangesBy, HoldsOutputs, HoldsTexts};

use crate::decision::{Decision, Making, OutputNames, TableNames, TableOutputs};
use iasl_backends::asked::Asked;
use iasl_backends::backend::{Backend, Kind};
use iasl_backends::lent::{keep_asked, render_all, rendered_text};
use iasl_messages::place::Pieces;
use iasl_ports::delivery::{Due, OutFile, Stop};
use iasl_ports::list::Text;
use std::alloc::{AllocError, Global};
use std::borrow::CowSlice;
use std::mem::forget;

/// What was decided, with the texts of its outputs made: those of tables before the last in files of their own, and those of the last in
/// the boxes.
#[derive(Drop)]
pub enum Rendered {
    Ended(Due<'static>),
    Made {
        text: Text,
        earlier: Vec<OutFile<'static>>,
        names: OutputNames,
        pieces: Pieces,
    },
}

// The kinds of outputs that have names.
fn asked_of(names: &OutputNames) -> Asked
    ensures { result ≡ kinds_of names.now }
{
    match names {
        OutputNames::OfTable(names) => Asked {
            template: false,
            c_text: names.c_text.is_some(),
            listing: names.listing.is_some(),
        },
        OutputNames::OfTemplate(_) => Asked {
            template: true,
            c_text: false,
            listing: false,
        },
    }
}

// Adds a file with a copy of the text of an output.
fn push_copy(
    alloc: Global,
    backends: &Vec<Box<dyn Backend>>,
    kind: Kind,
    name: &String,
    files: &mut Vec<OutFile<'static>>,
) -> Result<(), AllocError>
    requires done { All (λ b. finished b ≡ true) backends.now.items }
    requires there { has_kind (λ b. kind_of b) kind backends.now.items ≡ true }
    ensures { (all : List SpecPiece) → All (λ b. pieces b ≡ all) backends.now.items →
        OnOk result (map name_and_bytes files.new.items ≡ map name_and_bytes files.old.items ++ (string_bytes name.now, rendering kind all)
        ∷ []) }
{
    let mut bytes = Vec::new(alloc);
    bytes.extend_from_slice(rendered_text(backends, kind))?;
    let name = name.clone()?;
    files.push(OutFile {
        name,
        bytes: CowSlice::Owned(bytes),
    })?;
    Ok(())
}

// Adds a file with a copy of the text of an output, where that has a name.
fn push_copy_named(
    alloc: Global,
    backends: &Vec<Box<dyn Backend>>,
    kind: Kind,
    name: &Option<String>,
    files: &mut Vec<OutFile<'static>>,
) -> Result<(), AllocError>
    requires done { All (λ b. finished b ≡ true) backends.now.items }
    requires there { is_some name.now ≡ true → has_kind (λ b. kind_of b) kind backends.now.items ≡ true }
    ensures { (all : List SpecPiece) → All (λ b. pieces b ≡ all) backends.now.items →
        OnOk result (map name_and_bytes files.new.items ≡ map name_and_bytes files.old.items ++ file_under (λ name. string_bytes name)
        name.now (rendering kind all)) }
{
    match name {
        Some(name) => push_copy(alloc, backends, kind, name, files),
        None => Ok(()),
    }
}

// Adds the files of a table whose outputs the boxes hold, with copies of their texts.
fn push_copies(
    alloc: Global,
    backends: &Vec<Box<dyn Backend>>,
    names: &TableNames,
    files: &mut Vec<OutFile<'static>>,
) -> Result<(), AllocError>
    requires done { All (λ b. finished b ≡ true) backends.now.items }
    requires there { (kind : SpecKind) → is_asked (table_kinds names.now) kind ≡ true → has_kind (λ b. kind_of b) kind backends.now.items ≡
        true }
    ensures { (all : List SpecPiece) → All (λ b. pieces b ≡ all) backends.now.items →
        OnOk result (map name_and_bytes files.new.items ≡ map name_and_bytes files.old.items ++ table_files_under names.now all) }
{
    push_copy(alloc, backends, Kind::RawAml, &names.table, files)?;
    push_copy_named(alloc, backends, Kind::CHex, &names.c_text, files)?;
    push_copy_named(alloc, backends, Kind::Listing, &names.listing, files)?;
    Ok(())
}

// Makes the outputs of a table, and copies their texts into files. The boxes hold the kinds that are asked for.
fn copy_table(
    alloc: Global,
    backends: &mut Vec<Box<dyn Backend>>,
    table: &TableOutputs,
    files: &mut Vec<OutFile<'static>>,
) -> Result<(), AllocError>
    requires there { (kind : SpecKind) → is_asked (table_kinds table.now.names) kind ≡ true →
        has_kind (λ b. kind_of b) kind backends.old.items ≡ true }
    ensures files { OnOk result (map name_and_bytes files.new.items ≡ map name_and_bytes files.old.items
        ++ table_files_under table.now.names table.now.pieces) }
    ensures kept { Each (λ b c. kind_of c ≡ kind_of b) backends.old.items backends.new.items }
{
    render_all(backends, table.pieces.as_slice())?;
    push_copies(alloc, backends, &table.names, files)
}

// Makes the outputs of tables, each in turn, and copies their texts into files. The boxes hold the kinds that are asked for.
fn copy_tables(
    alloc: Global,
    backends: &mut Vec<Box<dyn Backend>>,
    kinds: Asked,
    tables: &[TableOutputs],
) -> Result<Vec<OutFile<'static>>, AllocError>
    requires there { (kind : SpecKind) → is_asked kinds kind ≡ true → has_kind (λ b. kind_of b) kind backends.old.items ≡ true }
    requires kinds { HaveKinds kinds tables.now }
    ensures files { IfOk result (λ files. map name_and_bytes files.items ≡ all_files tables.now) }
    ensures kept { Each (λ b c. kind_of c ≡ kind_of b) backends.old.items backends.new.items }
{
    let mut files = Vec::new(alloc);
    for table in tables {
        copy_table(alloc, backends, table, &mut files)?;
    }
    Ok(files)
}

// Makes the texts of the outputs that are asked for: those of tables before the last are copied, and the boxes hold those of the last.
fn make(
    alloc: Global,
    backends: &mut Vec<Box<dyn Backend>>,
    making: &Making,
) -> Result<Vec<OutFile<'static>>, AllocError>
    requires boxes { IsOneOfEach (λ b. kind_of b) backends.old.items }
    requires kinds { HaveKinds (kinds_of making.now.names) making.now.earlier }
    ensures files { IfOk result (λ files. map name_and_bytes files.items ≡ all_files making.now.earlier) }
    ensures held { HoldsAsked (λ b. kind_of b) (kinds_of making.now.names) backends.old.items backends.new.items }
    ensures texts { OnOk result
        (HoldsTexts (λ b. kind_of b) (λ b. pieces b) (λ b. finished b) making.now.names making.now.pieces backends.new.items) }
{
    let asked = asked_of(&making.names);
    keep_asked(backends, asked);
    let files = copy_tables(alloc, backends, asked, making.earlier.as_slice())?;
    render_all(backends, making.pieces.as_slice())?;
    Ok(files)
}

/// Makes the texts of the outputs of what was decided, where there are any. The boxes of other kinds are let go then.
pub fn render(
    alloc: Global,
    backends: &mut Vec<Box<dyn Backend>>,
    decided: Result<Decision, Stop>,
) -> Result<Rendered, Stop>
    requires boxes { IsOneOfEach (λ b. kind_of b) backends.old.items }
    requires kinds { IfOk decided SameKinds }
    ensures rendered { IsRendered decided result }
    ensures boxes { ChangesBy (λ b. kind_of b) (λ b. pieces b) (λ b. finished b) decided result backends.old.items backends.new.items }
    ensures outputs { HoldsOutputs (λ b. kind_of b) (λ b. pieces b) (λ b. finished b) result backends.new.items }
{
    match decided {
        Ok(Decision::Makes(making)) => {
            let earlier = make(alloc, backends, &making)?;
            let Making {
                text,
                earlier: _,
                names,
                pieces,
            } = making;
            Ok(Rendered::Made {
                text,
                earlier,
                names,
                pieces,
            })
        }
        Ok(Decision::Ends(due)) => Ok(Rendered::Ended(due)),
        Err(stop) => Err(stop),
    }
}

// The file with the text of an output, which a box lends.
fn file_of<'a>(backends: &'a Vec<Box<dyn Backend>>, kind: Kind, name: String) -> OutFile<'a>
    requires done { All (λ b. finished b ≡ true) backends.now.items }
    requires there { has_kind (λ b. kind_of b) kind backends.now.items ≡ true }
    ensures { (all : List SpecPiece) → All (λ b. pieces b ≡ all) backends.now.items →
        name_and_bytes result ≡ (string_bytes name, rendering kind all) }
{
    OutFile {
        name,
        bytes: CowSlice::Borrowed(rendered_text(backends, kind)),
    }
}

// Adds the file with the text of an output, where that has a name.
fn push_named<'a>(
    backends: &'a Vec<Box<dyn Backend>>,
    kind: Kind,
    name: Option<String>,
    files: &mut Vec<OutFile<'a>>,
) -> Result<(), AllocError>
    requires done { All (λ b. finished b ≡ true) backends.now.items }
    requires there { is_some name ≡ true → has_kind (λ b. kind_of b) kind backends.now.items ≡ true }
    ensures { (all : List SpecPiece) → All (λ b. pieces b ≡ all) backends.now.items →
        OnOk result (map name_and_bytes files.new.items ≡ map name_and_bytes files.old.items ++ file_under (λ name. string_bytes name) name
        (rendering kind all)) }
{
    if let Some(name) = name {
        files.push(file_of(backends, kind, name))?;
    }
    Ok(())
}

// The files with the texts of a table's outputs, behind others.
fn table_files_of<'a>(
    backends: &'a Vec<Box<dyn Backend>>,
    names: TableNames,
    earlier: Vec<OutFile<'a>>,
) -> Result<Vec<OutFile<'a>>, AllocError>
    requires done { All (λ b. finished b ≡ true) backends.now.items }
    requires table { has_kind (λ b. kind_of b) kinds.RawAml backends.now.items ≡ true }
    requires c_text { is_some names.c_text ≡ true → has_kind (λ b. kind_of b) kinds.CHex backends.now.items ≡ true }
    requires listing { is_some names.listing ≡ true → has_kind (λ b. kind_of b) kinds.Listing backends.now.items ≡ true }
    ensures { (all : List SpecPiece) → All (λ b. pieces b ≡ all) backends.now.items →
        IfOk result (λ files. map name_and_bytes files.items ≡ map name_and_bytes earlier.entry.items ++ table_files_under names all) }
{
    let TableNames {
        table,
        c_text,
        listing,
    } = names;
    let mut files = earlier;
    files.push(file_of(backends, Kind::RawAml, table))?;
    push_named(backends, Kind::CHex, c_text, &mut files)?;
    push_named(backends, Kind::Listing, listing, &mut files)?;
    Ok(files)
}

// The file with the text of a template, behind others.
fn template_file_of<'a>(
    backends: &'a Vec<Box<dyn Backend>>,
    name: String,
    earlier: Vec<OutFile<'a>>,
) -> Result<Vec<OutFile<'a>>, AllocError>
    requires done { All (λ b. finished b ≡ true) backends.now.items }
    requires there { has_kind (λ b. kind_of b) kinds.Template backends.now.items ≡ true }
    ensures { (all : List SpecPiece) → All (λ b. pieces b ≡ all) backends.now.items →
        IfOk result (λ files. map name_and_bytes files.items ≡ map name_and_bytes earlier.entry.items
        ++ (string_bytes name, rendering kinds.Template all) ∷ []) }
{
    let mut files = earlier;
    files.push(file_of(backends, Kind::Template, name))?;
    Ok(files)
}

// The files with the texts of the last outputs, behind others.
fn files_of<'a>(
    backends: &'a Vec<Box<dyn Backend>>,
    names: OutputNames,
    earlier: Vec<OutFile<'a>>,
) -> Result<Vec<OutFile<'a>>, AllocError>
    requires done { All (λ b. finished b ≡ true) backends.now.items }
    requires there { (kind : SpecKind) → is_asked (kinds_of names) kind ≡ true → has_kind (λ b. kind_of b) kind backends.now.items ≡ true }
    ensures { (all : List SpecPiece) → All (λ b. pieces b ≡ all) backends.now.items →
        IfOk result (λ files. map name_and_bytes files.items ≡ map name_and_bytes earlier.entry.items ++ files_under names all) }
{
    match names {
        OutputNames::OfTable(names) => table_files_of(backends, names, earlier),
        OutputNames::OfTemplate(name) => template_file_of(backends, name, earlier),
    }
}

// What is due of outputs, of the last of which the boxes hold the texts.
fn due_of_outputs<'a>(
    backends: &'a Vec<Box<dyn Backend>>,
    text: Text,
    earlier: Vec<OutFile<'a>>,
    names: OutputNames,
    table: Pieces,
) -> Result<Due<'a>, AllocError>
    requires { HoldsTexts (λ b. kind_of b) (λ b. pieces b) (λ b. finished b) names table backends.now.items }
    ensures due { IfOk result
        (λ due. answer_of due
        ≡ record { status = 0; text = text; due = map name_and_bytes earlier.entry.items ++ files_under names table }) }
    ensures settled { IfOk result IsSettled }
{
    // the process ends behind the files, so nobody needs the room of the pieces
    forget(table);
    Ok(Due {
        status: 0,
        text,
        files: files_of(backends, names, earlier)?,
    })
}

/// What is due of what was decided, where the boxes hold the last outputs, if there are any: they lend their texts to the files.
pub fn lend<'a>(
    backends: &'a Vec<Box<dyn Backend>>,
    rendered: Result<Rendered, Stop>,
) -> Result<Due<'a>, Stop>
    requires { HoldsOutputs (λ b. kind_of b) (λ b. pieces b) (λ b. finished b) rendered backends.now.items }
    ensures { IsDueOfRendered rendered result }
{
    match rendered {
        Ok(
            Rendered::Made {
                text,
                earlier,
                names,
                pieces,
            },
        ) => Ok(due_of_outputs(backends, text, earlier, names, pieces)?),
        Ok(Rendered::Ended(due)) => Ok(due),
        Err(stop) => Err(stop),
    }
}
