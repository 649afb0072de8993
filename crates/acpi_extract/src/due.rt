// What a call is to end with.
ghost use Rattle.std.specs.Prelude.{◌≡◌, ◌≤◌, ◌+◌, ◌<◌, ◌^◌, ◌++◌, [], ◌∷◌, ℕ, List, length, map, All, IfOk, OnOk, IsErrOf, ◌⊎◌, Some};
ghost use Rattle.std.specs.Prelude.{None, string_bytes};
ghost use Rattle.iasl_ports.specs.Fetched.{most_bytes};
ghost use Rattle.iasl_ports.specs.Delivery.{name_and_bytes, answer_of, IsSettled};
ghost use Rattle.iasl_messages.specs.Console.{summary_line, table_line};
ghost use Rattle.iasl_runs.specs.Ends.{files_seen, Decides};
ghost use Rattle.acpi_extract.specs.Dump.{stem_of, dump_of};
ghost use Rattle.acpi_extract.specs.Table.{dumped, message_of};
ghost use Rattle.acpi_extract.specs.Due.{file_name, file_of, line_of, success, refusal, usage, answer_to_dump, answer_for};
ghost use Rattle.acpi_extract.specs.Asking.{asked_by, request_by};

use crate::dump::{one_message, tables};
use crate::names::{Counts, file_name, next_number, stem};
use crate::table::{Table, Tables};
use crate::words::{Choice, Wish, is_asked, wish_of};
use iasl_messages::console::{listed_line, render, summary, table_line};
use iasl_messages::message::{Messages, Stage};
use iasl_messages::number::TEXT_IS_TOO_LARGE;
use iasl_ports::delivery::{Due, OutFile, Stop};
use iasl_ports::files::{FetchFault, Files};
use iasl_ports::list::{Text, Texts};
use std::alloc::{AllocError, Global};
use std::borrow::CowSlice;

// Adds a line to the text.
fn push_text(text: &mut Vec<u8>, line: &Text) -> Result<(), AllocError>
    ensures { OnOk result (text.new.items ≡ text.old.items ++ line.now) }
{
    text.extend_from_slice(line.as_bytes())
}

// Adds a file after the others.
fn push_file(
    files: &mut Vec<OutFile<'static>>,
    name: String,
    bytes: Vec<u8>,
) -> Result<(), AllocError>
    ensures { OnOk result
        (map name_and_bytes files.new.items ≡ map name_and_bytes files.old.items ++ (string_bytes name, bytes.items) ∷ []) }
{
    files.push(OutFile {
        name,
        bytes: CowSlice::Owned(bytes),
    })?;
    Ok(())
}

// Adds a table's file and its line, where both are due.
fn push_table(
    alloc: Global,
    files: &mut Vec<OutFile<'static>>,
    text: &mut Vec<u8>,
    name: String,
    table: Table,
) -> Result<(), AllocError>
    ensures files { OnOk result (map name_and_bytes files.new.items ≡ map name_and_bytes files.old.items
        ++ (string_bytes name, table.bytes) ∷ []) }
    ensures text { OnOk result (text.new.items ≡ text.old.items ++ table_line (string_bytes name) table.signature (length table.bytes)) }
{
    let line = table_line(
        alloc,
        name.as_bytes(),
        table.signature.as_bytes(),
        table.bytes.len() as u64,
    )?;
    push_text(text, &line)?;
    push_file(files, name, table.bytes.into_vec())
}

// Adds what is due of a table: its file and its line, or its line in a list, or nothing.
fn push_due(
    alloc: Global,
    files: &mut Vec<OutFile<'static>>,
    text: &mut Vec<u8>,
    choice: Choice<'_>,
    number: u64,
    stem: &str,
    table: Table,
) -> Result<(), AllocError>
    requires { stem.now ≡ stem_of table.signature }
    ensures files { OnOk result (map name_and_bytes files.new.items ≡ map name_and_bytes files.old.items ++ file_of (asked_by choice.entry)
        (number, dumped table)) }
    ensures text { OnOk result (text.new.items ≡ text.old.items ++ line_of (asked_by choice.entry) (number, dumped table)) }
{
    if let Choice::Listing = choice {
        let line = listed_line(alloc, table.signature.as_bytes(), table.bytes.len() as u64)?;
        return push_text(text, &line);
    }
    if !is_asked(choice, table.signature.as_bytes()) {
        return Ok(());
    }
    push_table(alloc, files, text, file_name(alloc, stem, number)?, table)
}

// What is due of a dump without fault.
fn succeed(alloc: Global, choice: Choice<'_>, tables: Tables) -> Result<Due<'static>, AllocError>
    ensures due { IfOk result (λ due. answer_of due ≡ success (asked_by choice.entry) (map dumped tables)) }
    ensures settled { IfOk result IsSettled }
{
    let mut files = Vec::new(alloc);
    let mut text = Vec::new(alloc);
    let mut counts = Counts::new(alloc);
    for table in tables.into_vec() {
        let stem = stem(alloc, table.signature.as_bytes())?;
        let number = next_number(alloc, &mut counts, &stem)?;
        push_due(alloc, &mut files, &mut text, choice, number, &stem, table)?;
    }
    push_text(&mut text, &summary(alloc, &Messages::new(alloc))?)?;
    Ok(Due {
        status: 0,
        text: Text::from_vec(alloc, text)?,
        files,
    })
}

// What is due of a dump with these faults.
pub(crate) fn refuse(
    alloc: Global,
    file: &str,
    messages: &Messages,
) -> Result<Due<'static>, AllocError>
    requires { All (λ m. m.place.file ≡ 0) messages.now }
    ensures due { IfOk result (λ due. answer_of due ≡ refusal file.now messages.now) }
    ensures settled { IfOk result IsSettled }
{
    let mut names = Texts::new(alloc);
    names.push(Text::from_bytes(alloc, file.as_bytes())?)?;
    let mut text = Vec::new(alloc);
    push_text(&mut text, &render(alloc, messages, &names, false)?)?;
    push_text(&mut text, &summary(alloc, messages)?)?;
    Ok(Due {
        status: 1,
        text: Text::from_vec(alloc, text)?,
        files: Vec::new(alloc),
    })
}

// What is due where the words are not good.
pub(crate) fn usage(alloc: Global) -> Result<Due<'static>, AllocError>
    ensures due { IfOk result (λ due. answer_of due ≡ usage) }
    ensures settled { IfOk result IsSettled }
{
    Ok(Due {
        status: 2,
        text: Text::from_bytes(alloc, b"usage: acpixtract [options] FILE\n")?,
        files: Vec::new(alloc),
    })
}

// What is due where the file has this text.
fn answer(alloc: Global, wish: Wish<'_>, text: &[u8]) -> Result<Due<'static>, AllocError>
    requires { length text.now ≤ most_bytes }
    ensures due { IfOk result (λ due. answer_of due ≡ answer_to_dump (request_by wish.entry) (dump_of text.now)) }
    ensures settled { IfOk result IsSettled }
{
    match tables(alloc, text) {
        Ok(tables) => succeed(alloc, wish.choice, tables),
        Err(Stage::Refused(messages)) => refuse(alloc, wish.file, &messages),
        Err(Stage::Memory) => Err(AllocError),
    }
}

// What is due where the file is too large.
fn too_large(alloc: Global, file: &str) -> Result<Due<'static>, AllocError>
    ensures due { IfOk result (λ due. answer_of due ≡ refusal file.now (message_of (6007, 1) ∷ [])) }
    ensures settled { IfOk result IsSettled }
{
    refuse(alloc, file, &one_message(alloc, TEXT_IS_TOO_LARGE, 1)?)
}

/// What is due for these words, where the file that they name is fetched. It ends without an answer only where the
/// file is absent, a fetch failed, or memory is wanted.
pub(crate) fn decide<F: Files>(
    alloc: Global,
    words: &[String],
    files: &mut F,
) -> Result<Due<'static>, Stop>
    ensures { Decides (answer_for (map string_bytes words.now)) result
        (files_seen (F.contents files.old) (F.faults files.old) (F.absents files.old))
        (files_seen (F.contents files.new) (F.faults files.new) (F.absents files.new)) }
{
    let Some(wish) = wish_of(words) else {
        return Ok(usage(alloc)?);
    };
    match files.fetch(alloc, wish.file) {
        Ok(text) => Ok(answer(alloc, wish, &text)?),
        Err(FetchFault::TooLarge) => Ok(too_large(alloc, wish.file)?),
        Err(FetchFault::Absent | FetchFault::Failed) => Err(Stop::Fault),
        Err(FetchFault::Memory) => Err(Stop::Memory),
    }
}
