//! What a call is to end with.
ghost use Rattle.std.specs.Prelude.{◌≡◌, ◌≤◌, ◌<◌, ◌^◌, ◌++◌, ◌&&◌, [], ◌∷◌, ℕ, List, length, map, All, IfOk, IfErr, OnOk, IsErrOf, ◌⊎◌};
ghost use Rattle.std.specs.Prelude.{Some, None, string_bytes, false};
ghost use Rattle.iasl_ports.specs.Delivery.{name_and_bytes, answer_of, IsSettled};
ghost use Rattle.iasl_runs.specs.Ends.{files_seen};
ghost use Rattle.iasl_options.specs.Task.{task_by};
ghost use Rattle.iasl_messages.specs.declared.place.Piece.{Piece as SpecPiece};
ghost use Rattle.asl_preprocess.specs.Sound.{IsGoodLine, IsGoodNote};
ghost use Rattle.iasl_options.specs.Shown.{AreTexts, asked_of};
ghost use Rattle.iasl_options.specs.Asking.{Asked};
ghost use Rattle.asl_tables.specs.Compiled.{AreWithin, HaveAsciiNames};
ghost use Rattle.iasl_tool.specs.Sources.{of_source};
ghost use Rattle.iasl_backends.specs.Table.{table_bytes};
ghost use Rattle.table_outputs.specs.Decision.{end_of, all_files, kinds_in, HaveKinds, IsDecidedBy, IsDecidedFor, IsMadeOf, Settles};
ghost use Rattle.iasl_tool.specs.Outputs.{PutsTable, AreOutputsOf, last_made};
ghost use Rattle.iasl_tool.specs.Due.{console_text, refusal, made_files, in_use, has_warning, made_or_refused, lines_of_tables};
ghost use Rattle.iasl_tool.specs.Due.{files_of_tables, last_pieces, text_of_lines, answer_to_text, answer_to_compiled, answer_to_lines};
ghost use Rattle.iasl_tool.specs.Due.{answer_to_file, usage, answer_for, pieces_of_lines, pieces_of_file, pieces_for, style_of as style_by};
ghost use Rattle.iasl_messages.specs.declared.severity.Severity.TheVariants.{Warning};
ghost use Rattle.iasl_messages.specs.Severity.{severity_of, is_same};
ghost use Rattle.iasl_messages.specs.Console.{table_line};
ghost use Rattle.std.specs.Str.{IsAscii};

use crate::generated::answer_to_generated;
use crate::source::compile_source;
use crate::template::answer_to_template;
use crate::told::{counted, is_ignored, shown};
use asl_preprocess::{PreStop, Preprocessed, preprocess};
use asl_tables::compile::Style;
use block_outcomes::messages::{both, one_message};
use block_outcomes::outcome::{Compiled, Table, Tables};
use iasl_messages::console::{preprocessed_line, render, summary, table_line};
use iasl_messages::message::{Message, Messages};
use iasl_messages::order::sort;
use iasl_messages::place::{Line, Lines, Piece};
use iasl_messages::severity::{Severity, severity_of};
use iasl_options::names::{file_name, output_name};
use iasl_options::request::{Options, WordsStop};
use iasl_options::switches::Switches;
use iasl_options::task::{Task, task_of};
use iasl_ports::delivery::{Due, OutFile, Stop};
use iasl_ports::files::Files;
use iasl_ports::list::{List, Text, Texts};
use std::alloc::{AllocError, Global};
use std::borrow::CowSlice;
use std::mem::forget;
use table_outputs::decision::{Decision, Making, OutputNames, TableList, TableOutputs};
use table_outputs::names::{is_fetched, name_in_use, names_of_table};

// Adds a line to the text.
fn push_text(text: &mut Vec<u8>, line: &Text) -> Result<(), AllocError>
    ensures { OnOk result (text.new.items ≡ text.old.items ++ line.now) }
{
    text.extend_from_slice(line.as_bytes())
}

// The messages that count in order, those of them that are told, a line of what was made, and how many messages there are.
pub(crate) fn console_text(
    alloc: Global,
    switches: Switches,
    ignored: &Texts,
    files: &Texts,
    messages: Messages,
    made: &Text,
) -> Result<Text, AllocError>
    requires { AreWithin (length files.now) messages }
    ensures { IfOk result (λ text. text ≡ console_text switches ignored.now files.now messages made.now) }
{
    let sorted = sort(alloc, counted(ignored, messages))?;
    let counts = summary(alloc, &sorted)?;
    let told = shown(switches, sorted);
    let mut text = Vec::new(alloc);
    push_text(&mut text, &render(alloc, &told, files, switches.brief)?)?;
    push_text(&mut text, made)?;
    push_text(&mut text, &counts)?;
    Text::from_vec(alloc, text)
}

// What is due of a source that is refused, with these errors and notes.
fn refuse(
    alloc: Global,
    options: &Options,
    files: &Texts,
    messages: Messages,
) -> Result<Due<'static>, AllocError>
    requires { AreWithin (length files.now) messages }
    ensures due { IfOk result (λ due. answer_of due ≡ refusal (asked_of options.now) files.now messages) }
    ensures settled { IfOk result IsSettled }
{
    Ok(Due {
        status: 1,
        text: console_text(
            alloc,
            options.switches,
            &options.ignored,
            files,
            messages,
            &Text::new(alloc),
        )?,
        files: Vec::new(alloc),
    })
}

// The decision of a source that is refused, with these errors and notes.
fn decide_refusal(
    alloc: Global,
    options: &Options,
    files: &Texts,
    messages: Messages,
) -> Result<Decision, AllocError>
    requires { AreWithin (length files.now) messages }
    ensures due { IfOk result (λ decision. end_of decision ≡ refusal (asked_of options.now) files.now messages) }
    ensures decided { (asked : Asked) → IfOk result (IsDecidedBy asked) }
    ensures made { (all : List SpecPiece) → IfOk result (IsMadeOf all) }
{
    Ok(Decision::Ends(refuse(alloc, options, files, messages)?))
}

fn one_file(
    alloc: Global,
    name: String,
    bytes: Vec<u8>,
) -> Result<Vec<OutFile<'static>>, AllocError>
    ensures { IfOk result (λ files. map name_and_bytes files.items ≡ (string_bytes name, bytes.items) ∷ []) }
{
    let mut files = Vec::new(alloc);
    files.push(OutFile {
        name,
        bytes: CowSlice::Owned(bytes),
    })?;
    Ok(files)
}

// What is due of a file that is made.
fn make_file(
    alloc: Global,
    options: &Options,
    files: &Texts,
    notes: Messages,
    line: &Text,
    name: String,
    bytes: Vec<u8>,
) -> Result<Due<'static>, AllocError>
    requires { AreWithin (length files.now) notes }
    ensures due { IfOk result (λ due. answer_of due ≡ made_files (asked_of options.now) files.now notes line.now ((string_bytes name, bytes.items) ∷ [])) }
    ensures settled { IfOk result IsSettled }
{
    Ok(Due {
        status: 0,
        text: console_text(
            alloc,
            options.switches,
            &options.ignored,
            files,
            notes,
            line,
        )?,
        files: one_file(alloc, name, bytes)?,
    })
}

// What is due where a fetched file has the name of an output.
fn refuse_name(alloc: Global, name: &str) -> Result<Due<'static>, AllocError>
    ensures due { IfOk result (λ due. answer_of due ≡ in_use name.now) }
    ensures settled { IfOk result IsSettled }
{
    let mut text = Vec::new(alloc);
    text.extend_from_slice(b"iasl: output name is in use: ")?;
    text.extend_from_slice(name.as_bytes())?;
    text.extend_from_slice(b"\n")?;
    Ok(Due {
        status: 2,
        text: Text::from_vec(alloc, text)?,
        files: Vec::new(alloc),
    })
}

// The decision where a fetched file has the name of an output.
fn decide_in_use(alloc: Global, name: &str) -> Result<Decision, AllocError>
    ensures due { IfOk result (λ decision. end_of decision ≡ in_use name.now) }
    ensures decided { (asked : Asked) → IfOk result (IsDecidedBy asked) }
    ensures made { (all : List SpecPiece) → IfOk result (IsMadeOf all) }
{
    Ok(Decision::Ends(refuse_name(alloc, name)?))
}

// Whether the message of this number is a warning.
fn is_warning(number: u16) -> bool
    ensures { result ≡ is_same Warning (severity_of number) }
{
    matches!(severity_of(number), Severity::Warning)
}

// Whether one of the messages that count is a warning.
fn has_warning(ignored: &Texts, messages: &Messages) -> bool
    ensures { result ≡ has_warning ignored.now messages.now }
{
    messages.as_slice().iter().any(|message| is_warning(message.number)
        && !is_ignored(ignored, message.number))
}

// Whether a warning among the notes refuses what is made.
fn is_refused(options: &Options, notes: &Messages) -> bool
    ensures { result ≡ ((asked_of options.now).switches.strict && has_warning (asked_of options.now).ignored notes.now) }
{
    options.switches.strict && has_warning(&options.ignored, notes)
}

// What is due of a file that is made, if no warning refuses it and its name is not in use.
fn make_or_refuse(
    alloc: Global,
    options: &Options,
    files: &Texts,
    notes: Messages,
    line: &Text,
    name: String,
    bytes: Vec<u8>,
) -> Result<Due<'static>, AllocError>
    requires { AreWithin (length files.now) notes }
    ensures due { IfOk result (λ due. answer_of due ≡ made_or_refused (asked_of options.now) files.now notes line.now
        ((string_bytes name, bytes.items) ∷ [])) }
    ensures settled { IfOk result IsSettled }
{
    if is_refused(options, &notes) {
        refuse(alloc, options, files, notes)
    } else if is_fetched(files.as_slice(), name.as_bytes()) {
        refuse_name(alloc, &name)
    } else {
        make_file(alloc, options, files, notes, line, name, bytes)
    }
}

// The lines, each with an LF behind it.
#[tactic(auto, using(crate::proofs::Texts::one_more_line, crate::proofs::Texts::no_line))]
fn text_of_lines(alloc: Global, lines: &[Line]) -> Result<Vec<u8>, AllocError>
    ensures { IfOk result (λ text. text.items ≡ text_of_lines lines.now) }
{
    let mut text = Vec::new(alloc);
    for line in lines {
        text.extend_from_slice(line.text.as_bytes())?;
        text.push(b'\n')?;
    }
    Ok(text)
}

// What is due of preprocessed lines that are all that is asked for.
fn make_text(
    alloc: Global,
    options: &Options,
    lines: &Lines,
    notes: Messages,
) -> Result<Due<'static>, AllocError>
    requires texts { AreTexts options.now }
    requires notes { AreWithin (length lines.now.files) notes }
    ensures due { IfOk result (λ due. answer_of due ≡ answer_to_text (asked_of options.now) options.now.file lines.now.files lines.now.list
        notes) }
    ensures settled { IfOk result IsSettled }
{
    let name = output_name(alloc, options, ".i")?;
    let line = preprocessed_line(alloc, name.as_bytes())?;
    let text = text_of_lines(alloc, lines.list.as_slice())?;
    make_or_refuse(alloc, options, &lines.files, notes, &line, name, text)
}

// How many bytes pieces have together. No memory has more than 64 bits can count.
#[tactic(auto, using(crate::proofs::Bytes::length_more, crate::proofs::Bytes::first_bytes))]
fn size_of(pieces: &[Piece]) -> Result<u64, AllocError>
    ensures size { IfOk result (λ size. size ≡ length (table_bytes pieces.now)) }
    ensures full { IfErr result (λ _. 2 ^ 64 ≤ length (table_bytes pieces.now)) }
{
    let mut size: u64 = 0;
    for piece in pieces {
        let more = piece.bytes.as_bytes().len() as u64;
        match size.checked_add(more) {
            Some(together) => size = together,
            None => return Err(AllocError),
        }
    }
    Ok(size)
}

// Adds the line of a table in pieces whose file has this name.
fn push_line(
    alloc: Global,
    lines: &mut Vec<u8>,
    name: &[u8],
    signature: &[u8],
    pieces: &[Piece],
) -> Result<(), AllocError>
    ensures { OnOk result (lines.new.items ≡ lines.old.items ++ table_line name.now signature.now (length (table_bytes pieces.now))) }
{
    let line = table_line(alloc, name, signature, size_of(pieces)?)?;
    push_text(lines, &line)
}

// The lines that tell of tables, and what is put of them.
#[derive(Drop)]
struct Outputs {
    lines: Vec<u8>,
    tables: TableList,
}

// Adds a table to others.
fn push_table(
    alloc: Global,
    options: &Options,
    all: &mut Outputs,
    table: Table,
) -> Result<(), AllocError>
    requires texts { AreTexts options.now }
    requires own { IsAscii table.own }
    ensures { OnOk result (PutsTable (asked_of options.now) options.now.file table all.old all.new) }
{
    let Table {
        signature,
        own,
        pieces,
    } = table;
    let names = names_of_table(alloc, options, &own)?;
    push_line(
        alloc,
        &mut all.lines,
        names.table.as_bytes(),
        signature.as_bytes(),
        pieces.as_slice(),
    )?;
    all.tables.push(TableOutputs { names, pieces })?;
    Ok(())
}

// The lines that tell of some tables, and what is put of these.
fn outputs_of(alloc: Global, options: &Options, tables: Tables) -> Result<Outputs, AllocError>
    requires texts { AreTexts options.now }
    requires own { HaveAsciiNames tables }
    ensures { IfOk result (AreOutputsOf (asked_of options.now) options.now.file tables) }
{
    let mut all = Outputs {
        lines: Vec::new(alloc),
        tables: TableList::new(alloc),
    };
    let mut left = tables.into_vec();
    left.reverse();
    while let Some(table) = left.pop() {
        push_table(alloc, options, &mut all, table)?;
    }
    Ok(all)
}

// The last of some tables, which is taken off.
fn take_last(tables: &mut Vec<TableOutputs>) -> TableOutputs
    requires { 0 < length tables.old.items }
    ensures { tables.old.items ≡ tables.new.items ++ result ∷ [] }
{
    match tables.pop() {
        Some(table) => table,
        None => unreachable!(),
    }
}

// The decision to put tables, of which there is one, with this text of the console.
fn decide_made(text: Text, tables: TableList) -> Decision
    requires { 0 < length tables }
    ensures due { end_of result ≡ record { status = 0; text = text; due = all_files tables } }
    ensures decided { (asked : Asked) → asked.only ≡ false → HaveKinds (kinds_in asked) tables → IsDecidedBy asked result }
    ensures made { IsMadeOf (last_made tables) result }
{
    let mut earlier = tables.into_vec();
    let TableOutputs { names, pieces } = take_last(&mut earlier);
    Decision::Makes(Making {
        text,
        earlier: TableList::from_vec(earlier),
        names: OutputNames::OfTable(names),
        pieces,
    })
}

// What is due of tables in pieces, with a further line of the console behind those of the tables.
fn make_tables(
    alloc: Global,
    options: &Options,
    files: &Texts,
    notes: Messages,
    tables: Tables,
    more: &Text,
) -> Result<Decision, AllocError>
    requires texts { AreTexts options.now }
    requires some { 0 < length tables }
    requires own { HaveAsciiNames tables }
    requires compiles { options.now.only ≡ false }
    requires notes { AreWithin (length files.now) notes }
    ensures due { IfOk result (λ decision. end_of decision ≡ made_or_refused (asked_of options.now) files.now notes
        (lines_of_tables (asked_of options.now) options.now.file tables ++ more.now)
        (files_of_tables (asked_of options.now) options.now.file tables)) }
    ensures decided { IfOk result (IsDecidedBy (asked_of options.now)) }
    ensures made { IfOk result (IsMadeOf (last_pieces tables)) }
{
    if is_refused(options, &notes) {
        return decide_refusal(alloc, options, files, notes);
    }
    let Outputs { mut lines, tables } = outputs_of(alloc, options, tables)?;
    if let Some(name) = name_in_use(alloc, files.as_slice(), tables.as_slice())? {
        return decide_in_use(alloc, name);
    }
    push_text(&mut lines, more)?;
    let line = Text::from_vec(alloc, lines)?;
    let text = console_text(
        alloc,
        options.switches,
        &options.ignored,
        files,
        notes,
        &line,
    )?;
    Ok(decide_made(text, tables))
}

// How tables are to be written.
fn style_of(options: &Options) -> Style
    ensures { result ≡ style_by (asked_of options.now) }
{
    Style {
        wrap: options.switches.wrap,
        fold: options.switches.fold,
        short: options.switches.short,
        shorten: options.switches.shorten,
    }
}

// What is due of lines that are compiled, with a further line of the console behind those of the tables.
pub(crate) fn make_compiled(
    alloc: Global,
    options: &Options,
    lines: &Lines,
    notes: Messages,
    more: &Text,
) -> Result<Decision, AllocError>
    requires texts { AreTexts options.now }
    requires compiles { options.now.only ≡ false }
    requires main { 1 ≤ length lines.now.files }
    requires lines { All (IsGoodLine (length lines.now.files)) lines.now.list }
    requires notes { AreWithin (length lines.now.files) notes }
    ensures due { IfOk result (λ decision. end_of decision ≡ answer_to_compiled (asked_of options.now) options.now.file lines.now.files
        notes more.now (of_source options.now.switches.generic (style_by (asked_of options.now)) lines.now.list)) }
    ensures decided { IfOk result (IsDecidedBy (asked_of options.now)) }
    ensures made { IfOk result (IsMadeOf (pieces_of_lines (asked_of options.now) lines.now.list)) }
{
    match compile_source(alloc, options.switches.generic, style_of(options), lines)? {
        Compiled::Made {
            tables,
            notes: told,
        } => make_tables(
            alloc,
            options,
            &lines.files,
            both(notes, told)?,
            tables,
            more,
        ),
        Compiled::Refused(messages) => decide_refusal(
            alloc,
            options,
            &lines.files,
            both(notes, messages)?,
        ),
    }
}

// What is due of preprocessed lines.
fn answer_to_lines(
    alloc: Global,
    options: &Options,
    given: Preprocessed,
) -> Result<Decision, AllocError>
    requires texts { AreTexts options.now }
    requires main { 1 ≤ length given.lines.files }
    requires lines { All (IsGoodLine (length given.lines.files)) given.lines.list }
    requires notes { All (IsGoodNote (length given.lines.files)) given.notes }
    ensures due { IfOk result (λ decision. end_of decision ≡ answer_to_lines (asked_of options.now) options.now.file given.lines.files
        given.lines.list given.notes) }
    ensures decided { IfOk result (IsDecidedBy (asked_of options.now)) }
    ensures made { IfOk result (IsMadeOf (pieces_of_lines (asked_of options.now) given.lines.list)) }
{
    let Preprocessed { lines, notes } = given;
    if options.only {
        Ok(Decision::Ends(make_text(alloc, options, &lines, notes)?))
    } else {
        let made = make_compiled(alloc, options, &lines, notes, &Text::new(alloc));
        // the process ends behind the files, so nobody needs the room of the lines
        forget(lines);
        made
    }
}

// What is due of a source whose preprocessing stops with this message.
fn answer_to_stop(
    alloc: Global,
    options: &Options,
    files: &Texts,
    message: Message,
) -> Result<Decision, AllocError>
    requires { message.place.file < length files.now }
    ensures due { IfOk result (λ decision. end_of decision ≡ refusal (asked_of options.now) files.now (message ∷ [])) }
    ensures decided { (asked : Asked) → IfOk result (IsDecidedBy asked) }
    ensures made { (all : List SpecPiece) → IfOk result (IsMadeOf all) }
{
    let messages = one_message(alloc, message)?;
    decide_refusal(alloc, options, files, messages)
}

// What is due where the words are not good.
fn usage(alloc: Global) -> Result<Due<'static>, AllocError>
    ensures due { IfOk result (λ due. answer_of due ≡ usage) }
    ensures settled { IfOk result IsSettled }
{
    Ok(Due {
        status: 2,
        text: Text::from_bytes(alloc, b"usage: iasl [options] FILE\n")?,
        files: Vec::new(alloc),
    })
}

// What is due for these options, where their file and its includes are fetched.
fn answer<F: Files>(alloc: Global, options: &Options, files: &mut F) -> Result<Decision, Stop>
    requires { AreTexts options.now }
    ensures { Settles (λ told. answer_to_file (asked_of options.now) told (Some options.now.file))
        (λ told. pieces_of_file (asked_of options.now) told (Some options.now.file)) (IsDecidedBy (asked_of options.now)) result
        (files_seen (F.contents files.old) (F.faults files.old) (F.absents files.old))
        (files_seen (F.contents files.new) (F.faults files.new) (F.absents files.new)) }
{
    match preprocess(
        alloc,
        files,
        file_name(options),
        &options.dirs,
        &options.defines,
        options.enabled,
    ) {
        Ok(given) => Ok(answer_to_lines(alloc, options, given)?),
        Err(PreStop::Refused { message, files }) => Ok(answer_to_stop(
            alloc, options, &files, message,
        )?),
        Err(PreStop::Absent | PreStop::ReadFault) => Err(Stop::Fault),
        Err(PreStop::Memory) => Err(Stop::Memory),
    }
}

/// What is due for these words, where the file that they name and its includes are fetched, or devices are generated,
/// or a template is written. It ends without an answer only where the file is absent, a fetch failed, or memory is
/// wanted.
pub(crate) fn decide<F: Files>(
    alloc: Global,
    words: &[String],
    files: &mut F,
) -> Result<Decision, Stop>
    ensures { Settles (answer_for (map string_bytes words.now)) (pieces_for (map string_bytes words.now))
        (IsDecidedFor (task_by (map string_bytes words.now))) result
        (files_seen (F.contents files.old) (F.faults files.old) (F.absents files.old))
        (files_seen (F.contents files.new) (F.faults files.new) (F.absents files.new)) }
{
    match task_of(alloc, words) {
        Ok(Task::Compile(options)) => answer(alloc, &options, files),
        Ok(Task::Generate(count)) => Ok(answer_to_generated(alloc, count)?),
        Ok(Task::Template(table)) => Ok(answer_to_template(alloc, table)?),
        Err(WordsStop::Bad { .. }) => Ok(Decision::Ends(usage(alloc)?)),
        Err(WordsStop::Memory) => Err(Stop::Memory),
    }
}
