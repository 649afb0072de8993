//! A source of either kind to its tables, or its errors.
ghost use Rattle.std.specs.Prelude.{◌≡◌, ◌<◌, ◌^◌, ◌∷◌, [], length, All, IfOk};
ghost use Rattle.data_tables.specs.Promise.{Answers, TellsWithin as DataTellsWithin};
ghost use Rattle.asl_tables.specs.Compiled.{HasAsciiNames, TellsWithin};
ghost use Rattle.iasl_tool.specs.Outputs.{HasTable};
ghost use Rattle.iasl_tool.specs.Sources.{is_data_source, data_answer, of_data, of_source};

use asl_tables::compile::{Style, compile};
use block_outcomes::messages::refusal;
use block_outcomes::outcome::{Compiled, Table, Tables};
use data_generic::compile::compile_generic;
use data_tables::compile::compile_data;
use data_tables::compiled::Compiled as DataTable;
use data_text::kind::is_data_table;
use iasl_messages::message::Stage;
use iasl_messages::place::{Line, Lines};
use iasl_ports::list::Text;
use std::alloc::{AllocError, Global};

// One table.
fn one_table(alloc: Global, table: Table) -> Result<Tables, AllocError>
    ensures { IfOk result (λ tables. tables ≡ table ∷ []) }
{
    let mut tables = Tables::new(alloc);
    tables.push(table)?;
    Ok(tables)
}

// The table of the text of a data table, of a generic one where that is asked for.
fn data_table_of(alloc: Global, generic: bool, lines: &Lines) -> Result<DataTable, Stage>
    requires main { 0 < length lines.now.files }
    requires files { All (λ line. line.file < length lines.now.files) lines.now.list }
    ensures exact { Answers result (data_answer generic lines.now.list) }
    ensures within { DataTellsWithin (length lines.now.files) result }
{
    if generic {
        compile_generic(alloc, lines)
    } else {
        compile_data(alloc, lines)
    }
}

// What lines of a data table come to.
fn compile_table(alloc: Global, generic: bool, lines: &Lines) -> Result<Compiled, AllocError>
    requires main { 0 < length lines.now.files }
    requires files { All (λ line. line.file < length lines.now.files) lines.now.list }
    ensures value { IfOk result (λ it. it ≡ of_data (data_answer generic lines.now.list)) }
    ensures own { IfOk result HasAsciiNames }
    ensures within { IfOk result (TellsWithin (length lines.now.files)) }
{
    match data_table_of(alloc, generic, lines) {
        Ok(table) => {
            let made = Table {
                signature: table.signature,
                own: Text::new(alloc),
                pieces: table.pieces,
            };
            Ok(Compiled::Made {
                tables: one_table(alloc, made)?,
                notes: table.notes,
            })
        }
        Err(stage) => Ok(Compiled::Refused(refusal(stage)?)),
    }
}

// Whether lines are a data table.
fn is_data_source(alloc: Global, generic: bool, lines: &[Line]) -> Result<bool, AllocError>
    ensures { IfOk result (λ is. is ≡ is_data_source generic lines.now) }
{
    if generic {
        Ok(true)
    } else {
        is_data_table(alloc, lines)
    }
}

/// What lines come to: those of a data table, or those of ASL. Where a generic table is asked for, they are one. Where they
/// are not refused, there is a table. Each message stands in one of their files.
#[tactic(auto, using(crate::proofs::Made::source_has))]
pub(crate) fn compile_source(
    alloc: Global,
    generic: bool,
    style: Style,
    lines: &Lines,
) -> Result<Compiled, AllocError>
    requires short { All (λ line. length line.text < 2 ^ 32) lines.now.list }
    requires main { 0 < length lines.now.files }
    requires files { All (λ line. line.file < length lines.now.files) lines.now.list }
    ensures value { IfOk result (λ it. it ≡ of_source generic style lines.now.list) }
    ensures some { IfOk result HasTable }
    ensures own { IfOk result HasAsciiNames }
    ensures within { IfOk result (TellsWithin (length lines.now.files)) }
{
    if is_data_source(alloc, generic, lines.list.as_slice())? {
        compile_table(alloc, generic, lines)
    } else {
        compile(alloc, style, lines)
    }
}
