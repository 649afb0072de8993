//! The top call: a source to its tables, of ASL, or to its data table; or the template of a table.
ghost use Rattle.std.specs.Prelude.{map, string_bytes};
ghost use Rattle.iasl_runs.specs.Ends.{files_seen, outputs_seen, console_seen, world};
ghost use Rattle.iasl_backends.specs.Asked.{IsOneOfEach};
ghost use Rattle.iasl_tool.specs.Calls.{CarriesOut, LeavesBoxes};

use crate::due::decide;
use iasl_backends::backend::Backend;
use iasl_ports::files::Files;
use iasl_ports::outputs::Outputs;
use iasl_ports::sink::Sink;
use iasl_runs::run::{StopTexts, finish};
use std::alloc::Global;
use table_outputs::outputs::{lend, render};

/// What the console is told with status 3 and with status 4.
const STOP_TEXTS: StopTexts<'static> = StopTexts {
    fault: b"iasl: file fault\n",
    memory: b"iasl: out of memory\n",
};

/// Compiles the source that the words name, of ASL or of a data table, and puts its tables, for each block in turn the
/// table, with its bytes as an array of C and its listing where these are asked for, or with `-P` its preprocessed text
/// (docs/OPTIONS.md). With `-T SIGNATURE` it puts the template of a table instead. The boxes make the outputs; those of
/// kinds that are not asked for are let go. It answers 0 where that was done; 1 where the source has errors, or with
/// `-we` a warning; 2 where the words are not good, or an output has the name of a file that was fetched or of another
/// output; 3 where the file is absent, or a file could not be read, put or written; 4 where there was no memory. With 1
/// and 2 no file is put.
pub fn iasl<F: Files, O: Outputs, C: Sink>(
    alloc: Global,
    words: &[String],
    files: &mut F,
    outs: &mut O,
    console: &mut C,
    backends: &mut Vec<Box<dyn Backend>>,
) -> u8
    // Of each kind of outputs there is one box.
    requires { IsOneOfEach (λ b. kind_of b) backends.old.items }

    // The words are carried out. By its status the call ends as they and the files ask, or as a fault leaves it (`ends`).
    // The files that are due, and those that are put with status 0, are tables that do what their sources say (`due`,
    // `headline`). Status 1 comes only of what is refused, whose messages are told (`refuses`). And where no count of
    // faults rose, every source without errors is so put (`complete`, `complete_data`), and all that is refused is so
    // told (`complete_refusal`), unless memory is wanting.
    ensures carries_out { let before = world (files_seen (F.contents files.old) (F.faults files.old) (F.absents files.old))
        (outputs_seen (O.written outs.old) (O.faults outs.old)) (console_seen (C.told console.old) (C.faults console.old)) in
        let after = world (files_seen (F.contents files.new) (F.faults files.new) (F.absents files.new))
        (outputs_seen (O.written outs.new) (O.faults outs.new)) (console_seen (C.told console.new) (C.faults console.new)) in
        CarriesOut (map string_bytes words.now) result before after }

    // The boxes make the outputs. Those that the words ask for are left, or all as before (`boxes`, `as_before`,
    // `text_alone`); with status 0 they are finished over the pieces of the last table, which is that of the source or
    // the data table that the words name (`rendered`, `over_its_table`, `over_its_data`).
    ensures leaves_boxes { LeavesBoxes (λ b. kind_of b) (λ b. pieces b) (λ b. finished b) (map string_bytes words.now)
        (F.contents files.old) result backends.old.items backends.new.items }
{
    let decided = decide(alloc, words, files);
    let rendered = render(alloc, backends, decided);
    let made = lend(backends, rendered);
    finish(outs, console, made, STOP_TEXTS)
}
