//! The top call: a dump to the files of its tables.
ghost use Rattle.std.specs.Prelude.{map, string_bytes};
ghost use Rattle.iasl_runs.specs.Ends.{files_seen, outputs_seen, console_seen, world};
ghost use Rattle.acpi_extract.specs.Calls.{CarriesOut};

use crate::due::decide;
use iasl_ports::files::Files;
use iasl_ports::outputs::Outputs;
use iasl_ports::sink::Sink;
use iasl_runs::run::{StopTexts, finish};
use std::alloc::Global;

/// What the console is told with status 3 and with status 4.
const STOP_TEXTS: StopTexts<'static> = StopTexts {
    fault: b"acpixtract: file fault\n",
    memory: b"acpixtract: out of memory\n",
};

/// Reads the dump that the words name, and puts its tables or lists them. The words are FILE, `-a` FILE,
/// `-l` FILE or `-s` SIGNATURE FILE. It answers 0 where that was done; 1 where the dump has a fault; 2 where the
/// words are not good; 3 where the file is absent, or could not be read, put or written; 4 where there was no
/// memory. With 1 and 2 no file is put.
pub fn extract<F: Files, O: Outputs, C: Sink>(
    alloc: Global,
    words: &[String],
    files: &mut F,
    outs: &mut O,
    console: &mut C,
) -> u8
    // The words are carried out. The status, the files that are put and the console are those of the answer, or what is
    // left of them after a fault (`ends`); 0, 1 and 2 come only of what the words and the file call for (`sound`), and
    // where no count of faults rose the call ends with whatever these call for, or with 4 (`complete`); a list puts no
    // file (`list`).
    ensures { let before = world (files_seen (F.contents files.old) (F.faults files.old) (F.absents files.old))
        (outputs_seen (O.written outs.old) (O.faults outs.old)) (console_seen (C.told console.old) (C.faults console.old)) in
        let after = world (files_seen (F.contents files.new) (F.faults files.new) (F.absents files.new))
        (outputs_seen (O.written outs.new) (O.faults outs.new)) (console_seen (C.told console.new) (C.faults console.new)) in
        CarriesOut (map string_bytes words.now) result before after }
{
    let decided = decide(alloc, words, files);
    finish(outs, console, decided, STOP_TEXTS)
}
