//! The end of a run: what is due is delivered, or what stopped it is told.
ghost use Rattle.std.specs.Prelude.{◌≡◌, ◌≤◌, ℕ, take, IfOk};
ghost use Rattle.iasl_ports.specs.Counts.{Quiet};
ghost use Rattle.iasl_ports.specs.Gained.{Gains};
ghost use Rattle.iasl_ports.specs.Delivery.{IsSettled};
ghost use Rattle.iasl_runs.specs.Ends.{stop_status, stop_text, outputs_seen, console_seen, Fails, Delivers, Finishes};

use crate::deliver::deliver;
use iasl_ports::delivery::{Due, Stop, tell};
use iasl_ports::outputs::Outputs;
use iasl_ports::sink::Sink;

/// The texts that a program tells its console with status 3 and with status 4.
#[derive(Clone, Copy)]
pub struct StopTexts<'a> {
    pub fault: &'a [u8],
    pub memory: &'a [u8],
}

// Tells why the run stops, and gives its status.
fn fail<C: Sink>(console: &mut C, stop: Stop, texts: StopTexts<'_>) -> u8
    ensures { Fails texts.entry.fault.now texts.entry.memory.now stop result (console_seen (C.told console.old) (C.faults console.old))
        (console_seen (C.told console.new) (C.faults console.new)) }
{
    match stop {
        Stop::Fault => {
            tell(console, texts.fault);
            3
        }
        Stop::Memory => {
            tell(console, texts.memory);
            4
        }
    }
}

// Delivers what is due, or tells why it could not.
fn finish_due<O: Outputs, C: Sink>(
    outs: &mut O,
    console: &mut C,
    due: &Due<'_>,
    texts: StopTexts<'_>,
) -> u8
    requires { IsSettled due.now }
    ensures { Delivers texts.entry.fault.now texts.entry.memory.now due.now result (outputs_seen (O.written outs.old) (O.faults outs.old))
        (outputs_seen (O.written outs.new) (O.faults outs.new))
        (console_seen (C.told console.old) (C.faults console.old)) (console_seen (C.told console.new) (C.faults console.new)) }
{
    match deliver(outs, console, due) {
        Ok(status) => status,
        Err(stop) => fail(console, stop, texts),
    }
}

/// Ends a run. What it has decided is delivered: the files that are due are put in order, and then the text is written; the
/// status is the one that is due. Where that fails, or where the run stopped before it had decided, the console is told the
/// text of that, and the status is 3 after a fault and 4 where memory is wanted.
pub fn finish<O: Outputs, C: Sink>(
    outs: &mut O,
    console: &mut C,
    decided: Result<Due<'_>, Stop>,
    texts: StopTexts<'_>,
) -> u8
    requires { IfOk decided IsSettled }
    ensures { Finishes texts.entry.fault.now texts.entry.memory.now decided.entry result
        (outputs_seen (O.written outs.old) (O.faults outs.old)) (outputs_seen (O.written outs.new) (O.faults outs.new))
        (console_seen (C.told console.old) (C.faults console.old)) (console_seen (C.told console.new) (C.faults console.new)) }
{
    match decided {
        Ok(due) => finish_due(outs, console, &due, texts),
        Err(stop) => fail(console, stop, texts),
    }
}
