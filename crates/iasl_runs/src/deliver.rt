//! What is due is delivered: its files are put one after another, and then its text is written.
ghost use Rattle.std.specs.Prelude.{◌≡◌, ◌≤◌, ◌⊎◌, [], ◌∷◌, ℕ, map, take, IfOk, OnOk, OnErr, IsErrOf};
ghost use Rattle.iasl_ports.specs.declared.delivery.Stop.TheVariants as stops;
ghost use Rattle.iasl_ports.specs.declared.outputs.PutFault.TheVariants as faults;
ghost use Rattle.iasl_ports.specs.Counts.{Rose, Quiet};
ghost use Rattle.iasl_ports.specs.Gained.{Gains, GainsSome};
ghost use Rattle.iasl_ports.specs.Put.{GainsPart};
ghost use Rattle.iasl_ports.specs.Delivery.{name_and_bytes};

use iasl_ports::delivery::{Due, OutFile, Stop};
use iasl_ports::outputs::{Outputs, PutFault};
use iasl_ports::sink::{Sink, write_all};

fn put_one<O: Outputs>(outs: &mut O, file: &OutFile<'_>) -> Result<(), PutFault>
    ensures all { OnOk result (Gains (O.written outs.old) (O.written outs.new) (name_and_bytes file.now ∷ [])) }
    ensures part { IsErrOf result faults.Failed → GainsPart (O.written outs.old) (O.written outs.new) (name_and_bytes file.now) }
    ensures none { IsErrOf result faults.Memory → Gains (O.written outs.old) (O.written outs.new) [] }
    ensures faults { OnOk result (O.faults outs.new ≡ O.faults outs.old) }
    ensures cause { IsErrOf result faults.Failed → Rose (O.faults outs.old) (O.faults outs.new) }
    ensures memory_calm { IsErrOf result faults.Memory → O.faults outs.new ≡ O.faults outs.old }
    ensures later { O.faults outs.old ≤ O.faults outs.new }
{
    outs.put(&file.name, file.bytes.as_slice())
}

#[tactic(auto, using(crate::proofs::PutSoFar::stops_whole, iasl_ports::specs::GainedLaws::gains_none))]
/// Puts the files in order, and stops at the first that is refused: with `Fault` where it failed, of which a
/// part may stand then, and with `Memory` where there was no memory for it.
pub fn put_all<O: Outputs>(outs: &mut O, files: &[OutFile<'_>]) -> Result<(), Stop>
    ensures all { OnOk result (Gains (O.written outs.old) (O.written outs.new) (map name_and_bytes files.now)) }
    ensures some { OnErr result
        (GainsSome (IsErrOf result stops.Fault) (O.written outs.old) (O.written outs.new) (map name_and_bytes files.now)) }
    ensures faults { OnOk result (O.faults outs.new ≡ O.faults outs.old) }
    ensures cause { IsErrOf result stops.Fault → Rose (O.faults outs.old) (O.faults outs.new) }
    ensures memory_calm { IsErrOf result stops.Memory → O.faults outs.new ≡ O.faults outs.old }
    ensures later { O.faults outs.old ≤ O.faults outs.new }
{
    for file in files {
        match put_one(outs, file) {
            Ok(()) => {}
            Err(PutFault::Failed) => return Err(Stop::Fault),
            Err(PutFault::Memory) => return Err(Stop::Memory),
        }
    }
    Ok(())
}

/// Puts the files that are due, and then writes the text. It answers the status that is due, `Fault` where a
/// file or the text failed, and `Memory`, before a byte of the text, where there was no memory for a file.
pub fn deliver<O: Outputs, C: Sink>(
    outs: &mut O,
    console: &mut C,
    due: &Due<'_>,
) -> Result<u8, Stop>
    ensures status { IfOk result (λ status. status ≡ due.now.status) }

    // It succeeds only where no count rose, and a fault has its cause. Want of memory does not take the place of a fault of the outputs.
    ensures put_calm { OnOk result (O.faults outs.new ≡ O.faults outs.old) }
    ensures told_calm { OnOk result (C.faults console.new ≡ C.faults console.old) }
    ensures put_later { O.faults outs.old ≤ O.faults outs.new }
    ensures told_later { C.faults console.old ≤ C.faults console.new }
    ensures cause { IsErrOf result stops.Fault → Rose (O.faults outs.old) (O.faults outs.new) ⊎ Rose (C.faults console.old)
        (C.faults console.new) }
    ensures memory_calm { IsErrOf result stops.Memory → O.faults outs.new ≡ O.faults outs.old }

    // The files that were put.
    ensures all_files { OnOk result (Gains (O.written outs.old) (O.written outs.new) (map name_and_bytes due.now.files.items)) }
    ensures some_files { OnErr result (GainsSome (IsErrOf result stops.Fault × Rose (O.faults outs.old) (O.faults outs.new))
        (O.written outs.old) (O.written outs.new) (map name_and_bytes due.now.files.items)) }
    ensures all_but_told { IsErrOf result stops.Fault → Quiet (O.faults outs.old) (O.faults outs.new) →
        Gains (O.written outs.old) (O.written outs.new) (map name_and_bytes due.now.files.items) }

    // What of the text was written.
    ensures all_text { OnOk result (Gains (C.told console.old) (C.told console.new) due.now.text) }
    ensures some_text { OnErr result ((n : ℕ) × Gains (C.told console.old) (C.told console.new) (take n due.now.text)) }
    ensures no_text { OnErr result (Quiet (C.faults console.old) (C.faults console.new)
        → Gains (C.told console.old) (C.told console.new) []) }
    ensures no_text_yet { IsErrOf result stops.Memory → Gains (C.told console.old) (C.told console.new) [] }
{
    put_all(outs, &due.files)?;
    match write_all(console, due.text.as_bytes()) {
        Ok(()) => Ok(due.status),
        Err(_) => Err(Stop::Fault),
    }
}
