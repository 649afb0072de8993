//! A console to write.
ghost use Rattle.std.specs.Prelude.{◌≡◌, ◌<◌, ◌≤◌, List, [], ℕ, length, take, IfOk, OnOk, OnErr};
ghost use Rattle.std.specs.declared.option.Option.{Option};
ghost use Rattle.iasl_ports.specs.Counts.{Rose};
ghost use Rattle.iasl_ports.specs.Gained.{Gains};

/// A write that failed. Nothing was written by it.
#[derive(Clone, Copy, Debug, PartialEq, Eq, Drop)]
pub struct SinkFault;

/// Where text is written to. Each failure is counted; the count stops at the largest u64.
pub trait Sink {
    /// The bytes that were written, where they are told.
    ghost told: { Self → Option (List ℕ) };

    /// How many writes have failed.
    ghost faults: { Self → ℕ };

    /// Writes some of the first bytes, at least one where there is one, and says how many.
    fn write(&mut self, bytes: &[u8]) -> Result<usize, SinkFault>
        ensures some { IfOk result (λ count. Gains (told self.old) (told self.new) (take count bytes.now)) }
        ensures bound { IfOk result (λ count. count ≤ length bytes.now) }
        ensures moves { IfOk result (λ count. 0 < length bytes.now → 0 < count) }
        ensures none { OnErr result (Gains (told self.old) (told self.new) []) }
        ensures faults { OnOk result (faults self.new ≡ faults self.old) }
        ensures cause { OnErr result (Rose (faults self.old) (faults self.new)) }
        ensures later { faults self.old ≤ faults self.new };
}

#[tactic(auto, using(crate::specs::GainedLaws::gains_none, crate::specs::GainedLaws::gains_next, crate::specs::GainedLaws::gains_still))]
/// Writes all bytes, in as many writes as it takes. It takes no memory.
pub fn write_all<C: Sink>(sink: &mut C, bytes: &[u8]) -> Result<(), SinkFault>
    ensures all { OnOk result (Gains (C.told sink.old) (C.told sink.new) bytes.now) }
    ensures some { OnErr result ((n : ℕ) × Gains (C.told sink.old) (C.told sink.new) (take n bytes.now)) }
    ensures faults { OnOk result (C.faults sink.new ≡ C.faults sink.old) }
    ensures cause { OnErr result (Rose (C.faults sink.old) (C.faults sink.new)) }
    ensures later { C.faults sink.old ≤ C.faults sink.new }
{
    let mut at = 0;
    while at < bytes.len() {
        let count = sink.write(&bytes[at..])?;
        at += count;
    }
    Ok(())
}
