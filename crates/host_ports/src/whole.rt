//! Reading and writing whole: all that a reader gives, and all that a writer is to take. The files and the console of the system
//! are such readers and writers.
ghost use Rattle.std.specs.Prelude.{◌≡◌, ◌≤◌, ◌<◌, length, take, IfOk, OnOk, OnErr};
ghost use Rattle.std.specs.Io.KnownBytes.{Appends, Keeps};
ghost use Rattle.host_ports.specs.Whole.{IsReadingOf};

use iasl_ports::files::MOST_BYTES;
use iasl_ports::sink::SinkFault;
use std::alloc::Global;
use std::io::{ErrorKind, Read, Write};

/// What the reading of a file comes to.
#[derive(Drop)]
pub enum Reading {
    /// All its bytes, which are at most 16 MiB.
    Whole(Vec<u8>),
    /// It has more than 16 MiB.
    Longer,
    /// It could not be read.
    Failed,
    /// There was no memory for the bytes.
    Memory,
}

/// A writing that failed. Some first bytes may be written.
#[derive(Clone, Copy, Debug, PartialEq, Eq, Drop)]
pub struct WriteFault;

/// Reads all that a reader gives, and at most one byte more than a file may have.
pub fn read_whole<R: Read + Drop>(alloc: Global, reader: R) -> Reading
    ensures { IsReadingOf (R.remaining reader) result }
{
    let mut bytes = Vec::new(alloc);
    match reader.take(MOST_BYTES as u64 + 1).read_to_end(&mut bytes) {
        Err(e) if e.kind() == ErrorKind::OutOfMemory => Reading::Memory,
        Err(_) => Reading::Failed,
        Ok(_) if bytes.len() > MOST_BYTES => Reading::Longer,
        Ok(_) => Reading::Whole(bytes),
    }
}

/// The most bytes that are offered in one write. The system takes at most some 2 GiB at once.
const MOST_AT_ONCE: usize = 1_073_741_824;

// Writes bytes in one write, which is to take all of them.
fn write_once<W: Write>(writer: &mut W, bytes: &[u8]) -> Result<(), WriteFault>
    ensures { OnOk result (Appends (W.contents writer.old) (W.contents writer.new) bytes.now) }
{
    match writer.write(bytes) {
        Ok(count) if count == bytes.len() => Ok(()),
        _ => Err(WriteFault),
    }
}

/// Writes all bytes, a GiB at a time. A writer that takes less than it is offered is full, and is offered no more: where a file may not
/// grow further, the system would end the process at the next write.
pub fn write_whole<W: Write>(writer: &mut W, bytes: &[u8]) -> Result<(), WriteFault>
    ensures { OnOk result (Appends (W.contents writer.old) (W.contents writer.new) bytes.now) }
{
    let mut done = 0;
    while done < bytes.len() {
        let end = done + (bytes.len() - done).min(MOST_AT_ONCE);
        write_once(writer, &bytes[done..end])?;
        done = end;
    }
    Ok(())
}

/// Writes some of the first bytes in one write, at least one where there is one, and says how many the writer took. After an error
/// it took none.
pub fn write_some<W: Write>(writer: &mut W, bytes: &[u8]) -> Result<usize, SinkFault>
    ensures some { IfOk result (λ count. Appends (W.contents writer.old) (W.contents writer.new) (take count bytes.now)) }
    ensures bound { IfOk result (λ count. count ≤ length bytes.now) }
    ensures moves { IfOk result (λ count. 0 < length bytes.now → 0 < count) }
    ensures none { OnErr result (Keeps (W.contents writer.old) (W.contents writer.new)) }
{
    match writer.write(bytes) {
        Ok(count) if count > 0 || bytes.is_empty() => Ok(count),
        _ => Err(SinkFault),
    }
}
