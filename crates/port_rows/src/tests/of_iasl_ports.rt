use iasl_ports::delivery::{Due, OutFile, Stop, tell};
use iasl_ports::files::{FetchFault, Files};
use iasl_ports::list::Text;
use iasl_ports::memory::{MemoryFiles, MemoryOutputs, MemorySink};
use iasl_ports::outputs::{Outputs, PutFault};
use iasl_ports::shared::SharedBytes;
use iasl_ports::sink::{Sink, SinkFault, write_all};
use iasl_runs::deliver::deliver;
use std::alloc::{AllocError, Global};
use std::borrow::CowSlice;

fn fetch_len<F: Files>(files: &mut F, alloc: Global, name: &str) -> Result<usize, FetchFault> {
    Ok(files.fetch(alloc, name)?.len())
}

/// Names of files, and how many bytes each fetch has, in order: the second and the fourth fetch fail.
static FETCHES: [(&str, Result<usize, FetchFault>); 5] = [
    ("a", Ok(3)),
    ("a", Err(FetchFault::Failed)),
    ("b", Err(FetchFault::Absent)),
    ("a", Err(FetchFault::Failed)),
    ("a", Ok(3)),
];

#[test]
fn fetches_fail_when_told_to(rt: HostRuntime) -> Result<(), AllocError> {
    let mut files = MemoryFiles::new(rt.alloc());
    files.add("a", b"xyz")?;
    files.add("a", b"other")?;
    files.fail_at(2)?;
    files.fail_at(4)?;
    for (name, want) in &FETCHES {
        assert!(rt; fetch_len(&mut files, rt.alloc(), name) == *want);
    }
    Ok(())
}

fn put_one<O: Outputs>(outs: &mut O, name: &str, bytes: &[u8]) -> Result<(), PutFault> {
    outs.put(name, bytes)
}

#[test]
fn a_failing_put_leaves_half(rt: HostRuntime) -> Result<(), AllocError> {
    let mut outs = MemoryOutputs::new(rt.alloc());
    outs.fail_at(2)?;
    assert!(rt; put_one(&mut outs, "a", b"1234") == Ok(()));
    assert!(rt; put_one(&mut outs, "b", b"1234") == Err(PutFault::Failed));
    assert!(rt; outs.names().len() == 2);
    match outs.bodies().get(1) {
        Some(body) => assert!(rt; body.as_bytes() == b"12".as_slice()),
        None => assert!(rt; false),
    }
    Ok(())
}

/// What is written on a console with room for five bytes, and how that ends: the second write fails.
static WRITES: [(&[u8], Result<(), SinkFault>); 3] = [
    (b"abc", Ok(())),
    (b"d", Err(SinkFault)),
    (b"def", Err(SinkFault)),
];

#[test]
fn a_console_takes_what_it_has_room_for(rt: HostRuntime) -> Result<(), AllocError> {
    let mut sink = MemorySink::new(rt.alloc(), 5)?;
    sink.fail_at(2)?;
    for (bytes, want) in &WRITES {
        assert!(rt; write_all(&mut sink, bytes) == *want);
    }
    assert!(rt; sink.as_bytes() == b"abcde".as_slice());
    Ok(())
}

// A delivery of two files, with a put and a write that fail, and how many files stand after it.
#[derive(Drop)]
struct Delivery {
    put: u64,
    write: u64,
    outcome: Result<u8, Stop>,
    files: usize,
    told: &'static [u8],
}

// A delivery with no fault, one with a put that fails, and one with a write that fails.
static DELIVERIES: [Delivery; 3] = [
    Delivery {
        put: 9,
        write: 9,
        outcome: Ok(0),
        files: 2,
        told: b"done\nlast\n",
    },
    Delivery {
        put: 1,
        write: 9,
        outcome: Err(Stop::Fault),
        files: 1,
        told: b"last\n",
    },
    Delivery {
        put: 9,
        write: 1,
        outcome: Err(Stop::Fault),
        files: 2,
        told: b"last\n",
    },
];

// Whether a delivery is that of its row.
fn is_right(alloc: Global, row: &Delivery) -> Result<bool, AllocError> {
    let due = two_files(alloc)?;
    let mut outs = MemoryOutputs::new(alloc);
    outs.fail_at(row.put)?;
    let mut console = MemorySink::new(alloc, 100)?;
    console.fail_at(row.write)?;
    let outcome = deliver(&mut outs, &mut console, &due);
    tell(&mut console, b"last\n");
    Ok(outcome == row.outcome && outs.names().len() == row.files && console.as_bytes() == row.told)
}

#[test]
fn a_delivery_stops_at_a_fault(rt: HostRuntime) -> Result<(), AllocError> {
    for row in &DELIVERIES {
        assert!(rt; is_right(rt.alloc(), row)?);
    }
    Ok(())
}

fn out_file<'a>(
    alloc: Global,
    name: &str,
    bytes: CowSlice<'a, u8>,
) -> Result<OutFile<'a>, AllocError> {
    Ok(OutFile {
        name: String::from_str(alloc, name)?,
        bytes,
    })
}

// A file whose bytes are lent, and one with bytes of its own.
fn two_files(alloc: Global) -> Result<Due<'static>, AllocError> {
    let first = out_file(alloc, "a", CowSlice::Borrowed(b"12"))?;
    let second = out_file(alloc, "b", CowSlice::Owned(b"345".to_vec(alloc)?))?;
    Ok(Due {
        status: 0,
        text: Text::from_bytes(alloc, b"done\n")?,
        files: vec![in alloc; first, second]?,
    })
}

// A text of no byte, one of some, the longest that stands in place, and one byte more.
static TEXTS: [&[u8]; 4] = [b"", b"_Abz09\\.^{z", b"abcdefghijklmn", b"abcdefghijklmno"];

/// Bytes, and the same in capitals.
static CAPITALS: [(&[u8], &[u8]); 2] = [
    (b"_ab.z09[`{", b"_AB.Z09[`{"),
    (b"\\abcd.efgh.ijkl", b"\\ABCD.EFGH.IJKL"),
];

fn keeps(alloc: Global, bytes: &[u8]) -> Result<bool, AllocError> {
    let text = Text::from_bytes(alloc, bytes)?;
    Ok(text.as_bytes() == bytes)
}

#[test]
fn texts_of_every_length_keep_their_bytes(rt: HostRuntime) -> Result<(), AllocError> {
    let alloc = rt.alloc();
    for bytes in &TEXTS {
        assert!(rt; keeps(alloc, bytes)?);
    }
    for (bytes, want) in &CAPITALS {
        assert!(rt; Text::from_uppercase(alloc, bytes)?.as_bytes() == *want);
    }
    Ok(())
}

// Where parts of a text begin, how many bytes are asked for, and which there are.
static PARTS: [(usize, usize, &[u8]); 5] = [
    (0, 14, b"The quick brow"),
    (4, 20, b"quick brown fox jump"),
    (20, 15, b"jumps over the "),
    (30, 40, b" the lazy dog"),
    (43, 16, b""),
];

#[test]
fn parts_outlive_what_they_are_parts_of(rt: HostRuntime) -> Result<(), AllocError> {
    let alloc = rt.alloc();
    let mut parts = Vec::new(alloc);
    let whole = b"The quick brown fox jumps over the lazy dog".to_vec(alloc)?;
    let shared = SharedBytes::from_vec(alloc, whole)?;
    for (start, count, _) in &PARTS {
        let part = Text::part_of(alloc, &shared, *start, *count)?;
        parts.push(part.copy(alloc)?)?;
    }
    drop(shared);
    assert!(rt; parts.len() == PARTS.len());
    for (part, (_, _, bytes)) in parts.iter().zip(&PARTS) {
        assert!(rt; part.as_bytes() == *bytes);
    }
    Ok(())
}
