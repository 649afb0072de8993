// Runs of which each call fails in turn, sources that end too early, and includes that cannot be read.
mod includes;

use super::controller::{CONSOLE, CONTROLLER};
use super::{Ran, run_over};
use iasl_ports::list::Texts;
use iasl_ports::memory::{MemoryFiles, MemoryOutputs, MemorySink};
use std::alloc::{AllocError, Global};

const FAULT: &[u8] = b"iasl: file fault\n";

// Which fetch, which put and which writes fail, counted from 1, how many bytes the console takes, how many files are
// whole then, how many stand, and what is told.
struct Failing {
    fetch: u64,
    put: u64,
    writes: &'static [u64],
    room: usize,
    whole: usize,
    files: usize,
    told: &'static [u8],
}

// What is told by a console that takes all, where no call fails.
const NONE: Failing = Failing {
    fetch: 0,
    put: 0,
    writes: &[],
    room: 1000,
    whole: 3,
    files: 3,
    told: CONSOLE,
};

static FAILING: [Failing; 9] = [
    Failing {
        fetch: 1,
        whole: 0,
        files: 0,
        told: FAULT,
        ..NONE
    },
    Failing {
        put: 1,
        whole: 0,
        files: 1,
        told: FAULT,
        ..NONE
    },
    Failing {
        put: 2,
        whole: 1,
        files: 2,
        told: FAULT,
        ..NONE
    },
    Failing {
        put: 3,
        whole: 2,
        files: 3,
        told: FAULT,
        ..NONE
    },
    Failing {
        writes: &[1],
        told: FAULT,
        ..NONE
    },
    // Neither the text nor that of the fault can be told.
    Failing {
        writes: &[1, 2],
        told: b"",
        ..NONE
    },
    // There is room for a part of the text, and for none of that of the fault.
    Failing {
        room: 7,
        told: b"ec.aml:",
        ..NONE
    },
    // There is room for a part of the text of the fault.
    Failing {
        put: 2,
        room: 5,
        whole: 1,
        files: 2,
        told: b"iasl:",
        ..NONE
    },
    Failing {
        writes: &[1],
        room: 16,
        told: b"iasl: file fault",
        ..NONE
    },
];

fn console_of(alloc: Global, failing: &Failing) -> Result<MemorySink, AllocError> {
    let mut console = MemorySink::new(alloc, failing.room)?;
    for write in failing.writes {
        console.fail_at(*write)?;
    }
    Ok(console)
}

// A run of the controller with its three files.
fn run_failing(alloc: Global, failing: &Failing) -> Result<Ran, AllocError> {
    let mut files = MemoryFiles::new(alloc);
    files.add("t.asl", CONTROLLER)?;
    files.fail_at(failing.fetch)?;
    let mut outs = MemoryOutputs::new(alloc);
    outs.fail_at(failing.put)?;
    let console = console_of(alloc, failing)?;
    run_over(alloc, &["-l", "-tc", "t.asl"], files, outs, console)
}

// Whether a text is that of another run, or the beginning of it where that will do.
fn is_text(texts: &Texts, others: &Texts, i: usize, is_whole: bool) -> bool {
    match (texts.get(i), others.get(i)) {
        (Some(text), Some(other)) if is_whole => text.as_bytes() == other.as_bytes(),
        (Some(text), Some(other)) => other.as_bytes().starts_with(text.as_bytes()),
        _ => false,
    }
}

// Whether a run's files are the first of another's: so many whole, and a part of the next.
fn are_first(ran: &Ran, other: &Ran, whole: usize) -> bool {
    let mut first = true;
    for i in 0..ran.outs.names().len() {
        first = first
            && is_text(ran.outs.names(), other.outs.names(), i, true)
            && is_text(ran.outs.bodies(), other.outs.bodies(), i, i < whole);
    }
    first
}

// Whether a run of which a call fails ends with a fault, its files and what it tells.
fn is_fault(alloc: Global, failing: &Failing) -> Result<bool, AllocError> {
    let ran = run_failing(alloc, failing)?;
    let other = run_failing(alloc, &NONE)?;
    Ok(
        ran.status == 3
            && ran.outs.names().len() == failing.files
            && are_first(&ran, &other, failing.whole)
            && ran.console.as_bytes() == failing.told,
    )
}

#[test]
fn each_call_fails(rt: HostRuntime) -> Result<(), AllocError> {
    for failing in &FAILING {
        assert!(rt; is_fault(rt.alloc(), failing)?);
    }
    Ok(())
}

// The controller's last brace is the last but one of its 953 bytes.
const BEFORE_LAST_BRACE: usize = 951;

// Whether the controller's first bytes are refused, or have its table where the last brace is among them.
fn is_cut(alloc: Global, bytes: &[u8]) -> Result<bool, AllocError> {
    let ran = super::run(alloc, &["t.asl"], bytes)?;
    let files = ran.outs.names().len();
    Ok(if bytes.len() <= BEFORE_LAST_BRACE {
        ran.status == 1 && files == 0
    } else {
        ran.status == 0 && files == 1
    })
}

#[test]
fn sources_that_end_early(rt: HostRuntime) -> Result<(), AllocError> {
    let mut bytes = Vec::new(rt.alloc());
    for byte in CONTROLLER {
        bytes.push(*byte)?;
        assert!(rt; is_cut(rt.alloc(), &bytes)?);
    }
    assert!(rt; bytes.len() == 953);
    Ok(())
}
