// Runs of which a port fails.
use super::{ONE_NAME, Ran, run_over};
use iasl_ports::memory::{MemoryFiles, MemoryOutputs, MemorySink};
use std::alloc::{AllocError, Global};

// Two blocks.
const TWO: &[u8] = b"DefinitionBlock (\"a.aml\", \"SSDT\", 2, \"OEMX00\", \"TABLE001\", 1)
{
    Name (X, 5)
}
DefinitionBlock (\"b.aml\", \"SSDT\", 2, \"OEMX00\", \"TABLE001\", 1)
{
    External (X, IntObj)
    Method (M, 0) { Return (X) }
}
";

// Words, which fetch, which put and which write fails, and how many files are put.
struct Failing {
    words: &'static [&'static str],
    fetch: u64,
    put: u64,
    write: u64,
    files: usize,
}

static FAILING: [Failing; 4] = [
    Failing {
        words: &["t.asl"],
        fetch: 1,
        put: 9,
        write: 9,
        files: 0,
    },
    Failing {
        words: &["t.asl"],
        fetch: 9,
        put: 1,
        write: 9,
        files: 1,
    },
    Failing {
        words: &["t.asl"],
        fetch: 9,
        put: 9,
        write: 1,
        files: 1,
    },
    // No fetch of a generation can fail, since none is made.
    Failing {
        words: &["--generate", "2"],
        fetch: 1,
        put: 1,
        write: 9,
        files: 1,
    },
];

fn files_of(alloc: Global, fetch: u64) -> Result<MemoryFiles, AllocError> {
    let mut files = MemoryFiles::new(alloc);
    files.add("t.asl", ONE_NAME)?;
    files.fail_at(fetch)?;
    Ok(files)
}

fn outputs_of(alloc: Global, put: u64) -> Result<MemoryOutputs, AllocError> {
    let mut outs = MemoryOutputs::new(alloc);
    outs.fail_at(put)?;
    Ok(outs)
}

fn console_of(alloc: Global, write: u64) -> Result<MemorySink, AllocError> {
    let mut console = MemorySink::new(alloc, 1000)?;
    console.fail_at(write)?;
    Ok(console)
}

fn run(alloc: Global, failing: &Failing) -> Result<Ran, AllocError> {
    let files = files_of(alloc, failing.fetch)?;
    let outs = outputs_of(alloc, failing.put)?;
    let console = console_of(alloc, failing.write)?;
    run_over(alloc, failing.words, files, outs, console)
}

// Whether a run in which a port fails ends with a fault, with so many files put.
fn is_fault(alloc: Global, failing: &Failing) -> Result<bool, AllocError> {
    let ran = run(alloc, failing)?;
    Ok(
        ran.status == 3
            && ran.outs.names().len() == failing.files
            && ran.console.as_bytes() == b"iasl: file fault\n".as_slice(),
    )
}

#[test]
fn failing_ports(rt: HostRuntime) -> Result<(), AllocError> {
    for failing in &FAILING {
        assert!(rt; is_fault(rt.alloc(), failing)?);
    }
    Ok(())
}

// A run whose fourth file cannot be put whole, the array of C of the second table.
fn run_to_fourth(alloc: Global) -> Result<Ran, AllocError> {
    let mut files = MemoryFiles::new(alloc);
    files.add("t.asl", TWO)?;
    let mut outs = MemoryOutputs::new(alloc);
    outs.fail_at(4)?;
    let console = MemorySink::new(alloc, 1000)?;
    run_over(alloc, &["-tc", "t.asl"], files, outs, console)
}

#[test]
fn array_of_the_second_table_fails(rt: HostRuntime) -> Result<(), AllocError> {
    let ran = run_to_fourth(rt.alloc())?;
    assert!(rt; ran.status == 3);
    assert!(rt; ran.outs.names().len() == 4);
    assert!(rt; ran.console.as_bytes() == b"iasl: file fault\n".as_slice());
    Ok(())
}
