// Includes that cannot be read.
use super::super::{ended_as, run_over};
use super::FAULT;
use iasl_ports::memory::{MemoryFiles, MemoryOutputs, MemorySink};
use std::alloc::{AllocError, Global};

const BLOCK: &[u8] = b"DefinitionBlock (\"\", \"SSDT\", 2, \"OEMX00\", \"TABLE001\", 1)
{
}
";

const BLOCK_TABLE: &[u8] =
    b"SSDT\x24\x00\x00\x00\x02\x8BOEMX00TABLE001\x01\x00\x00\x00INTL\x05\x01\x21\x20";

const TOLD: &[u8] = b"t.aml: SSDT, 36 bytes\n0 errors, 0 warnings, 0 remarks\n";

// A text that includes a file, and then goes on.
fn including(alloc: Global, name: &str, behind: &[u8]) -> Result<Vec<u8>, AllocError> {
    let mut text = Vec::new(alloc);
    text.extend_from_slice(b"#include \"")?;
    text.extend_from_slice(name.as_bytes())?;
    text.extend_from_slice(b"\"\n")?;
    text.extend_from_slice(behind)?;
    Ok(text)
}

// A main file and the empty one that it includes.
fn two(alloc: Global) -> Result<MemoryFiles, AllocError> {
    let mut files = MemoryFiles::new(alloc);
    let text = including(alloc, "1.asl", BLOCK)?;
    files.add("t.asl", &text)?;
    files.add("1.asl", b"")?;
    Ok(files)
}

// Those files, of which this fetch fails.
fn failing(alloc: Global, fetch: u64) -> Result<MemoryFiles, AllocError> {
    let mut files = two(alloc)?;
    files.fail_at(fetch)?;
    Ok(files)
}

// Whether a run over these files ends with this status, tells this, and puts the block's table where there is no error.
fn ends(alloc: Global, files: MemoryFiles, status: u8, told: &[u8]) -> Result<bool, AllocError> {
    let outs = MemoryOutputs::new(alloc);
    let console = MemorySink::new(alloc, 1000)?;
    let ran = run_over(alloc, &["t.asl"], files, outs, console)?;
    Ok(if status == 0 {
        ended_as(&ran, 0, &[b"t.aml"], &[BLOCK_TABLE], told)
    } else {
        ended_as(&ran, status, &[], &[], told)
    })
}

#[test]
fn includes_that_cannot_be_read(rt: HostRuntime) -> Result<(), AllocError> {
    let alloc = rt.alloc();
    assert!(rt; ends(alloc, failing(alloc, 1)?, 3, FAULT)?);
    assert!(rt; ends(alloc, failing(alloc, 2)?, 3, FAULT)?);
    assert!(rt; ends(alloc, failing(alloc, 3)?, 0, TOLD)?);
    Ok(())
}
