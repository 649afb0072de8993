//! The run of a row over ports in memory.
use crate::row::Row;
use iasl_backends::c_hex::CHex;
use iasl_backends::lent::one_of_each;
use iasl_backends::listing::Listing;
use iasl_backends::raw_aml::RawAml;
use iasl_backends::template::TemplateText;
use iasl_ports::list::Texts;
use iasl_ports::memory::{MemoryFiles, MemoryOutputs, MemorySink};
use iasl_tool::run::iasl;
use std::alloc::{AllocError, Global};
use std::str::from_utf8;

/// How a run ended, what it put, and what it told.
#[derive(Drop)]
pub struct Ran {
    pub status: u8,
    pub outs: MemoryOutputs,
    pub console: MemorySink,
}

/// The most bytes that the console takes.
const ROOM: usize = 100_000;

// A run with one box of each kind of outputs.
fn run_over(alloc: Global, words: &[String], files: &mut MemoryFiles) -> Result<Ran, AllocError> {
    let mut outs = MemoryOutputs::new(alloc);
    let mut console = MemorySink::new(alloc, ROOM)?;
    let mut backends = one_of_each(
        alloc,
        Box::new(alloc, RawAml::new(alloc))?,
        Box::new(alloc, CHex::new(alloc))?,
        Box::new(alloc, Listing::new(alloc))?,
        Box::new(alloc, TemplateText::new(alloc))?,
    )?;
    let status = iasl(alloc, words, files, &mut outs, &mut console, &mut backends);
    Ok(Ran {
        status,
        outs,
        console,
    })
}

// Adds what a run put.
fn add_outputs(files: &mut MemoryFiles, names: &Texts, bodies: &Texts) -> Result<(), AllocError> {
    for (name, body) in names.as_slice().iter().zip(bodies.as_slice()) {
        if let Ok(name) = from_utf8(name.as_bytes()) {
            files.add(name, body.as_bytes())?;
        }
    }
    Ok(())
}

/// Runs what a row gives.
pub fn run(alloc: Global, row: &Row) -> Result<Ran, AllocError> {
    let mut files = MemoryFiles::new(alloc);
    for file in &row.files {
        files.add(file.name.as_str(), &file.bytes)?;
    }
    if !row.first.is_empty() {
        let before = run_over(alloc, &row.first, &mut files)?;
        add_outputs(&mut files, before.outs.names(), before.outs.bodies())?;
    }
    run_over(alloc, &row.words, &mut files)
}
