mod controller;
mod failing;
mod faults;
mod lending;

ghost use Rattle.std.specs.Prelude.{IfOk};
ghost use Rattle.iasl_backends.specs.Asked.{IsOneOfEach};

use iasl_backends::backend::Backend;
use iasl_backends::c_hex::CHex;
use iasl_backends::lent::one_of_each;
use iasl_backends::listing::Listing;
use iasl_backends::raw_aml::RawAml;
use iasl_backends::template::TemplateText;
use iasl_ports::list::Texts;
use iasl_ports::memory::{MemoryFiles, MemoryOutputs, MemorySink};
use iasl_tool::run::iasl;
use std::alloc::{AllocError, Global};

// How a run ended, what it put, and what it told.
struct Ran {
    status: u8,
    outs: MemoryOutputs,
    console: MemorySink,
}

impl Drop for Ran {
    fn drop(self) {
        let Ran {
            status: _,
            outs: _,
            console: _,
        } = self;
    }
}

// One box of each kind of outputs.
fn boxes(alloc: Global) -> Result<Vec<Box<dyn Backend>>, AllocError>
    ensures { IfOk result (λ backends. IsOneOfEach (λ b. kind_of b) backends.items) }
{
    one_of_each(
        alloc,
        Box::new(alloc, RawAml::new(alloc))?,
        Box::new(alloc, CHex::new(alloc))?,
        Box::new(alloc, Listing::new(alloc))?,
        Box::new(alloc, TemplateText::new(alloc))?,
    )
}

fn given_words(alloc: Global, words: &[&str]) -> Result<Vec<String>, AllocError> {
    let mut given = Vec::new(alloc);
    for word in words {
        given.push(String::from_str(alloc, word)?)?;
    }
    Ok(given)
}

// A run with these words over these ports.
fn run_over(
    alloc: Global,
    words: &[&str],
    mut files: MemoryFiles,
    mut outs: MemoryOutputs,
    mut console: MemorySink,
) -> Result<Ran, AllocError> {
    let given = given_words(alloc, words)?;
    let mut backends = boxes(alloc)?;
    let status = iasl(
        alloc,
        &given,
        &mut files,
        &mut outs,
        &mut console,
        &mut backends,
    );
    Ok(Ran {
        status,
        outs,
        console,
    })
}

// A run with these words, where the text of `t.asl` is this one.
fn run(alloc: Global, words: &[&str], text: &[u8]) -> Result<Ran, AllocError> {
    let mut files = MemoryFiles::new(alloc);
    files.add("t.asl", text)?;
    let outs = MemoryOutputs::new(alloc);
    let console = MemorySink::new(alloc, 1000)?;
    run_over(alloc, words, files, outs, console)
}

const ONE_NAME: &[u8] = b"DefinitionBlock (\"\", \"SSDT\", 2, \"OEMX00\", \"TABLE001\", 1)
{
    Name (X, 5)
}
";

fn are(texts: &Texts, wanted: &[&[u8]]) -> bool {
    let mut same = texts.len() == wanted.len();
    for (i, one) in wanted.iter().enumerate() {
        same = same && texts.get(i).is_some_and(|text| text.as_bytes() == *one);
    }
    same
}

fn are_same(texts: &Texts, others: &Texts) -> bool {
    let mut same = texts.len() == others.len();
    for i in 0..others.len() {
        same = same
            && match (texts.get(i), others.get(i)) {
                (Some(text), Some(other)) => text.as_bytes() == other.as_bytes(),
                _ => false,
            };
    }
    same
}

// Whether a run ended with this status, put files of these names and texts, and told this.
fn ended_as(ran: &Ran, status: u8, names: &[&[u8]], bodies: &[&[u8]], told: &[u8]) -> bool {
    ran.status == status
        && are(ran.outs.names(), names)
        && are(ran.outs.bodies(), bodies)
        && ran.console.as_bytes() == told
}
