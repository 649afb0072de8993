// What becomes of the boxes that a caller lends.
ghost use Rattle.std.specs.Prelude.{IfOk, IfSome};
ghost use Rattle.iasl_backends.specs.Asked.{IsOneOfEach};

use super::controller::{CONSOLE, CONTROLLER};
use super::{ONE_NAME, Ran, are_same, boxes, given_words, run};
use iasl_backends::backend::{Backend, Kind};
use iasl_backends::c_hex::CHex;
use iasl_backends::lent::one_of_each;
use iasl_backends::listing::Listing;
use iasl_backends::raw_aml::RawAml;
use iasl_backends::template::TemplateText;
use iasl_messages::place::Piece;
use iasl_ports::memory::{MemoryFiles, MemoryOutputs, MemorySink};
use iasl_tool::run::iasl;
use std::alloc::{AllocError, Global};

// An array of C that refuses its first piece.
#[derive(Drop)]
struct Refusing {
    array: CHex,
    refuses: bool,
}

impl Backend for Refusing {
    ghost use Rattle.iasl_backends.specs.declared.backend.Kind.TheVariants as kinds;

    ghost kind_of = { λ output. kinds.CHex };

    ghost pieces = { λ output. ⟦<CHex as Backend>⟧.pieces output.array };

    ghost finished = { λ output. ⟦<CHex as Backend>⟧.finished output.array };

    fn kind(&self) -> Kind {
        Kind::CHex
    }

    fn clear(&mut self) {
        self.array.clear();
    }

    fn piece(&mut self, piece: &Piece) -> Result<(), AllocError> {
        if self.refuses {
            self.refuses = false;
            return Err(AllocError);
        }
        self.array.piece(piece)
    }

    fn finish(&mut self) -> Result<(), AllocError> {
        self.array.finish()
    }

    fn text(&self) -> &[u8] {
        self.array.text()
    }
}

// One box of each kind, of which that of the array refuses its first piece.
fn refusing_boxes(alloc: Global) -> Result<Vec<Box<dyn Backend>>, AllocError>
    ensures { IfOk result (λ backends. IsOneOfEach (λ b. kind_of b) backends.items) }
{
    let array = Refusing {
        array: CHex::new(alloc),
        refuses: true,
    };
    one_of_each(
        alloc,
        Box::new(alloc, RawAml::new(alloc))?,
        Box::new(alloc, array)?,
        Box::new(alloc, Listing::new(alloc))?,
        Box::new(alloc, TemplateText::new(alloc))?,
    )
}

// A listing that takes so many pieces, and refuses the next one time.
#[derive(Drop)]
struct TakingFew {
    listing: Listing,
    left: u8,
    has_refused: bool,
}

impl Backend for TakingFew {
    ghost use Rattle.iasl_backends.specs.declared.backend.Kind.TheVariants as kinds;

    ghost kind_of = { λ output. kinds.Listing };

    ghost pieces = { λ output. ⟦<Listing as Backend>⟧.pieces output.listing };

    ghost finished = { λ output. ⟦<Listing as Backend>⟧.finished output.listing };

    fn kind(&self) -> Kind {
        Kind::Listing
    }

    fn clear(&mut self) {
        self.listing.clear();
    }

    fn piece(&mut self, piece: &Piece) -> Result<(), AllocError> {
        if self.left == 0 && !self.has_refused {
            self.has_refused = true;
            return Err(AllocError);
        }
        self.left = self.left.saturating_sub(1);
        self.listing.piece(piece)
    }

    fn finish(&mut self) -> Result<(), AllocError> {
        self.listing.finish()
    }

    fn text(&self) -> &[u8] {
        self.listing.text()
    }
}

// One box of each kind, of which that of the listing refuses its third piece.
fn boxes_of_two_pieces(alloc: Global) -> Result<Vec<Box<dyn Backend>>, AllocError>
    ensures { IfOk result (λ backends. IsOneOfEach (λ b. kind_of b) backends.items) }
{
    let listing = TakingFew {
        listing: Listing::new(alloc),
        left: 2,
        has_refused: false,
    };
    one_of_each(
        alloc,
        Box::new(alloc, RawAml::new(alloc))?,
        Box::new(alloc, CHex::new(alloc))?,
        Box::new(alloc, listing)?,
        Box::new(alloc, TemplateText::new(alloc))?,
    )
}

// A run over boxes: its words, the name and text of its file, its status, and the boxes that are left.
#[derive(Drop)]
struct Lending {
    words: &'static [&'static str],
    file: (&'static str, &'static [u8]),
    status: u8,
    left: &'static [Kind],
}

// One argument too few, and a method of too many arguments.
const WRONG_ARGUMENTS: &[u8] = b"DefinitionBlock (\"\", \"SSDT\", 2, \"OEMX00\", \"TABLE001\", 1)
{
    Method (M, 1) { Return (Add (Arg0)) }
    Method (N, 8) { }
}
";

const TWO_BLOCKS: &[u8] = b"DefinitionBlock (\"a.aml\", \"SSDT\", 2, \"OEMX00\", \"TABLE001\", 1) {}
DefinitionBlock (\"b.aml\", \"SSDT\", 2, \"OEMX00\", \"TABLE001\", 1) { Name (X, 5) }
";

const ALL: &[Kind] = &[Kind::RawAml, Kind::CHex, Kind::Listing, Kind::Template];

static LENDINGS: [Lending; 10] = [
    Lending {
        words: &["t.asl"],
        file: ("t.asl", ONE_NAME),
        status: 0,
        left: &[Kind::RawAml],
    },
    Lending {
        words: &["t.asl", "-tc"],
        file: ("t.asl", ONE_NAME),
        status: 0,
        left: &[Kind::RawAml, Kind::CHex],
    },
    Lending {
        words: &["-l", "t.asl"],
        file: ("t.asl", ONE_NAME),
        status: 0,
        left: &[Kind::RawAml, Kind::Listing],
    },
    Lending {
        words: &["-tc", "-l", "t.asl"],
        file: ("t.asl", ONE_NAME),
        status: 0,
        left: &[Kind::RawAml, Kind::CHex, Kind::Listing],
    },
    // The boxes that the first table was in are those that the second is in.
    Lending {
        words: &["-tc", "t.asl"],
        file: ("t.asl", TWO_BLOCKS),
        status: 0,
        left: &[Kind::RawAml, Kind::CHex],
    },
    Lending {
        words: &["-T", "HPET"],
        file: ("t.asl", ONE_NAME),
        status: 0,
        left: &[Kind::Template],
    },
    Lending {
        words: &["-T", "DSDT"],
        file: ("t.asl", ONE_NAME),
        status: 2,
        left: ALL,
    },
    Lending {
        words: &["-tc", "-P", "t.asl"],
        file: ("t.asl", ONE_NAME),
        status: 0,
        left: ALL,
    },
    Lending {
        words: &["-tc", "t.asl"],
        file: ("t.asl", WRONG_ARGUMENTS),
        status: 1,
        left: ALL,
    },
    Lending {
        words: &["-tc", "t.hex"],
        file: ("t.hex", ONE_NAME),
        status: 2,
        left: ALL,
    },
];

fn are_left(backends: &Vec<Box<dyn Backend>>, wanted: &[Kind]) -> bool {
    let mut same = backends.len() == wanted.len();
    for (i, kind) in wanted.iter().enumerate() {
        same = same
            && backends
                .get(i)
                .is_some_and(|backend| backend.kind() == *kind);
    }
    same
}

// How a run ended: its status, what it put, and what it told.
#[derive(Drop)]
struct Ended {
    status: u8,
    outs: MemoryOutputs,
    console: MemorySink,
}

// A run of these words over these boxes, where there is this one file.
fn run_on(
    alloc: Global,
    words: &[&str],
    file: (&str, &[u8]),
    backends: &mut Vec<Box<dyn Backend>>,
) -> Result<Ended, AllocError>
    requires { IsOneOfEach (λ b. kind_of b) backends.old.items }
{
    let words = given_words(alloc, words)?;
    let mut files = MemoryFiles::new(alloc);
    files.add(file.0, file.1)?;
    let mut outs = MemoryOutputs::new(alloc);
    let mut console = MemorySink::new(alloc, 1000)?;
    let status = iasl(alloc, &words, &mut files, &mut outs, &mut console, backends);
    Ok(Ended {
        status,
        outs,
        console,
    })
}

// Whether a run ends with its status and leaves its boxes.
fn is_right(alloc: Global, lending: &Lending) -> Result<bool, AllocError> {
    let mut backends = boxes(alloc)?;
    let ended = run_on(alloc, lending.words, lending.file, &mut backends)?;
    Ok(ended.status == lending.status && are_left(&backends, lending.left))
}

#[test]
fn boxes_that_are_left(rt: HostRuntime) -> Result<(), AllocError> {
    for lending in &LENDINGS {
        assert!(rt; is_right(rt.alloc(), lending)?);
    }
    Ok(())
}

// The header, and a piece for each name.
const TWO_NAMES: &[u8] = b"DefinitionBlock (\"\", \"SSDT\", 2, \"OEMX00\", \"TABLE001\", 1)
{
    Name (X, 5)
    Name (Y, 6)
}
";

// A run over boxes of which one may refuse a piece: its option, its source, its status, how many files it puts, what it
// tells, and the kind of the box that is left beside that of the table.
struct Refusal {
    word: &'static str,
    source: &'static [u8],
    status: u8,
    put: usize,
    told: &'static [u8],
    left: Kind,
}

// Whether a run over these boxes is that.
fn is_refusal(
    alloc: Global,
    row: &Refusal,
    mut backends: Vec<Box<dyn Backend>>,
) -> Result<bool, AllocError>
    requires { IsOneOfEach (λ b. kind_of b) backends.items }
{
    let ended = run_on(
        alloc,
        &[row.word, "t.asl"],
        ("t.asl", row.source),
        &mut backends,
    )?;
    Ok(
        ended.status == row.status
            && ended.outs.names().len() == row.put
            && ended.console.as_bytes() == row.told
            && are_left(&backends, &[Kind::RawAml, row.left]),
    )
}

static FIRST_PIECE: Refusal = Refusal {
    word: "-tc",
    source: ONE_NAME,
    status: 4,
    put: 0,
    told: b"iasl: out of memory\n",
    left: Kind::CHex,
};

static THIRD_PIECE: Refusal = Refusal {
    word: "-l",
    source: TWO_NAMES,
    status: 4,
    put: 0,
    told: b"iasl: out of memory\n",
    left: Kind::Listing,
};

static NO_THIRD_PIECE: Refusal = Refusal {
    word: "-l",
    source: ONE_NAME,
    status: 0,
    put: 2,
    told: b"t.aml: SSDT, 43 bytes\n0 errors, 0 warnings, 0 remarks\n",
    left: Kind::Listing,
};

fn first_piece_is_refused(alloc: Global) -> Result<bool, AllocError> {
    is_refusal(alloc, &FIRST_PIECE, refusing_boxes(alloc)?)
}

fn third_piece_is_refused(alloc: Global) -> Result<bool, AllocError> {
    is_refusal(alloc, &THIRD_PIECE, boxes_of_two_pieces(alloc)?)
}

fn two_pieces_are_taken(alloc: Global) -> Result<bool, AllocError> {
    is_refusal(alloc, &NO_THIRD_PIECE, boxes_of_two_pieces(alloc)?)
}

// Whether the runs over boxes that refuse a piece are such.
fn are_refusals(alloc: Global) -> Result<bool, AllocError> {
    Ok(
        first_piece_is_refused(alloc)?
            && third_piece_is_refused(alloc)?
            && two_pieces_are_taken(alloc)?,
    )
}

#[test]
fn boxes_that_refuse(rt: HostRuntime) -> Result<(), AllocError> {
    assert!(rt; are_refusals(rt.alloc())?);
    Ok(())
}

// The boxes of a run in which an array and a listing were asked for, with one for the template again; none where that is not so.
fn taken_again(
    alloc: Global,
    mut backends: Vec<Box<dyn Backend>>,
) -> Result<Option<Vec<Box<dyn Backend>>>, AllocError>
    ensures { IfOk result (λ taken. IfSome taken (λ backends. IsOneOfEach (λ b. kind_of b) backends.items)) }
{
    let Some(listing) = backends.pop() else {
        return Ok(None);
    };
    let Some(array) = backends.pop() else {
        return Ok(None);
    };
    let Some(table) = backends.pop() else {
        return Ok(None);
    };
    if listing.kind() != Kind::Listing
        || array.kind() != Kind::CHex
        || table.kind() != Kind::RawAml
    {
        return Ok(None);
    }
    let template = Box::new(alloc, TemplateText::new(alloc))?;
    Ok(Some(one_of_each(alloc, table, array, listing, template)?))
}

const WORDS: &[&str] = &["-l", "-tc", "t.asl"];

// Whether a run over these boxes tells this, with this status.
fn tells(
    alloc: Global,
    backends: &mut Vec<Box<dyn Backend>>,
    status: u8,
    told: &[u8],
) -> Result<Option<MemoryOutputs>, AllocError>
    requires { IsOneOfEach (λ b. kind_of b) backends.old.items }
{
    let ended = run_on(alloc, WORDS, ("t.asl", CONTROLLER), backends)?;
    let tells = ended.status == status && ended.console.as_bytes() == told;
    Ok(tells.then_some(ended.outs))
}

// Whether these are the three files of another run.
fn are_files_of(outs: &MemoryOutputs, ran: &Ran) -> bool {
    outs.names().len() == 3
        && are_same(outs.names(), ran.outs.names())
        && are_same(outs.bodies(), ran.outs.bodies())
}

// Whether the boxes of a run that one of them ends serve a second run, which puts the files of the controller.
fn boxes_serve_again(alloc: Global) -> Result<bool, AllocError> {
    let whole = run(alloc, WORDS, CONTROLLER)?;
    let mut backends = boxes_of_two_pieces(alloc)?;
    let is_refused = tells(alloc, &mut backends, 4, b"iasl: out of memory\n")?.is_some_and(
        |outs| outs.names().is_empty(),
    );
    let Some(mut again) = taken_again(alloc, backends)? else {
        return Ok(false);
    };
    let serves = tells(alloc, &mut again, 0, CONSOLE)?.is_some_and(|outs| are_files_of(
        &outs, &whole,
    ));
    Ok(is_refused && serves)
}

#[test]
fn boxes_that_serve_again(rt: HostRuntime) -> Result<(), AllocError> {
    assert!(rt; boxes_serve_again(rt.alloc())?);
    Ok(())
}
