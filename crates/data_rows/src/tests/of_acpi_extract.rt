use acpi_extract::dump::tables;
use acpi_extract::run::extract;
use iasl_messages::message::{Messages, Stage};
use iasl_ports::files::MOST_BYTES;
use iasl_ports::list::Texts;
use iasl_ports::memory::{MemoryFiles, MemoryOutputs, MemorySink};
use std::alloc::{AllocError, Global};

// A dump with one SSDT of 36 bytes.
const SMALL: &[u8] = b"SSDT @ 0x0000000000000000
    0000: 53 53 44 54 24 00 00 00 02 8B 4F 45 4D 58 30 30  SSDT$.....OEMX00
    0010: 54 41 42 4C 45 30 30 31 01 00 00 00 49 4E 54 4C  TABLE001....INTL
    0020: 05 01 21 20                                      ..!
";

const SMALL_TABLE: &[u8] =
    b"SSDT\x24\x00\x00\x00\x02\x8BOEMX00TABLE001\x01\x00\x00\x00INTL\x05\x01\x21\x20";

// A DSDT and two SSDTs, the last without a line's end.
const THREE: &[u8] = b"DSDT @ 0x0
    0000: 44 53 44 54 08 00 00 00

SSDT @ 0xABcd
0000: 53 53 44 54 08 00 00 00\r
ssdt @ 0x1
\t0000: 73 73 64 74 09 00 00 00 07";

const THREE_CUT: &[u8] = b"DSDT @ 0x0
    0000: 44 53 44 54 08 00 00 00

SSDT @ 0xABcd
0000: 53 53 44 54 08 00 00 00\r
ssdt @ 0x1
\t0000: 73 73 64 74 09 00 00 00 0";

// Tables that are no code, with two pointers, which tell no length.
const OTHERS: &[u8] = b"RSD PTR @ 0x0
    0000: 52 53
FACP @ 0x0
    0000: 46 41 43 50 08 00 00 00
facp @ 0x0
    0000: 46 41 43 50 08 00 00 00  two
RSDP @ 0x0
Facp @ 0x0
    0000: 46 41 43 50 08 00 00 00
";

// A run: words, the text of `d.txt`, and what is told and put.
#[derive(Drop)]
struct Row {
    words: &'static [&'static str],
    text: &'static [u8],
    status: u8,
    names: &'static [&'static [u8]],
    told: &'static [u8],
}

// Which fetch, which put and which write fail.
#[derive(Drop)]
struct Failing {
    fetch: u64,
    put: u64,
    write: u64,
}

// No failure.
static NONE: Failing = Failing {
    fetch: 9,
    put: 9,
    write: 9,
};

// A run's ports, and its status.
struct Ran {
    status: u8,
    files: MemoryFiles,
    outs: MemoryOutputs,
    console: MemorySink,
}

impl Drop for Ran {
    fn drop(self) {
        let Ran {
            status: _,
            files: _,
            outs: _,
            console: _,
        } = self;
    }
}

fn files_of(alloc: Global, text: &[u8], failing: u64) -> Result<MemoryFiles, AllocError> {
    let mut files = MemoryFiles::new(alloc);
    files.add("d.txt", text)?;
    files.fail_at(failing)?;
    Ok(files)
}

fn outs_of(alloc: Global, failing: u64) -> Result<MemoryOutputs, AllocError> {
    let mut outs = MemoryOutputs::new(alloc);
    outs.fail_at(failing)?;
    Ok(outs)
}

fn console_of(alloc: Global, failing: u64) -> Result<MemorySink, AllocError> {
    let mut console = MemorySink::new(alloc, 1000)?;
    console.fail_at(failing)?;
    Ok(console)
}

// A run that is to begin.
fn ready(alloc: Global, text: &[u8], failing: &Failing) -> Result<Ran, AllocError> {
    Ok(Ran {
        status: 0,
        files: files_of(alloc, text, failing.fetch)?,
        outs: outs_of(alloc, failing.put)?,
        console: console_of(alloc, failing.write)?,
    })
}

fn words_of(alloc: Global, words: &[&str]) -> Result<Vec<String>, AllocError> {
    let mut given = Vec::new(alloc);
    for word in words {
        given.push(String::from_str(alloc, word)?)?;
    }
    Ok(given)
}

fn run(alloc: Global, words: &[&str], text: &[u8], failing: &Failing) -> Result<Ran, AllocError> {
    let given = words_of(alloc, words)?;
    let mut ran = ready(alloc, text, failing)?;
    let status = extract(
        alloc,
        &given,
        &mut ran.files,
        &mut ran.outs,
        &mut ran.console,
    );
    ran.status = status;
    Ok(ran)
}

fn are(texts: &Texts, wanted: &[&[u8]]) -> bool {
    let mut same = texts.len() == wanted.len();
    for (i, one) in wanted.iter().enumerate() {
        same = same && texts.get(i).is_some_and(|text| text.as_bytes() == *one);
    }
    same
}

// Runs with no failure, each with its words, its text, and what is told and put.
static RUNS: [Row; 13] = [
    Row {
        words: &["d.txt"],
        text: SMALL,
        status: 0,
        names: &[b"ssdt1.dat"],
        told: b"ssdt1.dat: SSDT, 36 bytes\n0 errors, 0 warnings, 0 remarks\n",
    },
    Row {
        words: &["-l", "d.txt"],
        text: SMALL,
        status: 0,
        names: &[],
        told: b"SSDT 36 bytes\n0 errors, 0 warnings, 0 remarks\n",
    },
    Row {
        words: &["d.txt"],
        text: THREE,
        status: 0,
        names: &[b"dsdt.dat", b"ssdt1.dat", b"ssdt2.dat"],
        told: b"dsdt.dat: DSDT, 8 bytes\nssdt1.dat: SSDT, 8 bytes\nssdt2.dat: ssdt, 9 bytes\n0 errors, 0 warnings, 0 remarks\n",
    },
    Row {
        words: &["d.txt"],
        text: THREE_CUT,
        status: 1,
        names: &[],
        told: b"d.txt:7:1: error 6101: bad pair\n1 errors, 0 warnings, 0 remarks\n",
    },
    Row {
        words: &["d.txt"],
        text: OTHERS,
        status: 0,
        names: &[],
        told: b"0 errors, 0 warnings, 0 remarks\n",
    },
    Row {
        words: &["-a", "d.txt"],
        text: OTHERS,
        status: 0,
        names: &[
            b"rsdp.dat",
            b"facp.dat",
            b"facp2.dat",
            b"rsdp2.dat",
            b"facp3.dat",
        ],
        told: b"rsdp.dat: RSD PTR, 2 bytes\nfacp.dat: FACP, 8 bytes\nfacp2.dat: facp, 8 bytes\nrsdp2.dat: RSDP, 0 bytes\n\
            facp3.dat: Facp, 8 bytes\n0 errors, 0 warnings, 0 remarks\n",
    },
    Row {
        words: &["-s", "RsdP", "d.txt"],
        text: OTHERS,
        status: 0,
        names: &[b"rsdp.dat", b"rsdp2.dat"],
        told: b"rsdp.dat: RSD PTR, 2 bytes\nrsdp2.dat: RSDP, 0 bytes\n0 errors, 0 warnings, 0 remarks\n",
    },
    Row {
        words: &["-l", "d.txt"],
        text: OTHERS,
        status: 0,
        names: &[],
        told: b"RSD PTR 2 bytes\nFACP 8 bytes\nfacp 8 bytes\nRSDP 0 bytes\nFacp 8 bytes\n0 errors, 0 warnings, 0 remarks\n",
    },
    Row {
        words: &["-s", "", "d.txt"],
        text: SMALL,
        status: 2,
        names: &[],
        told: b"usage: acpixtract [options] FILE\n",
    },
    Row {
        words: &["-x", "d.txt"],
        text: SMALL,
        status: 2,
        names: &[],
        told: b"usage: acpixtract [options] FILE\n",
    },
    Row {
        words: &["d.txt", "-l"],
        text: SMALL,
        status: 2,
        names: &[],
        told: b"usage: acpixtract [options] FILE\n",
    },
    Row {
        words: &[],
        text: SMALL,
        status: 2,
        names: &[],
        told: b"usage: acpixtract [options] FILE\n",
    },
    Row {
        words: &["e.txt"],
        text: SMALL,
        status: 3,
        names: &[],
        told: b"acpixtract: file fault\n",
    },
];

// Whether a run with no failure is that of its row.
fn is_right(alloc: Global, row: &Row) -> Result<bool, AllocError> {
    let ran = run(alloc, row.words, row.text, &NONE)?;
    Ok(
        ran.status == row.status
            && are(ran.outs.names(), row.names)
            && ran.console.as_bytes() == row.told,
    )
}

fn gives_small(alloc: Global) -> Result<bool, AllocError> {
    let ran = run(alloc, &["d.txt"], SMALL, &NONE)?;
    Ok(are(ran.outs.bodies(), &[SMALL_TABLE]))
}

#[test]
fn words_and_dumps(rt: HostRuntime) -> Result<(), AllocError> {
    for row in &RUNS {
        assert!(rt; is_right(rt.alloc(), row)?);
    }
    assert!(rt; gives_small(rt.alloc())?);
    Ok(())
}

// A dump with a fault, its number and its line.
#[derive(Drop)]
struct Fault {
    text: &'static [u8],
    number: u16,
    line: u32,
}

// The number, the line and the column of the one message, and zeros where there is not one.
fn one_place(messages: &Messages) -> (u16, u32, u32) {
    match messages.get(0) {
        Some(first) if messages.len() == 1 => {
            (first.number, first.place.line, first.place.column)
        }
        _ => (0, 0, 0),
    }
}

#[tactic(auto, using(iasl_messages::proofs::Cutting::count_lines))]
fn first_fault(alloc: Global, text: &[u8]) -> (u16, u32, u32) {
    if text.len() > MOST_BYTES {
        return (0, 0, 0);
    }
    match tables(alloc, text) {
        Ok(_) => (0, 0, 0),
        Err(Stage::Refused(messages)) => one_place(&messages),
        Err(Stage::Memory) => (0, 0, 0),
    }
}

// Dumps that are refused, each with the number and the line of its one fault.
static FAULTS: [Fault; 11] = [
    Fault {
        text: b"\n \t\nDSDT @ 0x\n",
        number: 6100,
        line: 3,
    },
    Fault {
        text: b"RSDP @ 0x0\n\n  0000: 00\n",
        number: 6100,
        line: 3,
    },
    Fault {
        text: b"A/CD @ 0x0\n",
        number: 6100,
        line: 1,
    },
    Fault {
        text: b"RSDP @ 0x0\n 0000: 00 \n",
        number: 6101,
        line: 2,
    },
    Fault {
        text: b"RSDP @ 0x0\n 0000: 00 01 02 03 04 05 06 07 08 09 0A 0B 0C 0D 0E 0F 10\n",
        number: 6101,
        line: 2,
    },
    Fault {
        text: b"RSDP @ 0x0\n 0000 : 00\n",
        number: 6101,
        line: 2,
    },
    Fault {
        text: b"SSDT @ 0x0\n    0000: 53 53 44 54 24 00 00 00 02 8B 4F 45 4D 58 30 30\n    0020: 54 41 42 4C\n",
        number: 6102,
        line: 3,
    },
    Fault {
        text: b"RSDP @ 0x0\n 10000000000000000: 00\n",
        number: 6102,
        line: 2,
    },
    Fault {
        text: b"RSDP @ 0x0\nSSDT @ 0x0\n 0000: 53 53 44 54 07 00 00\n",
        number: 6103,
        line: 2,
    },
    Fault {
        text: b"SSDT @ 0x0\n 0000: 53 53 44 54 09 00 00 00\n\nstray\n",
        number: 6103,
        line: 1,
    },
    Fault {
        text: b"SSDT @ 0x0\n 0000: 53 53 44 54 09 00 00 00\nzz\n",
        number: 6101,
        line: 3,
    },
];

#[test]
fn faults(rt: HostRuntime) -> Result<(), AllocError> {
    for row in &FAULTS {
        assert!(rt; first_fault(rt.alloc(), row.text) == (row.number, row.line, 1));
    }
    Ok(())
}

const DSDT: &[u8] = b"DSDT\x08\x00\x00\x00";

const SSDT: &[u8] = b"SSDT\x08\x00\x00\x00";

const LAST: &[u8] = b"ssdt\x09\x00\x00\x00\x07";

// What fails, and what stands then: a put that fails leaves half of its file.
static FAILURES: [(Failing, &[&[u8]]); 5] = [
    (
        Failing {
            fetch: 1,
            put: 9,
            write: 9,
        },
        &[],
    ),
    (
        Failing {
            fetch: 9,
            put: 1,
            write: 9,
        },
        &[b"DSDT"],
    ),
    (
        Failing {
            fetch: 9,
            put: 2,
            write: 9,
        },
        &[DSDT, b"SSDT"],
    ),
    (
        Failing {
            fetch: 9,
            put: 3,
            write: 9,
        },
        &[DSDT, SSDT, b"ssdt"],
    ),
    (
        Failing {
            fetch: 9,
            put: 9,
            write: 1,
        },
        &[DSDT, SSDT, LAST],
    ),
];

// Whether a run of three tables ends with a file fault and these files.
fn stops(alloc: Global, failing: &Failing, bodies: &[&[u8]]) -> Result<bool, AllocError> {
    let ran = run(alloc, &["d.txt"], THREE, failing)?;
    Ok(
        ran.status == 3
            && are(ran.outs.bodies(), bodies)
            && ran.console.as_bytes() == b"acpixtract: file fault\n".as_slice(),
    )
}

#[test]
fn failing_ports(rt: HostRuntime) -> Result<(), AllocError> {
    for (failing, bodies) in &FAILURES {
        assert!(rt; stops(rt.alloc(), failing, bodies)?);
    }
    Ok(())
}

// Whether the list of a text is refused because it is too large.
fn is_refused(alloc: Global, text: &[u8]) -> Result<bool, AllocError> {
    let ran = run(alloc, &["-l", "d.txt"], text, &NONE)?;
    let told = b"d.txt:1:1: error 6007: text is too large\n1 errors, 0 warnings, 0 remarks\n";
    Ok(ran.status == 1 && ran.outs.names().len() == 0 && ran.console.as_bytes() == told.as_slice())
}

fn has_status(alloc: Global, text: &[u8], status: u8) -> Result<bool, AllocError> {
    let ran = run(alloc, &["d.txt"], text, &NONE)?;
    Ok(ran.status == status)
}

// Whether a text is too large, and is not without its first byte.
fn is_just_too_large(alloc: Global) -> Result<bool, AllocError> {
    let text = vec![in alloc; b'\n'; MOST_BYTES + 1]?;
    Ok(is_refused(alloc, &text)? && has_status(alloc, &text[1..], 0)?)
}

#[test]
fn too_large(rt: HostRuntime) -> Result<(), AllocError> {
    assert!(rt; is_just_too_large(rt.alloc())?);
    Ok(())
}
