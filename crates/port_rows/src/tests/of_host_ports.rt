use host_ports::host::{HostFiles, HostOutputs, HostSink};
use host_ports::program_text::{ProgramText, program_text};
use iasl_ports::files::{FetchFault, Files, MOST_BYTES};
use iasl_ports::outputs::{Outputs, PutFault};
use iasl_ports::sink::write_all;
use std::alloc::{AllocError, Global};

fn fetch_len<F: Files>(files: &mut F, alloc: Global, name: &str) -> Result<usize, FetchFault> {
    Ok(files.fetch(alloc, name)?.len())
}

fn put_one<O: Outputs>(outs: &mut O, name: &str, bytes: &[u8]) -> Result<(), PutFault> {
    outs.put(name, bytes)
}

#[test]
fn the_host_has_what_was_put(rt: HostRuntime) {
    let mut outs = HostOutputs::new(rt.alloc(), rt);
    assert!(rt; put_one(&mut outs, "made.bin", b"hello") == Ok(()));
    assert!(rt; put_one(&mut outs, "no/such/dir/made.bin", b"hello") == Err(PutFault::Failed));
    let mut files = HostFiles::new(rt);
    assert!(rt; fetch_len(&mut files, rt.alloc(), "made.bin") == Ok(5));
    assert!(rt; fetch_len(&mut files, rt.alloc(), "absent.bin") == Err(FetchFault::Absent));
    assert!(rt; fetch_len(&mut files, rt.alloc(), "made.bin/x") == Err(FetchFault::Absent));
    assert!(rt; fetch_len(&mut files, rt.alloc(), ".") == Err(FetchFault::Failed));
    let mut sink = HostSink::new(rt);
    assert!(rt; write_all(&mut sink, b"told\n") == Ok(()));
}

// Names that no file of the system can have: one with a NUL byte, and one of 5,000 characters.
#[test]
fn the_host_lacks_impossible_names(rt: HostRuntime) -> Result<(), AllocError> {
    let mut files = HostFiles::new(rt);
    assert!(rt; fetch_len(&mut files, rt.alloc(), "made\0.bin") == Err(FetchFault::Absent));
    let long = "long/".repeat(rt.alloc(), 1000)?;
    assert!(rt; fetch_len(&mut files, rt.alloc(), &long) == Err(FetchFault::Absent));
    Ok(())
}

// So many bytes, which begin anew behind each 251.
fn some_bytes(alloc: Global, count: usize) -> Result<Vec<u8>, AllocError> {
    let mut bytes = Vec::new(alloc);
    for at in 0..count {
        bytes.push((at % 251) as u8)?;
    }
    Ok(bytes)
}

// Whether a fetch gives these bytes.
fn fetches<F: Files>(files: &mut F, alloc: Global, name: &str, bytes: &[u8]) -> bool {
    match files.fetch(alloc, name) {
        Ok(fetched) => fetched.as_slice() == bytes,
        Err(_) => false,
    }
}

// A file of a size that no buffer has, and one of the most bytes.
static SIZES: [usize; 2] = [300_000, MOST_BYTES];

#[test]
fn large_files_are_put_and_fetched_whole(rt: HostRuntime) -> Result<(), AllocError> {
    let mut outs = HostOutputs::new(rt.alloc(), rt);
    let mut files = HostFiles::new(rt);
    for count in &SIZES {
        let bytes = some_bytes(rt.alloc(), *count)?;
        assert!(rt;
            put_one(&mut outs, "large.bin", &bytes) == Ok(())
                && fetches(&mut files, rt.alloc(), "large.bin", &bytes)
        );
    }
    Ok(())
}

#[test]
fn a_file_of_a_byte_more_is_too_large(rt: HostRuntime) -> Result<(), AllocError> {
    let bytes = vec![in rt.alloc(); b'x'; MOST_BYTES + 1]?;
    let mut outs = HostOutputs::new(rt.alloc(), rt);
    let mut files = HostFiles::new(rt);
    assert!(rt; put_one(&mut outs, "larger.bin", &bytes) == Ok(()));
    assert!(rt; fetch_len(&mut files, rt.alloc(), "larger.bin") == Err(FetchFault::TooLarge));
    Ok(())
}

// What words ask of the program itself.
static TEXTS: [(&[&str], Option<ProgramText>); 8] = [
    (&["-h"], Some(ProgramText::Help)),
    (&["--help"], Some(ProgramText::Help)),
    (&["-v"], Some(ProgramText::Version)),
    (&["--version"], Some(ProgramText::Version)),
    (&[], None),
    (&["-V"], None),
    (&["-h", "t.asl"], None),
    (&["t.asl"], None),
];

#[test]
fn one_word_alone_asks_for_a_text(rt: HostRuntime) -> Result<(), AllocError> {
    for (words, wanted) in &TEXTS {
        let mut given = Vec::new(rt.alloc());
        for word in words.iter() {
            given.push(String::from_str(rt.alloc(), word)?)?;
        }
        assert!(rt; program_text(&given) == *wanted);
    }
    Ok(())
}
