use asl_preprocess::{Define, Defines, PreStop, Preprocessed, preprocess};
use iasl_messages::message::Message;
use iasl_messages::place::Line;
use iasl_ports::files::MOST_BYTES;
use iasl_ports::list::{Text, Texts};
use iasl_ports::memory::MemoryFiles;
use std::alloc::{AllocError, Global};

fn texts_of(alloc: Global, items: &[&str]) -> Result<Texts, AllocError> {
    let mut texts = Texts::new(alloc);
    for item in items {
        texts.push(Text::from_bytes(alloc, item.as_bytes())?)?;
    }
    Ok(texts)
}

fn define_of(alloc: Global, name: &str, text: &str) -> Result<Define, AllocError> {
    Ok(Define {
        name: Text::from_bytes(alloc, name.as_bytes())?,
        text: Text::from_bytes(alloc, text.as_bytes())?,
    })
}

fn defines_of(alloc: Global, items: &[(&str, &str)]) -> Result<Defines, AllocError> {
    let mut defines = Defines::new(alloc);
    for (name, text) in items {
        defines.push(define_of(alloc, name, text)?)?;
    }
    Ok(defines)
}

// Files, of which this fetch fails. The first fetch is 1.
fn files_of(
    alloc: Global,
    given: &[(&str, &str)],
    failing: u64,
) -> Result<MemoryFiles, AllocError> {
    let mut files = MemoryFiles::new(alloc);
    for (name, text) in given {
        files.add(name, text.as_bytes())?;
    }
    files.fail_at(failing)?;
    Ok(files)
}

// `FILE:LINE:TEXT`
fn put_line(alloc: Global, out: &mut String, line: &Line) -> Result<(), AllocError> {
    let text = String::from_utf8_lossy(alloc, line.text.as_bytes())?;
    let file = line.file;
    let number = line.number;
    write!(out, "{file}:{number}:{text}\n")
}

// `NUMBER FILE:LINE:COLUMN NAME`
fn put_message(alloc: Global, out: &mut String, message: &Message) -> Result<(), AllocError> {
    let name = String::from_utf8_lossy(alloc, message.name.as_bytes())?;
    let number = message.number;
    let file = message.place.file;
    let line = message.place.line;
    let column = message.place.column;
    write!(out, "{number} {file}:{line}:{column} {name}\n")
}

fn put_file_name(alloc: Global, out: &mut String, name: &Text) -> Result<(), AllocError> {
    let name = String::from_utf8_lossy(alloc, name.as_bytes())?;
    write!(out, "{name};")
}

// Whether the first line is too long to be shown.
fn is_large(it: &Preprocessed) -> bool {
    match it.lines.list.as_slice() {
        [line, ..] => line.text.as_bytes().len() > 1000,
        [] => false,
    }
}

// Each line and then each note. Of large texts only how many lines there are.
fn put_given(alloc: Global, out: &mut String, it: &Preprocessed) -> Result<(), AllocError> {
    if is_large(it) {
        let lines = it.lines.list.len();
        return write!(out, "{lines} lines");
    }
    for line in it.lines.list.as_slice() {
        put_line(alloc, out, line)?;
    }
    for note in it.notes.as_slice() {
        put_message(alloc, out, note)?;
    }
    Ok(())
}

// The message behind `!`, and the names of the files.
fn put_refused(
    alloc: Global,
    out: &mut String,
    message: &Message,
    files: &Texts,
) -> Result<(), AllocError> {
    out.push_str("!")?;
    put_message(alloc, out, message)?;
    for name in files.as_slice() {
        put_file_name(alloc, out, name)?;
    }
    Ok(())
}

fn put_answer(
    alloc: Global,
    out: &mut String,
    answer: &Result<Preprocessed, PreStop>,
) -> Result<(), AllocError> {
    match answer {
        Ok(it) => put_given(alloc, out, it),
        Err(PreStop::Refused { message, files }) => put_refused(alloc, out, message, files),
        Err(PreStop::Absent) => out.push_str("absent"),
        Err(PreStop::ReadFault) => out.push_str("fault"),
        Err(PreStop::Memory) => Err(AllocError),
    }
}

// What a run over these files gives, whose main file is `t.asl`.
fn put_run(
    alloc: Global,
    out: &mut String,
    files: &mut MemoryFiles,
    dirs: &[&str],
    defines: &[(&str, &str)],
    enabled: bool,
) -> Result<(), AllocError> {
    let dirs = texts_of(alloc, dirs)?;
    let defines = defines_of(alloc, defines)?;
    let answer = preprocess(alloc, files, "t.asl", &dirs, &defines, enabled);
    put_answer(alloc, out, &answer)
}

// Whether this is shown of that run.
fn gives(
    alloc: Global,
    files: &mut MemoryFiles,
    dirs: &[&str],
    defines: &[(&str, &str)],
    enabled: bool,
    shown: &str,
) -> Result<bool, AllocError> {
    let mut out = String::new(alloc);
    put_run(alloc, &mut out, files, dirs, defines, enabled)?;
    Ok(out.as_str() == shown)
}

fn is_right_alone(alloc: Global, text: &str, shown: &str) -> Result<bool, AllocError> {
    let mut files = files_of(alloc, &[("t.asl", text)], 0)?;
    gives(alloc, &mut files, &[], &[], true, shown)
}

// One main file alone, with the preprocessor enabled, and what is shown of the answer.
static ALONE: [(&str, &str); 49] = [
    // directives and their forms
    ("", ""),
    ("\n", "0:1:\n"),
    ("a\r\nb\n", "0:1:a\n0:2:b\n"),
    ("a\r", "0:1:a\r\n"),
    (
        "#define A 5\n#if A > 4\nName (X, A)\n#else\nB\n#endif\n",
        "0:3:Name (X, 5)\n",
    ),
    (" \t# define\tA   a  b /* c */ \nA", "0:2:a  b\n"),
    ("#define A\nA|A", "0:2:|\n"),
    ("#define A/**/1\nA", "0:2:1\n"),
    ("#define A(x) 1\n", "!6003 0:1:1 \nt.asl;"),
    ("#define 5 1\n", "!6003 0:1:1 \nt.asl;"),
    ("#define A B\n#define B A c\nA", "0:3:A c\n"),
    ("#define A 1\n#undef A // gone\nA", "0:3:A\n"),
    ("#undef A B\n", "!6003 0:1:1 \nt.asl;"),
    ("__IASL__ __IASL_", "0:1:1 __IASL_\n"),
    (
        "#define A \"A\" A /* A */\nA \"A\" // A\n/* A\nA */ A",
        "0:2:\"A\" A \"A\" // A\n0:3:/* A\n0:4:A */ \"A\" A\n",
    ),
    ("  #\n", "!6003 0:1:3 \nt.asl;"),
    ("x\n #foo\n", "!6003 0:2:2 \nt.asl;"),
    ("#ifx\n", "!6003 0:1:1 \nt.asl;"),
    ("/*\n#foo\n*/ #\n", "0:1:/*\n0:2:#foo\n0:3:*/ #\n"),
    ("#define A /* x\nB\n", "!6003 0:1:1 \nt.asl;"),
    ("#define A 1\\\n2\\\n + 3\nA\n", "0:4:12 + 3\n"),
    ("#define A 1\\", ""),
    ("#define A \\\n", ""),
    ("#if 0\n#define A \\\n#else\nx\n#else\ny\n#endif", "0:6:y\n"),
    (
        "#error  it is \"so\" \t\n",
        "!6005 0:1:1 it is \"so\"\nt.asl;",
    ),
    (
        "#warning w\n#pragma message ( \"m m\" )\nx\n",
        "0:3:x\n3004 0:1:1 w\n2001 0:2:1 m m\n",
    ),
    ("#pragma message(\"\")", "2001 0:1:1 \n"),
    ("#pragma once\n", "!6003 0:1:1 \nt.asl;"),
    ("#pragma message (\"a\"b\")\n", "!6003 0:1:1 \nt.asl;"),
    (
        "#if 0\n#error no\n#foo\n#warning no\n#include \"x\"\n#define A /*\nA\n#endif\nA",
        "0:9:A\n",
    ),
    // conditionals
    ("#if 1\na\n#elif 1 / 0\nb\n#else\nc\n#endif\n", "0:2:a\n"),
    (
        "#if 0\na\n#elif 1\nb\n#elif 1 / 0\nc\n#else\nd\n#endif\n",
        "0:4:b\n",
    ),
    ("#if 0\na\n#elif 0\nb\n#else\nc\n#endif\n", "0:6:c\n"),
    ("#if 1 / 0\n#endif\n", "!6006 0:1:1 \nt.asl;"),
    ("#if 0\n#elif\n#endif\n", "!6006 0:2:1 \nt.asl;"),
    ("#ifdef __IASL__\na\n#else\nb\n#endif\n", "0:2:a\n"),
    ("#ifndef __IASL__\na\n#else x\nb\n#endif y\n", "0:4:b\n"),
    ("#define A\n#undef A\n#ifdef A\na\n#endif\nb", "0:6:b\n"),
    ("#ifdef 1\n#endif\n", "!6003 0:1:1 \nt.asl;"),
    (
        "#if 0\n#ifdef 1 2\n#ifndef\n#if 1 / 0\na\n#elif 1\nb\n#else\nc\n#endif\n#endif\n#endif\n#endif\nd",
        "0:14:d\n",
    ),
    (
        "#if 0\n#if 1\n#else /* x\n#endif\n#endif\n",
        "!6003 0:3:1 \nt.asl;",
    ),
    ("x\n #endif\n", "!6004 0:2:2 \nt.asl;"),
    ("#else\n", "!6004 0:1:1 \nt.asl;"),
    ("#elif 1 / 0\n", "!6004 0:1:1 \nt.asl;"),
    ("#if 1\n#else\n#else\n#endif\n", "!6004 0:3:1 \nt.asl;"),
    ("#if 0\n#else\n#elif 1\n#endif\n", "!6004 0:3:1 \nt.asl;"),
    ("a\n  #if 1\n#if 0\n#if 1\n#endif\n", "!6004 0:2:3 \nt.asl;"),
    ("#if 1\n#error first\n", "!6005 0:2:1 first\nt.asl;"),
    (
        "#define A 1\n#if defined A && defined (A) && !defined B && A == 1\na\n#endif\n",
        "0:3:a\n",
    ),
];

#[test]
fn directives_and_conditionals(rt: HostRuntime) -> Result<(), AllocError> {
    for (text, shown) in &ALONE {
        assert!(rt; is_right_alone(rt.alloc(), text, shown)?);
    }
    Ok(())
}

// A run: the files, of which the first is the main file; the directories; the definitions; the fetch that fails, counted
// from 1, or 0; and what is shown of the answer: `FILE:LINE:TEXT` of each line and then `NUMBER FILE:LINE:COLUMN NAME` of
// each note; or that of the first stop, behind `!`, and the names of the files.
#[derive(Clone, Copy)]
struct Row {
    files: &'static [(&'static str, &'static str)],
    dirs: &'static [&'static str],
    defines: &'static [(&'static str, &'static str)],
    enabled: bool,
    failing: u64,
    shown: &'static str,
}

const NO_FILES: Row = Row {
    files: &[],
    dirs: &[],
    defines: &[],
    enabled: true,
    failing: 0,
    shown: "",
};

const ITSELF: Row = Row {
    files: &[("t.asl", "#include \"t.asl\"\n")],
    ..NO_FILES
};

const SEARCHED: Row = Row {
    files: &[("t.asl", "#include <a>\n"), ("a", "x")],
    dirs: &["no", ""],
    shown: "fault",
    ..NO_FILES
};

static INCLUDES: [Row; 21] = [
    Row {
        files: &[
            ("t.asl", "a\n#include \"b/c.h\"\nx\n"),
            ("b/c.h", "#define x y\n#include \"d.h\"\n"),
            ("b/d.h", "d x\n"),
            ("d.h", "no\n"),
        ],
        shown: "0:1:a\n2:1:d y\n0:3:y\n",
        ..NO_FILES
    },
    Row {
        files: &[
            ("t.asl", "#include \"f\"\n#include <f>\n#include \"f\"\n"),
            ("f", "here\n"),
            ("i/f", "first\n"),
            ("j/f", "second\n"),
        ],
        dirs: &["i", "j/"],
        shown: "1:1:here\n2:1:first\n1:1:here\n",
        ..NO_FILES
    },
    Row {
        files: &[
            ("t.asl", "#include <f>\n#include \"g\"\n#include \"/h\"\n"),
            ("j/f", "second\n"),
            ("g", "g\n"),
            ("/h", "h\n"),
        ],
        dirs: &["", "i", "j/"],
        shown: "1:1:second\n2:1:g\n3:1:h\n",
        ..NO_FILES
    },
    Row {
        files: &[("t.asl", "#include <f>\n"), ("f", "f\n")],
        dirs: &["i"],
        shown: "!6001 0:1:1 f\nt.asl;",
        ..NO_FILES
    },
    Row {
        files: &[
            ("t.asl", "x\n  #include \"a\"\n"),
            ("a", "#include \"b\"\n"),
            ("b", "#include \"no\"\n"),
        ],
        shown: "!6001 2:1:1 no\nt.asl;a;b;",
        ..NO_FILES
    },
    Row {
        files: &[("t.asl", "#include \"t.asl\"\n")],
        shown: "!6002 0:1:1 t.asl\nt.asl;",
        ..NO_FILES
    },
    Row {
        files: &[
            ("t.asl", "#if 1\n#include \"a\"\n#endif\n"),
            ("a", "#endif\n"),
        ],
        shown: "!6004 1:1:1 \nt.asl;a;",
        ..NO_FILES
    },
    Row {
        files: &[("t.asl", "#include \"a\"\n#endif\n"), ("a", "x\n#if 1\n")],
        shown: "!6004 1:2:1 \nt.asl;a;",
        ..NO_FILES
    },
    Row {
        files: &[
            ("t.asl", "#include \"a\"\n#define b 1\n*/ b\n"),
            ("a", "b /*\n#foo"),
        ],
        shown: "1:1:b /*\n1:2:#foo\n0:3:*/ 1\n",
        ..NO_FILES
    },
    Row {
        files: &[
            (
                "t.asl",
                " /* x */ iNcLuDe /**/ ( \"a\" ) // y\n#define a 1\nInclude (\"a\") b\nInclude (\"a\") /* x\n*/ Include (\"a\")\n",
            ),
            ("a", "in\n"),
        ],
        shown: "1:1:in\n0:3:Include (\"a\") b\n0:4:Include (\"a\") /* x\n0:5:*/ Include (\"a\")\n",
        ..NO_FILES
    },
    Row {
        files: &[
            ("t.asl", "#if 0\n#define a 1\nInclude (\"b\")\na\n"),
            ("b", "#foo\nInclude (\"c\")\n"),
            ("c", "a"),
        ],
        defines: &[("a", "2")],
        enabled: false,
        shown: "0:1:#if 0\n0:2:#define a 1\n1:1:#foo\n2:1:a\n0:4:a\n",
        ..NO_FILES
    },
    Row {
        files: &[("t.asl", "a\n /**/ Include (\"\")\n")],
        shown: "!6003 0:2:7 \nt.asl;",
        ..NO_FILES
    },
    Row {
        files: &[("t.asl", "#include \"\"\n")],
        shown: "!6003 0:1:1 \nt.asl;",
        ..NO_FILES
    },
    Row {
        files: &[(
            "t.asl",
            "#if 0\n#include \"no\"\nInclude (\"no\")\n#endif\nx",
        )],
        shown: "0:5:x\n",
        ..NO_FILES
    },
    Row {
        files: &[("t.asl", "A B\n#undef A\nA\n#define A 3\nA\n")],
        defines: &[("A", "0"), ("A", "7"), ("B", "")],
        shown: "0:1:7 \n0:3:A\n0:5:3\n",
        ..NO_FILES
    },
    Row {
        files: &[("u.asl", "x")],
        shown: "absent",
        ..NO_FILES
    },
    // The 33rd level is not fetched.
    Row {
        failing: 33,
        shown: "fault",
        ..ITSELF
    },
    Row {
        failing: 34,
        shown: "!6002 0:1:1 t.asl\nt.asl;",
        ..ITSELF
    },
    // A failed fetch is no absent file.
    Row {
        failing: 1,
        ..SEARCHED
    },
    Row {
        failing: 2,
        ..SEARCHED
    },
    Row {
        failing: 3,
        ..SEARCHED
    },
];

fn is_right(alloc: Global, row: &Row) -> Result<bool, AllocError> {
    let mut files = files_of(alloc, row.files, row.failing)?;
    gives(
        alloc,
        &mut files,
        row.dirs,
        row.defines,
        row.enabled,
        row.shown,
    )
}

#[test]
fn includes_and_fetches(rt: HostRuntime) -> Result<(), AllocError> {
    for row in &INCLUDES {
        assert!(rt; is_right(rt.alloc(), row)?);
    }
    Ok(())
}

// A large text: what stands first, so many lines of so many `x`, and so many times what stands last.
#[derive(Clone, Copy)]
struct Large {
    first: &'static str,
    lines: usize,
    size: usize,
    last: &'static str,
    times: usize,
}

const EMPTY: Large = Large {
    first: "",
    lines: 0,
    size: 0,
    last: "",
    times: 0,
};

const ONE_LINE: Large = Large { lines: 1, ..EMPTY };

const LINES: Large = Large {
    lines: 16383,
    size: 1023,
    last: "#include \"a\"\n",
    times: 1,
    ..EMPTY
};

const REPLACED: Large = Large {
    first: "#define A ",
    lines: 1,
    size: 1024,
    last: "A\n",
    times: 0,
};

// A large main file, a file `a` that it may include, and what is shown.
static LARGE_FILES: [(Large, Large, &str); 3] = [
    (
        Large {
            size: MOST_BYTES - 1,
            ..ONE_LINE
        },
        EMPTY,
        "1 lines",
    ),
    (
        Large {
            size: MOST_BYTES,
            ..ONE_LINE
        },
        EMPTY,
        "!6007 0:1:1 \nt.asl;",
    ),
    (
        Large {
            first: "x\n #include \"a\"\n",
            ..EMPTY
        },
        Large {
            size: MOST_BYTES,
            ..ONE_LINE
        },
        "!6007 0:2:1 \nt.asl;",
    ),
];

static LINES_TOGETHER: [(Large, Large, &str); 2] = [
    (
        LINES,
        Large {
            size: 1024,
            ..ONE_LINE
        },
        "16384 lines",
    ),
    (
        LINES,
        Large {
            size: 1025,
            ..ONE_LINE
        },
        "!6007 1:1:1 \nt.asl;a;",
    ),
];

static REPLACEMENTS: [(Large, Large, &str); 2] = [
    (
        Large {
            times: 16368,
            ..REPLACED
        },
        EMPTY,
        "16368 lines",
    ),
    (
        Large {
            times: 16369,
            ..REPLACED
        },
        EMPTY,
        "!6007 0:16370:1 \nt.asl;",
    ),
];

static XS: [u8; 1024] = [b'x'; 1024];

fn put_large_line(bytes: &mut Vec<u8>, size: usize) -> Result<(), AllocError> {
    for _ in 0..size / 1024 {
        bytes.extend_from_slice(&XS)?;
    }
    bytes.extend_from_slice(XS.split_at(size % 1024).0)?;
    bytes.extend_from_slice(b"\n")
}

fn put_times(bytes: &mut Vec<u8>, text: &str, times: usize) -> Result<(), AllocError> {
    for _ in 0..times {
        bytes.extend_from_slice(text.as_bytes())?;
    }
    Ok(())
}

fn add_large(
    alloc: Global,
    files: &mut MemoryFiles,
    name: &str,
    large: &Large,
) -> Result<(), AllocError> {
    let mut bytes = Vec::new(alloc);
    put_times(&mut bytes, large.first, 1)?;
    for _ in 0..large.lines {
        put_large_line(&mut bytes, large.size)?;
    }
    put_times(&mut bytes, large.last, large.times)?;
    files.add(name, &bytes)
}

fn is_right_large(
    alloc: Global,
    main: &Large,
    other: &Large,
    shown: &str,
) -> Result<bool, AllocError> {
    let mut files = MemoryFiles::new(alloc);
    add_large(alloc, &mut files, "t.asl", main)?;
    add_large(alloc, &mut files, "a", other)?;
    gives(alloc, &mut files, &[], &[], true, shown)
}

fn are_right_large(alloc: Global, rows: &[(Large, Large, &str)]) -> Result<bool, AllocError> {
    for (main, other, shown) in rows {
        if !is_right_large(alloc, main, other, shown)? {
            return Ok(false);
        }
    }
    Ok(true)
}

#[test]
fn files_that_are_too_large(rt: HostRuntime) -> Result<(), AllocError> {
    assert!(rt; are_right_large(rt.alloc(), &LARGE_FILES)?);
    Ok(())
}

#[test]
fn lines_that_are_too_large_together(rt: HostRuntime) -> Result<(), AllocError> {
    assert!(rt; are_right_large(rt.alloc(), &LINES_TOGETHER)?);
    Ok(())
}

#[test]
fn replacement_has_room(rt: HostRuntime) -> Result<(), AllocError> {
    assert!(rt; are_right_large(rt.alloc(), &REPLACEMENTS)?);
    Ok(())
}
