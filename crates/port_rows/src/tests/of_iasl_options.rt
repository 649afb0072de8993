ghost use Rattle.std.specs.Prelude.{IfOk};
ghost use Rattle.iasl_options.specs.Shown.{AreTexts};

use asl_preprocess::Defines;
use iasl_options::command_line::options;
use iasl_options::names::{file_name, output_name};
use iasl_options::request::{Options, WordsStop};
use iasl_options::switches::Switches;
use iasl_ports::list::Texts;
use std::alloc::{AllocError, Global};

fn asked(alloc: Global, words: &[&str]) -> Result<Result<Options, WordsStop>, AllocError>
    ensures { IfOk result (λ answer. IfOk answer AreTexts) }
{
    let mut given = Vec::new(alloc);
    for word in words {
        given.push(String::from_str(alloc, word)?)?;
    }
    Ok(options(alloc, &given))
}

fn are(texts: &Texts, wanted: &[&[u8]]) -> bool {
    let mut same = texts.len() == wanted.len();
    for (i, one) in wanted.iter().enumerate() {
        same = same && texts.get(i).is_some_and(|text| text.as_bytes() == *one);
    }
    same
}

fn define(defines: &Defines, wanted: &[(&[u8], &[u8])]) -> bool {
    let mut same = defines.len() == wanted.len();
    for (i, (name, text)) in wanted.iter().enumerate() {
        same = same
            && defines.get(i).is_some_and(|one| one.name.as_bytes() == *name
                && one.text.as_bytes() == *text);
    }
    same
}

// Words, and what they ask for.
#[derive(Drop)]
struct Good {
    words: &'static [&'static str],
    file: &'static [u8],
    prefix: Option<&'static [u8]>,
    dirs: &'static [&'static [u8]],
    defines: &'static [(&'static [u8], &'static [u8])],
    only: bool,
    enabled: bool,
    switches: Switches,
    ignored: &'static [&'static [u8]],
}

fn has_prefix(options: &Options, wanted: Option<&[u8]>) -> bool {
    match (&options.prefix, wanted) {
        (Some(prefix), Some(wanted)) => prefix.as_bytes() == wanted,
        (None, None) => true,
        _ => false,
    }
}

fn ask_for(options: &Options, row: &Good) -> bool {
    options.file.as_bytes() == row.file
        && has_prefix(options, row.prefix)
        && are(&options.dirs, row.dirs)
        && define(&options.defines, row.defines)
        && options.only == row.only
        && options.enabled == row.enabled
        && options.switches == row.switches
        && are(&options.ignored, row.ignored)
}

// What no switch asks for.
const NONE: Switches = Switches {
    brief: false,
    strict: false,
    c_text: false,
    listing: false,
    generic: false,
    fold: true,
    short: true,
    shorten: true,
    wrap: false,
    acpica: false,
    remarks: true,
    warnings: true,
    errors: true,
};

// What `t.asl` alone asks for.
const PLAIN: Good = Good {
    words: &["t.asl"],
    file: b"t.asl",
    prefix: None,
    dirs: &[],
    defines: &[],
    only: false,
    enabled: true,
    switches: NONE,
    ignored: &[],
};

// Words that are taken, each with what they ask for.
static GOOD_WORDS: [Good; 28] = [
    PLAIN,
    Good {
        words: &["-vr", "t.asl"],
        switches: Switches {
            remarks: false,
            ..NONE
        },
        ..PLAIN
    },
    Good {
        words: &["t.asl", "-ve", "-vr"],
        switches: Switches {
            remarks: false,
            warnings: false,
            ..NONE
        },
        ..PLAIN
    },
    Good {
        words: &["-va", "t.asl"],
        switches: Switches {
            remarks: false,
            warnings: false,
            errors: false,
            ..NONE
        },
        ..PLAIN
    },
    Good {
        words: &["-vw", "3003", "t.asl", "-vw2001", "-vw", "-P"],
        ignored: &[b"3003", b"2001", b"-P"],
        ..PLAIN
    },
    Good {
        words: &["-p", "d.x/dsdt.aml", "--acpica", "t.asl"],
        prefix: Some(b"d.x/dsdt"),
        switches: Switches {
            wrap: true,
            acpica: true,
            ..NONE
        },
        ..PLAIN
    },
    Good {
        words: &["--acpica", "-pd.x/dsdt", "t.asl"],
        prefix: Some(b"d.x/dsdt"),
        switches: Switches {
            wrap: true,
            acpica: true,
            ..NONE
        },
        ..PLAIN
    },
    Good {
        words: &["-vs", "-w1", "t.asl", "-w2", "-w3"],
        ..PLAIN
    },
    Good {
        words: &["-p", "out", "t.asl"],
        prefix: Some(b"out"),
        ..PLAIN
    },
    Good {
        words: &["-pout", "t.asl"],
        prefix: Some(b"out"),
        ..PLAIN
    },
    Good {
        words: &["t.asl", "-p", "-P"],
        prefix: Some(b"-P"),
        ..PLAIN
    },
    Good {
        words: &["-p", "", "t.asl"],
        prefix: Some(b""),
        ..PLAIN
    },
    Good {
        words: &["-I", "a", "t.asl", "-Ib", "-I", "-D"],
        dirs: &[b"a", b"b", b"-D"],
        ..PLAIN
    },
    Good {
        words: &["-D", "A", "t.asl"],
        defines: &[(b"A", b"")],
        ..PLAIN
    },
    Good {
        words: &[
            "-D", "A=7", "-DA=B=C", "t.asl", "-DB=", "-D", "=x", "-D", "",
        ],
        defines: &[
            (b"A", b"7"),
            (b"A", b"B=C"),
            (b"B", b""),
            (b"", b"x"),
            (b"", b""),
        ],
        ..PLAIN
    },
    Good {
        words: &["-P", "t.asl", "-P"],
        only: true,
        ..PLAIN
    },
    Good {
        words: &["t.asl", "-Pn", "-Pn"],
        enabled: false,
        ..PLAIN
    },
    Good {
        words: &["-vi", "t.asl", "-vi"],
        switches: Switches {
            brief: true,
            ..NONE
        },
        ..PLAIN
    },
    Good {
        words: &["-we", "-P", "t.asl", "-we"],
        only: true,
        switches: Switches {
            strict: true,
            ..NONE
        },
        ..PLAIN
    },
    Good {
        words: &["-oi", "t.asl"],
        switches: Switches {
            short: false,
            ..NONE
        },
        ..PLAIN
    },
    Good {
        words: &["t.asl", "-on", "-on"],
        switches: Switches {
            shorten: false,
            ..NONE
        },
        ..PLAIN
    },
    Good {
        words: &["-of", "t.asl", "-of"],
        switches: Switches {
            fold: false,
            ..NONE
        },
        ..PLAIN
    },
    Good {
        words: &["-oa", "-oi", "t.asl"],
        switches: Switches {
            fold: false,
            short: false,
            shorten: false,
            ..NONE
        },
        ..PLAIN
    },
    Good {
        words: &["--wrap-externals", "t.asl", "--wrap-externals"],
        switches: Switches { wrap: true, ..NONE },
        ..PLAIN
    },
    Good {
        words: &["-G", "t.asl", "-G"],
        switches: Switches {
            generic: true,
            ..NONE
        },
        ..PLAIN
    },
    Good {
        words: &["-tc", "t.asl", "-tc"],
        switches: Switches {
            c_text: true,
            ..NONE
        },
        ..PLAIN
    },
    Good {
        words: &["-l", "t.asl", "-tc"],
        switches: Switches {
            c_text: true,
            listing: true,
            ..NONE
        },
        ..PLAIN
    },
    Good {
        words: &["-p", "-we", "-I-vi", "t.asl"],
        prefix: Some(b"-we"),
        dirs: &[b"-vi"],
        ..PLAIN
    },
];

#[test]
fn good_words(rt: HostRuntime) -> Result<(), AllocError> {
    for row in &GOOD_WORDS {
        let same = match asked(rt.alloc(), row.words)? {
            Ok(options) => ask_for(&options, row),
            Err(_) => false,
        };
        assert!(rt; same);
    }
    Ok(())
}

// Words, and where they are refused: the number of a word, or how many there are.
static BAD_WORDS: [(&[&str], usize); 25] = [
    (&[], 0),
    (&["-P"], 1),
    (&[""], 0),
    (&["t.asl", "u.asl", "v.asl"], 1),
    (&["-p", "t.asl"], 2),
    (&["t.asl", "-D"], 2),
    (&["-D"], 1),
    (&["-I"], 1),
    (&["-P", "-Pn", "t.asl"], 1),
    (&["t.asl", "-Pn", "-I", "d", "-P"], 4),
    (&["-p", "a", "-p", "b", "t.asl"], 2),
    (&["-p", "a", "-pb", "t.asl"], 2),
    (&["-pa", "t.asl", "-p"], 2),
    (&["-x", "t.asl"], 0),
    (&["t.asl", "-"], 1),
    (&["-Pfoo", "t.asl"], 0),
    (&["t.asl", "--generate", "2"], 1),
    (&["--generate", "2"], 0),
    (&["-L", "t.asl"], 0),
    (&["t.asl", "--wrap-external"], 1),
    (&["-vi", "-we", "-oa", "-of", "-oi", "-on"], 6),
    (&["-v", "t.asl"], 0),
    (&["t.asl", "-vi", "-wea"], 2),
    (&["-vi", "-we"], 2),
    (&["-i", "-d", "t.asl"], 0),
];

#[test]
fn bad_words(rt: HostRuntime) -> Result<(), AllocError> {
    for (words, wanted) in &BAD_WORDS {
        let same = match asked(rt.alloc(), words)? {
            Err(WordsStop::Bad { word }) => word == *wanted,
            _ => false,
        };
        assert!(rt; same);
    }
    Ok(())
}

// Words, an extension, and the name of the output.
static NAMES: [(&[&str], &str, &str); 12] = [
    (&["t.asl"], ".aml", "t.aml"),
    (&["d.x/t"], ".aml", "d.x/t.aml"),
    (&["d.x/t.asl"], ".i", "d.x/t.i"),
    (&["a.b.c"], ".i", "a.b.i"),
    (&[".asl"], ".aml", ".aml"),
    (&["d/.asl"], ".aml", "d/.aml"),
    (&["t."], ".aml", "t.aml"),
    (&["t"], ".aml", "t.aml"),
    (&["d.x/"], ".aml", "d.x/.aml"),
    (&["-p", "out", "d/t.asl"], ".aml", "out.aml"),
    (&["-p", "o.u/t.x", "t.asl"], ".i", "o.u/t.x.i"),
    (&["-p", "", "t.asl"], ".aml", ".aml"),
];

#[test]
fn names_of_outputs(rt: HostRuntime) -> Result<(), AllocError> {
    for (words, extension, wanted) in &NAMES {
        let same = match asked(rt.alloc(), words)? {
            Ok(options) => output_name(rt.alloc(), &options, extension)?.as_str() == *wanted,
            Err(_) => false,
        };
        assert!(rt; same);
    }
    Ok(())
}

#[test]
fn name_of_the_file(rt: HostRuntime) -> Result<(), AllocError> {
    let same = match asked(rt.alloc(), &["-p", "out", "d.x/\u{e9}.asl"])? {
        Ok(options) => file_name(&options) == "d.x/\u{e9}.asl",
        Err(_) => false,
    };
    assert!(rt; same);
    Ok(())
}
