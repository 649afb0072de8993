use super::words::{path, terms};
use super::{Outcome, wrong_row};
use acpi_names::index::{BlockNames, Index, denoted_by, names_of};
use asl_tree::path::Path;
use asl_tree::term::{Node, Term};
use name_spelling::spell::spell;
use std::alloc::{AllocError, Global};
use std::test::Fail;

fn write_path(alloc: Global, out: &mut String, path: &Path) -> Result<(), AllocError> {
    if path.root {
        out.push('\\')?;
    }
    for _ in 0..path.up {
        out.push('^')?;
    }
    for segment in path.segs.as_slice() {
        for byte in segment {
            out.push(char::from(*byte))?;
        }
        out.push(' ')?;
    }
    Ok(())
}

// The names and the numbers of terms, each with a blank behind it, in the order in which they stand.
fn write_terms(alloc: Global, out: &mut String, nodes: &[Node]) -> Result<(), AllocError> {
    for node in nodes {
        match &node.term {
            Term::Name(path) => write_path(alloc, out, path)?,
            Term::Integer(number) => out.push_str(format!(in alloc; "{number} ")?.as_str())?,
            Term::Form { args, body, .. } => {
                write_terms(alloc, out, args)?;
                write_terms(alloc, out, body)?;
            }
            _ => {}
        }
    }
    Ok(())
}

// The number of the path that a name in the root denotes, or 0.
fn number_of(index: &Index, path: &Path) -> usize {
    if index.named.len() != index.paths.len() || index.paths.len() == 0 {
        return 0;
    }
    denoted_by(index, path, 0).unwrap_or(0)
}

// The terms as they are spelled, with these calls of their names, and these paths that a search meets besides.
fn spelled(
    alloc: Global,
    index: Index,
    calls: &[Option<usize>],
    also: &[bool],
    shorten: bool,
    terms: Vec<Node>,
) -> Result<String, AllocError> {
    let mut out = String::new(alloc);
    let count = index.paths.len();
    if index.named.len() == count && calls.len() <= count && also.len() <= count {
        let spelled = spell(alloc, index, calls, also, shorten, terms)?;
        write_terms(alloc, &mut out, &spelled)?;
    }
    Ok(out)
}

// No call of any name but of the one with a number, which has so many arguments.
fn one_call(
    alloc: Global,
    number: usize,
    arguments: Option<usize>,
) -> Result<Vec<Option<usize>>, AllocError> {
    let mut calls = Vec::new(alloc);
    for _ in 0..number {
        calls.push(None)?;
    }
    calls.push(arguments)?;
    Ok(calls)
}

// The terms of a text as they are spelled; before them stands the number of arguments with which E___ is called first, or -.
pub(super) fn spelled_text(alloc: Global, shorten: bool, text: &str) -> Result<String, AllocError> {
    let Some((count, text)) = text.split_once(' ') else {
        return Ok(String::new(alloc));
    };
    let terms = terms(alloc, text)?;
    let BlockNames { index, mentions } = names_of(alloc, &terms)?;
    drop(mentions);
    let number = number_of(&index, &path(alloc, "E___")?);
    let calls = one_call(alloc, number, count.parse().ok())?;
    spelled(alloc, index, &calls, &[], shorten, terms)
}

/// The number of arguments of the first call of E___, or - where there is none, terms, and their names and numbers as they are spelled.
const WRITTEN: &str = "
    // In A, X has two candidates and Y has one; a Package's names are searched late.
    - Device:A___{ Name:X___,0 Name:B___,X___ Name:Y___,1 Name:C___,Y___ } Name:X___,2 Name:D___,X___ Name:P___,#X___.Z___ => \
        A___ X___ 0 B___ \\A___ X___ Y___ 1 C___ Y___ X___ 2 D___ X___ P___ \\X___ \\Z___
    // Externals with a type or none, and with parameters, a call or neither.
    - External:E___,8,2 => E___ 8 2
    3 External:E___,8 => E___ 8 3
    - External:E___,8 => E___ 8 0
    1 External:E___,0 => E___ 8 1
    - External:E___,0 => E___ 0 0
    - External:E___,1 => E___ 1 0
";

/// The same where names are shortened.
const SHORTENED: &str = "
    - Name:X___,5 Device:D___{ Name:Y___,1 Name:B___,\\X___ Device:M___{ Name:Y___,2 Name:Z___,\\D___.Y___ } } => \
        X___ 5 D___ Y___ 1 B___ X___ M___ Y___ 2 Z___ ^Y___
";

#[test]
fn names_are_spelled(rt: HostRuntime) -> Result<(), Fail> {
    let alloc = rt.alloc();
    assert_eq!(rt;
        wrong_row(alloc, Outcome::Spelled { shorten: false }, WRITTEN)?.as_str(),
        ""
    );
    assert_eq!(rt;
        wrong_row(alloc, Outcome::Spelled { shorten: true }, SHORTENED)?.as_str(),
        ""
    );
    Ok(())
}

// The flags of the path of a name alone, which is named no longer.
fn taken(alloc: Global, index: &mut Index, path: &Path) -> Result<Vec<bool>, AllocError> {
    let taken = number_of(index, path);
    let mut flags = Vec::new(alloc);
    for number in 0..index.paths.len() {
        flags.push(number == taken)?;
    }
    if let Some(named) = index.named.get_mut(taken) {
        *named = false;
    }
    Ok(flags)
}

/// Terms in which \D.X is then no object.
const BESIDE: &str = "Name:X___,5 Device:D___{ Name:X___,0 Name:B___,X___ Name:C___,\\X___ }";

// Those terms as they are spelled, where a search meets \D.X or not.
fn spelled_beside(alloc: Global, shorten: bool, is_met: bool) -> Result<String, AllocError> {
    let terms = terms(alloc, BESIDE)?;
    let BlockNames {
        mut index,
        mentions,
    } = names_of(alloc, &terms)?;
    drop(mentions);
    let flags = taken(alloc, &mut index, &path(alloc, "\\D___.X___")?)?;
    let also: &[bool] = if is_met { flags.as_slice() } else { &[] };
    spelled(alloc, index, &[], also, shorten, terms)
}

/// Whether names are shortened, whether a search meets \D.X, and the names and numbers of those terms.
static MET: [(bool, bool, &str); 4] = [
    (true, true, "X___ 5 D___ X___ 0 B___ \\X___ C___ \\X___ "),
    (true, false, "X___ 5 D___ X___ 0 B___ X___ C___ X___ "),
    (false, true, "X___ 5 D___ X___ 0 B___ \\X___ C___ \\X___ "),
    (false, false, "X___ 5 D___ X___ 0 B___ X___ C___ \\X___ "),
];

#[test]
fn what_is_met_stands_in_the_way(rt: HostRuntime) -> Result<(), Fail> {
    let alloc = rt.alloc();
    for (shorten, is_met, want) in &MET {
        assert_eq!(rt; spelled_beside(alloc, *shorten, *is_met)?.as_str(), *want);
    }
    Ok(())
}
