use super::many::{add, device};
use super::words::terms;
use super::{Outcome, wrong_row};
use acpi_names::index::{BlockNames, denoted_by, names_of};
use acpi_names::mention::{Asked, Mention};
use asl_tree::path::{NameSeg, Path};
use std::alloc::{AllocError, Global};
use std::test::Fail;

// How many uses denote a name of their own scope.
fn own_uses(found: &BlockNames) -> usize {
    let mut count: usize = 0;
    for mention in &found.mentions {
        match mention {
            Mention::Used { name, scope, .. } => {
                if is_own(found, name, *scope) {
                    count = count.wrapping_add(1);
                }
            }
            _ => {}
        }
    }
    count
}

fn is_own(found: &BlockNames, name: &Path, scope: usize) -> bool {
    let paths = &found.index.paths;
    if scope >= paths.len() || found.index.named.len() != paths.len() {
        return false;
    }
    let Some(number) = denoted_by(&found.index, name, scope) else {
        return false;
    };
    match paths.step(number) {
        Some(below) => {
            let last = below.1;
            below.0 == scope && is_alone(name, last)
        }
        None => false,
    }
}

fn is_alone(name: &Path, segment: NameSeg) -> bool {
    match name.segs.as_slice().get(0) {
        Some(first) => *first == segment,
        None => false,
    }
}

// Each of the 5,184 uses is found in its own scope.
#[test]
fn many_names_are_found(rt: HostRuntime) -> Result<(), Fail> {
    let alloc = rt.alloc();
    let mut nodes = Vec::new(alloc);
    for number in 0..4_u32 {
        add(&mut nodes, 0, device(alloc, b'N', number, 1_296)?)?;
    }
    let found = names_of(alloc, &nodes)?;
    assert_eq!(rt; own_uses(&found), 5_184);
    Ok(())
}

// The letter of a mention; a small one where nothing is asked of its kind.
fn letter(mention: &Mention) -> char {
    match mention {
        Mention::Used { asked, .. } => match asked {
            Asked::Value => 'U',
            Asked::Mutex => 'M',
            Asked::Event => 'V',
            Asked::Unit => 'F',
            Asked::Region(_) => 'R',
            _ => 'u',
        },
        Mention::Sought { .. } => 'S',
        Mention::Called { asked: true, .. } => 'C',
        Mention::Called { .. } => 'c',
        Mention::Declares { .. } => 'D',
        Mention::Outside { .. } => 'E',
        Mention::Opens { .. } => 'O',
    }
}

// The letters of the mentions of names in the terms of a text.
pub(super) fn letters(alloc: Global, text: &str) -> Result<String, AllocError> {
    let nodes = terms(alloc, text)?;
    let found = names_of(alloc, &nodes)?;
    let mut out = String::new(alloc);
    for mention in &found.mentions {
        out.push(letter(mention))?;
    }
    Ok(out)
}

/// Terms, and a letter for each mention of a name in them, in order.
const MENTIONS: &str = "
    External:E___,0 Device:N000{ Name:N000,N000 } Alias:X___,Z___ \
        Scope:D___{ Method:M___,0{ Store:X___,Y___ RefOf:X___ CondRefOf:Q___,X___ Return:X___ } } => EDDUuDODUuuSuU
    Field:R___,1,*4,+A___,*4,+B___,@16 IndexField:A___,B___,1,*4,+C___,@16 BankField:R___,A___,X___,1,*4,+E___,@16 \
        Release:M___ Wait:V___,X___ => RDDFFDRFUDMVU
";

#[test]
fn mentions_stand_in_order(rt: HostRuntime) -> Result<(), Fail> {
    let alloc = rt.alloc();
    assert_eq!(rt; wrong_row(alloc, Outcome::Mentions, MENTIONS)?.as_str(), "");
    Ok(())
}
