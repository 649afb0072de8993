use super::many::{NAMES, add, device, segment, value_node};
use super::words::terms;
use super::{Outcome, wrong_row};
use name_entries::entries::{Entries, entries_of};
use std::alloc::{AllocError, Global};
use std::test::Fail;

// Each scope has a name for each three characters of 36.
const SCOPES: u32 = 16;

// Whether the use in a scope denotes the Name there.
fn is_own(names: &Entries, scope: u32, number: u32) -> bool {
    let Some(target) = names.denotes(value_node(scope, number)) else {
        return false;
    };
    match names.entry(target) {
        Some(entry) => {
            entry.path.root
                && entry.path.segs.as_slice()
                    == [segment(b'D', scope), segment(b'N', number)].as_slice()
        }
        None => false,
    }
}

// Each of the 746,496 uses denotes the Name of its own scope.
#[test]
fn many_uses_are_found(rt: HostRuntime) -> Result<(), Fail> {
    let alloc = rt.alloc();
    let mut terms = Vec::new(alloc);
    for scope in 0..SCOPES {
        add(&mut terms, 0, device(alloc, b'D', scope, NAMES)?)?;
    }
    let names = entries_of(alloc, &terms)?;
    let mut found: u32 = 0;
    for scope in 0..SCOPES {
        for number in 0..NAMES {
            if is_own(&names, scope, number) {
                found = found.wrapping_add(1);
            }
        }
    }
    assert_eq!(rt; found, 746_496);
    Ok(())
}

// The entry of the path that a used name denotes.
fn told(alloc: Global, names: &Entries, node: u32) -> Result<String, AllocError> {
    let Some(number) = names.denotes(node) else {
        return Ok(format!(in alloc; "nothing")?);
    };
    let Some(entry) = names.entry(number) else {
        return Ok(format!(in alloc; "no entry")?);
    };
    let kind = entry.kind;
    let arity = entry.arity;
    let line = entry.place.line;
    let column = entry.place.column;
    Ok(format!(in alloc; "{kind:?} {arity} {line}.{column}")?)
}

/// A method, aliases of it, a circle, an alias of nothing, objects of other tables, and a descriptor, an alias of it and a
/// Buffer: the terms 1 to 12.
const DECLARED: &str =
    "Method:MTHD,10 Alias:MTHD,ALI1 Alias:ALI1,ALI2 Alias:CIR2,CIR1 Alias:CIR1,CIR2 Alias:MISS,ALI3 \
    External:EXTM,8,3 External:EXTU,0 External:EXTD,6 Name:DESC,[ Alias:DESC,ALI4 Name:BUFF,&";

/// Uses behind those terms, and for each use the kind, the number of arguments and the place of what it denotes.
const USES: &str = "
    // Aliases have the kind and the number of arguments of what they lead to, and the place of their own names.
    MTHD ALI1 ALI2 CIR1 CIR2 ALI3 => Method 2 1.2; Method 2 2.3; Method 2 3.3; Data 0 4.3; Data 0 5.3; Data 0 6.3;
    // An object of another table is what its External and its first call say; the root's objects have no place.
    EXTM EXTU:0,1 EXTD _SB_ _OSI _GL_ MISS => \
        Method 3 7.2; Method 2 8.2; Device 0 9.2; Container 0 1.1; Method 1 1.1; Mutex 0 1.1; nothing;
    // A descriptor is declared by a Name of bytes alone, and an alias of it is one.
    DESC ALI4 BUFF => Descriptor 0 10.2; Descriptor 0 11.3; Data 0 12.2;
";

// The entries of uses behind the terms that are declared.
pub(super) fn entries_told(alloc: Global, uses: &str) -> Result<String, AllocError> {
    let text = format!(in alloc; "{DECLARED} {uses}")?;
    let nodes = terms(alloc, text.as_str())?;
    let names = entries_of(alloc, &nodes)?;
    let mut out = String::new(alloc);
    let mut node: u32 = 12;
    for word in uses.split(' ') {
        node = node.wrapping_add(1);
        out.push_str(told(alloc, &names, node)?.as_str())?;
        out.push_str("; ")?;
    }
    Ok(out)
}

#[test]
fn entries_are_what_names_denote(rt: HostRuntime) -> Result<(), Fail> {
    let alloc = rt.alloc();
    assert_eq!(rt; wrong_row(alloc, Outcome::Entries, USES)?.as_str(), "");
    Ok(())
}
