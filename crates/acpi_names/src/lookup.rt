//! Where written names lead.
ghost use Rattle.std.specs.Prelude.{◌≡◌, ◌↔◌, ◌<◌, ◌^◌, [], ◌∷◌, length, get_or, drop, IsTrue, IfOk, OnOk, IfSome};
ghost use Rattle.acpi_names.specs.Paths.{number_in, Extends, path_with, is_named_in};
ghost use Rattle.asl_tree.specs.Names.{absolute, below, prefix_scope, declared_path, denoted, single_segment};

use crate::paths::{Paths, nearest};
use asl_tree::path::{NameSeg, Path, Segs};
use std::alloc::{AllocError, Global};

// No more paths than this, so that a number has 32 bits.
const MOST: usize = 0xFFFF_FFFF;

/// The scope that is so many steps up. The root has no scope around it.
pub fn outer(paths: &Paths, scope: usize, up: u32) -> usize
    requires { scope < length paths.now }
    ensures within { result < length paths.now }
    ensures path { get_or paths.now result [] ≡ drop up (get_or paths.now scope []) }
{
    let mut around = scope;
    let mut left = up;
    while left > 0 {
        match paths.step(around) {
            Some((parent, _)) => around = parent,
            None => return around,
        }
        left -= 1;
    }
    around
}

/// The scope that a name's prefix leads to.
pub fn prefixed(paths: &Paths, name: &Path, scope: usize) -> usize
    requires { scope < length paths.now }
    ensures within { result < length paths.now }
    ensures path { get_or paths.now result [] ≡ prefix_scope name.now (get_or paths.now scope []) }
{
    let len = paths.len();
    if name.root {
        0
    } else {
        outer(paths, scope, name.up)
    }
}

/// The path of these segments below a scope, where it is there.
pub fn find(paths: &Paths, scope: usize, segs: &[NameSeg]) -> Option<usize>
    requires { scope < length paths.now }
    ensures { result ≡ number_in paths.now (below (get_or paths.now scope []) segs.now) }
{
    let mut at = scope;
    let len = paths.len();
    for seg in segs {
        match paths.child(at, *seg) {
            Some(number) => at = number,
            None => return None,
        }
    }
    Some(at)
}

// Whether there is room for a path more, so that its number has 32 bits.
fn has_room(paths: &Paths) -> bool
    ensures { IsTrue result ↔ length paths.now < 2 ^ 32 }
{
    let count = paths.len();
    count <= MOST
}

/// The path of these segments below a scope, which is there from now on, with all between. There is no room for more than 2^32 paths.
pub fn intern(paths: &mut Paths, scope: usize, segs: &[NameSeg]) -> Result<usize, AllocError>
    requires { scope < length paths.old }
    ensures within { IfOk result (λ n. n < length paths.new) }
    ensures path { IfOk result (λ n. get_or paths.new n [] ≡ below (get_or paths.old scope []) segs.now) }
    ensures others { OnOk result (Extends paths.old paths.new) }
{
    let mut at = scope;
    for seg in segs {
        if !has_room(paths) {
            return Err(AllocError);
        }
        at = paths.add(at, *seg)?;
    }
    Ok(at)
}

/// The nearest of the named paths that a used name is searched at. `named` says of each number whether its path
/// is named.
pub fn denotes(paths: &Paths, named: &[bool], name: &Path, scope: usize) -> Option<usize>
    requires scope_in { scope < length paths.now }
    requires all { length named.now ≡ length paths.now }
    ensures within { IfSome result (λ n. n < length paths.now) }
    ensures path { path_with paths.now result ≡ denoted (is_named_in paths.now named.now) name.now (get_or paths.now scope []) }
{
    match single(name) {
        Some(segment) => nearest(paths, named, scope, segment),
        None => {
            let number = find(paths, prefixed(paths, name, scope), name.segs.as_slice())?;
            if named[number] { Some(number) } else { None }
        }
    }
}

/// The number of a scope's path; a number that no path has counts as that of the root.
pub fn scope_in(paths: &Paths, scope: usize) -> usize
    ensures within { result < length paths.now }
    ensures path { get_or paths.now result [] ≡ get_or paths.now scope [] }
{
    let count = paths.len();
    if scope < count { scope } else { 0 }
}

/// The path with a number, written from the root.
pub fn from_root(alloc: Global, paths: &Paths, number: usize) -> Result<Path, AllocError>
    requires { number < length paths.now }
    ensures { IfOk result (λ p. p ≡ absolute (get_or paths.now number [])) }
{
    let mut segs = Vec::new(alloc);
    let mut around = number;
    while let Some(below) = paths.step(around) {
        let segment = below.1;
        segs.push(segment)?;
        around = below.0;
    }
    segs.reverse();
    let segs = Segs::from_vec(alloc, segs)?;
    Ok(Path {
        root: true,
        up: 0,
        segs,
    })
}

/// The segment of a name that is a single one, without a prefix.
pub fn single(name: &Path) -> Option<NameSeg>
    ensures { result ≡ single_segment name.now }
{
    if name.root || name.up > 0 {
        return None;
    }
    match name.segs.as_slice() {
        [segment] => Some(*segment),
        _ => None,
    }
}
