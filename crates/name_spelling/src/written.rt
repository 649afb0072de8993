//! Names as they have to stand in the bytes.
ghost use Rattle.std.specs.Prelude.{◌≡◌, ◌<◌, [], None, true, false, length, get_or, IfOk, OnOk, MatchOption, unwrap_or};
ghost use Rattle.acpi_names.specs.Paths.{is_named_in, number_in};
ghost use Rattle.name_spelling.specs.Spelling.{external_type, type_written};
ghost use Rattle.acpi_names.specs.Tables.{entry_at};
ghost use Rattle.asl_tree.specs.Names.{absolute, declared_path, single_segment};
ghost use Rattle.acpi_names.specs.Shortest.{spelled_use, spelled_item};
ghost use Rattle.asl_meaning.specs.Declarations.{written_type, external_object};

use crate::form::{is_alone, name_in, shortest_placed, shortest_used};
use acpi_names::index::Index;
use acpi_names::lookup::{denotes, find, from_root, prefixed, single};
use acpi_names::paths::{Paths, nearest};
use asl_tree::path::{Path, Segs};
use std::alloc::{AllocError, Global};

// The path that a used name denotes, where a search for the name as it is written meets another one too.
fn ambiguous(
    paths: &Paths,
    named: &[bool],
    also: &[bool],
    name: &Path,
    scope: usize,
) -> Option<usize>
    requires scope_in { scope < length paths.now }
    requires all { length named.now ≡ length paths.now }
    ensures { let spelled = spelled_use (is_named_in paths.now also.now) (is_named_in paths.now named.now) false name.now
        (get_or paths.now scope []) in
        MatchOption result (spelled ≡ name.now) (λ n. (n < length paths.now) × (spelled ≡ absolute (get_or paths.now n []))) }
{
    let segment = single(name)?;
    let number = nearest(paths, named, scope, segment)?;
    if is_alone(paths, named, also, number, scope, segment) {
        None
    } else {
        Some(number)
    }
}

// The name of what a used name denotes, in the shortest spelling.
fn shortened(
    alloc: Global,
    index: &Index,
    also: &[bool],
    name: &Path,
    scope: usize,
) -> Result<Option<Path>, AllocError>
    requires scope_in { scope < length index.now.paths }
    requires all { length index.now.named.items ≡ length index.now.paths }
    ensures { IfOk result (λ other. unwrap_or other name.now ≡ spelled_use (is_named_in index.now.paths also.now)
        (is_named_in index.now.paths index.now.named.items) true name.now (get_or index.now.paths scope [])) }
{
    match denotes(&index.paths, &index.named, name, scope) {
        Some(number) => {
            let form = shortest_used(&index.paths, &index.named, also, number, scope);
            Ok(Some(name_in(alloc, &index.paths, number, form)?))
        }
        None => Ok(None),
    }
}

/// A used name as its search finds what it denotes, where that is not how it is written: where another path is met too, one of
/// those with `also` among these, it is written from the root, or in the shortest spelling where `shorten` asks for it.
pub(crate) fn other_name(
    alloc: Global,
    index: &Index,
    also: &[bool],
    shorten: bool,
    name: &Path,
    scope: usize,
) -> Result<Option<Path>, AllocError>
    requires scope_in { scope < length index.now.paths }
    requires all { length index.now.named.items ≡ length index.now.paths }
    ensures { IfOk result (λ other. unwrap_or other name.now ≡ spelled_use (is_named_in index.now.paths also.now)
        (is_named_in index.now.paths index.now.named.items) shorten name.now (get_or index.now.paths scope [])) }
{
    if shorten {
        return Ok(shortened(alloc, index, also, name, scope)?);
    }
    match ambiguous(&index.paths, &index.named, also, name, scope) {
        Some(number) => Ok(Some(from_root(alloc, &index.paths, number)?)),
        None => Ok(None),
    }
}

// The name in a Package of what a name denotes that is not searched, in the shortest spelling.
fn shortened_element(
    alloc: Global,
    index: &Index,
    name: &Path,
    scope: usize,
) -> Result<Option<Path>, AllocError>
    requires scope_in { scope < length index.now.paths }
    requires all { length index.now.named.items ≡ length index.now.paths }
    requires placed { single_segment name.now ≡ None }
    ensures { IfOk result (λ other. unwrap_or other name.now ≡ spelled_item (is_named_in index.now.paths index.now.named.items) true
        name.now (get_or index.now.paths scope [])) }
{
    match denotes(&index.paths, &index.named, name, scope) {
        Some(number) => {
            let form = shortest_placed(&index.paths, number, scope);
            Ok(Some(name_in(alloc, &index.paths, number, form)?))
        }
        None => Ok(None),
    }
}

/// The name of an element of a Package, whose object may not be there yet, where that is not how it is written: what
/// would be searched is written from the root, and another name in the shortest spelling where `shorten` asks for it.
#[inline(never)]
pub(crate) fn other_element(
    alloc: Global,
    index: &Index,
    shorten: bool,
    name: &Path,
    scope: usize,
) -> Result<Option<Path>, AllocError>
    requires scope_in { scope < length index.now.paths }
    requires all { length index.now.named.items ≡ length index.now.paths }
    ensures { IfOk result (λ other. unwrap_or other name.now ≡ spelled_item (is_named_in index.now.paths index.now.named.items) shorten
        name.now (get_or index.now.paths scope [])) }
{
    match single(name) {
        Some(segment) => match nearest(&index.paths, &index.named, scope, segment) {
            Some(number) => Ok(Some(from_root(alloc, &index.paths, number)?)),
            None => {
                let mut path = from_root(alloc, &index.paths, scope)?;
                path.segs = Segs::with_last(alloc, &path.segs, segment)?;
                Ok(Some(path))
            }
        },
        None => {
            if shorten {
                return Ok(shortened_element(alloc, index, name, scope)?);
            }
            Ok(None)
        }
    }
}

/// Writes a used name so that its search finds what it denotes.
#[inline(never)]
pub(crate) fn spell_name(
    alloc: Global,
    index: &Index,
    also: &[bool],
    shorten: bool,
    name: &mut Path,
    scope: usize,
) -> Result<(), AllocError>
    requires scope_in { scope < length index.now.paths }
    requires all { length index.now.named.items ≡ length index.now.paths }
    ensures { OnOk result (name.new ≡ spelled_use (is_named_in index.now.paths also.now) (is_named_in index.now.paths index.now.named.items)
        shorten name.old (get_or index.now.paths scope [])) }
{
    match other_name(alloc, index, also, shorten, name, scope)? {
        Some(other) => {
            *name = other;
            Ok(())
        }
        None => Ok(()),
    }
}

/// What an External is written as: the number of its object type, and how many arguments it takes.
#[derive(Clone, Copy)]
pub(crate) struct Written {
    pub object: u64,
    pub arity: u64,
}

// What an External is written as, that says this and is first called with so many arguments.
fn written_as(object: u64, parameters: Option<u64>, first: Option<usize>) -> Written
    ensures { type_written result
        ≡ written_type (external_type object parameters) (external_object (external_type object parameters) first) }
{
    let is_method = match object {
        8 => true,
        0 => first.is_some(),
        _ => false,
    };
    if !is_method {
        return Written { object, arity: 0 };
    }
    match parameters {
        Some(count) => Written {
            object: 8,
            arity: count,
        },
        None => Written {
            object: 8,
            arity: first.unwrap_or(0) as u64,
        },
    }
}

// The entry of a table at a number; past its end there is none.
fn entry(table: &[Option<usize>], number: Option<usize>) -> Option<usize>
    ensures { result ≡ entry_at table.now number }
{
    match number {
        Some(number) => {
            if number < table.len() {
                table[number]
            } else {
                None
            }
        }
        None => None,
    }
}

/// What an External of a name is written as. `calls` says of the numbers of paths how many arguments their first
/// calls have.
pub(crate) fn written_external(
    index: &Index,
    calls: &[Option<usize>],
    name: &Path,
    object: u64,
    parameters: Option<u64>,
    scope: usize,
) -> Written
    requires { scope < length index.now.paths }
    ensures { type_written result ≡ written_type (external_type object parameters)
        (external_object (external_type object parameters)
        (entry_at calls.now (number_in index.now.paths (declared_path name.now (get_or index.now.paths scope []))))) }
{
    let outer = prefixed(&index.paths, name, scope);
    let number = find(&index.paths, outer, name.segs.as_slice());
    written_as(object, parameters, entry(calls, number))
}
