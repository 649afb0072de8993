//! The shortest spelling of a path in a scope (ACPI Specification 6.4, 5.3 and 20.2.2).
ghost use Rattle.std.specs.Prelude.{◌≡◌, ◌<◌, ◌≤◌, ◌^◌, ◌||◌, Bool, true, false, Some, [], length, get_or, is_some, IfOk, IfSome};
ghost use Rattle.acpi_values.specs.Paths.{AbsolutePath};
ghost use Rattle.acpi_names.specs.Paths.{is_named_in, path_with};
ghost use Rattle.acpi_names.specs.Shortest.{segments_length, short_use, short_element};
ghost use Rattle.asl_tree.specs.Names.{enclosing, candidates, first_of};
ghost use Rattle.name_spelling.specs.Forms.{form_name, form_length, nearer, around, leads_alone, met_in};

use acpi_names::lookup::outer;
use acpi_names::paths::Paths;
use asl_tree::path::{NameSeg, Path, Segs};
use std::alloc::{AllocError, Global};

/// How a path is written: from the root or from so many scopes up, and so many of its last segments.
#[derive(Clone, Copy)]
pub(crate) struct Form {
    pub root: bool,
    pub up: u32,
    pub count: u32,
}

// How many bytes so many segments take in a name.
fn segments_size(count: u32) -> u64
    ensures { result ≡ segments_length count }
{
    match count {
        0 => 1,
        1 => 4,
        2 => 9,
        _ => 2 + 4 * u64::from(count),
    }
}

// How many bytes a name takes.
fn size(form: Form) -> u64
    ensures { result ≡ form_length form }
{
    let prefix = if form.root { 1 } else { form.up };
    u64::from(prefix) + segments_size(form.count)
}

// Of two forms the second, where it is one below a scope around it, needs no search and is shorter.
fn shorter(best: Form, other: Form, leads: bool) -> Form
    ensures { result ≡ nearer best other leads }
{
    if leads && (other.up > 0 || other.count > 1) && size(other) < size(best) {
        other
    } else {
        best
    }
}

// How many segments a path has.
fn depth(paths: &Paths, number: usize) -> u32
    requires { number < length paths.now }
    ensures depth { result ≡ length (get_or paths.now number []) }
{
    let len = paths.len();
    let mut around = number;
    let mut segments = 0;
    while let Some(below) = paths.step(around) {
        around = below.0;
        segments += 1;
    }
    segments
}

/// The shortest form of a path that needs no search.
pub(crate) fn shortest_placed(paths: &Paths, number: usize, scope: usize) -> Form
    requires path_in { number < length paths.now }
    requires scope_in { scope < length paths.now }
    ensures { (has : AbsolutePath → Bool) → has (get_or paths.now number []) ≡ true →
        form_name result (get_or paths.now number []) ≡ short_element has (get_or paths.now number []) (get_or paths.now scope []) }
{
    let len = paths.len();
    let segments = depth(paths, number);
    let scopes = depth(paths, scope);
    let mut best = Form {
        root: true,
        up: 0,
        count: segments,
    };
    let mut up = scopes.saturating_sub(segments);
    let mut base = outer(paths, scope, up);
    let mut around = number;
    let mut count = 0;
    while let Some(below) = paths.step(around) {
        around = below.0;
        count += 1;
        let higher = scopes.saturating_sub(segments - count);
        base = outer(paths, base, higher - up);
        up = higher;
        let form = Form {
            root: false,
            up,
            count,
        };
        best = shorter(best, form, base == around);
    }
    best
}

// Whether the path with a number stands in the way of a name: it is named, or it is one of the others.
fn is_met(named: &[bool], also: &[bool], number: usize) -> bool
    requires { number < length named.now }
    ensures { result ≡ (get_or named.now number false || get_or also.now number false) }
{
    named[number] || (number < also.len() && also[number])
}

// The nearest of such paths that are this segment in a scope or in a scope around it.
fn nearest_met(
    paths: &Paths,
    named: &[bool],
    also: &[bool],
    scope: usize,
    segment: NameSeg,
) -> Option<usize>
    requires scope_in { scope < length paths.now }
    requires all { length named.now ≡ length paths.now }
    ensures within { IfSome result (λ n. n < length paths.now) }
    ensures path { path_with paths.now result ≡ first_of
        (candidates (met_in paths.now named.now also.now) (enclosing segment (get_or paths.now scope []))) }
{
    let mut around = scope;
    loop {
        if let Some(number) = paths.child(around, segment) {
            if is_met(named, also, number) {
                return Some(number);
            }
        }
        match paths.step(around) {
            Some((parent, _)) => around = parent,
            None => return None,
        }
    }
}

// Whether a search for a segment meets a path in the scopes around this one.
fn is_met_around(
    paths: &Paths,
    named: &[bool],
    also: &[bool],
    scope: usize,
    segment: NameSeg,
) -> bool
    requires scope_in { scope < length paths.now }
    requires all { length named.now ≡ length paths.now }
    ensures { result ≡ is_some (first_of (candidates (met_in paths.now named.now also.now) (around segment (get_or paths.now scope [])))) }
{
    match paths.step(scope) {
        Some(below) => nearest_met(paths, named, also, below.0, segment).is_some(),
        None => false,
    }
}

// Whether a search for a path's last segment can find that path alone: it is the only one that is met. `named` says of each number
// whether its path is named, and `also` of the first numbers whether their paths stand in the way all the same.
fn is_found_alone(paths: &Paths, named: &[bool], also: &[bool], number: usize, scope: usize) -> bool
    requires path_in { number < length paths.now }
    requires scope_in { scope < length paths.now }
    requires all { length named.now ≡ length paths.now }
    ensures { result ≡ leads_alone (met_in paths.now named.now also.now) (get_or paths.now number []) (get_or paths.now scope []) }
{
    let len = paths.len();
    match paths.step(number) {
        Some(below) => {
            let segment = below.1;
            match nearest_met(paths, named, also, scope, segment) {
                Some(first) => {
                    first == number && !is_met_around(paths, named, also, below.0, segment)
                }
                None => false,
            }
        }
        None => false,
    }
}

// Whether a search for a path's last segment meets no path but that one, which is the first that it meets.
fn is_first_alone(
    paths: &Paths,
    named: &[bool],
    also: &[bool],
    number: usize,
    scope: usize,
    segment: NameSeg,
) -> bool
    requires path_in { number < length paths.now }
    requires scope_in { scope < length paths.now }
    requires all { length named.now ≡ length paths.now }
    requires found { first_of (candidates (met_in paths.now named.now also.now) (enclosing segment (get_or paths.now scope [])))
        ≡ Some (get_or paths.now number []) }
    ensures { result ≡ leads_alone (met_in paths.now named.now also.now) (get_or paths.now number []) (get_or paths.now scope []) }
{
    match paths.step(number) {
        Some(below) => !is_met_around(paths, named, also, below.0, segment),
        None => false,
    }
}

/// Whether a search for a segment, which finds this path among those that are named, can find it alone: no other path is met. `named` says
/// of each number whether its path is named, and `also` of the first numbers whether their paths stand in the way all the same.
pub(crate) fn is_alone(
    paths: &Paths,
    named: &[bool],
    also: &[bool],
    number: usize,
    scope: usize,
    segment: NameSeg,
) -> bool
    requires path_in { number < length paths.now }
    requires scope_in { scope < length paths.now }
    requires all { length named.now ≡ length paths.now }
    requires found { first_of (candidates (is_named_in paths.now named.now) (enclosing segment (get_or paths.now scope [])))
        ≡ Some (get_or paths.now number []) }
    ensures { result ≡ leads_alone (met_in paths.now named.now also.now) (get_or paths.now number []) (get_or paths.now scope []) }
{
    if also.is_empty() {
        is_first_alone(paths, named, also, number, scope, segment)
    } else {
        is_found_alone(paths, named, also, number, scope)
    }
}

/// The shortest form of a path that is met.
pub(crate) fn shortest_used(
    paths: &Paths,
    named: &[bool],
    also: &[bool],
    number: usize,
    scope: usize,
) -> Form
    requires path_in { number < length paths.now }
    requires scope_in { scope < length paths.now }
    requires all { length named.now ≡ length paths.now }
    requires is_met { met_in paths.now named.now also.now (get_or paths.now number []) ≡ true }
    ensures { form_name result (get_or paths.now number []) ≡ short_use (met_in paths.now named.now also.now) (get_or paths.now number [])
        (get_or paths.now scope []) }
{
    if is_found_alone(paths, named, also, number, scope) {
        Form {
            root: false,
            up: 0,
            count: 1,
        }
    } else {
        shortest_placed(paths, number, scope)
    }
}

/// The name of a path in a form.
#[tactic(auto, using(crate::proofs::Forms::kept_taking, crate::proofs::Forms::none_taken, crate::proofs::Forms::all_taken))]
pub(crate) fn name_in(
    alloc: Global,
    paths: &Paths,
    number: usize,
    form: Form,
) -> Result<Path, AllocError>
    requires { number < length paths.now }
    ensures { IfOk result (λ name. name ≡ form_name form (get_or paths.now number [])) }
{
    let mut segs = Vec::new(alloc);
    let mut around = number;
    let mut left = form.count;
    while left > 0 {
        match paths.step(around) {
            Some(below) => {
                let segment = below.1;
                segs.push(segment)?;
                around = below.0;
                left -= 1;
            }
            None => left = 0,
        }
    }
    segs.reverse();
    let segs = Segs::from_vec(alloc, segs)?;
    Ok(Path {
        root: form.root,
        up: form.up,
        segs,
    })
}
