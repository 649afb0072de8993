//! The rules of names, each for one name.
ghost use Rattle.std.specs.Prelude.{◌≡◌, ◌<◌, ◌||◌, ◌++◌, ◌∷◌, not, is_some, true, None, List, [], length, get_or, OnOk, IfSome};
ghost use Rattle.std.specs.Option.{option_map};
ghost use Rattle.acpi_values.specs.Paths.{AbsolutePath, is_same_path};
ghost use Rattle.acpi_state.specs.Objects.{lookup};
ghost use Rattle.acpi_state.specs.Outcomes.{choose};
ghost use Rattle.asl_tree.specs.Names.{declared_path, denoted as denotes_path};
ghost use Rattle.asl_meaning.specs.Declarations.{Declarations, in_root, is_named};
ghost use Rattle.acpi_names.specs.Errors as spec;
ghost use Rattle.acpi_names.specs.Errors.{Whole, final};
ghost use Rattle.acpi_names.specs.Mentions.{opening_errors as opening};
ghost use Rattle.acpi_names.specs.Paths.{path_with};
ghost use Rattle.acpi_names.specs.Shown.{spot_as, asked_as, written_as};
ghost use Rattle.name_checks.specs.Calls.{is_open as open_is, is_first as first_is};
ghost use Rattle.name_checks.specs.Before.{AreSized, Before};
ghost use Rattle.name_checks.specs.Faults.{Finds, fault_as};
ghost use Rattle.name_kinds.specs.Ends.{ended};
ghost use Rattle.name_kinds.specs.Facts.{Knows};
ghost use Rattle.name_kinds.specs.Kinds.{object_as, type_as};

use crate::fault::Fault;
use crate::so_far;
use crate::so_far::SoFar;
use acpi_names::lookup::scope_in;
use acpi_names::mention::{Asked, Occurrence, WrittenName};
use acpi_names::paths::Paths;
use asl_tree::path::Path;
use name_kinds::facts::{Facts, end, is_named_at};
use name_kinds::kind::{
    End, External, is_container, is_event, is_method, is_mutex, is_region, is_unit, operand_count,
};
use name_kinds::tables::is_in_root;
use std::alloc::AllocError;

/// The most segments of a path.
const MOST: usize = 255;

// An error, unless something holds.
fn unless<'a>(out: &mut Vec<Fault<'a>>, holds: bool, fault: Fault<'a>) -> Result<(), AllocError>
    ensures { OnOk result
        ((paths : List AbsolutePath) → Finds paths out.old.items out.new.items (spec.unless holds (fault_as paths fault.entry))) }
{
    if !holds {
        out.push(fault)?;
    }
    Ok(())
}

// Whether the scope of a path is named.
fn has_parent(facts: &Facts, number: usize) -> bool
    ghost whole: { Whole }
    requires told { Knows facts.now whole }
    requires within { number < length facts.now.index.paths }
    ensures { result ≡ spec.has_parent whole.all (get_or facts.now.index.paths number []) }
{
    match facts.index.paths.step(number) {
        None => true,
        Some(below) => is_named_at(facts, below.0),
    }
}

// Whether a path is declared.
fn is_declared(facts: &Facts, number: usize) -> bool
    ghost whole: { Whole }
    requires told { Knows facts.now whole }
    requires within { number < length facts.now.index.paths }
    ensures { result ≡ is_some (lookup whole.all.declared (get_or facts.now.index.paths number [])) }
{
    let count = facts.index.paths.len();
    match facts.tables.kinds[number] {
        Some(_) => true,
        None => false,
    }
}

// The first External of a path.
fn first_external(facts: &Facts, number: usize) -> Option<External>
    ghost whole: { Whole }
    requires told { Knows facts.now whole }
    requires within { number < length facts.now.index.paths }
    ensures { option_map type_as result ≡ lookup whole.all.external (get_or facts.now.index.paths number []) }
{
    let count = facts.index.paths.len();
    facts.tables.externals[number]
}

// The number of arguments of the first call of a path.
fn first_call(facts: &Facts, number: usize) -> Option<usize>
    ghost whole: { Whole }
    requires told { Knows facts.now whole }
    requires within { number < length facts.now.index.paths }
    ensures { result ≡ lookup whole.calls (get_or facts.now.index.paths number []) }
{
    let count = facts.index.paths.len();
    facts.tables.calls[number]
}

// Whether two numbers are of the same path.
fn is_same(facts: &Facts, number: usize, other: usize) -> bool
    requires { number < length facts.now.index.paths }
    ensures { result ≡ is_same_path (get_or facts.now.index.paths number []) (get_or facts.now.index.paths other []) }
{
    let count = facts.index.paths.len();
    number == scope_in(&facts.index.paths, other)
}

// Whether a name denotes a path.
fn is_found(target: Option<usize>) -> bool
    ensures { (paths : List AbsolutePath) → result ≡ is_some (path_with paths target) }
{
    match target {
        Some(_) => true,
        None => false,
    }
}

// Whether a path is declared by no term before, and not of the root.
fn is_new(paths: &Paths, before: &SoFar, number: usize) -> bool
    requires within { number < length paths.now }
    requires sized { AreSized paths.now before.now }
    ensures { (d : Declarations) → Before paths.now before.now d → result ≡ spec.is_new d (get_or paths.now number []) }
{
    !(is_in_root(paths, number) || so_far::is_declared(paths, before, number))
}

fn same_count(first: Option<u64>, second: Option<u64>) -> bool
    ensures { result ≡ spec.same_count first second }
{
    match first {
        None => second.is_none(),
        Some(count) => match second {
            None => false,
            Some(other) => count == other,
        },
    }
}

// Whether an External is as the first of its path, if one stands before.
fn agrees_with(first: Option<External>, external: External) -> bool
    ensures { result ≡ spec.agrees_with (option_map type_as first) (type_as external) }
{
    match first {
        None => true,
        Some(other) => {
            other.object == external.object && same_count(other.parameters, external.parameters)
        }
    }
}

// How many scopes up a name begins.
fn steps_up(name: WrittenName) -> u32
    ensures { result ≡ (written_as name.entry).up }
{
    match name {
        WrittenName::Path(path) => path.up,
        WrittenName::Segment(_) => 0,
    }
}

/// The steps up of a name.
pub fn step_errors<'a>(
    out: &mut Vec<Fault<'a>>,
    facts: &Facts,
    at: Occurrence,
    name: WrittenName<'a>,
    scope: usize,
) -> Result<(), AllocError>
    ghost whole: { Whole }
    requires { Knows facts.now whole }
    ensures { OnOk result
        (Finds facts.now.index.paths out.old.items out.new.items
        (spec.step_errors (spot_as at) (written_as name.entry) (get_or facts.now.index.paths scope []))) }
{
    let depth = facts.depths[scope_in(&facts.index.paths, scope)];
    unless(
        out,
        steps_up(name) as usize <= depth,
        Fault::LeavesRoot { at, name },
    )?;
    Ok(())
}

// The length of a declared path.
fn length_errors<'a>(
    out: &mut Vec<Fault<'a>>,
    facts: &Facts,
    at: Occurrence,
    name: WrittenName<'a>,
    number: usize,
) -> Result<(), AllocError>
    ghost whole: { Whole }
    requires told { Knows facts.now whole }
    requires within { number < length facts.now.index.paths }
    ensures { OnOk result
        (Finds facts.now.index.paths out.old.items out.new.items
        (spec.length_errors (spot_as at) (written_as name.entry) (get_or facts.now.index.paths number []))) }
{
    unless(
        out,
        facts.depths[number] <= MOST,
        Fault::TooLong { at, name },
    )?;
    Ok(())
}

/// The errors of a name that is declared, whose path has the number `path`.
pub fn declared_errors<'a>(
    out: &mut Vec<Fault<'a>>,
    facts: &Facts,
    before: &SoFar,
    at: Occurrence,
    name: WrittenName<'a>,
    scope: usize,
    path: usize,
) -> Result<(), AllocError>
    ghost whole: { Whole }
    requires told { Knows facts.now whole }
    requires within { path < length facts.now.index.paths }
    requires path { get_or facts.now.index.paths path [] ≡ declared_path (written_as name) (get_or facts.now.index.paths scope []) }
    requires sized { AreSized facts.now.index.paths before.now }
    ensures { OnOk result ((d : Declarations) → Before facts.now.index.paths before.now d →
        Finds facts.now.index.paths out.old.items out.new.items
        (spec.declared_errors whole (spot_as at) (written_as name.entry) (get_or facts.now.index.paths scope []) d)) }
{
    let new = is_new(&facts.index.paths, before, path);
    unless(out, new, Fault::Twice { at, path })?;
    step_errors(out, facts, at, name, scope)?;
    unless(out, has_parent(facts, path), Fault::Missing { at, name })?;
    length_errors(out, facts, at, name, path)?;
    Ok(())
}

/// The errors of the name of an External, whose path has the number `path`.
pub fn external_errors<'a>(
    out: &mut Vec<Fault<'a>>,
    facts: &Facts,
    before: &SoFar,
    here: Occurrence,
    at: Occurrence,
    name: &'a Path,
    external: External,
    scope: usize,
    path: usize,
) -> Result<(), AllocError>
    ghost whole: { Whole }
    requires told { Knows facts.now whole }
    requires within { path < length facts.now.index.paths }
    requires path { get_or facts.now.index.paths path [] ≡ declared_path name.now (get_or facts.now.index.paths scope []) }
    requires sized { AreSized facts.now.index.paths before.now }
    ensures { OnOk result ((d : Declarations) → Before facts.now.index.paths before.now d →
        Finds facts.now.index.paths out.old.items out.new.items
        (spec.external_errors whole (spot_as here) (spot_as at) name.now (type_as external) (get_or facts.now.index.paths scope []) d)) }
{
    let written = WrittenName::Path(name);
    let declared = is_declared(facts, path);
    unless(out, !declared, Fault::DeclaredHere { at, path })?;
    step_errors(out, facts, at, written, scope)?;
    length_errors(out, facts, at, written, path)?;
    let first = so_far::first_external(&facts.index.paths, before, path);
    unless(
        out,
        agrees_with(first, external),
        Fault::Differs {
            at: here,
            name: written,
        },
    )?;
    Ok(())
}

/// The errors of a used name that denotes the path with a number, or nothing.
pub fn use_errors<'a>(
    out: &mut Vec<Fault<'a>>,
    facts: &Facts,
    at: Occurrence,
    name: &'a Path,
    scope: usize,
    target: Option<usize>,
) -> Result<(), AllocError>
    ghost whole: { Whole }
    requires told { Knows facts.now whole }
    requires denotes { path_with facts.now.index.paths target ≡ denotes_path (is_named whole.all) name.now
        (get_or facts.now.index.paths scope []) }
    ensures { OnOk result
        (Finds facts.now.index.paths out.old.items out.new.items
        (spec.use_errors whole (spot_as at) name.now (get_or facts.now.index.paths scope []))) }
{
    let name = WrittenName::Path(name);
    step_errors(out, facts, at, name, scope)?;
    unless(out, is_found(target), Fault::Missing { at, name })?;
    Ok(())
}

// Whether an External does not say how many arguments a call of it has.
fn is_open(external: Option<External>) -> bool
    ensures { result ≡ open_is (option_map type_as external) }
{
    match external {
        None => false,
        Some(external) => {
            external.parameters.is_none() && (external.object == 0 || external.object == 8)
        }
    }
}

// Whether a call is as the first one.
fn is_first(first: Option<usize>, args: usize) -> bool
    ensures { result ≡ first_is args first }
{
    match first {
        None => true,
        Some(count) => count == args,
    }
}

// Whether a call of a path answers to its External and to its first call.
fn is_answered(external: Option<External>, first: Option<usize>, args: usize) -> bool
    ensures { result ≡ (not (open_is (option_map type_as external)) || first_is args first) }
{
    !is_open(external) || is_first(first, args)
}

/// The errors of a called name: the calls of an External that does not say how many arguments it takes are as the
/// first one.
pub fn call_errors<'a>(
    out: &mut Vec<Fault<'a>>,
    facts: &Facts,
    at: Occurrence,
    name: &'a Path,
    args: usize,
    scope: usize,
    target: Option<usize>,
) -> Result<(), AllocError>
    ghost whole: { Whole }
    requires told { Knows facts.now whole }
    requires denotes { path_with facts.now.index.paths target ≡ denotes_path (is_named whole.all) name.now
        (get_or facts.now.index.paths scope []) }
    requires within { IfSome target (λ n. n < length facts.now.index.paths) }
    ensures { OnOk result
        (Finds facts.now.index.paths out.old.items out.new.items
        (spec.call_errors whole (spot_as at) name.now args (get_or facts.now.index.paths scope []))) }
{
    match target {
        None => Ok(()),
        Some(number) => {
            let external = first_external(facts, number);
            let first = first_call(facts, number);
            unless(
                out,
                is_answered(external, first, args),
                Fault::Differs {
                    at,
                    name: WrittenName::Path(name),
                },
            )?;
            Ok(())
        }
    }
}

// Whether a Scope may open what the path with a number ends at.
fn opens(facts: &Facts, number: usize) -> bool
    ghost whole: { Whole }
    requires told { Knows facts.now whole }
    requires within { number < length facts.now.index.paths }
    ensures { result ≡ spec.is_container (final whole.known (get_or facts.now.index.paths number [])) }
{
    match end(facts, number) {
        None => false,
        Some(end) => is_container(end.object),
    }
}

/// The errors of a Scope, which opens a container, and the same one where it stands as over the whole block.
pub fn scope_errors<'a>(
    out: &mut Vec<Fault<'a>>,
    facts: &Facts,
    here: Occurrence,
    at: Occurrence,
    name: &'a Path,
    scope: usize,
    inner: usize,
    target: Option<usize>,
) -> Result<(), AllocError>
    ghost whole: { Whole }
    requires told { Knows facts.now whole }
    requires denotes { path_with facts.now.index.paths target ≡ denotes_path (is_named whole.all) name.now
        (get_or facts.now.index.paths scope []) }
    requires within { IfSome target (λ n. n < length facts.now.index.paths) }
    ensures { OnOk result
        (Finds facts.now.index.paths out.old.items out.new.items
        (opening whole (spot_as here) (spot_as at) name.now (get_or facts.now.index.paths scope [])
        (get_or facts.now.index.paths inner []))) }
{
    match target {
        None => Ok(()),
        Some(number) => {
            let name = WrittenName::Path(name);
            unless(
                out,
                is_same(facts, number, inner),
                Fault::Missing { at, name },
            )?;
            unless(
                out,
                opens(facts, number),
                Fault::NoContainer { at: here, name },
            )?;
            Ok(())
        }
    }
}

// Where a name ends that denotes the path with a number.
fn name_end(facts: &Facts, target: Option<usize>) -> Option<End>
    ghost whole: { Whole }
    requires told { Knows facts.now whole }
    requires within { IfSome target (λ n. n < length facts.now.index.paths) }
    ensures { ended facts.now.index.paths result ≡ choose (path_with facts.now.index.paths target) None (final whole.known) }
{
    match target {
        None => None,
        Some(number) => end(facts, number),
    }
}

// Whether what stands at an end takes no arguments.
fn takes_none(end: Option<End>) -> bool
    ensures { (paths : List AbsolutePath) → result ≡ spec.takes_none (ended paths end) }
{
    match end {
        None => true,
        Some(end) => operand_count(end.object) == 0,
    }
}

// Whether what stands at an end is called with so many arguments.
fn takes(args: usize, end: Option<End>) -> bool
    ensures { (paths : List AbsolutePath) → result ≡ spec.takes args (ended paths end) }
{
    match end {
        None => false,
        Some(end) => is_method(end.object) && operand_count(end.object) == args as u64,
    }
}

// Whether an end is at a mutex, an event, a unit of a field, or a region, and at a region that no field can lie in.
fn ends_at_mutex(end: Option<End>) -> bool
    ensures { (paths : List AbsolutePath) → result ≡ spec.is_mutex (ended paths end) }
{
    match end {
        None => false,
        Some(end) => is_mutex(end.object),
    }
}

fn ends_at_event(end: Option<End>) -> bool
    ensures { (paths : List AbsolutePath) → result ≡ spec.is_event (ended paths end) }
{
    match end {
        None => false,
        Some(end) => is_event(end.object),
    }
}

fn ends_at_unit(end: Option<End>) -> bool
    ensures { (paths : List AbsolutePath) → result ≡ spec.is_unit (ended paths end) }
{
    match end {
        None => false,
        Some(end) => is_unit(end.object),
    }
}

fn ends_at_region(end: Option<End>) -> bool
    ensures { (paths : List AbsolutePath) → result ≡ spec.is_region (ended paths end) }
{
    match end {
        None => false,
        Some(end) => is_region(end.object),
    }
}

/// The errors of the kind of a used name, of which something is asked.
pub fn asked_types<'a>(
    out: &mut Vec<Fault<'a>>,
    facts: &Facts,
    asked: Asked,
    at: Occurrence,
    name: &'a Path,
    scope: usize,
    target: Option<usize>,
) -> Result<(), AllocError>
    ghost whole: { Whole }
    requires told { Knows facts.now whole }
    requires denotes { path_with facts.now.index.paths target ≡ denotes_path (is_named whole.all) name.now
        (get_or facts.now.index.paths scope []) }
    requires within { IfSome target (λ n. n < length facts.now.index.paths) }
    ensures { OnOk result
        (Finds facts.now.index.paths out.old.items out.new.items
        (spec.asked_types whole (asked_as asked) (spot_as at) name.now (get_or facts.now.index.paths scope []))) }
{
    let end = name_end(facts, target);
    let name = WrittenName::Path(name);
    match asked {
        Asked::Anything => Ok(()),
        Asked::Object => Ok(()),
        Asked::Value => {
            unless(out, takes_none(end), Fault::WrongCount { at, name })?;
            Ok(())
        }
        Asked::Mutex => {
            unless(out, ends_at_mutex(end), Fault::WrongKind { at, name })?;
            Ok(())
        }
        Asked::Event => {
            unless(out, ends_at_event(end), Fault::WrongKind { at, name })?;
            Ok(())
        }
        Asked::Unit => {
            unless(out, ends_at_unit(end), Fault::WrongKind { at, name })?;
            Ok(())
        }
        Asked::Region(_) => {
            unless(out, ends_at_region(end), Fault::WrongKind { at, name })?;
            Ok(())
        }
    }
}

/// The errors of the kind of a called name.
pub fn call_types<'a>(
    out: &mut Vec<Fault<'a>>,
    facts: &Facts,
    at: Occurrence,
    name: &'a Path,
    args: usize,
    scope: usize,
    target: Option<usize>,
) -> Result<(), AllocError>
    ghost whole: { Whole }
    requires told { Knows facts.now whole }
    requires denotes { path_with facts.now.index.paths target ≡ denotes_path (is_named whole.all) name.now
        (get_or facts.now.index.paths scope []) }
    requires within { IfSome target (λ n. n < length facts.now.index.paths) }
    ensures { OnOk result
        (Finds facts.now.index.paths out.old.items out.new.items
        (spec.unless (spec.takes args (spec.name_end whole name.now (get_or facts.now.index.paths scope [])))
        (spec.WrongCount (spot_as at) name.now))) }
{
    let end = name_end(facts, target);
    let name = WrittenName::Path(name);
    unless(out, takes(args, end), Fault::WrongCount { at, name })?;
    Ok(())
}
