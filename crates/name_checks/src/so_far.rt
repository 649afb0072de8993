//! What the mentions of a block say of its names, up to one of them.
ghost use Rattle.std.specs.Prelude.{◌≡◌, ◌<◌, [], false, length, get_or, is_some, IfOk};
ghost use Rattle.std.specs.Option.{option_map};
ghost use Rattle.acpi_state.specs.Objects.{lookup};
ghost use Rattle.asl_meaning.specs.Declarations.{Declared, Declarations, in_root, nothing_declared, with_declared, with_external};
ghost use Rattle.name_checks.specs.Before.{AreSized, Before};
ghost use Rattle.name_kinds.specs.Kinds.{type_as};

use acpi_names::paths::Paths;
use name_kinds::kind::External;
use name_kinds::tables::is_in_root;
use std::alloc::{AllocError, Global};

/// Which of the paths with these numbers are declared so far, and the first External of each so far.
#[derive(Drop)]
pub struct SoFar {
    pub declared: Vec<bool>,
    pub externals: Vec<Option<External>>,
}

/// Nothing is said so far.
pub fn blank(alloc: Global, paths: &Paths) -> Result<SoFar, AllocError>
    ensures sized { IfOk result (AreSized paths.now) }
    ensures nothing { IfOk result (λ so_far. Before paths.now so_far nothing_declared) }
{
    let count = paths.len();
    let mut declared = Vec::with_capacity(alloc, count)?;
    let mut externals = Vec::with_capacity(alloc, count)?;
    for number in 0..count {
        declared.push(false)?;
        externals.push(None)?;
    }
    Ok(SoFar {
        declared,
        externals,
    })
}

/// Whether a path is declared so far.
pub fn is_declared(paths: &Paths, so_far: &SoFar, number: usize) -> bool
    requires within { number < length paths.now }
    requires sized { AreSized paths.now so_far.now }
    ensures { (d : Declarations) → Before paths.now so_far.now d → result ≡ is_some (lookup d.declared (get_or paths.now number [])) }
{
    let count = paths.len();
    so_far.declared[number]
}

/// The first External of a path so far.
pub fn first_external(paths: &Paths, so_far: &SoFar, number: usize) -> Option<External>
    requires within { number < length paths.now }
    requires sized { AreSized paths.now so_far.now }
    ensures { (d : Declarations) → Before paths.now so_far.now d →
        option_map type_as result ≡ lookup d.external (get_or paths.now number []) }
{
    let count = paths.len();
    so_far.externals[number]
}

/// A path is declared.
pub fn note_declared(paths: &Paths, so_far: &mut SoFar, number: usize)
    requires within { number < length paths.now }
    requires sized { AreSized paths.now so_far.old }
    ensures sized { AreSized paths.now so_far.new }
    ensures noted { (d : Declarations) (as' : Declared) → Before paths.now so_far.old d →
        Before paths.now so_far.new (with_declared (get_or paths.now number []) as' d) }
{
    let count = paths.len();
    so_far.declared[number] = true;
}

// An External of a path that is not of the root.
fn note_external(paths: &Paths, so_far: &mut SoFar, number: usize, external: External)
    requires within { number < length paths.now }
    requires sized { AreSized paths.now so_far.old }
    ensures sized { AreSized paths.now so_far.new }
    ensures noted { (d : Declarations) → Before paths.now so_far.old d →
        Before paths.now so_far.new (with_external false (get_or paths.now number []) (type_as external) d) }
{
    let count = paths.len();
    match so_far.externals[number] {
        // The first one counts.
        Some(_) => {}
        None => so_far.externals[number] = Some(external),
    }
}

/// An External of a path.
pub fn note_outside(paths: &Paths, so_far: &mut SoFar, number: usize, external: External)
    requires within { number < length paths.now }
    requires sized { AreSized paths.now so_far.old }
    ensures sized { AreSized paths.now so_far.new }
    ensures noted { (d : Declarations) → Before paths.now so_far.old d → Before paths.now so_far.new
        (with_external (in_root (get_or paths.now number [])) (get_or paths.now number []) (type_as external) d) }
{
    if !is_in_root(paths, number) {
        note_external(paths, so_far, number, external);
    }
}
