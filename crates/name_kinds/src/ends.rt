//! What each path is, and where it ends, through aliases. Each path is followed once.
ghost use Rattle.std.specs.Prelude.{◌≡◌, ◌<◌, ◌++◌, ◌∷◌, ℕ, [], None, List, All, length, get_or, set, replicate, IfOk, OnOk};
ghost use Rattle.std.specs.Option.{option_map};
ghost use Rattle.acpi_values.specs.Paths.{AbsolutePath};
ghost use Rattle.asl_tree.specs.Names.{Known, kind_at};
ghost use Rattle.acpi_names.specs.Errors.{Whole, final};
ghost use Rattle.name_kinds.specs.declared.ends.WalkState.TheVariants as WalkState;
ghost use Rattle.name_kinds.specs.Kinds.{kind_as, object_as, type_as, kind_from as kind_of};
ghost use Rattle.name_kinds.specs.Tables.{Says};
ghost use Rattle.name_kinds.specs.Ends.{AreEnds, AreMarked, Follows, IsMarked, ended};

use crate::kind::{End, External, NameKind, Object, external_outside};
use crate::tables::{Tables, is_root, root_at};
use acpi_names::lookup::scope_in;
use acpi_names::paths::Paths;
use std::alloc::{AllocError, Global};

// What a path is, by what declares it last.
fn kind_from(
    declared: Option<NameKind>,
    external: Option<External>,
    first: Option<usize>,
    object: Option<Object>,
) -> Option<NameKind>
    ensures { (paths : List AbsolutePath) → option_map (kind_as paths) result ≡ kind_of (option_map (kind_as paths) declared)
        (option_map type_as external) first (option_map object_as object) }
{
    if let Some(kind) = declared {
        return Some(kind);
    }
    if let Some(external) = external {
        return Some(NameKind::Is(Object::Outside(external_outside(external, first))));
    }
    match object {
        Some(object) => Some(NameKind::Is(object)),
        None => None,
    }
}

/// What the path with a number is.
pub fn kind(paths: &Paths, tables: &Tables, number: usize) -> Option<NameKind>
    ghost whole: { Whole }
    requires told { Says paths.now tables.now whole }
    requires within { number < length paths.now }
    ensures { option_map (kind_as paths.now) result ≡ kind_at whole.known (get_or paths.now number []) }
{
    let count = paths.len();
    let object = root_at(paths, number);
    if is_root(paths, number) {
        return Some(NameKind::Is(Object::Container));
    }
    kind_from(
        tables.kinds[number],
        tables.externals[number],
        tables.calls[number],
        object,
    )
}

/// How far a path has been followed: not yet, by the walk that is under way, or to its end.
#[derive(Clone, Copy, PartialEq, Eq, Debug)]
pub enum WalkState {
    New,
    OnWalk,
    Ended,
}

/// The paths with these numbers, as far as they have been followed, the ends that are found, and the numbers of the
/// paths on the walk that is under way.
#[derive(Drop)]
pub struct Walks {
    pub marks: Vec<WalkState>,
    pub ends: Vec<Option<End>>,
    pub chain: Vec<usize>,
}

/// What follows a path: its end, or the path with a number, of which it is an alias.
#[derive(Clone, Copy, PartialEq, Eq, Debug)]
pub enum Step {
    Ends(Option<End>),
    Leads(usize),
}

// No path is followed yet.
fn unwalked(alloc: Global, count: usize) -> Result<Walks, AllocError>
    ensures marks { IfOk result (λ w. w.marks.items ≡ replicate count WalkState.New) }
    ensures ends { IfOk result (λ w. length w.ends.items ≡ count) }
    ensures chain { IfOk result (λ w. w.chain.items ≡ []) }
{
    let mut marks = Vec::with_capacity(alloc, count)?;
    let mut ends = Vec::with_capacity(alloc, count)?;
    for number in 0..count {
        marks.push(WalkState::New)?;
        ends.push(None)?;
    }
    Ok(Walks {
        marks,
        ends,
        chain: Vec::new(alloc),
    })
}

// What follows the path with a number.
fn behind(paths: &Paths, tables: &Tables, number: usize) -> Step
    ghost whole: { Whole }
    requires told { Says paths.now tables.now whole }
    requires within { number < length paths.now }
    ensures { Follows paths.now whole.known (get_or paths.now number []) result }
{
    match kind(paths, tables, number) {
        None => Step::Ends(None),
        Some(NameKind::Is(object)) => Step::Ends(Some(End {
            path: number,
            object,
        })),
        Some(NameKind::AliasTo(None)) => Step::Ends(None),
        Some(NameKind::AliasTo(Some(source))) => Step::Leads(scope_in(paths, source)),
    }
}

// The path with a number is on the walk from now on.
fn enter(walks: &mut Walks, number: usize) -> Result<(), AllocError>
    requires { number < length walks.old.marks.items }
    ensures marks { OnOk result (walks.new.marks.items ≡ set walks.old.marks.items number WalkState.OnWalk) }
    ensures ends { OnOk result (walks.new.ends.items ≡ walks.old.ends.items) }
    ensures chain { OnOk result (walks.new.chain.items ≡ walks.old.chain.items ++ number ∷ []) }
{
    walks.marks[number] = WalkState::OnWalk;
    walks.chain.push(number)?;
    Ok(())
}

// Where the path with a number ends. All paths that are followed for that are on the walk.
fn follow(
    paths: &Paths,
    tables: &Tables,
    walks: &mut Walks,
    start: usize,
) -> Result<Option<End>, AllocError>
    ghost whole: { Whole }
    requires told { Says paths.now tables.now whole }
    requires within { start < length paths.now }
    requires marked { AreMarked paths.now whole.known walks.old }
    requires idle { walks.old.chain.items ≡ [] }
    ensures marked { OnOk result (AreMarked paths.now whole.known walks.new) }
    ensures ends { IfOk result (λ end. All (λ n. final whole.known (get_or paths.now n []) ≡ ended paths.now end) walks.new.chain.items) }
    ensures start { OnOk result (IsMarked walks.new.marks.items start) }
    ensures others { OnOk result ((n : ℕ) → IsMarked walks.old.marks.items n → IsMarked walks.new.marks.items n) }
{
    let mut at = start;
    loop {
        match walks.marks[at] {
            WalkState::Ended => return Ok(walks.ends[at]),
            WalkState::OnWalk => return Ok(None),
            WalkState::New => {}
        }
        enter(walks, at)?;
        match behind(paths, tables, at) {
            Step::Ends(end) => return Ok(end),
            Step::Leads(source) => at = source,
        }
    }
}

// All paths on the walk end here.
fn settle(walks: &mut Walks, end: Option<End>)
    requires size { length walks.old.ends.items ≡ length walks.old.marks.items }
    requires inside { All (λ n. n < length walks.old.marks.items) walks.old.chain.items }
    ensures marked { (paths : List AbsolutePath) (known : Known) → AreMarked paths known walks.old →
        All (λ n. final known (get_or paths n []) ≡ ended paths end) walks.old.chain.items → AreMarked paths known walks.new }
    ensures idle { walks.new.chain.items ≡ [] }
    ensures others { (n : ℕ) → IsMarked walks.old.marks.items n → IsMarked walks.new.marks.items n }
{
    while let Some(number) = walks.chain.pop() {
        walks.ends[number] = end;
        walks.marks[number] = WalkState::Ended;
    }
}

/// Where each path ends, by its number, in time linear in the number of paths: a path that is followed is marked, and
/// a walk stops at a mark. A chain of aliases that returns to itself ends nowhere.
pub fn ends_of(
    alloc: Global,
    paths: &Paths,
    tables: &Tables,
) -> Result<Vec<Option<End>>, AllocError>
    ghost whole: { Whole }
    requires { Says paths.now tables.now whole }
    ensures { IfOk result (λ ends. AreEnds paths.now ends.items whole.known) }
{
    let count = paths.len();
    let mut walks = unwalked(alloc, count)?;
    for number in 0..count {
        let end = follow(paths, tables, &mut walks, number)?;
        settle(&mut walks, end);
    }
    Ok(walks.ends)
}
