//! Which paths are those of methods, and which are used, by their numbers.
ghost use Rattle.std.specs.Prelude.{◌≡◌, ◌<◌, ◌||◌, Bool, List, false, [], length, get_or, map, replicate, IfOk, IfSome};
ghost use Rattle.std.specs.List.{list_any};
ghost use Rattle.acpi_values.specs.Paths.{AbsolutePath, is_same_path};
ghost use Rattle.asl_meaning.specs.Declarations.{is_named, nothing_declared};
ghost use Rattle.acpi_names.specs.Errors.{Whole};
ghost use Rattle.acpi_names.specs.Mentions.{after_all};
ghost use Rattle.acpi_names.specs.Parts.{Agrees};
ghost use Rattle.acpi_names.specs.Paths.{path_with};
ghost use Rattle.acpi_names.specs.Shown.{shown, all_shown, declared_as};
ghost use Rattle.name_kinds.specs.Tables.{IsThere};
ghost use Rattle.name_notes.specs.Marks.{AreSized, Marked, IsMarked, AreMarked};
ghost use Rattle.name_notes.specs.Notes as spec;

use acpi_names::index::Index;
use acpi_names::lookup::scope_in;
use acpi_names::mention::{Declared, Mention};
use acpi_names::part::What;
use acpi_names::paths::Paths;
use name_kinds::tables::{declared_with, denoted};
use std::alloc::{AllocError, Global};

/// Of the paths with these numbers, which are declared as methods, and which are used.
#[derive(Drop)]
pub(crate) struct Marks {
    pub(crate) methods: Vec<bool>,
    pub(crate) used: Vec<bool>,
}

/// How many arguments what is declared takes, where it is a method.
pub(crate) fn method_arguments(what: Declared) -> Option<u64>
    ensures { (paths : List AbsolutePath) → result ≡ spec.method_arguments (declared_as paths what.entry) }
{
    match what {
        Declared::As(What::Method(flags)) => Some(flags % 8),
        _ => None,
    }
}

// The path that a mention declares as a method.
fn method(index: &Index, mention: &Mention) -> Option<usize>
    ghost whole: { Whole }
    requires agrees { Agrees index.now.paths index.now.named.items whole.all }
    requires there { IsThere whole (shown index.now.paths mention.now) }
    ensures within { IfSome result (λ n. n < length index.now.paths) }
    ensures path { path_with index.now.paths result ≡ spec.method_of (shown index.now.paths mention.now) }
{
    match mention {
        Mention::Declares {
            name,
            what,
            scope,
            path,
            ..
        } => match method_arguments(*what) {
            Some(_) => Some(declared_with(index, *name, *scope, *path)),
            None => None,
        },
        _ => None,
    }
}

// The path that a mention uses, where its name denotes one.
fn used(index: &Index, mention: &Mention) -> Option<usize>
    ghost whole: { Whole }
    requires flags { length index.now.named.items ≡ length index.now.paths }
    requires agrees { Agrees index.now.paths index.now.named.items whole.all }
    ensures within { IfSome result (λ n. n < length index.now.paths) }
    ensures path { path_with index.now.paths result ≡ spec.used_by (is_named whole.all) (shown index.now.paths mention.now) }
{
    match mention {
        Mention::Used { name, scope, .. } => denoted(index, name, *scope),
        Mention::Sought { name, scope, .. } => denoted(index, name, *scope),
        Mention::Called { name, scope, .. } => denoted(index, name, *scope),
        Mention::Opens { name, scope, .. } => denoted(index, name, *scope),
        Mention::Declares { .. } => None,
        Mention::Outside { .. } => None,
    }
}

// Flags of which none is set.
fn blank(alloc: Global, count: usize) -> Result<Vec<bool>, AllocError>
    ensures { IfOk result (λ flags. flags.items ≡ replicate count false) }
{
    let mut flags = Vec::with_capacity(alloc, count)?;
    for number in 0..count {
        flags.push(false)?;
    }
    Ok(flags)
}

// The flag of a path, if there is one, is set from now on.
fn mark(paths: &Paths, flags: &mut Vec<bool>, number: Option<usize>)
    requires within { IfSome number (λ n. n < length paths.now) }
    requires sized { length flags.old.items ≡ length paths.now }
    ensures sized { length flags.new.items ≡ length paths.now }
    ensures marked { IsMarked paths.now flags.old.items flags.new.items (path_with paths.now number) }
{
    let count = paths.len();
    if let Some(number) = number {
        flags[number] = true;
    }
}

/// The flags of the paths with these numbers are set from now on.
pub(crate) fn mark_each(paths: &Paths, flags: &mut Vec<bool>, numbers: &[usize])
    requires { length flags.old.items ≡ length paths.now }
    ensures sized { length flags.new.items ≡ length paths.now }
    ensures marked { (test : AbsolutePath → Bool) → Marked paths.now flags.old.items test → Marked paths.now flags.new.items
        (λ path. list_any (is_same_path path) (map (λ n. get_or paths.now n []) numbers.now) || test path) }
{
    for number in numbers {
        mark(paths, flags, Some(scope_in(paths, *number)));
    }
}

/// Whether the flag of the path with a number is set.
pub(crate) fn is_marked(paths: &Paths, flags: &[bool], number: usize) -> bool
    requires within { number < length paths.now }
    requires sized { length flags.now ≡ length paths.now }
    ensures { (test : AbsolutePath → Bool) → Marked paths.now flags.now test → result ≡ test (get_or paths.now number []) }
{
    let count = paths.len();
    flags[number]
}

// What one mention says.
fn note(index: &Index, marks: &mut Marks, mention: &Mention)
    ghost whole: { Whole }
    requires flags { length index.now.named.items ≡ length index.now.paths }
    requires agrees { Agrees index.now.paths index.now.named.items whole.all }
    requires there { IsThere whole (shown index.now.paths mention.now) }
    requires sized { AreSized index.now.paths marks.old }
    ensures sized { AreSized index.now.paths marks.new }
    ensures methods { IsMarked index.now.paths marks.old.methods.items marks.new.methods.items
        (spec.method_of (shown index.now.paths mention.now)) }
    ensures used { IsMarked index.now.paths marks.old.used.items marks.new.used.items
        (spec.used_by (is_named whole.all) (shown index.now.paths mention.now)) }
{
    mark(&index.paths, &mut marks.methods, method(index, mention));
    mark(&index.paths, &mut marks.used, used(index, mention));
}

/// What all mentions of a block say.
pub(crate) fn marks_of(
    alloc: Global,
    index: &Index,
    mentions: &[Mention],
) -> Result<Marks, AllocError>
    ghost whole: { Whole }
    requires flags { length index.now.named.items ≡ length index.now.paths }
    requires agrees { Agrees index.now.paths index.now.named.items whole.all }
    requires all { after_all (all_shown index.now.paths mentions.now) nothing_declared ≡ whole.all }
    ensures sized { IfOk result (AreSized index.now.paths) }
    ensures marked { IfOk result (λ marks. AreMarked index.now.paths (is_named whole.all) marks (all_shown index.now.paths mentions.now)) }
{
    let count = index.paths.len();
    let methods = blank(alloc, count)?;
    let used = blank(alloc, count)?;
    let mut marks = Marks { methods, used };
    for mention in mentions {
        note(index, &mut marks, mention);
    }
    Ok(marks)
}
