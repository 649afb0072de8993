//! What is said of each path, in tables by its number.
ghost use Rattle.std.specs.Prelude.{◌≡◌, ◌<◌, ◌≤◌, ◌+◌, ◌^◌, ◌∷◌, [], length, get_or, IfSome, true};
ghost use Rattle.acpi_values.specs.Paths.{AbsolutePath};
ghost use Rattle.asl_tree.specs.Names.{declared_path, denoted as denotes_path};
ghost use Rattle.asl_meaning.specs.Declarations.{in_root, is_named, kind_of};
ghost use Rattle.acpi_names.specs.Errors.{Whole};
ghost use Rattle.acpi_names.specs.Parts.{Agrees};
ghost use Rattle.acpi_names.specs.Paths.{path_with, number_in};
ghost use Rattle.acpi_names.specs.Shown.{shown, declared_as, written_as};
ghost use Rattle.acpi_values.specs.Paths.{is_same_path};
ghost use Rattle.std.specs.Option.{option_map};
ghost use Rattle.name_kinds.specs.Kinds.{object_as, kind_as, at_root};
ghost use Rattle.name_kinds.specs.Tables.{AreSized, IsThere, IsDeclared, IsExternal, IsOutside, IsCalled, Notices};

use crate::kind::{External, NameKind, Object, root_object};
use acpi_names::index::{Index, denoted_by};
use acpi_names::lookup::{find, prefixed, scope_in, single};
use acpi_names::mention::{Declared, Mention, WrittenName};
use acpi_names::paths::Paths;
use asl_tree::path::{NameSeg, Path};
use std::alloc::{AllocError, Global};

/// What is said of the paths with these numbers: how each is declared last, its first External, and the number of
/// arguments of its first call.
#[derive(Drop)]
pub struct Tables {
    pub kinds: Vec<Option<NameKind>>,
    pub externals: Vec<Option<External>>,
    pub calls: Vec<Option<usize>>,
}

/// What a used name denotes in a scope.
pub fn denoted(index: &Index, name: &Path, scope: usize) -> Option<usize>
    ghost whole: { Whole }
    requires flags { length index.now.named.items ≡ length index.now.paths }
    requires agrees { Agrees index.now.paths index.now.named.items whole.all }
    ensures within { IfSome result (λ n. n < length index.now.paths) }
    ensures path { path_with index.now.paths result ≡ denotes_path (is_named whole.all) name.now (get_or index.now.paths scope []) }
{
    denoted_by(index, name, scope_in(&index.paths, scope))
}

// The number of the path of a declared name, where there is one.
fn declared_in(paths: &Paths, name: WrittenName, scope: usize) -> Option<usize>
    requires { scope < length paths.now }
    ensures { result ≡ number_in paths.now (declared_path (written_as name.entry) (get_or paths.now scope [])) }
{
    match name {
        WrittenName::Path(path) => {
            let outer = prefixed(paths, path, scope);
            find(paths, outer, path.segs.as_slice())
        }
        WrittenName::Segment(segment) => paths.child(scope, segment),
    }
}

/// The number of the path of a name that is declared.
pub fn declared_at(index: &Index, name: WrittenName, scope: usize) -> usize
    ghost whole: { Whole }
    requires agrees { Agrees index.now.paths index.now.named.items whole.all }
    requires there { is_named whole.all (declared_path (written_as name) (get_or index.now.paths scope [])) ≡ true }
    ensures within { result < length index.now.paths }
    ensures path { get_or index.now.paths result [] ≡ declared_path (written_as name.entry) (get_or index.now.paths scope []) }
{
    let scope = scope_in(&index.paths, scope);
    match declared_in(&index.paths, name, scope) {
        Some(number) => number,
        None => 0,
    }
}

// The one segment of a declared name without a prefix.
#[tactic(auto, using(crate::proofs::Written::one_segment))]
fn segment_of(name: WrittenName) -> Option<NameSeg>
    ensures { (scope : AbsolutePath) → IfSome result (λ segment. declared_path (written_as name.entry) scope ≡ segment ∷ scope) }
{
    match name {
        WrittenName::Path(path) => single(path),
        WrittenName::Segment(segment) => Some(segment),
    }
}

// Whether the path with a number is this segment below the path with another.
fn is_child(paths: &Paths, number: usize, parent: usize, segment: NameSeg) -> bool
    ensures within { result ≡ true → number < length paths.now }
    ensures path { result ≡ true → get_or paths.now number [] ≡ segment ∷ get_or paths.now parent [] }
{
    if number >= paths.len() {
        return false;
    }
    match paths.step(number) {
        Some(step) => step.0 == parent && step.1 == segment,
        None => false,
    }
}

// Whether a declared name is one segment without a prefix, and its path has this number.
fn has_number(paths: &Paths, name: WrittenName, scope: usize, number: usize) -> bool
    ensures within { result ≡ true → number < length paths.now }
    ensures path { result ≡ true → get_or paths.now number [] ≡ declared_path (written_as name.entry) (get_or paths.now scope []) }
{
    match segment_of(name) {
        Some(segment) => is_child(paths, number, scope, segment),
        None => false,
    }
}

/// The number of the path of a name that is declared, where a mention says that it is `path`.
pub fn declared_with(index: &Index, name: WrittenName, scope: usize, path: usize) -> usize
    ghost whole: { Whole }
    requires agrees { Agrees index.now.paths index.now.named.items whole.all }
    requires there { is_named whole.all (declared_path (written_as name) (get_or index.now.paths scope [])) ≡ true }
    ensures within { result < length index.now.paths }
    ensures path { get_or index.now.paths result [] ≡ declared_path (written_as name.entry) (get_or index.now.paths scope []) }
{
    if has_number(&index.paths, name, scope, path) {
        path
    } else {
        declared_at(index, name, scope)
    }
}

// Whether a path is the root.
pub(crate) fn is_root(paths: &Paths, number: usize) -> bool
    requires { number < length paths.now }
    ensures { result ≡ is_same_path (get_or paths.now number []) [] }
{
    match paths.step(number) {
        Some(_) => false,
        None => true,
    }
}

/// The object that a path is in the root, before any term.
pub fn root_at(paths: &Paths, number: usize) -> Option<Object>
    requires { number < length paths.now }
    ensures { option_map object_as result ≡ at_root (get_or paths.now number []) }
{
    match paths.step(number) {
        None => Some(Object::Container),
        Some(below) => {
            let segment = below.1;
            if is_root(paths, below.0) {
                root_object(segment)
            } else {
                None
            }
        }
    }
}

/// Whether a path is of the root, so that an External of it says nothing.
pub fn is_in_root(paths: &Paths, number: usize) -> bool
    requires { number < length paths.now }
    ensures { result ≡ in_root (get_or paths.now number []) }
{
    match root_at(paths, number) {
        Some(_) => true,
        None => false,
    }
}

// What a declaration says that its path is.
fn declared_kind(index: &Index, what: Declared) -> NameKind
    ghost whole: { Whole }
    requires flags { length index.now.named.items ≡ length index.now.paths }
    requires agrees { Agrees index.now.paths index.now.named.items whole.all }
    ensures { kind_as index.now.paths result ≡ kind_of (is_named whole.all) (declared_as index.now.paths what.entry) }
{
    match what {
        Declared::As(what) => NameKind::Is(Object::Declared(what)),
        Declared::Alias { source, scope } => NameKind::AliasTo(denoted(index, source, scope)),
    }
}

// A path is declared.
fn note_declared(index: &Index, tables: &mut Tables, number: usize, kind: NameKind)
    requires within { number < length index.now.paths }
    requires sized { AreSized index.now.paths tables.old }
    ensures sized { AreSized index.now.paths tables.new }
    ensures noted { IsDeclared index.now.paths tables.old tables.new kind (get_or index.now.paths number []) }
{
    let count = index.paths.len();
    tables.kinds[number] = Some(kind);
}

// An External of a path that is not of the root.
fn note_external(index: &Index, tables: &mut Tables, number: usize, external: External)
    requires within { number < length index.now.paths }
    requires sized { AreSized index.now.paths tables.old }
    ensures sized { AreSized index.now.paths tables.new }
    ensures noted { IsExternal index.now.paths tables.old tables.new external (get_or index.now.paths number []) }
{
    let count = index.paths.len();
    match tables.externals[number] {
        // The first one counts.
        Some(_) => {}
        None => tables.externals[number] = Some(external),
    }
}

// An External of a path.
fn note_outside(index: &Index, tables: &mut Tables, number: usize, external: External)
    requires within { number < length index.now.paths }
    requires sized { AreSized index.now.paths tables.old }
    ensures sized { AreSized index.now.paths tables.new }
    ensures noted { IsOutside index.now.paths tables.old tables.new external (get_or index.now.paths number []) }
{
    let count = index.paths.len();
    if !is_in_root(&index.paths, number) {
        note_external(index, tables, number, external);
    }
}

// A call of a path.
fn note_call(index: &Index, tables: &mut Tables, number: usize, args: usize)
    requires within { number < length index.now.paths }
    requires sized { AreSized index.now.paths tables.old }
    ensures sized { AreSized index.now.paths tables.new }
    ensures noted { IsCalled index.now.paths tables.old tables.new args (get_or index.now.paths number []) }
{
    let count = index.paths.len();
    match tables.calls[number] {
        Some(_) => {}
        None => tables.calls[number] = Some(args),
    }
}

/// What one mention says.
pub(crate) fn note(index: &Index, tables: &mut Tables, mention: &Mention)
    ghost whole: { Whole }
    requires flags { length index.now.named.items ≡ length index.now.paths }
    requires agrees { Agrees index.now.paths index.now.named.items whole.all }
    requires there { IsThere whole (shown index.now.paths mention.now) }
    requires sized { AreSized index.now.paths tables.old }
    ensures sized { AreSized index.now.paths tables.new }
    ensures noted { Notices index.now.paths whole tables.old tables.new (shown index.now.paths mention.now) }
{
    match mention {
        Mention::Used { .. } => {}
        Mention::Sought { .. } => {}
        Mention::Opens { .. } => {}
        Mention::Called {
            name,
            args,
            scope,
            ..
        } => {
            if let Some(number) = denoted(index, name, *scope) {
                note_call(index, tables, number, *args);
            }
        }
        Mention::Declares {
            name,
            what,
            scope,
            path,
            ..
        } => {
            let kind = declared_kind(index, *what);
            let number = declared_with(index, *name, *scope, *path);
            note_declared(index, tables, number, kind);
        }
        Mention::Outside {
            name,
            object,
            parameters,
            scope,
            ..
        } => {
            let number = declared_at(index, WrittenName::Path(name), *scope);
            let external = External {
                object: *object,
                parameters: *parameters,
            };
            note_outside(index, tables, number, external);
        }
    }
}
