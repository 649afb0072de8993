//! The names of a block, as its terms declare them.
ghost use Rattle.std.specs.Prelude.{◌≡◌, ◌<◌, ◌∷◌, [], length, get_or, IfOk, OnOk, IfSome};
ghost use Rattle.asl_tree.specs.Names.{below, declared_path, denoted};
ghost use Rattle.asl_tree.specs.Tree.{Trees};
ghost use Rattle.asl_tree.specs.View.{trees_of};
ghost use Rattle.asl_tree.specs.declared.term.Op.{Op};
ghost use Rattle.acpi_names.specs.declared.mention.Occurrence.{Occurrence};
ghost use Rattle.acpi_names.specs.declared.part.NameRole.TheVariants as P;
ghost use Rattle.acpi_names.specs.Mentions.{term_mentions, block_mentions};
ghost use Rattle.acpi_names.specs.Shown.{all_shown, Tells};
ghost use Rattle.acpi_names.specs.Walked.{node_tree, print_mentions};
ghost use Rattle.acpi_names.specs.Folding.{TellsIn, LeadsBy, TellsBy};
ghost use Rattle.asl_meaning.specs.Declarations.{Declarations, declare, declare_all, scope_path, nothing_declared, declarations, is_named};
ghost use Rattle.acpi_names.specs.Paths.{Extends, path_with};
ghost use Rattle.acpi_names.specs.Parts.{Agrees, Marks, Keeps, Leads, part_of};

use crate::field::fold_field;
use crate::lookup::{denotes, intern, prefixed};
use crate::mention::{
    Asked, Declared, Mention, Occurrence, WrittenName, first_nodes, later_nodes, name_at, spot_of,
};
use crate::part::{NameRole, Shape, What, part_for, shape_of};
use crate::paths::Paths;
use crate::walk::{form, spot, value, values};
use asl_tree::path::{NameSeg, Path};
use asl_tree::term::{Node, Op};
use std::alloc::{AllocError, Global};

/// All paths that a block speaks of, and of each number whether its path is named.
pub struct Index {
    pub paths: Paths,
    pub named: Vec<bool>,
}

// By hand, so that an owner lets go of it by one call (docs/DECISIONS.md).
impl Drop for Index {
    fn drop(self) {
        let Index { paths: _, named: _ } = self;
    }
}

/// The number of the path of these segments below a scope; nothing more is named.
pub fn reach(index: &mut Index, scope: usize, segs: &[NameSeg]) -> Result<usize, AllocError>
    requires scope_in { scope < length index.old.paths }
    requires all { length index.old.named.items ≡ length index.old.paths }
    ensures size { OnOk result (length index.new.named.items ≡ length index.new.paths) }
    ensures within { IfOk result (λ n. n < length index.new.paths) }
    ensures path { IfOk result (λ n. get_or index.new.paths n [] ≡ below (get_or index.old.paths scope []) segs.now) }
    ensures others { OnOk result (Extends index.old.paths index.new.paths) }
    ensures names { OnOk result (Keeps index.old.paths index.old.named.items index.new.paths index.new.named.items) }
{
    let before = index.paths.len();
    let number = intern(&mut index.paths, scope, segs)?;
    let count = index.paths.len();
    while index.named.len() < count {
        index.named.push(false)?;
    }
    Ok(number)
}

/// The path of a declared name, which is named from now on.
fn declared(index: &mut Index, name: &Path, scope: usize) -> Result<usize, AllocError>
    requires scope_in { scope < length index.old.paths }
    requires all { length index.old.named.items ≡ length index.old.paths }
    ensures size { OnOk result (length index.new.named.items ≡ length index.new.paths) }
    ensures within { IfOk result (λ n. n < length index.new.paths) }
    ensures path { IfOk result (λ n. get_or index.new.paths n [] ≡ declared_path name.now (get_or index.old.paths scope [])) }
    ensures others { OnOk result (Extends index.old.paths index.new.paths) }
    ensures names { OnOk result (Marks index.old.paths index.old.named.items index.new.paths index.new.named.items
        (declared_path name.now (get_or index.old.paths scope []))) }
{
    let outer = prefixed(&index.paths, name, scope);
    let number = reach(index, outer, name.segs.as_slice())?;
    let count = index.paths.len();
    index.named[number] = true;
    Ok(number)
}

/// The path of a Scope.
fn opened_scope(index: &mut Index, name: &Path, scope: usize) -> Result<usize, AllocError>
    requires scope_in { scope < length index.old.paths }
    requires all { length index.old.named.items ≡ length index.old.paths }
    ensures size { OnOk result (length index.new.named.items ≡ length index.new.paths) }
    ensures within { IfOk result (λ n. n < length index.new.paths) }
    ensures path { IfOk result (λ n. (d : Declarations) → Agrees index.old.paths index.old.named.items d →
        get_or index.new.paths n [] ≡ scope_path d name.now (get_or index.old.paths scope [])) }
    ensures others { OnOk result (Extends index.old.paths index.new.paths) }
    ensures names { OnOk result (Keeps index.old.paths index.old.named.items index.new.paths index.new.named.items) }
{
    match denotes(&index.paths, &index.named, name, scope) {
        Some(number) => Ok(number),
        None => {
            let outer = prefixed(&index.paths, name, scope);
            let number = reach(index, outer, name.segs.as_slice())?;
            Ok(number)
        }
    }
}

// An object of the root, which is named from now on.
fn rooted(index: &mut Index, segment: NameSeg) -> Result<(), AllocError>
    requires some { 0 < length index.old.paths }
    requires root { get_or index.old.paths 0 [] ≡ [] }
    requires all { length index.old.named.items ≡ length index.old.paths }
    ensures size { OnOk result (length index.new.named.items ≡ length index.new.paths) }
    ensures more { OnOk result (0 < length index.new.paths) }
    ensures first { OnOk result (get_or index.new.paths 0 [] ≡ []) }
    ensures names { OnOk result (Marks index.old.paths index.old.named.items index.new.paths index.new.named.items (segment ∷ [])) }
{
    let number = reach(index, 0, &[segment])?;
    let count = index.paths.len();
    index.named[number] = true;
    Ok(())
}

/// The root and its objects, all of them named.
pub fn start(alloc: Global) -> Result<Index, AllocError>
    ensures size { IfOk result (λ i. length i.named.items ≡ length i.paths) }
    ensures some { IfOk result (λ i. 0 < length i.paths) }
    ensures root { IfOk result (λ i. get_or i.paths 0 [] ≡ []) }
    ensures names { IfOk result (λ i. Agrees i.paths i.named.items nothing_declared) }
{
    let mut named = Vec::new(alloc);
    named.push(true)?;
    let paths = Paths::new(alloc);
    let mut index = Index { paths, named };
    rooted(&mut index, *b"_REV")?;
    rooted(&mut index, *b"_OS_")?;
    rooted(&mut index, *b"_OSI")?;
    rooted(&mut index, *b"_GL_")?;
    rooted(&mut index, *b"_TZ_")?;
    rooted(&mut index, *b"_SI_")?;
    rooted(&mut index, *b"_SB_")?;
    rooted(&mut index, *b"_PR_")?;
    rooted(&mut index, *b"_GPE")?;
    Ok(index)
}

/// The names that terms in a scope declare and mention, in their order.
#[cycle(fold)]
pub fn fold<'a>(
    index: &mut Index,
    out: &mut Vec<Mention<'a>>,
    nodes: &'a [Node],
    scope: usize,
) -> Result<(), AllocError>
    requires scope_in { scope < length index.old.paths }
    requires all { length index.old.named.items ≡ length index.old.paths }
    ensures size { OnOk result (length index.new.named.items ≡ length index.new.paths) }
    ensures others { OnOk result (Extends index.old.paths index.new.paths) }
    ensures names { OnOk result (Leads index.old.paths index.old.named.items index.new.paths index.new.named.items
        (declare_all (trees_of nodes.now) (get_or index.old.paths scope []))) }
    ensures told { OnOk result (TellsIn index.old.paths index.old.named.items index.new.paths out.old.items out.new.items
        (block_mentions (trees_of nodes.now) (get_or index.old.paths scope []))) }
{
    for node in nodes {
        fold_term(index, out, node, scope)?;
    }
    Ok(())
}

#[cycle(fold)]
fn fold_term<'a>(
    index: &mut Index,
    out: &mut Vec<Mention<'a>>,
    node: &'a Node,
    scope: usize,
) -> Result<(), AllocError>
    requires scope_in { scope < length index.old.paths }
    requires all { length index.old.named.items ≡ length index.old.paths }
    ensures size { OnOk result (length index.new.named.items ≡ length index.new.paths) }
    ensures others { OnOk result (Extends index.old.paths index.new.paths) }
    ensures names { OnOk result (Leads index.old.paths index.old.named.items index.new.paths index.new.named.items
        (declare (node_tree node.now) (get_or index.old.paths scope []))) }
    ensures told { OnOk result (TellsIn index.old.paths index.old.named.items index.new.paths out.old.items out.new.items
        (term_mentions (node_tree node.now) (get_or index.old.paths scope []))) }
{
    match shape_of(&node.term) {
        Shape::Form(op, args, body) => {
            fold_form(index, out, spot_of(node), op, args, body, scope)?;
            Ok(())
        }
        _ => {
            value(out, node, scope, true)?;
            Ok(())
        }
    }
}

#[cycle(fold)]
fn fold_form<'a>(
    index: &mut Index,
    out: &mut Vec<Mention<'a>>,
    here: Occurrence,
    op: Op,
    args: &'a [Node],
    body: &'a [Node],
    scope: usize,
) -> Result<(), AllocError>
    requires scope_in { scope < length index.old.paths }
    requires all { length index.old.named.items ≡ length index.old.paths }
    ensures size { OnOk result (length index.new.named.items ≡ length index.new.paths) }
    ensures others { OnOk result (Extends index.old.paths index.new.paths) }
    ensures names { OnOk result (LeadsBy index.old.paths index.old.named.items index.new.paths index.new.named.items
        (part_of op (trees_of args.now) (trees_of body.now)) (trees_of args.now) (trees_of body.now) (get_or index.old.paths scope [])) }
    ensures told { OnOk result (TellsBy index.old.paths index.old.named.items index.new.paths out.old.items out.new.items
        (part_of op (trees_of args.now) (trees_of body.now)) here op (trees_of args.now) (trees_of body.now)
        (get_or index.old.paths scope [])) }
{
    match part_for(op, args, body) {
        NameRole::Nothing => {
            form(out, op, args, body, scope, true)?;
            Ok(())
        }
        NameRole::Declares { name, what, opens } => {
            fold_declared(index, out, name, what, opens, args, body, scope)?;
            Ok(())
        }
        NameRole::Alias => {
            fold_alias(index, out, args, scope)?;
            Ok(())
        }
        NameRole::External { object, parameters } => {
            fold_external(index, out, here, object, parameters, args, scope)?;
            Ok(())
        }
        NameRole::Scope => {
            fold_scope(index, out, here, args, body, scope)?;
            Ok(())
        }
        NameRole::Within => {
            values(out, args, scope, true)?;
            fold(index, out, body, scope)?;
            Ok(())
        }
        NameRole::Returns => {
            values(out, args, scope, true)?;
            Ok(())
        }
        NameRole::Prints => {
            printed(out, args, scope)?;
            Ok(())
        }
        NameRole::Units(over) => {
            fold_field(index, out, here, over, args, body, scope)?;
            Ok(())
        }
    }
}

// The place of what prints, and then its format and its arguments.
fn printed<'a>(out: &mut Vec<Mention<'a>>, args: &'a [Node], scope: usize) -> Result<(), AllocError>
    ensures { OnOk result (Tells out.old.items out.new.items (λ paths. print_mentions (trees_of args.now) (get_or paths scope []))) }
{
    match args {
        [place, ..] => {
            spot(out, place, scope, true)?;
            values(out, later_nodes(args, 0), scope, true)?;
            Ok(())
        }
        _ => Ok(()),
    }
}

// A term that declares a name, perhaps with terms in its scope.
#[cycle(fold)]
fn fold_declared<'a>(
    index: &mut Index,
    out: &mut Vec<Mention<'a>>,
    place: usize,
    what: What,
    opens: bool,
    args: &'a [Node],
    body: &'a [Node],
    scope: usize,
) -> Result<(), AllocError>
    requires scope_in { scope < length index.old.paths }
    requires all { length index.old.named.items ≡ length index.old.paths }
    ensures size { OnOk result (length index.new.named.items ≡ length index.new.paths) }
    ensures others { OnOk result (Extends index.old.paths index.new.paths) }
    ensures names { OnOk result (LeadsBy index.old.paths index.old.named.items index.new.paths index.new.named.items
        (P.Declares place what opens) (trees_of args.now) (trees_of body.now) (get_or index.old.paths scope [])) }
    ensures told { OnOk result ((here : Occurrence) (op : Op) → TellsBy index.old.paths index.old.named.items index.new.paths out.old.items
        out.new.items (P.Declares place what opens) here op (trees_of args.now) (trees_of body.now) (get_or index.old.paths scope [])) }
{
    match name_at(args, place) {
        Some(found) => {
            values(out, first_nodes(args, place), scope, true)?;
            let inner = declared(index, found.name, scope)?;
            out.push(Mention::Declares {
                at: found.at,
                name: WrittenName::Path(found.name),
                what: Declared::As(what),
                scope,
                path: inner,
            })?;
            values(out, later_nodes(args, place), scope, true)?;
            if opens {
                fold(index, out, body, inner)?;
            }
            Ok(())
        }
        None => Ok(()),
    }
}

fn fold_alias<'a>(
    index: &mut Index,
    out: &mut Vec<Mention<'a>>,
    args: &'a [Node],
    scope: usize,
) -> Result<(), AllocError>
    requires scope_in { scope < length index.old.paths }
    requires all { length index.old.named.items ≡ length index.old.paths }
    ensures size { OnOk result (length index.new.named.items ≡ length index.new.paths) }
    ensures others { OnOk result (Extends index.old.paths index.new.paths) }
    ensures names { OnOk result ((body : Trees) → LeadsBy index.old.paths index.old.named.items index.new.paths index.new.named.items
        P.Alias (trees_of args.now) body (get_or index.old.paths scope [])) }
    ensures told { OnOk result ((here : Occurrence) (op : Op) (body : Trees) → TellsBy index.old.paths index.old.named.items index.new.paths
        out.old.items out.new.items P.Alias here op (trees_of args.now) body (get_or index.old.paths scope [])) }
{
    match name_at(args, 0) {
        Some(source) => match name_at(args, 1) {
            Some(alias) => {
                out.push(Mention::Used {
                    asked: Asked::Object,
                    at: source.at,
                    name: source.name,
                    scope,
                })?;
                let path = declared(index, alias.name, scope)?;
                out.push(Mention::Declares {
                    at: alias.at,
                    name: WrittenName::Path(alias.name),
                    what: Declared::Alias {
                        source: source.name,
                        scope,
                    },
                    scope,
                    path,
                })?;
                Ok(())
            }
            None => Ok(()),
        },
        None => Ok(()),
    }
}

fn fold_external<'a>(
    index: &mut Index,
    out: &mut Vec<Mention<'a>>,
    here: Occurrence,
    object: u64,
    parameters: Option<u64>,
    args: &'a [Node],
    scope: usize,
) -> Result<(), AllocError>
    requires scope_in { scope < length index.old.paths }
    requires all { length index.old.named.items ≡ length index.old.paths }
    ensures size { OnOk result (length index.new.named.items ≡ length index.new.paths) }
    ensures others { OnOk result (Extends index.old.paths index.new.paths) }
    ensures names { OnOk result ((body : Trees) → LeadsBy index.old.paths index.old.named.items index.new.paths index.new.named.items
        (P.External object parameters) (trees_of args.now) body (get_or index.old.paths scope [])) }
    ensures told { OnOk result ((op : Op) (body : Trees) → TellsBy index.old.paths index.old.named.items index.new.paths out.old.items
        out.new.items (P.External object parameters) here op (trees_of args.now) body (get_or index.old.paths scope [])) }
{
    match name_at(args, 0) {
        Some(found) => {
            out.push(Mention::Outside {
                here,
                at: found.at,
                name: found.name,
                object,
                parameters,
                scope,
            })?;
            declared(index, found.name, scope)?;
            Ok(())
        }
        None => Ok(()),
    }
}

#[cycle(fold)]
fn fold_scope<'a>(
    index: &mut Index,
    out: &mut Vec<Mention<'a>>,
    here: Occurrence,
    args: &'a [Node],
    body: &'a [Node],
    scope: usize,
) -> Result<(), AllocError>
    requires scope_in { scope < length index.old.paths }
    requires all { length index.old.named.items ≡ length index.old.paths }
    ensures size { OnOk result (length index.new.named.items ≡ length index.new.paths) }
    ensures others { OnOk result (Extends index.old.paths index.new.paths) }
    ensures names { OnOk result (LeadsBy index.old.paths index.old.named.items index.new.paths index.new.named.items P.Scope
        (trees_of args.now) (trees_of body.now) (get_or index.old.paths scope [])) }
    ensures told { OnOk result ((op : Op) → TellsBy index.old.paths index.old.named.items index.new.paths out.old.items out.new.items
        P.Scope here op (trees_of args.now) (trees_of body.now) (get_or index.old.paths scope [])) }
{
    match name_at(args, 0) {
        Some(found) => {
            let inner = opened_scope(index, found.name, scope)?;
            out.push(Mention::Opens {
                here,
                at: found.at,
                name: found.name,
                scope,
                inner,
            })?;
            fold(index, out, body, inner)?;
            Ok(())
        }
        None => Ok(()),
    }
}

/// The names of a block: all its paths, and its mentions.
#[derive(Drop)]
pub struct BlockNames<'a> {
    pub index: Index,
    pub mentions: Vec<Mention<'a>>,
}

/// The names that the terms of a block declare, those of the root, and all mentions.
pub fn names_of(alloc: Global, nodes: &[Node]) -> Result<BlockNames<'_>, AllocError>
    ensures size { IfOk result (λ f. length f.index.named.items ≡ length f.index.paths) }
    ensures names { IfOk result (λ f. Agrees f.index.paths f.index.named.items (declarations (trees_of nodes.now))) }
    ensures told { IfOk result (λ f. all_shown f.index.paths f.mentions.items ≡ block_mentions (trees_of nodes.now) [] nothing_declared) }
{
    let mut index = start(alloc)?;
    let mut mentions = Vec::new(alloc);
    fold(&mut index, &mut mentions, nodes, 0)?;
    Ok(BlockNames { index, mentions })
}

/// What a used name denotes in a scope.
pub fn denoted_by(index: &Index, name: &Path, scope: usize) -> Option<usize>
    requires scope_in { scope < length index.now.paths }
    requires all { length index.now.named.items ≡ length index.now.paths }
    ensures within { IfSome result (λ n. n < length index.now.paths) }
    ensures path { (d : Declarations) → Agrees index.now.paths index.now.named.items d → path_with index.now.paths result ≡ denoted
        (is_named d) name.now (get_or index.now.paths scope []) }
{
    denotes(&index.paths, &index.named, name, scope)
}
