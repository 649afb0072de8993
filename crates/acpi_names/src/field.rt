//! The names that fields use, and those of their units (ACPI Specification 6.4, 19.6.48, 19.6.64 and 19.6.7).
ghost use Rattle.std.specs.Prelude.{◌≡◌, ◌<◌, ◌∷◌, [], length, get_or, OnOk};
ghost use Rattle.asl_tree.specs.View.{trees_of};
ghost use Rattle.asl_tree.specs.declared.term.Op.{Op};
ghost use Rattle.acpi_names.specs.declared.part.NameRole.TheVariants as P;
ghost use Rattle.asl_meaning.specs.Declarations.{declare_items};
ghost use Rattle.acpi_names.specs.Mentions.{item_mentions};
ghost use Rattle.acpi_names.specs.Paths.{Extends};
ghost use Rattle.acpi_names.specs.Parts.{Leads, Marks, is_item_list, is_item_term, unit_of, listed_items};
ghost use Rattle.acpi_names.specs.Shown.{Tells, asked_as, spot_as};
ghost use Rattle.acpi_names.specs.Walked.{node_tree, name_mention, field_mentions};
ghost use Rattle.acpi_names.specs.Units.{unit_in, declare_unit, connection_mentions, entry_mentions};
ghost use Rattle.acpi_names.specs.Folding.{LeadsBy, TellsBy};

use crate::index::{Index, reach};
use crate::mention::{
    Asked, Declared, Mention, Occurrence, WrittenName, first_nodes, later_nodes, name_at, spot_of,
};
use crate::part::{Over, What};
use crate::walk::values;
use asl_tree::path::NameSeg;
use asl_tree::term::{Node, Term};
use std::alloc::AllocError;

fn is_item(term: &Term) -> bool
    ensures { result ≡ is_item_term term.now }
{
    matches!(
        term,
        Term::Unit { .. }
            | Term::Skip(_)
            | Term::Offset(_)
            | Term::Access { .. }
            | Term::Name(_)
            | Term::Fill { .. }
    )
}

// Whether a body lists items of a field, and nothing else.
fn are_items(nodes: &[Node]) -> bool
    ensures { result ≡ is_item_list (trees_of nodes.now) }
{
    for node in nodes {
        if !is_item(&node.term) {
            return false;
        }
    }
    true
}

// The name of a unit.
fn segment_in(term: &Term) -> Option<NameSeg>
    ensures { result ≡ unit_of term.now }
{
    match term {
        Term::Unit { segment, .. } => Some(*segment),
        _ => None,
    }
}

// A unit's name, which is named from now on.
fn declared_unit(index: &mut Index, segment: NameSeg, scope: usize) -> Result<usize, AllocError>
    requires scope_in { scope < length index.old.paths }
    requires all { length index.old.named.items ≡ length index.old.paths }
    ensures size { OnOk result (length index.new.named.items ≡ length index.new.paths) }
    ensures others { OnOk result (Extends index.old.paths index.new.paths) }
    ensures names { OnOk result (Marks index.old.paths index.old.named.items index.new.paths index.new.named.items
        (segment ∷ get_or index.old.paths scope [])) }
{
    let number = reach(index, scope, &[segment])?;
    let count = index.paths.len();
    index.named[number] = true;
    Ok(number)
}

// What units are connected to, where a node is a name.
fn connection<'a>(
    out: &mut Vec<Mention<'a>>,
    node: &'a Node,
    scope: usize,
) -> Result<(), AllocError>
    ensures { OnOk result (Tells out.old.items out.new.items (λ paths. connection_mentions (node_tree node.now) (get_or paths scope []))) }
{
    match &node.term {
        Term::Name(name) => {
            out.push(Mention::Used {
                asked: Asked::Object,
                at: spot_of(node),
                name,
                scope,
            })?;
            Ok(())
        }
        _ => Ok(()),
    }
}

// An item of a field's list.
fn fold_item<'a>(
    index: &mut Index,
    out: &mut Vec<Mention<'a>>,
    node: &'a Node,
    scope: usize,
) -> Result<(), AllocError>
    requires scope_in { scope < length index.old.paths }
    requires all { length index.old.named.items ≡ length index.old.paths }
    ensures size { OnOk result (length index.new.named.items ≡ length index.new.paths) }
    ensures others { OnOk result (Extends index.old.paths index.new.paths) }
    ensures names { OnOk result (Leads index.old.paths index.old.named.items index.new.paths index.new.named.items
        (declare_unit (unit_in (node_tree node.now)) (get_or index.old.paths scope []))) }
    ensures told { OnOk result (Tells out.old.items out.new.items (λ paths. entry_mentions (node_tree node.now) (get_or paths scope []))) }
{
    match segment_in(&node.term) {
        Some(segment) => {
            let path = declared_unit(index, segment, scope)?;
            out.push(Mention::Declares {
                at: spot_of(node),
                name: WrittenName::Segment(segment),
                what: Declared::As(What::Unit),
                scope,
                path,
            })?;
            Ok(())
        }
        None => {
            connection(out, node, scope)?;
            Ok(())
        }
    }
}

// The items of a field's list, in order.
fn fold_items<'a>(
    index: &mut Index,
    out: &mut Vec<Mention<'a>>,
    nodes: &'a [Node],
    scope: usize,
) -> Result<(), AllocError>
    requires scope_in { scope < length index.old.paths }
    requires all { length index.old.named.items ≡ length index.old.paths }
    ensures size { OnOk result (length index.new.named.items ≡ length index.new.paths) }
    ensures others { OnOk result (Extends index.old.paths index.new.paths) }
    ensures names { OnOk result (Leads index.old.paths index.old.named.items index.new.paths index.new.named.items
        (declare_items (listed_items (trees_of nodes.now)) (get_or index.old.paths scope []))) }
    ensures told { OnOk result
        (Tells out.old.items out.new.items (λ paths. item_mentions (listed_items (trees_of nodes.now)) (get_or paths scope []))) }
{
    for node in nodes {
        fold_item(index, out, node, scope)?;
    }
    Ok(())
}

// A name that an argument is, of which something is asked.
fn use_at<'a>(
    out: &mut Vec<Mention<'a>>,
    args: &'a [Node],
    place: usize,
    asked: Asked,
    scope: usize,
) -> Result<(), AllocError>
    ensures { OnOk result
        (Tells out.old.items out.new.items (λ paths. name_mention (asked_as asked) place (trees_of args.now) (get_or paths scope []))) }
{
    match name_at(args, place) {
        Some(found) => {
            out.push(Mention::Used {
                asked,
                at: found.at,
                name: found.name,
                scope,
            })?;
            Ok(())
        }
        None => Ok(()),
    }
}

// What the arguments of a field use.
fn field_uses<'a>(
    out: &mut Vec<Mention<'a>>,
    here: Occurrence,
    over: Over,
    args: &'a [Node],
    scope: usize,
) -> Result<(), AllocError>
    ensures { OnOk result
        (Tells out.old.items out.new.items (λ paths. field_mentions over (spot_as here) (trees_of args.now) (get_or paths scope []))) }
{
    match over {
        Over::Region => {
            use_at(out, args, 0, Asked::Region(here), scope)?;
            Ok(())
        }
        Over::Index => {
            use_at(out, args, 0, Asked::Unit, scope)?;
            use_at(out, args, 1, Asked::Unit, scope)?;
            Ok(())
        }
        Over::Bank => {
            use_at(out, args, 0, Asked::Region(here), scope)?;
            use_at(out, args, 1, Asked::Unit, scope)?;
            values(out, first_nodes(later_nodes(args, 1), 1), scope, true)?;
            Ok(())
        }
    }
}

/// The names that a field uses and declares. One whose body is no list of items has none.
pub(crate) fn fold_field<'a>(
    index: &mut Index,
    out: &mut Vec<Mention<'a>>,
    here: Occurrence,
    over: Over,
    args: &'a [Node],
    body: &'a [Node],
    scope: usize,
) -> Result<(), AllocError>
    requires scope_in { scope < length index.old.paths }
    requires all { length index.old.named.items ≡ length index.old.paths }
    ensures size { OnOk result (length index.new.named.items ≡ length index.new.paths) }
    ensures others { OnOk result (Extends index.old.paths index.new.paths) }
    ensures names { OnOk result (LeadsBy index.old.paths index.old.named.items index.new.paths index.new.named.items (P.Units over)
        (trees_of args.now) (trees_of body.now) (get_or index.old.paths scope [])) }
    ensures told { OnOk result ((op : Op) → TellsBy index.old.paths index.old.named.items index.new.paths out.old.items out.new.items
        (P.Units over) here op (trees_of args.now) (trees_of body.now) (get_or index.old.paths scope [])) }
{
    if !are_items(body) {
        return Ok(());
    }
    field_uses(out, here, over, args, scope)?;
    fold_items(index, out, body, scope)?;
    Ok(())
}
