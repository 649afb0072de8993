//! The names that a block mentions.
ghost use Rattle.std.specs.Prelude.{◌≡◌, suc};
ghost use Rattle.std.specs.Option.{option_map};
ghost use Rattle.acpi_names.specs.Shown.{named_as, named_at};
ghost use Rattle.acpi_names.specs.Walked.{first_trees, later_trees};
ghost use Rattle.asl_tree.specs.View.{trees_of};

use crate::part::{Shape, What, node_at, shape_of};
use asl_tree::path::{NameSeg, Path};
use asl_tree::term::Node;
use iasl_messages::place::Place;

/// Which node of the program is meant, and its place.
#[derive(Clone, Copy, PartialEq, Eq, Debug)]
pub struct Occurrence {
    pub id: u32,
    pub place: Place,
}

/// A name with its node.
#[derive(Clone, Copy)]
pub struct Named<'a> {
    pub at: Occurrence,
    pub name: &'a Path,
}

/// How a path is declared: as an object, or as an alias of what a name denotes in the scope with a number.
#[derive(Clone, Copy)]
pub enum Declared<'a> {
    As(What),
    Alias { source: &'a Path, scope: usize },
}

/// A declared name as it is written: a path, or the one segment of a field's unit.
#[derive(Clone, Copy)]
pub enum WrittenName<'a> {
    Path(&'a Path),
    Segment(NameSeg),
}

/// What is asked of a used name: nothing; that it is an object of any kind; that it is a value, and so no method with
/// arguments; or that it is an object of some kind. A field asks at its own node for a region that it can lie in.
#[derive(Clone, Copy, PartialEq, Eq, Debug)]
pub enum Asked {
    Anything,
    Object,
    Value,
    Mutex,
    Event,
    Unit,
    Region(Occurrence),
}

/// A mention of a name. `scope` is the number of the path of the scope in which it stands.
#[derive(Clone, Copy)]
pub enum Mention<'a> {
    Used {
        asked: Asked,
        at: Occurrence,
        name: &'a Path,
        scope: usize,
    },
    /// A name that may lead nowhere.
    Sought {
        at: Occurrence,
        name: &'a Path,
        scope: usize,
    },
    /// A name with arguments behind it. `asked` says whether it stands where a value is asked for.
    Called {
        asked: bool,
        at: Occurrence,
        name: &'a Path,
        args: usize,
        scope: usize,
    },
    /// A declared name, whose path has the number `path`. No clause speaks of that number: who goes by it looks first.
    Declares {
        at: Occurrence,
        name: WrittenName<'a>,
        what: Declared<'a>,
        scope: usize,
        path: usize,
    },
    /// The name of an External.
    Outside {
        here: Occurrence,
        at: Occurrence,
        name: &'a Path,
        object: u64,
        parameters: Option<u64>,
        scope: usize,
    },
    /// The name of a Scope; its terms have the path with the number `inner`.
    Opens {
        here: Occurrence,
        at: Occurrence,
        name: &'a Path,
        scope: usize,
        inner: usize,
    },
}

pub fn spot_of(node: &Node) -> Occurrence
    ensures { result ≡ record { id = node.now.id; place = node.now.place } }
{
    Occurrence {
        id: node.id,
        place: node.place,
    }
}

/// The name that an argument is, with its node.
pub(crate) fn name_at(nodes: &[Node], place: usize) -> Option<Named<'_>>
    ensures { option_map named_as result ≡ named_at place (trees_of nodes.now) }
{
    match node_at(nodes, place) {
        Some(node) => match shape_of(&node.term) {
            Shape::Name(name) => Some(Named {
                at: spot_of(node),
                name,
            }),
            _ => None,
        },
        None => None,
    }
}

/// The arguments before a place.
pub(crate) fn first_nodes(nodes: &[Node], place: usize) -> &[Node]
    ensures { trees_of result.now ≡ first_trees place (trees_of nodes.now) }
{
    if place < nodes.len() {
        &nodes[..place]
    } else {
        nodes
    }
}

/// The arguments behind a place.
pub(crate) fn later_nodes(nodes: &[Node], place: usize) -> &[Node]
    ensures { trees_of result.now ≡ later_trees (suc place) (trees_of nodes.now) }
{
    if place < nodes.len() {
        &nodes[place + 1..]
    } else {
        &[]
    }
}
