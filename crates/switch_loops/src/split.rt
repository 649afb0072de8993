//! The Default of a Switch.
ghost use Rattle.std.specs.Prelude.{◌≡◌, Some, not, reverse, IfOk};
ghost use Rattle.std.specs.List.{filter};
ghost use Rattle.acpi_names.specs.Walked.{term_shape};
ghost use Rattle.switch_loops.specs.Kinds.{default_node, is_default as default_kind, shape_kind};
ghost use Rattle.switch_loops.specs.Links.{first_default};

use crate::kind::{TermRole, kind_of};
use asl_tree::term::Node;
use std::alloc::{AllocError, Global};

/// What stands in a Switch: its Cases, the last first, and its Default.
#[derive(Drop)]
pub(crate) struct Split {
    pub cases: Vec<Node>,
    pub default: Option<Node>,
}

fn is_default(node: &Node) -> bool
    ensures { result ≡ default_node node.now }
{
    matches!(kind_of(&node.term), TermRole::Default)
}

// The one of two Defaults that stands first.
fn earlier(node: Node, _later: Option<Node>) -> Option<Node>
    ensures { result ≡ Some node }
{
    Some(node)
}

/// What stands in a Switch; of several Defaults it is the first one.
pub(crate) fn split_cases(alloc: Global, nodes: Vec<Node>) -> Result<Split, AllocError>
    ensures cases { IfOk result (λ split. reverse split.cases.items ≡ filter (λ node. not (default_node node)) nodes.items) }
    ensures default { IfOk result (λ split. split.default ≡ first_default nodes.items) }
{
    let mut left = nodes;
    let mut cases = Vec::new(alloc);
    let mut default = None;
    while let Some(node) = left.pop() {
        if is_default(&node) {
            default = earlier(node, default);
        } else {
            cases.push(node)?;
        }
    }
    Ok(Split { cases, default })
}
