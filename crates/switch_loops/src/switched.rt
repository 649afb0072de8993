//! Whether a Switch stands in terms.
ghost use Rattle.std.specs.Prelude.{◌≡◌};
ghost use Rattle.switch_loops.specs.Switched.{is_switch as is_switch_op, switches as term_switches, has_switch as have_switch};

use asl_tree::term::{Control, Node, Op, Term};

/// Whether an operator is that of a Switch.
pub fn is_switch(op: Op) -> bool
    ensures { result ≡ is_switch_op op }
{
    matches!(op, Op::Control(Control::Switch))
}

#[cycle(ask)]
fn switches(node: &Node) -> bool
    ensures { result ≡ term_switches node.now.term }
{
    match &node.term {
        Term::Form { op, args: _, body } => is_switch(*op) || has_switch(body),
        _ => false,
    }
}

/// Whether a Switch is among terms, or stands at any depth in their braces, those of methods among them.
#[cycle(ask)]
pub fn has_switch(nodes: &[Node]) -> bool
    ensures { result ≡ have_switch nodes.now }
{
    for node in nodes {
        if switches(node) {
            return true;
        }
    }
    false
}
