//! A run of Externals, which an If takes.
ghost use Rattle.std.specs.Prelude.{◌≡◌, ◌++◌, ◌∷◌, [], not, OnOk, IfOk};
ghost use Rattle.asl_tree.specs.Tree.{At, Constant, If, no_trees, tree};
ghost use Rattle.asl_tree.specs.View.{tree_of, trees_of};
ghost use Rattle.asl_tree.specs.declared.term.Literal.TheVariants as L;
ghost use Rattle.asl_lower.specs.Nests.{joined};
ghost use Rattle.term_places.specs.Places.{inner_places, places_of};
ghost use Rattle.wrapped_externals.specs.Wraps.{in_if};
ghost use Rattle.wrapped_externals.specs.Starts.{with_ifs};

use asl_tree::term::{Control, Literal, Node, Op, Term};
use iasl_messages::place::Place;
use std::alloc::{AllocError, Global};

// The If with nodes in its braces. Its test has an id and a place.
fn guard(alloc: Global, id: u32, place: Place, body: Vec<Node>) -> Result<Term, AllocError>
    ensures tree { IfOk result (λ made. (at : At) → tree_of at made ≡ If (Constant L.Zero) (trees_of body.items)) }
    ensures places { IfOk result (λ made. inner_places made ≡ places_of body.items) }
{
    let mut args = Vec::with_capacity(alloc, 1)?;
    args.push(Node {
        id,
        place,
        term: Term::Form {
            op: Op::Literal(Literal::Zero),
            args: Vec::new(alloc),
            body: Vec::new(alloc),
        },
    })?;
    Ok(Term::Form {
        op: Op::Control(Control::If),
        args,
        body,
    })
}

/// Puts a run of Externals behind other nodes: in an If, which has the id and the place of the first of them, unless it is kept as it is.
pub(crate) fn put_run(
    alloc: Global,
    made: &mut Vec<Node>,
    run: Vec<Node>,
    kept: bool,
) -> Result<(), AllocError>
    ensures trees { OnOk result (trees_of made.new.items ≡ joined (trees_of made.old.items) (in_if (trees_of run.items) kept)) }
    ensures places { OnOk result (places_of made.new.items ≡ places_of made.old.items ++ with_ifs (not kept ∷ []) (places_of run.items)) }
{
    if kept {
        let mut run = run;
        made.append(&mut run)?;
        return Ok(());
    }
    let (id, place) = match run.first() {
        Some(node) => (node.id, node.place),
        None => return Ok(()),
    };
    let term = guard(alloc, id, place, run)?;
    made.push(Node { id, place, term })?;
    Ok(())
}
