//! Terms as operands and targets of an operator see them.
ghost use Rattle.std.specs.Prelude.{◌≡◌};
ghost use Rattle.acpi_names.specs.Walked.{term_shape};
ghost use Rattle.asl_tree.specs.View.{trees_of};
ghost use Rattle.asl_fold.specs.Nodes.{form_seen as seen_form, shape_seen as seen_shape, term_seen};

use acpi_names::part::{Shape, shape_of};
use asl_tree::term::{Literal as Constant, Node, Op, Term};

/// A term as an operator sees it: a number, a word that is one, a Local, what is left out, or something else.
#[derive(Clone, Copy, PartialEq, Eq, Debug)]
pub enum Seen {
    Number(u64),
    Literal(Constant),
    Local,
    Omitted,
    Other,
}

#[tactic(auto, using(crate::proofs::Sights::literal_rules))]
fn form_seen(op: Op, args: &[Node], body: &[Node]) -> Seen
    ensures { result ≡ seen_form op (trees_of args.now) (trees_of body.now) }
{
    match op {
        Op::Literal(literal) => if args.is_empty() && body.is_empty() {
            Seen::Literal(literal)
        } else {
            Seen::Other
        },
        _ => Seen::Other,
    }
}

fn shape_seen(term: &Term) -> Seen
    ensures { result ≡ seen_shape (term_shape term.now) }
{
    match shape_of(term) {
        Shape::Form(op, args, body) => form_seen(op, args, body),
        _ => Seen::Other,
    }
}

/// A term as it is seen.
pub(crate) fn seen_as(term: &Term) -> Seen
    ensures { result ≡ term_seen term.now }
{
    match term {
        Term::Integer(number) => Seen::Number(*number),
        Term::Word(word) => Seen::Number(word.number()),
        Term::Local(_) => Seen::Local,
        Term::Omitted => Seen::Omitted,
        _ => shape_seen(term),
    }
}
