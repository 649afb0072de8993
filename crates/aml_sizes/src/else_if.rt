//! ElseIfs. In its list an ElseIf stands behind the If of its run, and before the ElseIfs and the Else behind it; in the
//! bytes it is an Else that begins with an If and has what is behind it inside.
ghost use Rattle.std.specs.Prelude.{◌≡◌, ◌∷◌, ◌++◌, ◌+◌, [], length, ℕ};
ghost use Rattle.aml_code.specs.Encoding.{package_length_bytes};
ghost use Rattle.aml_sizes.specs.Capped.{capped};
ghost use Rattle.aml_sizes.specs.Codes.{letters_of};
ghost use Rattle.aml_sizes.specs.TermBytes.{nodes_bytes};
ghost use Rattle.aml_sizes.specs.TermLists.{is_else_if as else_if_form, else_if_head, own_head, run_of, run_from as run_before};
ghost use Rattle.aml_sizes.specs.PackageLengths.{package_length, head_lengths, nodes_lengths, Noted};

use crate::leaf_sizes::length_size;
use crate::notes::LengthNotes;
use crate::sizes::headed_size;
use crate::style::IntegerStyle;
use asl_tree::term::{Control, Node, Op, Term};

/// Whether a form is an ElseIf.
pub fn is_else_if(op: Op) -> bool
    ensures { result ≡ else_if_form op }
{
    matches!(op, Op::Control(Control::ElseIf))
}

// How many bytes of a run begin at a form.
fn run_of_form(op: Op, own: usize, later: usize) -> usize
    ensures { result ≡ capped (run_of op own later) }
{
    match op {
        Op::Control(Control::ElseIf) => own.saturating_add(later),
        Op::Control(Control::Else) => own,
        _ => 0,
    }
}

/// How many bytes the ElseIfs and the Else that stand first have, where a term of so many stands before so many of them.
pub fn run_from(term: &Term, own: usize, later: usize) -> usize
    ensures { result ≡ capped (run_before term.now own later) }
{
    match term {
        Term::Form { op, .. } => run_of_form(*op, own, later),
        _ => 0,
    }
}

// An Else up to its terms, which have so many bytes.
fn else_size(notes: &mut LengthNotes, content: usize) -> usize
    ensures size { result ≡ length (package_length_bytes content) + 1 }
    ensures lengths { (whole : ℕ) → content ≡ capped whole → Noted (package_length whole ∷ []) notes.old notes.new }
{
    let size = length_size(content);
    notes.put(content.saturating_add(size));
    size + 1
}

// An ElseIf with its terms, which have so many bytes, before so many of its run.
fn else_if_size(
    notes: &mut LengthNotes,
    args: &[Node],
    body: usize,
    later: usize,
    style: IntegerStyle,
) -> usize
    ensures size { result ≡ capped (length (else_if_head (nodes_bytes style [] args.now) body later) + body) }
    ensures lengths { Noted
        (head_lengths (Op.Control Control.ElseIf) (nodes_bytes style [] args.now) body later ++ nodes_lengths style [] args.now)
        notes.old notes.new }
{
    let first = headed_size(notes, Op::Control(Control::If), args, body, style);
    first.saturating_add(else_size(notes, first.saturating_add(later)))
}

/// A form with its terms, which have so many bytes, before so many of its run.
pub(crate) fn own_size(
    notes: &mut LengthNotes,
    op: Op,
    args: &[Node],
    body: usize,
    later: usize,
    style: IntegerStyle,
) -> usize
    ensures size { result ≡ capped (length (own_head op (nodes_bytes style (letters_of op) args.now) body later) + body) }
    ensures lengths { Noted
        (head_lengths op (nodes_bytes style (letters_of op) args.now) body later ++ nodes_lengths style (letters_of op) args.now)
        notes.old notes.new }
{
    if is_else_if(op) {
        else_if_size(notes, args, body, later, style)
    } else {
        headed_size(notes, op, args, body, style)
    }
}
