//! What stands for a Printf and an Fprintf: a Store of what Concatenates join.
ghost use Rattle.std.specs.Prelude.{◌≡◌, ℕ, suc, ◌+◌, ◌%◌, List, ◌∷◌, [], ◌++◌, Option, None, true, IfOk};
ghost use Rattle.asl_tree.specs.Formats.{cut};
ghost use Rattle.asl_tree.specs.Tree.{no_trees, tree};
ghost use Rattle.asl_tree.specs.Tree as T;
ghost use Rattle.asl_tree.specs.View.{trees_of};
ghost use Rattle.term_plans.specs.Plans.{a_text, debug as debug_plan, no_plans, plan, plan_of, plans_of};
ghost use Rattle.asl_prints.specs.Forms.{concatenated, spread, with_arguments, with_text as tree_with_text};
ghost use Rattle.asl_prints.specs.Nodes.{node_tree, plain_tree, print_parts, AreGiven, CanPrint, DoTheSame, IsGiven, IsPrint};
ghost use Rattle.asl_prints.specs.Plans.{concatenated as concatenated_plan, operator as operator_plan, spread as spread_plans};
ghost use Rattle.asl_prints.specs.Plans.{with_arguments as plan_with_arguments, with_text as plan_with_text};
ghost use Rattle.asl_prints.specs.PlanParts.{fills, placed, printed, prints, text_plan};
ghost use Rattle.asl_prints.specs.Numbers.{form_numbers, joined as joined_numbers, kept, next_behind, number_behind, numbered, numbers_of};
ghost use Rattle.asl_prints.specs.Numbers.{print_numbers, text_numbers};
ghost use Rattle.asl_prints.specs.Numbers.{with_arguments as numbers_with_arguments, with_text as numbers_with_text};
ghost use Rattle.asl_prints.specs.PrintNumbers.{joins, numbers_behind, text_joins, HasNumbers, IsNumberedText};
ghost use Rattle.asl_prints.specs.Texts.{stored_tree, text_tree, CanFill};
ghost use Rattle.acpi_values.specs.declared.operator.DataOp.TheVariants as D;
ghost use Rattle.asl_tree.specs.declared.term.Op.{Op as O};
ghost use Rattle.asl_tree.specs.declared.term.Control.TheVariants as C;

use crate::copy::copied;
use crate::lists::others;
use crate::texts::{other_texts, texts_of};
use acpi_values::operator::{DataOp, Plain};
use asl_tree::term::{Control, Node, Op, Term};
use iasl_messages::place::Place;
use iasl_ports::list::Text;
use std::alloc::{AllocError, Global};

// The numbers of the next nodes that are made: those of Concatenates go down, since the outermost comes first, and the
// others up.
#[derive(Clone, Copy)]
struct Numbers {
    down: u32,
    up: u32,
}

// The number of the next node, which is no Concatenate.
fn next_up(numbers: &mut Numbers) -> u32
    ensures id { result ≡ numbers.old.up }
    ensures up { numbers.new.up ≡ number_behind numbers.old.up }
    ensures down { numbers.new.down ≡ numbers.old.down }
{
    let id = numbers.up;
    numbers.up = id.wrapping_add(1);
    id
}

// The number of the next Concatenate.
fn next_down(numbers: &mut Numbers) -> u32
    ensures id { result ≡ numbers.old.down }
    ensures up { numbers.new.up ≡ numbers.old.up }
    ensures down { number_behind numbers.new.down ≡ numbers.old.down }
{
    let id = numbers.down;
    numbers.down = id.wrapping_sub(1);
    id
}

// An operator with no braces.
#[tactic(auto, using(crate::proofs::Writes::operator_made))]
fn operator(alloc: Global, id: u32, place: Place, op: DataOp, args: Vec<Node>) -> Node
    ensures tree { node_tree result ≡ plain_tree op (trees_of args.items) }
    ensures plan { placed result ≡ (place, operator_plan op (plans_of args.items)) }
    ensures numbers { numbers_of (result ∷ []) ≡ id ∷ numbers_of args.items }
{
    Node {
        id,
        place,
        term: Term::Form {
            op: Op::Plain(Plain::Data(op)),
            args,
            body: Vec::new(alloc),
        },
    }
}

// Concatenate of two nodes.
fn concatenate(
    alloc: Global,
    place: Place,
    numbers: &mut Numbers,
    first: Node,
    second: Node,
) -> Result<Node, AllocError>
    ensures tree { IfOk result (λ made. IsGiven (node_tree first) → IsGiven (node_tree second) →
        node_tree made ≡ concatenated (node_tree first) (node_tree second)) }
    ensures plan { IfOk result (λ made. first.place ≡ place →
        placed made ≡ (place, concatenated_plan place (plan_of first.term) second.place (plan_of second.term))) }
    ensures numbers { IfOk result (λ made. (front behind : List (Option ℕ)) →
        numbers_of (first ∷ []) ≡ numbered (number_behind numbers.old.down) front →
        numbers_of (second ∷ []) ≡ numbered (next_behind (number_behind numbers.old.down) front) behind →
        numbers.old.up ≡ next_behind (next_behind (number_behind numbers.old.down) front) behind →
        HasNumbers numbers.new made (joined_numbers front behind)) }
    ensures down { IfOk result (λ made. number_behind numbers.new.down ≡ numbers.old.down) }
{
    let mut args = Vec::with_capacity(alloc, 3)?;
    args.push(first)?;
    args.push(second)?;
    args.push(Node {
        id: next_up(numbers),
        place,
        term: Term::Omitted,
    })?;
    let id = next_down(numbers);
    Ok(operator(alloc, id, place, DataOp::Concatenate, args))
}

#[tactic(auto, using(crate::proofs::Writes::text_made))]
fn text_node(place: Place, numbers: &mut Numbers, text: Text) -> Node
    ensures tree { node_tree result ≡ T.String text }
    ensures plan { placed result ≡ (place, a_text text) }
    ensures numbers { numbers_of (result ∷ []) ≡ numbers.old.up ∷ [] }
    ensures up { numbers.new.up ≡ number_behind numbers.old.up }
    ensures down { numbers.new.down ≡ numbers.old.down }
{
    Node {
        id: next_up(numbers),
        place,
        term: Term::Text(text),
    }
}

// A node with a text behind it, where there is one.
#[tactic(auto, using(crate::proofs::PlanWrites::text_rules))]
fn with_text(
    alloc: Global,
    place: Place,
    numbers: &mut Numbers,
    front: Node,
    text: &Text,
) -> Result<Node, AllocError>
    ensures tree { IfOk result (λ made. IsGiven (node_tree front) → node_tree made ≡ tree_with_text (node_tree front) text.now) }
    ensures plan { IfOk result (λ made. front.place ≡ place →
        placed made ≡ (place, plan_with_text place (plan_of front.term) text.now)) }
    ensures numbers { IfOk result (λ made. (ids : List (Option ℕ)) → HasNumbers numbers.old front ids →
        HasNumbers numbers.new made (numbers_with_text ids text.now)) }
    ensures down { IfOk result (λ made. numbers_behind (text_joins text.now) numbers.new.down ≡ numbers.old.down) }
{
    if text.as_bytes().is_empty() {
        return Ok(front);
    }
    let text = Text::from_bytes(alloc, text.as_bytes())?;
    let behind = text_node(place, numbers, text);
    let made = concatenate(alloc, place, numbers, front, behind)?;
    Ok(made)
}

// A node with an argument and a text behind it.
#[tactic(auto, using(crate::proofs::Writes::argument_made, crate::proofs::PlanWrites::argument_made))]
fn with_argument(
    alloc: Global,
    place: Place,
    numbers: &mut Numbers,
    front: Node,
    argument: &Node,
    text: &Text,
) -> Result<Node, AllocError>
    ensures tree { IfOk result (λ made. IsGiven (node_tree front) → IsGiven (node_tree argument.now) →
        node_tree made ≡ tree_with_text (concatenated (node_tree front) (node_tree argument.now)) text.now) }
    ensures plan { IfOk result (λ made. front.place ≡ place →
        placed made ≡ (
          place,
          plan_with_text place
              (concatenated_plan place (plan_of front.term) argument.now.place (plan_of argument.now.term)) text.now,
        )) }
    ensures numbers { IfOk result (λ made. (ids : List (Option ℕ)) → HasNumbers numbers.old front ids →
        HasNumbers numbers.new made (numbers_with_text (joined_numbers ids (kept (numbers_of (argument.now ∷ [])))) text.now)) }
    ensures down { IfOk result (λ made. numbers_behind (suc (text_joins text.now)) numbers.new.down ≡ numbers.old.down) }
{
    let argument = copied(alloc, argument)?;
    let joined = concatenate(alloc, place, numbers, front, argument)?;
    let made = with_text(alloc, place, numbers, joined, text)?;
    Ok(made)
}

// A first text with arguments and further texts behind it.
#[tactic(auto, using(crate::proofs::PlanWrites::joined_rules))]
fn joined(
    alloc: Global,
    place: Place,
    numbers: &mut Numbers,
    front: Node,
    texts: &[Text],
    args: &[Node],
) -> Result<Node, AllocError>
    ensures tree { IfOk result (λ made. IsGiven (node_tree front) → AreGiven (trees_of args.now) →
        node_tree made ≡ with_arguments (node_tree front) texts.now (trees_of args.now)) }
    ensures plan { IfOk result (λ made. front.place ≡ place →
        placed made ≡ (place, plan_with_arguments place (plan_of front.term) texts.now (plans_of args.now))) }
    ensures numbers { IfOk result (λ made. (ids : List (Option ℕ)) → HasNumbers numbers.old front ids →
        HasNumbers numbers.new made (numbers_with_arguments ids texts.now args.now)) }
    ensures down { IfOk result (λ made. numbers_behind (joins texts.now args.now) numbers.new.down ≡ numbers.old.down) }
{
    match texts {
        [text, ..] => match args {
            [argument, ..] => {
                let front = with_argument(alloc, place, numbers, front, argument, text)?;
                let made = joined(
                    alloc,
                    place,
                    numbers,
                    front,
                    other_texts(texts),
                    others(args),
                )?;
                Ok(made)
            }
            _ => Ok(front),
        },
        _ => Ok(front),
    }
}

// One more than a count, and one more where there is a text.
fn with_joins(count: u32, text: &Text) -> u32
    ensures { result ≡ (suc (text_joins text.now) + count) % 4294967296 }
{
    let count = count.wrapping_add(1);
    if text.as_bytes().is_empty() {
        count
    } else {
        count.wrapping_add(1)
    }
}

// How many Concatenates arguments with the texts behind them take, of 32 bits.
fn count(texts: &[Text], args: &[Node]) -> u32
    ensures { result ≡ joins texts.now args.now % 4294967296 }
{
    match texts {
        [text, ..] => match args {
            [_, ..] => with_joins(count(other_texts(texts), others(args)), text),
            _ => 0,
        },
        _ => 0,
    }
}

#[tactic(auto, using(crate::proofs::Writes::debug_made))]
fn debug(id: u32, place: Place) -> Node
    ensures tree { node_tree result ≡ T.Debug }
    ensures plan { placed result ≡ (place, debug_plan) }
    ensures numbers { numbers_of (result ∷ []) ≡ id ∷ [] }
{
    Node {
        id,
        place,
        term: Term::Debug,
    }
}

/// A node that is made, with the number of the next one.
#[derive(Drop)]
pub struct Numbered {
    /// The node that is made.
    pub node: Node,
    /// The number of the next node that is made.
    pub next: u32,
}

// The text of a format with its arguments, whose first node has this number.
#[tactic(auto, using(crate::proofs::Writes::no_texts))]
fn value(
    alloc: Global,
    id: u32,
    place: Place,
    format: &Text,
    args: &[Node],
) -> Result<Numbered, AllocError>
    ensures tree { IfOk result (λ made. AreGiven (trees_of args.now) →
        node_tree made.node ≡ with_arguments (T.String (cut format.now).0) (cut format.now).1 (trees_of args.now)) }
    ensures plan { IfOk result
        (λ made. placed made.node ≡ (
          place,
          plan_with_arguments place (a_text (cut format.now).0) (cut format.now).1
              (plans_of args.now),
        )) }
    ensures numbers { IfOk result (λ made. IsNumberedText id made (numbers_with_arguments (None ∷ []) (cut format.now).1 args.now)) }
{
    let texts = texts_of(alloc, format.as_bytes())?;
    match texts.as_slice() {
        [first, ..] => {
            let behind = other_texts(texts.as_slice());
            let count = count(behind, args);
            let mut numbers = Numbers {
                down: id.wrapping_add(count).wrapping_sub(1),
                up: id.wrapping_add(count),
            };
            let first = Text::from_bytes(alloc, first.as_bytes())?;
            let front = text_node(place, &mut numbers, first);
            let node = joined(alloc, place, &mut numbers, front, behind, args)?;
            Ok(Numbered {
                node,
                next: numbers.up,
            })
        }
        _ => Ok(nothing(id, place)),
    }
}

// No value.
fn nothing(id: u32, place: Place) -> Numbered {
    Numbered {
        node: debug(id, place),
        next: id,
    }
}

// The text of a format with its arguments, where it is one.
fn format_value(
    alloc: Global,
    id: u32,
    place: Place,
    format: &Node,
    args: &[Node],
) -> Result<Numbered, AllocError>
    ensures tree { IfOk result (λ made. CanFill (tree (node_tree format.now) (trees_of args.now)) →
        node_tree made.node ≡ text_tree (tree (node_tree format.now) (trees_of args.now))) }
    ensures plan { IfOk result
        (λ made. fills (plan format.now.place (plan_of format.now.term) (plans_of args.now)) ≡ true →
        placed made.node ≡ (place, text_plan place (plan format.now.place (plan_of format.now.term) (plans_of args.now)))) }
    ensures numbers { IfOk result
        (λ made. fills (plan format.now.place (plan_of format.now.term) (plans_of args.now)) ≡ true →
        IsNumberedText id made (text_numbers (format.now ∷ args.now))) }
{
    match &format.term {
        Term::Text(text) => {
            let made = value(alloc, id, place, text, args)?;
            Ok(made)
        }
        _ => Ok(nothing(id, place)),
    }
}

// The same of a format and its arguments as a list.
fn listed_value(alloc: Global, id: u32, place: Place, args: &[Node]) -> Result<Numbered, AllocError>
    ensures tree { IfOk result (λ made. CanFill (trees_of args.now) → node_tree made.node ≡ text_tree (trees_of args.now)) }
    ensures plan { IfOk result (λ made. fills (plans_of args.now) ≡ true →
        placed made.node ≡ (place, text_plan place (plans_of args.now))) }
    ensures numbers { IfOk result (λ made. fills (plans_of args.now) ≡ true → IsNumberedText id made (text_numbers args.now)) }
{
    match args {
        [format, ..] => {
            let made = format_value(alloc, id, place, format, others(args))?;
            Ok(made)
        }
        _ => Ok(nothing(id, place)),
    }
}

// A Store of a text.
fn store(
    alloc: Global,
    id: u32,
    place: Place,
    value: Node,
    target: Node,
) -> Result<Node, AllocError>
    ensures tree { IfOk result (λ made. IsGiven (node_tree value) →
        node_tree made ≡ stored_tree (node_tree value) (node_tree target)) }
    ensures plan { IfOk result
        (λ made. placed made ≡ (
          place,
          operator_plan D.Store (plan value.place (plan_of value.term)
              (plan target.place (plan_of target.term) no_plans)),
        )) }
    ensures numbers { IfOk result (λ made. numbers_of (made ∷ []) ≡ id ∷ (numbers_of (value ∷ []) ++ numbers_of (target ∷ []))) }
{
    let mut operands = Vec::with_capacity(alloc, 2)?;
    operands.push(value)?;
    operands.push(target)?;
    Ok(operator(alloc, id, place, DataOp::Store, operands))
}

// A Store of a format with its arguments into the Debug object. The Store comes first, and the Debug object last.
fn to_debug(alloc: Global, id: u32, place: Place, args: &[Node]) -> Result<Numbered, AllocError>
    ensures tree { IfOk result (λ made. CanPrint (O.Control C.Printf) (trees_of args.now) →
        node_tree made.node ≡ print_parts (O.Control C.Printf) (trees_of args.now)) }
    ensures plan { IfOk result (λ made. prints (O.Control C.Printf) (plans_of args.now) ≡ true →
        placed made.node ≡ (place, printed place (O.Control C.Printf) (plans_of args.now))) }
    ensures numbers { IfOk result (λ made. prints (O.Control C.Printf) (plans_of args.now) ≡ true →
        numbers_of (made.node ∷ []) ≡ numbered id (print_numbers (O.Control C.Printf) args.now)) }
    ensures next { IfOk result (λ made. prints (O.Control C.Printf) (plans_of args.now) ≡ true →
        made.next ≡ next_behind id (print_numbers (O.Control C.Printf) args.now)) }
{
    let value = listed_value(alloc, id.wrapping_add(1), place, args)?;
    let Numbered { node, next } = value;
    let made = store(alloc, id, place, node, debug(next, place))?;
    Ok(Numbered {
        node: made,
        next: next.wrapping_add(1),
    })
}

// The same into a place, which stands before the format.
fn to_place(alloc: Global, id: u32, place: Place, args: &[Node]) -> Result<Numbered, AllocError>
    ensures tree { IfOk result (λ made. CanPrint (O.Control C.Fprintf) (trees_of args.now) →
        node_tree made.node ≡ print_parts (O.Control C.Fprintf) (trees_of args.now)) }
    ensures plan { IfOk result (λ made. prints (O.Control C.Fprintf) (plans_of args.now) ≡ true →
        placed made.node ≡ (place, printed place (O.Control C.Fprintf) (plans_of args.now))) }
    ensures numbers { IfOk result (λ made. prints (O.Control C.Fprintf) (plans_of args.now) ≡ true →
        numbers_of (made.node ∷ []) ≡ numbered id (print_numbers (O.Control C.Fprintf) args.now)) }
    ensures next { IfOk result (λ made. prints (O.Control C.Fprintf) (plans_of args.now) ≡ true →
        made.next ≡ next_behind id (print_numbers (O.Control C.Fprintf) args.now)) }
{
    match args {
        [target, ..] => {
            let value = listed_value(alloc, id.wrapping_add(1), place, others(args))?;
            let target = copied(alloc, target)?;
            let Numbered { node, next } = value;
            let made = store(alloc, id, place, node, target)?;
            Ok(Numbered { node: made, next })
        }
        _ => Ok(nothing(id, place)),
    }
}

// What stands for a form with these arguments.
#[tactic(auto, using(crate::proofs::PrintNumbers::print_rules))]
fn parts(
    alloc: Global,
    id: u32,
    place: Place,
    op: Op,
    args: &[Node],
) -> Result<Numbered, AllocError>
    ensures tree { IfOk result (λ made. CanPrint op (trees_of args.now) → node_tree made.node ≡ print_parts op (trees_of args.now)) }
    ensures plan { IfOk result
        (λ made. prints op (plans_of args.now) ≡ true → placed made.node ≡ (place, printed place op (plans_of args.now))) }
    ensures numbers { IfOk result
        (λ made. prints op (plans_of args.now) ≡ true → numbers_of (made.node ∷ []) ≡ numbered id (print_numbers op args.now)) }
    ensures next { IfOk result
        (λ made. prints op (plans_of args.now) ≡ true → made.next ≡ next_behind id (print_numbers op args.now)) }
{
    match op {
        Op::Control(Control::Printf) => {
            let made = to_debug(alloc, id, place, args)?;
            Ok(made)
        }
        Op::Control(Control::Fprintf) => {
            let made = to_place(alloc, id, place, args)?;
            Ok(made)
        }
        _ => Ok(nothing(id, place)),
    }
}

/// What stands for a Printf or an Fprintf, whose nodes that are made have the numbers from `id` on, and the next number.
#[tactic(auto, using(crate::proofs::PrintNumbers::no_form_rules))]
pub fn stands(alloc: Global, node: &Node, id: u32) -> Result<Numbered, AllocError>
    requires { IsPrint node.now.term }
    ensures tree { IfOk result (λ made. tree (node_tree made.node) no_trees ≡ spread (node_tree node.now) no_trees) }
    ensures plan { IfOk result (λ made. plans_of (made.node ∷ []) ≡ spread_plans node.now.place (plan_of node.now.term) no_plans) }
    ensures numbers { IfOk result (λ made. numbers_of (made.node ∷ []) ≡ numbered id (form_numbers node.now.term)) }
    ensures next { IfOk result (λ made. made.next ≡ next_behind id (form_numbers node.now.term)) }
{
    match &node.term {
        Term::Form { op, args, body: _ } => {
            let made = parts(alloc, id, node.place, *op, args)?;
            Ok(made)
        }
        _ => Ok(nothing(id, node.place)),
    }
}

/// What stands for a Printf or an Fprintf (ACPI Specification 6.4, 19.6.52 and 19.6.109): a Store of its texts and
/// arguments, which Concatenates join from the left, into the Debug object or the place. Nodes that are made have the
/// next numbers, in preorder, and the others keep theirs.
#[tactic(auto, using(crate::proofs::Printed::print_does))]
pub fn print_form(alloc: Global, node: &Node, next_id: u32) -> Result<Node, AllocError>
    requires { IsPrint node.now.term }
    ensures tree { IfOk result (λ made. tree (node_tree made) no_trees ≡ spread (node_tree node.now) no_trees) }
    ensures plans { IfOk result (λ made. plans_of (made ∷ []) ≡ spread_plans node.now.place (plan_of node.now.term) no_plans) }
    ensures numbers { IfOk result (λ made. numbers_of (made ∷ []) ≡ numbered next_id (form_numbers node.now.term)) }
    ensures same { IfOk result (λ made. DoTheSame (tree (node_tree node.now) no_trees) (tree (node_tree made) no_trees)) }
{
    let made = stands(alloc, node, next_id)?;
    Ok(made.node)
}
