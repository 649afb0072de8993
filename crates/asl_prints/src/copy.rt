//! Copies of nodes.
ghost use Rattle.std.specs.Prelude.{◌≡◌, ◌∷◌, [], IfOk};
ghost use Rattle.asl_prints.specs.Nodes.{node_tree};
ghost use Rattle.asl_tree.specs.Tree.{At};
ghost use Rattle.asl_tree.specs.View.{tree_of, trees_of};
ghost use Rattle.term_plans.specs.Plans.{plan_of, plans_of};
ghost use Rattle.asl_prints.specs.Numbers.{numbers_in, numbers_of};
ghost use Rattle.asl_prints.specs.PlanParts.{placed};

use asl_tree::path::{Path, Segs};
use asl_tree::term::{NamedDescriptor, Node, Term};
use iasl_ports::list::{List, Text};
use std::alloc::{AllocError, Global};

/// The same name.
pub fn copied_path(alloc: Global, path: &Path) -> Result<Path, AllocError>
    ensures { IfOk result (λ copy. copy ≡ path.now) }
{
    let segs = Segs::from_slice(alloc, path.segs.as_slice())?;
    Ok(Path {
        root: path.root,
        up: path.up,
        segs,
    })
}

fn copied_text(alloc: Global, text: &Text) -> Result<Text, AllocError>
    ensures { IfOk result (λ copy. copy ≡ text.now) }
{
    let copy = Text::from_bytes(alloc, text.as_bytes())?;
    Ok(copy)
}

fn copied_names(
    alloc: Global,
    named: &List<NamedDescriptor>,
) -> Result<List<NamedDescriptor>, AllocError>
    ensures { IfOk result (λ copy. copy ≡ named.now) }
{
    let copy = named.as_slice().to_vec(alloc)?;
    Ok(List::from_vec(copy))
}

/// A node of the same tree, with the ids and the places of the first.
#[cycle(copy)]
pub fn copied(alloc: Global, node: &Node) -> Result<Node, AllocError>
    ensures tree { IfOk result (λ copy. node_tree copy ≡ node_tree node.now) }
    ensures plan { IfOk result (λ copy. placed copy ≡ placed node.now) }
    ensures numbers { IfOk result (λ copy. numbers_of (copy ∷ []) ≡ numbers_of (node.now ∷ [])) }
{
    let term = copied_term(alloc, &node.term)?;
    Ok(Node {
        id: node.id,
        place: node.place,
        term,
    })
}

/// The same of nodes one after another.
#[cycle(copy)]
pub fn copied_all(alloc: Global, nodes: &[Node]) -> Result<Vec<Node>, AllocError>
    ensures trees { IfOk result (λ copies. trees_of copies.items ≡ trees_of nodes.now) }
    ensures plans { IfOk result (λ copies. plans_of copies.items ≡ plans_of nodes.now) }
    ensures numbers { IfOk result (λ copies. numbers_of copies.items ≡ numbers_of nodes.now) }
{
    let mut copies = Vec::new(alloc);
    for node in nodes {
        copies.push(copied(alloc, node)?)?;
    }
    Ok(copies)
}

/// A term of the same tree, with the ids and the places of the nodes in the first.
#[cycle(copy)]
#[tactic(auto, using(crate::proofs::Copies::copied_rules))]
pub fn copied_term(alloc: Global, term: &Term) -> Result<Term, AllocError>
    ensures tree { IfOk result (λ copy. (at : At) → tree_of at copy ≡ tree_of at term.now) }
    ensures plan { IfOk result (λ copy. plan_of copy ≡ plan_of term.now) }
    ensures numbers { IfOk result (λ copy. numbers_in copy ≡ numbers_in term.now) }
{
    match term {
        Term::Call { path, args } => {
            let path = copied_path(alloc, path)?;
            let args = copied_all(alloc, args)?;
            Ok(Term::Call { path, args })
        }
        Term::Form { op, args, body } => {
            let args = copied_all(alloc, args)?;
            let body = copied_all(alloc, body)?;
            Ok(Term::Form {
                op: *op,
                args,
                body,
            })
        }
        Term::Text(text) => Ok(Term::Text(copied_text(alloc, text)?)),
        Term::Fill { bytes, named } => Ok(Term::Fill {
            bytes: copied_text(alloc, bytes)?,
            named: copied_names(alloc, named)?,
        }),
        Term::Name(path) => Ok(Term::Name(copied_path(alloc, path)?)),
        Term::Integer(number) => Ok(Term::Integer(*number)),
        Term::Word(word) => Ok(Term::Word(*word)),
        Term::Local(index) => Ok(Term::Local(*index)),
        Term::Arg(index) => Ok(Term::Arg(*index)),
        Term::Debug => Ok(Term::Debug),
        Term::Omitted => Ok(Term::Omitted),
        Term::Unit { segment, bits } => Ok(Term::Unit {
            segment: *segment,
            bits: *bits,
        }),
        Term::Skip(bits) => Ok(Term::Skip(*bits)),
        Term::Offset(bytes) => Ok(Term::Offset(*bytes)),
        Term::Access {
            access,
            attribute,
            length,
        } => Ok(Term::Access {
            access: *access,
            attribute: *attribute,
            length: *length,
        }),
    }
}
