//! The nodes that are the names of resource descriptors.
ghost use Rattle.std.specs.Prelude.{◌≡◌, ◌&&◌, ◌∷◌, [], false, get_or, IfOk, OnOk};
ghost use Rattle.asl_tree.specs.View.{trees_of};
ghost use Rattle.acpi_names.specs.Parts.{part_of};
ghost use Rattle.acpi_names.specs.Walked.{is_name_shape, node_tree, term_shape};
ghost use Rattle.name_entries.specs.Descriptors.{AreFlagged, FlagsMore, fill_term};
ghost use Rattle.name_entries.specs.Descriptors.{declared_descriptor, part_descriptors, descriptors_in, descriptors_among};

use acpi_names::part::{NameRole, Shape, is_use, part_for, shape_of};
use asl_tree::term::{Node, Op, Term};
use std::alloc::{AllocError, Global};

/// Whether a node is flagged.
pub(crate) fn is_flagged(flags: &[bool], node: u32) -> bool
    ensures { result ≡ get_or flags.now node false }
{
    match flags.get(node as usize) {
        Some(flag) => *flag,
        None => false,
    }
}

// Flags a node.
fn flag(flags: &mut Vec<bool>, node: u32) -> Result<(), AllocError>
    ensures { OnOk result (FlagsMore flags.old.items flags.new.items (node ∷ [])) }
{
    let number = node as usize;
    while flags.len() <= number {
        flags.push(false)?;
    }
    flags[number] = true;
    Ok(())
}

// Whether a term is bytes alone.
fn are_bytes(term: &Term) -> bool
    ensures { result ≡ fill_term term.now }
{
    matches!(term, Term::Fill { .. })
}

// Whether the first two arguments of a term that declares a name are this and bytes alone.
fn names_bytes(name: &Node, value: &Node) -> bool
    ensures { result ≡ (is_name_shape (term_shape name.now.term) && fill_term value.now.term) }
{
    is_use(&name.term) && are_bytes(&value.term)
}

// Flags the name of a descriptor by the arguments of the term that declares it.
fn flag_declared(flags: &mut Vec<bool>, args: &[Node]) -> Result<(), AllocError>
    ensures { OnOk result (FlagsMore flags.old.items flags.new.items (declared_descriptor (trees_of args.now))) }
{
    match args {
        [name, value] => {
            if names_bytes(name, value) {
                flag(flags, name.id)?;
            }
            Ok(())
        }
        _ => Ok(()),
    }
}

// Flags the names of descriptors that a form declares.
#[cycle(flagged)]
fn flag_form(flags: &mut Vec<bool>, op: Op, args: &[Node], body: &[Node]) -> Result<(), AllocError>
    ensures { OnOk result
        (FlagsMore flags.old.items flags.new.items
        (part_descriptors (part_of op (trees_of args.now) (trees_of body.now)) (trees_of args.now) (trees_of body.now))) }
{
    match part_for(op, args, body) {
        NameRole::Declares { opens, .. } => {
            flag_declared(flags, args)?;
            if opens {
                flag_among(flags, body)?;
            }
            Ok(())
        }
        NameRole::Scope => {
            flag_among(flags, body)?;
            Ok(())
        }
        NameRole::Within => {
            flag_among(flags, body)?;
            Ok(())
        }
        NameRole::Nothing => Ok(()),
        NameRole::Alias => Ok(()),
        NameRole::External { .. } => Ok(()),
        NameRole::Returns => Ok(()),
        NameRole::Prints => Ok(()),
        NameRole::Units(_) => Ok(()),
    }
}

#[cycle(flagged)]
fn flag_term(flags: &mut Vec<bool>, node: &Node) -> Result<(), AllocError>
    ensures { OnOk result (FlagsMore flags.old.items flags.new.items (descriptors_in (node_tree node.now))) }
{
    match shape_of(&node.term) {
        Shape::Form(op, args, body) => {
            flag_form(flags, op, args, body)?;
            Ok(())
        }
        _ => Ok(()),
    }
}

#[cycle(flagged)]
fn flag_among(flags: &mut Vec<bool>, nodes: &[Node]) -> Result<(), AllocError>
    ensures { OnOk result (FlagsMore flags.old.items flags.new.items (descriptors_among (trees_of nodes.now))) }
{
    for node in nodes {
        flag_term(flags, node)?;
    }
    Ok(())
}

/// Flags by the numbers of nodes, which say what nodes are the names of descriptors. Such a name is declared by a Name whose
/// value is bytes alone.
pub(crate) fn descriptor_flags(alloc: Global, terms: &[Node]) -> Result<Vec<bool>, AllocError>
    ensures { IfOk result (λ flags. AreFlagged flags.items (descriptors_among (trees_of terms.now))) }
{
    let mut flags = Vec::new(alloc);
    flag_among(&mut flags, terms)?;
    Ok(flags)
}
