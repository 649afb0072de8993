//! The descriptors that have names, by the numbers of their paths.
ghost use Rattle.std.specs.Prelude.{◌≡◌, ◌++◌, ℕ, List, [], IfOk, OnOk};
ghost use Rattle.acpi_values.specs.Paths.{AbsolutePath};
ghost use Rattle.acpi_state.specs.Objects.{lookup};
ghost use Rattle.asl_tree.specs.View.{trees_of};
ghost use Rattle.asl_meaning.specs.Declarations.{declarations, nothing_declared};
ghost use Rattle.asl_numbers.specs.Numbers.{numbered_all};
ghost use Rattle.term_plans.specs.Plans.{plans_of};
ghost use Rattle.acpi_names.specs.Errors.{Whole};
ghost use Rattle.acpi_names.specs.Mentions.{after_all, block_mentions};
ghost use Rattle.acpi_names.specs.Parts.{Agrees};
ghost use Rattle.acpi_names.specs.Shown.{shown, all_shown};
ghost use Rattle.acpi_names.specs.Tables.{Tabled};
ghost use Rattle.name_kinds.specs.Tables.{IsThere};
ghost use Rattle.asl_tree.specs.declared.term.NamedDescriptor.{NamedDescriptor as ANamed};
ghost use Rattle.descriptor_fields.specs.Nodes.{SaysAt};
ghost use Rattle.descriptor_checks.specs.Resolved as spec;

use acpi_names::index::Index;
use acpi_names::mention::Mention;
use asl_tree::term::{NamedDescriptor, Node};
use descriptor_fields::nodes::{at_node, named_nodes, put};
use name_kinds::tables::declared_at;
use std::alloc::{AllocError, Global};

// Notes the descriptor that a mention declares, where none stands at its path before.
fn note(
    index: &Index,
    table: &mut Vec<Option<NamedDescriptor>>,
    named: &[Option<NamedDescriptor>],
    mention: &Mention,
) -> Result<(), AllocError>
    ghost whole: { Whole }
    requires agrees { Agrees index.now.paths index.now.named.items whole.all }
    requires there { IsThere whole (shown index.now.paths mention.now) }
    ensures { OnOk result ((said : List (ℕ × ANamed)) (before : List (AbsolutePath × ANamed)) → SaysAt named.now said →
        Tabled index.now.paths table.old.items (lookup before) → Tabled index.now.paths table.new.items
        (lookup (before ++ spec.described_by said (shown index.now.paths mention.now)))) }
{
    match mention {
        Mention::Declares {
            at,
            name,
            scope,
            ..
        } => match at_node(named, at.id as usize) {
            Some(descriptor) => {
                let count = index.paths.len();
                put(table, declared_at(index, *name, *scope), descriptor)?;
                Ok(())
            }
            None => Ok(()),
        },
        Mention::Used { .. } | Mention::Sought { .. } | Mention::Called { .. } => Ok(()),
        Mention::Outside { .. } | Mention::Opens { .. } => Ok(()),
    }
}

// The descriptors that mentions declare, where they are known by the nodes that are their names.
fn descriptors(
    alloc: Global,
    index: &Index,
    named: &[Option<NamedDescriptor>],
    mentions: &[Mention],
) -> Result<Vec<Option<NamedDescriptor>>, AllocError>
    ghost whole: { Whole }
    requires agrees { Agrees index.now.paths index.now.named.items whole.all }
    requires all { after_all (all_shown index.now.paths mentions.now) nothing_declared ≡ whole.all }
    ensures { IfOk result (λ table. (said : List (ℕ × ANamed)) → SaysAt named.now said →
        Tabled index.now.paths table.items (lookup (spec.described said (all_shown index.now.paths mentions.now)))) }
{
    let mut table = Vec::new(alloc);
    for mention in mentions {
        note(index, &mut table, named, mention)?;
    }
    Ok(table)
}

/// The descriptors that terms declare, by the numbers of their paths, where their index and their mentions are lent; of two with
/// one path the first counts. The only error is want of memory.
pub fn described(
    alloc: Global,
    index: &Index,
    mentions: &[Mention],
    terms: &[Node],
) -> Result<Vec<Option<NamedDescriptor>>, AllocError>
    requires numbers { trees_of terms.now ≡ numbered_all 0 (plans_of terms.now) }
    requires names { Agrees index.now.paths index.now.named.items (declarations (trees_of terms.now)) }
    requires told { all_shown index.now.paths mentions.now ≡ block_mentions (trees_of terms.now) [] nothing_declared }
    ensures { IfOk result (λ table. Tabled index.now.paths table.items (spec.table_of (plans_of terms.now))) }
{
    let named = named_nodes(alloc, terms)?;
    Ok(descriptors(alloc, index, &named, mentions)?)
}
