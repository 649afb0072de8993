//! Which forms stand in terms, found in one walk.
ghost use Rattle.std.specs.Prelude.{◌≡◌, ◌+◌, ◌-◌, ◌^◌, ◌||◌, ℕ, List, min};
ghost use Rattle.term_plans.specs.Plans.{a_fill, a_form, plans_of};
ghost use Rattle.asl_numbers.specs.Numbers.{inside, nodes as node_count};
ghost use Rattle.descriptor_fields.specs.Declaring.{names_descriptors};
ghost use Rattle.form_presence.specs.Present.{have_op, is_switch, is_field, is_list, is_form};
ghost use Rattle.form_presence.specs.Kinds.{FormKind, are_in, is_in, is_of, is_seen};

use asl_tree::term::{Control, Declaration, NamedDescriptor, Node, Op, Special, Term};
use iasl_ports::list::List;

/// Which forms stand in terms, at any depth of their arguments and their braces, and how many nodes the terms have.
#[derive(Clone, Copy)]
pub struct Presence {
    /// Whether a Switch does.
    pub switches: bool,
    /// Whether a Field, an IndexField or a BankField does (ACPI Specification 6.4, 19.6.48, 19.6.64 and 19.6.7).
    pub fields: bool,
    /// Whether a Buffer or a Package does (ACPI Specification 6.4, 19.6.10 and 19.6.102).
    pub lists: bool,
    /// Whether a For, a Printf or an Fprintf does (ACPI Specification 6.4, 19.6.51, 19.6.109 and 19.6.52).
    pub forms: bool,
    /// Whether a descriptor of a template has a name (ACPI Specification 6.4, 19.2.8).
    pub descriptors: bool,
    /// How many nodes they have, with those inside them, or the largest u64 where there are more.
    pub nodes: u64,
}

// Notes a form by its operator.
fn note(seen: &mut Presence, op: Op)
    ensures kinds { (kind : FormKind) → is_seen kind seen.new ≡ (is_of kind op || is_seen kind seen.old) }
    ensures nodes { seen.new.nodes ≡ seen.old.nodes }
{
    match op {
        Op::Control(Control::Switch) => seen.switches = true,
        Op::Control(Control::For | Control::Printf | Control::Fprintf) => seen.forms = true,
        Op::Declaration(Declaration::Field | Declaration::IndexField | Declaration::BankField) =>
            seen.fields = true,
        Op::Special(Special::Buffer | Special::Package) => seen.lists = true,
        _ => {}
    }
}

// Notes the descriptors of a template that have names.
fn note_names(seen: &mut Presence, named: &List<NamedDescriptor>)
    ensures kinds { (kind : FormKind) (bytes : List ℕ) →
        is_seen kind seen.new ≡ (is_in kind (a_fill bytes named.now) || is_seen kind seen.old) }
    ensures nodes { seen.new.nodes ≡ seen.old.nodes }
{
    if named.as_slice().is_empty() {
        return;
    }
    seen.descriptors = true;
}

// Notes a form and those that stand in it, and counts the nodes inside it.
#[cycle(look)]
#[inline(always)]
fn look_in(seen: &mut Presence, op: Op, args: &[Node], body: &[Node])
    ensures kinds { (kind : FormKind) →
        is_seen kind seen.new ≡ (is_in kind (a_form op (plans_of args.now) (plans_of body.now)) || is_seen kind seen.old) }
    ensures nodes { seen.new.nodes ≡
        min (seen.old.nodes + inside (a_form op (plans_of args.now) (plans_of body.now))) (2 ^ 64 - 1) }
{
    note(seen, op);
    look_within(seen, args);
    look_within(seen, body);
}

// Notes the forms that stand in terms, of which there may be none.
#[cycle(look)]
#[inline(always)]
fn look_within(seen: &mut Presence, terms: &[Node])
    ensures kinds { (kind : FormKind) → is_seen kind seen.new ≡ (are_in kind (plans_of terms.now) || is_seen kind seen.old) }
    ensures nodes { seen.new.nodes ≡ min (seen.old.nodes + node_count (plans_of terms.now)) (2 ^ 64 - 1) }
{
    let _counted = seen.nodes;
    if terms.is_empty() {
        return;
    }
    look(seen, terms);
}

// Notes the forms that stand in terms, and counts their nodes.
#[cycle(look)]
fn look(seen: &mut Presence, terms: &[Node])
    ensures kinds { (kind : FormKind) → is_seen kind seen.new ≡ (are_in kind (plans_of terms.now) || is_seen kind seen.old) }
    ensures nodes { seen.new.nodes ≡ min (seen.old.nodes + node_count (plans_of terms.now)) (2 ^ 64 - 1) }
{
    seen.nodes = seen.nodes.saturating_add(terms.len() as u64);
    for node in terms {
        match &node.term {
            Term::Call { args, .. } => look(seen, args),
            Term::Form { op, args, body } => look_in(seen, *op, args, body),
            Term::Fill { named, .. } => note_names(seen, named),
            _ => {}
        }
    }
}

/// Which forms stand in terms, whether descriptors have names in them, and how many nodes these have. Each term is looked at once,
/// and nothing is allocated.
pub fn present_in(terms: &[Node]) -> Presence
    ensures switches { result.switches ≡ have_op is_switch (plans_of terms.now) }
    ensures fields { result.fields ≡ have_op is_field (plans_of terms.now) }
    ensures lists { result.lists ≡ have_op is_list (plans_of terms.now) }
    ensures forms { result.forms ≡ have_op is_form (plans_of terms.now) }
    ensures descriptors { result.descriptors ≡ names_descriptors (plans_of terms.now) }
    ensures nodes { result.nodes ≡ min (node_count (plans_of terms.now)) (2 ^ 64 - 1) }
{
    let mut seen = Presence {
        switches: false,
        fields: false,
        lists: false,
        forms: false,
        descriptors: false,
        nodes: 0,
    };
    look(&mut seen, terms);
    seen
}
