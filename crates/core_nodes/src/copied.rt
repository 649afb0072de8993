//! What the copies of the steps of Fors weigh, which are made before their Continues. A weight of more than a u64 holds is the largest u64.
ghost use Rattle.std.specs.Prelude.{◌≡◌, ◌-◌, ◌^◌, ℕ, min};
ghost use Rattle.acpi_names.specs.Walked.{node_tree};
ghost use Rattle.acpi_state.specs.Outcomes.{choose};
ghost use Rattle.asl_tree.specs.Tree.{Trees, no_trees, tree};
ghost use Rattle.asl_tree.specs.View.{trees_of};
ghost use Rattle.core_nodes.specs.Forms as spec;
ghost use Rattle.core_nodes.specs.Weights.{leaves, leaves_in, copied, copied_in, copied_cases, copied_default};
ghost use Rattle.core_nodes.specs.Weights as weights;
ghost use Rattle.core_nodes.specs.Whole.{AreWhole, IsWhole};

use asl_tree::term::{Control, Declaration, Node, Op, Term};

// What an integer weighs, where constants are folded or not.
fn integer_weight(fold: bool) -> u64
    ensures { result ≡ weights.integer_weight fold }
{
    if fold { 0 } else { 1 }
}

// What stands in an expression.
#[cycle(leaves)]
fn leaves_of(node: &Node, fold: bool) -> u64
    ensures { IsWhole (node_tree node.now) →
        result ≡ min (leaves (weights.integer_weight fold) (node_tree node.now)) (2 ^ 64 - 1) }
{
    match &node.term {
        Term::Integer(_) => integer_weight(fold),
        Term::Word(_) => integer_weight(fold),
        Term::Local(_) => 1,
        Term::Arg(_) => 1,
        Term::Debug => 1,
        Term::Name(_) => 1,
        Term::Call { args, .. } => leaves_among(args, fold).saturating_add(1),
        Term::Form { op, args, .. } => form_leaves(*op, args, fold),
        _ => 0,
    }
}

// What stands in the expression that a form is.
#[cycle(leaves)]
fn form_leaves(op: Op, args: &[Node], fold: bool) -> u64
    ensures { AreWhole (trees_of args.now) →
        result ≡ min (spec.form_leaves (weights.integer_weight fold) op (trees_of args.now)) (2 ^ 64 - 1) }
{
    match op {
        Op::Plain(_) | Op::Symbolic(_) => leaves_among(args, fold),
        _ => 0,
    }
}

// What stands in some expressions.
#[cycle(leaves)]
fn leaves_among(nodes: &[Node], fold: bool) -> u64
    ensures { AreWhole (trees_of nodes.now) →
        result ≡ min (leaves_in (weights.integer_weight fold) (trees_of nodes.now)) (2 ^ 64 - 1) }
{
    let mut count: u64 = 0;
    for node in nodes {
        count = count.saturating_add(leaves_of(node, fold));
    }
    count
}

// What the step of a For with these arguments weighs.
fn step_leaves(args: &[Node], fold: bool) -> u64
    ensures { AreWhole (trees_of args.now) →
        result ≡ min (spec.step_leaves (weights.integer_weight fold) (trees_of args.now)) (2 ^ 64 - 1) }
{
    match args {
        [_, _, step] => leaves_of(step, fold),
        _ => 0,
    }
}

// What the copies of steps in a form weigh, where those before a Continue of the For around it weigh `step`.
#[cycle(copies)]
fn form_copied(op: Op, body: &[Node], args: &[Node], step: u64, fold: bool) -> u64
    ensures { AreWhole (trees_of args.now) → spec.AreWholeBraces op (trees_of body.now) →
        result ≡ min (spec.form_copied (weights.integer_weight fold) step op (trees_of args.now) (trees_of body.now)) (2 ^ 64 - 1) }
{
    match op {
        Op::Control(Control::Continue) => step,
        Op::Control(Control::For) => weighed(body, step_leaves(args, fold), fold),
        Op::Control(Control::If | Control::ElseIf | Control::Else) => weighed(body, step, fold),
        Op::Control(Control::Switch) => {
            cases_weighed(body, step, fold).saturating_add(default_weighed(body, step, fold))
        }
        Op::Control(Control::While)
        | Op::Declaration(
            Declaration::Method
            | Declaration::Device
            | Declaration::ThermalZone
            | Declaration::PowerResource
            | Declaration::Processor
            | Declaration::Scope,
        ) => weighed(body, 0, fold),
        _ => 0,
    }
}

// What they weigh in a form among the Cases of a Switch.
#[cycle(copies)]
fn case_copied(op: Op, body: &[Node], step: u64, fold: bool) -> u64
    ensures { spec.AreWholeBraces op (trees_of body.now) →
        result ≡ min (spec.case_copied (weights.integer_weight fold) step op (trees_of body.now)) (2 ^ 64 - 1) }
{
    match op {
        Op::Control(Control::Case) => weighed(body, step, fold),
        _ => 0,
    }
}

// What they weigh in a term there.
#[cycle(copies)]
fn weighed_case(node: &Node, step: u64, fold: bool) -> u64
    ensures { IsWhole (node_tree node.now) →
        result ≡ min (copied_cases (weights.integer_weight fold) step (tree (node_tree node.now) no_trees)) (2 ^ 64 - 1) }
{
    match &node.term {
        Term::Form { op, body, .. } => case_copied(*op, body, step, fold),
        _ => 0,
    }
}

// What they weigh in the Cases of a Switch.
#[cycle(copies)]
fn cases_weighed(cases: &[Node], step: u64, fold: bool) -> u64
    ensures { AreWhole (trees_of cases.now) →
        result ≡ min (copied_cases (weights.integer_weight fold) step (trees_of cases.now)) (2 ^ 64 - 1) }
{
    let mut count: u64 = 0;
    for node in cases {
        count = count.saturating_add(weighed_case(node, step, fold));
    }
    count
}

// What they weigh in a form, where it is the Default of a Switch.
#[cycle(copies)]
fn default_copied(op: Op, body: &[Node], step: u64, fold: bool) -> Option<u64>
    ensures { spec.AreWholeBraces op (trees_of body.now) → (behind : ℕ) → choose result (min behind (2 ^ 64 - 1)) (λ weight. weight) ≡
        min (spec.default_copied (weights.integer_weight fold) step op (trees_of body.now) behind) (2 ^ 64 - 1) }
{
    match op {
        Op::Control(Control::Default) => Some(weighed(body, step, fold)),
        _ => None,
    }
}

// What they weigh in a term there.
#[cycle(copies)]
fn weighed_default(node: &Node, step: u64, fold: bool) -> Option<u64>
    ensures { IsWhole (node_tree node.now) → (behind : Trees) →
        choose result (min (copied_default (weights.integer_weight fold) step behind) (2 ^ 64 - 1)) (λ weight. weight) ≡
        min (copied_default (weights.integer_weight fold) step (tree (node_tree node.now) behind)) (2 ^ 64 - 1) }
{
    match &node.term {
        Term::Form { op, body, .. } => default_copied(*op, body, step, fold),
        _ => None,
    }
}

// What they weigh in the Default of a Switch, the first one.
#[cycle(copies)]
fn default_weighed(cases: &[Node], step: u64, fold: bool) -> u64
    ensures { AreWhole (trees_of cases.now) →
        result ≡ min (copied_default (weights.integer_weight fold) step (trees_of cases.now)) (2 ^ 64 - 1) }
{
    for node in cases {
        if let Some(weight) = weighed_default(node, step, fold) {
            return weight;
        }
    }
    0
}

// What the copies of steps in a term weigh.
#[cycle(copies)]
fn weighed_in(node: &Node, step: u64, fold: bool) -> u64
    ensures { IsWhole (node_tree node.now) →
        result ≡ min (copied (weights.integer_weight fold) step (node_tree node.now)) (2 ^ 64 - 1) }
{
    match &node.term {
        Term::Form { op, args, body } => form_copied(*op, body, args, step, fold),
        _ => 0,
    }
}

/// What the copies of the steps of Fors in any terms weigh, where those before a Continue of the For around them weigh `step`: the number
/// of `copied_weight` where that is 0 and the arguments of each form fit it. Where they do not, it has no meaning. The largest u64 stands
/// for more.
#[cycle(copies)]
pub fn weighed(terms: &[Node], step: u64, fold: bool) -> u64
    ensures { AreWhole (trees_of terms.now) →
        result ≡ min (copied_in (weights.integer_weight fold) step (trees_of terms.now)) (2 ^ 64 - 1) }
{
    let mut count: u64 = 0;
    for node in terms {
        count = count.saturating_add(weighed_in(node, step, fold));
    }
    count
}

/// What the copies of the steps of Fors in terms weigh, one before each Continue of each For: how many names, Locals, Args and Debug
/// objects stand in them, and integers too, but where constants are folded (`fold`). Of a Switch its Cases count and its first Default.
/// No copy is made for it. The largest u64 stands for more.
pub fn copied_weight(terms: &[Node], fold: bool) -> u64
    requires { AreWhole (trees_of terms.now) }
    ensures { result ≡ min (copied_in (weights.integer_weight fold) 0 (trees_of terms.now)) (2 ^ 64 - 1) }
{
    weighed(terms, 0, fold)
}
