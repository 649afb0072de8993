//! What of terms is kept when they are lowered.
ghost use Rattle.std.specs.Prelude.{◌≤◌, ℕ};
ghost use Rattle.acpi_values.specs.declared.width.Width.{Width};
ghost use Rattle.asl_tree.specs.Tree.{Trees};
ghost use Rattle.asl_lower.specs.Nodes.{named_all};
ghost use Rattle.asl_fold.specs.Folds.{folded_all};
ghost use Rattle.hidden_locals.specs.Switches.{without_switches};
ghost use Rattle.core_nodes.specs.Nodes.{nodes_in};
ghost use Rattle.core_nodes.specs.Weights.{weights};

/// Loops for Switches keep their Cases and their Defaults, and what stands outside of these, whatever an integer weighs.
pub fn loops_keep()
    ensures { (integer : ℕ) (terms : Trees) → weights integer terms ≤ weights integer (without_switches terms) }
{}

/// So do operators that are named.
pub fn names_keep()
    ensures { (integer : ℕ) (terms : Trees) → weights integer terms ≤ weights integer (named_all terms) }
{}

/// Folding keeps all but constants.
pub fn folding_keeps()
    ensures { (width : Width) (terms : Trees) → weights 0 terms ≤ weights 0 (folded_all width terms) }
{}

/// Terms have as many nodes as they weigh, or more, where an integer weighs no more than one.
pub fn nodes_weigh()
    ensures { (integer : ℕ) → integer ≤ 1 → (terms : Trees) → weights integer terms ≤ nodes_in terms }
{}
