//! What stands for the Fors of every formed program has a copy of a For's step before each of its Continues.
ghost use Rattle.std.specs.Prelude.{◌≤◌, ℕ};
ghost use Rattle.asl_tree.specs.Tree.{Trees};
ghost use Rattle.asl_prints.specs.Forms.{formed_all};
ghost use Rattle.core_nodes.specs.Weights.{weights, copied_in};
ghost use Rattle.named_sessions.specs.Shaped.{AreFormed, AreNamed};
ghost use Rattle.form_shapes.specs.Near.{AreNear};

/// It weighs at least as much as the copies do, whatever an integer weighs.
pub fn forms_copy()
    ensures { (integer : ℕ) (program : Trees) → AreFormed (Unit {0}) AreNamed (Unit {0}) (Unit {0}) program → AreNear program →
        copied_in integer 0 program ≤ weights integer (formed_all program) }
{}
