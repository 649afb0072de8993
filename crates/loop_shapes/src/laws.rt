//! What holds of every formed program and the same one with loops of one turn for its Switches.
ghost use Rattle.std.specs.Prelude.{◌≡◌, ℕ, Bool, List, []};
ghost use Rattle.acpi_values.specs.Paths.{AbsolutePath};
ghost use Rattle.acpi_values.specs.declared.width.Width.{Width};
ghost use Rattle.asl_tree.specs.Tree.{Trees};
ghost use Rattle.asl_meaning.specs.Declarations.{nothing_declared, declarations, calls_all, externals, known_of};
ghost use Rattle.acpi_names.specs.Errors.{whole_of, name_errors, type_errors};
ghost use Rattle.aml_meaning.specs.ByteSession.{IsFaithful};
ghost use Rattle.aml_sessions.specs.Ready.{AreItems};
ghost use Rattle.named_sessions.specs.Shaped.{AreFormed, AreShaped};
ghost use Rattle.asl_lower.specs.Nodes.{named_all};
ghost use Rattle.asl_fold.specs.Folds.{folded_where};
ghost use Rattle.hidden_locals.specs.Switches.{without_switches, IsUnswitchable, HaveLocals};
ghost use Rattle.loop_shapes.specs.Rows.{choice};

/// It declares and calls the same, in the same order, and has the same errors of names and kinds.
pub fn same_names()
    ensures declared { (program : Trees) → AreFormed ⊥ (AreItems 0) ⊥ (Unit {0}) program →
        declarations (without_switches program) ≡ declarations program }
    ensures called { (program : Trees) → AreFormed ⊥ (AreItems 0) ⊥ (Unit {0}) program → (has : AbsolutePath → Bool) →
        calls_all has (without_switches program) [] nothing_declared ≡ calls_all has program [] nothing_declared }
    ensures external { (program : Trees) → AreFormed ⊥ (AreItems 0) ⊥ (Unit {0}) program →
        externals (without_switches program) ≡ externals program }
    ensures known { (program : Trees) → AreFormed ⊥ (AreItems 0) ⊥ (Unit {0}) program →
        known_of (without_switches program) ≡ known_of program }
    ensures whole { (program : Trees) → AreFormed ⊥ (AreItems 0) ⊥ (Unit {0}) program →
        whole_of (without_switches program) ≡ whole_of program }
    ensures names { (program : Trees) → AreFormed ⊥ (AreItems 0) ⊥ (Unit {0}) program → name_errors (without_switches program) ≡ name_errors
        program }
    ensures types { (program : Trees) → AreFormed ⊥ (AreItems 0) ⊥ (Unit {0}) program → type_errors (without_switches program) ≡ type_errors
        program }
{}

/// Its terms may be written.
pub fn loops_are_shaped()
    ensures { (program : Trees) → AreFormed ⊥ (AreItems 0) ⊥ (Unit {0}) program → AreShaped (without_switches program) }
{}

/// Where it and its methods have Locals enough, its Switches become loops.
pub fn are_unswitchable()
    ensures { (program : Trees) → AreFormed ⊥ (AreItems 0) ⊥ (Unit {0}) program → HaveLocals program → IsUnswitchable program }
{}

/// Where it and its methods have Locals enough, they have so with its operators named, and with its constants folded, where
/// that is asked for.
pub fn locals_stay()
    ensures named { (program : Trees) → HaveLocals program → HaveLocals (named_all program) }
    ensures folded { (fold : Bool) (width : Width) (program : Trees) → HaveLocals program → HaveLocals (folded_where fold width program) }
{}

/// Bytes that do what it does with loops for its Switches do what it does, where it and its methods have Locals enough.
pub fn loops_are_faithful()
    ensures { (width : Width) (program : Trees) (bytes : List ℕ) → AreFormed ⊥ (AreItems 0) ⊥ (Unit {0}) program → HaveLocals program
        → IsFaithful width (known_of (without_switches program)) (externals (without_switches program)) (without_switches program) bytes
        → IsFaithful width (known_of program) (externals program) program bytes }
{}

/// There are formed programs with Switches and Locals enough.
pub fn switches_are_formed()
    ensures formed { AreFormed ⊥ (AreItems 0) ⊥ (Unit {0}) choice }
    ensures enough { HaveLocals choice }
{}
