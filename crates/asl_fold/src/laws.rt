//! What holds of every program and the same one with its constants folded.
ghost use Rattle.std.specs.Prelude.{◌≡◌, ℕ, List};
ghost use Rattle.acpi_values.specs.declared.width.Width.{Width};
ghost use Rattle.acpi_values.specs.Values.{Value};
ghost use Rattle.acpi_state.specs.Objects.{Names};
ghost use Rattle.acpi_state.specs.Sessions.{Request};
ghost use Rattle.asl_tree.specs.Names.{Known};
ghost use Rattle.asl_tree.specs.Tree.{Trees};
ghost use Rattle.asl_meaning.specs.Declarations.{declarations, externals, known_of};
ghost use Rattle.asl_meaning.specs.SourceSession.{source_session};
ghost use Rattle.acpi_names.specs.Errors.{whole_of, name_errors, type_errors};
ghost use Rattle.aml_sessions.specs.Ready.{AreItems};
ghost use Rattle.named_sessions.specs.Shaped.{AreFormed, AreShaped};
ghost use Rattle.asl_fold.specs.Folds.{folded_all};

/// A program has the same sessions with its constants folded.
pub fn same_sessions()
    ensures { (width : Width) (known : Known) (terms : Trees) (there : Names) (n : ℕ) (answers : List Value) (requests : List Request)
        → source_session width known (folded_all width terms) there n answers requests
        ≡ source_session width known terms there n answers requests }
{}

/// It declares the same, and has the same errors of names and kinds.
pub fn same_names()
    ensures declared { (width : Width) (program : Trees) → declarations (folded_all width program) ≡ declarations program }
    ensures external { (width : Width) (program : Trees) → externals (folded_all width program) ≡ externals program }
    ensures known { (width : Width) (program : Trees) → known_of (folded_all width program) ≡ known_of program }
    ensures whole { (width : Width) (program : Trees) → whole_of (folded_all width program) ≡ whole_of program }
    ensures names { (width : Width) (program : Trees) → name_errors (folded_all width program) ≡ name_errors program }
    ensures types { (width : Width) (program : Trees) → type_errors (folded_all width program) ≡ type_errors program }
{}

/// Where its terms may be written, or may be so once its Switches are loops, they are so with their constants folded.
pub fn stays_shaped()
    ensures formed { (width : Width) (terms : Trees) → AreFormed ⊥ (AreItems 0) ⊥ (Unit {0}) terms → AreFormed ⊥ (AreItems 0) ⊥ (Unit {0})
        (folded_all width terms) }
    ensures shaped { (width : Width) (terms : Trees) → AreShaped terms → AreShaped (folded_all width terms) }
{}
