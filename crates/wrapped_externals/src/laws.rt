//! What holds of every program and the same one with its Externals in Ifs.
ghost use Rattle.std.specs.Prelude.{◌≡◌, ℕ, List};
ghost use Rattle.acpi_values.specs.declared.width.Width.{Width};
ghost use Rattle.acpi_values.specs.Values.{Value};
ghost use Rattle.acpi_state.specs.Objects.{Names};
ghost use Rattle.acpi_state.specs.Sessions.{Request};
ghost use Rattle.asl_tree.specs.Names.{Known};
ghost use Rattle.asl_tree.specs.Tree.{Trees};
ghost use Rattle.asl_meaning.specs.Declarations.{declarations, externals, known_of};
ghost use Rattle.asl_meaning.specs.SourceSession.{source_session};
ghost use Rattle.acpi_names.specs.Errors.{whole_of, name_errors, type_errors};
ghost use Rattle.named_sessions.specs.Shaped.{AreShaped};
ghost use Rattle.wrapped_externals.specs.Wraps.{wrapped_all};

/// A program has the same sessions with its Externals in Ifs.
pub fn same_sessions()
    ensures { (width : Width) (known : Known) (terms : Trees) (there : Names) (n : ℕ) (answers : List Value) (requests : List Request)
        → source_session width known (wrapped_all terms) there n answers requests
        ≡ source_session width known terms there n answers requests }
{}

/// It declares the same, and has the same errors of names and kinds.
pub fn same_names()
    ensures declared { (program : Trees) → declarations (wrapped_all program) ≡ declarations program }
    ensures external { (program : Trees) → externals (wrapped_all program) ≡ externals program }
    ensures known { (program : Trees) → known_of (wrapped_all program) ≡ known_of program }
    ensures whole { (program : Trees) → whole_of (wrapped_all program) ≡ whole_of program }
    ensures names { (program : Trees) → name_errors (wrapped_all program) ≡ name_errors program }
    ensures types { (program : Trees) → type_errors (wrapped_all program) ≡ type_errors program }
{}

/// Where its terms may be written, they may be so with their Externals in Ifs.
pub fn stays_shaped()
    ensures { (terms : Trees) → AreShaped terms → AreShaped (wrapped_all terms) }
{}
