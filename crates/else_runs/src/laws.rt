//! What holds of every program and the same one with its runs nested.
ghost use Rattle.std.specs.Prelude.{◌≡◌, ℕ, List};
ghost use Rattle.acpi_values.specs.declared.width.Width.{Width};
ghost use Rattle.acpi_values.specs.Values.{Value};
ghost use Rattle.acpi_state.specs.Objects.{Names};
ghost use Rattle.acpi_state.specs.Sessions.{Request};
ghost use Rattle.asl_tree.specs.Names.{Known};
ghost use Rattle.asl_tree.specs.Tree.{Trees};
ghost use Rattle.asl_meaning.specs.SourceSession.{source_session};
ghost use Rattle.else_runs.specs.Runs.{nested_all};

/// A program has the same sessions with its runs of If, ElseIf and Else nested.
pub fn same_sessions()
    ensures { (width : Width) (known : Known) (terms : Trees) (there : Names) (n : ℕ) (answers : List Value) (requests : List Request)
        → source_session width known (nested_all terms) there n answers requests
        ≡ source_session width known terms there n answers requests }
{}
