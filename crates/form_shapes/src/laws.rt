//! What holds of every formed program and the same one with what stands for its Printf, Fprintf and For.
ghost use Rattle.std.specs.Prelude.{◌≡◌, ℕ, List, []};
ghost use Rattle.acpi_values.specs.declared.width.Width.{Width};
ghost use Rattle.acpi_values.specs.Paths.{AbsolutePath};
ghost use Rattle.acpi_state.specs.Objects.{lookup};
ghost use Rattle.asl_tree.specs.Tree.{Trees};
ghost use Rattle.asl_meaning.specs.Declarations.{declarations, externals, known_of};
ghost use Rattle.acpi_names.specs.Errors.{whole_of, name_errors, type_errors};
ghost use Rattle.asl_prints.specs.Forms.{formed_all};
ghost use Rattle.aml_meaning.specs.ByteSession.{IsFaithful};
ghost use Rattle.aml_sessions.specs.Ready.{AreItems};
ghost use Rattle.named_sessions.specs.Shaped.{AreFormed, AreNamed};
ghost use Rattle.hidden_locals.specs.Switches.{HaveLocals};
ghost use Rattle.form_shapes.specs.Near.{AreNear};
ghost use Rattle.form_shapes.specs.Rows.{counting};

/// It is formed, and no Printf, Fprintf and For is left in it, whether its lists of fields are laid or named alone.
pub fn forms_are_formed()
    ensures named { (program : Trees) → AreFormed (Unit {0}) AreNamed (Unit {0}) (Unit {0}) program → AreNear program →
        AreFormed ⊥ AreNamed (Unit {0}) (Unit {0}) (formed_all program) }
    ensures laid { (program : Trees) → AreFormed (Unit {0}) (AreItems 0) (Unit {0}) (Unit {0}) program → AreNear program →
        AreFormed ⊥ (AreItems 0) (Unit {0}) (Unit {0}) (formed_all program) }
{}

/// Where it has no errors of names and counts, its names are the same, each path is first called with as many
/// arguments, and it has no such errors.
pub fn same_names()
    ensures declared { (program : Trees) → declarations (formed_all program) ≡ declarations program }
    ensures called { (program : Trees) → AreFormed (Unit {0}) AreNamed (Unit {0}) (Unit {0}) program → AreNear program →
        name_errors program ≡ [] → type_errors program ≡ []
        → (path : AbsolutePath) → lookup (whole_of (formed_all program)).calls path ≡ lookup (whole_of program).calls path }
    ensures external { (program : Trees) → AreFormed (Unit {0}) AreNamed (Unit {0}) (Unit {0}) program → AreNear program →
        name_errors program ≡ [] → type_errors program ≡ []
        → externals (formed_all program) ≡ externals program }
    ensures known { (program : Trees) → AreFormed (Unit {0}) AreNamed (Unit {0}) (Unit {0}) program → AreNear program →
        name_errors program ≡ [] → type_errors program ≡ []
        → known_of (formed_all program) ≡ known_of program }
    ensures names { (program : Trees) → AreFormed (Unit {0}) AreNamed (Unit {0}) (Unit {0}) program → AreNear program →
        name_errors program ≡ [] → type_errors program ≡ []
        → name_errors (formed_all program) ≡ [] }
    ensures types { (program : Trees) → AreFormed (Unit {0}) AreNamed (Unit {0}) (Unit {0}) program → AreNear program →
        name_errors program ≡ [] → type_errors program ≡ []
        → type_errors (formed_all program) ≡ [] }
{}

/// Where it and its methods have Locals enough for their Switches, they have so with what stands for its Printf, Fprintf and For.
pub fn locals_stay()
    ensures { (program : Trees) → AreFormed (Unit {0}) AreNamed (Unit {0}) (Unit {0}) program → HaveLocals program →
        HaveLocals (formed_all program) }
{}

/// Bytes that do what it does with what stands for its Printf, Fprintf and For do what it does, where it has no errors of names and counts.
pub fn forms_are_faithful()
    ensures { (width : Width) (program : Trees) (bytes : List ℕ) → AreFormed (Unit {0}) AreNamed (Unit {0}) (Unit {0}) program →
        AreNear program → name_errors program ≡ [] → type_errors program ≡ []
        → IsFaithful width (known_of (formed_all program)) (externals (formed_all program)) (formed_all program) bytes
        → IsFaithful width (known_of program) (externals program) program bytes }
{}

/// There are formed programs with Fors and Printfs for which all this holds.
pub fn fors_are_formed()
    ensures formed { AreFormed (Unit {0}) (AreItems 0) (Unit {0}) (Unit {0}) counting }
    ensures near { AreNear counting }
    ensures names { name_errors counting ≡ [] }
    ensures types { type_errors counting ≡ [] }
    ensures enough { HaveLocals counting }
{}
