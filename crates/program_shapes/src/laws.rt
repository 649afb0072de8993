//! What holds of the names that are chosen, and of a program and its core.
ghost use Rattle.std.specs.Prelude.{◌≡◌, ℕ, Bool, List, length};
ghost use Rattle.std.specs.List.{All};
ghost use Rattle.acpi_values.specs.Paths.{AbsolutePath};
ghost use Rattle.acpi_values.specs.Values.{Value};
ghost use Rattle.acpi_state.specs.Asked.{IsAsked};
ghost use Rattle.acpi_state.specs.Sessions.{Request, present_ones};
ghost use Rattle.asl_tree.specs.declared.path.Path.{Path};
ghost use Rattle.aml_code.specs.Encoding.{name_bytes};
ghost use Rattle.asl_meaning.specs.Declarations.{known_of, externals};
ghost use Rattle.asl_meaning.specs.SourceSession.{source_session};
ghost use Rattle.asl_syntax.specs.declared.raw.Raw.{Raw};
ghost use Rattle.asl_syntax.specs.Written.{writtens};
ghost use Rattle.acpi_names.specs.Shortest.{name_length};
ghost use Rattle.program_shapes.specs.Kept.{IsKeptSource};
ghost use Rattle.program_shapes.specs.Sources.{width_in, terms_in, spelled_in, IsRight};

/// The length by which the shortest name is chosen is the number of its bytes.
pub fn name_lengths()
    ensures { (name : Path) → All (λ seg. length seg ≡ 4) name.segs → name_length name ≡ length (name_bytes name) }
{}

/// For each source in which nothing is wrong, whatever externals are present, for every bound of at least 1, all answers
/// of the hardware and all calls that may be asked: the program and its core have the same sessions. The core is the
/// program with what stands for its Fors and for what prints, loops for its Switches, its symbols named, and its names
/// spelled, shortest where that is asked for; its constants are folded, and its Externals stand in Ifs, where that is
/// asked for.
pub fn cores_do_the_same()
    ensures { (wrap fold shorten : Bool) (items : List Raw) → IsRight items → IsKeptSource (writtens items)
        → (present : List AbsolutePath) (n : ℕ) (answers : List Value) (requests : List Request)
        → IsAsked (width_in items) n answers requests
        → source_session (width_in items) (known_of (terms_in items)) (spelled_in wrap fold shorten items)
        (present_ones (externals (terms_in items)) present) n answers requests
        ≡ source_session (width_in items) (known_of (terms_in items)) (terms_in items)
        (present_ones (externals (terms_in items)) present) n answers requests }
{}
