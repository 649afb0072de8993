//! What a search at run time finds for the names of a program as they are spelled.
ghost use Rattle.std.specs.Prelude.{◌≡◌, Bool, true, ◌∷◌, [], is_some, Some, None};
ghost use Rattle.acpi_values.specs.Paths.{AbsolutePath};
ghost use Rattle.acpi_state.specs.Objects.{Names};
ghost use Rattle.acpi_state.specs.Finds.{object_at, first_there};
ghost use Rattle.asl_tree.specs.declared.path.Path.{Path};
ghost use Rattle.asl_tree.specs.Names.{denoted, search_path};
ghost use Rattle.asl_tree.specs.Tree.{Trees};
ghost use Rattle.asl_meaning.specs.Declarations.{is_named, declarations};
ghost use Rattle.acpi_names.specs.Searches.{AreNamesOf};
ghost use Rattle.acpi_names.specs.Shortest.{spelled_use};

/// Whatever names stand at the time, as long as each is declared, external or of the root: the search for what is
/// written of a used name finds the path that the name denotes where something stands there, and nothing where nothing
/// does. For a name that denotes nothing it finds nothing (ACPI Specification 6.4, 5.3). The spelling may keep out of the
/// way of any other paths besides, `also`.
pub fn searches_find_what_is_denoted()
    ensures there { (also : AbsolutePath → Bool) (shorten : Bool) (program : Trees) (names : Names) → AreNamesOf program names
        → (name : Path) (scope path : AbsolutePath) → denoted (is_named (declarations program)) name scope ≡ Some path
        → is_some (object_at names path) ≡ true
        → first_there names (search_path (spelled_use also (is_named (declarations program)) shorten name scope) scope) ≡ Some path }
    ensures absent { (also : AbsolutePath → Bool) (shorten : Bool) (program : Trees) (names : Names) → AreNamesOf program names
        → (name : Path) (scope path : AbsolutePath)
        → denoted (is_named (declarations program)) name scope ≡ Some path → object_at names path ≡ None
        → first_there names (search_path (spelled_use also (is_named (declarations program)) shorten name scope) scope) ≡ None }
    ensures nothing { (also : AbsolutePath → Bool) (shorten : Bool) (program : Trees) (names : Names) → AreNamesOf program names
        → (name : Path) (scope : AbsolutePath) → denoted (is_named (declarations program)) name scope ≡ None
        → first_there names (search_path (spelled_use also (is_named (declarations program)) shorten name scope) scope) ≡ None }
{}
