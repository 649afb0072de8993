//! What holds of the mentions of a block without those that declare names which nothing uses.
ghost use Rattle.std.specs.Prelude.{◌≡◌, ℕ, Bool, true, false, List, [], get_or, if◌then◌else◌};
ghost use Rattle.acpi_values.specs.Paths.{AbsolutePath};
ghost use Rattle.asl_meaning.specs.Declarations.{nothing_declared, declarations, is_named};
ghost use Rattle.asl_tree.specs.declared.path.Path.{Path};
ghost use Rattle.asl_tree.specs.Names.{denoted};
ghost use Rattle.asl_tree.specs.Tree.{Trees};
ghost use Rattle.acpi_names.specs.Errors.{whole_of, final, name_errors, type_errors};
ghost use Rattle.acpi_names.specs.Parts.{Agrees};
ghost use Rattle.acpi_names.specs.Terms.{are_terms};
ghost use Rattle.acpi_names.specs.Mentions.{Mention, block_mentions, all_errors, all_types};
ghost use Rattle.name_kinds.specs.Seen.{seen};
ghost use Rattle.unused_names.specs.Unused.{Drops, AreDeclared, Spares, AreSpared};
ghost use Rattle.unused_names.specs.Uses.{UseOthers, AreNotBelow};
ghost use Rattle.unused_names.specs.Left.{left_terms, is_descriptor, DescriptorsAreApart};
ghost use Rattle.unused_names.specs.Bare.{bare_all};

/// Where nothing is wrong with the names, uses and kinds of a block, and some of its names are used by nothing and have
/// nothing below them, nothing is wrong without them.
pub fn unused_are_dropped()
    ensures names { (gone : AbsolutePath → Bool) (ms others : List Mention) → Drops gone ms others → AreDeclared gone ms
        → all_errors (seen ms) ms nothing_declared ≡ [] → AreSpared gone (is_named (seen ms).all) ms
        → all_errors (seen others) others nothing_declared ≡ [] }
    ensures kinds { (gone : AbsolutePath → Bool) (ms others : List Mention) → Drops gone ms others → AreDeclared gone ms
        → all_errors (seen ms) ms nothing_declared ≡ [] → all_types (seen ms) ms ≡ [] → AreSpared gone (is_named (seen ms).all) ms
        → all_types (seen others) others ≡ [] }
{}

/// A program in which nothing is wrong with names, kinds and uses of descriptors has no error once the terms that
/// declare its descriptors are taken out.
pub fn descriptors_are_left_out()
    ensures names { (program : Trees) → are_terms program ≡ true → name_errors program ≡ [] → DescriptorsAreApart program
        → name_errors (left_terms program) ≡ [] }
    ensures kinds { (program : Trees) → are_terms program ≡ true → name_errors program ≡ [] → type_errors program ≡ []
        → DescriptorsAreApart program → type_errors (left_terms program) ≡ [] }
{}

/// What is found of such a program is what is found of it without them: one index serves both.
pub fn names_are_found_once()
    ensures named { (program : Trees) → are_terms program ≡ true → name_errors program ≡ [] → DescriptorsAreApart program
        → (path : AbsolutePath) → is_named (declarations (left_terms program)) path
        ≡ (if is_descriptor program path then false else is_named (declarations program) path) }
    ensures denoted { (program : Trees) → are_terms program ≡ true → name_errors program ≡ [] → DescriptorsAreApart program
        → (name : Path) (scope : AbsolutePath) → Spares (is_descriptor program) (is_named (declarations program)) name scope
        → denoted (is_named (declarations (left_terms program))) name scope ≡ denoted (is_named (declarations program)) name scope }
    ensures calls { (program : Trees) → are_terms program ≡ true → name_errors program ≡ [] → DescriptorsAreApart program
        → (whole_of (left_terms program)).calls ≡ (whole_of program).calls }
    ensures ends { (program : Trees) → are_terms program ≡ true → name_errors program ≡ [] → DescriptorsAreApart program
        → (path : AbsolutePath) → is_descriptor program path ≡ false
        → final (whole_of (left_terms program)).known path ≡ final (whole_of program).known path }
    ensures index { (program : Trees) → are_terms program ≡ true → name_errors program ≡ [] → DescriptorsAreApart program
        → (paths : List AbsolutePath) (flags left : List Bool) → Agrees paths flags (declarations program)
        → ((n : ℕ) → get_or left n false ≡ (if is_descriptor program (get_or paths n []) then false else get_or flags n false))
        → Agrees paths left (declarations (left_terms program)) }
{}

/// Where no mention uses a descriptor and none declares a name directly below one, no alias leads to one either.
pub fn descriptors_are_apart()
    ensures { (program : Trees)
        → UseOthers (is_descriptor program) (is_named (declarations program)) (block_mentions program [] nothing_declared)
        → AreNotBelow (is_descriptor program) (is_named (declarations program)) (block_mentions program [] nothing_declared)
        → DescriptorsAreApart program }
{}

/// What is known of a program, and whether something is wrong with its names, does not depend on the numbers and the places of its nodes.
pub fn numbers_do_not_matter()
    ensures terms { (program other : Trees) → are_terms program ≡ true → bare_all program ≡ bare_all other → are_terms other ≡ true }
    ensures whole { (program other : Trees) → are_terms program ≡ true → bare_all program ≡ bare_all other
        → whole_of other ≡ whole_of program }
    ensures names { (program other : Trees) → are_terms program ≡ true → bare_all program ≡ bare_all other
        → name_errors program ≡ [] → name_errors other ≡ [] }
    ensures kinds { (program other : Trees) → are_terms program ≡ true → bare_all program ≡ bare_all other → name_errors program ≡ []
        → type_errors program ≡ [] → type_errors other ≡ [] }
{}
