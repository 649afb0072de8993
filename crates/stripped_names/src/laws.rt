//! What holds of the terms of a block without those that declare its descriptors, numbered anew.
ghost use Rattle.std.specs.Prelude.{◌≡◌, ℕ, Bool, true, false, List, [], get_or, if◌then◌else◌, Option, None, is_some};
ghost use Rattle.std.specs.List.{All};
ghost use Rattle.acpi_values.specs.Paths.{AbsolutePath};
ghost use Rattle.asl_meaning.specs.Declarations.{declarations, is_named};
ghost use Rattle.acpi_names.specs.Errors.{whole_of, name_errors, type_errors};
ghost use Rattle.acpi_names.specs.Parts.{Agrees};
ghost use Rattle.acpi_names.specs.Mentions.{Mention};
ghost use Rattle.acpi_names.specs.Tables.{Tabled};
ghost use Rattle.acpi_names.specs.Terms.{are_terms};
ghost use Rattle.asl_tree.specs.declared.term.NamedDescriptor.{NamedDescriptor};
ghost use Rattle.asl_numbers.specs.Numbers.{numbered_all};
ghost use Rattle.term_plans.specs.Plans.{Plans};
ghost use Rattle.descriptor_fields.specs.Declaring.{stripped};
ghost use Rattle.descriptor_checks.specs.Resolved.{mentions_of, names_of, table_of};
ghost use Rattle.descriptor_checks.specs.Senses.{Nothing};
ghost use Rattle.descriptor_checks.specs.Told.{sense_in, all_below};
ghost use Rattle.unused_names.specs.Bare.{bare_all};
ghost use Rattle.unused_names.specs.Left.{left_terms, is_descriptor, DescriptorsAreApart};
ghost use Rattle.stripped_names.specs.Whole.{AreWhole};

/// The terms without those that declare descriptors are the program's own without them, but for the numbers of nodes.
pub fn stripped_are_left()
    ensures { (ps : Plans) (next more : ℕ) → AreWhole ps →
        bare_all (left_terms (numbered_all next ps)) ≡ bare_all (numbered_all more (stripped ps)) }
{}

/// Where nothing is wrong with names, kinds and uses of descriptors, nothing is wrong without the terms that declare them.
pub fn stripped_are_right()
    ensures terms { (ps : Plans) → AreWhole ps → are_terms (numbered_all 0 ps) ≡ true → are_terms (numbered_all 0 (stripped ps)) ≡ true }
    ensures names { (ps : Plans) → AreWhole ps → are_terms (numbered_all 0 ps) ≡ true → name_errors (numbered_all 0 ps) ≡ [] →
        DescriptorsAreApart (numbered_all 0 ps) → name_errors (numbered_all 0 (stripped ps)) ≡ [] }
    ensures kinds { (ps : Plans) → AreWhole ps → are_terms (numbered_all 0 ps) ≡ true → name_errors (numbered_all 0 ps) ≡ [] →
        type_errors (numbered_all 0 ps) ≡ [] → DescriptorsAreApart (numbered_all 0 ps) → type_errors (numbered_all 0 (stripped ps)) ≡ [] }
{}

/// What is found of such a program serves without them: its names but for the descriptors, its calls, and its index with the flags of
/// the descriptors' paths taken back.
pub fn stripped_are_known()
    ensures named { (ps : Plans) → AreWhole ps → are_terms (numbered_all 0 ps) ≡ true → name_errors (numbered_all 0 ps) ≡ [] →
        DescriptorsAreApart (numbered_all 0 ps) → (path : AbsolutePath) → is_named (declarations (numbered_all 0 (stripped ps))) path ≡
        (if is_descriptor (numbered_all 0 ps) path then false else is_named (declarations (numbered_all 0 ps)) path) }
    ensures calls { (ps : Plans) → AreWhole ps → are_terms (numbered_all 0 ps) ≡ true → name_errors (numbered_all 0 ps) ≡ [] →
        DescriptorsAreApart (numbered_all 0 ps) → (whole_of (numbered_all 0 (stripped ps))).calls ≡ (whole_of (numbered_all 0 ps)).calls }
    ensures index { (ps : Plans) → AreWhole ps → are_terms (numbered_all 0 ps) ≡ true → name_errors (numbered_all 0 ps) ≡ [] →
        DescriptorsAreApart (numbered_all 0 ps) → (paths : List AbsolutePath) (flags left : List Bool) →
        Agrees paths flags (declarations (numbered_all 0 ps)) →
        ((n : ℕ) → get_or left n false ≡ (if is_descriptor (numbered_all 0 ps) (get_or paths n []) then false else get_or flags n false)) →
        Agrees paths left (declarations (numbered_all 0 (stripped ps))) }
    ensures forgotten { (ps : Plans) → AreWhole ps → are_terms (numbered_all 0 ps) ≡ true → name_errors (numbered_all 0 ps) ≡ [] →
        DescriptorsAreApart (numbered_all 0 ps) →
        (paths : List AbsolutePath) (flags left : List Bool) (table : List (Option NamedDescriptor)) →
        Agrees paths flags (declarations (numbered_all 0 ps)) → Tabled paths table (table_of ps) →
        ((n : ℕ) → get_or left n false ≡ (if is_some (get_or table n None) then false else get_or flags n false)) →
        Agrees paths left (declarations (numbered_all 0 (stripped ps))) }
{}

/// The descriptors that mentions declare, by the nodes of their names, are those of the terms that declare descriptors.
pub fn descriptors_are_named()
    ensures { (ps : Plans) → AreWhole ps → (path : AbsolutePath) → is_some (table_of ps path) ≡ is_descriptor (numbered_all 0 ps) path }
{}

/// Where no mention is of a descriptor or of a field of one, and nothing is declared directly below one, the descriptors are apart.
pub fn untold_are_apart()
    ensures { (ps : Plans) → AreWhole ps →
        All (λ (m : Mention). sense_in (names_of ps) (table_of ps) m ≡ Nothing) (mentions_of ps) →
        all_below (table_of ps) (mentions_of ps) ≡ [] → DescriptorsAreApart (numbered_all 0 ps) }
{}
