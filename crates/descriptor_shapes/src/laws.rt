//! What holds of the terms of a block with those that declare its descriptors, and of the terms that are compiled.
ghost use Rattle.std.specs.Prelude.{◌≡◌, ◌<◌, ℕ, Bool, true, false, List, [], map, get_or, if◌then◌else◌, Option, None, is_some};
ghost use Rattle.std.specs.List.{All};
ghost use Rattle.iasl_messages.specs.declared.message.Message.{Message};
ghost use Rattle.acpi_values.specs.Paths.{AbsolutePath};
ghost use Rattle.asl_tree.specs.declared.term.NamedDescriptor.{NamedDescriptor};
ghost use Rattle.asl_meaning.specs.Declarations.{declarations};
ghost use Rattle.acpi_names.specs.Errors.{whole_of, name_errors, type_errors};
ghost use Rattle.acpi_names.specs.Mentions.{Mention};
ghost use Rattle.acpi_names.specs.Parts.{Agrees};
ghost use Rattle.acpi_names.specs.Tables.{Tabled};
ghost use Rattle.acpi_names.specs.Terms.{are_terms};
ghost use Rattle.asl_numbers.specs.Numbers.{numbered_all};
ghost use Rattle.term_plans.specs.Plans.{Plans};
ghost use Rattle.name_checks.specs.Messages.{message_of};
ghost use Rattle.named_sessions.specs.Shaped.{AreNamed, AreFormed};
ghost use Rattle.descriptor_fields.specs.Declaring.{declaring, names_descriptors};
ghost use Rattle.descriptor_checks.specs.Senses.{Nothing};
ghost use Rattle.descriptor_checks.specs.Resolved.{mentions_of, names_of, table_of, checked_terms, broken_fields, resolved_terms};
ghost use Rattle.descriptor_checks.specs.Resolved.{described_paths};
ghost use Rattle.descriptor_checks.specs.Told.{sense_in, all_below, owners_of, checked_trees, names_told, kinds_told};
ghost use Rattle.stripped_names.specs.Whole.{AreWhole};
ghost use Rattle.descriptor_shapes.specs.Places.{PlansWithin};

/// Terms that have their forms have them where fields are constants, and those with the declared descriptors are terms, which can be taken
/// apart: each has a form, and each Name whose value is bytes declares a descriptor.
pub fn resolved_are_formed()
    ensures formed { (next : ℕ) (ps : Plans) → AreFormed (Unit {0}) AreNamed (Unit {0}) (Unit {0}) (numbered_all next ps) →
        AreFormed (Unit {0}) AreNamed (Unit {0}) (Unit {0}) (numbered_all next (resolved_terms ps)) }
    ensures terms { (next : ℕ) (ps : Plans) → AreFormed (Unit {0}) AreNamed (Unit {0}) (Unit {0}) (numbered_all next ps) →
        are_terms (checked_trees ps) ≡ true }
    ensures whole { (next : ℕ) (ps : Plans) → AreFormed (Unit {0}) AreNamed (Unit {0}) (Unit {0}) (numbered_all next ps) →
        AreWhole (checked_terms ps) }
{}

/// Where no descriptor has a name the terms stay as they are, no field of one is used, no path is that of one, and what is told of
/// names is what is told of them without descriptors; of kinds and counts, where nothing is wrong with names.
pub fn unnamed_stay()
    ensures checked { (ps : Plans) → names_descriptors ps ≡ false → checked_terms ps ≡ ps }
    ensures resolved { (ps : Plans) → names_descriptors ps ≡ false → resolved_terms ps ≡ ps }
    ensures fields { (ps : Plans) → names_descriptors ps ≡ false → broken_fields ps ≡ [] }
    ensures paths { (ps : Plans) → names_descriptors ps ≡ false → (path : AbsolutePath) → described_paths ps path ≡ false }
    ensures owners { (ps : Plans) → names_descriptors ps ≡ false → owners_of (declaring ps) ≡ [] }
    ensures names { (ps : Plans) → names_descriptors ps ≡ false → are_terms (numbered_all 0 ps) ≡ true →
        names_told ps ≡ map message_of (name_errors (numbered_all 0 ps)) }
    ensures kinds { (ps : Plans) → names_descriptors ps ≡ false → are_terms (numbered_all 0 ps) ≡ true →
        name_errors (numbered_all 0 ps) ≡ [] → kinds_told ps ≡ map message_of (type_errors (numbered_all 0 ps)) }
{}

/// The terms stand in the files in which the block's own terms and its descriptors stand, and so does what is told of them.
pub fn places_stay()
    ensures checked { (files : ℕ) (ps : Plans) → PlansWithin files ps → PlansWithin files (checked_terms ps) }
    ensures resolved { (files : ℕ) (ps : Plans) → PlansWithin files ps → PlansWithin files (resolved_terms ps) }
    ensures names { (files : ℕ) (ps : Plans) → PlansWithin files ps → All (λ (m : Message). m.place.file < files) (names_told ps) }
    ensures kinds { (files : ℕ) (ps : Plans) → PlansWithin files ps → All (λ (m : Message). m.place.file < files) (kinds_told ps) }
{}

/// Where nothing is told of a block, nothing is wrong with its names, kinds and counts, no mention is of a descriptor or of a
/// field of one, and nothing is declared directly below a descriptor.
pub fn untold_are_right()
    ensures names { (ps : Plans) → are_terms (checked_trees ps) ≡ true → names_told ps ≡ [] → kinds_told ps ≡ [] →
        name_errors (checked_trees ps) ≡ [] }
    ensures kinds { (ps : Plans) → are_terms (checked_trees ps) ≡ true → names_told ps ≡ [] → kinds_told ps ≡ [] →
        type_errors (checked_trees ps) ≡ [] }
    ensures uses { (ps : Plans) → kinds_told ps ≡ [] →
        All (λ (m : Mention). sense_in (names_of (checked_terms ps)) (table_of (checked_terms ps)) m ≡ Nothing)
        (mentions_of (checked_terms ps)) }
    ensures below { (ps : Plans) → names_told ps ≡ [] → all_below (table_of (checked_terms ps)) (mentions_of (checked_terms ps)) ≡ [] }
{}

/// Where nothing is told of the names, the kinds and the uses of a formed block, nothing is wrong with the terms that are compiled, and
/// what is found of the terms that are checked serves for them: the calls, and the index with the flags of descriptors taken back.
pub fn untold_are_resolved()
    ensures names { (next : ℕ) (ps : Plans) → AreFormed (Unit {0}) AreNamed (Unit {0}) (Unit {0}) (numbered_all next ps) →
        names_told ps ≡ [] → kinds_told ps ≡ [] → name_errors (numbered_all 0 (resolved_terms ps)) ≡ [] }
    ensures kinds { (next : ℕ) (ps : Plans) → AreFormed (Unit {0}) AreNamed (Unit {0}) (Unit {0}) (numbered_all next ps) →
        names_told ps ≡ [] → kinds_told ps ≡ [] → type_errors (numbered_all 0 (resolved_terms ps)) ≡ [] }
    ensures calls { (next : ℕ) (ps : Plans) → AreFormed (Unit {0}) AreNamed (Unit {0}) (Unit {0}) (numbered_all next ps) →
        names_told ps ≡ [] → kinds_told ps ≡ [] →
        (whole_of (numbered_all 0 (resolved_terms ps))).calls ≡ (whole_of (checked_trees ps)).calls }
    ensures index { (next : ℕ) (ps : Plans) → AreFormed (Unit {0}) AreNamed (Unit {0}) (Unit {0}) (numbered_all next ps) →
        names_told ps ≡ [] → kinds_told ps ≡ [] →
        (paths : List AbsolutePath) (flags left : List Bool) (table : List (Option NamedDescriptor)) →
        Agrees paths flags (declarations (checked_trees ps)) → Tabled paths table (table_of (checked_terms ps)) →
        ((n : ℕ) → get_or left n false ≡ (if is_some (get_or table n None) then false else get_or flags n false)) →
        Agrees paths left (declarations (numbered_all 0 (resolved_terms ps))) }
{}
