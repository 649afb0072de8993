//! What holds of values of Cases, and of every program of whose Locals nothing is told.
ghost use Rattle.std.specs.Prelude.{◌≡◌, ℕ, List, [], Option};
ghost use Rattle.std.specs.Str.{bytes_eq};
ghost use Rattle.asl_tree.specs.Tree.{Trees};
ghost use Rattle.term_plans.specs.Plans.{Plans};
ghost use Rattle.hidden_locals.specs.Switches.{HaveLocals};
ghost use Rattle.switch_checks.specs.Locals.{few_locals};
ghost use Rattle.switch_checks.specs.Values.{buffer_of, filled, is_same};

/// Two Buffers are the same where the bytes that they list are, filled with zeros to their sizes.
pub fn buffers_are_filled()
    ensures { (size other : Option ℕ) (bytes others : List ℕ) → is_same (buffer_of size bytes) (buffer_of other others) ≡ bytes_eq
        (filled size bytes) (filled other others) }
{}

/// Where nothing is told of a program's Locals, each method and what lies outside methods leave enough of them for their Switches,
/// whatever places are told.
pub fn locals_are_enough()
    ensures { (terms : Trees) (plans : Plans) → few_locals terms plans ≡ [] → HaveLocals terms }
{}
