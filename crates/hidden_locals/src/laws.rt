//! What holds of every program where activations hide Locals that it does not name.
ghost use Rattle.std.specs.Prelude.{◌≡◌, ◌<◌, ℕ, suc, nat_eq, Bool, true, false, List};
ghost use Rattle.acpi_values.specs.declared.operator.Plain.{Plain};
ghost use Rattle.acpi_values.specs.declared.width.Width.{Width};
ghost use Rattle.acpi_values.specs.Paths.{AbsolutePath};
ghost use Rattle.acpi_values.specs.Values.{Value};
ghost use Rattle.acpi_state.specs.Objects.{Names};
ghost use Rattle.acpi_state.specs.Acts.{Operand, act_of};
ghost use Rattle.acpi_state.specs.Asked.{IsAsked};
ghost use Rattle.acpi_state.specs.Sessions.{Request};
ghost use Rattle.acpi_state.specs.Outcomes.{Flow, Run, then_run, on_flow};
ghost use Rattle.asl_tree.specs.Names.{Known};
ghost use Rattle.asl_tree.specs.Tree.{Tree, If, Break, Continue, Trees, no_trees, tree};
ghost use Rattle.asl_meaning.specs.Declarations.{declarations};
ghost use Rattle.asl_meaning.specs.Meaning.{run, run_all, call_method};
ghost use Rattle.asl_meaning.specs.SourceSession.{source_session};
ghost use Rattle.hidden_locals.specs.Worlds.{World, shown_here, Clear, ClearAll, ClearOperands, ClearFlow, ClearNames, AreBegun};
ghost use Rattle.hidden_locals.specs.Blind.{Blind};
ghost use Rattle.hidden_locals.specs.Runs.{Reach, Everywhere, Outside, From};
ghost use Rattle.hidden_locals.specs.Terms.{UseShown};
ghost use Rattle.hidden_locals.specs.Locals.{name_local};
ghost use Rattle.hidden_locals.specs.Turns.{local, stored, zero_word, one_word, loop_of};
ghost use Rattle.hidden_locals.specs.Crossing.{Lasting, have_continue, value_at, until_break, Crossed, Looped, Keeping, KeepingAll};
ghost use Rattle.hidden_locals.specs.Programs.{start_in, CallAlike, DoesAs};
ghost use Rattle.hidden_locals.specs.Switches.{without_switches, IsUnswitchable, HaveDefaultsLast};
ghost use Rattle.hidden_locals.specs.Rows.{lone, lone_loop, crossed, crossed_loop, twice, twice_loop};

/// A plain operator does the same where Locals are hidden, if none of its operands leads to one.
pub fn operators_are_blind()
    ensures { (w : World) (op : Plain) (width : Width) (os : List Operand) → ClearOperands w os →
        Blind w (ClearAll w) (act_of op width os) }
{}

/// Every list of terms, and every call, does the same where each activation hides the Locals that its terms do not name.
pub fn unnamed_locals_are_unseen()
    ensures terms { (reach : Reach) (width : Width) (known : Known) (turns : ℕ) (terms : Trees)
        → DoesAs (λ t. t) (λ _. Unit {0}) reach width known turns (name_local terms) terms terms }
    ensures calls { (width : Width) (known : Known) (turns depth : ℕ)
        → CallAlike (λ t. t) (λ _. Unit {0}) (call_method width known turns depth) (call_method width known turns depth) }
{}

/// Terms that name shown Locals alone do the same where the bodies of methods may be converted, but for their own.
pub fn shown_terms_do_the_same()
    ensures { (convert : Trees → Trees) (kept unchanged : Trees → Bool)
        → ((body : Trees) → unchanged body ≡ true → (kept body ≡ true) × (convert body ≡ body))
        → (reach : Reach) (shown : ℕ → Bool) (width : Width) (known : Known) (turns : ℕ) (terms : Trees)
        → UseShown (λ body. unchanged body ≡ true) shown terms
        → DoesAs convert (λ body. kept body ≡ true) reach width known turns shown terms terms }
{}

/// A program has the same sessions as another, if its terms and each body do what those of the other do, but for hidden Locals.
pub fn same_sessions()
    ensures { (convert : Trees → Trees) (kept : Trees → Bool) (shown_of : Trees → ℕ → Bool) (width : Width) (known : Known) (n : ℕ)
        → ((body : Trees) → kept body ≡ true
        → DoesAs convert (λ body. kept body ≡ true) Outside width known n (shown_of body) body (convert body))
        → (shown : ℕ → Bool) (terms lowered : Trees) → DoesAs convert (λ body. kept body ≡ true) Outside width known n shown terms lowered
        → (there : Names) (answers : List Value) (requests : List Request)
        → ClearNames (start_in shown) there → IsAsked width n answers requests
        → source_session width known terms there n answers requests ≡ source_session width known lowered there n answers requests }
{}

/// A loop of one turn keeps a value in a hidden Local: its Store, its terms and its Break do what the terms do with the value.
pub fn values_may_be_kept()
    ensures crossed { (convert : Trees → Trees) (kept : Trees → Bool) (w : World) (flag : ℕ) (width : Width) (known : Known) (n : ℕ)
        (call other : AbsolutePath → List Value → Run Trees Flow)
        → (i : ℕ) (value : Tree) (chain : Trees) (scope : AbsolutePath) (due : Bool) → i < 8 → nat_eq flag i ≡ false
        → AreBegun w w.running → shown_here w i ≡ false
        → From convert (λ body. kept body ≡ true) Everywhere w Clear
        (λ v. v) (value_at width known (suc n) call value scope) (value_at width known (suc n) other value scope)
        → (with_value : Value → Run Trees Flow) → ((v : Value)
        → Keeping convert (λ body. kept body ≡ true) w flag i v (with_value v) (run_all width known (suc n) other chain scope false))
        → Looped convert (λ body. kept body ≡ true) w flag (until_break (value_at width known (suc n) call value scope) with_value)
        (run width known (suc n) other (loop_of value (local i) chain) scope due) }
    ensures uncrossed { (convert : Trees → Trees) (kept : Trees → Bool) (w : World) (flag : ℕ) (width : Width) (known : Known) (n : ℕ)
        (call other : AbsolutePath → List Value → Run Trees Flow)
        → (inside low : Bool) (i : ℕ) (value : Tree) (chain : Trees) (scope : AbsolutePath) (due : Bool) → i < 8 → nat_eq flag i ≡ false
        → AreBegun w w.running → shown_here w i ≡ false
        → From convert (λ body. kept body ≡ true) Everywhere w Clear
        (λ v. v) (value_at width known (suc n) call value scope) (value_at width known (suc n) other value scope)
        → (with_value : Value → Run Trees Flow) → ((v : Value)
        → KeepingAll convert (λ body. kept body ≡ true) w flag low i v (with_value v) (run_all width known (suc n) other chain scope false))
        → Crossed convert (λ body. kept body ≡ true) w flag inside low
        (until_break (value_at width known (suc n) call value scope) with_value)
        (run width known (suc n) other (loop_of value (local i) chain) scope due) }
{}

/// A Continue that crosses loops of one turn leaves them by Break with a hidden flag raised, which is tested behind each.
pub fn continues_may_cross()
    ensures leaves { (convert : Trees → Trees) (kept : Trees → Bool) (w : World) (flag : ℕ) (width : Width) (known : Known) (turns : ℕ)
        (call other : AbsolutePath → List Value → Run Trees Flow)
        → (low : Bool) (rest behind : Trees) (scope : AbsolutePath) (due : Bool) → flag < 8
        → Crossed convert (λ body. kept body ≡ true) w flag true low (run_all width known turns call (tree Continue rest) scope due)
        (run_all width known turns other (tree (stored one_word (local flag)) (tree Break behind)) scope due) }
    ensures inner { (convert : Trees → Trees) (kept : Trees → Bool) (w : World) (flag : ℕ) (width : Width) (known : Known) (turns : ℕ)
        (call other : AbsolutePath → List Value → Run Trees Flow)
        → (first : Run Trees Flow) (turn : Tree) (rest behind : Trees) (scope : AbsolutePath) (due : Bool)
        → run_all width known turns other behind scope true ≡ run_all width known turns other behind scope false
        → Looped convert (λ body. kept body ≡ true) w flag first (run width known turns other turn scope due)
        → Crossed convert (λ body. kept body ≡ true) w flag true true (run_all width known turns call rest scope false)
        (run_all width known turns other behind scope false)
        → Crossed convert (λ body. kept body ≡ true) w flag true true
        (then_run first (λ f. on_flow f (run_all width known turns call rest scope)))
        (run_all width known turns other (tree turn (tree (If (local flag) (tree Break no_trees)) behind)) scope due) }
    ensures outer { (convert : Trees → Trees) (kept : Trees → Bool) (w : World) (flag : ℕ) (width : Width) (known : Known) (turns : ℕ)
        (call other : AbsolutePath → List Value → Run Trees Flow)
        → (low : Bool) (first : Run Trees Flow) (turn : Tree) (rest behind : Trees) (scope : AbsolutePath) (due : Bool) → flag < 8
        → run_all width known turns other behind scope true ≡ run_all width known turns other behind scope false
        → Looped convert (λ body. kept body ≡ true) w flag first (run width known turns other turn scope false)
        → Crossed convert (λ body. kept body ≡ true) w flag false low (run_all width known turns call rest scope false)
        (run_all width known turns other behind scope false)
        → Crossed convert (λ body. kept body ≡ true) w flag false low
        (then_run first (λ f. on_flow f (run_all width known turns call rest scope)))
        (run_all width known turns other (tree (stored zero_word (local flag))
        (tree turn (tree (If (local flag) (tree (stored zero_word (local flag)) (tree Continue no_trees))) behind))) scope due) }
{}

/// Terms that stand in no loop of one turn do what they do, whatever flag they use.
pub fn flags_are_hidden()
    ensures { (convert : Trees → Trees) (kept : Trees → Bool) (w : World) (flag : ℕ) (m other : Run Trees Flow) → AreBegun w w.running →
        shown_here w flag ≡ false
        → Crossed convert (λ body. kept body ≡ true) w flag false false m other
        → From convert (λ body. kept body ≡ true) Outside w ClearFlow (λ f. f) m other }
{}

/// No call ends with a Continue, nor do terms that have none.
pub fn continues_are_written()
    ensures calls { (width : Width) (known : Known) (turns depth : ℕ) (path : AbsolutePath) (args : List Value) →
        Lasting (call_method width known turns depth path args) }
    ensures terms { (width : Width) (known : Known) (turns : ℕ) (call : AbsolutePath → List Value → Run Trees Flow) →
        ((path : AbsolutePath) (args : List Value) → Lasting (call path args))
        → (terms : Trees) → have_continue terms ≡ false → (scope : AbsolutePath) (due : Bool)
        → Lasting (run_all width known turns call terms scope due) }
{}

/// A program with Switches has the same sessions as with loops of one turn for them.
pub fn switches_become_loops()
    ensures bodies { (width : Width) (known : Known) (n : ℕ) (body : Trees) → IsUnswitchable body
        → DoesAs without_switches IsUnswitchable Outside width known (suc n) (name_local body) body (without_switches body) }
    ensures programs { (width : Width) (known : Known) (n : ℕ) (terms : Trees) → IsUnswitchable terms
        → (there : Names) (answers : List Value) (requests : List Request) → ClearNames (start_in (name_local terms)) there
        → IsAsked width (suc n) answers requests
        → source_session width known (without_switches terms) there (suc n) answers requests
        ≡ source_session width known terms there (suc n) answers requests }
{}

/// A program declares the same with loops for its Switches, in the same order, if each Default stands last.
pub fn loops_declare_the_same()
    ensures { (program : Trees) → HaveDefaultsLast program → declarations (without_switches program) ≡ declarations program }
{}

/// The loops of a Switch alone, of one that a Continue leaves, and of two around each other that a Continue leaves.
pub fn loops_of_switches()
    ensures written { (without_switches lone ≡ lone_loop) × (without_switches crossed ≡ crossed_loop)
        × (without_switches twice ≡ twice_loop) }
    ensures may { IsUnswitchable lone × IsUnswitchable crossed × IsUnswitchable twice }
{}
