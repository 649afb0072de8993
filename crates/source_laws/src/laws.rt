//! What holds of conditionals in files, of the tokens of lines, and of what is open in a source.
ghost use Rattle.std.specs.Prelude.{◌≡◌, ◌≢◌, ℕ, ◌<◌, ◌≤◌, Bool, true, false, List, [], ◌∷◌, ◌++◌, All, take, Result, Some, Ok};
ghost use Rattle.iasl_messages.specs.declared.place.Line.{Line};
ghost use Rattle.asl_lexer.specs.declared.class.Class.TheVariants as c;
ghost use Rattle.asl_lexer.specs.declared.mode.Fault.{Fault};
ghost use Rattle.asl_lexer.specs.Marks.{joined};
ghost use Rattle.source_laws.specs.Sights.{Sight, InString, InComment, each, sights_of, sights_in};
ghost use Rattle.asl_directives.specs.Branches.{is_read};
ghost use Rattle.asl_preprocess.specs.Rows.{Row, rows_of};
ghost use Rattle.asl_preprocess.specs.State.{State, Pass, Outcome, number_of};
ghost use Rattle.asl_preprocess.specs.Preprocess.{Reading, Setting, of_rows, of_text};
ghost use Rattle.asl_lexer.specs.declared.token.Token.{Token};
ghost use Rattle.asl_lexer.specs.Scan.{MarkedByte};
ghost use Rattle.asl_lexer.specs.Cut.{Each, Stops, class, in_line, Content, Breaks, Inside, Cut};
ghost use Rattle.source_laws.specs.Parts.{Part, Parts, tokens_in};
ghost use Rattle.asl_syntax.specs.declared.mark.Mark.{Mark};
ghost use Rattle.asl_parser.specs.Front.{IsFront};
ghost use Rattle.asl_parser.specs.Depth.{IsDeeper, IsShallow, OpensTooMuch};
ghost use Rattle.source_laws.specs.Opens.{OpensInSource, IsFirstTooDeep};
ghost use Rattle.source_laws.specs.Conditionals.{RowTree, BranchList, branch, listed, AreWhole, condition, read, read_first, alone};

/// A file is read as its tree of rows says: of a conditional the first branch whose condition holds, and no other.
pub fn first_branch_is_read()
    ensures { (reading : Reading) (setting : Setting) (state : State) (name bytes : List ℕ) (rows : RowTree) →
        rows_of setting.enabled bytes ≡ listed rows → AreWhole rows
        → of_text reading setting state name bytes
        ≡ read (alone reading setting (number_of name state.files) name) (number_of name state.files) rows state }
{}

/// What stands behind a branch whose condition holds changes nothing, up to the `#endif`: its conditions are not asked,
/// and their faults are not told.
pub fn nothing_behind_is_asked()
    ensures { (does : Row → State → Outcome State) (file : ℕ) (state : State) (directive : Row) (inside : RowTree) (others : BranchList) →
        condition state.history directive ≡ Some true
        → read_first does file (branch directive inside others) state ≡ read does file inside state }
{}

/// Where a branch around them is not read, whole rows change nothing: no branch of their conditionals is read, and no condition is asked.
pub fn unread_rows_do_nothing()
    ensures { (reading : Reading) (setting : Setting) (file : ℕ) (own : List ℕ) (rows : RowTree) (pass : Pass) → AreWhole rows →
        is_read pass.branches ≡ false
        → of_rows reading setting file own (listed rows) pass ≡ Ok pass }
{}

/// The rows of each file that is read to its end are such a tree.
pub fn files_are_whole()
    ensures { (reading : Reading) (setting : Setting) (state later : State) (name bytes : List ℕ) →
        of_text reading setting state name bytes ≡ Ok later
        → (rows : RowTree) × AreWhole rows × (rows_of setting.enabled bytes ≡ listed rows) }
{}

/// What is cut into tokens is blanks, comments and tokens in turn, and of each token no longer front of what was left
/// is a token of any kind.
pub fn tokens_are_the_longest()
    ensures { (text : List MarkedByte) (done : List Token) (rest : List MarkedByte) → Cut text done rest → (parts : List Part)
        × Parts text parts rest × (tokens_in parts ≡ done) }
{}

/// The preprocessor and the lexer see the same strings and comments in lines: at each byte both see a string, or a
/// comment, or neither. What the lexer refuses as a comment or a string that does not end is one for the preprocessor,
/// up to the end of all lines and of its own line.
pub fn same_strings_and_comments()
    ensures whole { (lines : List Line) (parts : List Part) → All (λ l. All (λ b. b ≢ 10) l.text) lines → Parts (joined lines) parts [] →
        sights_of lines ≡ sights_in parts }
    ensures front { (lines : List Line) (parts : List Part) (rest : List MarkedByte) → All (λ l. All (λ b. b ≢ 10) l.text) lines →
        Parts (joined lines) parts rest
        → (more : List Sight) × (sights_of lines ≡ sights_in parts ++ more) }
    ensures open_comment { (lines : List Line) (parts : List Part) (a b : MarkedByte) (star : Bool) (inner : List MarkedByte) →
        All (λ l. All (λ b. b ≢ 10) l.text) lines → Parts (joined lines) parts (a ∷ b ∷ inner)
        → class a ≡ c.Slash → class b ≡ c.Star → Inside star inner []
        → sights_of lines ≡ sights_in parts ++ each InComment (a ∷ b ∷ inner) }
    ensures open_string { (lines : List Line) (parts : List Part) (q : MarkedByte) (string : Result (List ℕ) Fault)
        (inner rest : List MarkedByte) → All (λ l. All (λ b. b ≢ 10) l.text) lines → Parts (joined lines) parts (q ∷ inner)
        → class q ≡ c.Quote → Content string inner rest → Breaks rest
        → (w behind : List MarkedByte) × (q ∷ inner ≡ w ++ behind) × Each in_line w × Stops in_line behind
        × ((more : List Sight) × (sights_of lines ≡ sights_in parts ++ (each InString w ++ more))) }
{}

/// Each front of a source, tokens that some further ones complete to one, has exactly one depth by the productions
/// alone, and nothing else has one.
pub fn each_front_has_one_depth()
    ensures some { (ms : List Mark) → IsFront ms → (d : ℕ) × OpensInSource ms d }
    ensures one { (ms : List Mark) (d e : ℕ) → OpensInSource ms d → OpensInSource ms e → d ≡ e }
    ensures front { (ms : List Mark) (d : ℕ) → OpensInSource ms d → IsFront ms }
{}

/// By what the parser holds more than a limit is open at the end of a front exactly where its depth by the productions
/// is above the limit. So the token at which the parser finds that too much is open is the first one at whose end this
/// is so, and it finds none exactly where there is none.
pub fn too_deep_by_the_productions()
    ensures deeper { (limit : ℕ) (ms : List Mark) → IsDeeper limit ms → (d : ℕ) × (limit < d) × OpensInSource ms d }
    ensures opens { (limit : ℕ) (ms : List Mark) (d : ℕ) → limit < d → OpensInSource ms d → IsDeeper limit ms }
    ensures first { (limit : ℕ) (ms : List Mark) (k : ℕ) → OpensTooMuch limit ms k → IsFirstTooDeep limit ms k }
    ensures found { (limit : ℕ) (ms : List Mark) (k : ℕ) → IsFirstTooDeep limit ms k → OpensTooMuch limit ms k }
    ensures shallow { (limit : ℕ) (ms : List Mark) → IsShallow limit ms → (j d : ℕ) → OpensInSource (take j ms) d → d ≤ limit }
    ensures low { (limit : ℕ) (ms : List Mark) → ((j d : ℕ) → OpensInSource (take j ms) d → d ≤ limit) → IsShallow limit ms }
{}
