//! Options without value that may stand together with every other.
ghost use Rattle.std.specs.Prelude.{◌≡◌, ◌||◌, ◌&&◌, not, None};
ghost use Rattle.iasl_options.specs.Switches as spec;

/// One such option.
#[derive(Clone, Copy, Debug, PartialEq, Eq)]
pub(crate) enum Switch {
    /// `-vi`: messages are printed in the brief form.
    Brief,
    /// `-we`: a source with a warning is refused.
    Strict,
    /// `-tc`: the bytes of the table are put as an array of C too.
    CText,
    /// `-l`: a listing of the source with the bytes of its table is put too.
    Listing,
    /// `-G`: the source is a generic data table.
    Generic,
    /// `-oi`: no integer is written by an opcode but the words Zero, One and Ones.
    LongIntegers,
    /// `-on`: names are not shortened.
    WrittenNames,
    /// `-of`: constants are not folded.
    Unfolded,
    /// `-oa`: `-of`, `-oi` and `-on` together.
    Unoptimised,
    /// `--wrap-externals`: Externals stand in Ifs that nothing enters.
    WrappedExternals,
    /// `--acpica`: outputs are named, and Externals written, as ACPICA's compiler does.
    Acpica,
    /// `-vs`: the program does not tell its name; it never does beside a compilation.
    NoSignon,
    /// `-w1`: warnings of the first level are told. All warnings are of the first level.
    FirstLevel,
    /// `-w2`: those of the second too.
    SecondLevel,
    /// `-w3`: those of the third too.
    ThirdLevel,
    /// `-vr`: remarks are not told.
    NoRemarks,
    /// `-ve`: errors alone are told.
    ErrorsAlone,
    /// `-va`: no message is told.
    NoMessages,
}

/// What the switches of a command line ask for.
#[derive(Clone, Copy, Debug, PartialEq, Eq)]
pub struct Switches {
    /// Whether messages are printed in the brief form (`-vi`).
    pub brief: bool,
    /// Whether a source with a warning is refused (`-we`).
    pub strict: bool,
    /// Whether the bytes of the table are put as an array of C too (`-tc`).
    pub c_text: bool,
    /// Whether a listing of the source with the bytes of its table is put too (`-l`).
    pub listing: bool,
    /// Whether the source is a generic data table (`-G`).
    pub generic: bool,
    /// Whether constants are folded (not with `-of` and `-oa`).
    pub fold: bool,
    /// Whether 0, 1 and Ones are written by their opcodes where they are literals too (not with `-oi` and `-oa`).
    pub short: bool,
    /// Whether names have their shortest spelling (not with `-on` and `-oa`).
    pub shorten: bool,
    /// Whether Externals stand in Ifs that nothing enters (`--wrap-externals` and `--acpica`).
    pub wrap: bool,
    /// Whether outputs are named as ACPICA's compiler names them (`--acpica`).
    pub acpica: bool,
    /// Whether remarks are told (not with `-vr`, `-ve` and `-va`).
    pub remarks: bool,
    /// Whether warnings are told (not with `-ve` and `-va`).
    pub warnings: bool,
    /// Whether errors are told (not with `-va`).
    pub errors: bool,
}

// The further switches, of the words that ACPICA's compiler has or that are our own.
fn further_switch(word: &[u8]) -> Option<Switch>
    ensures { result ≡ spec.further_of word.now }
{
    if word == b"--wrap-externals".as_slice() {
        return Some(Switch::WrappedExternals);
    }
    if word == b"--acpica".as_slice() {
        return Some(Switch::Acpica);
    }
    hiding_switch(word)
}

// The switches by which messages are not told.
fn hiding_switch(word: &[u8]) -> Option<Switch>
    ensures { result ≡ spec.hiding_of word.now }
{
    match word {
        b"-vr" => Some(Switch::NoRemarks),
        b"-ve" => Some(Switch::ErrorsAlone),
        b"-va" => Some(Switch::NoMessages),
        _ => level_switch(word),
    }
}

// The switches that change nothing here.
fn level_switch(word: &[u8]) -> Option<Switch>
    ensures { result ≡ spec.level_of word.now }
{
    match word {
        b"-vs" => Some(Switch::NoSignon),
        b"-w1" => Some(Switch::FirstLevel),
        b"-w2" => Some(Switch::SecondLevel),
        b"-w3" => Some(Switch::ThirdLevel),
        _ => None,
    }
}

/// The switch that is written so.
pub(crate) fn switch_of(word: &[u8]) -> Option<Switch>
    ensures { result ≡ spec.switch_of word.now }
{
    match word {
        b"-vi" => Some(Switch::Brief),
        b"-we" => Some(Switch::Strict),
        b"-tc" => Some(Switch::CText),
        b"-l" => Some(Switch::Listing),
        b"-G" => Some(Switch::Generic),
        b"-oi" => Some(Switch::LongIntegers),
        b"-on" => Some(Switch::WrittenNames),
        b"-of" => Some(Switch::Unfolded),
        b"-oa" => Some(Switch::Unoptimised),
        _ => further_switch(word),
    }
}

fn is_brief(switch: Switch) -> bool
    ensures { result ≡ spec.is_brief switch }
{
    matches!(switch, Switch::Brief)
}

fn is_strict(switch: Switch) -> bool
    ensures { result ≡ spec.is_strict switch }
{
    matches!(switch, Switch::Strict)
}

fn is_c_text(switch: Switch) -> bool
    ensures { result ≡ spec.is_c_text switch }
{
    matches!(switch, Switch::CText)
}

fn is_listing(switch: Switch) -> bool
    ensures { result ≡ spec.is_listing switch }
{
    matches!(switch, Switch::Listing)
}

fn is_generic(switch: Switch) -> bool
    ensures { result ≡ spec.is_generic switch }
{
    matches!(switch, Switch::Generic)
}

fn keeps_constants(switch: Switch) -> bool
    ensures { result ≡ spec.keeps_constants switch }
{
    matches!(switch, Switch::Unfolded | Switch::Unoptimised)
}

fn keeps_integers(switch: Switch) -> bool
    ensures { result ≡ spec.keeps_integers switch }
{
    matches!(switch, Switch::LongIntegers | Switch::Unoptimised)
}

fn keeps_names(switch: Switch) -> bool
    ensures { result ≡ spec.keeps_names switch }
{
    matches!(switch, Switch::WrittenNames | Switch::Unoptimised)
}

fn wraps_externals(switch: Switch) -> bool
    ensures { result ≡ spec.wraps_externals switch }
{
    matches!(switch, Switch::WrappedExternals | Switch::Acpica)
}

fn is_acpica(switch: Switch) -> bool
    ensures { result ≡ spec.is_acpica switch }
{
    matches!(switch, Switch::Acpica)
}

fn hides_remarks(switch: Switch) -> bool
    ensures { result ≡ spec.hides_remarks switch }
{
    matches!(
        switch,
        Switch::NoRemarks | Switch::ErrorsAlone | Switch::NoMessages
    )
}

fn hides_warnings(switch: Switch) -> bool
    ensures { result ≡ spec.hides_warnings switch }
{
    matches!(switch, Switch::ErrorsAlone | Switch::NoMessages)
}

fn hides_errors(switch: Switch) -> bool
    ensures { result ≡ spec.hides_errors switch }
{
    matches!(switch, Switch::NoMessages)
}

// Whether one thing is asked for, or the other.
fn either(one: bool, other: bool) -> bool
    ensures { result ≡ (one || other) }
{
    one || other
}

// Whether something is still done.
fn unless(done: bool, kept: bool) -> bool
    ensures { result ≡ (done && not kept) }
{
    done && !kept
}

impl Switches {
    /// No switch is given.
    pub fn new() -> Switches
        ensures { result ≡ spec.no_switch }
    {
        Switches {
            brief: false,
            strict: false,
            c_text: false,
            listing: false,
            generic: false,
            fold: true,
            short: true,
            shorten: true,
            wrap: false,
            acpica: false,
            remarks: true,
            warnings: true,
            errors: true,
        }
    }

    // With one more switch.
    pub(crate) fn with(self, switch: Switch) -> Switches
        ensures { result ≡ spec.with_switch self switch }
    {
        Switches {
            brief: either(self.brief, is_brief(switch)),
            strict: either(self.strict, is_strict(switch)),
            c_text: either(self.c_text, is_c_text(switch)),
            listing: either(self.listing, is_listing(switch)),
            generic: either(self.generic, is_generic(switch)),
            fold: unless(self.fold, keeps_constants(switch)),
            short: unless(self.short, keeps_integers(switch)),
            shorten: unless(self.shorten, keeps_names(switch)),
            wrap: either(self.wrap, wraps_externals(switch)),
            acpica: either(self.acpica, is_acpica(switch)),
            remarks: unless(self.remarks, hides_remarks(switch)),
            warnings: unless(self.warnings, hides_warnings(switch)),
            errors: unless(self.errors, hides_errors(switch)),
        }
    }
}
