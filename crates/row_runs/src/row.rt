//! A row: what is given to a run of the compiler, and what the run is to come to.

/// A file that is given.
#[derive(Drop)]
pub struct GivenFile {
    pub name: String,
    pub bytes: Vec<u8>,
}

/// Which bytes of an output are known.
#[derive(Clone, Copy, Debug, PartialEq, Eq, Drop)]
pub enum Part {
    /// All of them.
    Whole,
    /// Those behind the 36 bytes of a table's header.
    BehindHeader,
    /// The last ones.
    End,
}

/// What is known of an output that is to be put.
#[derive(Drop)]
pub struct KnownOutput {
    pub name: String,
    pub part: Part,
    pub bytes: Vec<u8>,
}

/// A run and what it is to come to.
#[derive(Drop)]
pub struct Row {
    /// By what a reader finds it.
    pub name: String,
    /// The words of a run before, whose outputs are further files; none where there is no such run.
    pub first: Vec<String>,
    /// The words of the call.
    pub words: Vec<String>,
    /// The files that there are.
    pub files: Vec<GivenFile>,
    /// The status that is wanted, where it is stated.
    pub status: Option<u8>,
    /// The text of the console, where it is stated.
    pub told: Option<Vec<u8>>,
    /// How the numbers of the messages begin whose lines alone are compared, with a blank between each two; nothing where all lines are.
    pub only: String,
    /// The names of all outputs in order, with a blank between each two, where they are stated.
    pub names: Option<String>,
    /// What is known of outputs.
    pub outputs: Vec<KnownOutput>,
}
