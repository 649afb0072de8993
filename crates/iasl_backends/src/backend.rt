//! What an output is.
ghost use Rattle.std.specs.Prelude.{◌≡◌, ◌∷◌, ◌++◌, [], List, ℕ, Bool, true, false, OnOk};
ghost use Rattle.iasl_messages.specs.declared.place.Piece.{Piece as SpecPiece};
ghost use Rattle.iasl_backends.specs.Rendering.{rendering};

use iasl_messages::place::Piece;
use std::alloc::AllocError;

/// The kinds of outputs.
#[derive(Clone, Copy, Debug, PartialEq, Eq, Drop)]
pub enum Kind {
    /// The table itself.
    RawAml,
    /// The bytes of the table as an array of C.
    CHex,
    /// The lines of the source, each with the bytes that come from it.
    Listing,
    /// The lines of a template.
    Template,
}

/// An output of a compilation. It takes the pieces of a table in order, and then makes its text. After an error only
/// `clear` leads to a known state.
pub trait Backend: Drop {
    ghost use Rattle.iasl_backends.specs.declared.backend.Kind.{Kind};

    ghost kind_of: { Self → Kind };

    /// The pieces since the last `clear`.
    ghost pieces: { Self → List SpecPiece };

    /// Whether its text was made since the last `clear`.
    ghost finished: { Self → Bool };

    /// Its kind, which never changes.
    fn kind(&self) -> Kind
        ensures { result ≡ kind_of self.now };

    /// Lets all pieces go.
    fn clear(&mut self)
        ensures kind { kind_of self.new ≡ kind_of self.old }
        ensures pieces { pieces self.new ≡ [] }
        ensures open { finished self.new ≡ false };

    /// Takes the next piece of the table.
    fn piece(&mut self, piece: &Piece) -> Result<(), AllocError>
        requires { finished self.old ≡ false }
        ensures kind { kind_of self.new ≡ kind_of self.old }
        ensures pieces { OnOk result (pieces self.new ≡ pieces self.old ++ piece.now ∷ []) }
        ensures open { OnOk result (finished self.new ≡ false) };

    /// Makes the text of the pieces.
    fn finish(&mut self) -> Result<(), AllocError>
        requires { finished self.old ≡ false }
        ensures kind { kind_of self.new ≡ kind_of self.old }
        ensures pieces { OnOk result (pieces self.new ≡ pieces self.old) }
        ensures done { OnOk result (finished self.new ≡ true) };

    /// The text that `finish` made, in bytes.
    fn text(&self) -> &[u8]
        ensures { finished self.now ≡ true → result.now ≡ rendering (kind_of self.now) (pieces self.now) };
}
