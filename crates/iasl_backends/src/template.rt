//! The lines of a template.
ghost use Rattle.std.specs.Prelude.{◌≡◌, ◌++◌, ◌∷◌, [], false, OnOk};
ghost use Rattle.iasl_backends.specs.Lines.{piece_lines};

use crate::backend::{Backend, Kind};
use crate::taken::Taken;
use crate::text::put;
use iasl_messages::place::Piece;
use std::alloc::{AllocError, Global};

/// The output that is the lines of a template, which are the sources of its pieces.
#[derive(Drop)]
pub struct TemplateText {
    taken: Taken,
    text: Vec<u8>,
    done: bool,
    ghost lines: { text.items ≡ piece_lines taken },
}

impl TemplateText {
    /// The output before its first piece.
    pub fn new(alloc: Global) -> TemplateText
        ensures pieces { ⟦<TemplateText as Backend>⟧.pieces result ≡ [] }
        ensures open { ⟦<TemplateText as Backend>⟧.finished result ≡ false }
    {
        TemplateText {
            taken: Taken::new(alloc),
            text: Vec::new(alloc),
            done: false,
        }
    }
}

fn put_line(out: &mut Vec<u8>, piece: &Piece) -> Result<(), AllocError>
    ensures { OnOk result (out.new.items ≡ out.old.items ++ (piece.now.source ++ 10 ∷ [])) }
{
    put(out, piece.source.as_bytes())?;
    put(out, b"\n")
}

impl Backend for TemplateText {
    ghost use Rattle.iasl_backends.specs.declared.backend.Kind.TheVariants as kinds;

    ghost kind_of = { λ output. kinds.Template };

    ghost pieces = { λ output. output.taken };

    ghost finished = { λ output. output.done };

    fn kind(&self) -> Kind {
        Kind::Template
    }

    fn clear(&mut self) {
        self.done = false;
        self.taken.clear();
        self.text.clear();
    }

    // Without memory all pieces go.
    #[tactic(auto, using(crate::proofs::Steps::piece_lines_push))]
    fn piece(&mut self, piece: &Piece) -> Result<(), AllocError> {
        if put_line(&mut self.text, piece).is_err() || self.taken.push(piece).is_err() {
            self.taken.clear();
            self.text.clear();
            return Err(AllocError);
        }
        Ok(())
    }

    fn finish(&mut self) -> Result<(), AllocError> {
        self.done = true;
        Ok(())
    }

    fn text(&self) -> &[u8] {
        &self.text
    }
}
