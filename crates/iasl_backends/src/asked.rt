//! Which outputs are asked for.
ghost use Rattle.std.specs.Prelude.{◌≡◌};
ghost use Rattle.iasl_backends.specs.Asked.{is_asked};

use crate::backend::Kind;

/// The outputs that are asked for: a template alone, or the table, and others beside it.
#[derive(Clone, Copy, Debug, PartialEq, Eq, Drop)]
pub struct Asked {
    pub template: bool,
    pub c_text: bool,
    pub listing: bool,
}

impl Asked {
    /// Whether outputs of a kind are asked for.
    pub fn has(&self, kind: Kind) -> bool
        ensures { result ≡ is_asked self.now kind }
    {
        match kind {
            Kind::RawAml => !self.template,
            Kind::CHex => self.c_text,
            Kind::Listing => self.listing,
            Kind::Template => self.template,
        }
    }
}
