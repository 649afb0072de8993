//! What is known of the names of a block, found once and lent to every check.
ghost use Rattle.std.specs.Prelude.{◌≡◌, IfOk};
ghost use Rattle.name_kinds.specs.Known.{KnowsItsTerms};

use crate::facts::{Facts, facts_of};
use acpi_names::index::{BlockNames, Index, names_of};
use acpi_names::mention::Mention;
use asl_tree::term::Node;
use std::alloc::{AllocError, Global};

/// What is known of the names of a block: what its terms say of its paths, and their mentions of names, in order.
pub struct Known<'a> {
    pub terms: &'a [Node],
    pub facts: Facts,
    pub mentions: Vec<Mention<'a>>,
}

// By hand, so that an owner lets go of it by one call (docs/DECISIONS.md).
impl<'a> Drop for Known<'a> {
    fn drop(self) {
        let Known {
            terms: _,
            facts: _,
            mentions: _,
        } = self;
    }
}

impl<'a> Known<'a> {
    /// The names, and of each path how many arguments calls have by what stands there. The terms are borrowed no more.
    pub fn into_names(self) -> (Index, Vec<Option<usize>>)
        ensures index { result.0 ≡ self.entry.facts.index }
        ensures calls { result.1 ≡ self.entry.facts.tables.calls }
    {
        let Known {
            terms: _,
            facts,
            mentions: _,
        } = self;
        facts.into_names()
    }
}

/// What is known of the names of a block (ACPI Specification 6.4, 5.3). The only error is want of memory.
pub fn known_of(alloc: Global, terms: &[Node]) -> Result<Known<'_>, AllocError>
    ensures terms { IfOk result (λ known. known.terms.now ≡ terms.now) }
    ensures known { IfOk result KnowsItsTerms }
{
    let BlockNames { index, mentions } = names_of(alloc, terms)?;
    let facts = facts_of(alloc, index, &mentions)?;
    Ok(Known {
        terms,
        facts,
        mentions,
    })
}
