//! Whether terms leave Locals enough for their Switches.
ghost use Rattle.std.specs.Prelude.{◌≡◌, true};
ghost use Rattle.asl_tree.specs.View.{trees_of};
ghost use Rattle.hidden_locals.specs.Switches.{is_enough as trees_are_enough};
ghost use Rattle.switch_loops.specs.Measures.{suffices as left_suffice};

use crate::locals::named_in;
use crate::measure::{Measure, measure_all};
use crate::standing::standing_in;
use asl_tree::term::Node;

// Whether so many Locals are enough for what is measured.
fn suffices(found: Measure, left: usize) -> bool
    ensures { result ≡ left_suffice found left }
{
    if found.crossed {
        found.levels < left
    } else {
        found.levels <= left
    }
}

/// Whether the terms of a method, or what of a block lies outside methods, leave a Local for each level of Switches in them,
/// and one more where a Continue leaves a Switch. Where the Locals that stand nowhere in the terms are enough, those that the terms name
/// are not looked for.
pub fn is_enough(terms: &[Node]) -> bool
    ensures { result ≡ trees_are_enough (trees_of terms.now) }
{
    let found = measure_all(terms);
    if found.levels == 0 && !found.crossed {
        return true;
    }
    let surely = suffices(found, standing_in(terms).left());
    if surely {
        return true;
    }
    suffices(found, named_in(terms).left())
}
