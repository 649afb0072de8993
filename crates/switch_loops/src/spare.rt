//! The Locals that a method leaves to its Switches.
ghost use Rattle.std.specs.Prelude.{◌≡◌, drop, slice_get};
ghost use Rattle.hidden_locals.specs.Turns.{nth};

fn found_at(locals: &[u8], index: usize) -> Option<u8>
    ensures { result ≡ slice_get locals.now index }
{
    locals.get(index).copied()
}

/// The Local at a place; Local0 stands for all that are missing.
#[tactic(auto, using(crate::proofs::Marks::nth_found, crate::proofs::Marks::nth_none))]
pub(crate) fn local_at(locals: &[u8], index: usize) -> u8
    ensures { result ≡ nth locals.now index }
{
    match found_at(locals, index) {
        Some(local) => local,
        None => 0,
    }
}

/// The Locals behind the first one.
pub(crate) fn later(locals: &[u8]) -> &[u8]
    ensures { result.now ≡ drop 1 locals.now }
{
    if locals.is_empty() {
        return locals;
    }
    &locals[1..]
}
