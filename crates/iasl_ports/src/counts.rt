//! Counts of faults.
ghost use Rattle.std.specs.Prelude.{◌≡◌, ◌+◌, ◌-◌, ◌^◌, ◌≤◌, min};

/// Counts one more. The count stops at the largest u64.
pub(crate) fn raise(count: &mut u64)
    ensures exact { count.new ≡ min (count.old + 1) (2 ^ 64 - 1) }
    ensures later { count.old ≤ count.new }
{
    *count = count.saturating_add(1);
}
