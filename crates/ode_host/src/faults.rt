//! Counts of faults.
ghost use Rattle.std.specs.Prelude.{◌≡◌, ◌+◌, ◌-◌, ◌^◌, ◌≤◌, min};

/// Raises a count, which stands still at its last value.
pub fn raise(count: &mut u64)
    ensures value { count.new ≡ min (count.old + 1) (2 ^ 64 - 1) }
    ensures later { count.old ≤ count.new }
{
    *count = count.saturating_add(1);
}
