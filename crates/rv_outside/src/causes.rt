// Counting.
ghost use Rattle.std.specs.Prelude.{◌≤◌};
ghost use Rattle.rv_outside.specs.Causes.{Rose};

// Raises a count by one, up to the last value of its type.
pub fn raise(count: &mut u64)
    ensures rose { Rose count.old count.new }
    ensures later { count.old ≤ count.new }
{
    *count = count.saturating_add(1);
}
