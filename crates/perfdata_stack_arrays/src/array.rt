//! Counts that don't wrap.
ghost use Rattle.std.specs.Prelude.{◌≡◌, ◌+◌};
ghost use Rattle.perfdata_stack_arrays.specs.Arrays.{saturated};

// The sum of two counts, or the greatest of 64 bits if it is greater.
pub(crate) fn add_counts(count: usize, more: usize) -> usize
    ensures { result ≡ saturated (count + more) }
{
    count.saturating_add(more)
}
