//! Parts of the width of the graph.
ghost use Rattle.std.specs.Prelude.{◌≡◌, ◌-◌};

/// The samples from one up to another, in the order of the boxes.
#[derive(Clone, Copy, Debug, PartialEq, Eq)]
pub struct WidthSpan {
    /// The sum of the weights of the samples before it.
    pub start: u64,
    /// The sum of the weights of the samples up to its end.
    pub end: u64,
}

impl WidthSpan {
    /// Returns the sum of the weights of its samples.
    pub fn weight(self) -> u64
        ensures { result ≡ self.end - self.start }
    {
        self.end.saturating_sub(self.start)
    }
}

/// Returns a part of a total, in units of which the total has `units`, rounded down.
pub(crate) fn share(part: u64, total: u64, units: u64) -> u64 {
    if total == 0 {
        return 0;
    }
    let share = part as u128 * units as u128 / total as u128;
    u64::try_from(share).unwrap_or(u64::MAX)
}
