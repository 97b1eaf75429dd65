//! The number of samples, their times, and the weight that they have in common.

ghost use Rattle.std.specs.Prelude.{◌≡◌, ◌+◌, ◌-◌, ◌^◌, ◌||◌, false, None, Some, min};
ghost use Rattle.std.specs.Option.{option_map, option_or, unwrap_or};
ghost use Rattle.perfdata_overview.specs.Summaries.{first_weight_of, has_other_weight, joined_times};
ghost use Rattle.perfdata_overview.specs.Summaries.{time_between, times_of, weight_or_zero, weights_differ};

/// The number, the times and the common weight of samples.
#[derive(Clone, Copy, Debug)]
pub struct SampleSummary {
    /// The number of samples.
    pub samples: u64,
    // The first and the last time.
    times: Option<(u64, u64)>,
    // The weight of the first sample.
    weight: Option<u64>,
    // Whether a sample has another weight.
    differs: bool,
}

// The largest number of profile.proto.
const LARGEST: u64 = i64::MAX as u64;

impl SampleSummary {
    /// That of no samples.
    pub const NONE: SampleSummary = SampleSummary {
        samples: 0,
        times: None,
        weight: None,
        differs: false,
    };

    /// Returns that of a sample.
    pub fn of_sample(time: Option<u64>, weight: u64) -> SampleSummary
        ensures samples { result.samples ≡ 1 }
        ensures times { times_of result ≡ joined_times (option_map (λ t. (t, t)) time) None }
        ensures weight { first_weight_of result ≡ Some weight }
        ensures differs { has_other_weight result ≡ false }
    {
        SampleSummary {
            samples: 1,
            times: time.map(|time| (time, time)),
            weight: Some(weight),
            differs: false,
        }
    }

    /// Returns that of these samples and of others.
    pub fn with(self, other: SampleSummary) -> SampleSummary
        ensures samples { result.samples ≡ min (self.samples + other.samples) (2 ^ 64 - 1) }
        ensures times { times_of result ≡ joined_times (times_of self) (times_of other) }
        ensures weight { first_weight_of result ≡ option_or (first_weight_of self) (first_weight_of other) }
        ensures differs { has_other_weight result ≡ weights_differ self other }
    {
        let times = match (self.times, other.times) {
            (Some((first, last)), Some((other_first, other_last))) => {
                Some((first.min(other_first), last.max(other_last)))
            }
            (times, None) => times,
            (None, times) => times,
        };
        let differs = match (self.weight, other.weight) {
            (Some(weight), Some(other)) => weight != other,
            _ => false,
        };
        SampleSummary {
            samples: self.samples.saturating_add(other.samples),
            times,
            weight: self.weight.or(other.weight),
            differs: self.differs || other.differs || differs,
        }
    }

    /// Returns the time between the first and the last sample in nanoseconds, if samples have times.
    pub fn time_between(&self) -> Option<u64>
        ensures { result ≡ time_between self.now }
    {
        let (first, last) = self.times?;
        Some(last.saturating_sub(first))
    }

    /// Returns the time between the first and the last sample in nanoseconds, at most 2^63 - 1, or 0 if
    /// samples have no times.
    pub fn duration(&self) -> u64
        ensures { result ≡ min (unwrap_or (time_between self.now) 0) (2 ^ 63 - 1) }
    {
        self.time_between().unwrap_or(0).min(LARGEST)
    }

    /// Returns the weight that all samples have, or 0 if they differ.
    pub fn weight(&self) -> u64
        ensures { result ≡ weight_or_zero (has_other_weight self.now) (first_weight_of self.now) }
    {
        match self.weight {
            Some(weight) if !self.differs => weight,
            _ => 0,
        }
    }
}
