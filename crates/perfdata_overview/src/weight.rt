//! What a sample counts.

ghost use Rattle.std.specs.Prelude.{◌≡◌, codes, IfSome};
ghost use Rattle.perfdata_overview.specs.declared.weight.WeightKind.TheVariants.{Period, Samples};

use bitflags::Flags;
use linux_perf_data::attr::PerfEventAttr;
use linux_perf_data::raw::Endianness;
use perfdata_events::sample::SampleRecord;
use perfdata_events::sample_bits::EventFlags;

/// What a sample counts.
#[derive(Clone, Copy, Debug, PartialEq, Eq)]
pub enum WeightKind {
    /// One.
    Samples,
    /// Its period.
    Period,
}

impl WeightKind {
    /// Returns what weights count.
    pub fn unit(self) -> &'static str
        ensures samples { self ≡ Samples → result.now ≡ codes "samples" }
        ensures period { self ≡ Period → result.now ≡ codes "events" }
    {
        match self {
            WeightKind::Samples => "samples",
            WeightKind::Period => "events",
        }
    }

    /// Returns what a sample of an event counts. One without a period has that of the event, or one if the
    /// event has a frequency.
    pub fn of_sample(
        self,
        attr: &PerfEventAttr,
        endian: Endianness,
        sample: &SampleRecord<'_>,
    ) -> u64
        ensures samples { self ≡ Samples → result ≡ 1 }
        ensures period { self ≡ Period → (IfSome sample.now.period (λ period. result ≡ period)) }
    {
        let flags = EventFlags::from_attribute(attr, endian);
        match (self, sample.period) {
            (WeightKind::Samples, _) => 1,
            (WeightKind::Period, Some(period)) => period,
            (WeightKind::Period, None) if flags.contains(EventFlags::FREQ) => 1,
            (WeightKind::Period, None) => attr.period_or_freq,
        }
    }
}
