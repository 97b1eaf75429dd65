//! The heading of a profile.

use crate::sample_summary::SampleSummary;
use std::alloc::Global;
use std::io;
use std::io::Write;

// Nanoseconds in a hundredth of a second.
const HUNDREDTH: u64 = 10_000_000;

/// What a heading says.
#[derive(Clone, Copy)]
pub struct Heading<'a> {
    /// The names of the events that were counted.
    pub events: &'a [u8],
    /// The samples that were counted.
    pub counted: SampleSummary,
    /// The number of all samples of the recording.
    pub samples: u64,
    /// The recorded command, or nothing.
    pub command: &'a [u8],
    /// The number of samples that were lost.
    pub lost: u64,
}

impl Heading<'_> {
    /// Returns the text: `EVENTS: N samples of M, D s, COMMAND, K lost`. What isn't known is left out, and
    /// the number of all samples, if all were counted.
    ///
    /// Fails if memory runs out.
    pub fn text(&self, alloc: Global) -> io::Result<Vec<u8>> {
        let mut text = Vec::new(alloc);
        text.write_all(self.events)?;
        write!(text, ": {} samples", self.counted.samples)?;
        if self.counted.samples != self.samples {
            write!(text, " of {}", self.samples)?;
        }
        if let Some(time) = self.counted.time_between() {
            let hundredths = time.saturating_add(HUNDREDTH / 2) / HUNDREDTH;
            write!(text, ", {}.{:02} s", hundredths / 100, hundredths % 100)?;
        }
        if !self.command.is_empty() {
            text.write_all(b", ")?;
            text.write_all(self.command)?;
        }
        if self.lost != 0 {
            write!(text, ", {} lost", self.lost)?;
        }
        Ok(text)
    }
}
