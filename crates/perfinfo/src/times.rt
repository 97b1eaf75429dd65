//! Displays times and durations in seconds.
use std::fmt;
use std::fmt::{Display, Write};

// Nanoseconds in a second, and in the units of the last digits.
const SECOND: u64 = 1_000_000_000;

const MICROSECOND: u64 = 1_000;

const HUNDREDTH: u64 = 10_000_000;

/// Displays a time in nanoseconds as seconds, cut to microseconds.
#[derive(Clone, Copy)]
pub struct Seconds(pub u64);

impl Display for Seconds {
    fn fmt<W: fmt::Write>(&self, f: &mut fmt::Formatter<W>) -> fmt::Result {
        write!(
            f,
            "{}.{:06}",
            self.0 / SECOND,
            self.0 % SECOND / MICROSECOND
        )
    }
}

/// Displays the time between two times in nanoseconds as seconds with two decimals, rounded half up.
#[derive(Clone, Copy)]
pub struct Duration(pub u64);

impl Display for Duration {
    fn fmt<W: fmt::Write>(&self, f: &mut fmt::Formatter<W>) -> fmt::Result {
        let hundredths = self.0.saturating_add(HUNDREDTH / 2) / HUNDREDTH;
        write!(f, "{}.{:02} s", hundredths / 100, hundredths % 100)
    }
}
