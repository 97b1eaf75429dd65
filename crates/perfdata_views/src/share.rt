//! Shares of a total in percent.

use std::fmt;
use std::fmt::{Display, Formatter};

/// A part of a total. It is displayed in percent with two decimals, rounded half up.
#[derive(Clone, Copy, Debug, PartialEq, Eq)]
pub struct Share {
    /// The part.
    pub part: u64,
    /// The total. Any part of 0 is 0 percent.
    pub total: u64,
}

impl Share {
    /// Returns the share in hundredths of a percent.
    pub fn hundredths(self) -> u64 {
        if self.total == 0 {
            return 0;
        }
        let (part, total) = (self.part as u128, self.total as u128);
        let rounded = (part * 20_000 + total) / (2 * total);
        u64::try_from(rounded).unwrap_or(u64::MAX)
    }
}

impl Display for Share {
    fn fmt<W: fmt::Write>(&self, f: &mut Formatter<W>) -> fmt::Result {
        let hundredths = self.hundredths();
        write!(f, "{}.{:02}%", hundredths / 100, hundredths % 100)
    }
}
