//! Times as the values of options: seconds, or percent of the time of a recording.

use crate::filter::NumberRange;
use crate::lists::parse_number;
use std::alloc::{AllocError, Global};

// Nanoseconds in a second.
const SECOND: u64 = 1_000_000_000;

// The number of digits behind the point of a second.
const DIGITS: usize = 9;

// 100 %.
const WHOLE: u64 = 100 * SECOND;

/// A part of the time of a recording, from its first to its last sample.
#[derive(Clone, Copy, Debug, PartialEq, Eq)]
pub struct TimePart {
    /// The start in billionths of a percent, at most 100 %.
    pub start: u64,
    /// The end in billionths of a percent, at most 100 % and not less than the start.
    pub end: u64,
}

/// The times that are selected.
#[derive(Drop)]
pub(crate) enum TimeOption {
    /// In nanoseconds.
    Times(Vec<NumberRange>),
    /// Parts of the time of the recording.
    Parts(Vec<TimePart>),
}

// No time.
const EMPTY: NumberRange = NumberRange { first: 1, last: 0 };

// Returns a decimal number of at most nine digits behind the point, times 10^9.
fn parse_decimal(text: &str) -> Option<u64> {
    let (whole, digits) = text.split_once('.').unwrap_or((text, ""));
    let whole = parse_number(whole)?.checked_mul(SECOND)?;
    if digits.is_empty() {
        return Some(whole);
    }
    let missing = DIGITS.checked_sub(digits.len())?;
    let scale = 10u64.checked_pow(u32::try_from(missing).ok()?)?;
    parse_number(digits)?.checked_mul(scale)?.checked_add(whole)
}

// Returns the times of a text of the form `A,B`. Either may be empty.
fn parse_times(text: &str) -> Option<NumberRange> {
    let (first, last) = text.split_once(',')?;
    let first = if first.is_empty() {
        0
    } else {
        parse_decimal(first)?
    };
    let last = if last.is_empty() {
        u64::MAX
    } else {
        parse_decimal(last)?
    };
    if first <= last {
        Some(NumberRange { first, last })
    } else {
        None
    }
}

// Returns the number of a text of the form `A%`.
fn parse_percent(text: &str) -> Option<u64> {
    let percent = parse_decimal(text.strip_suffix('%')?)?;
    if percent <= WHOLE {
        Some(percent)
    } else {
        None
    }
}

// Returns the part of a text of the form `A%/N`, `A%-B%` or `A%`.
fn parse_part(text: &str) -> Option<TimePart> {
    if let Some((percent, number)) = text.split_once('/') {
        let size = parse_percent(percent)?;
        let before = parse_number(number)?.checked_sub(1)?;
        let start = size.checked_mul(before)?;
        let end = start.checked_add(size)?;
        return if end <= WHOLE {
            Some(TimePart { start, end })
        } else {
            None
        };
    }
    let (start, end) = match text.split_once('-') {
        Some((start, end)) => (parse_percent(start)?, parse_percent(end)?),
        None => (0, parse_percent(text)?),
    };
    if start <= end {
        Some(TimePart { start, end })
    } else {
        None
    }
}

// Parses times with a blank between them.
fn parse_all_times(alloc: Global, text: &str) -> Result<Option<TimeOption>, AllocError> {
    let mut times = Vec::new(alloc);
    for part in text.split(' ') {
        let Some(range) = parse_times(part) else {
            return Ok(None);
        };
        times.push(range)?;
    }
    Ok(Some(TimeOption::Times(times)))
}

// Parses parts with commas between them.
fn parse_all_parts(alloc: Global, text: &str) -> Result<Option<TimeOption>, AllocError> {
    let mut parts = Vec::new(alloc);
    for text in text.split(',') {
        let Some(part) = parse_part(text) else {
            return Ok(None);
        };
        parts.push(part)?;
    }
    Ok(Some(TimeOption::Parts(parts)))
}

/// Parses times `A,B` in seconds, or parts `A%-B%`, `A%` and `A%/N` of the time of the recording. Returns
/// `None` if a text has none of these forms, or if its end is before its start or after 100 %.
///
/// Fails if memory runs out.
pub(crate) fn parse_time_option(
    alloc: Global,
    text: &str,
) -> Result<Option<TimeOption>, AllocError> {
    if text.contains('%') {
        parse_all_parts(alloc, text)
    } else {
        parse_all_times(alloc, text)
    }
}

// Returns a part of a length, rounded half up.
fn rounded_part(length: u64, part: u64) -> u64 {
    let product = u128::from(length).saturating_mul(u128::from(part));
    let rounded = product.saturating_add(u128::from(WHOLE / 2)) / u128::from(WHOLE);
    u64::try_from(rounded).unwrap_or(u64::MAX)
}

impl TimePart {
    /// Returns the times of the part of a recording, whose samples have the times in a range. The last
    /// nanosecond doesn't belong to the part, unless it is that of the last sample.
    pub fn times(self, recorded: NumberRange) -> NumberRange {
        let length = recorded.last.saturating_sub(recorded.first);
        let first = recorded
            .first
            .saturating_add(rounded_part(length, self.start));
        let end = recorded
            .first
            .saturating_add(rounded_part(length, self.end));
        if end == recorded.last {
            return NumberRange { first, last: end };
        }
        match end.checked_sub(1) {
            Some(last) => NumberRange { first, last },
            None => EMPTY,
        }
    }
}
