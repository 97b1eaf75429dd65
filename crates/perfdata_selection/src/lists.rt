//! Lists of numbers as the values of options.

use crate::filter::NumberRange;
use std::alloc::{AllocError, Global};

// Returns the number of a text of decimal digits.
pub(crate) fn parse_number(text: &str) -> Option<u64> {
    if text.is_empty() || !text.bytes().all(|byte| byte.is_ascii_digit()) {
        return None;
    }
    text.parse::<u64>().ok()
}

// Returns the id of a text of decimal digits.
fn parse_id(text: &str) -> Option<i32> {
    i32::try_from(parse_number(text)?).ok()
}

// Returns the processors of a text of the form `3` or `0-3`.
fn parse_range(text: &str) -> Option<NumberRange> {
    let (first, last) = match text.split_once('-') {
        Some((first, last)) => (parse_number(first)?, parse_number(last)?),
        None => {
            let number = parse_number(text)?;
            (number, number)
        }
    };
    if first <= last {
        Some(NumberRange { first, last })
    } else {
        None
    }
}

/// Parses names with commas between them.
///
/// Fails if memory runs out.
pub(crate) fn parse_names(alloc: Global, text: &str) -> Result<Vec<&[u8]>, AllocError> {
    let mut names = Vec::new(alloc);
    for name in text.split(',') {
        names.push(name.as_bytes())?;
    }
    Ok(names)
}

/// Parses ids with commas between them. Returns `None` if one isn't a decimal number of at most 31 bits.
///
/// Fails if memory runs out.
pub(crate) fn parse_ids(alloc: Global, text: &str) -> Result<Option<Vec<i32>>, AllocError> {
    let mut ids = Vec::new(alloc);
    for part in text.split(',') {
        let Some(id) = parse_id(part) else {
            return Ok(None);
        };
        ids.push(id)?;
    }
    Ok(Some(ids))
}

/// Parses processors and ranges of them, with commas between them. Returns `None` if one is neither a decimal
/// number nor two with `-` between them, the first of which isn't greater.
///
/// Fails if memory runs out.
pub(crate) fn parse_ranges(
    alloc: Global,
    text: &str,
) -> Result<Option<Vec<NumberRange>>, AllocError> {
    let mut ranges = Vec::new(alloc);
    for part in text.split(',') {
        let Some(range) = parse_range(part) else {
            return Ok(None);
        };
        ranges.push(range)?;
    }
    Ok(Some(ranges))
}
