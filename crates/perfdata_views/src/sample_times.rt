//! The samples of a page, in order, as bytes.

use perfdata_profile::sample_list::{ListedSample, SampleList};
use std::alloc::{AllocError, Global};

/// Where the samples with a key are in a profile for pprof.
#[derive(Clone, Copy)]
pub(crate) struct SamplePlace {
    /// The index of the sample that adds them up.
    pub(crate) sample: usize,
    /// The index of the values that have their weights, after the number of samples.
    pub(crate) column: usize,
}

// What the samples so far say of the next one.
#[derive(Clone, Copy)]
struct Last {
    /// The number of indices of samples that were used.
    used: usize,
    time: u64,
    weight: u64,
    column: usize,
}

// Bits of the first number of a sample.
const HAS_TIME: u64 = 1;

const HAS_WEIGHT: u64 = 1 << 1;

const HAS_COLUMN: u64 = 1 << 2;

// The number of these bits.
const FLAGS: u64 = 8;

// The largest number of bytes of a number.
const MOST_BYTES: usize = 10;

// Appends a number, seven bits a byte, the lowest first.
fn push_number(bytes: &mut Vec<u8>, number: u64) -> Result<(), AllocError> {
    let mut rest = number;
    for _ in 0..MOST_BYTES {
        if rest < 128 {
            break;
        }
        bytes.push((rest % 128) as u8 | 128)?;
        rest /= 128;
    }
    bytes.push((rest % 128) as u8)?;
    Ok(())
}

// Appends how much a number is greater than the last one: twice that, or twice how much it is less, and one.
fn push_difference(bytes: &mut Vec<u8>, last: u64, number: u64) -> Result<(), AllocError> {
    if number >= last {
        push_number(bytes, (number - last).saturating_mul(2))
    } else {
        push_number(bytes, (last - number).saturating_mul(2).saturating_add(1))
    }
}

// Returns the code of an index: 0 of the next one that wasn't used before, else how far before that it is.
fn index_code(used: usize, index: usize) -> u64 {
    if index >= used {
        0
    } else {
        (used - index) as u64
    }
}

// Appends a sample. Returns what it says of the next one.
fn push_sample(
    bytes: &mut Vec<u8>,
    last: Last,
    sample: ListedSample,
    place: SamplePlace,
) -> Result<Last, AllocError> {
    let mut first = index_code(last.used, place.sample).saturating_mul(FLAGS);
    if sample.time.is_some() {
        first |= HAS_TIME;
    }
    if sample.weight != last.weight {
        first |= HAS_WEIGHT;
    }
    if place.column != last.column {
        first |= HAS_COLUMN;
    }
    push_number(bytes, first)?;
    let time = sample.time.unwrap_or(last.time);
    if sample.time.is_some() {
        push_difference(bytes, last.time, time)?;
    }
    if sample.weight != last.weight {
        push_number(bytes, sample.weight)?;
    }
    if place.column != last.column {
        push_number(bytes, place.column as u64)?;
    }
    Ok(Last {
        used: last.used.max(place.sample.saturating_add(1)),
        time,
        weight: sample.weight,
        column: place.column,
    })
}

/// Returns the samples of a profile, which are at places of one for pprof, as bytes: the number of samples
/// and, for each, its index in eights with three flags (it has a time, another weight than the last one,
/// values of another index), and then these. An index that is used first is the next one.
///
/// Fails if memory runs out.
pub(crate) fn sample_times(
    alloc: Global,
    samples: &SampleList,
    places: &[SamplePlace],
) -> Result<Vec<u8>, AllocError> {
    let mut bytes = Vec::new(alloc);
    push_number(&mut bytes, samples.len() as u64)?;
    let mut last = Last {
        used: 0,
        time: 0,
        weight: 0,
        column: 0,
    };
    for index in 0..samples.len() {
        if let Some(sample) = samples.get(index)
            && let Some(place) = places.get(sample.entry)
        {
            last = push_sample(&mut bytes, last, sample, *place)?;
        }
    }
    Ok(bytes)
}
