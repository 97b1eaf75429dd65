//! Counts by key and their order, counts of records by type, and copies of bytes that are keys.
use crate::names::RecordTypes;
use crate::report::{Named, Report};
use linux_perf_data::raw::RawData;
use std::alloc::{AllocError, Global};
use std::cmp::Reverse;
use std::collections::BTreeMap;

/// A key and its count.
pub(crate) type CountOf<'a, K> = (&'a K, &'a u64);

/// Adds one to the count of a key.
pub(crate) fn count_one<K: Ord + Drop>(
    counts: &mut BTreeMap<K, u64>,
    key: K,
) -> Result<(), AllocError> {
    match counts.get_mut(&key) {
        Some(count) => *count = count.saturating_add(1),
        None => {
            counts.insert(key, 1)?;
        }
    }
    Ok(())
}

// The key of an entry that orders entries by decreasing count.
fn most_first<K>(entry: &CountOf<'_, K>) -> Reverse<u64> {
    Reverse(*entry.1)
}

/// Returns the counts, ordered by decreasing count and then by key.
pub(crate) fn ranked<K: Ord>(
    alloc: Global,
    counts: &BTreeMap<K, u64>,
) -> Result<Vec<CountOf<'_, K>>, AllocError> {
    let mut entries: Vec<CountOf<'_, K>> = counts.iter().collect(alloc)?;
    entries.sort_by_key(most_first)?;
    Ok(entries)
}

/// Writes the number of records of each type.
pub(crate) fn show_types(types: RecordTypes, counts: &BTreeMap<u32, u64>, report: &mut Report) {
    report.number("records by type", counts.len() as u64);
    for (record_type, count) in counts.iter() {
        report.item(Named(types.name(*record_type), *record_type), *count);
    }
}

/// Copies the bytes to a `Vec`.
pub(crate) fn to_vec(alloc: Global, bytes: RawData<'_>) -> Result<Vec<u8>, AllocError> {
    bytes.as_slice(alloc)?.into_owned(alloc)
}
