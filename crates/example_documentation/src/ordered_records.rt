//! The records of a file in order of time.

use linux_perf_data::source::Source;
use linux_perf_data::{Error, PerfFileReader};
use perfdata_order::streaming::OrderedRecords;
use std::alloc::Global;

/// Returns the longest time between a record and the next one, in nanoseconds. 0 stands for no time.
pub fn longest_pause<R: Source + Drop>(
    alloc: Global,
    reader: PerfFileReader<R>,
) -> Result<u64, Error> {
    let mut perf_file = reader.perf_file;
    let mut records = OrderedRecords::new(alloc, reader.record_iter);
    let mut previous = None;
    let mut longest = 0u64;
    for _ in 0..u64::MAX {
        let Some((place, _record)) = records.next_record(&mut perf_file)? else {
            break;
        };
        let time = place.timestamp.unwrap_or(0);
        if time == 0 {
            continue;
        }
        longest = longest.max(time.saturating_sub(previous.unwrap_or(time)));
        previous = Some(time);
    }
    Ok(longest)
}
