//! Records in order of time.
ghost use Rattle.perfdata_arrays.specs.Sorting.{time_or_zero, SortsByTime};
ghost use Rattle.std.specs.Prelude.{◌≡◌};

use crate::status::Status;
use linux_perf_data::in_memory::entries::RecordEntry;
use std::alloc::Global;

// The time of a record in nanoseconds, or 0 if it has none.
fn sort_time(entry: &RecordEntry) -> u64
    ensures { result ≡ time_or_zero entry.now }
{
    if entry.has_timestamp == 0 || entry.timestamp == u64::MAX {
        0
    } else {
        entry.timestamp
    }
}

/// Sorts records by time. Records without a time come first, and records with one time keep their order.
///
/// The times 0 and 2^64 - 1 count as none.
///
/// # Errors
///
/// Returns `Status::OutOfMemory` if the allocation of a temporary array fails, which up to 20 records don't
/// need. The records are then unchanged. Every other result is `Status::Success`.
pub fn sort_records(alloc: Global, entries: &mut [RecordEntry]) -> Status
    ensures { SortsByTime entries.old result entries.new }
{
    match entries.sort_by_key(alloc, sort_time) {
        Ok(()) => Status::Success,
        Err(_) => Status::OutOfMemory,
    }
}
