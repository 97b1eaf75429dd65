//! Laws of a reading in memory: it returns what a streaming reading of the same bytes returns.
ghost use Rattle.linux_perf_data.specs.InMemoryReading.{NoCallsInMemory, OneCallMoreInMemory, ReturnsSameEnd};
ghost use Rattle.linux_perf_data.specs.InMemoryReading.{ReturnsSameError, ReturnsSameRecords};

/// Extends consecutive calls of `InMemoryRecords::next_record` by one call.
pub fn consecutive_calls()
    ensures none { NoCallsInMemory }
    ensures more { OneCallMoreInMemory }
{}

/// Over the same bytes, `PerfRecordIter::next_record` returns the same records and then the same end or the
/// same error.
///
/// With `laws::file_reading` and `laws::pipe_reading`, the records are therefore those of the layout.
pub fn same_as_streaming()
    ensures records { ReturnsSameRecords }
    ensures end { ReturnsSameEnd }
    ensures error { ReturnsSameError }
{}
