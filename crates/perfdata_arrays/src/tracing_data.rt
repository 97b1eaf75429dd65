//! Whether a pipe has tracing data, which aren't records.
ghost use Rattle.std.specs.Prelude.{◌≡◌, ◌⊎◌};
ghost use Rattle.perfdata_arrays.specs.declared.status.Status.TheVariants.{Success, TracingData};

use crate::opening::{Recording, open};
use crate::status::Status;
use linux_perf_data::{PerfFileRecord, UserRecordType};
use std::alloc::Global;

// Whether a record says that tracing data follow it.
fn announces_tracing_data(record: &PerfFileRecord<'_>) -> bool {
    match record {
        PerfFileRecord::EventRecord { .. } => false,
        PerfFileRecord::UserRecord(user) => {
            user.record_type == UserRecordType::PERF_HEADER_TRACING_DATA
        }
    }
}

/// Returns `TracingData` if a pipe has the record HEADER_TRACING_DATA, as `perf record -o -` writes it for
/// tracepoints: the bytes after it aren't records, but the other calls read them as such. Otherwise it
/// returns `Success`, also if the pipe has an error.
pub fn check_tracing_data(alloc: Global, bytes: &[u8]) -> Status
    ensures { (result ≡ Success) ⊎ (result ≡ TracingData) }
{
    let Ok(reader) = open(alloc, bytes, Recording::Pipe) else {
        return Status::Success;
    };
    let mut perf_file = reader.perf_file;
    let mut records = reader.records;
    'records: for _ in 0..u64::MAX {
        match records.next_record(&mut perf_file) {
            Ok(Some((_, record))) => {
                if announces_tracing_data(&record) {
                    return Status::TracingData;
                }
            }
            Ok(None) | Err(_) => return Status::Success,
        }
    }
    Status::Success
}
