//! The records of a pipe, also of one with compressed records.

use linux_perf_data::source::Counted;
use linux_perf_data::{Error, PerfFileReader};
use perfdata_compressed::DecompressedPipe;
use std::alloc::Global;
use std::io::{BufReader, Read};

/// Returns the number of records of a pipe, those in compressed records among them.
pub fn count_records<R: Read + Drop>(alloc: Global, pipe: R) -> Result<u64, Error> {
    let bytes = DecompressedPipe::new(alloc, pipe)?;
    let source = Counted::new(BufReader::new(alloc, bytes)?);
    let reader = PerfFileReader::parse_pipe(alloc, source)?;
    let mut perf_file = reader.perf_file;
    let mut records = reader.record_iter;
    let mut count = 0u64;
    for _ in 0..u64::MAX {
        if records.next_record(&mut perf_file)?.is_none() {
            break;
        }
        count = count.saturating_add(1);
    }
    Ok(count)
}
