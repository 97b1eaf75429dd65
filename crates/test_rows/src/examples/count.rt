//! Formally verified functions that use the library: they count the records of a file and of a pipe in
//! memory. They prove from the library's public specifications alone that a count is the number of records in
//! the layout, and that an error is one of the bytes.
ghost use Rattle.std.specs.Prelude.{IfOk, IfErr};
ghost use Rattle.test_rows.specs.RecordCount.{HasRecordCount, HasPipeRecordCount, HasFileError};
ghost use Rattle.test_rows.specs.RecordCount.{HasPipeError};

use linux_perf_data::{Error, PerfFileReader, laws};
use std::alloc::Global;
use std::io::Cursor;

/// Returns the number of records in the layout of a perf.data file, without round markers, if the layout is
/// complete.
///
/// Fails if the file doesn't open, its layout has an error, or an allocation fails.
pub fn count_records(alloc: Global, bytes: &[u8]) -> Result<u64, Error>
    ensures count { IfOk result (λ count. HasRecordCount bytes.now count) }
    ensures error { IfErr result (HasFileError bytes.now) }
{
    laws::consecutive_calls::<Cursor<&[u8]>>();
    laws::file_reading::<Cursor<&[u8]>>();
    let reader = PerfFileReader::parse_file(alloc, Cursor::new(bytes))?;
    let mut perf_file = reader.perf_file;
    let mut records = reader.record_iter;
    let mut count = 0u64;
    'records: loop {
        match records.next_record(&mut perf_file) {
            Ok(Some((_place, _record))) => count += 1,
            Ok(None) => return Ok(count),
            Err(error) => return Err(error),
        }
    }
}

/// Returns the number of records in the layout of a perf.data pipe, without round markers and without the
/// metadata records of the opening, if the layout is complete.
///
/// Fails if the pipe doesn't open, its layout has an error, or an allocation fails.
pub fn count_pipe_records(alloc: Global, bytes: &[u8]) -> Result<u64, Error>
    ensures count { IfOk result (λ count. HasPipeRecordCount bytes.now count) }
    ensures error { IfErr result (HasPipeError bytes.now) }
{
    laws::consecutive_calls::<Cursor<&[u8]>>();
    laws::pipe_reading::<Cursor<&[u8]>>();
    let reader = PerfFileReader::parse_pipe(alloc, Cursor::new(bytes))?;
    let mut perf_file = reader.perf_file;
    let mut records = reader.record_iter;
    let mut count = 0u64;
    'records: loop {
        match records.next_record(&mut perf_file) {
            Ok(Some((_place, _returned))) => count += 1,
            Ok(None) => return Ok(count),
            Err(error) => return Err(error),
        }
    }
}
