//! Opens recordings in memory.
ghost use Rattle.perfdata_arrays.specs.Opening.{Opens};

use crate::status::{Status, status_of_error};
use linux_perf_data::in_memory::InMemoryReader;
use linux_perf_data::in_memory::position::RecordPosition;
use std::alloc::Global;

/// The layout of a recording, and for a file the position from which records are read.
#[derive(Clone, Copy, Debug)]
pub enum Recording {
    /// A perf.data file.
    File(RecordPosition),
    /// A perf.data pipe.
    Pipe,
}

/// Opens a recording in memory.
///
/// # Errors
///
/// Returns the status of the error of `InMemoryReader::parse_file` or `InMemoryReader::parse_pipe`.
pub fn open(alloc: Global, bytes: &[u8], recording: Recording) -> Result<InMemoryReader<'_>, Status>
    ensures { Opens bytes.now recording result }
{
    match recording {
        Recording::File(position) => match InMemoryReader::parse_file_from_position(
            alloc, bytes, position,
        ) {
            Ok(reader) => Ok(reader),
            Err(error) => Err(status_of_error(&error)),
        },
        Recording::Pipe => match InMemoryReader::parse_pipe(alloc, bytes) {
            Ok(reader) => Ok(reader),
            Err(error) => Err(status_of_error(&error)),
        },
    }
}
