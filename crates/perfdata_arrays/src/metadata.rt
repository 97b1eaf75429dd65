//! The metadata of recordings in memory.
ghost use Rattle.perfdata_arrays.specs.steps.Metadata.{ReadsFileMetadata, ReadsPipeMetadata};

use crate::opening::{Recording, open};
use crate::records::walk;
use crate::status::{Status, status_of_end};
use linux_perf_data::PerfFile;
use linux_perf_data::in_memory::position::RecordPosition;
use std::alloc::Global;

/// The position of a file's first record.
pub(crate) const FIRST_RECORD: RecordPosition = RecordPosition {
    offset: 0,
    round: 0,
};

// The metadata of a recording.
#[derive(Drop)]
pub(crate) struct Metadata {
    pub(crate) perf_file: PerfFile,
    // Success, or the status of the first error after the opening.
    pub(crate) status: Status,
}

// Opens a file.
pub(crate) fn file_metadata(alloc: Global, bytes: &[u8]) -> Result<Metadata, Status>
    ensures { ReadsFileMetadata bytes.now result }
{
    let reader = open(alloc, bytes, Recording::File(FIRST_RECORD))?;
    Ok(Metadata {
        perf_file: reader.perf_file,
        status: Status::Success,
    })
}

// Reads a pipe to its end or to its first error.
pub(crate) fn pipe_metadata(alloc: Global, bytes: &[u8]) -> Result<Metadata, Status>
    ensures { ReadsPipeMetadata bytes.now result }
{
    let reader = open(alloc, bytes, Recording::Pipe)?;
    let mut perf_file = reader.perf_file;
    let mut input = reader.records;
    let walked = walk(&mut input, &mut perf_file, 0, &mut []);
    let status = status_of_end(&walked.end);
    Ok(Metadata { perf_file, status })
}
