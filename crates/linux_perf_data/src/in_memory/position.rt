//! Where the records of a file in memory continue, as numbers that outlive a reader.
ghost use Rattle.std.specs.Prelude.{◌≡◌};

use crate::in_memory::{InMemoryReader, InMemoryRecords};
use perfdata_sections::error::Error;
use std::alloc::Global;

/// A position among the records of a file. That of zeros is the position of the first record.
#[repr(C)]
#[derive(Clone, Copy, Debug, PartialEq, Eq)]
pub struct RecordPosition {
    /// The offset in bytes from the first record.
    pub offset: u64,
    /// The number of round markers (FINISHED_ROUND) before the offset.
    pub round: u64,
}

const _: () = prove!(size_of::<RecordPosition>() == 16);

impl InMemoryRecords<'_> {
    ghost use Rattle.linux_perf_data.specs.InMemoryPositions.{position_of};

    /// Returns the position of the next record or of the markers before it.
    pub fn position(&self) -> RecordPosition
        ensures { result ≡ position_of self.now }
    {
        RecordPosition {
            offset: self.records.offset,
            round: self.records.round,
        }
    }
}

impl<'a> InMemoryReader<'a> {
    ghost use Rattle.linux_perf_data.specs.InMemoryPositions.{ParsesFileAt};

    /// Opens a perf.data file in memory, as `parse_file` does, with the records from a position on.
    ///
    /// The first record header is read at the offset, also if no record starts there. No records are there if
    /// the offset is past the end of the data section. A round above the offset is replaced by the offset.
    ///
    /// # Errors
    ///
    /// The errors are those of `parse_file`.
    pub fn parse_file_from_position(
        alloc: Global,
        bytes: &'a [u8],
        position: RecordPosition,
    ) -> Result<InMemoryReader<'a>, Error>
        ensures { ParsesFileAt bytes.now position result }
    {
        let reader = InMemoryReader::parse_file(alloc, bytes)?;
        let first_record_offset = reader.records.first_record_offset;
        let mut moved = reader.records.records;
        // For the prover: the input is shorter than the largest position of a cursor.
        let _size = bytes.len();
        moved
            .source
            .set_position(first_record_offset.saturating_add(position.offset));
        moved.offset = position.offset;
        moved.round = position.round.min(position.offset);
        let records = InMemoryRecords {
            records: moved,
            input: bytes,
            first_record_offset,
        };
        Ok(InMemoryReader {
            perf_file: reader.perf_file,
            records,
        })
    }
}
