//! What records say beside samples.

use crate::program::ExecutedProgram;
use linux_perf_data::UserRecordType;
use perfdata_events::event::EventRecord;
use std::alloc::{AllocError, Global};

// The types of the records that `perf stat` writes.
const STATISTICS: [UserRecordType; 3] = [
    UserRecordType::PERF_STAT_CONFIG,
    UserRecordType::PERF_STAT,
    UserRecordType::PERF_STAT_ROUND,
];

/// The first executable mapping of the program that was executed.
#[derive(Drop)]
pub struct MainFile {
    /// The start address.
    pub start: u64,
    /// The address after the last one, at most 2^64 - 1.
    pub end: u64,
    /// The offset of the start in the file, in bytes.
    pub page_offset: u64,
    /// The path of the file.
    pub path: Vec<u8>,
    /// The build id of the file, which is empty if it isn't known.
    pub build_id: Vec<u8>,
}

/// What records say beside samples.
#[derive(Drop)]
pub struct RecordNotes {
    /// The program that was executed.
    pub program: ExecutedProgram,
    /// The number of samples that were lost.
    pub lost: u64,
    /// The number of samples with fields that aren't known.
    pub undecoded: u64,
    /// Whether `perf stat` wrote records.
    pub has_statistics: bool,
    /// Whether a sample has no processor, and processors are selected.
    pub lacks_cpu: bool,
}

impl RecordNotes {
    /// Creates what no record says.
    pub fn new(alloc: Global) -> RecordNotes {
        RecordNotes {
            program: ExecutedProgram::new(alloc),
            lost: 0,
            undecoded: 0,
            has_statistics: false,
            lacks_cpu: false,
        }
    }

    /// Applies a record, in order of time. Returns the process and the address of the first executable
    /// mapping of the program that was executed, if the record has it.
    ///
    /// Fails if memory runs out.
    pub fn apply(&mut self, record: &EventRecord<'_>) -> Result<Option<(i32, u64)>, AllocError> {
        let lost = match record {
            EventRecord::Lost(lost) => lost.count,
            EventRecord::LostSamples(lost) => lost.count,
            _ => 0,
        };
        self.lost = self.lost.saturating_add(lost);
        self.program.apply(record)
    }

    /// Applies a record of perf itself.
    pub fn apply_user(&mut self, record_type: UserRecordType) {
        self.has_statistics |= STATISTICS.contains(&record_type);
    }
}
