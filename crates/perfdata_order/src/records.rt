//! The records of a recording in the order in which they apply.

use crate::big_endian::BigEndianRecords;
pub use crate::big_endian::find_format;
use crate::streaming::OrderedRecords;
use bitflags::Flags;
use linux_perf_data::raw::Endianness;
use linux_perf_data::{Error, PerfFile, PerfFileRecord, PerfRecordIter, RecordPlace};
use perfdata_base::source::Source;
use perfdata_events::sample_bits::EventFlags;
use std::alloc::Global;

/// The records of a recording.
#[derive(Drop)]
pub enum Records<R> {
    /// In order of time.
    Ordered(OrderedRecords<R>),
    /// Those of a big-endian machine, in order of time.
    BigEndian(BigEndianRecords<R>),
    /// In the order of the input.
    InInputOrder(PerfRecordIter<R>),
}

// Returns whether the records that aren't samples have times.
fn has_times(perf_file: &PerfFile) -> bool {
    for event in perf_file.event_attributes() {
        let flags = EventFlags::from_attribute(event.attributes(), perf_file.endian());
        if flags.contains(EventFlags::SAMPLE_ID_ALL) {
            return true;
        }
    }
    false
}

impl<R: Source> Records<R> {
    /// Returns the records in order of time or, if only samples have times, in the order of the input.
    pub fn new(alloc: Global, perf_file: &PerfFile, records: PerfRecordIter<R>) -> Records<R> {
        match (has_times(perf_file), perf_file.endian()) {
            (true, Endianness::LittleEndian) => {
                Records::Ordered(OrderedRecords::new(alloc, records))
            }
            (true, Endianness::BigEndian) => {
                Records::BigEndian(BigEndianRecords::new(alloc, records))
            }
            (false, _) => Records::InInputOrder(records),
        }
    }

    /// Returns the next record, or `None` at the end.
    pub fn next_record(
        &mut self,
        perf_file: &mut PerfFile,
    ) -> Result<Option<(RecordPlace, PerfFileRecord<'_>)>, Error> {
        match self {
            Records::Ordered(records) => records.next_record(perf_file),
            Records::BigEndian(records) => records.next_record(perf_file),
            Records::InInputOrder(records) => records.next_record(perf_file),
        }
    }
}
