//! The records in the order in which they apply.
ghost use Rattle.std.specs.Prelude.{◌≡◌};
ghost use Rattle.linux_perf_data.specs.PerfFile.{descriptions_of_file, endian_of_file};
ghost use Rattle.perfdata_stack_arrays.specs.HasTimes.{has_sample_id_all, has_times};

use bitflags::Flags;
use linux_perf_data::in_memory::InMemoryRecords;
use linux_perf_data::raw::Endianness;
use linux_perf_data::{Error, PerfFile, PerfFileRecord, RecordPlace};
use perfdata_events::sample_bits::EventFlags;
use perfdata_order::in_memory::InMemoryOrderedRecords;
use perfdata_sections::feature_sections::AttributeDescription;
use std::alloc::Global;

/// The records of a recording.
#[derive(Drop)]
pub(crate) enum Records<'a> {
    // In order of time.
    ByTime(InMemoryOrderedRecords<'a>),
    // In the order of the input.
    InInputOrder(InMemoryRecords<'a>),
}

// Whether the records of an event end with sample_id fields, if a little-endian compiler laid out its flags.
fn has_sample_id_all(event: &AttributeDescription) -> bool
    ensures { result ≡ has_sample_id_all event.now }
{
    EventFlags::from_bits_retain(event.attributes().flags.0).contains(EventFlags::SAMPLE_ID_ALL)
}

// Whether the reader knows the times of records that aren't samples.
fn has_times(perf_file: &PerfFile) -> bool
    ensures { result ≡ has_times (endian_of_file perf_file.now) (descriptions_of_file perf_file.now) }
{
    match perf_file.endian() {
        Endianness::LittleEndian => perf_file
            .event_attributes()
            .iter()
            .any(|event| has_sample_id_all(event)),
        Endianness::BigEndian => false,
    }
}

impl<'a> Records<'a> {
    ghost use Rattle.perfdata_stack_arrays.specs.Records.{ReturnsNext, StartsRecords};

    // Returns the records in order of time or, if only samples have times, in the order of the input.
    pub(crate) fn new(
        alloc: Global,
        perf_file: &PerfFile,
        records: InMemoryRecords<'a>,
    ) -> Records<'a>
        ensures { StartsRecords (has_times (endian_of_file perf_file.now)
            (descriptions_of_file perf_file.now)) records.entry result }
    {
        if has_times(perf_file) {
            Records::ByTime(InMemoryOrderedRecords::new(alloc, records))
        } else {
            Records::InInputOrder(records)
        }
    }

    // Returns the next record, or `None` at the end.
    pub(crate) fn next_record(
        &mut self,
        perf_file: &mut PerfFile,
    ) -> Result<Option<(RecordPlace, PerfFileRecord<'a>)>, Error>
        ensures { ReturnsNext self.old perf_file.old result self.new perf_file.new }
    {
        match self {
            Records::ByTime(records) => records.next_record(perf_file),
            Records::InInputOrder(records) => records.next_record(perf_file),
        }
    }
}
