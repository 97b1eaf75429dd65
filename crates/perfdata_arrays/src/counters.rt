//! The counter values of samples and READ records: those of a perf.data file in pages, and those of a pipe.
ghost use Rattle.std.specs.Prelude.{◌≡◌, ℕ, false, length};
ghost use Rattle.linux_perf_data.specs.RecordEntries.{with_prefix};
ghost use Rattle.perfdata_events.specs.ReadValues.{counter_count};
ghost use Rattle.perfdata_arrays.specs.Counters.{ReadsCounterPage, ReadsPipeCounters, counter_entries};
ghost use Rattle.perfdata_arrays.specs.Counters.{event_counters, event_values, group_entries, group_entry};
ghost use Rattle.perfdata_arrays.specs.Counters.{is_counter_type, single_entry};

use crate::array::write_entry;
use crate::envelope::EntryEnvelope;
use crate::event_entries::{EventEntries, EventEntry};
use crate::pages::{PageResult, file_page, pipe_page};
use linux_perf_data::event::RecordType;
use linux_perf_data::in_memory::position::RecordPosition;
use perfdata_events::event::EventRecord;
use perfdata_events::read_values::{CounterValue, GroupValues, ReadValues, SingleValues};
use std::alloc::Global;

/// The value of a counter, as plain numbers: `struct read_format` of Linux's `perf_event.h`. What the read
/// format of its record's attribute doesn't select is 0.
#[repr(C)]
#[derive(Clone, Copy, Debug, Default, PartialEq, Eq)]
pub struct CounterEntry {
    /// The value.
    pub value: u64,
    /// The identifier of the event.
    pub id: u64,
    /// The time that the event, or its group, was enabled, in nanoseconds.
    pub time_enabled: u64,
    /// The time that the event, or its group, was counted, in nanoseconds.
    pub time_running: u64,
    /// The number of lost samples.
    pub lost: u64,
    /// The offset in bytes of the sample or READ record that has the value, counted from the first record.
    pub sample: u64,
}

const _: () = prove!(size_of::<CounterEntry>() == 48);

// The entry of a single counter.
fn single_entry(offset: u64, single: &SingleValues) -> CounterEntry
    ensures { result ≡ single_entry offset single.now }
{
    CounterEntry {
        value: single.value,
        id: single.id.unwrap_or(0),
        time_enabled: single.time_enabled.unwrap_or(0),
        time_running: single.time_running.unwrap_or(0),
        lost: single.lost.unwrap_or(0),
        sample: offset,
    }
}

// The entry of a counter of a group.
fn group_entry(offset: u64, group: &GroupValues<'_>, counter: CounterValue) -> CounterEntry
    ensures { result ≡ group_entry offset group.now counter }
{
    CounterEntry {
        value: counter.value,
        id: counter.id.unwrap_or(0),
        time_enabled: group.time_enabled.unwrap_or(0),
        time_running: group.time_running.unwrap_or(0),
        lost: counter.lost.unwrap_or(0),
        sample: offset,
    }
}

// Writes the entries of a group's counters, up to the capacity of `counters`. Returns the number of all.
fn write_group(offset: u64, group: &GroupValues<'_>, counters: &mut [CounterEntry]) -> usize
    ensures count { result ≡ counter_count group.now }
    ensures written { counters.new ≡ with_prefix (group_entries offset group.now (counter_count group.now))
        counters.old }
{
    let count = group.len();
    let mut index = 0;
    'counters: while let Some(counter) = group.get(index) {
        let entry = group_entry(offset, group, counter);
        write_entry(counters, index, entry);
        index += 1;
    }
    count
}

/// Writes the entries of counter values in the record at this offset, up to the capacity of `counters`.
pub fn write_counters(offset: u64, values: &Option<ReadValues<'_>>, counters: &mut [CounterEntry])
    ensures { counters.new ≡ with_prefix (counter_entries offset values.now) counters.old }
{
    match values {
        None => {}
        Some(ReadValues::Single(single)) => {
            write_entry(counters, 0, single_entry(offset, single));
        }
        Some(ReadValues::Group(group)) => {
            let _count = write_group(offset, group, counters);
        }
    }
}

/// Returns the number of counter values.
#[tactic(auto, using(crate::proofs::CounterLemmas::count_of_group))]
pub fn count_counters(values: &Option<ReadValues<'_>>) -> usize
    ensures { (offset : ℕ) → result ≡ length (counter_entries offset values.now) }
{
    match values {
        None => 0,
        Some(ReadValues::Single(_)) => 1,
        Some(ReadValues::Group(group)) => group.len(),
    }
}

/// Returns the counter values of a parsed record: a READ record, or a sample that has some.
pub fn values_of_event<'a>(event: &EventRecord<'a>) -> Option<ReadValues<'a>>
    ensures { result ≡ event_values event.now }
{
    match event {
        EventRecord::Read(read) => Some(read.values),
        EventRecord::Sample(sample) => sample.values,
        _ => None,
    }
}

impl EventEntry for CounterEntry {
    ghost has_type = { is_counter_type };

    ghost entries_of = { event_counters };

    ghost is_single = { false };

    fn is_of_type(record_type: u32) -> bool {
        record_type == RecordType::READ.0 || record_type == RecordType::SAMPLE.0
    }

    fn entry_count(event: &EventRecord<'_>) -> usize {
        count_counters(&values_of_event(event))
    }

    fn write(envelope: EntryEnvelope, event: &EventRecord<'_>, counters: &mut [CounterEntry]) {
        write_counters(envelope.offset, &values_of_event(event), counters);
    }
}

/// Writes the counter values of a perf.data file's samples and READ records from a position on, and moves the
/// position past these records.
///
/// Writes the values of as many records as `counters` has capacity for, and reads no record after them. The
/// elements after the last written one are unchanged. A record that can't be parsed is left out.
///
/// A call with the moved position writes the values that follow. If `count` is 0 and the status is `Success`,
/// the file has no more, or `counters` has no elements.
///
/// If the next record has more values than `counters` has elements, the status is `NoSpace`, `count` is their
/// number and the position is that of the record or of the markers before it.
///
/// The other errors are those of `records::file_records`.
pub fn file_counters(
    alloc: Global,
    bytes: &[u8],
    position: &mut RecordPosition,
    counters: &mut [CounterEntry],
) -> PageResult
    ensures { ReadsCounterPage bytes.now position.old counters.old result position.new counters.new }
{
    file_page::<EventEntries<CounterEntry>>(alloc, bytes, position, counters, &mut [])
}

/// Writes the counter values of a perf.data pipe's samples and READ records, up to the capacity of
/// `counters`.
///
/// The records are those after the metadata records that open the pipe. `count` counts all values. The
/// elements after the last written one are unchanged. If the pipe doesn't open, `count` is 0. At an error, it
/// counts the values of the records before it. A record that can't be parsed is left out.
///
/// The errors are those of `records::pipe_records`.
pub fn pipe_counters(alloc: Global, bytes: &[u8], counters: &mut [CounterEntry]) -> PageResult
    ensures { ReadsPipeCounters bytes.now counters.old result counters.new }
{
    pipe_page::<EventEntries<CounterEntry>>(alloc, bytes, counters, &mut [])
}
