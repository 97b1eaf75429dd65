//! The bodies of single records: samples, tasks, mappings and counter values.
ghost use Rattle.std.specs.Prelude.{◌≡◌, ◌+◌, ◌<◌, ◌^◌, ◌-◌, true, length, min};
ghost use Rattle.std.specs.Option.{unwrap_or};
ghost use Rattle.linux_perf_data.specs.RecordEntries.{with_prefix};
ghost use Rattle.perfdata_arrays.specs.SampleRecords.{frames_of_body};
ghost use Rattle.perfdata_chunks.specs.Events.{ReadsEvent, envelope_of_entry};
ghost use Rattle.perfdata_chunks.specs.steps.Events.{WritesCounters, WritesParsed, WritesSample};
ghost use Rattle.perfdata_chunks.specs.steps.Events.{WritesValues};

use crate::single_records::{SingleRecord, find_record, status_of_body};
use bitflags::Flags;
use linux_perf_data::in_memory::entries::RecordEntry;
use perfdata_arrays::attrs::Attr;
use perfdata_arrays::counters::{CounterEntry, count_counters, values_of_event, write_counters};
use perfdata_arrays::envelope::EntryEnvelope;
use perfdata_arrays::mappings::{MappingEntry, event_mapping};
use perfdata_arrays::samples::body::SampleBody;
use perfdata_arrays::samples::frame::{FrameEntry, write_frames};
use perfdata_arrays::samples::sample::{Sample, SampleEnvelope};
use perfdata_arrays::status::Status;
use perfdata_arrays::tasks::{TaskEntry, event_task};
use perfdata_base::endian::Endianness;
use perfdata_base::event::RecordType;
use perfdata_events::event::EventRecord;
use perfdata_events::sample_bits::SampleFields;

/// The numbers of frames and of counter values of a record, and the status of the call.
#[derive(Clone, Copy, Debug, PartialEq, Eq)]
pub struct EventResult {
    /// The number of the frames of a sample's call chain.
    pub frames_count: u64,
    /// The number of counter values.
    pub counters_count: u64,
    /// Success, or the status of the first error.
    pub status: Status,
}

// A number, or the greatest of 32 bits if it is greater.
fn saturate(number: u64) -> u32
    ensures { result ≡ min number (2 ^ 32 - 1) }
{
    number.min(u32::MAX as u64) as u32
}

// Replaces a value if there is another one.
fn replace<T: Copy>(place: &mut T, found: Option<T>)
    ensures { place.new ≡ unwrap_or found place.old }
{
    if let Some(found) = found {
        *place = found;
    }
}

// What the entry of a body has of its record.
fn envelope_of_entry(entry: &RecordEntry) -> EntryEnvelope
    ensures { result ≡ envelope_of_entry entry.now }
{
    EntryEnvelope {
        offset: entry.offset,
        timestamp: entry.timestamp,
        body_offset: entry.body_offset,
        misc: entry.misc,
    }
}

// Writes the frames of a sample's call chain, up to the capacity. Returns the number of all.
fn write_chain(body: &SampleBody<'_>, frames: &mut [FrameEntry]) -> usize
    ensures count { result ≡ length (frames_of_body true body.now) }
    ensures written { frames.new ≡ with_prefix (frames_of_body true body.now) frames.old }
{
    match body {
        SampleBody::Complete(_, Some(chain)) => write_frames(chain, frames),
        _ => 0,
    }
}

// Writes a sample and its frames, up to the capacity. Returns the number of all frames.
fn write_sample(
    found: &SingleRecord<'_>,
    entry: &RecordEntry,
    sample: &mut Sample,
    frames: &mut [FrameEntry],
) -> usize
    ensures { WritesSample found.now entry.now frames.old result sample.new frames.new }
{
    let body = SampleBody::parse(&found.format, found.raw.body);
    let count = write_chain(&body, frames);
    let envelope = SampleEnvelope {
        offset: entry.offset,
        attr_index: saturate(entry.attr_index),
        misc: entry.misc,
        frames_start: 0,
        frames_count: saturate(count as u64),
    };
    *sample = Sample::new(envelope, &found.format, &body);
    count
}

// Writes the counter values of a parsed record, up to the capacity. Returns the number of all.
fn write_event_counters(
    entry: &RecordEntry,
    event: &EventRecord<'_>,
    counters: &mut [CounterEntry],
) -> usize
    ensures { WritesCounters entry.now event.now counters.old result counters.new }
{
    let values = values_of_event(event);
    write_counters(entry.offset, &values, counters);
    count_counters(&values)
}

// Writes the counter values of a sample, up to the capacity. Returns the number of all.
fn write_sample_values(
    found: &SingleRecord<'_>,
    entry: &RecordEntry,
    counters: &mut [CounterEntry],
) -> usize
    ensures { WritesValues found.now entry.now counters.old result counters.new }
{
    if !found.format.sample_format.contains(SampleFields::READ) {
        return 0;
    }
    match found.format.parse(&found.raw) {
        Ok(event) => write_event_counters(entry, &event, counters),
        Err(_) => 0,
    }
}

// Writes what a parsed record is: a task, a mapping, or counter values. Returns the number of these values.
fn write_parsed(
    entry: &RecordEntry,
    event: &EventRecord<'_>,
    task: &mut TaskEntry,
    mapping: &mut MappingEntry,
    counters: &mut [CounterEntry],
) -> usize
    requires { entry.now.body_offset + 64 < 2 ^ 64 }
    ensures { WritesParsed entry.now event.now task.old mapping.old counters.old result task.new mapping.new
        counters.new }
{
    let envelope = envelope_of_entry(entry);
    replace(task, event_task(envelope, event));
    replace(mapping, event_mapping(envelope, event));
    write_event_counters(entry, event, counters)
}

// The result with these numbers and this status.
fn event_result(frames_count: usize, counters_count: usize, status: Status) -> EventResult
    ensures { result ≡ record {
      frames_count = frames_count;
      counters_count = counters_count;
      status = status;
    } }
{
    EventResult {
        frames_count: frames_count as u64,
        counters_count: counters_count as u64,
        status,
    }
}

/// Writes what the body of a record says, as the arrays of whole inputs have it: of a sample `sample` and its
/// frames, of a record on a task `task`, of a mapping `mapping`, and of a sample or a READ record its counter
/// values.
///
/// `entry` is the record's, and its `body_offset` counts from the start of `chunk`; so do the offsets of
/// names and paths. `attrs` are the attributes of the input. The frames and counter values are written up to
/// the capacities of their arrays, from the first element on, and all of them are counted. What the record
/// isn't is unchanged, and of a record of another type all is. A sample has counter values if its attribute
/// selects some and its whole body can be parsed.
///
/// The status is `TruncatedRecord` if the body isn't in the chunk, and otherwise `NoAttributes` if the
/// attribute isn't in its array. Of a record that isn't a sample, it is otherwise `Truncated` if the body
/// ends in a field, and `InvalidData` if a text has no NUL or a build id more than 20 bytes. After an error
/// nothing is written and both numbers are 0.
pub fn read_event(
    endian: Endianness,
    chunk: &[u8],
    attrs: &[Attr],
    entry: &RecordEntry,
    sample: &mut Sample,
    frames: &mut [FrameEntry],
    task: &mut TaskEntry,
    mapping: &mut MappingEntry,
    counters: &mut [CounterEntry],
) -> EventResult
    ensures { ReadsEvent endian chunk.now attrs.now entry.now
        (record {
          sample = sample.old;
          frames = frames.old;
          task = task.old;
          mapping = mapping.old;
          counters = counters.old;
        })
        result
        (record {
          sample = sample.new;
          frames = frames.new;
          task = task.new;
          mapping = mapping.new;
          counters = counters.new;
        }) }
{
    let found = match find_record(endian, chunk, attrs, entry) {
        Ok(found) => found,
        Err(status) => return event_result(0, 0, status),
    };
    if entry.record_type == RecordType::SAMPLE.0 {
        let frames_count = write_sample(&found, entry, sample, frames);
        let counters_count = write_sample_values(&found, entry, counters);
        return event_result(frames_count, counters_count, Status::Success);
    }
    match found.format.parse(&found.raw) {
        Ok(event) => {
            let counters_count = write_parsed(entry, &event, task, mapping, counters);
            event_result(0, counters_count, Status::Success)
        }
        Err(error) => event_result(0, 0, status_of_body(error)),
    }
}
