//! The stacks of a recording.
ghost use Rattle.std.specs.Prelude.{◌≡◌};
ghost use Rattle.linux_perf_data.specs.PerfFile.{attributes_of_file, endian_of_file};
ghost use Rattle.linux_perf_data.specs.RecordViews.{record_view_of};
ghost use Rattle.perfdata_stack_arrays.specs.steps.Adding.{AddsParsed, AddsRecord, totals_so_far};
ghost use Rattle.perfdata_stack_arrays.specs.Reading.{ReadsFileStacks, ReadsPipeStacks, ReadsStacksOf};
ghost use Rattle.perfdata_stack_arrays.specs.steps.Reading.{WalksStacks};
ghost use Rattle.perfdata_stack_arrays.specs.steps.Records.{IsStart};

use crate::array::add_counts;
use crate::events::event_format;
use crate::frame::StackFrame;
use crate::mapping::StackMapping;
use crate::records::Records;
use crate::stack::{Stack, StackEnvelope, write_stack};
use crate::state::ProcessState;
use crate::totals::StackTotals;
use linux_perf_data::in_memory::{InMemoryReader, InMemoryRecords};
use linux_perf_data::{Error, PerfFile, PerfFileRecord, RecordPlace};
use perfdata_arrays::status::{Status, status_of_end, status_of_error};
use perfdata_events::event::EventRecord;
use std::alloc::{AllocError, Global};

/// The numbers of what a recording has, and the status of the call.
#[derive(Clone, Copy, Debug, PartialEq, Eq)]
pub struct StacksResult {
    /// The numbers of samples, frames and mappings, and of the bytes of the text.
    pub totals: StackTotals,
    /// Success, or the status of the first error.
    pub status: Status,
}

// The numbers of samples and frames so far.
#[derive(Clone, Copy)]
struct StackArraySizes {
    stacks: usize,
    frames: usize,
}

// Adds a parsed record: a sample to the samples and frames, another one to what is mapped and to names.
// Returns the numbers of samples and frames with those that it adds.
fn add_parsed(
    state: &mut ProcessState,
    envelope: StackEnvelope,
    parsed: &EventRecord<'_>,
    counts: StackArraySizes,
    stacks: &mut [Stack],
    frames: &mut [StackFrame],
    mappings: &mut [StackMapping],
    text: &mut [u8],
) -> Result<StackArraySizes, AllocError>
    ensures { AddsParsed (record { envelope = envelope; parsed = parsed.now }) state.old counts
        (record { stacks = stacks.old; frames = frames.old; mappings = mappings.old; text = text.old }) result
        state.new
        (record { stacks = stacks.new; frames = frames.new; mappings = mappings.new; text = text.new }) }
{
    if let EventRecord::Sample(sample) = parsed {
        let added = write_stack(
            &state.spaces,
            &state.names,
            envelope,
            sample,
            stacks,
            counts.stacks,
            frames,
            counts.frames,
        );
        return Ok(StackArraySizes {
            stacks: add_counts(counts.stacks, 1),
            frames: add_counts(counts.frames, added),
        });
    }
    state.apply(envelope.misc, parsed, mappings, text)?;
    Ok(counts)
}

// Adds a record, unless it belongs to no attribute or can't be parsed. Returns the numbers of samples and
// frames with those that it adds.
fn add_record(
    state: &mut ProcessState,
    perf_file: &PerfFile,
    place: RecordPlace,
    returned: &PerfFileRecord<'_>,
    counts: StackArraySizes,
    stacks: &mut [Stack],
    frames: &mut [StackFrame],
    mappings: &mut [StackMapping],
    text: &mut [u8],
) -> Result<StackArraySizes, AllocError>
    ensures { AddsRecord (endian_of_file perf_file.now) (attributes_of_file perf_file.now)
        (record_view_of place returned.now) state.old counts
        (record { stacks = stacks.old; frames = frames.old; mappings = mappings.old; text = text.old }) result
        state.new
        (record { stacks = stacks.new; frames = frames.new; mappings = mappings.new; text = text.new }) }
{
    let PerfFileRecord::EventRecord { attr_index, event } = returned else {
        return Ok(counts);
    };
    let Some(format) = event_format(perf_file, *attr_index) else {
        return Ok(counts);
    };
    // A parsed sample is large, so it is not moved.
    let outcome = format.parse(event);
    let Ok(parsed) = &outcome else {
        return Ok(counts);
    };
    let envelope = StackEnvelope {
        offset: place.offset,
        attr_index: *attr_index,
        misc: event.misc,
    };
    add_parsed(
        state, envelope, parsed, counts, stacks, frames, mappings, text,
    )
}

// The numbers of what a walk counts, and how it ends.
#[derive(Drop)]
struct StacksWalk {
    totals: StackTotals,
    end: Result<(), Error>,
}

// The numbers so far.
fn stack_totals(state: &ProcessState, counts: StackArraySizes) -> StackTotals
    ensures { result ≡ totals_so_far state.now.counts counts }
{
    StackTotals {
        stack_count: counts.stacks as u64,
        frame_count: counts.frames as u64,
        mapping_count: state.counts.mappings as u64,
        text_size: state.counts.text as u64,
    }
}

// Reads all records. Counts what they add, and writes it up to the capacities.
fn walk_stacks(
    alloc: Global,
    records: &mut Records<'_>,
    perf_file: &mut PerfFile,
    stacks: &mut [Stack],
    frames: &mut [StackFrame],
    mappings: &mut [StackMapping],
    text: &mut [u8],
) -> StacksWalk
    requires { IsStart records.old }
    ensures { WalksStacks records.old perf_file.old
        (record { stacks = stacks.old; frames = frames.old; mappings = mappings.old; text = text.old }) result
        records.new perf_file.new
        (record { stacks = stacks.new; frames = frames.new; mappings = mappings.new; text = text.new }) }
{
    // For the prover: slices are shorter than 2^63 bytes.
    let _capacities = (stacks.len(), frames.len(), mappings.len(), text.len());
    let mut state = ProcessState::new(alloc);
    let mut counts = StackArraySizes {
        stacks: 0,
        frames: 0,
    };
    let mut returned = 0u64;
    'records: loop {
        match records.next_record(perf_file) {
            Ok(Some((place, record))) => {
                let added = add_record(
                    &mut state, perf_file, place, &record, counts, stacks, frames, mappings, text,
                );
                match added {
                    Ok(more) => counts = more,
                    Err(error) => {
                        return StacksWalk {
                            totals: stack_totals(&state, counts),
                            end: Err(Error::from(error)),
                        };
                    }
                }
                returned += 1;
            }
            Ok(None) => {
                return StacksWalk {
                    totals: stack_totals(&state, counts),
                    end: Ok(()),
                };
            }
            Err(error) => {
                return StacksWalk {
                    totals: stack_totals(&state, counts),
                    end: Err(error),
                };
            }
        }
    }
}

// No samples.
const NO_STACKS: StackTotals = StackTotals {
    stack_count: 0,
    frame_count: 0,
    mapping_count: 0,
    text_size: 0,
};

// Writes the stacks of an opened recording.
fn write_stacks(
    alloc: Global,
    opened: Result<InMemoryReader<'_>, Error>,
    stacks: &mut [Stack],
    frames: &mut [StackFrame],
    mappings: &mut [StackMapping],
    text: &mut [u8],
) -> StacksResult
    ensures { ReadsStacksOf opened.entry
        (record { stacks = stacks.old; frames = frames.old; mappings = mappings.old; text = text.old }) result
        (record { stacks = stacks.new; frames = frames.new; mappings = mappings.new; text = text.new }) }
{
    let reader = match opened {
        Ok(reader) => reader,
        Err(error) => {
            return StacksResult {
                totals: NO_STACKS,
                status: status_of_error(&error),
            };
        }
    };
    let mut perf_file = reader.perf_file;
    let mut records = Records::new(alloc, &perf_file, reader.records);
    let walked = walk_stacks(
        alloc,
        &mut records,
        &mut perf_file,
        stacks,
        frames,
        mappings,
        text,
    );
    StacksResult {
        totals: walked.totals,
        status: status_of_end(&walked.end),
    }
}

/// Writes the samples of a perf.data file in order of time, their frames, the mappings, and the text with the
/// names of threads and the paths of mappings, each up to the capacity of its array.
///
/// The totals count all of them. The elements after the last written ones are unchanged. If the file doesn't
/// open, the totals are 0. At an error, they count what the records before it add. A record that can't be
/// parsed is left out.
///
/// The errors are those of `perfdata_arrays::records::file_records`, and `OutOfMemory`.
pub fn file_stacks(
    alloc: Global,
    bytes: &[u8],
    stacks: &mut [Stack],
    frames: &mut [StackFrame],
    mappings: &mut [StackMapping],
    text: &mut [u8],
) -> StacksResult
    ensures { ReadsFileStacks bytes.now
        (record { stacks = stacks.old; frames = frames.old; mappings = mappings.old; text = text.old }) result
        (record { stacks = stacks.new; frames = frames.new; mappings = mappings.new; text = text.new }) }
{
    let opened = InMemoryReader::parse_file(alloc, bytes);
    write_stacks(alloc, opened, stacks, frames, mappings, text)
}

/// Writes the stacks of a perf.data pipe, as `file_stacks` does those of a file.
///
/// The errors are those of `perfdata_arrays::records::pipe_records`.
pub fn pipe_stacks(
    alloc: Global,
    bytes: &[u8],
    stacks: &mut [Stack],
    frames: &mut [StackFrame],
    mappings: &mut [StackMapping],
    text: &mut [u8],
) -> StacksResult
    ensures { ReadsPipeStacks bytes.now
        (record { stacks = stacks.old; frames = frames.old; mappings = mappings.old; text = text.old }) result
        (record { stacks = stacks.new; frames = frames.new; mappings = mappings.new; text = text.new }) }
{
    let opened = InMemoryReader::parse_pipe(alloc, bytes);
    write_stacks(alloc, opened, stacks, frames, mappings, text)
}
