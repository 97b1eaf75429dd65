//! Samples as stacks, as plain numbers.
ghost use Rattle.std.specs.Prelude.{◌≡◌, List};
ghost use Rattle.linux_perf_data.specs.RecordEntries.{one_if_some};
ghost use Rattle.perfdata_spaces.specs.AddressSpaces.{Follows};
ghost use Rattle.perfdata_spaces.specs.Effects.{Applied};
ghost use Rattle.perfdata_stack_arrays.specs.steps.Names.{FollowsRanges};
ghost use Rattle.perfdata_stack_arrays.specs.Stacks.{stack_entry_of, task_of};
ghost use Rattle.perfdata_stack_arrays.specs.steps.Stacks.{WritesStack};

use crate::frame::{StackFrame, write_frames};
use crate::names::{NameRanges, TextRange};
use perfdata_arrays::array::write_entry;
use perfdata_events::sample::SampleRecord;
use perfdata_events::sample_id::Task;
use perfdata_spaces::address_spaces::AddressSpaces;

/// A sample as a stack, as plain numbers. What it doesn't have is 0.
#[repr(C)]
#[derive(Clone, Copy, Debug, Default, PartialEq, Eq)]
pub struct Stack {
    /// The offset of the record in bytes, counted from the first record.
    pub offset: u64,
    /// The time, in nanoseconds of the recording's clock.
    pub timestamp: u64,
    /// The number of events since the previous sample.
    pub period: u64,
    /// The index of its attribute.
    pub attr_index: u64,
    /// The index of the first of its frames in the array of frames.
    pub frames_start: u64,
    /// The number of its frames.
    pub frames_count: u64,
    /// The offset of its thread's name in the text, in bytes.
    pub name_offset: u64,
    /// The size of the name in bytes.
    pub name_size: u64,
    /// The process, or -1 if the sample has none.
    pub pid: i32,
    /// The thread, or -1 if the sample has none.
    pub tid: i32,
    /// The misc flags of the record header. The CPU mode is in the lowest three bits.
    pub misc: u16,
    /// 1 if a record names the thread, otherwise 0.
    pub has_name: u8,
    /// 0.
    pub reserved: [u8; 5],
}

const _: () = prove!(size_of::<Stack>() == 80);

// What a sample has beside the fields of its body.
#[derive(Clone, Copy)]
pub(crate) struct StackEnvelope {
    // The offset of the record in bytes, counted from the first record.
    pub(crate) offset: u64,
    // The index of its attribute.
    pub(crate) attr_index: usize,
    // The misc flags of the record header.
    pub(crate) misc: u16,
}

// Where the frames of a sample are in the array of frames.
#[derive(Clone, Copy)]
struct FrameRange {
    start: usize,
    count: usize,
}

// The process and the thread of a sample. They are -1 for samples without.
fn sample_task(sample: &SampleRecord<'_>) -> Task
    ensures { result ≡ task_of sample.now }
{
    sample.task.unwrap_or(Task { pid: -1, tid: -1 })
}

// 1 if there is a name, otherwise 0.
fn has_name(name: Option<TextRange>) -> u8
    ensures { result ≡ one_if_some name }
{
    match name {
        Some(_) => 1,
        None => 0,
    }
}

// The entry of a sample.
fn stack_entry(
    envelope: StackEnvelope,
    sample: &SampleRecord<'_>,
    frames: FrameRange,
    name: Option<TextRange>,
) -> Stack
    ensures { result ≡ stack_entry_of envelope sample.now frames name }
{
    let task = sample_task(sample);
    let range = name.unwrap_or(TextRange { offset: 0, size: 0 });
    Stack {
        offset: envelope.offset,
        timestamp: sample.timestamp.unwrap_or(0),
        period: sample.period.unwrap_or(0),
        attr_index: envelope.attr_index as u64,
        frames_start: frames.start as u64,
        frames_count: frames.count as u64,
        name_offset: range.offset as u64,
        name_size: range.size as u64,
        pid: task.pid,
        tid: task.tid,
        misc: envelope.misc,
        has_name: has_name(name),
        reserved: [0; 5],
    }
}

// Writes the entry of a sample at index `count` of the samples, and those of its frames after the first
// `used` elements of `frames`, up to the capacities. Returns the number of its frames.
pub(crate) fn write_stack(
    spaces: &AddressSpaces,
    names: &NameRanges,
    envelope: StackEnvelope,
    sample: &SampleRecord<'_>,
    stacks: &mut [Stack],
    count: usize,
    frames: &mut [StackFrame],
    used: usize,
) -> usize
    ensures { (before : List Applied) → Follows before spaces.now → FollowsRanges before names.now →
        WritesStack before envelope sample.now count used stacks.old frames.old result stacks.new frames.new }
{
    let task = sample_task(sample);
    let frames_count = write_frames(spaces, task.pid, envelope.misc, sample, frames, used);
    let range = FrameRange {
        start: used,
        count: frames_count,
    };
    let entry = stack_entry(envelope, sample, range, names.get(task.tid));
    write_entry(stacks, count, entry);
    frames_count
}
