//! Samples as plain numbers.
ghost use Rattle.std.specs.Prelude.{◌≡◌};
ghost use Rattle.std.specs.Option.{unwrap_or};
ghost use Rattle.perfdata_arrays.specs.Samples.{sample_of, sample_with, error_code, task_or_none};

use crate::samples::body::{BodyError, SampleBody, SampleWords, WORD_BITS};
use perfdata_events::format::EventFormat;
use perfdata_events::sample_bits::SampleFields;
use perfdata_events::sample_id::Task;
use perfdata_events::sample_words::{EventFields, OriginFields};

// The bits of all fields that are known.
const KNOWN_BITS: u64 = 2 * SampleFields::WEIGHT_STRUCT.0 - 1;

/// A sample (`PERF_RECORD_SAMPLE` of Linux's `perf_event.h`) as plain numbers. A field that it doesn't have
/// is 0.
#[repr(C)]
#[derive(Clone, Copy, Debug, Default, PartialEq, Eq)]
pub struct Sample {
    /// The offset of the record in bytes, counted from the first record.
    pub offset: u64,
    /// The time, in nanoseconds of the recording's clock.
    pub timestamp: u64,
    /// The address of the instruction.
    pub ip: u64,
    /// The address in memory.
    pub address: u64,
    /// The identifier of the event: IDENTIFIER, otherwise ID.
    pub id: u64,
    /// The number of events since the previous sample.
    pub period: u64,
    /// The index of the first frame of its call chain in the array of frames.
    pub frames_start: u64,
    /// The number of frames of its call chain.
    pub frames_count: u32,
    /// The index of its attribute.
    pub attr_index: u32,
    /// The fields that the sample has, as a bit mask (`perf_event_sample_format`).
    pub fields: u32,
    /// The processor.
    pub cpu: u32,
    /// The process.
    pub pid: i32,
    /// The thread.
    pub tid: i32,
    /// The misc flags of the record header. The CPU mode is in the lowest three bits.
    pub misc: u16,
    /// 0 if all of these fields are decoded. 1 if the record ends inside a field, 2 if its attribute selects
    /// a field that isn't known.
    pub error: u8,
    /// 0.
    pub reserved: u8,
    /// 0.
    pub reserved_2: u32,
}

const _: () = prove!(size_of::<Sample>() == 88);

/// What a sample has beside the fields of its body.
#[derive(Clone, Copy, Debug)]
pub struct SampleEnvelope {
    /// The offset of the record in bytes, counted from the first record.
    pub offset: u64,
    /// The index of its attribute.
    pub attr_index: u32,
    /// The misc flags of the record header.
    pub misc: u16,
    /// The index of the first frame.
    pub frames_start: u64,
    /// The number of frames.
    pub frames_count: u32,
}

// No words are selected.
const NO_WORDS: SampleWords = SampleWords {
    origin: OriginFields {
        identifier: None,
        ip: None,
        task: None,
        timestamp: None,
    },
    event: EventFields {
        address: None,
        id: None,
        stream_id: None,
        cpu: None,
    },
    period: None,
};

// The number of an error.
fn error_code(error: BodyError) -> u8
    ensures { result ≡ error_code error }
{
    match error {
        BodyError::Truncated => 1,
        BodyError::UnknownFields => 2,
    }
}

// The process and the thread, or zeros.
fn task_or_zeros(task: Option<Task>) -> Task
    ensures { result ≡ task_or_none task }
{
    match task {
        Some(task) => task,
        None => Task { pid: 0, tid: 0 },
    }
}

// The sample with these words, fields and error.
#[inline(always)]
fn with_words(envelope: SampleEnvelope, words: &SampleWords, fields: u32, error: u8) -> Sample
    ensures { result ≡ sample_with envelope words.now fields error }
{
    let task = task_or_zeros(words.origin.task);
    Sample {
        offset: envelope.offset,
        timestamp: words.origin.timestamp.unwrap_or(0),
        ip: words.origin.ip.unwrap_or(0),
        address: words.event.address.unwrap_or(0),
        id: words.origin.identifier.or(words.event.id).unwrap_or(0),
        period: words.period.unwrap_or(0),
        frames_start: envelope.frames_start,
        frames_count: envelope.frames_count,
        attr_index: envelope.attr_index,
        fields,
        cpu: words.event.cpu.unwrap_or(0),
        pid: task.pid,
        tid: task.tid,
        misc: envelope.misc,
        error,
        reserved: 0,
        reserved_2: 0,
    }
}

impl Sample {
    /// Returns the sample with a decoded body.
    #[inline(always)]
    pub fn new(envelope: SampleEnvelope, format: &EventFormat, body: &SampleBody<'_>) -> Sample
        ensures { result ≡ sample_of envelope format.now body.now }
    {
        let bits = format.sample_format.0;
        match body {
            SampleBody::Complete(words, _) => with_words(
                envelope,
                words,
                (bits & KNOWN_BITS) as u32,
                0,
            ),
            SampleBody::Words(words, error) => with_words(
                envelope,
                words,
                (bits & WORD_BITS) as u32,
                error_code(*error),
            ),
            SampleBody::Nothing => with_words(envelope, &NO_WORDS, 0, 1),
        }
    }
}
