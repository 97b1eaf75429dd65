//! Who wrote a kernel record, when and where.
ghost use Rattle.std.specs.Prelude.{◌≡◌, if◌then◌else◌};
ghost use Rattle.std.specs.Option.{unwrap_or};
ghost use Rattle.perfdata_arrays.specs.Samples.{task_or_none};
ghost use Rattle.perfdata_chunks.specs.Common.{ReadsCommon, common_of, fields_of};

use crate::single_records::{find_record, status_of_body};
use linux_perf_data::in_memory::entries::RecordEntry;
use perfdata_arrays::attrs::Attr;
use perfdata_arrays::status::Status;
use perfdata_base::endian::Endianness;
use perfdata_events::sample_id::{SampleId, Task};

/// Who wrote a kernel record, when and where, as plain numbers. What the record doesn't have is 0.
#[repr(C)]
#[derive(Clone, Copy, Debug, Default, PartialEq, Eq)]
pub struct Common {
    /// The time, in nanoseconds of the recording's clock.
    pub timestamp: u64,
    /// The identifier of the event: IDENTIFIER, otherwise ID.
    pub id: u64,
    /// The identifier of the event itself, also if another task inherited it.
    pub stream_id: u64,
    /// The fields that the record has, as a bit mask (`perf_event_sample_format`): TID, TIME, ID, CPU,
    /// STREAM_ID and IDENTIFIER.
    pub fields: u32,
    /// The processor.
    pub cpu: u32,
    /// The process.
    pub pid: i32,
    /// The thread.
    pub tid: i32,
}

const _: () = prove!(size_of::<Common>() == 40);

// The bits of the fields, as `SampleFields` has them.
const TID: u32 = 2;

const TIME: u32 = 4;

const ID: u32 = 64;

const CPU: u32 = 128;

const STREAM_ID: u32 = 512;

const IDENTIFIER: u32 = 65_536;

// No field is selected.
const NO_FIELDS: SampleId = SampleId {
    task: None,
    timestamp: None,
    id: None,
    stream_id: None,
    cpu: None,
    identifier: None,
};

// The number, if a field is there, otherwise 0.
fn bit_if(is_present: bool, bit: u32) -> u32
    ensures { result ≡ (if is_present then bit else 0) }
{
    if is_present { bit } else { 0 }
}

// The bits of the fields that are there.
fn common_fields(id: &SampleId) -> u32
    ensures { result ≡ fields_of id.now }
{
    let task = bit_if(id.task.is_some(), TID);
    let time = bit_if(id.timestamp.is_some(), TIME);
    let event = bit_if(id.id.is_some(), ID);
    let cpu = bit_if(id.cpu.is_some(), CPU);
    let stream = bit_if(id.stream_id.is_some(), STREAM_ID);
    let identifier = bit_if(id.identifier.is_some(), IDENTIFIER);
    task + time + event + cpu + stream + identifier
}

// The process and the thread, or zeros.
fn task_or_zeros(task: Option<Task>) -> Task
    ensures { result ≡ task_or_none task }
{
    match task {
        Some(task) => task,
        None => Task { pid: 0, tid: 0 },
    }
}

// The fields as plain numbers.
fn common_numbers(id: &SampleId) -> Common
    ensures { result ≡ common_of id.now }
{
    let task = task_or_zeros(id.task);
    Common {
        timestamp: id.timestamp.unwrap_or(0),
        id: id.identifier.or(id.id).unwrap_or(0),
        stream_id: id.stream_id.unwrap_or(0),
        fields: common_fields(id),
        cpu: id.cpu.unwrap_or(0),
        pid: task.pid,
        tid: task.tid,
    }
}

/// Writes who wrote a kernel record, when and where, into `out`.
///
/// `entry` is the record's, and `body_offset` counts from the start of `chunk`. `attrs` are the attributes of
/// the input. A record that isn't a sample has these fields only if its attribute has the flag SAMPLE_ID_ALL,
/// and a record that a tool wrote has none.
///
/// The status is `TruncatedRecord` if the body isn't in the chunk, otherwise `NoAttributes` if the attribute
/// isn't in its array, and otherwise `Truncated` if the body doesn't contain all of the fields. After an
/// error `out` is unchanged.
pub fn read_common(
    endian: Endianness,
    chunk: &[u8],
    attrs: &[Attr],
    entry: &RecordEntry,
    out: &mut Common,
) -> Status
    ensures { ReadsCommon endian chunk.now attrs.now entry.now out.old result out.new }
{
    let found = match find_record(endian, chunk, attrs, entry) {
        Ok(found) => found,
        Err(status) => return status,
    };
    if !found.raw.record_type.is_builtin_type() {
        *out = common_numbers(&NO_FIELDS);
        return Status::Success;
    }
    match found.format.sample_id(&found.raw) {
        Ok(id) => {
            *out = common_numbers(&id);
            Status::Success
        }
        Err(error) => status_of_body(error),
    }
}
