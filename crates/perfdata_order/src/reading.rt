//! Reads the next record of a source. Most records are held at once, and their bodies copied once.
ghost use Rattle.std.specs.Prelude.{◌≡◌, ◌^◌, ◌+◌, ◌<◌, ◌≤◌, [], IfSome, vec_capacity};
ghost use Rattle.perfdata_sources.specs.Raw.{bytes_of};
ghost use Rattle.perfdata_order.specs.steps.Reading.{MayHold, HoldsOrCopies, ReadsRecord};

use crate::held_record::{RecordEnvelope, copy_body};
use crate::held_records::HeldRecords;
use crate::in_memory::time_key;
use linux_perf_data::raw::RawData;
use linux_perf_data::source::Source;
use linux_perf_data::{Error, PerfFile, PerfItem, PerfRecordIter, RecordPlace};
use std::alloc::AllocError;

// The capacity of the buffer for the body of a record that isn't held at once. The size field of a record
// header has 16 bits, so only a body with aux data is larger.
pub(crate) const BODY_CAPACITY: usize = 65536;

// The bytes that count for a held record beside its body.
const HELD_RECORD_BYTES: u64 = 192;

// The bytes that count for a held record with a body of this length.
pub(crate) fn held_size(body_len: usize) -> u64
    requires { body_len < 2 ^ 63 }
    ensures { result ≡ body_len + 192 }
{
    body_len as u64 + HELD_RECORD_BYTES
}

// What was read: a record, or the end of a round.
pub(crate) enum NextRecord {
    // It is held, and counts for these bytes.
    Held(u64),
    // Its body was copied.
    Copied(RecordEnvelope),
    RoundEnd,
}

// The key of a record that is held at once: it is timed, of the last round or an earlier one, and its body is
// not large. A copy of a large one may need memory, so it is made before the order changes.
fn key_to_hold(last_round: Option<u64>, place: RecordPlace, len: usize) -> Option<u64>
    ensures { IfSome result (MayHold last_round place len) }
{
    let round = last_round?;
    if place.round > round || len > BODY_CAPACITY {
        return None;
    }
    time_key(place)
}

// Holds a record that was read, or copies its body if it isn't held at once or if memory runs out.
#[inline(always)]
fn hold_or_copy(
    held: &mut HeldRecords,
    last_round: Option<u64>,
    envelope: RecordEnvelope,
    body: RawData<'_>,
    copy: &mut Vec<u8>,
) -> Result<NextRecord, AllocError>
    requires empty { copy.old.items ≡ [] }
    requires capacity { 65536 ≤ vec_capacity copy.old }
    ensures { HoldsOrCopies held.old last_round envelope (bytes_of body.entry) result copy.new.items
        held.new }
{
    let len = body.len();
    let Some(key) = key_to_hold(last_round, envelope.place, len) else {
        copy_body(copy, body)?;
        return Ok(NextRecord::Copied(envelope));
    };
    match held.insert(key, envelope, body) {
        Ok(()) => Ok(NextRecord::Held(held_size(len))),
        Err(_) => {
            copy_body(copy, body)?;
            Ok(NextRecord::Copied(envelope))
        }
    }
}

// Reads the next record or the end of a round. Holds the record or copies its body.
#[inline(always)]
pub(crate) fn read_record<R: Source>(
    records: &mut PerfRecordIter<R>,
    perf_file: &mut PerfFile,
    held: &mut HeldRecords,
    last_round: Option<u64>,
    copy: &mut Vec<u8>,
) -> Result<Option<NextRecord>, Error>
    requires empty { copy.old.items ≡ [] }
    requires capacity { 65536 ≤ vec_capacity copy.old }
    ensures { ReadsRecord R.state records.old perf_file.old held.old last_round result copy.new.items held.new
        records.new perf_file.new }
{
    match records.next_item(perf_file)? {
        Some(PerfItem::Record(place, record)) => {
            let envelope = RecordEnvelope::from_record(place, &record);
            Ok(Some(hold_or_copy(held, last_round, envelope, record.body(), copy)?))
        }
        Some(PerfItem::RoundEnd { .. }) => Ok(Some(NextRecord::RoundEnd)),
        None => Ok(None),
    }
}
