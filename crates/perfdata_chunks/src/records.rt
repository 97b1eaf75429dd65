//! The records of a chunk: a part of an input that starts at a record header.
ghost use Rattle.std.specs.Prelude.{◌≡◌, ◌+◌, ◌<◌, ◌≤◌, ◌^◌, ◌++◌, List, drop, length};
ghost use Rattle.linux_perf_data.specs.RecordEntries.{one_if_some, with_prefix};
ghost use Rattle.perfdata_arrays.specs.Entries.{list_of};
ghost use Rattle.perfdata_chunks.specs.Chunks.{ReadsChunk, ReadsNext, place_at, place_of, rounds};

use crate::attributes::ChunkAttributes;
use crate::framing::{Frame, next_frame};
use crate::metadata::check_metadata;
use linux_perf_data::in_memory::entries::RecordEntry;
use linux_perf_data::in_memory::position::RecordPosition;
use perfdata_arrays::attrs::Attr;
use perfdata_arrays::status::Status;
use perfdata_base::endian::Endianness;
use perfdata_base::event::{PerfEventHeader, RecordType};
use perfdata_sections::constants::{PERF_RECORD_FINISHED_ROUND, PERF_RECORD_HEADER_ATTR};
use std::alloc::Global;

/// The number of records of a chunk, the number of its bytes that they took, and the status of the call.
#[derive(Clone, Copy, Debug, PartialEq, Eq)]
pub struct ChunkResult {
    /// The number of records that were written.
    pub count: u64,
    /// The number of bytes of these records and of the round markers before and after them.
    pub consumed: u64,
    /// Success, or the status of the first error.
    pub status: Status,
}

// Returns the entry of the record with this frame and body, which starts at byte `start` of the chunk.
fn record_entry(
    attributes: &mut ChunkAttributes<'_>,
    header: PerfEventHeader,
    body: &[u8],
    start: usize,
    position: RecordPosition,
) -> RecordEntry
    requires { start + 8 < 2 ^ 64 }
    ensures { place_of result ≡ place_at position start header (length body.now + 8) }
{
    let record_type = RecordType(header.type_);
    let is_event = record_type.is_builtin_type();
    let (attr_index, timestamp) = if is_event {
        let index = attributes.find_index(record_type, body);
        (index as u64, attributes.read_time(index, record_type, body))
    } else {
        (0, None)
    };
    RecordEntry {
        offset: position.offset,
        body_offset: start as u64 + PerfEventHeader::STRUCT_SIZE as u64,
        body_size: body.len() as u64,
        round: position.round,
        timestamp: timestamp.unwrap_or(0),
        attr_index,
        record_type: header.type_,
        misc: header.misc,
        has_timestamp: timestamp.is_some() as u8,
        has_attr: is_event as u8,
    }
}

// The frame of a record with its entry, or that of a round marker, which has none.
#[derive(Clone, Copy)]
struct NextFrame {
    frame: Frame,
    entry: Option<RecordEntry>,
}

// Reads the record or the round marker at byte `start` of the chunk. `None` if it is truncated.
fn read_next(
    alloc: Global,
    endian: Endianness,
    attributes: &mut ChunkAttributes<'_>,
    chunk: &[u8],
    start: usize,
    position: RecordPosition,
) -> Result<Option<NextFrame>, Status>
    requires { start ≤ length chunk.now }
    ensures { ReadsNext endian position start (drop start chunk.now) result }
{
    let bytes = &chunk[start..];
    let Some(frame) = next_frame(endian, bytes, position.offset)? else {
        return Ok(None);
    };
    if frame.header.type_ == PERF_RECORD_FINISHED_ROUND {
        return Ok(Some(NextFrame { frame, entry: None }));
    }
    let body = &bytes[PerfEventHeader::STRUCT_SIZE..frame.size];
    check_metadata(alloc, attributes, frame.header.type_, body)?;
    let entry = record_entry(attributes, frame.header, body, start, position);
    Ok(Some(NextFrame {
        frame,
        entry: Some(entry),
    }))
}

// Writes the entry of a record, if there is one, after the first `count` ones, and returns how many there are
// then.
fn write_next(entries: &mut [RecordEntry], count: usize, entry: Option<RecordEntry>) -> usize
    requires { count < length entries.old }
    ensures counted { result ≡ count + one_if_some entry }
    ensures fits { result ≤ length entries.old }
    ensures written { (es before : List RecordEntry) → count ≡ length es → entries.old ≡ with_prefix es before
        → entries.new ≡ with_prefix (es ++ list_of entry) before }
{
    match entry {
        Some(entry) => {
            entries[count] = entry;
            count + 1
        }
        None => count,
    }
}

// Returns the number of round markers after a frame.
fn round_after(round: u64, record_type: u32) -> u64
    requires { round + 1 < 2 ^ 64 }
    ensures { result ≡ round + rounds record_type }
{
    if record_type == PERF_RECORD_FINISHED_ROUND {
        return round + 1;
    }
    round
}

// Returns the position after a frame.
fn position_after(position: RecordPosition, frame: Frame) -> RecordPosition
    requires { position.round + 1 < 2 ^ 64 }
    ensures offset { result.offset ≡ frame.end }
    ensures round { result.round ≡ position.round + rounds frame.header.type_ }
{
    RecordPosition {
        offset: frame.end,
        round: round_after(position.round, frame.header.type_),
    }
}

/// Writes the entries of the complete records of a chunk, and moves the position past them.
///
/// `chunk` is a part of an input that starts at a record header, as the records of a file do, those of a pipe
/// after the metadata records that open it, and the bytes that an earlier call didn't consume. `position` is
/// that of its first byte, and zeros at the first record. `attrs` and `ids` are the attributes of the input
/// so far and their ids.
///
/// Writes at most as many entries as `entries` has capacity for. The elements after the last written entry
/// are unchanged. `body_offset` of an entry counts from the start of `chunk`. FINISHED_ROUND markers aren't
/// records: those before a record are consumed with it, and those at the end of the chunk unless `entries` is
/// full.
///
/// If the status is `Success` and `count` is below the capacity, either the last record is a HEADER_ATTR, or
/// the bytes after those that were consumed aren't a complete record. After a HEADER_ATTR the caller adds its
/// attribute ([`crate::late_attr::late_attr`]). Then he calls again with the bytes from `consumed` on, and
/// with more if there was no complete record.
///
/// The records of all calls are those of one call with all bytes, however the input is cut.
///
/// `NoAttributes` is returned without attributes; then nothing is consumed. The other errors are those of
/// `InMemoryRecords::next_record`, with those of a pipe's metadata records, except that a truncated record is
/// none. The position is then that of the record in error, and so is `consumed`.
pub fn chunk_records(
    alloc: Global,
    endian: Endianness,
    chunk: &[u8],
    attrs: &[Attr],
    ids: &[u64],
    position: &mut RecordPosition,
    entries: &mut [RecordEntry],
) -> ChunkResult
    ensures { ReadsChunk endian chunk.now attrs.now position.old entries.old result position.new entries.new }
{
    let Some(mut attributes) = ChunkAttributes::new(endian, attrs, ids) else {
        return chunk_result(0, 0, Status::NoAttributes);
    };
    position.round = position.round.min(position.offset);
    let mut start = 0;
    let mut count = 0;
    'records: while count < entries.len() {
        match read_next(alloc, endian, &mut attributes, chunk, start, *position) {
            Ok(Some(next)) => {
                start += next.frame.size;
                *position = position_after(*position, next.frame);
                count = write_next(entries, count, next.entry);
                if next.frame.header.type_ == PERF_RECORD_HEADER_ATTR {
                    return chunk_result(count, start, Status::Success);
                }
            }
            Ok(None) => return chunk_result(count, start, Status::Success),
            Err(status) => return chunk_result(count, start, status),
        }
    }
    chunk_result(count, start, Status::Success)
}

// The result with these numbers and this status.
fn chunk_result(count: usize, consumed: usize, status: Status) -> ChunkResult
    ensures { result ≡ record { count = count; consumed = consumed; status = status } }
{
    ChunkResult {
        count: count as u64,
        consumed: consumed as u64,
        status,
    }
}
