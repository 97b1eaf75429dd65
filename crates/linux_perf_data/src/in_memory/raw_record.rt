//! Takes raw records from bytes in memory. A whole one is taken at once, as are all records of an input
//! without an error; any other is taken part by part.
ghost use Rattle.std.specs.Prelude.{◌≡◌, []};
ghost use Rattle.linux_perf_data.specs.steps.InMemory.{EndsOrFails, TakesRawRecord};
ghost use Rattle.linux_perf_data.specs.steps.InMemoryWholeRecords.{TakesWholeRecord};

use crate::in_memory::framing::{remaining, skip_bytes, take_record_body};
use crate::records::buffered::has_no_pending_header;
use crate::records::framing::{HEADER_SIZE, peek_record, read_header};
use crate::records::input::RecordInput;
use crate::records::iter::PerfRecordIter;
use perfdata_base::event::PerfEventHeader;
use perfdata_base::source::unexpected_eof;
use perfdata_sections::constants::PERF_RECORD_FINISHED_ROUND;
use perfdata_sections::error::{Error, ReadError};
use std::io::Cursor;

// A raw record: a marker, or a record with its body and aux data; or the end of a pipe.
pub(crate) enum RawRecord<'a> {
    Marker(PerfEventHeader),
    Record(PerfEventHeader, &'a [u8]),
    End,
}

// Takes the next raw record if the remaining bytes start with a whole one, and no header is pending.
// Otherwise takes nothing.
#[inline(always)]
fn take_whole_record<'a>(records: &mut PerfRecordIter<Cursor<&'a [u8]>>) -> Option<RawRecord<'a>>
    requires { records.old.body.items ≡ [] }
    ensures whole_record { TakesWholeRecord records.old result records.new }
    ensures same_buffer { records.new.body ≡ records.old.body }
{
    if !has_no_pending_header(records.input) {
        return None;
    }
    let bytes = remaining(&records.source);
    let (header, length) = peek_record(records.endian, bytes)?;
    let end = records.offset.checked_add(length as u64)?;
    let position = records.source.position();
    records.source.set_position(position + length as u64);
    records.offset = end;
    if header.type_ == PERF_RECORD_FINISHED_ROUND {
        records.round += 1;
        return Some(RawRecord::Marker(header));
    }
    Some(RawRecord::Record(header, &bytes[PerfEventHeader::STRUCT_SIZE..length]))
}

// The result for a truncated record: the end in a pipe, this error in a file.
fn end_or_error<'a>(input: RecordInput, error: Error) -> Result<RawRecord<'a>, Error>
    ensures { EndsOrFails input error result }
{
    match input {
        RecordInput::Pipe(_) => Ok(RawRecord::End),
        RecordInput::Section(_) => Err(error),
    }
}

// Takes the next raw record part by part, up to the part that is truncated or has an error.
#[cold]
#[inline(never)]
fn take_record_parts<'a>(
    records: &mut PerfRecordIter<Cursor<&'a [u8]>>,
) -> Result<RawRecord<'a>, Error>
    requires { records.old.body.items ≡ [] }
    ensures raw_record { TakesRawRecord records.old result records.new }
    ensures same_buffer { records.new.body ≡ records.old.body }
{
    let (input, offset) = (&mut records.input, records.offset);
    let (header, end) = match read_header(&mut records.source, input, records.endian, offset)? {
        Some(header_and_end) => header_and_end,
        None => return end_or_error(records.input, Error::from(unexpected_eof())),
    };
    if header.type_ == PERF_RECORD_FINISHED_ROUND {
        if !skip_bytes(&mut records.source, (header.size - HEADER_SIZE) as u64) {
            return end_or_error(records.input, Error::Read(ReadError::PerfEventData));
        }
        records.round += 1;
        records.offset = end;
        return Ok(RawRecord::Marker(header));
    }
    match take_record_body(&mut records.source, records.endian, header, end)? {
        Some((body, end)) => {
            records.offset = end;
            Ok(RawRecord::Record(header, body))
        }
        None => end_or_error(records.input, Error::Read(ReadError::PerfEventData)),
    }
}

// Takes the next raw record.
#[inline(always)]
pub(crate) fn take_raw_record<'a>(
    records: &mut PerfRecordIter<Cursor<&'a [u8]>>,
) -> Result<RawRecord<'a>, Error>
    requires { records.old.body.items ≡ [] }
    ensures raw_record { TakesRawRecord records.old result records.new }
    ensures same_buffer { records.new.body ≡ records.old.body }
{
    match take_whole_record(records) {
        Some(raw_record) => Ok(raw_record),
        None => take_record_parts(records),
    }
}
