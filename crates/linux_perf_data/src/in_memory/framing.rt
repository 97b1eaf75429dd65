//! Takes the parts of a record from bytes in memory, without a copy.
ghost use Rattle.std.specs.Prelude.{◌≡◌, ◌≢◌, ◌+◌, ◌^◌, ◌<◌, ◌≤◌, [], drop, length, Ok};
ghost use Rattle.std.specs.Io.Cursor.{cursor_inner, cursor_position};
ghost use Rattle.linux_perf_data.specs.InMemory.{memory_state};
ghost use Rattle.linux_perf_data.specs.steps.InMemory.{SkipsAuxData, TakesRecordBody};
ghost use Rattle.linux_perf_data.specs.steps.RecordFraming.{SkipsBody};

use crate::records::framing::is_compressed;
use perfdata_base::endian::read_u64;
use perfdata_base::event::PerfEventHeader;
use perfdata_base::raw::Endianness;
use perfdata_base::source::unexpected_eof;
use perfdata_records::auxtrace::Auxtrace;
use perfdata_sections::constants::PERF_RECORD_AUXTRACE;
use perfdata_sections::error::{Error, ReadError, unsupported};
use std::io::Cursor;

// The remaining bytes of a cursor.
pub(crate) fn remaining<'a>(source: &Cursor<&'a [u8]>) -> &'a [u8]
    ensures value { result.now ≡ drop (cursor_position source.now) (cursor_inner source.now).now }
    ensures fits { length result.now < 2 ^ 63 }
    ensures end_fits { result.now ≢ [] → cursor_position source.now + length result.now < 2 ^ 63 }
{
    let all: &'a [u8] = *source.get_ref();
    let start = (source.position() as usize).min(all.len());
    &all[start..]
}

// Consumes `count` bytes. `false` if fewer remain, which are then consumed.
pub(crate) fn skip_bytes(source: &mut Cursor<&[u8]>, count: u64) -> bool
    ensures { SkipsBody (memory_state source.old) count (Ok result) (memory_state source.new) }
{
    let remaining_count = remaining(source).len() as u64;
    let position = source.position();
    if remaining_count < count {
        source.set_position(position + remaining_count);
        return false;
    }
    source.set_position(position + count);
    true
}

// Consumes the aux data after a record's body, whose first eight bytes contain their size. Returns the size
// of the body with them, and the end offset of the record.
fn skip_aux_data(
    source: &mut Cursor<&[u8]>,
    endian: Endianness,
    body: &[u8],
    end: u64,
) -> Result<(u64, u64), Error>
    ensures { SkipsAuxData endian (memory_state source.old) body.now end result (memory_state source.new) }
{
    if body.len() < Auxtrace::FIXED_SIZE {
        return Err(Error::from(unexpected_eof()));
    }
    let aux_size = read_u64(endian, body);
    let aux_end = match end.checked_add(aux_size) {
        Some(aux_end) => aux_end,
        None => return Err(Error::Read(ReadError::PerfEventData)),
    };
    if !skip_bytes(source, aux_size) {
        return Err(Error::Read(ReadError::PerfEventData));
    }
    Ok((body.len() as u64 + aux_size, aux_end))
}

// Takes the body and the aux data of a record that is no marker. Returns them with the end offset of the
// record, or `None` if fewer bytes remain than the size in the record header.
pub(crate) fn take_record_body<'a>(
    source: &mut Cursor<&'a [u8]>,
    endian: Endianness,
    header: PerfEventHeader,
    end: u64,
) -> Result<Option<(&'a [u8], u64)>, Error>
    requires { 8 ≤ header.size }
    ensures { TakesRecordBody endian (memory_state source.old) header end result (memory_state source.new) }
{
    let bytes = remaining(source);
    let size = header.size as usize - PerfEventHeader::STRUCT_SIZE;
    if !skip_bytes(source, size as u64) {
        return Ok(None);
    }
    if is_compressed(header.type_) {
        return Err(unsupported());
    }
    if header.type_ != PERF_RECORD_AUXTRACE {
        return Ok(Some((&bytes[..size], end)));
    }
    let (size_with_aux, end_with_aux) = skip_aux_data(source, endian, &bytes[..size], end)?;
    Ok(Some((&bytes[..size_with_aux as usize], end_with_aux)))
}
