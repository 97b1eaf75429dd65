//! The numbers at offsets in a record's body.
ghost use Rattle.std.specs.Prelude.{◌≡◌};
ghost use Rattle.perfdata_identifiers.specs.BodyFields.{checked_offset_from_start, checked_offset_from_end};
ghost use Rattle.perfdata_identifiers.specs.BodyFields.{offset_in_body, u64_field_at};
ghost use Rattle.perfdata_sources.specs.Raw.{bytes_of};

use perfdata_sources::endian::{Endianness, FileOrder, read_u64};
use perfdata_sources::event::RecordType;
use perfdata_sources::raw::RawData;

// The offset of an eight-byte number that starts `at` bytes after the start of a body of `len` bytes. `None`
// if it isn't completely in the body.
fn checked_offset_from_start(len: usize, at: u64) -> Option<usize>
    ensures { result ≡ checked_offset_from_start len at }
{
    match at.checked_add(8) {
        Some(end) if end <= len as u64 => Some(at as usize),
        _ => None,
    }
}

// The offset of an eight-byte number that starts `back` bytes before the end of a body of `len` bytes.
// `None` if it isn't completely in the body.
fn checked_offset_from_end(len: usize, back: u64) -> Option<usize>
    ensures { result ≡ checked_offset_from_end len back }
{
    if 8 <= back && back <= len as u64 {
        Some(len - back as usize)
    } else {
        None
    }
}

// The offset of a record's number in its body of `len` bytes.
fn offset_in_body(
    record_type: RecordType,
    len: usize,
    from_start: Option<u64>,
    from_end: Option<u64>,
) -> Option<usize>
    ensures { result ≡ offset_in_body record_type.0 len from_start from_end }
{
    if record_type.is_user_type() {
        return None;
    }
    if record_type == RecordType::SAMPLE {
        checked_offset_from_start(len, from_start?)
    } else {
        checked_offset_from_end(len, from_end?)
    }
}

// A number of a record whose body is contiguous.
pub(super) fn field_in_slice(
    endian: Endianness,
    record_type: RecordType,
    body: &[u8],
    from_start: Option<u64>,
    from_end: Option<u64>,
) -> Option<u64>
    ensures { result ≡ u64_field_at endian from_start from_end record_type.0 body.now }
{
    match offset_in_body(record_type, body.len(), from_start, from_end) {
        Some(at) => Some(read_u64(endian, &body[at..])),
        None => None,
    }
}

// A number of a record.
pub(super) fn field_in_body<T: FileOrder>(
    record_type: RecordType,
    body: RawData<'_>,
    from_start: Option<u64>,
    from_end: Option<u64>,
) -> Option<u64>
    ensures { result ≡ u64_field_at T.ENDIAN from_start from_end record_type.0 (bytes_of body.entry) }
{
    let at = offset_in_body(record_type, body.len(), from_start, from_end)?;
    let mut rest = body;
    rest.skip(at).ok()?;
    rest.read_u64::<T>().ok()
}
