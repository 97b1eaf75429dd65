//! The records of a chunk of a jitdump.
ghost use Rattle.std.specs.Prelude.{◌≡◌, ◌⊎◌, ◌+◌, ◌<◌, ◌≤◌, ◌^◌, IfOk, IfSome, length};
ghost use Rattle.perfdata_arrays.specs.declared.status.Status.TheVariants.{JitBadRecordSize, Success};

use perfdata_arrays::jit::JitRecord;
use perfdata_arrays::status::Status;
use perfdata_base::endian::Endianness;
use perfdata_base::raw::RawData;
use perfdata_jit::JitDumpRecordHeader;

/// The numbers of a call on a chunk of a jitdump, and its status.
#[derive(Clone, Copy, Debug, PartialEq, Eq)]
pub struct JitChunkResult {
    /// The number of records that were written.
    pub count: u64,
    /// The number of their bytes.
    pub consumed: u64,
    /// 1 if the header of the record after them is there, otherwise 0.
    pub has_next: u8,
    /// Success, or the status of the first error.
    pub status: Status,
}

// Returns the header at the start of `bytes`, whose first byte is at `offset` of the jitdump, as a record.
// `None` if it is truncated.
fn jit_header(endian: Endianness, bytes: &[u8], offset: u64) -> Result<Option<JitRecord>, Status>
    ensures fits { IfOk result (λ found. IfSome found (λ r. (16 ≤ r.size) × (offset + r.size < 2 ^ 64))) }
{
    let Ok(header) = JitDumpRecordHeader::parse(endian, RawData::Single(bytes)) else {
        return Ok(None);
    };
    let size = header.total_size;
    if size < 16 || offset.checked_add(size as u64).is_none() {
        return Err(Status::JitBadRecordSize);
    }
    Ok(Some(JitRecord {
        offset,
        timestamp: header.timestamp,
        record_type: header.record_type.0,
        size,
    }))
}

// The result with these numbers and this status.
fn jit_result(count: usize, consumed: usize, has_next: u8, status: Status) -> JitChunkResult
    ensures { result ≡ record { count = count; consumed = consumed; has_next = has_next; status = status } }
{
    JitChunkResult {
        count: count as u64,
        consumed: consumed as u64,
        has_next,
        status,
    }
}

/// Writes the entries of the complete records of a chunk of a jitdump, up to the capacity of `entries`.
///
/// `chunk` starts at a record header, which is at `offset` of the jitdump. If the header of the record after
/// the written ones is there, but not the whole record, `has_next` is 1 and `next` is its entry; otherwise
/// `next` is unchanged. The records of all calls are those of one call with all bytes, however the jitdump is
/// cut.
///
/// The status is `JitBadRecordSize` if the record at `consumed` gives a size below 16, or ends past 2^64 - 1.
pub fn jit_chunk_records(
    endian: Endianness,
    chunk: &[u8],
    offset: u64,
    entries: &mut [JitRecord],
    next: &mut JitRecord,
) -> JitChunkResult
    ensures count { result.count ≤ length entries.old }
    ensures consumed { result.consumed ≤ length chunk.now }
    ensures end_fits { offset + result.consumed < 2 ^ 64 }
    ensures status { (result.status ≡ Success) ⊎ (result.status ≡ JitBadRecordSize) }
{
    let mut start = 0;
    let mut count = 0;
    'records: while count < entries.len() {
        let rest = &chunk[start..];
        match jit_header(endian, rest, offset + start as u64) {
            Ok(Some(record)) => {
                if rest.len() < record.size as usize {
                    *next = record;
                    return jit_result(count, start, 1, Status::Success);
                }
                entries[count] = record;
                count += 1;
                start += record.size as usize;
            }
            Ok(None) => return jit_result(count, start, 0, Status::Success),
            Err(_) => return jit_result(count, start, 0, Status::JitBadRecordSize),
        }
    }
    jit_result(count, start, 0, Status::Success)
}
