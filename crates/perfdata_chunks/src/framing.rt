//! How records are framed in memory: a header, a body, and for some records aux data.
ghost use Rattle.std.specs.Prelude.{◌≡◌, ◌+◌, ◌<◌, ◌≤◌, ◌^◌, length};
ghost use Rattle.perfdata_sources.specs.Endian.{number_in};
ghost use Rattle.perfdata_sources.specs.RecordHeader.{record_header_of};
ghost use Rattle.linux_perf_data.specs.steps.RecordFraming.{TestsCompressed};
ghost use Rattle.perfdata_chunks.specs.Chunks.{FindsFrame};

use perfdata_arrays::status::Status;
use perfdata_base::endian::{Endianness, read_u64};
use perfdata_base::event::PerfEventHeader;
use perfdata_records::auxtrace::Auxtrace;
use perfdata_sections::constants::{
    PERF_RECORD_AUXTRACE, PERF_RECORD_COMPRESSED, PERF_RECORD_COMPRESSED2,
};

/// A complete record, or a round marker.
#[derive(Clone, Copy, Debug)]
pub(crate) struct Frame {
    // Its record header.
    pub(crate) header: PerfEventHeader,
    // Its size in bytes, with the record header and aux data.
    pub(crate) size: usize,
    // The offset of the byte after it, counted from the first record.
    pub(crate) end: u64,
}

// Whether this is the type of a compressed record.
fn is_compressed(record_type: u32) -> bool
    ensures { TestsCompressed record_type result }
{
    record_type == PERF_RECORD_COMPRESSED || record_type == PERF_RECORD_COMPRESSED2
}

// Returns the frame of the AUXTRACE record at the start of `bytes`, with its aux data. `frame` is without
// them.
fn with_aux_data(
    endian: Endianness,
    bytes: &[u8],
    offset: u64,
    frame: Frame,
) -> Result<Option<Frame>, Status>
    requires header { frame.header ≡ record_header_of (number_in endian) bytes.now }
    requires is_auxtrace { frame.header.type_ ≡ 71 }
    requires size { frame.size ≡ frame.header.size }
    requires within { frame.size ≤ length bytes.now }
    requires end { frame.end ≡ offset + frame.size }
    ensures { FindsFrame endian offset bytes.now result }
{
    if frame.size < PerfEventHeader::STRUCT_SIZE + Auxtrace::FIXED_SIZE {
        return Err(Status::Truncated);
    }
    let aux_size = read_u64(endian, &bytes[PerfEventHeader::STRUCT_SIZE..]);
    let Some(end) = frame.end.checked_add(aux_size) else {
        return Err(Status::TruncatedRecord);
    };
    if ((bytes.len() - frame.size) as u64) < aux_size {
        return Ok(None);
    }
    Ok(Some(Frame {
        header: frame.header,
        size: frame.size + aux_size as usize,
        end,
    }))
}

// Returns the frame at the start of `bytes`, whose first byte is at `offset` from the first record. `None` if
// it is truncated.
pub(crate) fn next_frame(
    endian: Endianness,
    bytes: &[u8],
    offset: u64,
) -> Result<Option<Frame>, Status>
    ensures { FindsFrame endian offset bytes.now result }
{
    let Some(header) = PerfEventHeader::peek(endian, bytes) else {
        return Ok(None);
    };
    let size = header.size as usize;
    if size < PerfEventHeader::STRUCT_SIZE {
        return Err(Status::BadRecordSize);
    }
    let Some(end) = offset.checked_add(size as u64) else {
        return Err(Status::TruncatedRecord);
    };
    if bytes.len() < size {
        return Ok(None);
    }
    if is_compressed(header.type_) {
        return Err(Status::Compressed);
    }
    let frame = Frame { header, size, end };
    if header.type_ == PERF_RECORD_AUXTRACE {
        return with_aux_data(endian, bytes, offset, frame);
    }
    Ok(Some(frame))
}
