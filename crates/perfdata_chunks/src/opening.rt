//! Where the records of an input are, out of its first bytes.
ghost use Rattle.std.specs.Prelude.{◌≡◌, ◌≢◌};
ghost use Rattle.perfdata_arrays.specs.declared.status.Status.TheVariants.{Success};
ghost use Rattle.perfdata_chunks.specs.declared.status.StartStatus.TheVariants.{Known};

use crate::status::StartStatus;
use linux_perf_data::{Error, InputKind};
use perfdata_arrays::status::{Status, status_of_error};
use perfdata_base::endian::{Endianness, read_u64};
use perfdata_base::event::PerfEventHeader;
use perfdata_base::header::{PerfHeader, endian_of_magic};
use perfdata_base::section::PerfFileSection;
use perfdata_sections::constants::{PERF_RECORD_HEADER_ATTR, PERF_RECORD_HEADER_FEATURE};
use std::io::{Cursor, ErrorKind};

// The number of bytes that tell the kind of an input.
const START_SIZE: usize = 16;

/// Where the records of an input are, and the tables that its opening reads. Offsets are in bytes from the
/// start of the input, and sizes in bytes. What a pipe doesn't have is 0.
#[repr(C)]
#[derive(Clone, Copy, Debug, Default, PartialEq, Eq)]
pub struct Opening {
    /// The offset of the first record: of a pipe, of the first after the metadata records that open it.
    pub records_offset: u64,
    /// The size of the records of a file.
    pub records_size: u64,
    /// The offset of the attributes of a file.
    pub attrs_offset: u64,
    /// The size of the attributes of a file.
    pub attrs_size: u64,
    /// The offset of the event types of an old file.
    pub event_types_offset: u64,
    /// The size of the event types of an old file.
    pub event_types_size: u64,
    /// The offset of the table of a file's feature sections: the offset and the size of each.
    pub features_offset: u64,
    /// The size of this table.
    pub features_size: u64,
    /// 1 for a file, 2 for a pipe.
    pub kind: u32,
    /// 1 if the numbers of the input are big-endian, otherwise 0.
    pub is_big_endian: u32,
}

const _: () = prove!(size_of::<Opening>() == 72);

// 1 for big-endian numbers, 0 for little-endian ones.
fn is_big_endian(endian: Endianness) -> u32 {
    match endian {
        Endianness::LittleEndian => 0,
        Endianness::BigEndian => 1,
    }
}

// Returns the opening of a file with this header.
fn file_opening(endian: Endianness, header: &PerfHeader) -> Result<Opening, StartStatus> {
    let records = header.data_section;
    let Some(features_offset) = records.offset.checked_add(records.size) else {
        return Err(StartStatus::Known(Status::BadDataSection));
    };
    Ok(Opening {
        records_offset: records.offset,
        records_size: records.size,
        attrs_offset: header.attr_section.offset,
        attrs_size: header.attr_section.size,
        event_types_offset: header.event_types_section.offset,
        event_types_size: header.event_types_section.size,
        features_offset,
        features_size: (header.features.len() as u64).saturating_mul(PerfFileSection::STRUCT_SIZE),
        kind: 1,
        is_big_endian: is_big_endian(endian),
    })
}

// Reads the opening of a file.
fn read_file_opening(endian: Endianness, start: &[u8]) -> Result<Opening, StartStatus> {
    match PerfHeader::parse_from(&mut Cursor::new(start)) {
        Ok(header) => file_opening(endian, &header),
        Err(error) if error.kind() == ErrorKind::UnexpectedEof => Err(StartStatus::More),
        Err(error) => Err(StartStatus::Known(status_of_error(&Error::IoError(error)))),
    }
}

// Returns the size of the metadata record at an offset; 0 if the record there is none.
fn metadata_size(endian: Endianness, start: &[u8], offset: usize) -> Result<usize, StartStatus> {
    let rest = start.get(offset..).unwrap_or(&[]);
    let Some(header) = PerfEventHeader::peek(endian, rest) else {
        return Err(StartStatus::More);
    };
    let size = header.size as usize;
    if size < PerfEventHeader::STRUCT_SIZE {
        return Err(StartStatus::Known(Status::BadRecordSize));
    }
    if header.type_ != PERF_RECORD_HEADER_ATTR && header.type_ != PERF_RECORD_HEADER_FEATURE {
        return Ok(0);
    }
    if rest.len() < size {
        return Err(StartStatus::More);
    }
    Ok(size)
}

// Returns the offset of the first record after the metadata records that start at an offset.
fn metadata_end(endian: Endianness, start: &[u8], from: u64) -> Result<u64, StartStatus> {
    let Ok(mut offset) = usize::try_from(from) else {
        return Err(StartStatus::More);
    };
    'records: for _ in 0..u64::MAX {
        let size = metadata_size(endian, start, offset)?;
        if size == 0 {
            break;
        }
        offset = offset.saturating_add(size);
    }
    Ok(offset as u64)
}

// Reads the opening of a pipe, whose header gives its own size after its magic.
fn read_pipe_opening(endian: Endianness, start: &[u8]) -> Result<Opening, StartStatus> {
    let Some(size) = start.get(8..START_SIZE) else {
        return Err(StartStatus::More);
    };
    let header_size = read_u64(endian, size).max(START_SIZE as u64);
    let mut found = Opening::default();
    found.records_offset = metadata_end(endian, start, header_size)?;
    found.kind = 2;
    found.is_big_endian = is_big_endian(endian);
    Ok(found)
}

// Reads the opening of an input.
fn find_opening(start: &[u8]) -> Result<Opening, StartStatus> {
    let Some(magic) = start.first_chunk::<8>() else {
        return Err(StartStatus::More);
    };
    let Some(endian) = endian_of_magic(magic) else {
        return Err(StartStatus::Known(Status::BadMagic));
    };
    match InputKind::of_start(start) {
        Some(InputKind::File) => read_file_opening(endian, start),
        Some(InputKind::Pipe) => read_pipe_opening(endian, start),
        _ => Err(StartStatus::More),
    }
}

/// Writes where the records of an input are. `start` is the start of a perf.data file or of a pipe.
///
/// The status is `More` if the header isn't complete, or if the metadata records that open a pipe aren't
/// complete, which the record header after them shows. After that and after an error `out` is unchanged. The
/// errors are `BadMagic`, `BadDataSection` and `InvalidHeaderSize` of a file, and `BadRecordSize` of a pipe.
pub fn read_opening(start: &[u8], out: &mut Opening) -> StartStatus
    ensures { result ≢ Known Success → out.new ≡ out.old }
{
    match find_opening(start) {
        Ok(found) => {
            *out = found;
            StartStatus::Known(Status::Success)
        }
        Err(status) => status,
    }
}
