//! The header and the records of a jitdump, as entries.
ghost use Rattle.std.specs.Prelude.{◌≡◌, ◌+◌, ◌^◌, ◌<◌, ◌≤◌, Ok, Some, length};
ghost use Rattle.perfdata_arrays.specs.Jit.{FindsRecord, ReadsJitHeader, ReadsJitRecords, ReadsJitLoad};
ghost use Rattle.perfdata_arrays.specs.Jit.{ParsesLoad, header_window, endian_number_of};
ghost use Rattle.perfdata_arrays.specs.steps.Jit.{ParsesJitHeader};

use crate::array::byte_count;
use crate::status::{Status, status_of_jit_error};
use perfdata_base::raw::{Endianness, RawData};
use perfdata_jit::{DEFAULT_BUFFER_SIZE, JitCodeLoadRecord, JitDumpHeader, JitDumpRecordHeader};

// The offset of the function's name in a load record, in bytes.
const NAME_OFFSET: u64 = 56;

// The offset of the code in a load record whose name is empty, in bytes.
const EMPTY_NAME_CODE_OFFSET: u64 = 57;

/// The header of a jitdump, as plain numbers.
#[repr(C)]
#[derive(Clone, Copy, Debug, Default, PartialEq, Eq)]
pub struct JitHeader {
    /// The time at which the file was created.
    pub timestamp: u64,
    /// Bit 0 is set if times are those of the time stamp counter.
    pub flags: u64,
    /// The version of the format.
    pub version: u32,
    /// The size of the header in bytes, which is the offset of the first record.
    pub size: u32,
    /// The machine that the code is for, as `e_machine` of an ELF file.
    pub elf_machine: u32,
    /// The ID of the process that the code belongs to.
    pub pid: u32,
    /// 1 if the file's numbers are big-endian, otherwise 0.
    pub is_big_endian: u32,
    /// Always 0.
    pub reserved: u32,
}

const _: () = prove!(size_of::<JitHeader>() == 40);

/// The offset and the header fields of a jitdump record.
#[repr(C)]
#[derive(Clone, Copy, Debug, Default, PartialEq, Eq)]
pub struct JitRecord {
    /// The offset of the record header in bytes, counted from the start of the file.
    pub offset: u64,
    /// The time at which the record was written.
    pub timestamp: u64,
    /// The record's type.
    pub record_type: u32,
    /// The size of the record in bytes, including its 16-byte header.
    pub size: u32,
}

const _: () = prove!(size_of::<JitRecord>() == 24);

/// The number of records written into an array, the offset of the next record, and the status of the call.
#[derive(Clone, Copy, Debug, PartialEq, Eq)]
pub struct JitRecordsResult {
    /// The number of records written.
    pub count: u64,
    /// The offset of the record after them in bytes, counted from the start of the file.
    pub next_offset: u64,
    /// Success if no error occurred, otherwise the status of the error.
    pub status: Status,
}

/// A load record, with the offsets of its name and its code.
#[repr(C)]
#[derive(Clone, Copy, Debug, Default, PartialEq, Eq)]
pub struct JitLoad {
    /// The address at which the code is mapped.
    pub vma: u64,
    /// The address of the code.
    pub code_address: u64,
    /// The number that identifies the code. A move record refers to the code by it.
    pub code_index: u64,
    /// The offset of the function's name in the file, in bytes.
    pub name_offset: u64,
    /// The size of the name in bytes, without its terminating NUL.
    pub name_size: u64,
    /// The offset of the code in the file, in bytes.
    pub code_offset: u64,
    /// The size of the code in bytes.
    pub code_size: u64,
    /// The ID of the process that created the code.
    pub pid: u32,
    /// The ID of the thread that created the code.
    pub tid: u32,
}

const _: () = prove!(size_of::<JitLoad>() == 64);

// The prefix of the file that has to contain the whole header: no more than a reader buffers.
fn header_prefix(bytes: &[u8]) -> &[u8]
    ensures { result.now ≡ header_window bytes.now }
{
    &bytes[..bytes.len().min(DEFAULT_BUFFER_SIZE)]
}

// Parses the header of a jitdump and its byte order.
pub(crate) fn parse_header(bytes: &[u8]) -> Result<(JitDumpHeader, Endianness), Status>
    ensures { ParsesJitHeader bytes.now result }
{
    match JitDumpHeader::parse(RawData::Single(header_prefix(bytes))) {
        Ok(header) => {
            let endian = header.endian();
            Ok((header, endian))
        }
        Err(error) => Err(status_of_jit_error(&error)),
    }
}

// 1 for big-endian, 0 for little-endian.
fn endian_number(endian: Endianness) -> u32
    ensures { result ≡ endian_number_of endian }
{
    match endian {
        Endianness::LittleEndian => 0,
        Endianness::BigEndian => 1,
    }
}

/// Parses the header of a jitdump into `out`.
///
/// Returns `Success`, or the status of the header's error. On an error `out` is unchanged. A header of more
/// than 4,096 bytes is an error.
pub fn jit_header(bytes: &[u8], out: &mut JitHeader) -> Status
    ensures { ReadsJitHeader bytes.now out.old result out.new }
{
    match parse_header(bytes) {
        Ok((header, endian)) => {
            *out = JitHeader {
                timestamp: header.timestamp,
                flags: header.flags,
                version: header.version,
                size: header.total_size,
                elf_machine: header.elf_machine_arch,
                pid: header.pid,
                is_big_endian: endian_number(endian),
                reserved: 0,
            };
            Status::Success
        }
        Err(status) => status,
    }
}

// Returns the record at `offset`, `None` if the bytes contain no complete record there, and
// `JitBadRecordSize` if no record can have its size.
pub(crate) fn find_record(
    endian: Endianness,
    bytes: &[u8],
    offset: u64,
) -> Result<Option<JitRecord>, Status>
    ensures { FindsRecord endian bytes.now offset result }
{
    if offset > byte_count(bytes) {
        return Ok(None);
    }
    let rest = &bytes[offset as usize..];
    let Ok(header) = JitDumpRecordHeader::parse(endian, RawData::Single(rest)) else {
        return Ok(None);
    };
    let size = header.total_size as usize;
    if size < JitDumpRecordHeader::SIZE {
        return Err(Status::JitBadRecordSize);
    }
    if size > rest.len() {
        return Ok(None);
    }
    Ok(Some(JitRecord {
        offset,
        timestamp: header.timestamp,
        record_type: header.record_type.0,
        size: header.total_size,
    }))
}

/// Writes the entries of a jitdump's complete records, starting at byte `start_offset`.
///
/// Starts at the first record if `start_offset` is within the header. Writes as many entries as `entries` has
/// capacity for. `count` is the number of entries written. A later call continues at `next_offset`, with new
/// capacity or after the file has grown.
///
/// The status is `Success` if the next record is truncated or doesn't fit in `entries`, and
/// `JitBadRecordSize` if no record can start at `next_offset`. If the header has an error, the status is that
/// of [`jit_header`], `count` is 0 and `next_offset` is `start_offset`.
pub fn jit_records(bytes: &[u8], start_offset: u64, entries: &mut [JitRecord]) -> JitRecordsResult
    ensures { ReadsJitRecords bytes.now start_offset entries.old result entries.new }
{
    let (header, endian) = match parse_header(bytes) {
        Ok(read) => read,
        Err(status) => {
            return JitRecordsResult {
                count: 0,
                next_offset: start_offset,
                status,
            };
        }
    };
    let mut next = start_offset.max(header.total_size as u64);
    let mut records = 0;
    'records: while records < entries.len() {
        match find_record(endian, bytes, next) {
            Ok(Some(record)) => {
                entries[records] = record;
                records += 1;
                next += record.size as u64;
            }
            Ok(None) => {
                return JitRecordsResult {
                    count: records as u64,
                    next_offset: next,
                    status: Status::Success,
                };
            }
            Err(status) => {
                return JitRecordsResult {
                    count: records as u64,
                    next_offset: next,
                    status,
                };
            }
        }
    }
    JitRecordsResult {
        count: records as u64,
        next_offset: next,
        status: Status::Success,
    }
}

// Parses the load record of an entry. The error is `JitWrongType` if the record has another type, and
// `JitBadBody` if its body is invalid.
fn parse_load(endian: Endianness, bytes: &[u8], entry: &JitRecord) -> Result<JitLoad, Status>
    requires found_at { FindsRecord endian bytes.now entry.now.offset (Ok (Some entry.now)) }
    requires min_size { 16 ≤ entry.now.size }
    requires in_bounds { entry.now.offset + entry.now.size ≤ length bytes.now }
    requires fits { length bytes.now < 2 ^ 63 }
    ensures { ParsesLoad endian bytes.now entry.now.offset result }
{
    if entry.record_type != 0 {
        return Err(Status::JitWrongType);
    }
    let offset = entry.offset;
    let start = offset as usize + JitDumpRecordHeader::SIZE;
    let rest = &bytes[start..];
    let body = &rest[..entry.size as usize - JitDumpRecordHeader::SIZE];
    match JitCodeLoadRecord::parse(endian, RawData::Single(body)) {
        Ok(load) => {
            let name_size = load.function_name.len() as u64;
            Ok(JitLoad {
                vma: load.vma,
                code_address: load.code_addr,
                code_index: load.code_index,
                name_offset: offset + NAME_OFFSET,
                name_size,
                code_offset: offset + EMPTY_NAME_CODE_OFFSET + name_size,
                code_size: load.code_bytes.len() as u64,
                pid: load.pid,
                tid: load.tid,
            })
        }
        Err(_) => Err(Status::JitBadBody),
    }
}

/// Parses the load record at byte `offset` of a jitdump into `out`.
///
/// Returns the status of [`jit_header`] if the header has an error, `Truncated` if the bytes contain no
/// complete record at `offset`, `JitBadRecordSize` if no record can have its size, `JitWrongType` if the
/// record has another type, and `JitBadBody` if its body is invalid. On an error `out` is unchanged.
pub fn jit_load(bytes: &[u8], offset: u64, out: &mut JitLoad) -> Status
    ensures { ReadsJitLoad bytes.now offset out.old result out.new }
{
    let (_header, endian) = match parse_header(bytes) {
        Ok(read) => read,
        Err(status) => return status,
    };
    // For the prover.
    let _count = byte_count(bytes);
    let record = match find_record(endian, bytes, offset) {
        Ok(Some(record)) => record,
        Ok(None) => return Status::Truncated,
        Err(status) => return status,
    };
    match parse_load(endian, bytes, &record) {
        Ok(load) => {
            *out = load;
            Status::Success
        }
        Err(status) => status,
    }
}
