//! The bodies of the move and unwinding info records of a jitdump.
ghost use Rattle.std.specs.Prelude.{◌≡◌, ◌+◌, ◌-◌, ◌^◌, ◌<◌, ◌≤◌, IfOk, length, take, drop};
ghost use Rattle.perfdata_arrays.specs.JitBodies.{FindsBody, ReadsJitMove, ReadsJitUnwinding, move_entry};
ghost use Rattle.perfdata_arrays.specs.JitBodies.{unwinding_entry};

use crate::array::byte_count;
use crate::jit::{JitRecord, find_record, parse_header};
use crate::status::Status;
use perfdata_base::raw::{Endianness, RawData};
use perfdata_jit::{JitCodeMoveRecord, JitCodeUnwindingInfoRecord, JitDumpRecordHeader};

// The type of a move record.
const CODE_MOVE: u32 = 1;

// The type of an unwinding info record.
const CODE_UNWINDING_INFO: u32 = 4;

// The offset of the data in an unwinding info record, in bytes.
const UNWINDING_DATA_OFFSET: u64 = 40;

/// A move record.
#[repr(C)]
#[derive(Clone, Copy, Debug, Default, PartialEq, Eq)]
pub struct JitMove {
    /// The address at which the code is mapped after the move.
    pub vma: u64,
    /// The address of the code before the move.
    pub old_code_address: u64,
    /// The address of the code after the move.
    pub new_code_address: u64,
    /// The size of the code in bytes.
    pub code_size: u64,
    /// The number that identifies the code, which its load record contains.
    pub code_index: u64,
    /// The ID of the process that runs the code.
    pub pid: u32,
    /// The ID of the thread that moved the code.
    pub tid: u32,
}

const _: () = prove!(size_of::<JitMove>() == 48);

/// An unwinding info record, with the offsets of its data.
#[repr(C)]
#[derive(Clone, Copy, Debug, Default, PartialEq, Eq)]
pub struct JitUnwinding {
    /// The number of bytes of the data that are mapped: 0 or all.
    pub mapped_size: u64,
    /// The offset of the index (`.eh_frame_hdr`) in the file, in bytes.
    pub eh_frame_hdr_offset: u64,
    /// The size of the index in bytes.
    pub eh_frame_hdr_size: u64,
    /// The offset of the data (`.eh_frame`) in the file, in bytes.
    pub eh_frame_offset: u64,
    /// The size of the data in bytes.
    pub eh_frame_size: u64,
}

const _: () = prove!(size_of::<JitUnwinding>() == 40);

// The body of the record with this entry.
fn record_body<'a>(bytes: &'a [u8], entry: &JitRecord) -> &'a [u8]
    requires min_size { 16 ≤ entry.now.size }
    requires in_bounds { entry.now.offset + entry.now.size ≤ length bytes.now }
    ensures { result.now ≡ take (entry.now.size - 16) (drop (entry.now.offset + 16) bytes.now) }
{
    let start = entry.offset as usize + JitDumpRecordHeader::SIZE;
    let rest = &bytes[start..];
    &rest[..entry.size as usize - JitDumpRecordHeader::SIZE]
}

// The body of the record at `offset`, if it has this type, and the byte order of the file.
pub(crate) fn find_body(
    bytes: &[u8],
    offset: u64,
    record_type: u32,
) -> Result<(Endianness, &[u8]), Status>
    ensures body { FindsBody bytes.now offset record_type result }
    ensures in_bounds { IfOk result (λ r. offset + 16 + length r.1.now ≤ length bytes.now) }
    ensures fits { IfOk result (λ r. length bytes.now < 2 ^ 63) }
{
    let (_header, endian) = parse_header(bytes)?;
    // For the prover.
    let _count = byte_count(bytes);
    let Some(record) = find_record(endian, bytes, offset)? else {
        return Err(Status::Truncated);
    };
    if record.record_type != record_type {
        return Err(Status::JitWrongType);
    }
    Ok((endian, record_body(bytes, &record)))
}

// The entry of a move record.
fn move_numbers(moved: &JitCodeMoveRecord) -> JitMove
    ensures { result ≡ move_entry moved.now }
{
    JitMove {
        vma: moved.vma,
        old_code_address: moved.old_code_addr,
        new_code_address: moved.new_code_addr,
        code_size: moved.code_size,
        code_index: moved.code_index,
        pid: moved.pid,
        tid: moved.tid,
    }
}

/// Parses the move record at byte `offset` of a jitdump into `out`.
///
/// The statuses are those of [`crate::jit::jit_load`]. On an error `out` is unchanged.
pub fn jit_move(bytes: &[u8], offset: u64, out: &mut JitMove) -> Status
    ensures { ReadsJitMove bytes.now offset out.old result out.new }
{
    let (endian, body) = match find_body(bytes, offset, CODE_MOVE) {
        Ok(found) => found,
        Err(status) => return status,
    };
    match JitCodeMoveRecord::parse(endian, RawData::Single(body)) {
        Ok(moved) => {
            *out = move_numbers(&moved);
            Status::Success
        }
        Err(_) => Status::JitBadBody,
    }
}

/// Parses the unwinding info record at byte `offset` of a jitdump into `out`.
///
/// The statuses are those of [`crate::jit::jit_load`]. On an error `out` is unchanged.
pub fn jit_unwinding(bytes: &[u8], offset: u64, out: &mut JitUnwinding) -> Status
    ensures { ReadsJitUnwinding bytes.now offset out.old result out.new }
{
    let (endian, body) = match find_body(bytes, offset, CODE_UNWINDING_INFO) {
        Ok(found) => found,
        Err(status) => return status,
    };
    match JitCodeUnwindingInfoRecord::parse(endian, RawData::Single(body)) {
        Ok(unwinding) => {
            let eh_frame_hdr_size = unwinding.eh_frame_hdr.len() as u64;
            *out = JitUnwinding {
                mapped_size: unwinding.mapped_size,
                eh_frame_hdr_offset: offset + UNWINDING_DATA_OFFSET,
                eh_frame_hdr_size,
                eh_frame_offset: offset + UNWINDING_DATA_OFFSET + eh_frame_hdr_size,
                eh_frame_size: unwinding.eh_frame.len() as u64,
            };
            Status::Success
        }
        Err(_) => Status::JitBadBody,
    }
}
