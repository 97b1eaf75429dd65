//! The debug info records of a jitdump: the source locations of code.
ghost use Rattle.std.specs.Prelude.{◌≡◌, ◌+◌, ◌^◌, ◌<◌};
ghost use Rattle.std.specs.IoError.{error_kind};
ghost use Rattle.perfdata_arrays.specs.JitDebug.{ReadsJitDebugInfo, debug_entries_at};
ghost use Rattle.perfdata_arrays.specs.steps.JitDebug.{debug_end};
ghost use Rattle.perfdata_arrays.specs.JitDebug.{debug_entry_at, debug_error_status, no_debug_info_with};
ghost use Rattle.linux_perf_data.specs.RecordEntries.{with_prefix};

use crate::array::copy_entries;
use crate::jit_bodies::find_body;
use crate::status::Status;
use perfdata_base::raw::RawData;
use perfdata_jit::{JitCodeDebugInfoEntry, JitCodeDebugInfoRecord};
use std::alloc::Global;
use std::io::{Error, ErrorKind};

// The type of a debug info record.
const CODE_DEBUG_INFO: u32 = 2;

// The offset of the first entry in a debug info record, in bytes.
const ENTRIES_OFFSET: u64 = 32;

// The offset of the path in an entry, in bytes.
const PATH_OFFSET: u64 = 16;

/// The source location of the code from its address up to the address of the next entry.
#[repr(C)]
#[derive(Clone, Copy, Debug, Default, PartialEq, Eq)]
pub struct JitDebugEntry {
    /// The address of the first byte of the code.
    pub code_address: u64,
    /// The offset of the path of the source file in the jitdump, in bytes.
    pub path_offset: u64,
    /// The size of the path in bytes, without its terminating NUL.
    pub path_size: u64,
    /// The line, starting at 1.
    pub line: u32,
    /// The column, starting at 1, or 0 if it is unknown.
    pub column: u32,
}

const _: () = prove!(size_of::<JitDebugEntry>() == 32);

/// The address of the code of a debug info record, the number of its entries, and the status of the call.
#[derive(Clone, Copy, Debug, PartialEq, Eq)]
pub struct JitDebugInfoResult {
    /// The address of the code.
    pub code_address: u64,
    /// The number of entries.
    pub count: u64,
    /// Success if no error occurred, otherwise the status of the error.
    pub status: Status,
}

// The status of an error in a debug info record.
fn status_of_debug_error(error: &Error) -> Status
    ensures { result ≡ debug_error_status (error_kind error.now) }
{
    match error.kind() {
        ErrorKind::OutOfMemory => Status::OutOfMemory,
        _ => Status::JitBadBody,
    }
}

// The result of a call that writes nothing.
fn no_debug_info(status: Status) -> JitDebugInfoResult
    ensures { result ≡ no_debug_info_with status }
{
    JitDebugInfoResult {
        code_address: 0,
        count: 0,
        status,
    }
}

// The entry of the source location at an offset.
fn debug_entry(offset: u64, entry: &JitCodeDebugInfoEntry<'_>) -> JitDebugEntry
    requires { offset + 16 < 2 ^ 64 }
    ensures { result ≡ debug_entry_at offset entry.now }
{
    JitDebugEntry {
        code_address: entry.code_addr,
        path_offset: offset + PATH_OFFSET,
        path_size: entry.file_path.len() as u64,
        line: entry.line,
        column: entry.column,
    }
}

// Writes the entries of consecutive source locations, the first of which is at an offset, up to the capacity
// of `out`.
fn write_entries(
    entries: &[JitCodeDebugInfoEntry<'_>],
    first_offset: u64,
    out: &mut [JitDebugEntry],
)
    requires { debug_end first_offset entries.now < 2 ^ 64 }
    ensures { out.new ≡ with_prefix (debug_entries_at first_offset entries.now) out.old }
{
    let mut offset = first_offset;
    let mut index = 0;
    'entries: while index < entries.len() {
        let entry = debug_entry(offset, &entries[index]);
        copy_entries(out, index as u64, &[entry]);
        offset = entry.path_offset + entry.path_size + 1;
        index += 1;
    }
}

/// Writes the source locations in the debug info record at byte `offset` of a jitdump, up to the capacity of
/// `entries`.
///
/// The elements after the last written entry are unchanged. `count` includes the entries that aren't written.
///
/// The statuses are those of [`crate::jit::jit_load`], and `OutOfMemory` if an allocation fails. At an error
/// the address and `count` are 0, and `entries` is unchanged.
pub fn jit_debug_info(
    alloc: Global,
    bytes: &[u8],
    offset: u64,
    entries: &mut [JitDebugEntry],
) -> JitDebugInfoResult
    ensures { ReadsJitDebugInfo bytes.now offset entries.old result entries.new }
{
    let (endian, body) = match find_body(bytes, offset, CODE_DEBUG_INFO) {
        Ok(found) => found,
        Err(status) => return no_debug_info(status),
    };
    match JitCodeDebugInfoRecord::parse(alloc, endian, RawData::Single(body)) {
        Ok(info) => {
            write_entries(info.entries.as_slice(), offset + ENTRIES_OFFSET, entries);
            JitDebugInfoResult {
                code_address: info.code_addr,
                count: info.entries.len() as u64,
                status: Status::Success,
            }
        }
        Err(error) => no_debug_info(status_of_debug_error(&error)),
    }
}
