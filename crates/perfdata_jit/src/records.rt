//! The bodies of records: load, move, debug info, unwinding info.
ghost use Rattle.std.specs.Prelude.{◌≡◌, ◌+◌, ◌^◌, ◌<◌, ◌≤◌, IfOk, IfErr, length};
ghost use Rattle.std.specs.IoError.{error_kind};
ghost use Rattle.std.specs.declared.io.ErrorKind.TheVariants.{UnexpectedEof};
ghost use Rattle.std.specs.Prelude.{option_copied};
ghost use Rattle.std.specs.List.Sorted.{IsNonDecreasingBy};
ghost use Rattle.perfdata_sources.specs.Endian.{number_in};
ghost use Rattle.perfdata_sources.specs.Raw.{bytes_of, EndsBefore};
ghost use Rattle.perfdata_jit.specs.JitRecords.{CodeIsAtOffset, IsTruncatedDebugEntry, IsDebugInfo};
ghost use Rattle.perfdata_jit.specs.JitRecords.{IsDebugEntry, IsLoad, IsLookup, IsDebugInfoError};
ghost use Rattle.perfdata_jit.specs.JitRecords.{IsLoadError, IsUnwindingError, IsUnwinding};
ghost use Rattle.perfdata_jit.specs.JitRecords.{IsDebugEntriesError, ReadsDebugEntries, move_of};

use crate::record::JitDumpRecordHeader;
use perfdata_base::endian::{read_u32, read_u64};
use perfdata_base::raw::{Endianness, FileOrder, RawData};
use perfdata_base::source::unexpected_eof;
use std::alloc::Global;
use std::io::Result;

// Number of bytes in a load record's body before the function's name.
const LOAD_FIXED_SIZE: usize = 40;

// The size of a move record's body in bytes.
const MOVE_SIZE: usize = 48;

// Number of bytes in a debug info record's body before its entries.
const DEBUG_INFO_FIXED_SIZE: usize = 16;

// Number of bytes in a debug entry before the path of the source file.
const ENTRY_FIXED_SIZE: usize = 16;

// Number of bytes in an unwinding info record's body before its data.
const UNWINDING_FIXED_SIZE: usize = 24;

/// A function that was compiled (`JIT_CODE_LOAD`).
#[derive(Clone, Debug, Drop)]
pub struct JitCodeLoadRecord<'a> {
    /// The pid of the process that compiled it.
    pub pid: u32,
    /// The tid of the thread that compiled it.
    pub tid: u32,
    /// The address at which the code is mapped.
    pub vma: u64,
    /// The address of the code.
    pub code_addr: u64,
    /// The unique index of this code, by which a move record refers to it.
    pub code_index: u64,
    /// The function's name, without the NUL that ends it.
    pub function_name: RawData<'a>,
    /// The machine code, for the machine in the file header.
    pub code_bytes: RawData<'a>,
}

/// A function that was moved (`JIT_CODE_MOVE`).
#[derive(Clone, Debug, Drop)]
pub struct JitCodeMoveRecord {
    /// The pid of the process that runs the function.
    pub pid: u32,
    /// The tid of the thread that moved it.
    pub tid: u32,
    /// The address at which the code is mapped after the move.
    pub vma: u64,
    /// The address of the code before the move.
    pub old_code_addr: u64,
    /// The address of the code after the move.
    pub new_code_addr: u64,
    /// The size of the code in bytes.
    pub code_size: u64,
    /// The `code_index` of the function's load record.
    pub code_index: u64,
}

/// The source locations of a function's code (`JIT_CODE_DEBUG_INFO`).
#[derive(Debug, Drop)]
pub struct JitCodeDebugInfoRecord<'a> {
    /// The address of the function's code.
    pub code_addr: u64,
    /// The source locations, which runtimes write in the order of their addresses.
    pub entries: Vec<JitCodeDebugInfoEntry<'a>>,
}

/// The source location of the code from this entry's address up to the address of the next entry.
#[derive(Clone, Debug, Drop)]
pub struct JitCodeDebugInfoEntry<'a> {
    /// The address of the first byte of the code.
    pub code_addr: u64,
    /// The line number, starting at 1.
    pub line: u32,
    /// The column number, starting at 1, or 0 if it is unknown.
    pub column: u32,
    /// The path of the source file, without the NUL that ends it.
    pub file_path: RawData<'a>,
}

/// The unwinding information of a function (`JIT_CODE_UNWINDING_INFO`).
#[derive(Clone, Debug, Drop)]
pub struct JitCodeUnwindingInfoRecord<'a> {
    /// Number of bytes of the data that are mapped: 0 or all.
    pub mapped_size: u64,
    /// The index of the data, in the format of the ELF section `.eh_frame_hdr`.
    pub eh_frame_hdr: RawData<'a>,
    /// The data, in the format of the ELF section `.eh_frame`.
    pub eh_frame: RawData<'a>,
}

impl<'a> JitCodeLoadRecord<'a> {
    /// The offset of the function's name from the start of the record header, in bytes.
    pub const NAME_OFFSET_FROM_RECORD_START: usize = JitDumpRecordHeader::SIZE + LOAD_FIXED_SIZE;

    /// Parses a body: pid and tid of 4 bytes each, mapping address, code address, code size and code index of
    /// 8 bytes each, the function's name up to a NUL, and the code. Bytes after the code are ignored.
    ///
    /// Returns an `UnexpectedEof` error if the first 40 bytes or the code are truncated, or if no NUL ends
    /// the name.
    pub fn parse(endian: Endianness, bytes: RawData<'a>) -> Result<JitCodeLoadRecord<'a>>
        ensures value { IfOk result (λ load. IsLoad (number_in endian) (bytes_of bytes.entry) load) }
        ensures error { IfErr result (λ error. IsLoadError (number_in endian) (bytes_of bytes.entry) error) }
    {
        let mut rest = bytes;
        let mut fixed = [0u8; LOAD_FIXED_SIZE];
        rest.read_exact(&mut fixed)?;
        let function_name = match rest.read_string() {
            Some(name) => name,
            None => return Err(unexpected_eof()),
        };
        let code_size = read_u64(endian, &fixed[24..]);
        let code_bytes = rest.split_off_prefix(code_size as usize)?;
        Ok(JitCodeLoadRecord {
            pid: read_u32(endian, &fixed),
            tid: read_u32(endian, &fixed[4..]),
            vma: read_u64(endian, &fixed[8..]),
            code_addr: read_u64(endian, &fixed[16..]),
            code_index: read_u64(endian, &fixed[32..]),
            function_name,
            code_bytes,
        })
    }

    /// Parses a body as `parse` does, in the byte order `O`.
    pub fn parse_impl<O: FileOrder>(bytes: RawData<'a>) -> Result<JitCodeLoadRecord<'a>>
        ensures value { IfOk result (λ load. IsLoad O.number_of (bytes_of bytes.entry) load) }
        ensures error { IfErr result (λ error. IsLoadError O.number_of (bytes_of bytes.entry) error) }
    {
        JitCodeLoadRecord::parse(O::ENDIAN, bytes)
    }

    /// Returns the offset of the code from the start of the record header, in bytes. It depends on the length
    /// of the name, whose NUL it includes.
    pub fn code_bytes_offset_from_record_header_start(&self) -> usize
        requires { 57 + length (bytes_of self.now.function_name) < 2 ^ 64 }
        ensures { result ≡ 57 + length (bytes_of self.now.function_name) }
    {
        JitCodeLoadRecord::NAME_OFFSET_FROM_RECORD_START + self.function_name.len() + 1
    }
}

/// Proves that `code_bytes_offset_from_record_header_start` is the offset of the code in the bytes of the
/// record whose body is given to `parse`. The call does nothing.
pub fn code_is_at_offset()
    ensures { CodeIsAtOffset }
{}

impl JitCodeMoveRecord {
    /// Parses a body: pid and tid of 4 bytes each, new mapping address, old code address, new code address,
    /// code size and code index of 8 bytes each. Bytes after them are ignored.
    ///
    /// Returns an `UnexpectedEof` error if there are fewer than 48 bytes.
    pub fn parse(endian: Endianness, bytes: RawData<'_>) -> Result<JitCodeMoveRecord>
        ensures enough { IfOk result (λ _. 48 ≤ length (bytes_of bytes.entry)) }
        ensures value { IfOk result (λ moved. moved ≡ move_of (number_in endian) (bytes_of bytes.entry)) }
        ensures error { IfErr result (λ error. EndsBefore 48 (bytes_of bytes.entry) error) }
    {
        let mut rest = bytes;
        let mut body = [0u8; MOVE_SIZE];
        rest.read_exact(&mut body)?;
        Ok(JitCodeMoveRecord {
            pid: read_u32(endian, &body),
            tid: read_u32(endian, &body[4..]),
            vma: read_u64(endian, &body[8..]),
            old_code_addr: read_u64(endian, &body[16..]),
            new_code_addr: read_u64(endian, &body[24..]),
            code_size: read_u64(endian, &body[32..]),
            code_index: read_u64(endian, &body[40..]),
        })
    }

    /// Parses a body as `parse` does, in the byte order `O`.
    pub fn parse_impl<O: FileOrder>(bytes: RawData<'_>) -> Result<JitCodeMoveRecord>
        ensures enough { IfOk result (λ _. 48 ≤ length (bytes_of bytes.entry)) }
        ensures value { IfOk result (λ moved. moved ≡ move_of O.number_of (bytes_of bytes.entry)) }
        ensures error { IfErr result (λ error. EndsBefore 48 (bytes_of bytes.entry) error) }
    {
        JitCodeMoveRecord::parse(O::ENDIAN, bytes)
    }
}

// Parses the entry at the start of the bytes and removes it from them.
fn read_entry<'a>(endian: Endianness, bytes: &mut RawData<'a>) -> Result<JitCodeDebugInfoEntry<'a>>
    ensures value { IfOk result (λ entry. IsDebugEntry (number_in endian) (bytes_of bytes.old) entry
        (bytes_of bytes.new)) }
    ensures error { IfErr result (λ error. (error_kind error ≡ UnexpectedEof)
        × IsTruncatedDebugEntry (bytes_of bytes.old)) }
{
    let mut fixed = [0u8; ENTRY_FIXED_SIZE];
    bytes.read_exact(&mut fixed)?;
    let file_path = match bytes.read_string() {
        Some(path) => path,
        None => return Err(unexpected_eof()),
    };
    Ok(JitCodeDebugInfoEntry {
        code_addr: read_u64(endian, &fixed),
        line: read_u32(endian, &fixed[8..]),
        column: read_u32(endian, &fixed[12..]),
        file_path,
    })
}

// Parses `count` entries at the start of the bytes and removes them. The count comes from the file, and no
// memory is reserved for it in advance.
fn read_entries<'a>(
    alloc: Global,
    endian: Endianness,
    count: u64,
    bytes: &mut RawData<'a>,
) -> Result<Vec<JitCodeDebugInfoEntry<'a>>>
    ensures value { IfOk result (λ entries. ReadsDebugEntries (number_in endian) count
        (bytes_of bytes.old) entries.items (bytes_of bytes.new)) }
    ensures error { IfErr result (λ error. IsDebugEntriesError (number_in endian) count
        (bytes_of bytes.old) error) }
{
    let mut entries = Vec::new(alloc);
    'entries: for _index in 0..count {
        let entry = read_entry(endian, bytes)?;
        entries.push(entry)?;
    }
    Ok(entries)
}

impl<'a> JitCodeDebugInfoRecord<'a> {
    /// Parses a body: code address and number of entries of 8 bytes each, and the entries. An entry has an
    /// address of 8 bytes, a line and a column of 4 bytes each, and a path up to a NUL. Bytes after the
    /// entries are ignored.
    ///
    /// Returns an `UnexpectedEof` error if the first 16 bytes or an entry are truncated, and an `OutOfMemory`
    /// error if the allocation of memory for the entries fails. Memory is allocated as entries are parsed,
    /// not by the number of entries that the body declares.
    pub fn parse(
        alloc: Global,
        endian: Endianness,
        bytes: RawData<'a>,
    ) -> Result<JitCodeDebugInfoRecord<'a>>
        ensures value { IfOk result (λ info. IsDebugInfo (number_in endian) (bytes_of bytes.entry) info) }
        ensures error { IfErr result (λ error. IsDebugInfoError (number_in endian)
            (bytes_of bytes.entry) error) }
    {
        let mut rest = bytes;
        let mut fixed = [0u8; DEBUG_INFO_FIXED_SIZE];
        rest.read_exact(&mut fixed)?;
        let entries = read_entries(alloc, endian, read_u64(endian, &fixed[8..]), &mut rest)?;
        Ok(JitCodeDebugInfoRecord {
            code_addr: read_u64(endian, &fixed),
            entries,
        })
    }

    /// Parses a body as `parse` does, in the byte order `O`.
    pub fn parse_impl<O: FileOrder>(
        alloc: Global,
        bytes: RawData<'a>,
    ) -> Result<JitCodeDebugInfoRecord<'a>>
        ensures value { IfOk result (λ info. IsDebugInfo O.number_of (bytes_of bytes.entry) info) }
        ensures error { IfErr result (λ error. IsDebugInfoError O.number_of (bytes_of bytes.entry) error) }
    {
        JitCodeDebugInfoRecord::parse(alloc, O::ENDIAN, bytes)
    }

    /// Returns the last entry with the greatest address that is not above `addr`, or `None` if all addresses
    /// are above it.
    ///
    /// This requires that the entries are sorted by address. Otherwise the result is any entry or `None`.
    pub fn lookup(&self, addr: u64) -> Option<&JitCodeDebugInfoEntry<'a>>
        ensures { IsNonDecreasingBy (λ e. e.code_addr) self.now.entries.items
            → IsLookup self.now.entries.items addr (option_copied result) }
    {
        let above = self
            .entries
            .partition_point(|entry| entry.code_addr <= addr);
        if above == 0 {
            return None;
        }
        Some(&self.entries[above - 1])
    }
}

impl<'a> JitCodeUnwindingInfoRecord<'a> {
    /// Parses a body: the sizes of the data, of its index and of its mapped part of 8 bytes each, and the
    /// data, which starts with the index. Bytes after the data are ignored.
    ///
    /// Returns an `UnexpectedEof` error if the first 24 bytes or the data are truncated, or if the index is
    /// longer than the data.
    pub fn parse(endian: Endianness, bytes: RawData<'a>) -> Result<JitCodeUnwindingInfoRecord<'a>>
        ensures value { IfOk result (λ unwinding. IsUnwinding (number_in endian)
            (bytes_of bytes.entry) unwinding) }
        ensures error { IfErr result (λ error. IsUnwindingError (number_in endian)
            (bytes_of bytes.entry) error) }
    {
        let mut rest = bytes;
        let mut fixed = [0u8; UNWINDING_FIXED_SIZE];
        rest.read_exact(&mut fixed)?;
        let mut unwinding = rest.split_off_prefix(read_u64(endian, &fixed) as usize)?;
        let eh_frame_hdr = unwinding.split_off_prefix(read_u64(endian, &fixed[8..]) as usize)?;
        Ok(JitCodeUnwindingInfoRecord {
            mapped_size: read_u64(endian, &fixed[16..]),
            eh_frame_hdr,
            eh_frame: unwinding,
        })
    }

    /// Parses a body as `parse` does, in the byte order `O`.
    pub fn parse_impl<O: FileOrder>(bytes: RawData<'a>) -> Result<JitCodeUnwindingInfoRecord<'a>>
        ensures value { IfOk result (λ unwinding. IsUnwinding O.number_of (bytes_of bytes.entry) unwinding) }
        ensures error { IfErr result (λ error. IsUnwindingError O.number_of (bytes_of bytes.entry) error) }
    {
        JitCodeUnwindingInfoRecord::parse(O::ENDIAN, bytes)
    }
}
