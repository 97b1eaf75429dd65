//! The entries of the procedure linkage table of 32-bit Arm, whose sizes follow from their code.

ghost use Rattle.std.specs.Prelude.{◌≡◌, ◌<◌, ◌≤◌, ◌+◌, IfOk, IfSome, length};
ghost use Rattle.code_symbols.specs.ArmPlt.{AreEntries, arm_size, coded_size, is_thumb_table};
ghost use Rattle.code_symbols.specs.ArmPlt.{start_size, thumb_size};
ghost use Rattle.code_symbols.specs.ArmPlt.{code_encoding_of};

use crate::elf::header::FileHeader;
use crate::elf::input::{Encoding, TableEntry};
use crate::elf::plt::PltEntry;
use perfdata_base::raw::Endianness;
use std::alloc::{AllocError, Global};

// The flag of a big-endian file whose code is little-endian (`EF_ARM_BE8`).
const LITTLE_CODE_FLAG: u32 = 0x0080_0000;

// The first four bytes of the table in Thumb-2 code: `push {lr}` and a half of `ldr.w lr, [pc, #8]`.
const THUMB_START: u32 = 0xf8df_b500;

// The size of the code before the first entry in Thumb-2 code, and that of an entry, in bytes.
const THUMB_SIZE: usize = 16;

// The size of the code before the first entry in Arm code, in bytes.
const ARM_START_SIZE: usize = 20;

// `bx pc`, the first instruction of a stub by which Thumb code calls an entry of Arm code.
const STUB: u16 = 0x4778;

// The size of the stub in bytes.
const STUB_SIZE: usize = 4;

// `add ip, pc, #..` without its immediate, the first instruction of an entry of three instructions.
const SHORT_ENTRY: u32 = 0xe2_8fc6;

const SHORT_SIZE: usize = 12;

// The first instruction of an entry of four instructions.
const LONG_ENTRY: u32 = 0xe2_8fc2;

const LONG_SIZE: usize = 16;

// The entries of a table, in their order, and where they end.
#[derive(Drop)]
pub(crate) struct CodedEntries {
    pub(crate) entries: Vec<PltEntry>,
    pub(crate) end: usize,
}

// The byte order of the code.
pub(crate) fn code_encoding(header: &FileHeader) -> Encoding
    ensures { result ≡ code_encoding_of header.now }
{
    if header.flags & LITTLE_CODE_FLAG == 0 {
        return header.encoding;
    }
    Encoding {
        endian: Endianness::LittleEndian,
        is_64_bit: header.encoding.is_64_bit,
    }
}

// The size of the entry at an offset of a table in Arm code.
fn arm_entry_size(code: TableEntry<'_>, at: usize) -> Option<usize>
    requires { at ≤ length code.bytes.now }
    ensures { result ≡ arm_size code.entry.encoding code.entry.bytes.now at }
{
    let stub_size = if code.read_u16(at) == STUB {
        STUB_SIZE
    } else {
        0
    };
    match code.read_u32(at + stub_size) >> 8 {
        SHORT_ENTRY => Some(stub_size + SHORT_SIZE),
        LONG_ENTRY => Some(stub_size + LONG_SIZE),
        _ => None,
    }
}

// The size of the entry at an offset of a table in Thumb-2 code, which starts with `movw ip, #..`.
fn thumb_entry_size(code: TableEntry<'_>, at: usize) -> Option<usize>
    requires { at ≤ length code.bytes.now }
    ensures { result ≡ thumb_size code.entry.encoding code.entry.bytes.now at }
{
    let is_entry = code.read_u16(at) & 0xfbf0 == 0xf240 && code.read_u16(at + 2) & 0x8f00 == 0x0c00;
    if is_entry { Some(THUMB_SIZE) } else { None }
}

// Whether the table is in Thumb-2 code.
fn is_thumb_table(code: TableEntry<'_>) -> bool
    ensures { result ≡ is_thumb_table code.entry.encoding code.entry.bytes.now }
{
    code.read_u32(0) == THUMB_START
}

// The size of the code before the first entry.
fn start_size(code: TableEntry<'_>) -> usize
    ensures { result ≡ start_size code.entry.encoding code.entry.bytes.now }
{
    if is_thumb_table(code) {
        THUMB_SIZE
    } else {
        ARM_START_SIZE
    }
}

// The size of the entry at an offset of a table.
fn coded_size(code: TableEntry<'_>, at: usize) -> Option<usize>
    requires { at ≤ length code.bytes.now }
    ensures { result ≡ coded_size code.entry.encoding code.entry.bytes.now at }
{
    if is_thumb_table(code) {
        thumb_entry_size(code, at)
    } else {
        arm_entry_size(code, at)
    }
}

// The entry at an offset of a table, if it is completely in the code.
fn coded_entry(code: TableEntry<'_>, at: usize) -> Option<PltEntry>
    requires { at ≤ length code.bytes.now }
    ensures start { IfSome result (λ entry. entry.offset ≡ at) }
    ensures size { IfSome result
        (λ entry. coded_size code.entry.encoding code.entry.bytes.now at ≡ Some entry.size) }
    ensures within { IfSome result (λ entry. at + entry.size ≤ length code.entry.bytes.now) }
    ensures some { IfSome result (λ entry. 0 < entry.size) }
{
    let size = coded_size(code, at)?;
    if size == 0 || size > code.bytes.len() - at {
        return None;
    }
    Some(PltEntry {
        offset: at as u64,
        size: size as u64,
    })
}

// The entries of a table with this code, up to the first code that isn't an entry.
pub(crate) fn coded_entries(alloc: Global, code: TableEntry<'_>) -> Result<CodedEntries, AllocError>
    ensures { IfOk result (λ c. AreEntries code.entry.encoding code.entry.bytes.now c) }
{
    let mut end = start_size(code);
    let mut entries = Vec::new(alloc);
    if end > code.bytes.len() {
        return Ok(CodedEntries { entries, end });
    }
    'entries: while let Some(entry) = coded_entry(code, end) {
        entries.push(entry)?;
        end += entry.size as usize;
    }
    Ok(CodedEntries { entries, end })
}
