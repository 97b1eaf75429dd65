//! Tables of an ELF file, and the numbers in their entries.
ghost use Rattle.std.specs.Prelude.{◌≡◌, ◌≤◌, IfOk, IfSome, length, slice_index};
ghost use Rattle.perfdata_sources.specs.Source.{all_bytes_of};
ghost use Rattle.code_symbols.specs.Contents.{IsRange};
ghost use Rattle.code_symbols.specs.ElfImages.{by_class, half_at, number_at, word_at};

use crate::error::{ElfError, ElfTable};
use perfdata_base::endian;
use perfdata_base::raw::Endianness;
use perfdata_base::source::{AppendError, PlacedSource, append_exact};
use std::alloc::Global;
use std::io::{ErrorKind, SeekFrom};

// The class and the byte order of a file.
#[derive(Clone, Copy)]
pub(crate) struct Encoding {
    pub(crate) endian: Endianness,
    pub(crate) is_64_bit: bool,
}

// An entry of a table. Numbers that aren't completely in its bytes are 0.
#[derive(Clone, Copy)]
pub(crate) struct TableEntry<'a> {
    pub(crate) encoding: Encoding,
    pub(crate) bytes: &'a [u8],
}

impl Encoding {
    // The first value in a 32-bit file, the second in a 64-bit file.
    pub(crate) fn select(self, value_32: usize, value_64: usize) -> usize
        ensures class { result ≡ by_class self value_32 value_64 }
        ensures least { value_32 ≤ value_64 → value_32 ≤ result }
    {
        if self.is_64_bit { value_64 } else { value_32 }
    }
}

impl TableEntry<'_> {
    pub(crate) fn read_u8(&self, at: usize) -> u8
        ensures { result ≡ slice_index self.now.bytes.now at }
    {
        if at < self.bytes.len() {
            self.bytes[at]
        } else {
            0
        }
    }

    pub(crate) fn read_u16(&self, at: usize) -> u16
        ensures { result ≡ number_at self.now.encoding self.now.bytes.now at 2 }
    {
        if at <= self.bytes.len() && 2 <= self.bytes.len() - at {
            endian::read_u16(self.encoding.endian, &self.bytes[at..])
        } else {
            0
        }
    }

    pub(crate) fn read_u32(&self, at: usize) -> u32
        ensures { result ≡ number_at self.now.encoding self.now.bytes.now at 4 }
    {
        if at <= self.bytes.len() && 4 <= self.bytes.len() - at {
            endian::read_u32(self.encoding.endian, &self.bytes[at..])
        } else {
            0
        }
    }

    pub(crate) fn read_u64(&self, at: usize) -> u64
        ensures { result ≡ number_at self.now.encoding self.now.bytes.now at 8 }
    {
        if at <= self.bytes.len() && 8 <= self.bytes.len() - at {
            endian::read_u64(self.encoding.endian, &self.bytes[at..])
        } else {
            0
        }
    }

    // A number of four bytes, at an offset that depends on the class.
    pub(crate) fn half(&self, at_32: usize, at_64: usize) -> u32
        ensures { result ≡ half_at self.now.encoding self.now.bytes.now at_32 at_64 }
    {
        self.read_u32(self.encoding.select(at_32, at_64))
    }

    // A number of four bytes in a 32-bit file, and of eight bytes in a 64-bit file.
    pub(crate) fn word(&self, at_32: usize, at_64: usize) -> u64
        ensures { result ≡ word_at self.now.encoding self.now.bytes.now at_32 at_64 }
    {
        if self.encoding.is_64_bit {
            self.read_u64(at_64)
        } else {
            self.read_u32(at_32) as u64
        }
    }
}

// Reads `size` bytes from an offset on, in pieces of at most 4,096 bytes.
pub(crate) fn read_table<R: PlacedSource>(
    alloc: Global,
    source: &mut R,
    offset: u64,
    size: u64,
    table: ElfTable,
) -> Result<Vec<u8>, ElfError>
    ensures size { IfOk result (λ bytes. length bytes.items ≡ size) }
    ensures range { IfOk result (λ bytes. IfSome (all_bytes_of (R.state source.old).position)
        (λ all. IsRange all offset size bytes.items)) }
    ensures all { all_bytes_of (R.state source.new).position
        ≡ all_bytes_of (R.state source.old).position }
{
    if offset > source.seek_to(SeekFrom::End(0))? {
        return Err(ElfError::Truncated(table));
    }
    source.seek_to(SeekFrom::Start(offset))?;
    let mut bytes = Vec::new(alloc);
    match append_exact(source, &mut bytes, size as usize) {
        Ok(()) => Ok(bytes),
        Err(AppendError::Memory) => Err(ElfError::Memory),
        Err(AppendError::Source(error)) => {
            if error.kind() == ErrorKind::UnexpectedEof {
                Err(ElfError::Truncated(table))
            } else {
                Err(ElfError::Io(error))
            }
        }
    }
}
