//! The header of the call frame information (Linux Standard Base, section "The .eh_frame_hdr section").

use crate::elf::ElfFile;
use crate::elf::code::loaded_from;
use crate::elf::input::{Encoding, TableEntry, read_table};
use crate::elf::sections::SectionBytes;
use crate::error::{ElfError, ElfTable};
use perfdata_base::source::PlacedSource;
use std::alloc::Global;

// The version of the header.
const VERSION: u8 = 1;

// The largest part of the header before its table: four bytes, and a number.
const MAX_START_SIZE: u64 = 12;

// The offset of the address of `.eh_frame`.
const POINTER_OFFSET: usize = 4;

// A number whose sign is the bit with the value `sign`, extended to 64 bits.
fn sign_extended(number: u64, sign: u64) -> u64 {
    (number ^ sign).wrapping_sub(sign)
}

// The number of an encoded pointer (`DW_EH_PE_..`), extended to 64 bits by its sign.
fn encoded_number(entry: TableEntry<'_>, format: u8) -> Option<u64> {
    match format {
        0 => Some(entry.word(POINTER_OFFSET, POINTER_OFFSET)),
        2 => Some(entry.read_u16(POINTER_OFFSET) as u64),
        3 => Some(entry.read_u32(POINTER_OFFSET) as u64),
        4 | 12 => Some(entry.read_u64(POINTER_OFFSET)),
        10 => Some(sign_extended(entry.read_u16(POINTER_OFFSET) as u64, 0x8000)),
        11 => Some(sign_extended(entry.read_u32(POINTER_OFFSET) as u64, 0x8000_0000)),
        _ => None,
    }
}

// The address of `.eh_frame` in the header with these bytes at an address.
fn frame_address(encoding: Encoding, bytes: &[u8], address: u64) -> Option<u64> {
    let entry = TableEntry { encoding, bytes };
    if bytes.len() < POINTER_OFFSET || entry.read_u8(0) != VERSION {
        return None;
    }
    let pointer_encoding = entry.read_u8(1);
    let number = encoded_number(entry, pointer_encoding % 16)?;
    let start = match pointer_encoding / 16 {
        0 => 0,
        1 => address.wrapping_add(POINTER_OFFSET as u64),
        3 => address,
        _ => return None,
    };
    let found = start.wrapping_add(number);
    if encoding.is_64_bit {
        Some(found)
    } else {
        Some(found % 0x1_0000_0000)
    }
}

impl<R: PlacedSource + Drop> ElfFile<R> {
    /// Reads `.eh_frame`: the section of that name, or `None` if the file has section headers and no such
    /// section with contents.
    ///
    /// Of a file without section headers it is the bytes of the segment from the address on that
    /// `.eh_frame_hdr` gives (`PT_GNU_EH_FRAME`), to the end of the segment, or `None` if there is no such
    /// segment. They may have other bytes after those of `.eh_frame`, whose end is an entry of length 0.
    ///
    /// It fails with `Truncated(FrameHeader)` and `Truncated(Segment)` where these aren't completely within
    /// the file; its other errors are those of [`ElfFile::read_section`].
    pub fn read_eh_frame(&mut self, alloc: Global) -> Result<Option<SectionBytes>, ElfError> {
        if !self.sections.is_empty() {
            return self.read_section(alloc, b".eh_frame");
        }
        let Some(header) = self.frame_header else {
            return Ok(None);
        };
        let size = header.file_size.min(MAX_START_SIZE);
        let start = read_table(
            alloc,
            &mut self.source,
            header.offset,
            size,
            ElfTable::FrameHeader,
        )?;
        let Some(address) = frame_address(self.header.encoding, &start, header.address) else {
            return Ok(None);
        };
        let Some(range) = loaded_from(&self.segments, address) else {
            return Ok(None);
        };
        let bytes = read_table(
            alloc,
            &mut self.source,
            range.offset,
            range.size,
            ElfTable::Segment,
        )?;
        Ok(Some(SectionBytes {
            address,
            bytes,
            compression: None,
        }))
    }
}
