//! Where the parts of a file are, and the parts that are other ones without compression.
ghost use Rattle.std.specs.Prelude.{◌≡◌, ◌+◌, ◌-◌, ◌^◌, ◌<◌, ◌≤◌};

use crate::record_step::has_compressed;
use perfdata_base::endian::{Endianness, read_u32, read_u64};
use perfdata_base::features::Feature;
use perfdata_base::header::{PerfHeader, endian_of_magic};
use perfdata_base::section::PerfFileSection;
use std::alloc::Global;
use std::io::{Cursor, ErrorKind, Read, Result, Seek, SeekFrom};

// The size of the header in bytes.
const HEADER_SIZE: usize = 104;

// The size in bytes of the start of the data section that shows whether records are compressed.
const START_SIZE: u64 = 65536;

// The size in bytes of a section's offset in a table, and of its size.
const NUMBER_SIZE: usize = 8;

// The offset of the algorithm in the section of the feature COMPRESSED, after its version.
const ALGORITHM_OFFSET: u64 = 4;

// The algorithm zstd.
const ZSTD: u32 = 1;

/// The parts of a file of this length.
#[derive(Clone, Copy)]
pub(crate) struct FileLayout {
    pub(crate) endian: Endianness,
    header: PerfHeader,
    pub(crate) length: u64,
}

/// The bytes of a number.
pub(crate) fn number_bytes(endian: Endianness, number: u64) -> [u8; NUMBER_SIZE] {
    match endian {
        Endianness::LittleEndian => number.to_le_bytes(),
        Endianness::BigEndian => number.to_be_bytes(),
    }
}

// Reads the bytes at an offset. There are none if the file ends before.
fn read_array<const N: usize, R: Read + Seek>(
    source: &mut R,
    offset: u64,
) -> Result<Option<[u8; N]>> {
    let mut bytes = [0u8; N];
    source.seek(SeekFrom::Start(offset))?;
    let read = source.read_exact(&mut bytes);
    if let Err(error) = &read
        && error.kind() == ErrorKind::UnexpectedEof
    {
        return Ok(None);
    }
    read?;
    Ok(Some(bytes))
}

// Reads at most this many bytes from an offset on.
fn read_bytes<R: Read + Seek>(
    alloc: Global,
    source: &mut R,
    offset: u64,
    size: u64,
) -> Result<Vec<u8>> {
    let mut bytes = Vec::new(alloc);
    source.seek(SeekFrom::Start(offset))?;
    source.by_ref().take(size).read_to_end(&mut bytes)?;
    Ok(bytes)
}

// The table of sections after data whose end moves. Sections after the data move with it.
fn moved_table(
    alloc: Global,
    endian: Endianness,
    table: &[u8],
    old_end: u64,
    new_end: u64,
) -> Result<Vec<u8>> {
    let mut moved = Vec::new(alloc);
    let mut rest = table;
    for _ in 0..table.len() {
        let Some((offset, after)) = rest.split_at_checked(NUMBER_SIZE) else {
            break;
        };
        let offset = moved_offset(read_u64(endian, offset), old_end, new_end);
        moved.extend_from_slice(&number_bytes(endian, offset))?;
        let (size, next) = after.split_at(NUMBER_SIZE.min(after.len()));
        moved.extend_from_slice(size)?;
        rest = next;
    }
    moved.extend_from_slice(rest)?;
    Ok(moved)
}

/// The offset of a section, whose distance from the end of the data stays the same if it is after it.
pub(crate) fn moved_offset(offset: u64, old_end: u64, new_end: u64) -> u64
    ensures before { offset < old_end → result ≡ offset }
    ensures after { old_end ≤ offset → new_end + (offset - old_end) < 2 ^ 64
        → result ≡ new_end + (offset - old_end) }
{
    match offset.checked_sub(old_end) {
        Some(distance) => new_end.saturating_add(distance),
        None => offset,
    }
}

impl FileLayout {
    /// Reads the layout of a file; `None` if it has no valid header.
    pub(crate) fn read<R: Read + Seek>(source: &mut R) -> Result<Option<FileLayout>> {
        let Some(bytes) = read_array::<HEADER_SIZE, R>(source, 0)? else {
            return Ok(None);
        };
        let Ok(header) = PerfHeader::parse_from(&mut Cursor::new(&bytes[..])) else {
            return Ok(None);
        };
        let Some(endian) = endian_of_magic(&header.magic) else {
            return Ok(None);
        };
        let length = source.seek(SeekFrom::End(0))?;
        let start = header.data_section.offset;
        if start < HEADER_SIZE as u64 || start > length {
            return Ok(None);
        }
        Ok(Some(FileLayout {
            endian,
            header,
            length,
        }))
    }

    // Returns where the data section ends by the header, if it has a size and the file contains it.
    fn whole_end(&self) -> Option<u64> {
        let data = self.header.data_section;
        let end = data.offset.checked_add(data.size)?;
        (data.size != 0 && end <= self.length).then_some(end)
    }

    /// Whether the file contains the whole data section.
    pub(crate) fn is_whole(&self) -> bool {
        self.whole_end().is_some()
    }

    /// The offset of the data.
    pub(crate) fn data_start(&self) -> u64 {
        self.header.data_section.offset
    }

    /// The offset of the end of the data: that of the file, if it doesn't contain the whole section.
    pub(crate) fn data_end(&self) -> u64 {
        self.whole_end().unwrap_or(self.length)
    }

    /// Whether records are compressed: by the features, or by a record at the start of the data.
    pub(crate) fn is_compressed<R: Read + Seek>(
        &self,
        alloc: Global,
        source: &mut R,
    ) -> Result<bool> {
        if self.header.features.has_feature(Feature::COMPRESSED) {
            return Ok(true);
        }
        let start = self.data_start();
        let size = self.data_end().saturating_sub(start).min(START_SIZE);
        let bytes = read_bytes(alloc, source, start, size)?;
        Ok(has_compressed(self.endian, &bytes))
    }

    // The number of sections before that of the feature COMPRESSED; `None` if there is none.
    fn compressed_index(&self) -> Option<u64> {
        let mut index = 0u64;
        for feature in self.header.features.iter() {
            if feature == Feature::COMPRESSED {
                return Some(index);
            }
            index = index.saturating_add(1);
        }
        None
    }

    /// Reads the algorithm of the compressed data: zstd, unless the feature COMPRESSED has another one.
    pub(crate) fn read_algorithm<R: Read + Seek>(&self, source: &mut R) -> Result<u32> {
        let (Some(index), Some(table)) = (self.compressed_index(), self.whole_end()) else {
            return Ok(ZSTD);
        };
        let entry = table.saturating_add(index.saturating_mul(PerfFileSection::STRUCT_SIZE));
        let Some(section) = read_array::<NUMBER_SIZE, R>(source, entry)? else {
            return Ok(ZSTD);
        };
        let section = read_u64(self.endian, &section);
        let algorithm = section.saturating_add(ALGORITHM_OFFSET);
        if algorithm > self.length {
            return Ok(ZSTD);
        }
        match read_array::<4, R>(source, algorithm)? {
            Some(bytes) => Ok(read_u32(self.endian, &bytes)),
            None => Ok(ZSTD),
        }
    }

    /// The size of the data section in a header before data of this size. It stays 0 without one, and larger
    /// than the data by the missing bytes.
    pub(crate) fn header_data_size(&self, size: u64) -> u64 {
        let data = self.header.data_section;
        if data.size == 0 {
            return 0;
        }
        let missing = data
            .size
            .saturating_sub(self.data_end().saturating_sub(data.offset));
        size.saturating_add(missing)
    }

    /// Reads the table of sections after data whose end moves to `new_end`. It may be truncated.
    pub(crate) fn read_table<R: Read + Seek>(
        &self,
        alloc: Global,
        source: &mut R,
        new_end: u64,
    ) -> Result<Vec<u8>> {
        let Some(end) = self.whole_end() else {
            return Ok(Vec::new(alloc));
        };
        let count = self.header.features.len() as u64;
        let size = count.saturating_mul(PerfFileSection::STRUCT_SIZE);
        let table = read_bytes(alloc, source, end, size)?;
        moved_table(alloc, self.endian, &table, end, new_end)
    }
}
