//! The bytes of a file without compression.
ghost use Rattle.std.specs.Io.{ReadsAtMost};

use crate::content::{ContentEnd, copy_from_index};
use crate::data_section::DataSection;
use crate::file_layout::{FileLayout, number_bytes};
use std::alloc::Global;
use std::io::{ErrorKind, Read, Result, Seek, SeekFrom};

// Where the size of the data section is in a header.
const SIZE_START: u64 = 48;

const SIZE_END: u64 = 56;

// The size in bytes of the record header at which a reader gets an error of the content.
const ERROR_SIZE: u64 = 8;

/// Returns whether records of a perf.data file are compressed: its header has the feature COMPRESSED, or one
/// of the record headers in the first 64 KiB of its data section is that of a compressed record. The position
/// of the source is unspecified then.
///
/// # Errors
///
/// Returns the errors of the source, and `OutOfMemory` if memory runs out.
pub fn is_compressed_file<R: Read + Seek>(alloc: Global, source: &mut R) -> Result<bool> {
    match FileLayout::read(source)? {
        Some(layout) => layout.is_compressed(alloc, source),
        None => Ok(false),
    }
}

/// Reads the bytes of a perf.data file without compression: whole records of the content of compressed
/// records (types 81 and 83) take the place of each compressed record in the data section. The header has the
/// size of these data, and the sections of features, which follow them, move with their table. All other
/// bytes are those of the file.
///
/// The data are decompressed once at the opening, for their size. Up to 8 MiB of them, from the first
/// compressed record on, are kept if there is memory for them. Larger ones are decompressed again as they are
/// read, and a seek to bytes before those that were read starts again at the first record. Beside a buffer of
/// 64 KiB a window (up to 128 MiB), a block (128 KiB) and a record are held.
///
/// A file without the size of its data section, or that doesn't contain the whole section, is without
/// compression such a file too: its data are those up to its end. From a record on whose size is too small,
/// and from a record that the end of the section cuts, the data are those of the file. The data may end in a
/// record of the content or in a block of the stream, which is no error:
/// [`DecompressedFile::content_end`] says so.
///
/// If content can't be read, the data section ends with eight bytes, and a read of them fails. There are none
/// in a file that doesn't contain its whole section: `content_end` returns the error.
///
/// # Errors
///
/// A read fails with the errors of the source, with `InvalidData` and the text of a
/// [`CompressedError`](crate::CompressedError) at content that can't be read, and with `OutOfMemory` if
/// memory runs out. A seek fails with `InvalidInput` if its target isn't in 0 to `u64::MAX`.
#[derive(Drop)]
pub struct DecompressedFile<R> {
    source: R,
    layout: FileLayout,
    data: DataSection,
    // The size in bytes of the data without compression.
    data_size: u64,
    // The size of the data section in the header.
    size_field: [u8; 8],
    // The table of sections.
    table: Vec<u8>,
    position: u64,
    end: ContentEnd,
}

// Where bytes of the file without compression are.
#[derive(Clone, Copy)]
enum Part {
    // In the source, from an offset on this many bytes.
    Source(u64, u64),
    // In the field with the size of the data section.
    SizeField(u64),
    // In the data.
    Data(u64),
    // In the table of sections.
    Table(u64),
}

// The position at an offset from another one. `None` if it isn't in 0 to `u64::MAX`.
fn position_at_offset(position: u64, offset: i64) -> Option<u64> {
    let size = offset.unsigned_abs();
    if offset >= 0 {
        return position.checked_add(size);
    }
    position.checked_sub(size)
}

impl<R: Read + Seek + Drop> DecompressedFile<R> {
    /// Returns the bytes of a file, from its start on.
    ///
    /// # Errors
    ///
    /// Returns the errors of the source, `InvalidData` if it has no header of a perf.data file, and
    /// `OutOfMemory` if memory runs out, but no error of the content.
    pub fn new(alloc: Global, source: R) -> Result<DecompressedFile<R>> {
        DecompressedFile::open(alloc, source, false)
    }

    /// Returns the bytes of a file, as `new` does. From the first compressed record on whose content can't be
    /// read, all data are those of the file, after the records of its content before the error.
    ///
    /// # Errors
    ///
    /// Those of `new`.
    pub fn with_unreadable_records(alloc: Global, source: R) -> Result<DecompressedFile<R>> {
        DecompressedFile::open(alloc, source, true)
    }

    fn open(alloc: Global, source: R, keeps_unreadable: bool) -> Result<DecompressedFile<R>> {
        let mut source = source;
        let Some(layout) = FileLayout::read(&mut source)? else {
            return Err(ErrorKind::InvalidData.into());
        };
        let algorithm = layout.read_algorithm(&mut source)?;
        let mut data = DataSection::new(alloc, &layout, algorithm, keeps_unreadable)?;
        let (known, end) = data.measure(&mut source)?;
        let data_size = match end {
            ContentEnd::Error(_) if layout.is_whole() && !keeps_unreadable => known.saturating_add(
                ERROR_SIZE,
            ),
            _ => known,
        };
        let new_end = layout.data_start().saturating_add(data_size);
        let table = layout.read_table(alloc, &mut source, new_end)?;
        Ok(DecompressedFile {
            source,
            layout,
            data,
            data_size,
            size_field: number_bytes(layout.endian, layout.header_data_size(data_size)),
            table,
            position: 0,
            end,
        })
    }

    /// Returns where the content of the compressed records ends.
    pub fn content_end(&self) -> ContentEnd {
        self.end
    }

    // Returns the offset of the end of the data.
    fn new_end(&self) -> u64 {
        self.layout.data_start().saturating_add(self.data_size)
    }

    // Returns the length without compression.
    fn length(&self) -> u64 {
        let after = self.layout.length.saturating_sub(self.layout.data_end());
        self.new_end().saturating_add(after)
    }

    // Returns where the bytes at the position are.
    fn part(&self) -> Part {
        let position = self.position;
        let start = self.layout.data_start();
        if position < SIZE_START {
            return Part::Source(position, SIZE_START - position);
        }
        if position < SIZE_END {
            return Part::SizeField(position - SIZE_START);
        }
        if position < start {
            return Part::Source(position, start - position);
        }
        let Some(after) = position.checked_sub(self.new_end()) else {
            return Part::Data(position - start);
        };
        if after < self.table.len() as u64 {
            return Part::Table(after);
        }
        Part::Source(self.layout.data_end().saturating_add(after), u64::MAX)
    }

    // Reads bytes of the source, at most `size`, from an offset on.
    fn read_source(&mut self, offset: u64, size: u64, buf: &mut [u8]) -> Result<usize>
        ensures bound { ReadsAtMost result buf.new }
    {
        if offset >= self.layout.length {
            return Ok(0);
        }
        let size = usize::try_from(size).unwrap_or(usize::MAX).min(buf.len());
        self.source.seek(SeekFrom::Start(offset))?;
        self.source.read(&mut buf[..size])
    }

    // Reads the bytes at the position.
    fn read_part(&mut self, buf: &mut [u8]) -> Result<usize>
        ensures bound { ReadsAtMost result buf.new }
    {
        match self.part() {
            Part::Source(offset, size) => self.read_source(offset, size, buf),
            Part::SizeField(index) => Ok(copy_from_index(&self.size_field, index, buf)),
            Part::Data(position) => self.read_data(position, buf),
            Part::Table(index) => Ok(copy_from_index(&self.table, index, buf)),
        }
    }

    // Reads bytes of the data, from a position on.
    fn read_data(&mut self, position: u64, buf: &mut [u8]) -> Result<usize>
        ensures bound { ReadsAtMost result buf.new }
    {
        let left = self.data_size.saturating_sub(position);
        let size = usize::try_from(left).unwrap_or(usize::MAX).min(buf.len());
        self.data.read(&mut self.source, position, &mut buf[..size])
    }
}

impl<R: Read + Seek + Drop> Read for DecompressedFile<R> {
    fn read(&mut self, buf: &mut [u8]) -> Result<usize> {
        if buf.is_empty() {
            return Ok(0);
        }
        let count = self.read_part(buf)?;
        self.position = self.position.saturating_add(count as u64);
        Ok(count)
    }
}

impl<R: Read + Seek + Drop> Seek for DecompressedFile<R> {
    fn seek(&mut self, to: SeekFrom) -> Result<u64> {
        let target = match to {
            SeekFrom::Start(position) => Some(position),
            SeekFrom::Current(offset) => position_at_offset(self.position, offset),
            SeekFrom::End(offset) => position_at_offset(self.length(), offset),
        };
        match target {
            Some(position) => {
                self.position = position;
                Ok(position)
            }
            None => Err(ErrorKind::InvalidInput.into()),
        }
    }
}
