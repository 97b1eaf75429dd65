//! The data section of a file without compression.
ghost use Rattle.std.specs.Io.{ReadsAtMost};

use crate::content::ContentEnd;
use crate::error::CompressedError;
use crate::file_layout::FileLayout;
use crate::kept_records::KeptRecords;
use crate::pipe::take_known;
use crate::plain_records::PlainRecords;
use perfdata_base::endian::Endianness;
use std::alloc::Global;
use std::io::{Read, Result, Seek, SeekFrom};

// The size in bytes of the first records, from which the size of all is judged.
const JUDGED_SIZE: u64 = 1 << 20;

// The judged size in bytes of records from which on none are kept: twice what is kept.
const TOO_LONG: u64 = 1 << 24;

/// The records of a data section without compression, from a position on.
#[derive(Drop)]
pub(crate) struct DataSection {
    alloc: Global,
    endian: Endianness,
    algorithm: u32,
    keeps_unreadable: bool,
    // The offsets of the section's start and end in the file, and of the input that is read next.
    start: u64,
    end: u64,
    next: u64,
    records: PlainRecords,
    // How many bytes of the records were taken.
    position: u64,
    kept: KeptRecords,
    // Why content after the kept records can't be read.
    error: Option<CompressedError>,
}

impl DataSection {
    /// The records of the data section of a file, with the algorithm of their compressed data. From the first
    /// compressed record on whose content can't be read all bytes pass through, if they are kept.
    ///
    /// Fails if the allocation of the buffer fails.
    pub(crate) fn new(
        alloc: Global,
        layout: &FileLayout,
        algorithm: u32,
        keeps_unreadable: bool,
    ) -> Result<DataSection> {
        Ok(DataSection {
            alloc,
            endian: layout.endian,
            algorithm,
            keeps_unreadable,
            start: layout.data_start(),
            end: layout.data_end(),
            next: layout.data_start(),
            records: PlainRecords::of_section(alloc, layout.endian, algorithm)?,
            position: 0,
            kept: KeptRecords::new(alloc),
            error: None,
        })
    }

    // Starts again at the first record.
    fn restart(&mut self) -> Result<()> {
        self.records = PlainRecords::of_section(self.alloc, self.endian, self.algorithm)?;
        if self.keeps_unreadable {
            self.records.keep_unreadable();
        }
        self.next = self.start;
        self.position = 0;
        Ok(())
    }

    // Reads more input. Returns `false` at the end of the section.
    fn read_input<R: Read + Seek>(&mut self, source: &mut R) -> Result<bool> {
        let left = self.end.saturating_sub(self.next);
        let space = self.records.input_space();
        let size = usize::try_from(left).unwrap_or(usize::MAX).min(space.len());
        let (space, _) = space.split_at_mut(size);
        source.seek(SeekFrom::Start(self.next))?;
        let count = source.read(space)?;
        self.next = self.next.saturating_add(count as u64);
        self.records.add_input(count);
        Ok(count != 0)
    }

    // Reads input until there are bytes of records. Returns their number, which is 0 at the end.
    fn count_known<R: Read + Seek>(
        &mut self,
        source: &mut R,
    ) -> Result<std::result::Result<usize, CompressedError>> {
        let mut has_input = true;
        for _ in 0..u64::MAX {
            match self.records.next_bytes() {
                Ok(bytes) if bytes.is_empty() && has_input => {}
                Ok(bytes) => return Ok(Ok(bytes.len())),
                Err(error) => return Ok(Err(error)),
            }
            has_input = self.read_input(source)?;
        }
        Ok(Ok(0))
    }

    // Takes bytes.
    fn take(&mut self, count: usize) {
        self.records.take(count);
        self.position = self.position.saturating_add(count as u64);
    }

    // Whether the records will be too many to keep, by what was read of the section so far.
    fn is_too_long(&self) -> bool {
        let unread = self.records.rest().len() as u64;
        let read = self.next.saturating_sub(self.start).saturating_sub(unread);
        let size = self.end.saturating_sub(self.start);
        self.position >= JUDGED_SIZE
            && self.position.saturating_mul(size) > TOO_LONG.saturating_mul(read)
    }

    // Keeps the bytes that are known. The file has those before the first compressed record.
    fn keep(&mut self, count: usize) {
        if !self.records.has_compressed() {
            self.kept.skip(count);
        } else if self.is_too_long() {
            self.kept.forget();
        } else {
            self.kept.add(self.records.known());
        }
    }

    // Reads all records, and keeps them. Returns their size in bytes up to the end, or to content that can't
    // be read, and where the content ends.
    fn measure_records<R: Read + Seek>(&mut self, source: &mut R) -> Result<(u64, ContentEnd)> {
        self.restart()?;
        for _ in 0..u64::MAX {
            match self.count_known(source)? {
                Ok(0) => break,
                Ok(count) => {
                    self.keep(count);
                    self.take(count);
                }
                Err(error) => return Ok((self.position, ContentEnd::Error(error))),
            }
        }
        Ok((self.position, self.records.content_end()))
    }

    /// Reads all records. Returns their size in bytes up to the end, or to content that can't be read, and
    /// where the content ends.
    pub(crate) fn measure<R: Read + Seek>(&mut self, source: &mut R) -> Result<(u64, ContentEnd)> {
        let (size, end) = self.measure_records(source)?;
        let error = match end {
            ContentEnd::Error(error) => Some(error),
            _ => None,
        };
        if !self.kept.is_complete() {
            return Ok((size, end));
        }
        if error.is_some_and(|error| error.is_out_of_memory()) {
            self.kept.forget();
            return self.measure_records(source);
        }
        if !self.keeps_unreadable {
            self.error = error;
        }
        self.records.free(self.alloc);
        Ok((size, end))
    }

    // Moves to a position, from the start if it was passed. Returns `false` if the records end before.
    fn move_position<R: Read + Seek>(&mut self, source: &mut R, position: u64) -> Result<bool> {
        if position < self.position {
            self.restart()?;
        }
        for _ in 0..u64::MAX {
            let left = position.saturating_sub(self.position);
            if left == 0 {
                return Ok(true);
            }
            let count = match self.count_known(source)? {
                Ok(0) => break,
                Ok(count) => count,
                Err(error) => return Err(error.io_error()),
            };
            self.take(usize::try_from(left).unwrap_or(usize::MAX).min(count));
        }
        Ok(false)
    }

    // Reads the bytes at a position of the records, which are kept.
    fn read_kept<R: Read + Seek>(
        &mut self,
        source: &mut R,
        position: u64,
        buf: &mut [u8],
    ) -> Result<usize>
        ensures bound { ReadsAtMost result buf.new }
    {
        if let Some(left) = self.kept.start().checked_sub(position)
            && left != 0
        {
            source.seek(SeekFrom::Start(self.start.saturating_add(position)))?;
            let size = usize::try_from(left).unwrap_or(usize::MAX).min(buf.len());
            return source.read(&mut buf[..size]);
        }
        let count = self.kept.take(position, buf);
        match self.error {
            Some(error) if count == 0 && !buf.is_empty() => Err(error.io_error()),
            _ => Ok(count),
        }
    }

    /// Reads the bytes at a position of the records, which were measured.
    pub(crate) fn read<R: Read + Seek>(
        &mut self,
        source: &mut R,
        position: u64,
        buf: &mut [u8],
    ) -> Result<usize>
        ensures bound { ReadsAtMost result buf.new }
    {
        if self.kept.has(position) {
            return self.read_kept(source, position, buf);
        }
        if !self.move_position(source, position)? {
            return Ok(0);
        }
        if let Err(error) = self.count_known(source)? {
            return Err(error.io_error());
        }
        let count = take_known(&mut self.records, buf)?;
        self.position = self.position.saturating_add(count as u64);
        Ok(count)
    }
}
