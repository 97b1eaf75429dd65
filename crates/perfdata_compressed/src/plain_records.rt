//! Records without compression: the bytes that are read of a recording, with whole records of the content in
//! the place of each compressed record.

use crate::content::{Content, ContentEnd, bytes_between};
use crate::error::CompressedError;
use crate::record_step::{HEADER_SIZE, RecordStep, plain_size, record_step};
use perfdata_base::endian::{Endianness, read_u64};
use perfdata_base::header::endian_of_magic;
use std::alloc::{AllocError, Global};

/// The size in bytes of the buffer of the input, in which any record fits without its aux data.
pub(crate) const BUFFER_SIZE: usize = 65536;

// The algorithm zstd.
const ZSTD: u32 = 1;

// The size in bytes of the header of a pipe that has no extra bytes.
const PIPE_HEADER_SIZE: usize = 16;

// The size in bytes of the field before the data of a record of type 83.
const SIZE_FIELD: usize = 8;

// What is known of the bytes that weren't taken.
#[derive(Clone, Copy, Debug, PartialEq, Eq)]
enum Part {
    // The header of a pipe.
    PipeHeader,
    // This many bytes that pass through, and then a record.
    Records(u64),
    // A compressed record, whose data from here to there aren't decompressed yet.
    Compressed(usize, usize),
    // All bytes pass through.
    Rest,
}

/// The input of records in a buffer, and the content of their compressed ones.
#[derive(Drop)]
pub(crate) struct PlainRecords {
    is_pipe: bool,
    endian: Endianness,
    // The input that was read is before `end`; what is before `start` was taken, or is a compressed record.
    input: Vec<u8>,
    start: usize,
    end: usize,
    part: Part,
    content: Content,
    // The algorithm of the compressed data, if it is known.
    algorithm: Option<u32>,
    error: Option<CompressedError>,
    // Where the compressed record starts whose content is read.
    record: usize,
    has_compressed: bool,
    // Whether all bytes from a compressed record on pass through if its content can't be read.
    keeps_unreadable: bool,
}

// Where the compressed data in a record with these bytes start and end.
fn data_range(
    endian: Endianness,
    record: &[u8],
    has_size: bool,
) -> Result<(usize, usize), CompressedError> {
    if !has_size {
        return Ok((HEADER_SIZE, record.len()));
    }
    let Some(field) = record.get(HEADER_SIZE..16) else {
        return Err(CompressedError::DataSize);
    };
    let start = HEADER_SIZE + SIZE_FIELD;
    let size = read_u64(endian, field);
    if size > record.len().saturating_sub(start) as u64 {
        return Err(CompressedError::DataSize);
    }
    Ok((start, start.saturating_add(size as usize)))
}

impl PlainRecords {
    fn with_part(
        alloc: Global,
        endian: Endianness,
        part: Part,
        algorithm: Option<u32>,
    ) -> Result<PlainRecords, AllocError> {
        let mut input = Vec::new(alloc);
        input.resize(BUFFER_SIZE, 0u8)?;
        Ok(PlainRecords {
            is_pipe: part == Part::PipeHeader,
            endian,
            input,
            start: 0,
            end: 0,
            part,
            content: Content::new(alloc),
            algorithm,
            error: None,
            record: 0,
            has_compressed: false,
            keeps_unreadable: false,
        })
    }

    /// Returns the records of a pipe, from its header on.
    ///
    /// Fails if the allocation of the buffer fails.
    pub(crate) fn of_pipe(alloc: Global) -> Result<PlainRecords, AllocError> {
        PlainRecords::with_part(alloc, Endianness::LittleEndian, Part::PipeHeader, None)
    }

    /// Returns the records of a data section, with the algorithm of their compressed data.
    ///
    /// Fails if the allocation of the buffer fails.
    pub(crate) fn of_section(
        alloc: Global,
        endian: Endianness,
        algorithm: u32,
    ) -> Result<PlainRecords, AllocError> {
        PlainRecords::with_part(alloc, endian, Part::Records(0), Some(algorithm))
    }

    /// Lets all bytes pass through from the first compressed record on whose content can't be read, after
    /// the records of its content before the error.
    pub(crate) fn keep_unreadable(&mut self) {
        self.keeps_unreadable = true;
    }

    /// Whether a compressed record was read.
    pub(crate) fn has_compressed(&self) -> bool {
        self.has_compressed
    }

    /// Frees the memory of the buffer and of the content. No record is left.
    pub(crate) fn free(&mut self, alloc: Global) {
        self.input = Vec::new(alloc);
        self.content = Content::new(alloc);
        self.part = Part::Rest;
    }

    /// The input that wasn't taken.
    pub(crate) fn rest(&self) -> &[u8] {
        bytes_between(&self.input, self.start, self.end)
    }

    // How many bytes of the input that wasn't taken pass through.
    fn passing(&self) -> usize {
        let rest = self.rest().len();
        match self.part {
            Part::Records(size) if size < rest as u64 => size as usize,
            Part::Records(_) | Part::Rest => rest,
            Part::PipeHeader | Part::Compressed(_, _) => 0,
        }
    }

    /// The bytes that can be taken.
    pub(crate) fn known(&self) -> &[u8] {
        let records = self.content.records();
        if !records.is_empty() {
            return records;
        }
        bytes_between(
            &self.input,
            self.start,
            self.start.saturating_add(self.passing()),
        )
    }

    /// Returns the next bytes of the records; none if more input is needed for them.
    ///
    /// # Errors
    ///
    /// Returns why the content of a compressed record can't be read, once all bytes before were taken, then
    /// and at each later call.
    pub(crate) fn next_bytes(&mut self) -> Result<&[u8], CompressedError> {
        for _ in 0..u64::MAX {
            if !self.known().is_empty() || !self.advance()? {
                break;
            }
        }
        Ok(self.known())
    }

    /// Takes some of the bytes that `next_bytes` returned.
    pub(crate) fn take(&mut self, count: usize) {
        if !self.content.records().is_empty() {
            self.content.take(count);
            return;
        }
        let taken = count.min(self.passing());
        self.start = self.start.saturating_add(taken);
        if let Part::Records(size) = self.part {
            self.part = Part::Records(size.saturating_sub(taken as u64));
        }
    }

    // Goes on after what was taken. Returns `false` if more input is needed.
    fn advance(&mut self) -> Result<bool, CompressedError> {
        if self.part == Part::Rest {
            return Ok(false);
        }
        if let Some(error) = self.error {
            return Err(error);
        }
        let advanced = match self.part {
            Part::PipeHeader => Ok(self.read_pipe_header()),
            Part::Records(0) => self.read_record(),
            Part::Records(_) | Part::Rest => Ok(false),
            Part::Compressed(start, end) => self.decompress(start, end),
        };
        match advanced {
            Err(error) => self.fail(error),
            advanced => advanced,
        }
    }

    // Ends the records with an error, or lets the rest from its compressed record on pass through.
    fn fail(&mut self, error: CompressedError) -> Result<bool, CompressedError> {
        self.error = Some(error);
        if !self.keeps_unreadable {
            return Err(error);
        }
        self.start = self.record;
        self.part = Part::Rest;
        Ok(true)
    }

    // Reads the header of a pipe, which passes through. Without its magic all bytes do.
    fn read_pipe_header(&mut self) -> bool {
        let Some(header) = self.rest().first_chunk::<PIPE_HEADER_SIZE>() else {
            return false;
        };
        let Some(magic) = header.first_chunk::<8>() else {
            return false;
        };
        match endian_of_magic(magic) {
            Some(endian) => {
                let size = read_u64(endian, &header[8..]);
                self.endian = endian;
                self.part = Part::Records(size.max(PIPE_HEADER_SIZE as u64));
            }
            None => self.part = Part::Rest,
        }
        true
    }

    // Reads the header of the next records.
    fn read_record(&mut self) -> Result<bool, CompressedError> {
        let size = plain_size(self.endian, self.rest());
        if size != 0 {
            self.part = Part::Records(size);
            return Ok(true);
        }
        match record_step(self.endian, self.rest()) {
            RecordStep::Partial => return Ok(false),
            RecordStep::Invalid => self.part = Part::Rest,
            RecordStep::Plain(size) => self.part = Part::Records(size),
            RecordStep::Algorithm(size, algorithm) => {
                self.algorithm = self.algorithm.or(Some(algorithm));
                self.part = Part::Records(u64::from(size));
            }
            // No record header says how many bytes of tracing data follow in a pipe.
            RecordStep::TracingData(_) if self.is_pipe => self.part = Part::Rest,
            RecordStep::TracingData(size) => self.part = Part::Records(u64::from(size)),
            RecordStep::Compressed(size, has_size) => {
                return self.read_compressed(usize::from(size), has_size);
            }
        }
        Ok(true)
    }

    // Begins with a compressed record of this size, if it is whole.
    fn read_compressed(&mut self, size: usize, has_size: bool) -> Result<bool, CompressedError> {
        self.record = self.start;
        let Some(record) = self.rest().get(..size) else {
            return Ok(false);
        };
        let algorithm = self.algorithm.unwrap_or(ZSTD);
        if algorithm != ZSTD {
            return Err(CompressedError::Algorithm(algorithm));
        }
        let (start, end) = data_range(self.endian, record, has_size)?;
        let record = self.start;
        self.has_compressed = true;
        self.part = Part::Compressed(record.saturating_add(start), record.saturating_add(end));
        self.start = record.saturating_add(size);
        Ok(true)
    }

    // Decompresses a block of the data from `start` to `end`.
    fn decompress(&mut self, start: usize, end: usize) -> Result<bool, CompressedError> {
        let mut data = bytes_between(&self.input, start, end);
        let has_more = self.content.add_block(self.endian, &mut data)?;
        self.part = if has_more {
            Part::Compressed(end.saturating_sub(data.len()), end)
        } else {
            Part::Records(0)
        };
        Ok(true)
    }

    /// Returns where more input is read to, once `next_bytes` has returned none.
    pub(crate) fn input_space(&mut self) -> &mut [u8] {
        let end = self.end.min(self.input.len());
        let start = self.start.min(end);
        if start != 0 {
            self.input.copy_within(start..end, 0);
        }
        self.start = 0;
        self.end = end - start;
        let (_, space) = self.input.split_at_mut(end - start);
        space
    }

    /// Adds bytes of the input, which were read to the start of `input_space`. None are the end of the input:
    /// the bytes of a partial record pass through.
    pub(crate) fn add_input(&mut self, count: usize) {
        self.end = self.end.saturating_add(count).min(self.input.len());
        if count == 0 && self.start < self.end {
            self.part = Part::Rest;
        }
    }

    /// Returns where the content ends, once all bytes were taken.
    pub(crate) fn content_end(&self) -> ContentEnd {
        match self.error {
            Some(error) => ContentEnd::Error(error),
            None => self.content.end(),
        }
    }
}
