//! The content of compressed records: whole records, block by block.
ghost use Rattle.std.specs.Prelude.{◌≤◌, length};

use crate::error::CompressedError;
use crate::record_step::HEADER_SIZE;
use perfdata_base::endian::Endianness;
use perfdata_base::event::{PerfEventHeader, RecordType};
use std::alloc::{AllocError, Global};
use zstd::StreamDecoder;

/// Where the content of the compressed records of a recording ends.
#[derive(Clone, Copy, Debug, PartialEq, Eq)]
pub enum ContentEnd {
    /// After a record and a block, or there are no compressed records.
    Whole,
    /// In a block of the stream, or in the header of its frame.
    InBlock,
    /// In a record, of which this many bytes are there.
    InRecord(usize),
    /// Before content that can't be read.
    Error(CompressedError),
}

/// The content of compressed records, of which whole records are taken.
#[derive(Drop)]
pub(crate) struct Content {
    decoder: StreamDecoder,
    // Content of a few blocks. What is before `start` was taken. From there to before `end` are whole
    // records.
    bytes: Vec<u8>,
    start: usize,
    end: usize,
    // Why what is behind the whole records is no record.
    error: Option<CompressedError>,
}

/// The bytes from `start` to before `end`, as far as they are there.
pub(crate) fn bytes_between(bytes: &[u8], start: usize, end: usize) -> &[u8] {
    let (before, _) = bytes.split_at(end.min(bytes.len()));
    let (_, between) = before.split_at(start.min(before.len()));
    between
}

/// Copies bytes from an index on, as many as there are.
pub(crate) fn copy_from_index(bytes: &[u8], index: u64, buf: &mut [u8]) -> usize
    ensures bound { result ≤ length buf.new }
{
    let start = usize::try_from(index)
        .unwrap_or(usize::MAX)
        .min(bytes.len());
    let (_, rest) = bytes.split_at(start);
    let count = rest.len().min(buf.len());
    let (copied, _) = rest.split_at(count);
    buf[..count].copy_from_slice(copied);
    count
}

// The size of the record at the start of the bytes. `None` if it isn't whole.
fn record_size(endian: Endianness, bytes: &[u8]) -> Result<Option<usize>, CompressedError> {
    let Some(header) = PerfEventHeader::peek(endian, bytes) else {
        return Ok(None);
    };
    let size = usize::from(header.size);
    if size < HEADER_SIZE {
        return Err(CompressedError::RecordSize);
    }
    if !RecordType(header.type_).is_builtin_type() {
        return Err(CompressedError::RecordType(header.type_));
    }
    if bytes.len() < size {
        return Ok(None);
    }
    Ok(Some(size))
}

// The size of the whole records at the start of the bytes, and why what follows is no record.
fn records_size(endian: Endianness, bytes: &[u8]) -> (usize, Option<CompressedError>) {
    let mut rest = bytes;
    for _ in 0..bytes.len() {
        match record_size(endian, rest) {
            Ok(Some(size)) => rest = rest.get(size..).unwrap_or(&[]),
            Ok(None) => break,
            Err(error) => return (bytes.len().saturating_sub(rest.len()), Some(error)),
        }
    }
    (bytes.len().saturating_sub(rest.len()), None)
}

impl Content {
    /// The content of no compressed record. Nothing is allocated.
    pub(crate) fn new(alloc: Global) -> Content {
        Content {
            decoder: StreamDecoder::new(alloc),
            bytes: Vec::new(alloc),
            start: 0,
            end: 0,
            error: None,
        }
    }

    /// Whole records that weren't taken.
    pub(crate) fn records(&self) -> &[u8] {
        bytes_between(&self.bytes, self.start, self.end)
    }

    /// Takes bytes of whole records.
    pub(crate) fn take(&mut self, count: usize) {
        self.start = self.start.saturating_add(count).min(self.end);
    }

    // Removes the content that was taken.
    fn remove_taken(&mut self) {
        let end = self.bytes.len();
        let start = self.start.min(end);
        self.bytes.copy_within(start..end, 0);
        self.bytes.truncate(end - start);
        self.start = 0;
        self.end = 0;
    }

    /// Adds the content of the next block of the data, once all records were taken. Returns `false` if all
    /// data are decompressed. The records have this byte order.
    ///
    /// # Errors
    ///
    /// Returns why the content can't be read, then and at each later call.
    pub(crate) fn add_block(
        &mut self,
        endian: Endianness,
        data: &mut &[u8],
    ) -> Result<bool, CompressedError> {
        if let Some(error) = self.error {
            return Err(error);
        }
        self.remove_taken();
        let content = self.decoder.decode(data)?;
        let is_last = content.is_empty() && data.is_empty();
        self.bytes.extend_from_slice(content)?;
        let (size, error) = records_size(endian, &self.bytes);
        self.end = size;
        self.error = error;
        Ok(!is_last)
    }

    /// Returns where the content ends, once all records were taken.
    pub(crate) fn end(&self) -> ContentEnd {
        match self.bytes.len().saturating_sub(self.end) {
            0 if self.decoder.is_between_blocks() => ContentEnd::Whole,
            0 => ContentEnd::InBlock,
            size => ContentEnd::InRecord(size),
        }
    }
}
