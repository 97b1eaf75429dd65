//! A reader of the records of a jitdump, also while it grows.
ghost use Rattle.std.specs.Prelude.{◌≡◌, ◌↔◌, ◌≤◌, IfOk, IsTrue, false, length, vec_len};
ghost use Rattle.std.specs.Borrow.{sem};
ghost use Rattle.std.specs.Io.BufRead.{Rests};
ghost use Rattle.perfdata_jit.specs.RecordBytes.{HasNoWholeRecord, HasWholeRecord};
ghost use Rattle.perfdata_jit.specs.JitDumpReader.{ReturnsHeader, NextJitRecord, OpensReader, SkipsBuffered};
ghost use Rattle.perfdata_jit.specs.JitDumpReader.{SkipsRecord, jit_header, jit_source, jit_buffered};
ghost use Rattle.perfdata_jit.specs.JitDumpReader.{jit_seek_failed, jit_offset, jit_endian};
ghost use Rattle.perfdata_jit.specs.steps.HeaderSteps.{PeeksHeader, PeeksValidHeader, BuffersRecord};
ghost use Rattle.perfdata_jit.specs.ReadUntilEof.{CountsFill, FillsUntilEof};
ghost use Rattle.perfdata_jit.specs.contracts.jitdump_reader.JitDumpReader.{the_row};

use crate::buffered_reader::BufferedReader;
use crate::error::JitDumpError;
use crate::header::JitDumpHeader;
use crate::read_until_eof::ReadExactOrUntilEof;
use crate::record::{JitDumpRawRecord, JitDumpRecordHeader, JitDumpRecordType};
use perfdata_base::raw::{Endianness, RawData};
use perfdata_base::source::{PlacedSource, Source};
use std::alloc::Global;
use std::io::{self, Error, ErrorKind};
use std::result::Result;

/// The buffer size in bytes that [`JitDumpReader::new`] chooses. It is also the maximum size of a header for
/// such a reader.
pub const DEFAULT_BUFFER_SIZE: usize = 4096;

/// A reader that returns the records of a jitdump file one by one, also while the file grows.
///
/// A record is borrowed from the buffers until the next call. `Ok(None)` means that the next record is not
/// complete yet. No byte is lost by `Ok(None)` or by a read error, and the call can be repeated.
///
/// ```
/// use linux_perf_data::jitdump::{JitDumpError, JitDumpReader, JitDumpRecord};
/// use linux_perf_data::source::Counted;
/// use std::alloc::Global;
/// use std::io::Read;
///
/// fn code_size<R: Read + Drop>(alloc: Global, file: R) -> Result<u64, JitDumpError> {
///     let mut reader = JitDumpReader::new(alloc, Counted::new(file))?;
///     let mut size = 0u64;
///     for _ in 0..u64::MAX {
///         let Some(record) = reader.next_record()? else {
///             break;
///         };
///         if let JitDumpRecord::CodeLoad(load) = record.parse(alloc)? {
///             size = size.saturating_add(load.code_bytes.len() as u64);
///         }
///     }
///     Ok(size)
/// }
/// ```
#[derive(Drop)]
pub struct JitDumpReader<R> {
    reader: BufferedReader<R>,
    header: JitDumpHeader,
    endian: Endianness,
    pending_header: Option<[u8; JitDumpRecordHeader::SIZE]>,
    offset: u64,
}

// Copies a record header. For the prover, which knows the copy's length.
fn copy_header(bytes: &[u8; JitDumpRecordHeader::SIZE]) -> [u8; JitDumpRecordHeader::SIZE]
    ensures same { result ≡ bytes.now }
    ensures long { length result ≡ 16 }
{
    *bytes
}

// Reads until the buffer is full or a read is empty.
fn fill_buffer<R: Source>(source: &mut R, buffer: &mut Vec<u8>) -> io::Result<usize>
    ensures fills { FillsUntilEof (R.state source.old) buffer.new.items result (R.state source.new) }
    ensures counts { CountsFill (R.state source.old) buffer.new.items result (R.state source.new) }
    ensures same_loan { R.loan source.new ≡ R.loan source.old }
    ensures size { vec_len buffer.new ≡ vec_len buffer.old }
{
    source.read_exact_or_until_eof(buffer.as_mut_slice())
}

impl<R: Source + Drop> JitDumpReader<R> {
    /// Creates a reader of the jitdump file in `source`, with a buffer of 4,096 bytes.
    ///
    /// Fails as [`JitDumpReader::new_with_buffer_size`] does.
    pub fn new(alloc: Global, source: R) -> Result<JitDumpReader<R>, JitDumpError>
        ensures opens { OpensReader R.state source 4096 result }
        ensures same_loan { IfOk result (λ reader. R.loan (jit_source reader) ≡ R.loan source) }
    {
        JitDumpReader::new_with_buffer_size(alloc, source, DEFAULT_BUFFER_SIZE)
    }

    /// Creates a reader of the jitdump file in `source`, with a buffer of `buffer_size` bytes. The file
    /// header must fit in the buffer.
    ///
    /// The call reads until the buffer is full or a read is empty, and parses the file header from these
    /// bytes. Returns the first error that applies: `Io` if the source fails or the allocation of the buffer
    /// fails, otherwise an error of [`JitDumpHeader::parse`].
    pub fn new_with_buffer_size(
        alloc: Global,
        mut source: R,
        buffer_size: usize,
    ) -> Result<JitDumpReader<R>, JitDumpError>
        ensures opens { OpensReader R.state source buffer_size result }
        ensures same_loan { IfOk result (λ reader. R.loan (jit_source reader) ≡ R.loan source) }
    {
        let mut buffer = Vec::new(alloc);
        match buffer.resize(buffer_size, 0) {
            Ok(()) => {}
            Err(error) => return Err(JitDumpError::Io(Error::from(error))),
        }
        let read_count = fill_buffer(&mut source, &mut buffer)?;
        let header = JitDumpHeader::parse(RawData::Single(&buffer[..read_count]))?;
        let endian = header.endian();
        let offset = header.total_size;
        Ok(JitDumpReader {
            reader: BufferedReader::new_with_partially_read_buffer(
                alloc,
                source,
                buffer,
                offset as usize,
                read_count,
            ),
            header,
            endian,
            pending_header: None,
            offset: offset as u64,
        })
    }
}

impl<R: Source> JitDumpReader<R> {
    /// The file header.
    pub fn header(&self) -> &JitDumpHeader
        ensures { result.now ≡ jit_header self.now }
    {
        &self.header
    }

    /// The byte order of the file.
    pub fn endian(&self) -> Endianness
        ensures { result ≡ jit_endian self.now }
    {
        self.endian
    }

    /// The offset of the next record in the file, in bytes.
    pub fn next_record_offset(&self) -> u64
        ensures { result ≡ jit_offset self.now }
    {
        self.offset // unchanged by a pending header
    }

    /// Whether the next `count` unread bytes are buffered. A call that needs only these bytes doesn't read
    /// the source.
    ///
    /// The first 16 of them are the next record header. [`JitDumpReader::next_record_header`] returns the
    /// size of its record.
    pub fn has_buffered(&self, count: usize) -> bool
        ensures { IsTrue result ↔ count ≤ length (jit_buffered self.now) }
    {
        match self.pending_header {
            Some(header) => {
                let header = copy_header(&header);
                if count <= header.len() {
                    return true;
                }
                self.reader.holds(count - header.len())
            }
            None => self.reader.holds(count),
        }
    }

    // Returns the bytes of the next record header, which becomes the pending header.
    fn peek_header_bytes(&mut self) -> io::Result<Option<[u8; JitDumpRecordHeader::SIZE]>>
        ensures peeks_header { PeeksHeader R.state self.old result self.new }
        ensures same_loan { R.loan (jit_source self.new) ≡ R.loan (jit_source self.old) }
    {
        self.reader.check_no_seek_failed()?;
        match self.pending_header {
            Some(header) => return Ok(Some(copy_header(&header))),
            None => {}
        }
        let Some(header) = self.reader.consume_header()? else {
            return Ok(None);
        };
        self.pending_header = Some(header);
        Ok(Some(header))
    }

    // Returns the next record header, which becomes the pending header, and fails if its size is invalid.
    fn peek_valid_header(&mut self) -> io::Result<Option<JitDumpRecordHeader>>
        ensures peeks_header { PeeksValidHeader R.state self.old result self.new }
        ensures same_loan { R.loan (jit_source self.new) ≡ R.loan (jit_source self.old) }
    {
        let Some(bytes) = self.peek_header_bytes()? else {
            return Ok(None);
        };
        let header = JitDumpRecordHeader::from_bytes(self.endian, &bytes);
        if (header.total_size as usize) < JitDumpRecordHeader::SIZE {
            return Err(Error::from(ErrorKind::InvalidData));
        }
        let offset = self.offset;
        if header.total_size as u64 > u64::MAX - offset {
            return Err(Error::from(ErrorKind::InvalidData));
        }
        Ok(Some(header))
    }

    // Reads until the next record is buffered. Returns its record header, which becomes the pending header.
    fn buffer_record(&mut self) -> io::Result<Option<JitDumpRecordHeader>>
        ensures buffers_record { BuffersRecord R.state self.old result self.new }
        ensures same_loan { R.loan (jit_source self.new) ≡ R.loan (jit_source self.old) }
    {
        let Some(header) = self.peek_valid_header()? else {
            return Ok(None);
        };
        let body_size = header.total_size as usize - JitDumpRecordHeader::SIZE;
        let is_buffered = self.reader.ensure_buffered(body_size)?;
        if is_buffered {
            Ok(Some(header))
        } else {
            Ok(None)
        }
    }

    /// Returns the header of the next record without consuming the record, or `Ok(None)` if its 16 bytes are
    /// not available yet.
    ///
    /// Fails with the source's own error. No byte is lost then, and the call can be repeated. Once a seek has
    /// failed, the call fails with kind `Other`.
    pub fn next_record_header(&mut self) -> io::Result<Option<JitDumpRecordHeader>>
        ensures returns_header { ReturnsHeader R.state (λ header. header) self.old result self.new }
        ensures same_loan { R.loan (jit_source self.new) ≡ R.loan (jit_source self.old) }
    {
        let Some(bytes) = self.peek_header_bytes()? else {
            return Ok(None);
        };
        Ok(Some(JitDumpRecordHeader::from_bytes(self.endian, &bytes)))
    }

    /// Returns the timestamp of the next record, as [`JitDumpReader::next_record_header`] does.
    pub fn next_record_timestamp(&mut self) -> io::Result<Option<u64>>
        ensures returns_header { ReturnsHeader R.state (λ header. header.timestamp) self.old result self.new }
        ensures same_loan { R.loan (jit_source self.new) ≡ R.loan (jit_source self.old) }
    {
        let Some(header) = self.next_record_header()? else {
            return Ok(None);
        };
        Ok(Some(header.timestamp))
    }

    /// Returns the type of the next record, as [`JitDumpReader::next_record_header`] does.
    pub fn next_record_type(&mut self) -> io::Result<Option<JitDumpRecordType>>
        ensures returns_header { ReturnsHeader R.state
            (λ header. header.record_type) self.old result self.new }
        ensures same_loan { R.loan (jit_source self.new) ≡ R.loan (jit_source self.old) }
    {
        let Some(header) = self.next_record_header()? else {
            return Ok(None);
        };
        Ok(Some(header.record_type))
    }

    /// Returns the next record, borrowed until the next call, or `Ok(None)` if a read is empty before the
    /// record is complete.
    ///
    /// Reading stops as soon as the record is buffered. The source is not read if the record is buffered
    /// before the call. The body is in one slice if the record is buffered before the call and its body
    /// doesn't wrap around the end of the buffer. Fails with `InvalidData` if the size in the record header
    /// is less than 16, or if the record's end exceeds 2^64 - 1; the header stays pending. Fails with the
    /// source's own error if a read fails, and with `OutOfMemory` only if the record's body is longer than
    /// the buffer. No byte is lost by an error or by `Ok(None)`, and the call can be repeated. Once a seek
    /// has failed, the call fails with kind `Other`.
    pub fn next_record(&mut self) -> io::Result<Option<JitDumpRawRecord<'_>>>
        ensures* after_borrow { sem 𝓛 (Rests (the_row R.row) self.entry
            (λ new. NextJitRecord R.state self.old result new
            × (R.loan (jit_source new) ≡ R.loan (jit_source self.old)))) }
    {
        let Some(header) = self.buffer_record()? else {
            return Ok(None);
        };
        let endian = self.endian;
        let start_offset = self.offset;
        let record_size = header.total_size;
        self.pending_header = None;
        self.offset += record_size as u64;
        let body = self
            .reader
            .consume_buffered(record_size as usize - JitDumpRecordHeader::SIZE);
        Ok(Some(JitDumpRawRecord {
            endian,
            record_type: header.record_type,
            timestamp: header.timestamp,
            start_offset,
            record_size,
            body,
        }))
    }
}

impl<R: PlacedSource> JitDumpReader<R> {
    /// Skips the next record without reading its body. Returns whether it does: `Ok(false)` means that the
    /// record header is not available, or that the source has too few bytes. No complete record is buffered
    /// then, and the record remains the next one.
    ///
    /// If the record is buffered, the source is not used. Otherwise the source seeks as in
    /// [`BufferedReader::skip_bytes`]. Fails as [`JitDumpReader::next_record`] does, except that it allocates
    /// nothing for a body, and with the error of a seek. After the error of a seek, each call that can fail
    /// fails with kind `Other`.
    pub fn skip_next_record(&mut self) -> io::Result<bool>
        ensures skips { SkipsRecord R.state self.old result self.new }
        ensures same_loan { R.loan (jit_source self.new) ≡ R.loan (jit_source self.old) }
        ensures no_whole_record { IfOk result
            (λ is_skipped. is_skipped ≡ false
            → HasNoWholeRecord (jit_endian self.old) (jit_offset self.old) (jit_buffered self.new)) }
        ensures buffered { HasWholeRecord (jit_endian self.old) (jit_offset self.old) (jit_buffered self.old)
            → jit_seek_failed self.old ≡ false → SkipsBuffered self.old result self.new }
    {
        let Some(header) = self.peek_valid_header()? else {
            return Ok(false);
        };
        let record_size = header.total_size;
        let body_size = record_size as usize - JitDumpRecordHeader::SIZE;
        let is_skipped = self.reader.skip_bytes(body_size)?;
        if is_skipped {
            self.pending_header = None;
            self.offset += record_size as u64;
            Ok(true)
        } else {
            Ok(false)
        }
    }
}
