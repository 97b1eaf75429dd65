//! A reader that lends the bytes of a source from two buffers.
ghost use Rattle.std.specs.Prelude.{◌≡◌, ◌↔◌, ◌<◌, ◌≤◌, IfErr, IfOk, IfSome, IsTrue, OnOk, length, take};
ghost use Rattle.std.specs.Prelude.{slice_range, true, false, vec_len};
ghost use Rattle.std.specs.Borrow.{sem};
ghost use Rattle.std.specs.Io.BufRead.{Rests};
ghost use Rattle.std.specs.IoError.{error_kind};
ghost use Rattle.std.specs.declared.io.ErrorKind.TheVariants.{Other};
ghost use Rattle.perfdata_sources.specs.Raw.{IsSingle, bytes_of};
ghost use Rattle.perfdata_jit.specs.BufferedReader.{EnsuresBuffered, ConsumesData, ConsumesHeader};
ghost use Rattle.perfdata_jit.specs.BufferedReader.{IsNextContiguous, SkipsBytes};
ghost use Rattle.perfdata_jit.specs.steps.BufferedReader.{ConsumesBuffered};
ghost use Rattle.perfdata_jit.specs.BufferedReader.{buffered_in, has_seek_failed, overflow_len_of};
ghost use Rattle.perfdata_jit.specs.BufferedReader.{ring_capacity_of, source_of};
ghost use Rattle.perfdata_jit.specs.steps.Seeking.{SkipsBySeek};
ghost use Rattle.perfdata_jit.specs.contracts.buffered_reader.BufferedReader.{the_row};

use crate::read_buffer::ReadBuffer;
use crate::record::JitDumpRecordHeader;
use crate::ring::Ring;
use perfdata_base::raw::RawData;
use perfdata_base::source::{PlacedSource, Source};
use std::alloc::Global;
use std::io::{Error, ErrorKind, Result, SeekFrom};

/// A reader that lends the bytes of a source from its buffers, each time in one or two slices.
///
/// The reader has a buffer of fixed size, which it uses as a ring. It allocates memory only for calls that
/// need more bytes than that. The source may pause, fail and grow: no byte is lost, and a call can be
/// repeated.
#[derive(Drop)]
pub struct BufferedReader<R> {
    source: R,
    buffer: ReadBuffer,
    seek_failed: bool,
}

impl<R: Source> BufferedReader<R> {
    /// Creates a reader of `buffer[consumed..written]` followed by the source. `buffer` is the buffer of
    /// fixed size and must not be empty.
    pub fn new_with_partially_read_buffer(
        alloc: Global,
        source: R,
        buffer: Vec<u8>,
        consumed: usize,
        written: usize,
    ) -> BufferedReader<R>
        requires order { consumed ≤ written }
        requires within { written ≤ vec_len buffer }
        requires nonempty { 0 < vec_len buffer }
        ensures buffered { buffered_in result ≡ slice_range buffer.items consumed written }
        ensures overflow { overflow_len_of result ≡ 0 }
        ensures size { ring_capacity_of result ≡ vec_len buffer }
        ensures source { source_of result ≡ source }
        ensures no_seek_failed { has_seek_failed result ≡ false }
    {
        BufferedReader {
            source,
            buffer: ReadBuffer::new(Ring::new(buffer, consumed, written), Vec::new(alloc)),
            seek_failed: false,
        }
    }

    // Fails with kind `Other` once a seek has failed.
    pub(crate) fn check_no_seek_failed(&self) -> Result<()>
        ensures ok { OnOk result (has_seek_failed self.now ≡ false) }
        ensures seek_failed { IfErr result
            (λ error. (has_seek_failed self.now ≡ true) × (error_kind error ≡ Other)) }
    {
        if self.seek_failed {
            return Err(Error::from(ErrorKind::Other));
        }
        Ok(())
    }

    // Whether `count` bytes are buffered.
    pub(crate) fn holds(&self, count: usize) -> bool
        ensures { IsTrue result ↔ count ≤ length (buffered_in self.now) }
    {
        count <= self.buffer.len()
    }

    // Reads until `count` bytes are buffered. Returns whether they are.
    pub(crate) fn ensure_buffered(&mut self, count: usize) -> Result<bool>
        ensures buffers { EnsuresBuffered R.state count self.old result self.new }
        ensures same_loan { R.loan (source_of self.new) ≡ R.loan (source_of self.old) }
    {
        if count <= self.buffer.len() {
            return Ok(true);
        }
        self.buffer.compact_overflow();
        'reads: while self.buffer.len() < count {
            self.buffer.make_free_space()?;
            let read_count = self.buffer.fill(&mut self.source)?;
            if read_count == 0 {
                return Ok(false);
            }
        }
        Ok(true)
    }

    // Consumes the first `count` buffered bytes and returns them.
    pub(crate) fn consume_buffered(&mut self, count: usize) -> RawData<'_>
        requires { count ≤ length (buffered_in self.old) }
        ensures part { bytes_of result ≡ take count (buffered_in self.old) }
        ensures single { IsNextContiguous count self.old → IsSingle result }
        ensures* after_borrow { sem 𝓛 (Rests (the_row R.row) self.entry
            (λ new. ConsumesBuffered R.state count self.old new)) }
    {
        self.buffer.consume(count)
    }

    /// Returns the next `count` bytes, or `None` if a read is empty before they are buffered.
    ///
    /// Reading stops as soon as `count` bytes are buffered. The source is not read if they are buffered
    /// before the call. They are in one slice if they are buffered in one piece before the call. Fails at
    /// once with the source's own error, and with kind `OutOfMemory` if `count` exceeds the size of the fixed
    /// buffer and an allocation fails. No byte is lost by `None` or by an error, and the call can be
    /// repeated. Once a seek has failed, each call fails with kind `Other` and does nothing.
    pub fn consume_data(&mut self, count: usize) -> Result<Option<RawData<'_>>>
        ensures single { IsNextContiguous count self.old → IfOk result (λ part. IfSome part IsSingle) }
        ensures* after_borrow { sem 𝓛 (Rests (the_row R.row) self.entry
            (λ new. ConsumesData R.state count self.old result new
            × (R.loan (source_of new) ≡ R.loan (source_of self.old)))) }
    {
        self.check_no_seek_failed()?;
        let is_buffered = self.ensure_buffered(count)?;
        if is_buffered {
            Ok(Some(self.buffer.consume(count)))
        } else {
            Ok(None)
        }
    }

    // Consumes a record header and returns a copy of it, which frees its bytes in the buffers.
    pub(crate) fn consume_header(&mut self) -> Result<Option<[u8; JitDumpRecordHeader::SIZE]>>
        ensures consumes { ConsumesHeader R.state self.old result self.new }
        ensures same_loan { R.loan (source_of self.new) ≡ R.loan (source_of self.old) }
    {
        let mut header = [0u8; JitDumpRecordHeader::SIZE];
        let Some(mut bytes) = self.consume_data(JitDumpRecordHeader::SIZE)? else {
            return Ok(None);
        };
        bytes.read_exact(&mut header)?;
        self.buffer.clear_consumed_overflow();
        Ok(Some(header))
    }
}

// Skips the next `count` bytes by seeks if the source has that many. Returns whether it does.
fn skip_by_seek<R: PlacedSource>(source: &mut R, count: u64) -> Result<bool>
    ensures skips { SkipsBySeek (R.state source.old) count result (R.state source.new) }
    ensures same_loan { R.loan source.new ≡ R.loan source.old }
{
    let position = source.seek_to(SeekFrom::Current(0))?;
    let end = source.seek_to(SeekFrom::End(0))?;
    if end < position || end - position < count {
        source.seek_to(SeekFrom::Start(position))?;
        return Ok(false);
    }
    source.seek_to(SeekFrom::Start(position + count))?;
    Ok(true)
}

impl<R: PlacedSource> BufferedReader<R> {
    /// Skips the next `count` bytes. Returns whether it does.
    ///
    /// If the bytes are buffered, the source is not used. Otherwise the source seeks to its end to find its
    /// number of bytes, and then to the end of the skipped bytes, or back if it has too few. Fails with the
    /// error of a seek. The position of the source is then unspecified, and each later call fails with kind
    /// `Other` and does nothing.
    pub fn skip_bytes(&mut self, count: usize) -> Result<bool>
        ensures skips { SkipsBytes R.state count self.old result self.new }
        ensures same_loan { R.loan (source_of self.new) ≡ R.loan (source_of self.old) }
    {
        self.check_no_seek_failed()?;
        let buffered_len = self.buffer.len();
        if count <= buffered_len {
            self.buffer.advance(count);
            return Ok(true);
        }
        match skip_by_seek(&mut self.source, (count - buffered_len) as u64) {
            Ok(true) => {
                self.buffer.clear();
                Ok(true)
            }
            Ok(false) => Ok(false),
            Err(error) => {
                self.seek_failed = true;
                Err(error)
            }
        }
    }
}
