//! A buffered reader of std as a source that exposes its buffer.
ghost use Rattle.std.specs.Prelude.{◌≡◌, ◌+◌, ◌<◌, ◌≤◌, OnErr, length, vec_capacity, Ok, refl};
ghost use Rattle.std.proofs.lemmas.Bool.{false≢true};
ghost use Rattle.perfdata_sources.specs.Source.{opaque_source, CountsRead, CountsSeek, SizeFitsI64};
ghost use Rattle.perfdata_sources.specs.Source.{PositionFitsU64, Reads, Seeks};
ghost use Rattle.perfdata_sources.specs.Buffered.{IsPrefixOfRemaining, ReadsBuffered, AppendsBuffered};
ghost use Rattle.perfdata_sources.specs.RelativeSeek.{AgreesWithPosition, ReadUpdatesPosition};
ghost use Rattle.perfdata_sources.specs.RelativeSeek.{SeekUpdatesPosition};
ghost use Rattle.std.specs.Io.Buffered.{reader_inner, reader_position, reader_remaining};
ghost use Rattle.std.specs.Io.KnownBytes.{Keeps, ReadConsumes};
ghost use Rattle.std.specs.Io.Seek.{SeekMoves};

use crate::source::relative_seek::{position_after, seek_from};
use crate::source::{PlacedSource, Source};
use std::alloc::AllocError;
use std::io::{BufRead, BufReader, Read, Result, Seek, SeekFrom};

/// A buffered reader of std as a source that exposes the reader's buffer.
///
/// Contracts know none of its bytes. Like [`Counted`](crate::source::Counted), it counts the reader's I/O
/// errors and empty reads, up to `u64::MAX` each. Each `Err` of a read or a seek counts as an I/O error,
/// whatever its kind. Buffered bytes are consumed without a read. Once a seek has reported the position, a
/// seek to a target in the buffer stays inside the buffer, and a seek to the current position doesn't call
/// the reader.
#[derive(Drop)]
pub struct CountedBuffer<R> {
    reader: BufReader<R>,
    errors: u64,
    pauses: u64,
    position: Option<u64>,
}

impl<R: Read> CountedBuffer<R> {
    ghost use Rattle.perfdata_sources.specs.CountedBuffer.{buffered_state, counted_buffer_bytes};
    ghost use Rattle.std.specs.Io.Buffered.{reader_buffer};

    /// Makes a source from a reader. Its counts of I/O errors and empty reads are 0.
    pub fn new(reader: BufReader<R>) -> CountedBuffer<R>
        ensures counts { buffered_state result ≡ opaque_source 0 0 }
        ensures buffered { counted_buffer_bytes result ≡ reader_buffer reader }
    {
        CountedBuffer {
            reader,
            errors: 0,
            pauses: 0,
            position: None,
        }
    }
}

impl<R: Read> Source for CountedBuffer<R> {
    ghost use Rattle.perfdata_sources.specs.CountedBuffer.{buffered_state, counted_buffer_bytes};
    ghost use Rattle.perfdata_sources.specs.CountedBuffer.{TakesFromBuffer, AppendsFromBuffer};

    ghost state = { buffered_state };

    ghost loan = { λ _. 0 };

    ghost buffered = { counted_buffer_bytes };

    fn read_front(&mut self, place: &mut [u8]) -> Result<usize>
        ensures idle { length place.old ≡ 0 → (result ≡ Ok 0)
            × (buffered_state self.new ≡ buffered_state self.old) }
        ensures reads { 0 < length place.old
            → Reads (buffered_state self.old) place.new result (buffered_state self.new) }
        ensures counts { CountsRead (buffered_state self.old) result (buffered_state self.new) }
        ensures position { 0 < length place.old
            → ReadUpdatesPosition self.old.position result self.new.position }
        ensures unchanged_if_empty { length place.old ≡ 0 → self.new ≡ self.old }
        ensures reader_consumes { ReadConsumes (reader_remaining R.remaining self.old.reader)
            (reader_remaining R.remaining self.new.reader) result place.new }
    {
        if place.is_empty() {
            return Ok(0);
        }
        match self.reader.read(place) {
            Ok(count) => {
                if count == 0 {
                    self.pauses = self.pauses.saturating_add(1);
                }
                self.position = position_after(self.position, count);
                Ok(count)
            }
            Err(error) => {
                self.errors = self.errors.saturating_add(1);
                self.position = None;
                Err(error)
            }
        }
    }

    fn buffer(&self) -> &[u8]
        ensures prefix { IsPrefixOfRemaining (buffered_state self.now) result.now }
        ensures buffered { result.now ≡ counted_buffer_bytes self.now }
    {
        BufReader::buffer(&self.reader)
    }

    fn read_buffered(&mut self, buf: &mut [u8]) -> bool
        ensures reads_buffered { ReadsBuffered (buffered_state self.old) buf.old result buf.new
            (buffered_state self.new) }
        ensures takes_from_buffer { TakesFromBuffer self.old buf.new result self.new }
    {
        let buffered = self.reader.buffer();
        let size = buf.len();
        if buffered.len() < size {
            return false;
        }
        buf.copy_from_slice(&buffered[..size]);
        self.reader.consume(size);
        self.position = position_after(self.position, size);
        true
    }

    fn append_buffered(
        &mut self,
        buffer: &mut Vec<u8>,
        count: usize,
    ) -> std::result::Result<bool, AllocError>
        ensures appends { AppendsBuffered
            (buffered_state self.old) buffer.old.items count result buffer.new.items
            (buffered_state self.new) }
        ensures memory_only_to_grow { OnErr result
            (vec_capacity buffer.old < length buffer.old.items + count) }
        ensures capacity { vec_capacity buffer.old ≤ vec_capacity buffer.new }
        ensures takes_from_buffer { AppendsFromBuffer self.old buffer.old.items count result buffer.new.items
            self.new }
    {
        let buffered = self.reader.buffer();
        if buffered.len() < count {
            return Ok(false);
        }
        buffer.extend_from_slice(&buffered[..count])?;
        self.reader.consume(count);
        self.position = position_after(self.position, count);
        Ok(true)
    }

    ghost steady_can_count = { λ _ steady. absurd (false≢true steady) };
}

impl<R: Read + Seek> PlacedSource for CountedBuffer<R> {
    ghost use Rattle.perfdata_sources.specs.CountedBuffer.{buffered_state};

    fn seek_to(&mut self, to: SeekFrom) -> Result<u64>
        ensures seeks { Seeks (buffered_state self.old) to result (buffered_state self.new) }
        ensures counts { CountsSeek (buffered_state self.old) result (buffered_state self.new) }
        ensures size_fits { SizeFitsI64 (buffered_state self.old) }
        ensures position_fits { PositionFitsU64 (buffered_state self.old) }
        ensures position { SeekUpdatesPosition result self.new.position }
        ensures reader_moves { AgreesWithPosition self.old.position
            (reader_position R.stream_position self.old.reader)
            → SeekMoves (reader_position R.stream_position self.old.reader)
            (reader_position R.stream_position self.new.reader)
            (R.stream_bytes (reader_inner self.old.reader)) to result }
        ensures reader_keeps_bytes { Keeps (R.stream_bytes (reader_inner self.old.reader))
            (R.stream_bytes (reader_inner self.new.reader)) }
    {
        match seek_from(&mut self.reader, self.position, to) {
            Ok(at) => {
                self.position = Some(at);
                Ok(at)
            }
            Err(error) => {
                self.errors = self.errors.saturating_add(1);
                self.position = None;
                Err(error)
            }
        }
    }

    ghost remaining_from_position = { λ _. refl };
}
