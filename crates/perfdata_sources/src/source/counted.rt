//! Readers of std as sources.
ghost use Rattle.std.specs.Prelude.{◌≡◌, ◌+◌, ◌<◌, [], length, Ok, refl};
ghost use Rattle.std.proofs.lemmas.Bool.{false≢true};
ghost use Rattle.perfdata_sources.specs.Source.{opaque_source, counted_state, CountsRead, CountsSeek};
ghost use Rattle.perfdata_sources.specs.Source.{SizeFitsI64, PositionFitsU64, Seeks, Reads};
ghost use Rattle.perfdata_sources.specs.RelativeSeek.{AgreesWithPosition, ReadUpdatesPosition};
ghost use Rattle.perfdata_sources.specs.RelativeSeek.{SeekUpdatesPosition};
ghost use Rattle.std.specs.Io.KnownBytes.{Keeps, ReadConsumes};
ghost use Rattle.std.specs.Io.Seek.{SeekMoves};

use crate::source::relative_seek::{position_after, seek_from};
use crate::source::{NOT_BUFFERED, PlacedSource, Source};
use std::io::{Read, Result, Seek, SeekFrom};

/// A reader of std as a source.
///
/// Contracts know none of its bytes. It counts the reader's I/O errors and empty reads, up to `u64::MAX`
/// each. Each `Err` of a read or a seek counts as an I/O error, whatever its kind.
///
/// Once a seek has reported the position, later seeks go by an offset from it. A `BufReader` performs such a
/// seek inside its buffer if the buffer contains the target. If the target is the current position, the
/// reader isn't called. A [`CountedBuffer`](crate::source::CountedBuffer) also exposes the buffer of its
/// reader.
#[derive(Drop)]
pub struct Counted<R> {
    reader: R,
    errors: u64,
    pauses: u64,
    position: Option<u64>,
}

impl<R: Read> Counted<R> {
    /// Makes a source from a reader. Its counts of I/O errors and empty reads are 0.
    pub fn new(reader: R) -> Counted<R>
        ensures { counted_state result ≡ opaque_source 0 0 }
    {
        Counted {
            reader,
            errors: 0,
            pauses: 0,
            position: None,
        }
    }
}

impl<R: Read> Source for Counted<R> {
    ghost state = { counted_state };

    ghost loan = { λ _. 0 };

    ghost buffered = { λ _. [] };

    fn read_front(&mut self, place: &mut [u8]) -> Result<usize>
        ensures idle { length place.old ≡ 0 → (result ≡ Ok 0)
            × (counted_state self.new ≡ counted_state self.old) }
        ensures reads { 0 < length place.old
            → Reads (counted_state self.old) place.new result (counted_state self.new) }
        ensures counts { CountsRead (counted_state self.old) result (counted_state self.new) }
        ensures position { 0 < length place.old
            → ReadUpdatesPosition self.old.position result self.new.position }
        ensures unchanged_if_empty { length place.old ≡ 0 → self.new ≡ self.old }
        ensures reader_consumes { ReadConsumes (R.remaining self.old.reader)
            (R.remaining self.new.reader) result place.new }
    {
        if place.is_empty() {
            return Ok(0);
        }
        match self.reader.read(place) {
            Ok(count) => {
                if count == 0 {
                    self.pauses = self.pauses.saturating_add(1);
                }
                self.position = position_after(self.position, count);
                Ok(count)
            }
            Err(error) => {
                self.errors = self.errors.saturating_add(1);
                self.position = None;
                Err(error)
            }
        }
    }

    fn buffer(&self) -> &[u8] {
        NOT_BUFFERED
    }

    ghost steady_can_count = { λ _ steady. absurd (false≢true steady) };
}

impl<R: Read + Seek> PlacedSource for Counted<R> {
    fn seek_to(&mut self, to: SeekFrom) -> Result<u64>
        ensures seeks { Seeks (counted_state self.old) to result (counted_state self.new) }
        ensures counts { CountsSeek (counted_state self.old) result (counted_state self.new) }
        ensures size_fits { SizeFitsI64 (counted_state self.old) }
        ensures position_fits { PositionFitsU64 (counted_state self.old) }
        ensures position { SeekUpdatesPosition result self.new.position }
        ensures reader_moves { AgreesWithPosition self.old.position (R.stream_position self.old.reader)
            → SeekMoves (R.stream_position self.old.reader) (R.stream_position self.new.reader)
            (R.stream_bytes self.old.reader) to result }
        ensures reader_keeps_bytes { Keeps (R.stream_bytes self.old.reader) (R.stream_bytes self.new.reader) }
    {
        match seek_from(&mut self.reader, self.position, to) {
            Ok(at) => {
                self.position = Some(at);
                Ok(at)
            }
            Err(error) => {
                self.errors = self.errors.saturating_add(1);
                self.position = None;
                Err(error)
            }
        }
    }

    ghost remaining_from_position = { λ _. refl };
}
