//! Byte sources.
ghost use Rattle.std.specs.Prelude.{◌≡◌, ◌+◌, ◌^◌, ◌<◌, ◌≤◌, ℕ, List, IsTrue, OnErr, Ok, length};
ghost use Rattle.std.specs.Prelude.{vec_capacity};
ghost use Rattle.perfdata_sources.specs.Source.{State, CanCount, CountsRead, CountsSeek, RemainsFromPosition};
ghost use Rattle.perfdata_sources.specs.Source.{SizeFitsI64, PositionFitsU64, Seeks, Reads};
ghost use Rattle.perfdata_sources.specs.Buffered.{IsPrefixOfRemaining, ReadsBuffered, AppendsBuffered};

use std::alloc::AllocError;
use std::io::{Result, SeekFrom};

mod append;
mod counted;
mod counted_buffer;
mod read;
mod relative_seek;
mod script;
mod slices;

pub use append::{AppendError, append_exact, append_up_to};
pub use counted::Counted;
pub use counted_buffer::CountedBuffer;
pub use read::{fill, read_exact, skip_exact, skip_up_to, unexpected_eof};
pub use script::{Script, Step};

// The buffered bytes of a source that has no buffer.
static NOT_BUFFERED: &[u8] = &[];

/// A source of bytes.
///
/// Contracts describe a source by its `state`: its remaining bytes if they are known, the number of I/O
/// errors and of empty reads so far, whether it is steady (it never fails and never pauses), and its position
/// among all of its bytes if it can seek. `loan` identifies the source that a `&mut` borrows. With it a
/// caller that lends its source knows the source's state after the loan.
pub trait Source {
    /// The state of the source as contracts see it.
    ghost state: { Self → State };

    /// The identity of the source that a `&mut` borrows; 0 for every other source.
    ghost loan: { Self → ℕ };

    /// The bytes that `buffer` returns.
    ghost buffered: { Self → List ℕ };

    /// Reads the next bytes into the start of `place`, and returns their number.
    ///
    /// If `place` isn't empty, it receives a prefix of the remaining bytes. A result of 0 is the end, or a
    /// pause, which is counted. If `place` is empty, the result is 0 and nothing is counted. On an error no
    /// byte is consumed, and the error is counted. Each count saturates at `u64::MAX`. The content of `place`
    /// after the bytes read is unspecified.
    fn read_front(&mut self, place: &mut [u8]) -> Result<usize>
        ensures idle { length place.old ≡ 0 → (result ≡ Ok 0) × (state self.new ≡ state self.old) }
        ensures reads { 0 < length place.old → Reads (state self.old) place.new result (state self.new) }
        ensures counts { CountsRead (state self.old) result (state self.new) }
        ensures same_loan { loan self.new ≡ loan self.old };

    /// Returns the buffered bytes of the source, a prefix of the remaining bytes.
    ///
    /// To consume them, the source calls no underlying reader. The slice is empty if nothing is buffered, and
    /// always for a source that has no buffer.
    fn buffer(&self) -> &[u8]
        ensures prefix { IsPrefixOfRemaining (state self.now) result.now }
        ensures buffered { result.now ≡ buffered self.now };

    /// Fills `buf` with the next bytes if that many are buffered, and returns whether it did.
    ///
    /// If the result is `false`, `buf` and the source are unchanged.
    fn read_buffered(&mut self, buf: &mut [u8]) -> bool
        ensures reads_buffered { ReadsBuffered (state self.old) buf.old result buf.new (state self.new) }
        ensures same_loan { loan self.new ≡ loan self.old }
    {
        false
    }

    /// Appends the next `count` bytes to `buffer` if that many are buffered, and returns whether it did.
    ///
    /// If the result is `false` or out of memory, `buffer` and the source are unchanged. Memory can run out
    /// only if the capacity of `buffer` is smaller than its content and `count` bytes.
    fn append_buffered(
        &mut self,
        buffer: &mut Vec<u8>,
        count: usize,
    ) -> std::result::Result<bool, AllocError>
        ensures appends { AppendsBuffered (state self.old) buffer.old.items count result buffer.new.items
            (state self.new) }
        ensures memory_only_to_grow { OnErr result
            (vec_capacity buffer.old < length buffer.old.items + count) }
        ensures capacity { vec_capacity buffer.old ≤ vec_capacity buffer.new }
        ensures same_loan { loan self.new ≡ loan self.old }
    {
        Ok(false)
    }

    /// Neither count of a steady source is at its maximum, because a steady source never counts.
    ghost steady_can_count: { (s : Self) → IsTrue (state s).steady → CanCount (state s) };
}

impl<S: Source> Source for &mut S {
    ghost state = { λ s. S.state s.now };

    ghost loan = { λ s. s.ghost_name };

    ghost buffered = { λ s. S.buffered s.now };

    fn read_front(&mut self, place: &mut [u8]) -> Result<usize> {
        Source::read_front(&mut **self, place)
    }

    fn buffer(&self) -> &[u8] {
        Source::buffer(&**self)
    }

    fn read_buffered(&mut self, buf: &mut [u8]) -> bool {
        Source::read_buffered(&mut **self, buf)
    }

    fn append_buffered(
        &mut self,
        buffer: &mut Vec<u8>,
        count: usize,
    ) -> std::result::Result<bool, AllocError> {
        Source::append_buffered(&mut **self, buffer, count)
    }

    ghost steady_can_count = { λ s. S.steady_can_count s.now };
}

/// A source that can seek.
pub trait PlacedSource: Source {
    /// Seeks to `to`, and returns the new position in bytes from the first byte.
    ///
    /// A position past the last byte is valid, and no byte remains there. A seek from the end uses the length
    /// that the source shows at that moment, which is at most the length of all bytes.
    ///
    /// It fails if the target isn't in 0 to `u64::MAX`, or if the source fails, which is counted. After an
    /// error the position is unspecified. In every case all bytes stay the same, and they are fewer than
    /// 2^63. The position before the call is at most `u64::MAX`.
    fn seek_to(&mut self, to: SeekFrom) -> Result<u64>
        ensures seeks { Seeks (Self.state self.old) to result (Self.state self.new) }
        ensures counts { CountsSeek (Self.state self.old) result (Self.state self.new) }
        ensures size_fits { SizeFitsI64 (Self.state self.old) }
        ensures position_fits { PositionFitsU64 (Self.state self.old) }
        ensures same_loan { Self.loan self.new ≡ Self.loan self.old };

    /// The remaining bytes are those from the position on.
    ghost remaining_from_position: { (s : Self) → RemainsFromPosition (Self.state s) };
}

impl<S: PlacedSource> PlacedSource for &mut S {
    fn seek_to(&mut self, to: SeekFrom) -> Result<u64> {
        PlacedSource::seek_to(&mut **self, to)
    }

    ghost remaining_from_position = { λ s. S.remaining_from_position s.now };
}
