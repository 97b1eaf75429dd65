//! The bytes that are read but not consumed: those of the overflow buffer, followed by those of the ring.
ghost use Rattle.std.specs.Prelude.{◌≡◌, ℕ, ◌+◌, ◌-◌, ◌^◌, ◌<◌, ◌≤◌, ◌⊎◌, List, [], ◌++◌, length, take, drop};
ghost use Rattle.std.specs.Prelude.{slice_range, OnErr, OnOk, vec_len};
ghost use Rattle.std.specs.Borrow.{sem};
ghost use Rattle.std.specs.Io.BufRead.{Rests};
ghost use Rattle.perfdata_sources.specs.Raw.{IsSingle, bytes_of};
ghost use Rattle.perfdata_sources.specs.Source.{CountsRead};
ghost use Rattle.perfdata_jit.specs.steps.RingFilling.{FillsRing};

use crate::ring::Ring;
use perfdata_base::raw::RawData;
use perfdata_base::source::Source;
use std::alloc::AllocError;
use std::io::Result;

// The buffer contains `overflow[overflow_start..]` followed by the ring's bytes. The ring starts at index 0
// while the unread overflow isn't empty. Thus the bytes of a call are in at most two slices.
#[derive(Drop)]
pub struct ReadBuffer {
    ring: Ring,
    overflow: Vec<u8>,
    overflow_start: usize,
    ghost within: { overflow_start ≤ vec_len overflow },
    ghost ring_at_start: { overflow_start < vec_len overflow → ring.start ≡ 0 },
}

// The position of consumed bytes: a range of the overflow buffer, a range of the ring's buffer, and the
// length of a prefix of the ring's buffer.
#[derive(Drop)]
pub(crate) struct BufferRange {
    overflow_from: usize,
    overflow_to: usize,
    ring_start: usize,
    ring_end: usize,
    ring_front: usize,
}

impl ReadBuffer {
    ghost use Rattle.perfdata_jit.specs.contracts.read_buffer.ReadBuffer.{the_row};
    ghost use Rattle.perfdata_jit.specs.ReadBuffer.{IsContiguous};
    ghost use Rattle.perfdata_jit.specs.steps.ReadBuffer.{ConsumesPrefix, IsSpanSingle, IsSpanWithin};
    ghost use Rattle.perfdata_jit.specs.ReadBuffer.{read_buffer_bytes, IsOverflowConsumed};
    ghost use Rattle.perfdata_jit.specs.steps.ReadBuffer.{span_bytes};
    ghost use Rattle.perfdata_jit.specs.ReadBuffer.{overflow_len, overflow_capacity, ring_capacity};
    ghost use Rattle.perfdata_jit.specs.Ring.{ring_bytes, ring_size};
    ghost use Rattle.perfdata_jit.specs.steps.Ring.{ring_len};

    pub(crate) fn new(ring: Ring, overflow: Vec<u8>) -> ReadBuffer
        requires { vec_len overflow ≡ 0 }
        ensures bytes { read_buffer_bytes result ≡ ring_bytes ring }
        ensures overflow { overflow_len result ≡ 0 }
        ensures size { ring_capacity result ≡ ring_size ring }
    {
        ReadBuffer {
            ring,
            overflow,
            overflow_start: 0,
        }
    }

    pub(crate) fn len(&self) -> usize
        ensures { result ≡ length (read_buffer_bytes self.now) }
    {
        self.overflow.len() - self.overflow_start + self.ring.len()
    }

    // Reads once into the ring's free space.
    pub(crate) fn fill<R: Source>(&mut self, source: &mut R) -> Result<usize>
        requires { ring_len self.old.ring < ring_capacity self.old }
        ensures fills { FillsRing (R.state source.old) (read_buffer_bytes self.old) result
            (read_buffer_bytes self.new) (R.state source.new) }
        ensures counts { CountsRead (R.state source.old) result (R.state source.new) }
        ensures same_loan { R.loan source.new ≡ R.loan source.old }
        ensures overflow { overflow_len self.new ≡ overflow_len self.old }
        ensures overflow_capacity { overflow_capacity self.new ≡ overflow_capacity self.old }
        ensures overflow_start { self.new.overflow_start ≡ self.old.overflow_start }
        ensures size { ring_capacity self.new ≡ ring_capacity self.old }
    {
        self.ring.fill(source)
    }

    // Removes the consumed prefix of the overflow buffer.
    pub(crate) fn compact_overflow(&mut self)
        ensures bytes { read_buffer_bytes self.new ≡ read_buffer_bytes self.old }
        ensures overflow { overflow_len self.new ≤ length (read_buffer_bytes self.old) }
        ensures shorter { overflow_len self.new ≤ overflow_len self.old }
        ensures overflow_capacity { overflow_capacity self.new ≡ overflow_capacity self.old }
        ensures overflow_start { self.new.overflow_start ≡ 0 }
        ensures size { ring_capacity self.new ≡ ring_capacity self.old }
    {
        let len = self.overflow.len();
        if self.overflow_start > 0 {
            self.overflow.copy_within(self.overflow_start..len, 0);
            self.overflow.truncate(len - self.overflow_start);
            self.overflow_start = 0;
        }
    }

    // Empties the overflow buffer if all of it is consumed.
    pub(crate) fn clear_consumed_overflow(&mut self)
        ensures bytes { read_buffer_bytes self.new ≡ read_buffer_bytes self.old }
        ensures shorter { overflow_len self.new ≤ overflow_len self.old }
        ensures overflow_empty { IsOverflowConsumed self.old → overflow_len self.new ≡ 0 }
        ensures overflow_consumed { IsOverflowConsumed self.old → IsOverflowConsumed self.new }
        ensures keeps_contiguous { (m : ℕ) → IsContiguous m self.old → IsContiguous m self.new }
        ensures overflow_capacity { overflow_capacity self.new ≡ overflow_capacity self.old }
        ensures size { ring_capacity self.new ≡ ring_capacity self.old }
    {
        if self.overflow_start == self.overflow.len() {
            self.overflow.truncate(0);
            self.overflow_start = 0;
        }
    }

    // Moves the ring's bytes to the end of the overflow buffer. The ring is then empty and starts at index 0.
    pub(crate) fn spill_ring(&mut self) -> std::result::Result<(), AllocError>
        requires { self.old.overflow_start ≡ 0 }
        ensures bytes { read_buffer_bytes self.new ≡ read_buffer_bytes self.old }
        ensures overflow { overflow_len self.new ≤ length (read_buffer_bytes self.old) }
        ensures empty { OnOk result (ring_len self.new.ring ≡ 0) }
        ensures overflow_start { self.new.overflow_start ≡ 0 }
        ensures size { ring_capacity self.new ≡ ring_capacity self.old }
    {
        let (main, front) = self.ring.as_slices();
        self.overflow.try_reserve(main.len() + front.len())?;
        self.overflow.extend_from_slice(main)?;
        self.overflow.extend_from_slice(front)?;
        self.ring.clear();
        Ok(())
    }

    // Moves the ring's bytes to the overflow buffer if the ring is full.
    pub(crate) fn make_free_space(&mut self) -> std::result::Result<(), AllocError>
        requires { self.old.overflow_start ≡ 0 }
        ensures bytes { read_buffer_bytes self.new ≡ read_buffer_bytes self.old }
        ensures overflow { overflow_len self.new ≤ length (read_buffer_bytes self.old) }
        ensures fits { length (read_buffer_bytes self.old) < ring_capacity self.old → overflow_len self.new
            ≤ overflow_len self.old }
        ensures free_space { OnOk result (ring_len self.new.ring < ring_capacity self.new) }
        ensures full { OnErr result (ring_capacity self.old ≤ length (read_buffer_bytes self.old)) }
        ensures unchanged { ring_len self.old.ring < ring_capacity self.old → self.new ≡ self.old }
        ensures no_allocation { length (read_buffer_bytes self.old) < ring_capacity self.old
            → overflow_capacity self.new ≡ overflow_capacity self.old }
        ensures overflow_start { self.new.overflow_start ≡ 0 }
        ensures size { ring_capacity self.new ≡ ring_capacity self.old }
    {
        let buffered_len = self.ring.len();
        if buffered_len == self.ring.size() {
            return self.spill_ring();
        }
        Ok(())
    }

    // Removes all buffered bytes.
    pub(crate) fn clear(&mut self)
        ensures bytes { read_buffer_bytes self.new ≡ [] }
        ensures overflow { overflow_len self.new ≡ 0 }
        ensures size { ring_capacity self.new ≡ ring_capacity self.old }
    {
        self.overflow.clear();
        self.overflow_start = 0;
        self.ring.clear();
    }

    // Removes the first n bytes and returns their position.
    pub(crate) fn advance(&mut self, n: usize) -> BufferRange
        requires { n ≤ length (read_buffer_bytes self.old) }
        ensures span_within { IsSpanWithin self.new result }
        ensures value { span_bytes self.new result ≡ take n (read_buffer_bytes self.old) }
        ensures single { IsContiguous n self.old → IsSpanSingle result }
        ensures consumes_prefix { ConsumesPrefix n self.old self.new }
    {
        let from = self.overflow_start;
        let remaining = self.overflow.len() - from;
        if n <= remaining {
            self.overflow_start = from + n;
            return BufferRange {
                overflow_from: from,
                overflow_to: from + n,
                ring_start: 0,
                ring_end: 0,
                ring_front: 0,
            };
        }
        let to = self.overflow.len();
        self.overflow_start = to;
        let (ring_start, ring_end, ring_front) = self.ring.advance(n - remaining);
        BufferRange {
            overflow_from: from,
            overflow_to: to,
            ring_start,
            ring_end,
            ring_front,
        }
    }

    // The bytes of a span.
    pub(crate) fn span_data(&self, span: &BufferRange) -> RawData<'_>
        requires { IsSpanWithin self.now span.now }
        ensures bytes { bytes_of result ≡ span_bytes self.now span.now }
        ensures single { IsSpanSingle span.now → IsSingle result }
    {
        let main = self.ring.range(span.ring_start, span.ring_end);
        if span.ring_front > 0 {
            RawData::join(main, self.ring.range(0, span.ring_front))
        } else {
            RawData::join(&self.overflow[span.overflow_from..span.overflow_to], main)
        }
    }

    // Consumes the first n bytes and returns them.
    pub(crate) fn consume(&mut self, n: usize) -> RawData<'_>
        requires { n ≤ length (read_buffer_bytes self.old) }
        ensures value { bytes_of result ≡ take n (read_buffer_bytes self.old) }
        ensures single { IsContiguous n self.old → IsSingle result }
        ensures* after_borrow { sem 𝓛 (Rests the_row self.entry (λ new. ConsumesPrefix n self.old new)) }
    {
        let span = self.advance(n);
        self.span_data(&span)
    }
}
