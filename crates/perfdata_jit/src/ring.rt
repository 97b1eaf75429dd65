//! A buffer of fixed size that is used as a ring: its bytes may wrap around its end.
ghost use Rattle.std.specs.Prelude.{◌≡◌, ℕ, ◌+◌, ◌-◌, ◌^◌, ◌<◌, ◌≤◌, ◌⊎◌, List, [], ◌++◌, length, take, drop};
ghost use Rattle.std.specs.Prelude.{slice_range, IfOk, vec_len};
ghost use Rattle.perfdata_sources.specs.Source.{Reads, CountsRead};
ghost use Rattle.perfdata_jit.specs.steps.RingFilling.{FillsRing};

use perfdata_base::source::Source;
use std::io::Result;

// The ring contains `buffer[start..end]` followed by `buffer[..front]`. The second part is empty unless `end`
// is the buffer's end.
#[derive(Drop)]
pub struct Ring {
    buffer: Vec<u8>,
    start: usize,
    end: usize,
    front: usize,
    ghost nonempty: { 0 < vec_len buffer },
    ghost ordered: { start ≤ end },
    ghost within: { end ≤ vec_len buffer },
    ghost apart: { front ≤ start },
    ghost wraps_at_end: { 0 < front → end ≡ vec_len buffer },
}

impl Ring {
    ghost use Rattle.perfdata_jit.specs.Ring.{DoesNotWrap, ring_bytes, ring_size};
    ghost use Rattle.perfdata_jit.specs.steps.Ring.{ring_len};

    // The ring contains `buffer[start..end]`.
    pub(crate) fn new(buffer: Vec<u8>, start: usize, end: usize) -> Ring
        requires order { start ≤ end }
        requires within { end ≤ vec_len buffer }
        requires nonempty { 0 < vec_len buffer }
        ensures bytes { ring_bytes result ≡ slice_range buffer.items start end }
        ensures size { ring_size result ≡ vec_len buffer }
    {
        Ring {
            buffer,
            start,
            end,
            front: 0,
        }
    }

    pub(crate) fn len(&self) -> usize
        ensures value { result ≡ ring_len self.now }
        ensures bytes { length (ring_bytes self.now) ≡ result }
        ensures bound { result ≤ ring_size self.now }
        ensures nonempty { 0 < ring_size self.now }
        ensures small { result < 2 ^ 63 }
    {
        self.end - self.start + self.front
    }

    pub(crate) fn size(&self) -> usize
        ensures { result ≡ ring_size self.now }
    {
        self.buffer.len()
    }

    // The bytes of the ring, in two parts.
    pub(crate) fn as_slices(&self) -> (&[u8], &[u8])
        ensures main { result.0.now ≡ slice_range self.now.buffer.items self.now.start self.now.end }
        ensures front { result.1.now ≡ take self.now.front self.now.buffer.items }
    {
        (
            &self.buffer[self.start..self.end],
            &self.buffer[..self.front],
        )
    }

    // Removes all bytes. The next byte is written at index 0.
    pub(crate) fn clear(&mut self)
        ensures bytes { ring_bytes self.new ≡ [] }
        ensures len { ring_len self.new ≡ 0 }
        ensures size { ring_size self.new ≡ ring_size self.old }
        ensures start { self.new.start ≡ 0 }
    {
        self.start = 0;
        self.end = 0;
        self.front = 0;
    }

    // Removes the first n bytes. Returns their position: the start and end of a range of the buffer, and the
    // length of a prefix of the buffer.
    pub(crate) fn advance(&mut self, n: usize) -> (usize, usize, usize)
        requires { n ≤ ring_len self.old }
        ensures order { result.0 ≤ result.1 }
        ensures within { result.1 ≤ ring_size self.new }
        ensures front_within { result.2 ≤ ring_size self.new }
        ensures taken_bytes { slice_range self.new.buffer.items result.0 result.1
            ++ take result.2 self.new.buffer.items ≡ take n (ring_bytes self.old) }
        ensures bytes { ring_bytes self.new ≡ drop n (ring_bytes self.old) }
        ensures size { ring_size self.new ≡ ring_size self.old }
        ensures at_front { self.old.start ≡ 0 → (result.0 ≡ 0) × (result.2 ≡ 0) × (result.1 ≡ n) }
        ensures single { DoesNotWrap n self.old → (result.0 ≡ result.1) ⊎ (result.2 ≡ 0) }
        ensures keeps_contiguous { (m : ℕ) → n ≤ m → DoesNotWrap m self.old → DoesNotWrap (m - n) self.new }
    {
        let start = self.start;
        let main = self.end - start;
        if n < main {
            self.start += n;
            (start, start + n, 0)
        } else {
            let end = self.end;
            let front = n - main;
            self.start = front;
            self.end = self.front;
            self.front = 0;
            (start, end, front)
        }
    }

    // The bytes of a range that `advance` returned.
    pub(crate) fn range(&self, start: usize, end: usize) -> &[u8]
        requires order { start ≤ end }
        requires within { end ≤ ring_size self.now }
        ensures { result.now ≡ slice_range self.now.buffer.items start end }
    {
        &self.buffer[start..end]
    }

    // Reads once into the free space after the ring's bytes.
    pub(crate) fn fill<R: Source>(&mut self, source: &mut R) -> Result<usize>
        requires { ring_len self.old < ring_size self.old }
        ensures fills { FillsRing (R.state source.old) (ring_bytes self.old) result (ring_bytes self.new)
            (R.state source.new) }
        ensures counts { CountsRead (R.state source.old) result (R.state source.new) }
        ensures same_loan { R.loan source.new ≡ R.loan source.old }
        ensures size { ring_size self.new ≡ ring_size self.old }
        ensures start { self.new.start ≡ self.old.start }
    {
        let size = self.buffer.len();
        if self.end < size {
            let count = read_into_range(source, &mut self.buffer, self.end, size)?;
            self.end += count;
            Ok(count)
        } else {
            let front_count = read_into_range(source, &mut self.buffer, self.front, self.start)?;
            self.front += front_count;
            Ok(front_count)
        }
    }
}

// Reads once into `buffer[start..end]`.
fn read_into_range<R: Source>(
    source: &mut R,
    buffer: &mut Vec<u8>,
    start: usize,
    end: usize,
) -> Result<usize>
    requires ordered { start < end }
    requires within { end ≤ vec_len buffer.old }
    ensures len { vec_len buffer.new ≡ vec_len buffer.old }
    ensures before { take start buffer.new.items ≡ take start buffer.old.items }
    ensures after { drop end buffer.new.items ≡ drop end buffer.old.items }
    ensures bound { IfOk result (λ n. start + n ≤ end) }
    ensures reads { Reads (R.state source.old) (slice_range buffer.new.items start end) result
        (R.state source.new) }
    ensures counts { CountsRead (R.state source.old) result (R.state source.new) }
    ensures same_loan { R.loan source.new ≡ R.loan source.old }
{
    source.read_front(&mut buffer[start..end])
}
