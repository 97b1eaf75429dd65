//! Slices, bytes in two slices and cursors as sources.
ghost use Rattle.std.specs.Prelude.{◌≡◌, ◌+◌, ◌<◌, ◌≤◌, [], min, length, take, drop, Ok, refl};
ghost use Rattle.std.proofs.Common.{lit<};
ghost use Rattle.std.specs.Io.Cursor.{cursor_inner, cursor_position};
ghost use Rattle.perfdata_sources.specs.Source.{memory_source, memory_source_at};
ghost use Rattle.perfdata_sources.specs.Raw.{bytes_of};

use crate::raw::RawData;
use crate::source::{NOT_BUFFERED, PlacedSource, Source};
use std::alloc::AllocError;
use std::io::{Cursor, Result, Seek, SeekFrom};

impl Source for &[u8] {
    ghost state = { λ s. memory_source s.now };

    ghost loan = { λ _. 0 };

    ghost buffered = { λ s. s.now };

    fn read_front(&mut self, place: &mut [u8]) -> Result<usize> {
        let all: &[u8] = *self;
        let count = all.len().min(place.len());
        place[..count].copy_from_slice(&all[..count]);
        *self = &all[count..];
        Ok(count)
    }

    fn buffer(&self) -> &[u8] {
        &self[..]
    }

    fn read_buffered(&mut self, buf: &mut [u8]) -> bool {
        let all: &[u8] = *self;
        if all.len() < buf.len() {
            return false;
        }
        let (prefix, rest) = all.split_at(buf.len());
        buf.copy_from_slice(prefix);
        *self = rest;
        true
    }

    fn append_buffered(
        &mut self,
        buffer: &mut Vec<u8>,
        count: usize,
    ) -> std::result::Result<bool, AllocError> {
        let all: &[u8] = *self;
        if all.len() < count {
            return Ok(false);
        }
        let rest = &all[count..];
        buffer.extend_from_slice(&all[..count])?;
        *self = rest;
        Ok(true)
    }

    ghost steady_can_count = { λ _ _. record { errors = lit< tt; pauses = lit< tt } };
}

impl Source for RawData<'_> {
    ghost state = { λ r. memory_source (bytes_of r) };

    ghost loan = { λ _. 0 };

    ghost buffered = { λ _. [] };

    fn read_front(&mut self, place: &mut [u8]) -> Result<usize> {
        let count = self.len().min(place.len());
        self.read_exact(&mut place[..count])?;
        Ok(count)
    }

    fn buffer(&self) -> &[u8] {
        NOT_BUFFERED
    }

    ghost steady_can_count = { λ _ _. record { errors = lit< tt; pauses = lit< tt } };
}

// Copies as many bytes from offset `at` on as fit into `buf`, and returns their number.
pub(crate) fn copy_from_offset(all: &[u8], at: u64, buf: &mut [u8]) -> usize
    ensures count { result ≡ min (length (drop at all.now)) (length buf.old) }
    ensures copied { take result buf.new ≡ take result (drop at all.now) }
    ensures within { 0 < result → at + result ≤ length all.now }
{
    let start = (at as usize).min(all.len());
    let rest = &all[start..];
    let count = rest.len().min(buf.len());
    buf[..count].copy_from_slice(&rest[..count]);
    count
}

// The bytes from offset `at` on.
fn bytes_from_offset(all: &[u8], at: u64) -> &[u8]
    ensures { result.now ≡ drop at all.now }
{
    let first = (at as usize).min(all.len());
    &all[first..]
}

impl Source for Cursor<Vec<u8>> {
    ghost state = { λ c. memory_source_at (cursor_inner c).items (cursor_position c) };

    ghost loan = { λ _. 0 };

    ghost buffered = { λ c. drop (cursor_position c) (cursor_inner c).items };

    fn read_front(&mut self, place: &mut [u8]) -> Result<usize> {
        let at = self.position();
        let count = copy_from_offset(self.get_ref().as_slice(), at, place);
        if count > 0 {
            self.set_position(at + count as u64);
        }
        Ok(count)
    }

    fn buffer(&self) -> &[u8] {
        bytes_from_offset(self.get_ref().as_slice(), self.position())
    }

    fn read_buffered(&mut self, buf: &mut [u8]) -> bool {
        let at = self.position();
        let rest = bytes_from_offset(self.get_ref().as_slice(), at);
        let count = buf.len();
        if count == 0 || rest.len() < count {
            return false;
        }
        buf.copy_from_slice(&rest[..count]);
        self.set_position(at + count as u64);
        true
    }

    fn append_buffered(
        &mut self,
        buffer: &mut Vec<u8>,
        count: usize,
    ) -> std::result::Result<bool, AllocError> {
        let at = self.position();
        let rest = bytes_from_offset(self.get_ref().as_slice(), at);
        if count == 0 || rest.len() < count {
            return Ok(false);
        }
        buffer.extend_from_slice(&rest[..count])?;
        self.set_position(at + count as u64);
        Ok(true)
    }

    ghost steady_can_count = { λ _ _. record { errors = lit< tt; pauses = lit< tt } };
}

impl Source for Cursor<&[u8]> {
    ghost state = { λ c. memory_source_at (cursor_inner c).now (cursor_position c) };

    ghost loan = { λ _. 0 };

    ghost buffered = { λ c. drop (cursor_position c) (cursor_inner c).now };

    fn read_front(&mut self, place: &mut [u8]) -> Result<usize> {
        let at = self.position();
        let all: &[u8] = *self.get_ref();
        let count = copy_from_offset(all, at, place);
        if count > 0 {
            self.set_position(at + count as u64);
        }
        Ok(count)
    }

    fn buffer(&self) -> &[u8] {
        bytes_from_offset(self.get_ref(), self.position())
    }

    fn read_buffered(&mut self, buf: &mut [u8]) -> bool {
        let at = self.position();
        let rest = bytes_from_offset(self.get_ref(), at);
        let count = buf.len();
        if count == 0 || rest.len() < count {
            return false;
        }
        buf.copy_from_slice(&rest[..count]);
        self.set_position(at + count as u64);
        true
    }

    fn append_buffered(
        &mut self,
        buffer: &mut Vec<u8>,
        count: usize,
    ) -> std::result::Result<bool, AllocError> {
        let at = self.position();
        let rest = bytes_from_offset(self.get_ref(), at);
        if count == 0 || rest.len() < count {
            return Ok(false);
        }
        buffer.extend_from_slice(&rest[..count])?;
        self.set_position(at + count as u64);
        Ok(true)
    }

    ghost steady_can_count = { λ _ _. record { errors = lit< tt; pauses = lit< tt } };
}

impl PlacedSource for Cursor<Vec<u8>> {
    fn seek_to(&mut self, to: SeekFrom) -> Result<u64> {
        // For the prover.
        let _at = self.position();
        Seek::seek(self, to)
    }

    ghost remaining_from_position = { λ _. refl };
}

impl PlacedSource for Cursor<&[u8]> {
    fn seek_to(&mut self, to: SeekFrom) -> Result<u64> {
        // For the prover.
        let _at = self.position();
        Seek::seek(self, to)
    }

    ghost remaining_from_position = { λ _. refl };
}
