//! Numbers of eight bytes each.
ghost use Rattle.std.specs.Prelude.{◌≡◌, ◌≢◌, ◌*◌, ◌/◌, ◌%◌, IfSome, IfNone, length};
ghost use Rattle.std.specs.Iterator.{YieldsFirstBy, item_count};
ghost use Rattle.perfdata_sources.specs.Raw.{bytes_of, IsSingle};
ghost use Rattle.perfdata_events.specs.Single.{KeepsSingle};
ghost use Rattle.perfdata_events.specs.Format.{Decodes, block};

use crate::fields::words::{read_u64, split_first_u64};
use perfdata_base::raw::{Endianness, RawData};
use perfdata_base::source::unexpected_eof;
use std::fmt;
use std::io::Result;

/// Numbers of eight bytes each. Contracts describe them with `u64s_in`.
#[derive(Clone, Copy)]
pub struct RawDataU64<'a> {
    /// The byte order of the numbers.
    pub endian: Endianness,
    /// The bytes of the numbers, a multiple of eight.
    pub bytes: RawData<'a>,
    // `bytes` consists of whole numbers
    ghost whole_numbers: { length (bytes_of bytes) ≡ 8 * (length (bytes_of bytes) / 8) },
}

impl<'a> RawDataU64<'a> {
    ghost use Rattle.std.specs.Prelude.{◌<◌, ◌≤◌, ◌==◌, slice_index};
    ghost use Rattle.perfdata_events.specs.Words.{u64s_in, remaining_u64s};

    /// Returns the numbers of a byte order in bytes, or `None` if these aren't a multiple of eight.
    pub fn new(endian: Endianness, bytes: RawData<'a>) -> Option<RawDataU64<'a>>
        ensures none { IfNone result (length (bytes_of bytes.entry) % 8 ≢ 0) }
        ensures order { IfSome result (λ numbers. numbers.endian ≡ endian) }
        ensures bytes { IfSome result (λ numbers. numbers.bytes ≡ bytes.entry) }
    {
        if bytes.len() % 8 != 0 {
            return None;
        }
        Some(RawDataU64 { endian, bytes })
    }

    /// Returns the number of numbers.
    pub fn len(&self) -> usize
        ensures { result ≡ length (u64s_in self.now) }
    {
        self.bytes.len() / 8
    }

    /// Returns whether there are no numbers.
    pub fn is_empty(&self) -> bool
        ensures { result ≡ (length (u64s_in self.now) == 0) }
    {
        self.len() == 0
    }

    /// Returns the number at an index, or `None` if there are no more numbers than `index`.
    pub fn get(&self, index: usize) -> Option<u64>
        ensures none { IfNone result (length (u64s_in self.now) ≤ index) }
        ensures within { IfSome result (λ _. index < length (u64s_in self.now)) }
        ensures number { IfSome result (λ number. number ≡ slice_index (u64s_in self.now) index) }
    {
        if index >= self.bytes.len() / 8 {
            return None;
        }
        let start = 8 * index;
        let mut bytes = self.bytes.get(start..start + 8)?;
        match read_u64(self.endian, &mut bytes) {
            Ok(number) => Some(number),
            Err(_) => None,
        }
    }

    /// Returns an iterator over the numbers, in order.
    pub fn iter(&self) -> RawDataU64Iter<'a>
        ensures { remaining_u64s result ≡ u64s_in self.now }
    {
        RawDataU64Iter { rest: *self }
    }
}

/// An iterator over numbers of eight bytes each. Contracts describe the rest with `remaining_u64s`.
#[derive(Drop)]
pub struct RawDataU64Iter<'a> {
    rest: RawDataU64<'a>,
}

impl<'a> Iterator for RawDataU64Iter<'a> {
    ghost use Rattle.perfdata_events.specs.Words.{remaining_u64s};

    type Item = u64;

    ghost next_gives = { YieldsFirstBy (λ number. number) remaining_u64s };

    ghost remaining = { item_count remaining_u64s };

    fn next(&mut self) -> Option<u64> {
        let (number, others) = split_first_u64(self.rest)?;
        self.rest = others;
        Some(number)
    }
}

impl fmt::Debug for RawDataU64<'_> {
    fn fmt<W: fmt::Write>(&self, f: &mut fmt::Formatter<W>) -> fmt::Result {
        f.debug_list().entries(self.iter()).finish()
    }
}

// Removes `count` elements of `size` bytes each.
pub(crate) fn split_off_elements<'a>(
    fields: &mut RawData<'a>,
    count: u64,
    size: u64,
) -> Result<RawData<'a>>
    ensures decodes { Decodes (block (count * size)) bytes_of (bytes_of fields.old) result
        (bytes_of fields.new) }
    ensures single { KeepsSingle IsSingle fields.old result fields.new }
{
    let _len = fields.len();
    let Some(len) = count.checked_mul(size) else {
        return Err(unexpected_eof());
    };
    fields.split_off_prefix(len as usize)
}

/// Removes `len` bytes.
///
/// Fails with an `UnexpectedEof` error if they are truncated.
pub fn read_block<'a>(fields: &mut RawData<'a>, len: usize) -> Result<RawData<'a>>
    ensures decodes { Decodes (block len) bytes_of (bytes_of fields.old) result (bytes_of fields.new) }
    ensures single { KeepsSingle IsSingle fields.old result fields.new }
{
    fields.split_off_prefix(len)
}
