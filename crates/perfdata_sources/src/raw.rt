//! Bytes in one slice or in two.
ghost use Rattle.std.specs.Prelude.{◌≡◌, ◌+◌, ◌<◌, ◌≤◌, ◌++◌, ◌==◌, ◌⊎◌, ℕ, List, length, take, drop};
ghost use Rattle.std.specs.Prelude.{slice_index, slice_range, refl, IfErr, IfNone, IfOk, IfSome, IsOkAnd};
ghost use Rattle.std.specs.Prelude.{OnErr, OnOk, vec_capacity, vec_len};
ghost use Rattle.std.specs.Cow.{cow_slice_items, IsBorrowedSlice, IsOwnedSlice};
ghost use Rattle.std.specs.Int.{w32, cast_signed};
ghost use Rattle.std.specs.Str.{bytes_eq};
ghost use Rattle.std.specs.Cmp.{partial_equiv_from_equiv};
ghost use Rattle.std.specs.Cmp.Lexicographic.{on_texts_equal};
ghost use Rattle.memchr.specs.Find.{IsFirstByte, is_byte};
ghost use Rattle.perfdata_sources.specs.Raw.{bytes_of, HasNoNul, EndsBefore, IsSingle, DropsPrefix};
ghost use Rattle.perfdata_sources.specs.Raw.{ReadsNulString};
ghost use Rattle.perfdata_sources.specs.declared.raw.RawData.TheVariants.{Single};

pub use crate::endian::{Endianness, FileOrder};
use crate::source::unexpected_eof;
use memchr::memchr;
use std::alloc::{AllocError, Global};
use std::borrow::CowSlice;
use std::io;
use std::ops::Range;

/// Bytes in one slice or in two, as in a buffer that wraps. Methods see one sequence of bytes.
#[derive(Clone, Copy, Debug)]
pub enum RawData<'a> {
    /// All bytes in one slice.
    Single(&'a [u8]),
    /// The bytes of the first slice, then those of the second.
    Split(&'a [u8], &'a [u8]),
}

// Whether two slices contain the same bytes as two others. The first pair splits no later than the second.
fn equal_bytes(first: &[u8], second: &[u8], other_first: &[u8], other_second: &[u8]) -> bool
    requires { length first.now ≤ length other_first.now }
    ensures { result ≡ bytes_eq (first.now ++ second.now) (other_first.now ++ other_second.now) }
{
    let (other_prefix, other_middle) = other_first.split_at(first.len());
    if second.len() < other_middle.len() {
        return false;
    }
    let (middle, tail) = second.split_at(other_middle.len());
    first == other_prefix && middle == other_middle && tail == other_second
}

impl<'a> From<&'a [u8]> for RawData<'a> {
    ghost from_gives = { λ bytes made. made ≡ Single bytes };

    fn from(bytes: &'a [u8]) -> RawData<'a> {
        RawData::Single(bytes)
    }
}

impl<'a> RawData<'a> {
    /// Returns the bytes of two slices. If one of them is empty, they are in one slice.
    pub fn join(first: &'a [u8], second: &'a [u8]) -> RawData<'a>
        ensures bytes { bytes_of result ≡ first.now ++ second.now }
        ensures single { (length first.now ≡ 0) ⊎ (length second.now ≡ 0) → IsSingle result }
    {
        if first.is_empty() {
            RawData::Single(second)
        } else if second.is_empty() {
            RawData::Single(first)
        } else {
            RawData::Split(first, second)
        }
    }

    // The bytes in two slices, the second of which may be empty.
    fn as_slices(self) -> (&'a [u8], &'a [u8])
        ensures bytes { result.0.now ++ result.1.now ≡ bytes_of self.entry }
        ensures single { IsSingle self.entry → length result.1.now ≡ 0 }
    {
        match self {
            RawData::Single(bytes) => bytes.split_at(bytes.len()),
            RawData::Split(first, second) => (first, second),
        }
    }

    // The first `count` bytes and the rest. `None` if there are fewer.
    fn checked_split_at(self, count: usize) -> Option<(RawData<'a>, RawData<'a>)>
        ensures none { IfNone result (length (bytes_of self.entry) < count) }
        ensures prefix { IfSome result (λ parts. bytes_of parts.0 ≡ take count (bytes_of self.entry)) }
        ensures single { IfSome result (λ parts. IsSingle self.entry → IsSingle parts.0) }
        ensures rest { IfSome result (λ parts. DropsPrefix count self.entry parts.1) }
    {
        let (first, second) = self.as_slices();
        if count <= first.len() {
            let (prefix, rest) = first.split_at(count);
            return Some((RawData::Single(prefix), RawData::join(rest, second)));
        }
        let beyond = count - first.len();
        if second.len() < beyond {
            return None;
        }
        let (prefix, rest) = second.split_at(beyond);
        Some((RawData::join(first, prefix), RawData::Single(rest)))
    }

    // The index of the first NUL.
    fn find_nul(self) -> Option<usize>
        ensures { IsFirstByte (is_byte 0) (bytes_of self.entry) result }
    {
        let (first, second) = self.as_slices();
        match memchr(0, first) {
            Some(at) => Some(at),
            None => match memchr(0, second) {
                Some(at) => Some(first.len() + at),
                None => None,
            },
        }
    }

    fn copy_to(self, buf: &mut [u8])
        requires { length (bytes_of self) ≡ length buf.old }
        ensures { buf.new ≡ bytes_of self.entry }
    {
        match self {
            RawData::Single(bytes) => buf.copy_from_slice(bytes),
            RawData::Split(first, second) => {
                buf[..first.len()].copy_from_slice(first);
                buf[first.len()..].copy_from_slice(second);
            }
        }
    }

    /// Returns the number of bytes.
    pub fn len(&self) -> usize
        ensures { result ≡ length (bytes_of self.now) }
    {
        let (first, second) = self.as_slices();
        first.len() + second.len()
    }

    /// Returns whether there are no bytes.
    pub fn is_empty(&self) -> bool
        ensures { result ≡ (length (bytes_of self.now) == 0) }
    {
        self.len() == 0
    }

    /// Returns the bytes of a range, or `None` if the range isn't within the bytes.
    pub fn get(&self, range: Range<usize>) -> Option<RawData<'a>>
        ensures none { IfNone result ((range.end < range.start) ⊎ (length (bytes_of self.now) < range.end)) }
        ensures within { IfSome result (λ _. (range.start ≤ range.end)
            × (range.end ≤ length (bytes_of self.now))) }
        ensures bytes { IfSome result (λ part. bytes_of part
            ≡ slice_range (bytes_of self.now) range.start range.end) }
        ensures single { IfSome result (λ part. IsSingle self.now → IsSingle part) }
    {
        if range.end < range.start {
            return None;
        }
        match self.checked_split_at(range.start) {
            None => None,
            Some((_, rest)) => match rest.checked_split_at(range.end - range.start) {
                None => None,
                Some((part, _)) => Some(part),
            },
        }
    }

    /// Removes the first `count` bytes, and returns them.
    ///
    /// If there are fewer, it fails with `UnexpectedEof` and removes none.
    pub fn split_off_prefix(&mut self, count: usize) -> io::Result<RawData<'a>>
        ensures prefix { IfOk result (λ prefix. bytes_of prefix ≡ take count (bytes_of self.old)) }
        ensures single { IfOk result (λ prefix. IsSingle self.old → IsSingle prefix) }
        ensures rest { OnOk result (DropsPrefix count self.old self.new) }
        ensures too_short { IfErr result (λ error. EndsBefore count (bytes_of self.old) error) }
        ensures unchanged { OnErr result (self.new ≡ self.old) }
    {
        match self.checked_split_at(count) {
            None => Err(unexpected_eof()),
            Some((prefix, rest)) => {
                *self = rest;
                Ok(prefix)
            }
        }
    }

    /// Removes the first `count` bytes.
    ///
    /// If there are fewer, it fails with `UnexpectedEof` and removes none.
    pub fn skip(&mut self, count: usize) -> io::Result<()>
        ensures rest { OnOk result (DropsPrefix count self.old self.new) }
        ensures too_short { IfErr result (λ error. EndsBefore count (bytes_of self.old) error) }
        ensures unchanged { OnErr result (self.new ≡ self.old) }
    {
        self.split_off_prefix(count)?;
        Ok(())
    }

    /// Fills `buf` with the first bytes, and removes them.
    ///
    /// If there are fewer, it fails with `UnexpectedEof`, and nothing changes.
    pub fn read_exact(&mut self, buf: &mut [u8]) -> io::Result<()>
        ensures read { OnOk result (buf.new ≡ take (length buf.old) (bytes_of self.old)) }
        ensures rest { OnOk result (DropsPrefix (length buf.old) self.old self.new) }
        ensures too_short { IfErr result (λ error. EndsBefore (length buf.old) (bytes_of self.old) error) }
        ensures unchanged { OnErr result ((self.new ≡ self.old) × (buf.new ≡ buf.old)) }
    {
        self.split_off_prefix(buf.len())?.copy_to(buf);
        Ok(())
    }

    /// Removes the first byte, and returns it.
    ///
    /// If there is none, it fails with `UnexpectedEof`.
    pub fn read_u8(&mut self) -> io::Result<u8>
        ensures value { IfOk result (λ byte. byte ≡ slice_index (bytes_of self.old) 0) }
        ensures rest { OnOk result (DropsPrefix 1 self.old self.new) }
        ensures too_short { IfErr result (λ error. EndsBefore 1 (bytes_of self.old) error) }
        ensures unchanged { OnErr result (self.new ≡ self.old) }
    {
        let mut bytes = [0u8; 1];
        self.read_exact(&mut bytes)?;
        Ok(bytes[0])
    }

    /// Removes the first two bytes, and returns the number that they contain.
    ///
    /// If there are fewer, it fails with `UnexpectedEof` and removes none.
    pub fn read_u16<T: FileOrder>(&mut self) -> io::Result<u16>
        ensures value { IfOk result (λ number. number ≡ T.number_of 2 (bytes_of self.old)) }
        ensures rest { OnOk result (DropsPrefix 2 self.old self.new) }
        ensures too_short { IfErr result (λ error. EndsBefore 2 (bytes_of self.old) error) }
        ensures unchanged { OnErr result (self.new ≡ self.old) }
    {
        let mut bytes = [0u8; 2];
        self.read_exact(&mut bytes)?;
        Ok(T::read_u16(&bytes))
    }

    /// Removes the first four bytes, and returns the number that they contain.
    ///
    /// If there are fewer, it fails with `UnexpectedEof` and removes none.
    pub fn read_u32<T: FileOrder>(&mut self) -> io::Result<u32>
        ensures value { IfOk result (λ number. number ≡ T.number_of 4 (bytes_of self.old)) }
        ensures rest { OnOk result (DropsPrefix 4 self.old self.new) }
        ensures too_short { IfErr result (λ error. EndsBefore 4 (bytes_of self.old) error) }
        ensures unchanged { OnErr result (self.new ≡ self.old) }
    {
        let mut bytes = [0u8; 4];
        self.read_exact(&mut bytes)?;
        Ok(T::read_u32(&bytes))
    }

    /// Removes the first four bytes, and returns the signed number that they contain.
    ///
    /// If there are fewer, it fails with `UnexpectedEof` and removes none.
    pub fn read_i32<T: FileOrder>(&mut self) -> io::Result<i32>
        ensures value { IfOk result (λ number. number ≡ cast_signed w32 (T.number_of 4 (bytes_of self.old))) }
        ensures rest { OnOk result (DropsPrefix 4 self.old self.new) }
        ensures too_short { IfErr result (λ error. EndsBefore 4 (bytes_of self.old) error) }
        ensures unchanged { OnErr result (self.new ≡ self.old) }
    {
        Ok(self.read_u32::<T>()?.cast_signed())
    }

    /// Removes the first eight bytes, and returns the number that they contain.
    ///
    /// If there are fewer, it fails with `UnexpectedEof` and removes none.
    pub fn read_u64<T: FileOrder>(&mut self) -> io::Result<u64>
        ensures value { IfOk result (λ number. number ≡ T.number_of 8 (bytes_of self.old)) }
        ensures rest { OnOk result (DropsPrefix 8 self.old self.new) }
        ensures too_short { IfErr result (λ error. EndsBefore 8 (bytes_of self.old) error) }
        ensures unchanged { OnErr result (self.new ≡ self.old) }
    {
        let mut bytes = [0u8; 8];
        self.read_exact(&mut bytes)?;
        Ok(T::read_u64(&bytes))
    }

    /// Removes the bytes up to the first NUL, and returns those before the NUL.
    ///
    /// If there is no NUL, it returns `None` and removes none.
    pub fn read_string(&mut self) -> Option<RawData<'a>>
        ensures string { IfSome result (λ string. ReadsNulString self.old string self.new) }
        ensures none { IfNone result (HasNoNul (bytes_of self.old)) }
        ensures unchanged { IfNone result (self.new ≡ self.old) }
    {
        let at = self.find_nul()?;
        let (string, ended) = self.checked_split_at(at)?;
        let (_, rest) = ended.checked_split_at(1)?;
        *self = rest;
        Some(string)
    }

    /// Returns the bytes in one slice. It copies them only if they are in two.
    ///
    /// If there is no memory for the copy, it fails with `AllocError`.
    pub fn as_slice(&self, alloc: Global) -> Result<CowSlice<'a, u8>, AllocError>
        ensures bytes { IfOk result (λ slice. cow_slice_items slice ≡ bytes_of self.now) }
        ensures borrowed { IsSingle self.now → IsOkAnd result (λ slice. IsBorrowedSlice slice) }
        ensures owned { ¬ IsSingle self.now → IfOk result (λ slice. IsOwnedSlice slice) }
    {
        match *self {
            RawData::Single(bytes) => Ok(CowSlice::Borrowed(bytes)),
            RawData::Split(_, _) => {
                let mut all = Vec::with_capacity(alloc, self.len())?;
                self.append_to(&mut all)?;
                Ok(CowSlice::Owned(all))
            }
        }
    }

    /// Appends the bytes to a buffer.
    ///
    /// If the buffer's capacity is too small and there is no memory for a larger one, it fails with
    /// `AllocError`, and the bytes of the buffer stay the same.
    pub fn append_to(&self, buffer: &mut Vec<u8>) -> Result<(), AllocError>
        ensures appends { OnOk result (buffer.new.items ≡ buffer.old.items ++ bytes_of self.now) }
        ensures full { OnErr result (vec_capacity buffer.old
            < vec_len buffer.old + length (bytes_of self.now)) }
        ensures unchanged { OnErr result (buffer.new.items ≡ buffer.old.items) }
    {
        let (first, second) = self.as_slices();
        buffer.try_reserve(first.len() + second.len())?;
        buffer.extend_from_slice(first)?;
        buffer.extend_from_slice(second)
    }
}

// Values are equal if their bytes are, wherever they are split.
impl PartialEq for RawData<'_> {
    ghost eq = { λ x y. bytes_eq (bytes_of x) (bytes_of y) };

    ghost laws = { partial_equiv_from_equiv (on_texts_equal bytes_of) };

    fn eq(&self, other: &Self) -> bool {
        let (front, rest) = self.as_slices();
        let (other_front, other_rest) = other.as_slices();
        if front.len() <= other_front.len() {
            equal_bytes(front, rest, other_front, other_rest)
        } else {
            equal_bytes(other_front, other_rest, front, rest)
        }
    }
}

impl Eq for RawData<'_> {
    ghost laws = { on_texts_equal bytes_of };
}
