//! The recorded threads.
ghost use Rattle.std.specs.Prelude.{◌≡◌, ◌==◌, ◌*◌, ◌/◌, ◌<◌, ◌≤◌, ⊤, IfOk, IfErr, OnOk, IfSome, IfNone};
ghost use Rattle.std.specs.Prelude.{length, drop};
ghost use Rattle.std.specs.Iterator.{YieldsFirstBy, item_count};
ghost use Rattle.perfdata_sources.specs.Raw.{bytes_of, EndsBefore, DropsPrefix};
ghost use Rattle.perfdata_sources.specs.Endian.{number_in};
ghost use Rattle.perfdata_sections.specs.HeaderString.{before_nul};
ghost use Rattle.perfdata_records.specs.Thread.{thread_at, thread_of};

use perfdata_base::endian::read_u64;
use perfdata_base::raw::{Endianness, FileOrder, RawData};
use std::alloc::AllocError;
use std::io::{Error, ErrorKind, Result};

// The size of an entry in bytes: a thread id of 8, and a name of 16.
const ENTRY_SIZE: usize = 24;

// The size of the name in bytes.
const NAME_SIZE: usize = 16;

/// The recorded threads (`PERF_RECORD_THREAD_MAP` of Linux's perf). Contracts describe them with
/// `threads_of`.
#[derive(Debug, Drop, PartialEq, Eq)]
pub struct ThreadMap<'a> {
    endian: Endianness,
    entries: RawData<'a>,
    // `entries` consists of whole entries
    ghost whole_entries: { length (bytes_of entries) ≡ 24 * (length (bytes_of entries) / 24) },
}

/// A thread of a thread map.
#[derive(Clone, Copy, Debug, PartialEq, Eq)]
pub struct ThreadMapEntry<'a> {
    /// The thread id.
    pub tid: u64,
    /// The thread's name, which perf usually leaves empty.
    pub name: RawData<'a>,
}

/// An iterator over the threads of a thread map, in order. Contracts describe the rest with
/// `remaining_threads`.
#[derive(Drop)]
pub struct ThreadMapIter<'a> {
    endian: Endianness,
    rest: RawData<'a>,
}

impl<'a> ThreadMap<'a> {
    ghost use Rattle.perfdata_records.specs.ThreadMap.{AreThreadEntries, IsThreadMapError, IsThreadMap};
    ghost use Rattle.perfdata_records.specs.ThreadMap.{entry_bytes_of, remaining_threads, threads_of};

    /// Parses the body of a record: a count of eight bytes, and that many entries of 24 bytes.
    ///
    /// Bytes after the entries are ignored and not kept. Two maps with the same byte order and entries are
    /// equal.
    ///
    /// Fails with an `InvalidData` error if the count times 24 exceeds 2^64 - 1, and with an `UnexpectedEof`
    /// error if the count or the entries are truncated.
    pub fn parse<T: FileOrder>(body: RawData<'a>) -> Result<ThreadMap<'a>>
        ensures value { IfOk result (λ map. IsThreadMap T.number_of (bytes_of body.entry) (threads_of map)) }
        ensures entries { IfOk result (λ map. AreThreadEntries T.number_of (bytes_of body.entry)
            (entry_bytes_of map)) }
        ensures error { IfErr result (λ error. IsThreadMapError T.number_of (bytes_of body.entry) error) }
    {
        let mut rest = body;
        let count = rest.read_u64::<T>()?;
        let Some(size) = (count as usize).checked_mul(ENTRY_SIZE) else {
            return Err(Error::from(ErrorKind::InvalidData));
        };
        let entries = rest.split_off_prefix(size)?;
        Ok(ThreadMap {
            endian: T::ENDIAN,
            entries,
        })
    }

    /// Returns the number of threads.
    pub fn len(&self) -> usize
        ensures count { result ≡ length (threads_of self.now) }
        ensures whole { length (entry_bytes_of self.now) ≡ 24 * result }
    {
        self.entries.len() / ENTRY_SIZE
    }

    /// Returns whether the map has no threads.
    pub fn is_empty(&self) -> bool
        ensures { result ≡ (length (threads_of self.now) == 0) }
    {
        self.len() == 0
    }

    /// Returns an iterator over the threads, in order.
    pub fn iter(&self) -> ThreadMapIter<'a>
        ensures { remaining_threads result ≡ threads_of self.now }
    {
        ThreadMapIter {
            endian: self.endian,
            rest: self.entries,
        }
    }
}

impl<'a> Clone for ThreadMap<'a> {
    ghost is_clone = { λ map copy. copy ≡ map };

    ghost is_infallible = { λ _. ⊤ };

    fn clone(&self) -> std::result::Result<ThreadMap<'a>, AllocError> {
        let endian = self.endian;
        let entries = self.entries;
        Ok(ThreadMap { endian, entries })
    }
}

// Consumes the first eight bytes and returns their number.
fn take_u64(endian: Endianness, bytes: &mut RawData<'_>) -> Result<u64>
    ensures value { IfOk result (λ number. number ≡ number_in endian 8 (bytes_of bytes.old)) }
    ensures rest { OnOk result (DropsPrefix 8 bytes.old bytes.new) }
    ensures too_short { IfErr result (λ error. EndsBefore 8 (bytes_of bytes.old) error) }
{
    let mut number = [0u8; 8];
    bytes.read_exact(&mut number)?;
    Ok(read_u64(endian, &number))
}

// Returns the bytes before the first NUL, or all bytes if there is none.
fn until_nul(bytes: RawData<'_>) -> RawData<'_>
    ensures { bytes_of result ≡ before_nul (bytes_of bytes.entry) }
{
    let mut rest = bytes;
    match rest.read_string() {
        Some(string) => string,
        None => bytes,
    }
}

// Splits into the thread of the first entry, and the bytes after that entry.
fn split_first_entry(
    endian: Endianness,
    bytes: RawData<'_>,
) -> Option<(ThreadMapEntry<'_>, RawData<'_>)>
    ensures none { IfNone result (length (bytes_of bytes.entry) < 24) }
    ensures some { IfSome result (λ _. 24 ≤ length (bytes_of bytes.entry)) }
    ensures entry { IfSome result (λ parts. thread_of parts.0
        ≡ thread_at (number_in endian) (bytes_of bytes.entry)) }
    ensures rest { IfSome result (λ parts. bytes_of parts.1 ≡ drop 24 (bytes_of bytes.entry)) }
{
    let mut rest = bytes;
    let Ok(tid) = take_u64(endian, &mut rest) else {
        return None;
    };
    match rest.split_off_prefix(NAME_SIZE) {
        Ok(name) => Some((
            ThreadMapEntry {
                tid,
                name: until_nul(name),
            },
            rest,
        )),
        Err(_) => None,
    }
}

impl<'a> Iterator for ThreadMapIter<'a> {
    ghost use Rattle.perfdata_records.specs.ThreadMap.{remaining_threads};

    type Item = ThreadMapEntry<'a>;

    ghost next_gives = { YieldsFirstBy thread_of remaining_threads };

    ghost remaining = { item_count remaining_threads };

    fn next(&mut self) -> Option<ThreadMapEntry<'a>> {
        let (entry, rest) = split_first_entry(self.endian, self.rest)?;
        self.rest = rest;
        Some(entry)
    }
}
