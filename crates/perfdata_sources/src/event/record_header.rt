//! Record headers.
ghost use Rattle.std.specs.Prelude.{◌≡◌, ◌≤◌, length};
ghost use Rattle.perfdata_sources.specs.Source.{State, PausesOnlyOnError};
ghost use Rattle.perfdata_sources.specs.Endian.{number_in};
ghost use Rattle.perfdata_sources.specs.RecordHeader.{ParsesRecordHeader, PeeksRecordHeader};
ghost use Rattle.perfdata_sources.specs.RecordHeader.{record_header_of};

use crate::endian::{Endianness, FileOrder, read_u16, read_u32};
use crate::source::{Source, read_exact};
use std::io::Result;

/// The header of a record (`perf_event_header` in Linux's `perf_event.h`).
#[derive(Clone, Copy, Debug)]
pub struct PerfEventHeader {
    /// The record's type.
    pub type_: u32,
    /// Bits of the record, among them the processor's mode.
    pub misc: u16,
    /// The size of the record in bytes, with its header.
    pub size: u16,
}

impl PerfEventHeader {
    /// The size of a record header in bytes.
    pub const STRUCT_SIZE: usize = 8;

    /// Parses a record header from a borrowed source: its type of four bytes, its misc and its size of two.
    ///
    /// It fails with `UnexpectedEof` if fewer than 8 bytes are read.
    pub fn parse_from<R: Source, T: FileOrder>(source: &mut R) -> Result<PerfEventHeader>
        ensures parses { ParsesRecordHeader T.number_of (R.state source.old) result (R.state source.new) }
        ensures pauses { PausesOnlyOnError (R.state source.old) result (R.state source.new) }
        ensures same_loan { R.loan source.new ≡ R.loan source.old }
    {
        let mut bytes = [0u8; PerfEventHeader::STRUCT_SIZE];
        read_exact(source, &mut bytes)?;
        Ok(PerfEventHeader {
            type_: T::read_u32(&bytes),
            misc: T::read_u16(&bytes[4..]),
            size: T::read_u16(&bytes[6..]),
        })
    }

    /// Returns the record header in eight bytes, in the byte order `endian`.
    pub fn from_bytes(
        endian: Endianness,
        bytes: &[u8; PerfEventHeader::STRUCT_SIZE],
    ) -> PerfEventHeader
        ensures { result ≡ record_header_of (number_in endian) bytes.now }
    {
        read_record_header(endian, bytes)
    }

    /// Returns the record header in the first eight of `bytes`, in the byte order `endian`; `None` if there
    /// are fewer.
    pub fn peek(endian: Endianness, bytes: &[u8]) -> Option<PerfEventHeader>
        ensures { PeeksRecordHeader (number_in endian) bytes.now result }
    {
        if bytes.len() < PerfEventHeader::STRUCT_SIZE {
            return None;
        }
        Some(read_record_header(endian, bytes))
    }

    /// Parses a record header from a source, as `parse_from` does.
    pub fn parse<R: Source + Drop, T: FileOrder>(mut r: R) -> Result<PerfEventHeader>
        ensures { (left : State) × ParsesRecordHeader T.number_of (R.state r) result left }
    {
        PerfEventHeader::parse_from::<R, T>(&mut r)
    }
}

// The record header in the first eight bytes.
fn read_record_header(endian: Endianness, bytes: &[u8]) -> PerfEventHeader
    requires { 8 ≤ length bytes.now }
    ensures { result ≡ record_header_of (number_in endian) bytes.now }
{
    PerfEventHeader {
        type_: read_u32(endian, bytes),
        misc: read_u16(endian, &bytes[4..]),
        size: read_u16(endian, &bytes[6..]),
    }
}
