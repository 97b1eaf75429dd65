//! The header of a perf.data file.
ghost use Rattle.std.specs.Prelude.{◌≡◌, ◌≤◌, IfNone, IfSome, length};
ghost use Rattle.std.specs.IoError.{error_kind};
ghost use Rattle.std.specs.declared.io.ErrorKind.TheVariants.{InvalidInput};
ghost use Rattle.perfdata_sources.specs.Source.{State, PausesOnlyOnError};
ghost use Rattle.perfdata_base.specs.Header.{file_header_of, ParsesFileHeader};
ghost use Rattle.perfdata_base.specs.steps.Header.{SkipsExtra};
ghost use Rattle.perfdata_base.specs.Header.{IsUnknownMagic, endian_by_first_byte, magic_of};

use crate::section::{PerfFileSection, section_entry};
use perfdata_identifiers::features::FeatureSet;
use perfdata_sources::endian::{Endianness, read_u64};
use perfdata_sources::source::{PlacedSource, read_exact};
use std::io::{Error, ErrorKind, Result, SeekFrom};

mod pipe;

pub use pipe::PerfPipeHeader;

/// The header of a perf.data file (`perf_file_header`).
#[derive(Clone, Copy, Debug)]
pub struct PerfHeader {
    /// `PERFILE2` in the byte order of the file.
    pub magic: [u8; 8],
    /// The size of the header in bytes. A value below 104 means 104.
    pub header_size: u64,
    /// The size of an entry of the attribute section in bytes.
    pub attr_size: u64,
    /// The section of the attributes.
    pub attr_section: PerfFileSection,
    /// The section of the records.
    pub data_section: PerfFileSection,
    /// The section of the event types, in old recordings.
    pub event_types_section: PerfFileSection,
    /// The features whose sections follow the data.
    pub features: FeatureSet,
}

// The number of header bytes that are parsed.
const KNOWN_SIZE: usize = 104;

// The magic of a little-endian file or pipe.
const LITTLE_MAGIC: [u8; 8] = *b"PERFILE2";

// The magic of a big-endian file or pipe.
const BIG_MAGIC: [u8; 8] = *b"2ELIFREP";

/// Returns the byte order of a perf.data file or pipe with this magic, or `None` if it is the magic of
/// neither.
pub fn endian_of_magic(magic: &[u8; 8]) -> Option<Endianness>
    ensures some { IfSome result (λ endian. magic.now ≡ magic_of endian) }
    ensures none { IfNone result (IsUnknownMagic magic.now) }
{
    if *magic == LITTLE_MAGIC {
        Some(Endianness::LittleEndian)
    } else if *magic == BIG_MAGIC {
        Some(Endianness::BigEndian)
    } else {
        None
    }
}

// The byte order by the first byte of a header, which is that of a valid magic.
fn endian_by_first_byte(bytes: &[u8]) -> Endianness
    requires { 1 ≤ length bytes.now }
    ensures { result ≡ endian_by_first_byte bytes.now }
{
    if bytes[0] == LITTLE_MAGIC[0] {
        Endianness::LittleEndian
    } else {
        Endianness::BigEndian
    }
}

// Parses a header in the byte order of its magic.
fn parse_header(bytes: &[u8]) -> PerfHeader
    requires { length bytes.now ≡ 104 }
    ensures { result ≡ file_header_of bytes.now }
{
    let endian = endian_by_first_byte(bytes);
    let mut magic = [0u8; 8];
    magic.copy_from_slice(&bytes[..8]);
    PerfHeader {
        magic,
        header_size: read_u64(endian, &bytes[8..]),
        attr_size: read_u64(endian, &bytes[16..]),
        attr_section: section_entry(endian, &bytes[24..]),
        data_section: section_entry(endian, &bytes[40..]),
        event_types_section: section_entry(endian, &bytes[56..]),
        features: FeatureSet([
            read_u64(endian, &bytes[72..]),
            read_u64(endian, &bytes[80..]),
            read_u64(endian, &bytes[88..]),
            read_u64(endian, &bytes[96..]),
        ]),
    }
}

fn extra_too_large() -> Error
    ensures { error_kind result ≡ InvalidInput }
{
    Error::from(ErrorKind::InvalidInput)
}

// Skips the bytes of a header after the first `KNOWN_SIZE`.
fn skip_extra<C: PlacedSource>(source: &mut C, header_size: u64) -> Result<()>
    ensures skips { SkipsExtra (C.state source.old) header_size result (C.state source.new) }
    ensures pauses { PausesOnlyOnError (C.state source.old) result (C.state source.new) }
    ensures same_loan { C.loan source.new ≡ C.loan source.old }
{
    if header_size <= KNOWN_SIZE as u64 {
        return Ok(());
    }
    match i64::try_from(header_size - KNOWN_SIZE as u64) {
        Ok(extra) => {
            source.seek_to(SeekFrom::Current(extra))?;
            Ok(())
        }
        Err(_) => Err(extra_too_large()),
    }
}

impl PerfHeader {
    /// Parses the header at the position of a borrowed source, and leaves the source after it.
    ///
    /// Its numbers are little-endian if the first byte of the magic is `P`, else big-endian. If its size is
    /// more than 104 bytes, a seek skips the bytes after these. It fails with `UnexpectedEof` if fewer than
    /// 104 bytes are read, and with `InvalidInput` if 2^63 bytes or more are to be skipped.
    pub fn parse_from<C: PlacedSource>(source: &mut C) -> Result<PerfHeader>
        ensures parses { ParsesFileHeader (C.state source.old) result (C.state source.new) }
        ensures pauses { PausesOnlyOnError (C.state source.old) result (C.state source.new) }
        ensures same_loan { C.loan source.new ≡ C.loan source.old }
    {
        let mut bytes = [0u8; KNOWN_SIZE];
        read_exact(source, &mut bytes)?;
        let header = parse_header(&bytes);
        skip_extra(source, header.header_size)?;
        Ok(header)
    }

    /// Parses the header at the position of a source, as `parse_from` does.
    pub fn parse<C: PlacedSource + Drop>(mut c: C) -> Result<PerfHeader>
        ensures { (left : State) × ParsesFileHeader (C.state c) result left }
    {
        PerfHeader::parse_from(&mut c)
    }
}
