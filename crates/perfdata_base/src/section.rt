//! The entry that describes a section.
ghost use Rattle.std.specs.Prelude.{◌≡◌, ◌≤◌, length};
ghost use Rattle.perfdata_sources.specs.Endian.{number_in};
ghost use Rattle.perfdata_sources.specs.Source.{State, PausesOnlyOnError};
ghost use Rattle.perfdata_base.specs.Section.{section_entry_of, ParsesSectionEntry};

use perfdata_sources::endian::{Endianness, FileOrder, read_u64};
use perfdata_sources::source::{Source, read_exact};
use std::io::Result;

/// The offset and the size of a section (`perf_file_section`).
#[derive(Clone, Copy, Debug)]
pub struct PerfFileSection {
    /// The offset in bytes from the file's first byte.
    pub offset: u64,
    /// The size in bytes.
    pub size: u64,
}

// The entry at the start of `bytes`.
pub(crate) fn section_entry(endian: Endianness, bytes: &[u8]) -> PerfFileSection
    requires { 16 ≤ length bytes.now }
    ensures { result ≡ section_entry_of (number_in endian) bytes.now }
{
    PerfFileSection {
        offset: read_u64(endian, bytes),
        size: read_u64(endian, &bytes[8..]),
    }
}

impl PerfFileSection {
    /// The size of an entry in bytes.
    pub const STRUCT_SIZE: u64 = 16;

    /// Parses a section entry from a borrowed source: its offset and its size, of eight bytes each.
    ///
    /// It fails with `UnexpectedEof` if fewer than 16 bytes are read.
    pub fn parse_from<R: Source, T: FileOrder>(source: &mut R) -> Result<PerfFileSection>
        ensures parses { ParsesSectionEntry T.number_of (R.state source.old) result (R.state source.new) }
        ensures pauses { PausesOnlyOnError (R.state source.old) result (R.state source.new) }
        ensures same_loan { R.loan source.new ≡ R.loan source.old }
    {
        let mut bytes = [0u8; 16];
        read_exact(source, &mut bytes)?;
        Ok(section_entry(T::ENDIAN, &bytes))
    }

    /// Parses a section entry from a source, as `parse_from` does.
    pub fn parse<R: Source + Drop, T: FileOrder>(mut r: R) -> Result<PerfFileSection>
        ensures { (left : State) × ParsesSectionEntry T.number_of (R.state r) result left }
    {
        PerfFileSection::parse_from::<R, T>(&mut r)
    }
}
