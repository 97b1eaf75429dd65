//! Sections that consist of numbers: CPU counts, sample times, compression, clocks.
ghost use Rattle.std.specs.Prelude.{◌≡◌};
ghost use Rattle.std.specs.IoError.{error_kind};
ghost use Rattle.std.specs.declared.io.ErrorKind.TheVariants.{InvalidData};
ghost use Rattle.perfdata_sources.specs.Endian.{number_in};
ghost use Rattle.perfdata_sources.specs.Source.{State, PausesOnlyOnError};
ghost use Rattle.perfdata_sections.specs.ParsedPart.{ParsesPart};
ghost use Rattle.perfdata_sections.specs.NumberSections.{nr_cpus_of, sample_times_of, compression_of};
ghost use Rattle.perfdata_sections.specs.NumberSections.{ParsesClock};

use perfdata_base::endian::{read_u32, read_u64};
use perfdata_base::raw::{Endianness, FileOrder};
use perfdata_base::source::{Source, read_exact};
use std::io::{Error, ErrorKind, Result};

/// The numbers of CPUs of the machine (section NRCPUS of Linux's perf).
#[derive(Clone, Copy, Debug)]
pub struct NrCpus {
    /// The number of available CPUs.
    pub nr_cpus_available: u32,
    /// The number of online CPUs.
    pub nr_cpus_online: u32,
}

impl NrCpus {
    /// The size of the section in bytes.
    pub const STRUCT_SIZE: usize = 8;

    /// Reads the CPU counts at the position of a borrowed source: available and online, of four bytes each in
    /// the byte order `endian`.
    ///
    /// Fails with an `UnexpectedEof` error if the source returns fewer than 8 bytes.
    pub fn parse_with_endian<R: Source>(endian: Endianness, source: &mut R) -> Result<NrCpus>
        ensures parses { ParsesPart 8 (nr_cpus_of (number_in endian)) (R.state source.old) result
            (R.state source.new) }
        ensures pauses { PausesOnlyOnError (R.state source.old) result (R.state source.new) }
        ensures same_loan { R.loan source.new ≡ R.loan source.old }
    {
        let mut bytes = [0u8; NrCpus::STRUCT_SIZE];
        read_exact(source, &mut bytes)?;
        Ok(NrCpus {
            nr_cpus_available: read_u32(endian, &bytes),
            nr_cpus_online: read_u32(endian, &bytes[4..]),
        })
    }

    /// Reads the CPU counts at the position of a borrowed source. See `parse_with_endian`.
    pub fn parse_from<R: Source, T: FileOrder>(source: &mut R) -> Result<NrCpus>
        ensures parses { ParsesPart 8 (nr_cpus_of T.number_of) (R.state source.old) result
            (R.state source.new) }
        ensures pauses { PausesOnlyOnError (R.state source.old) result (R.state source.new) }
        ensures same_loan { R.loan source.new ≡ R.loan source.old }
    {
        NrCpus::parse_with_endian(T::ENDIAN, source)
    }

    /// Reads the CPU counts at the position of an owned source. See `parse_from`.
    pub fn parse<R: Source + Drop, T: FileOrder>(mut reader: R) -> Result<NrCpus>
        ensures { (final : State) × ParsesPart 8 (nr_cpus_of T.number_of) (R.state reader) result final }
    {
        NrCpus::parse_from::<R, T>(&mut reader)
    }
}

/// The times of the first and the last sample (section SAMPLE_TIME).
#[derive(Clone, Copy, Debug)]
pub struct SampleTimeRange {
    /// The time of the first sample, in nanoseconds of the recording's clock.
    pub first_sample_time: u64,
    /// The time of the last sample, in nanoseconds of the recording's clock.
    pub last_sample_time: u64,
}

impl SampleTimeRange {
    /// The size of the section in bytes.
    pub const STRUCT_SIZE: usize = 16;

    /// Reads the times at the position of a borrowed source: the first and the last, of eight bytes each in
    /// the byte order `endian`.
    ///
    /// Fails with an `UnexpectedEof` error if the source returns fewer than 16 bytes.
    pub fn parse_with_endian<R: Source>(
        endian: Endianness,
        source: &mut R,
    ) -> Result<SampleTimeRange>
        ensures parses { ParsesPart 16 (sample_times_of (number_in endian)) (R.state source.old) result
            (R.state source.new) }
        ensures pauses { PausesOnlyOnError (R.state source.old) result (R.state source.new) }
        ensures same_loan { R.loan source.new ≡ R.loan source.old }
    {
        let mut bytes = [0u8; SampleTimeRange::STRUCT_SIZE];
        read_exact(source, &mut bytes)?;
        Ok(SampleTimeRange {
            first_sample_time: read_u64(endian, &bytes),
            last_sample_time: read_u64(endian, &bytes[8..]),
        })
    }

    /// Reads the times at the position of a borrowed source. See `parse_with_endian`.
    pub fn parse_from<R: Source, T: FileOrder>(source: &mut R) -> Result<SampleTimeRange>
        ensures parses { ParsesPart 16 (sample_times_of T.number_of) (R.state source.old) result
            (R.state source.new) }
        ensures pauses { PausesOnlyOnError (R.state source.old) result (R.state source.new) }
        ensures same_loan { R.loan source.new ≡ R.loan source.old }
    {
        SampleTimeRange::parse_with_endian(T::ENDIAN, source)
    }

    /// Reads the times at the position of an owned source. See `parse_from`.
    pub fn parse<R: Source + Drop, T: FileOrder>(mut reader: R) -> Result<SampleTimeRange>
        ensures { (final : State) × ParsesPart 16 (sample_times_of T.number_of)
            (R.state reader) result final }
    {
        SampleTimeRange::parse_from::<R, T>(&mut reader)
    }
}

/// The compression of the records (section COMPRESSED).
#[derive(Clone, Copy, Debug)]
pub struct CompressionInfo {
    /// The version of the format.
    pub version: u32,
    /// The compression algorithm: 1 is Zstd.
    pub type_: u32,
    /// The compression level.
    pub level: u32,
    /// The uncompressed size divided by the compressed size, as a whole number.
    pub ratio: u32,
    /// The mapped size of the recorder's buffer, in bytes.
    pub mmap_len: u32,
}

impl CompressionInfo {
    /// The size of the section in bytes.
    pub const STRUCT_SIZE: usize = 20;

    /// The `type_` of Zstd.
    pub const ZSTD_TYPE: u32 = 1;

    /// Reads the compression info at the position of a borrowed source.
    ///
    /// The fields are version, type, level, ratio and mapped size, of four bytes each in the byte order
    /// `endian`.
    ///
    /// Fails with an `UnexpectedEof` error if the source returns fewer than 20 bytes.
    pub fn parse_with_endian<R: Source>(
        endian: Endianness,
        source: &mut R,
    ) -> Result<CompressionInfo>
        ensures parses { ParsesPart 20 (compression_of (number_in endian)) (R.state source.old) result
            (R.state source.new) }
        ensures pauses { PausesOnlyOnError (R.state source.old) result (R.state source.new) }
        ensures same_loan { R.loan source.new ≡ R.loan source.old }
    {
        let mut bytes = [0u8; CompressionInfo::STRUCT_SIZE];
        read_exact(source, &mut bytes)?;
        Ok(CompressionInfo {
            version: read_u32(endian, &bytes),
            type_: read_u32(endian, &bytes[4..]),
            level: read_u32(endian, &bytes[8..]),
            ratio: read_u32(endian, &bytes[12..]),
            mmap_len: read_u32(endian, &bytes[16..]),
        })
    }

    /// Reads the compression info at the position of a borrowed source. See `parse_with_endian`.
    pub fn parse_from<R: Source, T: FileOrder>(source: &mut R) -> Result<CompressionInfo>
        ensures parses { ParsesPart 20 (compression_of T.number_of) (R.state source.old) result
            (R.state source.new) }
        ensures pauses { PausesOnlyOnError (R.state source.old) result (R.state source.new) }
        ensures same_loan { R.loan source.new ≡ R.loan source.old }
    {
        CompressionInfo::parse_with_endian(T::ENDIAN, source)
    }

    /// Reads the compression info at the position of an owned source. See `parse_from`.
    pub fn parse<R: Source + Drop, T: FileOrder>(mut reader: R) -> Result<CompressionInfo>
        ensures { (final : State) × ParsesPart 20 (compression_of T.number_of) (R.state reader) result final }
    {
        CompressionInfo::parse_from::<R, T>(&mut reader)
    }
}

/// The clock of the record times, and its time at a time of the wall clock (section CLOCK_DATA).
#[derive(Clone, Debug, PartialEq, Eq, Drop)]
pub struct ClockData {
    /// The clock id, as for Linux's `clock_gettime`.
    pub clockid: u32,
    /// A wall clock time, in nanoseconds since 1970.
    pub wall_clock_ns: u64,
    /// The time of the clock at `wall_clock_ns`, in nanoseconds.
    pub clockid_time_ns: u64,
}

fn unsupported_version() -> Error
    ensures { error_kind result ≡ InvalidData }
{
    Error::from(ErrorKind::InvalidData)
}

impl ClockData {
    /// The size of the section in bytes, including the version.
    pub const STRUCT_SIZE: usize = 24;

    /// Reads the clock data at the position of a borrowed source.
    ///
    /// The fields are the version (1) and the clock id, of four bytes each, and the two times, of eight bytes
    /// each, in the byte order `endian`.
    ///
    /// Fails with an `InvalidData` error if the version isn't 1, before the rest is read, and with an
    /// `UnexpectedEof` error if the source returns fewer than 24 bytes.
    pub fn parse_with_endian<R: Source>(endian: Endianness, source: &mut R) -> Result<ClockData>
        ensures parses { ParsesClock (number_in endian) (R.state source.old) result (R.state source.new) }
        ensures pauses { PausesOnlyOnError (R.state source.old) result (R.state source.new) }
        ensures same_loan { R.loan source.new ≡ R.loan source.old }
    {
        let mut version = [0u8; 4];
        read_exact(source, &mut version)?;
        if read_u32(endian, &version) != 1 {
            return Err(unsupported_version());
        }
        let mut bytes = [0u8; 20];
        read_exact(source, &mut bytes)?;
        Ok(ClockData {
            clockid: read_u32(endian, &bytes),
            wall_clock_ns: read_u64(endian, &bytes[4..]),
            clockid_time_ns: read_u64(endian, &bytes[12..]),
        })
    }

    /// Reads the clock data at the position of a borrowed source. See `parse_with_endian`.
    pub fn parse_from<R: Source, T: FileOrder>(source: &mut R) -> Result<ClockData>
        ensures parses { ParsesClock T.number_of (R.state source.old) result (R.state source.new) }
        ensures pauses { PausesOnlyOnError (R.state source.old) result (R.state source.new) }
        ensures same_loan { R.loan source.new ≡ R.loan source.old }
    {
        ClockData::parse_with_endian(T::ENDIAN, source)
    }

    /// Reads the clock data at the position of an owned source. See `parse_from`.
    pub fn parse<R: Source + Drop, T: FileOrder>(mut reader: R) -> Result<ClockData>
        ensures { (final : State) × ParsesClock T.number_of (R.state reader) result final }
    {
        ClockData::parse_from::<R, T>(&mut reader)
    }
}
