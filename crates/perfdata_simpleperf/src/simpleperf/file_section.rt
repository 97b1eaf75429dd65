//! Parses section SIMPLEPERF_FILE: chunks that contain records of the older format.
ghost use Rattle.std.specs.Prelude.{◌≡◌, ◌⊎◌, List, IfOk, IfErr, IsErrAnd, MatchResult, map};
ghost use Rattle.std.specs.IoError.{error_kind};
ghost use Rattle.std.specs.declared.io.ErrorKind.{ErrorKind};
ghost use Rattle.std.specs.declared.io.ErrorKind.TheVariants.{OutOfMemory};
ghost use Rattle.perfdata_sources.specs.Endian.{number_in};
ghost use Rattle.perfdata_simpleperf.specs.FileRecord.{FileValue, record_value};
ghost use Rattle.perfdata_simpleperf.specs.FileSection.{IsFileSectionOf, FileSectionError};
ghost use Rattle.perfdata_simpleperf.specs.FileSection.{ReportsFileSectionError, ReportsV1Error};
ghost use Rattle.perfdata_simpleperf.specs.FileV1.{IsV1, V1Error};
ghost use Rattle.perfdata_simpleperf.specs.Chunks.{ChunkError};
ghost use Rattle.perfdata_sections.specs.declared.error.Error.TheVariants.{Memory};

use crate::simpleperf::SimpleperfFileRecord;
use crate::simpleperf::chunks::{ChunkFormat, parse_chunks};
use byteorder::{BigEndian, LittleEndian};
use perfdata_base::raw::Endianness;
use perfdata_sections::error::Error;
use std::alloc::Global;
use std::io::{self, ErrorKind};

// Decodes the record at the start of `bytes` in byte order `endian`.
fn decode_v1_with_endian(
    alloc: Global,
    endian: Endianness,
    bytes: &[u8],
) -> io::Result<SimpleperfFileRecord>
    ensures on_ok { IfOk result (λ r. IsV1 (number_in endian) bytes.now (record_value r)) }
    ensures on_error { IfErr result (λ e. (error_kind e ≡ OutOfMemory)
        ⊎ V1Error (number_in endian) bytes.now (error_kind e)) }
{
    match endian {
        Endianness::LittleEndian => SimpleperfFileRecord::decode_v1::<LittleEndian>(alloc, bytes),
        Endianness::BigEndian => SimpleperfFileRecord::decode_v1::<BigEndian>(alloc, bytes),
    }
}

// The format of chunks that contain records of `decode_v1`.
struct V1Records;

impl ChunkFormat for V1Records {
    type FormatError = ErrorKind;

    ghost decodes_to = { λ endian. IsV1 (number_in endian) };

    ghost is_invalid_for = { λ endian. V1Error (number_in endian) };

    ghost needs_memory = { λ _. Unit {0} };

    ghost is_reported_by = { ReportsV1Error };

    fn parse_record(
        alloc: Global,
        endian: Endianness,
        chunk: &[u8],
    ) -> Result<SimpleperfFileRecord, Error> {
        match decode_v1_with_endian(alloc, endian, chunk) {
            Ok(record) => Ok(record),
            Err(error) => match error.kind() {
                ErrorKind::OutOfMemory => Err(Error::Memory),
                _ => Err(Error::ParsingSimpleperfFileV1Section(error)),
            },
        }
    }
}

/// Parses the files with their symbols as older simpleperf writes them (section FILE).
///
/// `bytes` is the whole section. Each of its chunks is a length of 4 bytes in byte order `endian`, and that
/// many bytes with a record that `decode_v1` decodes.
///
/// Returns the first error in the section, from left to right: `IoError` of kind `UnexpectedEof` if a length
/// is truncated, `FeatureSectionTooSmall` if a chunk exceeds the section, `ParsingSimpleperfFileV1Section` if
/// a record can't be decoded. Returns `Memory` if out of memory.
pub fn parse_file_section(
    alloc: Global,
    bytes: &[u8],
    endian: Endianness,
) -> Result<Vec<SimpleperfFileRecord>, Error>
    // The records have the values of the section's records.
    ensures on_ok { IfOk result (λ v. IsFileSectionOf endian bytes.now (map record_value v.items)) }
    // A valid section is parsed, unless memory runs out, and has no other values.
    ensures no_other { (vs : List FileValue) → IsFileSectionOf endian bytes.now vs
        → MatchResult result (λ v. map record_value v.items ≡ vs) (λ e. e ≡ Memory) }
    // Unless memory runs out, an error reports an error of the section with only valid records before it.
    ensures on_error { IfErr result (λ e. (e ≡ Memory)
        ⊎ ((f : ChunkError ErrorKind) × FileSectionError endian bytes.now f × ReportsFileSectionError f e)) }
    // Such an error of the section is reported, unless memory runs out before it.
    ensures first_error { (f : ChunkError ErrorKind) → FileSectionError endian bytes.now f
        → IsErrAnd result (λ e. (e ≡ Memory) ⊎ ReportsFileSectionError f e) }
{
    parse_chunks::<V1Records>(alloc, bytes, endian)
}
