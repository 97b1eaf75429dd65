//! Parses section SIMPLEPERF_FILE2: chunks that contain protobuf messages.
ghost use Rattle.std.specs.Prelude.{◌≡◌, ◌⊎◌, List, IfOk, IfErr, IsErrAnd, MatchResult, map};
ghost use Rattle.perfdata_simpleperf.specs.File2.{IsFile2Of, File2Error, File2NeedsMemory, ReportsFile2Error};
ghost use Rattle.perfdata_simpleperf.specs.File2.{ReportsMessageError};
ghost use Rattle.perfdata_simpleperf.specs.FileRecord.{FileValue, record_value};
ghost use Rattle.perfdata_simpleperf.specs.Chunks.{ChunkError};
ghost use Rattle.perfdata_simpleperf.specs.Protobuf.Messages.{FileMessageError, FileNeedsMemory};
ghost use Rattle.perfdata_simpleperf.specs.Protobuf.Values.{IsFileRecord};
ghost use Rattle.perfdata_sections.specs.declared.error.Error.TheVariants.{Memory};
ghost use Rattle.perfdata_sections.specs.declared.decode_error.DecodeError.{DecodeError};

use crate::simpleperf::SimpleperfFileRecord;
use crate::simpleperf::chunks::{ChunkFormat, parse_chunks};
use perfdata_base::raw::Endianness;
use perfdata_sections::decode_error::DecodeError;
use perfdata_sections::error::Error;
use std::alloc::Global;

// The format of chunks that contain protobuf messages.
struct ProtobufRecords;

impl ChunkFormat for ProtobufRecords {
    type FormatError = DecodeError;

    ghost decodes_to = { λ _. IsFileRecord };

    ghost is_invalid_for = { λ _. FileMessageError };

    ghost needs_memory = { FileNeedsMemory };

    ghost is_reported_by = { ReportsMessageError };

    fn parse_record(
        alloc: Global,
        _endian: Endianness,
        message: &[u8],
    ) -> Result<SimpleperfFileRecord, Error> {
        match SimpleperfFileRecord::decode(alloc, message) {
            Ok(record) => Ok(record),
            Err(DecodeError::Memory) => Err(Error::Memory),
            Err(error) => Err(Error::ProtobufParsingSimpleperfFileSection(error)),
        }
    }
}

/// Parses the files with their symbols (section FILE2 of Android's simpleperf).
///
/// `bytes` is the whole section. Each of its chunks is a length of 4 bytes in byte order `endian`, and a
/// message of that many bytes.
///
/// Returns the first error in the section, from left to right: `IoError` of kind `UnexpectedEof` if a length
/// is truncated, `FeatureSectionTooSmall` if a message exceeds the section,
/// `ProtobufParsingSimpleperfFileSection` if a message can't be decoded. Returns `Memory` if out of memory.
pub fn parse_file2_section(
    alloc: Global,
    bytes: &[u8],
    endian: Endianness,
) -> Result<Vec<SimpleperfFileRecord>, Error>
    // The records have the values of the section's messages.
    ensures on_ok { IfOk result (λ v. IsFile2Of endian bytes.now (map record_value v.items)) }
    // A valid section is parsed, unless memory runs out, and has no other values.
    ensures no_other { (vs : List FileValue) → IsFile2Of endian bytes.now vs
        → MatchResult result (λ v. map record_value v.items ≡ vs) (λ e. e ≡ Memory) }
    // Memory runs out only for a message with only valid messages before it.
    ensures memory { IfErr result (λ e. e ≡ Memory → File2NeedsMemory endian bytes.now) }
    // Unless memory runs out, an error reports an error of the section with only valid messages before it.
    ensures on_error { IfErr result (λ e. (e ≡ Memory)
        ⊎ ((f : ChunkError DecodeError) × File2Error endian bytes.now f × ReportsFile2Error f e)) }
    // Such an error of the section is reported, unless memory runs out before it.
    ensures first_error { (f : ChunkError DecodeError) → File2Error endian bytes.now f
        → IsErrAnd result (λ e. (e ≡ Memory) ⊎ ReportsFile2Error f e) }
{
    parse_chunks::<ProtobufRecords>(alloc, bytes, endian)
}
