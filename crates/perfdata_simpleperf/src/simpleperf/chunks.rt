//! Splits a section into chunks, each preceded by its length.
ghost use Rattle.std.specs.Prelude.{◌≡◌, ◌⊎◌, ℕ, List, IfOk, IfErr, map};
ghost use Rattle.perfdata_simpleperf.specs.FileRecord.{FileValue, record_value};
ghost use Rattle.perfdata_simpleperf.specs.Chunks.{ChunkError, ChunkAt, IsChunkReadError, AreChunks};
ghost use Rattle.perfdata_simpleperf.specs.Chunks.{ChunkNeedsMemory, FirstChunkError, ReportsChunkError};
ghost use Rattle.perfdata_sources.specs.declared.endian.Endianness.{Endianness};
ghost use Rattle.perfdata_sections.specs.declared.error.Error.{Error};
ghost use Rattle.perfdata_sections.specs.declared.error.Error.TheVariants.{Memory};

use crate::simpleperf::SimpleperfFileRecord;
use perfdata_base::endian::read_u32;
use perfdata_base::raw::Endianness;
use perfdata_base::source::unexpected_eof;
use perfdata_sections::error::Error;
use std::alloc::Global;

/// A format of the records in chunks.
pub(crate) trait ChunkFormat {
    /// An error in the bytes of a chunk.
    type FormatError;

    /// The bytes of a chunk encode this value, in the byte order of the file.
    ghost decodes_to: { Endianness → List ℕ → FileValue → Type 0 };

    /// The bytes of a chunk have this error.
    ghost is_invalid_for: { Endianness → List ℕ → Self.FormatError → Type 0 };

    /// Memory can run out for the bytes of a chunk.
    ghost needs_memory: { List ℕ → Type 0 };

    /// The section's error reports this error in a chunk.
    ghost is_reported_by: { Self.FormatError → Error → Type 0 };

    // Parses the record in a chunk, or returns the section's error for it.
    fn parse_record(
        alloc: Global,
        endian: Endianness,
        chunk: &[u8],
    ) -> Result<SimpleperfFileRecord, Error>
        ensures on_ok { IfOk result (λ r. decodes_to endian chunk.now (record_value r)) }
        ensures on_error { IfErr result (λ e. ((e ≡ Memory) × needs_memory chunk.now)
            ⊎ ((f : Self.FormatError) × is_invalid_for endian chunk.now f × is_reported_by f e)) };
}

/// Splits the first chunk off a section, and returns its bytes after the length, and the rest of the section.
///
/// A chunk is a length of 4 bytes in byte order `endian` and that many bytes. Fails with an unexpected end of
/// file if the length is truncated, and with `FeatureSectionTooSmall` if the chunk exceeds the section.
pub(crate) fn split_chunk(endian: Endianness, bytes: &[u8]) -> Result<(&[u8], &[u8]), Error>
    ensures on_ok { IfOk result (λ x. ChunkAt endian bytes.now x.0.now x.1.now) }
    ensures on_error { IfErr result (λ e. IsChunkReadError endian bytes.now e) }
{
    if bytes.len() < 4 {
        return Err(Error::from(unexpected_eof()));
    }
    let size = read_u32(endian, bytes) as usize;
    let (_, rest) = bytes.split_at(4);
    if rest.len() < size {
        return Err(Error::FeatureSectionTooSmall);
    }
    Ok(rest.split_at(size))
}

/// Parses the records in all chunks of a section.
pub(crate) fn parse_chunks<S: ChunkFormat>(
    alloc: Global,
    bytes: &[u8],
    endian: Endianness,
) -> Result<Vec<SimpleperfFileRecord>, Error>
    ensures on_ok { IfOk result (λ v. AreChunks endian (S.decodes_to endian) bytes.now
        (map record_value v.items)) }
    ensures on_error { IfErr result (λ e. ((e ≡ Memory)
        × ChunkNeedsMemory endian (S.decodes_to endian) S.needs_memory bytes.now)
        ⊎ ((f : ChunkError S.FormatError)
        × FirstChunkError endian (S.decodes_to endian) (S.is_invalid_for endian) bytes.now f
        × ReportsChunkError S.is_reported_by f e)) }
{
    let mut records = Vec::new(alloc);
    let mut rest = bytes;
    'chunks: while !rest.is_empty() {
        let (chunk, after) = split_chunk(endian, rest)?;
        let record = S::parse_record(alloc, endian, chunk)?;
        records.push(record)?;
        rest = after;
    }
    Ok(records)
}
