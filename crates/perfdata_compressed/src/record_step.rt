//! What the bytes of a recording begin with, by the header of a record.
ghost use Rattle.std.specs.Prelude.{◌≡◌, drop};
ghost use Rattle.perfdata_compressed.specs.RecordSteps.{AuxtraceMatches, FeatureMatches};
ghost use Rattle.perfdata_compressed.specs.RecordSteps.{PlainSize, StepMatches};

use perfdata_base::endian::{Endianness, read_u32, read_u64};
use perfdata_base::event::PerfEventHeader;
use perfdata_base::features::HEADER_COMPRESSED;
use perfdata_sections::constants::{
    PERF_RECORD_AUXTRACE, PERF_RECORD_COMPRESSED, PERF_RECORD_COMPRESSED2,
    PERF_RECORD_HEADER_FEATURE, PERF_RECORD_HEADER_TRACING_DATA,
};

/// The size of a record header in bytes.
pub(crate) const HEADER_SIZE: usize = PerfEventHeader::STRUCT_SIZE;

// The least size in bytes of an AUXTRACE record, without its aux data.
const AUXTRACE_SIZE: u16 = 48;

// The least size in bytes of the record of a feature with an algorithm: the record header, the number of the
// feature, its version and the algorithm.
const ALGORITHM_SIZE: u16 = 24;

/// What bytes begin with.
#[derive(Clone, Copy, Debug, PartialEq, Eq)]
pub(crate) enum RecordStep {
    /// Too few bytes to know it.
    Partial,
    /// A record whose size is too small for its fields.
    Invalid,
    /// A record that isn't compressed, of this size with its aux data.
    Plain(u64),
    /// The record of the feature COMPRESSED in a pipe, with its size and its algorithm.
    Algorithm(u16, u32),
    /// The record before tracing data, of this size.
    TracingData(u16),
    /// A compressed record of this size, of type 83 if the flag is set.
    Compressed(u16, bool),
}

// An AUXTRACE record of this size, whose first field is the size of its aux data.
fn auxtrace_step(endian: Endianness, size: u16, bytes: &[u8]) -> RecordStep
    ensures { AuxtraceMatches bytes.now size result }
{
    if size < AUXTRACE_SIZE {
        return RecordStep::Invalid;
    }
    match bytes.get(HEADER_SIZE..16) {
        Some(field) => RecordStep::Plain(u64::from(size).saturating_add(read_u64(endian, field))),
        None => RecordStep::Partial,
    }
}

// The record of a feature of this size, whose first field is the number of the feature.
fn feature_step(endian: Endianness, size: u16, bytes: &[u8]) -> RecordStep
    ensures { FeatureMatches bytes.now size result }
{
    let plain = RecordStep::Plain(u64::from(size));
    if size < ALGORITHM_SIZE {
        return plain;
    }
    let (Some(feature), Some(algorithm)) = (bytes.get(HEADER_SIZE..16), bytes.get(20..24)) else {
        return RecordStep::Partial;
    };
    if read_u64(endian, feature) != u64::from(HEADER_COMPRESSED) {
        return plain;
    }
    RecordStep::Algorithm(size, read_u32(endian, algorithm))
}

/// What the bytes begin with.
pub(crate) fn record_step(endian: Endianness, bytes: &[u8]) -> RecordStep
    ensures { StepMatches endian bytes.now result }
{
    let Some(header) = PerfEventHeader::peek(endian, bytes) else {
        return RecordStep::Partial;
    };
    let size = header.size;
    if usize::from(size) < HEADER_SIZE {
        return RecordStep::Invalid;
    }
    match header.type_ {
        PERF_RECORD_COMPRESSED => RecordStep::Compressed(size, false),
        PERF_RECORD_COMPRESSED2 => RecordStep::Compressed(size, true),
        PERF_RECORD_AUXTRACE => auxtrace_step(endian, size, bytes),
        PERF_RECORD_HEADER_TRACING_DATA => RecordStep::TracingData(size),
        PERF_RECORD_HEADER_FEATURE => feature_step(endian, size, bytes),
        _ => RecordStep::Plain(u64::from(size)),
    }
}

/// The bytes after this number of them; none if there are fewer.
pub(crate) fn bytes_after(bytes: &[u8], count: usize) -> &[u8]
    ensures { result.now ≡ drop count bytes.now }
{
    bytes.get(count..).unwrap_or(&[])
}

/// The size of the records at the start of the bytes that aren't compressed. The last one may be longer than
/// the bytes.
pub(crate) fn plain_size(endian: Endianness, bytes: &[u8]) -> u64
    ensures { PlainSize endian bytes.now result }
{
    let mut size = 0u64;
    let mut rest = bytes;
    for _ in 0..bytes.len() {
        let RecordStep::Plain(record) = record_step(endian, rest) else {
            break;
        };
        size = size.saturating_add(record);
        rest = bytes_after(rest, record as usize);
    }
    size
}

/// Whether a compressed record begins in the bytes.
pub(crate) fn has_compressed(endian: Endianness, bytes: &[u8]) -> bool {
    let mut rest = bytes;
    for _ in 0..bytes.len() {
        let size = match record_step(endian, rest) {
            RecordStep::Compressed(_, _) => return true,
            RecordStep::Plain(size) => usize::try_from(size).unwrap_or(usize::MAX),
            RecordStep::Algorithm(size, _) | RecordStep::TracingData(size) => usize::from(size),
            RecordStep::Partial | RecordStep::Invalid => return false,
        };
        rest = bytes_after(rest, size);
    }
    false
}
