//! The statuses of calls, their codes and their texts.
ghost use Rattle.std.specs.Prelude.{◌≡◌, ◌-◌, ◌++◌, ◌∷◌, [], length, take};
ghost use Rattle.linux_perf_data.specs.RecordEntries.{with_prefix};
ghost use Rattle.perfdata_arrays.specs.Status.{io_kind_status, read_error_status, error_status};
ghost use Rattle.perfdata_arrays.specs.Status.{jit_error_status, status_code, code_text, walk_status};

use crate::array::{copy_prefix, write_entry};
use linux_perf_data::jitdump::JitDumpError;
use linux_perf_data::{Error, ReadError};
use std::io::ErrorKind;

/// The status of a call: success, or the first error in its input.
#[derive(Clone, Copy, Debug, PartialEq, Eq)]
pub enum Status {
    /// No error in what was read.
    Success,

    /// An allocation failed. What was written is valid, and may be incomplete.
    OutOfMemory,

    /// The input ends inside a header, a section or an entry.
    Truncated,

    /// A metadata record of a pipe has an attribute size of 1 to 63.
    InvalidData,

    /// The header size can't be skipped, because it ends past 2^63.
    InvalidHeaderSize,

    /// A compressed record. Decompression isn't supported.
    Compressed,

    /// Any other error. Input in memory has none.
    Other,

    /// The input isn't a perf.data file or pipe.
    BadMagic,

    /// The input declares no event attributes.
    NoAttributes,

    /// The data section ends past 2^64 - 1.
    BadDataSection,

    /// An attribute or its ID section is truncated or out of range.
    BadAttribute,

    /// An attribute is larger than the entry that holds it.
    AttributeTooLarge,

    /// There are several attributes, and one doesn't have `PERF_SAMPLE_IDENTIFIER`.
    MissingIdentifier,

    /// There are several attributes, and they disagree about `sample_id_all`.
    SampleIdAllMismatch,

    /// The meta info of simpleperf lists no event types.
    NoEventTypes,

    /// The meta info of simpleperf isn't UTF-8.
    InvalidUtf8,

    /// A record header contains a size below 8.
    BadRecordSize,

    /// The body or the aux data of a record is truncated, or ends past 2^64 - 1.
    TruncatedRecord,

    /// The jitdump header is truncated, or has more than 4,096 bytes.
    JitTruncatedHeader,

    /// The jitdump header contains a size below 40.
    JitBadHeaderSize,

    /// The input isn't a jitdump.
    JitBadMagic,

    /// A jitdump record contains a size below 16, or ends past 2^64 - 1.
    JitBadRecordSize,

    /// The jitdump record at the offset has another type.
    JitWrongType,

    /// The body of the jitdump record is malformed.
    JitBadBody,

    /// A record of a symbol table section of simpleperf is malformed.
    BadSymbolTable,

    /// The call chain of the next sample has more frames than the array of frames has elements, or the next
    /// record has more counter values than their array.
    NoSpace,

    /// The input isn't an ELF file.
    NotElf,

    /// A table of the ELF file isn't within it, or the size of its entries is below that of the format.
    BadElf,

    /// A pipe has tracing data, which aren't records.
    TracingData,
}

impl Status {
    /// Returns the code of the status.
    pub fn code(self) -> u32
        ensures { result ≡ status_code self }
    {
        match self {
            Status::Success => 0,
            Status::OutOfMemory => 1,
            Status::Truncated => 2,
            Status::InvalidData => 3,
            Status::InvalidHeaderSize => 4,
            Status::Compressed => 5,
            Status::Other => 6,
            Status::BadMagic => 7,
            Status::NoAttributes => 8,
            Status::BadDataSection => 9,
            Status::BadAttribute => 10,
            Status::AttributeTooLarge => 11,
            Status::MissingIdentifier => 12,
            Status::SampleIdAllMismatch => 13,
            Status::NoEventTypes => 14,
            Status::InvalidUtf8 => 15,
            Status::BadRecordSize => 16,
            Status::TruncatedRecord => 17,
            Status::JitTruncatedHeader => 18,
            Status::JitBadHeaderSize => 19,
            Status::JitBadMagic => 20,
            Status::JitBadRecordSize => 21,
            Status::JitWrongType => 22,
            Status::JitBadBody => 23,
            Status::BadSymbolTable => 24,
            Status::NoSpace => 25,
            Status::NotElf => 26,
            Status::BadElf => 27,
            Status::TracingData => 28,
        }
    }
}

// The text of a status code.
#[tactic(auto, unfolding(crate::specs::Status::code_text))]
fn text_of_code(code: u32) -> &'static str
    ensures { result.now ≡ code_text code }
{
    match code {
        0 => "no error",
        1 => "out of memory",
        2 => "the input is truncated",
        3 => "a metadata record has an invalid attribute size",
        4 => "the header size is out of range",
        5 => "compressed records are not supported",
        6 => "the input can't be read",
        7 => "not a perf.data file or pipe",
        8 => "the input declares no event attributes",
        9 => "the data section ends past 2^64 - 1",
        10 => "an event attribute or its id section is truncated or out of range",
        11 => "an event attribute is larger than its entry",
        12 => "several event attributes, and one without PERF_SAMPLE_IDENTIFIER",
        13 => "several event attributes that disagree about sample_id_all",
        14 => "simpleperf's meta info lists no event types",
        15 => "simpleperf's meta info is not UTF-8",
        16 => "a record header contains a size below 8",
        17 => "a record is truncated, or ends past 2^64 - 1",
        18 => "the jitdump header is truncated, or larger than 4096 bytes",
        19 => "the jitdump header contains a size below 40",
        20 => "not a jitdump",
        21 => "a jitdump record contains a size below 16, or ends past 2^64 - 1",
        22 => "the jitdump record has another type",
        23 => "the body of the jitdump record is malformed",
        24 => "a record of simpleperf's symbol tables is malformed",
        25 => "the array is too small for the next record",
        26 => "not an ELF file",
        27 => "a table of the ELF file is truncated, or its entries are too small",
        28 => "tracing data in a pipe isn't supported: record to a file",
        _ => "unknown status",
    }
}

// Writes a text and a NUL over the start of a buffer. The text is truncated to the buffer's capacity.
fn write_c_text(buf: &mut [u8], text: &[u8])
    ensures { buf.new ≡ with_prefix (take (length buf.old - 1) text.now ++ 0 ∷ []) buf.old }
{
    let count = text.len().min(buf.len().saturating_sub(1));
    copy_prefix(buf, &text[..count]);
    write_entry(buf, count, 0);
}

/// Writes the text of a status code into `buf`, with a NUL after it, and returns the size of the text in
/// bytes.
///
/// The text is truncated to the capacity of `buf`. The text of a number that is the code of no status is
/// `unknown status`.
pub fn status_text(code: u32, buf: &mut [u8]) -> usize
    ensures size { result ≡ length (code_text code) }
    ensures written { buf.new ≡ with_prefix (take (length buf.old - 1) (code_text code) ++ 0 ∷ []) buf.old }
{
    let text = text_of_code(code).as_bytes();
    write_c_text(buf, text);
    text.len()
}

// The status of a kind of I/O error.
fn status_of_io_kind(kind: ErrorKind) -> Status
    ensures { result ≡ io_kind_status kind }
{
    match kind {
        ErrorKind::UnexpectedEof => Status::Truncated,
        ErrorKind::InvalidData => Status::InvalidData,
        ErrorKind::InvalidInput => Status::InvalidHeaderSize,
        ErrorKind::Unsupported => Status::Compressed,
        _ => Status::Other,
    }
}

// The status of a part that can't be read.
fn status_of_read_error(part: ReadError) -> Status
    ensures { result ≡ read_error_status part }
{
    match part {
        ReadError::FeatureSection => Status::BadDataSection,
        ReadError::PerfEventAttr => Status::BadAttribute,
        ReadError::PerfEventData => Status::TruncatedRecord,
        _ => Status::Other,
    }
}

/// Returns the status of an error.
///
/// The errors that no input in memory has share the status `Other`.
pub fn status_of_error(error: &Error) -> Status
    ensures { result ≡ error_status error.now }
{
    match error {
        Error::Memory => Status::OutOfMemory,
        Error::IoError(error) => status_of_io_kind(error.kind()),
        Error::Read(part) => status_of_read_error(*part),
        Error::UnrecognizedMagicValue(_) => Status::BadMagic,
        Error::NoAttributes => Status::NoAttributes,
        Error::InconsistentAttributeSizes(_, _) => Status::AttributeTooLarge,
        Error::NoIdentifierDespiteMultiEvent(_) => Status::MissingIdentifier,
        Error::InconsistentSampleIdAllWithMultiEvent(_) => Status::SampleIdAllMismatch,
        Error::NoEventTypesInSimpleperfMetaInfo => Status::NoEventTypes,
        Error::StringUtf8 => Status::InvalidUtf8,
        Error::InvalidPerfEventSize => Status::BadRecordSize,
        Error::FeatureSectionTooSmall => Status::Truncated,
        Error::ProtobufParsingSimpleperfFileSection(_) => Status::BadSymbolTable,
        Error::ParsingSimpleperfFileV1Section(_) => Status::BadSymbolTable,
        _ => Status::Other,
    }
}

/// Returns the status for the end of a walk over records.
pub fn status_of_end(end: &Result<(), Error>) -> Status
    ensures { result ≡ walk_status end.now }
{
    match end {
        Ok(()) => Status::Success,
        Err(error) => status_of_error(error),
    }
}

/// Returns the status of a jitdump header's error.
pub fn status_of_jit_error(error: &JitDumpError) -> Status
    ensures { result ≡ jit_error_status error.now }
{
    match error {
        JitDumpError::NotEnoughBytesForHeader => Status::JitTruncatedHeader,
        JitDumpError::InvalidHeaderSize(_) => Status::JitBadHeaderSize,
        JitDumpError::InvalidMagicBytes(_) => Status::JitBadMagic,
        JitDumpError::UnrecognizedVersion(_) => Status::Other,
        JitDumpError::Io(error) => status_of_io_kind(error.kind()),
    }
}
