//! The errors of opening and reading a file or a pipe.
ghost use Rattle.std.specs.Prelude.{◌≡◌};
ghost use Rattle.perfdata_sections.specs.Error.{IsUnsupported};
ghost use Rattle.perfdata_sections.specs.ParsedPart.{file_error_of};
ghost use Rattle.perfdata_sections.specs.declared.error.Error.TheVariants.{Memory as OfMemory};
ghost use Rattle.perfdata_sections.specs.declared.error.Error.TheVariants.{Read as OfRead, IoError as OfIo};
ghost use Rattle.perfdata_sections.specs.declared.error.Error.TheVariants.{StringUtf8 as OfUtf8};

use crate::decode_error::DecodeError;
use perfdata_base::source::AppendError;
use std::alloc::{AllocError, AllocFailed};
use std::io;
use std::io::ErrorKind;
use std::str::Utf8Error;
use thiserror::Error;

/// The part of a file that could not be read.
#[derive(Clone, Copy, Debug, PartialEq, Eq, Error)]
pub enum ReadError {
    /// The file header. Never returned: a truncated file header is an `IoError`.
    #[error("Could not read PerfHeader")]
    PerfHeader,
    /// The data section ends past 2^64 - 1, and no section can follow it.
    #[error("Could not read FeatureSection")]
    FeatureSection,
    /// The build id section. Never returned: reading stops at a truncated entry.
    #[error("Could not read BuildIdSection")]
    BuildIdSection,
    /// The length of a string. Never returned: see `NotEnoughSpaceForStringLen`.
    #[error("Could not read StringLen")]
    StringLen,
    /// A string. Never returned: see `StringLengthTooLong`.
    #[error("Could not read String")]
    String,
    /// The number of CPUs. Never returned: a truncated section is an `IoError`.
    #[error("Could not read NrCpus")]
    NrCpus,
    /// The attribute section. Never returned: see `PerfEventAttr`.
    #[error("Could not read AttrsSection")]
    AttrsSection,
    /// An attribute is truncated, invalid or unreadable, or it or its ids can't be at the offset that the
    /// file states.
    #[error("Could not read PerfEventAttr")]
    PerfEventAttr,
    /// A record header. Never returned: a truncated record header is an `IoError`.
    #[error("Could not read PerfEventHeader")]
    PerfEventHeader,
    /// A record's body or aux data is truncated or ends past 2^64 - 1, or the source failed while it was
    /// read.
    #[error("Could not read PerfEvent data")]
    PerfEventData,
}

/// The error of opening or reading a file or a pipe.
#[derive(Debug, Drop, Error)]
pub enum Error {
    /// A part of the file is truncated, or can't be at the offset that the file states.
    #[error("Read error: {0}")]
    Read(ReadError),
    /// The source failed, or the input is truncated and no `ReadError` applies.
    #[error("I/O error: {0}")]
    IoError(io::Error),
    /// The first eight bytes, which are those of no perf.data file.
    #[error("Did not recognize magic value {0:?}")]
    UnrecognizedMagicValue([u8; 8]),
    /// Never returned: sizes are 64-bit numbers.
    #[error("Section size did not fit into usize")]
    SectionSizeTooBig,
    /// The input has no attribute, or the attribute section is too small for one.
    #[error("The file declares no perf event attributes, so samples cannot be parsed")]
    NoAttributes,
    /// The own size of an attribute and the attribute size of its section, in bytes. The first is above the
    /// second.
    #[error("Inconsistent attribute sizes: The self-reported size in the attribute was {0} bytes, which is larger than the the attribute size specified in the file header ({1} bytes)")]
    InconsistentAttributeSizes(u64, u64),
    /// The index of the first attribute without IDENTIFIER in a file with several attributes.
    #[error("The file contains multiple events but attr {0} does not specify IDENTIFIER")]
    NoIdentifierDespiteMultiEvent(usize),
    /// The index of the first attribute whose SAMPLE_ID_ALL differs from that of the first attribute.
    #[error("The file contains multiple events but attr {0} does not agree with attr zero about SAMPLE_ID_ALL")]
    InconsistentSampleIdAllWithMultiEvent(usize),
    /// A string section has fewer than four bytes.
    #[error("The section wasn't big enough to contain the u32 string length")]
    NotEnoughSpaceForStringLen,
    /// A string list section has fewer than four bytes.
    #[error("The section wasn't big enough to contain the u32 string list length")]
    NotEnoughSpaceForStringListLen,
    /// A section of fixed size has too few bytes.
    #[error("The feature section wasn't big enough")]
    FeatureSectionTooSmall,
    /// Simpleperf's meta info has no event types, or an event type isn't of the form name, type, config.
    #[error("No event types found in the simpleperf meta info section")]
    NoEventTypesInSimpleperfMetaInfo,
    /// A message of the section SIMPLEPERF_FILE2 can't be decoded, with this cause.
    #[error("Protobuf parsing error in Simpleperf file feature: {0}")]
    ProtobufParsingSimpleperfFileSection(DecodeError),
    /// A record of the section SIMPLEPERF_FILE is truncated or invalid, with this cause.
    #[error("Parsing error in Simpleperf file v1 feature: {0}")]
    ParsingSimpleperfFileV1Section(io::Error),
    /// The length of a string is above the size of its section.
    #[error("The indicated string length wouldn't fit in the indicated section size")]
    StringLengthTooLong,
    /// Never returned: a four-byte count fits into `usize`.
    #[error("The indicated string list length wouldn't fit into usize")]
    StringListLengthBiggerThanUsize,
    /// Never returned: a four-byte length fits into `usize`.
    #[error("The indicated string length wouldn't fit into usize")]
    StringLengthBiggerThanUsize,
    /// A string isn't valid UTF-8.
    #[error("The string was not valid utf-8")]
    StringUtf8,
    /// The size in a record header is below 8, the size of the record header itself.
    #[error("The specified size in the perf event header was smaller than the header itself")]
    InvalidPerfEventSize,
    /// An earlier call failed, and nothing more is read.
    #[error("The iterator has failed")]
    Failed,
    /// Memory ran out.
    #[error("Out of memory")]
    Memory,
}

impl From<ReadError> for Error {
    ghost from_gives = { λ part error. error ≡ OfRead part };

    fn from(part: ReadError) -> Error {
        Error::Read(part)
    }
}

impl From<io::Error> for Error {
    ghost from_gives = { λ io_error error. error ≡ OfIo io_error };

    fn from(io_error: io::Error) -> Error {
        Error::IoError(io_error)
    }
}

impl From<Utf8Error> for Error {
    ghost from_gives = { λ _ error. error ≡ OfUtf8 };

    fn from(_error: Utf8Error) -> Error {
        Error::StringUtf8
    }
}

impl From<AllocError> for Error {
    ghost from_gives = { λ _ error. error ≡ OfMemory };

    fn from(_error: AllocError) -> Error {
        Error::Memory
    }
}

// The error that collections return when memory runs out. The conversion allows `vec.push(x)?`.
impl<T: Drop> From<AllocFailed<T>> for Error {
    ghost from_gives = { λ _ error. error ≡ OfMemory };

    fn from(_failed: AllocFailed<T>) -> Error {
        Error::from(AllocError)
    }
}

// Out of memory becomes `Memory`; the source's error becomes an `IoError`.
impl From<AppendError> for Error {
    ghost from_gives = { λ append_error error. error ≡ file_error_of append_error };

    fn from(append_error: AppendError) -> Error {
        match append_error {
            AppendError::Memory => Error::Memory,
            AppendError::Source(error) => Error::IoError(error),
        }
    }
}

/// Returns the error of a record that can't be handled, such as one with compressed bytes.
pub fn unsupported() -> Error
    ensures { IsUnsupported result }
{
    Error::from(io::Error::from(ErrorKind::Unsupported))
}
