//! The opening of a recording: a pipe, or a file, also one that isn't finished or whose end is missing.

use crate::error::InputError;
use crate::input::{OpenInput, with_buffer};
use crate::input_bytes::{InputBytes, RawBytes, Source};
use linux_perf_data::in_memory::InMemoryReader;
use linux_perf_data::truncation::{Completeness, find_whole_parts};
use linux_perf_data::{
    Error, PerfFile, PerfFileReader, PerfFileRecord, PerfRecordIter, RecordPlace, UserRecordType,
};
use perfdata_base::header::PerfHeader;
use perfdata_base::source::PlacedSource;
use perfdata_compressed::ContentEnd;
use perfdata_order::records::Records;
use std::alloc::Global;
use std::io;
use std::io::{Cursor, SeekFrom};

// Why the records after tracing data in a pipe aren't read.
const TRACING_DATA: &str = "tracing data in a pipe isn't supported: record to a file";

/// What is known of a recording before its records are read.
#[derive(Clone, Copy)]
pub struct RecordingKind {
    /// Whether it is a pipe, otherwise it is a file.
    pub is_pipe: bool,
    /// What the file contains. A pipe is complete.
    pub completeness: Completeness,
    /// Whether the header of the file names features.
    pub has_features: bool,
    /// Where the content of the file's compressed records ends.
    pub content_end: ContentEnd,
}

impl RecordingKind {
    ghost use Rattle.std.specs.Prelude.{◌≡◌};
    ghost use Rattle.perfdata_compressed.specs.declared.content.ContentEnd.TheVariants.{Whole};

    /// The kind of a pipe.
    pub const PIPE: RecordingKind = RecordingKind {
        is_pipe: true,
        completeness: Completeness::Complete,
        has_features: false,
        content_end: ContentEnd::Whole,
    };

    // Returns the kind of a file.
    fn of_file<C: PlacedSource>(alloc: Global, source: &mut C) -> Result<RecordingKind, Error> {
        let completeness = find_whole_parts(alloc, source)?.completeness();
        source.seek_to(SeekFrom::Start(0))?;
        let header = PerfHeader::parse_from(source)?;
        Ok(RecordingKind {
            is_pipe: false,
            completeness,
            has_features: header.features.iter().next().is_some(),
            content_end: ContentEnd::Whole,
        })
    }

    /// Returns the kind of a recording whose content ends there.
    pub fn with_content_end(self, content_end: ContentEnd) -> RecordingKind
        ensures { result ≡ record self { content_end = content_end } }
    {
        let mut kind = self;
        kind.content_end = content_end;
        kind
    }

    /// Returns the error of a record in memory. A record header with the size 0, in place of content that
    /// can't be read, stands for the error of the content.
    pub fn error_in_memory(self, error: Error) -> Error
        ensures { self.content_end ≡ Whole → result ≡ error }
    {
        match (error, self.content_end) {
            (Error::InvalidPerfEventSize, ContentEnd::Error(error)) => {
                Error::IoError(error.io_error())
            }
            (error, _) => error,
        }
    }

    /// Returns the error of a recording whose end is missing, after its records were read.
    pub fn check_end(self, records: u64) -> Result<(), InputError> {
        match self.completeness {
            Completeness::Complete => Ok(()),
            Completeness::NoDataSize => Err(InputError::NotFinished {
                records,
                has_features: self.has_features,
            }),
            Completeness::Truncated => Err(InputError::Truncated(records)),
        }
    }

    /// Fails at the record of a pipe after which tracing data follow, whose size isn't in its record header.
    pub fn check_record(self, record: &PerfFileRecord<'_>) -> Result<(), Error> {
        let is_tracing_data = matches!(
            record,
            PerfFileRecord::UserRecord(user)
                if user.record_type == UserRecordType::PERF_HEADER_TRACING_DATA
        );
        if self.is_pipe && is_tracing_data {
            return Err(Error::IoError(io::Error::other(TRACING_DATA)));
        }
        Ok(())
    }
}

/// An opened recording.
#[derive(Drop)]
pub struct Recording {
    /// The metadata, and the records.
    pub reader: PerfFileReader<Source>,
    /// What is known of the records before they are read.
    pub kind: RecordingKind,
}

// Opens a pipe.
fn open_pipe(alloc: Global, source: Source) -> Result<Recording, Error> {
    let reader = PerfFileReader::parse_pipe(alloc, source)?;
    Ok(Recording {
        reader,
        kind: RecordingKind::PIPE,
    })
}

// Opens a file, as an unfinished one unless it is complete.
fn open_file(alloc: Global, mut source: Source) -> Result<Recording, Error> {
    let kind = RecordingKind::of_file(alloc, &mut source)?;
    source.seek_to(SeekFrom::Start(0))?;
    let reader = match kind.completeness {
        Completeness::Complete => PerfFileReader::parse_file(alloc, source)?,
        _ => PerfFileReader::parse_unfinished_file(alloc, source)?,
    };
    Ok(Recording { reader, kind })
}

impl Recording {
    /// Opens an input of this kind, a file or a pipe. Fails with `Metadata` if its metadata can't be read.
    pub fn open(alloc: Global, input: OpenInput) -> Result<Recording, InputError> {
        let is_pipe = input.is_pipe()?;
        let bytes = input.into_input_bytes(alloc).map_err(InputError::Io)?;
        let content_end = bytes.content_end();
        let source = with_buffer(alloc, bytes).map_err(InputError::Io)?;
        let opened = if is_pipe {
            open_pipe(alloc, source)
        } else {
            open_file(alloc, source)
        };
        let Recording { reader, kind } = opened.map_err(InputError::Metadata)?;
        let kind = kind.with_content_end(content_end);
        Ok(Recording { reader, kind })
    }

    /// Opens a file with these bytes. Fails with `Metadata` if its metadata can't be read.
    pub fn open_bytes(alloc: Global, bytes: Vec<u8>) -> Result<Recording, InputError> {
        let bytes = InputBytes::Raw(RawBytes::Memory(Cursor::new(bytes)));
        let source = with_buffer(alloc, bytes).map_err(InputError::Io)?;
        open_file(alloc, source).map_err(InputError::Metadata)
    }
}

/// The records of a recording in the order in which they apply.
#[derive(Drop)]
pub struct RecordingRecords {
    kind: RecordingKind,
    records: Records<Source>,
}

impl RecordingRecords {
    /// Returns the records in order of time or, if only samples have times, in the order of the input.
    pub fn new(
        alloc: Global,
        kind: RecordingKind,
        perf_file: &PerfFile,
        records: PerfRecordIter<Source>,
    ) -> RecordingRecords {
        RecordingRecords {
            kind,
            records: Records::new(alloc, perf_file, records),
        }
    }

    /// Returns the next record, or `None` at the end. Fails at tracing data in a pipe.
    pub fn next_record(
        &mut self,
        perf_file: &mut PerfFile,
    ) -> Result<Option<(RecordPlace, PerfFileRecord<'_>)>, Error> {
        let Some((place, record)) = self.records.next_record(perf_file)? else {
            return Ok(None);
        };
        self.kind.check_record(&record)?;
        Ok(Some((place, record)))
    }
}

/// An opened file in memory.
#[derive(Drop)]
pub struct RecordingInMemory<'a> {
    /// The metadata, and the records.
    pub reader: InMemoryReader<'a>,
    /// What is known of the records before they are read.
    pub kind: RecordingKind,
}

// Opens a complete file in memory.
fn parse_file_in_memory(alloc: Global, bytes: &[u8]) -> Result<RecordingInMemory<'_>, Error> {
    let kind = RecordingKind::of_file(alloc, &mut Cursor::new(bytes))?;
    let reader = InMemoryReader::parse_file(alloc, bytes)?;
    Ok(RecordingInMemory { reader, kind })
}

/// Returns whether a file in memory is complete. Fails with `Metadata` if its header can't be read.
pub fn is_complete_file(alloc: Global, bytes: &[u8]) -> Result<bool, InputError> {
    match RecordingKind::of_file(alloc, &mut Cursor::new(bytes)) {
        Ok(kind) => Ok(kind.completeness == Completeness::Complete),
        Err(error) => Err(InputError::Metadata(error)),
    }
}

/// Opens a complete file in memory. Fails with `Metadata` if its metadata can't be read.
pub fn open_file_in_memory(
    alloc: Global,
    bytes: &[u8],
) -> Result<RecordingInMemory<'_>, InputError> {
    parse_file_in_memory(alloc, bytes).map_err(InputError::Metadata)
}
