//! Opens a file or a pipe in memory, and returns its records without a copy.
//!
//! A record borrows the input and not the iterator, so it outlives the calls after it:
//!
//! ```
//! use linux_perf_data::in_memory::InMemoryReader;
//! use linux_perf_data::{Error, PerfFileRecord};
//! use std::alloc::Global;
//!
//! fn last_record<'a>(
//!     alloc: Global,
//!     bytes: &'a [u8],
//! ) -> Result<Option<PerfFileRecord<'a>>, Error> {
//!     let reader = InMemoryReader::parse_file(alloc, bytes)?;
//!     let mut perf_file = reader.perf_file;
//!     let mut records = reader.records;
//!     let mut last = None;
//!     for _ in 0..u64::MAX {
//!         let Some((_place, record)) = records.next_record(&mut perf_file)? else {
//!             break;
//!         };
//!         last = Some(record);
//!     }
//!     Ok(last)
//! }
//! ```
ghost use Rattle.std.specs.Prelude.{◌≡◌, ◌<◌, ◌^◌, length};
ghost use Rattle.std.proofs.Props.{props};
ghost use Rattle.linux_perf_data.specs.InMemory.{IsInPlace};

use crate::file_reader::PerfFileReader;
use crate::in_memory::iter::take_record;
use crate::perf_file::PerfFile;
use crate::records::iter::{PerfRecordIter, RecordPlace};
use perfdata_base::event::PerfEventHeader;
use perfdata_base::raw::RawData;
use perfdata_records::record::PerfFileRecord;
use perfdata_sections::error::Error;
use std::alloc::Global;
use std::io::Cursor;

pub mod entries;
pub(crate) mod file_walk;
pub(crate) mod framing;
pub(crate) mod iter;
pub mod laws;
pub mod position;
pub(crate) mod raw_record;

/// Returns the records of an input in memory one by one, in the order of the input.
///
/// A record borrows the bytes of the input and not the iterator, so records may be kept.
#[derive(Drop)]
pub struct InMemoryRecords<'a> {
    records: PerfRecordIter<Cursor<&'a [u8]>>,
    input: &'a [u8],
    first_record_offset: u64,
    ghost in_place: { IsInPlace records input.now first_record_offset } by { Prim.hlevel props },
}

impl<'a> InMemoryRecords<'a> {
    ghost use Rattle.linux_perf_data.specs.InMemoryReading.{KeepsInput, NeedsMemoryForMetadataOnly};
    ghost use Rattle.linux_perf_data.specs.InMemoryReading.{NeedsMemoryInPipeOnly, ReturnsNextInMemory};
    ghost use Rattle.linux_perf_data.specs.InMemoryReading.{first_record_offset_of, input_of};

    /// Returns the offset of the first record's header in the input, in bytes.
    ///
    /// The body of the record at offset `o` starts at `first_record_offset() + o + 8`. If the input has no
    /// records, the result is unspecified.
    pub fn first_record_offset(&self) -> u64
        ensures { result ≡ first_record_offset_of self.now }
    {
        self.first_record_offset
    }

    /// Returns the next record with its [`RecordPlace`], or `Ok(None)` at the end of the records.
    ///
    /// The records, their end and the errors are those of `PerfRecordIter::next_record` over the same bytes.
    /// The body is a part of the input, in one slice, and nothing is copied. After the end, each call returns
    /// `Ok(None)`.
    ///
    /// # Errors
    ///
    /// An error is returned once with its cause. Each later call returns [`Error::Failed`].
    ///
    /// The errors are those of `PerfRecordIter::next_record`. A record needs no memory: [`Error::Memory`] is
    /// returned for a pipe only, if memory runs out for the metadata in a record.
    #[inline(always)]
    pub fn next_record(
        &mut self,
        perf_file: &mut PerfFile,
    ) -> Result<Option<(RecordPlace, PerfFileRecord<'a>)>, Error>
        ensures returns_next { ReturnsNextInMemory self.old perf_file.old result self.new perf_file.new }
        ensures same_input { KeepsInput self.old self.new }
        ensures memory_in_pipe_only { NeedsMemoryInPipeOnly self.old result }
        ensures memory_for_metadata_only { NeedsMemoryForMetadataOnly self.old result self.new }
        ensures input_len_fits { length (input_of self.old) < 2 ^ 63 }
    {
        // For the prover: a slice is shorter than 2^63 bytes.
        let _size = self.input.len();
        match take_record(&mut self.records, perf_file)? {
            Some((identified, body)) => {
                let endian = self.records.endian;
                let parse_info = *self
                    .records
                    .attribute_lookup
                    .parse_info(identified.attr_index());
                let body = RawData::Single(body);
                Ok(Some((
                    identified.place,
                    identified.into_record(parse_info, endian, body),
                )))
            }
            None => Ok(None),
        }
    }
}

/// An opened file or pipe in memory: its metadata, and its records.
#[derive(Drop)]
pub struct InMemoryReader<'a> {
    /// The metadata of the file or pipe.
    pub perf_file: PerfFile,
    /// The records, borrowed from the input.
    pub records: InMemoryRecords<'a>,
}

impl<'a> InMemoryReader<'a> {
    ghost use Rattle.linux_perf_data.specs.InMemoryReading.{ParsesFileInMemory, ParsesPipeInMemory};

    /// Opens a perf.data file in memory, as `PerfFileReader::parse_file` does.
    ///
    /// # Errors
    ///
    /// The errors are those of `PerfFileReader::parse_file`.
    pub fn parse_file(alloc: Global, bytes: &'a [u8]) -> Result<InMemoryReader<'a>, Error>
        ensures { ParsesFileInMemory bytes.now result }
    {
        let reader = PerfFileReader::parse_file(alloc, Cursor::new(bytes))?;
        let first_record_offset = reader.record_iter.source.position();
        let records = InMemoryRecords {
            records: reader.record_iter,
            input: bytes,
            first_record_offset,
        };
        Ok(InMemoryReader {
            perf_file: reader.perf_file,
            records,
        })
    }

    /// Opens a perf.data pipe in memory, as `PerfFileReader::parse_pipe` does.
    ///
    /// # Errors
    ///
    /// The errors are those of `PerfFileReader::parse_pipe`.
    pub fn parse_pipe(alloc: Global, bytes: &'a [u8]) -> Result<InMemoryReader<'a>, Error>
        ensures { ParsesPipeInMemory bytes.now result }
    {
        let reader = PerfFileReader::parse_pipe(alloc, Cursor::new(bytes))?;
        // A pending header was read ahead.
        let position = reader.record_iter.source.position();
        let first_record_offset = position.saturating_sub(PerfEventHeader::STRUCT_SIZE as u64);
        let records = InMemoryRecords {
            records: reader.record_iter,
            input: bytes,
            first_record_offset,
        };
        Ok(InMemoryReader {
            perf_file: reader.perf_file,
            records,
        })
    }
}
