//! Opens a file or a pipe, and returns its metadata and an iterator over its records.
ghost use Rattle.std.specs.Prelude.{◌≡◌, ◌+◌, ◌≤◌, IfOk, IfErr};
ghost use Rattle.linux_perf_data.specs.Attribute.{AreConsistent};
ghost use Rattle.linux_perf_data.specs.NamedErrors.{IsFileOpeningError, IsPipeOpeningError};
ghost use Rattle.linux_perf_data.specs.PerfFile.{attributes_of_file};

use crate::attributes::lookup::AttributeLookup;
use crate::file::opening::{FileOpening, open_file};
use crate::file::unfinished::open_unfinished_file;
use crate::perf_file::PerfFile;
use crate::pipe::opening::{PipeOpening, open_pipe};
use crate::records::input::RecordInput;
use crate::records::iter::Stage;
pub use crate::records::iter::{PerfItem, PerfRecordIter, RecordPlace};
use perfdata_base::source::{PlacedSource, Source};
use perfdata_sections::error::Error;
use std::alloc::Global;

/// An opened file or pipe: its metadata, and an iterator over its records.
///
/// ```
/// use linux_perf_data::event::RecordType;
/// use linux_perf_data::source::Source;
/// use linux_perf_data::{Error, PerfFileReader, PerfFileRecord};
///
/// fn count_samples<R: Source + Drop>(reader: PerfFileReader<R>) -> Result<u64, Error> {
///     let mut perf_file = reader.perf_file;
///     let mut records = reader.record_iter;
///     let mut count = 0u64;
///     for _ in 0..u64::MAX {
///         let Some((_place, record)) = records.next_record(&mut perf_file)? else {
///             break;
///         };
///         if let PerfFileRecord::EventRecord { event, .. } = record {
///             if event.record_type == RecordType::SAMPLE {
///                 count = count.saturating_add(1);
///             }
///         }
///     }
///     Ok(count)
/// }
/// ```
#[derive(Drop)]
pub struct PerfFileReader<R> {
    /// The metadata of the file or pipe.
    pub perf_file: PerfFile,
    /// The iterator over the records.
    pub record_iter: PerfRecordIter<R>,
}

impl<C: PlacedSource + Drop> PerfFileReader<C> {
    ghost use Rattle.linux_perf_data.specs.OpenedFile.{ParsesFile, BuildsReader};
    ghost use Rattle.linux_perf_data.specs.UnfinishedFile.{ParsesUnfinishedFile};

    // Builds the reader of an opened file. `source` is positioned at the first record.
    fn from_opening(
        alloc: Global,
        source: C,
        opening: FileOpening,
    ) -> Result<PerfFileReader<C>, Error>
        requires { AreConsistent (attributes_of_file opening.perf_file) }
        ensures { BuildsReader C.state source opening result }
    {
        let perf_file = opening.perf_file;
        let endian = perf_file.endian;
        let lookup = AttributeLookup::new(alloc, &perf_file.attributes, endian)?;
        let input = RecordInput::Section(opening.data_size);
        let stage = Stage::Running;
        let record_iter = PerfRecordIter::new(alloc, source, input, endian, lookup, stage);
        Ok(PerfFileReader {
            perf_file,
            record_iter,
        })
    }

    /// Opens a perf.data file: reads the header at the position of `source`, the feature sections and the
    /// attributes, and seeks to the first record.
    ///
    /// Offsets in the file are in bytes from the first byte of the source. The bytes that the header's size
    /// counts beyond 104 are skipped before the magic is checked. A table directly after the data section has
    /// an entry of 16 bytes for each feature, in ascending order. An entry contains the offset and the size
    /// of the feature's section.
    ///
    /// The attributes are those of the first of these sections that the file has:
    ///
    /// - the section EVENT_DESC,
    /// - the event types section, if it isn't empty,
    /// - the attribute section. In a file with simpleperf's meta info, the event types of the meta info name
    ///   the attributes.
    ///
    /// # Errors
    ///
    /// The error is the first one in the file, or an I/O error of the source:
    ///
    /// - [`Error::IoError`] if the header, the table or a section can't be read, or if a seek fails. It is of
    ///   kind `InvalidInput` if the header's size counts 2^63 or more bytes beyond 104.
    /// - [`Error::UnrecognizedMagicValue`] if the magic is unknown.
    /// - [`ReadError::FeatureSection`] if the data section ends past 2^64 - 1.
    /// - The errors of `parse_event_desc_section`, `parse_event_types_section`,
    ///   `parse_simpleperf_attr_section` and `parse_attr_section` for the attributes, and of
    ///   `parse_meta_info_map` for the meta info.
    /// - [`Error::NoEventTypesInSimpleperfMetaInfo`] if the meta info contains no event types.
    /// - [`Error::NoAttributes`] if the file has no attributes.
    /// - If the records of several attributes don't all have their identifiers at the same offsets:
    ///   [`Error::NoIdentifierDespiteMultiEvent`] with the index of the first attribute without IDENTIFIER,
    ///   or [`Error::InconsistentSampleIdAllWithMultiEvent`] with the index of the first attribute whose
    ///   SAMPLE_ID_ALL differs from that of attribute 0, whichever attribute is first.
    /// - [`Error::Memory`] if memory runs out.
    pub fn parse_file(alloc: Global, source: C) -> Result<PerfFileReader<C>, Error>
        ensures named_error { IfErr result IsFileOpeningError }
        ensures parses { ParsesFile C.state (C.state source) result }
        ensures pauses { IfOk result (λ r. (C.state r.record_iter.source).pauses ≡ (C.state source).pauses) }
        ensures same_loan { IfOk result (λ r. C.loan r.record_iter.source ≡ C.loan source) }
    {
        let mut source = source;
        let opening = open_file(alloc, &mut source)?;
        PerfFileReader::from_opening(alloc, source, opening)
    }

    /// Opens a perf.data file whose recording wasn't finished, or whose end is missing, and seeks to the
    /// first record.
    ///
    /// The header and the attributes are read as by `parse_file`, and the attributes of the attribute section
    /// with their ids, if its entries have at least 80 bytes. If the header has a data size and the file
    /// contains the whole data section, the records are those of this section. Otherwise they are the whole
    /// records from the offset of the data section to the end of the file, each once, in order; a record
    /// that the file doesn't contain as a whole, with its aux data, isn't returned. If the size of a record
    /// is below 8, or that of an auxtrace record below 48, the iterator returns the error of this record
    /// after the records before it.
    ///
    /// A file that doesn't contain the whole data section has no features. Otherwise its features are those
    /// whose table entry and section the file contains as a whole.
    ///
    /// The end of the file is where the source shows it at the opening.
    ///
    /// # Errors
    ///
    /// The error is the first one in the file, or an I/O error of the source:
    ///
    /// - [`Error::IoError`] if the header can't be read, or if a read or a seek fails. It is of kind
    ///   `InvalidInput` if the header's size counts 2^63 or more bytes beyond 104.
    /// - [`Error::UnrecognizedMagicValue`] if the magic is unknown.
    /// - The errors of `parse_file` for the attributes and for the meta info.
    /// - [`Error::Memory`] if memory runs out.
    pub fn parse_unfinished_file(alloc: Global, source: C) -> Result<PerfFileReader<C>, Error>
        ensures named_error { IfErr result IsFileOpeningError }
        ensures parses { ParsesUnfinishedFile C.state (C.state source) result }
        ensures pauses { IfOk result (λ r. (C.state r.record_iter.source).pauses ≡ (C.state source).pauses) }
        ensures same_loan { IfOk result (λ r. C.loan r.record_iter.source ≡ C.loan source) }
    {
        let mut source = source;
        let opening = open_unfinished_file(alloc, &mut source)?;
        PerfFileReader::from_opening(alloc, source, opening)
    }
}

impl<R: Source + Drop> PerfFileReader<R> {
    ghost use Rattle.linux_perf_data.specs.OpenedPipe.{ParsesPipe};
    ghost use Rattle.linux_perf_data.specs.steps.OpenedPipe.{BuildsPipeReader};

    // Builds the reader of an opened pipe. `source` is positioned after the bytes that the opening consumed.
    fn from_pipe_opening(
        alloc: Global,
        source: R,
        opening: PipeOpening,
    ) -> Result<PerfFileReader<R>, Error>
        requires { AreConsistent (attributes_of_file opening.perf_file) }
        ensures { BuildsPipeReader R.state source opening result }
    {
        let perf_file = opening.perf_file;
        let endian = perf_file.endian;
        let lookup = AttributeLookup::new(alloc, &perf_file.attributes, endian)?;
        let stage = match opening.pending_header {
            Some(_) => Stage::Running,
            None => Stage::Ended,
        };
        let input = RecordInput::Pipe(opening.pending_header);
        let record_iter = PerfRecordIter::new(alloc, source, input, endian, lookup, stage);
        Ok(PerfFileReader {
            perf_file,
            record_iter,
        })
    }

    /// Opens a perf.data pipe, as `perf record -o -` writes it: reads its header and the metadata records
    /// after it.
    ///
    /// Metadata records have the types HEADER_ATTR and HEADER_FEATURE. The opening ends with the record
    /// header of the first record of another type. The iterator keeps this pending header, and the offsets of
    /// records count from it.
    ///
    /// The bytes that the pipe header's size counts beyond 16 are skipped. If the pipe ends within them, or
    /// has fewer than eight bytes for the next record header, the opening ends, and so do the records. If a
    /// feature occurs more than once, its last data count. An attribute with an id has the name of the first
    /// event of EVENT_DESC whose first id is the first id of the attribute.
    ///
    /// # Errors
    ///
    /// The error is the first one in the pipe, or an I/O error of the source:
    ///
    /// - [`Error::IoError`] of kind `UnexpectedEof` if the pipe header or a metadata record is truncated, or
    ///   if its body is too small for `HeaderAttr` or `HeaderFeature`, and of kind `InvalidData` if the size
    ///   field of an attribute is below 64. An I/O error of the source is also an [`Error::IoError`].
    /// - [`Error::UnrecognizedMagicValue`] if the magic is unknown.
    /// - [`Error::InvalidPerfEventSize`] if the size in a record header is below 8, the size of the record
    ///   header.
    /// - [`ReadError::PerfEventData`] if a metadata record ends past 2^64 - 1.
    /// - After the metadata records: [`Error::NoAttributes`] if there are no attributes, the errors of
    ///   `parse_event_desc_section`, and the errors of inconsistent attributes that `parse_file` describes.
    /// - [`Error::Memory`] if memory runs out.
    pub fn parse_pipe(alloc: Global, source: R) -> Result<PerfFileReader<R>, Error>
        ensures named_error { IfErr result IsPipeOpeningError }
        ensures parses { ParsesPipe R.state (R.state source) result }
        ensures pauses { IfOk result (λ r. (R.state r.record_iter.source).pauses ≤ (R.state source).pauses
            + 1) }
        ensures same_loan { IfOk result (λ r. R.loan r.record_iter.source ≡ R.loan source) }
    {
        let mut source = source;
        let opening = open_pipe(alloc, &mut source)?;
        PerfFileReader::from_pipe_opening(alloc, source, opening)
    }
}
