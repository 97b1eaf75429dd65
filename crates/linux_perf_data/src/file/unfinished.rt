//! The opening of a file whose recording wasn't finished, or whose end is missing.
ghost use Rattle.std.specs.Prelude.{◌≡◌, ◌-◌, [], is_some, nat_le};
ghost use Rattle.perfdata_sources.specs.Source.{PausesOnlyOnError};
ghost use Rattle.perfdata_identifiers.specs.Features.{features_of};
ghost use Rattle.linux_perf_data.specs.FeatureData.{feature_data_of};
ghost use Rattle.linux_perf_data.specs.FeatureNumbers.{simpleperf_meta_info};
ghost use Rattle.linux_perf_data.specs.UnfinishedFile.{has_whole_data, header_with_ids};
ghost use Rattle.linux_perf_data.specs.WholeParts.{FindsWholeParts};
ghost use Rattle.linux_perf_data.specs.steps.FeatureData.{feature_entries_of};
ghost use Rattle.linux_perf_data.specs.steps.UnfinishedFile.{HasLength, ReadsLength, ReadsWord, ReadsStep};
ghost use Rattle.linux_perf_data.specs.steps.UnfinishedFile.{ReadsRecordsSize, ReadsDataSize};
ghost use Rattle.linux_perf_data.specs.steps.UnfinishedFile.{PushesWholeEntry, ReadsWholeEntries};
ghost use Rattle.linux_perf_data.specs.steps.UnfinishedFile.{ReadsWholeTable, ReadsWholeSections};
ghost use Rattle.linux_perf_data.specs.steps.UnfinishedFile.{ContainsFeatures};
ghost use Rattle.linux_perf_data.specs.steps.UnfinishedFile.{OpensUnfinishedFile, OpensUnfinishedAfterHeader};

use crate::attributes::first_id_index::FirstIdIndex;
use crate::file::feature_data::{read_feature_data, read_section_entry, seek_to_offset};
use crate::file::opening::{FileOpening, endian_of_magic, read_consistent_attributes};
use crate::perf_file::PerfFile;
use crate::perf_file::parse::feature_bytes;
use indexmap::IndexMap;
use perfdata_base::endian::read_u64;
use perfdata_base::event::PerfEventHeader;
use perfdata_base::features::{Feature, FeatureSet};
use perfdata_base::header::PerfHeader;
use perfdata_base::raw::Endianness;
use perfdata_base::section::PerfFileSection;
use perfdata_base::source::{PlacedSource, read_exact};
use perfdata_sections::constants::PERF_RECORD_AUXTRACE;
use perfdata_sections::error::Error;
use std::alloc::Global;
use std::io::SeekFrom;

// The size of a record header in bytes.
const HEADER_SIZE: u64 = PerfEventHeader::STRUCT_SIZE as u64;

// The least size in bytes of an auxtrace record, without its aux data.
const AUXTRACE_SIZE: u64 = 48;

// The least size of an attribute in bytes.
const ATTRIBUTE_SIZE: u64 = 64;

// What follows a record of a file.
#[derive(Clone, Copy)]
pub(crate) enum RecordStep {
    // Less than a whole record.
    Partial,
    // A record whose size is too small for its fields.
    Invalid,
    // A whole record of this size, including its aux data.
    Whole(u64),
}

// The length that a source shows.
fn visible_length<C: PlacedSource>(source: &mut C) -> Result<u64, Error>
    ensures reads { ReadsLength (C.state source.old) result (C.state source.new) }
    ensures pauses { PausesOnlyOnError (C.state source.old) result (C.state source.new) }
    ensures same_loan { C.loan source.new ≡ C.loan source.old }
{
    let length = source.seek_to(SeekFrom::End(0))?;
    Ok(length)
}

// Reads the eight bytes at an offset.
fn read_word<C: PlacedSource>(source: &mut C, offset: u64) -> Result<[u8; 8], Error>
    ensures reads { ReadsWord offset (C.state source.old) result (C.state source.new) }
    ensures pauses { PausesOnlyOnError (C.state source.old) result (C.state source.new) }
    ensures same_loan { C.loan source.new ≡ C.loan source.old }
{
    seek_to_offset(source, offset)?;
    let mut bytes = [0u8; 8];
    read_exact(source, &mut bytes)?;
    Ok(bytes)
}

// What is at an offset of a file of this length.
fn record_step<C: PlacedSource>(
    source: &mut C,
    endian: Endianness,
    offset: u64,
    length: u64,
) -> Result<RecordStep, Error>
    requires { HasLength length (C.state source.now) }
    ensures reads { ReadsStep endian offset length (C.state source.old) result (C.state source.new) }
    ensures pauses { PausesOnlyOnError (C.state source.old) result (C.state source.new) }
    ensures same_loan { C.loan source.new ≡ C.loan source.old }
{
    let left = length.saturating_sub(offset);
    if left < HEADER_SIZE {
        return Ok(RecordStep::Partial);
    }
    let header = PerfEventHeader::from_bytes(endian, &read_word(source, offset)?);
    let size = header.size as u64;
    if size < HEADER_SIZE {
        return Ok(RecordStep::Invalid);
    }
    if left < size {
        return Ok(RecordStep::Partial);
    }
    if header.type_ != PERF_RECORD_AUXTRACE {
        return Ok(RecordStep::Whole(size));
    }
    if size < AUXTRACE_SIZE {
        return Ok(RecordStep::Invalid);
    }
    let aux_size = read_u64(endian, &read_word(source, offset + HEADER_SIZE)?);
    if left - size < aux_size {
        return Ok(RecordStep::Partial);
    }
    Ok(RecordStep::Whole(size + aux_size))
}

// The size in bytes of the whole records from an offset on. It includes all bytes of the file if a record is
// invalid.
fn records_size<C: PlacedSource>(
    source: &mut C,
    endian: Endianness,
    start: u64,
    length: u64,
) -> Result<u64, Error>
    requires { HasLength length (C.state source.now) }
    ensures reads { ReadsRecordsSize endian start length (C.state source.old) result
        (C.state source.new) }
    ensures pauses { PausesOnlyOnError (C.state source.old) result (C.state source.new) }
    ensures same_loan { C.loan source.new ≡ C.loan source.old }
{
    let mut offset = start;
    'records: while offset < length {
        let step = record_step(source, endian, offset, length)?;
        match step {
            RecordStep::Partial => return Ok(offset - start),
            RecordStep::Invalid => return Ok(length - start),
            RecordStep::Whole(size) => offset += size,
        }
    }
    Ok(offset - start)
}

// Whether the header has a data size, and a file of this length contains the whole data section.
fn has_whole_data(header: &PerfHeader, length: u64) -> bool
    ensures { result ≡ has_whole_data header.now length }
{
    let data = header.data_section;
    match data.offset.checked_add(data.size) {
        Some(end) => 0 < data.size && end <= length,
        None => false,
    }
}

// The size in bytes of the records of a file of this length.
fn data_size<C: PlacedSource>(
    source: &mut C,
    endian: Endianness,
    header: &PerfHeader,
    length: u64,
) -> Result<u64, Error>
    requires { HasLength length (C.state source.now) }
    ensures reads { ReadsDataSize endian header.now length (C.state source.old) result
        (C.state source.new) }
    ensures pauses { PausesOnlyOnError (C.state source.old) result (C.state source.new) }
    ensures same_loan { C.loan source.new ≡ C.loan source.old }
{
    if has_whole_data(header, length) {
        return Ok(header.data_section.size);
    }
    records_size(source, endian, header.data_section.offset, length)
}

// Whether a file of this length contains the whole section.
fn contains_section(section: &PerfFileSection, length: u64) -> bool
    ensures { result ≡ nat_le section.now.size (length - section.now.offset) }
{
    section.size <= length.saturating_sub(section.offset)
}

// Pushes an entry if a file of this length contains its section.
fn push_whole_entry(
    table: &mut Vec<(Feature, PerfFileSection)>,
    feature: Feature,
    section: PerfFileSection,
    length: u64,
) -> Result<(), Error>
    ensures { PushesWholeEntry length feature section table.old.items result table.new.items }
{
    if !contains_section(&section, length) {
        return Ok(());
    }
    table.push((feature, section))?;
    Ok(())
}

// Reads the first `count` entries of the table at the position of the source. Returns those whose section is
// in a file of this length.
fn read_whole_entries<C: PlacedSource>(
    alloc: Global,
    source: &mut C,
    endian: Endianness,
    features: &FeatureSet,
    count: u64,
    length: u64,
) -> Result<Vec<(Feature, PerfFileSection)>, Error>
    ensures reads { ReadsWholeEntries endian (features_of features.now) count length
        (C.state source.old) result (C.state source.new) }
    ensures pauses { PausesOnlyOnError (C.state source.old) result (C.state source.new) }
    ensures same_loan { C.loan source.new ≡ C.loan source.old }
{
    let mut table = Vec::new(alloc);
    let mut left = count;
    'entries: for feature in features.iter() {
        if left == 0 {
            return Ok(table);
        }
        left -= 1;
        let entry = read_section_entry(source, endian)?;
        push_whole_entry(&mut table, feature, entry, length)?;
    }
    Ok(table)
}

// The empty set of features.
fn no_features() -> FeatureSet
    ensures { ContainsFeatures [] result }
{
    FeatureSet([0; 4])
}

// The features of these entries.
fn present_features(table: &[(Feature, PerfFileSection)]) -> FeatureSet
    ensures { ContainsFeatures (feature_entries_of table.now) result }
{
    let mut features = no_features();
    'entries: for entry in table {
        let (feature, _section) = *entry;
        features.insert(feature);
    }
    features
}

// Reads the table entries of the features whose section is in a file of this length. There are none without
// the whole data section.
fn read_whole_table<C: PlacedSource>(
    alloc: Global,
    source: &mut C,
    endian: Endianness,
    header: &PerfHeader,
    length: u64,
) -> Result<Vec<(Feature, PerfFileSection)>, Error>
    requires { HasLength length (C.state source.now) }
    ensures reads { ReadsWholeTable endian header.now length (C.state source.old) result
        (C.state source.new) }
    ensures pauses { PausesOnlyOnError (C.state source.old) result (C.state source.new) }
    ensures same_loan { C.loan source.new ≡ C.loan source.old }
{
    if !has_whole_data(header, length) {
        return Ok(Vec::new(alloc));
    }
    let data = header.data_section;
    let offset = data.offset + data.size;
    let count = (length - offset) / PerfFileSection::STRUCT_SIZE;
    seek_to_offset(source, offset)?;
    read_whole_entries(alloc, source, endian, &header.features, count, length)
}

// Reads the feature sections that a file of this length contains, and returns their features with them.
fn read_whole_sections<C: PlacedSource>(
    alloc: Global,
    source: &mut C,
    endian: Endianness,
    header: &PerfHeader,
    length: u64,
) -> Result<(FeatureSet, IndexMap<Feature, Vec<u8>>), Error>
    requires { HasLength length (C.state source.now) }
    ensures reads { ReadsWholeSections endian header.now length (C.state source.old) result
        (C.state source.new) }
    ensures pauses { PausesOnlyOnError (C.state source.old) result (C.state source.new) }
    ensures same_loan { C.loan source.new ≡ C.loan source.old }
{
    let table = read_whole_table(alloc, source, endian, header, length)?;
    let entries = table.as_slice();
    let sections = read_feature_data(alloc, source, entries)?;
    Ok((present_features(entries), sections))
}

// Whether these sections contain simpleperf's meta info.
fn has_meta_info(sections: &IndexMap<Feature, Vec<u8>>) -> bool
    ensures { result ≡ is_some (feature_data_of sections.now simpleperf_meta_info) }
{
    feature_bytes(sections, Feature::SIMPLEPERF_META_INFO).is_some()
}

// The header by which the attributes of an unfinished file are read. Without names, the entries of the
// attribute section are read as those of an event types section, with their ids, if they have them.
fn header_with_ids(header: &PerfHeader, has_meta_info: bool) -> PerfHeader
    ensures { result ≡ header_with_ids header.now has_meta_info }
{
    let has_ids = header.attr_size >= ATTRIBUTE_SIZE + PerfFileSection::STRUCT_SIZE;
    if header.event_types_section.size != 0 || has_meta_info || !has_ids {
        return *header;
    }
    PerfHeader {
        magic: header.magic,
        header_size: header.header_size,
        attr_size: header.attr_size - PerfFileSection::STRUCT_SIZE,
        attr_section: header.attr_section,
        data_section: header.data_section,
        event_types_section: header.attr_section,
        features: header.features,
    }
}

// Opens the file with this header, of which these bytes are visible. Leaves the source at the first record.
fn open_unfinished_after_header<C: PlacedSource>(
    alloc: Global,
    source: &mut C,
    endian: Endianness,
    header: &PerfHeader,
    length: u64,
) -> Result<FileOpening, Error>
    requires { HasLength length (C.state source.now) }
    ensures reads { OpensUnfinishedAfterHeader endian header.now length (C.state source.old) result
        (C.state source.new) }
    ensures pauses { PausesOnlyOnError (C.state source.old) result (C.state source.new) }
    ensures same_loan { C.loan source.new ≡ C.loan source.old }
{
    let data_size = data_size(source, endian, header, length)?;
    let whole = read_whole_sections(alloc, source, endian, header, length)?;
    let (features, sections) = whole;
    let named = header_with_ids(header, has_meta_info(&sections));
    let attributes = read_consistent_attributes(alloc, source, endian, &named, &sections)?;
    seek_to_offset(source, header.data_section.offset)?;
    let perf_file = PerfFile {
        endian,
        features,
        sections,
        attributes,
        name_table: None,
        first_id_index: FirstIdIndex::new(alloc),
    };
    Ok(FileOpening {
        perf_file,
        data_size,
    })
}

// Opens a file whose recording wasn't finished, or whose end is missing. Leaves the source at the first
// record.
pub(crate) fn open_unfinished_file<C: PlacedSource>(
    alloc: Global,
    source: &mut C,
) -> Result<FileOpening, Error>
    ensures reads { OpensUnfinishedFile (C.state source.old) result (C.state source.new) }
    ensures pauses { PausesOnlyOnError (C.state source.old) result (C.state source.new) }
    ensures same_loan { C.loan source.new ≡ C.loan source.old }
{
    let header = PerfHeader::parse_from::<C>(source)?;
    let endian = endian_of_magic(header.magic)?;
    let length = visible_length(source)?;
    open_unfinished_after_header(alloc, source, endian, &header, length)
}

/// What a perf.data file contains of a recording.
#[derive(Clone, Copy, Debug, PartialEq, Eq)]
pub enum Completeness {
    /// The whole data section, and the whole section of each feature.
    Complete,
    /// A header without the size of the data section, which perf writes at the end of a recording.
    NoDataSize,
    /// A part of the data section, of the table of feature sections or of these sections.
    Truncated,
}

/// The parts that a perf.data file contains as a whole.
#[derive(Drop)]
pub struct WholeParts {
    /// The header.
    pub header: PerfHeader,
    /// The byte order.
    pub endian: Endianness,
    /// The length of the file in bytes.
    pub length: u64,
    /// The size in bytes of the records, which are at the offset of the data section.
    pub data_size: u64,
    /// The features, ascending, and where their sections are.
    pub sections: Vec<(Feature, PerfFileSection)>,
}

impl WholeParts {
    ghost use Rattle.linux_perf_data.specs.WholeParts.{IsCompletenessOf};

    /// Returns what the file contains of a recording.
    pub fn completeness(&self) -> Completeness
        ensures { IsCompletenessOf self.now result }
    {
        if self.header.data_section.size == 0 {
            return Completeness::NoDataSize;
        }
        let is_whole = has_whole_data(&self.header, self.length);
        if is_whole && self.sections.len() == self.header.features.len() {
            return Completeness::Complete;
        }
        Completeness::Truncated
    }
}

/// Returns the parts that the file at the position of a source contains as a whole. The position of the
/// source is unspecified then.
///
/// Offsets in the file are in bytes from the first byte of the source. The end of the file is where the
/// source shows it. `data_size` is the size of the data section if the header has it and the file contains
/// the whole section. Otherwise it is the size of the whole records up to the end of the file or, if the
/// size of a record after them is invalid, of all bytes up to there. Without the whole data section there
/// are no sections.
///
/// # Errors
///
/// - [`Error::IoError`] if the header can't be read, or if a read or a seek fails.
/// - [`Error::UnrecognizedMagicValue`] if the magic is unknown.
/// - [`Error::Memory`] if memory runs out for the table of feature sections.
pub fn find_whole_parts<C: PlacedSource>(alloc: Global, source: &mut C) -> Result<WholeParts, Error>
    ensures finds { FindsWholeParts (C.state source.old) result (C.state source.new) }
    ensures pauses { PausesOnlyOnError (C.state source.old) result (C.state source.new) }
    ensures same_loan { C.loan source.new ≡ C.loan source.old }
{
    let header = PerfHeader::parse_from::<C>(source)?;
    let endian = endian_of_magic(header.magic)?;
    let length = visible_length(source)?;
    let data_size = data_size(source, endian, &header, length)?;
    let sections = read_whole_table(alloc, source, endian, &header, length)?;
    Ok(WholeParts {
        header,
        endian,
        length,
        data_size,
        sections,
    })
}
