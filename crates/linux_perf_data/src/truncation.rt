//! What a file contains of a recording, and which part of an input ends too early for its opening.

pub use crate::file::unfinished::{Completeness, WholeParts, find_whole_parts};
use crate::input_kind::{InputKind, START_SIZE};
use perfdata_base::endian::{Endianness, read_u32, read_u64};
use perfdata_base::event::PerfEventHeader;
use perfdata_base::features::{Feature, FeatureSet};
use perfdata_base::header::{PerfHeader, endian_of_magic};
use perfdata_base::section::PerfFileSection;
use perfdata_base::source::{PlacedSource, read_exact};
use perfdata_records::record::UserRecordType;
use std::fmt;
use std::fmt::{Display, Formatter};
use std::io::{ErrorKind, SeekFrom};

// The size in bytes of a pipe's header that has no extra bytes.
const PIPE_HEADER_SIZE: u64 = 16;

// The size in bytes of a record header.
const RECORD_HEADER_SIZE: u64 = PerfEventHeader::STRUCT_SIZE as u64;

// The size in bytes of a record header and of the number of a feature.
const FEATURE_START_SIZE: u64 = 16;

// The size in bytes of an attribute whose own size is 0.
const ATTRIBUTE_SIZE: u64 = 64;

/// A part of a perf.data file or of a pipe.
#[derive(Clone, Copy, Debug, PartialEq, Eq)]
pub enum OpeningPart {
    /// The header of a file.
    Header,
    /// The table of a file's feature sections.
    SectionTable,
    /// The section of a feature.
    Feature(Feature),
    /// The first record of a file.
    FirstRecord,
    /// A metadata record at this offset in bytes from the start of a pipe.
    MetadataRecord(u64),
}

impl Display for OpeningPart {
    fn fmt<W: fmt::Write>(&self, f: &mut Formatter<W>) -> fmt::Result {
        match self {
            OpeningPart::Header => f.write_str("the header"),
            OpeningPart::SectionTable => f.write_str("the section table"),
            OpeningPart::Feature(feature) => write!(f, "feature {feature}"),
            OpeningPart::FirstRecord => f.write_str("the first record"),
            OpeningPart::MetadataRecord(offset) => {
                write!(f, "the metadata record at offset {offset}")
            }
        }
    }
}

// Reads the bytes at an offset. There are none if the input ends before.
fn read_array<const N: usize, C: PlacedSource>(source: &mut C, offset: u64) -> Option<[u8; N]> {
    let mut bytes = [0u8; N];
    source.seek_to(SeekFrom::Start(offset)).ok()?;
    read_exact(source, &mut bytes).ok()?;
    Some(bytes)
}

// Returns whether the bytes from an offset on are fewer than a size, in an input of `length` bytes.
fn is_outside(length: u64, offset: u64, size: u64) -> bool {
    length.saturating_sub(offset) < size
}

// Returns the first feature, in the order of the table at an offset, whose section is truncated.
fn truncated_feature<C: PlacedSource>(
    source: &mut C,
    length: u64,
    endian: Endianness,
    features: &FeatureSet,
    table: u64,
) -> Option<Feature> {
    let mut offset = table;
    for feature in features.iter() {
        let entry = read_array::<16, C>(source, offset)?;
        let section_offset = read_u64(endian, &entry);
        if is_outside(length, section_offset, read_u64(endian, &entry[8..])) {
            return Some(feature);
        }
        offset = offset.saturating_add(PerfFileSection::STRUCT_SIZE);
    }
    None
}

// Returns whether the record at an offset is truncated.
fn is_truncated_record<C: PlacedSource>(
    source: &mut C,
    length: u64,
    endian: Endianness,
    offset: u64,
) -> bool {
    match read_array::<8, C>(source, offset) {
        Some(bytes) => {
            let header = PerfEventHeader::from_bytes(endian, &bytes);
            is_outside(length, offset, header.size as u64)
        }
        None => true,
    }
}

// Returns the first part of a file that is truncated.
fn truncated_file_part<C: PlacedSource>(source: &mut C, length: u64) -> Option<OpeningPart> {
    source.seek_to(SeekFrom::Start(0)).ok()?;
    let header = match PerfHeader::parse_from(source) {
        Ok(header) => header,
        Err(error) if error.kind() == ErrorKind::UnexpectedEof => return Some(OpeningPart::Header),
        Err(_) => return None,
    };
    let endian = endian_of_magic(&header.magic)?;
    let data = header.data_section;
    let table = data.offset.saturating_add(data.size);
    let table_size = (header.features.len() as u64).saturating_mul(PerfFileSection::STRUCT_SIZE);
    if is_outside(length, table, table_size) {
        return Some(OpeningPart::SectionTable);
    }
    if let Some(feature) = truncated_feature(source, length, endian, &header.features, table) {
        return Some(OpeningPart::Feature(feature));
    }
    if data.size != 0 && is_truncated_record(source, length, endian, data.offset) {
        return Some(OpeningPart::FirstRecord);
    }
    None
}

// Returns the least size in bytes of the record at an offset with a header, if it is a metadata record.
fn least_size<C: PlacedSource>(
    source: &mut C,
    endian: Endianness,
    offset: u64,
    header: PerfEventHeader,
) -> Option<u64> {
    if header.type_ == UserRecordType::PERF_HEADER_FEATURE.record_type().0 {
        return Some(FEATURE_START_SIZE);
    }
    if header.type_ != UserRecordType::PERF_HEADER_ATTR.record_type().0 {
        return None;
    }
    let own_size = match read_array::<16, C>(source, offset) {
        Some(start) => read_u32(endian, &start[12..]) as u64,
        None => 0,
    };
    Some(RECORD_HEADER_SIZE + own_size.max(ATTRIBUTE_SIZE))
}

// Returns the offset of the first metadata record of a pipe that is truncated, from an offset on.
fn truncated_metadata<C: PlacedSource>(
    source: &mut C,
    length: u64,
    endian: Endianness,
    start: u64,
) -> Option<u64> {
    let mut offset = start;
    for _ in 0..u64::MAX {
        let header = PerfEventHeader::from_bytes(endian, &read_array::<8, C>(source, offset)?);
        let size = header.size as u64;
        if size < least_size(source, endian, offset, header)? || is_outside(length, offset, size) {
            return Some(offset);
        }
        offset = offset.checked_add(size)?;
    }
    None
}

/// Returns the first part of a perf.data file or of a pipe that its opening needs and that ends too early, or
/// `None` if there is no such part. The source is the whole input, and its position is unspecified then.
///
/// A file consists of its header, the table of feature sections, these sections, and its first record. A pipe
/// begins with metadata records.
pub fn find_truncated_part<C: PlacedSource>(source: &mut C) -> Option<OpeningPart> {
    let length = source.seek_to(SeekFrom::End(0)).ok()?;
    let start = read_array::<START_SIZE, C>(source, 0)?;
    match InputKind::of_start(&start)? {
        InputKind::File => truncated_file_part(source, length),
        InputKind::Pipe => {
            let endian = endian_of_magic(start.first_chunk::<8>()?)?;
            let records = PIPE_HEADER_SIZE.max(read_u64(endian, &start[8..]));
            let offset = truncated_metadata(source, length, endian, records)?;
            Some(OpeningPart::MetadataRecord(offset))
        }
        InputKind::JitDump => None,
    }
}
