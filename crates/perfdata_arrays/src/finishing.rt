//! The bytes of a finished recording: the whole parts of a file, with the true size of its records.
ghost use Rattle.std.specs.Prelude.{◌≡◌, ◌≢◌};
ghost use Rattle.perfdata_arrays.specs.Overwrites.{WritesBytes};
ghost use Rattle.perfdata_arrays.specs.declared.status.Status.TheVariants.{Success};
ghost use Rattle.perfdata_arrays.specs.steps.Written.{WritesMore};

use crate::output::{push, push_number, range};
use crate::status::{Status, status_of_error};
use linux_perf_data::features::{Feature, FeatureSet};
use linux_perf_data::raw::Endianness;
use linux_perf_data::section::PerfFileSection;
use linux_perf_data::truncation::{WholeParts, find_whole_parts};
use perfdata_base::header::PerfHeader;
use std::alloc::Global;
use std::io::Cursor;

// The offset of the size of the data section in a header.
const DATA_SIZE_OFFSET: u64 = 48;

// The offset of the end of the features in a header.
const FEATURES_END: u64 = 104;

// The size of the shortest attribute.
const MIN_ATTRIBUTE_SIZE: u64 = 64;

/// The size of a finished recording and the status of the call.
#[derive(Clone, Copy, Debug, PartialEq, Eq)]
pub struct FinishResult {
    /// The size of the recording in bytes; 0 if the file has no header.
    pub size: u64,
    /// Success if the file has a header, otherwise the status of the first error.
    pub status: Status,
}

// Returns the bytes of a section.
fn section_bytes(input: &[u8], section: PerfFileSection) -> &[u8] {
    range(
        input,
        section.offset,
        section.offset.saturating_add(section.size),
    )
}

// Returns the features of the sections.
fn kept_features(parts: &WholeParts) -> FeatureSet {
    let mut features = FeatureSet([0; 4]);
    for (feature, _) in &parts.sections {
        features.insert(*feature);
    }
    features
}

// Returns the size of the table of the sections and the sections.
fn sections_size(parts: &WholeParts) -> u64 {
    let mut size = 0u64;
    for (_, section) in &parts.sections {
        size = size
            .saturating_add(PerfFileSection::STRUCT_SIZE)
            .saturating_add(section.size);
    }
    size
}

// Whether the recording names the ids of its attributes beside the attribute section, from which readers
// take no ids unless there is simpleperf's meta info.
fn has_listed_ids(parts: &WholeParts) -> bool {
    parts.header.event_types_section.size != 0
        || parts.sections.iter().any(|(feature, _)| {
            *feature == Feature::EVENT_DESC || *feature == Feature::SIMPLEPERF_META_INFO
        })
}

// Returns the entries of the attribute section, if a table of event types has to name their ids.
fn unlisted_attributes<'a>(input: &'a [u8], parts: &WholeParts) -> &'a [u8] {
    let has_ids = parts.header.attr_size >= MIN_ATTRIBUTE_SIZE + PerfFileSection::STRUCT_SIZE;
    let section = if has_ids && !has_listed_ids(parts) {
        parts.header.attr_section
    } else {
        PerfFileSection { offset: 0, size: 0 }
    };
    section_bytes(input, section)
}

// Returns the number of whole entries of attributes.
fn attribute_count(attributes: &[u8], header: &PerfHeader) -> u64 {
    (attributes.len() as u64)
        .checked_div(header.attr_size)
        .unwrap_or(0)
}

// Returns the section of a table of event types behind everything else; the recorded one, if there is none.
fn event_types_section(attributes: &[u8], parts: &WholeParts) -> PerfFileSection {
    let header = &parts.header;
    if attributes.is_empty() {
        return header.event_types_section;
    }
    let records_end = header.data_section.offset.saturating_add(parts.data_size);
    let entry_size = header
        .attr_size
        .saturating_add(PerfFileSection::STRUCT_SIZE);
    PerfFileSection {
        offset: records_end.saturating_add(sections_size(parts)),
        size: attribute_count(attributes, header).saturating_mul(entry_size),
    }
}

// Writes the table of event types: each attribute, as many zeros as the place of its ids has bytes, and this
// place.
fn write_event_types(attributes: &[u8], header: &PerfHeader, array: &mut [u8], size: &mut u64)
    ensures { WritesMore size.old array.old size.new array.new }
{
    let entry_size = header.attr_size;
    for index in 0..attribute_count(attributes, header) {
        let start = index.saturating_mul(entry_size);
        let end = start.saturating_add(entry_size);
        let ids = end.saturating_sub(PerfFileSection::STRUCT_SIZE);
        push(array, size, range(attributes, start, ids));
        push(array, size, &[0; PerfFileSection::STRUCT_SIZE as usize]);
        push(array, size, range(attributes, ids, end));
    }
}

// Writes the offset and the size of a section.
fn write_place(endian: Endianness, section: PerfFileSection, array: &mut [u8], size: &mut u64)
    ensures { WritesMore size.old array.old size.new array.new }
{
    push_number(array, size, endian, section.offset);
    push_number(array, size, endian, section.size);
}

// Writes a header with the size of the records and the features.
fn write_header(
    input: &[u8],
    attributes: &[u8],
    parts: &WholeParts,
    array: &mut [u8],
    size: &mut u64,
)
    ensures { WritesMore size.old array.old size.new array.new }
{
    push(array, size, range(input, 0, DATA_SIZE_OFFSET));
    push_number(array, size, parts.endian, parts.data_size);
    let event_types = event_types_section(attributes, parts);
    write_place(parts.endian, event_types, array, size);
    let [first, second, third, fourth] = kept_features(parts).0;
    push_number(array, size, parts.endian, first);
    push_number(array, size, parts.endian, second);
    push_number(array, size, parts.endian, third);
    push_number(array, size, parts.endian, fourth);
}

// Writes what is between the header and the records, and the records.
fn write_records(input: &[u8], parts: &WholeParts, array: &mut [u8], size: &mut u64)
    ensures { WritesMore size.old array.old size.new array.new }
{
    let end = parts
        .header
        .data_section
        .offset
        .saturating_add(parts.data_size);
    push(array, size, range(input, FEATURES_END, end));
}

// Writes the table of the sections.
fn write_section_table(parts: &WholeParts, array: &mut [u8], size: &mut u64)
    ensures { WritesMore size.old array.old size.new array.new }
{
    let table_size = (parts.sections.len() as u64).saturating_mul(PerfFileSection::STRUCT_SIZE);
    let mut offset = size.saturating_add(table_size);
    for (_, section) in &parts.sections {
        let place = PerfFileSection {
            offset,
            size: section.size,
        };
        write_place(parts.endian, place, array, size);
        offset = offset.saturating_add(section.size);
    }
}

// Writes the sections.
fn write_sections(input: &[u8], parts: &WholeParts, array: &mut [u8], size: &mut u64)
    ensures { WritesMore size.old array.old size.new array.new }
{
    for (_, section) in &parts.sections {
        push(array, size, section_bytes(input, *section));
    }
}

// Writes all parts of a finished recording.
fn write_parts(input: &[u8], parts: &WholeParts, array: &mut [u8], size: &mut u64)
    ensures { WritesMore size.old array.old size.new array.new }
{
    let attributes = unlisted_attributes(input, parts);
    write_header(input, attributes, parts, array, size);
    write_records(input, parts, array, size);
    write_section_table(parts, array, size);
    write_sections(input, parts, array, size);
    write_event_types(attributes, &parts.header, array, size);
}

/// Writes the finished recording of a perf.data file that wasn't finished, or whose end is missing, into
/// `array`, up to its capacity: the header with the true size of the records, the attributes, the whole
/// records, and the whole sections of features. If no section names the ids of the attributes any more, a
/// table of event types at the end does.
///
/// The attributes and their ids precede the records, as perf writes them. If the file has no header, the
/// status is that of the error, `size` is 0 and `array` is unchanged.
pub fn finish_recording(alloc: Global, bytes: &[u8], array: &mut [u8]) -> FinishResult
    ensures written { WritesBytes result.size array.old array.new }
    ensures failed { result.status ≢ Success → (result.size ≡ 0) × (array.new ≡ array.old) }
{
    let parts = match find_whole_parts(alloc, &mut Cursor::new(bytes)) {
        Ok(parts) => parts,
        Err(error) => {
            return FinishResult {
                size: 0,
                status: status_of_error(&error),
            };
        }
    };
    let mut size = 0;
    write_parts(bytes, &parts, array, &mut size);
    FinishResult {
        size,
        status: Status::Success,
    }
}
