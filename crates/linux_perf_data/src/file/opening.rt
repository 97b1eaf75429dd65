//! The opening of a file: header, sections, attributes, and a seek to the data section.
ghost use Rattle.perfdata_sources.specs.Source.{PausesOnlyOnError};
ghost use Rattle.std.specs.Prelude.{◌≡◌, IfErr};
ghost use Rattle.std.specs.Option.{option_map};
ghost use Rattle.linux_perf_data.specs.AttributeSources.{known_sections, ReadsAttributes};
ghost use Rattle.linux_perf_data.specs.steps.AttributeSources.{ReadsTypesSection};
ghost use Rattle.linux_perf_data.specs.steps.AttributeSources.{ParsesMetaEventTypes, ReadsSimpleperfSection};
ghost use Rattle.linux_perf_data.specs.steps.AttributeSources.{ReadsAttrsSection};
ghost use Rattle.linux_perf_data.specs.steps.FileOpening.{RecognizesMagic, OpensAfterHeader, OpensPerfFile};
ghost use Rattle.linux_perf_data.specs.steps.FileOpening.{ReadsSections, ReadsConsistentAttributes};
ghost use Rattle.linux_perf_data.specs.FeatureNumbers.{event_desc, simpleperf_meta_info};
ghost use Rattle.linux_perf_data.specs.FeatureData.{feature_data_of};
ghost use Rattle.linux_perf_data.specs.NamedErrors.{IsFileOpeningError};

use crate::attributes::consistency::check_consistency;
use crate::attributes::first_id_index::FirstIdIndex;
use crate::attributes::names::read_event_desc;
use crate::file::feature_data::{read_features, seek_to_offset};
use crate::perf_file::PerfFile;
use crate::perf_file::parse::feature_bytes;
use byteorder::{BigEndian, LittleEndian};
use indexmap::IndexMap;
use perfdata_base::features::Feature;
use perfdata_base::header::{self, PerfHeader};
use perfdata_base::raw::Endianness;
use perfdata_base::section::PerfFileSection;
use perfdata_base::source::PlacedSource;
use perfdata_sections::error::{Error, ReadError};
use perfdata_sections::feature_sections::AttributeDescription;
use perfdata_simpleperf::simpleperf::{SimplePerfEventType, get_event_types, parse_meta_info_map};
use std::alloc::Global;

// The metadata of a file, and the size of its data section.
#[derive(Drop)]
pub(crate) struct FileOpening {
    pub(crate) perf_file: PerfFile,
    pub(crate) data_size: u64,
}

// The byte order of a file or pipe with this magic.
pub(crate) fn endian_of_magic(magic: [u8; 8]) -> Result<Endianness, Error>
    ensures { RecognizesMagic magic result }
{
    match header::endian_of_magic(&magic) {
        Some(endian) => Ok(endian),
        None => Err(Error::UnrecognizedMagicValue(magic)),
    }
}

// Reads the attributes of the event types section.
fn read_event_types<C: PlacedSource>(
    alloc: Global,
    source: &mut C,
    endian: Endianness,
    section: &PerfFileSection,
    attr_size: u64,
) -> Result<Vec<AttributeDescription>, Error>
    ensures reads { ReadsTypesSection endian attr_size section.now (C.state source.old) result
        (C.state source.new) }
    ensures pauses { PausesOnlyOnError (C.state source.old) result (C.state source.new) }
    ensures same_loan { C.loan source.new ≡ C.loan source.old }
{
    match endian {
        Endianness::LittleEndian => {
            AttributeDescription::parse_event_types_section_from::<C, LittleEndian>(
                alloc, source, section, attr_size,
            )
        }
        Endianness::BigEndian => {
            AttributeDescription::parse_event_types_section_from::<C, BigEndian>(
                alloc, source, section, attr_size,
            )
        }
    }
}

// Reads the attributes of the attribute section.
fn read_attr_section<C: PlacedSource>(
    alloc: Global,
    source: &mut C,
    endian: Endianness,
    section: &PerfFileSection,
    attr_size: u64,
) -> Result<Vec<AttributeDescription>, Error>
    ensures reads { ReadsAttrsSection endian attr_size section.now (C.state source.old) result
        (C.state source.new) }
    ensures pauses { PausesOnlyOnError (C.state source.old) result (C.state source.new) }
    ensures same_loan { C.loan source.new ≡ C.loan source.old }
{
    match endian {
        Endianness::LittleEndian => {
            AttributeDescription::parse_attr_section_from::<C, LittleEndian>(
                alloc, source, section, attr_size,
            )
        }
        Endianness::BigEndian => AttributeDescription::parse_attr_section_from::<C, BigEndian>(
            alloc, source, section, attr_size,
        ),
    }
}

// Parses the event types in simpleperf's meta info.
fn parse_event_types(alloc: Global, bytes: &[u8]) -> Result<Vec<SimplePerfEventType>, Error>
    ensures { ParsesMetaEventTypes bytes.now result }
{
    let map = parse_meta_info_map(alloc, bytes)?;
    match get_event_types(alloc, &map)? {
        Some(types) => Ok(types),
        None => Err(Error::NoEventTypesInSimpleperfMetaInfo),
    }
}

// Reads the attributes of simpleperf's attribute section, named by these event types.
fn read_simpleperf_attrs<C: PlacedSource>(
    alloc: Global,
    source: &mut C,
    endian: Endianness,
    header: &PerfHeader,
    types: &[SimplePerfEventType],
) -> Result<Vec<AttributeDescription>, Error>
    ensures reads { ReadsSimpleperfSection endian header.now.attr_size header.now.attr_section types.now
        (C.state source.old) result (C.state source.new) }
    ensures pauses { PausesOnlyOnError (C.state source.old) result (C.state source.new) }
    ensures same_loan { C.loan source.new ≡ C.loan source.old }
{
    let section = &header.attr_section;
    let attr_size = header.attr_size;
    match endian {
        Endianness::LittleEndian => {
            AttributeDescription::parse_simpleperf_attr_section_from::<C, LittleEndian>(
                alloc, source, section, attr_size, types,
            )
        }
        Endianness::BigEndian => {
            AttributeDescription::parse_simpleperf_attr_section_from::<C, BigEndian>(
                alloc, source, section, attr_size, types,
            )
        }
    }
}

// Reads the attributes of a file from the first section that the file has for them.
fn read_attributes<C: PlacedSource>(
    alloc: Global,
    source: &mut C,
    endian: Endianness,
    header: &PerfHeader,
    event_desc: Option<&[u8]>,
    meta_info: Option<&[u8]>,
) -> Result<Vec<AttributeDescription>, Error>
    ensures named_error { IfErr result IsFileOpeningError }
    ensures reads { ReadsAttributes endian header.now
        (known_sections (option_map (λ s. s.now) event_desc.entry) (option_map (λ s. s.now) meta_info.entry))
        (C.state source.old) result (C.state source.new) }
    ensures pauses { PausesOnlyOnError (C.state source.old) result (C.state source.new) }
    ensures same_loan { C.loan source.new ≡ C.loan source.old }
{
    match event_desc {
        Some(bytes) => return read_event_desc(alloc, endian, bytes),
        None => {}
    }
    if header.event_types_section.size != 0 {
        let section = &header.event_types_section;
        return read_event_types(alloc, source, endian, section, header.attr_size);
    }
    match meta_info {
        Some(bytes) => {
            let types = parse_event_types(alloc, bytes)?;
            read_simpleperf_attrs(alloc, source, endian, header, &types)
        }
        None => {
            let section = &header.attr_section;
            read_attr_section(alloc, source, endian, section, header.attr_size)
        }
    }
}

// Reads the feature sections of a file. Their table follows the data section.
fn read_sections<C: PlacedSource>(
    alloc: Global,
    source: &mut C,
    endian: Endianness,
    header: &PerfHeader,
) -> Result<IndexMap<Feature, Vec<u8>>, Error>
    ensures reads { ReadsSections endian header.now (C.state source.old) result (C.state source.new) }
    ensures pauses { PausesOnlyOnError (C.state source.old) result (C.state source.new) }
    ensures same_loan { C.loan source.new ≡ C.loan source.old }
{
    let data = header.data_section;
    match data.offset.checked_add(data.size) {
        Some(table) => read_features(alloc, source, endian, &header.features, table),
        None => Err(Error::Read(ReadError::FeatureSection)),
    }
}

// Reads the attributes of a file with these feature sections. Fails without attributes, and if they are
// inconsistent.
pub(crate) fn read_consistent_attributes<C: PlacedSource>(
    alloc: Global,
    source: &mut C,
    endian: Endianness,
    header: &PerfHeader,
    sections: &IndexMap<Feature, Vec<u8>>,
) -> Result<Vec<AttributeDescription>, Error>
    ensures reads { ReadsConsistentAttributes endian header.now
        (known_sections (feature_data_of sections.now event_desc)
        (feature_data_of sections.now simpleperf_meta_info))
        (C.state source.old) result (C.state source.new) }
    ensures pauses { PausesOnlyOnError (C.state source.old) result (C.state source.new) }
    ensures same_loan { C.loan source.new ≡ C.loan source.old }
{
    let event_desc = feature_bytes(sections, Feature::EVENT_DESC);
    let meta_info = feature_bytes(sections, Feature::SIMPLEPERF_META_INFO);
    let attributes = read_attributes(alloc, source, endian, header, event_desc, meta_info)?;
    if attributes.is_empty() {
        return Err(Error::NoAttributes);
    }
    check_consistency(&attributes)?;
    Ok(attributes)
}

// Opens the file with this header and byte order. Leaves the source at the first record.
fn open_after_header<C: PlacedSource>(
    alloc: Global,
    source: &mut C,
    endian: Endianness,
    header: &PerfHeader,
) -> Result<FileOpening, Error>
    ensures reads { OpensAfterHeader endian header.now (C.state source.old) result (C.state source.new) }
    ensures pauses { PausesOnlyOnError (C.state source.old) result (C.state source.new) }
    ensures same_loan { C.loan source.new ≡ C.loan source.old }
{
    let sections = read_sections(alloc, source, endian, header)?;
    let attributes = read_consistent_attributes(alloc, source, endian, header, &sections)?;
    seek_to_offset(source, header.data_section.offset)?;
    let perf_file = PerfFile {
        endian,
        features: header.features,
        sections,
        attributes,
        name_table: None,
        first_id_index: FirstIdIndex::new(alloc),
    };
    Ok(FileOpening {
        perf_file,
        data_size: header.data_section.size,
    })
}

// Opens a file: reads its header and all metadata. Leaves the source at the first record.
pub(crate) fn open_file<C: PlacedSource>(
    alloc: Global,
    source: &mut C,
) -> Result<FileOpening, Error>
    ensures reads { OpensPerfFile (C.state source.old) result (C.state source.new) }
    ensures pauses { PausesOnlyOnError (C.state source.old) result (C.state source.new) }
    ensures same_loan { C.loan source.new ≡ C.loan source.old }
{
    let header = PerfHeader::parse_from::<C>(source)?;
    let endian = endian_of_magic(header.magic)?;
    open_after_header(alloc, source, endian, &header)
}
