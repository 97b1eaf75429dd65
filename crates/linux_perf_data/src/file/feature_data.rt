//! The feature table after the data section, and the bytes of each feature.
ghost use Rattle.perfdata_sources.specs.Source.{PausesOnlyOnError};
ghost use Rattle.std.specs.Prelude.{◌≡◌};
ghost use Rattle.perfdata_identifiers.specs.Features.{features_of};
ghost use Rattle.perfdata_sources.specs.Endian.{number_in};
ghost use Rattle.perfdata_base.specs.Section.{ParsesSectionEntry};
ghost use Rattle.linux_perf_data.specs.steps.FeatureData.{SeeksToOffset, ReadsFeatureTable};
ghost use Rattle.linux_perf_data.specs.steps.FeatureData.{ReadsSectionBytes};
ghost use Rattle.linux_perf_data.specs.steps.FeatureData.{ReadsFeatureData, ReadsFeatures};
ghost use Rattle.linux_perf_data.specs.steps.FeatureData.{feature_entries_of};

use byteorder::{BigEndian, LittleEndian};
use indexmap::IndexMap;
use perfdata_base::features::{Feature, FeatureSet};
use perfdata_base::raw::Endianness;
use perfdata_base::section::PerfFileSection;
use perfdata_base::source::PlacedSource;
use perfdata_sections::bytes::read_bytes;
use perfdata_sections::error::Error;
use std::alloc::Global;
use std::io;
use std::io::SeekFrom;

// Seeks to an offset in bytes from the first byte of the source.
pub(crate) fn seek_to_offset<C: PlacedSource>(source: &mut C, offset: u64) -> Result<(), Error>
    ensures seeks { SeeksToOffset (C.state source.old) offset result (C.state source.new) }
    ensures pauses { PausesOnlyOnError (C.state source.old) result (C.state source.new) }
    ensures same_loan { C.loan source.new ≡ C.loan source.old }
{
    source.seek_to(SeekFrom::Start(offset))?;
    Ok(())
}

// Reads a table entry at the position of the source.
pub(crate) fn read_section_entry<C: PlacedSource>(
    source: &mut C,
    endian: Endianness,
) -> io::Result<PerfFileSection>
    ensures parses { ParsesSectionEntry (number_in endian) (C.state source.old) result (C.state source.new) }
    ensures pauses { PausesOnlyOnError (C.state source.old) result (C.state source.new) }
    ensures same_loan { C.loan source.new ≡ C.loan source.old }
{
    match endian {
        Endianness::LittleEndian => PerfFileSection::parse_from::<C, LittleEndian>(source),
        Endianness::BigEndian => PerfFileSection::parse_from::<C, BigEndian>(source),
    }
}

// Reads the table entries of these features, from the position of the source on.
fn read_section_table<C: PlacedSource>(
    alloc: Global,
    source: &mut C,
    endian: Endianness,
    features: &FeatureSet,
) -> Result<Vec<(Feature, PerfFileSection)>, Error>
    ensures reads { ReadsFeatureTable endian (features_of features.now) (C.state source.old) result
        (C.state source.new) }
    ensures pauses { PausesOnlyOnError (C.state source.old) result (C.state source.new) }
    ensures same_loan { C.loan source.new ≡ C.loan source.old }
{
    let mut table = Vec::new(alloc);
    'entries: for feature in features.iter() {
        let entry = read_section_entry(source, endian)?;
        table.push((feature, entry))?;
    }
    Ok(table)
}

// Reads the bytes of a section.
fn read_section_data<C: PlacedSource>(
    alloc: Global,
    source: &mut C,
    section: PerfFileSection,
) -> Result<Vec<u8>, Error>
    ensures reads { ReadsSectionBytes section (C.state source.old) result (C.state source.new) }
    ensures pauses { PausesOnlyOnError (C.state source.old) result (C.state source.new) }
    ensures same_loan { C.loan source.new ≡ C.loan source.old }
{
    seek_to_offset(source, section.offset)?;
    match read_bytes(alloc, source, section.size as usize) {
        Ok(bytes) => Ok(bytes),
        Err(error) => Err(Error::from(error)),
    }
}

// Reads the sections of all entries of a table.
pub(crate) fn read_feature_data<C: PlacedSource>(
    alloc: Global,
    source: &mut C,
    table: &[(Feature, PerfFileSection)],
) -> Result<IndexMap<Feature, Vec<u8>>, Error>
    ensures reads { ReadsFeatureData (feature_entries_of table.now) (C.state source.old) result
        (C.state source.new) }
    ensures pauses { PausesOnlyOnError (C.state source.old) result (C.state source.new) }
    ensures same_loan { C.loan source.new ≡ C.loan source.old }
{
    let mut sections = IndexMap::new(alloc);
    'sections: for entry in table {
        let (feature, section) = *entry;
        let bytes = read_section_data(alloc, source, section)?;
        sections.insert(feature, bytes)?;
    }
    Ok(sections)
}

// Reads the sections of these features. The table starts at the offset `offset`, with one entry for each
// feature, ascending.
pub(crate) fn read_features<C: PlacedSource>(
    alloc: Global,
    source: &mut C,
    endian: Endianness,
    features: &FeatureSet,
    offset: u64,
) -> Result<IndexMap<Feature, Vec<u8>>, Error>
    ensures reads { ReadsFeatures endian offset (features_of features.now) (C.state source.old) result
        (C.state source.new) }
    ensures pauses { PausesOnlyOnError (C.state source.old) result (C.state source.new) }
    ensures same_loan { C.loan source.new ≡ C.loan source.old }
{
    seek_to_offset(source, offset)?;
    let table = read_section_table(alloc, source, endian, features)?;
    read_feature_data(alloc, source, &table)
}
