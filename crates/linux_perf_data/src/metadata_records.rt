//! The metadata records of a pipe. Each adds an attribute or a feature to the metadata of the opening, or
//! later to the `PerfFile` and the lookup.
ghost use Rattle.std.specs.Prelude.{◌≡◌, ◌≢◌, []};
ghost use Rattle.perfdata_sections.specs.Error.{IsInvalidInput};
ghost use Rattle.linux_perf_data.specs.LateMetadata.{AppliesMetadata, IsMetadataType};
ghost use Rattle.linux_perf_data.specs.steps.LateSteps.{AppliesAttribute, AppliesFeature};
ghost use Rattle.linux_perf_data.specs.steps.PipeSteps.{AddsRecord, CollectsMetadata, ParsesAttribute};
ghost use Rattle.linux_perf_data.specs.steps.PipeSteps.{ParsesFeature, ReportsContentsError};
ghost use Rattle.linux_perf_data.specs.steps.PipeSteps.{TestsMetadataType};

use crate::attributes::lookup::AttributeLookup;
use crate::perf_file::PerfFile;
use byteorder::{BigEndian, LittleEndian};
use indexmap::IndexMap;
use perfdata_base::features::{Feature, FeatureSet};
use perfdata_base::raw::{Endianness, RawData};
use perfdata_records::record::{HeaderAttr, HeaderFeature};
use perfdata_sections::constants::{PERF_RECORD_HEADER_ATTR, PERF_RECORD_HEADER_FEATURE};
use perfdata_sections::error::Error;
use perfdata_sections::feature_sections::AttributeDescription;
use std::alloc::Global;
use std::io;
use std::io::ErrorKind;

// Whether records of this type are metadata: an attribute or a feature.
pub(crate) fn is_metadata(record_type: u32) -> bool
    ensures { TestsMetadataType record_type result }
{
    record_type == PERF_RECORD_HEADER_ATTR || record_type == PERF_RECORD_HEADER_FEATURE
}

// Converts the parse error of a metadata body: an allocation failure is `Error::Memory`.
fn contents_error(error: io::Error) -> Error
    ensures { ReportsContentsError error result }
{
    if error.kind() == ErrorKind::OutOfMemory {
        return Error::Memory;
    }
    Error::IoError(error)
}

// Parses the attribute in the body of a record of type 64.
fn parse_attribute(alloc: Global, endian: Endianness, body: &[u8]) -> Result<HeaderAttr, Error>
    ensures { ParsesAttribute endian body.now result }
{
    let parsed = match endian {
        Endianness::LittleEndian => HeaderAttr::parse::<LittleEndian>(alloc, RawData::Single(body)),
        Endianness::BigEndian => HeaderAttr::parse::<BigEndian>(alloc, RawData::Single(body)),
    };
    match parsed {
        Ok(header) => Ok(header),
        Err(error) => Err(contents_error(error)),
    }
}

// Parses the feature in the body of a record of type 80.
fn parse_feature(alloc: Global, endian: Endianness, body: &[u8]) -> Result<HeaderFeature, Error>
    ensures { ParsesFeature endian body.now result }
{
    let body = RawData::Single(body);
    let parsed = match endian {
        Endianness::LittleEndian => HeaderFeature::parse::<LittleEndian>(alloc, body),
        Endianness::BigEndian => HeaderFeature::parse::<BigEndian>(alloc, body),
    };
    match parsed {
        Ok(header) => Ok(header),
        Err(error) => Err(contents_error(error)),
    }
}

// The metadata of the records that were read so far.
#[derive(Drop)]
pub(crate) struct PipeMetadata {
    pub(crate) features: FeatureSet,
    pub(crate) sections: IndexMap<Feature, Vec<u8>>,
    pub(crate) attributes: Vec<AttributeDescription>,
}

impl PipeMetadata {
    // Empty metadata.
    pub(crate) fn new(alloc: Global) -> PipeMetadata
        ensures { (endian : Endianness) → CollectsMetadata endian [] result }
    {
        PipeMetadata {
            features: FeatureSet([0; 4]),
            sections: IndexMap::new(alloc),
            attributes: Vec::new(alloc),
        }
    }

    // Appends the attribute of a record of type 64 to the others.
    fn add_attribute(&mut self, alloc: Global, endian: Endianness, body: &[u8]) -> Result<(), Error>
        ensures { AddsRecord endian 64 body.now self.old result self.new }
    {
        let header = parse_attribute(alloc, endian, body)?;
        let attribute = AttributeDescription::new(header.attr, None, header.ids);
        self.attributes.push(attribute)?;
        Ok(())
    }

    // Stores the feature data of a record of type 80, which replace the feature's previous data.
    fn add_feature(&mut self, alloc: Global, endian: Endianness, body: &[u8]) -> Result<(), Error>
        ensures { AddsRecord endian 80 body.now self.old result self.new }
    {
        let header = parse_feature(alloc, endian, body)?;
        self.sections.insert(header.feature, header.bytes)?;
        self.features.insert(header.feature);
        Ok(())
    }

    // Adds the attribute or the feature of a metadata record.
    pub(crate) fn add_record(
        &mut self,
        alloc: Global,
        endian: Endianness,
        record_type: u32,
        body: &[u8],
    ) -> Result<(), Error>
        requires { IsMetadataType record_type }
        ensures { AddsRecord endian record_type body.now self.old result self.new }
    {
        if record_type == PERF_RECORD_HEADER_ATTR {
            return self.add_attribute(alloc, endian, body);
        }
        self.add_feature(alloc, endian, body)
    }
}

// The error for a `PerfFile` of another input.
fn mismatched_perf_file() -> Error
    ensures { IsInvalidInput result }
{
    Error::IoError(io::Error::from(ErrorKind::InvalidInput))
}

// Applies the attribute of a record of type 64.
#[tactic(auto, using(crate::proofs::LateMetadataLemmas::found_can))]
fn apply_attribute(
    alloc: Global,
    endian: Endianness,
    lookup: &mut AttributeLookup,
    perf_file: &mut PerfFile,
    body: &[u8],
) -> Result<(), Error>
    ensures { AppliesAttribute endian lookup.old perf_file.old body.now result lookup.new perf_file.new }
{
    let header = parse_attribute(alloc, endian, body)?;
    let naming = perf_file.find_names(alloc, endian, &header.ids)?;
    perf_file.reserve_one()?;
    lookup.add(&header.attr, &header.ids, endian)?;
    perf_file.push_attribute(
        AttributeDescription::new(header.attr, None, header.ids),
        naming,
    );
    Ok(())
}

// Applies the feature of a record of type 80.
fn apply_feature(
    alloc: Global,
    endian: Endianness,
    perf_file: &mut PerfFile,
    body: &[u8],
) -> Result<(), Error>
    ensures { AppliesFeature endian perf_file.old body.now result perf_file.new }
{
    let header = parse_feature(alloc, endian, body)?;
    if header.feature == Feature::EVENT_DESC {
        return perf_file.replace_event_desc(alloc, endian, header.bytes);
    }
    perf_file.replace_feature(header.feature, header.bytes)
}

// Applies a metadata record of a pipe. Any other record changes nothing. What the accessors of the `PerfFile`
// return is unchanged after an error: an `IoError` of kind `InvalidInput` if the number of attributes isn't
// that of the input, an error of the body, of the EVENT_DESC that names the attributes, or of attribute
// consistency, or `Memory`.
#[inline(never)]
pub(crate) fn apply_metadata(
    alloc: Global,
    endian: Endianness,
    lookup: &mut AttributeLookup,
    perf_file: &mut PerfFile,
    record_type: u32,
    body: &[u8],
) -> Result<(), Error>
    ensures applies { AppliesMetadata endian lookup.old perf_file.old record_type body.now result lookup.new
        perf_file.new }
    ensures other { record_type ≢ 64 → record_type ≢ 80 → (lookup.new ≡ lookup.old) ×
        (perf_file.new ≡ perf_file.old) }
{
    if !is_metadata(record_type) {
        return Ok(());
    }
    if perf_file.attributes.len() != lookup.attribute_count() {
        return Err(mismatched_perf_file());
    }
    if record_type == PERF_RECORD_HEADER_ATTR {
        return apply_attribute(alloc, endian, lookup, perf_file, body);
    }
    apply_feature(alloc, endian, perf_file, body)
}
