//! Whether a metadata record of a pipe can be applied.
ghost use Rattle.std.specs.Prelude.{IfErr};
ghost use Rattle.linux_perf_data.specs.LateMetadata.{IsMetadataType};

use crate::attributes::ChunkAttributes;
use byteorder::{BigEndian, LittleEndian};
use linux_perf_data::Error;
use perfdata_arrays::attrs::Attr;
use perfdata_arrays::status::{Status, status_of_error};
use perfdata_base::attr::SampleFormat;
use perfdata_base::endian::Endianness;
use perfdata_base::features::Feature;
use perfdata_base::place::RecordIdParseInfo;
use perfdata_base::raw::RawData;
use perfdata_records::record::{HeaderAttr, HeaderFeature};
use perfdata_sections::constants::{PERF_RECORD_HEADER_ATTR, PERF_RECORD_HEADER_FEATURE};
use perfdata_sections::feature_sections::AttributeDescription;
use std::alloc::Global;
use std::io;
use std::io::{Cursor, ErrorKind};

// Returns the status of the error of a metadata record's body.
fn status_of_io_error(error: io::Error) -> Status {
    if error.kind() == ErrorKind::OutOfMemory {
        return Status::OutOfMemory;
    }
    status_of_error(&Error::IoError(error))
}

// Parses the attribute in the body of a record HEADER_ATTR.
pub(crate) fn parse_attr(
    alloc: Global,
    endian: Endianness,
    body: &[u8],
) -> Result<HeaderAttr, Status> {
    let body = RawData::Single(body);
    let parsed = match endian {
        Endianness::LittleEndian => HeaderAttr::parse::<LittleEndian>(alloc, body),
        Endianness::BigEndian => HeaderAttr::parse::<BigEndian>(alloc, body),
    };
    match parsed {
        Ok(attr) => Ok(attr),
        Err(error) => Err(status_of_io_error(error)),
    }
}

// Parses the feature in the body of a record HEADER_FEATURE.
fn parse_feature(alloc: Global, endian: Endianness, body: &[u8]) -> Result<HeaderFeature, Status> {
    let body = RawData::Single(body);
    let parsed = match endian {
        Endianness::LittleEndian => HeaderFeature::parse::<LittleEndian>(alloc, body),
        Endianness::BigEndian => HeaderFeature::parse::<BigEndian>(alloc, body),
    };
    match parsed {
        Ok(feature) => Ok(feature),
        Err(error) => Err(status_of_io_error(error)),
    }
}

// Returns whether each attribute has IDENTIFIER.
fn have_identifier(attrs: &[Attr]) -> bool {
    attrs
        .iter()
        .all(|attr| attr.sample_type & SampleFormat::IDENTIFIER.0 != 0)
}

// Checks that the records of a late attribute have their identifiers where those of the others have them.
fn check_attr(alloc: Global, attributes: &ChunkAttributes<'_>, body: &[u8]) -> Result<(), Status> {
    let late = parse_attr(alloc, attributes.endian, body)?.attr;
    if RecordIdParseInfo::new(&late) == attributes.first.id_parse_info {
        return Ok(());
    }
    let has_identifier = late.sample_format.0 & SampleFormat::IDENTIFIER.0 != 0;
    if has_identifier && have_identifier(attributes.attrs) {
        return Err(Status::SampleIdAllMismatch);
    }
    Err(Status::MissingIdentifier)
}

// Checks the body of a feature. That of EVENT_DESC names attributes, and is parsed.
fn check_feature(alloc: Global, endian: Endianness, body: &[u8]) -> Result<(), Status> {
    let late = parse_feature(alloc, endian, body)?;
    if late.feature != Feature::EVENT_DESC {
        return Ok(());
    }
    let mut bytes = Cursor::new(late.bytes.as_slice());
    let parsed = match endian {
        Endianness::LittleEndian => {
            AttributeDescription::parse_event_desc_section_from::<_, LittleEndian>(
                alloc, &mut bytes,
            )
        }
        Endianness::BigEndian => {
            AttributeDescription::parse_event_desc_section_from::<_, BigEndian>(alloc, &mut bytes)
        }
    };
    match parsed {
        Ok(_) => Ok(()),
        Err(error) => Err(status_of_error(&error)),
    }
}

// Checks that a record's metadata can be applied, if it has some.
pub(crate) fn check_metadata(
    alloc: Global,
    attributes: &ChunkAttributes<'_>,
    record_type: u32,
    body: &[u8],
) -> Result<(), Status>
    ensures { IfErr result (λ _. IsMetadataType record_type) }
{
    match record_type {
        PERF_RECORD_HEADER_ATTR => check_attr(alloc, attributes, body),
        PERF_RECORD_HEADER_FEATURE => check_feature(alloc, attributes.endian, body),
        _ => Ok(()),
    }
}
