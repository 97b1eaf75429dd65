//! Attribute consistency: if the identifiers of records are at different offsets, each attribute needs
//! IDENTIFIER.
ghost use Rattle.std.specs.Prelude.{◌≡◌, if◌then◌else◌, None, Some};
ghost use Rattle.std.specs.Option.{option_or};
ghost use Rattle.perfdata_identifiers.specs.ParseInfo.{is_set};
ghost use Rattle.linux_perf_data.specs.Descriptions.{described_attribute, described_attributes};
ghost use Rattle.linux_perf_data.specs.Consistency.{first_without_identifier};
ghost use Rattle.linux_perf_data.specs.steps.Consistency.{TestsIdOffsets};
ghost use Rattle.linux_perf_data.specs.steps.Consistency.{TestsSampleIdAll, ChecksEach, ChecksConsistency};

use bitflags::Flags;
use perfdata_base::attr::{AttrFlags, PerfEventAttr, SampleFormat};
use perfdata_base::place::RecordIdParseInfo;
use perfdata_sections::error::Error;
use perfdata_sections::feature_sections::AttributeDescription;

// Whether the records of all attributes have their identifiers at the offsets of the first attribute's
// records.
fn id_offsets_agree(first: &AttributeDescription, attributes: &[AttributeDescription]) -> bool
    ensures { TestsIdOffsets (described_attribute first.now) (described_attributes attributes.now) result }
{
    let id_parse_info = RecordIdParseInfo::new(first.attributes());
    'attributes: for attribute in attributes {
        if RecordIdParseInfo::new(attribute.attributes()) != id_parse_info {
            return false;
        }
    }
    true
}

// Whether the records of an attribute have the field IDENTIFIER.
pub(crate) fn has_identifier(attr: &PerfEventAttr) -> bool
    ensures { result ≡ is_set attr.now.sample_format.0 16 }
{
    attr.sample_format.contains(SampleFormat::IDENTIFIER)
}

// The index of the first attribute whose records lack IDENTIFIER.
pub(crate) fn first_without_identifier(attributes: &[AttributeDescription]) -> Option<usize>
    ensures { result ≡ first_without_identifier 0 (described_attributes attributes.now) }
{
    let mut index = 0;
    'attributes: for attribute in attributes {
        if !has_identifier(attribute.attributes()) {
            return Some(index);
        }
        index += 1;
    }
    None
}

// The same with one more attribute, at `index`. `before` is the result for the attributes before it.
pub(crate) fn next_without_identifier(
    before: Option<usize>,
    attr: &PerfEventAttr,
    index: usize,
) -> Option<usize>
    ensures { result ≡ option_or before (if is_set attr.now.sample_format.0 16 then None else Some index) }
{
    match before {
        Some(first) => Some(first),
        None => {
            if has_identifier(attr) {
                None
            } else {
                Some(index)
            }
        }
    }
}

// Whether both or neither of two attributes have SAMPLE_ID_ALL.
fn sample_id_all_agrees(first: &PerfEventAttr, attr: &PerfEventAttr) -> bool
    ensures { TestsSampleIdAll (is_set first.now.flags.0 18) (is_set attr.now.flags.0 18) result }
{
    let first = first.flags.contains(AttrFlags::SAMPLE_ID_ALL);
    let own = attr.flags.contains(AttrFlags::SAMPLE_ID_ALL);
    if first { own } else { !own }
}

// Checks each attribute in order: it needs IDENTIFIER, and the same SAMPLE_ID_ALL as the first attribute.
fn check_each(
    first: &AttributeDescription,
    attributes: &[AttributeDescription],
) -> Result<(), Error>
    ensures { ChecksEach (described_attribute first.now) (described_attributes attributes.now) result }
{
    let mut index = 0;
    'attributes: for attribute in attributes {
        let attr = attribute.attributes();
        if !has_identifier(attr) {
            return Err(Error::NoIdentifierDespiteMultiEvent(index));
        }
        if !sample_id_all_agrees(first.attributes(), attr) {
            return Err(Error::InconsistentSampleIdAllWithMultiEvent(index));
        }
        index += 1;
    }
    Ok(())
}

// Checks attribute consistency. If the identifiers of records are at different offsets, each attribute needs
// IDENTIFIER, and all attributes or none need SAMPLE_ID_ALL. Attributes that meet both conditions have their
// identifiers at the same offsets, and therefore `check_each` always finds an error here.
pub(crate) fn check_consistency(attributes: &[AttributeDescription]) -> Result<(), Error>
    ensures { ChecksConsistency (described_attributes attributes.now) result }
{
    if attributes.is_empty() {
        return Ok(());
    }
    let first = &attributes[0];
    if id_offsets_agree(first, attributes) {
        return Ok(());
    }
    check_each(first, attributes)
}
