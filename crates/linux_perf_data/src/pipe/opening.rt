//! The opening of a pipe: its header, and its metadata records up to the record header that ends them.
ghost use Rattle.std.specs.Prelude.{◌≡◌, ◌≤◌};
ghost use Rattle.perfdata_sources.specs.Source.{PausesOnlyOnError};
ghost use Rattle.linux_perf_data.specs.steps.Pauses.{PausesOnlyWithoutHeader, PausesOnlyWithoutPendingHeader};
ghost use Rattle.linux_perf_data.specs.steps.Pauses.{PausesOnlyInEndedOpening};
ghost use Rattle.linux_perf_data.specs.steps.PipeOpening.{OpensPerfPipe};
ghost use Rattle.linux_perf_data.specs.steps.PipeSteps.{FinishesOpening, NamesConsistentAttributes};
ghost use Rattle.linux_perf_data.specs.steps.PipeSteps.{OpensAfterPipeHeader, ReadsMetadata};
ghost use Rattle.linux_perf_data.specs.steps.PipeSteps.{ReadsMetadataBody};
ghost use Rattle.linux_perf_data.specs.steps.PipeSteps.{ReadsNext};
ghost use Rattle.std.specs.Option.{option_map};

use crate::attributes::consistency::check_consistency;
use crate::attributes::first_id_index::FirstIdIndex;
use crate::attributes::names::NameTable;
use crate::file::opening::endian_of_magic;
use crate::metadata_records::{PipeMetadata, is_metadata};
use crate::perf_file::PerfFile;
use crate::perf_file::parse::feature_bytes;
use crate::records::framing::{body_size, record_end};
use crate::records::input::{HeaderBytes, read_header_bytes};
use perfdata_base::event::PerfEventHeader;
use perfdata_base::features::Feature;
use perfdata_base::header::PerfPipeHeader;
use perfdata_base::raw::Endianness;
use perfdata_base::source::{Source, append_exact};
use perfdata_sections::error::Error;
use perfdata_sections::feature_sections::AttributeDescription;
use std::alloc::Global;

// The metadata of a pipe, whose name table is kept. `pending_header` is the record header that ends the
// metadata records, or `None` if the pipe ends.
#[derive(Drop)]
pub(crate) struct PipeOpening {
    pub(crate) perf_file: PerfFile,
    pub(crate) pending_header: Option<HeaderBytes>,
}

// The next part of a pipe opening: a metadata record, added, with its end offset; or the end of the metadata
// records, with the record header that ends them, if the pipe has one.
#[derive(Clone, Copy)]
pub(crate) enum NextInOpening {
    Record(u64),
    End(Option<HeaderBytes>),
}

// Reads `count` bytes into `body`, which replace its previous bytes.
fn read_metadata_body<R: Source>(
    source: &mut R,
    body: &mut Vec<u8>,
    count: usize,
) -> Result<(), Error>
    ensures reads { ReadsMetadataBody (R.state source.old) count result body.new.items (R.state source.new) }
    ensures pauses { PausesOnlyOnError (R.state source.old) result (R.state source.new) }
    ensures same_loan { R.loan source.new ≡ R.loan source.old }
{
    body.clear();
    Ok(append_exact(source, body, count)?)
}

// Reads the next metadata record and adds it to `metadata`, or reads the record header that ends the metadata
// records.
fn read_next<R: Source>(
    alloc: Global,
    source: &mut R,
    endian: Endianness,
    offset: u64,
    body: &mut Vec<u8>,
    metadata: &mut PipeMetadata,
) -> Result<NextInOpening, Error>
    ensures reads { ReadsNext endian offset (R.state source.old) metadata.old result
        (R.state source.new) metadata.new }
    ensures pauses { PausesOnlyWithoutHeader (R.state source.old) result (R.state source.new) }
    ensures same_loan { R.loan source.new ≡ R.loan source.old }
{
    let bytes = match read_header_bytes(source)? {
        Some(bytes) => bytes,
        None => return Ok(NextInOpening::End(None)),
    };
    let header = PerfEventHeader::from_bytes(endian, &bytes);
    let body_size = body_size(header)?;
    if !is_metadata(header.type_) {
        return Ok(NextInOpening::End(Some(bytes)));
    }
    let end = record_end(offset, header.size)?;
    read_metadata_body(source, body, body_size as usize)?;
    metadata.add_record(alloc, endian, header.type_, body.as_slice())?;
    Ok(NextInOpening::Record(end))
}

// Reads all metadata records and the record header that ends them, which is `None` if no whole record header
// remains.
fn read_metadata<R: Source>(
    alloc: Global,
    source: &mut R,
    endian: Endianness,
) -> Result<(PipeMetadata, Option<HeaderBytes>), Error>
    ensures reads { ReadsMetadata endian (R.state source.old) result (R.state source.new) }
    ensures pauses { PausesOnlyWithoutPendingHeader (R.state source.old) result (R.state source.new) }
    ensures same_loan { R.loan source.new ≡ R.loan source.old }
{
    let mut metadata = PipeMetadata::new(alloc);
    let mut body = Vec::new(alloc);
    let mut offset: u64 = 0;
    'records: loop {
        match read_next(alloc, source, endian, offset, &mut body, &mut metadata)? {
            NextInOpening::Record(end) => offset = end,
            NextInOpening::End(pending_header) => return Ok((metadata, pending_header)),
        }
    }
}

// Names the attributes by EVENT_DESC, and returns the table of the names. Fails without attributes, and if
// they are inconsistent.
fn name_consistent_attributes(
    alloc: Global,
    endian: Endianness,
    event_desc: Option<&[u8]>,
    attributes: &mut [AttributeDescription],
) -> Result<NameTable, Error>
    ensures { NamesConsistentAttributes endian (option_map (λ s. s.now) event_desc.entry) attributes.old
        result attributes.new }
{
    if attributes.is_empty() {
        return Err(Error::NoAttributes);
    }
    let name_table = NameTable::name_attributes(alloc, endian, event_desc, attributes)?;
    check_consistency(attributes)?;
    Ok(name_table)
}

// Builds the opening from the metadata and from the record header that ends the metadata records.
fn finish_opening(
    alloc: Global,
    endian: Endianness,
    metadata: PipeMetadata,
    pending_header: Option<HeaderBytes>,
) -> Result<PipeOpening, Error>
    ensures { FinishesOpening endian metadata pending_header result }
{
    let PipeMetadata {
        features,
        sections,
        attributes,
    } = metadata;
    let mut attributes = attributes;
    let event_desc = feature_bytes(&sections, Feature::EVENT_DESC);
    let name_table = name_consistent_attributes(alloc, endian, event_desc, &mut attributes)?;
    let perf_file = PerfFile {
        endian,
        features,
        sections,
        attributes,
        name_table: Some(name_table),
        first_id_index: FirstIdIndex::new(alloc),
    };
    Ok(PipeOpening {
        perf_file,
        pending_header,
    })
}

// Opens the pipe after its header, in this byte order.
fn open_after_header<R: Source>(
    alloc: Global,
    source: &mut R,
    endian: Endianness,
) -> Result<PipeOpening, Error>
    ensures opens { OpensAfterPipeHeader endian (R.state source.old) result (R.state source.new) }
    ensures pauses { PausesOnlyInEndedOpening (R.state source.old) result (R.state source.new) }
    ensures same_loan { R.loan source.new ≡ R.loan source.old }
{
    let (metadata, pending_header) = read_metadata(alloc, source, endian)?;
    finish_opening(alloc, endian, metadata, pending_header)
}

// Opens a pipe. Consumes its header, its metadata records and the record header that ends them, and no byte
// more.
pub(crate) fn open_pipe<R: Source>(alloc: Global, source: &mut R) -> Result<PipeOpening, Error>
    ensures reads { OpensPerfPipe (R.state source.old) result (R.state source.new) }
    ensures pauses { PausesOnlyInEndedOpening (R.state source.old) result (R.state source.new) }
    ensures same_loan { R.loan source.new ≡ R.loan source.old }
{
    let (header, is_complete) = PerfPipeHeader::parse_with_extra(source)?;
    let endian = endian_of_magic(header.magic)?;
    if !is_complete {
        return Err(Error::NoAttributes);
    }
    open_after_header(alloc, source, endian)
}
