//! The section EVENT_DESC: attributes with names and ids.
ghost use Rattle.std.specs.Prelude.{◌≡◌, ◌≢◌, IfErr};
ghost use Rattle.perfdata_sources.specs.Source.{PausesOnlyOnError};
ghost use Rattle.perfdata_sections.specs.ParsedPart.{NoPauseIfOutOfMemory};
ghost use Rattle.perfdata_sections.specs.EventDesc.{EventNeedsMemory, EventsNeedMemory, EventDescNeedsMemory};
ghost use Rattle.perfdata_sections.specs.EventDesc.{ReadsNameAndIds, ReadsPaddedFrame, ReadsEvent};
ghost use Rattle.perfdata_sections.specs.EventDesc.{ReadsEvents, ReadsEventDesc};
ghost use Rattle.perfdata_sections.specs.declared.error.Error.TheVariants.{Memory as OfMemory};

use crate::error::Error;
use crate::feature_sections::event_ids::read_ids;
use crate::feature_sections::header_string::HeaderString;
use crate::feature_sections::{AttributeDescription, read_attr_frame};
use perfdata_base::attr::PerfEventAttr;
use perfdata_base::raw::FileOrder;
use perfdata_base::source::{AppendError, PlacedSource, Source, read_exact};
use std::alloc::Global;
use std::io::SeekFrom;

// The part of an event after its frame.
#[derive(Drop)]
pub(crate) struct NameAndIds {
    name: Option<String>,
    event_ids: Vec<u64>,
}

// Reads the part of an event after its frame: a four-byte count of ids, the name, and the ids.
fn read_name_and_ids<R: Source, T: FileOrder>(
    alloc: Global,
    source: &mut R,
) -> Result<NameAndIds, AppendError>
    ensures reads { ReadsNameAndIds T.number_of (R.state source.old) result (R.state source.new) }
    ensures pauses { PausesOnlyOnError (R.state source.old) result (R.state source.new) }
    ensures memory { NoPauseIfOutOfMemory (R.state source.old) result (R.state source.new) }
    ensures same_loan { R.loan source.new ≡ R.loan source.old }
{
    let mut count = [0u8; 4];
    read_exact(source, &mut count)?;
    let name = HeaderString::read_from::<R, T>(alloc, source)?;
    let event_ids = read_ids::<R, T>(alloc, source, T::read_u32(&count) as u64)?;
    Ok(NameAndIds { name, event_ids })
}

// Reads the attribute of a frame and seeks to the end of the frame. The padding after the attribute may be
// missing from the source.
fn read_padded_frame<C: PlacedSource, T: FileOrder>(
    source: &mut C,
    attr_size: u32,
) -> Result<PerfEventAttr, Error>
    ensures reads { ReadsPaddedFrame T.number_of attr_size (C.state source.old) result (C.state source.new) }
    ensures no_memory { IfErr result (λ e. e ≢ OfMemory) }
    ensures pauses { PausesOnlyOnError (C.state source.old) result (C.state source.new) }
    ensures same_loan { C.loan source.new ≡ C.loan source.old }
{
    let attr = read_attr_frame::<C, T>(source, attr_size as u64)?;
    let padding = attr_size - attr.size;
    if padding == 0 {
        return Ok(attr);
    }
    source.seek_to(SeekFrom::Current(padding as i64))?;
    Ok(attr)
}

// Reads an event at the source's position.
fn read_event<C: PlacedSource, T: FileOrder>(
    alloc: Global,
    source: &mut C,
    attr_size: u32,
) -> Result<AttributeDescription, Error>
    ensures reads { ReadsEvent T.number_of attr_size (C.state source.old) result (C.state source.new) }
    ensures needs_memory { IfErr result (λ e. e ≡ OfMemory
        → EventNeedsMemory T.number_of attr_size (C.state source.old) (C.state source.new)) }
    ensures pauses { PausesOnlyOnError (C.state source.old) result (C.state source.new) }
    ensures same_loan { C.loan source.new ≡ C.loan source.old }
{
    let attr = read_padded_frame::<C, T>(source, attr_size)?;
    let name_and_ids = read_name_and_ids::<C, T>(alloc, source)?;
    Ok(AttributeDescription {
        attr,
        name: name_and_ids.name,
        event_ids: name_and_ids.event_ids,
    })
}

// Reads `count` events at the source's position.
fn read_events<C: PlacedSource, T: FileOrder>(
    alloc: Global,
    source: &mut C,
    attr_size: u32,
    count: u32,
) -> Result<Vec<AttributeDescription>, Error>
    ensures reads { ReadsEvents T.number_of attr_size count (C.state source.old) result (C.state source.new) }
    ensures needs_memory { IfErr result (λ e. e ≡ OfMemory
        → EventsNeedMemory T.number_of attr_size count (C.state source.old) (C.state source.new)) }
    ensures pauses { PausesOnlyOnError (C.state source.old) result (C.state source.new) }
    ensures same_loan { C.loan source.new ≡ C.loan source.old }
{
    let mut all = Vec::new(alloc);
    'events: for _index in 0..count {
        let description = read_event::<C, T>(alloc, source, attr_size)?;
        all.push(description)?;
    }
    Ok(all)
}

// Reads the events of a section EVENT_DESC at the source's position.
pub(crate) fn read_event_desc<C: PlacedSource, T: FileOrder>(
    alloc: Global,
    source: &mut C,
) -> Result<Vec<AttributeDescription>, Error>
    ensures reads { ReadsEventDesc T.number_of (C.state source.old) result (C.state source.new) }
    ensures needs_memory { IfErr result (λ e. e ≡ OfMemory
        → EventDescNeedsMemory T.number_of (C.state source.old) (C.state source.new)) }
    ensures pauses { PausesOnlyOnError (C.state source.old) result (C.state source.new) }
    ensures same_loan { C.loan source.new ≡ C.loan source.old }
{
    let mut header = [0u8; 8];
    read_exact(source, &mut header)?;
    let count = T::read_u32(&header);
    let attr_size = T::read_u32(&header[4..]);
    read_events::<C, T>(alloc, source, attr_size, count)
}
