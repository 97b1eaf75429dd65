//! The event types section: attributes, and the sections of their ids.
ghost use Rattle.std.specs.Prelude.{◌≡◌, ◌+◌, ◌*◌, ◌^◌, ◌<◌, length, IfOk, OnOk};
ghost use Rattle.perfdata_sources.specs.Source.{PausesOnlyOnError, at_offset};
ghost use Rattle.perfdata_sections.specs.steps.AttributeDescription.{CopiesName};
ghost use Rattle.perfdata_sections.specs.EventTypes.{type_name_at, ids_end, ReadsSectionEntryAt};
ghost use Rattle.perfdata_sections.specs.EventTypes.{ReadsEventTypeEntryAt, ReadsEventTypeEntries};
ghost use Rattle.perfdata_sections.specs.EventTypes.{ReadsSectionIds, DescribesEntries, ReadsDescriptions};

use crate::error::{Error, ReadError};
use crate::event_type::SimplePerfEventType;
use crate::feature_sections::event_ids::read_ids;
use crate::feature_sections::{AttributeDescription, seek_and_read_attr_frame};
use perfdata_base::attr::PerfEventAttr;
use perfdata_base::raw::FileOrder;
use perfdata_base::section::PerfFileSection;
use perfdata_base::source::PlacedSource;
use std::alloc::Global;
use std::io::SeekFrom;

// The size in bytes of the section entry that locates the ids of an event.
const IDS_ENTRY_SIZE: u64 = 16;

// An event's attribute, and the section of its ids.
#[derive(Clone, Copy)]
pub(crate) struct EventTypeEntry {
    attr: PerfEventAttr,
    ids: PerfFileSection,
}

// Reads a section entry at the offset `at`.
fn read_section_entry<C: PlacedSource, T: FileOrder>(
    source: &mut C,
    at: u64,
) -> Result<PerfFileSection, Error>
    ensures reads { ReadsSectionEntryAt T.number_of (C.state source.old) at result (C.state source.new) }
    ensures position { OnOk result ((C.state source.new).position
        ≡ at_offset (at + 16) (C.state source.old).position) }
    ensures pauses { PausesOnlyOnError (C.state source.old) result (C.state source.new) }
    ensures same_loan { C.loan source.new ≡ C.loan source.old }
{
    source.seek_to(SeekFrom::Start(at))?;
    Ok(PerfFileSection::parse_from::<C, T>(source)?)
}

// Reads the entry of an event at the offset `at`: a frame, and the section entry of its ids.
fn read_entry<C: PlacedSource, T: FileOrder>(
    source: &mut C,
    at: u64,
    attr_size: u64,
) -> Result<EventTypeEntry, Error>
    requires { at + attr_size < 2 ^ 64 }
    ensures reads { ReadsEventTypeEntryAt T.number_of attr_size (C.state source.old) at result
        (C.state source.new) }
    ensures position { OnOk result ((C.state source.new).position
        ≡ at_offset (at + attr_size + 16) (C.state source.old).position) }
    ensures pauses { PausesOnlyOnError (C.state source.old) result (C.state source.new) }
    ensures same_loan { C.loan source.new ≡ C.loan source.old }
{
    let attr = seek_and_read_attr_frame::<C, T>(source, at, attr_size)?;
    let ids = read_section_entry::<C, T>(source, at + attr_size)?;
    Ok(EventTypeEntry { attr, ids })
}

// Reads all whole entries of a section.
fn read_entries<C: PlacedSource, T: FileOrder>(
    alloc: Global,
    source: &mut C,
    section: &PerfFileSection,
    attr_size: u64,
) -> Result<Vec<EventTypeEntry>, Error>
    requires end_fits { section.now.offset + section.now.size < 2 ^ 64 }
    requires step_fits { attr_size + 16 < 2 ^ 64 }
    ensures reads { ReadsEventTypeEntries T.number_of attr_size (C.state source.old) section.now result
        (C.state source.new) }
    ensures position { IfOk result (λ all. 0 < length all.items → (C.state source.new).position
        ≡ at_offset (section.now.offset + length all.items * (attr_size + 16))
        (C.state source.old).position) }
    ensures pauses { PausesOnlyOnError (C.state source.old) result (C.state source.new) }
    ensures same_loan { C.loan source.new ≡ C.loan source.old }
{
    let end = section.offset + section.size;
    let step = attr_size + IDS_ENTRY_SIZE;
    let mut all = Vec::new(alloc);
    let mut at = section.offset;
    'entries: while end - at >= step {
        let entry = read_entry::<C, T>(source, at, attr_size)?;
        all.push(entry)?;
        at += step;
    }
    Ok(all)
}

// Reads all whole ids of a section.
fn read_section_ids<C: PlacedSource, T: FileOrder>(
    alloc: Global,
    source: &mut C,
    section: &PerfFileSection,
) -> Result<Vec<u64>, Error>
    ensures reads { ReadsSectionIds T.number_of (C.state source.old) section.now result (C.state source.new) }
    ensures position { OnOk result ((C.state source.new).position
        ≡ at_offset (ids_end section.now) (C.state source.old).position) }
    ensures pauses { PausesOnlyOnError (C.state source.old) result (C.state source.new) }
    ensures same_loan { C.loan source.new ≡ C.loan source.old }
{
    if section.offset > u64::MAX - section.size {
        return Err(Error::Read(ReadError::PerfEventAttr));
    }
    source.seek_to(SeekFrom::Start(section.offset))?;
    Ok(read_ids::<C, T>(alloc, source, section.size / 8)?)
}

// Clones the name of the event type at an index, if there is one.
fn clone_type_name(types: &[SimplePerfEventType], index: usize) -> Result<Option<String>, Error>
    ensures { CopiesName (type_name_at types.now index) result }
{
    match types.get(index) {
        Some(event) => Ok(Some(event.name.clone()?)),
        None => Ok(None),
    }
}

// Describes entries by their attributes, their ids, and the names of the event types with the same indices.
fn describe_entries<C: PlacedSource, T: FileOrder>(
    alloc: Global,
    source: &mut C,
    entries: &[EventTypeEntry],
    types: &[SimplePerfEventType],
) -> Result<Vec<AttributeDescription>, Error>
    ensures reads { DescribesEntries T.number_of (type_name_at types.now)
        (C.state source.old) entries.now result (C.state source.new) }
    ensures pauses { PausesOnlyOnError (C.state source.old) result (C.state source.new) }
    ensures same_loan { C.loan source.new ≡ C.loan source.old }
{
    let mut all = Vec::new(alloc);
    'entries: for (index, entry) in entries.iter().enumerate() {
        let event_ids = read_section_ids::<C, T>(alloc, source, &entry.ids)?;
        let name = clone_type_name(types, index)?;
        let description = AttributeDescription {
            attr: entry.attr,
            name,
            event_ids,
        };
        all.push(description)?;
    }
    Ok(all)
}

// Reads the attributes of a section of entries with frames of `attr_size` bytes. The event types with the
// same indices provide the names. All entries are read before any ids.
pub(crate) fn read_descriptions<C: PlacedSource, T: FileOrder>(
    alloc: Global,
    source: &mut C,
    section: &PerfFileSection,
    attr_size: u64,
    types: &[SimplePerfEventType],
) -> Result<Vec<AttributeDescription>, Error>
    ensures reads { ReadsDescriptions T.number_of attr_size (type_name_at types.now) section.now
        (C.state source.old) result (C.state source.new) }
    ensures pauses { PausesOnlyOnError (C.state source.old) result (C.state source.new) }
    ensures same_loan { C.loan source.new ≡ C.loan source.old }
{
    if attr_size > u64::MAX - IDS_ENTRY_SIZE || section.offset > u64::MAX - section.size {
        return Err(Error::Read(ReadError::PerfEventAttr));
    }
    let entries = read_entries::<C, T>(alloc, source, section, attr_size)?;
    describe_entries::<C, T>(alloc, source, &entries, types)
}
