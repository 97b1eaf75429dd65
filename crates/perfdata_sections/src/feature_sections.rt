//! The sections that contain attributes, strings and numbers.
ghost use Rattle.std.specs.Prelude.{◌≡◌, ◌≢◌, IfErr, string_bytes};
ghost use Rattle.std.specs.Option.{option_map};
ghost use Rattle.perfdata_sources.specs.Source.{State, PausesOnlyOnError};
ghost use Rattle.perfdata_sections.specs.AttributeDescription.{attr_in, name_in, ids_in};
ghost use Rattle.perfdata_sections.specs.AttrFrames.{AttrSectionNeedsMemory, ReadsFrame, ReadsFrameAt};
ghost use Rattle.perfdata_sections.specs.AttrFrames.{ReadsAttrSection};
ghost use Rattle.perfdata_sections.specs.declared.error.Error.TheVariants.{Memory};
ghost use Rattle.perfdata_sections.specs.EventDesc.{EventDescNeedsMemory, ReadsEventDesc};
ghost use Rattle.perfdata_sections.specs.EventTypes.{ReadsEventTypes};
ghost use Rattle.perfdata_sections.specs.SimpleperfAttrs.{ReadsSimpleperfAttrs};

use crate::error::{Error, ReadError};
use crate::event_type::SimplePerfEventType;
use crate::feature_sections::event_desc::read_event_desc;
use crate::feature_sections::event_types::read_descriptions;
use crate::feature_sections::simpleperf_attrs::read_simpleperf_attrs;
use perfdata_base::attr::{KNOWN_SIZE, PerfEventAttr, read_after_own_size, read_own_size};
use perfdata_base::raw::FileOrder;
use perfdata_base::section::PerfFileSection;
use perfdata_base::source::{PlacedSource, Source};
use std::alloc::Global;
use std::io::SeekFrom;

mod event_desc;
mod event_ids;
mod event_types;
mod header_string;
mod number_sections;
mod pmu_mappings;
mod simpleperf_attrs;

pub use header_string::{HeaderString, before_nul};
pub use number_sections::{ClockData, CompressionInfo, NrCpus, SampleTimeRange};
pub use pmu_mappings::PmuMappings;

/// An event's attribute, with its name and ids if they are known.
#[derive(Debug, Drop)]
pub struct AttributeDescription {
    /// What is recorded, and how.
    pub attr: PerfEventAttr,
    /// The event's name, if the recording contains it.
    pub name: Option<String>,
    /// The ids of the event's records.
    pub event_ids: Vec<u64>,
}

// Reads the attribute of a frame at the source's position.
fn read_attr_frame<R: Source, T: FileOrder>(
    source: &mut R,
    attr_size: u64,
) -> Result<PerfEventAttr, Error>
    ensures reads { ReadsFrame T.number_of attr_size (R.state source.old) result (R.state source.new) }
    ensures no_memory { IfErr result (λ e. e ≢ Memory) }
    ensures pauses { PausesOnlyOnError (R.state source.old) result (R.state source.new) }
    ensures same_loan { R.loan source.new ≡ R.loan source.old }
{
    let mut bytes = [0u8; KNOWN_SIZE];
    let own_size = match read_own_size::<R, T>(source, &mut bytes[..8]) {
        Ok(own_size) => own_size,
        Err(_) => return Err(Error::Read(ReadError::PerfEventAttr)),
    };
    if own_size as u64 > attr_size {
        return Err(Error::InconsistentAttributeSizes(own_size as u64, attr_size));
    }
    match read_after_own_size::<R, T>(source, &mut bytes, own_size) {
        Ok(attr) => Ok(attr),
        Err(_) => Err(Error::Read(ReadError::PerfEventAttr)),
    }
}

// Reads the attribute of a frame at the offset `at`.
fn seek_and_read_attr_frame<C: PlacedSource, T: FileOrder>(
    source: &mut C,
    at: u64,
    attr_size: u64,
) -> Result<PerfEventAttr, Error>
    ensures reads { ReadsFrameAt T.number_of attr_size (C.state source.old) at result (C.state source.new) }
    ensures no_memory { IfErr result (λ e. e ≢ Memory) }
    ensures pauses { PausesOnlyOnError (C.state source.old) result (C.state source.new) }
    ensures same_loan { C.loan source.new ≡ C.loan source.old }
{
    source.seek_to(SeekFrom::Start(at))?;
    read_attr_frame::<C, T>(source, attr_size)
}

impl AttributeDescription {
    /// Creates a description of an event with this attribute, name and ids.
    pub fn new(
        attr: PerfEventAttr,
        name: Option<String>,
        event_ids: Vec<u64>,
    ) -> AttributeDescription
        ensures attr { attr_in result ≡ attr }
        ensures name { name_in result ≡ option_map string_bytes name }
        ensures ids { ids_in result ≡ event_ids.items }
    {
        AttributeDescription {
            attr,
            name,
            event_ids,
        }
    }

    /// Replaces or removes the event's name.
    pub fn set_name(&mut self, name: Option<String>)
        ensures attr { attr_in self.new ≡ attr_in self.old }
        ensures name { name_in self.new ≡ option_map string_bytes name }
        ensures ids { ids_in self.new ≡ ids_in self.old }
    {
        self.name = name;
    }

    /// Returns the event's attribute.
    pub fn attributes(&self) -> &PerfEventAttr
        ensures { result.now ≡ attr_in self.now }
    {
        &self.attr
    }

    /// Returns the event's name, or `None` if the file doesn't contain it.
    pub fn name(&self) -> Option<&str>
        ensures { option_map (λ s. s.now) result ≡ name_in self.now }
    {
        self.name.as_deref()
    }

    /// Returns the ids of the event's records, which are empty if the file doesn't contain them.
    pub fn ids(&self) -> &[u64]
        ensures { result.now ≡ ids_in self.now }
    {
        &self.event_ids
    }

    /// Reads a section that consists of attr frames only, from a borrowed source.
    ///
    /// Frames of `attr_size` bytes each start at the section's offset, as many as fit into the section's
    /// size. A frame starts with its attribute. The descriptions have no names and no ids.
    ///
    /// Errors: `Read(PerfEventAttr)` if `attr_size` is 0 or the section ends past 2^64 - 1, in which case the
    /// source is unchanged; also if an attribute's own size is 1 to 63, or if the bytes of an attribute are
    /// truncated or a read of them fails. `InconsistentAttributeSizes(own, attr_size)` if an attribute's own
    /// size is above `attr_size`. `IoError` if a seek fails. `Memory` if memory runs out.
    pub fn parse_attr_section_from<C: PlacedSource, T: FileOrder>(
        alloc: Global,
        c: &mut C,
        section: &PerfFileSection,
        attr_size: u64,
    ) -> Result<Vec<AttributeDescription>, Error>
        ensures reads { ReadsAttrSection T.number_of attr_size section.now (C.state c.old) result
            (C.state c.new) }
        ensures memory { IfErr result (λ e. e ≡ Memory
            → AttrSectionNeedsMemory T.number_of attr_size section.now (C.state c.old)) }
        ensures pauses { PausesOnlyOnError (C.state c.old) result (C.state c.new) }
        ensures same_loan { C.loan c.new ≡ C.loan c.old }
    {
        if attr_size == 0 {
            return Err(Error::Read(ReadError::PerfEventAttr));
        }
        let Some(end) = section.offset.checked_add(section.size) else {
            return Err(Error::Read(ReadError::PerfEventAttr));
        };
        let mut all = Vec::new(alloc);
        let mut at = section.offset;
        'frames: while end - at >= attr_size {
            let attr = seek_and_read_attr_frame::<C, T>(c, at, attr_size)?;
            let description = AttributeDescription {
                attr,
                name: None,
                event_ids: Vec::new(alloc),
            };
            all.push(description)?;
            at += attr_size;
        }
        Ok(all)
    }

    /// Reads a section that consists of attr frames only, from an owned source. See
    /// `parse_attr_section_from`.
    pub fn parse_attr_section<C: PlacedSource + Drop, T: FileOrder>(
        alloc: Global,
        mut c: C,
        section: &PerfFileSection,
        attr_size: u64,
    ) -> Result<Vec<AttributeDescription>, Error>
        ensures reads { (final : State) × ReadsAttrSection T.number_of attr_size section.now
            (C.state c) result final }
        ensures memory { IfErr result (λ e. e ≡ Memory
            → AttrSectionNeedsMemory T.number_of attr_size section.now (C.state c)) }
    {
        AttributeDescription::parse_attr_section_from::<C, T>(alloc, &mut c, section, attr_size)
    }

    /// Reads the section EVENT_DESC at the position of a borrowed source.
    ///
    /// The section is a count of events and the size of a frame, of four bytes each, and then the events. An
    /// event is an attribute in a frame of that size, a four-byte count of ids, a string, and the ids, of
    /// eight bytes each. The string is the event's name; an event whose string isn't UTF-8 has no name.
    ///
    /// Errors: `Read(PerfEventAttr)` if an attribute's own size is 1 to 63, or if the bytes of an attribute
    /// are truncated or a read of them fails. `InconsistentAttributeSizes(own, attr_size)` if an attribute's
    /// own size is above that of its frame. `IoError` if other bytes are truncated or a read of them fails,
    /// or if the seek from an attribute to the end of its frame fails. `Memory` if memory runs out. A failed
    /// seek reports the source's own error, also if the source can't reach the target.
    pub fn parse_event_desc_section_from<C: PlacedSource, T: FileOrder>(
        alloc: Global,
        cursor: &mut C,
    ) -> Result<Vec<AttributeDescription>, Error>
        ensures reads { ReadsEventDesc T.number_of (C.state cursor.old) result (C.state cursor.new) }
        ensures memory { IfErr result (λ e. e ≡ Memory
            → EventDescNeedsMemory T.number_of (C.state cursor.old) (C.state cursor.new)) }
        ensures pauses { PausesOnlyOnError (C.state cursor.old) result (C.state cursor.new) }
        ensures same_loan { C.loan cursor.new ≡ C.loan cursor.old }
    {
        read_event_desc::<C, T>(alloc, cursor)
    }

    /// Reads the section EVENT_DESC at the position of an owned source. See `parse_event_desc_section_from`.
    pub fn parse_event_desc_section<C: PlacedSource + Drop, T: FileOrder>(
        alloc: Global,
        mut cursor: C,
    ) -> Result<Vec<AttributeDescription>, Error>
        ensures reads { (final : State) × ReadsEventDesc T.number_of (C.state cursor) result final }
        ensures memory { IfErr result (λ e. e ≡ Memory
            → (final : State) × EventDescNeedsMemory T.number_of (C.state cursor) final) }
    {
        AttributeDescription::parse_event_desc_section_from::<C, T>(alloc, &mut cursor)
    }

    /// Reads the event types section from a borrowed source.
    ///
    /// An entry is an attribute in a frame of `attr_size` bytes, and the offset and size of a section of ids,
    /// of eight bytes each. A rest of a section that is smaller than an entry or an id is ignored. All
    /// entries are read before any ids. The descriptions have no names.
    ///
    /// Errors: `Read(PerfEventAttr)` if the size of an entry or the end of a section is past 2^64 - 1, which
    /// is checked before the source is used for it; also if an attribute's own size is 1 to 63, or if the
    /// bytes of an attribute are truncated or a read of them fails. `InconsistentAttributeSizes(own,
    /// attr_size)` if an attribute's own size is above `attr_size`. `IoError` if a seek fails, or if other
    /// bytes are truncated or a read of them fails. `Memory` if memory runs out.
    pub fn parse_event_types_section_from<C: PlacedSource, T: FileOrder>(
        alloc: Global,
        cursor: &mut C,
        section: &PerfFileSection,
        attr_size: u64,
    ) -> Result<Vec<AttributeDescription>, Error>
        ensures reads { ReadsEventTypes T.number_of attr_size section.now (C.state cursor.old) result
            (C.state cursor.new) }
        ensures pauses { PausesOnlyOnError (C.state cursor.old) result (C.state cursor.new) }
        ensures same_loan { C.loan cursor.new ≡ C.loan cursor.old }
    {
        read_descriptions::<C, T>(alloc, cursor, section, attr_size, &[])
    }

    /// Reads the event types section from an owned source. See `parse_event_types_section_from`.
    pub fn parse_event_types_section<C: PlacedSource + Drop, T: FileOrder>(
        alloc: Global,
        mut cursor: C,
        section: &PerfFileSection,
        attr_size: u64,
    ) -> Result<Vec<AttributeDescription>, Error>
        ensures { (final : State) × ReadsEventTypes T.number_of attr_size section.now
            (C.state cursor) result final }
    {
        AttributeDescription::parse_event_types_section_from::<C, T>(
            alloc,
            &mut cursor,
            section,
            attr_size,
        )
    }

    /// Reads the attribute section of a simpleperf file from a borrowed source.
    ///
    /// The entries are those of `parse_event_types_section_from`, with frames of `attr_size - 16` bytes. The
    /// name of an entry is that of the element of `types` with the same index. An entry has no name if there
    /// is no such element.
    ///
    /// Errors: `Read(PerfEventAttr)` if `attr_size` is below 16; the source is unchanged then. Otherwise the
    /// errors of `parse_event_types_section_from` with `attr_size - 16`.
    pub fn parse_simpleperf_attr_section_from<C: PlacedSource, T: FileOrder>(
        alloc: Global,
        cursor: &mut C,
        section: &PerfFileSection,
        attr_size: u64,
        types: &[SimplePerfEventType],
    ) -> Result<Vec<AttributeDescription>, Error>
        ensures reads { ReadsSimpleperfAttrs T.number_of attr_size section.now types.now
            (C.state cursor.old) result (C.state cursor.new) }
        ensures pauses { PausesOnlyOnError (C.state cursor.old) result (C.state cursor.new) }
        ensures same_loan { C.loan cursor.new ≡ C.loan cursor.old }
    {
        read_simpleperf_attrs::<C, T>(alloc, cursor, section, attr_size, types)
    }

    /// Reads the attribute section of a simpleperf file from an owned source. See
    /// `parse_simpleperf_attr_section_from`.
    pub fn parse_simpleperf_attr_section<C: PlacedSource + Drop, T: FileOrder>(
        alloc: Global,
        mut cursor: C,
        section: &PerfFileSection,
        attr_size: u64,
        types: &[SimplePerfEventType],
    ) -> Result<Vec<AttributeDescription>, Error>
        ensures { (final : State) × ReadsSimpleperfAttrs T.number_of attr_size section.now types.now
            (C.state cursor) result final }
    {
        AttributeDescription::parse_simpleperf_attr_section_from::<C, T>(
            alloc,
            &mut cursor,
            section,
            attr_size,
            types,
        )
    }
}
