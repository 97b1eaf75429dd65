//! The attribute section of a simpleperf file.
ghost use Rattle.std.specs.Prelude.{◌≡◌};
ghost use Rattle.perfdata_sources.specs.Source.{PausesOnlyOnError};
ghost use Rattle.perfdata_sections.specs.SimpleperfAttrs.{ReadsSimpleperfAttrs};

use crate::error::{Error, ReadError};
use crate::event_type::SimplePerfEventType;
use crate::feature_sections::AttributeDescription;
use crate::feature_sections::event_types::read_descriptions;
use perfdata_base::raw::FileOrder;
use perfdata_base::section::PerfFileSection;
use perfdata_base::source::PlacedSource;
use std::alloc::Global;

// Reads the attributes of the attribute section of a simpleperf file.
pub(crate) fn read_simpleperf_attrs<C: PlacedSource, T: FileOrder>(
    alloc: Global,
    source: &mut C,
    section: &PerfFileSection,
    attr_size: u64,
    types: &[SimplePerfEventType],
) -> Result<Vec<AttributeDescription>, Error>
    ensures reads { ReadsSimpleperfAttrs T.number_of attr_size section.now types.now
        (C.state source.old) result (C.state source.new) }
    ensures pauses { PausesOnlyOnError (C.state source.old) result (C.state source.new) }
    ensures same_loan { C.loan source.new ≡ C.loan source.old }
{
    let Some(frame_size) = attr_size.checked_sub(PerfFileSection::STRUCT_SIZE) else {
        return Err(Error::Read(ReadError::PerfEventAttr));
    };
    read_descriptions::<C, T>(alloc, source, section, frame_size, types)
}
