//! The formats of the records of events.
ghost use Rattle.linux_perf_data.specs.PerfFile.{attributes_of_file, endian_of_file};
ghost use Rattle.perfdata_stack_arrays.specs.Events.{IsFormatAt};

use linux_perf_data::PerfFile;
use perfdata_events::format::EventFormat;

// The format of the records of the attribute with an index; `None` if there is no such attribute.
pub(crate) fn event_format(perf_file: &PerfFile, attr_index: usize) -> Option<EventFormat>
    ensures { IsFormatAt (endian_of_file perf_file.now) (attributes_of_file perf_file.now) attr_index result }
{
    let description = perf_file.event_attributes().get(attr_index)?;
    Some(EventFormat::new(description.attributes(), perf_file.endian()))
}
