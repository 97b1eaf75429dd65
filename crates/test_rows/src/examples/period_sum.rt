//! Adds up the periods of a recording's samples.
use linux_perf_data::source::PlacedSource;
use linux_perf_data::{Error, PerfFileReader, PerfFileRecord};
use perfdata_events::event::EventRecord;
use perfdata_events::format::EventFormat;
use std::alloc::Global;

/// The sum of the periods of a file's samples.
pub fn period_sum<C: PlacedSource + Drop>(alloc: Global, file: C) -> Result<u64, Error> {
    let reader = PerfFileReader::parse_file(alloc, file)?;
    let (mut perf_file, mut records) = (reader.perf_file, reader.record_iter);
    let mut sum = 0u64;
    for _ in 0..u64::MAX {
        let Some((_, record)) = records.next_record(&mut perf_file)? else {
            break;
        };
        if let PerfFileRecord::EventRecord { attr_index, event } = record
            && let Some(description) = perf_file.event_attributes().get(attr_index)
        {
            let format = EventFormat::with_little_endian_flags(
                description.attributes(),
                perf_file.endian(),
            );
            if let EventRecord::Sample(sample) = format.parse(&event)? {
                sum = sum.saturating_add(sample.period.unwrap_or(0));
            }
        }
    }
    Ok(sum)
}
