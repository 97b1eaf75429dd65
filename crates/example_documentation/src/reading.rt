//! The records of a file, and of a file in memory.

use linux_perf_data::in_memory::InMemoryReader;
use linux_perf_data::source::Counted;
use linux_perf_data::{Error, PerfFileReader, PerfFileRecord};
use std::alloc::Global;
use std::fs::File;
use std::io::BufReader;

/// Prints the offset and the type of each record of a kernel.
pub fn print_types(rt: &HostRuntime, path: &str) -> anyhow::Result<()> {
    let file = BufReader::new(rt.alloc(), File::open(rt, path)?)?;
    let reader = PerfFileReader::parse_file(rt.alloc(), Counted::new(file))?;
    let mut perf_file = reader.perf_file;
    let mut records = reader.record_iter;
    for _ in 0..u64::MAX {
        let Some((place, record)) = records.next_record(&mut perf_file)? else {
            break;
        };
        if let PerfFileRecord::EventRecord { event, .. } = record {
            println!(rt; "{}: type {}", place.offset, event.record_type.0)?;
        }
    }
    Ok(())
}

/// Returns the last record of a file in memory.
pub fn last_record<'a>(
    alloc: Global,
    bytes: &'a [u8],
) -> Result<Option<PerfFileRecord<'a>>, Error> {
    let reader = InMemoryReader::parse_file(alloc, bytes)?;
    let mut perf_file = reader.perf_file;
    let mut records = reader.records;
    let mut last = None;
    for _ in 0..u64::MAX {
        let Some((_place, record)) = records.next_record(&mut perf_file)? else {
            break;
        };
        last = Some(record);
    }
    Ok(last)
}
