//! Counts the samples of the perf.data files in its arguments.
#![tactic(auto)]

use linux_perf_data::event::RecordType;
use linux_perf_data::source::{Counted, Source};
use linux_perf_data::{Error, PerfFileReader, PerfFileRecord};
use std::env;
use std::fs::File;
use std::io::BufReader;

fn count_samples<R: Source + Drop>(reader: PerfFileReader<R>) -> Result<u64, Error> {
    let mut perf_file = reader.perf_file;
    let mut records = reader.record_iter;
    let mut count = 0u64;
    for _ in 0..u64::MAX {
        let Some((_place, record)) = records.next_record(&mut perf_file)? else {
            break;
        };
        if let PerfFileRecord::EventRecord { event, .. } = record {
            if event.record_type == RecordType::SAMPLE {
                count = count.saturating_add(1);
            }
        }
    }
    Ok(count)
}

fn main(rt: HostRuntime) -> anyhow::Result<()> {
    for path in env::args(&rt)?.skip(1) {
        let file = BufReader::new(rt.alloc(), File::open(&rt, path.as_str())?)?;
        let reader = PerfFileReader::parse_file(rt.alloc(), Counted::new(file))?;
        println!(rt; "{path}: {} samples", count_samples(reader)?)?;
    }
    Ok(())
}
