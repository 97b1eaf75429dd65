//! The samples of a file in memory, in pages.

use linux_perf_data::in_memory::position::RecordPosition;
use perfdata_arrays::samples::file_samples;
use perfdata_arrays::samples::frame::FrameEntry;
use perfdata_arrays::samples::sample::Sample;
use perfdata_arrays::status::Status;
use std::alloc::Global;

/// Returns the number of samples of a file whose call chain has an address from `start` up to `end`.
pub fn samples_through(alloc: Global, bytes: &[u8], start: u64, end: u64) -> Result<u64, Status> {
    let mut position = RecordPosition {
        offset: 0,
        round: 0,
    };
    let mut samples = [Sample::default(); 64];
    let mut frames = [FrameEntry::default(); 1024];
    let mut found = 0u64;
    for _ in 0..u64::MAX {
        let page = file_samples(alloc, bytes, &mut position, &mut samples, &mut frames);
        if page.status != Status::Success {
            return Err(page.status);
        }
        if page.count == 0 {
            break;
        }
        for sample in samples.iter().take(page.count as usize) {
            let chain = frames.iter().skip(sample.frames_start as usize);
            let mut chain = chain.take(sample.frames_count as usize);
            if chain.any(|frame| frame.address >= start && frame.address < end) {
                found = found.saturating_add(1);
            }
        }
    }
    Ok(found)
}
