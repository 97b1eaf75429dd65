//! Which samples the options select.

use crate::arguments::missing_cpu_error;
use perfdata_events::sample::SampleRecord;
use perfdata_events::sample_id::Task;
use perfdata_selection::filter::{SampleFilter, SampleOrigin};
use perfdata_spaces::address_spaces::AddressSpaces;
use std::io;

// The process and the thread of a sample without them, which no option names.
const NO_TASK: Task = Task { pid: -1, tid: -1 };

/// Returns whether a sample is selected. `spaces` have the names that threads have at its time.
///
/// Fails if processors are selected and the sample has none.
pub fn is_selected(
    filter: &SampleFilter<'_>,
    spaces: &AddressSpaces,
    sample: &SampleRecord<'_>,
) -> io::Result<bool> {
    if sample.cpu.is_none() && !filter.cpus.is_empty() {
        return Err(missing_cpu_error());
    }
    let task = sample.task.unwrap_or(NO_TASK);
    let comm = if filter.thread_names.is_empty() {
        None
    } else {
        spaces.comm(task.tid)
    };
    Ok(filter.selects(&SampleOrigin {
        comm,
        pid: task.pid,
        tid: task.tid,
        cpu: sample.cpu,
        time: sample.timestamp,
    }))
}

/// Returns whether a sample with fields that aren't known is selected.
pub fn is_undecoded_selected(filter: &SampleFilter<'_>) -> bool {
    filter.selects(&SampleOrigin {
        comm: None,
        pid: NO_TASK.pid,
        tid: NO_TASK.tid,
        cpu: None,
        time: None,
    })
}
