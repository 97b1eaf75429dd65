//! The names of events.

use linux_perf_data::AttributeDescription;

// The type of the kernel's events of the hardware (`PERF_TYPE_HARDWARE`).
const HARDWARE: u32 = 0;

// The type of the kernel's own events (`PERF_TYPE_SOFTWARE`).
const SOFTWARE: u32 = 1;

// The bits of the configuration that select an event of the hardware. The others select the processor.
const HARDWARE_BITS: u64 = 0xffff_ffff;

// The names of the events of the hardware, as perf prints them.
const HARDWARE_NAMES: [&str; 10] = [
    "cycles",
    "instructions",
    "cache-references",
    "cache-misses",
    "branches",
    "branch-misses",
    "bus-cycles",
    "stalled-cycles-frontend",
    "stalled-cycles-backend",
    "ref-cycles",
];

// The names of the kernel's own events, as perf prints them.
const SOFTWARE_NAMES: [&str; 12] = [
    "cpu-clock",
    "task-clock",
    "page-faults",
    "context-switches",
    "cpu-migrations",
    "minor-faults",
    "major-faults",
    "alignment-faults",
    "emulation-faults",
    "dummy",
    "bpf-output",
    "cgroup-switches",
];

// Returns the name of an index.
fn listed_name(names: &[&'static str], index: u64) -> Option<&'static str> {
    names.get(usize::try_from(index).ok()?).copied()
}

/// Returns the recorded name of an event, or else the name that perf gives to an event of its type and
/// configuration.
pub fn event_name(event: &AttributeDescription) -> Option<&str> {
    let attr = event.attributes();
    match (event.name(), attr.type_) {
        (Some(name), _) => Some(name),
        (None, HARDWARE) => listed_name(&HARDWARE_NAMES, attr.config & HARDWARE_BITS),
        (None, SOFTWARE) => listed_name(&SOFTWARE_NAMES, attr.config),
        (None, _) => None,
    }
}
