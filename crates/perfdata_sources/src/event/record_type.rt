//! The types of records and their names.
ghost use Rattle.std.specs.Prelude.{◌≡◌, ◌<◌, ◌≤◌, ◌↔◌, IsTrue};
ghost use Rattle.std.specs.Option.{option_map};
ghost use Rattle.perfdata_sources.specs.RecordType.{record_type_name, kernel_type_name, perf_type_name};
ghost use Rattle.perfdata_sources.specs.RecordType.{simpleperf_type_name};

use crate::event::user_types::*;

// The first type that the kernel leaves to programs (`PERF_RECORD_USER_TYPE_START`).
const FIRST_USER_TYPE: u32 = 64;

/// The type of a record.
#[derive(Clone, Copy, Debug, PartialEq, Eq, Hash, PartialOrd, Ord)]
pub struct RecordType(pub u32);

impl RecordType {
    /// Returns whether the kernel writes records of this type: those below 64.
    pub fn is_builtin_type(&self) -> bool
        ensures { IsTrue result ↔ (self.now.0 < 64) }
    {
        self.0 < FIRST_USER_TYPE
    }

    /// Returns whether the program `perf` itself writes records of this type: those of 64 and more.
    pub fn is_user_type(&self) -> bool
        ensures { IsTrue result ↔ (64 ≤ self.now.0) }
    {
        self.0 >= FIRST_USER_TYPE
    }
}

/// The types of the kernel's records (`perf_event_type` in Linux's `perf_event.h`).
impl RecordType {
    /// A mapping of executable memory.
    pub const MMAP: RecordType = RecordType(1);

    /// Records that were lost because the ring buffer was full.
    pub const LOST: RecordType = RecordType(2);

    /// The name of a thread, which changed.
    pub const COMM: RecordType = RecordType(3);

    /// The end of a thread.
    pub const EXIT: RecordType = RecordType(4);

    /// An event that stops for a while because it is too frequent.
    pub const THROTTLE: RecordType = RecordType(5);

    /// A throttled event that continues.
    pub const UNTHROTTLE: RecordType = RecordType(6);

    /// A new process or thread.
    pub const FORK: RecordType = RecordType(7);

    /// The values of a counter.
    pub const READ: RecordType = RecordType(8);

    /// A sample of an event.
    pub const SAMPLE: RecordType = RecordType(9);

    /// A mapping of memory, with the file's inode or build id.
    pub const MMAP2: RecordType = RecordType(10);

    /// Data that was written to the AUX area.
    pub const AUX: RecordType = RecordType(11);

    /// The start of an instruction trace.
    pub const ITRACE_START: RecordType = RecordType(12);

    /// Samples that the hardware lost.
    pub const LOST_SAMPLES: RecordType = RecordType(13);

    /// A context switch of the recorded thread.
    pub const SWITCH: RecordType = RecordType(14);

    /// A context switch on a recorded processor, with the other thread.
    pub const SWITCH_CPU_WIDE: RecordType = RecordType(15);

    /// The namespaces of a thread.
    pub const NAMESPACES: RecordType = RecordType(16);

    /// A kernel symbol that is registered or removed.
    pub const KSYMBOL: RecordType = RecordType(17);

    /// A BPF program that is loaded or unloaded.
    pub const BPF_EVENT: RecordType = RecordType(18);

    /// A control group with its path.
    pub const CGROUP: RecordType = RecordType(19);

    /// Kernel code that was changed.
    pub const TEXT_POKE: RecordType = RecordType(20);

    /// The hardware's identifier of an event whose output is in the AUX area.
    pub const AUX_OUTPUT_HW_ID: RecordType = RecordType(21);

    /// Returns the name of the type: that of the kernel's constant without `PERF_RECORD_` below 64; that of
    /// perf's from 64 on (`perf_user_event_type` in Linux's `tools/perf`); that of simpleperf's from 32,769
    /// on, after `SIMPLEPERF_`. `None` if it has none.
    pub fn name(&self) -> Option<&'static str>
        ensures { option_map (λ s. s.now) result ≡ record_type_name self.now.0 }
    {
        kernel_type_name(*self)
            .or(perf_type_name(self.0))
            .or(simpleperf_type_name(self.0))
    }
}

// The name of a type of the kernel's records (`perf_event_type` in Linux's `perf_event.h`).
#[tactic(auto, unfolding(crate::specs::RecordType::kernel_type_name))]
fn kernel_type_name(record_type: RecordType) -> Option<&'static str>
    ensures { option_map (λ s. s.now) result ≡ kernel_type_name record_type.0 }
{
    match record_type {
        RecordType::MMAP => Some("MMAP"),
        RecordType::LOST => Some("LOST"),
        RecordType::COMM => Some("COMM"),
        RecordType::EXIT => Some("EXIT"),
        RecordType::THROTTLE => Some("THROTTLE"),
        RecordType::UNTHROTTLE => Some("UNTHROTTLE"),
        RecordType::FORK => Some("FORK"),
        RecordType::READ => Some("READ"),
        RecordType::SAMPLE => Some("SAMPLE"),
        RecordType::MMAP2 => Some("MMAP2"),
        RecordType::AUX => Some("AUX"),
        RecordType::ITRACE_START => Some("ITRACE_START"),
        RecordType::LOST_SAMPLES => Some("LOST_SAMPLES"),
        RecordType::SWITCH => Some("SWITCH"),
        RecordType::SWITCH_CPU_WIDE => Some("SWITCH_CPU_WIDE"),
        RecordType::NAMESPACES => Some("NAMESPACES"),
        RecordType::KSYMBOL => Some("KSYMBOL"),
        RecordType::BPF_EVENT => Some("BPF_EVENT"),
        RecordType::CGROUP => Some("CGROUP"),
        RecordType::TEXT_POKE => Some("TEXT_POKE"),
        RecordType::AUX_OUTPUT_HW_ID => Some("AUX_OUTPUT_HW_ID"),
        _ => None,
    }
}

// The name of a type of perf's records (`perf_user_event_type` in the sources of Linux's perf).
#[tactic(auto, unfolding(crate::specs::RecordType::perf_type_name))]
fn perf_type_name(number: u32) -> Option<&'static str>
    ensures { option_map (λ s. s.now) result ≡ perf_type_name number }
{
    match number {
        PERF_RECORD_HEADER_ATTR => Some("HEADER_ATTR"),
        PERF_RECORD_HEADER_EVENT_TYPE => Some("HEADER_EVENT_TYPE"),
        PERF_RECORD_HEADER_TRACING_DATA => Some("HEADER_TRACING_DATA"),
        PERF_RECORD_HEADER_BUILD_ID => Some("HEADER_BUILD_ID"),
        PERF_RECORD_FINISHED_ROUND => Some("FINISHED_ROUND"),
        PERF_RECORD_ID_INDEX => Some("ID_INDEX"),
        PERF_RECORD_AUXTRACE_INFO => Some("AUXTRACE_INFO"),
        PERF_RECORD_AUXTRACE => Some("AUXTRACE"),
        PERF_RECORD_AUXTRACE_ERROR => Some("AUXTRACE_ERROR"),
        PERF_RECORD_THREAD_MAP => Some("THREAD_MAP"),
        PERF_RECORD_CPU_MAP => Some("CPU_MAP"),
        PERF_RECORD_STAT_CONFIG => Some("STAT_CONFIG"),
        PERF_RECORD_STAT => Some("STAT"),
        PERF_RECORD_STAT_ROUND => Some("STAT_ROUND"),
        PERF_RECORD_EVENT_UPDATE => Some("EVENT_UPDATE"),
        PERF_RECORD_TIME_CONV => Some("TIME_CONV"),
        PERF_RECORD_HEADER_FEATURE => Some("HEADER_FEATURE"),
        PERF_RECORD_COMPRESSED => Some("COMPRESSED"),
        PERF_RECORD_FINISHED_INIT => Some("FINISHED_INIT"),
        PERF_RECORD_COMPRESSED2 => Some("COMPRESSED2"),
        _ => None,
    }
}

// The name of a type of simpleperf's records.
#[tactic(auto, unfolding(crate::specs::RecordType::simpleperf_type_name))]
fn simpleperf_type_name(number: u32) -> Option<&'static str>
    ensures { option_map (λ s. s.now) result ≡ simpleperf_type_name number }
{
    match number {
        SIMPLE_PERF_RECORD_KERNEL_SYMBOL => Some("SIMPLEPERF_KERNEL_SYMBOL"),
        SIMPLE_PERF_RECORD_DSO => Some("SIMPLEPERF_DSO"),
        SIMPLE_PERF_RECORD_SYMBOL => Some("SIMPLEPERF_SYMBOL"),
        SIMPLE_PERF_RECORD_SPLIT => Some("SIMPLEPERF_SPLIT"),
        SIMPLE_PERF_RECORD_SPLIT_END => Some("SIMPLEPERF_SPLIT_END"),
        SIMPLE_PERF_RECORD_EVENT_ID => Some("SIMPLEPERF_EVENT_ID"),
        SIMPLE_PERF_RECORD_CALLCHAIN => Some("SIMPLEPERF_CALLCHAIN"),
        SIMPLE_PERF_RECORD_UNWINDING_RESULT => Some("SIMPLEPERF_UNWINDING_RESULT"),
        SIMPLE_PERF_RECORD_TRACING_DATA => Some("SIMPLEPERF_TRACING_DATA"),
        _ => None,
    }
}
