//! Record type numbers of perf and simpleperf.

/// An event's attribute and the ids of its records.
pub const PERF_RECORD_HEADER_ATTR: u32 = 64;

/// The name of an event type.
pub const PERF_RECORD_HEADER_EVENT_TYPE: u32 = 65;

/// The size of the tracing data that follows the record, in bytes.
pub const PERF_RECORD_HEADER_TRACING_DATA: u32 = 66;

/// The build id of a mapped file.
pub const PERF_RECORD_HEADER_BUILD_ID: u32 = 67;

/// A round marker: the records before it are older than all records two markers later.
pub const PERF_RECORD_FINISHED_ROUND: u32 = 68;

/// The events that the ids of records belong to.
pub const PERF_RECORD_ID_INDEX: u32 = 69;

/// The format of the aux data in records of type `PERF_RECORD_AUXTRACE`.
pub const PERF_RECORD_AUXTRACE_INFO: u32 = 70;

/// An auxtrace record. The size in its record header doesn't include the aux data that follows.
pub const PERF_RECORD_AUXTRACE: u32 = 71;

/// An error that occurred while aux data was recorded.
pub const PERF_RECORD_AUXTRACE_ERROR: u32 = 72;

/// The recorded threads.
pub const PERF_RECORD_THREAD_MAP: u32 = 73;

/// The recorded CPUs.
pub const PERF_RECORD_CPU_MAP: u32 = 74;

/// The options of a counting run.
pub const PERF_RECORD_STAT_CONFIG: u32 = 75;

/// The value of a counter.
pub const PERF_RECORD_STAT: u32 = 76;

/// The end of a round of counter values.
pub const PERF_RECORD_STAT_ROUND: u32 = 77;

/// Later information on an event: its unit, scale, name or CPUs.
pub const PERF_RECORD_EVENT_UPDATE: u32 = 78;

/// The conversion of a CPU's counter to time.
pub const PERF_RECORD_TIME_CONV: u32 = 79;

/// The data of a feature section.
pub const PERF_RECORD_HEADER_FEATURE: u32 = 80;

/// A record whose body contains compressed records.
pub const PERF_RECORD_COMPRESSED: u32 = 81;

/// The end of the records that describe what ran before the recording.
pub const PERF_RECORD_FINISHED_INIT: u32 = 82;

/// Like `PERF_RECORD_COMPRESSED`, but the body contains the size of its compressed data.
pub const PERF_RECORD_COMPRESSED2: u32 = 83;

/// A symbol table of the kernel (simpleperf).
pub const SIMPLE_PERF_RECORD_KERNEL_SYMBOL: u32 = 32769;

/// A file with symbols (simpleperf).
pub const SIMPLE_PERF_RECORD_DSO: u32 = 32770;

/// A symbol (simpleperf).
pub const SIMPLE_PERF_RECORD_SYMBOL: u32 = 32771;

/// A part of a record that is too long for a single record (simpleperf).
pub const SIMPLE_PERF_RECORD_SPLIT: u32 = 32772;

/// The end of a split record (simpleperf).
pub const SIMPLE_PERF_RECORD_SPLIT_END: u32 = 32773;

/// The events that the ids of records belong to (simpleperf).
pub const SIMPLE_PERF_RECORD_EVENT_ID: u32 = 32774;

/// A call chain (simpleperf).
pub const SIMPLE_PERF_RECORD_CALLCHAIN: u32 = 32775;

/// The result of unwinding a sample's stack (simpleperf).
pub const SIMPLE_PERF_RECORD_UNWINDING_RESULT: u32 = 32776;

/// The formats of tracepoints (simpleperf).
pub const SIMPLE_PERF_RECORD_TRACING_DATA: u32 = 32777;
