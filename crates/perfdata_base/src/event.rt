//! Record headers, record types, CPU modes and kernel records.

mod raw_event_record;

pub use perfdata_sources::event::{CpuMode, PerfEventHeader, RecordType, user_types};
pub use raw_event_record::RawEventRecord;
