//! Records as the reader returns them, and the types of the records that tools write.
ghost use Rattle.std.specs.Prelude.{◌≡◌, ◌≤◌, IsSome, IfSome, ◌↔◌, Some};
ghost use Rattle.std.specs.Option.{option_map};
ghost use Rattle.perfdata_records.specs.UserTypeNames.{user_type_name, user_type_text};

pub use crate::user_record::{HeaderAttr, HeaderFeature, RawUserRecord, UserRecord};
use perfdata_base::event::{RawEventRecord, RecordType};
use perfdata_base::raw::{Endianness, RawData};
use perfdata_sections::constants::*;
use std::fmt;

/// The type of a record that a tool wrote, which is 64 or above.
#[derive(Clone, Copy, PartialEq, Eq, Hash, PartialOrd, Ord)]
pub struct UserRecordType {
    record_type: RecordType,
    ghost is_user_type: { 64 ≤ record_type.0 },
}

/// The types that perf and simpleperf write.
impl UserRecordType {
    /// An event's attribute (64).
    pub const PERF_HEADER_ATTR: UserRecordType = UserRecordType {
        record_type: RecordType(PERF_RECORD_HEADER_ATTR),
    };

    /// The name of an event type, in old pipes (65).
    pub const PERF_HEADER_EVENT_TYPE: UserRecordType = UserRecordType {
        record_type: RecordType(PERF_RECORD_HEADER_EVENT_TYPE),
    };

    /// The formats of tracepoints, which follow the record (66).
    pub const PERF_HEADER_TRACING_DATA: UserRecordType = UserRecordType {
        record_type: RecordType(PERF_RECORD_HEADER_TRACING_DATA),
    };

    /// A build id (67).
    pub const PERF_HEADER_BUILD_ID: UserRecordType = UserRecordType {
        record_type: RecordType(PERF_RECORD_HEADER_BUILD_ID),
    };

    /// The marker that ends a round; the reader never returns it (68).
    pub const PERF_FINISHED_ROUND: UserRecordType = UserRecordType {
        record_type: RecordType(PERF_RECORD_FINISHED_ROUND),
    };

    /// The events that ids belong to (69).
    pub const PERF_ID_INDEX: UserRecordType = UserRecordType {
        record_type: RecordType(PERF_RECORD_ID_INDEX),
    };

    /// The format of the aux data (70).
    pub const PERF_AUXTRACE_INFO: UserRecordType = UserRecordType {
        record_type: RecordType(PERF_RECORD_AUXTRACE_INFO),
    };

    /// An auxtrace record, followed by its aux data (71).
    pub const PERF_AUXTRACE: UserRecordType = UserRecordType {
        record_type: RecordType(PERF_RECORD_AUXTRACE),
    };

    /// An error in aux data (72).
    pub const PERF_AUXTRACE_ERROR: UserRecordType = UserRecordType {
        record_type: RecordType(PERF_RECORD_AUXTRACE_ERROR),
    };

    /// The recorded threads (73).
    pub const PERF_THREAD_MAP: UserRecordType = UserRecordType {
        record_type: RecordType(PERF_RECORD_THREAD_MAP),
    };

    /// The recorded CPUs (74).
    pub const PERF_CPU_MAP: UserRecordType = UserRecordType {
        record_type: RecordType(PERF_RECORD_CPU_MAP),
    };

    /// The options of `perf stat` (75).
    pub const PERF_STAT_CONFIG: UserRecordType = UserRecordType {
        record_type: RecordType(PERF_RECORD_STAT_CONFIG),
    };

    /// The value of a counter (76).
    pub const PERF_STAT: UserRecordType = UserRecordType {
        record_type: RecordType(PERF_RECORD_STAT),
    };

    /// A round of counter values (77).
    pub const PERF_STAT_ROUND: UserRecordType = UserRecordType {
        record_type: RecordType(PERF_RECORD_STAT_ROUND),
    };

    /// Additional information on an event, such as its unit or name (78).
    pub const PERF_EVENT_UPDATE: UserRecordType = UserRecordType {
        record_type: RecordType(PERF_RECORD_EVENT_UPDATE),
    };

    /// The conversion between times and the time stamp counter (79).
    pub const PERF_TIME_CONV: UserRecordType = UserRecordType {
        record_type: RecordType(PERF_RECORD_TIME_CONV),
    };

    /// The data of a feature section (80).
    pub const PERF_HEADER_FEATURE: UserRecordType = UserRecordType {
        record_type: RecordType(PERF_RECORD_HEADER_FEATURE),
    };

    /// Compressed records (81).
    pub const PERF_COMPRESSED: UserRecordType = UserRecordType {
        record_type: RecordType(PERF_RECORD_COMPRESSED),
    };

    /// Compressed records, padded to a multiple of eight bytes (83).
    pub const PERF_COMPRESSED2: UserRecordType = UserRecordType {
        record_type: RecordType(PERF_RECORD_COMPRESSED2),
    };

    /// The kernel's symbols.
    pub const SIMPLEPERF_KERNEL_SYMBOL: UserRecordType = UserRecordType {
        record_type: RecordType(SIMPLE_PERF_RECORD_KERNEL_SYMBOL),
    };

    /// A mapped file.
    pub const SIMPLEPERF_DSO: UserRecordType = UserRecordType {
        record_type: RecordType(SIMPLE_PERF_RECORD_DSO),
    };

    /// A symbol of a mapped file.
    pub const SIMPLEPERF_SYMBOL: UserRecordType = UserRecordType {
        record_type: RecordType(SIMPLE_PERF_RECORD_SYMBOL),
    };

    /// A part of a record that is longer than 65,535 bytes.
    pub const SIMPLEPERF_SPLIT: UserRecordType = UserRecordType {
        record_type: RecordType(SIMPLE_PERF_RECORD_SPLIT),
    };

    /// The end of a split record.
    pub const SIMPLEPERF_SPLIT_END: UserRecordType = UserRecordType {
        record_type: RecordType(SIMPLE_PERF_RECORD_SPLIT_END),
    };

    /// The events that ids belong to.
    pub const SIMPLEPERF_EVENT_ID: UserRecordType = UserRecordType {
        record_type: RecordType(SIMPLE_PERF_RECORD_EVENT_ID),
    };

    /// An unwound call chain.
    pub const SIMPLEPERF_CALLCHAIN: UserRecordType = UserRecordType {
        record_type: RecordType(SIMPLE_PERF_RECORD_CALLCHAIN),
    };

    /// The result of unwinding a stack.
    pub const SIMPLEPERF_UNWINDING_RESULT: UserRecordType = UserRecordType {
        record_type: RecordType(SIMPLE_PERF_RECORD_UNWINDING_RESULT),
    };

    /// The formats of tracepoints.
    pub const SIMPLEPERF_TRACING_DATA: UserRecordType = UserRecordType {
        record_type: RecordType(SIMPLE_PERF_RECORD_TRACING_DATA),
    };
}

impl UserRecordType {
    ghost use Rattle.perfdata_records.specs.UserRecordType.{user_type_number};

    /// Returns the user type with this number, or `None` for the kernel's types, which are below 64.
    pub fn try_from(record_type: RecordType) -> Option<UserRecordType>
        ensures user { IsSome result ↔ (64 ≤ record_type.0) }
        ensures same_number { IfSome result (λ t. user_type_number t ≡ record_type.0) }
    {
        if record_type.0 >= 64 {
            Some(UserRecordType { record_type })
        } else {
            None
        }
    }

    /// Returns the type as a `RecordType`.
    pub fn record_type(&self) -> RecordType
        ensures same_number { result.0 ≡ user_type_number self.now }
        ensures user { 64 ≤ result.0 }
    {
        self.record_type
    }
}

impl From<UserRecordType> for RecordType {
    ghost use Rattle.perfdata_records.specs.UserRecordType.{user_type_number};

    ghost from_gives = { λ user all. all.0 ≡ user_type_number user };

    fn from(user: UserRecordType) -> RecordType {
        user.record_type()
    }
}

// Returns the name of a type's constant, for the types that perf and simpleperf write.
#[tactic(auto, unfolding(crate::specs::UserTypeNames::user_type_name))]
fn type_name(number: u32) -> Option<&'static str>
    ensures { option_map (λ s. s.now) result ≡ user_type_name number }
{
    match number {
        PERF_RECORD_HEADER_ATTR => Some("PERF_HEADER_ATTR"),
        PERF_RECORD_HEADER_EVENT_TYPE => Some("PERF_HEADER_EVENT_TYPE"),
        PERF_RECORD_HEADER_TRACING_DATA => Some("PERF_HEADER_TRACING_DATA"),
        PERF_RECORD_HEADER_BUILD_ID => Some("PERF_HEADER_BUILD_ID"),
        PERF_RECORD_FINISHED_ROUND => Some("PERF_FINISHED_ROUND"),
        PERF_RECORD_ID_INDEX => Some("PERF_ID_INDEX"),
        PERF_RECORD_AUXTRACE_INFO => Some("PERF_AUXTRACE_INFO"),
        PERF_RECORD_AUXTRACE => Some("PERF_AUXTRACE"),
        PERF_RECORD_AUXTRACE_ERROR => Some("PERF_AUXTRACE_ERROR"),
        PERF_RECORD_THREAD_MAP => Some("PERF_THREAD_MAP"),
        PERF_RECORD_CPU_MAP => Some("PERF_CPU_MAP"),
        PERF_RECORD_STAT_CONFIG => Some("PERF_STAT_CONFIG"),
        PERF_RECORD_STAT => Some("PERF_STAT"),
        PERF_RECORD_STAT_ROUND => Some("PERF_STAT_ROUND"),
        PERF_RECORD_EVENT_UPDATE => Some("PERF_EVENT_UPDATE"),
        PERF_RECORD_TIME_CONV => Some("PERF_TIME_CONV"),
        PERF_RECORD_HEADER_FEATURE => Some("PERF_HEADER_FEATURE"),
        PERF_RECORD_COMPRESSED => Some("PERF_COMPRESSED"),
        PERF_RECORD_COMPRESSED2 => Some("PERF_COMPRESSED2"),
        SIMPLE_PERF_RECORD_KERNEL_SYMBOL => Some("SIMPLEPERF_KERNEL_SYMBOL"),
        SIMPLE_PERF_RECORD_DSO => Some("SIMPLEPERF_DSO"),
        SIMPLE_PERF_RECORD_SYMBOL => Some("SIMPLEPERF_SYMBOL"),
        SIMPLE_PERF_RECORD_SPLIT => Some("SIMPLEPERF_SPLIT"),
        SIMPLE_PERF_RECORD_SPLIT_END => Some("SIMPLEPERF_SPLIT_END"),
        SIMPLE_PERF_RECORD_EVENT_ID => Some("SIMPLEPERF_EVENT_ID"),
        SIMPLE_PERF_RECORD_CALLCHAIN => Some("SIMPLEPERF_CALLCHAIN"),
        SIMPLE_PERF_RECORD_UNWINDING_RESULT => Some("SIMPLEPERF_UNWINDING_RESULT"),
        SIMPLE_PERF_RECORD_TRACING_DATA => Some("SIMPLEPERF_TRACING_DATA"),
        _ => None,
    }
}

impl fmt::Debug for UserRecordType {
    ghost use Rattle.perfdata_records.specs.UserRecordType.{user_type_number};

    ghost debug_output = { λ t. Some (user_type_text (user_type_number t)) };

    fn fmt<W: fmt::Write>(&self, f: &mut fmt::Formatter<W>) -> fmt::Result {
        let number = self.record_type().0;
        match type_name(number) {
            Some(name) => write!(f, "\"{name}\""),
            None => write!(f, "Unknown UserRecordType {number}"),
        }
    }
}

/// A record as the reader returns it.
#[derive(Clone, Copy)]
pub enum PerfFileRecord<'a> {
    /// A record that the kernel wrote, for the event with the attribute of index `attr_index`.
    EventRecord {
        attr_index: usize,
        event: RawEventRecord<'a>,
    },
    /// A record that a tool wrote.
    UserRecord(RawUserRecord<'a>),
}

impl<'a> PerfFileRecord<'a> {
    ghost use Rattle.perfdata_records.specs.FileRecord.{file_record_type, file_record_misc, file_record_body};
    ghost use Rattle.perfdata_records.specs.FileRecord.{file_record_attr_index};

    /// Returns the record's type: below 64 if the kernel wrote the record, 64 or above if a tool did.
    pub fn record_type(&self) -> RecordType
        ensures { result.0 ≡ file_record_type self.now }
    {
        match self {
            PerfFileRecord::EventRecord { event, .. } => event.record_type,
            PerfFileRecord::UserRecord(user) => user.record_type.record_type(),
        }
    }

    /// Returns the `misc` field of the record header.
    pub fn misc(&self) -> u16
        ensures { result ≡ file_record_misc self.now }
    {
        match self {
            PerfFileRecord::EventRecord { event, .. } => event.misc,
            PerfFileRecord::UserRecord(user) => user.misc,
        }
    }

    /// Returns all bytes after the record header, including aux data.
    pub fn body(&self) -> RawData<'a>
        ensures { result ≡ file_record_body self.now }
    {
        match self {
            PerfFileRecord::EventRecord { event, .. } => event.body,
            PerfFileRecord::UserRecord(user) => user.body,
        }
    }

    /// Returns the index of the attribute of the record's event, or `None` if a tool wrote the record.
    pub fn attr_index(&self) -> Option<usize>
        ensures { result ≡ file_record_attr_index self.now }
    {
        match self {
            PerfFileRecord::EventRecord { attr_index, .. } => Some(*attr_index),
            PerfFileRecord::UserRecord(_) => None,
        }
    }
}
