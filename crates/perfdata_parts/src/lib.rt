//! The parts of perf.data files under one roof: errors, constants, the sections that describe a file, what
//! simpleperf adds, and the records that tools write.
#![tactic(auto)]

pub use perfdata_records::{
    auxtrace, build_id_event, dso_info, dso_key, record, thread_map, user_record,
};
pub use perfdata_sections::{
    bytes, constants, decode_error, error, event_type, feature_sections, laws,
};
pub use perfdata_simpleperf::{protobuf, simpleperf};
