//! The records that tools write into perf.data files, and the build ids of mapped objects.
#![tactic(auto)]

pub mod auxtrace;
pub mod build_id_event;
pub mod dso_info;
pub mod dso_key;
pub mod laws;
pub mod record;
pub mod thread_map;
pub mod user_record;
