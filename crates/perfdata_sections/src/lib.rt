//! The parts of perf.data files: errors, record type numbers, and the sections that describe a file.
#![tactic(auto)]

pub mod bytes;
pub mod constants;
pub mod decode_error;
pub mod error;
pub mod event_type;
pub mod feature_sections;
pub mod laws;
