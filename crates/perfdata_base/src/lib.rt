//! Byte sources, numbers, record headers, attributes and parse infos: the base of the perf.data and jitdump
//! readers.
#![tactic(auto)]

pub mod event;
pub mod header;
pub mod laws;
pub mod section;

pub use perfdata_identifiers::{features, place};
pub use perfdata_sources::{attr, endian, raw, source};
