//! Parsers for the sections that Android's simpleperf adds to perf.data files, and for the protobuf messages
//! in them.
#![tactic(auto)]

pub mod laws;
pub mod protobuf;
pub mod simpleperf;
