//! Reads perf.data files and pipes piece by piece: the records of a chunk, which is a part of an input, as
//! entries; where an input's records are; and the attributes in the records of a pipe.
//!
//! Each call keeps no state. A caller passes the bytes that he has, and calls again with the bytes that the
//! last call didn't consume and more. The records of all calls are those of one call with all bytes, however
//! the input is cut.
#![tactic(auto)]

mod attributes;
pub mod common;
pub mod events;
mod framing;
pub mod input_errors;
pub mod jit_records;
pub mod late_attr;
pub mod laws;
mod metadata;
pub mod numbers;
pub mod opening;
pub mod records;
mod single_records;
pub mod status;
