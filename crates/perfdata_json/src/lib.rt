//! Writes the records of a `perf.data` file or of a pipe as JSON (RFC 8259), one line a record.
#![tactic(auto)]

mod body;
mod fields;
mod kernel;
pub mod line;
mod names;
mod sample;
mod serializer;
mod user;

pub use line::JsonLine;
