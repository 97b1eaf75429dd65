//! The bodies of kernel records: what the fields of each type hold (`perf_event.h` of Linux).
//!
//! [`format::EventFormat`] describes the records of one attribute. Its `parse` parses a record by its type,
//! and its `sample_id` returns who wrote the record, when and where, with nothing allocated.
//! [`formats::EventFormats`] has the formats of a recording's attributes.
#![tactic(auto)]

pub mod aux_area;
pub mod context_switch;
pub mod event;
mod fields;
pub mod format;
pub mod formats;
pub mod kernel;
pub mod laws;
pub mod lost;
pub mod mmap;
pub mod mmap2;
pub mod read_values;
pub mod record_id;
pub mod record_masks;
pub mod sample;
pub mod sample_bits;
pub mod sample_id;
pub mod task;

pub use fields::{call_chain, registers, u64s, words};
pub use sample::{parts as sample_parts, words as sample_words};
