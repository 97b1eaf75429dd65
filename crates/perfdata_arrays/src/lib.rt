//! Parses recordings in memory into tables of plain numbers, which a caller in any language can read from an
//! array: records, samples with the frames of their call chains, tasks, mappings, counter values, attributes,
//! features, and what simpleperf and jitdumps add.
//!
//! Each call keeps no state. It fills arrays that the caller passes, and returns counts. A slice in memory
//! never fails and never pauses: the entries are exactly those of the records of the input's layout.
#![tactic(auto)]

pub mod array;
pub mod attrs;
pub mod build_ids;
pub mod byte_order;
pub mod counters;
mod decoder;
pub mod decompressing;
pub mod envelope;
mod event_entries;
pub mod feature_set;
pub mod features;
pub mod finishing;
mod formats;
pub mod jit;
pub mod jit_bodies;
pub mod jit_debug;
pub mod laws;
pub mod mappings;
pub mod meta_info;
mod metadata;
pub mod opening;
mod output;
pub mod pages;
pub mod records;
pub mod samples;
pub mod sort;
pub mod status;
pub mod strings;
pub mod symbol_tables;
pub mod tasks;
pub mod tracing_data;
