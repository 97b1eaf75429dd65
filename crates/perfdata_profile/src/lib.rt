//! A profile: how many samples each stack has.
//!
//! A [`builder::ProfileBuilder`] is given the records of a recording in order of time. A
//! [`resolver::Resolver`] says which frames a sample has, and names threads, functions and files.
//! [`interned::Interned`] stores each name, mapping, list of lines, location and stack once, and
//! [`sums::SampleSums`] adds up the samples of each thread, stack and event, and if they are asked for
//! [`sample_list::SampleList`] has each of them with its time.
#![tactic(auto)]

pub mod builder;
mod cache;
mod chain_cache;
pub mod error;
pub mod function_kinds;
pub mod interned;
pub mod laws;
pub mod lines;
mod locating;
pub mod locations;
pub mod mapping_order;
pub mod mappings;
pub mod names;
pub mod options;
pub mod profile;
pub mod resolver;
pub mod sample_list;
pub mod stacks;
pub mod sums;
