//! The identifiers and times of records, and the features of files.
#![tactic(auto)]

pub mod features;
pub mod place;
