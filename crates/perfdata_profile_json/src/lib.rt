//! Writes a profile as JSON (RFC 8259): its tables, whose columns are arrays.
#![tactic(auto)]

mod columns;
pub mod document;
mod samples;
mod stack_nodes;
mod tables;
mod texts;
