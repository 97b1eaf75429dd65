//! The stacks of recordings in memory, as arrays of plain structs: samples in order of time with the names of
//! their threads, their frames with the mapping and the offset in the mapped file, and the mappings.
//!
//! Each call keeps no state. It fills arrays that the caller passes.
#![tactic(auto)]

mod array;
mod events;
pub mod frame;
pub mod laws;
pub mod mapping;
mod names;
mod records;
pub mod stack;
pub mod stacks;
mod state;
pub mod totals;
