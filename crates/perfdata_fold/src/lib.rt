//! The samples of a recording, counted, and what is written of them in each format.
#![tactic(auto)]

pub mod counter;
pub mod format;
mod json_output;
pub mod messages;
pub mod output;
mod pprof_output;
