//! What a profile says of its recording: which events were counted, how many samples they have, the recorded
//! command, and the program that it executed.
#![tactic(auto)]

pub mod command;
pub mod event_name;
pub mod events;
pub mod heading;
pub mod notes;
pub mod overview;
mod pattern;
pub mod program;
pub mod sample_summary;
pub mod weight;
