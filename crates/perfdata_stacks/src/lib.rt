//! The frames of samples, and the text of their names in a line.
//!
//! [`frames::SampleFrames`] returns the frames of a sample, and [`line::push_name`] and [`line::push_comm`]
//! write the names of a line.
#![tactic(auto)]

pub mod frames;
pub mod laws;
pub mod line;
