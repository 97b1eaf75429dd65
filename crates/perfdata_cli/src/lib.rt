//! What the programs share: their command lines and options, inputs, records in order of time, outputs,
//! errors and progress.
#![tactic(auto)]

pub mod args;
pub mod arguments;
pub mod command_line;
pub mod error;
pub mod input;
pub mod input_bytes;
pub mod other_format;
pub mod position;
pub mod progress;
pub mod recording;
pub mod selected;
pub mod text_output;
