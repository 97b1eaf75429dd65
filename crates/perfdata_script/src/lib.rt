//! The text of a sample, as `perf script` prints it.
//!
//! [`layout::ScriptLayout`] says which fields the text of a sample of an event has, [`head::push_head`] and
//! [`frame::push_frame`] write them, and [`paths::push_path`] names the file of a frame.
#![tactic(auto)]

pub mod frame;
pub mod head;
pub mod layout;
pub mod paths;
