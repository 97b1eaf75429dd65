//! The lines of a listing as text, and writers that count lines.
#![tactic(auto)]

pub mod jit_line;
pub mod line;
pub mod line_format;
pub mod output;
