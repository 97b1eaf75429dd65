//! DWARF debugging information: for each address of code, the functions and the source lines.
//!
//! The entries of `.debug_info` say which functions lie at an address and which functions were copied into
//! them, the line programs of `.debug_line` which line an instruction was made from (DWARF 5, sections 3.3
//! and 6.2). [`DebugInfo`] is made of the bytes of the sections. [`DebugInfo::find`] returns the functions
//! and lines at an address.
#![tactic(auto)]

mod abbreviations;
mod candidates;
mod debug_info;
mod entries;
mod error;
mod file;
mod fixed;
mod forms;
mod frames;
mod functions;
mod intervals;
mod line_header;
mod line_instruction;
mod line_program;
mod line_tables;
mod names;
mod paths;
mod ranges;
mod roots;
mod units;

pub use debug_info::DebugInfo;
pub use error::{DwarfError, UnitError};
pub use file::{AlternateInfo, Sections};
pub use fixed::Endianness;
pub use frames::{SourceFrame, SourceFrames};
pub use paths::SourcePath;
pub use ranges::AddressRange;
