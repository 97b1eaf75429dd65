//! Call frame information: for each address of code, how the caller's registers are found.
//!
//! It is in the sections `.eh_frame` (Linux Standard Base) and `.debug_frame` (DWARF 5, section 6.4) of an
//! ELF file. [`FrameTable`] is made of the bytes of such a section and its address.
//! [`FrameTable::find`] returns the entry that describes an address, and [`FrameTable::row`] runs the
//! instructions of the entry up to the address.
#![tactic(auto)]

mod byte_range;
mod cie;
mod entry;
mod error;
mod fde;
mod frame_table;
mod instruction;
pub mod laws;
mod leb128;
mod pointers;
mod row;
mod row_program;
mod table;

pub use byte_range::ByteRange;
pub use cie::Cie;
pub use entry::FrameSection;
pub use error::CfiError;
pub use fde::Fde;
pub use frame_table::FrameTable;
pub use instruction::{Instruction, Machine};
pub use leb128::{read_fixed, read_sleb128, read_uleb128};
pub use row::{Cfa, REGISTER_COUNT, Row, Rule};
pub use table::RowAtAddress;
