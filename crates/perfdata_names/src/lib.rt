//! The symbols of frames: of mapped files, of the recording itself, of generated code and of the kernel.
#![tactic(auto)]

mod address_base;
mod jitdumps;
mod kernel_symbols;
mod kernel_table;
pub mod symbols;

pub use kernel_symbols::{KERNEL_LIST_PATH, KernelList, MissingKernelSymbols};
pub use symbols::{SymbolId, SymbolName, Symbols, TableId};
