//! Symbol tables, and readers that make them: of ELF files, perf-PID.map files, the kernel's list of symbols,
//! jitdumps and the symbols that simpleperf records.
#![tactic(auto)]

mod boundary;
pub mod crc;
pub mod elf;
pub mod error;
pub mod jit;
pub mod kallsyms;
mod layer;
mod merge;
pub mod perf_map;
pub mod ranked;
pub mod simpleperf;
pub mod symbol;
pub mod table;
mod text;

pub use crc::Crc32;
pub use elf::{
    AlternateLink, Compression, CompressionFormat, DebugLink, ElfFile, PltRange, SectionBytes,
    Segment, SymbolSection, build_id_of_notes,
};
pub use error::{ElfError, ElfTable, JitSymbolsError};
pub use jit::JitSymbols;
pub use kallsyms::{parse_kallsyms, symbol_address, symbol_module};
pub use perf_map::parse_perf_map;
pub use ranked::{RankedSymbol, RankedSymbols};
pub use simpleperf::table_of_record;
pub use symbol::Symbol;
pub use table::SymbolTable;
