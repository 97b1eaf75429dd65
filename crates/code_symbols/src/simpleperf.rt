//! The symbols of a file in a recording by simpleperf.

ghost use Rattle.std.specs.Prelude.{◌≡◌};
ghost use Rattle.perfdata_simpleperf.specs.FileRecord.{record_value};
ghost use Rattle.code_symbols.specs.SimpleperfSymbols.{shift_of};

use crate::ranked::{RankedSymbol, RankedSymbols};
use crate::symbol::Symbol;
use crate::table::SymbolTable;
use perfdata_simpleperf::simpleperf::{
    SimpleperfFileRecord, SimpleperfSymbol, SimpleperfTypeSpecificInfo,
};
use std::alloc::{AllocError, Global};

// What is added to the address of a symbol, modulo 2^64, for what it is found at: an offset in an ELF file,
// an offset in the memory of a kernel module, and the address itself for other files.
fn address_shift(record: &SimpleperfFileRecord) -> u64
    ensures { result ≡ shift_of (record_value record.now) }
{
    match &record.type_specific_msg {
        Some(SimpleperfTypeSpecificInfo::ElfFile(elf)) => {
            elf.file_offset_of_min_vaddr.wrapping_sub(record.min_vaddr)
        }
        Some(SimpleperfTypeSpecificInfo::KernelModule(module)) => module
            .memory_offset_of_min_vaddr
            .wrapping_sub(record.min_vaddr),
        _ => 0,
    }
}

// Adds a symbol and its name.
fn add_symbol(
    symbols: &mut RankedSymbols,
    symbol: &SimpleperfSymbol,
    shift: u64,
) -> Result<(), AllocError> {
    let name_start = symbols.names.len();
    symbols.names.extend_from_slice(symbol.name.as_bytes())?;
    symbols.symbols.push(RankedSymbol {
        symbol: Symbol {
            start: symbol.vaddr.wrapping_add(shift),
            size: symbol.len as u64,
            name_start,
            name_end: symbols.names.len(),
        },
        is_made: false,
        is_compatibility: false,
        is_weak: false,
        is_global: true,
        section_end: u64::MAX,
    })?;
    Ok(())
}

/// Makes a table of the symbols of a file. The symbol with the greatest start is preferred.
///
/// The starts are, modulo 2^64, for an ELF file offsets in it (`vaddr - min_vaddr +
/// file_offset_of_min_vaddr`), for a kernel module offsets from the start of its mapping (`vaddr - min_vaddr
/// + memory_offset_of_min_vaddr`), and for other files the recorded addresses.
pub fn table_of_record(
    alloc: Global,
    record: &SimpleperfFileRecord,
) -> Result<SymbolTable, AllocError> {
    let mut symbols = RankedSymbols::new(alloc);
    let shift = address_shift(record);
    'symbols: for symbol in record.symbol.iter() {
        add_symbol(&mut symbols, symbol, shift)?;
    }
    symbols.into_table(alloc)
}
